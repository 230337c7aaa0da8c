// Where pictures begin, as code holds it: the record of `pictures_of` too.

// Where each frame layer's picture begins in its buffer, and the total lengths of both buffers: of the bytes, and of the
// floats in f32 numbers.
#[derive(Clone, Copy)]
pub struct Pictures {
    pub starts: [u32; 8],
    pub bytes: u32,
    pub floats: u32,
}
