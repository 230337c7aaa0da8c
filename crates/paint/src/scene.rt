// What a frame is painted from.
ghost use Rattle.std.specs.Prelude.{◌≡◌, length};
ghost use Rattle.order.specs.Layout.{layout_of};

use order::Layout;
use profiles::Profile;
use refusals::Lengths;

// What was chosen when the state was made, the active words and what is worked out from them, the frame number, and the
// buffers that are lent to read.
#[derive(Clone, Copy)]
pub struct Scene<'a> {
    pub profile: Profile,
    pub words: &'a [u32; 52],
    pub layout: Layout,
    pub frame: u32,
    pub tables: &'a [u8],
    pub pictures: &'a [u8],
    pub floats: &'a [f32],
    pub ghost arranged: { layout ≡ layout_of words.now },
}

impl<'a> Scene<'a> {
    // How long the buffers are.
    pub fn lengths(&self) -> Lengths
        ensures tables { result.tables ≡ length self.now.tables.now }
        ensures pictures { result.pictures ≡ length self.now.pictures.now }
        ensures floats { result.floats ≡ length self.now.floats.now }
    {
        Lengths {
            tables: self.tables.len(),
            pictures: self.pictures.len(),
            floats: self.floats.len(),
        }
    }
}
