// What a plan is made from.
ghost use Rattle.std.specs.Prelude.{◌≡◌, ◌≤◌, length};
ghost use Rattle.tables.specs.Geometry.{tables_len};

// The words and the number of a frame, and the tables, as long as one with so many bits a glyph's pixel has them.
#[derive(Clone, Copy)]
pub struct Source<'a> {
    pub bits: usize,
    pub words: &'a [u32; 52],
    pub frame: u32,
    pub tables: &'a [u8],
    pub ghost long: { (bits ≤ 2) × (length tables.now ≡ tables_len bits) },
}
