// What an instruction list is drawn from.
ghost use Rattle.draw.specs.Engine.Tables.{Tables};

// A list with the strings and the font that it names, each as long as such a bank, and how many bits a pixel of a
// glyph has.
#[derive(Clone, Copy)]
pub struct Banks<'a> {
    pub bits: usize,
    pub list: &'a [u8],
    pub strings: &'a [u8],
    pub font: &'a [u8],
    pub ghost tables: { Tables bits list.now strings.now font.now },
}
