// Colour indexes as pixels, and a row of one colour. Each is one function with one contract, so that its
// inside can be made faster and nothing above it is proved again. Nothing here knows of layers or frames.
#![tactic(auto)]

ghost use Rattle.std.specs.Prelude.{◌≡◌, ◌*◌, ◌%◌, length};
ghost use Rattle.lists.specs.Tab.{tab};
ghost use Rattle.mix.specs.Pixel.{pixel_len};
ghost use Rattle.colours.specs.Rows.{palette_len, colour_byte, solid_byte, PaletteOf};

mod rows;

use mix::Ground;
pub use rows::{fill_rest, index_of, is_same, repeat16, solid_pixel};
use sixteen::pixels::pixels;

// The colours of a bank as words, for `expand`. They are as many as the pixels of a block, and are read
// as one.
pub fn palette(colours: &[u8]) -> [u32; 16]
    requires { length colours.now ≡ palette_len }
    ensures { PaletteOf result colours.now }
{
    pixels(colours, 0)
}

// Writes a line of colour indexes as a row of pixels. The palette comes as words, made once, since
// a pixel is then one read and one store.
pub fn expand(line: &[u8], palette: &[u32; 16], row: &mut [u8])
    requires { length row.old ≡ pixel_len * length line.now }
    ensures { row.new ≡ tab (length row.old) (colour_byte line.now palette.now) }
{
    let j = rows::expand_blocks(line, palette, row);
    rows::expand_rest(line, palette, row, j);
}

// Fills a row with one opaque colour.
pub fn fill(out: &mut [u8], ground: Ground)
    requires { length out.old % pixel_len ≡ 0 }
    ensures { out.new ≡ tab (length out.old) (solid_byte ground.c0 ground.c1 ground.c2) }
{
    let i = rows::fill_blocks(out, ground);
    rows::fill_rest(out, i, ground);
}
