// Every blend at one alpha, painted over a dirty buffer: a screen of 256 by 86 pixels, whose
// channels in a row are pairs of what lies over and what is under, 65,536 different ones.
ghost use Rattle.std.specs.Prelude.{◌≡◌, length};

use crate::buffers::TABLES_LEN;
use crate::checksum::{NONE, checksum, with_byte};
use crate::print;
use crate::screen::{GLOBAL, Lent, Screen};
use numbers::filled;
use std::io;

const SIZE: u32 = 86 * 65536 + 256;

// The bytes of that screen, by a call that tells how many they are.
fn pixels() -> [u8; 88064]
    ensures { 88064 ≡ length result }
{
    filled(0)
}

// The screen with a layer all over it that has that alpha word, started.
fn layered(word: u32) -> Screen {
    let mut screen = Screen::covered(SIZE);
    screen.write(5, word);
    screen.start();
    screen
}

// The number of the pair that a byte of the screen belongs to. An alpha byte has the next one's.
fn pair_of(i: usize) -> usize {
    i / 4 * 3 + i % 4
}

// What lies under: the pair's higher byte, and that in the alpha bytes too, which must stay.
fn lay_under(out: &mut [u8]) {
    for (i, byte) in out.iter_mut().enumerate() {
        *byte = (pair_of(i) / 256 % 256) as u8;
    }
}

// The alpha of the pixel that a byte belongs to: one for all, or one more from pixel to pixel.
fn alpha_at(i: usize, alpha: u8, mixed: bool) -> u8 {
    if mixed {
        return ((usize::from(alpha) + i / 4 % 256) % 256) as u8;
    }
    alpha
}

fn over_at(i: usize, alpha: u8, mixed: bool) -> u8 {
    if i % 4 == 3 {
        return alpha_at(i, alpha, mixed);
    }
    (pair_of(i) % 256) as u8
}

// What lies over: the pair's lower byte, with an alpha.
fn lay_over(pictures: &mut [u8], alpha: u8, mixed: bool) {
    for (i, byte) in pictures.iter_mut().enumerate() {
        *byte = over_at(i, alpha, mixed);
    }
}

// The checksum of the painted screen.
fn painted(
    word: u32,
    alpha: u8,
    mixed: bool,
    tables: &[u8],
    pictures: &mut [u8],
    out: &mut [u8],
) -> u32 {
    let none: [f32; 0] = [];
    lay_over(pictures, alpha, mixed);
    lay_under(out);
    let lent = Lent {
        tables,
        pictures,
        floats: &none,
    };
    layered(word).paint(0, 8, lent, out);
    checksum(out)
}

// The checksum of the pairs in their order, blended with no display.
fn called(alpha: u8) -> u32 {
    let mut sum = NONE;
    for pair in 0..65536u32 {
        let over = (pair % 256) as u8;
        let under = (pair / 256 % 256) as u8;
        sum = with_byte(sum, mix::blend(alpha, over, under));
    }
    sum
}

// Four checksums: the alpha is each pixel's own; it is the layer's, and the pixels' own is another;
// it is the first pixel's, and the next pixel's is one more; `mix::blend` alone.
pub fn show(rt: &impl Print, alpha: u8) -> io::Result<()> {
    let tables = filled::<u8, TABLES_LEN>(0);
    let mut pictures = pixels();
    let mut out = pixels();
    let global = GLOBAL + u32::from(alpha);
    print::letter(rt, b'M')?;
    print::column(rt, u32::from(alpha), 2)?;
    let own = painted(0, alpha, false, &tables, &mut pictures, &mut out);
    print::column(rt, own, 8)?;
    let layers = painted(global, 255 - alpha, false, &tables, &mut pictures, &mut out);
    print::column(rt, layers, 8)?;
    let mixed = painted(0, alpha, true, &tables, &mut pictures, &mut out);
    print::column(rt, mixed, 8)?;
    print::column(rt, called(alpha), 8)?;
    print::end_line(rt)
}
