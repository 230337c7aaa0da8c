// Text of an instruction, on one line: its characters from left to right, each a row of its glyph. A glyph's
// pixel has one bit or two; the columns of each value are a mask, drawn run by run in that value's colour.
#![tactic(auto)]

ghost use Rattle.std.specs.Prelude.{◌≡◌, ◌*◌, ◌≤◌, ◌<◌, ◌^◌, length};
ghost use Rattle.lists.specs.Tab.{each};
ghost use Rattle.tables.specs.Geometry.{instructions, strings as string_count, font_len, glyph_rows};
ghost use Rattle.draw.specs.Text.{glyph_columns, glyph_row, line_ink, row_after, string_after, text_of};
ghost use Rattle.draw.specs.Engine.Rows.{mask_ink, Marks};
ghost use Rattle.text.specs.Engine.Fours.{Fours};

use draw::banks::Banks;
use draw::instruction::{scale, word_of};
use draw::runs::fill_run;
use tables::{COLOUR_COUNT, GLYPH_ROWS, STRING_COUNT, STRING_LEN};

// The pixels of a glyph across.
const COLUMNS: usize = 8;

// The characters that have a glyph.
const FIRST: usize = 32;

const LAST: usize = 127;

// A cell of a text: how many pixels wide and high a pixel of its glyph is, where it begins on a line, and the text's
// colour.
#[derive(Clone, Copy)]
struct Cell {
    z: usize,
    x: usize,
    colour: usize,
    ghost small: { (0 < z) × (z ≤ 8) × (x < 8000) × (colour < 16) },
}

// The line of a character's glyph in a row, a byte or two, of which the first is the higher; 0 for a
// character without one.
fn glyph_row(bits: usize, font: &[u8], c: u8, row: usize) -> usize
    requires { (0 < bits) × (bits ≤ 2) × (length font.now ≡ font_len bits) × (row < glyph_rows) }
    ensures { (result ≡ glyph_row bits font.now c row) × (result < 2 ^ (8 * bits)) }
{
    let n = usize::from(c);
    if n < FIRST {
        return 0;
    }
    if LAST < n {
        return 0;
    }
    let line = GLYPH_ROWS * (n - FIRST) + row;
    if bits == 1 {
        return usize::from(font[line]);
    }
    256 * usize::from(font[2 * line]) + usize::from(font[2 * line + 1])
}

// Which of a byte's four pixels of two bits have the value k, the leftmost highest. A pixel that is k has
// no bit left once k is taken out of all four; what is left of each is joined in its lower bit, and the
// four lower bits are then moved together.
fn four(byte: usize, k: usize) -> usize
    requires { (byte < 256) × (k < 4) }
    ensures { Fours byte k result }
{
    let other = byte ^ (k * 85);
    let same = ((other | other / 2) & 85) ^ 85;
    let pairs = (same | same / 2) & 51;
    (pairs | pairs / 4) & 15
}

// The columns in which a glyph's line has the value k. With one bit there is one value, and the line itself
// is its mask.
fn mask_of(bits: usize, line: usize, k: usize) -> usize
    requires { (0 < bits) × (bits ≤ 2) × (line < 2 ^ (8 * bits)) × (0 < k) × (k < 2 * bits) }
    ensures { Marks bits line k result }
{
    if bits == 1 {
        return line;
    }
    16 * four(line / 256, k) + four(line % 256, k)
}

// A mask, run by run from the right, until no bit is left. With the zeros below its lowest run filled, one more carries the
// run into the place where it ends, as of 00110110 it makes 00111000.
fn draw_mask(line: &mut [u8], mask: usize, cell: Cell, colour: u8)
    requires { mask < 256 }
    ensures { line.new ≡ each (row_after (mask_ink mask colour) glyph_columns cell.z cell.x) line.old }
{
    let mut rest = mask;
    while rest != 0 {
        let carried = (rest | (rest - 1)) + 1;
        let low = usize::trailing_zeros(rest) as usize;
        let high = usize::trailing_zeros(carried) as usize;
        fill_run(
            line,
            cell.x + (COLUMNS - high) * cell.z,
            cell.x + (COLUMNS - low) * cell.z,
            colour,
        );
        rest = rest & carried;
    }
}

// A row of a glyph, value by value: the first in the text colour, each further one in the next colour. Many
// rows are blank.
fn draw_glyph(line: &mut [u8], bits: usize, row: usize, cell: Cell)
    requires { (0 < bits) × (bits ≤ 2) × (row < 2 ^ (8 * bits)) }
    ensures { line.new
        ≡ each (row_after (line_ink bits row cell.colour) glyph_columns cell.z cell.x) line.old }
{
    if row == 0 {
        return;
    }
    let last = 2 * bits - 1;
    for value in 0..last {
        let next = value + 1;
        let shade = ((cell.colour + value) % COLOUR_COUNT) as u8;
        draw_mask(line, mask_of(bits, row, next), cell, shade);
    }
}

// A row of string n, character by character up to the first zero byte, or to the line's end, from
// which on nothing is drawn.
fn draw_string(line: &mut [u8], banks: &Banks, n: usize, row: usize, first: Cell)
    requires { (n < string_count) × (row < glyph_rows) × (first.x < 4096) }
    ensures { line.new
        ≡ each (string_after banks.now.bits banks.now.strings.now banks.now.font.now n row first.z first.x first.colour) line.old }
{
    let mut at = first.x;
    for i in 0..STRING_LEN {
        if line.len() <= at {
            return;
        }
        let c = banks.strings[STRING_LEN * n + i];
        if c == 0 {
            return;
        }
        let glyph = glyph_row(banks.bits, banks.font, c, row);
        let cell = Cell {
            z: first.z,
            x: at,
            colour: first.colour,
        };
        draw_glyph(line, banks.bits, glyph, cell);
        at += COLUMNS * first.z;
    }
}

// Row v of the text of instruction k. A row beside the text costs one word and two tests.
pub fn draw_text(line: &mut [u8], banks: &Banks, k: usize, v: usize)
    requires { k < instructions }
    ensures { line.new
        ≡ each (text_of banks.now.bits banks.now.list.now banks.now.strings.now banks.now.font.now k v) line.old }
{
    let w2 = word_of(banks.list, k, 2);
    let y = w2 % 4096;
    let z = scale(w2 / 1073741824);
    if v < y {
        return;
    }
    if y + GLYPH_ROWS * z <= v {
        return;
    }
    let n = word_of(banks.list, k, 1) % 256;
    if STRING_COUNT <= n {
        return;
    }
    let first = Cell {
        z,
        x: word_of(banks.list, k, 0) % 4096,
        colour: word_of(banks.list, k, 3) / 256 % 256 % COLOUR_COUNT,
    };
    draw_string(line, banks, n, (v - y) / z, first);
}
