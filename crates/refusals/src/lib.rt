// What painting refuses, in document 01's order, by the words and the buffers' lengths.
#![tactic(auto)]

ghost use Rattle.std.specs.Prelude.{◌≡◌, true, false, ◌≤◌, eqb};
ghost use Rattle.lists.specs.Choice.{pick, or_else};
ghost use Rattle.answers.specs.Answers.{done, pictures_length, floats_length};
ghost use Rattle.answers.specs.Refusals.{number_of, answer_of};
ghost use Rattle.words.specs.Pictures.{pictures_len};
ghost use Rattle.frames.specs.Frame.{band_refusal, size_refusal, output_refusal, tables_refusal};
ghost use Rattle.frames.specs.Frame.{fill_refusal, paint_refusal};
ghost use Rattle.frames.specs.Line.{number_refusal, length_refusal, line_refusal};

use answers::Refusal;
use mix::PIXEL_LEN;
use tables::tables_len;
use words::fields::{screen_height, screen_width};
use words::pictures::Pictures;

// The depths that layers can have: a band's upper end is at most this.
pub const DEPTHS: u32 = 8;

// How long what is lent to read is: the floats in f32 numbers, the others in bytes.
#[derive(Clone, Copy)]
pub struct Lengths {
    pub tables: usize,
    pub pictures: usize,
    pub floats: usize,
}

// 15, of a band's lower and upper end.
fn band_refusal(low: u32, high: u32) -> Result<(), Refusal>
    ensures { answer_of result ≡ band_refusal low high }
{
    if high < low || DEPTHS < high {
        return Err(Refusal::NoBand);
    }
    Ok(())
}

// 12.
fn size_refusal(w: &[u32; 52]) -> Result<(), Refusal>
    ensures { answer_of result ≡ size_refusal w.now }
{
    if screen_width(w) == 0 || screen_height(w) == 0 {
        return Err(Refusal::NoSize);
    }
    Ok(())
}

// 13, of an output so long.
fn output_refusal(w: &[u32; 52], out: usize) -> Result<(), Refusal>
    ensures { answer_of result ≡ output_refusal w.now out }
{
    let width = screen_width(w) as usize;
    let height = screen_height(w) as usize;
    if out == PIXEL_LEN * (width * height) {
        return Ok(());
    }
    Err(Refusal::OutputLength)
}

// 6, of tables so long, where a glyph's pixel has so many bits.
fn tables_refusal(bits: usize, tables: usize) -> Result<(), Refusal>
    requires { bits ≤ 2 }
    ensures { answer_of result ≡ tables_refusal bits tables }
{
    if tables == tables_len(bits) {
        return Ok(());
    }
    Err(Refusal::TablesLength)
}

// A refusal, 14 or 18, of a buffer so long, where another length is asked.
fn buffer_refusal(asked: u32, lent: usize, refusal: Refusal) -> Result<(), Refusal>
    ensures { answer_of result ≡ pick (eqb lent asked) done (number_of refusal) }
{
    if lent == (asked as usize) {
        return Ok(());
    }
    Err(refusal)
}

// 6, then 14 and then 18, of what is lent to read.
fn lent_refusal(bits: usize, asked: Pictures, lent: Lengths) -> Result<(), Refusal>
    requires { bits ≤ 2 }
    ensures { answer_of result ≡ or_else (tables_refusal bits lent.tables)
        (or_else (pick (eqb lent.pictures asked.bytes) done pictures_length)
        (pick (eqb lent.floats asked.floats) done floats_length)) }
{
    tables_refusal(bits, lent.tables)?;
    buffer_refusal(asked.bytes, lent.pictures, Refusal::PicturesLength)?;
    buffer_refusal(asked.floats, lent.floats, Refusal::FloatsLength)
}

// What a fill refuses for an output so long: the first of 12, 13.
#[tactic(auto, unfolding(frames::specs::Frame::fill_refusal))]
pub fn fill_refusal(w: &[u32; 52], out: usize) -> Result<(), Refusal>
    ensures { answer_of result ≡ fill_refusal w.now out }
{
    size_refusal(w).and(output_refusal(w, out))
}

// What a band refuses for buffers so long: the first of 15, 12, 13, 6, 14, 18. A glyph's pixel has so many
// bits, and the words ask for such pictures. Told by parameters, as a line is below: the one caller of each would make
// a value of them for this call alone.
#[tactic(auto, unfolding(frames::specs::Frame::fill_refusal, frames::specs::Frame::paint_refusal))]
pub fn paint_refusal(
    bits: usize,
    w: &[u32; 52],
    asked: Pictures,
    low: u32,
    high: u32,
    out: usize,
    lent: Lengths,
) -> Result<(), Refusal>
    requires { (bits ≤ 2) × (asked.bytes ≡ pictures_len false w.now) × (asked.floats ≡ pictures_len true w.now) }
    ensures { answer_of result ≡ paint_refusal bits w.now low high out lent.tables lent.pictures lent.floats }
{
    band_refusal(low, high)?;
    fill_refusal(w, out)?;
    lent_refusal(bits, asked, lent)
}

// 15, of a line's number.
fn number_refusal(w: &[u32; 52], y: u32) -> Result<(), Refusal>
    ensures { answer_of result ≡ number_refusal w.now y }
{
    if y < (screen_height(w) as u32) {
        return Ok(());
    }
    Err(Refusal::NoBand)
}

// 13, of a line so long.
fn length_refusal(w: &[u32; 52], out: usize) -> Result<(), Refusal>
    ensures { answer_of result ≡ length_refusal w.now out }
{
    if out == PIXEL_LEN * (screen_width(w) as usize) {
        return Ok(());
    }
    Err(Refusal::OutputLength)
}

// What line y refuses for buffers so long: the first of 12, 15, 13, 6, 14, 18. A glyph's pixel has so many
// bits, and the words ask for such pictures.
#[tactic(auto, unfolding(frames::specs::Line::line_refusal))]
pub fn line_refusal(
    bits: usize,
    w: &[u32; 52],
    asked: Pictures,
    y: u32,
    out: usize,
    lent: Lengths,
) -> Result<(), Refusal>
    requires { (bits ≤ 2) × (asked.bytes ≡ pictures_len false w.now) × (asked.floats ≡ pictures_len true w.now) }
    ensures { answer_of result ≡ line_refusal bits w.now y out lent.tables lent.pictures lent.floats }
{
    size_refusal(w)?;
    number_refusal(w, y)?;
    length_refusal(w, out)?;
    lent_refusal(bits, asked, lent)
}
