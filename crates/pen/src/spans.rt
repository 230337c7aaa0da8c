// The rows that each instruction of a list can touch, worked out once for all lines of a painting, so that a
// line passes over the instructions beside it without a look at their words. A span is one word: the first row
// in its lower half, and the first row after those of the instruction in its upper one. It stays a word and no pair, since
// `Spanned` and `list-spans-unique` tell of words.
ghost use Rattle.std.specs.Prelude.{◌≡◌, ◌≤◌, ◌<◌, ◌^◌, length};
ghost use Rattle.tables.specs.Geometry.{instructions, list_len};
ghost use Rattle.pen.specs.Engine.Spans.{rows, on_span, Span, Spanned};

use draw::instruction::{opcode, scale, word_of};
use tables::GLYPH_ROWS;

// What the upper half counts. Both rows fit: a first row has twelve bits, and a text is at most 64 rows high.
const HALF: u32 = 65536;

// Whether row v is one of a span's.
#[tactic(auto, unfolding(crate::specs::Engine::Spans::on_span))]
pub fn is_on(span: u32, v: usize) -> bool
    ensures { result ≡ on_span span v }
{
    let first = (span % HALF) as usize;
    let end = (span / HALF) as usize;
    first <= v && v < end
}

// The rows from `top` up to but not `end`.
fn span(top: usize, end: usize) -> u32
    requires { (top < 2 ^ 16) × (end < 2 ^ 16) }
    ensures { result ≡ rows top end }
{
    (top as u32) + HALF * (end as u32)
}

// The rows of instruction k: those of its box, of its text, or of both, which begin on the same row. Another
// instruction draws nothing and has none.
fn span_of(ins: &[u8], k: usize) -> u32
    requires { (length ins.now ≡ list_len) × (k < instructions) }
    ensures { Span ins.now k result }
{
    let w2 = word_of(ins, k, 2);
    let top = w2 % 4096;
    let box_end = w2 / 4096 % 4096 + 1;
    let text_end = top + GLYPH_ROWS * scale(w2 / 1073741824);
    match opcode(ins, k) {
        10 => span(top, box_end),
        12 => span(top, text_end),
        14 => span(top, box_end.max(text_end)),
        _ => 0,
    }
}

// The spans of the first `count` instructions, in as many words.
pub fn list_spans(spans: &mut [u32], ins: &[u8], count: usize)
    requires { (length ins.now ≡ list_len) × (count ≤ instructions) × (count ≤ length spans.old) }
    ensures { Spanned ins.now count spans.new }
{
    for k in 0..count {
        spans[k] = span_of(ins, k);
    }
}
