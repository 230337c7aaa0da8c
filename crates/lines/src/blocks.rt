// A sheet that comes in blocks: lines gathered from their bytes, done once they have ended, and
// printed one behind the other.
ghost use Rattle.std.specs.Prelude.{◌≡◌, ◌+◌, ◌≤◌, ◌<◌, length, take};
ghost use Rattle.lists.specs.Over.{over};
ghost use Rattle.display.specs.Reached.{Arranged};
ghost use Rattle.texts.specs.Lines.{line_in};
ghost use Rattle.line.specs.Sizes.{most_printed};
ghost use Rattle.line.specs.Line.{printed_of};
ghost use Rattle.lines.specs.Sizes.{most_kept, out_len};
ghost use Rattle.lines.specs.Blocks.{line_begun, begun, turn_of, goes_on, feed_of, fed_of, finish_of};
ghost use Rattle.lines.specs.Engine.Turns.{line_run, line_fed, batch_at};

use crate::sizes::{MOST_KEPT, OUT_LEN};
use display::Display;
use line::{MOST_PRINTED, Printed};
use texts::gather;

// What goes on from call to call. Only `begin` and `feed` make one: its fields are closed to other
// crates.
#[derive(Clone, Copy)]
pub struct Going {
    state: Display,
    // How many bytes of a line have come; they stand at the front of the text.
    held: usize,
}

// What a call of `feed` answers.
#[derive(Clone, Copy)]
pub struct Fed {
    pub going: Going,
    // How many bytes of the block are used up.
    pub used: usize,
    // How many bytes were printed.
    pub count: usize,
}

// `crate::begin`.
pub fn first() -> Going
    ensures { result ≡ begun }
{
    let told = Display::new(1, false);
    Going {
        state: told.state,
        held: 0,
    }
}

// On to the end of one line at most. Where the line ends it is done and printed, else it is kept.
fn feed_line(going: Going, tables: &mut [u8], text: &mut [u8], block: &[u8], out: &mut [u8]) -> Fed
    requires { (length text.old ≡ most_kept) × (most_printed ≤ length out.old) × Arranged going.state }
    ensures value { result ≡ line_fed going tables.old text.old block.now }
    ensures tables_after { tables.new
        ≡ (line_run going tables.old text.old block.now).tables }
    ensures text_after { text.new
        ≡ over (line_in most_kept (line_begun going text.old) block.now) text.old }
    ensures out_after { out.new
        ≡ over (line_run going tables.old text.old block.now).printed
        out.old }
    ensures count_le_most_printed { result.count ≤ most_printed }
{
    let g = gather(text, going.held, block);
    if g.ended {
        let r = line::run_in(going.state, tables, &text[..g.kept], out);
        return Fed {
            going: Going {
                state: r.state,
                held: 0,
            },
            used: g.used,
            count: r.count,
        };
    }
    Fed {
        going: Going {
            state: going.state,
            held: g.kept,
        },
        used: g.used,
        count: 0,
    }
}

// One line more: its answer goes behind those that are printed.
fn turn(c: Fed, tables: &mut [u8], text: &mut [u8], block: &[u8], out: &mut [u8]) -> Fed
    requires { (c.used < length block.now) × (c.count + most_printed ≤ out_len) × (length text.old ≡ most_kept)
        × (length out.old ≡ out_len) × Arranged c.going.state }
    ensures out_after { batch_at result tables.new text.new out.new
        ≡ turn_of block.now (batch_at c tables.old text.old out.old) }
    ensures used_lt_used { (c.used < result.used) × (result.used ≤ length block.now) × (c.count ≤ result.count)
        × (result.count ≤ out_len) }
    ensures out_after_2 { out.new ≡ over (take result.count out.new) out.old }
{
    let fed = feed_line(c.going, tables, text, &block[c.used..], &mut out[c.count..]);
    Fed {
        going: fed.going,
        used: c.used + fed.used,
        count: c.count + fed.count,
    }
}

// Whether the loop below goes on: an answer is not begun that might not fit.
#[tactic(auto, unfolding(crate::specs::Blocks::goes_on))]
fn goes_on(len: usize, used: usize, count: usize) -> bool
    requires { count ≤ out_len }
    ensures { result ≡ goes_on len used count }
{
    used < len && count + MOST_PRINTED <= OUT_LEN
}

// `crate::feed` on slices.
pub fn feed_in(
    going: Going,
    tables: &mut [u8],
    text: &mut [u8],
    block: &[u8],
    out: &mut [u8],
) -> Fed
    requires { (length text.old ≡ most_kept) × (length out.old ≡ out_len) × Arranged going.state }
    ensures value { result ≡ fed_of (feed_of going tables.old text.old block.now) }
    ensures tables_after { tables.new
        ≡ (feed_of going tables.old text.old block.now).tables }
    ensures text_after { text.new
        ≡ (feed_of going tables.old text.old block.now).text }
    ensures out_after { out.new
        ≡ over (feed_of going tables.old text.old block.now).printed
        out.old }
    ensures used_nonzero { (0 < length block.now → 0 < result.used) × (result.used ≤ length block.now)
        × (result.count ≤ out_len) }
{
    let mut c = Fed {
        going,
        used: 0,
        count: 0,
    };
    while goes_on(block.len(), c.used, c.count) {
        c = turn(c, tables, text, block, out);
    }
    c
}

// `crate::finish` on slices.
pub fn finish_in(going: Going, tables: &mut [u8], text: &[u8], out: &mut [u8]) -> Printed
    requires { (length text.now ≡ most_kept) × (most_printed ≤ length out.old) × Arranged going.state }
    ensures value { result ≡ printed_of (finish_of going tables.old text.now) }
    ensures tables_after { tables.new ≡ (finish_of going tables.old text.now).tables }
    ensures out_after { out.new
        ≡ over (finish_of going tables.old text.now).printed out.old }
    ensures count_le_most_printed { result.count ≤ most_printed }
{
    let n = going.held.min(MOST_KEPT);
    if n == 0 {
        return Printed {
            state: going.state,
            count: 0,
        };
    }
    line::run_in(going.state, tables, &text[..n], out)
}
