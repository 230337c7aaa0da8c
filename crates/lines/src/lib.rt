// A line of a sheet in, a line out; and a sheet that comes in blocks, many lines in a call. Nothing
// here reads or writes a file.
#![tactic(auto)]

ghost use Rattle.std.specs.Prelude.{◌≡◌, ◌≤◌, ◌<◌, length};
ghost use Rattle.lists.specs.Over.{over};
ghost use Rattle.display.specs.Reached.{Arranged};
ghost use Rattle.line.specs.Sizes.{most_printed};
ghost use Rattle.line.specs.Line.{line_of, printed_of};
ghost use Rattle.lines.specs.Sizes.{out_len};
ghost use Rattle.lines.specs.Blocks.{begun, feed_of, fed_of, finish_of};

use display::Display;

mod blocks;
mod sizes;

pub use blocks::{Fed, Going};
pub use line::{MOST_PRINTED, Printed};
pub use sizes::{MOST_KEPT, OUT_LEN};

// Does a line, without its line feed, and prints its answer with one. A badly formed, empty or too
// long line prints FE and does nothing; a refused one prints the first number met, and what was
// done before it stays.
pub fn run_line(
    state: Display,
    tables: &mut [u8],
    text: &[u8],
    out: &mut [u8; MOST_PRINTED],
) -> Printed
    requires { Arranged state }
    ensures printed { result ≡ printed_of (line_of state tables.old text.now) }
    ensures tables { tables.new ≡ (line_of state tables.old text.now).tables }
    ensures output { out.new
        ≡ over (line_of state tables.old text.now).printed out.old }
    ensures fits { result.count ≤ most_printed }
{
    line::run_in(state, tables, text, out)
}

// A sheet of which nothing has come: a fresh state.
pub fn begin() -> Going
    ensures { result ≡ begun }
{
    blocks::first()
}

// On in a block, line by line, until its bytes are used up or the next answer might not fit behind
// those that are printed. `text` keeps what has come of a line whose end has not.
pub fn feed(
    going: Going,
    tables: &mut [u8],
    text: &mut [u8; MOST_KEPT],
    block: &[u8],
    out: &mut [u8; OUT_LEN],
) -> Fed
    requires { Arranged going.state }
    ensures fed { result ≡ fed_of (feed_of going tables.old text.old block.now) }
    ensures tables { tables.new
        ≡ (feed_of going tables.old text.old block.now).tables }
    ensures text { text.new
        ≡ (feed_of going tables.old text.old block.now).text }
    ensures output { out.new
        ≡ over (feed_of going tables.old text.old block.now).printed
        out.old }
    ensures fits { (0 < length block.now → 0 < result.used) × (result.used ≤ length block.now)
        × (result.count ≤ out_len) }
{
    blocks::feed_in(going, tables, text, block, out)
}

// The end of a sheet: a last line without a line feed is done if it has any byte.
pub fn finish(
    going: Going,
    tables: &mut [u8],
    text: &[u8; MOST_KEPT],
    out: &mut [u8; OUT_LEN],
) -> Printed
    requires { Arranged going.state }
    ensures printed { result ≡ printed_of (finish_of going tables.old text.now) }
    ensures tables { tables.new ≡ (finish_of going tables.old text.now).tables }
    ensures output { out.new
        ≡ over (finish_of going tables.old text.now).printed out.old }
    ensures fits { result.count ≤ out_len }
{
    blocks::finish_in(going, tables, text, out)
}
