// Reads a sheet from standard input, a frame a line, and prints a line for each. What is done with
// its bytes, and what goes on from block to block, are promises of `lines`; here they are read, lent
// and written. Memory is the same for sheets of any length. A read or a write that fails ends the program.
#![tactic(auto)]

ghost use Rattle.std.specs.Prelude.{◌≡◌, ◌+◌, ◌≤◌, ◌<◌, length, drop, IfOk, OnOk, OnErr};
ghost use Rattle.display.specs.Reached.{Arranged};
ghost use Rattle.lines.specs.Sizes.{out_len};
ghost use Rattle.lines.specs.Sheet.{first_tables};
ghost use Rattle.lines.specs.Blocks.{feed_of};
ghost use Rattle.lines.specs.Calls.{block_of};
ghost use Rattle.sheet.specs.Failed.{LeftBySome};

use lines::{Going, MOST_KEPT, OUT_LEN};
use numbers::filled;
use std::io::{self, Read};

// A sheet is read in blocks of so many bytes.
const BLOCK_LEN: usize = 65536;

// Where a block has come to.
#[derive(Clone, Copy)]
struct Place {
    going: Going,
    // How many of its bytes are used up.
    used: usize,
}

// One call on the bytes of a block that are left; what it prints is written. The tables and the text are
// the call's where writing fails too.
fn step(
    rt: &impl Print,
    c: Place,
    tables: &mut [u8],
    text: &mut [u8; MOST_KEPT],
    block: &[u8],
    out: &mut [u8; OUT_LEN],
) -> io::Result<Place>
    requires { (c.used < length block.now) × Arranged c.going.state }
    ensures going_value { IfOk result (λ p. p.going ≡ (feed_of c.going tables.old text.old
        (drop c.used block.now)).going) }
    ensures used_value { IfOk result (λ p. p.used ≡ c.used + (feed_of c.going tables.old text.old
        (drop c.used block.now)).used) }
    ensures tables_after { tables.new
        ≡ (feed_of c.going tables.old text.old (drop c.used block.now)).tables }
    ensures text_after { text.new
        ≡ (feed_of c.going tables.old text.old (drop c.used block.now)).text }
    ensures used_lt_used { IfOk result (λ p. (c.used < p.used) × (p.used ≤ length block.now)) }
{
    let fed = lines::feed(c.going, tables, text, &block[c.used..], out);
    rt.write_all(&out[..fed.count])?;
    Ok(Place {
        going: fed.going,
        used: c.used + fed.used,
    })
}

// A block, in as many calls as it takes. All that they print is written before the next is read. Where
// writing fails, the tables and the text are as the calls until then left them.
fn pass(
    rt: &impl Print,
    going: Going,
    tables: &mut [u8],
    text: &mut [u8; MOST_KEPT],
    block: &[u8],
    out: &mut [u8; OUT_LEN],
) -> io::Result<Going>
    requires { Arranged going.state }
    ensures value { IfOk result (λ g. g ≡ (block_of going tables.old text.old block.now).going) }
    ensures tables_after { OnOk result (tables.new
        ≡ (block_of going tables.old text.old block.now).tables) }
    ensures text_after { OnOk result (text.new
        ≡ (block_of going tables.old text.old block.now).text) }
    ensures failed { OnErr result (LeftBySome block.now going tables.old text.old
        tables.new text.new) }
{
    let mut c = Place { going, used: 0 };
    while c.used < block.len() {
        c = step(rt, c, tables, text, block, out)?;
    }
    Ok(c.going)
}

// The end of the sheet.
fn finish(
    rt: &impl Print,
    going: Going,
    tables: &mut [u8],
    text: &[u8; MOST_KEPT],
    out: &mut [u8; OUT_LEN],
) -> io::Result<()>
    requires { Arranged going.state }
{
    let r = lines::finish(going, tables, text, out);
    rt.write_all(&out[..r.count])
}

// Nothing says that the input ends, so the loop takes no more turns than a number that no run uses up.
fn run<R: Input + Print>(
    rt: &R,
    tables: &mut [u8],
    text: &mut [u8; MOST_KEPT],
    block: &mut [u8],
    out: &mut [u8; OUT_LEN],
) -> io::Result<()>
    requires { tables.old ≡ first_tables }
{
    let mut input = rt.reader();
    let mut going = lines::begin();
    for _ in 0..u64::MAX {
        let came = input.read(block)?;
        if came == 0 {
            break;
        }
        going = pass(rt, going, tables, text, &block[..came], out)?;
    }
    finish(rt, going, tables, text, out)
}

// The lent table buffer, in the form that the rules of the project name, and not by `filled`. By itself, so that no
// proof of a caller writes its zeros out.
fn no_tables() -> [u8; 29696]
    ensures { (29696 ≡ length result) × (result ≡ first_tables) }
{
    [0; 29696]
}

fn main(rt: HostRuntime) -> io::Result<()> {
    let mut tables = no_tables();
    let mut text: [u8; MOST_KEPT] = filled(0);
    let mut block: [u8; BLOCK_LEN] = filled(0);
    let mut out: [u8; OUT_LEN] = filled(0);
    run(&rt, &mut tables, &mut text, &mut block, &mut out)
}
