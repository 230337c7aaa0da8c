// Reads register images from standard input, one a line, and prints a line for each: the answer, the mended
// image and what was changed. Memory is the same for inputs of any length. A read or a write that fails
// ends the program.
#![tactic(auto)]

ghost use Rattle.std.specs.Prelude.{◌≡◌, ◌≤◌, ◌<◌, length, take, IfOk, OnErr};
ghost use Rattle.lists.specs.Over.{over};
ghost use Rattle.texts.specs.Lines.{line_in};
ghost use Rattle.texts.specs.Engine.Gathers.{open_from};
ghost use Rattle.mend.specs.Sizes.{image_kept, longest_line};
ghost use Rattle.mend.specs.Blocks.{fed_text, answered_of, last_text};
ghost use Rattle.mend.specs.Failed.{LeftBySome};

use crate::line::run_line;
use crate::sizes::{IMAGE_KEPT, LONGEST_LINE};
use numbers::filled;
use std::io::{self, Read};
use texts::gather;

mod line;
mod sizes;

// An input is read in blocks of so many bytes.
const BLOCK_LEN: usize = 65536;

#[derive(Clone, Copy)]
struct Answered {
    // How many bytes of the next line have come; they stand at the front of the text.
    held: usize,
    // How many bytes of the block are used up.
    used: usize,
    // How many bytes were printed.
    count: usize,
}

// On in a block to the end of one line at most. Where the line ends it is answered, else it is kept.
fn feed(held: usize, text: &mut [u8], block: &[u8], out: &mut [u8; LONGEST_LINE]) -> Answered
    requires { length text.old ≡ image_kept }
    ensures answered { result ≡ answered_of (take held text.old) block.now }
    ensures text { text.new
        ≡ over (line_in image_kept (take held text.old) block.now) text.old }
    ensures output { out.new
        ≡ over (fed_text (take held text.old) block.now) out.old }
    ensures fits { (0 < length block.now → 0 < result.used) × (result.used ≤ length block.now)
        × (result.count ≤ longest_line) }
{
    let g = gather(text, held, block);
    if g.ended {
        let count = run_line(&text[..g.kept], out);
        return Answered {
            held: 0,
            used: g.used,
            count,
        };
    }
    Answered {
        held: g.kept,
        used: g.used,
        count: 0,
    }
}

// The end of the input: a last line without a line feed is answered if it has any byte.
fn finish(held: usize, text: &[u8], out: &mut [u8; LONGEST_LINE]) -> usize
    requires { length text.now ≡ image_kept }
    ensures count { result ≡ length (last_text (take held text.now)) }
    ensures output { out.new ≡ over (last_text (take held text.now)) out.old }
    ensures fits { result ≤ longest_line }
{
    let n = held.min(IMAGE_KEPT);
    if n == 0 {
        return 0;
    }
    run_line(&text[..n], out)
}

// A block, line by line; how many bytes of the next line it leaves. Each answer is written before the
// next line is looked at. Where writing fails, the text is as the turns until then left it.
fn pass(
    rt: &impl Print,
    first: usize,
    text: &mut [u8],
    block: &[u8],
    out: &mut [u8; LONGEST_LINE],
) -> io::Result<usize>
    requires { length text.old ≡ image_kept }
    ensures held { IfOk result (λ n. take n text.new
        ≡ take image_kept (open_from (take first text.old) block.now)) }
    ensures failed { OnErr result (LeftBySome block.now first text.old text.new) }
{
    let mut held = first;
    let mut at: usize = 0;
    while at < block.len() {
        let step = feed(held, text, &block[at..], out);
        rt.write_all(&out[..step.count])?;
        held = step.held;
        at += step.used;
    }
    Ok(held)
}

// Nothing says that the input ends, so the loop takes no more turns than a number that no run uses up.
fn run<R: Input + Print>(
    rt: &R,
    text: &mut [u8],
    block: &mut [u8],
    out: &mut [u8; LONGEST_LINE],
) -> io::Result<()>
    requires { length text.old ≡ image_kept }
{
    let mut input = rt.reader();
    let mut held: usize = 0;
    for _ in 0..u64::MAX {
        let came = input.read(block)?;
        if came == 0 {
            break;
        }
        held = pass(rt, held, text, &block[..came], out)?;
    }
    let count = finish(held, text, out);
    rt.write_all(&out[..count])
}

fn main(rt: HostRuntime) -> io::Result<()> {
    let mut text: [u8; IMAGE_KEPT] = filled(0);
    let mut block: [u8; BLOCK_LEN] = filled(0);
    let mut out: [u8; LONGEST_LINE] = filled(0);
    run(&rt, &mut text, &mut block, &mut out)
}
