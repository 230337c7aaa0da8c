// The loops over a run: its blocks of sixteen pixels, answering where they end, and the pixels from
// there on.
ghost use Rattle.std.specs.Prelude.{◌≡◌, true, false, ◌+◌, ◌%◌, ◌≤◌, length};
ghost use Rattle.mix.specs.Pixel.{pixel_len};
ghost use Rattle.sixteen.specs.Engine.Lanes.{block_len, Part, Front};
ghost use Rattle.span.specs.Span.{over_byte};
ghost use Rattle.span.specs.Engine.Laid.{Onward};

use super::blocks::{copy16, flat16, pixel, put16};
use mix::{ALPHA_PLACE, OPAQUE, PIXEL_LEN};
use sixteen::lanes::{mixed, own_alphas, store, words};
use sixteen::pixels::{all_clear, all_opaque, pixels};
use sixteen::sizes::BLOCK_LEN;

// Whether a block begins at i whose first pixel is neither clear nor opaque.
pub fn is_mixed_at(over: &[u8], i: usize) -> bool
    requires { i ≤ length over.now }
    ensures { result ≡ true → i + block_len ≤ length over.now }
{
    if over.len() - i < BLOCK_LEN {
        return false;
    }
    over[i + ALPHA_PLACE] % OPAQUE != 0
}

// The block at `from` and those after it up to one whose first pixel is clear or opaque, answering where they
// end. The first one is known, so the test stands at the end. No call is left in the loop once it is compiled, so that what
// it goes by stays in registers from block to block.
fn own_mixed(out: &mut [u8], over: &[u8], from: usize) -> usize
    requires { (length out.old ≡ length over.now) × (from + block_len ≤ length out.old) × (from % pixel_len ≡ 0) }
    ensures { Onward out.new out.old (over_byte over.now false 0) from result }
{
    let mut i = from;
    loop {
        let o = words(over, i);
        let u = words(out, i);
        let a = own_alphas(o);
        let w = mixed(a, o, u);
        store(out, i, w);
        i = i + BLOCK_LEN;
        if !is_mixed_at(over, i) {
            break;
        }
    }
    i
}

// One block or more from i on, answering where they end: nothing is done for a clear one, and no byte is blended
// for an opaque one.
fn own_turn(out: &mut [u8], over: &[u8], i: usize) -> usize
    requires { (length out.old ≡ length over.now) × (i + block_len ≤ length out.old) × (i % pixel_len ≡ 0) }
    ensures { Onward out.new out.old (over_byte over.now false 0) i result }
{
    if over[i + ALPHA_PLACE] % OPAQUE == 0 {
        let p = pixels(over, i);
        if all_opaque(p) {
            put16(out, p, i);
            return i + BLOCK_LEN;
        }
        if all_clear(p) {
            return i + BLOCK_LEN;
        }
    }
    own_mixed(out, over, i)
}

// The blocks, each pixel at its own alpha. A turn does one or more, so they are not counted.
pub fn own_blocks(out: &mut [u8], over: &[u8]) -> usize
    requires { length out.old ≡ length over.now }
    ensures { Front out.new out.old (over_byte over.now false 0) result }
{
    let mut i = 0;
    while BLOCK_LEN <= over.len() - i {
        i = own_turn(out, over, i);
    }
    i
}

// The pixels from `from` on, each at its own alpha.
pub fn own_rest(out: &mut [u8], over: &[u8], from: usize)
    requires { (length out.old ≡ length over.now) × (length out.old % pixel_len ≡ 0)
        × (from ≤ length out.old) × (from % pixel_len ≡ 0) }
    ensures { Part out.new out.old
        (over_byte over.now false 0) from (length out.old) }
{
    for k in from / PIXEL_LEN..over.len() / PIXEL_LEN {
        let i = PIXEL_LEN * k;
        pixel(out, over, i, over[i + ALPHA_PLACE]);
    }
}

// The blocks, all pixels at one alpha.
pub fn flat_blocks(out: &mut [u8], over: &[u8], alpha: u8) -> usize
    requires { length out.old ≡ length over.now }
    ensures { Front out.new out.old (over_byte over.now true alpha) result }
{
    let blocks = over.len() / BLOCK_LEN;
    for k in 0..blocks {
        flat16(out, over, BLOCK_LEN * k, alpha);
    }
    BLOCK_LEN * blocks
}

// The blocks, all pixels at the alpha 255. Apart from `flat_blocks`: of a turn that is handed in as a closure the
// contract had to say what each call leaves of the run, which is longer than the loop.
pub fn copy_blocks(out: &mut [u8], over: &[u8]) -> usize
    requires { length out.old ≡ length over.now }
    ensures { Front out.new out.old (over_byte over.now true 255) result }
{
    let blocks = over.len() / BLOCK_LEN;
    for k in 0..blocks {
        copy16(out, over, BLOCK_LEN * k);
    }
    BLOCK_LEN * blocks
}

// The pixels from `from` on, at one alpha. Apart from `own_rest`, as `copy_blocks` is from `flat_blocks`.
pub fn flat_rest(out: &mut [u8], over: &[u8], from: usize, alpha: u8)
    requires { (length out.old ≡ length over.now) × (length out.old % pixel_len ≡ 0)
        × (from ≤ length out.old) × (from % pixel_len ≡ 0) }
    ensures { Part out.new out.old
        (over_byte over.now true alpha) from (length out.old) }
{
    for k in from / PIXEL_LEN..over.len() / PIXEL_LEN {
        pixel(out, over, PIXEL_LEN * k, alpha);
    }
}
