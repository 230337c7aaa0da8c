// A run over a row of one pixel, which is not written first: what is under a block is then known and
// need not be read.
ghost use Rattle.std.specs.Prelude.{◌≡◌, true, false, ◌+◌, ◌%◌, ◌≤◌, length};
ghost use Rattle.mix.specs.Pixel.{pixel_len};
ghost use Rattle.sixteen.specs.Engine.Lanes.{block_len, Part, Front, anew};
ghost use Rattle.colours.specs.Rows.{word_byte, solid_byte};
ghost use Rattle.span.specs.Engine.Laid.{lay_byte, Onward, OpaqueAt};

use super::runs::is_mixed_at;
use colours::{repeat16, solid_pixel};
use mix::{ALPHA_PLACE, Ground, OPAQUE};
use sixteen::lanes::{mixed, one_alpha, own_alphas, store, words};
use sixteen::pixels::{all_clear, all_opaque, halves, joined, pixels, repeated};
use sixteen::sizes::BLOCK_LEN;

// Whether a block begins at i in which all pixels are opaque.
pub fn is_opaque_at(over: &[u8], i: usize) -> bool
    requires { i ≤ length over.now }
    ensures { result ≡ true → OpaqueAt over.now i }
{
    if over.len() - i < BLOCK_LEN {
        return false;
    }
    let p = pixels(over, i);
    all_opaque(p)
}

// The opaque block at `from` and those after it over the pixel c, answering where they end. The first one is known, so
// the test stands at the end.
fn lay_opaque(out: &mut [u8], over: &[u8], c: u32, from: usize) -> usize
    requires { (length out.old ≡ length over.now) × (from % pixel_len ≡ 0) × OpaqueAt over.now from }
    ensures { Onward out.new out.old
        (anew (lay_byte over.now false 0 (word_byte c))) from result }
{
    let q = repeated(c);
    let mut i = from;
    loop {
        let p = pixels(over, i);
        let w = joined(p, q);
        let h = halves(w);
        store(out, i, h);
        i = i + BLOCK_LEN;
        if !is_opaque_at(over, i) {
            break;
        }
    }
    i
}

// The block at `from` and those after it over the pixel c, up to one whose first pixel is clear or opaque,
// answering where they end. The test stands at the end here too.
fn lay_mixed(out: &mut [u8], over: &[u8], c: u32, from: usize) -> usize
    requires { (length out.old ≡ length over.now) × (from + block_len ≤ length out.old) × (from % pixel_len ≡ 0) }
    ensures { Onward out.new out.old
        (anew (lay_byte over.now false 0 (word_byte c))) from result }
{
    let p = repeated(c);
    let u = halves(p);
    let mut i = from;
    loop {
        let o = words(over, i);
        let a = own_alphas(o);
        let w = mixed(a, o, u);
        store(out, i, w);
        i = i + BLOCK_LEN;
        if !is_mixed_at(over, i) {
            break;
        }
    }
    i
}

// One block or more from i on over the pixel c, answering where they end: no byte is blended for an opaque one and for
// a clear one.
fn lay_turn(out: &mut [u8], over: &[u8], c: u32, i: usize) -> usize
    requires { (length out.old ≡ length over.now) × (i + block_len ≤ length out.old) × (i % pixel_len ≡ 0) }
    ensures { Onward out.new out.old
        (anew (lay_byte over.now false 0 (word_byte c))) i result }
{
    if over[i + ALPHA_PLACE] % OPAQUE == 0 {
        let p = pixels(over, i);
        if all_opaque(p) {
            return lay_opaque(out, over, c, i);
        }
        if all_clear(p) {
            repeat16(out, i, c);
            return i + BLOCK_LEN;
        }
    }
    lay_mixed(out, over, c, i)
}

// The blocks, each pixel at its own alpha, answering where they end. A turn does one or more, so they are not counted.
pub fn lay_blocks(out: &mut [u8], over: &[u8], ground: Ground) -> usize
    requires { length out.old ≡ length over.now }
    ensures { Front out.new out.old
        (anew (lay_byte over.now false 0 (solid_byte ground.c0 ground.c1 ground.c2))) result }
{
    let c = solid_pixel(ground);
    let mut i = 0;
    while BLOCK_LEN <= over.len() - i {
        i = lay_turn(out, over, c, i);
    }
    i
}

// A block over the pixel c, all pixels at one alpha. The pixel comes as one word: sixteen of them by value would be
// copied each time.
fn lay_flat16(out: &mut [u8], over: &[u8], c: u32, alpha: u8, i: usize)
    requires { (i + block_len ≤ length out.old) × (i + block_len ≤ length over.now) × (i % pixel_len ≡ 0) }
    ensures { Part out.new out.old
        (anew (lay_byte over.now true alpha (word_byte c))) i (i + block_len) }
{
    let o = words(over, i);
    let p = repeated(c);
    let u = halves(p);
    let a = one_alpha(alpha as u16);
    let w = mixed(a, o, u);
    store(out, i, w);
}

// The blocks, all pixels at one alpha.
pub fn lay_flat_blocks(out: &mut [u8], over: &[u8], alpha: u8, ground: Ground) -> usize
    requires { length out.old ≡ length over.now }
    ensures { Front out.new out.old
        (anew (lay_byte over.now true alpha (solid_byte ground.c0 ground.c1 ground.c2))) result }
{
    let c = solid_pixel(ground);
    let blocks = over.len() / BLOCK_LEN;
    for k in 0..blocks {
        lay_flat16(out, over, c, alpha, BLOCK_LEN * k);
    }
    BLOCK_LEN * blocks
}
