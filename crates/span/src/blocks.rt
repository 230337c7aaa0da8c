// A block of sixteen pixels of a run over the same block of another, and a single pixel for what is
// left of a run behind its last block. A block begins at a multiple of four.
ghost use Rattle.std.specs.Prelude.{◌≡◌, true, ◌+◌, ◌%◌, ◌≤◌, length};
ghost use Rattle.mix.specs.Pixel.{pixel_len};
ghost use Rattle.sixteen.specs.Engine.Lanes.{block_len, Part};
ghost use Rattle.span.specs.Span.{over_byte};
ghost use Rattle.span.specs.Engine.Laid.{Copied};

use mix::blend;
use sixteen::lanes::{mixed, one_alpha, store, words};
use sixteen::pixels::{halves, joined, pixels};

// All pixels at one alpha.
pub fn flat16(out: &mut [u8], over: &[u8], i: usize, alpha: u8)
    requires { (i + block_len ≤ length out.old) × (i + block_len ≤ length over.now) × (i % pixel_len ≡ 0) }
    ensures { Part out.new out.old (over_byte over.now true alpha)
        i (i + block_len) }
{
    let o = words(over, i);
    let u = words(out, i);
    let a = one_alpha(alpha as u16);
    let w = mixed(a, o, u);
    store(out, i, w);
}

// The channels of the pixels p, with the alphas that stood there.
pub fn put16(out: &mut [u8], p: [u32; 16], i: usize)
    requires { (i + block_len ≤ length out.old) × (i % pixel_len ≡ 0) }
    ensures { Copied p i out.new out.old }
{
    let q = pixels(out, i);
    let w = joined(p, q);
    let h = halves(w);
    store(out, i, h);
}

// All pixels at the alpha 255.
pub fn copy16(out: &mut [u8], over: &[u8], i: usize)
    requires { (i + block_len ≤ length out.old) × (i + block_len ≤ length over.now) × (i % pixel_len ≡ 0) }
    ensures { Part out.new out.old (over_byte over.now true 255)
        i (i + block_len) }
{
    let p = pixels(over, i);
    put16(out, p, i);
}

// One pixel, at the alpha a.
pub fn pixel(out: &mut [u8], over: &[u8], i: usize, a: u8)
    requires { (i + pixel_len ≤ length out.old) × (i + pixel_len ≤ length over.now) × (i % pixel_len ≡ 0) }
    ensures { Part out.new out.old (over_byte over.now true a)
        i (i + pixel_len) }
{
    let c0 = blend(a, over[i], out[i]);
    let c1 = blend(a, over[i + 1], out[i + 1]);
    let c2 = blend(a, over[i + 2], out[i + 2]);
    out[i] = c0;
    out[i + 1] = c1;
    out[i + 2] = c2;
}
