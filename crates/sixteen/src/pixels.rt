// A block of sixteen pixels as sixteen words of four bytes. Whatever moves whole pixels and blends
// nothing goes by these: they are tested, joined and repeated in a fraction of the time that bytes
// take.
ghost use Rattle.std.specs.Prelude.{◌≡◌, true, ◌+◌, ◌≤◌, length};
ghost use Rattle.sixteen.specs.Engine.Lanes.{block_len, Lanes, PixelIs, HalfIs, JoinIs, SameIs, HasAlpha};

use super::digits::{channels_with, common, either, high_word, low_word, pixel_of};
use mix::PIXEL_LEN;

// The pixels of the block of s that begins at `at`.
pub fn pixels(s: &[u8], at: usize) -> [u32; 16]
    requires { at + block_len ≤ length s.now }
    ensures { Lanes result 16 (PixelIs s.now at) }
{
    let mut w = [0u32; 16];
    for k in 0..16 {
        w[k] = pixel_of(
            s[at + PIXEL_LEN * k],
            s[at + PIXEL_LEN * k + 1],
            s[at + PIXEL_LEN * k + 2],
            s[at + PIXEL_LEN * k + 3],
        );
    }
    w
}

// Whether every pixel has the alpha 0. All are joined and tested once, since a loop that leaves at
// the first other one is not done many at a time.
pub fn all_clear(p: [u32; 16]) -> bool
    ensures { result ≡ true → Lanes p 16 (HasAlpha 0) }
{
    let mut any = 0u32;
    for x in &p {
        any = either(any, *x);
    }
    any < 16777216
}

// Whether every pixel has the alpha 255.
pub fn all_opaque(p: [u32; 16]) -> bool
    ensures { result ≡ true → Lanes p 16 (HasAlpha 255) }
{
    let mut all = 4294967295u32;
    for x in &p {
        all = common(all, *x);
    }
    4278190080 <= all
}

// The channels of the one block with the alphas of the other.
pub fn joined(p: [u32; 16], q: [u32; 16]) -> [u32; 16]
    ensures { Lanes result 16 (JoinIs p q) }
{
    let mut w = [0u32; 16];
    for k in 0..16 {
        w[k] = channels_with(p[k], q[k]);
    }
    w
}

// The pixel c sixteen times.
pub fn repeated(c: u32) -> [u32; 16]
    ensures { Lanes result 16 (SameIs c) }
{
    [c; 16]
}

// The same block as words of two bytes.
pub fn halves(p: [u32; 16]) -> [u16; 32]
    ensures { Lanes result 32 (HalfIs p) }
{
    let mut w = [0u16; 32];
    for k in 0..16 {
        w[2 * k] = low_word(p[k]);
        w[2 * k + 1] = high_word(p[k]);
    }
    w
}
