// A block of sixteen pixels as thirty-two words of two bytes, in which sixteen bits are enough for
// the blend of a byte. Arrays come and go by value: by reference the compiler keeps them in memory,
// at twice the time.
ghost use Rattle.std.specs.Prelude.{◌≡◌, ◌+◌, ◌≤◌, ◌<◌, length};
ghost use Rattle.sixteen.specs.Engine.Lanes.{block_len, Part, Lanes, anew, by_parity, WordIs, HighIs, SameIs};
ghost use Rattle.sixteen.specs.Engine.Lanes.{Small, MixWord, MixIs, store_byte};

use super::digits::{high, high_byte, join, low, low_byte, word_of};
use mix::blended;

// The alpha for the high byte of word k: none where that is the pixel's alpha byte, which so stays.
fn high_alpha(a: u16, k: usize) -> u16
    ensures { (result ≡ by_parity k a 0) × (result ≤ a) }
{
    if k % 2 == 0 {
        return a;
    }
    0
}

// Both bytes of word k over those under it.
fn mixed_word(a: u16, over: u16, under: u16, k: usize) -> u16
    requires { a < 256 }
    ensures { MixWord a over under k result }
{
    let e = blended(a, low(over), low(under));
    let f = blended(high_alpha(a, k), high(over), high(under));
    join(e, f)
}

// The words of the block of s that begins at `at`.
pub fn words(s: &[u8], at: usize) -> [u16; 32]
    requires { at + block_len ≤ length s.now }
    ensures { Lanes result 32 (WordIs s.now at) }
{
    let mut w = [0u16; 32];
    for k in 0..32 {
        w[k] = word_of(s[at + 2 * k], s[at + 2 * k + 1]);
    }
    w
}

// Each pixel's own alpha, for both of its words.
pub fn own_alphas(over: [u16; 32]) -> [u16; 32]
    ensures { Lanes result 32 (HighIs over) }
{
    let mut w = [0u16; 32];
    for k in 0..16 {
        w[2 * k] = high(over[2 * k + 1]);
        w[2 * k + 1] = high(over[2 * k + 1]);
    }
    w
}

// One alpha for all words.
pub fn one_alpha(a: u16) -> [u16; 32]
    ensures { Lanes result 32 (SameIs a) }
{
    [a; 32]
}

// Each word over the one under it, at its alpha.
pub fn mixed(alphas: [u16; 32], over: [u16; 32], under: [u16; 32]) -> [u16; 32]
    requires { Lanes alphas 32 Small }
    ensures { Lanes result 32 (MixIs alphas over under) }
{
    let mut w = [0u16; 32];
    for k in 0..32 {
        w[k] = mixed_word(alphas[k], over[k], under[k], k);
    }
    w
}

// Writes the words to the block of `out` that begins at `at`.
pub fn store(out: &mut [u8], at: usize, w: [u16; 32])
    requires { at + block_len ≤ length out.old }
    ensures { Part out.new out.old (anew (store_byte w at)) at (at + block_len) }
{
    for k in 0..32 {
        out[at + 2 * k] = low_byte(w[k]);
        out[at + 2 * k + 1] = high_byte(w[k]);
    }
}
