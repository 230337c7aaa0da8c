// The 52 words with a field of one layer replaced. No other file writes a field of a word.
ghost use Rattle.std.specs.Prelude.{ℕ, ◌≡◌, ◌+◌, ◌*◌, ◌<◌, get_or, set};
ghost use Rattle.words.specs.Change.{off_word, bytes_word, depth_word, pair_word};
ghost use Rattle.words.specs.Change.{with_off, with_bytes, with_depth, with_pair};

use crate::fields::layer_word;

fn off_word(v: u32) -> u32
    ensures { result ≡ off_word v }
{
    v / 2 * 2
}

fn bytes_word(v: u32) -> u32
    ensures { result ≡ bytes_word v }
{
    v / 8 * 8 + v % 4
}

fn depth_word(v: u32, d: u32) -> u32
    requires { d < 8 }
    ensures { result ≡ depth_word v d }
{
    v / 2048 * 2048 + d * 256 + v % 256
}

fn pair_word(v: u32, a: u32, b: u32) -> u32
    requires { (a < 4096) × (b < 4096) }
    ensures { result ≡ pair_word v a b }
{
    v / 268435456 * 268435456 + b * 65536 + v / 4096 % 16 * 4096 + a
}

// Word j+6n with a change made to it, where it stands.
fn change_word<F: FnOnce(u32) -> u32>(w: &mut [u32; 52], j: usize, n: usize, change: F)
    requires place { (j < 10) × (n < 8) }
    requires call { F.pre change (get_or w.old (j + 6 * n) 0) }
    ensures { (v : ℕ) × F.post change (get_or w.old (j + 6 * n) 0) v × (w.new ≡ set w.old (j + 6 * n) v) }
{
    let word = layer_word(w, j, n);
    w[j + 6 * n] = change(word);
}

// Layer n switched off, its other values kept.
#[tactic(auto, unfolding(crate::specs::Change::with_off))]
pub fn with_off(mut w: [u32; 52], n: usize) -> [u32; 52]
    requires { n < 8 }
    ensures { result ≡ with_off w n }
{
    change_word(&mut w, 4, n, off_word);
    w
}

// Layer n with its picture among the bytes.
#[tactic(auto, unfolding(crate::specs::Change::with_bytes))]
pub fn with_bytes(mut w: [u32; 52], n: usize) -> [u32; 52]
    requires { n < 8 }
    ensures { result ≡ with_bytes w n }
{
    change_word(&mut w, 4, n, bytes_word);
    w
}

#[tactic(auto, unfolding(crate::specs::Change::with_depth))]
pub fn with_depth(mut w: [u32; 52], n: usize, d: u32) -> [u32; 52]
    requires { (n < 8) × (d < 8) }
    ensures { result ≡ with_depth w n d }
{
    change_word(&mut w, 4, n, |v| depth_word(v, d));
    w
}

// Layer n's corner, j being 6, or its size, j being 7.
#[tactic(auto, unfolding(crate::specs::Change::with_pair))]
pub fn with_pair(j: usize, mut w: [u32; 52], n: usize, a: u32, b: u32) -> [u32; 52]
    requires { (j < 10) × (n < 8) × (a < 4096) × (b < 4096) }
    ensures { result ≡ with_pair j w n a b }
{
    change_word(&mut w, j, n, |v| pair_word(v, a, b));
    w
}
