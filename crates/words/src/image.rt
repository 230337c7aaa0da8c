// The 52 words of a register image, and those of a state that a host lends.
ghost use Rattle.std.specs.Prelude.{◌≡◌, ◌+◌, ◌≤◌, length};
ghost use Rattle.lists.specs.Little.{little_at};
ghost use Rattle.words.specs.Image.{words_from};

use numbers::word;

// 52 words of four bytes.
pub const IMAGE_LEN: usize = 208;

pub fn word_at(s: &[u8], at: usize) -> u32
    requires { at + 4 ≤ length s.now }
    ensures { result ≡ little_at s.now at }
{
    word(s, at) as u32
}

pub fn words_at(s: &[u8], at: usize) -> [u32; 52]
    requires { at + 208 ≤ length s.now }
    ensures { result ≡ words_from s.now at }
{
    let mut words = [0u32; 52];
    for i in 0..52 {
        words[i] = word_at(s, at + 4 * i);
    }
    words
}
