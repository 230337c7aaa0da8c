// Numbers out of bytes and into them, and arrays of one value. Nothing here knows of displays.
#![tactic(auto)]

ghost use Rattle.std.specs.Prelude.{◌≡◌, ◌+◌, ◌*◌, ◌≤◌, ◌<◌, ◌^◌, length, replicate};
ghost use Rattle.lists.specs.Little.{little_at};
ghost use Rattle.lists.specs.Bytes.{little_byte, little_bytes};
ghost use Rattle.lists.specs.Tab.{tab};

// An array of one value. By a call, so that no proof of a caller writes its elements out.
pub fn filled<T: Copy, const N: usize>(value: T) -> [T; N]
    ensures { result ≡ replicate N value }
{
    [value; N]
}

// Four bytes, the lowest first.
#[tactic(auto, unfolding(lists::specs::Little::little_at))]
pub fn word(s: &[u8], at: usize) -> usize
    requires { at + 4 ≤ length s.now }
    ensures { (result ≡ little_at s.now at) × (result < 2 ^ 32) }
{
    u32::from_le_bytes([s[at], s[at + 1], s[at + 2], s[at + 3]]) as usize
}

// Byte by byte, as `octets::copy` does and for its reason.
fn put_word(part: &mut [u8], value: u32)
    requires { length part.old ≡ 4 }
    ensures { part.new ≡ tab 4 (little_byte value) }
{
    let [b0, b1, b2, b3] = value.to_le_bytes();
    part[0] = b0;
    part[1] = b1;
    part[2] = b2;
    part[3] = b3;
}

// A row of words as bytes, the lowest of each first.
pub fn put_words(part: &mut [u8], words: &[u32])
    requires { (length part.old ≡ 4 * length words.now) × (length words.now < 2 ^ 32) }
    ensures { part.new ≡ tab (4 * length words.now) (little_bytes words.now) }
{
    for i in 0..words.len() {
        let at = 4 * i;
        put_word(&mut part[at..at + 4], words[i]);
    }
}
