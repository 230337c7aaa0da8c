// Hexadecimal digits as bytes, and bytes as digits.
#![tactic(auto)]

ghost use Rattle.std.specs.Prelude.{◌≡◌, true, false, ◌*◌, ◌/◌, ◌<◌, ◌≤◌, length, take, MatchOption};
ghost use Rattle.lists.specs.Over.{over};
ghost use Rattle.hexadecimal.specs.Hex.{value_of, is_hex, bytes_in, digit_of, digits_of};

// The value of a digit of either case.
#[tactic(auto, unfolding(crate::specs::Hex::value_of))]
fn value(c: u8) -> Option<u8>
    ensures { MatchOption result (value_of c ≡ 16) (λ n. (n ≡ value_of c) × (n < 16)) }
{
    match c {
        b'0'..=b'9' => Some(c - b'0'),
        b'A'..=b'F' => Some(c - b'A' + 10),
        b'a'..=b'f' => Some(c - b'a' + 10),
        _ => None,
    }
}

// The bytes that a text stands for, to the front of `bytes`, and how many they are; nothing where it is not of
// digits alone, two for each byte.
pub fn read_bytes(text: &[u8], bytes: &mut [u8]) -> Option<usize>
    requires { length text.now ≤ 2 * length bytes.old }
    ensures { MatchOption result (is_hex text.now ≡ false) (λ n. (is_hex text.now ≡ true)
        × (n ≡ length text.now / 2) × (take n bytes.new ≡ bytes_in text.now)) }
{
    let count = text.len() / 2;
    for i in 0..count {
        let upper = value(text[2 * i])?;
        let lower = value(text[2 * i + 1])?;
        bytes[i] = 16 * upper + lower;
    }
    if text.len() % 2 == 1 {
        return None;
    }
    Some(count)
}

// The digit of a value, in upper case.
#[tactic(auto, unfolding(crate::specs::Hex::digit_of))]
fn digit(n: u8) -> u8
    requires { n < 16 }
    ensures { result ≡ digit_of n }
{
    if n < 10 { b'0' + n } else { b'A' + (n - 10) }
}

// The digits of bytes, to the front of `out`.
pub fn print_bytes(bytes: &[u8], out: &mut [u8])
    requires { 2 * length bytes.now ≤ length out.old }
    ensures { out.new ≡ over (digits_of bytes.now) out.old }
{
    for (i, byte) in bytes.iter().enumerate() {
        out[2 * i] = digit(*byte / 16);
        out[2 * i + 1] = digit(*byte % 16);
    }
}
