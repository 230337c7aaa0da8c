// Bytes and words in one another: bytes by the library's methods, what is no byte by division and remainder, which
// compile to the same shifts and masks. A word made of parts is said by its digits and not as a sum, so that no caller
// has to know that a byte is small.
ghost use Rattle.std.specs.Prelude.{◌≡◌, ◌+◌, ◌*◌, ◌/◌, ◌%◌, ◌≤◌, ◌<◌};
ghost use Rattle.sixteen.specs.Engine.Lanes.{Bytes};

pub fn low(x: u16) -> u16
    ensures { result ≡ x % 256 }
{
    x % 256
}

pub fn high(x: u16) -> u16
    ensures { (result ≡ x / 256) × (result < 256) }
{
    x / 256
}

pub fn low_byte(x: u16) -> u8
    ensures { result ≡ x % 256 }
{
    x.to_le_bytes()[0]
}

pub fn high_byte(x: u16) -> u8
    ensures { result ≡ x / 256 }
{
    x.to_le_bytes()[1]
}

pub fn low_word(x: u32) -> u16
    ensures { result ≡ x % 65536 }
{
    (x % 65536) as u16
}

pub fn high_word(x: u32) -> u16
    ensures { result ≡ x / 65536 }
{
    (x / 65536) as u16
}

pub fn word_of(low: u8, high: u8) -> u16
    ensures { (result % 256 ≡ low) × (result / 256 ≡ high) }
{
    u16::from_le_bytes([low, high])
}

pub fn join(low: u16, high: u16) -> u16
    requires { (low < 256) × (high < 256) }
    ensures { (result % 256 ≡ low) × (result / 256 ≡ high) }
{
    low + high * 256
}

// A pixel as one word, channel 0 lowest.
pub fn pixel_of(c0: u8, c1: u8, c2: u8, alpha: u8) -> u32
    ensures { Bytes result c0 c1 c2 alpha }
{
    u32::from_le_bytes([c0, c1, c2, alpha])
}

pub fn pair(low: u32, high: u32) -> u64
    ensures { (result % 4294967296 ≡ low) × (result / 4294967296 ≡ high) }
{
    (low as u64) + (high as u64) * 4294967296
}

// The bits that one of two words has, or both: no less than either.
pub fn either(a: u32, b: u32) -> u32
    ensures { (a ≤ result) × (b ≤ result) }
{
    a | b
}

// The bits that both words have: no more than either. The other bound saves the caller a look at
// the array that b comes from.
pub fn common(a: u32, b: u32) -> u32
    ensures { (result ≤ a) × (result ≤ b) × (b < 4294967296) }
{
    a & b
}

// The channels of the one pixel with the alpha of the other.
pub fn channels_with(pixel: u32, other: u32) -> u32
    ensures { result ≡ pixel % 16777216 + other / 16777216 * 16777216 }
{
    pixel % 16777216 + other / 16777216 * 16777216
}

// The channels of a pixel with an alpha.
pub fn pixel_at(pixel: u32, alpha: u8) -> u32
    ensures { result ≡ pixel % 16777216 + alpha * 16777216 }
{
    pixel % 16777216 + (alpha as u32) * 16777216
}

pub fn byte0(pixel: u32) -> u8
    ensures { result ≡ pixel % 256 }
{
    pixel.to_le_bytes()[0]
}

pub fn byte1(pixel: u32) -> u8
    ensures { result ≡ pixel / 256 % 256 }
{
    pixel.to_le_bytes()[1]
}

pub fn byte2(pixel: u32) -> u8
    ensures { result ≡ pixel / 65536 % 256 }
{
    pixel.to_le_bytes()[2]
}

pub fn byte3(pixel: u32) -> u8
    ensures { result ≡ pixel / 16777216 }
{
    pixel.to_le_bytes()[3]
}
