// The buffers that are lent, and ways to fill them.
ghost use Rattle.std.specs.Prelude.{◌≡◌, ◌≤◌, min, length, take};

use numbers::filled;

// The tables of one bit a glyph pixel.
pub const TABLES_LEN: usize = 29696;

// What the script's display is lent. Each has sixteen bytes or numbers more than a display asks for, so that too
// much can be lent.
#[derive(Drop)]
pub struct Buffers {
    // Those of two bits a glyph pixel.
    pub tables: [u8; 42000],
    // A screen of 1,024 pixels or its pictures, and these in f32 numbers.
    pub pictures: [u8; 4112],
    pub floats: [f32; 4112],
    pub out: [u8; 4112],
}

impl Buffers {
    // All of them with zeros, which are no pattern's.
    pub fn new() -> Buffers {
        Buffers {
            tables: filled(0),
            pictures: filled(0),
            floats: filled(0.0),
            out: filled(0),
        }
    }

    pub fn clear(&mut self) {
        self.tables.fill(0);
        self.pictures.fill(0);
        self.floats.fill(0.0);
        self.out.fill(0);
    }
}

// An alpha, of which three in four are 0 or 255: there blending takes its own ways.
fn alpha_of(number: u32) -> u8 {
    match number / 4194304 {
        0..384 => 0,
        part @ 384..640 => (part - 384) as u8,
        _ => 255,
    }
}

fn byte_of(number: u32, is_alpha: bool) -> u8 {
    if is_alpha {
        return alpha_of(number);
    }
    (number / 16777216) as u8
}

// Each byte is the highest of a number that goes up by `step` from byte to byte, modulo 2^32: all
// alike for step 0, a slope for a small one, a mixture for a large odd one. With `pixels` each
// fourth byte is an alpha.
pub fn fill(buffer: &mut [u8], first: u32, step: u32, pixels: bool) {
    let mut number = first;
    for (i, byte) in buffer.iter_mut().enumerate() {
        *byte = byte_of(number, pixels && i % 4 == 3);
        number = number.wrapping_add(step);
    }
}

// A little-endian word at a place, as much of it as lies in the buffer.
pub fn set_word(buffer: &mut [u8], at: u32, word: u32) {
    let bytes = word.to_le_bytes();
    let there = buffer.iter_mut().skip(at as usize);
    for (place, byte) in there.zip(bytes.iter()) {
        *place = *byte;
    }
}

// The byte at a place, 0 past the end.
pub fn byte_at(buffer: &[u8], at: usize) -> u8 {
    buffer.get(at).copied().unwrap_or(0)
}

// The number that bits stand for. A pattern above an infinity's is a NaN's, where `f32::from_bits`
// is not defined: all of them give one NaN, whose own bits are the machine's.
fn float_of(bits: u32) -> f32 {
    if bits % 0x8000_0000 > 0x7f80_0000 {
        return 0.0 / 0.0;
    }
    f32::from_bits(bits)
}

// From below the least number whose byte is not 0 up to nearly one and a half, evenly in the bits.
fn value_bits(number: u32) -> u32 {
    0x3ac0_0000 + number / 64 + number / 256
}

// An alpha, of which three in four are 0.0 or 1.0, as among bytes.
fn alpha_bits(number: u32) -> u32 {
    match number / 4194304 {
        0..384 => 0,
        384..640 => value_bits(number),
        _ => 0x3f80_0000,
    }
}

fn bits_of(number: u32, is_alpha: bool) -> u32 {
    if is_alpha {
        return alpha_bits(number);
    }
    value_bits(number)
}

// The pattern of `fill` in f32 numbers, each fourth an alpha.
pub fn fill_floats(floats: &mut [f32], first: u32, step: u32) {
    let mut number = first;
    for (i, float) in floats.iter_mut().enumerate() {
        *float = float_of(bits_of(number, i % 4 == 3));
        number = number.wrapping_add(step);
    }
}

// The number of those bits at a place, if that lies in the buffer.
pub fn set_float(floats: &mut [f32], at: u32, bits: u32) {
    if let Some(float) = floats.get_mut(at as usize) {
        *float = float_of(bits);
    }
}

// So many of the items, or all where there are fewer.
pub fn count<T>(number: u32, items: &[T]) -> usize
    ensures within { (result ≤ length items.now) × (result ≡ length (take result items.now)) }
    ensures value { result ≡ min number (length items.now) }
{
    (number as usize).min(items.len())
}
