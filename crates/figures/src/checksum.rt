// Many bytes as one number of 32 bits (FNV-1a), so that a short line tells of a whole buffer.

// The checksum of no bytes.
pub const NONE: u32 = 2166136261;

const PRIME: u32 = 16777619;

// A checksum with one byte more.
pub fn with_byte(sum: u32, byte: u8) -> u32 {
    (sum ^ u32::from(byte)).wrapping_mul(PRIME)
}

pub fn checksum(bytes: &[u8]) -> u32 {
    bytes.iter().fold(NONE, |sum, byte| with_byte(sum, *byte))
}
