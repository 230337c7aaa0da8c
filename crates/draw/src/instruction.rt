// The words of an instruction, and what two of its fields mean.
ghost use Rattle.std.specs.Prelude.{◌≡◌, ◌≤◌, ◌<◌, ◌^◌, length};
ghost use Rattle.tables.specs.Geometry.{instructions, list_len};
ghost use Rattle.draw.specs.Instruction.{word_of, scale_of, opcode};

use numbers::word;
use tables::INSTRUCTION_LEN;

// Word j of instruction k.
pub fn word_of(ins: &[u8], k: usize, j: usize) -> usize
    requires { (length ins.now ≡ list_len) × (k < instructions) × (j < 4) }
    ensures { (result ≡ word_of ins.now k j) × (result < 2 ^ 32) }
{
    word(ins, INSTRUCTION_LEN * k + 4 * j)
}

// What instruction k does; 0 is END.
pub fn opcode(ins: &[u8], k: usize) -> usize
    requires { (length ins.now ≡ list_len) × (k < instructions) }
    ensures { result ≡ opcode ins.now k }
{
    word_of(ins, k, 0) / 268435456
}

// How many pixels wide and high a pixel of a glyph is, by the two bits of the field.
#[tactic(auto, unfolding(crate::specs::Instruction::scale_of))]
pub fn scale(n: usize) -> usize
    requires { n < 4 }
    ensures { (result ≡ scale_of n) × (0 < result) × (result ≤ 8) }
{
    match n {
        0 => 1,
        1 => 2,
        2 => 4,
        _ => 8,
    }
}
