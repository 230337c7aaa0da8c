// A graphics layer's instruction list: its instructions' words, where it ends, and a run of one colour in a
// line. What a list draws is defined in `specs/`; the crates above draw it.
#![tactic(auto)]

ghost use Rattle.std.specs.Prelude.{◌≡◌, length};
ghost use Rattle.tables.specs.Geometry.{list_len};
ghost use Rattle.draw.specs.Drawing.{list_end};

use crate::instruction::opcode;
use tables::INSTRUCTION_COUNT;

pub mod banks;
pub mod instruction;
pub mod runs;

// Whether a list has an END, and how many instructions stand before it.
#[derive(Clone, Copy)]
pub struct ListEnd {
    pub found: bool,
    pub count: usize,
}

// The end of an instruction list: its first END, or the end of all 48. A loop that is left at END, as the list is
// told of: whether one was found is what it yields.
pub fn list_end(ins: &[u8]) -> ListEnd
    requires { length ins.now ≡ list_len }
    ensures { result ≡ list_end ins.now }
{
    let mut k = 0;
    let found = loop {
        if INSTRUCTION_COUNT <= k {
            break false;
        }
        if opcode(ins, k) == 0 {
            break true;
        }
        k += 1;
    };
    ListEnd { found, count: k }
}
