// A graphics layer's instruction list, drawn into one line of colour indexes. Nothing here knows of
// colours or frames.
#![tactic(auto)]

ghost use Rattle.std.specs.Prelude.{◌≡◌, ◌<◌, length};
ghost use Rattle.lists.specs.Tab.{tab, each};
ghost use Rattle.tables.specs.Geometry.{instructions};
ghost use Rattle.draw.specs.Drawing.{drawn_by, count_of, index_at};
ghost use Rattle.pen.specs.Engine.Spans.{Spanned};

use crate::spans::is_on;
use boxes::draw_box;
use draw::banks::Banks;
use draw::instruction::opcode;
use draw::runs::fill_run;
use text::draw_text;

pub mod spans;

// Row v of instruction k, over what the line holds. The opcode is matched as a number, with ranges for those that do
// nothing, as the list is told of. Text is called from here alone: it then becomes a part of the loop over the
// instructions, where it costs no call.
fn draw_one(line: &mut [u8], banks: &Banks, k: usize, v: usize)
    requires { k < instructions }
    ensures { line.new
        ≡ each (drawn_by banks.now.bits banks.now.list.now banks.now.strings.now banks.now.font.now k v) line.old }
{
    let text = match opcode(banks.list, k) {
        10 => {
            draw_box(line, banks.list, k, v);
            false
        }
        12 => true,
        14 => {
            draw_box(line, banks.list, k, v);
            true
        }
        0..=9 | 11 | 13 => false,
        _ => false,
    };
    if text {
        draw_text(line, banks, k, v);
    }
}

// Row v of a layer as colour indexes, one a pixel: index 0, and over it the `count` instructions
// that stand before the list's end, but for those whose span has no such row.
pub fn draw_line(line: &mut [u8], banks: &Banks, spans: &[u32], count: usize, v: usize)
    requires counted { count ≡ count_of banks.now.list.now }
    requires spanned { Spanned banks.now.list.now count spans.now }
    ensures { line.new
        ≡ tab (length line.old) (index_at banks.now.bits banks.now.list.now banks.now.strings.now banks.now.font.now v) }
{
    fill_run(line, 0, line.len(), 0);
    for k in 0..count {
        if is_on(spans[k], v) {
            draw_one(line, banks, k, v);
        }
    }
}
