// A box of an instruction, on one line: a row of it, as one run or as one at each side.
#![tactic(auto)]

ghost use Rattle.std.specs.Prelude.{◌≡◌, ◌≤◌, ◌<◌, length};
ghost use Rattle.lists.specs.Tab.{each};
ghost use Rattle.tables.specs.Geometry.{instructions, list_len};
ghost use Rattle.draw.specs.Box.{box_after, box_of};
ghost use Rattle.draw.specs.Engine.Rows.{whole_of};

use draw::instruction::word_of;
use draw::runs::fill_run;
use tables::COLOUR_COUNT;

// Whether the row that many places from the upper and the lower side is one run.
#[tactic(auto, unfolding(draw::specs::Engine::Rows::whole_of))]
fn is_whole(weight: usize, above: usize, below: usize, across: usize) -> bool
    requires { weight < 16 }
    ensures { result ≡ whole_of weight above below across }
{
    weight == 0 || above < weight || below < weight || across < 2 * weight
}

// A box: its first and its last column and row, how many pixels its outline is wide, or 0 for a filled one, and its
// colour.
#[derive(Clone, Copy)]
struct Outline {
    x0: usize,
    x1: usize,
    y0: usize,
    y1: usize,
    weight: usize,
    colour: u8,
}

// Row v of a box that has this row.
fn box_row(line: &mut [u8], outline: Outline, v: usize)
    requires { (outline.x0 < 4096) × (outline.x1 < 4096) × (outline.y0 ≤ v) × (v ≤ outline.y1) × (outline.weight < 16) }
    ensures { line.new ≡ each
        (box_after outline.x0 outline.x1 outline.y0 outline.y1 outline.weight outline.colour v) line.old }
{
    if outline.x1 < outline.x0 {
        return;
    }
    let end = outline.x1 + 1;
    let above = v - outline.y0;
    let below = outline.y1 - v;
    if is_whole(outline.weight, above, below, outline.x1 - outline.x0) {
        fill_run(line, outline.x0, end, outline.colour);
        return;
    }
    fill_run(
        line,
        outline.x0,
        outline.x0 + outline.weight,
        outline.colour,
    );
    fill_run(line, end - outline.weight, end, outline.colour);
}

// Row v of the box of instruction k. A row beside the box costs one word and two tests.
pub fn draw_box(line: &mut [u8], ins: &[u8], k: usize, v: usize)
    requires { (length ins.now ≡ list_len) × (k < instructions) }
    ensures { line.new ≡ each (box_of ins.now k v) line.old }
{
    let w2 = word_of(ins, k, 2);
    let y0 = w2 % 4096;
    let y1 = w2 / 4096 % 4096;
    if v < y0 {
        return;
    }
    if y1 < v {
        return;
    }
    let w0 = word_of(ins, k, 0);
    let w3 = word_of(ins, k, 3);
    let outline = Outline {
        x0: w0 % 4096,
        x1: w0 / 4096 % 4096,
        y0,
        y1,
        weight: w2 / 16777216 % 16,
        colour: (w3 % 256 % COLOUR_COUNT) as u8,
    };
    box_row(line, outline, v);
}
