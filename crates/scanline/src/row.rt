// The row that a line has of a layer: whether there is one, where it begins, and one that is made before it is laid, drawn
// by an instruction list as colour indexes or turned from floats to bytes.
ghost use Rattle.std.specs.Prelude.{◌≡◌, true, false, ◌+◌, ◌*◌, ◌<◌, length};
ghost use Rattle.mix.specs.Pixel.{pixel_len};
ghost use Rattle.frames.specs.Pixel.{spans};
ghost use Rattle.scanline.specs.Engine.Lines.{Banked, Extended, OnRow, RowFlows, row_start, drawn_indexes};
ghost use Rattle.scanline.specs.Engine.Lines.{Flows, RowMade};

use crate::Painting;
use draw::banks::Banks;
use mix::PIXEL_LEN;
use pen::draw_line;
use plan::Step;
use river::to_bytes;
use tables::{INSTRUCTION_COUNT, LIST_LEN, STRINGS_LEN, font_len};
use words::fields::Layer;

// Whether a layer reaches line y.
pub fn is_on_row(layer: &Layer, y: usize) -> bool
    ensures { result ≡ spans layer.now.y layer.now.height y }
{
    let top = usize::from(layer.y);
    top <= y && y < top + usize::from(layer.height)
}

// Where line y of a frame layer begins in its buffer.
pub fn row_start(step: &Step, y: usize) -> usize
    requires { OnRow step.now y × (row_start step.now y < 18446744073709551616) }
    ensures { result ≡ row_start step.now y }
{
    let v = y - usize::from(step.layer.y);
    step.start + PIXEL_LEN * (v * usize::from(step.layer.width))
}

// Row v of a graphics layer as colour indexes. The spans of its instructions begin at `at`.
pub fn draw_row(indexes: &mut [u8], painting: &Painting, step: &Step, at: usize, v: usize)
    requires { Banked painting.now.tables.now step.now
        × Extended painting.now.tables.now painting.now.extents.now at step.now }
    ensures { indexes.new ≡ drawn_indexes painting.now.tables.now step.now v (length indexes.old) }
{
    let tables = painting.tables;
    let list = step.list;
    let strings = step.strings;
    let font = step.font;
    let bits = usize::from(step.bits);
    let banks = Banks {
        bits,
        list: &tables[list..list + LIST_LEN],
        strings: &tables[strings..strings + STRINGS_LEN],
        font: &tables[font..font + font_len(bits)],
    };
    let spans = &painting.extents[at..at + INSTRUCTION_COUNT];
    draw_line(indexes, &banks, spans, step.end.count, v);
}

// Line y of a float layer as bytes.
pub fn float_row(row: &mut [u8], floats: &[f32], step: &Step, y: usize)
    requires on_row { OnRow step.now y × (length row.old ≡ pixel_len * step.now.wide)
        × RowFlows floats.now step.now y }
    requires graphics_value { (step.now.layer.graphics ≡ false) × (step.now.layer.floats ≡ true) }
    ensures { RowMade (Flows floats.now) step.now y row.new }
{
    let wide = PIXEL_LEN * step.wide;
    let from = row_start(step, y);
    to_bytes(&floats[from..from + wide], row);
}
