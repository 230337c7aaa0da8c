// One line of the frame: a layer over what the line holds.
ghost use Rattle.std.specs.Prelude.{◌≡◌, true, None, ◌≤◌, length};
ghost use Rattle.plan.specs.Engine.Plan.{is_made};
ghost use Rattle.scanline.specs.Engine.Lines.{Fit, Extended, Drawable, Scratch, OnRow, OnPart};
ghost use Rattle.scanline.specs.Engine.Lines.{Draws, LentBy, LaidOver, Over};

use crate::Painting;
use crate::picture::lay_picture;
use crate::row::{draw_row, is_on_row};
use mix::PIXEL_LEN;
use plan::Step;

// Line y of a graphics layer, over its part of the line, with room for its colour indexes. The spans of its instructions
// begin at `at`.
fn draw_over(
    part: &mut [u8],
    indexes: &mut [u8],
    painting: &Painting,
    step: &Step,
    at: usize,
    y: usize,
)
    requires on_row { OnRow step.now y × OnPart step.now (length part.old)
        × Drawable painting.now.tables.now painting.now.extents.now at step.now }
    requires wide_bound { step.now.wide ≤ length indexes.old }
    ensures { LaidOver (Draws painting.now.tables.now) step.now y part.old part.new }
{
    let v = y - usize::from(step.layer.y);
    let drawn = &mut indexes[..step.wide];
    draw_row(drawn, painting, step, at, v);
    let palette = step.palette;
    span::tint(part, drawn, palette, step.layer.global, step.alpha);
}

// A layer over the line y: nothing where the layer does not reach that line. The spans of its instructions, if it is a
// graphics layer, begin at `at`. The two rooms beside the line are what a row is made in.
pub fn layer_line(
    line: &mut [u8],
    indexes: &mut [u8],
    row: &mut [u8],
    painting: &Painting,
    step: &Step,
    at: usize,
    y: usize,
)
    requires fit { Fit painting.now.tables.now painting.now.pictures.now painting.now.floats.now
        (length line.old) step.now }
    requires scratch { is_made step.now.layer ≡ true → Scratch (length line.old) indexes.old row.old }
    requires extended { step.now.layer.graphics ≡ true
        → Extended painting.now.tables.now painting.now.extents.now at step.now }
    ensures { Over (LentBy painting.now) step.now y line.old line.new }
{
    if !is_on_row(&step.layer, y) {
        return;
    }
    let left = PIXEL_LEN * step.left;
    let part = &mut line[left..left + PIXEL_LEN * step.wide];
    if step.layer.graphics {
        draw_over(part, indexes, painting, step, at, y);
        return;
    }
    lay_picture(part, row, painting, None, step, y);
}
