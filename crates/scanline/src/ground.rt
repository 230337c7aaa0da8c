// The ground of a line: the background where the frame is a fresh one, else what is there. Where the lowest layer takes up
// the whole line of a fresh frame, it is laid together with the ground, so that the line is written once.
ghost use Rattle.std.specs.Prelude.{◌≡◌, true, Some, ◌+◌, ◌*◌, ◌%◌, ◌<◌, ◌≤◌, length};
ghost use Rattle.lists.specs.Tab.{each};
ghost use Rattle.mix.specs.Pixel.{pixel_len};
ghost use Rattle.scanline.specs.Engine.Lines.{Pictured, FirstDrawn, OnRow, OnPart, under_byte};
ghost use Rattle.scanline.specs.Engine.Lines.{whole_line, Draws, LentBy, Over, OverTo};

use crate::Painting;
use crate::picture::lay_picture;
use crate::row::{draw_row, is_on_row};
use mix::{Ground, PIXEL_LEN};
use plan::Step;

// The ground of a run.
pub fn lay_ground(out: &mut [u8], ground: Option<Ground>)
    requires { length out.old % pixel_len ≡ 0 }
    ensures { out.new ≡ each (under_byte ground) out.old }
{
    if let Some(ground) = ground {
        colours::fill(out, ground);
    }
}

// Line y of a graphics layer that takes up the whole line, over the background, with room for its colour indexes: they go
// through a palette whose colours lie over the background already.
fn lay_drawn(
    line: &mut [u8],
    indexes: &mut [u8],
    painting: &Painting,
    ground: Ground,
    step: &Step,
    y: usize,
)
    requires on_row { OnRow step.now y × OnPart step.now (length line.old) × (step.now.layer.graphics ≡ true) }
    requires first_drawn { FirstDrawn (length line.old) indexes.old painting.now.tables.now
        painting.now.extents.now painting.now.under.now ground step.now }
    ensures { Over (Draws painting.now.tables.now) step.now y
        (each (under_byte (Some ground)) line.old) line.new }
{
    let v = y - usize::from(step.layer.y);
    let drawn = &mut indexes[..step.wide];
    draw_row(drawn, painting, step, 0, v);
    colours::expand(drawn, painting.under, line);
}

// The same of any layer.
fn lay_layer(
    line: &mut [u8],
    indexes: &mut [u8],
    row: &mut [u8],
    painting: &Painting,
    ground: Ground,
    step: &Step,
    y: usize,
)
    requires on_row { OnRow step.now y × OnPart step.now (length line.old)
        × Pictured painting.now.pictures.now painting.now.floats.now step.now }
    requires line_in_bounds { (step.now.layer.floats ≡ true → length line.old ≤ length row.old)
        × (step.now.layer.graphics ≡ true → FirstDrawn (length line.old) indexes.old painting.now.tables.now
        painting.now.extents.now painting.now.under.now ground step.now) }
    ensures { Over (LentBy painting.now) step.now y (each (under_byte (Some ground)) line.old) line.new }
{
    if step.layer.graphics {
        lay_drawn(line, indexes, painting, ground, step, y);
        return;
    }
    lay_picture(line, row, painting, Some(ground), step, y);
}

// Whether a layer takes up the whole of line y, which has `pixels` pixels.
fn is_whole_line(step: &Step, pixels: usize, y: usize) -> bool
    ensures { result ≡ whole_line step.now pixels y }
{
    step.wide == pixels && is_on_row(&step.layer, y)
}

// The ground of line y, and with it the first of a plan's `count` layers where that takes up the whole line
// of a fresh frame. Answers how many layers were laid, 0 or 1.
pub fn lay_first(
    line: &mut [u8],
    indexes: &mut [u8],
    row: &mut [u8],
    painting: &Painting,
    step: &Step,
    count: usize,
    y: usize,
) -> usize
    requires pixel_len_len { (length line.old % pixel_len ≡ 0)
        × (0 < count → Pictured painting.now.pictures.now painting.now.floats.now step.now)
        × (0 < count → step.now.layer.floats ≡ true → length line.old ≤ length row.old) }
    requires first_drawn { 0 < count → step.now.layer.graphics ≡ true → (g : Ground)
        → painting.now.ground ≡ Some g → FirstDrawn (length line.old) indexes.old painting.now.tables.now
        painting.now.extents.now painting.now.under.now g step.now }
    ensures laid { OverTo (LentBy painting.now) step.now count result y
        (each (under_byte painting.now.ground) line.old) line.new }
    ensures few { result ≤ count }
{
    let Some(ground) = painting.ground else {
        return 0;
    };
    if 0 < count && is_whole_line(step, line.len() / PIXEL_LEN, y) {
        lay_layer(line, indexes, row, painting, ground, step, y);
        return 1;
    }
    lay_ground(line, Some(ground));
    0
}
