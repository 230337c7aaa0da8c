// The row that a line has of a frame layer, over the layer's part of the line, or over the background there: of a picture
// of bytes, or of one of floats.
ghost use Rattle.std.specs.Prelude.{◌≡◌, true, false, ◌+◌, ◌*◌, ◌%◌, ◌≤◌, length};
ghost use Rattle.lists.specs.Tab.{each};
ghost use Rattle.mix.specs.Pixel.{pixel_len};
ghost use Rattle.span.specs.Span.{over_byte};
ghost use Rattle.scanline.specs.Engine.Lines.{OnRow, OnPart, Pictured, RowFlows, row_start, under_byte};
ghost use Rattle.scanline.specs.Engine.Lines.{Shows, Flows, LentBy, LaidOver};

use crate::Painting;
use crate::row::{float_row, row_start};
use mix::{Ground, PIXEL_LEN};
use plan::Step;

// One run over another: at the layer's alpha, or each pixel at its own.
fn over(out: &mut [u8], run: &[u8], global: bool, alpha: u8)
    requires { (length out.old ≡ length run.now) × (length out.old % pixel_len ≡ 0) }
    ensures { out.new ≡ each (over_byte run.now global alpha) out.old }
{
    if global {
        span::blend_flat(out, run, alpha);
        return;
    }
    span::blend(out, run);
}

// The same, or over the background in place of what is there. What blends is behind a call of its own in either case, so
// that this and what calls it become a part of the loop over the lines.
#[inline(always)]
fn lay_run(part: &mut [u8], run: &[u8], ground: Option<Ground>, step: &Step)
    requires { (length part.old ≡ length run.now) × (length part.old % pixel_len ≡ 0) }
    ensures { part.new ≡ each (over_byte run.now step.now.layer.global step.now.alpha)
        (each (under_byte ground) part.old) }
{
    let global = step.layer.global;
    if let Some(ground) = ground {
        span::lay_either(part, run, global, step.alpha, ground);
        return;
    }
    over(part, run, global, step.alpha);
}

// Line y of a picture of bytes.
#[inline(always)]
fn lay_bytes(part: &mut [u8], pictures: &[u8], ground: Option<Ground>, step: &Step, y: usize)
    requires on_row { OnRow step.now y × OnPart step.now (length part.old)
        × (step.now.layer.graphics ≡ false) × (step.now.layer.floats ≡ false) }
    requires wide_in_bounds { row_start step.now y + pixel_len * step.now.wide ≤ length pictures.now }
    ensures { LaidOver (Shows pictures.now) step.now y (each (under_byte ground) part.old) part.new }
{
    let wide = PIXEL_LEN * step.wide;
    let from = row_start(step, y);
    lay_run(part, &pictures[from..from + wide], ground, step);
}

// Line y of a picture of floats, with room for its row.
fn lay_floats(
    part: &mut [u8],
    row: &mut [u8],
    floats: &[f32],
    ground: Option<Ground>,
    step: &Step,
    y: usize,
)
    requires on_row { OnRow step.now y × OnPart step.now (length part.old)
        × (step.now.layer.graphics ≡ false) × (step.now.layer.floats ≡ true) }
    requires row_flows { RowFlows floats.now step.now y × (length part.old ≤ length row.old) }
    ensures { LaidOver (Flows floats.now) step.now y (each (under_byte ground) part.old) part.new }
{
    let made = &mut row[..PIXEL_LEN * step.wide];
    float_row(made, floats, step, y);
    lay_run(part, made, ground, step);
}

// Either of them.
#[inline(always)]
pub fn lay_picture(
    part: &mut [u8],
    row: &mut [u8],
    painting: &Painting,
    ground: Option<Ground>,
    step: &Step,
    y: usize,
)
    requires on_row { OnRow step.now y × OnPart step.now (length part.old)
        × Pictured painting.now.pictures.now painting.now.floats.now step.now }
    requires kind { (step.now.layer.graphics ≡ false)
        × (step.now.layer.floats ≡ true → length part.old ≤ length row.old) }
    ensures { LaidOver (LentBy painting.now) step.now y (each (under_byte ground) part.old) part.new }
{
    if step.layer.floats {
        lay_floats(part, row, painting.floats, ground, step, y);
        return;
    }
    lay_bytes(part, painting.pictures, ground, step, y);
}
