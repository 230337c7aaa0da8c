// A picture that hides all under it on a line of a fresh frame: it is laid over the background, and what lies between
// need not be painted.
ghost use Rattle.std.specs.Prelude.{◌≡◌, true, false, ◌*◌, ◌%◌, ◌≤◌, length};
ghost use Rattle.lists.specs.Tab.{each};
ghost use Rattle.mix.specs.Pixel.{pixel_len};
ghost use Rattle.scanline.specs.Engine.Lines.{ground_byte, picture_end, OnPart, Shows, OpaqueOver, Hides};

use crate::row::{is_on_row, row_start};
use mix::{Ground, OPAQUE, PIXEL_LEN};
use plan::Step;

// Whether a run is opaque all along, at the layer's alpha or each pixel at its own. It is then laid over the background;
// where it is not, `out` holds anything.
fn lay_opaque(out: &mut [u8], run: &[u8], global: bool, alpha: u8, ground: Ground) -> bool
    requires { (length out.old ≡ length run.now) × (length out.old % pixel_len ≡ 0) }
    ensures { result ≡ true → OpaqueOver run.now global alpha
        (each (ground_byte ground true) out.old) out.new }
{
    if !global {
        return span::lay_if_opaque(out, run, ground);
    }
    if alpha != OPAQUE {
        return false;
    }
    span::lay_either(out, run, true, OPAQUE, ground);
    true
}

// Whether a layer hides all under it on line y: it is a picture of bytes, as wide as the line, that reaches it and is
// opaque there. It is then laid over the background; where it does not, the line holds anything.
pub fn lay_hiding(line: &mut [u8], pictures: &[u8], ground: Ground, step: &Step, y: usize) -> bool
    requires { (step.now.wide ≤ step.now.layer.width)
        × (step.now.layer.graphics ≡ false → step.now.layer.floats ≡ false
        → picture_end step.now ≤ length pictures.now) }
    ensures { result ≡ true → Hides (Shows pictures.now) step.now y
        (each (ground_byte ground true) line.old) line.new }
{
    let wide = PIXEL_LEN * step.wide;
    if wide != line.len()
        || step.layer.graphics
        || step.layer.floats
        || !is_on_row(&step.layer, y)
    {
        return false;
    }
    let from = row_start(step, y);
    lay_opaque(
        line,
        &pictures[from..from + wide],
        step.layer.global,
        step.alpha,
        ground,
    )
}
