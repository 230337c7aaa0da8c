// The painted frame: fill, a band of depths, both, and a line of both. Rows outside and layers inside, so that a
// line of the frame stays at hand; what is the same for a whole painting is worked out before its rows.
#![tactic(auto)]

ghost use Rattle.std.specs.Prelude.{◌≡◌, length};
ghost use Rattle.lists.specs.Tab.{each};
ghost use Rattle.answers.specs.Refusals.{answer_of};
ghost use Rattle.frames.specs.Band.{errors_of};
ghost use Rattle.frames.specs.Frame.{fill_refusal, fill_after, paint_after, frame_after};
ghost use Rattle.frames.specs.Line.{line_after};
ghost use Rattle.paint.specs.Engine.Rows.{part_byte, PartFits};
ghost use Rattle.paint.specs.Given.{scene_in};
ghost use Rattle.paint.specs.Painted.{painted_by, told_of, output_of, line_told_of};

use crate::rows::{ground_if, paint_rows};
use crate::scene::Scene;
use answers::Refusal;
use plan::{Part, plan_of};
use profiles::bits_of;
use refusals::{DEPTHS, fill_refusal, line_refusal, paint_refusal};
use scanline::ground::lay_ground;
use words::fields::{ground_of, is_shown, screen_height};

mod rows;
pub mod scene;

// Fills the output with the background, whatever it held. Refused with 12 where no start has given the
// output a size, and with 13 where `out` is not of that size; a refusal leaves `out`.
pub fn fill(w: &[u32; 52], out: &mut [u8]) -> Result<(), Refusal>
    ensures answer { answer_of result ≡ fill_refusal w.now (length out.old) }
    ensures output { out.new ≡ fill_after w.now out.old }
{
    fill_refusal(w, out.len())?;
    colours::fill(out, ground_of(w));
    Ok(())
}

// A part of a frame over the ground, where `fresh`, or over what `out` holds, and the error word after it, for buffers
// of the right lengths. With the display off there are no layers.
fn paint_part(scene: &Scene, errors: u32, part: Part, fresh: bool, out: &mut [u8]) -> u32
    requires { PartFits (scene_in scene.now) part out.old }
    ensures errors { result ≡ errors_of (scene_in scene.now) part.low part.high errors }
    ensures output { out.new ≡ each (part_byte (scene_in scene.now) part fresh) out.old }
{
    let w = scene.words;
    if !is_shown(w) {
        lay_ground(out, ground_if(fresh, w));
        return errors;
    }
    let bits = bits_of(scene.profile);
    let plan = plan_of(
        bits,
        w,
        scene.layout,
        scene.frame,
        errors,
        scene.tables,
        part,
    );
    paint_rows(
        out,
        w,
        scene.tables,
        scene.pictures,
        scene.floats,
        fresh,
        &plan,
        part,
    );
    plan.errors
}

// The band's layers over the ground, where `fresh`, or over what `out` holds. It gives the error word afterwards. Refused
// with 15, 12, 13, 6, 14, 18 in this order; a refusal changes nothing.
fn paint_band(
    scene: &Scene,
    errors: u32,
    low: u32,
    high: u32,
    fresh: bool,
    out: &mut [u8],
) -> Result<u32, Refusal>
    ensures told { painted_by result errors ≡ told_of (scene_in scene.now) low high out.old errors }
    ensures output { out.new ≡ output_of (scene_in scene.now) low high fresh out.old }
{
    let bits = bits_of(scene.profile);
    let asked = scene.layout.pictures;
    paint_refusal(
        bits,
        scene.words,
        asked,
        low,
        high,
        out.len(),
        scene.lengths(),
    )?;
    let part = Part {
        low,
        high,
        first: 0,
        count: u32::from(screen_height(scene.words)),
    };
    Ok(paint_part(scene, errors, part, fresh, out))
}

// Paints the layers of depths from `low` up to but not `high` over what `out` holds, and gives the error word afterwards.
#[tactic(auto, unfolding(frames::specs::Frame::paint_after))]
pub fn band(scene: &Scene, errors: u32, low: u32, high: u32, out: &mut [u8]) -> Result<u32, Refusal>
    ensures told { painted_by result errors ≡ told_of (scene_in scene.now) low high out.old errors }
    ensures output { out.new ≡ paint_after (scene_in scene.now) low high out.old }
{
    paint_band(scene, errors, low, high, false, out)
}

// Paints a whole frame: a fill, and the layers of every depth. Refused as a band is, before the fill.
#[tactic(auto, unfolding(frames::specs::Frame::frame_after, frames::specs::Frame::frame_of))]
pub fn frame(scene: &Scene, errors: u32, out: &mut [u8]) -> Result<u32, Refusal>
    ensures told { painted_by result errors ≡ told_of (scene_in scene.now) 0 8 out.old errors }
    ensures output { out.new ≡ frame_after (scene_in scene.now) out.old }
{
    paint_band(scene, errors, 0, DEPTHS, true, out)
}

// Paints line y of a whole frame into `out`, which has that line alone, whatever it held. Refused with 12, 15, 13,
// 6, 14, 18 in this order; a refusal changes nothing.
pub fn line(scene: &Scene, errors: u32, y: u32, out: &mut [u8]) -> Result<u32, Refusal>
    ensures told { painted_by result errors ≡ line_told_of (scene_in scene.now) y out.old errors }
    ensures output { out.new ≡ line_after (scene_in scene.now) y out.old }
{
    let bits = bits_of(scene.profile);
    let asked = scene.layout.pictures;
    line_refusal(bits, scene.words, asked, y, out.len(), scene.lengths())?;
    let part = Part {
        low: 0,
        high: DEPTHS,
        first: y,
        count: 1,
    };
    let fresh = true;
    Ok(paint_part(scene, errors, part, fresh, out))
}
