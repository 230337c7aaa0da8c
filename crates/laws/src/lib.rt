// The laws of painting, the impostors that the promises rule out and the starred figures, over the
// definitions of the crates below. The code is two calls whose promise is a law itself: that lent buffers
// are of bytes is known by their types, so only a function can use it.
#![tactic(auto)]

ghost use Rattle.std.specs.Prelude.{◌≡◌};
ghost use Rattle.display.specs.Paint.{scene_with};
ghost use Rattle.display.specs.Reached.{Arranged};
ghost use Rattle.host.specs.Host.{scene_in};
ghost use Rattle.laws.specs.Painting.{Framing, Hosting, Between};

use display::{Display, Told};
use host::spoonwing_frame;

// Whoever makes the display's call has its law of between, and no more to show than that the frame is
// painted. It asks what painting asks.
fn between_frame(
    state: Display,
    tables: &[u8],
    pictures: &[u8],
    floats: &[f32],
    out: &mut [u8],
) -> Told
    requires { Arranged state }
    ensures { Framing state tables.now pictures.now floats.now out.old
        → Between (scene_with state tables.now pictures.now floats.now) out.new }
{
    state.frame(tables, pictures, floats, out)
}

// The same of the host entry.
fn between_host(image: &[u8], frame: u32, tables: &[u8], pictures: &[u8], output: &mut [u8]) -> u32
    ensures { Hosting image.now frame tables.now pictures.now
        output.old
        → Between (scene_in image.now frame tables.now pictures.now)
        output.new }
{
    spoonwing_frame(image, frame, tables, pictures, output)
}
