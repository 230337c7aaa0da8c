// The one entry for a C host: a whole frame from a register image, with no state between calls.
#![tactic(auto)]

ghost use Rattle.std.specs.Prelude.{◌≡◌};
ghost use Rattle.answers.specs.Refusals.{answer_of};
ghost use Rattle.host.specs.Host.{profile_for, host_answer, host_output};

use answers::{Refusal, answer_of};
use order::layout_of;
use paint::scene::Scene;
use profiles::Profile;
use starts::refusal_of;
use tables::tables_len;
use words::image::{IMAGE_LEN, words_at};

// What the tables' length says of their font.
fn profile_for(long: usize) -> Profile
    ensures { result ≡ profile_for long }
{
    let soft = long == tables_len(2);
    Profile {
        soft,
        floats: false,
    }
}

// The frame, painted; or why it is refused.
fn painted(
    image: &[u8],
    frame: u32,
    tables: &[u8],
    pictures: &[u8],
    output: &mut [u8],
) -> Result<(), Refusal>
    ensures answer { answer_of result
        ≡ host_answer image.now frame tables.now pictures.now output.old }
    ensures output { output.new
        ≡ host_output image.now frame tables.now pictures.now output.old }
{
    if image.len() != IMAGE_LEN {
        return Err(Refusal::ImageLength);
    }
    let words = words_at(image, 0);
    refusal_of(false, &words)?;
    let profile = profile_for(tables.len());
    let layout = layout_of(&words);
    let floats: [f32; 0] = [];
    let scene = Scene {
        profile,
        words: &words,
        layout,
        frame,
        tables,
        pictures,
        floats: &floats,
    };
    paint::frame(&scene, 0, output)?;
    Ok(())
}

// Paints a whole frame of the image's words at a frame number. Answers 0, or the first of 16, 7, 8, 9
// and 10 of each layer, 11, 13, 6, 14; a refusal leaves `output`. Error bits are dropped. A glyph's pixel has
// one bit or two, as the tables are long. No floats are lent, so that a float layer answers 7.
pub fn spoonwing_frame(
    image: &[u8],
    frame: u32,
    tables: &[u8],
    pictures: &[u8],
    output: &mut [u8],
) -> u32
    ensures answer { result
        ≡ host_answer image.now frame tables.now pictures.now output.old }
    ensures output { output.new
        ≡ host_output image.now frame tables.now pictures.now output.old }
{
    u32::from(answer_of(painted(image, frame, tables, pictures, output)))
}
