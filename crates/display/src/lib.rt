// The display's state and its calls. Each call takes the state and hands it back with an answer, and
// a refusal leaves what the answer's row in `answers` says.
#![tactic(auto, using(lists::proofs::Tests::tests))]

ghost use Rattle.std.specs.Prelude.{◌≡◌};
ghost use Rattle.answers.specs.Refusals.{answer_of};
ghost use Rattle.profiles.specs.Profile.{profile_of};
ghost use Rattle.words.specs.Fields.{width_of, height_of};
ghost use Rattle.display.specs.State.{fresh, with_errors, with_place, told};
ghost use Rattle.display.specs.Doors.{with_layout};
ghost use Rattle.display.specs.State.{new_of, write_of, select_of, toggle_of, start_of};
ghost use Rattle.display.specs.Put.{put_of, put_tables};
ghost use Rattle.display.specs.Runs.{ran, told_by, put_run_of, put_run_tables, write_run_of};
ghost use Rattle.display.specs.Paint.{fill_told, fill_bytes, paint_told, paint_bytes, frame_told, frame_bytes};
ghost use Rattle.display.specs.Paint.{scene_with, line_told, line_bytes};
ghost use Rattle.paint.specs.Given.{scene_in};
ghost use Rattle.paint.specs.Painted.{painted_by};
ghost use Rattle.display.specs.Reached.{Arranged};
ghost use Rattle.display.specs.Engine.Verdict.{verdict_by, verdict_of};

use answers::{Refusal, answer_of};
use loads::{Loaded, REGISTERS};
use order::{Layout, layout_of, no_layers};
use paint::scene::Scene;
use profiles::{Profile, bits_of};
use starts::refusal_of;
use tables::Selection;
use words::fields::{is_update, screen_height, screen_width};

pub mod doors;

const SELECTIONS: u32 = 64;

// Only `new` and the calls below make one: its fields are closed to other crates. So what painting asks of a state
// (`Arranged`) is so of every one. It is no ghost field, since `doors` makes one without its layout for calls that paint
// nothing.
#[derive(Clone, Copy)]
pub struct Display {
    pending: [u32; 52],
    active: [u32; 52],
    frame: u32,
    errors: u32,
    selection: Selection,
    profile: Profile,
    // What painting needs of the active words, worked out when they became so.
    layout: Layout,
}

// What a call answers: the state afterwards, and 0 or the number of the refusal. It is no Result, since a refusal has a
// state too: a refused start steps the frame number.
#[derive(Clone, Copy)]
pub struct Told {
    pub state: Display,
    pub answer: u8,
}

// What a run answers: the state afterwards, 0 or the number of the refusal that stopped it, and how many
// items were done before it.
#[derive(Clone, Copy)]
pub struct Ran {
    pub state: Display,
    pub answer: u8,
    pub done: usize,
}

// A run of puts, by what was loaded.
fn laden(mut state: Display, loaded: Loaded) -> Ran
    ensures { result
        ≡ ran (with_errors (with_place state loaded.place) loaded.errors) loaded.answer loaded.done }
{
    state.selection.place = loaded.place;
    state.errors = loaded.errors;
    Ran {
        state: state,
        answer: loaded.answer,
        done: loaded.done,
    }
}

// What a run answers, without its count.
fn told_by(ran: Ran) -> Told
    ensures { result ≡ told_by ran }
{
    let state = ran.state;
    Told {
        state,
        answer: ran.answer,
    }
}

// A display to which nothing has happened.
fn fresh(soft: bool, floats: bool) -> Display
    ensures { result ≡ fresh (profile_of soft floats) }
{
    Display {
        pending: [0; 52],
        active: [0; 52],
        frame: 0,
        errors: 0,
        selection: Selection {
            made: false,
            number: 0,
            place: 0,
        },
        profile: Profile { soft, floats },
        layout: no_layers(),
    }
}

// What a start makes of the pending words: whether they become the active ones, or why they are refused.
fn verdict_on(floats: bool, pending: &[u32; 52]) -> Result<bool, Refusal>
    ensures { verdict_by result ≡ verdict_of floats pending.now }
{
    if !is_update(pending) {
        return Ok(false);
    }
    refusal_of(floats, pending)?;
    Ok(true)
}

// A start, but for what is held of the active words: a state in bytes does not hold it.
fn begun(mut state: Display) -> Told
    ensures { result ≡ told (with_layout (start_of state).state state.layout) (start_of state).answer }
{
    let frame = state.frame;
    state.frame = std::num::wrapping_add_u32(frame, 1);
    let pending = state.pending;
    match verdict_on(state.profile.floats, &pending) {
        Ok(true) => {
            state.active = pending;
            state.tell(Ok(()))
        }
        Ok(false) => state.tell(Ok(())),
        Err(refusal) => state.tell(Err(refusal)),
    }
}

impl Display {
    // A display to which nothing has happened: all numbers 0, and nothing selected. A pixel of a glyph has 1
    // or 2 bits; another number is refused with 17, and the display handed back has 1. Float layers are let in, or
    // refused by a start with 7.
    pub fn new(bits: u32, floats: bool) -> Told
        ensures { result ≡ new_of bits floats }
    {
        match bits {
            1 => fresh(false, floats).tell(Ok(())),
            2 => fresh(true, floats).tell(Ok(())),
            _ => fresh(false, floats).tell(Err(Refusal::GlyphBits)),
        }
    }

    // What a call that leaves this state answers.
    fn tell(self, outcome: Result<(), Refusal>) -> Told
        ensures { result ≡ told self (answer_of outcome) }
    {
        Told {
            state: self,
            answer: answer_of(outcome),
        }
    }

    // What it answers where painting gave that: of a refusal the state stays as it was.
    fn painted(mut self, outcome: Result<u32, Refusal>) -> Told
        ensures { result ≡ told (with_errors self (painted_by outcome self.errors).errors)
            (painted_by outcome self.errors).answer }
    {
        match outcome {
            Ok(errors) => {
                self.errors = errors;
                self.tell(Ok(()))
            }
            Err(refusal) => self.tell(Err(refusal)),
        }
    }

    // What it is painted from.
    fn scene<'a>(&'a self, tables: &'a [u8], pictures: &'a [u8], floats: &'a [f32]) -> Scene<'a>
        requires { Arranged self.now }
        ensures { scene_in result ≡ scene_with self.now tables.now pictures.now floats.now }
    {
        Scene {
            profile: self.profile,
            words: &self.active,
            layout: self.layout,
            frame: self.frame,
            tables,
            pictures,
            floats,
        }
    }

    // Changes a pending word. A register above 51 is refused with 1, and all is as it was.
    pub fn write(mut self, register: u32, value: u32) -> Told
        ensures { result ≡ write_of self register value }
    {
        if REGISTERS <= register {
            return self.tell(Err(Refusal::NoRegister));
        }
        let at = register as usize;
        self.pending[at] = value;
        self.tell(Ok(()))
    }

    // Selects a table for `put`, from its first byte on. A selection above 63 is refused with 2, and
    // all is as it was.
    pub fn select(mut self, selection: u32) -> Told
        ensures { result ≡ select_of self selection }
    {
        if SELECTIONS <= selection {
            return self.tell(Err(Refusal::NoSelection));
        }
        let chosen = Selection {
            made: true,
            number: selection,
            place: 0,
        };
        self.selection = chosen;
        self.tell(Ok(()))
    }

    // Turns over each bit of the error word that is set in `bits`. It is never refused.
    pub fn toggle(mut self, bits: u32) -> Told
        ensures { result ≡ toggle_of self bits }
    {
        self.errors = self.errors ^ bits;
        self.tell(Ok(()))
    }

    // Begins the next frame. With the pending update bit set the pending words are checked, and become
    // the active ones or are refused with 7 to 11; a refusal leaves all but the frame number.
    pub fn start(mut self) -> Told
        ensures { result ≡ start_of self }
    {
        let frame = self.frame;
        let next = std::num::wrapping_add_u32(frame, 1);
        let pending = self.pending;
        let verdict = verdict_on(self.profile.floats, &pending);
        self.frame = next;
        match verdict {
            Ok(true) => {
                self.active = pending;
                let layout = layout_of(&pending);
                self.layout = layout;
                self.tell(Ok(()))
            }
            Ok(false) => self.tell(Ok(())),
            Err(refusal) => self.tell(Err(refusal)),
        }
    }

    // Stores a byte in the selected table and goes on to the next place. Refused, in this order, with 6
    // where `tables` is not as long as the display's bits a glyph pixel ask, 3 where nothing is selected,
    // 4 where the active words name the bank, and 5 at the table's end, which sets an error bit; else a
    // refusal changes nothing. It is a part of its caller, so that puts one after the other copy no display.
    #[inline(always)]
    pub fn put(self, tables: &mut [u8], byte: u8) -> Told
        ensures state { result ≡ put_of self tables.old }
        ensures tables { tables.new ≡ put_tables self tables.old byte }
    {
        let run = [byte];
        let selection = self.selection;
        let profile = self.profile;
        let bits = bits_of(profile);
        let loaded = loads::put_run(bits, &self.active, self.errors, selection, tables, &run);
        told_by(laden(self, loaded))
    }

    // Puts each byte of a run, in order, up to the first that is refused: as many calls of `put`. An empty
    // run changes nothing, whatever the tables.
    pub fn put_run(self, tables: &mut [u8], run: &[u8]) -> Ran
        ensures state { result ≡ put_run_of self tables.old run.now }
        ensures tables { tables.new ≡ put_run_tables self tables.old run.now }
    {
        let selection = self.selection;
        let profile = self.profile;
        let bits = bits_of(profile);
        let loaded = loads::put_run(bits, &self.active, self.errors, selection, tables, run);
        laden(self, loaded)
    }

    // Makes each register write of a run, in order, up to the first that is refused: as many calls of
    // `write`. An item is five bytes, register then value, the lowest byte first; fewer left at the end
    // are not looked at.
    pub fn write_run(mut self, run: &[u8]) -> Ran
        ensures { result ≡ write_run_of self run.now }
    {
        let went = loads::write_run(&mut self.pending, run);
        Ran {
            state: self,
            answer: went.answer,
            done: went.done,
        }
    }

    // Fills the output with the background. Refused with 12 where no start has given the output a size,
    // and with 13 where `out` is not 4 bytes for each pixel; a refusal changes nothing.
    #[tactic(auto, using(lists::proofs::Tests::tests), unfolding(crate::specs::Paint::fill_told, crate::specs::Paint::fill_bytes))]
    pub fn fill(self, out: &mut [u8]) -> Told
        ensures state { result ≡ fill_told self out.old }
        ensures output { out.new ≡ fill_bytes self out.old }
    {
        let outcome = paint::fill(&self.active, out);
        self.tell(outcome)
    }

    // Paints the layers of depths from `low` up to but not `high` over what `out` holds, and sets error bit
    // 4n for each graphics layer n among them whose list has no END. Refused with 15, 12, 13, 6, 14, 18 in
    // this order; a refusal changes nothing.
    #[tactic(auto, using(lists::proofs::Tests::tests), unfolding(crate::specs::Paint::paint_told, crate::specs::Paint::paint_bytes))]
    pub fn paint(
        self,
        low: u32,
        high: u32,
        tables: &[u8],
        pictures: &[u8],
        floats: &[f32],
        out: &mut [u8],
    ) -> Told
        requires { Arranged self }
        ensures state { result
            ≡ paint_told self low high tables.now pictures.now floats.now out.old }
        ensures output { out.new
            ≡ paint_bytes self low high tables.now pictures.now floats.now out.old }
    {
        let scene = self.scene(tables, pictures, floats);
        let outcome = paint::band(&scene, self.errors, low, high, out);
        self.painted(outcome)
    }

    // Paints a whole frame: a fill, and the layers of every depth. Refused as `paint` is, before the fill.
    #[tactic(auto, using(lists::proofs::Tests::tests), unfolding(crate::specs::Paint::frame_told, crate::specs::Paint::frame_bytes, crate::specs::Paint::paint_told))]
    pub fn frame(self, tables: &[u8], pictures: &[u8], floats: &[f32], out: &mut [u8]) -> Told
        requires { Arranged self }
        ensures state { result ≡ frame_told self tables.now pictures.now floats.now out.old }
        ensures output { out.new
            ≡ frame_bytes self tables.now pictures.now floats.now out.old }
    {
        let scene = self.scene(tables, pictures, floats);
        let outcome = paint::frame(&scene, self.errors, out);
        self.painted(outcome)
    }

    // Paints line y of a whole frame into `out`, which has that line alone, whatever it held; the error bits are those
    // of the whole frame. Refused with 12, 15, 13, 6, 14, 18 in this order; a refusal changes nothing.
    #[tactic(auto, using(lists::proofs::Tests::tests), unfolding(crate::specs::Paint::line_told, crate::specs::Paint::line_bytes))]
    pub fn line(
        self,
        y: u32,
        tables: &[u8],
        pictures: &[u8],
        floats: &[f32],
        out: &mut [u8],
    ) -> Told
        requires { Arranged self }
        ensures state { result ≡ line_told self y tables.now pictures.now floats.now out.old }
        ensures output { out.new
            ≡ line_bytes self y tables.now pictures.now floats.now out.old }
    {
        let scene = self.scene(tables, pictures, floats);
        let outcome = paint::line(&scene, self.errors, y, out);
        self.painted(outcome)
    }

    // Painting layer n from a list without END sets bit 4n, a put past the end of a table of controller g bit
    // 4g+1; only `toggle` clears one.
    pub fn error_word(self) -> u32
        ensures { result ≡ self.errors }
    {
        self.errors
    }

    // How many starts there were, modulo 2^32.
    pub fn frame_number(self) -> u32
        ensures { result ≡ self.frame }
    {
        self.frame
    }

    // The size of the frame that painting writes: of the active words.
    pub fn output_width(self) -> u16
        ensures { result ≡ width_of self.active }
    {
        screen_width(&self.active)
    }

    pub fn output_height(self) -> u16
        ensures { result ≡ height_of self.active }
    {
        screen_height(&self.active)
    }
}
