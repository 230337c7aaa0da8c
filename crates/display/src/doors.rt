// The calls of a display for a host in C, over a state that it lends as bytes: each takes the bytes apart,
// makes the call and puts them back. To Rattle the state stays closed: nothing here hands out a `Display`.
#![tactic(auto, using(crate::proofs::DoorCases::doors), unfolding(crate::specs::Doors::choices_of))]

ghost use Rattle.std.specs.Prelude.{◌≡◌, true, length};
ghost use Rattle.lists.specs.Choice.{pick};
ghost use Rattle.words.specs.Fields.{width_of, height_of};
ghost use Rattle.order.specs.Layout.{no_layers};
ghost use Rattle.display.specs.State.{new_of, write_of, select_of, toggle_of, start_of};
ghost use Rattle.display.specs.Put.{put_of, put_tables};
ghost use Rattle.display.specs.Runs.{told_by, put_run_of, put_run_tables, write_run_of};
ghost use Rattle.display.specs.Paint.{fill_told, fill_bytes, paint_told, paint_bytes, frame_told, frame_bytes};
ghost use Rattle.display.specs.Paint.{line_told, line_bytes};
ghost use Rattle.display.specs.Doors.{with_layout, state_len, taken_of, state_bytes, door_answer, door_state};
ghost use Rattle.display.specs.Doors.{choices_of, door_buffer, door_read};

use crate::{Display, Told, begun, told_by};
use answers::Refusal;
use numbers::put_words;
use order::{layout_of, no_layers};
use profiles::Profile;
use tables::Selection;
use words::image::{word_at, words_at};

// Pending words, active words, frame number, error word, whether something is selected, selection, place,
// what was chosen.
const STATE_LEN: usize = 440;

// What a door answers to a state of another length.
const STATE_LENGTH: u32 = Refusal::StateLength as u32;

// ---- the state

// All but what is held for painting, which the bytes do not have and calls that paint nothing do not ask for.
fn bare(state: &[u8]) -> Display
    requires { length state.now ≡ state_len }
    ensures { result ≡ with_layout (taken_of state.now) no_layers }
{
    let pending = words_at(state, 0);
    let active = words_at(state, 208);
    let frame = word_at(state, 416);
    let errors = word_at(state, 420);
    let made = 0 < word_at(state, 424);
    let number = word_at(state, 428);
    let place = word_at(state, 432);
    let chosen = word_at(state, 436);
    let soft = chosen % 2 == 1;
    let floats = chosen / 2 % 2 == 0;
    Display {
        pending,
        active,
        frame,
        errors,
        selection: Selection {
            made,
            number,
            place,
        },
        profile: Profile { soft, floats },
        layout: no_layers(),
    }
}

// The whole state: what is held is worked out afresh, whatever call made the bytes.
fn taken(state: &[u8]) -> Display
    requires { length state.now ≡ state_len }
    ensures { result ≡ taken_of state.now }
{
    let mut d = bare(state);
    let layout = layout_of(&d.active);
    d.layout = layout;
    d
}

fn choices_of(profile: Profile) -> u32
    ensures { result ≡ choices_of profile }
{
    let soft = u32::from(profile.soft);
    if profile.floats {
        return soft;
    }
    soft + 2
}

fn put_back(d: Display, state: &mut [u8])
    requires { length state.old ≡ state_len }
    ensures { state.new ≡ state_bytes d }
{
    let made = u32::from(d.selection.made);
    let chosen = choices_of(d.profile);
    let last: [u32; 6] = [
        d.frame,
        d.errors,
        made,
        d.selection.number,
        d.selection.place,
        chosen,
    ];
    put_words(&mut state[0..208], &d.pending);
    put_words(&mut state[208..416], &d.active);
    put_words(&mut state[416..440], &last);
}

// What a call told: its state put back, its answer as C has it.
fn given(told: Told, state: &mut [u8]) -> u32
    requires { length state.old ≡ state_len }
    ensures answer { result ≡ told.answer }
    ensures state { state.new ≡ state_bytes told.state }
{
    put_back(told.state, state);
    u32::from(told.answer)
}

// ---- the doors: a state of another length is refused with 23, and all is as it was. Each tests the length by itself: of a
// call that is handed on as a closure nothing is known of what it leaves in the buffers that it borrows.

pub fn spoonwing_display_new(state: &mut [u8], bits: u32) -> u32
    ensures answer { result ≡ door_answer state.old (λ _. new_of bits true) }
    ensures state { state.new ≡ door_state state.old (λ _. new_of bits true) }
{
    if state.len() != STATE_LEN {
        return STATE_LENGTH;
    }
    given(Display::new(bits, true), state)
}

pub fn spoonwing_display_write(state: &mut [u8], register: u32, value: u32) -> u32
    ensures answer { result ≡ door_answer state.old (λ d. write_of d register value) }
    ensures state { state.new ≡ door_state state.old (λ d. write_of d register value) }
{
    if state.len() != STATE_LEN {
        return STATE_LENGTH;
    }
    given(bare(state).write(register, value), state)
}

pub fn spoonwing_display_select(state: &mut [u8], selection: u32) -> u32
    ensures answer { result ≡ door_answer state.old (λ d. select_of d selection) }
    ensures state { state.new ≡ door_state state.old (λ d. select_of d selection) }
{
    if state.len() != STATE_LEN {
        return STATE_LENGTH;
    }
    given(bare(state).select(selection), state)
}

pub fn spoonwing_display_toggle(state: &mut [u8], bits: u32) -> u32
    ensures answer { result ≡ door_answer state.old (λ d. toggle_of d bits) }
    ensures state { state.new ≡ door_state state.old (λ d. toggle_of d bits) }
{
    if state.len() != STATE_LEN {
        return STATE_LENGTH;
    }
    given(bare(state).toggle(bits), state)
}

pub fn spoonwing_display_start(state: &mut [u8]) -> u32
    ensures answer { result ≡ door_answer state.old (λ d. start_of d) }
    ensures state { state.new ≡ door_state state.old (λ d. start_of d) }
{
    if state.len() != STATE_LEN {
        return STATE_LENGTH;
    }
    given(begun(bare(state)), state)
}

pub fn spoonwing_display_put(state: &mut [u8], tables: &mut [u8], byte: u8) -> u32
    ensures answer { result ≡ door_answer state.old (λ d. put_of d tables.old) }
    ensures state { state.new ≡ door_state state.old (λ d. put_of d tables.old) }
    ensures tables { tables.new
        ≡ door_buffer state.old (λ d. put_tables d tables.old byte) tables.old }
{
    if state.len() != STATE_LEN {
        return STATE_LENGTH;
    }
    given(bare(state).put(tables, byte), state)
}

pub fn spoonwing_display_put_run(
    state: &mut [u8],
    tables: &mut [u8],
    run: &[u8],
    done: &mut usize,
) -> u32
    ensures answer { result ≡ door_answer state.old
        (λ d. told_by (put_run_of d tables.old run.now)) }
    ensures state { state.new ≡ door_state state.old
        (λ d. told_by (put_run_of d tables.old run.now)) }
    ensures tables { tables.new
        ≡ door_buffer state.old (λ d. put_run_tables d tables.old run.now)
        tables.old }
    ensures count { done.new
        ≡ door_read state.old (λ d. (put_run_of d tables.old run.now).done) }
{
    if state.len() != STATE_LEN {
        *done = 0;
        return STATE_LENGTH;
    }
    let ran = bare(state).put_run(tables, run);
    *done = ran.done;
    given(told_by(ran), state)
}

pub fn spoonwing_display_write_run(state: &mut [u8], run: &[u8], done: &mut usize) -> u32
    ensures answer { result ≡ door_answer state.old (λ d. told_by (write_run_of d run.now)) }
    ensures state { state.new
        ≡ door_state state.old (λ d. told_by (write_run_of d run.now)) }
    ensures count { done.new
        ≡ door_read state.old (λ d. (write_run_of d run.now).done) }
{
    if state.len() != STATE_LEN {
        *done = 0;
        return STATE_LENGTH;
    }
    let ran = bare(state).write_run(run);
    *done = ran.done;
    given(told_by(ran), state)
}

pub fn spoonwing_display_fill(state: &mut [u8], out: &mut [u8]) -> u32
    ensures answer { result ≡ door_answer state.old (λ d. fill_told d out.old) }
    ensures state { state.new ≡ door_state state.old (λ d. fill_told d out.old) }
    ensures output { out.new
        ≡ door_buffer state.old (λ d. fill_bytes d out.old) out.old }
{
    if state.len() != STATE_LEN {
        return STATE_LENGTH;
    }
    given(bare(state).fill(out), state)
}

pub fn spoonwing_display_paint(
    state: &mut [u8],
    low: u32,
    high: u32,
    tables: &[u8],
    pictures: &[u8],
    floats: &[f32],
    out: &mut [u8],
) -> u32
    ensures answer { result ≡ door_answer state.old
        (λ d. paint_told d low high tables.now pictures.now floats.now out.old) }
    ensures state { state.new ≡ door_state state.old
        (λ d. paint_told d low high tables.now pictures.now floats.now out.old) }
    ensures output { out.new
        ≡ door_buffer state.old (λ d. paint_bytes d low high tables.now pictures.now
        floats.now out.old) out.old }
{
    if state.len() != STATE_LEN {
        return STATE_LENGTH;
    }
    given(
        taken(state).paint(low, high, tables, pictures, floats, out),
        state,
    )
}

pub fn spoonwing_display_frame(
    state: &mut [u8],
    tables: &[u8],
    pictures: &[u8],
    floats: &[f32],
    out: &mut [u8],
) -> u32
    ensures answer { result ≡ door_answer state.old
        (λ d. frame_told d tables.now pictures.now floats.now out.old) }
    ensures state { state.new ≡ door_state state.old
        (λ d. frame_told d tables.now pictures.now floats.now out.old) }
    ensures output { out.new
        ≡ door_buffer state.old (λ d. frame_bytes d tables.now pictures.now
        floats.now out.old) out.old }
{
    if state.len() != STATE_LEN {
        return STATE_LENGTH;
    }
    given(taken(state).frame(tables, pictures, floats, out), state)
}

pub fn spoonwing_display_line(
    state: &mut [u8],
    y: u32,
    tables: &[u8],
    pictures: &[u8],
    floats: &[f32],
    out: &mut [u8],
) -> u32
    ensures answer { result ≡ door_answer state.old
        (λ d. line_told d y tables.now pictures.now floats.now out.old) }
    ensures state { state.new ≡ door_state state.old
        (λ d. line_told d y tables.now pictures.now floats.now out.old) }
    ensures output { out.new
        ≡ door_buffer state.old (λ d. line_bytes d y tables.now pictures.now
        floats.now out.old) out.old }
{
    if state.len() != STATE_LEN {
        return STATE_LENGTH;
    }
    given(taken(state).line(y, tables, pictures, floats, out), state)
}

// ---- reads: 0 of a state of another length

pub fn spoonwing_display_error_word(state: &[u8]) -> u32
    ensures { result ≡ door_read state.now (λ d. d.errors) }
{
    if state.len() != STATE_LEN {
        return 0;
    }
    bare(state).error_word()
}

pub fn spoonwing_display_frame_number(state: &[u8]) -> u32
    ensures { result ≡ door_read state.now (λ d. d.frame) }
{
    if state.len() != STATE_LEN {
        return 0;
    }
    bare(state).frame_number()
}

pub fn spoonwing_display_output_width(state: &[u8]) -> u32
    ensures { result ≡ door_read state.now (λ d. width_of d.active) }
{
    if state.len() != STATE_LEN {
        return 0;
    }
    bare(state).output_width() as u32
}

pub fn spoonwing_display_output_height(state: &[u8]) -> u32
    ensures { result ≡ door_read state.now (λ d. height_of d.active) }
{
    if state.len() != STATE_LEN {
        return 0;
    }
    bare(state).output_height() as u32
}
