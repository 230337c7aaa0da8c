// A line of a sheet in, a line out: read whole, then done, then printed. Its reply is made as bytes,
// and the frame is painted where it stands in them, so that one place prints.
#![tactic(auto)]

ghost use Rattle.std.specs.Prelude.{◌≡◌, [], ◌∷◌, ◌≤◌, length, take};
ghost use Rattle.lists.specs.Over.{over};
ghost use Rattle.answers.specs.Answers.{done};
ghost use Rattle.words.specs.Fields.{width_of, height_of};
ghost use Rattle.display.specs.Reached.{Arranged};
ghost use Rattle.line.specs.Sizes.{most_lent, most_reply, most_printed};
ghost use Rattle.line.specs.Line.{started_of, zeros, lent_for, head_of, framed_of, painted_of, reply_of, done_of};
ghost use Rattle.line.specs.Line.{outcome_of, line_of, printed_of};
ghost use Rattle.line.specs.Engine.Replies.{Leaves};

use crate::sizes::{HEAD_LEN, MOST_BYTES, MOST_LENT, MOST_REPLY};
use answers::DONE;
use display::{Display, Told};
use mix::PIXEL_LEN;
use numbers::filled;
use steps::form;
use texts::{BAD_FORM, print_line};

mod sizes;

pub use sizes::{MOST_DIGITS, MOST_PRINTED};

// The state afterwards, and how many bytes the reply has. Not a `Printed`, whose count is of digits, two for each byte.
#[derive(Clone, Copy)]
pub struct Replied {
    pub state: Display,
    pub count: usize,
}

// The state afterwards, and how many bytes were printed.
#[derive(Clone, Copy)]
pub struct Printed {
    pub state: Display,
    pub count: usize,
}

// The start, whatever was refused before it; the first refusal stays.
fn start(t: Told) -> Told
    ensures { result ≡ started_of t }
{
    let started = t.state.start();
    if t.answer != DONE {
        return Told {
            state: started.state,
            answer: t.answer,
        };
    }
    started
}

// How many bytes the frame is lent.
fn lent_len(d: Display) -> usize
    ensures { (result ≡ lent_for (width_of d.active) (height_of d.active)) × (result ≤ most_lent) }
{
    let w = d.output_width() as usize;
    let h = d.output_height() as usize;
    (PIXEL_LEN * (w * h)).min(MOST_LENT)
}

// A reply of one byte.
fn refuse(state: Display, answer: u8, reply: &mut [u8]) -> Replied
    requires { length reply.old ≡ most_reply }
    ensures { (result.state ≡ state) × (result.count ≡ 1) × (take 1 reply.new ≡ answer ∷ []) }
{
    reply[0] = answer;
    Replied { state, count: 1 }
}

// The head of a reply that nothing has refused.
fn head(state: Display, reply: &mut [u8])
    requires { length reply.old ≡ most_reply }
    ensures { reply.new ≡ over (done ∷ head_of state) reply.old }
{
    let e = state.error_word().to_be_bytes();
    let w = state.output_width().to_be_bytes();
    let h = state.output_height().to_be_bytes();
    let front = [DONE, e[0], e[1], e[2], e[3], w[0], w[1], h[0], h[1]];
    octets::copy(&front, reply);
}

// The frame, where nothing was refused, and the reply.
fn frame(t: Told, tables: &[u8], pictures: &[u8], reply: &mut [u8]) -> Replied
    requires { Arranged t.state × (reply.old ≡ zeros most_reply) }
    ensures { (result.state ≡ (framed_of t tables.now pictures.now).state)
        × (take result.count reply.new ≡ reply_of (framed_of t tables.now pictures.now)
        (painted_of t tables.now pictures.now)) × (result.count ≤ most_reply) }
{
    if t.answer != DONE {
        return refuse(t.state, t.answer, reply);
    }
    let n = lent_len(t.state);
    let f = t
        .state
        .frame(tables, pictures, &[], &mut reply[HEAD_LEN..HEAD_LEN + n]);
    if f.answer != DONE {
        return refuse(f.state, f.answer, reply);
    }
    head(f.state, reply);
    Replied {
        state: f.state,
        count: HEAD_LEN + n,
    }
}

// A line's bytes. The form is looked at before anything is done.
fn work(state: Display, tables: &mut [u8], b: &[u8], reply: &mut [u8]) -> Replied
    requires { Arranged state × (reply.old ≡ zeros most_reply) }
    ensures { Leaves (done_of state tables.old b.now) result tables.new
        reply.new }
{
    let Ok(parts) = form::parts_of(b) else {
        return refuse(state, BAD_FORM, reply);
    };
    let t = steps::run(state, tables, b, parts.writes);
    let s = start(t);
    frame(s, tables, &b[parts.picture + 2..], reply)
}

// A line's text.
fn answer(state: Display, tables: &mut [u8], text: &[u8], reply: &mut [u8]) -> Replied
    requires { Arranged state × (reply.old ≡ zeros most_reply) }
    ensures { Leaves (outcome_of state tables.old text.now) result tables.new
        reply.new }
{
    if MOST_DIGITS < text.len() {
        return refuse(state, BAD_FORM, reply);
    }
    let mut b: [u8; MOST_BYTES] = filled(0);
    let Some(n) = hexadecimal::read_bytes(text, &mut b) else {
        return refuse(state, BAD_FORM, reply);
    };
    work(state, tables, &b[..n], reply)
}

// `lines::run_line` on slices.
pub fn run_in(state: Display, tables: &mut [u8], text: &[u8], out: &mut [u8]) -> Printed
    requires { Arranged state × (most_printed ≤ length out.old) }
    ensures value { result ≡ printed_of (line_of state tables.old text.now) }
    ensures tables_after { tables.new ≡ (line_of state tables.old text.now).tables }
    ensures out_after { out.new
        ≡ over (line_of state tables.old text.now).printed out.old }
    ensures count_le_most_printed { result.count ≤ most_printed }
{
    let mut reply: [u8; MOST_REPLY] = filled(0);
    let r = answer(state, tables, text, &mut reply);
    let count = print_line(&reply[..r.count], out);
    Printed {
        state: r.state,
        count,
    }
}
