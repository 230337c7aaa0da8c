// What a line of a sheet asks of the display: its form, and its steps before the start, one after
// the other; the bytes of a load by one run. A step after a refusal changes nothing, so no loop is left early.
#![tactic(auto)]

ghost use Rattle.std.specs.Prelude.{◌≡◌, ℕ, ◌+◌, ◌*◌, ◌<◌, ◌≤◌, length, List};
ghost use Rattle.answers.specs.Answers.{done};
ghost use Rattle.display.specs.State.{told};
ghost use Rattle.steps.specs.Form.{count_at, loads_of, writes_place};
ghost use Rattle.steps.specs.Steps.{Act, midway, step_of, run_of, puts_at, load_at, loads_at, writes_at, steps_of};

use answers::DONE;
use display::{Display, Told};

pub mod form;

// A step that leaves the tables alone says so of all tables. Each tests for a refusal itself: handed on as a closure, a state
// of some 600 bytes was copied once more for each step.
fn select(t: Told, selection: u32) -> Told
    ensures { (l : List ℕ) → midway result l ≡ step_of (midway t l) (Act.select selection) }
{
    if t.answer != DONE {
        return t;
    }
    t.state.select(selection)
}

fn write(t: Told, register: u32, value: u32) -> Told
    ensures { (l : List ℕ) → midway result l ≡ step_of (midway t l) (Act.write register value) }
{
    if t.answer != DONE {
        return t;
    }
    t.state.write(register, value)
}

// The n bytes from a place on, each put: one run.
fn puts(first: Told, tables: &mut [u8], b: &[u8], from: usize, n: usize) -> Told
    requires { from + n ≤ length b.now }
    ensures { midway result tables.new
        ≡ run_of (midway first tables.old) (puts_at n b.now from) }
{
    if first.answer != DONE {
        return first;
    }
    let ran = first.state.put_run(tables, &b[from..from + n]);
    Told {
        state: ran.state,
        answer: ran.answer,
    }
}

// One load: its selection, and its bytes put.
fn load(first: Told, tables: &mut [u8], b: &[u8], at: usize) -> Told
    requires { (at < 100000000000) × (at + 3 + count_at b.now (at + 1) ≤ length b.now) }
    ensures { midway result tables.new
        ≡ run_of (midway first tables.old) (load_at b.now at) }
{
    let t = select(first, form::byte_at(b, at) as u32);
    let n = form::count_at(b, at + 1);
    puts(t, tables, b, at + 3, n)
}

fn loads(first: Told, tables: &mut [u8], b: &[u8]) -> Told
    requires { writes_place b.now ≤ length b.now }
    ensures { midway result tables.new
        ≡ run_of (midway first tables.old) (loads_at (loads_of b.now) b.now 1) }
{
    let mut t = first;
    let mut at: usize = 1;
    for _ in 0..form::byte_at(b, 0) {
        t = load(t, tables, b, at);
        at = at + 3 + form::count_at(b, at + 1);
    }
    t
}

fn writes(first: Told, b: &[u8], from: usize, n: usize) -> Told
    requires { from + 5 * n < 100000000000 }
    ensures { (l : List ℕ) → midway result l ≡ run_of (midway first l) (writes_at n b.now from) }
{
    let mut t = first;
    for i in 0..n {
        let at = from + 5 * i;
        let register = form::byte_at(b, at) as u32;
        let value = form::word_at(b, at + 1) as u32;
        t = write(t, register, value);
    }
    t
}

// All steps of a line whose number of writes stands at `place`.
pub fn run(state: Display, tables: &mut [u8], b: &[u8], place: usize) -> Told
    requires { (place ≡ writes_place b.now) × (place < 33554432) × (place ≤ length b.now) }
    ensures { midway result tables.new
        ≡ run_of (midway (told state done) tables.old) (steps_of b.now) }
{
    let first = Told {
        state,
        answer: DONE,
    };
    let t = loads(first, tables, b);
    let n = form::byte_at(b, place);
    writes(t, b, place + 1, n)
}
