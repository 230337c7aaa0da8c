// What runs of puts and of writes do below the display: to the selected table and the error word, and to the
// pending words. The bytes that fit are copied at once.
#![tactic(auto)]

ghost use Rattle.std.specs.Prelude.{◌≡◌, ◌+◌, ◌-◌, ◌*◌, ◌^◌, ◌≤◌, ◌<◌, length};
ghost use Rattle.std.specs.Int.Bits.{bit_or};
ghost use Rattle.answers.specs.Refusals.{answer_of};
ghost use Rattle.tables.specs.Geometry.{tables_len};
ghost use Rattle.tables.specs.Selection.{controller_of, end_of, first_byte_of};
ghost use Rattle.loads.specs.Loads.{refusal_of, fits_of, stored, loaded, load_of, load_tables, writes_of, went_of};

use answers::{DONE, Refusal};
use numbers::word;
use tables::{Selection, controller_of, end_of, first_byte_of, is_named, tables_len};

pub const REGISTERS: u32 = 52;

const WORDS: usize = REGISTERS as usize;

// The bytes of a write in a run: its register, and its value, the lowest byte first.
const WRITE_LEN: usize = 5;

// What a run of puts leaves, 0 or the number of the refusal that stopped it, and how many were done. Here and in `Went`
// the answer is a number, as `loaded` and `went_of` have it and a display's calls hand it on.
#[derive(Clone, Copy)]
pub struct Loaded {
    pub place: u32,
    pub errors: u32,
    pub answer: u8,
    pub done: usize,
}

// What a run of writes answers: 0 or the number of the refusal, and how many were done.
#[derive(Clone, Copy)]
pub struct Went {
    pub answer: u8,
    pub done: usize,
}

// Whether a put is refused whatever its place.
#[tactic(auto, unfolding(crate::specs::Loads::refusal_of))]
fn refusal_of(
    bits: usize,
    active: &[u32; 52],
    selection: Selection,
    long: usize,
) -> Result<(), Refusal>
    requires { bits ≤ 2 }
    ensures { answer_of result ≡ refusal_of bits active.now selection.made selection.number long }
{
    let whole = tables_len(bits);
    if long != whole {
        return Err(Refusal::TablesLength);
    }
    if !selection.made {
        return Err(Refusal::NotSelected);
    }
    if is_named(active, selection.number) {
        return Err(Refusal::BankActive);
    }
    Ok(())
}

// The error word with the bit of a full table set.
fn with_full(errors: u32, number: u32) -> u32
    ensures { result ≡ bit_or errors (2 ^ (4 * controller_of number + 1)) }
{
    errors | (1 << (4 * controller_of(number) + 1))
}

// How many of n bytes fit from the place on: up to the selected table's end.
fn fitting(bits: usize, selection: Selection, n: usize) -> usize
    requires { bits ≤ 2 }
    ensures { (result ≡ fits_of bits selection.place selection.number n) × (selection.place + result < 2 ^ 32) }
{
    let end = end_of(bits, selection.number);
    n.min(end.saturating_sub(selection.place) as usize)
}

// Bytes that fit, from the place of the selected table on.
fn store(bits: usize, tables: &mut [u8], selection: Selection, part: &[u8])
    requires { (bits ≤ 2) × (length tables.old ≡ tables_len bits)
        × (length part.now ≤ end_of bits selection.number - selection.place) }
    ensures { tables.new ≡ stored tables.old (first_byte_of bits selection.number + selection.place) part.now }
{
    if part.is_empty() {
        return;
    }
    let at = first_byte_of(bits, selection.number) + (selection.place as usize);
    let end = at + part.len();
    octets::copy(part, &mut tables[at..end]);
}

// A run of which nothing was done.
fn nothing(place: u32, errors: u32, answer: u8) -> Loaded
    ensures { result ≡ loaded place errors answer 0 }
{
    Loaded {
        place,
        errors,
        answer,
        done: 0,
    }
}

// Puts each byte of a run, in order, up to the first that is refused. A glyph's pixel has so many bits.
pub fn put_run(
    bits: usize,
    active: &[u32; 52],
    errors: u32,
    selection: Selection,
    tables: &mut [u8],
    run: &[u8],
) -> Loaded
    requires { bits ≤ 2 }
    ensures loaded { result ≡ load_of bits active.now errors selection (length tables.old)
        (length run.now) }
    ensures tables { tables.new
        ≡ load_tables bits active.now selection tables.old run.now }
{
    let place = selection.place;
    if run.is_empty() {
        return nothing(place, errors, DONE);
    }
    if let Err(refusal) = refusal_of(bits, active, selection, tables.len()) {
        return nothing(place, errors, refusal.number());
    }
    let fits = fitting(bits, selection, run.len());
    store(bits, tables, selection, &run[..fits]);
    let next = place + (fits as u32);
    if fits == run.len() {
        return Loaded {
            place: next,
            errors,
            answer: DONE,
            done: fits,
        };
    }
    Loaded {
        place: next,
        errors: with_full(errors, selection.number),
        answer: Refusal::BankFull.number(),
        done: fits,
    }
}

// Makes each register write of a run, in order, up to the first that is refused; fewer than five bytes
// left at the end are not looked at.
pub fn write_run(pending: &mut [u32; 52], run: &[u8]) -> Went
    ensures went { result ≡ went_of (writes_of pending.old run.now) }
    ensures pending { pending.new ≡ (writes_of pending.old run.now).left }
{
    let items = run.len() / WRITE_LEN;
    for i in 0..items {
        let at = WRITE_LEN * i;
        let register = usize::from(run[at]);
        if WORDS <= register {
            return Went {
                answer: Refusal::NoRegister.number(),
                done: i,
            };
        }
        pending[register] = word(run, at + 1) as u32;
    }
    Went {
        answer: DONE,
        done: items,
    }
}
