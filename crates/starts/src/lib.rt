// What is wrong with 52 words: 01 "Answers by number", 7 to 11, in the order of a start.
#![tactic(auto, using(crate::proofs::Exits::passing))]

ghost use Rattle.std.specs.Prelude.{◌≡◌, ◌<◌};
ghost use Rattle.lists.specs.Runs.{first_of};
ghost use Rattle.answers.specs.Refusals.{answer_of};
ghost use Rattle.words.specs.Check.{reserved_at, kind_of, kind_at, screen_of, place_of, place_at};
ghost use Rattle.words.specs.Check.{clash_of, clash_at, clash_below, check_of};

use answers::Refusal;
use words::fields::{Layer, layer_of, screen_height, screen_width};

// The reserved bits of each register: those of which no field is made.
pub const RESERVED: [u32; 52] = [
    0xffff_fffa,
    0xf000_f000,
    0xff00_0000,
    0x0000_0000,
    0xffff_f8f8,
    0x7fff_ff00,
    0xf000_f000,
    0xf000_f000,
    0x0000_0000,
    0xff00_0000,
    0xffff_f8f8,
    0x7fff_ff00,
    0xf000_f000,
    0xf000_f000,
    0x0000_0000,
    0xff00_0000,
    0xffff_f8f8,
    0x7fff_ff00,
    0xf000_f000,
    0xf000_f000,
    0x0000_0000,
    0xff00_0000,
    0xffff_f8f8,
    0x7fff_ff00,
    0xf000_f000,
    0xf000_f000,
    0x0000_0000,
    0xff00_0000,
    0xffff_f8f8,
    0x7fff_ff00,
    0xf000_f000,
    0xf000_f000,
    0x0000_0000,
    0xff00_0000,
    0xffff_f8f8,
    0x7fff_ff00,
    0xf000_f000,
    0xf000_f000,
    0x0000_0000,
    0xff00_0000,
    0xffff_f8f8,
    0x7fff_ff00,
    0xf000_f000,
    0xf000_f000,
    0x0000_0000,
    0xff00_0000,
    0xffff_f8f8,
    0x7fff_ff00,
    0xf000_f000,
    0xf000_f000,
    0x0000_0000,
    0xff00_0000,
];

// Whether word i has no reserved bit set.
#[tactic(auto, using(crate::proofs::Exits::passing), unfolding(words::specs::Check::reserved_at))]
fn reserved(w: &[u32; 52], i: usize) -> Result<(), Refusal>
    requires { i < 52 }
    ensures { answer_of result ≡ reserved_at w.now i }
{
    if w[i] & RESERVED[i] == 0 {
        return Ok(());
    }
    Err(Refusal::ReservedBit)
}

fn first_reserved(w: &[u32; 52]) -> Result<(), Refusal>
    ensures { answer_of result ≡ first_of 52 (reserved_at w.now) }
{
    for i in 0..52 {
        reserved(w, i)?;
    }
    Ok(())
}

// What the masks cannot say: a layer is not both a graphics and a float layer, and the latter only where `floats`.
#[tactic(auto, using(crate::proofs::Exits::passing), unfolding(words::specs::Check::kind_of))]
fn kind_of(floats: bool, l: Layer) -> Result<(), Refusal>
    ensures { answer_of result ≡ kind_of floats l }
{
    if !l.floats {
        return Ok(());
    }
    if l.graphics {
        return Err(Refusal::ReservedBit);
    }
    if floats {
        return Ok(());
    }
    Err(Refusal::ReservedBit)
}

#[tactic(auto, using(crate::proofs::Exits::passing), unfolding(words::specs::Check::kind_at))]
fn kind(floats: bool, w: &[u32; 52], n: usize) -> Result<(), Refusal>
    requires { n < 8 }
    ensures { answer_of result ≡ kind_at floats w.now n }
{
    kind_of(floats, layer_of(w, n))
}

fn first_kind(floats: bool, w: &[u32; 52]) -> Result<(), Refusal>
    ensures { answer_of result ≡ first_of 8 (kind_at floats w.now) }
{
    for n in 0..8 {
        kind(floats, w, n)?;
    }
    Ok(())
}

// Whether the output has a size.
#[tactic(auto, using(crate::proofs::Exits::passing), unfolding(words::specs::Check::screen_of))]
pub fn screen(w: &[u32; 52]) -> Result<(), Refusal>
    ensures { answer_of result ≡ screen_of w.now }
{
    if screen_width(w) == 0 {
        return Err(Refusal::EmptyScreen);
    }
    if screen_height(w) == 0 {
        return Err(Refusal::EmptyScreen);
    }
    Ok(())
}

// What is wrong with a layer by itself, on a screen of that size.
#[tactic(auto, using(crate::proofs::Exits::passing), unfolding(words::specs::Check::place_of))]
fn place_of(width: u16, height: u16, l: Layer) -> Result<(), Refusal>
    ensures { answer_of result ≡ place_of width height l }
{
    if !l.on {
        return Ok(());
    }
    if l.width == 0 {
        return Err(Refusal::EmptyLayer);
    }
    if l.height == 0 {
        return Err(Refusal::EmptyLayer);
    }
    if (width as u32) < (l.x as u32) + (l.width as u32) {
        return Err(Refusal::OffScreen);
    }
    if (height as u32) < (l.y as u32) + (l.height as u32) {
        return Err(Refusal::OffScreen);
    }
    Ok(())
}

#[tactic(auto, using(crate::proofs::Exits::passing), unfolding(words::specs::Check::place_at))]
fn place(w: &[u32; 52], n: usize) -> Result<(), Refusal>
    requires { n < 8 }
    ensures { answer_of result ≡ place_at w.now n }
{
    place_of(screen_width(w), screen_height(w), layer_of(w, n))
}

fn first_place(w: &[u32; 52]) -> Result<(), Refusal>
    ensures { answer_of result ≡ first_of 8 (place_at w.now) }
{
    for n in 0..8 {
        place(w, n)?;
    }
    Ok(())
}

// Whether both layers are enabled and of one depth.
#[tactic(auto, using(crate::proofs::Exits::passing), unfolding(words::specs::Check::clash_of))]
fn clash_of(l: Layer, m: Layer) -> Result<(), Refusal>
    ensures { answer_of result ≡ clash_of l m }
{
    if !l.on {
        return Ok(());
    }
    if !m.on {
        return Ok(());
    }
    if l.depth == m.depth {
        return Err(Refusal::SameDepth);
    }
    Ok(())
}

#[tactic(auto, using(crate::proofs::Exits::passing), unfolding(words::specs::Check::clash_at))]
fn clash(w: &[u32; 52], n: usize, m: usize) -> Result<(), Refusal>
    requires { (n < 8) × (m < 8) }
    ensures { answer_of result ≡ clash_at w.now n m }
{
    clash_of(layer_of(w, n), layer_of(w, m))
}

// Layer n beside each of lower number.
#[tactic(auto, using(crate::proofs::Exits::passing), unfolding(words::specs::Check::clash_below))]
pub fn clash_below(w: &[u32; 52], n: usize) -> Result<(), Refusal>
    requires { n < 8 }
    ensures { answer_of result ≡ clash_below w.now n }
{
    for m in 0..n {
        clash(w, n, m)?;
    }
    Ok(())
}

fn first_clash(w: &[u32; 52]) -> Result<(), Refusal>
    ensures { answer_of result ≡ first_of 8 (clash_below w.now) }
{
    for n in 0..8 {
        clash_below(w, n)?;
    }
    Ok(())
}

// The first refusal that the words earn, where float layers are let in or not.
#[tactic(auto, using(crate::proofs::Exits::passing), unfolding(words::specs::Check::check_of))]
pub fn refusal_of(floats: bool, w: &[u32; 52]) -> Result<(), Refusal>
    ensures { answer_of result ≡ check_of floats w.now }
{
    first_reserved(w)?;
    first_kind(floats, w)?;
    screen(w)?;
    first_place(w)?;
    first_clash(w)
}
