// Step 5: a depth for each enabled layer.
ghost use Rattle.std.specs.Prelude.{◌≡◌, ◌<◌, MatchOption};
ghost use Rattle.lists.specs.Choice.{pick};
ghost use Rattle.answers.specs.Answers.{done};
ghost use Rattle.words.specs.Check.{clash_below};
ghost use Rattle.repair.specs.Steps.{held_at, taken_at, free_of, spread_at};
ghost use Rattle.repair.specs.Steps as steps;

use crate::layers::each_layer;
use order::is_here;
use starts::clash_below;
use words::change::with_depth;
use words::fields::layer_of;

// Whether an enabled layer is of depth d.
#[tactic(auto, using(crate::proofs::Hints::turns), unfolding(crate::specs::Steps::holds_at, crate::specs::Steps::held_at))]
fn held(w: &[u32; 52], d: usize) -> bool
    ensures { pick result 1 0 ≡ held_at w.now d }
{
    for n in 0..8 {
        if is_here(layer_of(w, n), d) {
            return true;
        }
    }
    false
}

// Whether one was when the step began, or is by now.
#[tactic(auto, using(crate::proofs::Hints::turns), unfolding(crate::specs::Steps::taken_at))]
fn taken<'a>(old: &'a [u32; 52], w: &'a [u32; 52], d: usize) -> bool
    ensures { pick result 1 0 ≡ taken_at old.now w.now d }
{
    held(old, d) || held(w, d)
}

// The smallest depth that is not taken.
#[tactic(auto, using(crate::proofs::Hints::turns), unfolding(crate::specs::Steps::free_of))]
fn free<'a>(old: &'a [u32; 52], w: &'a [u32; 52]) -> Option<usize>
    ensures { MatchOption result (free_of old.now w.now ≡ 8) (λ d. (d ≡ free_of old.now w.now) × (d < 8)) }
{
    for d in 0..8 {
        if !taken(old, w, d) {
            return Some(d);
        }
    }
    None
}

// Layer n's turn. In the words that a spread comes to a depth is free wherever one is needed, so that `None` never
// comes.
#[tactic(auto, using(crate::proofs::Hints::turns), unfolding(crate::specs::Steps::spread_at))]
fn spread_at(old: &[u32; 52], w: [u32; 52], n: usize) -> [u32; 52]
    requires { n < 8 }
    ensures { ((clash_below w n ≡ done → ⊥) → free_of old.now w < 8) → result ≡ spread_at old.now n w }
{
    if clash_below(&w, n).is_ok() {
        return w;
    }
    match free(old, &w) {
        Some(d) => with_depth(w, n, d as u32),
        None => w,
    }
}

#[tactic(auto, using(crate::proofs::Hints::turns), unfolding(crate::specs::Steps::spread))]
pub fn spread(w: [u32; 52]) -> [u32; 52]
    ensures { result ≡ steps.spread w }
{
    each_layer(
        w,
        |v, n|
            requires { n < 8 }
            ensures { ((clash_below v n ≡ done → ⊥) → free_of w v < 8) → result ≡ spread_at w n v }
        { spread_at(&w, v, n) },
    )
}
