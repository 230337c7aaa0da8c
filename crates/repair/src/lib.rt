// Repair of a register image: 02 K4, with the step of K7. Each step is a function of the 52 words; the call
// mends an image in place and lists what was changed.
#![tactic(auto, using(crate::proofs::Hints::turns))]

ghost use Rattle.std.specs.Prelude.{◌≡◌};
ghost use Rattle.lists.specs.Over.{over};
ghost use Rattle.repair.specs.Steps.{placed, mend_of};
ghost use Rattle.repair.specs.Image.{mend_answer, mend_image, mend_list, mend_count};

use crate::changes::list_changes;
use crate::clear::clear;
use crate::depths::spread;
use crate::kinds::one_kind;
use crate::places::fit;
use crate::sizes::{empties_off, larges_off};
use answers::{DONE, Refusal};
use numbers::put_words;
use starts::screen;
use words::image::{IMAGE_LEN, words_at};

mod changes;
mod clear;
mod depths;
mod kinds;
mod layers;
mod places;
mod sizes;

// The first four steps, and K7's: no reserved bit, each layer of one kind, and each enabled one on the screen.
#[tactic(auto, using(crate::proofs::Hints::turns), unfolding(crate::specs::Steps::placed))]
fn place(w: &[u32; 52]) -> [u32; 52]
    ensures { result ≡ placed w.now }
{
    fit(larges_off(empties_off(one_kind(clear(w)))))
}

// The words mended. Words with no screen have no repair: the call refuses them.
#[tactic(auto, using(crate::proofs::Hints::turns), unfolding(crate::specs::Steps::mend_of))]
fn mend(w: &[u32; 52]) -> [u32; 52]
    ensures { result ≡ mend_of w.now }
{
    spread(place(w))
}

// Mends the image in place. Answers 0, or the first of 16, 8; a refusal leaves the image and lists nothing.
// `count` becomes how many words were changed, and of `list` three numbers are written for each: register,
// old value, new value, in register order. Numbers and a count beside the list, as C calls it.
pub fn spoonwing_mend(image: &mut [u8], list: &mut [u32; 156], count: &mut usize) -> u32
    ensures answer { result ≡ mend_answer image.old }
    ensures image { image.new ≡ mend_image image.old }
    ensures list { list.new ≡ over (mend_list image.old) list.old }
    ensures count { count.new ≡ mend_count image.old }
{
    *count = 0;
    if image.len() != IMAGE_LEN {
        return Refusal::ImageLength.number() as u32;
    }
    let old = words_at(image, 0);
    if let Err(refusal) = screen(&old) {
        return refusal.number() as u32;
    }
    let new = mend(&old);
    let changed = list_changes(&old, &new, list);
    *count = changed;
    put_words(image, &new);
    DONE as u32
}
