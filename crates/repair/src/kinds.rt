// The step of 02 K7, after step 1: a layer of graphics is none of floats.
ghost use Rattle.std.specs.Prelude.{◌≡◌, ◌<◌};
ghost use Rattle.repair.specs.Steps.{is_twofold, one_kind_at, one_kind};

use crate::layers::each_layer;
use words::change::with_bytes;
use words::fields::{Layer, layer_of};

// Whether a layer is of graphics and of floats at once. It may be disabled: a start refuses both bits there too.
#[tactic(auto, using(crate::proofs::Hints::turns), unfolding(crate::specs::Steps::is_twofold))]
fn is_twofold(l: Layer) -> bool
    ensures { result ≡ is_twofold l }
{
    if l.graphics {
        return l.floats;
    }
    false
}

#[tactic(auto, using(crate::proofs::Hints::turns), unfolding(crate::specs::Steps::one_kind_at))]
fn one_kind_at(w: [u32; 52], n: usize) -> [u32; 52]
    requires { n < 8 }
    ensures { result ≡ one_kind_at n w }
{
    if is_twofold(layer_of(&w, n)) {
        return with_bytes(w, n);
    }
    w
}

#[tactic(auto, using(crate::proofs::Hints::turns), unfolding(crate::specs::Steps::one_kind))]
pub fn one_kind(w: [u32; 52]) -> [u32; 52]
    ensures { result ≡ one_kind w }
{
    each_layer(w, one_kind_at)
}
