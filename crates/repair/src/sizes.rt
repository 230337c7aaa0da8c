// Steps 2 and 3: layers switched off for their size.
ghost use Rattle.std.specs.Prelude.{◌≡◌, ◌<◌};
ghost use Rattle.repair.specs.Steps.{is_empty, empty_off, empties_off, is_large, large_off, larges_off};

use crate::layers::each_layer;
use words::change::with_off;
use words::fields::{Layer, layer_of, screen_height, screen_width};

// Whether a layer is enabled and of zero size.
#[tactic(auto, using(crate::proofs::Hints::turns), unfolding(crate::specs::Steps::is_empty))]
fn is_empty(l: Layer) -> bool
    ensures { result ≡ is_empty l }
{
    if l.on {
        if l.width == 0 {
            return true;
        }
        return l.height == 0;
    }
    false
}

#[tactic(auto, using(crate::proofs::Hints::turns), unfolding(crate::specs::Steps::empty_off))]
fn empty_off(w: [u32; 52], n: usize) -> [u32; 52]
    requires { n < 8 }
    ensures { result ≡ empty_off n w }
{
    if is_empty(layer_of(&w, n)) {
        return with_off(w, n);
    }
    w
}

// Step 2.
#[tactic(auto, using(crate::proofs::Hints::turns), unfolding(crate::specs::Steps::empties_off))]
pub fn empties_off(w: [u32; 52]) -> [u32; 52]
    ensures { result ≡ empties_off w }
{
    each_layer(w, empty_off)
}

// Whether a layer is an enabled frame layer that is larger than the screen either way.
#[tactic(auto, using(crate::proofs::Hints::turns), unfolding(crate::specs::Steps::is_large))]
fn is_large(width: u16, height: u16, l: Layer) -> bool
    ensures { result ≡ is_large width height l }
{
    if l.on {
        if l.graphics {
            return false;
        }
        if width < l.width {
            return true;
        }
        return height < l.height;
    }
    false
}

#[tactic(auto, using(crate::proofs::Hints::turns), unfolding(crate::specs::Steps::large_off))]
fn large_off(w: [u32; 52], n: usize) -> [u32; 52]
    requires { n < 8 }
    ensures { result ≡ large_off n w }
{
    if is_large(screen_width(&w), screen_height(&w), layer_of(&w, n)) {
        return with_off(w, n);
    }
    w
}

// Step 3.
#[tactic(auto, using(crate::proofs::Hints::turns), unfolding(crate::specs::Steps::larges_off))]
pub fn larges_off(w: [u32; 52]) -> [u32; 52]
    ensures { result ≡ larges_off w }
{
    each_layer(w, large_off)
}
