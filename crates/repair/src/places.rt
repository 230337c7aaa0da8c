// Step 4: each enabled layer on the screen.
ghost use Rattle.std.specs.Prelude.{◌≡◌, ◌<◌};
ghost use Rattle.words.specs.Fields.{width_of, height_of};
ghost use Rattle.repair.specs.Steps.{place_in, size_in, fit_in, fit_at};
ghost use Rattle.repair.specs.Steps as steps;

use crate::layers::each_layer;
use words::change::with_pair;
use words::fields::{Layer, layer_of, screen_height, screen_width};

// Where a layer of that size at x comes to lie along an axis.
#[tactic(auto, using(crate::proofs::Hints::turns), unfolding(crate::specs::Steps::place_in))]
fn place_in(screen: u16, x: u16, size: u16) -> u32
    requires { (x < 4096) × (size < 4096) }
    ensures { (result ≡ place_in screen x size) × (result < 4096) }
{
    if screen < size {
        return 0;
    }
    if (screen as u32) < (x as u32) + (size as u32) {
        return (screen - size) as u32;
    }
    x as u32
}

// Its size there.
#[tactic(auto, using(crate::proofs::Hints::turns), unfolding(crate::specs::Steps::size_in))]
fn size_in(screen: u16, size: u16) -> u32
    requires { size < 4096 }
    ensures { (result ≡ size_in screen size) × (result < 4096) }
{
    if screen < size {
        return screen as u32;
    }
    size as u32
}

// Layer n, which is l, along both axes.
#[tactic(auto, using(crate::proofs::Hints::turns), unfolding(crate::specs::Steps::fit_in))]
fn fit_in(w: [u32; 52], n: usize, l: Layer) -> [u32; 52]
    requires { (n < 8) × (l.x < 4096) × (l.y < 4096) × (l.width < 4096) × (l.height < 4096) }
    ensures { result ≡ fit_in (width_of w) (height_of w) l n w }
{
    let across = screen_width(&w);
    let down = screen_height(&w);
    let x = place_in(across, l.x, l.width);
    let y = place_in(down, l.y, l.height);
    let width = size_in(across, l.width);
    let height = size_in(down, l.height);
    with_pair(7, with_pair(6, w, n, x, y), n, width, height)
}

#[tactic(auto, using(crate::proofs::Hints::turns), unfolding(crate::specs::Steps::fit_at))]
fn fit_at(w: [u32; 52], n: usize) -> [u32; 52]
    requires { n < 8 }
    ensures { result ≡ fit_at n w }
{
    let l = layer_of(&w, n);
    if l.on {
        return fit_in(w, n, l);
    }
    w
}

#[tactic(auto, using(crate::proofs::Hints::turns), unfolding(crate::specs::Steps::fit))]
pub fn fit(w: [u32; 52]) -> [u32; 52]
    ensures { result ≡ steps.fit w }
{
    each_layer(w, fit_at)
}
