// A run that may hide the row under it: its opaque blocks are tested and laid in one pass, and it is given up where
// a pixel is not opaque.
ghost use Rattle.std.specs.Prelude.{◌≡◌, true, false, ◌-◌, ◌/◌, ◌%◌, ◌≤◌, length};
ghost use Rattle.mix.specs.Pixel.{pixel_len};
ghost use Rattle.sixteen.specs.Engine.Lanes.{Front, AllAlpha, anew};
ghost use Rattle.colours.specs.Rows.{solid_byte};
ghost use Rattle.span.specs.Engine.Laid.{lay_byte};

use super::grounds::is_opaque_at;
use colours::solid_pixel;
use mix::{ALPHA_PLACE, Ground, OPAQUE, PIXEL_LEN};
use sixteen::lanes::store;
use sixteen::pixels::{halves, joined, pixels, repeated};
use sixteen::sizes::BLOCK_LEN;

// Whether there are pixels, and the first and the last are opaque. Most runs that are not opaque are turned away by these
// two. The first one is near what was read last, where pictures are as wide as the screen; the last one need not be.
pub fn is_opaque_at_ends(over: &[u8]) -> bool {
    if over.len() < PIXEL_LEN {
        return false;
    }
    if over[ALPHA_PLACE] != OPAQUE {
        return false;
    }
    over[over.len() - PIXEL_LEN + ALPHA_PLACE] == OPAQUE
}

// The blocks up to one that is not opaque, over a row of one colour, answering where they end.
pub fn lay_front(out: &mut [u8], over: &[u8], ground: Ground) -> usize
    requires { length out.old ≡ length over.now }
    ensures { Front out.new out.old
        (anew (lay_byte over.now false 0 (solid_byte ground.c0 ground.c1 ground.c2))) result
        × AllAlpha over.now 0 (result / pixel_len) 255 }
{
    let c = solid_pixel(ground);
    let q = repeated(c);
    let mut i = 0;
    while is_opaque_at(over, i) {
        let p = pixels(over, i);
        let w = joined(p, q);
        let h = halves(w);
        store(out, i, h);
        i = i + BLOCK_LEN;
    }
    i
}

// Whether every pixel from `from` on is opaque.
pub fn is_opaque_from(over: &[u8], from: usize) -> bool
    requires { (length over.now % pixel_len ≡ 0) × (from ≤ length over.now) × (from % pixel_len ≡ 0) }
    ensures { result ≡ true → AllAlpha over.now from ((length over.now - from) / pixel_len) 255 }
{
    for k in from / PIXEL_LEN..over.len() / PIXEL_LEN {
        if over[PIXEL_LEN * k + ALPHA_PLACE] != OPAQUE {
            return false;
        }
    }
    true
}
