// Runs of pixels: one blended over another, or over a row of one colour. Each is one function with one
// contract, so that its inside can be made faster and nothing above it is proved again. Nothing here knows
// of layers or frames.
#![tactic(auto)]

ghost use Rattle.std.specs.Prelude.{◌≡◌, true, false, ◌*◌, ◌%◌, length};
ghost use Rattle.lists.specs.Tab.{tab, each};
ghost use Rattle.mix.specs.Pixel.{pixel_len};
ghost use Rattle.colours.specs.Rows.{colour_row, solid_byte};
ghost use Rattle.span.specs.Span.{over_byte};
ghost use Rattle.span.specs.Engine.Laid.{Opaque};
ghost use Rattle.span.specs.Engine.Tints.{Grounded};

mod blocks;
mod grounds;
mod hides;
mod palettes;
mod runs;
mod tints;

use colours::{fill, fill_rest, palette};
use mix::{Ground, OPAQUE};
use sixteen::sizes::BLOCK_LEN;

// Blends the run `over` over `out`, each pixel at its own alpha.
pub fn blend(out: &mut [u8], over: &[u8])
    requires { (length out.old ≡ length over.now) × (length out.old % pixel_len ≡ 0) }
    ensures { out.new ≡ each (over_byte over.now false 0) out.old }
{
    let i = runs::own_blocks(out, over);
    runs::own_rest(out, over, i);
}

// Blends the run `over` over `out`, all pixels at one alpha: nothing is done at 0, and at 255 no
// byte of a block is blended.
pub fn blend_flat(out: &mut [u8], over: &[u8], alpha: u8)
    requires { (length out.old ≡ length over.now) × (length out.old % pixel_len ≡ 0) }
    ensures { out.new ≡ each (over_byte over.now true alpha) out.old }
{
    if alpha == 0 {
        return;
    }
    if alpha == OPAQUE {
        let i = runs::copy_blocks(out, over);
        runs::flat_rest(out, over, i, OPAQUE);
        return;
    }
    let i = runs::flat_blocks(out, over, alpha);
    runs::flat_rest(out, over, i, alpha);
}

// Blends the run `over` over a row of one opaque colour, each pixel at its own alpha. What `out` held
// does not count, so that such a row is not written twice.
pub fn lay(out: &mut [u8], over: &[u8], ground: Ground)
    requires { (length out.old ≡ length over.now) × (length out.old % pixel_len ≡ 0) }
    ensures { out.new ≡ each (over_byte over.now false 0)
        (tab (length out.old) (solid_byte ground.c0 ground.c1 ground.c2)) }
{
    let i = grounds::lay_blocks(out, over, ground);
    fill_rest(out, i, ground);
    runs::own_rest(out, over, i);
}

// The same with all pixels at one alpha: at 0 and at 255 no byte of a block is blended.
pub fn lay_flat(out: &mut [u8], over: &[u8], alpha: u8, ground: Ground)
    requires { (length out.old ≡ length over.now) × (length out.old % pixel_len ≡ 0) }
    ensures { out.new ≡ each (over_byte over.now true alpha)
        (tab (length out.old) (solid_byte ground.c0 ground.c1 ground.c2)) }
{
    if alpha % OPAQUE == 0 {
        fill(out, ground);
        blend_flat(out, over, alpha);
        return;
    }
    let i = grounds::lay_flat_blocks(out, over, alpha, ground);
    fill_rest(out, i, ground);
    runs::flat_rest(out, over, i, alpha);
}

// Whether the run is opaque all along. It is then laid over a row of one opaque colour; where it is not, `out` holds
// anything. The first pixel and the last are looked at before, which saves the pass where a run is not opaque at an end.
pub fn lay_if_opaque(out: &mut [u8], over: &[u8], ground: Ground) -> bool
    requires { (length out.old ≡ length over.now) × (length out.old % pixel_len ≡ 0) }
    ensures { result ≡ true → Opaque over.now × (out.new
        ≡ each (over_byte over.now false 0) (tab (length out.old) (solid_byte ground.c0 ground.c1 ground.c2))) }
{
    if !hides::is_opaque_at_ends(over) {
        return false;
    }
    let i = hides::lay_front(out, over, ground);
    if !hides::is_opaque_from(over, i) {
        return false;
    }
    fill_rest(out, i, ground);
    runs::own_rest(out, over, i);
    true
}

// Either: all pixels at one alpha, or each at its own. Two arguments say which, as in `over_byte` and in a layer's words,
// where the alpha is there too while it does not count.
pub fn lay_either(out: &mut [u8], over: &[u8], global: bool, alpha: u8, ground: Ground)
    requires { (length out.old ≡ length over.now) × (length out.old % pixel_len ≡ 0) }
    ensures { out.new ≡ each (over_byte over.now global alpha)
        (tab (length out.old) (solid_byte ground.c0 ground.c1 ground.c2)) }
{
    lay_channels(out, over, global, alpha, ground.c0, ground.c1, ground.c2);
}

// The same over a colour by its channels, and never a part of its caller: a `Ground` goes by its address, and of bytes that
// are read there LLVM makes no vector, so that a block of one colour took sixteen stores in place of four.
#[inline(never)]
fn lay_channels(out: &mut [u8], over: &[u8], global: bool, alpha: u8, c0: u8, c1: u8, c2: u8)
    requires { (length out.old ≡ length over.now) × (length out.old % pixel_len ≡ 0) }
    ensures { out.new ≡ each (over_byte over.now global alpha)
        (tab (length out.old) (solid_byte c0 c1 c2)) }
{
    let ground = Ground { c0, c1, c2 };
    if global {
        lay_flat(out, over, alpha, ground);
        return;
    }
    lay(out, over, ground);
}

// Blends a line of colour indexes over `out`, each through the palette, at its colour's alpha or all at one.
pub fn tint(out: &mut [u8], line: &[u8], palette: [u32; 16], global: bool, alpha: u8)
    requires { length out.old ≡ pixel_len * length line.now }
    ensures { out.new ≡ each (over_byte (colour_row line.now palette) global alpha) out.old }
{
    let shown = palettes::shown(palette, global, alpha);
    let j = tints::tint_line(out, line, &shown);
    tints::tint_rest(out, line, &shown, j);
}

// The palette whose colours are these over one opaque colour: a line of indexes through it is that line blended over a row
// of that colour.
pub fn grounded(colours: [u32; 16], global: bool, alpha: u8, ground: Ground) -> [u32; 16]
    ensures { Grounded colours global alpha ground.c0 ground.c1 ground.c2 result }
{
    let own = palettes::bytes_of(colours);
    let mut laid = [0u8; BLOCK_LEN];
    lay_either(&mut laid, &own, global, alpha, ground);
    palette(&laid)
}
