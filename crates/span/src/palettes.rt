// Palettes that are worked out once for many lines: one whose colours have the alphas that they are laid at, and one of
// colours that lie over a row of one colour already.
ghost use Rattle.sixteen.specs.Engine.Lanes.{Lanes};
ghost use Rattle.colours.specs.Rows.{PaletteOf};
ghost use Rattle.span.specs.Engine.Tints.{AlphaIs, Shown};

use sixteen::digits::pixel_at;
use sixteen::lanes::store;
use sixteen::pixels::halves;
use sixteen::sizes::{BLOCK_LEN, BLOCK_PIXELS};

// The colours of a palette, all at one alpha.
fn at_alpha(palette: [u32; 16], alpha: u8) -> [u32; 16]
    ensures { Lanes result 16 (AlphaIs palette alpha) }
{
    let mut w = [0u32; 16];
    for k in 0..BLOCK_PIXELS {
        w[k] = pixel_at(palette[k], alpha);
    }
    w
}

// The colours of a palette at the alphas that they are laid at.
pub fn shown(palette: [u32; 16], global: bool, alpha: u8) -> [u32; 16]
    ensures { Shown palette global alpha result }
{
    if global {
        return at_alpha(palette, alpha);
    }
    palette
}

// The colours of a palette as bytes.
pub fn bytes_of(palette: [u32; 16]) -> [u8; BLOCK_LEN]
    ensures { PaletteOf palette result }
{
    let mut bytes = [0u8; BLOCK_LEN];
    let h = halves(palette);
    store(&mut bytes, 0, h);
    bytes
}
