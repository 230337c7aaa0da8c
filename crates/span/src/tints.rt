// A line of colour indexes over a run, each through a palette. What is of one colour for long is laid by that colour, so
// that no row of pixels is made first.
ghost use Rattle.std.specs.Prelude.{◌≡◌, true, false, ◌+◌, ◌*◌, ◌/◌, ◌%◌, ◌≤◌, ◌<◌, length};
ghost use Rattle.mix.specs.Pixel.{pixel_len};
ghost use Rattle.sixteen.specs.Engine.Lanes.{Part, Front, Lanes};
ghost use Rattle.colours.specs.Rows.{colour_row};
ghost use Rattle.colours.specs.Engine.Indexes.{Same};
ghost use Rattle.span.specs.Span.{over_byte};
ghost use Rattle.span.specs.Engine.Laid.{Onward};
ghost use Rattle.span.specs.Engine.Tints.{tint_byte, Blocks, AllSame, ColourIs};

use colours::{index_of, is_same};
use mix::{OPAQUE, PIXEL_LEN, blend};
use sixteen::digits::{byte0, byte1, byte2, byte3};
use sixteen::lanes::{mixed, own_alphas, store, words};
use sixteen::pixels::{halves, joined, pixels, repeated};
use sixteen::sizes::{BLOCK_LEN, BLOCK_PIXELS};

// Whether the sixteen indexes from j on are there and all x.
fn is_same_at(line: &[u8], j: usize, x: u8) -> bool
    requires { j ≤ length line.now }
    ensures { result ≡ true → (j + 16 ≤ length line.now) × Same line.now j 16 x }
{
    if line.len() - j < BLOCK_PIXELS {
        return false;
    }
    is_same(line, j, x)
}

// Where the sixteens of indexes from `from` on end that are all x.
fn past_same(line: &[u8], from: usize, x: u8) -> usize
    requires { from ≤ length line.now }
    ensures { AllSame line.now from result x }
{
    let mut j = from;
    while is_same_at(line, j, x) {
        j = j + BLOCK_PIXELS;
    }
    j
}

// An opaque colour over the blocks of a run from `from` up to `to`.
fn put_colour(out: &mut [u8], c: u32, from: usize, to: usize)
    requires { Blocks (length out.old) from to × (c / 16777216 ≡ 255) }
    ensures { Part out.new out.old (tint_byte c false 0) from to }
{
    let p = repeated(c);
    for k in 0..(to - from) / BLOCK_LEN {
        let i = from + BLOCK_LEN * k;
        let q = pixels(out, i);
        let w = joined(p, q);
        let h = halves(w);
        store(out, i, h);
    }
}

// A colour over them at its alpha. Apart from `put_colour`, as `copy_blocks` of `runs` is from `flat_blocks`.
fn mix_colour(out: &mut [u8], c: u32, from: usize, to: usize)
    requires { Blocks (length out.old) from to }
    ensures { Part out.new out.old (tint_byte c false 0) from to }
{
    let p = repeated(c);
    let o = halves(p);
    let a = own_alphas(o);
    for k in 0..(to - from) / BLOCK_LEN {
        let i = from + BLOCK_LEN * k;
        let u = words(out, i);
        let w = mixed(a, o, u);
        store(out, i, w);
    }
}

// Either: nothing is done for a clear one, and no byte is blended for an opaque one.
fn tint_blocks(out: &mut [u8], c: u32, from: usize, to: usize)
    requires { Blocks (length out.old) from to }
    ensures { Part out.new out.old (tint_byte c false 0) from to }
{
    let a = byte3(c);
    if a == 0 {
        return;
    }
    if a == OPAQUE {
        put_colour(out, c, from, to);
        return;
    }
    mix_colour(out, c, from, to);
}

// The colours of the sixteen indexes from j on.
fn colours16(line: &[u8], palette: &[u32; 16], j: usize) -> [u32; 16]
    requires { j + 16 ≤ length line.now }
    ensures { Lanes result 16 (ColourIs line.now palette.now j) }
{
    let mut w = [0u32; 16];
    for k in 0..BLOCK_PIXELS {
        w[k] = palette[index_of(line[j + k])];
    }
    w
}

// The block of the sixteen indexes from j on, whatever they are.
fn tint16(out: &mut [u8], line: &[u8], palette: &[u32; 16], j: usize)
    requires { (length out.old ≡ pixel_len * length line.now) × (j + 16 ≤ length line.now) }
    ensures { Part out.new out.old
        (over_byte (colour_row line.now palette.now) false 0) (pixel_len * j) (pixel_len * (j + 16)) }
{
    let p = colours16(line, palette, j);
    let o = halves(p);
    let u = words(out, PIXEL_LEN * j);
    let a = own_alphas(o);
    let w = mixed(a, o, u);
    store(out, PIXEL_LEN * j, w);
}

// One block or more from index j on, answering at which index they end.
fn tint_turn(out: &mut [u8], line: &[u8], palette: &[u32; 16], j: usize) -> usize
    requires { (length out.old ≡ pixel_len * length line.now) × (j + 16 ≤ length line.now) }
    ensures { Onward out.new out.old
        (over_byte (colour_row line.now palette.now) false 0) (pixel_len * j) (pixel_len * result) }
{
    let x = line[j];
    let end = past_same(line, j, x);
    if end == j {
        tint16(out, line, palette, j);
        return j + BLOCK_PIXELS;
    }
    let c = palette[index_of(x)];
    tint_blocks(out, c, PIXEL_LEN * j, PIXEL_LEN * end);
    end
}

// The blocks of a line of indexes, answering at which index they end. A turn does one or more, so they are not counted.
pub fn tint_line(out: &mut [u8], line: &[u8], palette: &[u32; 16]) -> usize
    requires { length out.old ≡ pixel_len * length line.now }
    ensures { Front out.new out.old
        (over_byte (colour_row line.now palette.now) false 0) (pixel_len * result) }
{
    let mut j = 0;
    while BLOCK_PIXELS <= line.len() - j {
        j = tint_turn(out, line, palette, j);
    }
    j
}

// The colour c over the pixel at i.
fn tint_pixel(out: &mut [u8], c: u32, i: usize)
    requires { (i + pixel_len ≤ length out.old) × (i % pixel_len ≡ 0) }
    ensures { Part out.new out.old (tint_byte c false 0) i (i + pixel_len) }
{
    let a = byte3(c);
    let c0 = blend(a, byte0(c), out[i]);
    let c1 = blend(a, byte1(c), out[i + 1]);
    let c2 = blend(a, byte2(c), out[i + 2]);
    out[i] = c0;
    out[i + 1] = c1;
    out[i + 2] = c2;
}

// The pixels of a line of indexes from `from` on.
pub fn tint_rest(out: &mut [u8], line: &[u8], palette: &[u32; 16], from: usize)
    requires { (length out.old ≡ pixel_len * length line.now) × (pixel_len * from ≤ length out.old) }
    ensures { Part out.new out.old
        (over_byte (colour_row line.now palette.now) false 0) (pixel_len * from)
        (length out.old) }
{
    for j in from..line.len() {
        let c = palette[index_of(line[j])];
        tint_pixel(out, c, PIXEL_LEN * j);
    }
}
