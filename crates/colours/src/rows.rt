// The loops that write a row without regard to what it held: a line of colour indexes as pixels,
// and one pixel over and over.
ghost use Rattle.std.specs.Prelude.{◌≡◌, true, ◌+◌, ◌*◌, ◌/◌, ◌%◌, ◌≤◌, ◌<◌, length, get_or};
ghost use Rattle.mix.specs.Pixel.{pixel_len, opaque};
ghost use Rattle.sixteen.specs.Engine.Lanes.{block_len, Part, Front, anew, Bytes};
ghost use Rattle.colours.specs.Rows.{pixel_byte, word_byte, colour_byte, solid_byte};
ghost use Rattle.colours.specs.Engine.Indexes.{words_byte, EightIs, Same};

use mix::{Ground, OPAQUE, PIXEL_LEN};
use sixteen::digits::{byte0, byte1, byte2, byte3, pair, pixel_of};
use sixteen::lanes::store;
use sixteen::pixels::{halves, repeated};
use sixteen::sizes::{BLOCK_LEN, BLOCK_PIXELS, COLOURS};

// An index into the palette.
pub fn index_of(x: u8) -> usize
    ensures { (result ≡ x % 16) × (result < 16) }
{
    (x % COLOURS) as usize
}

// Writes the four bytes of a pixel at i.
fn put4(out: &mut [u8], i: usize, c0: u8, c1: u8, c2: u8, alpha: u8)
    requires { (i + pixel_len ≤ length out.old) × (i % pixel_len ≡ 0) }
    ensures { Part out.new out.old (anew (pixel_byte c0 c1 c2 alpha)) i (i + pixel_len) }
{
    out[i] = c0;
    out[i + 1] = c1;
    out[i + 2] = c2;
    out[i + 3] = alpha;
}

// Writes a pixel at i, the lowest byte first.
fn put_word(out: &mut [u8], i: usize, c: u32)
    requires { (i + pixel_len ≤ length out.old) × (i % pixel_len ≡ 0) }
    ensures { Part out.new out.old (anew (word_byte c)) i (i + pixel_len) }
{
    put4(out, i, byte0(c), byte1(c), byte2(c), byte3(c));
}

// Writes four pixels from i on.
fn put_words(out: &mut [u8], i: usize, c0: u32, c1: u32, c2: u32, c3: u32)
    requires { (i + 4 * pixel_len ≤ length out.old) × (i % pixel_len ≡ 0) }
    ensures { Part out.new out.old (anew (words_byte c0 c1 c2 c3 i)) i (i + 16) }
{
    put_word(out, i, c0);
    put_word(out, i + PIXEL_LEN, c1);
    put_word(out, i + 2 * PIXEL_LEN, c2);
    put_word(out, i + 3 * PIXEL_LEN, c3);
}

// Four indexes from j on, as one word.
fn four(line: &[u8], j: usize) -> u32
    requires { j + 4 ≤ length line.now }
    ensures { Bytes result (get_or line.now j 0) (get_or line.now (j + 1) 0)
        (get_or line.now (j + 2) 0) (get_or line.now (j + 3) 0) }
{
    pixel_of(line[j], line[j + 1], line[j + 2], line[j + 3])
}

// Eight of them.
fn eight(line: &[u8], j: usize) -> u64
    requires { j + 8 ≤ length line.now }
    ensures { EightIs line.now j result }
{
    pair(four(line, j), four(line, j + 4))
}

// The byte c eight times.
fn eight_times(c: u8) -> u64
    ensures { Bytes (result % 4294967296) c c c c × Bytes (result / 4294967296) c c c c }
{
    (c as u64) * 72340172838076673
}

// Whether the sixteen indexes from j on are all x. Eight are compared at once.
pub fn is_same(line: &[u8], j: usize, x: u8) -> bool
    requires { j + 16 ≤ length line.now }
    ensures { result ≡ true → Same line.now j 16 x }
{
    let q = eight_times(x);
    if eight(line, j) != q {
        return false;
    }
    eight(line, j + 8) == q
}

// Writes the pixel c sixteen times, from i on.
pub fn repeat16(row: &mut [u8], i: usize, c: u32)
    requires { (i + block_len ≤ length row.old) × (i % pixel_len ≡ 0) }
    ensures { Part row.new row.old (anew (word_byte c)) i (i + block_len) }
{
    let p = repeated(c);
    let h = halves(p);
    store(row, i, h);
}

// The pixels of sixteen indexes, four at a time. All four colours are read before the first is
// written, and they are read in this loop. The palette comes by reference, since by value it would be
// copied for each block.
fn expand16(line: &[u8], palette: &[u32; 16], row: &mut [u8], from: usize)
    requires { (length row.old ≡ 4 * length line.now) × (from + 16 ≤ length line.now) }
    ensures { Part row.new row.old
        (anew (colour_byte line.now palette.now)) (4 * from) (4 * (from + 16)) }
{
    for k in 0..4 {
        let j = from + 4 * k;
        let c0 = palette[index_of(line[j])];
        let c1 = palette[index_of(line[j + 1])];
        let c2 = palette[index_of(line[j + 2])];
        let c3 = palette[index_of(line[j + 3])];
        put_words(row, PIXEL_LEN * j, c0, c1, c2, c3);
    }
}

// The pixels of the block of indexes from j on. Most of a drawn line is one colour for long, which is
// then read once.
fn expand_block(line: &[u8], palette: &[u32; 16], row: &mut [u8], j: usize)
    requires { (length row.old ≡ 4 * length line.now) × (j + 16 ≤ length line.now) }
    ensures { Part row.new row.old
        (anew (colour_byte line.now palette.now)) (4 * j) (4 * (j + 16)) }
{
    let x = line[j];
    if is_same(line, j, x) {
        let c = palette[index_of(x)];
        repeat16(row, PIXEL_LEN * j, c);
        return;
    }
    expand16(line, palette, row, j);
}

// The pixels of a line, block by block, answering where the blocks end.
pub fn expand_blocks(line: &[u8], palette: &[u32; 16], row: &mut [u8]) -> usize
    requires { length row.old ≡ 4 * length line.now }
    ensures { Front row.new row.old
        (anew (colour_byte line.now palette.now)) (4 * result) }
{
    let blocks = line.len() / BLOCK_PIXELS;
    for k in 0..blocks {
        expand_block(line, palette, row, BLOCK_PIXELS * k);
    }
    BLOCK_PIXELS * blocks
}

// The pixels of a line from `from` on.
pub fn expand_rest(line: &[u8], palette: &[u32; 16], row: &mut [u8], from: usize)
    requires { (length row.old ≡ 4 * length line.now) × (4 * from ≤ length row.old) }
    ensures { Part row.new row.old
        (anew (colour_byte line.now palette.now)) (4 * from) (length row.old) }
{
    for j in from..line.len() {
        let c = palette[index_of(line[j])];
        put_word(row, PIXEL_LEN * j, c);
    }
}

// The pixel of the ground as one word.
pub fn solid_pixel(ground: Ground) -> u32
    ensures { Bytes result ground.c0 ground.c1 ground.c2 opaque }
{
    pixel_of(ground.c0, ground.c1, ground.c2, OPAQUE)
}

// The blocks of a filled row, answering where they end.
pub fn fill_blocks(out: &mut [u8], ground: Ground) -> usize
    ensures { Front out.new out.old (anew (solid_byte ground.c0 ground.c1 ground.c2)) result }
{
    let p = repeated(solid_pixel(ground));
    let w = halves(p);
    let blocks = out.len() / BLOCK_LEN;
    for k in 0..blocks {
        store(out, BLOCK_LEN * k, w);
    }
    BLOCK_LEN * blocks
}

// The pixels of a filled row from `from` on.
pub fn fill_rest(out: &mut [u8], from: usize, ground: Ground)
    requires { (length out.old % pixel_len ≡ 0) × (from ≤ length out.old) × (from % pixel_len ≡ 0) }
    ensures { Part out.new out.old
        (anew (solid_byte ground.c0 ground.c1 ground.c2)) from (length out.old) }
{
    for k in from / PIXEL_LEN..out.len() / PIXEL_LEN {
        put4(out, PIXEL_LEN * k, ground.c0, ground.c1, ground.c2, OPAQUE);
    }
}
