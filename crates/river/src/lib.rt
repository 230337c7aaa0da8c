// The river's floats as bytes: the exact byte of a value, by its bits, and a row of pixels of four values.
// Nothing here knows of layers or frames.
#![tactic(auto)]

ghost use Rattle.std.specs.Prelude.{◌≡◌, ◌+◌, ◌-◌, ◌%◌, ◌^◌, ◌≤◌, ◌<◌, length};
ghost use Rattle.mix.specs.Pixel.{pixel_len};
ghost use Rattle.river.specs.River.{byte_of, bytes_of, bytes_from};
ghost use Rattle.river.specs.Engine.Steps.{at_least, at_most, pixel_at, four_len, written, four_written, Front};

use mix::PIXEL_LEN;

// Bytes of four pixels, which are done at once.
const FOUR_LEN: usize = 4 * PIXEL_LEN;

// Up to 2^-9, which is below 1/510, every byte is 0.
const LEAST: f32 = 0.001953125;

// From 1 on every byte is 255.
const MOST: f32 = 1.0;

// In the bits of a float, 1 in the field of the exponent. Below it are the digits behind the leading one.
const EXPONENT: u32 = 0x80_0000;

// What the field of the exponent holds for LEAST.
const LEAST_EXPONENT: u32 = 118;

// A pixel as a shader leaves it.
#[derive(Clone, Copy)]
pub struct Pixel {
    pub red: f32,
    pub green: f32,
    pub blue: f32,
    pub alpha: f32,
}

// What is not a number fails the test and counts as LEAST, as what lies below it does.
fn at_least(x: f32) -> f32
    ensures { result ≡ at_least x }
{
    if x > LEAST {
        return x;
    }
    LEAST
}

// Apart from `at_least`, since a test and a choice of the two that it compares are one instruction, for four
// values at a time.
fn at_most(x: f32) -> f32
    ensures { result ≡ at_most x }
{
    if x < MOST {
        return x;
    }
    MOST
}

// 2^k. The remainder changes nothing. It shows the compiler a factor of less than sixteen bits, for which
// there is a quicker product.
fn power(k: u32) -> u32
    requires { k < 10 }
    ensures { (result ≡ 2 ^ k) × (result ≤ 512) }
{
    (1 << k) % 1024
}

// The byte of a value. From LEAST to MOST it is m times 2^k over 2^32, m having 24 digits, so that the byte is
// 255 times m times 2^k and half of 2^32 together, divided by 2^32. Of 255 times m the lower 17 digits never
// reach the byte. They go first, so that the factors are small.
pub fn byte_of(x: f32) -> u8
    ensures { result ≡ byte_of x }
{
    let b = f32::to_bits(at_most(at_least(x)));
    let part = 255 * (EXPONENT + b % EXPONENT) / 0x2_0000;
    ((part * power(b / EXPONENT - LEAST_EXPONENT) + 0x4000) / 0x8000) as u8
}

// The bytes of a pixel.
pub fn bytes_of(p: Pixel) -> [u8; 4]
    ensures { result ≡ bytes_of p }
{
    [
        byte_of(p.red),
        byte_of(p.green),
        byte_of(p.blue),
        byte_of(p.alpha),
    ]
}

// The pixel whose first value stands at i.
fn pixel_at(floats: &[f32], i: usize) -> Pixel
    requires { i + pixel_len ≤ length floats.now }
    ensures { result ≡ pixel_at floats.now i }
{
    Pixel {
        red: floats[i],
        green: floats[i + 1],
        blue: floats[i + 2],
        alpha: floats[i + 3],
    }
}

// Writes the bytes of a pixel at i.
fn put(row: &mut [u8], i: usize, p: Pixel)
    requires { i + pixel_len ≤ length row.old }
    ensures { row.new ≡ written row.old i p }
{
    let b = bytes_of(p);
    row[i] = b[0];
    row[i + 1] = b[1];
    row[i + 2] = b[2];
    row[i + 3] = b[3];
}

// Writes the bytes of four pixels from i on.
fn put_pixels(row: &mut [u8], i: usize, p0: Pixel, p1: Pixel, p2: Pixel, p3: Pixel)
    requires { i + four_len ≤ length row.old }
    ensures { row.new ≡ four_written row.old i p0 p1 p2 p3 }
{
    put(row, i, p0);
    put(row, i + PIXEL_LEN, p1);
    put(row, i + 2 * PIXEL_LEN, p2);
    put(row, i + 3 * PIXEL_LEN, p3);
}

// Writes the four pixels from i on of a row that is written up to there. All are read before the first is
// written, so that the compiler does their sixteen values side by side.
fn put_four(floats: &[f32], row: &mut [u8], i: usize)
    requires { (i + four_len ≤ length row.old) × Front floats.now row.old i }
    ensures { Front floats.now row.new (i + four_len) }
{
    let p0 = pixel_at(floats, i);
    let p1 = pixel_at(floats, i + PIXEL_LEN);
    let p2 = pixel_at(floats, i + 2 * PIXEL_LEN);
    let p3 = pixel_at(floats, i + 3 * PIXEL_LEN);
    put_pixels(row, i, p0, p1, p2, p3);
}

// Writes the pixels of a row four at a time, but for the last four or fewer.
fn put_fours(floats: &[f32], row: &mut [u8])
    requires { (length row.old ≡ length floats.now) × (length row.old % pixel_len ≡ 0)
        × (four_len ≤ length row.old) }
    ensures { Front floats.now row.new (length row.new - four_len) }
{
    for k in 0..(row.len() - 1) / FOUR_LEN {
        put_four(floats, row, FOUR_LEN * k);
    }
}

// Writes the pixels of a row one at a time.
fn put_ones(floats: &[f32], row: &mut [u8])
    requires { (length row.old ≡ length floats.now) × (length row.old % pixel_len ≡ 0) }
    ensures { row.new ≡ bytes_from floats.now }
{
    for k in 0..row.len() / PIXEL_LEN {
        let i = PIXEL_LEN * k;
        put(row, i, pixel_at(floats, i));
    }
}

// Writes a row of floats as a row of bytes. The last four pixels come by themselves, some of them for the
// second time. So none is left over, and `put_four` is called from two places and stays a function: within
// the loop the compiler would do values of several turns side by side, which takes longer.
pub fn to_bytes(floats: &[f32], row: &mut [u8])
    requires { (length row.old ≡ length floats.now) × (length row.old % pixel_len ≡ 0) }
    ensures { row.new ≡ bytes_from floats.now }
{
    if row.len() < FOUR_LEN {
        put_ones(floats, row);
        return;
    }
    put_fours(floats, row);
    put_four(floats, row, row.len() - FOUR_LEN);
}
