// One channel of a pixel over what is under it, the alpha that a fade gives, and the colour of the ground. Nothing here
// knows of layers or buffers.
#![tactic(auto)]

ghost use Rattle.std.specs.Prelude.{◌≡◌, ◌<◌};
ghost use Rattle.mix.specs.Blend.{blend_of};
ghost use Rattle.mix.specs.Fade.{fade_of};

// Bytes of a pixel: channel 0, 1, 2, alpha.
pub const PIXEL_LEN: usize = 4;

// Where in its pixel the alpha stands.
pub const ALPHA_PLACE: usize = 3;

// The alpha at which nothing under a pixel is seen, and that a fill writes.
pub const OPAQUE: u8 = 255;

// The one opaque colour of the ground, by its channels: here, below all that lay pixels on it.
#[derive(Clone, Copy)]
pub struct Ground {
    pub c0: u8,
    pub c1: u8,
    pub c2: u8,
}

// Read as signed, a number of 32 bits is negative from here on.
const NEGATIVE: u32 = 2147483648;

// `a` of 255 parts of `over`, the rest of `under`, rounded to the nearest, in sixteen bits, in the steps
// of the board's logic: t divided by 255 is t, 1 and t's own upper part together, shifted by 8. That
// holds up to 65,152, and no t is larger.
pub fn blended(a: u16, over: u16, under: u16) -> u16
    requires { (a < 256) × (over < 256) × (under < 256) }
    ensures { (result ≡ blend_of a over under) × (result < 256) }
{
    let t = a * over + (255 - a) * under + 127;
    (t + 1 + (t >> 8)) >> 8
}

// The same of bytes.
pub fn blend(a: u8, over: u8, under: u8) -> u8
    ensures { result ≡ blend_of a over under }
{
    blended(a as u16, over as u16, under as u16) as u8
}

// The alpha at a frame number: the word's own `value`, and from `start` on, over `length` frames,
// the way to `target`. It stays right for 2^31 frames after the start.
pub fn fade(value: u8, target: u8, length: u16, start: u32, frame: u32) -> u8
    ensures { result ≡ fade_of value target length start frame }
{
    if length == 0 {
        return value;
    }
    let e = std::num::wrapping_sub_u32(frame, start);
    if NEGATIVE <= e {
        return value;
    }
    let frames = length as u32;
    if frames <= e {
        return target;
    }
    let sum = (value as u32) * (frames - e) + (target as u32) * e + frames / 2;
    (sum / frames) as u8
}
