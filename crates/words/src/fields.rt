// The fields of the 52 words by name: 01 "Registers". No other file reads a field of a word; the check
// of reserved bits alone masks whole words.
ghost use Rattle.std.specs.Prelude.{◌≡◌, ◌+◌, ◌*◌, ◌<◌, get_or};
ghost use Rattle.words.specs.Fields.{shown_of, update_of, width_of, height_of, grounds_of};
ghost use Rattle.words.specs.Fields.{active_bank_of, layer_of, low_of, high_of};
ghost use Rattle.words.specs.Kinds.{kind_number};

use crate::kinds::Kind;
pub use mix::Ground;

// The six words of a layer, read. Its bits are flags, and no enum of kinds: pending words may set any of them together,
// and a start is what refuses that.
#[derive(Clone, Copy)]
pub struct Layer {
    pub on: bool,
    pub graphics: bool,
    // Whether its picture is among the floats.
    pub floats: bool,
    pub depth: u32,
    pub global: bool,
    pub value: u8,
    pub x: u16,
    pub y: u16,
    pub width: u16,
    pub height: u16,
    pub start: u32,
    // How many frames the fade takes: its length.
    pub period: u16,
    pub target: u8,
}

// Two numbers of 12 bits share a word: the lower at 11:0, the upper at 27:16.
fn lower(word: u32) -> u16
    ensures { result ≡ low_of word }
{
    (word % 4096) as u16
}

fn upper(word: u32) -> u16
    ensures { result ≡ high_of word }
{
    (word / 65536 % 4096) as u16
}

// Whether the display is on.
pub fn is_shown(w: &[u32; 52]) -> bool
    ensures { result ≡ shown_of w.now }
{
    w[0] % 2 == 1
}

// Whether a start takes the words up.
pub fn is_update(w: &[u32; 52]) -> bool
    ensures { result ≡ update_of w.now }
{
    w[0] / 4 % 2 == 1
}

pub fn screen_width(w: &[u32; 52]) -> u16
    ensures { result ≡ width_of w.now }
{
    lower(w[1])
}

pub fn screen_height(w: &[u32; 52]) -> u16
    ensures { result ≡ height_of w.now }
{
    upper(w[1])
}

// The background's channels.
pub fn ground_of(w: &[u32; 52]) -> Ground
    ensures { result ≡ grounds_of w.now }
{
    let [c0, c1, c2, _] = w[2].to_le_bytes();
    Ground { c0, c1, c2 }
}

// The bank of a kind that controller g paints from.
pub fn active_bank(w: &[u32; 52], g: u32, kind: Kind) -> u32
    requires { g < 8 }
    ensures { result ≡ active_bank_of w.now g (kind_number kind) }
{
    (w[3] >> (8 * kind.number() + g)) % 2
}

// Word j+6n, which is layer n's where j is 4 to 9.
pub fn layer_word(w: &[u32; 52], j: usize, n: usize) -> u32
    requires { (j < 10) × (n < 8) }
    ensures { result ≡ get_or w.now (j + 6 * n) 0 }
{
    w[j + 6 * n]
}

#[tactic(auto, unfolding(crate::specs::Fields::layer_of))]
pub fn layer_of(w: &[u32; 52], n: usize) -> Layer
    requires { n < 8 }
    ensures { result ≡ layer_of w.now n }
{
    let kind = layer_word(w, 4, n);
    let alpha = layer_word(w, 5, n);
    let place = layer_word(w, 6, n);
    let size = layer_word(w, 7, n);
    let start = layer_word(w, 8, n);
    let fade = layer_word(w, 9, n);
    Layer {
        on: kind % 2 == 1,
        graphics: kind / 2 % 2 == 1,
        floats: kind / 4 % 2 == 1,
        depth: kind / 256 % 8,
        global: alpha / 2147483648 % 2 == 1,
        value: (alpha % 256) as u8,
        x: lower(place),
        y: upper(place),
        width: lower(size),
        height: upper(size),
        start,
        period: (fade % 65536) as u16,
        target: (fade / 65536 % 256) as u8,
    }
}
