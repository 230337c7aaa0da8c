// The lent table buffer: where each controller's banks stand, what a selection selects, and which
// banks are the active ones, over the number of bits that a pixel of a glyph has. That is a number, and no type
// of its own: what is promised here holds of each up to 2, and of 0. Nothing here knows what the bytes mean.
//
//     controller g at 3,712 g, its bank b at +1,856 b, and in a bank        with two bits 5,248 g, +2,624 b
//        0  instructions   48 of 16 bytes      kind 0
//      768  colours        16 of  4            kind 1
//      832  strings         8 of 32            kind 2
//    1,088  font           96 of  8            kind 3                       with two bits 96 of 16
#![tactic(auto)]

ghost use Rattle.std.specs.Prelude.{◌≡◌, ◌+◌, ◌<◌, ◌≤◌};
ghost use Rattle.words.specs.Kinds.{kind_number};
ghost use Rattle.tables.specs.Geometry.{tables_len, bank_len, font_len, kind_at, kind_len, bank_at};
ghost use Rattle.tables.specs.Selection.{controller_of, kind_of, bank_of, end_of, first_byte_of, named_by, active_at};

use words::fields::active_bank;
pub use words::kinds::Kind;

// How many a table of each kind has, and the bytes of one; a glyph's are its rows', and a row has a byte
// for each bit of a pixel.
pub const INSTRUCTION_COUNT: usize = 48;

pub const INSTRUCTION_LEN: usize = 16;

pub const COLOUR_COUNT: usize = 16;

pub const COLOUR_LEN: usize = 4;

pub const STRING_COUNT: usize = 8;

pub const STRING_LEN: usize = 32;

pub const GLYPH_COUNT: usize = 96;

pub const GLYPH_ROWS: usize = 8;

// The bytes of a whole table, for those who lend one.
pub const LIST_LEN: usize = INSTRUCTION_COUNT * INSTRUCTION_LEN;

pub const COLOURS_LEN: usize = COLOUR_COUNT * COLOUR_LEN;

pub const STRINGS_LEN: usize = STRING_COUNT * STRING_LEN;

// Where the font begins in its bank.
const FONT_AT: usize = 1088;

// The table that puts go to, and the place of the next byte in it. Until one is made nothing is selected, and a flag
// says so, not an Option: a state's bytes hold a number and a place there too (`taken_of` of `display`).
#[derive(Clone, Copy)]
pub struct Selection {
    pub made: bool,
    pub number: u32,
    pub place: u32,
}

// ---- lengths

// The bytes of a font.
pub fn font_len(bits: usize) -> usize
    requires { bits ≤ 2 }
    ensures { result ≡ font_len bits }
{
    GLYPH_COUNT * (GLYPH_ROWS * bits)
}

// Those of a bank, which the font ends.
#[tactic(auto, unfolding(crate::specs::Geometry::bank_len))]
fn bank_len(bits: usize) -> usize
    requires { bits ≤ 2 }
    ensures { (result ≡ bank_len bits) × (result ≤ 2624) }
{
    FONT_AT + font_len(bits)
}

// And of the whole buffer.
#[tactic(auto, unfolding(crate::specs::Geometry::tables_len))]
pub fn tables_len(bits: usize) -> usize
    requires { bits ≤ 2 }
    ensures { result ≡ tables_len bits }
{
    8 * (2 * bank_len(bits))
}

// The bytes of a kind.
#[tactic(auto, unfolding(crate::specs::Geometry::kind_len))]
fn kind_len(bits: usize, kind: Kind) -> u32
    requires { bits ≤ 2 }
    ensures { result ≡ kind_len bits (kind_number kind) }
{
    match kind {
        Kind::List => LIST_LEN as u32,
        Kind::Colours => COLOURS_LEN as u32,
        Kind::Strings => STRINGS_LEN as u32,
        Kind::Font => font_len(bits) as u32,
    }
}

// Where a kind begins in its bank.
#[tactic(auto, unfolding(crate::specs::Geometry::kind_at))]
fn kind_at(kind: Kind) -> usize
    ensures { (result ≡ kind_at (kind_number kind)) × (result ≤ 1088) }
{
    match kind {
        Kind::List => 0,
        Kind::Colours => 768,
        Kind::Strings => 832,
        Kind::Font => FONT_AT,
    }
}

// ---- a selection

// The controller, the kind and the bank that it names.
pub fn controller_of(selection: u32) -> u32
    ensures { result ≡ controller_of selection }
{
    selection / 8 % 8
}

pub fn kind_of(selection: u32) -> Kind
    ensures { kind_number result ≡ kind_of selection }
{
    match selection / 2 % 4 {
        0 => Kind::List,
        1 => Kind::Colours,
        2 => Kind::Strings,
        _ => Kind::Font,
    }
}

pub fn bank_of(selection: u32) -> u32
    ensures { result ≡ bank_of selection }
{
    selection % 2
}

// How many bytes the selected table has: the place's end.
pub fn end_of(bits: usize, selection: u32) -> u32
    requires { bits ≤ 2 }
    ensures { result ≡ end_of bits selection }
{
    kind_len(bits, kind_of(selection))
}

// Where a kind of a bank of a controller begins: all of its bytes lie in the buffer.
fn bank_at(bits: usize, controller: u32, bank: u32, kind: Kind) -> usize
    requires { (bits ≤ 2) × (controller < 8) × (bank < 2) }
    ensures { (result ≡ bank_at bits controller bank (kind_number kind))
        × (result + kind_len bits (kind_number kind) ≤ tables_len bits) }
{
    let bank_bytes = bank_len(bits);
    2 * bank_bytes * (controller as usize) + bank_bytes * (bank as usize) + kind_at(kind)
}

// Where the selected table begins: all of its bytes lie in the buffer.
pub fn first_byte_of(bits: usize, selection: u32) -> usize
    requires { bits ≤ 2 }
    ensures { (result ≡ first_byte_of bits selection) × (result + end_of bits selection ≤ tables_len bits) }
{
    bank_at(
        bits,
        controller_of(selection),
        bank_of(selection),
        kind_of(selection),
    )
}

// ---- the active banks

// Whether the words name the selected bank as an active one.
pub fn is_named(w: &[u32; 52], selection: u32) -> bool
    ensures { result ≡ named_by w.now selection }
{
    active_bank(w, controller_of(selection), kind_of(selection)) == bank_of(selection)
}

// Where the bank of a kind that the words name for a controller begins: all of its bytes lie in the
// buffer.
pub fn active_at(bits: usize, w: &[u32; 52], controller: u32, kind: Kind) -> usize
    requires { (bits ≤ 2) × (controller < 8) }
    ensures { (result ≡ active_at bits w.now controller (kind_number kind))
        × (result + kind_len bits (kind_number kind) ≤ tables_len bits) }
{
    bank_at(bits, controller, active_bank(w, controller, kind), kind)
}
