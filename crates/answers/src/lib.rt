// What calls refuse, and the numbers that they answer: 01 "Answers by number", and those of 02. A refusal leaves
// what its row there says.
#![tactic(auto)]

ghost use Rattle.std.specs.Prelude.{◌≡◌};
ghost use Rattle.answers.specs.Refusals.{number_of, answer_of};

// The answer of a call that was done.
pub const DONE: u8 = 0;

// Why a call was refused, by the call.
#[derive(Clone, Copy, Debug, PartialEq, Eq)]
pub enum Refusal {
    // Write: a register above 51.
    NoRegister = 1,
    // Select: a selection above 63.
    NoSelection = 2,
    // Put: nothing is selected.
    NotSelected = 3,
    // Put: the active word 3 names the selected bank.
    BankActive = 4,
    // Put: the place is at the kind's end.
    BankFull = 5,
    // Put, paint, line: the tables are not as long as the state's bits a glyph pixel ask.
    TablesLength = 6,
    // Start: a reserved bit is set.
    ReservedBit = 7,
    // Start: the output has no width or no height.
    EmptyScreen = 8,
    // Start: an enabled layer has no width or no height.
    EmptyLayer = 9,
    // Start: an enabled layer does not lie on the screen.
    OffScreen = 10,
    // Start: two enabled layers have one depth.
    SameDepth = 11,
    // Fill, paint, line: no start has given the output a size.
    NoSize = 12,
    // Fill, paint, line: the output is not 4 bytes for each pixel.
    OutputLength = 13,
    // Paint, line: the pictures have the wrong total length.
    PicturesLength = 14,
    // Paint a band: the lower end is above the upper, or the upper above 8. Line: its number is at or past the height.
    NoBand = 15,
    // Host entry: the register image is not 208 bytes.
    ImageLength = 16,
    // Making a state: the bits a glyph pixel are neither 1 nor 2.
    GlyphBits = 17,
    // Paint, line: the floats have the wrong total length.
    FloatsLength = 18,
    // Doors: the lent state is not 440 bytes. A number of our own, past those of 02.
    StateLength = 23,
}

impl Refusal {
    // The number of a refusal.
    pub fn number(self) -> u8
        ensures { result ≡ number_of self }
    {
        self as u8
    }
}

// The number of what a call came to: 0, or that of its refusal.
pub fn answer_of(outcome: Result<(), Refusal>) -> u8
    ensures { result ≡ answer_of outcome }
{
    match outcome {
        Ok(()) => DONE,
        Err(refusal) => refusal.number(),
    }
}
