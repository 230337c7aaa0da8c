// A record of the script, 20 bytes: a letter, two numbers of eight hexadecimal digits in lower
// case, each behind a space, and a line feed.
//
//     W 00000001 00030004
ghost use Rattle.std.specs.Prelude.{◌<◌, ◌≤◌};

// What a record asks for, by its letter; what each does with a and b says `stage`, and of the last three `script`.
#[derive(Clone, Copy, Debug, PartialEq, Eq)]
pub enum Action {
    Renew,
    Lend,
    FillTables,
    FillPictures,
    FillFloats,
    FillOutput,
    StoreInTables,
    StoreInPictures,
    StoreInFloats,
    Write,
    Select,
    Toggle,
    Start,
    Put,
    Fill,
    PutRun,
    WriteRun,
    Band,
    Frame,
    Line,
    Repeat,
    View,
    Blends,
    Fades,
    Nothing,
}

impl From<u8> for Action {
    fn from(letter: u8) -> Action {
        match letter {
            b'N' => Action::Renew,
            b'L' => Action::Lend,
            b'K' => Action::FillTables,
            b'I' => Action::FillPictures,
            b'A' => Action::FillFloats,
            b'D' => Action::FillOutput,
            b'Q' => Action::StoreInTables,
            b'J' => Action::StoreInPictures,
            b'Z' => Action::StoreInFloats,
            b'W' => Action::Write,
            b'S' => Action::Select,
            b'T' => Action::Toggle,
            b'G' => Action::Start,
            b'P' => Action::Put,
            b'F' => Action::Fill,
            b'U' => Action::PutRun,
            b'X' => Action::WriteRun,
            b'B' => Action::Band,
            b'R' => Action::Frame,
            b'Y' => Action::Line,
            b'H' => Action::Repeat,
            b'V' => Action::View,
            b'M' => Action::Blends,
            b'E' => Action::Fades,
            _ => Action::Nothing,
        }
    }
}

#[derive(Clone, Copy)]
pub struct Record {
    // Printed in the record's line, whatever it means.
    pub letter: u8,
    pub a: u32,
    pub b: u32,
}

// What is no digit counts as 0.
fn digit(byte: u8) -> u32
    ensures { result < 16 }
{
    match byte {
        b'0'..=b'9' => u32::from(byte - b'0'),
        b'a'..=b'f' => u32::from(byte - b'a') + 10,
        _ => 0,
    }
}

// The number whose eight digits begin at a place.
fn number(text: &[u8; 20], at: usize) -> u32
    requires { at ≤ 12 }
{
    let mut number = 0;
    for byte in &text[at..at + 8] {
        number = number % 268435456 * 16 + digit(*byte);
    }
    number
}

impl From<&[u8; 20]> for Record {
    fn from(text: &[u8; 20]) -> Record {
        Record {
            letter: text[0],
            a: number(text, 2),
            b: number(text, 11),
        }
    }
}

impl Record {
    pub fn action(self) -> Action {
        Action::from(self.letter)
    }
}
