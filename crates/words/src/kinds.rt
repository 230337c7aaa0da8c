// The four kinds of table that a bank holds: 01 "Tables".
ghost use Rattle.std.specs.Prelude.{◌≡◌, ◌<◌};
ghost use Rattle.words.specs.Kinds.{kind_number};

#[derive(Clone, Copy, Debug, PartialEq, Eq)]
pub enum Kind {
    List = 0,
    Colours = 1,
    Strings = 2,
    Font = 3,
}

impl Kind {
    // The kind's number: bits 2:1 of a selection, and which eight bits of word 3.
    pub fn number(self) -> u32
        ensures { (result ≡ kind_number self) × (result < 4) }
    {
        self as u32
    }
}
