// The 52 register words: their fields by name, and the record of where pictures begin. What a start checks, the
// order of layers and where pictures begin are defined in `specs/`; the crates above compute them.
#![tactic(auto)]

pub mod change;
pub mod fields;
pub mod image;
pub mod kinds;
pub mod pictures;
