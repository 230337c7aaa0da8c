// Sixteen pixels at a time: taken apart, mixed, put back. For `colours` and `span` alone.
#![tactic(auto)]

pub mod digits;
pub mod lanes;
pub mod pixels;
pub mod sizes;
