// The numbers of a sheet that comes in blocks, each once.
use line::MOST_DIGITS;

// One byte more than a good line has, so that a longer one is still too long when it is cut.
pub const MOST_KEPT: usize = MOST_DIGITS + 1;

// Answers to a block's lines are printed together, so that a write is not made for each.
pub const OUT_LEN: usize = 65536;
