// The numbers of a line and of what it prints, each once.
use words::image::IMAGE_LEN;

// A line with more digits is refused, and one with fewer.
pub const IMAGE_DIGITS: usize = 2 * IMAGE_LEN;

// One byte more than a good line has, so that a longer one is still too long when it is cut.
pub const IMAGE_KEPT: usize = IMAGE_DIGITS + 1;

// A changed word in a reply: its register, its old value and its new one.
pub const CHANGE_LEN: usize = 9;

// Every word may change.
pub const MOST_CHANGES: usize = 52;

// Three numbers for each of them.
pub const LIST_LEN: usize = 3 * MOST_CHANGES;

// The bytes of the longest reply: answer, image, list.
pub const LONGEST_REPLY: usize = 1 + IMAGE_LEN + CHANGE_LEN * MOST_CHANGES;

// Two digits for each of them, and the line feed.
pub const LONGEST_LINE: usize = 2 * LONGEST_REPLY + 1;
