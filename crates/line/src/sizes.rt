// The numbers of a line and of what it prints, each once.

// A line with one more digit is refused.
pub const MOST_DIGITS: usize = 8192;

// Two digits for each byte.
pub const MOST_BYTES: usize = MOST_DIGITS / 2;

// The most bytes that a frame is lent.
pub const MOST_LENT: usize = 4096;

// What stands before the frame in a reply: answer, error word, width, height.
pub const HEAD_LEN: usize = 9;

// The bytes of the longest reply.
pub const MOST_REPLY: usize = HEAD_LEN + MOST_LENT;

// Two digits for each of them, and the line feed.
pub const MOST_PRINTED: usize = 2 * MOST_REPLY + 1;
