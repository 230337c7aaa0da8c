// The numbers of a colour table and of a block, by name; those of a pixel are `mix`'s.
use mix::PIXEL_LEN;

// Colours of a table.
pub const COLOURS: u8 = 16;

// Pixels of a block, which a turn does at once.
pub const BLOCK_PIXELS: usize = 16;

// Bytes of a block.
pub const BLOCK_LEN: usize = PIXEL_LEN * BLOCK_PIXELS;
