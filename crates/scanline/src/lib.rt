// One line of a frame: its ground, then its layers. For `paint` alone.
#![tactic(auto)]

pub mod ground;
pub mod hiding;
pub mod line;
mod picture;
mod row;

use mix::Ground;

// What a painting reads while it lays its lines: the buffers that are lent, and what is worked out once for all lines, the
// spans of its lists' instructions and its lowest layer's colours over the background. It has a background where its
// frame is a fresh one; else its layers lie over what is there. The room that a row is made in is lent beside it, in two
// parameters: as `&mut` fields, each contract would have to say that they are the same rooms afterwards.
#[derive(Clone, Copy)]
pub struct Painting<'a> {
    pub tables: &'a [u8],
    pub pictures: &'a [u8],
    pub floats: &'a [f32],
    pub extents: &'a [u32],
    pub under: &'a [u32; 16],
    pub ground: Option<Ground>,
}
