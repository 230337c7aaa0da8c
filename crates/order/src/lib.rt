// The enabled layers in the order of painting, rising depth and of one depth by their number; and where each
// frame layer's picture begins in its buffer, and how long both buffers are. Functions of words alone, so that a state
// can hold what they answer.
#![tactic(auto)]

ghost use Rattle.std.specs.Prelude.{◌≡◌, ◌+◌, ◌≤◌, ◌<◌};
ghost use Rattle.words.specs.Order.{here, layers_below, order_of};
ghost use Rattle.words.specs.Pictures.{picture_len, pictures_of};
ghost use Rattle.order.specs.Layout.{packed, layout_of, no_layers};
ghost use Rattle.order.specs.Engine.Found.{found, with_picture};

use mix::PIXEL_LEN;
use words::fields::{Layer, layer_of};
use words::pictures::Pictures;

// The first `count` of `layers` are layer numbers; the rest is 0. An array with its count, and no slice of it: a state
// holds an order, is copied, and has no heap.
#[derive(Clone, Copy)]
pub struct Order {
    pub layers: [u8; 8],
    pub count: u8,
}

// What a painting needs of the words alone.
#[derive(Clone, Copy)]
pub struct Layout {
    pub order: Order,
    pub pictures: Pictures,
}

const NO_LAYERS: Order = Order {
    layers: [0; 8],
    count: 0,
};

const NO_PICTURES: Pictures = Pictures {
    starts: [0; 8],
    bytes: 0,
    floats: 0,
};

// Whether a layer is enabled and of depth d.
pub fn is_here(l: Layer, d: usize) -> bool
    ensures { result ≡ here l d }
{
    l.on && (l.depth as usize) == d
}

// Layer n behind those found so far, if it is one of depth d.
fn with_layer(mut order: Order, w: &[u32; 52], d: usize, n: usize) -> Order
    requires { (d < 8) × (n < 8) × (order ≡ packed (found w.now d n)) }
    ensures { result ≡ packed (found w.now d (n + 1)) }
{
    if is_here(layer_of(w, n), d) {
        let at = order.count;
        order.layers[at as usize] = n as u8;
        order.count = at + 1;
    }
    order
}

// The layers of depth d behind those below it.
fn with_depth(order: Order, w: &[u32; 52], d: usize) -> Order
    requires { (d < 8) × (order ≡ packed (layers_below w.now d)) }
    ensures { result ≡ packed (layers_below w.now (d + 1)) }
{
    let mut found = order;
    for n in 0..8 {
        found = with_layer(found, w, d, n);
    }
    found
}

pub fn order_of(w: &[u32; 52]) -> Order
    ensures { result ≡ packed (order_of w.now) }
{
    let mut found = NO_LAYERS;
    for d in 0..8 {
        found = with_depth(found, w, d);
    }
    found
}

// The numbers of a layer's picture, in whichever buffer it stands: at most 4 * 4095 * 4095 of a layer out of words, so that
// eight of them stay far below 2 ^ 32.
fn picture_len(l: Layer) -> usize
    ensures { result ≡ picture_len l.floats l }
{
    if !l.on || l.graphics {
        return 0;
    }
    PIXEL_LEN * ((l.width as usize) * (l.height as usize))
}

// Layer n's picture behind those of lower number.
fn with_picture(mut pictures: Pictures, l: Layer, n: usize) -> Pictures
    requires { (n < 8) × (pictures.bytes + picture_len l.floats l < 4294967296)
        × (pictures.floats + picture_len l.floats l < 4294967296) }
    ensures { result ≡ with_picture pictures l n }
{
    let len = picture_len(l) as u32;
    if l.floats {
        let at = pictures.floats;
        pictures.starts[n] = at;
        pictures.floats = at + len;
        return pictures;
    }
    let at = pictures.bytes;
    pictures.starts[n] = at;
    pictures.bytes = at + len;
    pictures
}

pub fn pictures_of(w: &[u32; 52]) -> Pictures
    ensures { result ≡ pictures_of w.now }
{
    let mut pictures = NO_PICTURES;
    for n in 0..8 {
        pictures = with_picture(pictures, layer_of(w, n), n);
    }
    pictures
}

// Both, worked out afresh.
#[tactic(auto, unfolding(crate::specs::Layout::layout_of))]
pub fn layout_of(w: &[u32; 52]) -> Layout
    ensures { result ≡ layout_of w.now }
{
    Layout {
        order: order_of(w),
        pictures: pictures_of(w),
    }
}

// Both of words that enable no layer.
pub fn no_layers() -> Layout
    ensures { result ≡ no_layers }
{
    Layout {
        order: NO_LAYERS,
        pictures: NO_PICTURES,
    }
}
