// What is the same for a whole painting, worked out once: for each layer of the part that is painted, in the
// order of painting, where it lies on a line, its alpha, and where its picture or its tables stand; and the error
// bits. For `scanline` and `paint` alone.
#![tactic(auto)]

ghost use Rattle.std.specs.Prelude.{◌≡◌, true, ◌+◌, ◌<◌, ◌≤◌, length, take, drop};
ghost use Rattle.words.specs.Fields.{layer_of};
ghost use Rattle.words.specs.Pictures.{start_at};
ghost use Rattle.tables.specs.Geometry.{tables_len, list_len, colours_len, list_kind};
ghost use Rattle.draw.specs.Drawing.{list_end};
ghost use Rattle.frames.specs.Pixel.{bank_bytes};
ghost use Rattle.colours.specs.Rows.{PaletteOf};
ghost use Rattle.lists.specs.Tab.{tab};
ghost use Rattle.words.specs.Order.{within};
ghost use Rattle.order.specs.Layout.{layout_of};
ghost use Rattle.plan.specs.Engine.Plan.{Made, Planned, Pushed, Grown, Empty, reaches, part_layers, is_made};
ghost use Rattle.plan.specs.Engine.Plan.{marked, band_marks};

use crate::source::Source;
use colours::palette;
use draw::{ListEnd, list_end};
use mix::fade;
use order::Layout;
use tables::{COLOURS_LEN, Kind, LIST_LEN, active_at};
use words::fields::{Layer, layer_of, screen_width};

mod source;

// One layer of a painting.
#[derive(Clone, Copy)]
pub struct Step {
    pub number: usize,
    pub layer: Layer,
    // The first pixel on a line, and how many of the layer's pixels lie on the screen.
    pub left: usize,
    pub wide: usize,
    pub alpha: u8,
    // How many bits a pixel of a glyph has.
    pub bits: u8,
    // Where its picture begins in its buffer.
    pub start: usize,
    // Where its active banks begin, and its list's end.
    pub list: usize,
    pub strings: usize,
    pub font: usize,
    pub end: ListEnd,
    pub palette: [u32; 16],
}

// What of a frame is painted: the layers of depths from `low` up to but not `high`, on `count` lines from
// line `first` on.
#[derive(Clone, Copy)]
pub struct Part {
    pub low: u32,
    pub high: u32,
    pub first: u32,
    pub count: u32,
}

// The first `count` of `steps` are the layers of a part, the lowest first: an array and its count, since a painting
// takes no memory from a heap.
#[derive(Clone, Copy)]
pub struct Plan {
    pub steps: [Step; 8],
    pub count: usize,
    // Whether rows of one of them are made before they are laid.
    pub drawn: bool,
    // The error word, once all layers of the part's depths have set their bits, also those on none of its lines.
    pub errors: u32,
}

// The end of the instruction list at a place of the tables.
fn end_at(tables: &[u8], at: usize) -> ListEnd
    requires { at + list_len ≤ length tables.now }
    ensures { result ≡ list_end (take list_len (drop at tables.now)) }
{
    list_end(&tables[at..at + LIST_LEN])
}

// The sixteen colours at a place of the tables.
fn palette_at(tables: &[u8], at: usize) -> [u32; 16]
    requires { at + colours_len ≤ length tables.now }
    ensures { PaletteOf result (take colours_len (drop at tables.now)) }
{
    palette(&tables[at..at + COLOURS_LEN])
}

// The end of layer n's list. A frame layer has none, and none is looked at.
fn end_of(source: &Source, layer: Layer, n: usize) -> ListEnd
    requires { n < 8 }
    ensures { layer.graphics ≡ true
        → result ≡ list_end (bank_bytes source.now.bits source.now.words.now source.now.tables.now n list_kind) }
{
    if layer.graphics {
        let at = active_at(source.bits, source.words, n as u32, Kind::List);
        return end_at(source.tables, at);
    }
    ListEnd {
        found: true,
        count: 0,
    }
}

// Layer n, whose picture begins at `start` and whose list ends at `end`.
fn step_of(source: &Source, start: usize, end: ListEnd, n: usize) -> Step
    requires { (n < 8) × (start ≡ start_at source.now.words.now n)
        × ((layer_of source.now.words.now n).graphics ≡ true
        → end ≡ list_end (bank_bytes source.now.bits source.now.words.now source.now.tables.now n list_kind)) }
    ensures { Made source.now.bits source.now.words.now source.now.frame source.now.tables.now n result }
{
    let bits = source.bits;
    let w = source.words;
    let layer = layer_of(w, n);
    let width = screen_width(w) as usize;
    let left = (layer.x as usize).min(width);
    let wide = (layer.width as usize).min(width - left);
    let alpha = fade(
        layer.value,
        layer.target,
        layer.period,
        layer.start,
        source.frame,
    );
    let controller = n as u32;
    let list = active_at(bits, w, controller, Kind::List);
    let colours = active_at(bits, w, controller, Kind::Colours);
    let strings = active_at(bits, w, controller, Kind::Strings);
    let font = active_at(bits, w, controller, Kind::Font);
    let palette = palette_at(source.tables, colours);
    Step {
        number: n,
        layer,
        left,
        wide,
        alpha,
        bits: bits as u8,
        start,
        list,
        strings,
        font,
        end,
        palette,
    }
}

// Whether a layer's depth is one of the part's.
fn is_within(layer: Layer, part: Part) -> bool
    ensures { result ≡ within part.low part.high layer }
{
    part.low <= layer.depth && layer.depth < part.high
}

// Whether a layer reaches one of the part's lines.
fn is_reached(layer: Layer, part: Part) -> bool
    ensures { result ≡ reaches part.first part.count layer }
{
    let first = part.first as usize;
    let top = layer.y as usize;
    top < first + (part.count as usize) && first < top + (layer.height as usize)
}

// The error word with bit 4n set, where layer n is a graphics layer whose list has no END.
fn mark(errors: u32, layer: Layer, end: ListEnd, n: usize) -> u32
    requires { n < 8 }
    ensures { result ≡ marked layer.graphics end.found n errors }
{
    if layer.graphics && !end.found {
        return errors | (1 << (4 * (n as u32)));
    }
    errors
}

// Whether a layer's rows are drawn, or turned from floats to bytes, before they are laid.
pub fn is_made(layer: Layer) -> bool
    ensures { result ≡ is_made layer }
{
    layer.graphics || layer.floats
}

// The plan with a step behind it.
fn pushed(mut plan: Plan, step: Step) -> Plan
    requires { plan.count < 8 }
    ensures { Pushed plan step result }
{
    let at = plan.count;
    plan.steps[at] = step;
    plan.count = at + 1;
    if is_made(step.layer) {
        plan.drawn = true;
    }
    plan
}

// The plan with layer n behind it, if its depth is one of the part's and it reaches one of the part's lines; of a
// layer that reaches none, only its list's END is asked for.
fn with_layer(plan: Plan, source: &Source, starts: [u32; 8], n: usize, part: Part) -> Plan
    requires { (n < 8) × (starts ≡ tab 8 (start_at source.now.words.now)) × (plan.count < 8) }
    ensures { Grown source.now.bits source.now.words.now source.now.frame source.now.tables.now part n plan result }
{
    let layer = layer_of(source.words, n);
    if !is_within(layer, part) {
        return plan;
    }
    let end = end_of(source, layer, n);
    let mut marked = plan;
    marked.errors = mark(plan.errors, layer, end, n);
    if !is_reached(layer, part) {
        return marked;
    }
    let step = step_of(source, starts[n] as usize, end, n);
    pushed(marked, step)
}

// A plan with no layer yet, and an error word.
fn empty(errors: u32) -> Plan
    ensures { Empty errors result }
{
    let blank_step = Step {
        number: 0,
        layer: Layer {
            on: false,
            graphics: false,
            floats: false,
            depth: 0,
            global: false,
            value: 0,
            x: 0,
            y: 0,
            width: 0,
            height: 0,
            start: 0,
            period: 0,
            target: 0,
        },
        left: 0,
        wide: 0,
        alpha: 0,
        start: 0,
        bits: 0,
        list: 0,
        strings: 0,
        font: 0,
        end: ListEnd {
            found: false,
            count: 0,
        },
        palette: [0; 16],
    };
    Plan {
        steps: [blank_step; 8],
        count: 0,
        drawn: false,
        errors,
    }
}

// The layers of a part, in the order of painting, and the error word after them. The words come with their layout.
pub fn plan_of(
    bits: usize,
    w: &[u32; 52],
    layout: Layout,
    frame: u32,
    errors: u32,
    tables: &[u8],
    part: Part,
) -> Plan
    requires { (bits ≤ 2) × (layout ≡ layout_of w.now) × (length tables.now ≡ tables_len bits) }
    ensures layers { Planned bits w.now frame tables.now (part_layers w.now part) result }
    ensures errors { result.errors
        ≡ band_marks bits w.now tables.now part.low part.high errors }
{
    let source = Source {
        bits,
        words: w,
        frame,
        tables,
    };
    let layers = layout.order.layers;
    let mut plan = empty(errors);
    for i in 0..layout.order.count as usize {
        plan = with_layer(
            plan,
            &source,
            layout.pictures.starts,
            layers[i] as usize,
            part,
        );
    }
    plan
}
