// The lines of a part of a frame, from the first to the last.
ghost use Rattle.std.specs.Prelude.{◌≡◌, true, Some, is_some, IfSome, ◌+◌, ◌*◌, ◌%◌, ◌<◌, ◌≤◌, length};
ghost use Rattle.lists.specs.Tab.{each};
ghost use Rattle.mix.specs.Pixel.{pixel_len};
ghost use Rattle.words.specs.Fields.{width_of, grounds_of};
ghost use Rattle.tables.specs.Geometry.{instructions};
ghost use Rattle.frames.specs.Line.{line_len};
ghost use Rattle.scanline.specs.Engine.Lines.{Banked, AllFit, LentBy, under_byte};
ghost use Rattle.paint.specs.Engine.Rows.{Holds, RowsLaid, LaidTo, Prepared, Under, Backed};
ghost use Rattle.paint.specs.Engine.Rows.{AllBanked, Extends, AllExtended};

use mix::{Ground, PIXEL_LEN};
use numbers::filled;
use pen::spans::list_spans;
use plan::{Part, Plan, Step};
use scanline::Painting;
use scanline::ground::lay_first;
use scanline::hiding::lay_hiding;
use scanline::line::layer_line;
use tables::{INSTRUCTION_COUNT, LIST_LEN};
use words::fields::{ground_of, screen_width};

// Pixels that a line has at most, since its width is a field of 12 bits, and their bytes.
const MOST_PIXELS: usize = 4096;

const MOST_BYTES: usize = PIXEL_LEN * MOST_PIXELS;

// Spans of the instructions of eight lists, as many as there are layers.
const MOST_EXTENTS: usize = 8 * INSTRUCTION_COUNT;

// The background of what is painted anew; what is painted over has none.
pub fn ground_if(fresh: bool, w: &[u32; 52]) -> Option<Ground>
    ensures fresh { is_some result ≡ fresh }
    ensures backed { Backed result w.now }
{
    if fresh { Some(ground_of(w)) } else { None }
}

// The topmost layer, but for the lowest, that hides all under it on line y, where the line has a background: that layer is
// laid, and those under it need not be painted. An attempt that fails leaves the line to be laid anew.
fn lay_topmost(line: &mut [u8], painting: &Painting, plan: &Plan, y: usize) -> Option<usize>
    requires { AllFit painting.now.tables.now painting.now.pictures.now painting.now.floats.now
        (length line.old) plan.now }
    ensures topmost { IfSome result (λ k. (k < plan.now.count)
        × LaidTo (LentBy painting.now) painting.now.ground plan.now (k + 1) y line.old line.new) }
    ensures ground { each (under_byte painting.now.ground) line.new
        ≡ each (under_byte painting.now.ground) line.old }
{
    let ground = painting.ground?;
    for i in (1..plan.count).rev() {
        if lay_hiding(line, painting.pictures, ground, &plan.steps[i], y) {
            return Some(i);
        }
    }
    None
}

// The ground of line y, and with it the layers up to the topmost that hides all under it, or the lowest where that takes
// up the whole line. Answers how many layers of the plan that is.
fn begin_line(
    line: &mut [u8],
    indexes: &mut [u8],
    row: &mut [u8],
    painting: &Painting,
    plan: &Plan,
    y: usize,
) -> usize
    requires line_len { length line.old % pixel_len ≡ 0 }
    requires all_fit { AllFit painting.now.tables.now painting.now.pictures.now painting.now.floats.now
        (length line.old) plan.now }
    requires prepared { plan.now.drawn ≡ true
        → Prepared (length line.old) indexes.old row.old painting.now plan.now }
    ensures begun { LaidTo (LentBy painting.now) painting.now.ground plan.now result y line.old line.new }
    ensures few { result ≤ plan.now.count }
{
    if let Some(top) = lay_topmost(line, painting, plan, y) {
        return top + 1;
    }
    lay_first(line, indexes, row, painting, &plan.steps[0], plan.count, y)
}

// Line y, with all layers of the plan over its ground.
fn lay_line(
    line: &mut [u8],
    indexes: &mut [u8],
    row: &mut [u8],
    painting: &Painting,
    plan: &Plan,
    y: usize,
)
    requires line_len { length line.old % pixel_len ≡ 0 }
    requires all_fit { AllFit painting.now.tables.now painting.now.pictures.now painting.now.floats.now
        (length line.old) plan.now }
    requires prepared { plan.now.drawn ≡ true
        → Prepared (length line.old) indexes.old row.old painting.now plan.now }
    ensures { LaidTo (LentBy painting.now) painting.now.ground plan.now plan.now.count y line.old line.new }
{
    let from = begin_line(line, indexes, row, painting, plan, y);
    for i in from..plan.count {
        let at = INSTRUCTION_COUNT * i;
        layer_line(line, indexes, row, painting, &plan.steps[i], at, y);
    }
}

// The layers of a plan over the lines of a part, or over the background where the frame is a fresh one: it is laid
// line by line, so that a line is still at hand when its layers come. `out` has the part's lines.
fn lay_lines(
    out: &mut [u8],
    indexes: &mut [u8],
    row: &mut [u8],
    w: &[u32; 52],
    painting: &Painting,
    plan: &Plan,
    part: Part,
)
    requires out_len { (length out.old ≡ part.count * line_len w.now) × (0 < width_of w.now) }
    requires all_fit { AllFit painting.now.tables.now painting.now.pictures.now painting.now.floats.now
        (line_len w.now) plan.now }
    requires prepared { plan.now.drawn ≡ true
        → Prepared (line_len w.now) indexes.old row.old painting.now plan.now }
    requires backed { Backed painting.now.ground w.now }
    ensures { RowsLaid (Holds w.now painting.now.tables.now painting.now.pictures.now painting.now.floats.now)
        plan.now part (is_some painting.now.ground) out.old out.new }
{
    let stride = PIXEL_LEN * usize::from(screen_width(w));
    let first = part.first as usize;
    for k in 0..part.count as usize {
        let at = k * stride;
        lay_line(
            &mut out[at..at + stride],
            indexes,
            row,
            painting,
            plan,
            first + k,
        );
    }
}

// The colours of a plan's lowest layer over the background.
fn under_first(w: &[u32; 52], step: &Step) -> [u32; 16]
    ensures { Under (grounds_of w.now) step.now result }
{
    let palette = step.palette;
    span::grounded(palette, step.layer.global, step.alpha, ground_of(w))
}

// The spans of a step's instructions from `at` on, where it is a graphics layer.
fn put_extents(extents: &mut [u32], tables: &[u8], step: &Step, at: usize)
    requires { (at + instructions ≤ length extents.old)
        × (step.now.layer.graphics ≡ true → Banked tables.now step.now) }
    ensures { Extends tables.now step.now at extents.old extents.new }
{
    if !step.layer.graphics {
        return;
    }
    let list = step.list;
    list_spans(
        &mut extents[at..at + INSTRUCTION_COUNT],
        &tables[list..list + LIST_LEN],
        step.end.count,
    );
}

// The spans of the instructions of a plan's graphics layers, each layer's in places of its own.
fn extents_of(tables: &[u8], plan: &Plan) -> [u32; MOST_EXTENTS]
    requires { AllBanked tables.now plan.now }
    ensures { AllExtended tables.now result plan.now }
{
    let mut extents = filled(0);
    for i in 0..plan.count {
        put_extents(&mut extents, tables, &plan.steps[i], INSTRUCTION_COUNT * i);
    }
    extents
}

// The lines of a part whose rows have to be made, with room for that and what is worked out once for all lines. To clear
// the room costs more than many a line: made in `paint_rows` itself, it was cleared for each part.
fn draw_rows(out: &mut [u8], w: &[u32; 52], painting: &Painting, plan: &Plan, part: Part)
    requires out_len { (length out.old ≡ part.count * line_len w.now) × (0 < width_of w.now) }
    requires all_fit { AllFit painting.now.tables.now painting.now.pictures.now painting.now.floats.now
        (line_len w.now) plan.now }
    requires backed { Backed painting.now.ground w.now }
    ensures { RowsLaid (Holds w.now painting.now.tables.now painting.now.pictures.now painting.now.floats.now)
        plan.now part (is_some painting.now.ground) out.old out.new }
{
    let extents = extents_of(painting.tables, plan);
    let under = under_first(w, &plan.steps[0]);
    let drawn = Painting {
        extents: &extents,
        under: &under,
        ..*painting
    };
    let mut indexes = filled::<u8, MOST_PIXELS>(0);
    let mut row = filled::<u8, MOST_BYTES>(0);
    lay_lines(out, &mut indexes, &mut row, w, &drawn, plan, part);
}

// The lines of a part, over the background where the frame is a fresh one. It is told what is lent, and of no scene.
pub fn paint_rows(
    out: &mut [u8],
    w: &[u32; 52],
    tables: &[u8],
    pictures: &[u8],
    floats: &[f32],
    fresh: bool,
    plan: &Plan,
    part: Part,
)
    requires out_len { (length out.old ≡ part.count * line_len w.now) × (0 < width_of w.now) }
    requires all_fit { AllFit tables.now pictures.now floats.now (line_len w.now) plan.now }
    ensures { RowsLaid (Holds w.now tables.now pictures.now floats.now)
        plan.now part fresh out.old out.new }
{
    let painting = Painting {
        tables,
        pictures,
        floats,
        extents: &[],
        under: &[0; 16],
        ground: ground_if(fresh, w),
    };
    if plan.drawn {
        draw_rows(out, w, &painting, plan, part);
        return;
    }
    lay_lines(out, &mut [], &mut [], w, &painting, plan, part);
}
