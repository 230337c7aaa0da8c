// The calls for a host in C, by their names in include/spoonwing.h: each makes the call of that name of a
// library below and promises what that promises. A library of Rattle exports nothing, so they stand here.
#![tactic(auto)]

ghost use Rattle.std.specs.Prelude.{◌≡◌, true};
ghost use Rattle.lists.specs.Over.{over};
ghost use Rattle.words.specs.Fields.{width_of, height_of};
ghost use Rattle.repair.specs.Image.{mend_answer, mend_image, mend_list, mend_count};
ghost use Rattle.display.specs.State.{new_of, write_of, select_of, toggle_of, start_of};
ghost use Rattle.display.specs.Put.{put_of, put_tables};
ghost use Rattle.display.specs.Runs.{told_by, put_run_of, put_run_tables, write_run_of};
ghost use Rattle.display.specs.Paint.{fill_told, fill_bytes, paint_told, paint_bytes, frame_told, frame_bytes};
ghost use Rattle.display.specs.Paint.{line_told, line_bytes};
ghost use Rattle.display.specs.Doors.{door_answer, door_state, door_buffer, door_read};
ghost use Rattle.host.specs.Host.{host_answer, host_output};

// ---- a frame without a state

#[unsafe(no_mangle)]
pub extern "C" fn spoonwing_frame(
    image: &[u8],
    frame: u32,
    tables: &[u8],
    pictures: &[u8],
    output: &mut [u8],
) -> u32
    ensures answer { result
        ≡ host_answer image.now frame tables.now pictures.now output.old }
    ensures output { output.new
        ≡ host_output image.now frame tables.now pictures.now output.old }
{
    host::spoonwing_frame(image, frame, tables, pictures, output)
}

// ---- mending a register image

#[unsafe(no_mangle)]
pub extern "C" fn spoonwing_mend(image: &mut [u8], list: &mut [u32; 156], count: &mut usize) -> u32
    ensures answer { result ≡ mend_answer image.old }
    ensures image { image.new ≡ mend_image image.old }
    ensures list { list.new ≡ over (mend_list image.old) list.old }
    ensures count { count.new ≡ mend_count image.old }
{
    repair::spoonwing_mend(image, list, count)
}

// ---- keeping a display

#[unsafe(no_mangle)]
pub extern "C" fn spoonwing_display_new(state: &mut [u8], bits: u32) -> u32
    ensures answer { result ≡ door_answer state.old (λ _. new_of bits true) }
    ensures state { state.new ≡ door_state state.old (λ _. new_of bits true) }
{
    display::doors::spoonwing_display_new(state, bits)
}

#[unsafe(no_mangle)]
pub extern "C" fn spoonwing_display_write(state: &mut [u8], register: u32, value: u32) -> u32
    ensures answer { result ≡ door_answer state.old (λ d. write_of d register value) }
    ensures state { state.new ≡ door_state state.old (λ d. write_of d register value) }
{
    display::doors::spoonwing_display_write(state, register, value)
}

#[unsafe(no_mangle)]
pub extern "C" fn spoonwing_display_select(state: &mut [u8], selection: u32) -> u32
    ensures answer { result ≡ door_answer state.old (λ d. select_of d selection) }
    ensures state { state.new ≡ door_state state.old (λ d. select_of d selection) }
{
    display::doors::spoonwing_display_select(state, selection)
}

#[unsafe(no_mangle)]
pub extern "C" fn spoonwing_display_toggle(state: &mut [u8], bits: u32) -> u32
    ensures answer { result ≡ door_answer state.old (λ d. toggle_of d bits) }
    ensures state { state.new ≡ door_state state.old (λ d. toggle_of d bits) }
{
    display::doors::spoonwing_display_toggle(state, bits)
}

#[unsafe(no_mangle)]
pub extern "C" fn spoonwing_display_start(state: &mut [u8]) -> u32
    ensures answer { result ≡ door_answer state.old (λ d. start_of d) }
    ensures state { state.new ≡ door_state state.old (λ d. start_of d) }
{
    display::doors::spoonwing_display_start(state)
}

#[unsafe(no_mangle)]
pub extern "C" fn spoonwing_display_put(state: &mut [u8], tables: &mut [u8], byte: u8) -> u32
    ensures answer { result ≡ door_answer state.old (λ d. put_of d tables.old) }
    ensures state { state.new ≡ door_state state.old (λ d. put_of d tables.old) }
    ensures tables { tables.new
        ≡ door_buffer state.old (λ d. put_tables d tables.old byte) tables.old }
{
    display::doors::spoonwing_display_put(state, tables, byte)
}

#[unsafe(no_mangle)]
pub extern "C" fn spoonwing_display_put_run(
    state: &mut [u8],
    tables: &mut [u8],
    run: &[u8],
    done: &mut usize,
) -> u32
    ensures answer { result ≡ door_answer state.old
        (λ d. told_by (put_run_of d tables.old run.now)) }
    ensures state { state.new ≡ door_state state.old
        (λ d. told_by (put_run_of d tables.old run.now)) }
    ensures tables { tables.new
        ≡ door_buffer state.old (λ d. put_run_tables d tables.old run.now)
        tables.old }
    ensures count { done.new
        ≡ door_read state.old (λ d. (put_run_of d tables.old run.now).done) }
{
    display::doors::spoonwing_display_put_run(state, tables, run, done)
}

#[unsafe(no_mangle)]
pub extern "C" fn spoonwing_display_write_run(state: &mut [u8], run: &[u8], done: &mut usize) -> u32
    ensures answer { result ≡ door_answer state.old (λ d. told_by (write_run_of d run.now)) }
    ensures state { state.new
        ≡ door_state state.old (λ d. told_by (write_run_of d run.now)) }
    ensures count { done.new
        ≡ door_read state.old (λ d. (write_run_of d run.now).done) }
{
    display::doors::spoonwing_display_write_run(state, run, done)
}

#[unsafe(no_mangle)]
pub extern "C" fn spoonwing_display_fill(state: &mut [u8], out: &mut [u8]) -> u32
    ensures answer { result ≡ door_answer state.old (λ d. fill_told d out.old) }
    ensures state { state.new ≡ door_state state.old (λ d. fill_told d out.old) }
    ensures output { out.new
        ≡ door_buffer state.old (λ d. fill_bytes d out.old) out.old }
{
    display::doors::spoonwing_display_fill(state, out)
}

#[unsafe(no_mangle)]
pub extern "C" fn spoonwing_display_paint(
    state: &mut [u8],
    low: u32,
    high: u32,
    tables: &[u8],
    pictures: &[u8],
    floats: &[f32],
    out: &mut [u8],
) -> u32
    ensures answer { result ≡ door_answer state.old
        (λ d. paint_told d low high tables.now pictures.now floats.now out.old) }
    ensures state { state.new ≡ door_state state.old
        (λ d. paint_told d low high tables.now pictures.now floats.now out.old) }
    ensures output { out.new
        ≡ door_buffer state.old (λ d. paint_bytes d low high tables.now pictures.now
        floats.now out.old) out.old }
{
    display::doors::spoonwing_display_paint(state, low, high, tables, pictures, floats, out)
}

#[unsafe(no_mangle)]
pub extern "C" fn spoonwing_display_frame(
    state: &mut [u8],
    tables: &[u8],
    pictures: &[u8],
    floats: &[f32],
    out: &mut [u8],
) -> u32
    ensures answer { result ≡ door_answer state.old
        (λ d. frame_told d tables.now pictures.now floats.now out.old) }
    ensures state { state.new ≡ door_state state.old
        (λ d. frame_told d tables.now pictures.now floats.now out.old) }
    ensures output { out.new
        ≡ door_buffer state.old (λ d. frame_bytes d tables.now pictures.now
        floats.now out.old) out.old }
{
    display::doors::spoonwing_display_frame(state, tables, pictures, floats, out)
}

#[unsafe(no_mangle)]
pub extern "C" fn spoonwing_display_line(
    state: &mut [u8],
    y: u32,
    tables: &[u8],
    pictures: &[u8],
    floats: &[f32],
    out: &mut [u8],
) -> u32
    ensures answer { result ≡ door_answer state.old
        (λ d. line_told d y tables.now pictures.now floats.now out.old) }
    ensures state { state.new ≡ door_state state.old
        (λ d. line_told d y tables.now pictures.now floats.now out.old) }
    ensures output { out.new
        ≡ door_buffer state.old (λ d. line_bytes d y tables.now pictures.now
        floats.now out.old) out.old }
{
    display::doors::spoonwing_display_line(state, y, tables, pictures, floats, out)
}

// ---- reads

#[unsafe(no_mangle)]
pub extern "C" fn spoonwing_display_error_word(state: &[u8]) -> u32
    ensures { result ≡ door_read state.now (λ d. d.errors) }
{
    display::doors::spoonwing_display_error_word(state)
}

#[unsafe(no_mangle)]
pub extern "C" fn spoonwing_display_frame_number(state: &[u8]) -> u32
    ensures { result ≡ door_read state.now (λ d. d.frame) }
{
    display::doors::spoonwing_display_frame_number(state)
}

#[unsafe(no_mangle)]
pub extern "C" fn spoonwing_display_output_width(state: &[u8]) -> u32
    ensures { result ≡ door_read state.now (λ d. width_of d.active) }
{
    display::doors::spoonwing_display_output_width(state)
}

#[unsafe(no_mangle)]
pub extern "C" fn spoonwing_display_output_height(state: &[u8]) -> u32
    ensures { result ≡ door_read state.now (λ d. height_of d.active) }
{
    display::doors::spoonwing_display_output_height(state)
}
