// A run of one colour in a line.
ghost use Rattle.std.specs.Prelude.{◌≡◌};
ghost use Rattle.lists.specs.Tab.{each};
ghost use Rattle.draw.specs.Engine.Rows.{run_after};

// The colour at each place from a up to e, as far as the line goes.
pub fn fill_run(line: &mut [u8], a: usize, e: usize, colour: u8)
    ensures { line.new ≡ each (run_after a e colour) line.old }
{
    let end = e.min(line.len());
    for u in a..end {
        line[u] = colour;
    }
}
