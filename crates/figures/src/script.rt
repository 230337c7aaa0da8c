// Reads a script from standard input and prints a line for each record: of those in `stage`, with
// the count of a run's items that were done (0 where there is no run), and of
//
//     V  32 bytes of the output from a on
//     M  all blends at alpha a        E  fades of length a
use crate::buffers::{self, Buffers};
use crate::checksum::checksum;
use crate::record::{Action, Record};
use crate::stage::Stage;
use crate::{blends, fades, print};
use std::io::{self, ErrorKind, Read};

// The letter, the answer (00 where nothing was called), the count, what the state tells, and the
// checksums of all tables and all output, lent or not.
fn show(rt: &impl Print, letter: u8, s: &Stage, buffers: &Buffers) -> io::Result<()> {
    let display = s.screen.display();
    print::letter(rt, letter)?;
    print::column(rt, u32::from(s.answer), 2)?;
    print::column(rt, (s.done % 4294967296) as u32, 8)?;
    print::column(rt, display.error_word(), 8)?;
    print::column(rt, display.frame_number(), 8)?;
    print::column(rt, u32::from(display.output_width()), 3)?;
    print::column(rt, u32::from(display.output_height()), 3)?;
    print::column(rt, checksum(&buffers.tables), 8)?;
    print::column(rt, checksum(&buffers.out), 8)?;
    print::end_line(rt)
}

// Thirty-two bytes of the output from a place on.
fn view(rt: &impl Print, out: &[u8], at: u32) -> io::Result<()> {
    print::letter(rt, b'V')?;
    for i in 0..32 {
        print::column(rt, u32::from(buffers::byte_at(out, at as usize + i)), 2)?;
    }
    print::end_line(rt)
}

fn turn(rt: &impl Print, s: &mut Stage, r: Record, buffers: &mut Buffers) -> io::Result<()> {
    match r.action() {
        Action::View => view(rt, &buffers.out, r.a),
        Action::Blends => blends::show(rt, (r.a % 256) as u8),
        Action::Fades => fades::show(rt, (r.a % 65536) as u16),
        _ => {
            s.play(r, buffers);
            show(rt, r.letter, s, buffers)
        }
    }
}

// Whether a whole record came.
fn read(input: &mut impl Read, text: &mut [u8; 20]) -> io::Result<bool> {
    match input.read_exact(text) {
        Ok(()) => Ok(true),
        Err(e) if e.kind() == ErrorKind::UnexpectedEof => Ok(false),
        Err(e) => Err(e),
    }
}

// Nothing says that the input ends, so the loop takes no more turns than a number that no run uses up.
pub fn run<R: Input + Print>(rt: &R) -> io::Result<()> {
    let mut input = rt.reader();
    let mut text = [0u8; 20];
    let mut buffers = Buffers::new();
    let mut s = Stage::new(1, false);
    for _ in 0..u64::MAX {
        if !read(&mut input, &mut text)? {
            break;
        }
        turn(rt, &mut s, Record::from(&text), &mut buffers)?;
    }
    Ok(())
}
