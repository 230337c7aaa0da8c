// The display of a script with what is lent to it, and what its records do with a and b:
//
//     N  a fresh display of a bits a glyph pixel, which lets float layers in where b is not 0; zeros in the
//        buffers, whole tables and nothing else lent
//     L  lend b bytes of the tables (a is 0) or the pictures (1), b numbers of the floats (3), or b bytes of the
//        output (any other)
//     K  fill the tables, I the pictures, A the floats, D the output, by a pattern from a in steps of b
//     Q  store the word b at byte a of the tables, J of the pictures
//     Z  store the f32 whose bits are b at number a of the floats, one NaN for the bits of any
//     W  write b to register a        S  select a         T  toggle a         G  start
//     P  put byte a, and b times more (up to 1,023)       F  fill
//     U  put a run, X write a run: the b bytes of the pictures from a on, or what there is of them
//     B  paint the band a..b          R  paint a whole frame
//     Y  paint line a into the output from byte b on, so many bytes as are lent
//     H  make each painting (B, R, Y) a times more (up to 1,023), until the next H or N
use crate::buffers::{self, Buffers, count};
use crate::record::{Action, Record};
use crate::screen::{Lent, Screen};
use tables::tables_len;

// How many bytes are lent, of the floats how many numbers, counted from a buffer's front; more than it has
// is all of it.
#[derive(Clone, Copy)]
struct Lengths {
    tables: u32,
    pictures: u32,
    floats: u32,
    out: u32,
}

// After a record: what its call answered, and how many items that did if it was a run.
#[derive(Clone, Copy)]
pub struct Stage {
    pub screen: Screen,
    pub answer: u8,
    pub done: usize,
    lengths: Lengths,
    // How many times more a painting is made.
    more: u32,
}

// The whole tables of a display that is made with so many bits a glyph pixel.
fn whole_tables(bits: u32) -> u32 {
    if bits == 2 {
        return (tables_len(2) % 4294967296) as u32;
    }
    (tables_len(1) % 4294967296) as u32
}

// The records that change what the buffers hold.
fn change(action: Action, r: Record, buffers: &mut Buffers) {
    match action {
        Action::FillTables => buffers::fill(&mut buffers.tables, r.a, r.b, false),
        Action::FillPictures => buffers::fill(&mut buffers.pictures, r.a, r.b, true),
        Action::FillFloats => buffers::fill_floats(&mut buffers.floats, r.a, r.b),
        Action::FillOutput => buffers::fill(&mut buffers.out, r.a, r.b, false),
        Action::StoreInTables => buffers::set_word(&mut buffers.tables, r.a, r.b),
        Action::StoreInPictures => buffers::set_word(&mut buffers.pictures, r.a, r.b),
        Action::StoreInFloats => buffers::set_float(&mut buffers.floats, r.a, r.b),
        _ => {}
    }
}

impl Stage {
    // A fresh display with whole tables and nothing else lent, and what making it answered.
    pub fn new(bits: u32, floats: bool) -> Stage {
        let (screen, answer) = Screen::new(bits, floats);
        Stage {
            screen,
            answer,
            done: 0,
            lengths: Lengths {
                tables: whole_tables(bits),
                pictures: 0,
                floats: 0,
                out: 0,
            },
            more: 0,
        }
    }

    fn lend(&mut self, buffer: u32, length: u32) {
        match buffer {
            0 => self.lengths.tables = length,
            1 => self.lengths.pictures = length,
            3 => self.lengths.floats = length,
            _ => self.lengths.out = length,
        }
    }

    // A byte put once and then up to 1,023 times more; the last answer.
    fn put(&mut self, r: Record, tables: &mut [u8]) -> u8 {
        let n = count(self.lengths.tables, tables);
        let byte = (r.a % 256) as u8;
        self.screen.put_often(&mut tables[..n], byte, r.b % 1024)
    }

    // The painting that a record asks for.
    fn paint_once(&mut self, action: Action, r: Record, lent: Lent, out: &mut [u8]) -> u8 {
        let at = count(if action == Action::Line { r.b } else { 0 }, out);
        let part = &mut out[at..];
        let n = count(self.lengths.out, part);
        let lent_out = &mut part[..n];
        match action {
            Action::Band => self.screen.paint(r.a, r.b, lent, lent_out),
            Action::Frame => self.screen.frame(lent, lent_out),
            _ => self.screen.line(r.a, lent, lent_out),
        }
    }

    // A painting made once and then so many times more; the last answer.
    fn paint(&mut self, action: Action, r: Record, buffers: &mut Buffers) -> u8 {
        let t = count(self.lengths.tables, &buffers.tables);
        let p = count(self.lengths.pictures, &buffers.pictures);
        let f = count(self.lengths.floats, &buffers.floats);
        let lent = Lent {
            tables: &buffers.tables[..t],
            pictures: &buffers.pictures[..p],
            floats: &buffers.floats[..f],
        };
        let mut answer = self.paint_once(action, r, lent, &mut buffers.out);
        for _ in 0..self.more {
            answer = self.paint_once(action, r, lent, &mut buffers.out);
        }
        answer
    }

    // A run of puts or of writes: its answer, and how many of its items were done.
    fn run(&mut self, action: Action, r: Record, buffers: &mut Buffers) -> (u8, usize) {
        let pictures = &buffers.pictures;
        let rest = &pictures[count(r.a, pictures)..];
        let run = &rest[..count(r.b, rest)];
        if action == Action::WriteRun {
            return self.screen.write_run(run);
        }
        let tables = &mut buffers.tables;
        let t = count(self.lengths.tables, tables);
        self.screen.put_run(&mut tables[..t], run)
    }

    fn fill(&mut self, out: &mut [u8]) -> u8 {
        let n = count(self.lengths.out, out);
        self.screen.fill(&mut out[..n])
    }

    // What a record asks for is done; of one that makes no call the answer is 0. A letter that means nothing
    // changes nothing.
    pub fn play(&mut self, r: Record, buffers: &mut Buffers) {
        let action = r.action();
        change(action, r, buffers);
        self.answer = 0;
        self.done = 0;
        match action {
            Action::Renew => {
                buffers.clear();
                *self = Stage::new(r.a, r.b != 0);
            }
            Action::Lend => self.lend(r.a, r.b),
            Action::Repeat => self.more = r.a % 1024,
            Action::Write => self.answer = self.screen.write(r.a, r.b),
            Action::Select => self.answer = self.screen.select(r.a),
            Action::Toggle => self.answer = self.screen.toggle(r.a),
            Action::Start => self.answer = self.screen.start(),
            Action::Put => self.answer = self.put(r, &mut buffers.tables),
            Action::Fill => self.answer = self.fill(&mut buffers.out),
            Action::PutRun | Action::WriteRun => {
                (self.answer, self.done) = self.run(action, r, buffers);
            }
            Action::Band | Action::Frame | Action::Line => {
                self.answer = self.paint(action, r, buffers);
            }
            _ => {}
        }
    }
}
