// A display whose layers are arranged, as painting asks: its calls, and the screens that the figures begin with.
#![tactic(auto, using(crate::proofs::Kept::kept))]

ghost use Rattle.std.specs.Prelude.{◌≡◌};
ghost use Rattle.display.specs.State.{new_of, write_of, select_of, toggle_of, start_of};
ghost use Rattle.display.specs.Put.{put_of, put_tables};
ghost use Rattle.display.specs.Runs.{put_run_of, put_run_tables, write_run_of};
ghost use Rattle.display.specs.Paint.{fill_told, fill_bytes, paint_told, paint_bytes, frame_told, frame_bytes};
ghost use Rattle.display.specs.Paint.{line_told, line_bytes};
ghost use Rattle.display.specs.Reached.{Arranged};
ghost use Rattle.figures.specs.Often.{often};

use display::Display;

// Display on, update enable.
const ON: u32 = 5;

// In a layer's alpha word: the alpha is the whole layer's.
pub const GLOBAL: u32 = 2147483648;

// What is lent to a painting to read.
#[derive(Clone, Copy)]
pub struct Lent<'a> {
    pub tables: &'a [u8],
    pub pictures: &'a [u8],
    pub floats: &'a [f32],
}

// Each call answers its number; a run also how many of its items were done.
#[derive(Clone, Copy)]
pub struct Screen {
    display: Display,
    ghost arranged: { Arranged display },
}

impl Screen {
    // A fresh display, and what making it answers.
    pub fn new(bits: u32, floats: bool) -> (Screen, u8)
        ensures state { result.0.display ≡ (new_of bits floats).state }
        ensures answer { result.1 ≡ (new_of bits floats).answer }
    {
        let told = Display::new(bits, floats);
        let display = told.state;
        (Screen { display }, told.answer)
    }

    // One of that size, its height in the upper half, before its start.
    pub fn sized(size: u32) -> Screen {
        let (mut screen, _) = Screen::new(1, false);
        screen.write(0, ON);
        screen.write(1, size);
        screen
    }

    // The same with frame layer 0 all over it.
    pub fn covered(size: u32) -> Screen {
        let mut screen = Screen::sized(size);
        screen.write(4, 1);
        screen.write(7, size);
        screen
    }

    // The display as it is now, to be read.
    pub fn display(self) -> Display
        ensures { result ≡ self.display }
    {
        self.display
    }

    pub fn write(&mut self, register: u32, value: u32) -> u8
        ensures state { self.new.display ≡ (write_of self.old.display register value).state }
        ensures answer { result ≡ (write_of self.old.display register value).answer }
    {
        let told = self.display.write(register, value);
        self.display = told.state;
        told.answer
    }

    pub fn select(&mut self, selection: u32) -> u8
        ensures state { self.new.display ≡ (select_of self.old.display selection).state }
        ensures answer { result ≡ (select_of self.old.display selection).answer }
    {
        let told = self.display.select(selection);
        self.display = told.state;
        told.answer
    }

    pub fn toggle(&mut self, bits: u32) -> u8
        ensures state { self.new.display ≡ (toggle_of self.old.display bits).state }
        ensures answer { result ≡ (toggle_of self.old.display bits).answer }
    {
        let told = self.display.toggle(bits);
        self.display = told.state;
        told.answer
    }

    pub fn start(&mut self) -> u8
        ensures state { self.new.display ≡ (start_of self.old.display).state }
        ensures answer { result ≡ (start_of self.old.display).answer }
    {
        let told = self.display.start();
        self.display = told.state;
        told.answer
    }

    pub fn put(&mut self, tables: &mut [u8], byte: u8) -> u8
        ensures state { self.new.display ≡ (put_of self.old.display tables.old).state }
        ensures answer { result ≡ (put_of self.old.display tables.old).answer }
        ensures tables { tables.new ≡ put_tables self.old.display tables.old byte }
    {
        let told = self.display.put(tables, byte);
        self.display = told.state;
        told.answer
    }

    // A byte put once and then so many times more; the last answer. The display is kept apart until then: each time that
    // the screen took it back it was copied.
    pub fn put_often(&mut self, tables: &mut [u8], byte: u8, more: u32) -> u8
        ensures state { self.new.display ≡ (often more self.old.display tables.old byte).0.state }
        ensures answer { result ≡ (often more self.old.display tables.old byte).0.answer }
        ensures tables { tables.new ≡ (often more self.old.display tables.old byte).1 }
    {
        let mut told = self.display.put(tables, byte);
        for _ in 0..more {
            told = told.state.put(tables, byte);
        }
        self.display = told.state;
        told.answer
    }

    pub fn put_run(&mut self, tables: &mut [u8], run: &[u8]) -> (u8, usize)
        ensures state { self.new.display ≡ (put_run_of self.old.display tables.old run.now).state }
        ensures answer { result ≡ ((put_run_of self.old.display tables.old run.now).answer, (put_run_of self.old.display tables.old run.now).done) }
        ensures tables { tables.new ≡ put_run_tables self.old.display tables.old run.now }
    {
        let ran = self.display.put_run(tables, run);
        self.display = ran.state;
        (ran.answer, ran.done)
    }

    pub fn write_run(&mut self, run: &[u8]) -> (u8, usize)
        ensures state { self.new.display ≡ (write_run_of self.old.display run.now).state }
        ensures answer { result ≡ ((write_run_of self.old.display run.now).answer, (write_run_of self.old.display run.now).done) }
    {
        let ran = self.display.write_run(run);
        self.display = ran.state;
        (ran.answer, ran.done)
    }

    pub fn fill(&mut self, out: &mut [u8]) -> u8
        ensures state { self.new.display ≡ (fill_told self.old.display out.old).state }
        ensures answer { result ≡ (fill_told self.old.display out.old).answer }
        ensures output { out.new ≡ fill_bytes self.old.display out.old }
    {
        let told = self.display.fill(out);
        self.display = told.state;
        told.answer
    }

    pub fn paint(&mut self, low: u32, high: u32, lent: Lent, out: &mut [u8]) -> u8
        ensures state { self.new.display ≡ (paint_told self.old.display low high lent.entry.tables.now lent.entry.pictures.now lent.entry.floats.now out.old).state }
        ensures answer { result ≡ (paint_told self.old.display low high lent.entry.tables.now lent.entry.pictures.now lent.entry.floats.now out.old).answer }
        ensures output { out.new ≡ paint_bytes self.old.display low high lent.entry.tables.now lent.entry.pictures.now lent.entry.floats.now out.old }
    {
        let told = self
            .display
            .paint(low, high, lent.tables, lent.pictures, lent.floats, out);
        self.display = told.state;
        told.answer
    }

    pub fn frame(&mut self, lent: Lent, out: &mut [u8]) -> u8
        ensures state { self.new.display ≡ (frame_told self.old.display lent.entry.tables.now lent.entry.pictures.now lent.entry.floats.now out.old).state }
        ensures answer { result ≡ (frame_told self.old.display lent.entry.tables.now lent.entry.pictures.now lent.entry.floats.now out.old).answer }
        ensures output { out.new ≡ frame_bytes self.old.display lent.entry.tables.now lent.entry.pictures.now lent.entry.floats.now out.old }
    {
        let told = self
            .display
            .frame(lent.tables, lent.pictures, lent.floats, out);
        self.display = told.state;
        told.answer
    }

    pub fn line(&mut self, y: u32, lent: Lent, out: &mut [u8]) -> u8
        ensures state { self.new.display ≡ (line_told self.old.display y lent.entry.tables.now lent.entry.pictures.now lent.entry.floats.now out.old).state }
        ensures answer { result ≡ (line_told self.old.display y lent.entry.tables.now lent.entry.pictures.now lent.entry.floats.now out.old).answer }
        ensures output { out.new ≡ line_bytes self.old.display y lent.entry.tables.now lent.entry.pictures.now lent.entry.floats.now out.old }
    {
        let told = self
            .display
            .line(y, lent.tables, lent.pictures, lent.floats, out);
        self.display = told.state;
        told.answer
    }
}
