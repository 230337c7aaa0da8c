// The fades of one length at their edges: 6 values to 6 targets, at frames around their begin,
// middle and end, where the difference of frames turns over, and far away; from 6 starts.
use crate::buffers::TABLES_LEN;
use crate::checksum::{NONE, with_byte};
use crate::print;
use crate::screen::{GLOBAL, Lent, Screen};
use numbers::filled;
use std::io;

const CASES: usize = 6 * 6 * 3 * 16 * 6;

// The cases of one start: painting counts from its own frame number, so another shows no more.
const PAINTED: usize = 6 * 6 * 3 * 16;

const VALUES: [u8; 6] = [0, 1, 127, 128, 200, 255];

const STARTS: [u32; 6] = [0, 1, 100, 2147483647, 2147483648, 4294967295];

// Frames from a place of the fade: a few and many ahead, 2^31 ahead, and behind.
const AWAY: [u32; 16] = [
    0, 1, 2, 3, 4, 128, 32768, 2147483646, 2147483647, 2147483648, 2147483649, 4294934528,
    4294967292, 4294967293, 4294967294, 4294967295,
];

const ONE_PIXEL: u32 = 65536 + 1;

#[derive(Clone, Copy)]
struct Case {
    value: u8,
    target: u8,
    start: u32,
    frame: u32,
}

// The begin, the middle or the end of a fade, counted from its start.
fn place_of(part: usize, length: u16) -> u32 {
    match part {
        0 => 0,
        1 => u32::from(length / 2),
        _ => u32::from(length),
    }
}

fn case_of(i: usize, length: u16) -> Case {
    let place = place_of(i / 36 % 3, length);
    let since = place.wrapping_add(AWAY[i / 108 % 16]);
    let start = STARTS[i / 1728 % 6];
    Case {
        value: VALUES[i % 6],
        target: VALUES[i / 6 % 6],
        start: start,
        frame: start.wrapping_add(since),
    }
}

// The case's fade on a screen, started. Its frame number is then 1, so the fade's start lies
// as far from there as the case's lies from its frame.
fn start_fade(screen: &mut Screen, case: Case, length: u16) {
    let since = case.frame.wrapping_sub(case.start);
    screen.write(5, GLOBAL + u32::from(case.value));
    screen.write(8, 1u32.wrapping_sub(since));
    screen.write(9, u32::from(case.target) * 65536 + u32::from(length));
    screen.start();
}

// White over black gives the alpha itself.
fn painted(mut screen: Screen, case: Case, length: u16, tables: &[u8]) -> u8 {
    let none: [f32; 0] = [];
    let mut out = [0u8; 4];
    start_fade(&mut screen, case, length);
    let lent = Lent {
        tables,
        pictures: b"\xff\xff\xff\x00",
        floats: &none,
    };
    screen.paint(0, 8, lent, &mut out);
    out[0]
}

fn called_sum(length: u16) -> u32 {
    let mut sum = NONE;
    for i in 0..CASES {
        let c = case_of(i, length);
        sum = with_byte(sum, mix::fade(c.value, c.target, length, c.start, c.frame));
    }
    sum
}

fn painted_sum(length: u16, tables: &[u8]) -> u32 {
    let mut sum = NONE;
    let screen = Screen::covered(ONE_PIXEL);
    for i in 0..PAINTED {
        sum = with_byte(sum, painted(screen, case_of(i, length), length, tables));
    }
    sum
}

// Two checksums: by `mix::fade`, and as painted.
pub fn show(rt: &impl Print, length: u16) -> io::Result<()> {
    let tables = filled::<u8, TABLES_LEN>(0);
    print::letter(rt, b'E')?;
    print::column(rt, u32::from(length), 4)?;
    print::column(rt, called_sum(length), 8)?;
    print::column(rt, painted_sum(length, &tables), 8)?;
    print::end_line(rt)
}
