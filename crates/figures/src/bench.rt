// The bench figures of document 01, each by the calls that a user makes: a name, and the number
// that came out.
use crate::buffers::{TABLES_LEN, byte_at};
use crate::print::figure;
use crate::screen::{Lent, Screen};
use numbers::filled;
use std::io;

fn blend(rt: &impl Print, name: &[u8], a: u8, over: u8, under: u8) -> io::Result<()> {
    figure(rt, name, u32::from(mix::blend(a, over, under)))
}

fn show_blend(rt: &impl Print) -> io::Result<()> {
    blend(rt, b"blend 128 255 0: ", 128, 255, 0)?;
    blend(rt, b"blend 127 255 0: ", 127, 255, 0)?;
    blend(rt, b"blend 128 1 0: ", 128, 1, 0)?;
    blend(rt, b"blend 127 1 0: ", 127, 1, 0)?;
    blend(rt, b"blend 85 200 100: ", 85, 200, 100)?;
    blend(rt, b"blend 1 0 255: ", 1, 0, 255)?;
    blend(rt, b"blend 0 9 77: ", 0, 9, 77)?;
    blend(rt, b"blend 255 9 77: ", 255, 9, 77)
}

// From 0 to 255 over 4 frames.
fn fade_up(rt: &impl Print, name: &[u8], start: u32, frame: u32) -> io::Result<()> {
    figure(rt, name, u32::from(mix::fade(0, 255, 4, start, frame)))
}

fn show_fade(rt: &impl Print) -> io::Result<()> {
    fade_up(rt, b"fade at 99: ", 100, 99)?;
    fade_up(rt, b"fade at 101: ", 100, 101)?;
    fade_up(rt, b"fade at 102: ", 100, 102)?;
    fade_up(rt, b"fade at 103: ", 100, 103)?;
    fade_up(rt, b"fade at 104: ", 100, 104)?;
    fade_up(rt, b"fade over the wrap: ", 4294967294, 0)?;
    figure(
        rt,
        b"fade of 3, e 1: ",
        u32::from(mix::fade(255, 0, 3, 0, 1)),
    )?;
    fade_up(rt, b"fade at e 2147483647: ", 0, 2147483647)?;
    fade_up(rt, b"fade at e 2147483648: ", 0, 2147483648)
}

// Puts bytes into a table, from its first on.
fn load(screen: &mut Screen, tables: &mut [u8], selection: u32, bytes: &[u8]) {
    screen.select(selection);
    for byte in bytes {
        screen.put(tables, *byte);
    }
}

// A box 2..5 by 1..3 in colour 7, in bank 1 of controller 0; the rest of the list is END.
fn load_box(screen: &mut Screen, tables: &mut [u8], weight: u8) {
    let list = [2, 80, 0, 160, 0, 0, 0, 0, 1, 48, 0, weight, 7, 0, 0, 0];
    let mut colours = [0u8; 32];
    colours[28] = 7;
    colours[31] = 255;
    load(screen, tables, 1, &list);
    load(screen, tables, 3, &colours);
}

// A layer of 8 by 4 pixels all over its screen, drawn from bank 1, started.
fn start_box(screen: &mut Screen) {
    screen.write(3, 257);
    screen.write(4, 3);
    screen.write(7, 4 * 65536 + 8);
    screen.start();
}

// A byte of the frame with the box. Channel 0 of a pixel is 7 where it is drawn.
fn show_byte(rt: &impl Print, name: &[u8], weight: u8, at: usize) -> io::Result<()> {
    let mut tables = filled::<u8, TABLES_LEN>(0);
    let none: [f32; 0] = [];
    let mut out = [0u8; 128];
    let mut screen = Screen::sized(4 * 65536 + 8);
    load_box(&mut screen, &mut tables, weight);
    start_box(&mut screen);
    let lent = Lent {
        tables: &tables,
        pictures: b"",
        floats: &none,
    };
    screen.frame(lent, &mut out);
    figure(rt, name, u32::from(byte_at(&out, at)))
}

fn show_box(rt: &impl Print) -> io::Result<()> {
    show_byte(rt, b"box weight 1 at 3 2: ", 1, 4 * (8 * 2 + 3))?;
    show_byte(rt, b"box weight 1 at 2 2: ", 1, 4 * (8 * 2 + 2))?;
    show_byte(rt, b"box weight 1 at 6 3: ", 1, 4 * (8 * 3 + 6))?;
    show_byte(rt, b"box weight 2 at 3 2: ", 2, 4 * (8 * 2 + 3))
}

// Layer 0 at x 1900 of a screen that is 1920 wide, started.
fn start_with_width(width: u32) -> u8 {
    let mut screen = Screen::sized(1080 * 65536 + 1920);
    screen.write(4, 1);
    screen.write(6, 1900);
    screen.write(7, width);
    screen.start()
}

fn show_start(rt: &impl Print) -> io::Result<()> {
    figure(
        rt,
        b"x 1900, width 20: ",
        u32::from(start_with_width(65536 + 20)),
    )?;
    figure(
        rt,
        b"x 1900, width 21: ",
        u32::from(start_with_width(65536 + 21)),
    )
}

// Frame layers of 3 by 2 and 1 by 1 pixels painted with that many picture bytes.
fn paint_with(pictures: &[u8]) -> u8 {
    let tables = filled::<u8, TABLES_LEN>(0);
    let none: [f32; 0] = [];
    let mut out = [0u8; 64];
    let mut screen = Screen::sized(4 * 65536 + 4);
    screen.write(4, 1);
    screen.write(7, 2 * 65536 + 3);
    screen.write(10, 257);
    screen.write(13, 65536 + 1);
    screen.start();
    let lent = Lent {
        tables: &tables,
        pictures,
        floats: &none,
    };
    screen.paint(0, 8, lent, &mut out)
}

fn show_pictures(rt: &impl Print) -> io::Result<()> {
    let pictures = [0u8; 29];
    figure(
        rt,
        b"28 picture bytes: ",
        u32::from(paint_with(&pictures[..28])),
    )?;
    figure(
        rt,
        b"27 picture bytes: ",
        u32::from(paint_with(&pictures[..27])),
    )?;
    figure(rt, b"29 picture bytes: ", u32::from(paint_with(&pictures)))
}

fn show_toggle(rt: &impl Print) -> io::Result<()> {
    let (mut screen, _) = Screen::new(1, false);
    screen.toggle(17);
    figure(rt, b"error word: ", screen.display().error_word())?;
    screen.toggle(16);
    figure(rt, b"toggled by 16: ", screen.display().error_word())?;
    screen.toggle(16);
    figure(rt, b"and again: ", screen.display().error_word())
}

pub fn show(rt: &impl Print) -> io::Result<()> {
    show_blend(rt)?;
    show_fade(rt)?;
    show_box(rt)?;
    show_start(rt)?;
    show_pictures(rt)?;
    show_toggle(rt)
}
