// What the program writes: names with decimal numbers, and columns of hexadecimal digits.
use std::io;

// A figure: its name, its number, and the line's end.
pub fn figure(rt: &impl Print, name: &[u8], number: u32) -> io::Result<()> {
    rt.write_all(name)?;
    println!(rt; "{number}")
}

pub fn letter(rt: &impl Print, byte: u8) -> io::Result<()> {
    rt.write_all(&[byte])
}

// A space and that many digits.
pub fn column(rt: &impl Print, number: u32, digits: usize) -> io::Result<()> {
    print!(rt; " {number:0digits$x}")
}

pub fn end_line(rt: &impl Print) -> io::Result<()> {
    rt.write_all(b"\n")
}
