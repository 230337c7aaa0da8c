// Prints the bench figures of document 01, and then does what the script on standard input asks of
// a display and its buffers, a line a record. The second display works out the same lines. A read or a write
// that fails ends the program.
#![tactic(auto)]

use std::io;

mod bench;
mod blends;
mod buffers;
mod checksum;
mod fades;
mod print;
mod record;
mod screen;
mod script;
mod stage;

fn main(rt: HostRuntime) -> io::Result<()> {
    bench::show(&rt)?;
    script::run(&rt)
}
