// Lines of hexadecimal: gathered from blocks of bytes, and printed. Nothing here knows what a line says.
#![tactic(auto)]

ghost use Rattle.std.specs.Prelude.{◌≡◌, ◌+◌, ◌*◌, ◌≤◌, length, take};
ghost use Rattle.lists.specs.Over.{over};
ghost use Rattle.texts.specs.Lines.{kept_of};
ghost use Rattle.texts.specs.Replies.{reply_text};
ghost use Rattle.texts.specs.Engine.Gathers.{line_with, gathered_of};

// What ends a line, read or printed.
pub const LINE_FEED: u8 = 10;

// Printed FE.
pub const BAD_FORM: u8 = 254;

// What a block has brought to a line. Its numbers are good whether the line has ended or not, so that whether it has
// is a field beside them.
#[derive(Clone, Copy)]
pub struct Gathered {
    // How many bytes of the line have come; they stand at the front of the text.
    pub kept: usize,
    // How many bytes of the block are used up.
    pub used: usize,
    pub ended: bool,
}

// The bytes of a part behind those of the line that have come; how many are now kept. The text is
// never longer than its buffer: what has no room there is left out.
fn keep(text: &mut [u8], held: usize, part: &[u8]) -> usize
    ensures { (result ≡ length (kept_of (length text.old) (take held text.old)
        part.now)) × (result ≤ length text.old)
        × (text.new ≡ over (kept_of (length text.old) (take held text.old)
        part.now) text.old) }
{
    let most = text.len();
    let n = held.min(most);
    let m = part.len().min(most - n);
    octets::copy(&part[..m], &mut text[n..]);
    n + m
}

// On to the end of one line at most: its bytes are kept behind those that are held. A line that has
// ended may be longer than what is kept of it. What is held is a number beside the text, and no slice of it, since a
// line grows in memory that is lent and fixed.
pub fn gather(text: &mut [u8], held: usize, block: &[u8]) -> Gathered
    ensures value { result ≡ gathered_of text.old held block.now }
    ensures text_after { text.new
        ≡ over (line_with text.old held block.now) text.old }
    ensures kept_in_bounds { (result.kept ≤ length text.old) × (result.used ≤ length block.now) }
{
    let at = octets::find(block, LINE_FEED);
    let kept = keep(text, held, &block[..at]);
    if at < block.len() {
        return Gathered {
            kept,
            used: at + 1,
            ended: true,
        };
    }
    Gathered {
        kept,
        used: at,
        ended: false,
    }
}

// A reply's digits and its line feed, to the front of `out`; how many bytes they are.
pub fn print_line(reply: &[u8], out: &mut [u8]) -> usize
    requires { 2 * length reply.now + 1 ≤ length out.old }
    ensures { (result ≡ length (reply_text reply.now))
        × (out.new ≡ over (reply_text reply.now) out.old) }
{
    let n = 2 * reply.len();
    hexadecimal::print_bytes(reply, out);
    out[n] = LINE_FEED;
    n + 1
}
