// A line in, a line out: an image's digits are read, the image is mended, and the reply is made as bytes,
// one part behind the other, so that one place prints.
ghost use Rattle.std.specs.Prelude.{◌≡◌, ◌++◌, ◌+◌, ◌*◌, ◌/◌, ◌≤◌, length, take};
ghost use Rattle.lists.specs.Over.{over};
ghost use Rattle.mend.specs.Sizes.{image_bytes, change_len, longest_reply, longest_line};
ghost use Rattle.mend.specs.Line.{listed_at, listed_words, mend_reply, line_reply, mend_line};

use crate::sizes::{IMAGE_DIGITS, LIST_LEN, LONGEST_LINE, LONGEST_REPLY};
use answers::DONE;
use numbers::filled;
use repair::spoonwing_mend;
use texts::{BAD_FORM, print_line};
use words::image::IMAGE_LEN;

// A part behind the first n bytes of a reply; how many it has with it.
fn put(part: &[u8], n: usize, reply: &mut [u8]) -> usize
    requires { n + length part.now ≤ length reply.old }
    ensures { (result ≡ n + length part.now)
        × (take result reply.new ≡ take n reply.old ++ part.now) }
{
    octets::copy(part, &mut reply[n..]);
    n + part.len()
}

// A changed word, whose register, old value and new value stand in the list from `at` on.
fn put_change(list: &[u32], at: usize, n: usize, reply: &mut [u8]) -> usize
    requires { (at + 3 ≤ length list.now) × (n + change_len ≤ length reply.old) }
    ensures { (result ≡ n + change_len)
        × (take result reply.new ≡ take n reply.old ++ listed_at list.now at) }
{
    let register = [(list[at] % 256) as u8];
    let old = list[at + 1].to_be_bytes();
    let new = list[at + 2].to_be_bytes();
    let before_old = put(&register, n, reply);
    let before_new = put(&old, before_old, reply);
    put(&new, before_new, reply)
}

// All that a list names, three numbers each.
fn put_changes(list: &[u32], from: usize, reply: &mut [u8]) -> usize
    requires { from + change_len * (length list.now / 3) ≤ length reply.old }
    ensures { (result ≡ from + change_len * (length list.now / 3))
        × (take result reply.new ≡ take from reply.old ++ listed_words (length list.now / 3) list.now) }
{
    let mut n = from;
    for i in 0..list.len() / 3 {
        n = put_change(list, 3 * i, n, reply);
    }
    n
}

// An image's reply. A refusal has no more than its number.
fn reply_to(image: &mut [u8], reply: &mut [u8]) -> usize
    requires { (length image.old ≡ image_bytes) × (length reply.old ≡ longest_reply) }
    ensures { (take result reply.new ≡ mend_reply image.old) × (result ≤ longest_reply) }
{
    let mut list: [u32; LIST_LEN] = filled(0);
    let mut count: usize = 0;
    let answer = spoonwing_mend(image, &mut list, &mut count);
    let n = put(&[answer as u8], 0, reply);
    if answer != u32::from(DONE) {
        return n;
    }
    let from = put(image, n, reply);
    put_changes(&list[..3 * count], from, reply)
}

// A line's reply.
fn answer(text: &[u8], reply: &mut [u8]) -> usize
    requires { length reply.old ≡ longest_reply }
    ensures { (take result reply.new ≡ line_reply text.now) × (result ≤ longest_reply) }
{
    if text.len() != IMAGE_DIGITS {
        return put(&[BAD_FORM], 0, reply);
    }
    let mut image: [u8; IMAGE_LEN] = filled(0);
    let Some(n) = hexadecimal::read_bytes(text, &mut image) else {
        return put(&[BAD_FORM], 0, reply);
    };
    reply_to(&mut image[..n], reply)
}

// Prints what a line, without its line feed, is answered; how many bytes.
pub fn run_line(text: &[u8], out: &mut [u8; LONGEST_LINE]) -> usize
    ensures count { result ≡ length (mend_line text.now) }
    ensures output { out.new ≡ over (mend_line text.now) out.old }
    ensures fits { result ≤ longest_line }
{
    let mut reply: [u8; LONGEST_REPLY] = filled(0);
    let n = answer(text, &mut reply);
    print_line(&reply[..n], out)
}
