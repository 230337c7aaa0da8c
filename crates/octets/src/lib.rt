// A byte sought in a row of bytes, and a row of bytes copied to the front of another.
#![tactic(auto)]

ghost use Rattle.std.specs.Prelude.{◌≡◌, ◌≤◌, length};
ghost use Rattle.lists.specs.Over.{over};
ghost use Rattle.octets.specs.Bytes.{index_of};

// Where the byte first stands, or the length of a row that has none: a number either way, since callers take what
// stands before it.
pub fn find(row: &[u8], byte: u8) -> usize
    ensures value { result ≡ index_of byte row.now }
    ensures within { result ≤ length row.now }
{
    row.iter().position(|x| *x == byte).unwrap_or(row.len())
}

// The part, to the front of the row: byte by byte, since the library's copy would have the archive ask C for memmove,
// and compare two addresses, which a module for WebAssembly may not.
pub fn copy(part: &[u8], row: &mut [u8])
    requires { length part.now ≤ length row.old }
    ensures { row.new ≡ over part.now row.old }
{
    for (i, byte) in part.iter().enumerate() {
        row[i] = *byte;
    }
}
