// Where the parts of a line's bytes stand. Reads past the end give 0, so that places are told of any bytes: a line is
// good where its parts end exactly at its own end.
ghost use Rattle.std.specs.Prelude.{◌≡◌, ◌<◌, IfOk, IfErr};
ghost use Rattle.steps.specs.Form.{byte_at, count_at, word_at, writes_place};
ghost use Rattle.steps.specs.Engine.Parts.{places_of, parts_of};

// Where the number of writes and the picture byte count of a line stand.
#[derive(Clone, Copy)]
pub struct Parts {
    pub writes: usize,
    pub picture: usize,
}

// A number of two digits, or 0 past the end.
pub fn byte_at(b: &[u8], at: usize) -> usize
    ensures { (result ≡ byte_at b.now at) × (result < 256) }
{
    usize::from(b.get(at).copied().unwrap_or(0))
}

// A number of four digits. Places are far below the bound: a line has 4,096 bytes.
#[tactic(auto, unfolding(crate::specs::Form::count_at))]
pub fn count_at(b: &[u8], at: usize) -> usize
    requires { at < 1099511627776 }
    ensures { (result ≡ count_at b.now at) × (result < 65536) }
{
    256 * byte_at(b, at) + byte_at(b, at + 1)
}

// A number of eight digits.
#[tactic(auto, unfolding(crate::specs::Form::word_at))]
pub fn word_at(b: &[u8], at: usize) -> usize
    requires { at < 1000000000000 }
    ensures { (result ≡ word_at b.now at) × (result < 4294967296) }
{
    65536 * count_at(b, at) + count_at(b, at + 2)
}

// Where the loads end.
fn past_loads(b: &[u8]) -> usize
    ensures { (result ≡ writes_place b.now) × (result < 33554432) }
{
    let mut at: usize = 1;
    for _ in 0..byte_at(b, 0) {
        at = at + 3 + count_at(b, at + 1);
    }
    at
}

// Where the parts of a line stand, good or not.
pub fn places_of(b: &[u8]) -> Parts
    ensures { (result ≡ places_of b.now) × (result.writes < 33554432) × (result.picture < 67108864) }
{
    let writes = past_loads(b);
    let picture = writes + 1 + 5 * byte_at(b, writes);
    Parts { writes, picture }
}

// The parts of a line; of one that does not end where they do the same places, as an error.
pub fn parts_of(b: &[u8]) -> Result<Parts, Parts>
    ensures value { result ≡ parts_of b.now }
    ensures small { IfOk result (λ p. (p.writes < 33554432) × (p.picture < 67108864)) }
    ensures refused { IfErr result (λ p. (p.writes < 33554432) × (p.picture < 67108864)) }
{
    let parts = places_of(b);
    let end = parts.picture + 2 + count_at(b, parts.picture);
    if end == b.len() {
        return Ok(parts);
    }
    Err(parts)
}
