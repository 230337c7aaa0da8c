// Step 1: reserved bits.
ghost use Rattle.std.specs.Prelude.{◌≡◌, ◌<◌};
ghost use Rattle.repair.specs.Steps.{cleared_at, cleared};

use starts::RESERVED;

// Word i without its reserved bits.
#[tactic(auto, using(crate::proofs::Hints::turns), unfolding(crate::specs::Steps::cleared_at))]
fn clear_word(w: &[u32; 52], i: usize) -> u32
    requires { i < 52 }
    ensures { result ≡ cleared_at w.now i }
{
    w[i] - (w[i] & RESERVED[i])
}

#[tactic(auto, using(crate::proofs::Hints::turns), unfolding(crate::specs::Steps::cleared))]
pub fn clear(w: &[u32; 52]) -> [u32; 52]
    ensures { result ≡ cleared w.now }
{
    let mut words: [u32; 52] = [0; 52];
    for i in 0..52 {
        words[i] = clear_word(w, i);
    }
    words
}
