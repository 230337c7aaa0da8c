// A step for each layer, as all but the first of the mending take one.
ghost use Rattle.std.specs.Prelude.{ℕ, ◌<◌};
ghost use Rattle.repair.specs.Layers.{Steps};

// The words after the steps for layers 0 to 7, in that order.
#[tactic(auto, using(crate::proofs::Hints::turns), unfolding(crate::specs::Layers::Steps))]
pub fn each_layer<F: Fn([u32; 52], usize) -> [u32; 52]>(mut w: [u32; 52], step: F) -> [u32; 52]
    requires { (v : _) (n : ℕ) → n < 8 → F.pre step v n }
    ensures { Steps (λ n v r. F.post step v n r) 8 w result }
{
    for n in 0..8 {
        let next = step(w, n);
        w = next;
    }
    w
}
