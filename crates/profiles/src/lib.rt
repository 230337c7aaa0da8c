// What is chosen when a state is made and stays with it. A state and a scene hold one; a definition takes
// the part of it that it needs.
#![tactic(auto)]

ghost use Rattle.std.specs.Prelude.{◌≡◌, ◌<◌, ◌≤◌};
ghost use Rattle.profiles.specs.Profile.{bits_of};

#[derive(Clone, Copy)]
pub struct Profile {
    // Whether a pixel of a glyph has two bits; else it has one.
    pub soft: bool,
    // Whether float layers are let in.
    pub floats: bool,
}

// The bits of a glyph's pixel.
pub fn bits_of(profile: Profile) -> usize
    ensures { (result ≡ bits_of profile) × (0 < result) × (result ≤ 2) }
{
    if profile.soft {
        return 2;
    }
    1
}
