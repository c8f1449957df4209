// Document 01, "What comes in": what a family and a depth say by themselves, and the type of a geometry that refusals 1 to 3 left. The
// laws of all figures of a geometry stand in proofs/.
#![tactic(auto)]

ghost use Rattle.std.specs.Prelude.{◌≡◌, ◌≤◌, ◌^◌};
ghost use Rattle.scope.specs.Geometry.{planes_of, subsampled, correlated, fields};
ghost use Rattle.geometry.specs.Sound.{Sound};

use scope::{Family, Geometry};

// A geometry that refusals 1 to 3 left.
#[derive(Clone, Copy)]
pub struct SoundGeometry {
    pub of: Geometry,
    pub ghost sound: { Sound of },
}

// P
pub fn plane_count(f: Family) -> usize
    ensures { result ≡ planes_of f }
{
    match f {
        Family::Gray => 1,
        Family::Rgb => 3,
        Family::Yuv => 3,
        Family::Rgba => 4,
        Family::Yuva => 4,
    }
}

// Whether the factors divide planes 1 and 2.
pub fn is_subsampled(f: Family) -> bool
    ensures { result ≡ subsampled f }
{
    match f {
        Family::Gray => false,
        Family::Rgb => false,
        Family::Yuv => true,
        Family::Rgba => false,
        Family::Yuva => true,
    }
}

// Whether B and R are stored less G.
pub fn is_correlated(f: Family) -> bool
    ensures { result ≡ correlated f }
{
    match f {
        Family::Gray => false,
        Family::Rgb => true,
        Family::Yuv => false,
        Family::Rgba => true,
        Family::Yuva => false,
    }
}

// f: how many fields the rows belong to in turn.
pub fn fields_of(g: Geometry) -> usize
    ensures { (result ≡ fields g) × (1 ≤ result) × (result ≤ 2) }
{
    if g.interlaced {
        return 2;
    }
    1
}

// How many lengths each plane has.
pub fn symbol_count(depth: usize) -> usize
    requires { depth ≤ 14 }
    ensures { (result ≡ 2 ^ depth) × (1 ≤ result) × (result ≤ 16384) }
{
    let n: usize = 1 << depth;
    n
}
