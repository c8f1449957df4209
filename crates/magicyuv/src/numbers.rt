// The eight numbers that the host lends for a geometry, and the geometry that they say. Document 01, "Both entries are callable from our
// Rust host on numbers and slices": a number that is none of the boundary's is refusal 1.
ghost use Rattle.std.specs.Prelude.{◌≡◌};
ghost use Rattle.magicyuv.specs.Boundary.{family_named, interlaced_named, geometry_said};

use scope::{Family, Geometry, Place, Refusal};

#[derive(Clone, Copy)]
pub struct Numbers {
    pub width: u32,
    pub height: u32,
    pub slice_height: u32,
    pub family: u32,
    pub sx: u32,
    pub sy: u32,
    pub depth: u32,
    pub interlaced: u32,
}

// The family of a number. An impl of TryFrom<u32> for Family would have to stand in crate scope, which has no function.
fn family(n: u32) -> Result<Family, Refusal>
    ensures { result ≡ family_named n }
{
    match n {
        0 => Ok(Family::Gray),
        1 => Ok(Family::Rgb),
        2 => Ok(Family::Yuv),
        3 => Ok(Family::Rgba),
        4 => Ok(Family::Yuva),
        _ => Err(Refusal(1, Place::Nothing)),
    }
}

// 0 and 1 for interlaced: of numbers to a bool there can be no impl of ours.
fn interlaced(n: u32) -> Result<bool, Refusal>
    ensures { result ≡ interlaced_named n }
{
    match n {
        0 => Ok(false),
        1 => Ok(true),
        _ => Err(Refusal(1, Place::Nothing)),
    }
}

impl TryFrom<Numbers> for Geometry {
    type Error = Refusal;

    ghost try_from_gives = { λ n r. r ≡ geometry_said n };

    fn try_from(n: Numbers) -> Result<Geometry, Refusal> {
        Ok(Geometry {
            width: n.width as usize,
            height: n.height as usize,
            slice_height: n.slice_height as usize,
            family: family(n.family)?,
            sx: n.sx as usize,
            sy: n.sy as usize,
            depth: n.depth as usize,
            interlaced: interlaced(n.interlaced)?,
        })
    }
}
