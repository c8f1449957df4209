// Document 01, "Refusal numbers", 5 to 8: whether the frame's entries and its preamble are there, and whether every plane gets its K
// slices. Nothing is written.
#![tactic(auto)]

ghost use Rattle.std.specs.Prelude.{◌≡◌};
ghost use Rattle.scope.specs.Geometry.{slice_count};
ghost use Rattle.scope.specs.Pieces.{in_order, preamble_checks, index_check};
ghost use Rattle.preamble.specs.Layout.{layout_checks};

use geometry::{SoundGeometry, plane_count};
use layout::{count_byte, plane_index, preamble_end};
use scope::{Answer, Place, Refusal};
use sides::{slice_count, slices_per_plane};

// 5, 6 and 7: the entries, and the preamble's plane count and indices.
fn check_preamble(frame: &[u8], g: SoundGeometry) -> Answer
    ensures { result ≡ preamble_checks frame.now g.of }
{
    let t = slice_count(g);
    let start = 32 + 4 * (t + 1);
    if frame.len() < start {
        return Err(Refusal(5, Place::Nothing));
    }
    let end = preamble_end(frame);
    if end < start {
        return Err(Refusal(6, Place::Nothing)); // it ends before it starts
    }
    if frame.len() < end {
        return Err(Refusal(6, Place::Nothing)); // or past the frame
    }
    if end == start {
        return Err(Refusal(6, Place::Nothing)); // or is empty
    }
    let f = g.of.family;
    let planes = plane_count(f);
    if count_byte(frame, g) != planes {
        return Err(Refusal(7, Place::Nothing));
    }
    if end < start + 1 + t {
        return Err(Refusal(6, Place::Nothing)); // or lacks indices
    }
    Ok(())
}

// 8: the first slice that names no plane, or one that has all its slices.
fn check_order(frame: &[u8], g: SoundGeometry) -> Answer
    ensures { result ≡ in_order (slice_count g.of) (index_check frame.now g.of) }
{
    let f = g.of.family;
    let planes = plane_count(f);
    let k = slices_per_plane(g);
    let t = slice_count(g);
    let mut seen = [0usize; 4];
    for s in 0..t {
        let p = plane_index(frame, g, s);
        let here = Place::Slice(s);
        if planes <= p {
            return Err(Refusal(8, here)); // no such plane
        }
        if k <= seen[p] {
            return Err(Refusal(8, here)); // it has its K
        }
        seen[p] += 1;
    }
    Ok(())
}

// The first of refusals 5 to 8.
pub fn check_layout(frame: &[u8], g: SoundGeometry) -> Answer
    ensures { result ≡ layout_checks frame.now g.of }
{
    check_preamble(frame, g)?;
    check_order(frame, g)
}
