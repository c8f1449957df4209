// Document 01, the first lines of "Layout": the sides of a plane, how many slices there are, and the rows of a place, of a geometry that
// refusals 1 to 3 left. None of them can run over: sides are at most 16,384, planes at most 4.
#![tactic(auto)]

ghost use Rattle.std.specs.Prelude.{◌≡◌, ◌<◌, ◌≤◌};
ghost use Rattle.scope.specs.Geometry.{slices_per_plane, slice_count, small, plane_width, plane_height, plane_slice_height, rows_at};

use geometry::{SoundGeometry, is_subsampled, plane_count};
use scope::Geometry;

// ---- a plane

// Whether plane p is one of those that the factors divide.
fn is_small(g: Geometry, p: usize) -> bool
    ensures { result ≡ small g p }
{
    let f = g.family;
    if is_subsampled(f) {
        if p == 1 {
            return true;
        }
        return p == 2;
    }
    false
}

// The three sides below are told by their fields alone; a function for all would be given the field and the factor, which is the whole of each.

pub fn plane_width(g: SoundGeometry, p: usize) -> usize
    ensures { (result ≡ plane_width g.of p) × (1 ≤ result) × (result ≤ 16384) }
{
    if is_small(g.of, p) {
        return g.of.width / g.of.sx;
    }
    g.of.width
}

pub fn plane_height(g: SoundGeometry, p: usize) -> usize
    ensures { (result ≡ plane_height g.of p) × (1 ≤ result) × (result ≤ 16384) }
{
    if is_small(g.of, p) {
        return g.of.height / g.of.sy;
    }
    g.of.height
}

pub fn plane_slice_height(g: SoundGeometry, p: usize) -> usize
    ensures { (result ≡ plane_slice_height g.of p) × (1 ≤ result) × (result ≤ 16384) }
{
    if is_small(g.of, p) {
        return g.of.slice_height / g.of.sy;
    }
    g.of.slice_height
}

// ---- the slices

// K
pub fn slices_per_plane(g: SoundGeometry) -> usize
    ensures { (result ≡ slices_per_plane g.of) × (1 ≤ result) × (result ≤ 16384) }
{
    (g.of.height + (g.of.slice_height - 1)) / g.of.slice_height
}

// T
pub fn slice_count(g: SoundGeometry) -> usize
    ensures { (result ≡ slice_count g.of) × (1 ≤ result) × (result ≤ 65536) }
{
    let f = g.of.family;
    let planes = plane_count(f);
    let k = slices_per_plane(g);
    planes * k
}

// How many rows it has.
pub fn place_rows(g: SoundGeometry, p: usize, k: usize) -> usize
    requires { k < slices_per_plane g.of }
    ensures { (result ≡ rows_at g.of p k) × (1 ≤ result) × (result ≤ 16384) }
{
    let full = plane_slice_height(g, p);
    let h = plane_height(g, p);
    let left = h - k * full;
    full.min(left)
}
