// Document 01, "Refusal numbers", 1 to 4: what is lent, judged before anything else is looked at. Every number is allowed.
#![tactic(auto)]

ghost use Rattle.std.specs.Prelude.{◌≡◌, ◌%◌, ◌≤◌, eqb};
ghost use Rattle.scope.specs.Geometry.{size_fits, factor_fits, depth_fits, geometry_fits};
ghost use Rattle.scope.specs.Pieces.{lent_checks};
ghost use Rattle.incoming.specs.Steps.{shape_checks, size_checks};

use geometry::{SoundGeometry, is_subsampled, plane_count, symbol_count};
use scope::{Answer, Entry, Family, Geometry, Place, Refusal};
use stretches::all_elements;

// "each 1 to 16,384"
fn size_fits(n: usize) -> bool
    ensures { result ≡ size_fits n }
{
    (1..=16384).contains(&n)
}

// "each 1 or 2, and 1 unless Yuv or Yuva"
fn factor_fits(f: Family, s: usize) -> bool
    ensures { result ≡ factor_fits f s }
{
    s == 1 || is_subsampled(f) && s == 2
}

// "One entry serves depth 8 .., one depths 10, 12 and 14"
fn depth_fits(which: Entry, depth: usize) -> bool
    ensures { result ≡ depth_fits which depth }
{
    match which {
        Entry::Eight => depth == 8,
        Entry::Deep => depth == 10 || depth == 12 || depth == 14,
    }
}

// The rules of a geometry.
fn geometry_fits(which: Entry, g: Geometry) -> bool
    ensures { result ≡ geometry_fits which g }
{
    let f = g.family;
    if !size_fits(g.width) {
        return false;
    }
    if !size_fits(g.height) {
        return false;
    }
    if !size_fits(g.slice_height) {
        return false;
    }
    if !factor_fits(f, g.sx) {
        return false;
    }
    if !factor_fits(f, g.sy) {
        return false;
    }
    depth_fits(which, g.depth)
}

fn divides(s: usize, x: usize) -> bool
    requires { 1 ≤ s }
    ensures { result ≡ eqb (x % s) 0 }
{
    x % s == 0
}

// Refusals 1 to 3.
fn check_shape(which: Entry, g: Geometry) -> Answer
    ensures { result ≡ shape_checks which g }
{
    if !geometry_fits(which, g) {
        return Err(Refusal(1, Place::Nothing));
    }
    if !divides(g.sx, g.width) {
        return Err(Refusal(2, Place::Nothing));
    }
    if !divides(g.sy, g.height) {
        return Err(Refusal(2, Place::Nothing));
    }
    if !divides(g.sy, g.slice_height) {
        return Err(Refusal(3, Place::Nothing));
    }
    Ok(())
}

// Refusal 4, of a geometry that 1 to 3 left.
fn check_sizes(g: SoundGeometry, lengths: usize, planes: usize) -> Answer
    ensures { result ≡ size_checks g.of lengths planes }
{
    let f = g.of.family;
    let p = plane_count(f);
    let n = symbol_count(g.of.depth);
    if lengths != p * n {
        return Err(Refusal(4, Place::Nothing));
    }
    if planes != all_elements(g) {
        return Err(Refusal(4, Place::Nothing));
    }
    Ok(())
}

// The first of refusals 1 to 4.
pub fn lent_checks(which: Entry, g: Geometry, lengths: usize, planes: usize) -> Answer
    ensures { result ≡ lent_checks which g lengths planes }
{
    check_shape(which, g)?;
    check_sizes(SoundGeometry { of: g }, lengths, planes)
}
