// Document 01, "Planes lie one after another with no gaps": where rows stand in the plane buffer, as elements. The pitch of a plane is
// its width, since there are no gaps.
#![tactic(auto)]

ghost use Rattle.std.specs.Prelude.{◌≡◌, ◌+◌, ◌*◌, ◌<◌, ◌≤◌};
ghost use Rattle.scope.specs.Geometry.{plane_count, plane_height, plane_samples, order_of, plane_start};
ghost use Rattle.scope.specs.Base.{sum_below};
ghost use Rattle.stretches.specs.Stretch.{stretch_of, all_elements};

use geometry::{SoundGeometry, is_correlated, plane_count};
use scope::Geometry;
use sides::{plane_height, plane_width};
use views::Stretch;

fn plane_samples(g: SoundGeometry, p: usize) -> usize
    ensures { (result ≡ plane_samples g.of p) × (result ≤ 268435456) }
{
    let w = plane_width(g, p);
    let h = plane_height(g, p);
    w * h
}

// The buffer's place of the wire's plane p, and the wire's plane at the buffer's place p.
fn order_of(g: Geometry, p: usize) -> usize
    ensures { result ≡ order_of g p }
{
    let f = g.family;
    if is_correlated(f) {
        if p == 0 {
            return 1;
        }
        if p == 1 {
            return 0;
        }
    }
    p
}

// The samples of the first n planes of the buffer.
fn samples_below(g: SoundGeometry, n: usize) -> usize
    requires { n ≤ 4 }
    ensures { (result ≡ sum_below n (plane_samples g.of)) × (result ≤ n * 268435456) }
{
    let mut at = 0;
    for b in 0..n {
        at += plane_samples(g, b);
    }
    at
}

pub fn all_elements(g: SoundGeometry) -> usize
    ensures { (result ≡ all_elements g.of) × (result ≤ 1073741824) }
{
    let f = g.of.family;
    let p = plane_count(f);
    samples_below(g, p)
}

// Where the wire's plane p starts in the buffer.
fn plane_start(g: SoundGeometry, p: usize) -> usize
    requires { p < plane_count g.of }
    ensures { (result ≡ plane_start g.of p) × (result ≤ 805306368) }
{
    let q = order_of(g.of, p);
    samples_below(g, q)
}

// The rows of the wire's plane p from `row` on.
pub fn stretch_of(g: SoundGeometry, p: usize, row: usize, rows: usize) -> Stretch
    requires { (p < plane_count g.of) × (row + rows ≤ plane_height g.of p) }
    ensures stretch { result ≡ stretch_of g.of p row rows }
    ensures bounds { (result.at ≤ 1073741824) × (1 ≤ result.width) × (result.pitch ≤ 16384) }
{
    let at = plane_start(g, p);
    let width = plane_width(g, p);
    Stretch {
        at: at + row * width,
        width,
        pitch: width,
        rows,
    }
}
