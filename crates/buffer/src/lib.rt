// The plane buffer at either width of a sample: set to zero, one stretch of it added to a later one, rows of it added to later rows, and G
// added to B' and R'. Document 01, "Refusal numbers" ("leave both wholly zero") and "Prediction, slice by slice" ("B and R are
// B'+G and R'+G modulo 2^depth"). The laws of these loops stand in memory and planes, over the numbers of the samples; sample's laws
// bring them to the samples.
#![tactic(auto)]

ghost use Rattle.std.specs.Prelude.{◌≡◌, ◌+◌, ◌≤◌, length};
ghost use Rattle.scope.specs.Base.{zeros};
ghost use Rattle.scope.specs.Geometry.{all_samples};
ghost use Rattle.scope.specs.Prediction.{plus};
ghost use Rattle.lists.specs.Parts.{part, replaced};
ghost use Rattle.planes.specs.Adding.{added_rows, Apart};
ghost use Rattle.planes.specs.Standing.{coloured};

use geometry::SoundGeometry;
use sample::Sample;
use views::Stretch;

// Every sample becomes zero.
pub fn clear<T: Sample>(samples: &mut [T])
    ensures { T.values samples.new ≡ zeros (T.values samples.old) }
{
    for i in 0..samples.len() {
        samples[i] = T::of(0);
    }
}

// Every plane of the buffer becomes zero: with no gaps, every element.
pub fn clear_planes<T: Sample>(planes: &mut [T])
    ensures { T.values planes.new ≡ zeros (T.values planes.old) }
{
    clear(planes);
}

// The n samples from `from` on are added to the n from `to` on, modulo 2^depth. Both stretches lie in the one buffer; the first ends
// before the second begins. The loop goes over places: tried, and the proof did not close, was a `zip` of `iter_mut` over the two parts
// that `split_at_mut` lends, since after it nothing is known of what was written.
fn add<T: Sample>(planes: &mut [T], from: usize, to: usize, n: usize, depth: usize)
    requires n_bound { (from + n ≤ to) × (to + n ≤ length planes.old) }
    requires depth_value { T.Depth depth }
    ensures { T.values planes.new ≡ replaced (T.values planes.old) to n (plus depth (part (T.values planes.old) to n) (part (T.values planes.old) from n)) }
{
    for i in 0..n {
        planes[to + i] = planes[to + i].sum(planes[from + i], depth);
    }
}

// The rows of one stretch are added to those of a later one, row by row, each stretch with its own pitch.
fn add_rows<T: Sample>(planes: &mut [T], from: Stretch, to: Stretch, depth: usize)
    requires apart { Apart (length planes.old) from to }
    requires depth_value { T.Depth depth }
    ensures { T.values planes.new ≡ added_rows depth from.at from.pitch to.at to.pitch to.width to.rows (T.values planes.old) }
{
    for r in 0..to.rows {
        add(
            planes,
            from.at + r * from.pitch,
            to.at + r * to.pitch,
            to.width,
            depth,
        );
    }
}

// A plane that begins at `at`: rows of its width, with no gaps.
fn plane_at(at: usize, width: usize, rows: usize) -> Stretch
    ensures { result ≡ record { at = at; width = width; pitch = width; rows = rows } }
{
    Stretch {
        at,
        width,
        pitch: width,
        rows,
    }
}

// G is the buffer's first plane; B' and R' are the next two, of its size.
pub fn add_green<T: Sample>(g: SoundGeometry, planes: &mut [T])
    requires planes_len { length planes.old ≡ all_samples g.of }
    requires depth_value { T.Depth g.of.depth }
    ensures { T.values planes.new ≡ coloured g.of (T.values planes.old) }
{
    if geometry::is_correlated(g.of.family) {
        let w = sides::plane_width(g, 0);
        let h = sides::plane_height(g, 0);
        let n = h * w;
        let green = plane_at(0, w, h);
        let blue = plane_at(n, w, h);
        let red = plane_at(n + n, w, h);
        add_rows(planes, green, blue, g.of.depth);
        add_rows(planes, green, red, g.of.depth);
    }
}
