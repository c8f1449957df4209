// Document 01, "Refusal numbers", 12 to 14 of every slice before any is read (its bounds, its two bytes of prefix, that its plane has
// words where it is coded, and its size), and 5 to 14 in the table's order. What the lengths and the workspace answer (9 to 11) comes
// in as answers, so that an entry without a workspace has no second chain of checks. Nothing is written.
#![tactic(auto)]

ghost use Rattle.std.specs.Prelude.{◌≡◌, ◌*◌, ◌<◌, ◌≤◌, ltb};
ghost use Rattle.scope.specs.Refusals.{refuse_if};
ghost use Rattle.scope.specs.Geometry.{slice_count};
ghost use Rattle.scope.specs.declared.Place.TheVariants.{Nothing};
ghost use Rattle.scope.specs.Answers.{done};
ghost use Rattle.scope.specs.Pieces.{in_order, index_check};
ghost use Rattle.preamble.specs.Layout.{layout_checks};
ghost use Rattle.checks.specs.Slices.{size_check, slice_check_by, slices_by, words_by, framed_by, Shortests};

use geometry::SoundGeometry;
use layout::{plane_index, slice_at};
use preamble::check_layout;
use scope::{Answer, Place, Refusal, SliceAt};
use sides::slice_count;

// ---- one slice

// "samples times b, over 8, rounded up", against the bytes that there are.
fn check_size(s: usize, bytes: usize, samples: usize, bits: usize) -> Answer
    requires { (samples ≤ 268435456) × (bits < 256) }
    ensures { result ≡ size_check s bytes samples bits }
{
    if bytes < (samples * bits + 7) / 8 {
        return Err(Refusal(12, Place::Slice(s)));
    }
    Ok(())
}

// A slice of a frame of `len` bytes, whose plane's shortest word has b bits; 0 where the plane has none, as `shortest` has it.
fn check_slice(a: SliceAt, len: usize, depth: usize, b: usize) -> Answer
    requires width_bound { (a.rows * a.width ≤ 268435456) × (a.start < 4294967328) }
    requires depth_bound { (depth < 256) × (b < 256) }
    ensures { result ≡ slice_check_by len depth b a }
{
    let here = Place::Slice(a.number);
    if a.end < a.start {
        return Err(Refusal(12, here)); // it ends before its start
    }
    if len < a.end {
        return Err(Refusal(12, here)); // or past the frame
    }
    if a.end < a.start + 2 {
        return Err(Refusal(13, here));
    }
    let bytes = a.end - (a.start + 2);
    let samples = a.rows * a.width;
    if a.raw {
        return check_size(a.number, bytes, samples, depth);
    }
    if b == 0 {
        return Err(Refusal(14, Place::Plane(a.plane)));
    }
    check_size(a.number, bytes, samples, b)
}

// ---- all slices

// The first refusal of the slices in wire order. Each one's place is counted, since the indices alone say its plane. The shortest lengths
// (`Shortests`) are asked together with the geometry, below only where 9 and 10 refuse nothing, and so of no type.
fn check_slices(frame: &[u8], g: SoundGeometry, shortest: [usize; 4]) -> Answer
    requires value { done ≡ in_order (slice_count g.of) (index_check frame.now g.of) }
    requires shortests { Shortests g.of shortest }
    ensures { result ≡ in_order (slice_count g.of) (slices_by frame.now g.of shortest) }
{
    let t = slice_count(g);
    let mut seen = [0usize; 4];
    for s in 0..t {
        let p = plane_index(frame, g, s);
        let k = seen[p];
        let a = slice_at(frame, g, s, p, k);
        check_slice(a, frame.len(), g.of.depth, shortest[p])?;
        seen[p] = k + 1;
    }
    Ok(())
}

// 11: `need` is the sum of all planes' needs, `workspace` how many words were lent.
pub fn check_room(need: usize, workspace: usize) -> Answer
    ensures { result ≡ refuse_if (ltb workspace need) 11 Nothing }
{
    if workspace < need {
        return Err(Refusal(11, Place::Nothing));
    }
    Ok(())
}

// 9 to 14, where 5 to 8 found nothing: `words` is what the lengths answer, `room` what the workspace does.
fn check_words(
    frame: &[u8],
    g: SoundGeometry,
    words: Answer,
    room: Answer,
    shortest: [usize; 4],
) -> Answer
    requires value { done ≡ layout_checks frame.now g.of }
    requires shortests { words ≡ done → Shortests g.of shortest }
    ensures { result ≡ words_by frame.now g.of words room shortest }
{
    words?;
    room?;
    check_slices(frame, g, shortest)
}

// The first of refusals 5 to 14 that is given before anything is read.
pub fn check_frame(
    frame: &[u8],
    g: SoundGeometry,
    words: Answer,
    room: Answer,
    shortest: [usize; 4],
) -> Answer
    requires { words ≡ done → Shortests g.of shortest }
    ensures { result ≡ framed_by frame.now g.of words room shortest }
{
    check_layout(frame, g)?;
    check_words(frame, g, words, room, shortest)
}
