// Rebuilds a slice's samples from its residues, in place, at either width of a sample. Document 01, "Prediction, slice by slice". A slice is
// rows of one width, every pitch elements; the function of a row knows only where a row starts and ends and how far back the row f up
// stands. The loops over a row past column 0 are each width's own, in rows8 and rows16. Gaps between rows stay as they were.
#![tactic(auto)]

ghost use Rattle.std.specs.Prelude.{◌≡◌, ℕ, ◌+◌, ◌-◌, ◌%◌, ◌^◌, ◌≤◌, ◌<◌, List, length, set};
ghost use Rattle.scope.specs.Prediction.{samples_of, gradient, median};
ghost use Rattle.memory.specs.Loop.{swept};
ghost use Rattle.rows.specs.Rows.{leftward, across, Above, top_row, later_row, row};
ghost use Rattle.predict.specs.Asked.{Asking, asks_above, asks_nothing};
ghost use Rattle.views.specs.Places.{samples_at, gaps_at, rows_places, Rowed};

use sample::Sample;
use views::Rows;

// A width of samples with its loops over a row past column 0, one for each predictor.
pub trait Predicted: Sample {
    // What is asked of the samples of the row f up: at 8 bits nothing, at 16 bits, and where a width does not say, that they are below 2^depth
    // (`Above`). It relates a depth, a list and a row of it, and so no type of a parameter says it.
    ghost asking: { Asking } = { asks_above };

    // Adds the left sample across.
    fn left_row(s: &mut [Self], start: usize, end: usize, depth: usize)
        requires start_nonzero { (0 < start) × (start ≤ end) × (end ≤ length s.old) }
        requires depth_value { Self.Depth depth }
        ensures { Self.values s.new ≡ swept (leftward depth) (Self.values s.old) start (end - start) };

    // Adds the gradient across.
    fn gradient_row(s: &mut [Self], start: usize, end: usize, back: usize, depth: usize)
        requires back_nonzero { (0 < back) × (back < start) × (start ≤ end) × (end ≤ length s.old) }
        requires above { asking.Asked depth back (Self.values s.old) start end }
        requires depth_value { Self.Depth depth }
        ensures { Self.values s.new ≡ swept (across depth (gradient depth) back) (Self.values s.old) start (end - start) };

    // Adds the median of the depth across.
    fn median_row(s: &mut [Self], start: usize, end: usize, back: usize, depth: usize)
        requires back_nonzero { (0 < back) × (back < start) × (start ≤ end) × (end ≤ length s.old) }
        requires depth_value { Self.Depth depth }
        ensures { Self.values s.new ≡ swept (across depth (median depth) back) (Self.values s.old) start (end - start) };

    // Samples below 2^depth are what is asked; and they still are where one below 2^depth is stored.
    ghost asked_above: { (depth back : ℕ) (s : List ℕ) (start end : ℕ) → Above depth back s start end → asking.Asked depth back s start end } = { asking.asked_above };

    ghost asked_set: { (depth back : ℕ) (s : List ℕ) (start end i n v : ℕ) → asking.Asked depth back s start end → v ≡ n % 2 ^ depth → asking.Asked depth back (set s i v) start end } = { asking.asked_set };
}

// Depth 8: no loop reads the depth.
impl Predicted for u8 {
    ghost asking = { asks_nothing };

    fn left_row(s: &mut [u8], start: usize, end: usize, depth: usize) {
        rows8::left_row_u8(s, start, end);
    }

    fn gradient_row(s: &mut [u8], start: usize, end: usize, back: usize, depth: usize) {
        rows8::gradient_row_u8(s, start, end, back);
    }

    fn median_row(s: &mut [u8], start: usize, end: usize, back: usize, depth: usize) {
        rows8::median_row_u8(s, start, end, back);
    }
}

// Depths 10, 12 and 14.
impl Predicted for u16 {
    fn left_row(s: &mut [u16], start: usize, end: usize, depth: usize) {
        rows16::left_row_u16(s, start, end, depth);
    }

    fn gradient_row(s: &mut [u16], start: usize, end: usize, back: usize, depth: usize) {
        rows16::gradient_row_u16(s, start, end, back, depth);
    }

    fn median_row(s: &mut [u16], start: usize, end: usize, back: usize, depth: usize) {
        rows16::median_row_u16(s, start, end, back, depth);
    }
}

// One of the first f rows: it starts from its own first residue. The sum with 0 takes the residue modulo 2^depth.
fn first_row<T: Predicted>(s: &mut [T], start: usize, end: usize, depth: usize)
    requires start_lt_end { (start < end) × (end ≤ length s.old) }
    requires depth_value { T.Depth depth }
    ensures { T.values s.new ≡ top_row depth (T.values s.old) start end }
{
    s[start] = s[start].sum(T::of(0), depth);
    T::left_row(s, start + 1, end, depth);
}

// A later row: column 0 adds the sample f rows up, the others the predictor. A kind is a byte and no enum, here and in `row`: their contracts
// answer for every byte, as `later_row` of crate rows does, and a type of three kinds would ask more of a caller.
fn later_row<T: Predicted>(
    kind: u8,
    s: &mut [T],
    start: usize,
    end: usize,
    back: usize,
    depth: usize,
)
    requires back_nonzero { (0 < back) × (back ≤ start) × (start < end) × (end ≤ length s.old) }
    requires above { T.asking.Asked depth back (T.values s.old) (start + 1) end }
    requires depth_value { T.Depth depth }
    ensures { T.values s.new ≡ later_row depth kind back (T.values s.old) start end }
{
    s[start] = s[start].sum(s[start - back], depth);
    match kind {
        1 => T::left_row(s, start + 1, end, depth),
        2 => T::gradient_row(s, start + 1, end, back, depth),
        _ => T::median_row(s, start + 1, end, back, depth),
    }
}

// A row of either sort.
pub fn row<T: Predicted>(kind: u8, s: &mut [T], start: usize, end: usize, back: usize, depth: usize)
    requires back_nonzero { (0 < back) × (start < end) × (end ≤ length s.old) }
    requires above { T.asking.Asked depth back (T.values s.old) (start + 1) end }
    requires depth_value { T.Depth depth }
    ensures { T.values s.new ≡ row depth kind back (T.values s.old) start end }
{
    if start < back {
        first_row(s, start, end, depth)
    } else {
        later_row(kind, s, start, end, back, depth)
    }
}

// The samples of a slice's rows, from its residues. The row f up stands f pitches back.
pub fn rebuild<T: Predicted>(kind: u8, s: &mut [T], rows: Rows, f: usize, depth: usize)
    requires rowed { Rowed (length s.old) rows.width rows.pitch rows.count }
    requires f_nonzero { (0 < f) × (f ≤ 2) }
    requires depth_value { T.Depth depth }
    ensures samples { samples_at (rows_places rows.width rows.pitch rows.count) (T.values s.new) ≡ samples_of depth kind rows.width f (samples_at (rows_places rows.width rows.pitch rows.count) (T.values s.old)) }
    ensures gaps { gaps_at (rows_places rows.width rows.pitch rows.count) (T.values s.new) ≡ gaps_at (rows_places rows.width rows.pitch rows.count) (T.values s.old) }
{
    let back = f * rows.pitch;
    for r in 0..rows.count {
        let at = r * rows.pitch;
        row(kind, s, at, at + rows.width, back, depth);
    }
}
