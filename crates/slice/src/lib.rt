// Document 01, "Layout", "Words and lookup" and "Prediction, slice by slice": one slice, as its record says it stands in the frame (scope's
// SliceAt), read into its rows of the planes, raw or coded, and its samples rebuilt there, of either width. What it answers and gives is said
// over the lookup of the lent table: no code lengths here.
#![tactic(auto)]

ghost use Rattle.std.specs.Prelude.{◌≡◌, ◌*◌, length};
ghost use Rattle.scope.specs.Geometry.{fields};
ghost use Rattle.scope.specs.Bits.{raw_samples};
ghost use Rattle.scope.specs.Lookup.{lookup_in};
ghost use Rattle.scope.specs.Answers.{done};
ghost use Rattle.raw.specs.Raw.{RawIn};
ghost use Rattle.codes.specs.Reading.{Readable};
ghost use Rattle.views.specs.Places.{samples_at, gaps_at, rows_places, Rowed};
ghost use Rattle.slice.specs.Slice.{payload_in, SliceIn, ResiduesRead, read_by, samples_by};

use predict::Predicted;
use raw::ReadRaw;
use reader::Stuck;
use scope::{Answer, Geometry, Place, Refusal, SliceAt};
use views::Rows;

// The raw samples of a payload, row by row.
fn raw_rows<T: ReadRaw>(payload: &[u8], depth: usize, s: &mut [T], rows: Rows)
    requires depth_value { T.Depth depth }
    requires raw_in { RawIn depth payload.now 0 (rows.count * rows.width) }
    requires rowed { Rowed (length s.old) rows.width rows.pitch rows.count }
    ensures samples { samples_at (rows_places rows.width rows.pitch rows.count) (T.values s.new) ≡ raw_samples depth payload.now (rows.count * rows.width) }
    ensures gaps { gaps_at (rows_places rows.width rows.pitch rows.count) (T.values s.new) ≡ gaps_at (rows_places rows.width rows.pitch rows.count) (T.values s.old) }
{
    for r in 0..rows.count {
        let at = r * rows.pitch;
        T::read_raw(payload, r * rows.width, depth, &mut s[at..at + rows.width]);
    }
}

// The residues of a slice, raw or coded, into its rows, and where their reading ended. That the slice has room (`SliceIn`) is asked of the depth,
// the frame and the record of one call, here and in `read`, and so of no type.
fn residues<T: ReadRaw>(
    frame: &[u8],
    depth: usize,
    a: SliceAt,
    pitch: usize,
    table: &[u32],
    m: usize,
    part: &mut [T],
) -> Result<usize, Stuck>
    requires depth_value { T.Depth depth }
    requires slice_in { SliceIn depth frame.now a }
    requires rowed { Rowed (length part.old) a.width pitch a.rows }
    requires readable { Readable (lookup_in table.now m (payload_in frame.now a)) T.limit 0 (a.rows * a.width) }
    ensures residues { ResiduesRead (lookup_in table.now m (payload_in frame.now a)) depth frame.now a result (samples_at (rows_places a.width pitch a.rows) (T.values part.new)) }
    ensures gaps { gaps_at (rows_places a.width pitch a.rows) (T.values part.new) ≡ gaps_at (rows_places a.width pitch a.rows) (T.values part.old) }
{
    let payload = &frame[a.start + 2..a.end];
    let rows = Rows {
        width: a.width,
        pitch,
        count: a.rows,
    };
    if a.raw {
        raw_rows(payload, depth, part, rows);
        return Ok(a.rows * a.width * depth);
    }
    chain::words_rows(table, m, payload, part, rows)
}

// A slice read into its rows of the planes and rebuilt there, or its refusal: each 15 before its 14.
pub fn read<T: ReadRaw + Predicted>(
    frame: &[u8],
    g: Geometry,
    a: SliceAt,
    pitch: usize,
    table: &[u32],
    m: usize,
    part: &mut [T],
) -> Answer
    requires depth_value { T.Depth g.depth }
    requires slice_in { SliceIn g.depth frame.now a }
    requires rowed { Rowed (length part.old) a.width pitch a.rows }
    requires readable { Readable (lookup_in table.now m (payload_in frame.now a)) T.limit 0 (a.rows * a.width) }
    ensures answer { result ≡ read_by (lookup_in table.now m (payload_in frame.now a)) g.depth frame.now a }
    ensures samples { result ≡ done → samples_at (rows_places a.width pitch a.rows) (T.values part.new) ≡ samples_by (lookup_in table.now m (payload_in frame.now a)) g.depth (fields g) frame.now a }
    ensures gaps { gaps_at (rows_places a.width pitch a.rows) (T.values part.new) ≡ gaps_at (rows_places a.width pitch a.rows) (T.values part.old) }
{
    if !(1..=3).contains(&a.predictor) {
        return Err(Refusal(15, Place::Slice(a.number))); // below Left, or above Median
    }
    let no_word = Refusal(14, Place::Plane(a.plane)); // "no word fits the next bits"
    residues(frame, g.depth, a, pitch, table, m, part).map_err(|_| no_word)?;
    let f = geometry::fields_of(g);
    let rows = Rows {
        width: a.width,
        pitch,
        count: a.rows,
    };
    predict::rebuild(a.predictor, part, rows, f, g.depth);
    Ok(())
}
