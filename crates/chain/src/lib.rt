// Document 01, "Words and lookup": "the table reading takes every sample from that lookup". Words one after the other from a bit position
// on, by a table, into samples of either width: as many as a buffer has places, or row by row into rows that stand every pitch elements.
// The table, its longest length m and the payload go side by side, here and in kept: of a struct that holds slices the toolchain makes no
// plain reading, so that what settles a statement has to be said of the raw clauses, as in reader. `Readable` and `Rowed` relate them to a
// position and a buffer of one call, and so are asked there.
#![tactic(auto)]

ghost use Rattle.std.specs.Prelude.{◌≡◌, ◌*◌, length};
ghost use Rattle.scope.specs.Lookup.{lookup_in};
ghost use Rattle.codes.specs.Reading.{Readable};
ghost use Rattle.reader.specs.Reading.{WordsRead};
ghost use Rattle.views.specs.Places.{samples_at, gaps_at, rows_places, Rowed};

use reader::Stuck;
use sample::Sample;
use views::Rows;

// As many words as `out` has places, one after the other from bit position `at` on: their symbols, and where the next word would begin.
// Out of a kept window first (crate kept), as far as that goes; then one by one, near the payload's end and where a word is missing.
pub fn words<T: Sample>(
    table: &[u32],
    m: usize,
    payload: &[u8],
    at: usize,
    out: &mut [T],
) -> Result<usize, Stuck>
    requires { Readable (lookup_in table.now m payload.now) T.limit at (length out.old) }
    ensures { WordsRead (lookup_in table.now m payload.now) at (length out.old) result (T.values out.new) }
{
    let n = out.len();
    let went = kept::words(table, m, payload, at, out);
    let mut p = went.end;
    for k in went.count..n {
        let Some(word) = reader::next(table, m, payload, p) else {
            return Err(Stuck { at: p });
        };
        out[k] = T::of(word.symbol as u32);
        p = word.end;
    }
    Ok(p)
}

// The words of a whole payload into rows: each row goes on at the bit position where the last one ended. Out of line, a call a slice: in one
// function with the loop of raw samples these loops take up to a tenth more instructions (docs/DECISIONS.md, 53).
#[inline(never)]
pub fn words_rows<T: Sample>(
    table: &[u32],
    m: usize,
    payload: &[u8],
    s: &mut [T],
    rows: Rows,
) -> Result<usize, Stuck>
    requires rowed { Rowed (length s.old) rows.width rows.pitch rows.count }
    requires readable { Readable (lookup_in table.now m payload.now) T.limit 0 (rows.count * rows.width) }
    ensures words { WordsRead (lookup_in table.now m payload.now) 0 (rows.count * rows.width) result (samples_at (rows_places rows.width rows.pitch rows.count) (T.values s.new)) }
    ensures gaps { gaps_at (rows_places rows.width rows.pitch rows.count) (T.values s.new) ≡ gaps_at (rows_places rows.width rows.pitch rows.count) (T.values s.old) }
{
    let mut q = 0;
    for r in 0..rows.count {
        let at = r * rows.pitch;
        q = words(table, m, payload, q, &mut s[at..at + rows.width])?;
    }
    Ok(q)
}
