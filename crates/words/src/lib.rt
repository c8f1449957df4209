// Document 01, "Words and lookup": what a plane's code lengths alone say. One pass over them counts how many symbols have each
// length; the counts then give refusals 9 and 10, the longest and the shortest length, where the words of each length start, and
// the workspace words that a table needs.
#![tactic(auto)]

ghost use Rattle.std.specs.Prelude.{◌≡◌, ◌≤◌, cond, Some, None, length};
ghost use Rattle.scope.specs.Words.{longest, shares, too_long, need_from};
ghost use Rattle.words.specs.Tally.{counts_of, highest, lowest};
ghost use Rattle.words.specs.Weigh.{firsts_of, weighed, Begun};

use scope::{Place, Refusal};

// The code that the lengths of one plane give: its longest and its shortest length, 0 where it has no word, and the words that its table
// needs.
#[derive(Clone, Copy)]
pub struct Code {
    pub longest: usize,
    pub shortest: usize,
    pub need: usize,
}

// The one pass over the lengths: how many symbols have each length. None: some length is above 18, which is refused whatever else
// there is.
pub(crate) fn tally(lengths: &[u8]) -> Option<[u32; 19]>
    requires { length lengths.now ≤ 16384 }
    ensures { result ≡ cond (too_long lengths.now) None (Some (counts_of lengths.now)) }
{
    let mut count = [0; 19];
    for length in lengths {
        let l = *length as usize;
        if 18 < l {
            return None;
        }
        count[l] += 1;
    }
    Some(count)
}

// The longest length that some symbol has; 0 where none has a word, as `longest` and `shortest` of document 01's definitions have it.
pub(crate) fn longest_in(count: [u32; 19]) -> usize
    ensures { (result ≡ highest count 19) × (result ≤ 18) }
{
    for l in (1..=18).rev() {
        if 0 < count[l] {
            return l;
        }
    }
    0
}

// The shortest length that some symbol has; 0 where none has a word.
pub(crate) fn shortest_in(count: [u32; 19]) -> usize
    ensures { result ≡ lowest count 1 18 }
{
    for l in 1..=18 {
        if 0 < count[l] {
            return l;
        }
    }
    0
}

// The first word of each length from the longest, m, down to 1. The running end a starts at all ones and wraps, as in the Rust:
// it is one less than the end of the words so far. None: no room is left where it reaches 2^length.
pub(crate) fn first_words(count: [u32; 19], m: usize) -> Option<[u32; 19]>
    requires { m ≤ 18 }
    ensures { Begun count m result }
{
    let mut at = [0; 19];
    let mut a = u32::MAX;
    for l in (1..=m).rev() {
        at[l] = a.wrapping_add(1);
        a = a.wrapping_add(count[l]);
        let room: u32 = 1 << l;
        if room <= a {
            return None;
        }
        a >>= 1;
    }
    Some(at)
}

// The first word of each length, where the lengths pass refusals 9 and 10.
pub fn firsts(lengths: &[u8]) -> [u32; 19]
    requires { (length lengths.now ≤ 16384) × (longest lengths.now ≤ 18) × (shares lengths.now ≤ 262144) }
    ensures { result ≡ firsts_of lengths.now }
{
    let count = tally(lengths).unwrap();
    first_words(count, longest_in(count)).unwrap()
}

// The need, from the longest length m and S, the first word of 12 bits.
pub(crate) fn need_from(m: usize, s: u32) -> usize
    requires { (m ≤ 18) × (s ≤ 4096) }
    ensures { result ≡ need_from m s }
{
    if m == 0 {
        return 1;
    }
    if m <= 12 {
        return 1 << m;
    }
    let size: usize = 1 << (m - 12);
    4096 + s as usize * size
}

// Refusals 9 and 10 for the lengths of plane p, else what its code is. No workspace is touched.
pub fn weigh(lengths: &[u8], p: usize) -> Result<Code, Refusal>
    requires { length lengths.now ≤ 16384 }
    ensures { result ≡ weighed lengths.now p }
{
    let Some(count) = tally(lengths) else {
        return Err(Refusal(9, Place::Plane(p)));
    };
    let m = longest_in(count);
    let Some(at) = first_words(count, m) else {
        return Err(Refusal(10, Place::Plane(p)));
    };
    let s = shortest_in(count);
    Ok(Code {
        longest: m,
        shortest: s,
        need: need_from(m, at[12]),
    })
}
