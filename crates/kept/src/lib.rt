// Document 01, "Words and lookup": "the table reading takes every sample from that lookup". Words one after the other out of a window of 64
// bits that is kept from word to word (why so, docs/DECISIONS.md, 41), into samples of either width, while the payload has sixteen bytes
// from the position's own byte on. What they read is what `lookup` finds. What is left, and whatever is no word, is for the thin reader:
// chain goes on from here.
#![tactic(auto)]

ghost use Rattle.std.specs.Prelude.{◌≡◌, ◌+◌, ◌-◌, ◌*◌, ◌/◌, ◌%◌, ◌<◌, ◌≤◌, min, length};
ghost use Rattle.scope.specs.Bits.{window};
ghost use Rattle.scope.specs.Lookup.{lookup_in};
ghost use Rattle.codes.specs.Reading.{Readable, Began};
ghost use Rattle.kept.specs.Kept.{top_bits, entry_in, Kept, Turning, Turned};

use bits::eight;
use lookup::word;
use sample::Sample;

// How the window stands: the 64 bits at the position `at`, moved up by the `gone` bits of the words that are taken out, and zeros below.
#[derive(Clone, Copy)]
pub struct Stand {
    pub window: u64,
    pub at: usize,
    pub gone: usize,
}

// What a group or a turn leaves: the window without its words, and how many they are.
#[derive(Clone, Copy)]
pub struct Taken {
    pub stand: Stand,
    pub count: usize,
}

// Of a group `at` is where its window began, and `gone` are the bits of all words out of it.
pub type Group = Taken;

// Of a turn `at` is where its last word begins, and `gone` are the bits of that word.
pub type Turn = Taken;

// Where a reading out of the window stands: behind its last word, and after how many.
#[derive(Clone, Copy)]
pub struct Went {
    pub end: usize,
    pub count: usize,
}

// ---- the window

// The 64 bits at a position: those of eight bytes from its own byte on, moved up, and what is then missing from the next eight.
pub fn begun(payload: &[u8], p: usize) -> u64
    requires { p / 8 + 16 ≤ length payload.now }
    ensures { result ≡ window payload.now p 64 }
{
    let o = p % 8;
    let a = eight(payload, p / 8);
    let b = eight(payload, p / 8 + 8);
    if o == 0 {
        return a;
    }
    (a << o) + (b >> (64 - o))
}

// The bits that follow the 64 at a position: 57 of them or more, at the top. They hang on the position alone, so they are loaded while
// words are still being taken out of the 64.
pub fn ahead(payload: &[u8], p: usize) -> u64
    requires { p / 8 + 16 ≤ length payload.now }
    ensures { result ≡ top_bits payload.now (p + 64) (p % 8) }
{
    eight(payload, p / 8 + 8) << (p % 8)
}

// How far the window is shifted down to a slot of the table's first part.
fn down(m: usize) -> usize
    requires { (0 < m) × (m ≤ 18) }
    ensures { result ≡ 64 - min m 12 }
{
    64 - m.min(12)
}

// The workspace word of the word that the window begins with, or one whose low byte is 0: there is none, or it is longer than m. As an unfilled
// slot says none by 0, so does this: its promise, `entry_in`, is of that number.
pub fn entry(words: &[u32], m: usize, w: u64) -> u32
    requires { (0 < m) × (m ≤ 18) }
    ensures { result ≡ entry_in words.now m w }
{
    let e = word(words, (w >> down(m)) as usize);
    if e % 256 <= m as u32 {
        return e;
    }
    if m <= 12 || e % 256 < 255 {
        return 0;
    }
    let v = word(words, 4096 + (w >> (64 - m)) as usize);
    if v % 256 <= m as u32 {
        return v;
    }
    0
}

// ---- words out of the window

// A group of words out of a window from which some bits are gone: as many as `out` has places, or as far as there are words. Each is shifted
// out, so that the next one stands at the top. A length is below 64, so that the shift may go by six bits of the entry: a machine's shift
// takes no more of them, and the next word waits for it.
fn group<T: Sample>(table: &[u32], m: usize, payload: &[u8], from: Stand, out: &mut [T]) -> Group
    requires m_nonzero { (0 < m) × (m ≤ 18) × Kept payload.now from.at from.window from.gone 0 m (length out.old) }
    requires readable { Readable (lookup_in table.now m payload.now) T.limit (from.at + from.gone) (length out.old) }
    ensures same { result.stand.at ≡ from.at }
    ensures kept { Kept payload.now from.at result.stand.window result.stand.gone result.count m (length out.old) }
    ensures read { Began (lookup_in table.now m payload.now) (from.at + from.gone) (T.values out.new) (from.at + result.stand.gone) result.count }
{
    let mut v = from.window;
    let mut d = from.gone;
    for i in 0..out.len() {
        let e = entry(table, m, v);
        let l = e % 256;
        if l == 0 {
            return Taken {
                stand: Stand {
                    window: v,
                    at: from.at,
                    gone: d,
                },
                count: i,
            };
        }
        out[i] = T::of(e / 256);
        v = v << (e % 64);
        d += l as usize;
    }
    Taken {
        stand: Stand {
            window: v,
            at: from.at,
            gone: d,
        },
        count: out.len(),
    }
}

// One word more behind a group of a turn that began at `from`. Only behind its lookup is the window filled up with the bits that follow, x,
// as many as are gone: so no lookup waits for them. Where the group was cut short, or no word is found, the turn ends there.
fn last<T: Sample>(
    table: &[u32],
    m: usize,
    payload: &[u8],
    from: Stand,
    x: u64,
    r: Group,
    out: &mut [T],
) -> Turn
    requires out_nonzero { (0 < length out.old) × (x ≡ top_bits payload.now (from.at + 64) (from.at % 8)) × (r.stand.at ≡ from.at) }
    requires turning { Turning table.now m payload.now T.limit (from.at + from.gone) from.at (length out.old - 1) (T.values out.old) r.stand.window r.stand.gone r.count }
    ensures read { Began (lookup_in table.now m payload.now) (from.at + from.gone) (T.values out.new) (result.stand.at + result.stand.gone) result.count }
    ensures next { Turned payload.now m (length out.old) result.stand.window result.stand.at result.stand.gone result.count }
{
    let n = out.len() - 1;
    let e = entry(table, m, r.stand.window);
    let start = from.at + r.stand.gone;
    let stop = Taken {
        stand: Stand {
            window: 0,
            at: start,
            gone: 0,
        },
        count: r.count,
    };
    if r.count < n || e % 256 == 0 {
        return stop;
    }
    out[n] = T::of(e / 256);
    Taken {
        stand: Stand {
            window: (r.stand.window + ((x / 2) >> (63 - r.stand.gone))) << (e % 64),
            at: start,
            gone: (e % 256) as usize,
        },
        count: n + 1,
    }
}

// A turn: a group and one word more, as many words as `out` has places; none where the payload has no sixteen bytes from the position's own byte
// on. The bits that follow the window are loaded before the first word, since they hang on the position alone.
fn turn<T: Sample>(table: &[u32], m: usize, payload: &[u8], from: Stand, out: &mut [T]) -> Turn
    requires m_nonzero { (0 < m) × (m ≤ 18) × (from.gone ≤ m) × (0 < length out.old) × ((length out.old + 1) * m ≤ 64) × (length out.old * m ≤ 56) }
    requires w_value { from.window ≡ top_bits payload.now (from.at + from.gone) from.gone }
    requires readable { Readable (lookup_in table.now m payload.now) T.limit (from.at + from.gone) (length out.old) }
    ensures read { Began (lookup_in table.now m payload.now) (from.at + from.gone) (T.values out.new) (result.stand.at + result.stand.gone) result.count }
    ensures next { Turned payload.now m (length out.old) result.stand.window result.stand.at result.stand.gone result.count }
{
    if payload.len() < from.at / 8 + 16 {
        return Taken {
            stand: Stand {
                window: 0,
                at: from.at,
                gone: from.gone,
            },
            count: 0,
        };
    }
    let x = ahead(payload, from.at);
    let n = out.len() - 1;
    let r = group(table, m, payload, from, &mut out[0..n]);
    last(table, m, payload, from, x, r, out)
}

// How many words a turn has, of at most m bits each: all of them together have no more than 56, which are sure to follow the window in the
// eight bytes behind it, whatever the position; and with one more, which may be gone before, they are in sight.
fn most(m: usize) -> usize
    requires { (0 < m) × (m ≤ 18) }
    ensures { (result * m ≤ 56) × ((result + 1) * m ≤ 64) × (0 < result) }
{
    if m < 8 {
        return 56 / m;
    }
    64 / m - 1
}

// Turn after turn, of at most g words each. The step is what a turn has read, so the loop is a `while`.
fn turns<T: Sample>(
    table: &[u32],
    m: usize,
    payload: &[u8],
    at: usize,
    first: u64,
    g: usize,
    out: &mut [T],
) -> Went
    requires m_nonzero { (0 < m) × (m ≤ 18) × (g * m ≤ 56) × ((g + 1) * m ≤ 64) × (0 < g) × (first ≡ window payload.now at 64) }
    requires readable { Readable (lookup_in table.now m payload.now) T.limit at (length out.old) }
    ensures { Began (lookup_in table.now m payload.now) at (T.values out.new) result.end result.count }
{
    let mut w = Stand {
        window: first,
        at,
        gone: 0,
    };
    let mut k: usize = 0;
    while k < out.len() {
        let c = g.min(out.len() - k);
        let r = turn(table, m, payload, w, &mut out[k..k + c]);
        w = r.stand;
        k += r.count;
        let here = w.at + w.gone;
        if r.count < c {
            return Went {
                end: here,
                count: k,
            };
        }
    }
    let end = w.at + w.gone;
    Went { end, count: k }
}

// Words from a bit position on, as many as `out` has places or fewer.
pub fn words<T: Sample>(table: &[u32], m: usize, payload: &[u8], at: usize, out: &mut [T]) -> Went
    requires { Readable (lookup_in table.now m payload.now) T.limit at (length out.old) }
    ensures { Began (lookup_in table.now m payload.now) at (T.values out.new) result.end result.count }
{
    if m == 0 || 18 < m || payload.len() < at / 8 + 16 {
        return Went { end: at, count: 0 };
    }
    turns(table, m, payload, at, begun(payload, at), most(m), out)
}
