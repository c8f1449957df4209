// Document 01, "Layout": the samples of a raw slice, which is one byte a sample at depth 8 and packed at depth bits above that. That the samples
// lie in the payload (`RawIn`) is asked of payload, first sample and buffer together, and so of no type.
#![tactic(auto)]

ghost use Rattle.std.specs.Prelude.{◌≡◌, ◌+◌, ◌-◌, ◌*◌, ◌/◌, ◌%◌, ◌^◌, ◌<◌, ◌≤◌, length};
ghost use Rattle.scope.specs.Bits.{window, packed_from};
ghost use Rattle.raw.specs.Raw.{raw_from, RawIn, Unpacked};

use bits::{eight, peek, power};
use sample::Sample;

// A width of samples with its reading of raw ones.
pub trait ReadRaw: Sample {
    // The raw samples of a payload from sample number `first` on.
    fn read_raw(payload: &[u8], first: usize, depth: usize, out: &mut [Self])
        requires depth_value { Self.Depth depth }
        requires raw_in { RawIn depth payload.now first (length out.old) }
        ensures { Self.values out.new ≡ raw_from depth payload.now first (length out.old) };
}

// Depth 8.
impl ReadRaw for u8 {
    fn read_raw(payload: &[u8], first: usize, depth: usize, out: &mut [u8]) {
        raw_u8(payload, first, depth, out);
    }
}

// Depths 10, 12 and 14.
impl ReadRaw for u16 {
    fn read_raw(payload: &[u8], first: usize, depth: usize, out: &mut [u16]) {
        raw_u16(payload, first, depth, out);
    }
}

// The raw samples of a payload from sample number `first` on, at depth 8: a byte each. `depth` is not read; it stands here so that both
// widths are called alike.
pub fn raw_u8(payload: &[u8], first: usize, depth: usize, out: &mut [u8])
    requires depth_value { depth ≡ 8 }
    requires raw_in { RawIn depth payload.now first (length out.old) }
    ensures { out.new ≡ raw_from depth payload.now first (length out.old) }
{
    // No copy_from_slice: it is a call of memmove, a name that the archive would need from its host, and a row may be of one byte.
    for (i, sample) in out.iter_mut().enumerate() {
        *sample = payload[first + i];
    }
}

// The depth bits of a number of 64 that end with its bit number `end`, counted from the highest.
fn cut(x: u64, end: usize, depth: usize) -> u16
    requires { (0 < end) × (end ≤ 64) × (depth ≤ 16) }
    ensures { result ≡ x / 2 ^ (64 - end) % 2 ^ depth }
{
    ((x >> (64 - end)) % power(depth)) as u16
}

// Samples out of eight bytes, one load for all of them: behind the at % 8 bits before the first one there are 57 bits or more. No sample waits
// for the one before it.
fn few(payload: &[u8], at: usize, depth: usize, out: &mut [u16])
    requires depth_nonzero { (0 < depth) × (depth ≤ 16) × (length out.old * depth ≤ 56) }
    requires at_in_bounds { at / 8 + 8 ≤ length payload.now }
    ensures { out.new ≡ packed_from depth payload.now at (length out.old) }
{
    let x = eight(payload, at / 8);
    let mut end = at % 8;
    for o in out {
        end += depth;
        *o = cut(x, end, depth);
    }
}

// Samples by eight bytes, as many at a time as surely stand in them, while the payload has eight from the position's own byte on: how many.
fn groups(payload: &[u8], at: usize, depth: usize, out: &mut [u16]) -> usize
    requires { (depth ≤ 16) × (at ≤ 4294967296) × (length out.old ≤ 268435456) }
    ensures { Unpacked depth payload.now at out.new result }
{
    if depth == 0 {
        return 0;
    }
    let g = 56 / depth;
    let mut p = at;
    let mut k = 0;
    // A `while`: a proof knows nothing of what a turn over `chunks_exact_mut` writes once its borrow is over.
    while g <= out.len() - k {
        if payload.len() < p / 8 + 8 {
            return k;
        }
        few(payload, p, depth, &mut out[k..k + g]);
        p += g * depth;
        k += g;
    }
    k
}

// A sample of depth bits, wherever it stands: past the payload's end there are zeros.
fn sample_at(payload: &[u8], at: usize, depth: usize) -> u16
    requires { depth ≤ 16 }
    ensures { result ≡ window payload.now at depth }
{
    peek(payload, at, depth) as u16
}

// Samples one by one.
fn each(payload: &[u8], at: usize, depth: usize, out: &mut [u16])
    requires { (depth ≤ 16) × (at ≤ 8589934592) × (length out.old ≤ 268435456) }
    ensures { out.new ≡ packed_from depth payload.now at (length out.old) }
{
    let mut p = at;
    for o in out {
        *o = sample_at(payload, p, depth);
        p += depth;
    }
}

// Samples of depth bits each, one after the other from a position on: a raw slice deeper than 8, or the rest of one. By eight bytes as far as
// that goes, and the last few one by one.
fn unpack_from(payload: &[u8], at: usize, depth: usize, out: &mut [u16])
    requires { (depth ≤ 16) × (at ≤ 4294967296) × (length out.old ≤ 268435456) }
    ensures { out.new ≡ packed_from depth payload.now at (length out.old) }
{
    let n = out.len();
    let k = groups(payload, at, depth, out);
    each(payload, at + k * depth, depth, &mut out[k..n]);
}

// The raw samples of a payload from sample number `first` on, at a depth above 8: packed.
pub fn raw_u16(payload: &[u8], first: usize, depth: usize, out: &mut [u16])
    requires lt_depth { (8 < depth) × (depth ≤ 16) }
    requires raw_in { RawIn depth payload.now first (length out.old) }
    ensures { out.new ≡ raw_from depth payload.now first (length out.old) }
{
    unpack_from(payload, first * depth, depth, out);
}
