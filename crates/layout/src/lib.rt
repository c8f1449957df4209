// Document 01, "Layout": the named readers of a frame, through which alone it is read. A byte past the frame's end reads as 0, as the
// definitions have it, so that every reader has an answer; the checks refuse a frame that is too short before anything of it is used.
#![tactic(auto)]

ghost use Rattle.std.specs.Prelude.{◌≡◌, ◌+◌, ◌*◌, ◌%◌, ◌<◌, ◌≤◌, ◌^◌, eqb, get_or};
ghost use Rattle.scope.specs.Geometry.{slice_count};
ghost use Rattle.scope.specs.Layout.{le32, preamble_end, count_byte, plane_index, slice_start, slice_end, slice_at};
ghost use Rattle.layout.specs.Placed.{Placed};

use geometry::SoundGeometry;
use scope::{Geometry, SliceAt};
use sides::{place_rows, plane_slice_height, plane_width, slice_count};

// ---- bytes

// The byte at an offset; 0 past the end.
fn byte_at(frame: &[u8], at: usize) -> u8
    ensures { result ≡ get_or frame.now at 0 }
{
    frame.get(at).copied().unwrap_or(0)
}

// The same in 64 bits.
fn number_at(frame: &[u8], at: usize) -> usize
    ensures { (result ≡ get_or frame.now at 0) × (result < 256) }
{
    usize::from(byte_at(frame, at))
}

// The little-endian 32-bit number at an offset, in 64 bits.
pub fn le32_at(frame: &[u8], at: usize) -> usize
    requires { at + 3 < 2 ^ 64 }
    ensures { (result ≡ le32 frame.now at) × (result < 4294967296) }
{
    let bytes = [
        byte_at(frame, at),
        byte_at(frame, at + 1),
        byte_at(frame, at + 2),
        byte_at(frame, at + 3),
    ];
    u32::from_le_bytes(bytes) as usize
}

// ---- the preamble

// Where it ends: at entry 1.
pub fn preamble_end(frame: &[u8]) -> usize
    ensures { (result ≡ preamble_end frame.now) × (result < 4294967328) }
{
    32 + le32_at(frame, 36)
}

// Its first byte, the plane count.
pub fn count_byte(frame: &[u8], g: SoundGeometry) -> usize
    ensures { result ≡ count_byte frame.now g.of }
{
    let t = slice_count(g);
    number_at(frame, 32 + 4 * (t + 1))
}

// The plane that slice s names. That s is below T is asked beside the geometry, here and below, since T is that geometry's.
pub fn plane_index(frame: &[u8], g: SoundGeometry, s: usize) -> usize
    requires { s < slice_count g.of }
    ensures { result ≡ plane_index frame.now g.of s }
{
    let t = slice_count(g);
    number_at(frame, 32 + 4 * (t + 1) + 1 + s)
}

// ---- one slice

// Where slice s starts.
fn slice_start(frame: &[u8], g: Geometry, s: usize) -> usize
    requires { s < 65536 }
    ensures { (result ≡ slice_start frame.now g s) × (result < 4294967328) }
{
    32 + le32_at(frame, 32 + 4 * (s + 1))
}

// Where it ends: where the next starts, and the last where the frame ends.
fn slice_end(frame: &[u8], g: SoundGeometry, s: usize) -> usize
    requires { s < slice_count g.of }
    ensures { result ≡ slice_end frame.now g.of s }
{
    let t = slice_count(g);
    if s + 1 < t {
        return slice_start(frame, g.of, s + 1);
    }
    frame.len()
}

// Of the flag byte only bit 0 is read: set means raw.
fn is_raw(flag: u8) -> bool
    ensures { result ≡ eqb (flag % 2) 1 }
{
    flag % 2 == 1
}

// All of it: slice s, which is place k of plane p (`Placed`: the frame, s, p and k of one call, and so of no type).
pub fn slice_at(frame: &[u8], g: SoundGeometry, s: usize, p: usize, k: usize) -> SliceAt
    requires s_bound { s < slice_count g.of }
    requires placed { Placed frame.now g.of s p k }
    ensures slice { result ≡ slice_at frame.now g.of s }
    ensures bounds { (result.start < 4294967328) × (result.rows * result.width ≤ 268435456) }
{
    let start = slice_start(frame, g.of, s);
    let end = slice_end(frame, g, s);
    let height = plane_slice_height(g, p);
    let rows = place_rows(g, p, k);
    let width = plane_width(g, p);
    let raw = is_raw(byte_at(frame, start));
    let predictor = byte_at(frame, start + 1);
    SliceAt {
        number: s,
        plane: p,
        place: k,
        first: k * height,
        rows,
        width,
        start,
        end,
        raw,
        predictor,
    }
}
