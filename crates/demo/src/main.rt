// Decodes small frames that are built in, then runs document 01's "Known answers" that are not proved together as one table (those
// are in scope's specs/Known.antt). For each it prints the answer and what is left in the lent memory: the samples as they lie in
// the plane buffer, and whether the workspace is zero. Samples are 170 throughout before each call, and the workspace 9, so that
// nothing printed can be what was there. The file stdout beside src/ has what must be printed: the pictures that the frames were
// made from, and what document 01 says.
#![tactic(auto)]

mod coded;
mod frames;
mod put;

ghost use Rattle.std.specs.Prelude.{◌≤◌, ◌<◌, length};

use decode::{decode8, decode16};
use frames::SMALL;
use scope::{Family, Geometry};
use std::io;

// A geometry with planes of one size and without fields.
fn plain(
    family: Family,
    width: usize,
    height: usize,
    slice_height: usize,
    depth: usize,
) -> Geometry {
    Geometry {
        width,
        height,
        slice_height,
        family,
        sx: 1,
        sy: 1,
        depth,
        interlaced: false,
    }
}

// The lengths of a code (coded.rt), in memory that is zero; a place past the memory is left out.
fn set_lengths(code: &[(usize, u8)], lengths: &mut [u8]) {
    for &(at, length) in code {
        if let Some(l) = lengths.get_mut(at) {
            *l = length;
        }
    }
}

// ---- the built-in frames

// Slices that do not come plane by plane, raw and coded, with every predictor; B' and R' become B and R.
fn rgb(rt: &impl Print) -> io::Result<()> {
    let g = plain(Family::Rgb, 4, 4, 2, 8);
    let mut lengths = [0u8; 768];
    let mut planes = [170u8; 48];
    let mut workspace = [9u32; 13];
    set_lengths(&coded::RGB, &mut lengths);
    let a = decode8(&frames::RGB, g, &lengths, &mut planes, &mut workspace);
    put::answer(rt, "planes", a)?;
    put::samples(rt, "\n  G:", &planes[0..16])?;
    put::samples(rt, "\n  B:", &planes[16..32])?;
    put::samples(rt, "\n  R:", &planes[32..48])?;
    put::workspace(rt, "\n  workspace", &workspace)
}

// Two fields, planes of two sizes, and a last place that is cut.
fn yuv(rt: &impl Print) -> io::Result<()> {
    let g = Geometry {
        width: 4,
        height: 6,
        slice_height: 4,
        family: Family::Yuv,
        sx: 2,
        sy: 2,
        depth: 8,
        interlaced: true,
    };
    let mut lengths = [0u8; 768];
    let mut planes = [170u8; 36];
    let mut workspace = [9u32; 44];
    set_lengths(&coded::YUV, &mut lengths);
    let a = decode8(&frames::YUV, g, &lengths, &mut planes, &mut workspace);
    put::answer(rt, "planes", a)?;
    put::samples(rt, "\n  Y:", &planes[0..24])?;
    put::samples(rt, "\n  U:", &planes[24..30])?;
    put::samples(rt, "\n  V:", &planes[30..36])?;
    put::workspace(rt, "\n  workspace", &workspace)
}

// The entry for 10, 12 and 14 bits, with words of up to 14 bits.
fn deep(rt: &impl Print) -> io::Result<()> {
    let g = plain(Family::Gray, 4, 3, 3, 10);
    let mut lengths = [0u8; 1024];
    let mut planes = [170u16; 12];
    let mut workspace = [9u32; 4100];
    set_lengths(&coded::DEEP, &mut lengths);
    let a = decode16(&frames::DEEP, g, &lengths, &mut planes, &mut workspace);
    put::answer(rt, "planes", a)?;
    put::samples(rt, "\n  plane 0:", &planes)?;
    put::workspace(rt, "\n  workspace", &workspace)
}

// What is printed before the samples, and before what is said of the workspace.
#[derive(Clone, Copy)]
struct Titles {
    samples: &'static str,
    workspace: &'static str,
}

// On lines of their own.
const BELOW: Titles = Titles {
    samples: "\n  plane 0:",
    workspace: "\n  workspace",
};

// On the answer's line.
const BESIDE: Titles = Titles {
    samples: "; samples",
    workspace: "; workspace",
};

// A frame without words, of at most 3 planes and 3 samples.
fn raw(
    rt: &impl Print,
    frame: &[u8],
    g: Geometry,
    planes: &mut [u8],
    lengths: usize,
    titles: Titles,
) -> io::Result<()>
    requires { lengths ≤ 768 }
{
    let mut workspace = [9u32; 4];
    let a = decode8(frame, g, &coded::NONE[0..lengths], planes, &mut workspace);
    put::answer(rt, "planes", a)?;
    put::samples(rt, titles.samples, planes)?;
    put::workspace(rt, titles.workspace, &workspace)
}

// Document 01's frame, or a part or a spoiled form of it.
fn gray(rt: &impl Print, title: &str, frame: &[u8], titles: Titles) -> io::Result<()> {
    let mut planes = [170u8; 2];
    let g = plain(Family::Gray, 2, 1, 1, 8);
    rt.print(title)?;
    raw(rt, frame, g, &mut planes, 256, titles)
}

fn built_in(rt: &impl Print) -> io::Result<()> {
    gray(
        rt,
        "Gray 2x1, 8 bits, the frame of 46 bytes: ",
        &SMALL,
        BELOW,
    )?;
    gray(rt, "the same, cut to 45 bytes: ", &SMALL[0..45], BELOW)?;
    rt.print("Rgb 4x4, 8 bits, slices of planes 1 0 2 2 1 0: ")?;
    rgb(rt)?;
    rt.print("Yuv 4:2:0 4x6, 8 bits, interlaced, slices of planes 0 2 1 1 0 2: ")?;
    yuv(rt)?;
    rt.print("Gray 4x3, 10 bits, words of 1 to 14 bits: ")?;
    deep(rt)
}

// ---- the known answers

// A table built by itself in the first words of a workspace. Where it is refused all of the workspace is looked at, else what lies
// past the need.
fn build_in(
    rt: &impl Print,
    lengths: &[u8],
    lent: usize,
    need: usize,
    workspace: &mut [u32],
) -> io::Result<()>
    requires { (lent ≤ length workspace.old) × (need ≤ length workspace.old) }
{
    let a = alone::build(lengths, &mut workspace[0..lent]);
    put::answer(rt, "built", a)?;
    match a {
        Err(_) => put::workspace(rt, "; workspace", workspace),
        Ok(()) => put::workspace(rt, "; past the need", &workspace[need..]),
    }
}

fn build(rt: &impl Print, title: &str, lengths: &[u8], lent: usize, need: usize) -> io::Result<()>
    requires { (lent ≤ 4100) × (need ≤ 4100) }
{
    let mut workspace = [9u32; 4100];
    rt.print(title)?;
    build_in(rt, lengths, lent, need, &mut workspace)
}

// Samples read by themselves, as many as are lent.
fn read_in(
    rt: &impl Print,
    lengths: &[u8],
    payload: &[u8],
    workspace: &mut [u32],
    samples: &mut [u16],
) -> io::Result<()> {
    let a = alone::read(lengths, payload, workspace, samples);
    put::answer(rt, "read", a)?;
    put::samples(rt, "; samples", samples)?;
    put::workspace(rt, "; workspace", workspace)
}

fn read(rt: &impl Print, title: &str, lengths: &[u8], payload: &[u8], n: usize) -> io::Result<()>
    requires { n ≤ 6 }
{
    let mut samples = [170u16; 6];
    let mut workspace = [9u32; 4100];
    rt.print(title)?;
    read_in(rt, lengths, payload, &mut workspace, &mut samples[0..n])
}

// Document 01's frame with one byte changed.
fn spoiled(rt: &impl Print, title: &str, at: usize, byte: u8) -> io::Result<()>
    requires { at < 46 }
{
    let mut frame = SMALL;
    frame[at] = byte;
    gray(rt, title, &frame, BESIDE)
}

fn dot(rt: &impl Print, title: &str, frame: &[u8]) -> io::Result<()> {
    let mut planes = [170u8; 3];
    let g = plain(Family::Rgb, 1, 1, 1, 8);
    rt.print(title)?;
    raw(rt, frame, g, &mut planes, 768, BESIDE)
}

// Needs: one word fewer is refused.
fn needs(rt: &impl Print) -> io::Result<()> {
    build(
        rt,
        "lengths all zero, 0 words lent: ",
        &coded::NONE[0..256],
        0,
        1,
    )?;
    build(
        rt,
        "lengths all zero, 1 word lent: ",
        &coded::NONE[0..256],
        1,
        1,
    )?;
    build(
        rt,
        "lengths 13 1, 4097 words lent: ",
        b"\x0d\x01",
        4097,
        4098,
    )?;
    build(
        rt,
        "lengths 13 1, 4098 words lent: ",
        b"\x0d\x01",
        4098,
        4098,
    )?;
    build(
        rt,
        "lengths 13 1, 4100 words lent: ",
        b"\x0d\x01",
        4100,
        4098,
    )
}

// Words: under 13 1 they are thirteen zeros and 1, so that twelve zeros and a one begin none; under 1 2 2 the sixth sample comes from
// past the end.
fn words(rt: &impl Print) -> io::Result<()> {
    read(
        rt,
        "lengths 13 1, bytes 00 04: ",
        b"\x0d\x01",
        b"\x00\x04",
        2,
    )?;
    read(
        rt,
        "lengths 13 1, bytes 80 02: ",
        b"\x0d\x01",
        b"\x80\x02",
        3,
    )?;
    read(
        rt,
        "lengths 13 1, bytes 00 08: ",
        b"\x0d\x01",
        b"\x00\x08",
        1,
    )?;
    read(rt, "lengths 1 2 2, byte 8C: ", b"\x01\x02\x02", b"\x8c", 4)?;
    read(rt, "lengths 1 2 2, byte 8C: ", b"\x01\x02\x02", b"\x8c", 6)
}

// Whole frames.
fn whole(rt: &impl Print) -> io::Result<()> {
    gray(rt, "the frame of 46 bytes: ", &SMALL, BESIDE)?;
    gray(rt, "cut to 45 bytes: ", &SMALL[0..45], BESIDE)?;
    spoiled(rt, "predictor byte 0: ", 43, 0)?;
    spoiled(rt, "entry 1 of 7: ", 36, 7)?;
    spoiled(rt, "entry 1 of 8: ", 36, 8)?;
    spoiled(rt, "entry 1 of 9: ", 36, 9)?;
    spoiled(rt, "count byte 2: ", 40, 2)?;
    dot(rt, "Rgb, K = 1, indices 0 1 2: ", &frames::DOT)?;
    dot(rt, "Rgb, K = 1, indices 0 0 1: ", &frames::TWICE)
}

fn main(rt: HostRuntime) -> io::Result<()> {
    built_in(&rt)?;
    needs(&rt)?;
    words(&rt)?;
    whole(&rt)
}
