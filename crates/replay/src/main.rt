// Replays the stored list of cases, data/cases.myrl, over the host's entries (crate magicyuv): 404 frames with the answer of the
// customer's Rust (291), its number with document 01's place (15), or document 01's (98), and what the planes hold after each. The
// list is written by `cargo run --release -p replay-list -- FILE` in host/, seed 2026; host/README.md, "The stored list", has its
// form.
//
// Each case is decoded into memory that crate cases lends, which holds something else than it must hold afterwards, and judged by
// it. A line says which case came out wrong and in what; the last line counts. A list that cannot be opened, or a line that cannot
// be printed, ends the program with that error.
#![tactic(auto)]

ghost use Rattle.std.specs.Prelude.{◌*◌, ◌≤◌, length, IfSome, IfOk};

use cases::{Case, Listed, Shape, Told, Verdict, Wrong};
use magicyuv::Reply;
use std::io::Read;
use std::rt::Files;
use std::{fs, io};

// ---- what is printed

// Whether the case is wrong, with a line that says in what; the words are this program's alone, so that the type has no Display.
fn print_verdict(rt: &impl Print, i: usize, v: Verdict) -> io::Result<bool> {
    let what = match v {
        Ok(()) => return Ok(false),
        Err(Wrong::Number) => "the number",
        Err(Wrong::Kind) => "the kind of place",
        Err(Wrong::Place) => "the place",
        Err(Wrong::Sample) => "a sample",
        Err(Wrong::Word) => "a workspace word",
        Err(Wrong::Form) => "not of the form, or larger than the memory",
    };
    println!(rt; "{i} WRONG: {what}")?;
    Ok(true)
}

// ---- a width of samples

// 8 bits, for depth 8, or 16 bits, for 10, 12 and 14: a sample as the list has it, with the entry that decodes planes of such samples.
trait Width: Listed {
    // A depth that the width's entry serves.
    const DEPTH: u32;

    // The width's entry: the bodies below differ in its name alone. It is called from two places (docs/DECISIONS.md, 36).
    fn decode(
        g: Shape,
        frame: &[u8],
        lengths: &[u8],
        planes: &mut [Self],
        words: &mut [u32],
    ) -> Reply;
}

impl Width for u8 {
    const DEPTH: u32 = 8;

    fn decode(
        g: Shape,
        frame: &[u8],
        lengths: &[u8],
        planes: &mut [u8],
        words: &mut [u32],
    ) -> Reply {
        magicyuv::magicyuv_decode8(
            frame,
            lengths,
            planes,
            words,
            g.width,
            g.height,
            g.slice_height,
            g.family,
            g.sx,
            g.sy,
            g.depth,
            g.interlaced,
        )
    }
}

impl Width for u16 {
    const DEPTH: u32 = 10;

    fn decode(
        g: Shape,
        frame: &[u8],
        lengths: &[u8],
        planes: &mut [u16],
        words: &mut [u32],
    ) -> Reply {
        magicyuv::magicyuv_decode16(
            frame,
            lengths,
            planes,
            words,
            g.width,
            g.height,
            g.slice_height,
            g.family,
            g.sx,
            g.sy,
            g.depth,
            g.interlaced,
        )
    }
}

// ---- a case

// A case, in just the memory that it asks for.
fn replay<T: Width>(
    c: Case,
    after: &[u8],
    frame: &[u8],
    lengths: &[u8],
    planes: &mut [T],
    words: &mut [u32],
) -> Verdict
    requires { T.BYTES * length planes.old ≤ length after.now }
{
    let stored = c.stored;
    T::lend(after, stored.number, planes);
    cases::lend_words(words);
    let reply = T::decode(c.shape, frame, lengths, planes, words);
    // No From: a reply is magicyuv's and what is told cases', so that no impl can stand here.
    let told = Told {
        number: reply.number,
        kind: reply.kind,
        place: reply.place,
    };
    cases::judge(
        told,
        stored,
        T::holds(planes, after),
        cases::holds_words(words, stored.number),
    )
}

// Of the memory there is a case is lent as much as it asks for.
fn replay_lent<T: Width>(
    c: Case,
    after: &[u8],
    frame: &[u8],
    lengths: &[u8],
    planes: &mut [T],
) -> Verdict
    requires { length planes.old ≤ 400 }
{
    let mut words = [0; 20000];
    if planes.len() < c.samples || 20000 < c.words || after.len() != T::BYTES * c.samples {
        return Err(Wrong::Form);
    }
    replay(
        c,
        after,
        frame,
        lengths,
        &mut planes[..c.samples],
        &mut words[..c.words],
    )
}

// By the entry of a case's width. The other one must refuse the case by 1, since no depth is served by both.
fn replay_entry<T: Width, Other: Width>(
    c: Case,
    after: &[u8],
    frame: &[u8],
    lengths: &[u8],
    planes: &mut [T],
    other: &mut [Other],
) -> Verdict
    requires { length planes.old ≤ 400 }
{
    let g = Shape {
        depth: T::DEPTH,
        ..c.shape
    };
    let reply = Other::decode(g, frame, lengths, other, &mut [0; 4]);
    if reply.number != 1 {
        return Err(Wrong::Number);
    }
    replay_lent(c, after, frame, lengths, planes)
}

// A case by its parts, with the lengths that its runs spell, by the entry that it names.
fn replay_case(case: &[u8], c: Case, lengths: &mut [u8]) -> Verdict
    requires { (76 ≤ c.after) × (c.after ≤ c.frame) × (c.frame ≤ c.end) × (c.end ≤ length case.now) }
{
    let lengths = lengths.get_mut(..c.lengths).ok_or(Wrong::Form)?;
    cases::spread(&case[76..c.after], lengths);
    let after = &case[c.after..c.frame];
    let frame = &case[c.frame..c.end];
    match c.entry {
        8 => replay_entry(c, after, frame, lengths, &mut [0u8; 400], &mut [0u16; 4]),
        16 => replay_entry(c, after, frame, lengths, &mut [0u16; 400], &mut [0u8; 4]),
        _ => Err(Wrong::Form),
    }
}

// ---- the list

// How many bytes of the list a case took, and whether it is wrong.
#[derive(Clone, Copy)]
pub struct Taken {
    pub bytes: usize,
    pub wrong: bool,
}

// The case at the front of the rest of the list, where that is a whole one.
fn whole_case(rest: &[u8]) -> Option<Case>
    ensures { IfSome result (λ c. (76 ≤ c.after) × (c.after ≤ c.frame) × (c.frame ≤ c.end) × (c.end ≤ length rest.now)) }
{
    if rest.len() < 76 {
        return None;
    }
    let c = cases::case_of(rest);
    if rest.len() < c.end {
        return None;
    }
    Some(c)
}

// The case at the front of the rest of the list; all of the rest where that is no whole case.
fn replay_next(rt: &impl Print, i: usize, rest: &[u8], lengths: &mut [u8]) -> io::Result<Taken>
    requires { 1 ≤ length rest.now }
    ensures { IfOk result (λ t. (1 ≤ t.bytes) × (t.bytes ≤ length rest.now)) }
{
    let (bytes, verdict) = match whole_case(rest) {
        Some(c) => (c.end, replay_case(rest, c, lengths)),
        None => (rest.len(), Err(Wrong::Form)),
    };
    Ok(Taken {
        bytes,
        wrong: print_verdict(rt, i, verdict)?,
    })
}

// Every case, one after another; then how many there were, and how many were wrong.
fn replay_all(rt: &impl Print, list: &[u8], lengths: &mut [u8]) -> io::Result<()> {
    let mut at = 0;
    let mut i = 0;
    let mut wrong = 0;
    // A `while`, since each case says itself how long it is.
    while at < list.len() {
        let t = replay_next(rt, i, &list[at..], lengths)?;
        at += t.bytes;
        i += 1;
        wrong += usize::from(t.wrong);
    }
    println!(rt; "{i} cases, {wrong} wrong")
}

// Reads until the buffer is full, the input ends or a read fails: how many bytes lie at its front now.
fn read_full(input: &mut impl Read, buffer: &mut [u8]) -> usize
    ensures { result ≤ length buffer.new }
{
    let mut done = 0;
    // A `while`, since a read gives as many bytes as it will.
    while done < buffer.len() {
        let n = input.read(&mut buffer[done..]).unwrap_or(0);
        if n == 0 {
            break;
        }
        done += n;
    }
    done
}

// How many bytes of the stored list lie at the front of `list` now.
fn read_list(rt: &impl Files, list: &mut [u8]) -> io::Result<usize>
    ensures { IfOk result (λ n. n ≤ length list.new) }
{
    let mut file = fs::open(rt, "cases.myrl")?;
    Ok(read_full(&mut file, list))
}

fn main(rt: HostRuntime) -> io::Result<()> {
    let mut list = [0; 327680];
    let n = read_list(&rt, &mut list)?;
    let mut lengths = [0; 65536]; // of a case
    replay_all(&rt, &list[..n], &mut lengths)
}
