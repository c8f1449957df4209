// The stored list of cases that program replay runs: where a case's numbers and parts stand, what memory is lent with, and the
// verdict. host/README.md, "The stored list", has the form; all numbers are little-endian and 32 bits. Document 01, "Refusal
// numbers", says what memory holds after an answer: the list stores that for the planes, whatever the answer is. Planes are lent
// with the complement of it at each place, so that a decoder that writes nothing, or trusts what it finds, is seen; after
// refusals 1 to 4, which leave memory as found, they are lent with it.
#![tactic(auto)]

ghost use Rattle.std.specs.Prelude.{◌≡◌, ℕ, ◌+◌, ◌*◌, ◌/◌, ◌≤◌, List, length, leb};
ghost use Rattle.std.proofs.Common.{rules};
ghost use Rattle.scope.specs.Base.{list_below};
ghost use Rattle.scope.specs.Layout.{le32};
ghost use Rattle.cases.specs.Form.{shape_of, stored_of, case_of, run_of, length_at};
ghost use Rattle.cases.specs.Held.{flip_of, held8, held16, lent8, lent16, lent_word, word_after, agrees, verdict_of};

use layout::le32_at;

// ---- the form

// The geometry that an entry is called with: numbers, as the stored list has them and as they cross to the entry. This and `Told` are types of
// their own, not the decoder's: the list's library stands on nothing of the decoder that it judges.
#[derive(Clone, Copy)]
pub struct Shape {
    pub width: u32,
    pub height: u32,
    pub slice_height: u32,
    pub family: u32,
    pub sx: u32,
    pub sy: u32,
    pub depth: u32,
    pub interlaced: u32,
}

// An answer: document 01's number (0 for planes), the kind of its place (0 nothing, 1 a slice, 2 a plane), which one. Numbers, as the stored
// list has them: a number that is no refusal's must be told from each that is.
#[derive(Clone, Copy)]
pub struct Told {
    pub number: u32,
    pub kind: u32,
    pub place: u32,
}

// The numbers of a case: the entry, 8 or 16, and its geometry; how much is lent; the stored answer; and where in the case what the
// planes must hold afterwards begins, then the frame, and where the case ends. The runs of lengths begin at 76.
#[derive(Clone, Copy)]
pub struct Case {
    pub entry: u32,
    pub shape: Shape,
    pub words: usize,
    pub samples: usize,
    pub lengths: usize,
    pub stored: Told,
    pub after: usize,
    pub frame: usize,
    pub end: usize,
}

fn number_at(case: &[u8], at: usize) -> u32
    requires { at + 4 ≤ length case.now }
    ensures { result ≡ le32 case.now at }
{
    le32_at(case, at) as u32
}

fn shape_of(case: &[u8]) -> Shape
    requires { 76 ≤ length case.now }
    ensures { result ≡ shape_of case.now }
{
    Shape {
        width: number_at(case, 4),
        height: number_at(case, 8),
        slice_height: number_at(case, 12),
        family: number_at(case, 16),
        sx: number_at(case, 20),
        sy: number_at(case, 24),
        depth: number_at(case, 28),
        interlaced: number_at(case, 32),
    }
}

fn stored_of(case: &[u8]) -> Told
    requires { 76 ≤ length case.now }
    ensures { result ≡ stored_of case.now }
{
    Told {
        number: number_at(case, 48),
        kind: number_at(case, 52),
        place: number_at(case, 56),
    }
}

// The numbers at the front of a case.
pub fn case_of(case: &[u8]) -> Case
    requires { 76 ≤ length case.now }
    ensures case { result ≡ case_of case.now }
    ensures ordered { (76 ≤ result.after) × (result.after ≤ result.frame) × (result.frame ≤ result.end) }
{
    let shape = shape_of(case);
    let stored = stored_of(case);
    let after = 76 + le32_at(case, 60);
    let frame = after + le32_at(case, 64);
    let end = frame + le32_at(case, 68);
    Case {
        entry: number_at(case, 0),
        shape,
        words: le32_at(case, 36),
        samples: le32_at(case, 40),
        lengths: le32_at(case, 44),
        stored,
        after,
        frame,
        end,
    }
}

// Run k of the lengths; 0 past the last.
fn run_of(runs: &[u8], k: usize) -> usize
    ensures { result ≡ run_of runs.now k }
{
    if k < runs.len() / 4 {
        return le32_at(runs, 4 * k);
    }
    0
}

// Whether the run has ended before place i.
fn is_over(run: usize, i: usize) -> bool
    ensures { result ≡ leb (run / 256) i }
{
    run / 256 <= i
}

// The lengths that a case lends, run by run.
pub fn spread(runs: &[u8], lengths: &mut [u8])
    ensures { lengths.new ≡ list_below (length lengths.old) (length_at runs.now) }
{
    let mut k = 0;
    for (i, length) in lengths.iter_mut().enumerate() {
        let run = run_of(runs, k);
        *length = (run % 256) as u8;
        if is_over(run, i + 1) {
            k += 1;
        }
    }
}

// ---- before the call

// Which bits of what a byte of the planes must hold afterwards are lent flipped: none where a refusal of this number leaves memory
// as found, else all. A number and no enum, here and below: a case may store any, and each contract answers for every one.
fn flip_of(number: u32) -> u8
    ensures { result ≡ flip_of number }
{
    match number {
        1..=4 => 0,
        _ => 255,
    }
}

// Every word of the workspace one value that is not zero.
pub fn lend_words(words: &mut [u32])
    ensures { words.new ≡ list_below (length words.old) (λ _. lent_word) }
{
    words.fill(2779096485);
}

// ---- after the answer

// What every word of the workspace must hold. Told as `flip_of` is, by two values of its own: a function for both would be given all of it.
fn word_after(number: u32) -> u32
    ensures { result ≡ word_after number }
{
    match number {
        1..=4 => 2779096485,
        _ => 0,
    }
}

// Whether every word holds what it must where the stored answer has this number.
pub fn holds_words(words: &[u32], number: u32) -> bool
    ensures { result ≡ agrees (λ _. word_after number) words.now (length words.now) }
{
    let word = word_after(number);
    words.iter().all(|w| *w == word)
}

// ---- planes, at either width

// A sample as the list has it, at either width: how the planes of a case are lent, and whether they hold what they must. `after` is what they
// must hold afterwards, byte for byte. A contract speaks of planes by `values`, the list of their numbers; at u8 and u16 that is the list itself.
pub trait Listed: Copy {
    ghost values: { List Self → List ℕ };

    ghost BYTES: { ℕ };

    // What place i of the planes must hold; and what is lent there, with these bits of each byte flipped.
    ghost held: { List ℕ → ℕ → ℕ };

    ghost lent: { List ℕ → ℕ → ℕ → ℕ };

    // How many bytes of the list a sample takes.
    const BYTES: usize;

    // The planes of a case whose stored answer has this number.
    fn lend(after: &[u8], number: u32, planes: &mut [Self])
        requires { BYTES * length planes.old ≤ length after.now }
        ensures { values planes.new ≡ list_below (length planes.old) (lent after.now (flip_of number)) };

    // Whether the planes hold what they must.
    fn holds(planes: &[Self], after: &[u8]) -> bool
        requires { BYTES * length planes.now ≤ length after.now }
        ensures { result ≡ agrees (held after.now) (values planes.now) (length planes.now) };

    ghost few_bytes: { BYTES ≤ 2 };
}

// A byte a sample.
impl Listed for u8 {
    ghost values = { λ xs. xs };

    ghost BYTES = { 1 };

    ghost held = { held8 };

    ghost lent = { lent8 };

    const BYTES: usize = 1;

    ghost few_bytes = { Prim.search rules };

    fn lend(after: &[u8], number: u32, planes: &mut [u8]) {
        let flip = flip_of(number);
        for (i, sample) in planes.iter_mut().enumerate() {
            *sample = after[i] ^ flip;
        }
    }

    fn holds(planes: &[u8], after: &[u8]) -> bool {
        planes.iter().zip(after).all(|(p, a)| *p == *a)
    }
}

// Two bytes a sample, the low one first.
impl Listed for u16 {
    ghost values = { λ xs. xs };

    ghost BYTES = { 2 };

    ghost held = { held16 };

    ghost lent = { lent16 };

    const BYTES: usize = 2;

    ghost few_bytes = { Prim.search rules };

    fn lend(after: &[u8], number: u32, planes: &mut [u16]) {
        let flip = flip_of(number);
        for (i, sample) in planes.iter_mut().enumerate() {
            *sample = u16::from_le_bytes([after[2 * i] ^ flip, after[2 * i + 1] ^ flip]);
        }
    }

    fn holds(planes: &[u16], after: &[u8]) -> bool {
        let (pairs, _) = after.as_chunks::<2>();
        planes
            .iter()
            .zip(pairs)
            .all(|(p, a)| *p == u16::from_le_bytes(*a))
    }
}

// ---- the verdict

// What of a case did not come out as stored; or that its bytes are not of the form, or ask for more memory than there is.
#[derive(Clone, Copy)]
pub enum Wrong {
    Number,
    Kind,
    Place,
    Sample,
    Word,
    Form,
}

// `Ok` where a case came out as stored.
pub type Verdict = Result<(), Wrong>;

// The first of number, kind, place, samples and workspace words that is not as stored.
pub fn judge(told: Told, stored: Told, samples: bool, words: bool) -> Verdict
    ensures { result ≡ verdict_of told stored samples words }
{
    if told.number != stored.number {
        return Err(Wrong::Number);
    }
    if told.kind != stored.kind {
        return Err(Wrong::Kind);
    }
    if told.place != stored.place {
        return Err(Wrong::Place);
    }
    if !samples {
        return Err(Wrong::Sample);
    }
    if !words {
        return Err(Wrong::Word);
    }
    Ok(())
}
