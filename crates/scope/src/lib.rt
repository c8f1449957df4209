// The types that every statement of this project speaks of. What they mean, and the whole of document 01, stands in
// specs/: a file for each of its headings. This crate has no function.
#![tactic(auto)]

// Document 01, "What comes in": Gray has 1 plane, Rgb and Yuv have 3, Rgba and Yuva have 4.
#[derive(Clone, Copy)]
pub enum Family {
    Gray,
    Rgb,
    Yuv,
    Rgba,
    Yuva,
}

// Document 01, "What comes in": one entry serves depth 8, one serves depths 10, 12 and 14.
#[derive(Clone, Copy)]
pub enum Entry {
    Eight,
    Deep,
}

// What the host read from the header: specs/Geometry.antt has the rules that each number must keep.
#[derive(Clone, Copy)]
pub struct Geometry {
    pub width: usize,
    pub height: usize,
    pub slice_height: usize,
    pub family: Family,
    pub sx: usize,
    pub sy: usize,
    pub depth: usize,
    pub interlaced: bool,
}

// One slice, as document 01's "Layout" places it: its number in wire order, the plane that it names and its place there, the plane's rows that the place
// covers (the first one, and how many) and their width, where the slice starts and ends in the frame, whether it is raw, and its
// predictor byte. specs/Layout.antt has what each is (`slice_at`). The byte is kept as it stands, since any may: 15 is given as it is read.
#[derive(Clone, Copy)]
pub struct SliceAt {
    pub number: usize,
    pub plane: usize,
    pub place: usize,
    pub first: usize,
    pub rows: usize,
    pub width: usize,
    pub start: usize,
    pub end: usize,
    pub raw: bool,
    pub predictor: u8,
}

// Where a refusal stands: at a slice, at a plane, or nowhere in particular.
#[derive(Clone, Copy)]
pub enum Place {
    Slice(usize),
    Plane(usize),
    Nothing,
}

// A refusal: its number in document 01's table, and its place. The number is a number, since the table numbers its rows and the theorems about it
// (`exactly_when`) speak of any.
#[derive(Clone, Copy)]
pub struct Refusal(pub u32, pub Place);

// What a function of the product answers.
pub type Answer = Result<(), Refusal>;

// A word that the lookup finds at a bit position: its length and its symbol.
#[derive(Clone, Copy)]
pub struct Word {
    pub length: usize,
    pub symbol: usize,
}
