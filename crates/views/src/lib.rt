// Rows of a width that stand every pitch elements in a buffer, and two views of it: its samples and its gaps. Definitions in specs/, laws
// in proofs/; no function. Today every pitch is its width and there is no gap (document 01: "Planes lie one after another with no
// gaps"); the loops over rows are proved for any pitch.
#![tactic(auto)]

// A stretch of rows of the plane buffer: it starts at element `at`, and its rows start every `pitch` elements.
#[derive(Clone, Copy)]
pub struct Stretch {
    pub at: usize,
    pub width: usize,
    pub pitch: usize,
    pub rows: usize,
}

// Rows of a buffer from its first element on: how wide they are, how far one starts behind the one before, and how many they are.
#[derive(Clone, Copy)]
pub struct Rows {
    pub width: usize,
    pub pitch: usize,
    pub count: usize,
}
