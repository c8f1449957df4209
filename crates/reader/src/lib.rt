// Document 01: "a thin reader that holds the payload stands over it": a struct with the payload slice and bit position, few functions
// over covered ones; and one step of the coded loop over it ("takes every sample from that lookup"). `next` has plain parameters, so that
// the loops of crate chain hold no reader; they answer where they ended.
#![tactic(auto)]

ghost use Rattle.std.specs.Prelude.{◌≡◌, ◌<◌, ◌^◌};
ghost use Rattle.scope.specs.Lookup.{lookup_in};
ghost use Rattle.reader.specs.Stepping.{behind, step_to, step_from};

use lookup::lookup;
use scope::Word;

// The payload, and the bit position that the next word begins at.
#[derive(Clone, Copy)]
pub struct Reader<'a> {
    pub payload: &'a [u8],
    pub at: usize,
}

// One step past a word: its symbol, and the position at its end.
#[derive(Clone, Copy)]
pub struct Passed {
    pub symbol: usize,
    pub end: usize,
}

// Where a reading got stuck: no word fits the bits at this position. A reading that did not answers the position at its last word's end.
#[derive(Clone, Copy)]
pub struct Stuck {
    pub at: usize,
}

// The work of a step, over plain numbers: the position behind what is found.
fn behind(found: Option<Word>, at: usize) -> usize
    requires { behind found at < 2 ^ 64 }
    ensures { result ≡ behind found at }
{
    match found {
        None => at,
        Some(word) => at + word.length,
    }
}

// The step past what is found, with the position that the reader has then; none where no word is found.
fn step(found: Option<Word>, end: usize) -> Option<Passed>
    ensures { result ≡ step_to found end }
{
    let word = found?;
    Some(Passed {
        symbol: word.symbol,
        end,
    })
}

impl<'a> Reader<'a> {
    // A reader over a payload, at a bit position.
    pub fn over(payload: &'a [u8], at: usize) -> Reader<'a>
        ensures { (result.payload ≡ payload.entry) × (result.at ≡ at) }
    {
        Reader { payload, at }
    }

    // The bit position that it stands at.
    pub fn position(self) -> usize
        ensures { result ≡ self.entry.at }
    {
        self.at
    }

    // The word that the bits at its position begin with, by the table in `words` whose longest length is m.
    pub fn word(self, words: &[u32], m: usize) -> Option<Word>
        ensures { result ≡ lookup_in words.now m self.entry.payload.now self.entry.at }
    {
        lookup(words, m, self.payload, self.at)
    }

    // The reader past what was found there.
    pub fn past(self, found: Option<Word>) -> Reader<'a>
        requires { behind found self.at < 2 ^ 64 }
        ensures { (result.payload ≡ self.entry.payload) × (result.at ≡ behind found self.entry.at) }
    {
        Reader {
            payload: self.payload,
            at: behind(found, self.at),
        }
    }
}

// One step of the coded loop, at plain parameters: a reader is made, looks a word up, and steps past it.
pub fn next(words: &[u32], m: usize, payload: &[u8], at: usize) -> Option<Passed>
    requires { behind (lookup_in words.now m payload.now at) at < 2 ^ 64 }
    ensures { result ≡ step_from (lookup_in words.now m payload.now at) at }
{
    let r = Reader::over(payload, at);
    let found = r.word(words, m);
    step(found, r.past(found).position())
}
