// Document 01, "Words and lookup": the lookup, "from these and m alone, without the lengths".
#![tactic(auto)]

ghost use Rattle.std.specs.Prelude.{◌≡◌, get_or};
ghost use Rattle.scope.specs.Lookup.{unpacked, lookup_in};

use bits::peek;
use scope::Word;

// The word at i, and 0 past the end.
pub fn word(words: &[u32], i: usize) -> u32
    ensures { result ≡ get_or words.now i 0 }
{
    words.get(i).copied().unwrap_or(0)
}

// What a workspace word says.
fn unpack(e: u32) -> Option<Word>
    ensures { result ≡ unpacked e }
{
    if e % 256 == 0 {
        return None;
    }
    Some(Word {
        length: (e % 256) as usize,
        symbol: (e / 256) as usize,
    })
}

// The word that the bits at a position begin with, by the table in `words` whose longest length is m.
pub fn lookup(words: &[u32], m: usize, payload: &[u8], at: usize) -> Option<Word>
    ensures { result ≡ lookup_in words.now m payload.now at }
{
    if 18 < m {
        return None;
    }
    if m == 0 {
        return None;
    }
    if m <= 12 {
        return unpack(word(words, peek(payload, at, m) as usize));
    }
    let e = word(words, peek(payload, at, 12) as usize);
    if e % 256 == 255 {
        return unpack(word(words, 4096 + peek(payload, at, m) as usize));
    }
    unpack(e)
}
