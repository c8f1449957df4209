// Document 01, "Words and lookup": a plane's table written into its stretch of the workspace. One part of slots up to 12 bits; above
// that a first part of 4,096 slots and a second part, whose slots are the numbers of all bits of the longest length. After the
// lengths are counted, one pass over them writes each word into the slots that begin with it.
#![tactic(auto)]

ghost use Rattle.std.specs.Prelude.{◌≡◌, ◌+◌, ◌*◌, ◌-◌, ◌^◌, ◌≤◌, length};
ghost use Rattle.scope.specs.Words.{longest, shares, need};
ghost use Rattle.scope.specs.Lookup.{table_of};
ghost use Rattle.lists.specs.Parts.{replaced};
ghost use Rattle.words.specs.Weigh.{firsts_of};
ghost use Rattle.builder.specs.Slots.{slot_bits, slot_base, StretchWritten, WordSlots, Buildable, Slotted, SymbolAsked, SymbolPut};

use words::firsts;

// How many bits the slots have in which words of l bits stand, m being the longest length.
pub(crate) fn slot_bits(m: usize, l: usize) -> usize
    ensures { result ≡ slot_bits m l }
{
    if l <= 12 { m.min(12) } else { m }
}

// Where the part begins in which words of l bits stand.
pub(crate) fn slot_base(l: usize) -> usize
    ensures { result ≡ slot_base l }
{
    if l <= 12 { 0 } else { 4096 }
}

// Writes symbol s's word w, of l bits, into every slot that begins with it.
pub(crate) fn put(ws: &mut [u32], m: usize, l: usize, s: usize, w: u32)
    requires { WordSlots m l s w (length ws.old) }
    ensures { StretchWritten ws.old (slot_base l + w * 2 ^ (slot_bits m l - l)) (2 ^ (slot_bits m l - l)) (s * 256 + l) ws.new }
{
    let size: usize = 1 << (slot_bits(m, l) - l);
    let from = slot_base(l) + w as usize * size;
    ws[from..from + size].fill((s * 256 + l) as u32);
}

// Writes symbol s's word w, where it has one, and gives the word that the next symbol of its length gets.
pub(crate) fn place_symbol(ws: &mut [u32], m: usize, l: usize, s: usize, w: u32) -> u32
    requires { SymbolAsked m l s w (length ws.old) }
    ensures { SymbolPut m l s w ws.old result ws.new }
{
    if l == 0 {
        return w;
    }
    put(ws, m, l, s, w);
    w + 1
}

// Writes every symbol's word, in one pass over the lengths, m being the longest. `first` holds the first word of each length.
pub(crate) fn place(lengths: &[u8], first: [u32; 19], m: usize, ws: &mut [u32])
    requires { Buildable lengths.now m (length ws.old) × (first ≡ firsts_of lengths.now) }
    ensures { Slotted lengths.now ws.new (length lengths.now) }
{
    ws.fill(0);
    let mut next = first;
    for (s, length) in lengths.iter().enumerate() {
        let l = *length as usize;
        next[l] = place_symbol(ws, m, l, s, next[l]);
    }
}

// The table, in exactly the words that it needs. The first slots, one for each different first twelve bits of a longer word, lead to
// the second part: they are as many as the first word of 12 bits says, and none where no word is longer.
pub(crate) fn write_table(lengths: &[u8], m: usize, ws: &mut [u32])
    requires { Buildable lengths.now m (length ws.old) }
    ensures { ws.new ≡ table_of lengths.now }
{
    let first = firsts(lengths);
    let heads = first[12] as usize;
    place(lengths, first, m, ws);
    ws[..heads].fill(255);
}

// The table of lengths that pass refusals 9 and 10, m being the longest, in the workspace words from `from` to `to`, which are as
// many as it needs. It takes the whole workspace and two places in it, since its promise is also of the words around them, which stay.
pub fn build_part(lengths: &[u8], m: usize, workspace: &mut [u32], from: usize, to: usize)
    requires lengths_len_bound { (length lengths.now ≤ 16384) × (longest lengths.now ≤ 18) × (shares lengths.now ≤ 262144) }
    requires m_value { m ≡ longest lengths.now }
    requires from_le_to { (from ≤ to) × (to ≤ length workspace.old) × (to - from ≡ need lengths.now) }
    ensures { workspace.new ≡ replaced workspace.old from (to - from) (table_of lengths.now) }
{
    write_table(lengths, m, &mut workspace[from..to]);
}
