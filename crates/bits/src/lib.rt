// Document 01, "Layout": the bits of a payload, highest bit of each byte first and zero past the end.
#![tactic(auto)]

ghost use Rattle.std.specs.Prelude.{◌≡◌, ◌+◌, ◌*◌, ◌/◌, ◌<◌, ◌≤◌, ◌^◌, length, get_or};
ghost use Rattle.scope.specs.Bits.{window};

// The byte at i, and 0 past the end. One call of the library, here and in layout, of which neither stands on the other.
fn byte(payload: &[u8], i: usize) -> u8
    ensures { result ≡ get_or payload.now i 0 }
{
    payload.get(i).copied().unwrap_or(0)
}

// Four bytes as one number, the first one highest.
fn joined(a: u8, b: u8, c: u8, d: u8) -> u32
    ensures { result ≡ ((a * 256 + b) * 256 + c) * 256 + d }
{
    u32::from_be_bytes([a, b, c, d])
}

// The 32 bits from byte i on. Where all four bytes are in the payload they are read without a test each.
fn four(payload: &[u8], i: usize) -> u32
    requires { i < 2 ^ 61 }
    ensures { result ≡ window payload.now (i * 8) 32 }
{
    if i + 4 <= payload.len() {
        return joined(payload[i], payload[i + 1], payload[i + 2], payload[i + 3]);
    }
    joined(
        byte(payload, i),
        byte(payload, i + 1),
        byte(payload, i + 2),
        byte(payload, i + 3),
    )
}

// The 64 bits from byte i on, all eight bytes being in the payload: a caller that has tested that once reads them without a test each.
// Joined in two halves, since so they compile to one load and a byte swap, and one flat sum of eight bytes does not; and so that there are halves to
// be joined the wrong way (must-fail/second_half_first.edit).
pub fn eight(payload: &[u8], i: usize) -> u64
    requires { i + 8 ≤ length payload.now }
    ensures { result ≡ window payload.now (i * 8) 64 }
{
    let high = joined(payload[i], payload[i + 1], payload[i + 2], payload[i + 3]);
    let j = i + 4;
    let low = joined(payload[j], payload[j + 1], payload[j + 2], payload[j + 3]);
    (high as u64) * 4294967296 + low as u64
}

// 2^k. A function of its own, since the prover does not see of a bare shift, which is modulo 2^64, that it may divide.
pub fn power(k: usize) -> u64
    requires { k ≤ 18 }
    ensures { result ≡ 2 ^ k }
{
    1 << k
}

// The k bits from a position on, as a number whose highest bit comes first. They begin in byte at / 8, at one of its eight bits, and
// there are at most 18 of them: four bytes have them all. Counted from that byte, since a position may be any number and the sum of
// it and k need not fit; in 64 bits, since no bit at all is a shift by 32.
pub fn peek(payload: &[u8], at: usize, k: usize) -> u32
    requires { k ≤ 18 }
    ensures { result ≡ window payload.now at k }
{
    let o = at % 8;
    let w = four(payload, at / 8) as u64;
    ((w >> (32 - o - k)) % power(k)) as u32
}
