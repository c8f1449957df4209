// Lent memory: a workspace set to zero, and the sum of two samples modulo 2^depth. Document 01, "Refusal numbers" ("leave both wholly
// zero") and "All sums are modulo 2^depth". The law of a loop that rebuilds a list in place stands in proofs/InPlace.antt, once for
// every element and every step; buffer has the loops over samples.
#![tactic(auto)]

ghost use Rattle.std.specs.Prelude.{◌≡◌, ◌+◌, ◌%◌, ◌^◌, ◌≤◌};
ghost use Rattle.scope.specs.Base.{zeros};

// Every word of a workspace becomes zero. A function of its own for its promise, which refusals and successes are said to keep.
pub fn clear_u32(words: &mut [u32])
    ensures { words.new ≡ zeros words.old }
{
    for i in 0..words.len() {
        words[i] = 0;
    }
}

// 2^depth, the modulus of every sum. It is a shift, so that a remainder by it is a mask once it is compiled.
fn modulus(depth: usize) -> u32
    requires { depth ≤ 16 }
    ensures { result ≡ 2 ^ depth }
{
    1u32 << depth
}

// The sum of two samples of 8 bits, modulo 2^8, where it wraps. The depth is 8; sum_u16 has the same parameters.
pub fn sum_u8(a: u8, b: u8, depth: usize) -> u8
    requires { depth ≡ 8 }
    ensures { result ≡ (a + b) % 2 ^ depth }
{
    a.wrapping_add(b)
}

// The sum of two samples of 16 bits, modulo 2^depth. The samples may be 2^depth or more. The sum wraps at 16 bits, so that all of it
// is done at 16 bits once it is compiled; 2^depth divides 2^16.
pub fn sum_u16(a: u16, b: u16, depth: usize) -> u16
    requires { depth ≤ 16 }
    ensures { result ≡ (a + b) % 2 ^ depth }
{
    let sum = a.wrapping_add(b);
    (sum as u32 % modulus(depth)) as u16
}
