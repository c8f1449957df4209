// A sample, at either width: what the functions that serve both widths ask of it. Document 01, "What comes in": 8 bits at depth 8, 16 bits
// at depths 10, 12 and 14. A contract of theirs speaks of a list of samples by `values`, the list of their numbers; at u8 and u16 that is the
// list itself.
#![tactic(auto)]

ghost use Rattle.std.specs.Prelude.{◌≡◌, ℕ, ◌+◌, ◌%◌, ◌^◌, ◌<◌, ◌≤◌, List};
ghost use Rattle.std.proofs.Common.{rules};
ghost use Rattle.sample.specs.Values.{ValuesLaws, own_values};
ghost use Rattle.sample.specs.Depths.{eight_bound, eight_fits, deep_bound, deep_fits};

use memory::{sum_u8, sum_u16};

pub trait Sample: Copy {
    // The number that a sample is, and the numbers of a list of them.
    ghost value: { Self → ℕ };

    ghost values: { List Self → List ℕ };

    // How many numbers a sample can be.
    ghost limit: { ℕ };

    // The depths of this width. A depth stays a number with a clause that says this of it: it is lent as a number, and definitions count with it.
    ghost Depth: { ℕ → Type 0 };

    // The sample that is the number n.
    fn of(n: u32) -> Self
        requires { n < limit }
        ensures { value result ≡ n };

    // The sum of two samples, modulo 2^depth.
    fn sum(self, other: Self, depth: usize) -> Self
        requires { Depth depth }
        ensures { value result ≡ (value self + value other) % 2 ^ depth };

    // `values` takes each sample for its number.
    ghost laws: { ValuesLaws value values };

    // There is a sample 0; and each sample of a depth of this width is one.
    ghost zero_fits: { 0 < limit };

    ghost depth_bound: { (d : ℕ) → Depth d → d ≤ 16 };

    ghost depth_fits: { (d : ℕ) → Depth d → 2 ^ d ≤ limit };
}

// Depth 8.
impl Sample for u8 {
    ghost value = { λ x. x };

    ghost values = { λ xs. xs };

    ghost limit = { 2 ^ 8 };

    ghost Depth = { λ d. d ≡ 8 };

    ghost laws = { own_values };

    ghost zero_fits = { Prim.search rules };

    ghost depth_bound = { eight_bound };

    ghost depth_fits = { eight_fits };

    fn of(n: u32) -> u8 {
        n as u8
    }

    fn sum(self, other: u8, depth: usize) -> u8 {
        sum_u8(self, other, depth)
    }
}

// Depths 10, 12 and 14.
impl Sample for u16 {
    ghost value = { λ x. x };

    ghost values = { λ xs. xs };

    ghost limit = { 2 ^ 16 };

    ghost Depth = { λ d. (8 < d) × (d ≤ 16) };

    ghost laws = { own_values };

    ghost zero_fits = { Prim.search rules };

    ghost depth_bound = { deep_bound };

    ghost depth_fits = { deep_fits };

    fn of(n: u32) -> u16 {
        n as u16
    }

    fn sum(self, other: u16, depth: usize) -> u16 {
        sum_u16(self, other, depth)
    }
}
