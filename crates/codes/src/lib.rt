// Theorems about the definitions of `scope` alone (document 01, "Words and lookup"): they stand in proofs/, and the few
// definitions that they need besides in specs/. This crate has no function.
#![tactic(auto)]
