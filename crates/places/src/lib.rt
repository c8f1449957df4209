// Theorems about document 01's picture as scope defines it: which sample stands where. This crate has no function.
#![tactic(auto)]
