// Theorems about document 01's table of refusals as scope defines it. This crate has no function.
#![tactic(auto)]
