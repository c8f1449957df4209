// The customer's three demands of every function that a host can call, as theorems about whatever their contracts allow
// (specs/Demand.antt, proofs/Demand.antt). This crate has no function.
#![tactic(auto)]
