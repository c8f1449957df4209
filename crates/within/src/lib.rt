// Request L10: two checks of the customer's Rust that never fire, and why. Two theorems about document 01's definitions: what they say stands
// in specs/, their proofs in proofs/. This crate has no function.
#![tactic(auto)]
