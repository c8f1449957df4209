// Theorems that the statements of the entries allow none of document 01's wrong decoders. This crate has no function.
#![tactic(auto)]
