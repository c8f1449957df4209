// The rows of a slice: what a row is, in specs/, and the laws of the loops that make one, in proofs/, over any depth and any
// predictor. Document 01, "Prediction, slice by slice". This crate has no function: rows8, rows16 and predict have them.
#![tactic(auto)]
