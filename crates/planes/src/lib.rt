// The planes in the one buffer that the caller lends. Document 01, "Planes lie one after another with no gaps" and "Prediction, slice by
// slice": how they stand there while a frame is decoded, rows added to later rows, and the theorems about them: filled slice by slice,
// and the picture that they are once G is added. This crate has no function: buffer has them.
#![tactic(auto)]
