// Facts that any crate may need: about tests and numbers, counts and sums, lists that are made, a part of a list and the list once it is
// replaced, and remainders by 2^depth; and what "settles" means of a statement. Laws in proofs/, a definition in specs/; no function. It
// stands on scope alone, so that no crate stands on another for such a fact.
#![tactic(auto)]
