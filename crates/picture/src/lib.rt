// What the two entries share: definitions in specs/ and laws in proofs/, no function. Once the checks have passed, every slice goes into
// its rows of the planes, the planes are filled, and the answer follows. Crate decode has the functions.
#![tactic(auto)]
