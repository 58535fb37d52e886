// What can be answered for: statements about the whole switch and their proofs. It has no code.
#![tactic(auto)]
