// Words that definitions of other crates share, and laws that their proofs share. It has no code.
#![tactic(auto)]
