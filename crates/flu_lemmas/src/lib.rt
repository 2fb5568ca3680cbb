//! General lemmas on tests, lists and numbers, and on loops of looks, which the proofs of the other crates share. It has no code.
#![tactic(auto)]
