//! Lemmas on lists, counts, tests and options that speak of no word of this repository. Proofs of the crates above cite them; no function stands here.
#![tactic(auto)]
