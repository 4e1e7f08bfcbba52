//! Lemmas on options, results, numbers, lists and truth values that the toolchain's library lacks, for the proofs of the
//! crates above. There is no code here.
#![tactic(auto)]
