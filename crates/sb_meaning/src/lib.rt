//! What a term means: terms as trees, their sorts, values, valuations and truth, and how values are printed (SMT-LIB
//! 2.6, the theories Core, Ints and Unicode Strings).
//!
//! The one idea is that truth is a test that computes, by recursion on the tree. The crate has definitions alone, and
//! knows nothing of how a term is written; the layers above state their contracts by them.
#![tactic(auto)]
