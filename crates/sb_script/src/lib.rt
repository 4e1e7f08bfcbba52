//! What a script means: names and what they stand for, how terms and commands are read, the state between two commands,
//! which checks are decided, and the replies that each entry may have (SMT-LIB 2.6).
//!
//! The one idea is that reading and replying are functions of a form and a state that compute, and only the verdict
//! of a check is a relation, over the truth of terms. The layers that read and answer scripts state their contracts by
//! the definitions in `specs/`.
//!
//! There is no program code here. Each function is a law with an empty body: a caller calls it to have the law.
#![tactic(auto)]

pub mod laws;
