//! The rules of proofs: definitions in `specs/`, and their laws here.
//!
//! A proof goes along with a script, line by line. Each line names by number what is kept so far, and follows by the
//! rule of its kind, or is refused for the first reason that fits. The one idea is that all of it computes: the line
//! of a text, the literal of a term, what is kept behind a line, and what becomes of a whole proof are functions, so
//! the layers that write proofs and the one that checks them state their contracts by the same ones. The layers above
//! use `follows`, `translation`, `line_of` and `text_of`, `takes`, `meets` and `judged`, and for what a search may
//! speak of `IsRelevant`.
//!
//! There is no program code here. Each function is a law with an empty body: a caller calls it to have the law.
#![tactic(auto)]

pub mod laws;
