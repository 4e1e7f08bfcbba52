//! The words of the programs: what the words after a program's name ask of it.
//!
//! [`solver::read_words`] and [`checker::read_words`] give what the words ask where they are taken, and else the text
//! that says why they are not, or that they ask for. The reading is `clap`'s. The layers above open what is asked for,
//! and write the text.
#![tactic(auto)]

pub mod checker;
mod refusal;
pub mod solver;

pub use refusal::NoRun;
