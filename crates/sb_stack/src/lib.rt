//! The state of a script: options, names, assertions and the mode, and what each command makes of them
//! (SMT-LIB 2.6, sections 3.9 and 4).
//!
//! A [`Stack`] takes one entry of a script after another, and answers it, or says that a check is asked for
//! or the run ends. Contracts see it as the state that the definitions have, with the table of terms that assertions
//! are numbers of. What is known of a term by its number, or of a live assertion by its place, stays so from entry to
//! entry. The session above decides the checks by the live assertions, and settles them.
#![tactic(auto)]

mod asking;
mod assuming;
mod command;
mod constant;
mod define;
mod leaving;
mod level;
mod name;
mod option;
mod parameter;
mod reply;
mod stack;
mod value;
mod verdict;

pub use assuming::Assumption;
pub use constant::LiveConstant;
pub use stack::{Stack, Step};
pub use verdict::Verdict;
