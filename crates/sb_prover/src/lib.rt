//! The prover: it puts the lines that prove the verdict of each check of a script.
//!
//! A [`Prover`] puts the first line, and for each check the lines of a search and its verdict ([`Prover::check`]). The
//! search is over the live assertions that refute the check, where a constant has no word, else over those that are no
//! memberships and the memberships of their constants; where there are none, nothing is searched. The one idea is that
//! the proof, as far as it has come, keeps what the prover knows of it ([`IsAbreast`](../specs/Proving.antt)), from
//! check to check. The layer above asks the decider, hands over its answer, writes what was put, and then answers.
#![tactic(auto)]

mod checking;
mod prover;
mod untold;
mod verdict;

pub use prover::{
    Prover, abreast_stays, entries_move_live, entries_stay_fit, levels_stay, regexes_stay_below,
    true_stays,
};
pub use untold::NoTape;
