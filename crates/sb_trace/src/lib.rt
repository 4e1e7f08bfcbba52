//! The trace of a run, as far as regexes go: which regexes of an arena stand in a proof, under which numbers, which of
//! them are expanded there, and which are dead.
//!
//! A [`Trace`] puts the lines that a proof lacks on a tape: the lines that define a regex and its parts, the line of an
//! expansion, and the line that says that all derivatives of a regex without a word are dead. The one idea is that what
//! a reader of the proof keeps is tied to the trace by one relation, [`Tracks`](../specs/Tracking.antt), so that lines
//! put in a call follow from what was kept before, whatever else the proof holds. The layer above puts atoms, clauses
//! and verdicts.
#![tactic(auto)]

mod frame;
mod node;
mod trace;

pub use trace::{Closure, Expand, Explore, Trace};
