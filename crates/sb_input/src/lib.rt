//! The entries of a script and the lines of a proof, read from a world in pieces, one at a time.
//!
//! [`Entries`] reads the port of the script, and [`Lines`] that of the proof. The one idea is that pieces do not matter:
//! whatever the world gives at a time, the entries and the lines are those of all bytes. Memory is bounded by the
//! longest entry or line and a piece. The layer above says what becomes of them.
#![tactic(auto)]

mod entries;
mod lines;
mod piece;
mod search;

pub use entries::{Entries, EntriesFault};
pub use lines::{Found, Lines, LinesFault};
