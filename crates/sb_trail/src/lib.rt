//! The trail of the search: which literals are true, oldest first, each with its decision level and the
//! clause that forced it.
//!
//! A [`Trail`] keeps that list and tables by atom, so that an atom's value, level and reason are looked up in
//! constant time. Contracts see a trail as the list and the number of atoms that have a place. The layers
//! above propagate clauses on it, go back along the reasons of a conflict, and take levels back.
#![tactic(auto)]

mod assigned;
mod compact;
mod entry;
mod trail;

pub use assigned::Assigned;
pub use compact::CompactLit;
pub use entry::Entry;
pub use trail::Trail;
