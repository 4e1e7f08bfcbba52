//! Memberships of one constant: the word that makes all of them true, or a few that no word makes true together, with
//! the lines and the clause that say so.
//!
//! A literal of a membership asks for the constant's word in a regex: that of its atom where it is positive, else the
//! complement of that one. Literals have a word exactly where the intersection of what they ask for has one, so all is
//! asked of the graph. The layer above keeps which literals are true, and answers the clause to the search.
#![tactic(auto)]

mod asking;
mod denying;
mod few;

pub use asking::least_word;
pub use denying::{denial, put_denial, tick};
pub use few::core;
