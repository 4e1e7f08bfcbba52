//! Terms by number: a [`Table`] keeps each term once, so that equal terms have equal numbers.
//!
//! A term names its arguments by their numbers, which are smaller than its own, so a term that is shared is kept and
//! looked at once, and whatever is known of a term can be kept by its number. Contracts see a table as the list of
//! its terms, as trees, by number. The layers above read terms into a table, and keep numbers.
#![tactic(auto)]

mod assertion;
mod sort;
mod table;
mod term;
mod worklist;

pub use assertion::Assertion;
pub use sort::{Sort, Symbol};
pub use table::Table;
pub use term::{Serial, Term, TermId};
pub use worklist::put_all;
