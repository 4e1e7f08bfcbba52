//! Normal regexes, interned: an [`Arena`] is a table of regexes in which each stands once, so that equal regexes
//! have equal numbers.
//!
//! Each node names its parts by their numbers, which are smaller than its own. Contracts see an arena as the list of
//! its regexes by number. The constructors give the regex that the normalising constructors of `sb_lang` give, and
//! every regex of the list is normal. The layer above keeps numbers, and compares regexes by them.
#![tactic(auto)]

mod arena;
mod build;
mod combine;
mod compare;
mod facts;
mod members;
mod node;
mod sort;

pub use arena::Arena;
pub use node::{Node, RegexId};
