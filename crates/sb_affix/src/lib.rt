//! The regexes of parts of words: of a word's prefixes, suffixes and factors, and of the words that begin with a word,
//! end with it or hold it.
//!
//! The one idea is that an arena keeps each regex once. The prefixes of a word are made of the prefixes of what stands
//! behind its first character, so from the last character on each end of the word costs one node or two, and the union
//! of all ends shares these. The layer above asks for the regex of a term in which a word is compared with others.
#![tactic(auto)]

mod ends;
mod kinds;

pub use kinds::{Affix, affix_regex};
