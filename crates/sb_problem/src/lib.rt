//! What terms are to the parts that decide: the normal regex of a regular expression, and the pieces of a String term.
//!
//! [`Normals`] keeps by number what each term that was asked for is as a regular expression, and what those are that it
//! is made of, arguments first: its regex is made by the constructor of its symbol, once, in an arena in which equal
//! regexes have one number. What is not asked for is not made. The layer above asks for the regexes of a constant's
//! memberships, and explores what they have in common. A word to which a constant is to be equal has a regex too, as the
//! pattern that has this word alone.
#![tactic(auto)]

mod join;
mod laws;
mod literals;
mod normals;
mod pattern;
mod pieces;
mod waiting;
mod words;

pub use laws::normals_stay;
pub use normals::Normals;
pub use pattern::Pattern;
pub use pieces::{Part, constant_of, is_joined};
