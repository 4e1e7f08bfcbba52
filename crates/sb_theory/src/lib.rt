//! The theory of memberships: for each String constant a word, such that the wanted memberships on the trail are true, of
//! constants and of concatenations; or a few literals of one constant that no word makes true together, or a clause by
//! rule step.
//!
//! [`Strings`] is a theory that a search may ask. It takes all of the trail in first, and tries each new membership of one
//! constant on the word that its constant has: nothing is explored while it fits. Then each constant whose word does not
//! fit is asked once for a word that makes all of its memberships true. Where there is none, all of them are the lemma if
//! no decision is on the trail, and else a few that clash, of the shortest front of them that does. A word stays when
//! literals are taken back, since it goes on to make those true that are left. What is found of regexes stays too.
//!
//! A wanted membership of several pieces is decided as the words have it. Once all wanted atoms have values, those of
//! several pieces are tried on the words. Where one is wrong, values of all constants are looked for as a hint, once for
//! the same wanted memberships, and tried. Where these are wrong too, the theory walks along the pieces of a wrong one:
//! each piece leads on from a regex to the one that is left behind its word. It asks for the memberships that say so: that
//! the constant leads there, and what is left of the pieces. As long as one of them has no value it is a wish. The word of
//! each constant makes those true that have one, so at the end of the walk some step is false, which is the lemma. The
//! wishes are finitely many as long as no regex is expanded, and each expansion spends a step, so the search ends.
#![tactic(auto)]

mod changed;
mod fit;
mod hint;
mod joined;
mod member;
mod numbers;
mod place;
mod row;
mod strings;
mod wanted;

pub use member::{Member, membership};
pub use strings::Strings;
pub use wanted::WantedAtoms;
