//! The members of intersections of regexes: what an intersection is split into, which of its members follow from others,
//! and the regexes in which words begin.
//!
//! The one idea is that a walk over the words of a regex keeps few states where it takes regexes apart: a word of a union
//! is one of a member, and so is a word of an intersection once the unions in it are divided; a member that follows from
//! another one is needless; and a word of a concatenation begins in its head, or in what stands behind a head that has
//! the empty word. No derivative is made here. The layer above asks for the members of the regexes that its walk meets,
//! and for the heads whose derivatives it wants.
#![tactic(auto)]

mod divide;
mod needed;
mod none;
mod starts;

pub use divide::{room_for, split};
pub use needed::strongest;
pub use none::is_none;
pub use starts::{front_of, starts_of};
