//! Deciding checks: which verdict the live assertions of a script have.
//!
//! A [`Decider`] keeps what is known of the assertions of a script from one check to the next: the regexes of each
//! constant's memberships, and what exploring them found. An assertion that a constant is equal to a literal counts as
//! a membership everywhere here: its regex has the literal's word alone. So does one that denies a membership or such
//! an equality: its regex is the complement. The one idea is that each constant has a word for itself, so a check asks
//! for the words of those constants that new assertions speak of; and a least word that is in a new regex too is the
//! least one still, so it is matched before any intersection is made. The layer above asks [`Decider::decide`] first:
//! where an assertion is not decided the check is outside, and where a constant has no word it is `Unsat`; the places
//! of assertions that refute it are [`Decider::clash`]. Else the check is ready: all assertions are taken in then, and
//! each constant that occurs in none that is no membership has a word by its memberships alone. [`Decider::question`]
//! are the places of those assertions that a search is to be asked about, none where all are memberships, and
//! [`Decider::close`] puts the words that it found among those of the memberships. Where assertions go the layer above
//! says so by [`Decider::leave`].
#![tactic(auto)]

mod closing;
mod conjuncts;
mod decide;
mod demand;
mod laws;
mod parting;
mod question;
mod standing;

pub use conjuncts::{Conjuncts, Member};
pub use decide::{Decided, Decider};
pub use demand::{Demand, demand_of};
pub use laws::{knows_grown, knows_stays, ready_grown};
