//! Models of the live assertions of a script, as a checker of proofs asks for them: whether all of these are decided
//! ones, and whether values make all of them true, and the assumptions of the check.
//!
//! [`Models`] keeps what it knows from one check to the next: how many of the assertions are decided ones, and how many
//! are true under the words and truth values of the last model. So a check looks at the assertions that are new, and
//! where some of these are others now, at all but those that ask something of one constant's word alone, which is the
//! same. Where levels are left it is taken back to the assertions that are still there. The layer above asks it before
//! it takes a verdict of `sat`.
#![tactic(auto)]

mod changes;
mod kinds;
mod laws;
mod models;
mod truths;
mod trying;
mod words;

pub use laws::models_stay;
pub use models::Models;
