//! The solver, and the checker behind it.
//!
//! [`solve_and_check`] runs both programs in worlds in memory where nothing fails: the first answers a script and
//! writes its proof, and the second checks it. The one idea is the theorem in its contract: what the one writes the
//! other accepts, for every script that is answered. Nothing stands above it.
#![tactic(auto)]

mod both;
#[cfg(test)]
mod tests;

pub use both::solve_and_check;
