//! Tests of what no script and no proof shows: limits of explorations, of walks, of traces and of searches, how much is
//! made, terms that none writes, functions that no program calls, worlds in memory, words, and lines of proofs as texts.
//!
//! The crate has no code of its own. A test is a table: rows of calls with their answers. What a script or a proof shows
//! is a case of the program that runs them.
#![tactic(auto)]

#[cfg(test)]
mod derivatives;
#[cfg(test)]
mod forms;
#[cfg(test)]
mod limits;
#[cfg(test)]
mod lines;
#[cfg(test)]
mod regexes;
#[cfg(test)]
mod rules;
#[cfg(test)]
mod searches;
#[cfg(test)]
mod sets;
#[cfg(test)]
mod taught;
#[cfg(test)]
mod terms;
#[cfg(test)]
mod traces;
#[cfg(test)]
mod words;
#[cfg(test)]
mod worlds;
