//! What is known of regexes and terms for as long as a session lasts.
//!
//! The one idea is that it is one value: the regexes, what was explored and walked of them, and what was made of terms.
//! It grows, and is right at each moment, so those who work with it say that it grew ([`regexes_grow`] has the laws),
//! and what comes later to be known is one more field here. The layers above lend it to whoever makes or explores
//! regexes.
#![tactic(auto)]

mod store;

pub use store::{Store, regexes_grow};
