//! What a check finds.

use crate::assuming::Assumption;
use sb_word::Word;

/// What a check finds.
#[derive(Drop)]
pub enum Verdict {
    /// The live assertions are true for these values: the word of each constant of sort String at its serial, and the
    /// truth value of each one of sort Bool.
    Sat { words: Vec<Word>, truths: Vec<bool> },
    /// No values make the live assertions true with these of the check's assumptions, each once, in the order given.
    Unsat(Vec<Assumption>),
    /// As many lines of the proof were counted as may be.
    Unknown,
    /// A live assertion is not of the kind that is decided.
    Outside,
}
