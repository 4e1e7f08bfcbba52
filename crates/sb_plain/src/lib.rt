//! Derivatives of normal regexes by one character at a time.
//!
//! The one idea is that the derivative of a regex is the same at all characters between two of its cut points, which
//! are few: ends of ranges of the sets that a word can begin in. A [`Plain`] remembers the cut points of regexes by
//! their numbers, and a derivative by its regex and the cut point before the character, so that it is made once for
//! each stretch of characters. Whether a word matches is seen by derivatives along it; where these are unions of many,
//! by a walk over their members, depth first, that remembers which of them do not match what is left of the word. The
//! layer above asks for derivatives and cut points of regexes of one arena, and whether a word is in a language; its
//! contracts speak of the definitions of `sb_lang` alone.
#![tactic(auto)]

ghost use Rattle.sb_plain.specs.Memory.{RightStays};

mod failed;
mod learnt;
mod plain;
mod points;
mod shape;
mod walk;
mod walked;

pub use plain::Plain;

/// What is remembered stays right when an arena grows.
pub fn right_stays()
    ensures { RightStays }
{}
