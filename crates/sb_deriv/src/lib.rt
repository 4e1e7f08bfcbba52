//! The derivative of a regex by all characters at once ("Symbolic Boolean Derivatives", PLDI 2021), as an interval
//! map: ranges of characters, with the number of the regex that is the derivative by each character of the range.
//!
//! A [`Deriver`] keeps the maps by the regexes' numbers, and makes that of a regex from those of its parts: the pieces
//! of the parts are brought to a common refinement, and a constructor is called once for each piece. Contracts see a
//! map as the list of its pieces, each with its first character and its target. The layer above asks for the
//! derivative of a regex once, and follows its targets, by character or each once with the class of its characters.
#![tactic(auto)]

ghost use Rattle.sb_deriv.specs.Faithful.{FaithfulStays};

mod choices;
mod derivative;
mod deriver;
mod operation;
mod pieces;
mod targets;

pub use derivative::Derivative;
pub use deriver::Deriver;

/// What is known of derivatives stays true when an arena grows.
pub fn faithful_stays()
    ensures { FaithfulStays }
{}
