//! The checker of proofs: whether a proof of a script is accepted, and if not, which line of it is refused, and why.
//!
//! [`check_top`] is the program: it opens both, says which verdicts it confirms, and then what comes of the whole
//! proof; [`check_within`] is the same with another limit on what is read. A `Checker` takes the entries of the script,
//! and at each check a `Judge` takes the lines of the proof up to the verdict, which are read as they are due. The one
//! idea is that each line and each entry is one step of the definitions, and what is written is what they make of the
//! bytes of both, so that an accepted proof means what its verdicts say, whoever wrote it. The program above it gives
//! it the real outside.
#![tactic(auto)]

mod check;
mod checker;
mod denial;
mod entry;
mod judge;
mod reason;
mod text;

pub use check::{CheckStatus, check_top, check_within};
pub use checker::{Checked, Checker, CheckerFault};
pub use entry::Entered;
pub use judge::Judge;
pub use reason::{JudgeFault, Reason, TakeFault};
