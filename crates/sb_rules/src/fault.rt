//! Why a line is refused.

ghost use Rattle.std.specs.Prelude.{◌≡◌};

use std::alloc::AllocError;

/// Why a line does not follow from what is kept: the first of these that fits it, in the order of the rules of proofs.
#[derive(Clone, Copy)]
pub enum Refusal {
    /// No such line may stand here.
    Misplaced,
    /// A number names nothing that is kept, live or declared.
    UnknownId,
    /// It is kept already.
    Repeated,
    /// No normal regex, or no well-formed atom.
    NotNormal,
    /// The classes and targets are no expansion of the regex.
    WrongTarget,
    /// A regex that is said to be dead is nullable.
    HoldsEmptyWord,
    /// A regex that is said to be dead has a target that is not.
    NotClosed,
    /// A hint neither forces a literal nor is false, or stands behind one that is false.
    HintIdle,
    /// The clause does not follow by its rule.
    RuleBroken,
    /// The verdict does not follow, or the limit is passed.
    WrongVerdict,
}

/// Why a line was not taken.
#[derive(Clone, Copy)]
pub enum Fault {
    /// The line does not follow.
    Refused(Refusal),
    /// Memory was wanted.
    NoMemory,
}

impl From<AllocError> for Fault {
    ghost use Rattle.sb_rules.specs.declared.fault.Fault.TheVariants.{NoMemory};

    ghost from_gives = { λ _ error. error ≡ NoMemory };

    fn from(_error: AllocError) -> Fault {
        Fault::NoMemory
    }
}
