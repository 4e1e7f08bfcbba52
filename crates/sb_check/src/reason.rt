//! Why a line of a proof is refused.

ghost use Rattle.std.specs.Prelude.{◌≡◌};
ghost use Rattle.sb_rules.specs.Answers.{refusal_in};
ghost use Rattle.sb_proof.specs.Reading as reading;
ghost use Rattle.sb_check.specs.Reasons.{reason_in};

use sb_proof::LineFault;
use sb_rules::Refusal;
use std::alloc::AllocError;

/// Why a line of a proof is refused: the first of these that fits it.
#[derive(Clone, Copy)]
pub enum Reason {
    /// The words or the number of the fields are those of no line.
    BadWord,
    /// A field that is no word of the format is not of its shape.
    BadNumber,
    /// The proof ends before the line does.
    Unended,
    /// No such line may stand here.
    Misplaced,
    /// A number names nothing that is kept, live or declared.
    UnknownId,
    /// It is kept already.
    Repeated,
    /// No normal regex, or no well-formed atom.
    NotNormal,
    /// The classes and targets are no expansion of the regex.
    WrongTarget,
    /// A regex that is said to be dead is nullable.
    HoldsEmptyWord,
    /// A regex that is said to be dead has a target that is not.
    NotClosed,
    /// A hint neither forces a literal nor is false, or stands behind one that is false.
    HintIdle,
    /// The clause does not follow by its rule.
    RuleBroken,
    /// The verdict does not follow, or the limit is passed.
    WrongVerdict,
    /// The proof ends where a line is due.
    MissingLine,
}

/// The reason for which a text is no line.
pub(crate) fn of_text(fault: LineFault) -> Reason
    ensures { reason_in result ≡ reading.refusal_of fault }
{
    match fault {
        LineFault::BadWord => Reason::BadWord,
        LineFault::BadNumber => Reason::BadNumber,
        LineFault::Unended => Reason::Unended,
    }
}

/// The reason for which a line does not follow.
pub(crate) fn of_refusal(refusal: Refusal) -> Reason
    ensures { reason_in result ≡ refusal_in refusal }
{
    match refusal {
        Refusal::Misplaced => Reason::Misplaced,
        Refusal::UnknownId => Reason::UnknownId,
        Refusal::Repeated => Reason::Repeated,
        Refusal::NotNormal => Reason::NotNormal,
        Refusal::WrongTarget => Reason::WrongTarget,
        Refusal::HoldsEmptyWord => Reason::HoldsEmptyWord,
        Refusal::NotClosed => Reason::NotClosed,
        Refusal::HintIdle => Reason::HintIdle,
        Refusal::RuleBroken => Reason::RuleBroken,
        Refusal::WrongVerdict => Reason::WrongVerdict,
    }
}

/// Why a line was not taken.
#[derive(Clone, Copy)]
pub enum JudgeFault {
    /// The line of this number is refused.
    Refused(u64, Reason),
    /// Memory was wanted.
    NoMemory,
}

impl From<AllocError> for JudgeFault {
    ghost use Rattle.sb_check.specs.declared.reason.JudgeFault.TheVariants.{NoMemory};

    ghost from_gives = { λ _ fault. fault ≡ NoMemory };

    fn from(_error: AllocError) -> JudgeFault {
        JudgeFault::NoMemory
    }
}

/// Why a line whose number was asked for was not taken.
#[derive(Clone, Copy)]
pub enum TakeFault {
    /// It was judged.
    Judged(JudgeFault),
    /// Its number is the last one of 64 bits, behind which there is no other.
    PastNumbers,
}

impl From<JudgeFault> for TakeFault {
    ghost use Rattle.sb_check.specs.declared.reason.TakeFault.TheVariants.{Judged};

    ghost from_gives = { λ error fault. fault ≡ Judged error };

    fn from(error: JudgeFault) -> TakeFault {
        TakeFault::Judged(error)
    }
}
