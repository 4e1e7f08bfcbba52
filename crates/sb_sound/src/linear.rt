//! Clauses of a sum and bounds.

ghost use Rattle.sb_sound.specs.LinearLaws.{LinearHolds, LinearHasOneSum, LinearIsExact, DeniedAreExact, LowerIsGreatest, UpperIsLeast};

/// A clause by rule linear is true under every valuation.
pub fn linear_holds()
    ensures { LinearHolds }
{}

/// A clause by rule linear has one literal of a sum, and all others are of bounds.
pub fn linear_has_one_sum()
    ensures { LinearHasOneSum }
{}

/// The clauses by rule linear are of this form and no other.
pub fn linear_is_exact()
    ensures { LinearIsExact }
{}

/// The bounds that a clause denies, and of each variable the best of them.
pub fn bounds_are_exact()
    ensures denied { DeniedAreExact }
    ensures lower { LowerIsGreatest }
    ensures upper { UpperIsLeast }
{}
