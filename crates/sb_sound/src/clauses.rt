//! Lines that give a clause.

ghost use Rattle.sb_sound.specs.ClauseLaws.{RuleLinesAreExact, LearnedLinesAreExact, AssertionLinesAreExact};

/// A clause by a rule is accepted exactly where its atoms are defined, its literals ascend, it is of a form of the
/// rule, and where it counts, it is new and the count below the limit.
pub fn rule_lines_are_exact()
    ensures { RuleLinesAreExact }
{
    crate::gates::gates_are_exact();
    crate::bounds::orders_are_exact();
    crate::linear::linear_is_exact();
    crate::memberships::steps_are_exact();
    crate::memberships::empty_is_exact();
}

/// A learned clause is accepted exactly where its atoms are defined, it follows by its hints, and the count is below
/// the limit.
pub fn learned_lines_are_exact()
    ensures { LearnedLinesAreExact }
{
    crate::hints::learned_is_exact();
}

/// An assertion's clause is accepted exactly where it is the literal of a live assertion.
pub fn assertion_lines_are_exact()
    ensures { AssertionLinesAreExact }
{}
