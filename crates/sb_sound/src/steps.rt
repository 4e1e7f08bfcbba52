//! A proof, line by line.

ghost use Rattle.sb_sound.specs.SoundLaws.{NothingIsSound, LineStaysSound, FollowsByRule, ContinuedStaysSound, DroppedStaysSound, AllDroppedIsSound, CountedAgainStaysSound, VerdictMeansSo};

/// Where nothing is kept, all of it is true.
pub fn nothing_is_sound()
    ensures { NothingIsSound }
{}

/// A line keeps true what is kept, where it follows by the rule of its kind.
pub fn line_stays_sound()
    ensures { LineStaysSound }
{
    crate::gates::gates_hold();
    crate::bounds::orders_hold();
    crate::linear::linear_holds();
    crate::memberships::steps_hold();
    crate::memberships::empty_holds();
    crate::hints::learned_holds();
    crate::hints::learned_has_levels();
    crate::dead::expanded_is_right();
    crate::dead::dead_stays_empty();
    crate::translations::translation_holds();
}

/// A line that follows does so by the rule of its kind.
pub fn follows_by_rule()
    ensures { FollowsByRule }
{}

/// Where a script goes on, and loses no assertion, what is kept stays true.
pub fn continued_stays_sound()
    ensures { ContinuedStaysSound }
{}

/// Where levels are left, and the script goes on, the clauses up to the level that stays are true.
pub fn dropped_stays_sound()
    ensures { DroppedStaysSound }
{}

/// Where all assertions are left, no clause is kept.
pub fn all_dropped_is_sound()
    ensures { AllDroppedIsSound }
{}

/// A verdict takes nothing away.
pub fn counted_again_stays_sound()
    ensures { CountedAgainStaysSound }
{}

/// A verdict that follows from what is true means so.
pub fn verdict_means_so()
    ensures { VerdictMeansSo }
{
    crate::verdicts::unsat_is_refuted();
    crate::verdicts::named_are_refuted();
    crate::verdicts::sat_is_model();
    crate::verdicts::unknown_is_counted();
    crate::verdicts::unsupported_is_outside();
}
