//! Whole proofs.

ghost use Rattle.sb_sound.specs.AcceptedLaws.{AcceptedMeansSo, ScriptIsHistory, AcceptedScriptMeansSo};
ghost use Rattle.sb_sound.specs.TruthLaws.{AcceptedScriptIsTrue};

/// Where a proof along a history of events is accepted, each of its verdicts means so.
pub fn accepted_means_so()
    ensures { AcceptedMeansSo }
{
    crate::steps::nothing_is_sound();
    crate::steps::line_stays_sound();
    crate::steps::follows_by_rule();
    crate::steps::continued_stays_sound();
    crate::steps::dropped_stays_sound();
    crate::steps::all_dropped_is_sound();
    crate::steps::counted_again_stays_sound();
    crate::steps::verdict_means_so();
    crate::counts::lines_are_counted();
}

/// The events of a script are a history: its terms fit the sorts of the constants, and no command loses an assertion of
/// a level that stays.
pub fn script_is_history()
    ensures { ScriptIsHistory }
{}

/// Where a proof of a script is accepted, each of its verdicts means so: an `unsat` is of no valuation, the values of a
/// `sat` make the script true.
pub fn accepted_script_means_so()
    ensures { AcceptedScriptMeansSo }
{
    accepted_means_so();
    script_is_history();
}

/// Where a proof of a script is accepted, each of its verdicts is true of the state and the assumptions of its check.
pub fn accepted_script_is_true()
    ensures { AcceptedScriptIsTrue }
{
    accepted_script_means_so();
}
