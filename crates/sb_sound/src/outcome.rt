//! What comes of a proof along with a script.
//!
//! A checker may look at the entries of a script up to its end, or stop before it where a line is refused, so an
//! outcome is said along with some entries (`IsOutcome`). All entries of a script have the same events, in whatever
//! way they are found, so there is one outcome.

ghost use Rattle.sb_sound.specs.OutcomeLaws.{SameEvents, OneOutcome, SolvedEntries, WholeEntries};

/// All entries of a script have the same events, in whatever way they are found.
pub fn same_events()
    ensures { SameEvents }
{
    sb_reader::one_entry();
    sb_reader::no_entry();
}

/// An outcome that is an end is what is judged of the proof along with all entries of the script.
pub fn one_outcome()
    ensures { OneOutcome }
{
    sb_reader::one_entry();
    sb_reader::no_entry();
}

/// Entries in front of a script, up to one that ends the run, are all of it; so are those up to its end.
pub fn solved_entries()
    ensures to_exit { SolvedEntries }
    ensures whole { WholeEntries }
{
    sb_reader::beginning();
}
