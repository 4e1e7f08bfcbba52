//! The states of a script, entry by entry.

ghost use Rattle.sb_sound.specs.ScriptLaws.{StartIsFit, FitMeansTerms, EntriesLeadOn, ClauseRefutes};

/// The names in force and the live terms fit the sorts of the constants at the start of a script, and behind each of its
/// entries. No entry loses an assertion of a level that stays.
pub fn entries_lead_on()
    ensures start { StartIsFit }
    ensures terms { FitMeansTerms }
    ensures entries { EntriesLeadOn }
{}

/// Where a clause is kept that denies assumptions alone, and what is kept is true, no values make all live assertions
/// and all assumptions true, nor all live assertions and those that the clause denies.
pub fn clause_refutes()
    ensures { ClauseRefutes }
{}
