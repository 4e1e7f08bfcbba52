//! What a search's answers say of live assertions.

ghost use Rattle.sb_solve.specs.Decided.{ValuesAreTruths, LiteralsAreTrue, TermsAreTrue};
ghost use Rattle.sb_solve.specs.Entailed.{NoneAreEntailed, AssertedIsEntailed, GateIsEntailed, SearchedAreEntailed, ContinuedAreEntailed, DroppedAreEntailed, EntailedOverMore, EntailedInLarger, RefutedAreFalse, RefutedAreContradicted};

use sb_sound::gates::gates_hold;
use sb_sound::translations::translation_holds;

/// Where all atoms that are wanted have values, with the atoms that they speak of and the clauses of their gates, and
/// the theory agrees, each value is the atom's truth under the values of constants that the trail and the theory give.
pub fn values_are_truths()
    ensures { ValuesAreTruths }
{}

/// There each literal of a wanted atom is true that is on the trail.
pub fn literals_are_true()
    ensures { LiteralsAreTrue }
{}

/// There each term holds whose literal is a kept clause.
pub fn terms_are_true()
    ensures { TermsAreTrue }
{
    translation_holds();
}

/// What is kept at first follows from nothing.
pub fn none_are_entailed()
    ensures { NoneAreEntailed }
{}

/// The literal of a live assertion follows from it.
pub fn asserted_is_entailed()
    ensures { AssertedIsEntailed }
{
    translation_holds();
}

/// The clause of a gate follows from nothing.
pub fn gate_is_entailed()
    ensures { GateIsEntailed }
{
    gates_hold();
}

/// What a search keeps follows from what was kept.
pub fn searched_are_entailed()
    ensures { SearchedAreEntailed }
{}

/// What is kept still follows where the script goes on.
pub fn continued_are_entailed()
    ensures { ContinuedAreEntailed }
{}

/// What stays still follows where levels are left.
pub fn dropped_are_entailed()
    ensures { DroppedAreEntailed }
{}

/// What is kept still follows where the table of atoms is larger.
pub fn entailed_over_more()
    ensures { EntailedOverMore }
{}

/// What is kept still follows where the arena of regexes is larger.
pub fn entailed_in_larger()
    ensures { EntailedInLarger }
{}

/// Where a search refutes assumptions, no valuation makes them true with the live assertions.
pub fn refuted_are_false()
    ensures { RefutedAreFalse }
{}

/// Where a search needs no assumptions for that, no valuation makes all live assertions true.
pub fn refuted_are_contradicted()
    ensures { RefutedAreContradicted }
{}
