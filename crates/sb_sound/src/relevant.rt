//! What is relevant at a check.

ghost use Rattle.std.specs.Prelude.{⊤, List};
ghost use Rattle.sb_lang.specs.Regex.{Regex};
ghost use Rattle.sb_rulebook.specs.Atoms.{Atom};
ghost use Rattle.sb_rulebook.specs.Verdicts.{Question};
ghost use Rattle.sb_sound.specs.RelevantLaws.{SpeaksOfWhatStandsIn, NearLiesBetween, DistinctStandOnce, AskedIsClosed, RelevantIsClosed, RelevantRegexesAreClosed, AskedIsLeast, RelevantIsLeast, RelevantRegexesAreLeast};

use std::marker::Brand;

/// A property of the atoms of a check, over a table of atoms. A call at `Brand` picks any one.
pub trait AskedProperty {
    ghost has: { Question → List Atom → Atom → Type 0 };
}

impl AskedProperty for Brand {
    ghost has = { λ q atoms atom. ⊤ };
}

/// A property of atoms, at checks and over a table of atoms. A call at `Brand` picks any one.
pub trait AtomProperty {
    ghost has: { List Question → List Atom → Atom → Type 0 };
}

impl AtomProperty for Brand {
    ghost has = { λ checks atoms atom. ⊤ };
}

/// A property of regexes, at checks and over a table of atoms. A call at `Brand` picks any one.
pub trait RegexProperty {
    ghost has: { List Question → List Atom → Regex → Type 0 };
}

impl RegexProperty for Brand {
    ghost has = { λ checks atoms r. ⊤ };
}

/// An atom speaks only of variables that stand in it.
pub fn speaks_of_what_stands_in()
    ensures { SpeaksOfWhatStandsIn }
{}

/// A number is near a variable only where the variable has both literal bounds, and it lies between them or one below.
pub fn near_lies_between()
    ensures { NearLiesBetween }
{}

/// Of the memberships of one constant that meet, no regex stands twice, whatever its sign.
pub fn distinct_stand_once()
    ensures { DistinctStandOnce }
{
    sb_lang::order::order_tells_apart();
}

/// Atoms of a check, relevant atoms and relevant regexes are all that their clauses lead to.
pub fn relevant_is_closed()
    ensures asked { AskedIsClosed }
    ensures atoms { RelevantIsClosed }
    ensures regexes { RelevantRegexesAreClosed }
{}

/// The atoms of a check are the least that its translations allow: a property that these keep holds of all of them.
pub fn asked_is_least<P: AskedProperty>()
    ensures { AskedIsLeast P.has }
{}

/// The relevant atoms are the least that their clauses allow.
pub fn relevant_is_least<P: AtomProperty>()
    ensures { RelevantIsLeast P.has }
{}

/// The relevant regexes are the least that their clauses allow.
pub fn relevant_regexes_are_least<P: RegexProperty>()
    ensures { RelevantRegexesAreLeast P.has }
{}
