//! Verdicts.

ghost use Rattle.sb_sound.specs.VerdictLaws.{UnsatIsRefuted, NamedAreRefuted, SatIsModel, UnknownIsCounted, UnsupportedIsOutside};

/// Where `unsat` follows, and the clause that it names is true, not all assumptions hold.
pub fn unsat_is_refuted()
    ensures { UnsatIsRefuted }
{}

/// The assumptions that the clause's literals deny are contradicted alone.
pub fn named_are_refuted()
    ensures { NamedAreRefuted }
{}

/// Where `sat` follows, the values fit the constants, and make each live assertion and each assumption true.
pub fn sat_is_model()
    ensures { SatIsModel }
{}

/// Where `unknown` follows, as many lines were counted as the limit allows.
pub fn unknown_is_counted()
    ensures { UnknownIsCounted }
{}

/// `unsupported` follows exactly outside the fragment.
pub fn unsupported_is_outside()
    ensures { UnsupportedIsOutside }
{}
