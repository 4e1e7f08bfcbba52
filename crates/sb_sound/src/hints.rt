//! Learned clauses.

ghost use Rattle.sb_sound.specs.HintLaws.{LearnedHolds, LearnedHasLevels, LearnedIsExact};

/// A clause that is learned by its hints is true wherever the clauses that the hints name are.
pub fn learned_holds()
    ensures { LearnedHolds }
{}

/// It has the greatest level of those clauses: each of them is kept at that level or below.
pub fn learned_has_levels()
    ensures { LearnedHasLevels }
{}

/// Learned are the clauses of this form, with this level, and no others.
pub fn learned_is_exact()
    ensures { LearnedIsExact }
{}
