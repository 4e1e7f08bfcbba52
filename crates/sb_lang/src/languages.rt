//! Laws of cuts, iterations and repetitions of languages.

ghost use Rattle.sb_lang.specs.LanguageLaws.{CutIsSomeCut, IterationIsSomePower, RepetitionIsSomePower};

/// A word is in a concatenation exactly where some cut of it has its parts in the two languages.
pub fn cut_is_some_cut()
    ensures { CutIsSomeCut }
{}

/// A word is in an iteration exactly where it is some number of words of the language, one behind the other.
pub fn iteration_is_some_power()
    ensures { IterationIsSomePower }
{}

/// A word is in a repetition exactly where it is so for some number within the bounds.
pub fn repetition_is_some_power()
    ensures { RepetitionIsSomePower }
{}
