//! Laws of nullability and of the derivative.

ghost use Rattle.sb_lang.specs.DerivativeLaws.{NullableHasEmptyWord, DerivativeHasRests, DerivativeAlongHasRests, DerivativeIsBySets, ClosedWithoutEmptyWordIsEmpty};

/// A regex is nullable exactly where the empty word is in its language.
pub fn nullable_has_empty_word()
    ensures { NullableHasEmptyWord }
{}

/// The derivative by a character has exactly the words that stand behind it in the language.
pub fn derivative_has_rests()
    ensures { DerivativeHasRests }
{}

/// The derivative along a word has exactly the words that stand behind that word.
pub fn derivative_along_has_rests()
    ensures { DerivativeAlongHasRests }
{}

/// By two characters that no set of a regex tells apart its derivative is the same.
pub fn derivative_is_by_sets()
    ensures { DerivativeIsBySets }
{}

/// Regexes that are not nullable, among which the derivative by each character stays, have no word of characters.
pub fn closed_without_empty_word_is_empty()
    ensures { ClosedWithoutEmptyWordIsEmpty }
{}
