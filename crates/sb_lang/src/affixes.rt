//! Laws of the regexes of parts of words.

ghost use Rattle.sb_lang.specs.AffixLaws.{AffixesHaveTheirWords, AffixesAreNormal};

/// The regex of the prefixes of a word, of its suffixes or its factors has exactly these, and that of the words that
/// begin or end with a word, or hold it, exactly those.
pub fn affixes_have_their_words()
    ensures { AffixesHaveTheirWords }
{}

/// They are normal regexes.
pub fn affixes_are_normal()
    ensures { AffixesAreNormal }
{}
