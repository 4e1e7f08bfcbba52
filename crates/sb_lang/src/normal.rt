//! The law of normal regexes of RegLan terms.

ghost use Rattle.sb_lang.specs.NormalLaws.{NormalHasTermsWords};

/// The normal regex of a RegLan term has exactly the words of the term.
pub fn normal_has_terms_words()
    ensures { NormalHasTermsWords }
{}
