//! Each normalising constructor keeps the language.

ghost use Rattle.sb_lang.specs.ConstructorLaws.{IntersectionIsOfEach, MksetKeepsLanguage, MkcatKeepsLanguage, MkaltKeepsLanguage, MkandKeepsLanguage, MknotKeepsLanguage, MkstarKeepsLanguage, MkrepKeepsLanguage, MkpathKeepsLanguage};

/// An intersection has the words of each member.
pub fn intersection_is_of_each()
    ensures { IntersectionIsOfEach }
{}

/// The empty set is none.
pub fn mkset_keeps_language()
    ensures { MksetKeepsLanguage }
{}

/// `mkcat` has the words of the concatenation.
pub fn mkcat_keeps_language()
    ensures { MkcatKeepsLanguage }
{}

/// `mkalt` has the words of the union.
pub fn mkalt_keeps_language()
    ensures { MkaltKeepsLanguage }
{}

/// `mkand` has the words of the intersection.
pub fn mkand_keeps_language()
    ensures { MkandKeepsLanguage }
{}

/// `mknot` has the words of the complement.
pub fn mknot_keeps_language()
    ensures { MknotKeepsLanguage }
{}

/// `mkstar` has the words of the star, among words of characters.
pub fn mkstar_keeps_language()
    ensures { MkstarKeepsLanguage }
{}

/// `mkrep` has the words of the repetition.
pub fn mkrep_keeps_language()
    ensures { MkrepKeepsLanguage }
{}

/// `mkpath` has the words along which the derivative takes the first regex to the second.
pub fn mkpath_keeps_language()
    ensures { MkpathKeepsLanguage }
{}
