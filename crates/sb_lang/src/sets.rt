//! Laws of sets of characters.

ghost use Rattle.sb_lang.specs.SetLaws.{UnionHasBoth, IntersectionHasCommon, UnionIsCanonical, IntersectionIsCanonical};

/// A union has the members of both sets.
pub fn union_has_both()
    ensures { UnionHasBoth }
{}

/// An intersection has what is in both sets.
pub fn intersection_has_common()
    ensures { IntersectionHasCommon }
{}

/// The ranges of a union stay canonical.
pub fn union_is_canonical()
    ensures { UnionIsCanonical }
{}

/// The ranges of an intersection stay canonical.
pub fn intersection_is_canonical()
    ensures { IntersectionIsCanonical }
{}
