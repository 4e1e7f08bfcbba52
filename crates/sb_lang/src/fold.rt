//! The order of members, and how they are grouped, make no difference.

ghost use Rattle.sb_lang.specs.FoldLaws.{UnionOfOne, UnionOfMore, UnionOfMembers, IntersectionOfMore, IntersectionOfMembers, ConcatenationGroups};

/// The union of one member is the member.
pub fn union_of_one()
    ensures { UnionOfOne }
{}

/// A union with the union of a list is the union of all.
pub fn union_of_more()
    ensures { UnionOfMore }
{}

/// Lists with the same members have one union.
pub fn union_of_members()
    ensures { UnionOfMembers }
{}

/// An intersection with the intersection of a list is the intersection of all.
pub fn intersection_of_more()
    ensures { IntersectionOfMore }
{}

/// Lists with the same members have one intersection.
pub fn intersection_of_members()
    ensures { IntersectionOfMembers }
{}

/// Concatenations group in any way.
pub fn concatenation_groups()
    ensures { ConcatenationGroups }
{}
