//! Clauses of memberships.

ghost use Rattle.sb_sound.specs.MembershipLaws.{StepsHold, StepsAreExact, EmptyHolds, EmptyIsExact};

/// A clause by rule step is true under every valuation.
pub fn steps_hold()
    ensures { StepsHold }
{
    sb_lang::derivative::nullable_has_empty_word();
    sb_lang::order::order_tells_apart();
    sb_lang::derivative::derivative_along_has_rests();
    sb_lang::constructors::mkpath_keeps_language();
}

/// Steps are the clauses of these forms and no others.
pub fn steps_are_exact()
    ensures { StepsAreExact }
{
    sb_lang::order::order_tells_apart();
}

/// A clause by rule empty is true under every valuation whose words are words of characters, where the regexes that are
/// kept as dead have no such word.
pub fn empty_holds()
    ensures { EmptyHolds }
{
    sb_lang::order::order_tells_apart();
    sb_lang::constructors::intersection_is_of_each();
    sb_lang::constructors::mkand_keeps_language();
    sb_lang::constructors::mknot_keeps_language();
}

/// The clauses by rule empty are of this form and no other.
pub fn empty_is_exact()
    ensures { EmptyIsExact }
{
    sb_lang::order::order_tells_apart();
}
