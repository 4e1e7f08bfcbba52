//! Laws of the list of members that a constructor sorts.

ghost use Rattle.sb_lang.specs.SortedLaws.{SortedIsTheOnly};

/// No other list ascends and has these members.
pub fn sorted_is_the_only()
    ensures { SortedIsTheOnly }
{}
