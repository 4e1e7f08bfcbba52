//! Lines that count.

ghost use Rattle.sb_sound.specs.CountLaws.{LinesAreCounted, CountedIsNew};

/// A line that follows by the rule of its kind counts one, where it is an expansion, a learned clause or a clause by a
/// counted rule, and else nothing.
pub fn lines_are_counted()
    ensures { LinesAreCounted }
{}

/// A counted line that follows by its rule is new.
pub fn counted_is_new()
    ensures { CountedIsNew }
{}
