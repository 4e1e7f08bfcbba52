//! The limits of numbers.

ghost use Rattle.sb_sound.specs.LimitLaws.{BoundsAreWithin};

/// A bound is well formed exactly where its number is at most 2^32 in size.
pub fn bounds_are_within()
    ensures { BoundsAreWithin }
{}
