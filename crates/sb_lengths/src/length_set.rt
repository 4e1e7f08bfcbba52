//! Sets of lengths.

ghost use Rattle.std.specs.Prelude.{◌≡◌, ℕ, ◌<◌, ◌≤◌, Bool, true, false, not, ◌&&◌, ◌||◌, ◌==◌, List, length};
ghost use Rattle.sb_lang.specs.Languages.{cut, power, iterate, repeat};
ghost use Rattle.sb_lengths.specs.LengthSets.{has, of_lengths};

use sb_lang::languages::{cut_is_some_cut, iteration_is_some_power, repetition_is_some_power};
use std::marker::Model;

/// A set of lengths below 64.
#[derive(Clone, Copy, PartialEq, Eq)]
pub struct LengthSet {
    bits: u64,
}

impl Model for LengthSet {
    ghost Value = { ℕ };

    ghost view = { λ lengths. lengths.bits };

    ghost inverse = { λ n. record { bits = n } };
}

impl LengthSet {
    /// Whether the length is in the set.
    #[tactic(auto, unfolding(crate::specs::LengthSets::has))]
    pub fn has(self, length: u32) -> bool
        requires { length < 64 }
        ensures { result ≡ has self length }
    {
        (self.bits >> length) & 1 == 1
    }

    /// No length.
    pub(crate) fn none() -> LengthSet
        ensures { (n : ℕ) → has result n ≡ false }
    {
        LengthSet { bits: 0 }
    }

    /// Every length below 64.
    pub(crate) fn full() -> LengthSet
        ensures { (n : ℕ) → n < 64 → has result n ≡ true }
    {
        LengthSet { bits: u64::MAX }
    }

    /// The length alone.
    pub(crate) fn of(length: u32) -> LengthSet
        requires { length < 64 }
        ensures { (n : ℕ) → has result n ≡ (n == length) }
    {
        LengthSet { bits: 1 << length }
    }

    /// The lengths of either set.
    pub(crate) fn union(self, other: LengthSet) -> LengthSet
        ensures { (n : ℕ) → has result n ≡ (has self n || has other n) }
    {
        LengthSet {
            bits: self.bits | other.bits,
        }
    }

    /// The lengths of both sets.
    pub(crate) fn intersection(self, other: LengthSet) -> LengthSet
        ensures { (n : ℕ) → has result n ≡ (has self n && has other n) }
    {
        LengthSet {
            bits: self.bits & other.bits,
        }
    }

    /// The other lengths.
    pub(crate) fn complement(self) -> LengthSet
        ensures { (n : ℕ) → n < 64 → has result n ≡ not (has self n) }
    {
        LengthSet {
            bits: self.bits ^ u64::MAX,
        }
    }

    /// The sums of a length of each set, as far as they are below 64. As many steps as the greatest length of the first.
    pub(crate) fn sums(self, other: LengthSet) -> LengthSet
        ensures { (w : List ℕ) → length w < 64
            → of_lengths result w ≡ cut (of_lengths self) (of_lengths other) w }
    {
        let mut sums = 0;
        let mut rest = self.bits;
        let mut moved = other.bits;
        while rest != 0 {
            if rest & 1 == 1 {
                sums |= moved;
            }
            rest >>= 1;
            moved <<= 1;
        }
        LengthSet { bits: sums }
    }

    /// The sums of any number of the lengths, as far as they are below 64.
    pub(crate) fn repeats(self) -> LengthSet
        ensures { (w : List ℕ) → length w < 64 → of_lengths result w ≡ iterate (of_lengths self) w }
    {
        cut_is_some_cut();
        iteration_is_some_power();
        let mut sums = 1;
        for length in 0..64u32 {
            if (sums >> length) & 1 == 1 {
                sums |= self.bits << length;
            }
        }
        LengthSet { bits: sums }
    }
    /// The sums of so many of the lengths, as far as they are below 64. As many steps as the count.
    fn times(self, count: u64) -> LengthSet
        ensures { (w : List ℕ) → length w < 64 → of_lengths result w ≡ power (of_lengths self) count w }
    {
        let mut these = LengthSet::of(0);
        for _step in 0..count {
            these = self.sums(these);
        }
        these
    }

    /// The sums of at least the one number of the lengths and at most the other, as far as they are below 64. At most 64
    /// steps: of 64 lengths or more whose sum is below 64 some are 0, and one more or less of these makes no difference.
    pub(crate) fn powers(self, least: u64, most: u64) -> LengthSet
        ensures { (w : List ℕ) → length w < 64 → of_lengths result w ≡ repeat (of_lengths self) least most w }
    {
        cut_is_some_cut();
        repetition_is_some_power();
        if most < least {
            return LengthSet::none();
        }
        let first = least.min(64);
        let last = most.min(64);
        let mut these = self.times(first);
        let mut sums = these;
        for _count in first..last {
            these = self.sums(these);
            sums = sums.union(these);
        }
        sums
    }
}
