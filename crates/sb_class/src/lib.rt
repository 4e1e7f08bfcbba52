//! Sets of characters. A character is a number from 0 to `0x2ffff` (SMT-LIB theory of Unicode Strings).
//!
//! A [`Class`] is kept as its ranges in ascending order with a gap between any two, so equal sets have
//! equal ranges, and each operation goes over the ranges once. Contracts see a class as that list of
//! ranges and speak of it by membership, `in_ranges`. The layer above keeps one in each set node of a
//! regular expression, and splits the characters by its cuts.
#![tactic(auto)]

ghost use Rattle.std.specs.Prelude.{◌≡◌, ℕ, ◌≤◌, ◌&&◌, ◌||◌, not, List, [], IsTrue, ◌↔◌, IfOk, MatchOption};
ghost use Rattle.sb_class.specs.Ranges.{Range, in_range, in_ranges, IsCanonical, IsEmptySet, IsLeast, AreCuts};
ghost use Rattle.sb_word.specs.Words.{is_character};

use std::alloc::{AllocError, Global};
use std::marker::Model;

mod range_list;

/// The greatest character.
pub const LAST_CHARACTER: u32 = 0x2ffff;

/// A set of characters.
#[derive(Drop)]
pub struct Class {
    ranges: Vec<(u32, u32)>,
}

impl Model for Class {
    ghost Value = { List Range };

    ghost view = { λ class. class.ranges.items };

    ghost invariant = { λ class. IsCanonical class.ranges.items };
}

impl Class {
    /// The set with no member. Takes no memory.
    pub fn empty(alloc: Global) -> Class
        ensures { result ≡ [] }
    {
        Class {
            ranges: Vec::new(alloc),
        }
    }

    /// The set of all characters.
    pub fn full(alloc: Global) -> Result<Class, AllocError>
        ensures { IfOk result (λ class. (c : ℕ) → in_ranges class c ≡ is_character c) }
    {
        Class::range(alloc, 0, LAST_CHARACTER)
    }

    /// The characters from `lo` to `hi`, both of them included.
    pub fn range(alloc: Global, lo: u32, hi: u32) -> Result<Class, AllocError>
        requires ordered { lo ≤ hi }
        requires characters { hi ≤ LAST_CHARACTER }
        ensures { IfOk result (λ class. (c : ℕ) → in_ranges class c ≡ in_range (lo, hi) c) }
    {
        let ranges = Vec::from_slice(alloc, &[(lo, hi)])?;
        Ok(Class { ranges })
    }

    /// The set of these ranges. `None` exactly where they aren't ascending, disjoint, not adjacent and
    /// within the characters. Linear in the number of ranges.
    pub fn from_ranges(alloc: Global, ranges: &[(u32, u32)]) -> Result<Option<Class>, AllocError>
        ensures { IfOk result (λ found. MatchOption found (¬ IsCanonical ranges.now) (λ class. class ≡ ranges.now)) }
    {
        if !range_list::is_canonical(ranges) {
            return Ok(None);
        }
        let ranges = Vec::from_slice(alloc, ranges)?;
        Ok(Some(Class { ranges }))
    }

    /// The ranges, ascending, with both ends of each. Takes no memory.
    pub fn ranges(&self) -> &[(u32, u32)]
        ensures value { result.now ≡ self.now }
        ensures canonical { IsCanonical self.now }
    {
        &self.ranges
    }

    /// Whether the character is a member. Logarithmic in the number of ranges.
    pub fn contains(&self, c: u32) -> bool
        ensures { result ≡ in_ranges self.now c }
    {
        range_list::contains(&self.ranges, c)
    }

    /// The members of either set. Linear in the number of ranges of both.
    pub fn union(&self, other: &Class) -> Result<Class, AllocError>
        ensures { IfOk result (λ class. (c : ℕ) → in_ranges class c ≡ (in_ranges self.now c || in_ranges other.now c)) }
    {
        let alloc = *self.ranges.allocator();
        let ranges = range_list::union(alloc, &self.ranges, &other.ranges)?;
        Ok(Class { ranges })
    }

    /// The members of both sets. Linear in the number of ranges of both.
    pub fn inter(&self, other: &Class) -> Result<Class, AllocError>
        ensures { IfOk result (λ class. (c : ℕ) → in_ranges class c ≡ (in_ranges self.now c && in_ranges other.now c)) }
    {
        let alloc = *self.ranges.allocator();
        let ranges = range_list::inter(alloc, &self.ranges, &other.ranges)?;
        Ok(Class { ranges })
    }

    /// The characters that are no members. Linear in the number of ranges.
    pub fn complement(&self) -> Result<Class, AllocError>
        ensures { IfOk result (λ class. (c : ℕ) → in_ranges class c ≡ (is_character c && not (in_ranges self.now c))) }
    {
        let ranges = range_list::complement(*self.ranges.allocator(), &self.ranges)?;
        Ok(Class { ranges })
    }

    /// Whether the set has no member. Takes no memory.
    pub fn is_empty(&self) -> bool
        ensures { IsTrue result ↔ IsEmptySet self.now }
    {
        self.ranges.is_empty()
    }

    /// The least member, `None` exactly where there is none. Takes no memory.
    pub fn least(&self) -> Option<u32>
        ensures { MatchOption result (IsEmptySet self.now) (λ m. IsLeast self.now m) }
    {
        range_list::least(&self.ranges)
    }

    /// The characters above 0 whose membership differs from that of the character before, ascending.
    /// Linear in the number of ranges.
    pub fn cuts(&self) -> Result<Vec<u32>, AllocError>
        ensures { IfOk result (λ cuts. AreCuts self.now cuts.items) }
    {
        range_list::cuts(*self.ranges.allocator(), &self.ranges)
    }
}

/// Sets with the same members have the same ranges.
pub fn same_members()
    ensures { (a b : List Range) → IsCanonical a → IsCanonical b → ((c : ℕ) → in_ranges a c ≡ in_ranges b c) → a ≡ b }
{}
