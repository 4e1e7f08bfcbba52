//! How what stands on the trail is kept.

ghost use Rattle.std.specs.Prelude.{◌≡◌, ◌^◌, ◌<◌};
ghost use Rattle.sb_trail.specs.declared.assigned.Assigned.{Assigned as TheAssigned};

use crate::assigned::Assigned;
use crate::compact::CompactLit;
use sb_lit::{ClauseId, Lit};
use std::marker::Model;

/// A literal that is true on the trail, as it is kept: in less memory than an [`Assigned`].
#[derive(Clone, Copy)]
pub struct Entry {
    literal: CompactLit,
    level: u32,
    reason: Option<ClauseId>,
}

impl Model for Entry {
    ghost use Rattle.sb_trail.specs.declared.assigned.Assigned.{Assigned};

    ghost Value = { Assigned };

    ghost view = { λ entry. record { literal = entry.literal; level = entry.level; reason = entry.reason } };

    ghost inverse = { λ assigned. record {
      literal = assigned.literal;
      level = assigned.level;
      reason = assigned.reason;
    } };
}

impl Entry {
    /// The entry, to be kept.
    pub(crate) fn new(assigned: Assigned) -> Entry
        requires atom { assigned.literal.atom < 2 ^ 31 }
        requires level { assigned.level < 2 ^ 32 }
        ensures { result ≡ assigned }
    {
        Entry {
            literal: CompactLit::new(assigned.literal),
            level: assigned.level as u32,
            reason: assigned.reason,
        }
    }

    /// What stands there.
    pub fn assigned(self) -> Assigned
        ensures { result ≡ self }
    {
        Assigned {
            literal: self.literal.literal(),
            level: self.level as usize,
            reason: self.reason,
        }
    }

    /// The literal that is true.
    pub fn literal(self) -> Lit
        ensures { result ≡ self.literal }
    {
        self.literal.literal()
    }

    /// The number of decisions up to the literal, itself included.
    pub fn level(self) -> usize
        ensures { result ≡ self.level }
    {
        self.level as usize
    }

    /// The clause that forced the literal, none where it was decided.
    pub fn reason(self) -> Option<ClauseId>
        ensures { result ≡ self.reason }
    {
        self.reason
    }
}
