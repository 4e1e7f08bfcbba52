//! The numbers of atoms.

ghost use Rattle.std.specs.Prelude.{◌≡◌};

use sb_lit::Lit;
use std::marker::Model;

/// The number of an atom in its table.
#[derive(Clone, Copy, Default, PartialEq, Eq, PartialOrd, Ord, Hash)]
pub struct AtomId {
    number: usize,
}

impl Model for AtomId {
    ghost use Rattle.std.specs.Prelude.{ℕ};

    ghost Value = { ℕ };

    ghost view = { λ id. id.number };

    ghost inverse = { λ n. record { number = n } };
}

impl AtomId {
    pub(crate) fn new(number: usize) -> AtomId
        ensures { result ≡ number }
    {
        AtomId { number }
    }

    /// The number of a literal's atom.
    pub fn of(literal: Lit) -> AtomId
        ensures { result ≡ literal.atom }
    {
        AtomId::new(literal.atom as usize)
    }

    /// The number itself.
    pub fn number(self) -> usize
        ensures { result ≡ self }
    {
        self.number
    }
}
