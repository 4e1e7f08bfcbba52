//! Terms whose arguments are numbers.

ghost use Rattle.std.specs.Prelude.{◌≡◌, OnOk, IfOk};

use crate::sort::{Sort, Symbol};
use smallvec::SmallVec;
use std::alloc::AllocError;
use std::marker::Model;

/// The number of a constant: how many were declared before it.
#[derive(Clone, Copy, PartialEq, Eq, Hash)]
pub struct Serial(pub u64);

/// The number of a term in its table.
#[derive(Clone, Copy, Default, PartialEq, Eq, PartialOrd, Ord, Hash)]
pub struct TermId {
    number: u32,
}

impl Model for TermId {
    ghost use Rattle.std.specs.Prelude.{ℕ};

    ghost Value = { ℕ };

    ghost view = { λ id. id.number };

    ghost inverse = { λ n. record { number = n } };
}

impl TermId {
    /// The term of this number. `AllocError` where there are as many terms as a table holds at most, 2^32.
    pub fn new(number: usize) -> Result<TermId, AllocError>
        ensures { IfOk result (λ id. id ≡ number) }
    {
        match u32::try_from(number) {
            Ok(number) => Ok(TermId { number }),
            Err(_) => Err(AllocError),
        }
    }

    /// The number itself.
    pub fn number(self) -> usize
        ensures { result ≡ self }
    {
        self.number as usize
    }
}

/// A term whose arguments are numbers.
#[derive(PartialEq, Eq, Hash, Drop)]
pub enum Term {
    /// A declared constant.
    Constant(Serial, Sort),
    /// The word of a literal, by its characters.
    Word(Vec<u32>),
    /// A numeral.
    Numeral(u64),
    /// A symbol with its arguments, as many as it takes.
    Apply(Symbol, SmallVec<TermId, 4>),
    /// A parameter of a definition, by its place, in the definition's body alone.
    Parameter(u32, Sort),
}
