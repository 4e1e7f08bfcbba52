//! The derivative of a regex by all characters.

ghost use Rattle.std.specs.Prelude.{◌≡◌, ◌≤◌, IfOk};
ghost use Rattle.sb_deriv.specs.Pieces.{value_at, IsIntervalMap};
ghost use Rattle.sb_deriv.specs.Targets.{AreTargets};

use crate::pieces::value_at;
use crate::targets::{classes, gather};
use sb_class::Class;
use sb_regex::RegexId;
use std::alloc::{AllocError, Global};
use std::marker::Model;

/// For each character the number of a regex, as an interval map.
#[derive(Drop)]
pub struct Derivative {
    pieces: Vec<(u32, RegexId)>,
}

impl Model for Derivative {
    ghost use Rattle.std.specs.Prelude.{ℕ, List};

    ghost Value = { List (ℕ × ℕ) };

    ghost use Rattle.sb_deriv.specs.Pieces.{IsIntervalMap};

    ghost view = { λ derivative. derivative.pieces.items };

    ghost invariant = { λ derivative. IsIntervalMap derivative.pieces.items };
}

impl Derivative {
    pub(crate) fn new(pieces: Vec<(u32, RegexId)>) -> Derivative
        requires { IsIntervalMap pieces.items }
        ensures { result ≡ pieces.items }
    {
        Derivative { pieces }
    }

    /// The number of the derivative by a character. Logarithmic in the number of pieces.
    pub fn value_at(&self, c: u32) -> RegexId
        requires { c ≤ 0x2ffff }
        ensures { result ≡ value_at self.now c }
    {
        value_at(&self.pieces, c)
    }

    /// The pieces: the first character of each, and the number of the derivative by its characters. Takes no memory.
    pub fn pieces(&self) -> &[(u32, RegexId)]
        ensures value { result.now ≡ self.now }
        ensures map { IsIntervalMap self.now }
    {
        &self.pieces
    }

    /// The targets, each once, with the class of the characters that lead there: the classes are disjoint, cover every
    /// character, and stand in the order of their least characters. Linear in the number of pieces.
    pub fn targets(&self, alloc: Global) -> Result<Vec<(Class, RegexId)>, AllocError>
        ensures classes { IfOk result (λ targets. AreTargets self.now targets.items) }
    {
        let gathered = gather(alloc, &self.pieces)?;
        classes(alloc, &gathered)
    }
}
