//! Literals in 32 bits.

ghost use Rattle.std.specs.Prelude.{◌≡◌, ◌^◌, ◌<◌};
ghost use Rattle.sb_trail.specs.Compact.{literal_of_code, code_of_literal};

use sb_lit::Lit;
use std::marker::Model;

/// A literal of an atom below 2 ^ 31, as it is kept: in a fourth of the memory of a [`Lit`].
#[derive(Clone, Copy, Default)]
pub struct CompactLit {
    /// Twice the atom, and 1 more where the literal is positive.
    code: u32,
}

impl Model for CompactLit {
    ghost use Rattle.sb_lit.specs.declared.clause.Lit.{Lit};
    ghost use Rattle.std.proofs.Common.{ap};
    ghost use Rattle.sb_trail.specs.Compact.{literal_of_code, code_of_literal, code_of_literal_of_code};

    ghost Value = { Lit };

    ghost view = { λ compact. literal_of_code compact.code };

    ghost inverse = { λ literal. record { code = code_of_literal literal } };

    ghost inverse_ok = { λ compact _. ap (λ code. record { code = code }) (code_of_literal_of_code compact.code) };
}

impl CompactLit {
    /// The literal, to be kept.
    pub fn new(literal: Lit) -> CompactLit
        requires { literal.atom < 2 ^ 31 }
        ensures { result ≡ literal }
    {
        CompactLit {
            code: code_of_literal(literal),
        }
    }

    /// The literal.
    pub fn literal(self) -> Lit
        ensures { result ≡ self }
    {
        literal_of_code(self.code)
    }
}

/// What the literal stands as.
fn code_of_literal(literal: Lit) -> u32
    requires { literal.atom < 2 ^ 31 }
    ensures { result ≡ code_of_literal literal }
{
    let pair = 2 * literal.atom as u32;
    if literal.positive { pair + 1 } else { pair }
}

/// The literal that stands as this.
#[tactic(auto, unfolding(crate::specs::Compact::literal_of_code))]
fn literal_of_code(code: u32) -> Lit
    ensures { result ≡ literal_of_code code }
{
    Lit {
        atom: (code / 2) as u64,
        positive: code % 2 == 1,
    }
}
