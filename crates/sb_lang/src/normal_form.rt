//! Laws of normal regexes: what the constructors build stays what they build.

ghost use Rattle.sb_lang.specs.NormalFormLaws.{ConstructorsGiveNormal, DerivativeIsNormal, NormalIsNormal};

/// Each constructor gives a normal regex of normal parts.
pub fn constructors_give_normal()
    ensures { ConstructorsGiveNormal }
{}

/// The derivative of a normal regex is normal.
pub fn derivative_is_normal()
    ensures { DerivativeIsNormal }
{}

/// The normal regex of a term is normal.
pub fn normal_is_normal()
    ensures { NormalIsNormal }
{}
