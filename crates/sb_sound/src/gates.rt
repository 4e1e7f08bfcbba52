//! Clauses of gates.

ghost use Rattle.sb_sound.specs.GateLaws.{GatesHold, GatesAreExact};

use sb_lang::constructors::mkrep_keeps_language;
use sb_lang::languages::repetition_is_some_power;
use sb_lang::order::order_tells_apart;

/// A clause that is a gate is true under every valuation.
pub fn gates_hold()
    ensures { GatesHold }
{
    order_tells_apart();
    mkrep_keeps_language();
    repetition_is_some_power();
}

/// Gates are the clauses of these forms and no others.
pub fn gates_are_exact()
    ensures { GatesAreExact }
{
    order_tells_apart();
}
