//! Dead regexes.

ghost use Rattle.sb_sound.specs.DeadLaws.{ExpandedIsRight, ExpandedIsExact, DeadStaysEmpty, DeadIsExact};

use sb_lang::derivative::{derivative_has_rests, nullable_has_empty_word};
use sb_lang::order::order_tells_apart;
use sb_rulebook::laws::test_decides_expansion;

/// An expansion that is accepted is right, and what was kept of expansions stays right.
pub fn expanded_is_right()
    ensures { ExpandedIsRight }
{
    order_tells_apart();
    test_decides_expansion();
}

/// Where expansions are right and dead regexes have no word, the regexes that a line adds to the dead ones have none.
pub fn dead_stays_empty()
    ensures { DeadStaysEmpty }
{
    nullable_has_empty_word();
    derivative_has_rests();
}

/// An expansion is accepted exactly where it is new and right, and the count is below the limit.
pub fn expanded_is_exact()
    ensures { ExpandedIsExact }
{
    order_tells_apart();
    test_decides_expansion();
}

/// Regexes are accepted as dead exactly where they are new and not nullable, and stay among themselves and the dead.
pub fn dead_is_exact()
    ensures { DeadIsExact }
{}
