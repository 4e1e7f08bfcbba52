//! Clauses of two bounds.

ghost use Rattle.sb_sound.specs.BoundLaws.{OrdersHold, OrdersAreExact};

/// A clause of the order of bounds is true under every valuation.
pub fn orders_hold()
    ensures { OrdersHold }
{}

/// The order's clauses are those of these forms and no others.
pub fn orders_are_exact()
    ensures { OrdersAreExact }
{
    sb_lang::order::order_tells_apart();
}
