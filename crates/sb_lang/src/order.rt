//! Laws of the order of regexes.

ghost use Rattle.sb_lang.specs.OrderLaws.{OrderIsByParts, OrderIsTotal, OrderTellsApart};

/// Regexes stand by their kind, then by their parts from left to right.
pub fn order_is_by_parts()
    ensures { OrderIsByParts }
{}

/// The order is total.
pub fn order_is_total()
    ensures { OrderIsTotal }
{}

/// The order answers `Equal` exactly for equal regexes.
pub fn order_tells_apart()
    ensures { OrderTellsApart }
{}
