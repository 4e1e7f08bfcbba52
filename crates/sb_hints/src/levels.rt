//! Clauses by level, and clauses that are dropped.

ghost use Rattle.std.specs.Prelude.{◌≡◌, ◌<◌, true, false, length, map, List};
ghost use Rattle.std.specs.BinaryHeap.{IsHeap, heap_items};
ghost use Rattle.sb_lit.specs.declared.clause.Lit.{Lit as TheLit};
ghost use Rattle.sb_hints.specs.Storing.{kept_in};
ghost use Rattle.sb_hints.specs.Listing.{last_at};
ghost use Rattle.sb_hints.specs.Dropping.{scope_order, PopsLeft, kept_down_to, without};
ghost use Rattle.sb_hints.specs.Keeping.{AreStored, AreInOrder, IsTurn};

use crate::lists::{Listed, take_off};
use crate::rows::{Row, empty, goes, is_left};
use indexmap::IndexMap;
use sb_lit::Lit;
use std::collections::BinaryHeap;

/// Takes the highest level and its number off, if a clause of that level goes.
fn pop_left(scoped: &mut BinaryHeap<(u64, usize)>, down_to: Option<u64>) -> Option<usize>
    requires { IsHeap scope_order (heap_items scoped.old) }
    ensures { PopsLeft down_to (heap_items scoped.old) (heap_items scoped.new) result }
{
    let Some(highest) = scoped.peek() else {
        return None;
    };
    if !is_left(down_to, highest.0) {
        return None;
    }
    let (_, number) = scoped.pop()?;
    Some(number)
}

/// Drops the clause of the number, if it goes, and takes it off its list.
fn drop_row(
    rows: &mut Vec<Row>,
    lists: &mut IndexMap<Lit, Listed>,
    bare: &mut Option<usize>,
    number: usize,
    down_to: Option<u64>,
)
    ensures kept { (literals : List TheLit) → kept_in literals rows.new.items
        ≡ without down_to number (kept_in literals rows.old.items) }
    ensures stored { (literals : List TheLit)
        → AreStored literals rows.old.items (last_at lists.old bare.old)
        → AreStored literals rows.new.items (last_at lists.new bare.new) }
{
    if number >= rows.len() {
        return;
    }
    if goes(rows[number], down_to) {
        empty(rows, number);
        take_off(rows, lists, bare, number);
    }
}

/// Drops the clause of the highest level, if that one goes, and says whether it does.
fn drop_highest(
    rows: &mut Vec<Row>,
    lists: &mut IndexMap<Lit, Listed>,
    bare: &mut Option<usize>,
    scoped: &mut BinaryHeap<(u64, usize)>,
    down_to: Option<u64>,
) -> bool
    requires { IsHeap scope_order (heap_items scoped.old) }
    ensures ordered { IsHeap scope_order (heap_items scoped.new) }
    ensures fewer { result ≡ true → length (heap_items scoped.new) < length (heap_items scoped.old) }
    ensures turn { (literals : List TheLit)
        → AreInOrder literals rows.old.items (last_at lists.old bare.old) (heap_items scoped.old)
        → IsTurn down_to literals rows.old.items rows.new.items (last_at lists.new bare.new)
        (heap_items scoped.new) }
    ensures all { result ≡ false → (literals : List TheLit)
        → AreInOrder literals rows.new.items (last_at lists.new bare.new) (heap_items scoped.new)
        → kept_down_to down_to (kept_in literals rows.new.items) ≡ kept_in literals rows.new.items }
{
    let Some(number) = pop_left(scoped, down_to) else {
        return false;
    };
    drop_row(rows, lists, bare, number, down_to);
    true
}

/// Drops the clauses that go where levels are left down to this one, or all are. Linear in their number, each with a
/// logarithm of how many there are.
pub(crate) fn drop_left(
    rows: &mut Vec<Row>,
    lists: &mut IndexMap<Lit, Listed>,
    bare: &mut Option<usize>,
    scoped: &mut BinaryHeap<(u64, usize)>,
    down_to: Option<u64>,
)
    requires { IsHeap scope_order (heap_items scoped.old) }
    ensures kept { (literals : List TheLit)
        → AreInOrder literals rows.old.items (last_at lists.old bare.old) (heap_items scoped.old)
        → kept_in literals rows.new.items ≡ kept_down_to down_to (kept_in literals rows.old.items) }
    ensures order { (literals : List TheLit)
        → AreInOrder literals rows.old.items (last_at lists.old bare.old) (heap_items scoped.old)
        → AreInOrder literals rows.new.items (last_at lists.new bare.new) (heap_items scoped.new) }
{
    while drop_highest(rows, lists, bare, scoped, down_to) {}
}
