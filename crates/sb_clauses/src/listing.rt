//! New clauses come to the lists.

ghost use Rattle.std.specs.Prelude.{◌≡◌, ℕ, ◌+◌, ◌<◌, ◌≤◌, length, take, true, IfNone, IfSome};
ghost use Rattle.sb_trail.specs.Assignments.{held, current_level};
ghost use Rattle.sb_clauses.specs.Records.{kept_of};
ghost use Rattle.sb_clauses.specs.Propagation.{has_room_for, GrowsBy, IsConflict};
ghost use Rattle.sb_clauses.specs.Marking.{IsHead, AreReady};
ghost use Rattle.sb_clauses.specs.Waiting.{HaveRoom};

use crate::marks::Queue;
use crate::place::{Arrival, arrive, forget_late, watched_literals};
use crate::record::Record;
use crate::watches::Watches;
use sb_lit::ClauseId;
use sb_trail::Trail;

/// Lists the clauses that are new, each at two of its literals that are not false or became false last, and assigns
/// what they force, until one of them is false. Takes no memory.
pub fn list_new(
    records: &[Option<Record>],
    first: &mut Watches,
    second: &mut Watches,
    queue: &mut Queue,
    trail: &mut Trail,
) -> Option<ClauseId>
    requires listed { queue.old.listed ≤ length (kept_of records.now) }
    requires ready { AreReady (take queue.old.listed (kept_of records.now)) first.old.watched.items first.old.lists
        second.old.watched.items second.old.lists trail.old.literals queue.old.marks.items
        (current_level trail.old.literals) }
    requires room { HaveRoom (kept_of records.now) first.old.watched.items first.old.lists second.old.watched.items
        second.old.lists }
    requires reserved { has_room_for trail.old.reserved (kept_of records.now) ≡ true }
    ensures listed { queue.new.listed ≤ length (kept_of records.now) }
    ensures all { IfNone result (queue.new.listed ≡ length (kept_of records.now)) }
    ensures head { queue.new.head ≡ queue.old.head }
    ensures ready { AreReady (take queue.new.listed (kept_of records.now)) first.new.watched.items first.new.lists
        second.new.watched.items second.new.lists trail.new.literals queue.new.marks.items
        (current_level trail.new.literals) }
    ensures room { HaveRoom (kept_of records.now) first.new.watched.items first.new.lists second.new.watched.items
        second.new.lists }
    ensures grows { GrowsBy (kept_of records.now) trail.old trail.new }
    ensures fine { IfNone result ((head : ℕ)
        → IsHead (take queue.old.listed (kept_of records.now)) trail.old.literals first.old.watched.items
        second.old.watched.items head
        → IsHead (take queue.new.listed (kept_of records.now)) trail.new.literals first.new.watched.items
        second.new.watched.items head) }
    ensures answer { IfSome result (λ id. IsConflict (kept_of records.now) (held trail.new.literals) id.0) }
{
    for number in queue.listed..records.len() {
        queue.listed = number + 1;
        let conflict = list_next(records, first, second, &mut queue.marks, trail, number);
        if conflict.is_some() {
            return conflict;
        }
    }
    None
}

/// Lists one clause more.
fn list_next(
    records: &[Option<Record>],
    first: &mut Watches,
    second: &mut Watches,
    marks: &mut Vec<usize>,
    trail: &mut Trail,
    number: usize,
) -> Option<ClauseId>
    requires inside { number < length (kept_of records.now) }
    requires ready { AreReady (take number (kept_of records.now)) first.old.watched.items first.old.lists
        second.old.watched.items second.old.lists trail.old.literals marks.old.items
        (current_level trail.old.literals) }
    requires room { HaveRoom (kept_of records.now) first.old.watched.items first.old.lists second.old.watched.items
        second.old.lists }
    requires reserved { has_room_for trail.old.reserved (kept_of records.now) ≡ true }
    ensures ready { AreReady (take (number + 1) (kept_of records.now)) first.new.watched.items first.new.lists
        second.new.watched.items second.new.lists trail.new.literals marks.new.items
        (current_level trail.new.literals) }
    ensures room { HaveRoom (kept_of records.now) first.new.watched.items first.new.lists second.new.watched.items
        second.new.lists }
    ensures grows { GrowsBy (kept_of records.now) trail.old trail.new }
    ensures fine { IfNone result ((head : ℕ)
        → IsHead (take number (kept_of records.now)) trail.old.literals first.old.watched.items
        second.old.watched.items head
        → IsHead (take (number + 1) (kept_of records.now)) trail.new.literals first.new.watched.items
        second.new.watched.items head) }
    ensures answer { IfSome result (λ id. IsConflict (kept_of records.now) (held trail.new.literals) id.0) }
{
    let Some(record) = &records[number] else {
        return None;
    };
    let clause = record.literals.as_slice();
    let (own, other) = watched_literals(trail, clause);
    forget_late(marks, trail, own, other);
    first.watch(number, own, other);
    second.watch(number, other, own);
    let id = ClauseId(number as u64);
    match arrive(trail, clause, own, other) {
        Arrival::Stays => None,
        Arrival::Forces(literal) => {
            trail.assign(literal, id);
            None
        }
        Arrival::False => Some(id),
    }
}
