//! Unit propagation: the queue is the trail, and its head goes from literal to literal.

ghost use Rattle.std.specs.Prelude.{◌≡◌, ◌<◌, ◌≤◌, ◌∷◌, [], ◌++◌, List, length, take, true, IfSome, IfNone, MatchOption};
ghost use Rattle.sb_lit.specs.declared.clause.Lit.{Lit as TheLit};
ghost use Rattle.sb_lit.specs.Clauses.{negation, is_false_under};
ghost use Rattle.sb_trail.specs.Assignments.{held, IsConsistent};
ghost use Rattle.sb_clauses.specs.Records.{kept_of};
ghost use Rattle.sb_clauses.specs.Propagation.{has_room_for, GrowsBy, IsConflict, IsSettled};
ghost use Rattle.sb_clauses.specs.Watching.{list_of, IsSide, AreWatched};
ghost use Rattle.sb_clauses.specs.Sparing.{AreSpared};
ghost use Rattle.sb_clauses.specs.Walking.{AreHeld, Advances};
ghost use Rattle.sb_clauses.specs.Waiting.{AreStored};
ghost use Rattle.sb_clauses.specs.Settling.{Grown, AreFine, Settles, IsFalseAt};

use crate::clauses::Clauses;
use crate::listing::list_new;
use crate::marks::{Queue, end_of_marks, forget_from, mark};
use crate::record::Record;
use crate::spare::Spares;
use crate::walk::walk;
use crate::watches::{SHORT, Watches, list_among};
use sb_lit::{ClauseId, Lit};
use sb_trail::Trail;

/// Assigns what the clauses force until nothing more is forced or one of them is false, and answers that one.
/// Puts the clauses that are new on the watch lists, and begins at the queue head.
pub fn settle_on(
    clauses: &Clauses,
    first: &mut Watches,
    second: &mut Watches,
    spares: &mut Spares,
    queue: &mut Queue,
    trail: &mut Trail,
) -> Option<ClauseId>
    requires stored { AreStored clauses.now first.old.watched.items first.old.lists second.old.watched.items
        second.old.lists trail.old.literals queue.old.marks.items queue.old.head queue.old.listed }
    requires room { has_room_for trail.old.reserved clauses.now ≡ true }
    requires spared { AreSpared clauses.now spares.old.literals.items }
    ensures stored { AreStored clauses.now first.new.watched.items first.new.lists second.new.watched.items
        second.new.lists trail.new.literals queue.new.marks.items queue.new.head queue.new.listed }
    ensures spared { AreSpared clauses.now spares.new.literals.items }
    ensures grows { GrowsBy clauses.now trail.old trail.new }
    ensures answer { MatchOption result (IsSettled clauses.now (held trail.new.literals))
        (λ id. IsConflict clauses.now (held trail.new.literals) id.0) }
{
    let records = clauses.records();
    forget_from(&mut queue.marks, trail.current_level());
    let conflict = list_new(records, first, second, queue, trail);
    if conflict.is_some() {
        queue.head = end_of_marks(&queue.marks, trail.literals());
        return conflict;
    }
    let conflict = settle(records, first, second, spares, trail, queue.head);
    if conflict.is_some() {
        return conflict;
    }
    queue.head = Some(trail.literals().len());
    mark(&mut queue.marks, trail.current_level());
    None
}

/// Goes over the literals of the trail behind the queue head, or over all, where there is none.
fn settle(
    records: &[Option<Record>],
    first: &mut Watches,
    second: &mut Watches,
    spares: &mut Spares,
    trail: &mut Trail,
    head: Option<usize>,
) -> Option<ClauseId>
    requires watched { AreWatched (kept_of records.now) first.old.watched.items first.old.lists second.old.watched.items
        second.old.lists }
    requires room { has_room_for trail.old.reserved (kept_of records.now) ≡ true }
    requires spared { AreSpared (kept_of records.now) spares.old.literals.items }
    requires fine { IfSome head
        (λ start. AreFine (kept_of records.now) (take start (held trail.old.literals)) (held trail.old.literals)
        first.old.watched.items second.old.watched.items) }
    ensures watched { AreWatched (kept_of records.now) first.new.watched.items first.new.lists second.new.watched.items
        second.new.lists }
    ensures spared { AreSpared (kept_of records.now) spares.new.literals.items }
    ensures settles { Settles (kept_of records.now) first.old.watched.items second.old.watched.items
        first.new.watched.items second.new.watched.items trail.old trail.new }
    ensures answer { MatchOption result
        (AreFine (kept_of records.now) (held trail.new.literals) (held trail.new.literals) first.new.watched.items
        second.new.watched.items) (λ id. IsConflict (kept_of records.now) (held trail.new.literals) id.0) }
{
    match head {
        Some(start) => settle_from(records, first, second, spares, trail, start),
        None => settle_all(records, first, second, spares, trail),
    }
}

/// Goes over all literals of the trail, behind the clauses without two different literals.
fn settle_all(
    records: &[Option<Record>],
    first: &mut Watches,
    second: &mut Watches,
    spares: &mut Spares,
    trail: &mut Trail,
) -> Option<ClauseId>
    requires watched { AreWatched (kept_of records.now) first.old.watched.items first.old.lists second.old.watched.items
        second.old.lists }
    requires room { has_room_for trail.old.reserved (kept_of records.now) ≡ true }
    requires spared { AreSpared (kept_of records.now) spares.old.literals.items }
    ensures watched { AreWatched (kept_of records.now) first.new.watched.items first.new.lists second.new.watched.items
        second.new.lists }
    ensures spared { AreSpared (kept_of records.now) spares.new.literals.items }
    ensures settles { Settles (kept_of records.now) first.old.watched.items second.old.watched.items
        first.new.watched.items second.new.watched.items trail.old trail.new }
    ensures answer { MatchOption result
        (AreFine (kept_of records.now) (held trail.new.literals) (held trail.new.literals) first.new.watched.items
        second.new.watched.items) (λ id. IsConflict (kept_of records.now) (held trail.new.literals) id.0) }
{
    let short = walk(records, first, &second.watched, spares, trail, SHORT);
    if short.is_some() {
        return short;
    }
    settle_from(records, first, second, spares, trail, 0)
}

/// Goes over the literals of the trail from a place on, also those that are assigned on the way.
fn settle_from(
    records: &[Option<Record>],
    first: &mut Watches,
    second: &mut Watches,
    spares: &mut Spares,
    trail: &mut Trail,
    start: usize,
) -> Option<ClauseId>
    requires watched { AreWatched (kept_of records.now) first.old.watched.items first.old.lists second.old.watched.items
        second.old.lists }
    requires room { has_room_for trail.old.reserved (kept_of records.now) ≡ true }
    requires spared { AreSpared (kept_of records.now) spares.old.literals.items }
    requires fine { AreFine (kept_of records.now) (take start (held trail.old.literals)) (held trail.old.literals)
        first.old.watched.items second.old.watched.items }
    ensures watched { AreWatched (kept_of records.now) first.new.watched.items first.new.lists second.new.watched.items
        second.new.lists }
    ensures spared { AreSpared (kept_of records.now) spares.new.literals.items }
    ensures settles { Settles (kept_of records.now) first.old.watched.items second.old.watched.items
        first.new.watched.items second.new.watched.items trail.old trail.new }
    ensures answer { MatchOption result
        (AreFine (kept_of records.now) (held trail.new.literals) (held trail.new.literals) first.new.watched.items
        second.new.watched.items) (λ id. IsConflict (kept_of records.now) (held trail.new.literals) id.0) }
{
    let mut head = start;
    while let Some(literal) = false_literal(trail, head) {
        let conflict = walk_both(records, first, second, spares, trail, literal);
        if conflict.is_some() {
            return conflict;
        }
        head += 1;
    }
    None
}

/// Looks at each clause that watches a literal that has become false, at the first watch and at the second.
fn walk_both(
    records: &[Option<Record>],
    first: &mut Watches,
    second: &mut Watches,
    spares: &mut Spares,
    trail: &mut Trail,
    literal: Lit,
) -> Option<ClauseId>
    requires watched { AreWatched (kept_of records.now) first.old.watched.items first.old.lists second.old.watched.items
        second.old.lists }
    requires room { has_room_for trail.old.reserved (kept_of records.now) ≡ true }
    requires spared { AreSpared (kept_of records.now) spares.old.literals.items }
    requires is_false { is_false_under (held trail.old.literals) literal ≡ true }
    ensures watched { AreWatched (kept_of records.now) first.new.watched.items first.new.lists second.new.watched.items
        second.new.lists }
    ensures spared { AreSpared (kept_of records.now) spares.new.literals.items }
    ensures settles { Settles (kept_of records.now) first.old.watched.items second.old.watched.items
        first.new.watched.items second.new.watched.items trail.old trail.new }
    ensures fine { IfNone result ((walked : List TheLit) → Grown walked (held trail.old.literals)
        → AreFine (kept_of records.now) walked (held trail.old.literals) first.old.watched.items second.old.watched.items
        → AreFine (kept_of records.now) (walked ++ negation literal ∷ []) (held trail.new.literals)
        first.new.watched.items second.new.watched.items) }
    ensures conflict { MatchOption result (Unit {0})
        (λ id. IsConflict (kept_of records.now) (held trail.new.literals) id.0) }
{
    let conflict = walk_watching(records, first, &second.watched, spares, trail, literal);
    if conflict.is_some() {
        return conflict;
    }
    walk_watching(records, second, &first.watched, spares, trail, literal)
}

/// Looks at each clause of which one of these watches is the literal.
fn walk_watching(
    records: &[Option<Record>],
    own: &mut Watches,
    other: &[u32],
    spares: &mut Spares,
    trail: &mut Trail,
    literal: Lit,
) -> Option<ClauseId>
    requires side { IsSide (kept_of records.now) own.old.watched.items other.now own.old.lists }
    requires room { has_room_for trail.old.reserved (kept_of records.now) ≡ true }
    requires spared { AreSpared (kept_of records.now) spares.old.literals.items }
    requires is_false { is_false_under (held trail.old.literals) literal ≡ true }
    ensures side { IsSide (kept_of records.now) own.new.watched.items other.now own.new.lists }
    ensures spared { AreSpared (kept_of records.now) spares.new.literals.items }
    ensures advances { Advances
        (record {
          kept = kept_of records.now;
          own = own.old.watched.items;
          other = other.now;
          all =
              own.old.lists;
          trail = trail.old;
        })
        (record {
          kept = kept_of records.now;
          own = own.new.watched.items;
          other = other.now;
          all =
              own.new.lists;
          trail = trail.new;
        }) }
    ensures answer { MatchOption result
        (AreHeld (list_of literal)
        (record {
          kept = kept_of records.now;
          own = own.new.watched.items;
          other = other.now;
          all =
              own.new.lists;
          trail = trail.new;
        })) (λ id. IsConflict (kept_of records.now) (held trail.new.literals) id.0) }
{
    match list_among(literal, own.lists.len()) {
        Some(list) => walk(records, own, other, spares, trail, list),
        None => None,
    }
}

/// The negation of the literal at this place of the trail.
fn false_literal(trail: &Trail, at: usize) -> Option<Lit>
    ensures literal { MatchOption result (length trail.now.literals ≤ at)
        (λ literal. IsFalseAt trail.now.literals at literal) }
    ensures consistent { IsConsistent (held trail.now.literals) }
    ensures within { length trail.now.literals ≤ trail.now.reserved }
    ensures fits { IfSome result (λ _. at < usize.MAX) }
{
    let entries = trail.literals();
    if at < trail.len() {
        Some(entries[at].literal().negated())
    } else {
        None
    }
}
