//! Walks over the clauses that watch a literal.

ghost use Rattle.std.specs.Prelude.{◌≡◌, ◌<◌, [], true, slice_index_or, MatchOption};
ghost use Rattle.sb_lit.specs.Kept.{Kept};
ghost use Rattle.sb_trail.specs.Assignments.{held};
ghost use Rattle.sb_clauses.specs.Records.{kept_of};
ghost use Rattle.sb_clauses.specs.Propagation.{has_room_for, IsConflict};
ghost use Rattle.sb_clauses.specs.Watching.{IsSide};
ghost use Rattle.sb_clauses.specs.Sparing.{AreSpared};
ghost use Rattle.sb_clauses.specs.Walking.{AreFalseOf, AreHeld, IsWalking, Advances, IsTurn};

use crate::record::Record;
use crate::spare::{Spares, change_watch};
use crate::watch_lists::pour;
use crate::watches::Watches;
use crate::way::{Way, way_of};
use sb_lit::ClauseId;
use sb_trail::Trail;

/// The list for the clauses that a walk leaves where they are.
const SCRATCH: usize = 0;

/// What one turn of a walk comes to.
#[derive(Clone, Copy)]
pub enum Turn {
    /// A clause was taken off the list.
    Goes,
    /// The list is empty.
    Ends,
    /// This clause is false.
    Stops(ClauseId),
}

/// Takes the first number off the list, and puts it where it belongs.
fn take_turn(
    records: &[Option<Record>],
    own: &mut Watches,
    other: &[u32],
    spares: &mut Spares,
    trail: &mut Trail,
    list: usize,
) -> Turn
    requires walking { IsWalking list
        (record {
          kept = kept_of records.now;
          own = own.old.watched.items;
          other = other.now;
          all =
              own.old.lists;
          trail = trail.old;
        }) }
    requires spared { AreSpared (kept_of records.now) spares.old.literals.items }
    ensures turn { IsTurn list
        (record {
          kept = kept_of records.now;
          own = own.old.watched.items;
          other = other.now;
          all =
              own.old.lists;
          trail = trail.old;
        })
        (record {
          kept = kept_of records.now;
          own = own.new.watched.items;
          other = other.now;
          all =
              own.new.lists;
          trail = trail.new;
        }) result }
    ensures spared { AreSpared (kept_of records.now) spares.new.literals.items }
{
    let lists = own.lists.len();
    let Some(number) = own.lists.pop(list) else {
        return Turn::Ends;
    };
    match way_of(records, other, spares, trail, list, lists, number) {
        Way::Gone => Turn::Goes,
        Way::Stays => {
            own.lists.push(SCRATCH, number);
            Turn::Goes
        }
        Way::Forces(literal) => {
            trail.assign(literal, ClauseId(number as u64));
            own.lists.push(SCRATCH, number);
            Turn::Goes
        }
        Way::Moves(code) => {
            change_watch(own, spares, number, code);
            Turn::Goes
        }
        Way::False => {
            own.lists.push(list, number);
            Turn::Stops(ClauseId(number as u64))
        }
    }
}

/// Takes clauses off the list until it is empty or one of them is false.
fn take_turns(
    records: &[Option<Record>],
    own: &mut Watches,
    other: &[u32],
    spares: &mut Spares,
    trail: &mut Trail,
    list: usize,
) -> Option<ClauseId>
    requires walking { IsWalking list
        (record {
          kept = kept_of records.now;
          own = own.old.watched.items;
          other = other.now;
          all =
              own.old.lists;
          trail = trail.old;
        }) }
    requires spared { AreSpared (kept_of records.now) spares.old.literals.items }
    ensures walking { IsWalking list
        (record {
          kept = kept_of records.now;
          own = own.new.watched.items;
          other = other.now;
          all =
              own.new.lists;
          trail = trail.new;
        }) }
    ensures spared { AreSpared (kept_of records.now) spares.new.literals.items }
    ensures advances { Advances
        (record {
          kept = kept_of records.now;
          own = own.old.watched.items;
          other = other.now;
          all =
              own.old.lists;
          trail = trail.old;
        })
        (record {
          kept = kept_of records.now;
          own = own.new.watched.items;
          other = other.now;
          all =
              own.new.lists;
          trail = trail.new;
        }) }
    ensures answer { MatchOption result (slice_index_or own.new.lists.lists list [] ≡ [])
        (λ id. IsConflict (kept_of records.now) (held trail.new.literals) id.0) }
{
    loop {
        match take_turn(records, own, other, spares, trail, list) {
            Turn::Goes => {}
            Turn::Ends => return None,
            Turn::Stops(id) => return Some(id),
        }
    }
}

/// Looks at each clause of a list of false literals. A clause whose other literal is true stays, one that
/// leaves its other literal has it assigned and stays, and one with a further literal that is not false moves
/// to that one's list; the spare literal comes first, and then the clause is not read. Answers a clause that is
/// false, and stops there. Takes no memory.
pub fn walk(
    records: &[Option<Record>],
    own: &mut Watches,
    other: &[u32],
    spares: &mut Spares,
    trail: &mut Trail,
    list: usize,
) -> Option<ClauseId>
    requires side { IsSide (kept_of records.now) own.old.watched.items other.now own.old.lists }
    requires room { has_room_for trail.old.reserved (kept_of records.now) ≡ true }
    requires are_false { AreFalseOf list (held trail.old.literals) }
    requires begun { 0 < list }
    requires spared { AreSpared (kept_of records.now) spares.old.literals.items }
    ensures side { IsSide (kept_of records.now) own.new.watched.items other.now own.new.lists }
    ensures spared { AreSpared (kept_of records.now) spares.new.literals.items }
    ensures advances { Advances
        (record {
          kept = kept_of records.now;
          own = own.old.watched.items;
          other = other.now;
          all =
              own.old.lists;
          trail = trail.old;
        })
        (record {
          kept = kept_of records.now;
          own = own.new.watched.items;
          other = other.now;
          all =
              own.new.lists;
          trail = trail.new;
        }) }
    ensures answer { MatchOption result
        (AreHeld list
        (record {
          kept = kept_of records.now;
          own = own.new.watched.items;
          other = other.now;
          all =
              own.new.lists;
          trail = trail.new;
        })) (λ id. IsConflict (kept_of records.now) (held trail.new.literals) id.0) }
{
    if list >= own.lists.len() {
        return None;
    }
    let conflict = take_turns(records, own, other, spares, trail, list);
    pour(&mut own.lists, list, SCRATCH);
    own.lists.put(SCRATCH, list);
    conflict
}
