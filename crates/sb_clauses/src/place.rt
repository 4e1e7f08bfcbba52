//! Where a new clause is watched, and what it comes to.

ghost use Rattle.std.specs.Prelude.{◌≡◌, ◌||◌, true, MatchOption};
ghost use Rattle.std.specs.List.{list_all};
ghost use Rattle.sb_lit.specs.Clauses.{is_false_under};
ghost use Rattle.sb_trail.specs.Assignments.{held, AreDistinct};
ghost use Rattle.sb_clauses.specs.Marking.{AreAscending, IsFront};
ghost use Rattle.sb_clauses.specs.Waiting.{is_the, IsOther, IsBest, AreWatchable, AreBest, AreLate, HasRank, IsArrival};

use crate::marks::forget_from;
use crate::watch::is_or_false;
use sb_lit::Lit;
use sb_trail::{CompactLit, Trail};

/// What a new clause comes to.
#[derive(Clone, Copy)]
pub enum Arrival {
    /// The first watched literal is true, or neither is false.
    Stays,
    /// All literals are false but this one, which has no value.
    Forces(Lit),
    /// All literals are false.
    False,
}

/// What a clause without literals watches.
const NO_LITERAL: Lit = Lit {
    atom: 0,
    positive: false,
};

/// Two literals of a clause to watch, that are not false, or else became false last. The same one twice where the
/// clause has no two different literals. Linear in its length.
pub fn watched_literals(trail: &Trail, clause: &[CompactLit]) -> (Lit, Lit)
    ensures watchable { AreWatchable clause.now result.0 result.1 }
    ensures best { AreBest (held trail.now.literals) clause.now result.0 result.1 }
{
    let Some(first) = best_place(trail, clause, None) else {
        return (NO_LITERAL, NO_LITERAL);
    };
    let own = clause[first].literal();
    match best_place(trail, clause, Some(own)) {
        Some(second) => (own, clause[second].literal()),
        None => (own, own),
    }
}

/// The place of a literal other than this one that is not false, or else became false last.
fn best_place(trail: &Trail, clause: &[CompactLit], avoided: Option<Lit>) -> Option<usize>
    ensures { MatchOption result (list_all (is_the avoided) clause.now ≡ true)
        (IsBest (held trail.now.literals) clause.now avoided) }
{
    for (place, literal) in clause.iter().enumerate() {
        if !is_the_or_false(trail, avoided, literal.literal()) {
            return Some(place);
        }
    }
    latest(trail, clause, avoided)
}

/// The place of a literal other than this one that became false last.
fn latest(trail: &Trail, clause: &[CompactLit], avoided: Option<Lit>) -> Option<usize>
    ensures { MatchOption result (list_all (is_the avoided) clause.now ≡ true) (IsOther clause.now avoided) }
{
    let mut best = None;
    let mut best_rank = 0;
    for (place, literal) in clause.iter().enumerate() {
        if is_the(avoided, literal.literal()) {
            continue;
        }
        let rank = rank(trail, literal.literal());
        if best.is_none() || rank > best_rank {
            best = Some(place);
            best_rank = rank;
        }
    }
    best
}

/// Whether it is this literal, if there is one.
fn is_the(avoided: Option<Lit>, literal: Lit) -> bool
    ensures { result ≡ is_the avoided literal }
{
    match avoided {
        Some(other) => literal == other,
        None => false,
    }
}

/// Whether it is this literal, if there is one, or false.
fn is_the_or_false(trail: &Trail, avoided: Option<Lit>, literal: Lit) -> bool
    ensures { result ≡ (is_the avoided literal || is_false_under (held trail.now.literals) literal) }
{
    match trail.literal_value(literal) {
        Some(false) => true,
        _ => is_the(avoided, literal),
    }
}

/// The level at which the literal became false, and the greatest number where it is not false.
fn rank(trail: &Trail, literal: Lit) -> usize
    ensures rank { HasRank trail.now.literals literal result }
    ensures distinct { AreDistinct trail.now.literals }
{
    match trail.literal_value(literal) {
        Some(false) => trail.level(literal.atom).unwrap_or(0),
        _ => usize::MAX,
    }
}

/// Forgets the marks from the level on at which the first of the two watched literals became false, and all where they
/// are the same.
pub fn forget_late(marks: &mut Vec<usize>, trail: &Trail, own: Lit, other: Lit)
    requires ascending { AreAscending marks.old.items }
    ensures ascending { AreAscending marks.new.items }
    ensures front { IsFront marks.old.items marks.new.items }
    ensures late { AreLate trail.now.literals marks.new.items own other }
{
    if own == other {
        marks.clear();
        return;
    }
    forget_from(marks, rank(trail, own));
    forget_from(marks, rank(trail, other));
}

/// What a new clause comes to that watches these literals.
pub fn arrive(trail: &Trail, clause: &[CompactLit], own: Lit, other: Lit) -> Arrival
    requires watchable { AreWatchable clause.now own other }
    requires best { AreBest (held trail.now.literals) clause.now own other }
    ensures { IsArrival trail.now.literals clause.now own other result }
{
    if clause.is_empty() {
        return Arrival::False;
    }
    match trail.literal_value(own) {
        Some(true) => Arrival::Stays,
        Some(false) => Arrival::False,
        None if is_or_false(trail, own, other) => Arrival::Forces(own),
        None => Arrival::Stays,
    }
}
