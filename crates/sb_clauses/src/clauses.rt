//! The kept clauses.

ghost use Rattle.std.specs.Prelude.{◌≡◌, ℕ, [], ◌∷◌, ◌++◌, ◌<◌, ◌≤◌, length, slice_set, true, Some, None, IfOk, OnOk, OnErr, MatchBool, MatchOption};
ghost use Rattle.std.specs.List.{list_all, list_any};
ghost use Rattle.std.specs.BinaryHeap.{IsHeap, heap_items};
ghost use Rattle.std.specs.Option.{option_map, option_copied};
ghost use Rattle.sb_lit.specs.Kept.{Kept, kept_at, kept_up_to, is_above};
ghost use Rattle.sb_clauses.specs.Records.{clause_of, kept_of};
ghost use Rattle.sb_clauses.specs.Propagation.{all_dropped, are_reserved, is_reserved, has_room_for, HasNoneFalse, IsConflict};
ghost use Rattle.sb_clauses.specs.Scoped.{scope_order, is_pair, AreScoped, AreEmptyBefore, PopsAbove, without_above, IsScopedTurn};
ghost use Rattle.sb_clauses.specs.Occurring.{AreFound};
ghost use Rattle.sb_clauses.specs.Watching.{is_small};

use crate::occurrences::{Occurrences, false_where, home_for};
use crate::record::Record;
use crate::watches::lists_for;
use sb_lit::{Clause, ClauseId, Lit};
use sb_trail::{CompactLit, Trail};
use smallvec::SmallVec;
use std::alloc::{AllocError, Global};
use std::collections::BinaryHeap;
use std::marker::Model;

/// The clauses that are kept, by number.
#[derive(Drop)]
pub struct Clauses {
    records: Vec<Option<Record>>,
    /// The levels above 0 with the numbers of their clauses, the highest level first.
    scoped: BinaryHeap<(u64, usize)>,
    occurrences: Occurrences,
    /// The places before this one are empty.
    emptied: usize,
}

impl Model for Clauses {
    ghost use Rattle.sb_lit.specs.Kept.{Kept};
    ghost use Rattle.std.specs.BinaryHeap.{heap_items};
    ghost use Rattle.sb_clauses.specs.Records.{kept_of};
    ghost use Rattle.sb_clauses.specs.Scoped.{AreScoped, AreEmptyBefore};
    ghost use Rattle.sb_clauses.specs.Occurring.{AreFound};

    ghost Value = { Kept };

    ghost view = { λ clauses. kept_of clauses.records.items };

    ghost invariant = { λ clauses. AreScoped (kept_of clauses.records.items) (heap_items clauses.scoped)
        × AreFound (kept_of clauses.records.items) clauses.occurrences.heads clauses.occurrences.nodes.items
        × AreEmptyBefore clauses.emptied (kept_of clauses.records.items) };
}

impl Clauses {
    /// No clauses. Takes no memory.
    pub fn new(alloc: Global) -> Clauses
        ensures { result ≡ [] }
    {
        Clauses {
            records: Vec::new(alloc),
            scoped: BinaryHeap::new(alloc),
            occurrences: Occurrences::new(alloc),
            emptied: 0,
        }
    }

    /// Keeps a clause at a level, under the next number. Linear in the number of its literals, and above level 0
    /// logarithmic in the number of clauses there; takes memory for each atom up to the greatest one, and is an error
    /// where that cannot be had, as for an atom of 2 ^ 30, and where 2 ^ 32 - 1 numbers were given.
    pub fn add(&mut self, clause: &Clause, level: u64) -> Result<ClauseId, AllocError>
        ensures number { IfOk result (λ id. id.0 ≡ length self.old) }
        ensures ok { IfOk result
            (λ _. self.new ≡ self.old ++ Some (record { literals = clause.now; level = level }) ∷ []) }
        ensures err { OnErr result (self.new ≡ self.old) }
    {
        let given = clause.literals();
        let Some(lists) = lists_for(given) else {
            return Err(AllocError);
        };
        let alloc = *self.records.allocator();
        let number = self.records.len();
        self.occurrences.make_room(number + 1, lists)?;
        let literals = compact(alloc, given)?;
        scope(&mut self.scoped, level, number)?;
        self.records.push(Some(Record { literals, level }))?;
        let home = home_for(&self.occurrences.heads, given);
        self.occurrences.put(number, home);
        Ok(ClauseId(number as u64))
    }

    /// The records, by number.
    pub(crate) fn records(&self) -> &[Option<Record>]
        ensures { kept_of result.now ≡ self.now }
    {
        self.records.as_slice()
    }

    /// The literals of the clause, `None` exactly where the number is not given or its clause was dropped.
    /// Constant time.
    pub fn literals(&self, id: ClauseId) -> Option<&[CompactLit]>
        ensures { option_copied result ≡ option_map (λ clause. clause.literals) (kept_at self.now id.0) }
    {
        match self.records.get(id.0 as usize) {
            Some(Some(record)) => Some(record.literals.as_slice()),
            _ => None,
        }
    }

    /// The level of the clause, `None` exactly where the number is not given or its clause was dropped.
    /// Constant time.
    pub fn level(&self, id: ClauseId) -> Option<u64>
        ensures { result ≡ option_map (λ clause. clause.level) (kept_at self.now id.0) }
    {
        match self.records.get(id.0 as usize) {
            Some(Some(record)) => Some(record.level),
            _ => None,
        }
    }

    /// A kept clause that is false where these literals are true, `None` exactly where there is none. Looks at
    /// clauses alone that have the negation of one of these literals or no literals: each clause stands in the list
    /// of one of its literals, that whose list got a clause the longest ago, and the lists of the negations are gone
    /// through once for each time that a literal stands here. An error for want of memory.
    pub fn false_where(&self, literals: &[Lit]) -> Result<Option<ClauseId>, AllocError>
        ensures { IfOk result (λ found. MatchOption found (HasNoneFalse self.now literals.now)
            (λ id. IsConflict self.now literals.now id.0)) }
    {
        false_where(
            *self.records.allocator(),
            &self.records,
            &self.occurrences.heads,
            &self.occurrences.nodes,
            literals,
        )
    }

    /// How many numbers were given.
    pub fn len(&self) -> usize
        ensures { result ≡ length self.now }
    {
        self.records.len()
    }

    /// Drops the clauses above the level; their numbers are not given again. Takes no memory; linear in the
    /// clauses that go, each with a logarithm of the number of clauses above level 0.
    pub fn leave_above(&mut self, level: u64)
        ensures { self.new ≡ kept_up_to level self.old }
    {
        drop_records_above(
            &mut self.records,
            &mut self.scoped,
            &mut self.occurrences,
            level,
        );
    }

    /// Drops all clauses, those of level 0 too; their numbers are not given again. Takes no memory; linear in the numbers
    /// that were given since all clauses were dropped before.
    pub fn leave_all(&mut self)
        ensures { self.new ≡ all_dropped self.old }
    {
        drop_records_from(&mut self.records, &mut self.occurrences, self.emptied);
        self.scoped.clear();
        self.emptied = self.records.len();
    }

    /// Whether the trail has a place for each atom of a kept clause. Takes no memory; linear in the number of
    /// all literals.
    pub fn have_room_on(&self, trail: &Trail) -> bool
        ensures { result ≡ has_room_for trail.now.reserved self.now }
    {
        let reserved = trail.reserved();
        for place in &self.records {
            if !is_reserved(place, reserved) {
                return false;
            }
        }
        true
    }
}

/// The literals, to be kept.
fn compact(alloc: Global, literals: &[Lit]) -> Result<SmallVec<CompactLit, 4>, AllocError>
    requires { list_all is_small literals.now ≡ true }
    ensures { IfOk result (λ kept. kept.items ≡ literals.now) }
{
    let mut kept = SmallVec::with_capacity(alloc, literals.len())?;
    for literal in literals {
        kept.push(CompactLit::new(*literal))?;
    }
    Ok(kept)
}

/// Puts a level above 0 into the heap, with a number.
fn scope(scoped: &mut BinaryHeap<(u64, usize)>, level: u64, number: usize) -> Result<(), AllocError>
    ensures keeps { (kept : Kept) → AreScoped kept (heap_items scoped.old) → AreScoped kept (heap_items scoped.new) }
    ensures there { OnOk result (0 < level → list_any (is_pair level number) (heap_items scoped.new) ≡ true) }
{
    if level == 0 {
        return Ok(());
    }
    scoped.push((level, number))?;
    Ok(())
}

/// Empties the places from this one on.
fn drop_records_from(records: &mut Vec<Option<Record>>, occurrences: &mut Occurrences, from: usize)
    requires empty { AreEmptyBefore from (kept_of records.old.items) }
    requires found { AreFound (kept_of records.old.items) occurrences.old.heads occurrences.old.nodes.items }
    ensures dropped { kept_of records.new.items ≡ all_dropped (kept_of records.old.items) }
    ensures found { AreFound (kept_of records.new.items) occurrences.new.heads occurrences.new.nodes.items }
{
    let mut number = from;
    while number < records.len() {
        empty(records, occurrences, number);
        number += 1;
    }
}

/// Empties the place of the number, and takes it off its list.
fn empty(records: &mut Vec<Option<Record>>, occurrences: &mut Occurrences, number: usize)
    requires inside { number < length records.old.items }
    requires found { AreFound (kept_of records.old.items) occurrences.old.heads occurrences.old.nodes.items }
    ensures emptied { kept_of records.new.items ≡ slice_set (kept_of records.old.items) number None }
    ensures found { AreFound (kept_of records.new.items) occurrences.new.heads occurrences.new.nodes.items }
{
    records[number] = None;
    occurrences.remove(number);
}

/// Empties the places of the clauses above the level.
fn drop_records_above(
    records: &mut [Option<Record>],
    scoped: &mut BinaryHeap<(u64, usize)>,
    occurrences: &mut Occurrences,
    level: u64,
)
    requires scoped { AreScoped (kept_of records.old) (heap_items scoped.old) }
    requires found { AreFound (kept_of records.old) occurrences.old.heads occurrences.old.nodes.items }
    ensures dropped { kept_of records.new ≡ kept_up_to level (kept_of records.old) }
    ensures empty { (place : ℕ) → AreEmptyBefore place (kept_of records.old) → AreEmptyBefore place (kept_of records.new) }
    ensures scoped { AreScoped (kept_of records.new) (heap_items scoped.new) }
    ensures found { AreFound (kept_of records.new) occurrences.new.heads occurrences.new.nodes.items }
{
    while drop_highest(records, scoped, occurrences, level) {}
}

/// Empties the place of the clause of the highest level, if that is above this one, and says whether it was.
fn drop_highest(
    records: &mut [Option<Record>],
    scoped: &mut BinaryHeap<(u64, usize)>,
    occurrences: &mut Occurrences,
    level: u64,
) -> bool
    requires scoped { AreScoped (kept_of records.old) (heap_items scoped.old) }
    requires found { AreFound (kept_of records.old) occurrences.old.heads occurrences.old.nodes.items }
    ensures found { AreFound (kept_of records.new) occurrences.new.heads occurrences.new.nodes.items }
    ensures turn { MatchBool result
        (IsScopedTurn level (kept_of records.old) (kept_of records.new) (heap_items scoped.old) (heap_items scoped.new))
        ((kept_up_to level (kept_of records.old) ≡ kept_of records.old)
        × (kept_of records.new ≡ kept_of records.old) × (heap_items scoped.new ≡ heap_items scoped.old)) }
{
    let Some(number) = pop_above(scoped, level) else {
        return false;
    };
    drop_record(records, occurrences, number, level);
    true
}

/// Takes the highest level and its number off, if that level is above this one.
fn pop_above(scoped: &mut BinaryHeap<(u64, usize)>, level: u64) -> Option<usize>
    requires { IsHeap scope_order (heap_items scoped.old) }
    ensures { PopsAbove level (heap_items scoped.old) (heap_items scoped.new) result }
{
    let Some(highest) = scoped.peek() else {
        return None;
    };
    if highest.0 <= level {
        return None;
    }
    let (_, number) = scoped.pop()?;
    Some(number)
}

/// Empties the place of the number, if its clause is above the level, and takes it off its list.
fn drop_record(
    records: &mut [Option<Record>],
    occurrences: &mut Occurrences,
    number: usize,
    level: u64,
)
    requires { AreFound (kept_of records.old) occurrences.old.heads occurrences.old.nodes.items }
    ensures dropped { kept_of records.new ≡ without_above level number (kept_of records.old) }
    ensures found { AreFound (kept_of records.new) occurrences.new.heads occurrences.new.nodes.items }
{
    if number >= records.len() {
        return;
    }
    if is_above(&records[number], level) {
        records[number] = None;
        occurrences.remove(number);
    }
}

/// Whether there is a clause above the level.
fn is_above(place: &Option<Record>, level: u64) -> bool
    ensures { result ≡ is_above (option_map clause_of place.now) level }
{
    match place {
        Some(record) => record.level > level,
        None => false,
    }
}

/// Whether each atom of the clause has a place, if there is one.
fn is_reserved(place: &Option<Record>, reserved: usize) -> bool
    ensures { result ≡ is_reserved reserved (option_map clause_of place.now) }
{
    match place {
        Some(record) => are_reserved(record.literals.as_slice(), reserved),
        None => true,
    }
}

/// Whether each atom has a place.
fn are_reserved(literals: &[CompactLit], reserved: usize) -> bool
    ensures { result ≡ are_reserved reserved literals.now }
{
    literals
        .iter()
        .all(|literal| literal.literal().atom < reserved as u64)
}
