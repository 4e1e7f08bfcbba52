//! Finding how a conflict came about, from the newest literal back.

ghost use Rattle.std.specs.Prelude.{◌≡◌, ◌+◌, ◌^◌, ◌<◌, ◌≤◌, false, [], length, map, take, position, OnOk, IfOk};
ghost use Rattle.std.specs.HashSet.{hash_set_len};
ghost use Rattle.sb_trail.specs.Assignments.{IsTrail};
ghost use Rattle.sb_analyze.specs.Reasons.{AreReasoned, highest};
ghost use Rattle.sb_analyze.specs.Explained.{IsWalked, IsFirstUip, IsTraced, greatest_at, IsMadeOf};
ghost use Rattle.sb_analyze.specs.Shown.{marks_of, shown};
ghost use Rattle.sb_analyze.specs.Explaining.{begun, also_met, with_literal, with_literals, with_clause, traced, is_pending, is_forced_by, with_forced, end_before};

use crate::analysis::Analysis;
use crate::learned::{Hints, Learned};
use sb_clauses::Clauses;
use sb_lit::{Clause, ClauseId, Lit};
use sb_trail::{Assigned, CompactLit, Entry, Trail};
use std::alloc::{AllocError, Global};
use std::collections::HashSet;

impl Analysis {
    /// Nothing is met yet.
    pub(crate) fn new(alloc: Global, level: usize) -> Analysis
        ensures { shown result ≡ begun level }
    {
        Analysis {
            level,
            seen: HashSet::new(alloc),
            pending: 0,
            clause: Vec::new(alloc),
            reasons: Vec::new(alloc),
        }
    }

    /// Takes a clause for a hint, and meets those of its literals that are false.
    pub(crate) fn resolve(
        &mut self,
        trail: &Trail,
        clauses: &Clauses,
        id: ClauseId,
    ) -> Result<(), AllocError>
        ensures { OnOk result (shown self.new ≡ with_clause clauses.now trail.now.literals (shown self.old) id.0) }
    {
        self.reasons.push(id)?;
        match clauses.literals(id) {
            Some(literals) => self.meet_all(trail, literals),
            None => Ok(()),
        }
    }

    /// Meets those of the literals that are false.
    fn meet_all(&mut self, trail: &Trail, literals: &[CompactLit]) -> Result<(), AllocError>
        ensures { OnOk result (shown self.new ≡ with_literals trail.now.literals (shown self.old) literals.now) }
    {
        for literal in literals {
            self.meet(trail, literal.literal())?;
        }
        Ok(())
    }

    /// Meets a literal if it is false, and was not met before.
    fn meet(&mut self, trail: &Trail, literal: Lit) -> Result<(), AllocError>
        ensures { OnOk result (shown self.new ≡ with_literal trail.now.literals (shown self.old) literal) }
    {
        if self.is_met(literal.atom) || trail.literal_value(literal) != Some(false) {
            return Ok(());
        }
        see(&mut self.seen, literal.atom)?;
        if trail.level(literal.atom).unwrap_or(0) < self.level {
            self.clause.push(literal)?;
            return Ok(());
        }
        self.pending += 1;
        Ok(())
    }

    /// Resolves the literals of the level, from the newest one on, until one is left: the first unique implication
    /// point.
    pub(crate) fn resolve_to_first_uip(
        &mut self,
        trail: &Trail,
        clauses: &Clauses,
        entries: &[Entry],
    ) -> Result<Lit, AllocError>
        requires whole { entries.now ≡ trail.now.literals }
        requires trail { IsTrail trail.now }
        requires reasoned { AreReasoned clauses.now [] trail.now.literals }
        requires walked { IsWalked clauses.now trail.now.literals self.old.level trail.now.literals (shown self.old) }
        ensures { IfOk result (IsFirstUip clauses.now trail.now.literals self.old.level (shown self.new)) }
    {
        for place in (0..entries.len()).rev() {
            let entry = entries[place].assigned();
            if !self.is_pending(entry) {
                continue;
            }
            if self.pending == 1 {
                return Ok(entry.literal);
            }
            let Some(reason) = entry.reason else {
                return Ok(entry.literal);
            };
            self.resolve(trail, clauses, reason)?;
            self.pending -= 1;
        }
        unreachable!()
    }

    /// Takes the literal that the clause forced into the clause, if there is one, and says up to where the trail
    /// explains the others.
    pub(crate) fn keep_forced(
        &mut self,
        entries: &[Entry],
        id: ClauseId,
    ) -> Result<usize, AllocError>
        ensures kept { OnOk result
            (shown self.new ≡ with_forced entries.now (shown self.old) (position (is_forced_by id) entries.now)) }
        ensures end { IfOk result (λ end. end ≡ end_before entries.now (position (is_forced_by id) entries.now)) }
    {
        let Some(place) = place_forced(entries, id) else {
            return Ok(entries.len());
        };
        self.clause.push(entries[place].literal())?;
        Ok(place)
    }

    /// Resolves the literals of all levels that stand before the place, down to decisions. Stops where none is left.
    pub(crate) fn resolve_all(
        &mut self,
        trail: &Trail,
        clauses: &Clauses,
        entries: &[Entry],
        end: usize,
    ) -> Result<(), AllocError>
        requires whole { entries.now ≡ trail.now.literals }
        requires trail { IsTrail trail.now }
        requires reasoned { AreReasoned clauses.now [] trail.now.literals }
        requires end { end ≤ length entries.now }
        requires traced { IsTraced clauses.now trail.now.literals (shown self.old) (take end entries.now)
            (shown self.old) }
        ensures { OnOk result (IsTraced clauses.now trail.now.literals (shown self.old) [] (shown self.new)) }
    {
        for place in (0..end).rev() {
            if self.pending == 0 {
                return Ok(());
            }
            let entry = entries[place].assigned();
            if self.is_pending(entry) {
                self.trace(trail, clauses, entry)?;
                self.pending -= 1;
            }
        }
        Ok(())
    }

    /// Resolves the literal of the entry with its reason; a decision's negation goes into the clause.
    fn trace(&mut self, trail: &Trail, clauses: &Clauses, entry: Assigned) -> Result<(), AllocError>
        ensures { OnOk result (shown self.new ≡ traced clauses.now trail.now.literals (shown self.old) entry) }
    {
        match entry.reason {
            Some(reason) => self.resolve(trail, clauses, reason),
            None => {
                self.clause.push(entry.literal.negated())?;
                Ok(())
            }
        }
    }

    /// Whether a literal of the atom was met.
    fn is_met(&self, atom: u64) -> bool
        ensures { result ≡ marks_of self.now.seen atom }
    {
        self.seen.contains(&atom)
    }

    /// Whether the literal of the entry was met and is still to be resolved.
    fn is_pending(&self, entry: Assigned) -> bool
        ensures { result ≡ is_pending self.now.level (marks_of self.now.seen) entry }
    {
        entry.level >= self.level && self.is_met(entry.literal.atom)
    }
}

/// The place of the first entry that the clause forced.
fn place_forced(entries: &[Entry], id: ClauseId) -> Option<usize>
    ensures { result ≡ position (is_forced_by id) entries.now }
{
    entries.iter().position(|entry| is_forced_by(entry, id))
}

/// Takes an atom for one of which a literal was met.
fn see(seen: &mut HashSet<u64>, atom: u64) -> Result<(), AllocError>
    ensures marks { OnOk result (marks_of seen.new ≡ also_met (marks_of seen.old) atom) }
    ensures more { OnOk result (marks_of seen.old atom ≡ false → hash_set_len seen.new ≡ hash_set_len seen.old + 1) }
    ensures no_less { hash_set_len seen.old ≤ hash_set_len seen.new }
    ensures small { hash_set_len seen.new < 2 ^ 63 }
{
    let added = seen.insert(atom);
    let _small = seen.len();
    added?;
    Ok(())
}

/// Whether the clause forced the entry's literal.
fn is_forced_by(entry: &Entry, id: ClauseId) -> bool
    ensures { result ≡ is_forced_by id entry.now }
{
    match entry.reason() {
        Some(reason) => reason == id,
        None => false,
    }
}

/// The clause in order, with the hints in the order in which they force literals.
pub(crate) fn lesson(analysis: Analysis, clauses: &Clauses, backjump_level: usize) -> Learned
    ensures { IsMadeOf clauses.now (shown analysis) backjump_level result }
{
    let Analysis {
        mut clause,
        mut reasons,
        ..
    } = analysis;
    clause.sort_unstable();
    reasons.reverse();
    let level = greatest_level(clauses, &reasons);
    Learned {
        clause: Clause::from_literals(clause),
        hints: Hints::new(reasons),
        level,
        backjump_level,
    }
}

/// The greatest level of the clauses, 0 where there are none.
fn greatest_level(clauses: &Clauses, ids: &[ClauseId]) -> u64
    ensures { result ≡ greatest_at clauses.now (map (λ id. id.0) ids.now) }
{
    let mut level = 0;
    for id in ids {
        level = level.max(clauses.level(*id).unwrap_or(0));
    }
    level
}

/// The greatest level of the literals, 0 where there are none.
pub(crate) fn highest(trail: &Trail, literals: &[Lit]) -> usize
    ensures { result ≡ highest trail.now.literals literals.now }
{
    let mut level = 0;
    for literal in literals {
        level = level.max(trail.level(literal.atom).unwrap_or(0));
    }
    level
}

/// The greatest level of the literals of a kept clause, 0 where there are none.
pub(crate) fn highest_kept(trail: &Trail, literals: &[CompactLit]) -> usize
    ensures { result ≡ highest trail.now.literals literals.now }
{
    let mut level = 0;
    for literal in literals {
        level = level.max(trail.level(literal.literal().atom).unwrap_or(0));
    }
    level
}
