//! Regexes that are closed under derivatives, and expanded.

ghost use Rattle.std.specs.Prelude.{◌≡◌, ◌<◌, ◌≤◌, ◌+◌, ◌||◌, ℕ, Bool, true, false, cond, nat_eq, Some, List, length, slice_get, IfOk, IfSome, IfNone, OnOk};
ghost use Rattle.std.specs.List.{list_all, count_by, IsDistinct};
ghost use Rattle.sb_lang.specs.Regex.{Regex};
ghost use Rattle.sb_regex.specs.Numbered.{regex_at, AllNumbers, Extends};
ghost use Rattle.sb_deriv.specs.Faithful.{KeepsEntries};
ghost use Rattle.sb_deriv.specs.Pieces.{targets_of};
ghost use Rattle.sb_graph.specs.Findings.{IsGraph, is_marked};
ghost use Rattle.sb_rulebook.specs.Kept.{AllKept, Asked};
ghost use Rattle.sb_trace.specs.Putting.{IsCounted, CountsTapeFault, SpendsWithin};
ghost use Rattle.sb_trace.specs.Tracking.{Tracks, Traces, StaysNumbered, is_dead_in, is_expanded_in};
ghost use Rattle.sb_trace.specs.Reaching.{is_member, is_unexpanded, IsClosed, IfClosed, IsReached, AreReached, ExpandsReached};
ghost use Rattle.sb_trace.specs.Closing.{is_met, is_unburied, IsLed, AreLedUpTo, HasSpent, GrewTo, GoesOn};

use super::{Expand, Trace, add, alone};
use indexmap::IndexSet;
use sb_graph::Graph;
use sb_lit::Budget;
use sb_proof::{Tape, TapeFault};
use sb_regex::{Arena, RegexId};
use std::alloc::{AllocError, Global};

/// What became of the regexes to which one leads.
#[derive(Drop)]
pub enum Closure {
    /// The regex and all to which derivatives lead from it, breadth first in the order of characters.
    Closed(Vec<RegexId>),
    /// The budget is spent.
    Spent,
}

impl Trace {
    /// The regex and all to which derivatives lead from it, breadth first in the order of characters, each of them
    /// expanded in the proof: the lines of those that were not are put, in that order. Where the budget is spent before,
    /// the lines that were put stay, and no more regexes were looked at than those and the ones that were expanded.
    /// Linear in the regexes and the pieces of their derivatives.
    pub fn closed_from<L: Tape>(
        &mut self,
        arena: &mut Arena,
        graph: &mut Graph,
        regex: RegexId,
        tape: &mut L,
        budget: &mut Budget,
    ) -> Result<Closure, TapeFault>
        requires known { regex < length arena.old }
        requires graph { IsGraph arena.old graph.old }
        ensures puts { OnOk result ((asked : Asked) (before : AllKept)
            → Tracks arena.old graph.old.memo self.old before → IsCounted asked before budget.old
            → Traces asked before arena.new graph.new.memo self.new budget.new (L.Tape.told tape.old)
            (L.Tape.told tape.new)) }
        ensures first { IfOk result (λ c. IfClosed c (λ members. slice_get members 0 ≡ Some regex)) }
        ensures once { IfOk result (λ c. IfClosed c (IsDistinct nat_eq)) }
        ensures closed { IfOk result (λ c. IfClosed c (IsClosed graph.new.memo)) }
        ensures reached { IfOk result (λ c. IfClosed c (AreReached arena.new (regex_at arena.old regex))) }
        ensures expanded { IfOk result
            (λ c. IfClosed c
            (λ members. (n : ℕ) → is_expanded_in self.new n ≡ (is_member members n || is_expanded_in self.old n))) }
        ensures only { OnOk result (ExpandsReached arena.new (regex_at arena.old regex) self.old self.new) }
        ensures spends { IfOk result
            (λ c. IfClosed c
            (λ members. budget.new.spent ≡ budget.old.spent + count_by (is_unexpanded self.old) members)) }
        ensures spent { IfOk result (λ c. c ≡ Closure.Spent → budget.new.spent ≡ budget.new.limit) }
        ensures limit { budget.new.limit ≡ budget.old.limit }
        ensures stays { StaysNumbered self.old self.new }
        ensures buried { (n : ℕ) → is_dead_in self.new n ≡ is_dead_in self.old n }
        ensures extends { Extends arena.old arena.new }
        ensures graph { IsGraph arena.new graph.new }
        ensures marks { graph.new.dead ≡ graph.old.dead }
        ensures derivatives_stay { KeepsEntries graph.old.memo graph.new.memo }
        ensures counts { CountsTapeFault result (L.Tape.faults tape.old) (L.Tape.faults tape.new) }
    {
        let mut members = alone(self.alloc, regex)?;
        if !self.close(arena, graph, &mut members, false, tape, budget)? {
            return Ok(Closure::Spent);
        }
        let regexes = listed(self.alloc, &members)?;
        Ok(Closure::Closed(regexes))
    }

    /// Makes the regexes to which members lead members, but for those that are dead where these are passed over, and
    /// expands the members. Whether the budget sufficed.
    pub(super) fn close<L: Tape>(
        &mut self,
        arena: &mut Arena,
        graph: &mut Graph,
        members: &mut IndexSet<RegexId>,
        skips: bool,
        tape: &mut L,
        budget: &mut Budget,
    ) -> Result<bool, TapeFault>
        requires graph { IsGraph arena.old graph.old }
        requires known { AllNumbers arena.old members.old.keys }
        ensures puts { OnOk result ((asked : Asked) (before : AllKept)
            → Tracks arena.old graph.old.memo self.old before → IsCounted asked before budget.old
            → Traces asked before arena.new graph.new.memo self.new budget.new (L.Tape.told tape.old)
            (L.Tape.told tape.new)) }
        ensures closed { IfOk result
            (λ done. done ≡ true
            → AreLedUpTo graph.new.memo skips self.new members.new.keys (length members.new.keys)) }
        ensures expanded { IfOk result
            (λ done. done ≡ true → (n : ℕ)
            → is_expanded_in self.new n ≡ (is_member members.new.keys n || is_expanded_in self.old n)) }
        ensures only { OnOk result ((n : ℕ) → is_expanded_in self.new n ≡ true
            → (is_member members.new.keys n || is_expanded_in self.old n) ≡ true) }
        ensures spends { IfOk result
            (λ done. done ≡ true
            → budget.new.spent ≡ budget.old.spent + count_by (is_unexpanded self.old) members.new.keys) }
        ensures spent { IfOk result (λ done. done ≡ false → budget.new.spent ≡ budget.new.limit) }
        ensures limit { budget.new.limit ≡ budget.old.limit }
        ensures reached { OnOk result ((r : Regex) → AreReached arena.old r members.old.keys
            → AreReached arena.new r members.new.keys) }
        ensures unburied { OnOk result (skips ≡ true
            → list_all (is_unburied graph.old.dead self.old) members.old.keys ≡ true
            → list_all (is_unburied graph.new.dead self.new) members.new.keys ≡ true) }
        ensures grew { OnOk result (GrewTo members.old.keys members.new.keys) }
        ensures goes { GoesOn arena.old arena.new graph.old graph.new self.old self.new }
        ensures steps { SpendsWithin budget.old budget.new }
        ensures counts { CountsTapeFault result (L.Tape.faults tape.old) (L.Tape.faults tape.new) }
    {
        let left = budget.limit().saturating_sub(budget.spent());
        let closed = self.gather(arena, graph, members, skips, left)?;
        let done = self.expand_each(arena, graph, members.as_slice(), tape, budget)?;
        if !closed {
            return Ok(false);
        }
        Ok(done)
    }

    /// Makes the regexes to which members lead members, but for those that are dead where these are passed over. Stops
    /// where there are so many members, and one more, that are not expanded. Whether it came to the end.
    pub(super) fn gather(
        &self,
        arena: &mut Arena,
        graph: &mut Graph,
        members: &mut IndexSet<RegexId>,
        skips: bool,
        most: u64,
    ) -> Result<bool, AllocError>
        requires graph { IsGraph arena.old graph.old }
        requires known { AllNumbers arena.old members.old.keys }
        ensures closed { IfOk result
            (λ done. done ≡ true
            → AreLedUpTo graph.new.memo skips self.now members.new.keys (length members.new.keys)) }
        ensures many { IfOk result
            (λ done. done ≡ false → most < count_by (is_unexpanded self.now) members.new.keys) }
        ensures known { OnOk result (AllNumbers arena.new members.new.keys) }
        ensures reached { OnOk result ((r : Regex) → AreReached arena.old r members.old.keys
            → AreReached arena.new r members.new.keys) }
        ensures unburied { OnOk result (skips ≡ true
            → list_all (is_unburied graph.old.dead self.now) members.old.keys ≡ true
            → list_all (is_unburied graph.new.dead self.now) members.new.keys ≡ true) }
        ensures grew { OnOk result (GrewTo members.old.keys members.new.keys) }
        ensures goes { GoesOn arena.old arena.new graph.old graph.new self.now self.now }
    {
        let mut place = 0;
        let mut lacking = 0;
        while place < members.len() {
            let regex = members.as_slice()[place];
            let Some(count) = self.count(regex, lacking, most) else {
                return Ok(false);
            };
            lacking = count;
            self.gather_at(arena, graph, regex, members, skips)?;
            place += 1;
        }
        Ok(true)
    }

    /// How many regexes are not expanded, with one that may not be, unless these are more than the most.
    pub(super) fn count(&self, regex: RegexId, lacking: u64, most: u64) -> Option<u64>
        requires { lacking ≤ most }
        ensures some { IfSome result
            (λ count. (count ≤ most) × (count ≡ lacking + cond (is_unexpanded self.now regex) 1 0)) }
        ensures none { IfNone result ((lacking ≡ most) × (is_unexpanded self.now regex ≡ true)) }
    {
        if self.is_expanded(regex) {
            return Some(lacking);
        }
        if lacking == most {
            return None;
        }
        Some(lacking + 1)
    }

    /// Makes the regexes to which a member leads members, but for those that are dead where these are passed over.
    fn gather_at(
        &self,
        arena: &mut Arena,
        graph: &mut Graph,
        regex: RegexId,
        members: &mut IndexSet<RegexId>,
        skips: bool,
    ) -> Result<(), AllocError>
        requires graph { IsGraph arena.old graph.old }
        requires regex { regex < length arena.old }
        requires known { AllNumbers arena.old members.old.keys }
        ensures led { OnOk result (IsLed graph.new.memo skips self.now members.new.keys regex) }
        ensures known { OnOk result (AllNumbers arena.new members.new.keys) }
        ensures reached { OnOk result ((r : Regex) → IsReached arena.old r regex
            → AreReached arena.old r members.old.keys → AreReached arena.new r members.new.keys) }
        ensures unburied { OnOk result (skips ≡ true → is_marked graph.old.dead regex ≡ true
            → list_all (is_unburied graph.old.dead self.now) members.old.keys ≡ true
            → list_all (is_unburied graph.new.dead self.now) members.new.keys ≡ true) }
        ensures grew { OnOk result (GrewTo members.old.keys members.new.keys) }
        ensures goes { GoesOn arena.old arena.new graph.old graph.new self.now self.now }
    {
        graph.derive(arena, regex)?;
        arena.normal_regexes_each_once();
        self.add_targets(graph.derivative(regex).unwrap().pieces(), members, skips)
    }

    /// Makes the targets members, but for those that are dead where these are passed over.
    fn add_targets(
        &self,
        pieces: &[(u32, RegexId)],
        members: &mut IndexSet<RegexId>,
        skips: bool,
    ) -> Result<(), AllocError>
        ensures met { OnOk result
            (list_all (is_met skips self.now members.new.keys) (targets_of pieces.now) ≡ true) }
        ensures grew { OnOk result (GrewTo members.old.keys members.new.keys) }
        ensures only { OnOk result ((n : ℕ) → is_member members.new.keys n ≡ true
            → (is_member members.old.keys n || is_member (targets_of pieces.now) n) ≡ true) }
        ensures unburied { OnOk result (skips ≡ true → (marks : List Bool)
            → list_all (is_marked marks) (targets_of pieces.now) ≡ true
            → list_all (is_unburied marks self.now) members.old.keys ≡ true
            → list_all (is_unburied marks self.now) members.new.keys ≡ true) }
    {
        for (_, target) in pieces {
            self.add_target(*target, members, skips)?;
        }
        Ok(())
    }

    /// Makes a target a member, but where it is dead and such are passed over.
    fn add_target(
        &self,
        target: RegexId,
        members: &mut IndexSet<RegexId>,
        skips: bool,
    ) -> Result<(), AllocError>
        ensures met { OnOk result (is_met skips self.now members.new.keys target ≡ true) }
        ensures grew { OnOk result (GrewTo members.old.keys members.new.keys) }
        ensures only { OnOk result ((n : ℕ) → is_member members.new.keys n ≡ true
            → (is_member members.old.keys n || nat_eq n target) ≡ true) }
        ensures unburied { OnOk result (skips ≡ true → (marks : List Bool) → is_marked marks target ≡ true
            → list_all (is_unburied marks self.now) members.old.keys ≡ true
            → list_all (is_unburied marks self.now) members.new.keys ≡ true) }
    {
        if skips && self.is_dead(target) {
            return Ok(());
        }
        add(members, target)?;
        Ok(())
    }

    /// Whether a regex is expanded in the proof.
    fn is_expanded(&self, regex: RegexId) -> bool
        ensures { result ≡ is_expanded_in self.now regex }
    {
        match self.order.get_index_of(&regex) {
            Some(number) => self.expanded[number],
            None => false,
        }
    }

    /// Expands regexes, in order. Whether the budget sufficed.
    pub(super) fn expand_each<L: Tape>(
        &mut self,
        arena: &mut Arena,
        graph: &mut Graph,
        regexes: &[RegexId],
        tape: &mut L,
        budget: &mut Budget,
    ) -> Result<bool, TapeFault>
        requires graph { IsGraph arena.old graph.old }
        requires known { AllNumbers arena.old regexes.now }
        requires once { IsDistinct nat_eq regexes.now }
        ensures puts { OnOk result ((asked : Asked) (before : AllKept)
            → Tracks arena.old graph.old.memo self.old before → IsCounted asked before budget.old
            → Traces asked before arena.new graph.new.memo self.new budget.new (L.Tape.told tape.old)
            (L.Tape.told tape.new)) }
        ensures expanded { IfOk result
            (λ done. done ≡ true → (n : ℕ)
            → is_expanded_in self.new n ≡ (is_member regexes.now n || is_expanded_in self.old n)) }
        ensures only { OnOk result ((n : ℕ) → is_expanded_in self.new n ≡ true
            → (is_member regexes.now n || is_expanded_in self.old n) ≡ true) }
        ensures spends { IfOk result
            (λ done. done ≡ true
            → HasSpent budget.old budget.new (count_by (is_unexpanded self.old) regexes.now)) }
        ensures spent { IfOk result (λ done. done ≡ false → budget.new.spent ≡ budget.new.limit) }
        ensures limit { budget.new.limit ≡ budget.old.limit }
        ensures goes { GoesOn arena.old arena.new graph.old graph.new self.old self.new }
        ensures steps { SpendsWithin budget.old budget.new }
        ensures counts { CountsTapeFault result (L.Tape.faults tape.old) (L.Tape.faults tape.new) }
    {
        for regex in regexes {
            if let Expand::Spent = self.expand(arena, graph, *regex, tape, budget)? {
                return Ok(false);
            }
        }
        Ok(true)
    }
}

/// The members, in order.
pub(super) fn listed(alloc: Global, members: &IndexSet<RegexId>) -> Result<Vec<RegexId>, AllocError>
    ensures items { IfOk result (λ all. all.items ≡ members.now.keys) }
    ensures once { IfOk result (λ all. IsDistinct nat_eq all.items) }
{
    Vec::from_slice(alloc, members.as_slice())
}
