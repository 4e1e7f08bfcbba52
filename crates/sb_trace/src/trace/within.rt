//! Regexes to which the words of a guard lead.

ghost use Rattle.std.specs.Prelude.{◌≡◌, ◌≢◌, ◌⊎◌, ◌<◌, ◌≤◌, ◌+◌, ◌||◌, ℕ, [], true, false, nat_eq, length, drop, Some, IfOk, IfSome, IfNone, IsSome, OnOk};
ghost use Rattle.std.specs.List.{count_by, IsDistinct};
ghost use Rattle.indexmap.specs.IndexSet.{insert_key};
ghost use Rattle.sb_lang.specs.Regex.{Regex, none};
ghost use Rattle.sb_regex.specs.Numbered.{regex_at, AllNumbers, Extends};
ghost use Rattle.sb_deriv.specs.Faithful.{KeepsEntries, entry_of};
ghost use Rattle.sb_deriv.specs.Pieces.{IsIntervalMap, end_of_characters, targets_of};
ghost use Rattle.sb_graph.specs.Findings.{IsGraph};
ghost use Rattle.sb_rulebook.specs.Kept.{AllKept, Asked};
ghost use Rattle.sb_trace.specs.Putting.{IsCounted, CountsTapeFault};
ghost use Rattle.sb_trace.specs.Tracking.{Tracks, Traces, StaysNumbered, IsExpandedIn, is_dead_in, is_expanded_in};
ghost use Rattle.sb_trace.specs.Defining.{first_of};
ghost use Rattle.sb_trace.specs.Reaching.{is_member, is_unexpanded, IfClosed, AreReachedWithin, ExpandsReachedOfTwo};
ghost use Rattle.sb_trace.specs.Closing.{GoesOn};
ghost use Rattle.sb_trace.specs.Pairing.{is_pair, has_pair, PairsGrewTo, ArePairsKnown, ArePairsReached, AddsSteps, LeadsToPairs, PairsLeadUpTo, IsPartOf, ArePartsOf, HavePartsUpTo, has_parts, is_first, has_first, AreMetBelow, AddsTargets, StandsAt};

use super::closing::{Closure, listed};
use super::{LAST, Trace, add};
use indexmap::IndexSet;
use sb_graph::Graph;
use sb_lang::derivative::{
    derivative_along_has_rests, derivative_has_rests, nullable_has_empty_word,
};
use sb_lit::Budget;
use sb_proof::{Tape, TapeFault};
use sb_regex::{Arena, Node, RegexId};
use std::alloc::{AllocError, Global};

impl Trace {
    /// The regexes to which words of the guard lead from a regex, each once, in the order of the walk. It goes over
    /// pairs of a regex to which a word leads from the first one and of that to which the same word leads from the
    /// guard, breadth first in the order of characters, and over no pair whose second part has no word by its form.
    /// Each regex of a pair is expanded in the proof: the lines of those that were not are put, in that order. Where
    /// the budget is spent before, the lines that were put stay, and no more regexes were looked at than those, the
    /// ones that were expanded, and one more. Linear in the pairs and the pieces of the derivatives of each pair.
    pub fn within<L: Tape>(
        &mut self,
        arena: &mut Arena,
        graph: &mut Graph,
        regex: RegexId,
        guard: RegexId,
        tape: &mut L,
        budget: &mut Budget,
    ) -> Result<Closure, TapeFault>
        requires known { regex < length arena.old }
        requires guard { guard < length arena.old }
        requires graph { IsGraph arena.old graph.old }
        ensures puts { OnOk result ((asked : Asked) (before : AllKept)
            → Tracks arena.old graph.old.memo self.old before → IsCounted asked before budget.old
            → Traces asked before arena.new graph.new.memo self.new budget.new (L.Tape.told tape.old)
            (L.Tape.told tape.new)) }
        ensures exact { IfOk result
            (λ c. IfClosed c
            (AreReachedWithin arena.new (regex_at arena.old regex) (regex_at arena.old guard))) }
        ensures once { IfOk result (λ c. IfClosed c (IsDistinct nat_eq)) }
        ensures expanded { IfOk result
            (λ c. IfClosed c
            (λ members. (n : ℕ) → is_member members n ≡ true → is_expanded_in self.new n ≡ true)) }
        ensures expanded_stay { (n : ℕ) → IsExpandedIn self.old n → IsExpandedIn self.new n }
        ensures only { OnOk result
            (ExpandsReachedOfTwo arena.new (regex_at arena.old regex) (regex_at arena.old guard) self.old self.new) }
        ensures spent { IfOk result (λ c. c ≡ Closure.Spent → budget.new.spent ≡ budget.new.limit) }
        ensures limit { budget.new.limit ≡ budget.old.limit }
        ensures stays { StaysNumbered self.old self.new }
        ensures buried { (n : ℕ) → is_dead_in self.new n ≡ is_dead_in self.old n }
        ensures extends { Extends arena.old arena.new }
        ensures graph { IsGraph arena.new graph.new }
        ensures marks { graph.new.dead ≡ graph.old.dead }
        ensures derivatives_stay { KeepsEntries graph.old.memo graph.new.memo }
        ensures counts { CountsTapeFault result (L.Tape.faults tape.old) (L.Tape.faults tape.new) }
    {
        nullable_has_empty_word();
        derivative_has_rests();
        derivative_along_has_rests();
        let mut pairs = IndexSet::new(self.alloc);
        add_pair(arena, regex, guard, &mut pairs)?;
        if !self.expand_pairs(arena, graph, &mut pairs, tape, budget)? {
            return Ok(Closure::Spent);
        }
        arena.normal_regexes_each_once();
        let members = firsts(self.alloc, arena, pairs.as_slice())?;
        Ok(Closure::Closed(members))
    }

    /// Makes the pairs to which pairs lead pairs, and expands the regexes of each. Whether the budget sufficed.
    fn expand_pairs<L: Tape>(
        &mut self,
        arena: &mut Arena,
        graph: &mut Graph,
        pairs: &mut IndexSet<(RegexId, RegexId)>,
        tape: &mut L,
        budget: &mut Budget,
    ) -> Result<bool, TapeFault>
        requires graph { IsGraph arena.old graph.old }
        requires known { ArePairsKnown arena.old pairs.old.keys }
        ensures puts { OnOk result ((asked : Asked) (before : AllKept)
            → Tracks arena.old graph.old.memo self.old before → IsCounted asked before budget.old
            → Traces asked before arena.new graph.new.memo self.new budget.new (L.Tape.told tape.old)
            (L.Tape.told tape.new)) }
        ensures led { IfOk result
            (λ done. done ≡ true → PairsLeadUpTo arena.new pairs.new.keys (length pairs.new.keys)) }
        ensures expanded { IfOk result
            (λ done. done ≡ true → (p : ℕ × ℕ) → has_pair pairs.new.keys p ≡ true
            → is_expanded_in self.new p.0 ≡ true) }
        ensures only { OnOk result ((n : ℕ) → is_expanded_in self.new n ≡ true
            → (is_expanded_in self.old n ≡ true) ⊎ IsPartOf pairs.new.keys n) }
        ensures spent { IfOk result (λ done. done ≡ false → budget.new.spent ≡ budget.new.limit) }
        ensures limit { budget.new.limit ≡ budget.old.limit }
        ensures known { OnOk result (ArePairsKnown arena.new pairs.new.keys) }
        ensures reached { OnOk result ((r g : Regex) → ArePairsReached arena.old r g pairs.old.keys
            → ArePairsReached arena.new r g pairs.new.keys) }
        ensures grew { OnOk result (PairsGrewTo pairs.old.keys pairs.new.keys) }
        ensures goes { GoesOn arena.old arena.new graph.old graph.new self.old self.new }
        ensures counts { CountsTapeFault result (L.Tape.faults tape.old) (L.Tape.faults tape.new) }
    {
        let left = budget.limit().saturating_sub(budget.spent());
        let mut parts = IndexSet::new(self.alloc);
        let closed = self.gather_pairs(arena, graph, pairs, &mut parts, left)?;
        let done = self.expand_each(arena, graph, parts.as_slice(), tape, budget)?;
        if !closed {
            return Ok(false);
        }
        Ok(done)
    }

    /// Makes the pairs to which pairs lead pairs, and gathers the regexes of each. Stops where so many of these are not
    /// expanded, and one more. Whether it came to the end.
    fn gather_pairs(
        &self,
        arena: &mut Arena,
        graph: &mut Graph,
        pairs: &mut IndexSet<(RegexId, RegexId)>,
        parts: &mut IndexSet<RegexId>,
        most: u64,
    ) -> Result<bool, AllocError>
        requires graph { IsGraph arena.old graph.old }
        requires known { ArePairsKnown arena.old pairs.old.keys }
        requires none { parts.old.keys ≡ [] }
        ensures led { IfOk result
            (λ done. done ≡ true → PairsLeadUpTo arena.new pairs.new.keys (length pairs.new.keys)) }
        ensures gathered { IfOk result
            (λ done. done ≡ true → HavePartsUpTo parts.new.keys pairs.new.keys (length pairs.new.keys)) }
        ensures many { IfOk result
            (λ done. done ≡ false → most < count_by (is_unexpanded self.now) parts.new.keys) }
        ensures parts { OnOk result (ArePartsOf pairs.new.keys parts.new.keys) }
        ensures known { OnOk result (ArePairsKnown arena.new pairs.new.keys) }
        ensures reached { OnOk result ((r g : Regex) → ArePairsReached arena.old r g pairs.old.keys
            → ArePairsReached arena.new r g pairs.new.keys) }
        ensures grew { OnOk result (PairsGrewTo pairs.old.keys pairs.new.keys) }
        ensures goes { GoesOn arena.old arena.new graph.old graph.new self.now self.now }
    {
        let mut place = 0;
        let mut lacking = 0;
        while place < pairs.len() {
            let first = pairs.as_slice()[place].0;
            let second = pairs.as_slice()[place].1;
            let Some(count) = self.count_pair(first, second, parts, lacking, most)? else {
                return Ok(false);
            };
            lacking = count;
            self.lead(arena, graph, first, second, pairs)?;
            place += 1;
        }
        Ok(true)
    }

    /// How many of the parts are not expanded, with those of one pair more, unless these are more than the most.
    fn count_pair(
        &self,
        first: RegexId,
        second: RegexId,
        parts: &mut IndexSet<RegexId>,
        lacking: u64,
        most: u64,
    ) -> Result<Option<u64>, AllocError>
        requires few { lacking ≤ most }
        requires counted { lacking ≡ count_by (is_unexpanded self.now) parts.old.keys }
        ensures few { IfOk result (λ o. IfSome o (λ count. count ≤ most)) }
        ensures counted { IfOk result
            (λ o. IfSome o (λ count. count ≡ count_by (is_unexpanded self.now) parts.new.keys)) }
        ensures many { IfOk result
            (λ o. IfNone o (most < count_by (is_unexpanded self.now) parts.new.keys)) }
        ensures gathered { IfOk result (λ o. IfSome o (λ count. has_parts parts.new.keys (first, second) ≡ true)) }
        ensures stay { OnOk result ((n : ℕ) → is_member parts.old.keys n ≡ true → is_member parts.new.keys n ≡ true) }
        ensures only { OnOk result ((n : ℕ) → is_member parts.new.keys n ≡ true
            → (is_member parts.old.keys n || (nat_eq n first || nat_eq n second)) ≡ true) }
    {
        let Some(count) = self.count_part(first, parts, lacking, most)? else {
            return Ok(None);
        };
        self.count_part(second, parts, count, most)
    }

    /// How many of the parts are not expanded, with one part more, unless these are more than the most.
    fn count_part(
        &self,
        regex: RegexId,
        parts: &mut IndexSet<RegexId>,
        lacking: u64,
        most: u64,
    ) -> Result<Option<u64>, AllocError>
        requires few { lacking ≤ most }
        requires counted { lacking ≡ count_by (is_unexpanded self.now) parts.old.keys }
        ensures few { IfOk result (λ o. IfSome o (λ count. count ≤ most)) }
        ensures counted { IfOk result
            (λ o. IfSome o (λ count. count ≡ count_by (is_unexpanded self.now) parts.new.keys)) }
        ensures many { IfOk result
            (λ o. IfNone o (most < count_by (is_unexpanded self.now) parts.new.keys)) }
        ensures keys { OnOk result (parts.new.keys ≡ insert_key nat_eq parts.old.keys regex) }
    {
        if !parts.insert(regex)? {
            return Ok(Some(lacking));
        }
        Ok(self.count(regex, lacking, most))
    }

    /// Makes the pairs to which a pair leads pairs.
    fn lead(
        &self,
        arena: &mut Arena,
        graph: &mut Graph,
        first: RegexId,
        second: RegexId,
        pairs: &mut IndexSet<(RegexId, RegexId)>,
    ) -> Result<(), AllocError>
        requires graph { IsGraph arena.old graph.old }
        requires first { first < length arena.old }
        requires second { second < length arena.old }
        ensures led { OnOk result
            (LeadsToPairs arena.new pairs.new.keys (regex_at arena.old first) (regex_at arena.old second)) }
        ensures only { OnOk result
            (AddsSteps arena.new (regex_at arena.old first) (regex_at arena.old second) pairs.old.keys
            pairs.new.keys) }
        ensures grew { OnOk result (PairsGrewTo pairs.old.keys pairs.new.keys) }
        ensures goes { GoesOn arena.old arena.new graph.old graph.new self.now self.now }
    {
        graph.derive(arena, first)?;
        graph.derive(arena, second)?;
        add_pairs(
            arena,
            pieces_of(graph, first),
            pieces_of(graph, second),
            pairs,
        )
    }
}

/// The pieces of the derivative of a regex, which is known.
fn pieces_of(graph: &Graph, regex: RegexId) -> &[(u32, RegexId)]
    requires { IsSome (entry_of graph.now.memo regex) }
    ensures entry { entry_of graph.now.memo regex ≡ Some result.now }
    ensures map { IsIntervalMap result.now }
{
    graph.derivative(regex).unwrap().pieces()
}

/// Adds the pair of the targets of each character, but where the second one has no word by its form. Linear in the
/// pieces.
fn add_pairs(
    arena: &Arena,
    first: &[(u32, RegexId)],
    second: &[(u32, RegexId)],
    pairs: &mut IndexSet<(RegexId, RegexId)>,
) -> Result<(), AllocError>
    requires first { IsIntervalMap first.now }
    requires second { IsIntervalMap second.now }
    requires known { AllNumbers arena.now (targets_of second.now) }
    ensures met { OnOk result (AreMetBelow arena.now first.now second.now pairs.new.keys end_of_characters) }
    ensures only { OnOk result (AddsTargets first.now second.now pairs.old.keys pairs.new.keys) }
    ensures grew { OnOk result (PairsGrewTo pairs.old.keys pairs.new.keys) }
{
    let mut i = 0;
    let mut j = 0;
    let mut character = 0;
    while character <= LAST {
        add_pair(arena, first[i].1, second[j].1, pairs)?;
        character = end_at(first, i).min(end_at(second, j));
        i = place_at(first, i, character);
        j = place_at(second, j, character);
    }
    Ok(())
}

/// Adds a pair, but where the second regex has no word by its form.
fn add_pair(
    arena: &Arena,
    first: RegexId,
    second: RegexId,
    pairs: &mut IndexSet<(RegexId, RegexId)>,
) -> Result<(), AllocError>
    requires known { second < length arena.now }
    ensures met { OnOk result (regex_at arena.now second ≢ none
        → has_pair pairs.new.keys (first, second) ≡ true) }
    ensures only { OnOk result ((p : ℕ × ℕ) → has_pair pairs.new.keys p ≡ true
        → (has_pair pairs.old.keys p || is_pair p (first, second)) ≡ true) }
    ensures grew { OnOk result (PairsGrewTo pairs.old.keys pairs.new.keys) }
{
    if matches!(arena.node(second), Node::None) {
        return Ok(());
    }
    pairs.insert((first, second))?;
    Ok(())
}

/// Where the piece at a place ends: where the next one begins.
fn end_at(pieces: &[(u32, RegexId)], place: usize) -> u32
    requires map { IsIntervalMap pieces.now }
    requires place { place < length pieces.now }
    ensures { result ≡ first_of end_of_characters (drop (place + 1) pieces.now) }
{
    match pieces.get(place + 1) {
        Some((next, _)) => *next,
        None => LAST + 1,
    }
}

/// The place of the piece of a character, which is this one or the next.
fn place_at(pieces: &[(u32, RegexId)], place: usize, character: u32) -> usize
    requires map { IsIntervalMap pieces.now }
    requires place { place < length pieces.now }
    ensures { (c : ℕ) → StandsAt pieces.now place c → c < character → character < end_of_characters
        → character ≤ first_of end_of_characters (drop (place + 1) pieces.now)
        → StandsAt pieces.now result character }
{
    if end_at(pieces, place) <= character {
        return place + 1;
    }
    place
}

/// The first regexes of the pairs whose second one has the empty word, each once, in order.
fn firsts(
    alloc: Global,
    arena: &Arena,
    pairs: &[(RegexId, RegexId)],
) -> Result<Vec<RegexId>, AllocError>
    requires known { ArePairsKnown arena.now pairs.now }
    ensures exact { IfOk result (λ all. (n : ℕ) → is_member all.items n ≡ has_first arena.now pairs.now n) }
    ensures once { IfOk result (λ all. IsDistinct nat_eq all.items) }
{
    let mut members = IndexSet::new(alloc);
    add_firsts(arena, pairs, &mut members)?;
    listed(alloc, &members)
}

/// Adds the first regexes of the pairs whose second one has the empty word.
fn add_firsts(
    arena: &Arena,
    pairs: &[(RegexId, RegexId)],
    members: &mut IndexSet<RegexId>,
) -> Result<(), AllocError>
    requires known { ArePairsKnown arena.now pairs.now }
    requires none { members.old.keys ≡ [] }
    ensures { OnOk result ((n : ℕ) → is_member members.new.keys n ≡ has_first arena.now pairs.now n) }
{
    for pair in pairs {
        add_first(arena, pair.0, pair.1, members)?;
    }
    Ok(())
}

/// Adds the first regex of a pair, where the second one has the empty word.
fn add_first(
    arena: &Arena,
    first: RegexId,
    second: RegexId,
    members: &mut IndexSet<RegexId>,
) -> Result<(), AllocError>
    requires known { second < length arena.now }
    ensures { OnOk result ((n : ℕ) → is_member members.new.keys n
        ≡ (is_member members.old.keys n || is_first arena.now n (first, second))) }
{
    if arena.nullable(second) {
        add(members, first)?;
    }
    Ok(())
}
