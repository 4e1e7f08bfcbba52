//! The trace.

ghost use Rattle.std.specs.Prelude.{◌≡◌, ◌≢◌, ◌<◌, ◌≤◌, ◌↔◌, ◌++◌, ◌∷◌, ◌+◌, ◌-◌, ◌||◌, ℕ, Bool, [], true, false, nat_eq, Some, None, List, length, slice_get, get_or, drop, map, All, IfOk, OnOk, OnErr, IsSome};
ghost use Rattle.indexmap.specs.IndexSet.{insert_key};
ghost use Rattle.std.specs.List.{list_all, list_any, IsDistinct};
ghost use Rattle.sb_lang.specs.Regex.{Regex};
ghost use Rattle.sb_lang.specs.Language.{language};
ghost use Rattle.sb_regex.specs.Numbered.{regex_at, AllNumbers, Extends};
ghost use Rattle.sb_deriv.specs.Faithful.{Memo, KeepsEntries, IsKnown, entry_of};
ghost use Rattle.sb_deriv.specs.Pieces.{IsIntervalMap, end_of_characters, targets_of};
ghost use Rattle.sb_trace.specs.Defining.{first_of};
ghost use Rattle.sb_graph.specs.Findings.{IsGraph, AreBarren, KeepsMarks, is_marked};
ghost use Rattle.sb_graph.specs.Witness.{IsFinding, MarksDead};
ghost use Rattle.sb_rulebook.specs.Kept.{AllKept, Asked, nothing_kept};
ghost use Rattle.sb_trace.specs.Putting.{IsCounted, CountsTapeFault, SpendsWithin};
ghost use Rattle.sb_trace.specs.Tracking.{Tracks, Traces, TracesUncounted, StaysNumbered, IsExpandedIn, is_dead_in, is_expanded_in, is_put, Spends, IsExploring, IfAlive, number_in};
ghost use Rattle.sb_trace.specs.Defining.{IsNumbered, AreClassesOf};
ghost use Rattle.sb_trace.specs.Reaching.{ExpandsReached};
ghost use Rattle.sb_trace.specs.Closing.{is_unburied, is_settled_in, IsClosedIn, AreClosedUpTo, GrewTo, GoesOn};
ghost use Rattle.sb_script.specs.Steps.{line as ended};
ghost use Rattle.sb_rulebook.specs.Lines.{text_of};
ghost use Rattle.sb_proof.specs.Lines.{class_in, line_in};
ghost use Rattle.sb_proof.specs.Tapes.{with_bytes};

mod closing;
mod numbering;
mod within;

use crate::node::{number_of, numbers_of};
pub use closing::Closure;
use indexmap::IndexSet;
use sb_deriv::Derivative;
use sb_graph::{Explored, Graph, Within};
use sb_lang::order::order_tells_apart;
use sb_lit::Budget;
use sb_proof::{Class, Line, Tape, TapeFault};
use sb_regex::{Arena, RegexId};
use sb_rulebook::laws::test_decides_expansion;
use sb_word::Word;
use std::alloc::{AllocError, Global};
use std::marker::Model;

/// The last character.
const LAST: u32 = 0x2ffff;

/// What of an arena's regexes stands in a proof.
#[derive(Drop)]
pub struct Trace {
    alloc: Global,
    /// The regexes in the order of their numbers in the proof.
    order: IndexSet<RegexId>,
    /// By the numbers in the proof, at least as long as the order.
    expanded: Vec<bool>,
    dead: Vec<bool>,
}

/// What became of an expansion.
#[derive(Clone, Copy, PartialEq, Eq)]
pub enum Expand {
    /// Its line was put.
    Expanded,
    /// Its line stands there from before.
    Already,
    /// The budget is spent.
    Spent,
}

/// What an exploration found.
#[derive(Drop)]
pub enum Explore {
    /// The shortest word of the language, the least by code points among the shortest.
    Alive(Word),
    /// No word is in the language, and the regex is dead in the proof.
    Dead,
    /// The budget is spent.
    Spent,
}

impl Model for Trace {
    ghost use Rattle.std.specs.Prelude.{◌≡◌, ◌≤◌, ℕ, false, length};
    ghost use Rattle.sb_graph.specs.Findings.{is_marked};
    ghost use Rattle.sb_trace.specs.Tracking.{Traced};

    ghost Value = { Traced };

    ghost view = { λ trace. record {
      order = trace.order.keys;
      expanded = trace.expanded.items;
      dead = trace.dead.items;
    } };

    ghost invariant = { λ trace. (length trace.order.keys ≤ length trace.expanded.items)
        × (length trace.order.keys ≤ length trace.dead.items)
        × ((n : ℕ) → length trace.order.keys ≤ n → is_marked trace.expanded.items n ≡ false)
        × ((n : ℕ) → length trace.order.keys ≤ n → is_marked trace.dead.items n ≡ false) };
}

impl Trace {
    /// Nothing stands in the proof. Takes no memory.
    pub fn new(alloc: Global) -> Trace
        ensures { (rs : List Regex) (memo : Memo) (format : ℕ) → Tracks rs memo result (nothing_kept format) }
    {
        Trace {
            alloc,
            order: IndexSet::new(alloc),
            expanded: Vec::new(alloc),
            dead: Vec::new(alloc),
        }
    }

    /// Puts the expansion of a regex, unless it stands there, with the lines of the regexes that it names. The budget
    /// is asked before the line is put. Linear in the pieces of the derivative, and in the parts of the regexes that
    /// were lacking; what is not known yet of the derivative is found first.
    pub fn expand<L: Tape>(
        &mut self,
        arena: &mut Arena,
        graph: &mut Graph,
        regex: RegexId,
        tape: &mut L,
        budget: &mut Budget,
    ) -> Result<Expand, TapeFault>
        requires known { regex < length arena.old }
        requires graph { IsGraph arena.old graph.old }
        ensures puts { OnOk result ((asked : Asked) (before : AllKept)
            → Tracks arena.old graph.old.memo self.old before → IsCounted asked before budget.old
            → Traces asked before arena.new graph.new.memo self.new budget.new (L.Tape.told tape.old)
            (L.Tape.told tape.new)) }
        ensures expanded { IfOk result (λ e. e ≢ Expand.Spent → IsExpandedIn self.new regex) }
        ensures already { IfOk result (λ e. (e ≡ Expand.Already) ↔ IsExpandedIn self.old regex) }
        ensures spent { IfOk result (λ e. e ≡ Expand.Spent → budget.new.spent ≡ budget.new.limit) }
        ensures spends { IfOk result (λ e. Spends e budget.old budget.new) }
        ensures limit { budget.new.limit ≡ budget.old.limit }
        ensures only { IfOk result
            (λ e. (n : ℕ) → is_expanded_in self.new n ≡ (is_put e regex n || is_expanded_in self.old n)) }
        ensures derived { OnOk result (IsSome (entry_of graph.new.memo regex)) }
        ensures stays { StaysNumbered self.old self.new }
        ensures dead { (n : ℕ) → is_marked self.new.dead n ≡ is_marked self.old.dead n }
        ensures buried { (n : ℕ) → is_dead_in self.new n ≡ is_dead_in self.old n }
        ensures expanded_stay { (n : ℕ) → IsExpandedIn self.old n → IsExpandedIn self.new n }
        ensures extends { Extends arena.old arena.new }
        ensures graph { IsGraph arena.new graph.new }
        ensures marks { graph.new.dead ≡ graph.old.dead }
        ensures derivatives_stay { KeepsEntries graph.old.memo graph.new.memo }
        ensures steps { SpendsWithin budget.old budget.new }
        ensures counts { CountsTapeFault result (L.Tape.faults tape.old) (L.Tape.faults tape.new) }
    {
        self.marks_have_numbers();
        graph.derive(arena, regex)?;
        let derivative = graph.derivative(regex).unwrap();
        self.expand_by(arena, regex, derivative, tape, budget)
    }

    /// Puts the expansion of a regex by its derivative, unless it stands there.
    fn expand_by<L: Tape>(
        &mut self,
        arena: &Arena,
        regex: RegexId,
        derivative: &Derivative,
        tape: &mut L,
        budget: &mut Budget,
    ) -> Result<Expand, TapeFault>
        requires known { regex < length arena.now }
        requires targets { AllNumbers arena.now (targets_of derivative.now) }
        ensures puts { OnOk result ((asked : Asked) (memo : Memo) (before : AllKept)
            → IsKnown arena.now regex derivative.now → entry_of memo regex ≡ Some derivative.now
            → Tracks arena.now memo self.old before → IsCounted asked before budget.old
            → Traces asked before arena.now memo self.new budget.new (L.Tape.told tape.old) (L.Tape.told tape.new)) }
        ensures expanded { IfOk result (λ e. e ≢ Expand.Spent → IsExpandedIn self.new regex) }
        ensures already { IfOk result (λ e. (e ≡ Expand.Already) ↔ IsExpandedIn self.old regex) }
        ensures spent { IfOk result (λ e. e ≡ Expand.Spent → budget.new.spent ≡ budget.new.limit) }
        ensures spends { IfOk result (λ e. Spends e budget.old budget.new) }
        ensures limit { budget.new.limit ≡ budget.old.limit }
        ensures only { IfOk result
            (λ e. (n : ℕ) → is_expanded_in self.new n ≡ (is_put e regex n || is_expanded_in self.old n)) }
        ensures stays { StaysNumbered self.old self.new }
        ensures dead { (n : ℕ) → is_marked self.new.dead n ≡ is_marked self.old.dead n }
        ensures marks { (n : ℕ) → is_marked self.old.expanded n ≡ true → is_marked self.new.expanded n ≡ true }
        ensures steps { SpendsWithin budget.old budget.new }
        ensures counts { CountsTapeFault result (L.Tape.faults tape.old) (L.Tape.faults tape.new) }
    {
        self.marks_have_numbers();
        let number = self.number(arena, regex, tape)?;
        if self.expanded[number as usize] {
            return Ok(Expand::Already);
        }
        let classes = self.classes(arena, derivative, tape)?;
        self.put_expansion(number, classes, tape, budget)
    }

    /// No mark is on a number that is not there yet, and each regex has one number. Takes no time.
    pub fn marks_have_numbers(&self)
        ensures expanded { (n : ℕ) → length self.now.order ≤ n → is_marked self.now.expanded n ≡ false }
        ensures dead { (n : ℕ) → length self.now.order ≤ n → is_marked self.now.dead n ≡ false }
        ensures each_once { IsDistinct nat_eq self.now.order }
    {
        let _order = self.order.as_slice();
    }

    /// Puts the line of an expansion, unless the budget is spent.
    fn put_expansion<L: Tape>(
        &mut self,
        number: u64,
        classes: Vec<Class>,
        tape: &mut L,
        budget: &mut Budget,
    ) -> Result<Expand, TapeFault>
        requires { number < length self.old.order }
        ensures puts { OnOk result
            ((asked : Asked) (rs : List Regex) (memo : Memo) (pieces : List (ℕ × ℕ)) (before : AllKept)
            → IsKnown rs (get_or self.old.order number 0) pieces
            → entry_of memo (get_or self.old.order number 0) ≡ Some pieces
            → AreClassesOf self.old.order pieces classes.items → is_marked self.old.expanded number ≡ false
            → Tracks rs memo self.old before → IsCounted asked before budget.old
            → Traces asked before rs memo self.new budget.new (L.Tape.told tape.old) (L.Tape.told tape.new)) }
        ensures expanded { IfOk result (λ e. e ≢ Expand.Spent → is_marked self.new.expanded number ≡ true) }
        ensures anew { IfOk result (λ e. e ≢ Expand.Already) }
        ensures spent { IfOk result (λ e. e ≡ Expand.Spent → budget.new.spent ≡ budget.new.limit) }
        ensures spends { IfOk result (λ e. Spends e budget.old budget.new) }
        ensures limit { budget.new.limit ≡ budget.old.limit }
        ensures only { IfOk result
            (λ e. (n : ℕ) → is_marked self.new.expanded n ≡ (is_put e number n || is_marked self.old.expanded n)) }
        ensures order { self.new.order ≡ self.old.order }
        ensures marks { (n : ℕ) → is_marked self.old.expanded n ≡ true → is_marked self.new.expanded n ≡ true }
        ensures dead { self.new.dead ≡ self.old.dead }
        ensures steps { SpendsWithin budget.old budget.new }
        ensures counts { CountsTapeFault result (L.Tape.faults tape.old) (L.Tape.faults tape.new) }
    {
        test_decides_expansion();
        order_tells_apart();
        if budget.tick().is_err() {
            return Ok(Expand::Spent);
        }
        put_line(Line::Expansion(number, classes), tape)?;
        self.expanded[number as usize] = true;
        Ok(Expand::Expanded)
    }

    /// A class for each piece of a derivative, with the number of its target.
    fn classes<L: Tape>(
        &mut self,
        arena: &Arena,
        derivative: &Derivative,
        tape: &mut L,
    ) -> Result<Vec<Class>, TapeFault>
        requires { AllNumbers arena.now (targets_of derivative.now) }
        ensures classes { IfOk result (λ classes. AreClassesOf self.new.order derivative.now classes.items) }
        ensures puts { OnOk result ((asked : Asked) (memo : Memo) (before : AllKept)
            → Tracks arena.now memo self.old before
            → TracesUncounted asked before arena.now memo self.new (L.Tape.told tape.old) (L.Tape.told tape.new)) }
        ensures stays { StaysNumbered self.old self.new }
        ensures expanded_stay { (n : ℕ) → is_marked self.new.expanded n ≡ is_marked self.old.expanded n }
        ensures dead_stay { (n : ℕ) → is_marked self.new.dead n ≡ is_marked self.old.dead n }
        ensures counts { CountsTapeFault result (L.Tape.faults tape.old) (L.Tape.faults tape.new) }
    {
        let pieces = derivative.pieces();
        let mut classes = Vec::with_capacity(self.alloc, pieces.len())?;
        self.add_classes(arena, pieces, &mut classes, tape)?;
        Ok(classes)
    }

    /// Adds a class for each piece.
    fn add_classes<L: Tape>(
        &mut self,
        arena: &Arena,
        pieces: &[(u32, RegexId)],
        classes: &mut Vec<Class>,
        tape: &mut L,
    ) -> Result<(), TapeFault>
        requires map { IsIntervalMap pieces.now }
        requires targets { AllNumbers arena.now (targets_of pieces.now) }
        requires none { classes.old.items ≡ [] }
        ensures classes { OnOk result (AreClassesOf self.new.order pieces.now classes.new.items) }
        ensures puts { OnOk result ((asked : Asked) (memo : Memo) (before : AllKept)
            → Tracks arena.now memo self.old before
            → TracesUncounted asked before arena.now memo self.new (L.Tape.told tape.old) (L.Tape.told tape.new)) }
        ensures stays { StaysNumbered self.old self.new }
        ensures expanded_stay { (n : ℕ) → is_marked self.new.expanded n ≡ is_marked self.old.expanded n }
        ensures dead_stay { (n : ℕ) → is_marked self.new.dead n ≡ is_marked self.old.dead n }
        ensures counts { CountsTapeFault result (L.Tape.faults tape.old) (L.Tape.faults tape.new) }
    {
        for (place, (first, target)) in pieces.iter().enumerate() {
            let last = last_of(pieces, place);
            let number = self.number(arena, *target, tape)?;
            add_class(classes, *first, last, number)?;
        }
        Ok(())
    }

    /// Whether a regex is dead in the proof.
    pub fn is_dead(&self, regex: RegexId) -> bool
        ensures { result ≡ is_dead_in self.now regex }
    {
        match self.order.get_index_of(&regex) {
            Some(number) => self.dead[number],
            None => false,
        }
    }

    /// What a regex's language has: its shortest-least word, and then nothing is put, or none, and then the lines that
    /// show that stand in the proof. Where the budget is spent before, the lines that were put stay.
    ///
    /// The search for a word goes no further than an exploration for which the steps suffice that are left, so a call
    /// takes time linear in these, in the pieces of derivatives, and in the regexes that stand in the proof.
    pub fn explore<L: Tape>(
        &mut self,
        arena: &mut Arena,
        graph: &mut Graph,
        root: RegexId,
        tape: &mut L,
        budget: &mut Budget,
    ) -> Result<Explore, TapeFault>
        requires known { root < length arena.old }
        requires graph { IsGraph arena.old graph.old }
        ensures found { IfOk result (λ e. IsExploring (language (regex_at arena.old root)) e) }
        ensures puts { OnOk result ((asked : Asked) (before : AllKept)
            → Tracks arena.old graph.old.memo self.old before → IsCounted asked before budget.old
            → Traces asked before arena.new graph.new.memo self.new budget.new (L.Tape.told tape.old)
            (L.Tape.told tape.new)) }
        ensures alive { IfOk result
            (λ e. IfAlive e ((self.new ≡ self.old) × (budget.new ≡ budget.old) × (tape.new ≡ tape.old))) }
        ensures dead { IfOk result (λ e. e ≡ Explore.Dead → is_dead_in self.new root ≡ true) }
        ensures spent { IfOk result (λ e. e ≡ Explore.Spent → budget.new.spent ≡ budget.new.limit) }
        ensures only { OnOk result (ExpandsReached arena.new (regex_at arena.old root) self.old self.new) }
        ensures stays { StaysNumbered self.old self.new }
        ensures expanded_stay { (n : ℕ) → IsExpandedIn self.old n → IsExpandedIn self.new n }
        ensures extends { Extends arena.old arena.new }
        ensures graph { IsGraph arena.new graph.new }
        ensures marks_stay { KeepsMarks graph.old.dead graph.new.dead }
        ensures derivatives_stay { KeepsEntries graph.old.memo graph.new.memo }
        ensures steps { SpendsWithin budget.old budget.new }
        ensures counts { CountsTapeFault result (L.Tape.faults tape.old) (L.Tape.faults tape.new) }
    {
        let left = budget.limit().saturating_sub(budget.spent());
        match graph.answer_within(arena, root, left as usize)? {
            Within::Found(explored) => self.show(arena, graph, root, explored, tape, budget),
            Within::Limit => self.explore_front(arena, graph, root, tape, budget),
        }
    }

    /// Puts the lines of what was found of a regex.
    fn show<L: Tape>(
        &mut self,
        arena: &mut Arena,
        graph: &mut Graph,
        root: RegexId,
        explored: Explored,
        tape: &mut L,
        budget: &mut Budget,
    ) -> Result<Explore, TapeFault>
        requires known { root < length arena.old }
        requires graph { IsGraph arena.old graph.old }
        requires found { IsFinding (language (regex_at arena.old root)) explored }
        requires dead { MarksDead graph.old.dead root explored }
        ensures found { IfOk result (λ e. IsExploring (language (regex_at arena.old root)) e) }
        ensures puts { OnOk result ((asked : Asked) (before : AllKept)
            → Tracks arena.old graph.old.memo self.old before → IsCounted asked before budget.old
            → Traces asked before arena.new graph.new.memo self.new budget.new (L.Tape.told tape.old)
            (L.Tape.told tape.new)) }
        ensures alive { IfOk result
            (λ e. IfAlive e ((self.new ≡ self.old) × (budget.new ≡ budget.old) × (tape.new ≡ tape.old))) }
        ensures dead { IfOk result (λ e. e ≡ Explore.Dead → is_dead_in self.new root ≡ true) }
        ensures spent { IfOk result (λ e. e ≡ Explore.Spent → budget.new.spent ≡ budget.new.limit) }
        ensures only { OnOk result (ExpandsReached arena.new (regex_at arena.old root) self.old self.new) }
        ensures stays { StaysNumbered self.old self.new }
        ensures expanded_stay { (n : ℕ) → IsExpandedIn self.old n → IsExpandedIn self.new n }
        ensures extends { Extends arena.old arena.new }
        ensures graph { IsGraph arena.new graph.new }
        ensures marks { graph.new.dead ≡ graph.old.dead }
        ensures derivatives_stay { KeepsEntries graph.old.memo graph.new.memo }
        ensures steps { SpendsWithin budget.old budget.new }
        ensures counts { CountsTapeFault result (L.Tape.faults tape.old) (L.Tape.faults tape.new) }
    {
        match explored {
            Explored::Alive(word) => Ok(Explore::Alive(word)),
            Explored::Dead => {
                if self.bury(arena, graph, root, tape, budget)? {
                    Ok(Explore::Dead)
                } else {
                    Ok(Explore::Spent)
                }
            }
        }
    }

    /// Puts the lines of the derivatives of a regex, and theirs, as far as the budget goes. Where it goes to their end,
    /// what the language has is found first.
    fn explore_front<L: Tape>(
        &mut self,
        arena: &mut Arena,
        graph: &mut Graph,
        root: RegexId,
        tape: &mut L,
        budget: &mut Budget,
    ) -> Result<Explore, TapeFault>
        requires known { root < length arena.old }
        requires graph { IsGraph arena.old graph.old }
        ensures found { IfOk result (λ e. IsExploring (language (regex_at arena.old root)) e) }
        ensures puts { OnOk result ((asked : Asked) (before : AllKept)
            → Tracks arena.old graph.old.memo self.old before → IsCounted asked before budget.old
            → Traces asked before arena.new graph.new.memo self.new budget.new (L.Tape.told tape.old)
            (L.Tape.told tape.new)) }
        ensures alive { IfOk result
            (λ e. IfAlive e ((self.new ≡ self.old) × (budget.new ≡ budget.old) × (tape.new ≡ tape.old))) }
        ensures dead { IfOk result (λ e. e ≡ Explore.Dead → is_dead_in self.new root ≡ true) }
        ensures spent { IfOk result (λ e. e ≡ Explore.Spent → budget.new.spent ≡ budget.new.limit) }
        ensures only { OnOk result (ExpandsReached arena.new (regex_at arena.old root) self.old self.new) }
        ensures stays { StaysNumbered self.old self.new }
        ensures expanded_stay { (n : ℕ) → IsExpandedIn self.old n → IsExpandedIn self.new n }
        ensures extends { Extends arena.old arena.new }
        ensures graph { IsGraph arena.new graph.new }
        ensures marks_stay { KeepsMarks graph.old.dead graph.new.dead }
        ensures derivatives_stay { KeepsEntries graph.old.memo graph.new.memo }
        ensures steps { SpendsWithin budget.old budget.new }
        ensures counts { CountsTapeFault result (L.Tape.faults tape.old) (L.Tape.faults tape.new) }
    {
        let left = budget.limit().saturating_sub(budget.spent());
        let mut members = alone(self.alloc, root)?;
        if self.gather(arena, graph, &mut members, true, left)? {
            let explored = graph.answer(arena, root)?;
            return self.show(arena, graph, root, explored, tape, budget);
        }
        let _done = self.expand_each(arena, graph, members.as_slice(), tape, budget)?;
        Ok(Explore::Spent)
    }

    /// Makes a regex without a word dead in the proof: its derivatives, and theirs, are expanded, and then all of them
    /// are dead. Whether the budget sufficed.
    fn bury<L: Tape>(
        &mut self,
        arena: &mut Arena,
        graph: &mut Graph,
        root: RegexId,
        tape: &mut L,
        budget: &mut Budget,
    ) -> Result<bool, TapeFault>
        requires known { root < length arena.old }
        requires graph { IsGraph arena.old graph.old }
        requires dead { is_marked graph.old.dead root ≡ true }
        ensures puts { OnOk result ((asked : Asked) (before : AllKept)
            → Tracks arena.old graph.old.memo self.old before → IsCounted asked before budget.old
            → Traces asked before arena.new graph.new.memo self.new budget.new (L.Tape.told tape.old)
            (L.Tape.told tape.new)) }
        ensures dead { IfOk result (λ done. done ≡ true → is_dead_in self.new root ≡ true) }
        ensures spent { IfOk result (λ done. done ≡ false → budget.new.spent ≡ budget.new.limit) }
        ensures only { OnOk result (ExpandsReached arena.new (regex_at arena.old root) self.old self.new) }
        ensures stays { StaysNumbered self.old self.new }
        ensures expanded_stay { (n : ℕ) → IsExpandedIn self.old n → IsExpandedIn self.new n }
        ensures extends { Extends arena.old arena.new }
        ensures graph { IsGraph arena.new graph.new }
        ensures marks { graph.new.dead ≡ graph.old.dead }
        ensures derivatives_stay { KeepsEntries graph.old.memo graph.new.memo }
        ensures steps { SpendsWithin budget.old budget.new }
        ensures counts { CountsTapeFault result (L.Tape.faults tape.old) (L.Tape.faults tape.new) }
    {
        if self.is_dead(root) {
            return Ok(true);
        }
        let mut members = alone(self.alloc, root)?;
        if !self.close(arena, graph, &mut members, true, tape, budget)? {
            return Ok(false);
        }
        self.put_dead(&members, tape)?;
        Ok(true)
    }

    /// Puts the line that says that members are dead, all of which have numbers.
    fn put_dead<L: Tape>(
        &mut self,
        members: &IndexSet<RegexId>,
        tape: &mut L,
    ) -> Result<(), TapeFault>
        requires { All (IsNumbered self.old.order) members.now.keys }
        ensures puts { OnOk result
            ((asked : Asked) (rs : List Regex) (memo : Memo) (marks : List Bool) (before : AllKept)
            → AreBarren rs marks → list_all (is_unburied marks self.old) members.now.keys ≡ true
            → AreClosedUpTo memo self.old members.now.keys (length members.now.keys)
            → Tracks rs memo self.old before
            → TracesUncounted asked before rs memo self.new (L.Tape.told tape.old) (L.Tape.told tape.new)) }
        ensures dead { OnOk result (list_all (is_dead_in self.new) members.now.keys ≡ true) }
        ensures order { self.new.order ≡ self.old.order }
        ensures expanded { self.new.expanded ≡ self.old.expanded }
        ensures counts { CountsTapeFault result (L.Tape.faults tape.old) (L.Tape.faults tape.new) }
    {
        let regexes = members.as_slice();
        let numbers = numbers_of(self.alloc, &self.order, regexes)?;
        put_line(Line::Dead(numbers), tape)?;
        mark(&mut self.dead, &self.order, regexes);
        Ok(())
    }
}

/// Puts a line.
fn put_line<L: Tape>(line: Line, tape: &mut L) -> Result<(), TapeFault>
    ensures told { OnOk result
        (L.Tape.told tape.new ≡ with_bytes (ended (text_of (line_in line))) (L.Tape.told tape.old)) }
    ensures counts { CountsTapeFault result (L.Tape.faults tape.old) (L.Tape.faults tape.new) }
{
    tape.put(&line)
}

/// The last character of a piece.
fn last_of(pieces: &[(u32, RegexId)], place: usize) -> u32
    requires map { IsIntervalMap pieces.now }
    requires place { place < length pieces.now }
    ensures { result ≡ first_of end_of_characters (drop (place + 1) pieces.now) - 1 }
{
    match pieces.get(place + 1) {
        Some((next, _)) => *next - 1,
        None => LAST,
    }
}

/// Adds the class of the characters from one to another, with the number to which they lead.
fn add_class(classes: &mut Vec<Class>, first: u32, last: u32, target: u64) -> Result<(), AllocError>
    ensures { OnOk result
        (map class_in classes.new.items ≡ map class_in classes.old.items ++ ((first, last) ∷ [], target) ∷ []) }
{
    let ranges = Vec::from_slice(*classes.allocator(), &[(first as u64, last as u64)])?;
    classes.push(Class { ranges, target })?;
    Ok(())
}

/// A regex alone.
fn alone(alloc: Global, regex: RegexId) -> Result<IndexSet<RegexId>, AllocError>
    ensures { IfOk result (λ members. members.keys ≡ regex ∷ []) }
{
    let mut members = IndexSet::new(alloc);
    add(&mut members, regex)?;
    Ok(members)
}

/// Adds a regex, where it is not there.
fn add(regexes: &mut IndexSet<RegexId>, regex: RegexId) -> Result<(), AllocError>
    ensures ok { OnOk result (regexes.new.keys ≡ insert_key nat_eq regexes.old.keys regex) }
    ensures err { OnErr result (regexes.new.keys ≡ regexes.old.keys) }
{
    regexes.insert(regex)?;
    Ok(())
}

/// Marks the regexes, by their numbers.
fn mark(dead: &mut Vec<bool>, order: &IndexSet<RegexId>, regexes: &[RegexId])
    requires numbered { All (IsNumbered order.now.keys) regexes.now }
    requires room { length order.now.keys ≤ length dead.old.items }
    ensures marks { (numbers : List ℕ) → map (number_in order.now.keys) regexes.now ≡ map Some numbers
        → (n : ℕ) → is_marked dead.new.items n ≡ (list_any (nat_eq n) numbers || is_marked dead.old.items n) }
    ensures long { length dead.new.items ≡ length dead.old.items }
    ensures stay { (n : ℕ) → length order.now.keys ≤ n
        → is_marked dead.new.items n ≡ is_marked dead.old.items n }
{
    for regex in regexes {
        dead[number_of(order, *regex) as usize] = true;
    }
}
