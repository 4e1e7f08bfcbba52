//! The graph.

ghost use Rattle.std.specs.Prelude.{◌≡◌, ℕ, ◌<◌, ◌≤◌, true, false, List, [], length, IfOk, IfSome, IfNone, option_copied, OnOk, OnErr, IsSome};
ghost use Rattle.sb_lang.specs.Regex.{Regex};
ghost use Rattle.sb_lang.specs.Language.{language};
ghost use Rattle.sb_lang.specs.Least.{IsShortestLeast};
ghost use Rattle.sb_deriv.specs.Faithful.{entry_of, KeepsEntries};
ghost use Rattle.sb_regex.specs.Numbered.{regex_at, Extends};
ghost use Rattle.sb_graph.specs.Findings.{is_marked, is_settled, KeepsMarks, IsGraph};
ghost use Rattle.sb_graph.specs.Witness.{IsFinding, MarksDead, ComesBefore, GoesOn, IsReachedBy, IfFound};
ghost use Rattle.sb_graph.specs.Search.{IsSearched, HasCome, IsSearchEnd, IsVisited, AreMarked};
ghost use Rattle.sb_graph.specs.Queue.{regex_of, with_entry};
ghost use Rattle.sb_graph.specs.Members.{IsOutcome};

use crate::members::{Outcome, find_word, first_nullable, word_from, word_of};
use crate::queue::Queue;
use crate::search::{is_marked, mark, visit};
use indexmap::IndexMap;
use sb_deriv::{Derivative, Deriver};
use sb_lang::derivative::{derivative_along_has_rests, nullable_has_empty_word};
use sb_regex::{Arena, RegexId};
use sb_word::Word;
use std::alloc::{AllocError, Global};
use std::marker::Model;

/// How many states a walk over members and an exploration may expand in their first turns.
const FIRST: usize = 2000;

/// How many regexes an exploration may go through before a walk over members is believed that there is no word.
const NEAR: usize = 100;

/// From so many on there are no more turns.
const LAST: usize = 1 << 40;

/// What is known of the regexes of an arena: derivatives, marks of dead ones, and words of others.
#[derive(Drop)]
pub struct Graph {
    deriver: Deriver,
    dead: Vec<bool>,
    answers: IndexMap<RegexId, Word>,
    expanded: Vec<RegexId>,
}

impl Model for Graph {
    ghost use Rattle.sb_graph.specs.Findings.{Findings};

    ghost Value = { Findings };

    ghost view = { λ graph. record {
      memo = graph.deriver;
      dead = graph.dead.items;
      answers = graph.answers.entries;
      expanded = graph.expanded.items;
    } };
}

/// What an exploration finds.
#[derive(Drop)]
pub enum Explored {
    /// A word of the language: no other is shorter, and none as long is less by code points.
    Alive(Word),
    /// No word is in the language.
    Dead,
}

/// What an exploration finds that may not expand more than so many regexes.
#[derive(Drop)]
pub enum Within {
    /// What one without a limit finds.
    Found(Explored),
    /// As many regexes as may be were expanded, and more are left.
    Limit,
}

impl Graph {
    /// A graph that knows nothing. Takes no memory.
    pub fn new(alloc: Global) -> Graph
        ensures derivatives { result.memo ≡ [] }
        ensures dead { result.dead ≡ [] }
        ensures graph { (regexes : List Regex) → IsGraph regexes result }
    {
        Graph {
            deriver: Deriver::new(alloc),
            dead: Vec::new(alloc),
            answers: IndexMap::new(alloc),
            expanded: Vec::new(alloc),
        }
    }

    /// Whether a regex is marked as dead. Constant time.
    pub fn is_dead(&self, regex: RegexId) -> bool
        ensures { result ≡ is_marked self.now.dead regex }
    {
        is_marked(&self.dead, regex)
    }

    /// The derivative of a regex, if an exploration found it. Constant time.
    pub fn derivative(&self, regex: RegexId) -> Option<&Derivative>
        ensures { option_copied result ≡ entry_of self.now.memo regex }
    {
        self.deriver.derivative(regex)
    }

    /// The regexes that explorations expanded, in order: those whose derivatives were wanted and not known. One whose
    /// derivative ran out of memory stands there again when it is tried again, and one whose derivative became known as
    /// a part of another's does not. Constant time.
    pub fn expanded(&self) -> &[RegexId]
        ensures { result.now ≡ self.now.expanded }
    {
        self.expanded.as_slice()
    }

    /// The least of the shortest words of a regex's language, or that there is none: then the regex is marked.
    ///
    /// Regexes are tested for the empty word when they are met, and expanded in the order of the words that lead to
    /// them, each at most once in a graph's life; a call takes time linear in the number of the regexes that it meets
    /// and of the pieces of their derivatives. The answer is kept: for a regex that was explored before, a call takes
    /// the time to copy its word. Where memory runs out, the derivatives that were found and all marks stay, and a
    /// later call goes on from there.
    pub fn explore(&mut self, arena: &mut Arena, root: RegexId) -> Result<Explored, AllocError>
        requires known { root < length arena.old }
        requires graph { IsGraph arena.old self.old }
        ensures found { IfOk result (λ explored. IsFinding (language (regex_at arena.old root)) explored) }
        ensures dead { IfOk result (λ explored. MarksDead self.new.dead root explored) }
        ensures extends { Extends arena.old arena.new }
        ensures graph { IsGraph arena.new self.new }
        ensures marks_stay { KeepsMarks self.old.dead self.new.dead }
        ensures derivatives_stay { KeepsEntries self.old.memo self.new.memo }
        ensures expands { GoesOn (IsReachedBy arena.new (regex_at arena.old root) (λ v. ComesBefore v result))
            self.old.expanded self.new.expanded }
        ensures idle { self.new.expanded ≡ self.old.expanded → self.new.memo ≡ self.old.memo }
        ensures settles { OnOk result (is_settled self.new root ≡ true) }
        ensures settled { is_settled self.old root ≡ true → self.new ≡ self.old }
    {
        match self.recall(root)? {
            Some(explored) => Ok(explored),
            None => self.walk(arena, root),
        }
    }

    /// The least of the shortest words of a regex's language, or that there is none: what `explore` finds, while a walk
    /// over the members of unions, which meets few states where the derivatives are unions of many, takes turns with it.
    ///
    /// In its turn the walk begins anew and may expand four times as many states as before, 2,000 at first; the
    /// exploration goes on from where it stands up to as many regexes. Derivatives are kept. So a call expands at most
    /// seven times as many states as the one of the two that expands fewer, and some thousands. Where the walk ends
    /// without a word, the exploration goes on to its end. The derivatives that the walk wants are not counted among
    /// those that explorations expanded.
    pub fn answer(&mut self, arena: &mut Arena, root: RegexId) -> Result<Explored, AllocError>
        requires known { root < length arena.old }
        requires graph { IsGraph arena.old self.old }
        ensures found { IfOk result (λ explored. IsFinding (language (regex_at arena.old root)) explored) }
        ensures dead { IfOk result (λ explored. MarksDead self.new.dead root explored) }
        ensures extends { Extends arena.old arena.new }
        ensures graph { IsGraph arena.new self.new }
        ensures marks_stay { KeepsMarks self.old.dead self.new.dead }
        ensures derivatives_stay { KeepsEntries self.old.memo self.new.memo }
        ensures expands { GoesOn (IsReachedBy arena.new (regex_at arena.old root) (λ v. ComesBefore v result))
            self.old.expanded self.new.expanded }
        ensures settles { OnOk result (is_settled self.new root ≡ true) }
        ensures settled { is_settled self.old root ≡ true → self.new ≡ self.old }
    {
        if self.is_settled(root) {
            return self.explore(arena, root);
        }
        let mut queue = Queue::of(self.allocator(), root)?;
        self.answer_from(arena, &mut queue, root)
    }

    /// What `answer` finds, with the queue that begins with the regex.
    fn answer_from(
        &mut self,
        arena: &mut Arena,
        queue: &mut Queue,
        root: RegexId,
    ) -> Result<Explored, AllocError>
        requires known { root < length arena.old }
        requires graph { IsGraph arena.old self.old }
        requires start { queue.old ≡ with_entry [] (root, (0, 0)) }
        ensures found { IfOk result (λ explored. IsFinding (language (regex_at arena.old root)) explored) }
        ensures dead { IfOk result (λ explored. MarksDead self.new.dead root explored) }
        ensures extends { Extends arena.old arena.new }
        ensures graph { IsGraph arena.new self.new }
        ensures marks_stay { KeepsMarks self.old.dead self.new.dead }
        ensures derivatives_stay { KeepsEntries self.old.memo self.new.memo }
        ensures expands { GoesOn (IsReachedBy arena.new (regex_at arena.old root) (λ v. ComesBefore v result))
            self.old.expanded self.new.expanded }
        ensures settles { OnOk result (is_settled self.new root ≡ true) }
    {
        nullable_has_empty_word();
        derivative_along_has_rests();
        let place = self.take_turns(arena, queue, root, usize::MAX)?;
        if !self.is_settled(root) {
            return self.finish(arena, queue, root, place);
        }
        self.explore(arena, root)
    }

    /// The least of the shortest words of a regex's language, or that there is none: what `answer` finds. Where there is
    /// no word, and the exploration has not come to its end within 100 regexes, a walk over members that comes to its end
    /// within 8,000 states is believed: then no regex is marked, and a later call walks again. Else the cost is that of
    /// `answer`, and of one such walk.
    pub fn least_word(&mut self, arena: &mut Arena, root: RegexId) -> Result<Explored, AllocError>
        requires known { root < length arena.old }
        requires graph { IsGraph arena.old self.old }
        ensures found { IfOk result (λ explored. IsFinding (language (regex_at arena.old root)) explored) }
        ensures extends { Extends arena.old arena.new }
        ensures graph { IsGraph arena.new self.new }
        ensures marks_stay { KeepsMarks self.old.dead self.new.dead }
        ensures derivatives_stay { KeepsEntries self.old.memo self.new.memo }
    {
        match self.answer_within(arena, root, NEAR)? {
            Within::Found(explored) => Ok(explored),
            Within::Limit => self.word_by_members(arena, root),
        }
    }

    /// What `least_word` finds, by a walk over members, or else by `answer`.
    fn word_by_members(&mut self, arena: &mut Arena, root: RegexId) -> Result<Explored, AllocError>
        requires known { root < length arena.old }
        requires graph { IsGraph arena.old self.old }
        ensures found { IfOk result (λ explored. IsFinding (language (regex_at arena.old root)) explored) }
        ensures extends { Extends arena.old arena.new }
        ensures graph { IsGraph arena.new self.new }
        ensures marks_stay { KeepsMarks self.old.dead self.new.dead }
        ensures derivatives_stay { KeepsEntries self.old.memo self.new.memo }
    {
        let outcome = self.outcome_by_members(arena, root)?;
        if let Outcome::Empty = outcome {
            return Ok(Explored::Dead);
        }
        self.answer(arena, root)
    }

    /// What a walk over members finds.
    fn outcome_by_members(
        &mut self,
        arena: &mut Arena,
        root: RegexId,
    ) -> Result<Outcome, AllocError>
        requires known { root < length arena.old }
        requires graph { IsGraph arena.old self.old }
        ensures found { IfOk result (λ outcome. IsOutcome (language (regex_at arena.old root)) outcome) }
        ensures extends { Extends arena.old arena.new }
        ensures graph { IsGraph arena.new self.new }
        ensures marks { self.new.dead ≡ self.old.dead }
        ensures derivatives_stay { KeepsEntries self.old.memo self.new.memo }
    {
        let alloc = *self.dead.allocator();
        let outcome = find_word(alloc, arena, &mut self.deriver, root, 4 * FIRST)?;
        Ok(outcome)
    }

    /// What `answer` finds, as long as the exploration has not gone through so many regexes with more of them left. The
    /// walks end with the turn in which that is seen, so a call expands at most seven times as many states as the limit,
    /// and some thousands. Derivatives stay, so a later call costs less.
    pub fn answer_within(
        &mut self,
        arena: &mut Arena,
        root: RegexId,
        limit: usize,
    ) -> Result<Within, AllocError>
        requires known { root < length arena.old }
        requires graph { IsGraph arena.old self.old }
        ensures found { IfOk result (λ w. IfFound w (IsFinding (language (regex_at arena.old root)))) }
        ensures dead { IfOk result (λ w. IfFound w (MarksDead self.new.dead root)) }
        ensures extends { Extends arena.old arena.new }
        ensures graph { IsGraph arena.new self.new }
        ensures marks_stay { KeepsMarks self.old.dead self.new.dead }
        ensures derivatives_stay { KeepsEntries self.old.memo self.new.memo }
        ensures settles { IfOk result (λ w. IfFound w (λ explored. is_settled self.new root ≡ true)) }
        ensures settled { is_settled self.old root ≡ true → self.new ≡ self.old }
    {
        if self.is_settled(root) {
            let explored = self.explore(arena, root)?;
            return Ok(Within::Found(explored));
        }
        let mut queue = Queue::of(self.allocator(), root)?;
        self.answer_from_within(arena, &mut queue, root, limit)
    }

    /// What `answer_within` finds, with the queue that begins with the regex.
    fn answer_from_within(
        &mut self,
        arena: &mut Arena,
        queue: &mut Queue,
        root: RegexId,
        limit: usize,
    ) -> Result<Within, AllocError>
        requires known { root < length arena.old }
        requires graph { IsGraph arena.old self.old }
        requires start { queue.old ≡ with_entry [] (root, (0, 0)) }
        ensures found { IfOk result (λ w. IfFound w (IsFinding (language (regex_at arena.old root)))) }
        ensures dead { IfOk result (λ w. IfFound w (MarksDead self.new.dead root)) }
        ensures extends { Extends arena.old arena.new }
        ensures graph { IsGraph arena.new self.new }
        ensures marks_stay { KeepsMarks self.old.dead self.new.dead }
        ensures derivatives_stay { KeepsEntries self.old.memo self.new.memo }
        ensures settles { IfOk result (λ w. IfFound w (λ explored. is_settled self.new root ≡ true)) }
    {
        let place = self.take_turns(arena, queue, root, limit)?;
        if self.is_settled(root) {
            let explored = self.explore(arena, root)?;
            return Ok(Within::Found(explored));
        }
        self.finish_within(arena, queue, root, place, limit)
    }

    /// Goes on with an exploration from a place to its end, unless so many places do not suffice.
    fn finish_within(
        &mut self,
        arena: &mut Arena,
        queue: &mut Queue,
        root: RegexId,
        from: usize,
        limit: usize,
    ) -> Result<Within, AllocError>
        requires graph { IsGraph arena.old self.old }
        requires start { IsSearched arena.old root self.old.dead queue.old from }
        requires within { from ≤ length queue.old }
        ensures found { IfOk result (λ w. IfFound w (IsFinding (language (regex_at arena.old root)))) }
        ensures dead { IfOk result (λ w. IfFound w (MarksDead self.new.dead root)) }
        ensures extends { Extends arena.old arena.new }
        ensures graph { IsGraph arena.new self.new }
        ensures marks_stay { KeepsMarks self.old.dead self.new.dead }
        ensures derivatives_stay { KeepsEntries self.old.memo self.new.memo }
        ensures settles { IfOk result (λ w. IfFound w (λ explored. is_settled self.new root ≡ true)) }
    {
        let place = self.sweep(arena, queue, root, from, limit)?;
        if place >= limit && is_open(arena, queue, place) {
            return Ok(Within::Limit);
        }
        let explored = self.finish(arena, queue, root, place)?;
        Ok(Within::Found(explored))
    }

    /// Lets walks over members take turns with the exploration of a queue, up to one that comes to its end, or to so
    /// many places. The place where the exploration stands. The word that a walk finds is kept, and so are all
    /// derivatives.
    fn take_turns(
        &mut self,
        arena: &mut Arena,
        queue: &mut Queue,
        root: RegexId,
        limit: usize,
    ) -> Result<usize, AllocError>
        requires known { root < length arena.old }
        requires graph { IsGraph arena.old self.old }
        requires start { IsSearched arena.old root self.old.dead queue.old 0 }
        ensures come { IfOk result
            (λ place. HasCome arena.new root self.new.dead queue.new place self.old.expanded self.new.expanded) }
        ensures extends { Extends arena.old arena.new }
        ensures graph { IsGraph arena.new self.new }
        ensures marks { self.new.dead ≡ self.old.dead }
        ensures derivatives_stay { KeepsEntries self.old.memo self.new.memo }
        ensures expands { GoesOn (IsReachedBy arena.new (regex_at arena.old root) (λ v. Unit {0}))
            self.old.expanded self.new.expanded }
    {
        let mut bound = FIRST;
        let mut place = 0;
        while bound < LAST {
            if self.walk_members(arena, root, bound)? {
                return Ok(place);
            }
            place = self.sweep(arena, queue, root, place, bound.min(limit))?;
            if place < bound {
                return Ok(place);
            }
            bound *= 4;
        }
        Ok(place)
    }

    /// Goes on through the queue from a place, up to a turn that meets a regex with the empty word, and not behind so
    /// many places. The place where it stops.
    fn sweep(
        &mut self,
        arena: &mut Arena,
        queue: &mut Queue,
        root: RegexId,
        from: usize,
        bound: usize,
    ) -> Result<usize, AllocError>
        requires graph { IsGraph arena.old self.old }
        requires start { IsSearched arena.old root self.old.dead queue.old from }
        requires within { from ≤ length queue.old }
        ensures come { IfOk result (λ place. (before : List ℕ)
            → HasCome arena.old root self.old.dead queue.old from before self.old.expanded
            → HasCome arena.new root self.new.dead queue.new place before self.new.expanded) }
        ensures extends { Extends arena.old arena.new }
        ensures graph { IsGraph arena.new self.new }
        ensures marks { self.new.dead ≡ self.old.dead }
        ensures derivatives_stay { KeepsEntries self.old.memo self.new.memo }
        ensures expands { (before : List ℕ)
            → HasCome arena.old root self.old.dead queue.old from before self.old.expanded
            → GoesOn (IsReachedBy arena.new (regex_at arena.old root) (λ v. Unit {0})) before self.new.expanded }
    {
        let mut place = from;
        let mut tested = from;
        while place < queue.len() {
            if let Some(_found) = first_nullable(arena, queue.regexes(), tested) {
                return Ok(place);
            }
            if place >= bound {
                return Ok(place);
            }
            tested = queue.len();
            self.expand(arena, queue, place)?;
            place += 1;
        }
        Ok(place)
    }

    fn allocator(&self) -> Global {
        *self.dead.allocator()
    }

    /// Whether it is known if a regex has a word.
    fn is_settled(&self, root: RegexId) -> bool
        ensures { result ≡ is_settled self.now root }
    {
        self.is_dead(root) || self.answers.get(&root).is_some()
    }

    /// Keeps the word of a regex, where a walk over so many members finds it. Whether the walk came to its end.
    fn walk_members(
        &mut self,
        arena: &mut Arena,
        root: RegexId,
        bound: usize,
    ) -> Result<bool, AllocError>
        requires known { root < length arena.old }
        requires graph { IsGraph arena.old self.old }
        ensures extends { Extends arena.old arena.new }
        ensures graph { IsGraph arena.new self.new }
        ensures marks { self.new.dead ≡ self.old.dead }
        ensures expanded { self.new.expanded ≡ self.old.expanded }
        ensures derivatives_stay { KeepsEntries self.old.memo self.new.memo }
    {
        let alloc = *self.dead.allocator();
        let outcome = find_word(alloc, arena, &mut self.deriver, root, bound)?;
        let ends = comes_to_end(&outcome);
        if let Outcome::Found(word) = outcome {
            self.keep(alloc, root, &word)?;
        }
        Ok(ends)
    }

    /// What an earlier exploration found.
    fn recall(&self, root: RegexId) -> Result<Option<Explored>, AllocError>
        ensures found { IfOk result
            (λ found. IfSome found
            (λ explored. (regexes : List Regex) → IsGraph regexes self.now
            → IsFinding (language (regex_at regexes root)) explored)) }
        ensures dead { IfOk result (λ found. IfSome found (MarksDead self.now.dead root)) }
        ensures settled { IfOk result (λ found. IfSome found (λ explored. is_settled self.now root ≡ true)) }
        ensures open { IfOk result (λ found. IfNone found (is_settled self.now root ≡ false)) }
    {
        nullable_has_empty_word();
        derivative_along_has_rests();
        if self.is_dead(root) {
            return Ok(Some(Explored::Dead));
        }
        let Some(word) = self.answers.get(&root) else {
            return Ok(None);
        };
        let word = word_from(*self.dead.allocator(), word.codes())?;
        Ok(Some(Explored::Alive(word)))
    }

    /// Explores a regex that no earlier exploration settled, and keeps what it finds.
    fn walk(&mut self, arena: &mut Arena, root: RegexId) -> Result<Explored, AllocError>
        requires known { root < length arena.old }
        requires graph { IsGraph arena.old self.old }
        ensures found { IfOk result (λ explored. IsFinding (language (regex_at arena.old root)) explored) }
        ensures dead { IfOk result (λ explored. MarksDead self.new.dead root explored) }
        ensures extends { Extends arena.old arena.new }
        ensures graph { IsGraph arena.new self.new }
        ensures marks_stay { KeepsMarks self.old.dead self.new.dead }
        ensures derivatives_stay { KeepsEntries self.old.memo self.new.memo }
        ensures expands { GoesOn (IsReachedBy arena.new (regex_at arena.old root) (λ v. ComesBefore v result))
            self.old.expanded self.new.expanded }
        ensures idle { self.new.expanded ≡ self.old.expanded → self.new.memo ≡ self.old.memo }
        ensures settles { OnOk result (is_settled self.new root ≡ true) }
    {
        let mut queue = Queue::of(self.allocator(), root)?;
        self.finish(arena, &mut queue, root, 0)
    }

    /// Goes on with an exploration from a place to its end, and keeps what it finds.
    fn finish(
        &mut self,
        arena: &mut Arena,
        queue: &mut Queue,
        root: RegexId,
        from: usize,
    ) -> Result<Explored, AllocError>
        requires graph { IsGraph arena.old self.old }
        requires start { IsSearched arena.old root self.old.dead queue.old from }
        requires within { from ≤ length queue.old }
        ensures found { IfOk result (λ explored. IsFinding (language (regex_at arena.old root)) explored) }
        ensures dead { IfOk result (λ explored. MarksDead self.new.dead root explored) }
        ensures extends { Extends arena.old arena.new }
        ensures graph { IsGraph arena.new self.new }
        ensures marks_stay { KeepsMarks self.old.dead self.new.dead }
        ensures derivatives_stay { KeepsEntries self.old.memo self.new.memo }
        ensures expands { (before : List ℕ)
            → HasCome arena.old root self.old.dead queue.old from before self.old.expanded
            → GoesOn (IsReachedBy arena.new (regex_at arena.old root) (λ v. ComesBefore v result)) before
            self.new.expanded }
        ensures idle { self.new.expanded ≡ self.old.expanded → self.new.memo ≡ self.old.memo }
        ensures settles { OnOk result (is_settled self.new root ≡ true) }
    {
        nullable_has_empty_word();
        derivative_along_has_rests();
        let alloc = self.allocator();
        match self.search(arena, queue, root, from)? {
            Some(place) => {
                let word = word_of(alloc, queue, place)?;
                self.keep(alloc, root, &word)?;
                Ok(Explored::Alive(word))
            }
            None => {
                self.bury(arena.len(), queue)?;
                Ok(Explored::Dead)
            }
        }
    }

    /// Goes on through the queue from a place, up to a turn that meets a regex with the empty word.
    fn search(
        &mut self,
        arena: &mut Arena,
        queue: &mut Queue,
        root: RegexId,
        from: usize,
    ) -> Result<Option<usize>, AllocError>
        requires graph { IsGraph arena.old self.old }
        requires start { IsSearched arena.old root self.old.dead queue.old from }
        requires within { from ≤ length queue.old }
        ensures end { IfOk result (λ end. (before : List ℕ)
            → HasCome arena.old root self.old.dead queue.old from before self.old.expanded
            → IsSearchEnd arena.new root self.new.dead queue.new before self.new.expanded end) }
        ensures expands { (before : List ℕ)
            → HasCome arena.old root self.old.dead queue.old from before self.old.expanded
            → GoesOn (IsReachedBy arena.new (regex_at arena.old root) (λ v. Unit {0})) before self.new.expanded }
        ensures idle { self.new.expanded ≡ self.old.expanded → self.new.memo ≡ self.old.memo }
        ensures extends { Extends arena.old arena.new }
        ensures graph { IsGraph arena.new self.new }
        ensures marks { self.new.dead ≡ self.old.dead }
        ensures derivatives_stay { KeepsEntries self.old.memo self.new.memo }
    {
        let mut place = from;
        let mut tested = from;
        while place < queue.len() {
            if let Some(found) = first_nullable(arena, queue.regexes(), tested) {
                return Ok(Some(found));
            }
            tested = queue.len();
            self.expand(arena, queue, place)?;
            place += 1;
        }
        Ok(None)
    }

    /// Puts the derivatives of the regex at a place into the queue.
    fn expand(
        &mut self,
        arena: &mut Arena,
        queue: &mut Queue,
        place: usize,
    ) -> Result<(), AllocError>
        requires graph { IsGraph arena.old self.old }
        requires place { place < length queue.old }
        requires known { regex_of queue.old place < length arena.old }
        ensures visited { OnOk result
            (IsVisited arena.new (regex_at arena.old (regex_of queue.old place)) self.old.dead place queue.old
            queue.new) }
        ensures expands { GoesOn (λ n. n ≡ regex_of queue.old place) self.old.expanded self.new.expanded }
        ensures idle { self.new.expanded ≡ self.old.expanded → self.new.memo ≡ self.old.memo }
        ensures extends { Extends arena.old arena.new }
        ensures graph { IsGraph arena.new self.new }
        ensures marks { self.new.dead ≡ self.old.dead }
        ensures derivatives_stay { KeepsEntries self.old.memo self.new.memo }
    {
        let (regex, _) = queue.at(place);
        self.derive(arena, regex)?;
        let derivative = self.deriver.derivative(regex).unwrap();
        visit(queue, &self.dead, derivative.pieces(), place)
    }

    /// Makes the derivative of a regex known. Where it was not, the regex counts as expanded. Linear in the pieces of
    /// the derivatives that were not known of the regex and its parts.
    pub fn derive(&mut self, arena: &mut Arena, regex: RegexId) -> Result<(), AllocError>
        requires graph { IsGraph arena.old self.old }
        requires known { regex < length arena.old }
        ensures done { OnOk result (IsSome (entry_of self.new.memo regex)) }
        ensures expands { GoesOn (λ n. n ≡ regex) self.old.expanded self.new.expanded }
        ensures idle { self.new.expanded ≡ self.old.expanded → self.new.memo ≡ self.old.memo }
        ensures extends { Extends arena.old arena.new }
        ensures graph { IsGraph arena.new self.new }
        ensures marks { self.new.dead ≡ self.old.dead }
        ensures derivatives_stay { KeepsEntries self.old.memo self.new.memo }
    {
        if self.deriver.derivative(regex).is_some() {
            return Ok(());
        }
        self.expanded.push(regex)?;
        self.deriver.derive(arena, regex)
    }

    /// Keeps the word of a regex.
    fn keep(&mut self, alloc: Global, root: RegexId, word: &Word) -> Result<(), AllocError>
        ensures kept { OnOk result (is_settled self.new root ≡ true) }
        ensures graph { (regexes : List Regex) → root < length regexes
            → IsShortestLeast (language (regex_at regexes root)) word.now → IsGraph regexes self.old
            → IsGraph regexes self.new }
        ensures rest { (self.new.memo ≡ self.old.memo) × (self.new.dead ≡ self.old.dead)
            × (self.new.expanded ≡ self.old.expanded) }
    {
        let copy = word_from(alloc, word.codes())?;
        self.answers.insert(root, copy)?;
        Ok(())
    }

    /// Marks the regexes of the queue, whose numbers are below the length.
    fn bury(&mut self, len: usize, queue: &Queue) -> Result<(), AllocError>
        requires known { (k : ℕ) → k < length queue.now → regex_of queue.now k < len }
        requires marks { (n : ℕ) → is_marked self.old.dead n ≡ true → n < len }
        ensures marks { OnOk result (AreMarked self.old.dead queue.now self.new.dead) }
        ensures unchanged { OnErr result (self.new.dead ≡ self.old.dead) }
        ensures memo { self.new.memo ≡ self.old.memo }
        ensures answers { self.new.answers ≡ self.old.answers }
        ensures expanded { self.new.expanded ≡ self.old.expanded }
    {
        self.dead.resize(len, false)?;
        mark(&mut self.dead, queue.regexes());
        Ok(())
    }
}

/// Whether an exploration that stands at a place has to go on: no regex from there on has the empty word.
fn is_open(arena: &Arena, queue: &Queue, place: usize) -> bool
    requires { (k : ℕ) → k < length queue.now → regex_of queue.now k < length arena.now }
{
    place < queue.len() && first_nullable(arena, queue.regexes(), place).is_none()
}

fn comes_to_end(outcome: &Outcome) -> bool {
    match outcome {
        Outcome::Found(_) | Outcome::Empty => true,
        Outcome::Bounded => false,
    }
}
