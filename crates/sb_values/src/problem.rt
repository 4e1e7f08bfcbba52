//! Problems: memberships of concatenations that are to be made true together.

ghost use Rattle.std.specs.Prelude.{◌<◌, length};
ghost use Rattle.sb_regex.specs.Numbered.{Extends};
ghost use Rattle.sb_graph.specs.Findings.{IsGraph};
ghost use Rattle.sb_values.specs.Explored.{Explores};

use crate::search::Search;
use indexmap::IndexSet;
use sb_graph::Graph;
use sb_regex::{Arena, RegexId};
use sb_term::Serial;
use sb_word::Word;
use std::alloc::{AllocError, Global};

/// A part of a concatenation.
#[derive(Clone, Copy)]
pub(crate) enum Part {
    /// The constant at this place among those of the problem.
    Constant(usize),
    /// The characters of the problem from this place up to that one.
    Word(usize, usize),
}

/// That the parts from a place up to another one are in the language of a regex.
#[derive(Clone, Copy)]
pub(crate) struct Goal {
    pub(crate) first: usize,
    pub(crate) end: usize,
    pub(crate) regex: RegexId,
}

/// Memberships of concatenations.
#[derive(Drop)]
pub struct Problem {
    alloc: Global,
    constants: IndexSet<Serial>,
    codes: Vec<u32>,
    parts: Vec<Part>,
    goals: Vec<Goal>,
}

/// What a search for values comes to.
#[derive(Drop)]
pub enum Values {
    /// Words of all constants, which make the goals true.
    Found(Vec<(Serial, Word)>),
    /// The search was complete, and there are none.
    None,
    /// The fuel ended.
    OutOfFuel,
}

impl Problem {
    /// A problem with no goal. Takes no memory.
    pub fn new(alloc: Global) -> Problem {
        Problem {
            alloc,
            constants: IndexSet::new(alloc),
            codes: Vec::new(alloc),
            parts: Vec::new(alloc),
            goals: Vec::new(alloc),
        }
    }

    /// Puts a constant behind the other parts of the next goal.
    pub fn put_constant(&mut self, serial: Serial) -> Result<(), AllocError> {
        let (constant, _) = self.constants.insert_full(serial)?;
        self.parts.push(Part::Constant(constant))?;
        Ok(())
    }

    /// Puts a character behind the other parts of the next goal.
    pub fn put_character(&mut self, code: u32) -> Result<(), AllocError> {
        let begin = self.word_begin();
        self.codes.push(code)?;
        self.parts.push(Part::Word(begin, self.codes.len()))?;
        Ok(())
    }

    /// Where the word begins that the next goal ends in, which is taken from the parts; the end of the characters where
    /// it does not end in a word.
    fn word_begin(&mut self) -> usize {
        let end = self.codes.len();
        if self.parts.len() <= self.next_goal() {
            return end;
        }
        let Some(Part::Word(begin, _)) = self.parts.last().copied() else {
            return end;
        };
        self.parts.pop();
        begin
    }

    /// Where the parts of the next goal begin.
    fn next_goal(&self) -> usize {
        match self.goals.last() {
            Some(goal) => goal.end,
            None => 0,
        }
    }

    /// Puts a goal: that the concatenation of the parts that were put since the last one is in the language of the
    /// regex, or is not.
    pub fn put_goal(
        &mut self,
        arena: &mut Arena,
        regex: RegexId,
        positive: bool,
    ) -> Result<(), AllocError>
        requires known { regex < length arena.old }
        ensures extends { Extends arena.old arena.new }
    {
        let asked = if positive { regex } else { arena.not(regex)? };
        let first = self.next_goal();
        let end = self.parts.len();
        self.goals.push(Goal {
            first,
            end,
            regex: asked,
        })?;
        Ok(())
    }

    /// Words of the constants that make all goals true, as the search meets them: shorter ones first. `None` where the
    /// search was complete. It takes at most about so many states as the fuel, and each the time of one derivative of
    /// two regexes. `AllocError` only for want of memory.
    pub fn values(
        &self,
        arena: &mut Arena,
        graph: &mut Graph,
        fuel: u64,
    ) -> Result<Values, AllocError>
        requires { IsGraph arena.old graph.old }
        ensures { Explores arena.old arena.new graph.old graph.new }
    {
        let mut search = Search::new(self.alloc, fuel);
        search.solve(arena, graph, self)
    }

    /// The goals.
    pub(crate) fn goals(&self) -> &[Goal] {
        self.goals.as_slice()
    }

    /// The number of constants.
    pub(crate) fn count(&self) -> usize {
        self.constants.len()
    }

    /// The constant at a place.
    pub(crate) fn constant(&self, place: usize) -> Option<Serial> {
        self.constants.get_index(place).copied()
    }

    /// The part at a place.
    pub(crate) fn part(&self, place: usize) -> Option<Part> {
        self.parts.get(place).copied()
    }

    /// The characters from one place up to another.
    pub(crate) fn word(&self, begin: usize, end: usize) -> &[u32] {
        match self.codes.get(begin..end) {
            Some(codes) => codes,
            None => &[],
        }
    }
}
