//! States in the order in which they were met.

ghost use Rattle.std.specs.Prelude.{◌≡◌, ◌<◌, ◌∷◌, [], length, map, slice_get, Some, IfOk, OnOk};
ghost use Rattle.sb_graph.specs.Queue.{way_of, is_same_way, with_entry, with_each, IsRun};

use indexmap::IndexMap;
use sb_regex::RegexId;
use std::alloc::{AllocError, Global};
use std::marker::Model;

/// States, each once, and for each its way: a place before it, and the character taken there.
///
/// Of the places that one word leads to, the first one stands in the ways of the states behind them.
#[derive(Drop)]
pub(crate) struct Queue {
    entries: IndexMap<RegexId, (usize, u32)>,
}

impl Model for Queue {
    ghost use Rattle.std.specs.Prelude.{ℕ, List};

    ghost Value = { List (ℕ × (ℕ × ℕ)) };

    ghost view = { λ queue. queue.entries.entries };
}

impl Queue {
    /// A queue with no state. Takes no memory.
    pub(crate) fn new(alloc: Global) -> Queue
        ensures { result ≡ [] }
    {
        Queue {
            entries: IndexMap::new(alloc),
        }
    }

    /// A queue of one state.
    pub(crate) fn of(alloc: Global, regex: RegexId) -> Result<Queue, AllocError>
        ensures { IfOk result (λ queue. queue ≡ with_entry [] (regex, (0, 0))) }
    {
        let mut queue = Queue::new(alloc);
        queue.put(regex, 0, 0)?;
        Ok(queue)
    }

    /// The number of states. Constant time.
    pub(crate) fn len(&self) -> usize
        ensures { result ≡ length self.now }
    {
        self.entries.len()
    }

    /// The state at a place, and its way. Constant time.
    pub(crate) fn at(&self, place: usize) -> (RegexId, (usize, u32))
        requires { place < length self.now }
        ensures { slice_get self.now place ≡ Some result }
    {
        let (regex, way) = self.entries.get_index(place).unwrap();
        (*regex, *way)
    }

    /// The states, in order. Takes no memory.
    pub(crate) fn regexes(&self) -> &[RegexId]
        ensures { result.now ≡ map (λ e. e.0) self.now }
    {
        self.entries.keys().as_slice()
    }

    /// Puts a state at the end, unless it is there. Constant time.
    pub(crate) fn put(
        &mut self,
        regex: RegexId,
        before: usize,
        character: u32,
    ) -> Result<(), AllocError>
        ensures { OnOk result (self.new ≡ with_entry self.old (regex, (before, character))) }
    {
        if !self.entries.contains_key(&regex) {
            self.entries.insert(regex, (before, character))?;
        }
        Ok(())
    }

    /// Puts states at the end, those that are not there.
    pub(crate) fn put_each(
        &mut self,
        regexes: &[RegexId],
        before: usize,
        character: u32,
    ) -> Result<(), AllocError>
        ensures { OnOk result (self.new ≡ with_each (before, character) self.old regexes.now) }
    {
        for regex in regexes {
            self.put(*regex, before, character)?;
        }
        Ok(())
    }

    /// Whether two places have one way.
    fn same_way(&self, place: usize, other: usize) -> bool
        requires first { place < length self.now }
        requires second { other < length self.now }
        ensures { result ≡ is_same_way (way_of self.now place) (way_of self.now other) }
    {
        let (_, (before, character)) = self.at(place);
        let (_, (other_before, other_character)) = self.at(other);
        before == other_before && character == other_character
    }

    /// Up to where the places go that have the way of this one: of the first place it is the place alone.
    pub(crate) fn run_end(&self, place: usize) -> usize
        requires { place < length self.now }
        ensures { IsRun self.now place result }
    {
        if place == 0 {
            return 1;
        }
        let len = self.len();
        let mut end = place + 1;
        while end < len {
            if !self.same_way(end, place) {
                return end;
            }
            end += 1;
        }
        end
    }
}
