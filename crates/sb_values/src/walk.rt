//! Walks of what is left of a goal, and the live seams of its constants.

ghost use Rattle.sb_graph.specs.Findings.{IsGraph};
ghost use Rattle.sb_values.specs.Explored.{Explores};

use crate::look::{Pair, along, is_nullable, put_pairs, spend};
use crate::problem::{Part, Problem};
use indexmap::IndexSet;
use sb_graph::Graph;
use sb_regex::{Arena, RegexId};
use std::alloc::{AllocError, Global};

/// A state: the place of a part, the goal's regex there, and what is left of the regex of the part's constant.
pub(crate) type State = (usize, RegexId, RegexId);

/// No edge.
const NO_EDGE: usize = usize::MAX;

/// The states behind a place of a goal, with those from which the goal can be reached.
#[derive(Drop)]
pub(crate) struct Walk {
    alloc: Global,
    goal: usize,
    first: usize,
    end: usize,
    /// By part, from the first place on, what its constant was asked for.
    owns: Vec<RegexId>,
    states: IndexSet<State>,
    /// By state that was expanded, the number of edges in front of its own.
    starts: Vec<usize>,
    /// The edges: from which state, and to which one.
    edges: Vec<(usize, usize)>,
    /// The states at the end whose regex has the empty word.
    accepting: Vec<usize>,
    /// By state, whether one of these is reached.
    live: Vec<bool>,
}

/// What a constant is asked for, by its place; 0 where there is no such place.
pub(crate) fn own_at(own: &[RegexId], place: usize) -> RegexId {
    own.get(place).copied().unwrap_or_default()
}

/// What the constant of a part is asked for; 0 where it is none.
pub(crate) fn own_of(problem: &Problem, own: &[RegexId], place: usize) -> RegexId {
    match problem.part(place) {
        Some(Part::Constant(constant)) => own_at(own, constant),
        _ => RegexId::default(),
    }
}

#[tactic(auto, using(crate::proofs::Exploring::explores_both, crate::proofs::Exploring::explores_none))]
impl Walk {
    /// With no state: of a goal, from a place up to its end. Takes no memory.
    pub(crate) fn new(alloc: Global, goal: usize, first: usize, end: usize) -> Walk {
        Walk {
            alloc,
            goal,
            first,
            end,
            owns: Vec::new(alloc),
            states: IndexSet::new(alloc),
            starts: Vec::new(alloc),
            edges: Vec::new(alloc),
            accepting: Vec::new(alloc),
            live: Vec::new(alloc),
        }
    }

    /// Walks from the first place with the regex that is left there. Whether the fuel sufficed.
    pub(crate) fn fill(
        &mut self,
        arena: &mut Arena,
        graph: &mut Graph,
        problem: &Problem,
        regex: RegexId,
        fuel: &mut u64,
    ) -> Result<bool, AllocError>
        requires { IsGraph arena.old graph.old }
        ensures { Explores arena.old arena.new graph.old graph.new }
    {
        let first = self.first;
        let _start = self.enter(first, regex)?;
        if !self.go(arena, graph, problem, fuel)? {
            return Ok(false);
        }
        self.go_back()?;
        Ok(true)
    }

    /// Keeps what the constants of the parts are asked for.
    pub(crate) fn put_owns(
        &mut self,
        problem: &Problem,
        own: &[RegexId],
    ) -> Result<(), AllocError> {
        for place in self.first..self.end {
            self.owns.push(own_of(problem, own, place))?;
        }
        Ok(())
    }

    /// What the constant of the part at a place was asked for.
    fn own_there(&self, place: usize) -> RegexId {
        own_at(&self.owns, place.saturating_sub(self.first))
    }

    /// The number of the state in which a part begins, a new one where it has none.
    fn enter(&mut self, place: usize, regex: RegexId) -> Result<usize, AllocError> {
        let own = self.own_there(place);
        let (number, _) = self.states.insert_full((place, regex, own))?;
        Ok(number)
    }

    /// Expands state by state. Whether the fuel sufficed.
    fn go(
        &mut self,
        arena: &mut Arena,
        graph: &mut Graph,
        problem: &Problem,
        fuel: &mut u64,
    ) -> Result<bool, AllocError>
        requires { IsGraph arena.old graph.old }
        ensures { Explores arena.old arena.new graph.old graph.new }
    {
        let mut pairs = Vec::new(self.alloc);
        for number in 0..*fuel as usize {
            if *fuel == 0 {
                return Ok(false);
            }
            let Some(state) = self.states.get_index(number).copied() else {
                return Ok(true);
            };
            spend(fuel, 1);
            self.starts.push(self.edges.len())?;
            self.expand(arena, graph, problem, number, state, &mut pairs, fuel)?;
        }
        Ok(false)
    }

    /// Puts the edges of a state.
    fn expand(
        &mut self,
        arena: &mut Arena,
        graph: &mut Graph,
        problem: &Problem,
        number: usize,
        state: State,
        pairs: &mut Vec<Pair>,
        fuel: &mut u64,
    ) -> Result<(), AllocError>
        requires { IsGraph arena.old graph.old }
        ensures { Explores arena.old arena.new graph.old graph.new }
    {
        let (place, regex, _) = state;
        if place >= self.end {
            return self.accept(arena, number, regex);
        }
        match problem.part(place) {
            Some(Part::Word(begin, end)) => {
                let codes = problem.word(begin, end);
                spend(fuel, codes.len());
                self.step_over(arena, graph, number, state, codes)
            }
            Some(Part::Constant(_)) => self.step(arena, graph, number, state, pairs),
            None => Ok(()),
        }
    }

    /// Counts a state at the end as accepting, if it is.
    fn accept(&mut self, arena: &Arena, number: usize, regex: RegexId) -> Result<(), AllocError> {
        if is_nullable(arena, regex) {
            self.accepting.push(number)?;
        }
        Ok(())
    }

    /// Puts the edge of a state in front of a word.
    fn step_over(
        &mut self,
        arena: &mut Arena,
        graph: &mut Graph,
        number: usize,
        state: State,
        codes: &[u32],
    ) -> Result<(), AllocError>
        requires { IsGraph arena.old graph.old }
        ensures { Explores arena.old arena.new graph.old graph.new }
    {
        let (place, regex, _) = state;
        match along(arena, graph, regex, codes)? {
            Some(target) => self.put_entry(number, place, target),
            None => Ok(()),
        }
    }

    /// Puts the edges of a state inside a constant.
    fn step(
        &mut self,
        arena: &mut Arena,
        graph: &mut Graph,
        number: usize,
        state: State,
        pairs: &mut Vec<Pair>,
    ) -> Result<(), AllocError>
        requires { IsGraph arena.old graph.old }
        ensures { Explores arena.old arena.new graph.old graph.new }
    {
        let (place, regex, own) = state;
        if is_nullable(arena, own) {
            self.put_entry(number, place, regex)?;
        }
        put_pairs(arena, graph, regex, own, pairs)?;
        self.put_edges(number, place, pairs)
    }

    /// Puts the edge to where the part behind a place begins.
    fn put_entry(&mut self, number: usize, place: usize, regex: RegexId) -> Result<(), AllocError> {
        let target = self.enter(place.saturating_add(1), regex)?;
        self.edges.push((number, target))?;
        Ok(())
    }

    /// Puts an edge for each pair.
    fn put_edges(&mut self, number: usize, place: usize, pairs: &[Pair]) -> Result<(), AllocError> {
        for pair in pairs {
            self.put_edge(number, (place, pair.1, pair.2))?;
        }
        Ok(())
    }

    /// Puts an edge.
    fn put_edge(&mut self, number: usize, state: State) -> Result<(), AllocError> {
        let (target, _) = self.states.insert_full(state)?;
        self.edges.push((number, target))?;
        Ok(())
    }

    /// Finds which states are live, from those that accept back.
    fn go_back(&mut self) -> Result<(), AllocError> {
        let mut latest = vec![in self.alloc; NO_EDGE; self.states.len()]?;
        let before = self.links(&mut latest)?;
        self.live = vec![in self.alloc; false; self.states.len()]?;
        let mut waiting = Vec::new(self.alloc);
        for number in self.accepting.as_slice() {
            wake(&mut self.live, &mut waiting, *number)?;
        }
        for _turn in 0..self.states.len() {
            let Some(number) = waiting.pop() else {
                return Ok(());
            };
            self.wake_sources(&before, latest_at(&latest, number), &mut waiting)?;
        }
        Ok(())
    }

    /// By edge the one before it that leads to the same state. In the list is by state the latest edge that leads
    /// there.
    fn links(&self, latest: &mut [usize]) -> Result<Vec<usize>, AllocError> {
        let mut before = Vec::new(self.alloc);
        for edge in self.edges.as_slice() {
            let number = before.len();
            before.push(latest_at(latest, edge.1))?;
            put_latest(latest, edge.1, number);
        }
        Ok(before)
    }

    /// Wakes the states from which an edge, and those linked from it, lead.
    fn wake_sources(
        &mut self,
        before: &[usize],
        from: usize,
        waiting: &mut Vec<usize>,
    ) -> Result<(), AllocError> {
        let mut edge = from;
        for _turn in 0..before.len() {
            let Some((source, _)) = self.edges.get(edge).copied() else {
                return Ok(());
            };
            wake(&mut self.live, waiting, source)?;
            edge = latest_at(before, edge);
        }
        Ok(())
    }

    /// Whether the walk is of the goal, and what the constants from a place on are asked for is what it was.
    pub(crate) fn serves(
        &self,
        problem: &Problem,
        own: &[RegexId],
        goal: usize,
        from: usize,
    ) -> bool {
        if self.goal != goal || from < self.first {
            return false;
        }
        for place in from..self.end {
            if self.own_there(place) != own_of(problem, own, place) {
                return false;
            }
        }
        true
    }

    /// Puts behind others the live seams of the constant at a place where a regex is left, in the order of their
    /// shortest words. Linear in the states of the constant that are reached from there, and their edges.
    pub(crate) fn put_seams(
        &self,
        place: usize,
        regex: RegexId,
        seams: &mut Vec<RegexId>,
    ) -> Result<(), AllocError> {
        let state = (place, regex, self.own_there(place));
        let Some(start) = self.states.get_index_of(&state) else {
            return Ok(());
        };
        let mut queue = IndexSet::new(self.alloc);
        queue.insert(start)?;
        for turn in 0..self.states.len() {
            let Some(number) = queue.get_index(turn).copied() else {
                return Ok(());
            };
            self.visit(place, number, &mut queue, seams)?;
        }
        Ok(())
    }

    /// Puts the live states behind one of the place into the queue; of another place, its regex among the seams.
    fn visit(
        &self,
        place: usize,
        number: usize,
        queue: &mut IndexSet<usize>,
        seams: &mut Vec<RegexId>,
    ) -> Result<(), AllocError> {
        let Some((there, regex, _)) = self.states.get_index(number).copied() else {
            return Ok(());
        };
        if there != place {
            seams.push(regex)?;
            return Ok(());
        }
        for edge in self.edges_of(number) {
            self.put_live(edge.1, queue)?;
        }
        Ok(())
    }

    /// The edges of a state.
    fn edges_of(&self, number: usize) -> &[(usize, usize)] {
        let begin = latest_at(&self.starts, number);
        let end = match self.starts.get(number.saturating_add(1)) {
            Some(end) => *end,
            None => self.edges.len(),
        };
        match self.edges.get(begin..end) {
            Some(edges) => edges,
            None => &[],
        }
    }

    /// Puts a state into the queue, if it is live.
    fn put_live(&self, number: usize, queue: &mut IndexSet<usize>) -> Result<(), AllocError> {
        if is_awake(&self.live, number) {
            queue.insert(number)?;
        }
        Ok(())
    }
}

/// Whether a state is known to be live.
fn is_awake(live: &[bool], number: usize) -> bool {
    live.get(number).copied().unwrap_or(false)
}

/// Makes a state live and lets it wait, unless it is.
fn wake(live: &mut [bool], waiting: &mut Vec<usize>, number: usize) -> Result<(), AllocError> {
    if is_awake(live, number) {
        return Ok(());
    }
    if let Some(place) = live.get_mut(number) {
        *place = true;
    }
    waiting.push(number)?;
    Ok(())
}

/// The number at a place, or that of no edge.
fn latest_at(latest: &[usize], place: usize) -> usize {
    latest.get(place).copied().unwrap_or(NO_EDGE)
}

/// Puts a number at a place, if there is one.
fn put_latest(latest: &mut [usize], place: usize, edge: usize) {
    if let Some(there) = latest.get_mut(place) {
        *there = edge;
    }
}
