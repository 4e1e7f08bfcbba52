//! The search over seams.

ghost use Rattle.sb_graph.specs.Findings.{IsGraph};
ghost use Rattle.sb_values.specs.Explored.{Explores};

use crate::groups::{end_of_group, groups};
use crate::look::{Looked, along, every_word, explore, is_nullable, look, meet, path, spend};
use crate::problem::{Goal, Part, Problem, Values};
use crate::walk::{Walk, own_at, own_of};
use indexmap::IndexSet;
use sb_graph::{Explored, Graph, Within};
use sb_regex::{Arena, RegexId};
use sb_term::Serial;
use sb_word::Word;
use std::alloc::{AllocError, Global};

/// No walk, no goal, or a number of seams that is not known.
const UNKNOWN: usize = usize::MAX;

/// What is left of a goal.
#[derive(Clone, Copy)]
struct Item {
    /// The place of the next part; the end where nothing is left.
    place: usize,
    end: usize,
    /// The regex that is left there.
    regex: RegexId,
    /// The latest walk of the goal.
    walk: usize,
    /// How many live seams the next constant has, as long as the walk serves.
    count: usize,
}

/// A choice: of a seam of the next constant of a goal.
#[derive(Clone, Copy)]
struct Frame {
    goal: usize,
    /// Where its seams begin in the list, and which is tried next.
    first: usize,
    next: usize,
    /// How many changes and walks there were before.
    owns: usize,
    lefts: usize,
    walks: usize,
}

/// What a step of the search comes to.
#[derive(Clone, Copy)]
enum Step {
    /// It goes on.
    On,
    /// No goal is left.
    Done,
    /// There are no values.
    Fails,
    /// The fuel ended.
    OutOfFuel,
}

impl Step {
    /// Whether there are no values, or the fuel ended.
    fn stops(&self) -> bool {
        matches!(self, Step::Fails | Step::OutOfFuel)
    }

    /// Whether it does not go on.
    fn is_over(&self) -> bool {
        !matches!(self, Step::On)
    }

    /// Whether no goal is left, or the fuel ended.
    fn ends(&self) -> bool {
        matches!(self, Step::Done | Step::OutOfFuel)
    }
}

/// A search, with the state that the choices made so far have led to.
#[derive(Drop)]
pub(crate) struct Search {
    alloc: Global,
    fuel: u64,
    /// By constant, the intersection of what its word is asked for.
    own: Vec<RegexId>,
    /// By goal, what is left of it.
    items: Vec<Item>,
    walks: Vec<Walk>,
    /// What constants were asked for, and what was left of goals, in front of each change.
    owns: Vec<(usize, RegexId)>,
    lefts: Vec<(usize, Item)>,
    frames: Vec<Frame>,
    /// The seams of all frames, one behind the other.
    seams: Vec<RegexId>,
    /// What was found to fail.
    failed: IndexSet<Vec<usize>>,
}

#[tactic(auto, using(crate::proofs::Exploring::explores_both, crate::proofs::Exploring::explores_none))]
impl Search {
    /// With so much fuel. Takes no memory.
    pub(crate) fn new(alloc: Global, fuel: u64) -> Search {
        Search {
            alloc,
            fuel,
            own: Vec::new(alloc),
            items: Vec::new(alloc),
            walks: Vec::new(alloc),
            owns: Vec::new(alloc),
            lefts: Vec::new(alloc),
            frames: Vec::new(alloc),
            seams: Vec::new(alloc),
            failed: IndexSet::new(alloc),
        }
    }

    /// Values of a problem.
    pub(crate) fn solve(
        &mut self,
        arena: &mut Arena,
        graph: &mut Graph,
        problem: &Problem,
    ) -> Result<Values, AllocError>
        requires { IsGraph arena.old graph.old }
        ensures { Explores arena.old arena.new graph.old graph.new }
    {
        match self.search(arena, graph, problem)? {
            Step::Fails => Ok(Values::None),
            Step::OutOfFuel => Ok(Values::OutOfFuel),
            Step::On => self.words(arena, graph, problem),
            Step::Done => self.words(arena, graph, problem),
        }
    }

    /// Chooses seams until no goal is left.
    fn search(
        &mut self,
        arena: &mut Arena,
        graph: &mut Graph,
        problem: &Problem,
    ) -> Result<Step, AllocError>
        requires { IsGraph arena.old graph.old }
        ensures { Explores arena.old arena.new graph.old graph.new }
    {
        self.begin(arena, graph, problem)?;
        let step = self.settle_all(arena, graph, problem)?;
        if step.stops() {
            return Ok(step);
        }
        self.search_groups(arena, graph, problem)
    }

    /// Begins: each constant is asked for what the goals of it alone say, and of the others all is left.
    fn begin(
        &mut self,
        arena: &mut Arena,
        graph: &Graph,
        problem: &Problem,
    ) -> Result<(), AllocError>
        requires { IsGraph arena.old graph.now }
        ensures { Explores arena.old arena.new graph.now graph.now }
    {
        let every = every_word(arena, graph)?;
        for _constant in 0..problem.count() {
            self.own.push(every)?;
        }
        for goal in problem.goals() {
            self.begin_goal(arena, graph, problem, *goal)?;
        }
        Ok(())
    }

    /// Begins a goal.
    fn begin_goal(
        &mut self,
        arena: &mut Arena,
        graph: &Graph,
        problem: &Problem,
        goal: Goal,
    ) -> Result<(), AllocError>
        requires { IsGraph arena.old graph.now }
        ensures { Explores arena.old arena.new graph.now graph.now }
    {
        let first = goal.first;
        let end = goal.end;
        let regex = goal.regex;
        let Some(constant) = last_constant(problem, first, end) else {
            self.items.push(begun(first, end, regex))?;
            return Ok(());
        };
        let own = own_at(&self.own, constant);
        let met = meet(arena, graph, own, regex)?;
        put_own(&mut self.own, constant, met);
        self.items.push(begun(end, end, regex))?;
        Ok(())
    }

    /// Tests that each constant has a word so far, and goes over the words that goals begin with.
    fn settle_all(
        &mut self,
        arena: &mut Arena,
        graph: &mut Graph,
        problem: &Problem,
    ) -> Result<Step, AllocError>
        requires { IsGraph arena.old graph.old }
        ensures { Explores arena.old arena.new graph.old graph.new }
    {
        for constant in 0..problem.count() {
            let step = self.look(arena, graph, constant)?;
            if step.stops() {
                return Ok(step);
            }
        }
        self.settle_each(arena, graph, problem)
    }

    /// Goes over the words that goals begin with.
    fn settle_each(
        &mut self,
        arena: &mut Arena,
        graph: &mut Graph,
        problem: &Problem,
    ) -> Result<Step, AllocError>
        requires { IsGraph arena.old graph.old }
        ensures { Explores arena.old arena.new graph.old graph.new }
    {
        for goal in 0..self.items.len() {
            let step = self.settle(arena, graph, problem, goal)?;
            if step.stops() {
                return Ok(step);
            }
        }
        Ok(Step::On)
    }

    /// Searches one group of goals after the other: those of different groups share no constant.
    fn search_groups(
        &mut self,
        arena: &mut Arena,
        graph: &mut Graph,
        problem: &Problem,
    ) -> Result<Step, AllocError>
        requires { IsGraph arena.old graph.old }
        ensures { Explores arena.old arena.new graph.old graph.new }
    {
        let grouped = groups(self.alloc, problem)?;
        let mut begin = 0;
        while begin < grouped.len() {
            let end = end_of_group(&grouped, begin);
            let step = self.search_group(arena, graph, problem, &grouped[begin..end])?;
            if step.stops() {
                return Ok(step);
            }
            begin = end;
        }
        Ok(Step::Done)
    }

    /// Searches a group of goals, with no choice that is open. Its choices stay.
    fn search_group(
        &mut self,
        arena: &mut Arena,
        graph: &mut Graph,
        problem: &Problem,
        group: &[(usize, usize)],
    ) -> Result<Step, AllocError>
        requires { IsGraph arena.old graph.old }
        ensures { Explores arena.old arena.new graph.old graph.new }
    {
        self.owns.clear();
        self.lefts.clear();
        self.frames.clear();
        self.seams.clear();
        self.failed.clear();
        self.walks.clear();
        for _turn in 0..self.fuel {
            if self.fuel == 0 {
                return Ok(Step::OutOfFuel);
            }
            spend(&mut self.fuel, 1);
            let step = self.step(arena, graph, problem, group)?;
            if step.is_over() {
                return Ok(step);
            }
        }
        Ok(Step::OutOfFuel)
    }

    /// Makes a choice, or takes back one that fails.
    fn step(
        &mut self,
        arena: &mut Arena,
        graph: &mut Graph,
        problem: &Problem,
        group: &[(usize, usize)],
    ) -> Result<Step, AllocError>
        requires { IsGraph arena.old graph.old }
        ensures { Explores arena.old arena.new graph.old graph.new }
    {
        let step = self.choose(arena, graph, problem, group)?;
        if step.ends() {
            return Ok(step);
        }
        self.advance(arena, graph, problem, group)
    }

    /// Begins a choice, of the goal that has the fewest live seams. It fails where one has none.
    fn choose(
        &mut self,
        arena: &mut Arena,
        graph: &mut Graph,
        problem: &Problem,
        group: &[(usize, usize)],
    ) -> Result<Step, AllocError>
        requires { IsGraph arena.old graph.old }
        ensures { Explores arena.old arena.new graph.old graph.new }
    {
        if self.has_failed(problem, group)? {
            return Ok(Step::Fails);
        }
        let Some(best) = self.fewest(arena, graph, problem, group)? else {
            return Ok(Step::OutOfFuel);
        };
        if best.0 == UNKNOWN {
            return Ok(Step::Done);
        }
        if best.1 == 0 {
            return Ok(Step::Fails);
        }
        self.open(best.0)
    }

    /// The first goal with the fewest live seams, and how many; one that has at most one is the last that is asked.
    fn fewest(
        &mut self,
        arena: &mut Arena,
        graph: &mut Graph,
        problem: &Problem,
        group: &[(usize, usize)],
    ) -> Result<Option<(usize, usize)>, AllocError>
        requires { IsGraph arena.old graph.old }
        ensures { Explores arena.old arena.new graph.old graph.new }
    {
        let mut best = (UNKNOWN, UNKNOWN);
        for entry in group {
            let goal = entry.1;
            let Some(count) = self.count(arena, graph, problem, goal)? else {
                return Ok(None);
            };
            best = lesser(best, goal, count);
            if best.1 < 2 {
                return Ok(Some(best));
            }
        }
        Ok(Some(best))
    }

    /// How many live seams the next constant of a goal has; more than any number where nothing is left of the goal.
    fn count(
        &mut self,
        arena: &mut Arena,
        graph: &mut Graph,
        problem: &Problem,
        goal: usize,
    ) -> Result<Option<usize>, AllocError>
        requires { IsGraph arena.old graph.old }
        ensures { Explores arena.old arena.new graph.old graph.new }
    {
        let Some(item) = self.open_item(goal) else {
            return Ok(Some(UNKNOWN));
        };
        let place = item.place;
        let end = item.end;
        let regex = item.regex;
        let walk = item.walk;
        let count = item.count;
        if !self.serves(problem, goal, place, walk) {
            return self.count_anew(arena, graph, problem, goal, place, end, regex);
        }
        if count == UNKNOWN {
            return self.count_seams(goal, place, end, regex, walk);
        }
        Ok(Some(count))
    }

    /// Walks what is left of a goal, and counts the live seams.
    fn count_anew(
        &mut self,
        arena: &mut Arena,
        graph: &mut Graph,
        problem: &Problem,
        goal: usize,
        place: usize,
        end: usize,
        regex: RegexId,
    ) -> Result<Option<usize>, AllocError>
        requires { IsGraph arena.old graph.old }
        ensures { Explores arena.old arena.new graph.old graph.new }
    {
        let mut walk = Walk::new(self.alloc, goal, place, end);
        walk.put_owns(problem, &self.own)?;
        if !walk.fill(arena, graph, problem, regex, &mut self.fuel)? {
            return Ok(None);
        }
        let number = self.walks.len();
        self.walks.push(walk)?;
        self.count_seams(goal, place, end, regex, number)
    }

    /// Whether the goal's latest walk serves.
    fn serves(&self, problem: &Problem, goal: usize, place: usize, walk: usize) -> bool {
        match self.walks.get(walk) {
            Some(walk) => walk.serves(problem, &self.own, goal, place),
            None => false,
        }
    }

    /// Counts the live seams of a goal's next constant, by a walk that serves.
    fn count_seams(
        &mut self,
        goal: usize,
        place: usize,
        end: usize,
        regex: RegexId,
        walk: usize,
    ) -> Result<Option<usize>, AllocError> {
        let mut seams = Vec::new(self.alloc);
        put_seams(&self.walks, walk, place, regex, &mut seams)?;
        let count = seams.len();
        spend(&mut self.fuel, count);
        let item = Item {
            place,
            end,
            regex,
            walk,
            count,
        };
        self.put_item(goal, item)?;
        Ok(Some(count))
    }

    /// Begins a choice of a goal's seams.
    fn open(&mut self, goal: usize) -> Result<Step, AllocError> {
        let Some(item) = self.open_item(goal) else {
            return Ok(Step::Fails);
        };
        let first = self.seams.len();
        put_seams(
            &self.walks,
            item.walk,
            item.place,
            item.regex,
            &mut self.seams,
        )?;
        self.frames.push(Frame {
            goal,
            first,
            next: first,
            owns: self.owns.len(),
            lefts: self.lefts.len(),
            walks: self.walks.len(),
        })?;
        Ok(Step::On)
    }

    /// Takes the next seam of the latest choice that has one left, such that it does not fail at once.
    fn advance(
        &mut self,
        arena: &mut Arena,
        graph: &mut Graph,
        problem: &Problem,
        group: &[(usize, usize)],
    ) -> Result<Step, AllocError>
        requires { IsGraph arena.old graph.old }
        ensures { Explores arena.old arena.new graph.old graph.new }
    {
        for _turn in 0..self.fuel {
            if self.fuel == 0 {
                return Ok(Step::OutOfFuel);
            }
            spend(&mut self.fuel, 1);
            match self.try_next(arena, graph, problem, group)? {
                Step::Fails => {}
                step => return Ok(step),
            }
            if self.frames.is_empty() {
                return Ok(Step::Fails);
            }
        }
        Ok(Step::OutOfFuel)
    }

    /// Tries the next seam of the latest choice, which fails where none is left.
    fn try_next(
        &mut self,
        arena: &mut Arena,
        graph: &mut Graph,
        problem: &Problem,
        group: &[(usize, usize)],
    ) -> Result<Step, AllocError>
        requires { IsGraph arena.old graph.old }
        ensures { Explores arena.old arena.new graph.old graph.new }
    {
        let Some(frame) = self.frames.pop() else {
            return Ok(Step::Fails);
        };
        self.undo(frame.owns, frame.lefts);
        self.walks.truncate(frame.walks);
        let Some(seam) = self.seams.get(frame.next).copied() else {
            self.seams.truncate(frame.first);
            self.fail(problem, group)?;
            return Ok(Step::Fails);
        };
        let goal = frame.goal;
        self.frames.push(next_of(frame))?;
        self.take(arena, graph, problem, goal, seam)
    }

    /// Takes a seam of the next constant of a goal.
    fn take(
        &mut self,
        arena: &mut Arena,
        graph: &mut Graph,
        problem: &Problem,
        goal: usize,
        seam: RegexId,
    ) -> Result<Step, AllocError>
        requires { IsGraph arena.old graph.old }
        ensures { Explores arena.old arena.new graph.old graph.new }
    {
        let Some(item) = self.open_item(goal) else {
            return Ok(Step::Fails);
        };
        let place = item.place;
        let end = item.end;
        let regex = item.regex;
        let walk = item.walk;
        let Some(Part::Constant(constant)) = problem.part(place) else {
            return Ok(Step::Fails);
        };
        self.ask_path(arena, graph, constant, regex, seam)?;
        self.put_left(goal, place.saturating_add(1), end, seam, walk)?;
        self.settle(arena, graph, problem, goal)
    }

    /// Asks a constant's word to be on a path.
    fn ask_path(
        &mut self,
        arena: &mut Arena,
        graph: &Graph,
        constant: usize,
        from: RegexId,
        to: RegexId,
    ) -> Result<(), AllocError>
        requires { IsGraph arena.old graph.now }
        ensures { Explores arena.old arena.new graph.now graph.now }
    {
        let on = path(arena, graph, from, to)?;
        self.ask(arena, graph, constant, on)
    }

    /// Asks a constant's word to be in a regex, too.
    fn ask(
        &mut self,
        arena: &mut Arena,
        graph: &Graph,
        constant: usize,
        regex: RegexId,
    ) -> Result<(), AllocError>
        requires { IsGraph arena.old graph.now }
        ensures { Explores arena.old arena.new graph.now graph.now }
    {
        let own = own_at(&self.own, constant);
        let met = meet(arena, graph, own, regex)?;
        self.owns.push((constant, own))?;
        put_own(&mut self.own, constant, met);
        Ok(())
    }

    /// Goes over the words that what is left of a goal begins with. Its last constant is asked to be in what is left,
    /// and has to have a word.
    fn settle(
        &mut self,
        arena: &mut Arena,
        graph: &mut Graph,
        problem: &Problem,
        goal: usize,
    ) -> Result<Step, AllocError>
        requires { IsGraph arena.old graph.old }
        ensures { Explores arena.old arena.new graph.old graph.new }
    {
        let Some(item) = self.open_item(goal) else {
            return self.test_end(arena, problem, goal);
        };
        if let Some(Part::Word(begin, end)) = problem.part(item.place) {
            return self.go_over(arena, graph, problem, goal, begin, end);
        }
        self.settle_last(arena, graph, problem, goal)
    }

    /// Goes over the characters of the next part.
    fn go_over(
        &mut self,
        arena: &mut Arena,
        graph: &mut Graph,
        problem: &Problem,
        goal: usize,
        begin: usize,
        last: usize,
    ) -> Result<Step, AllocError>
        requires { IsGraph arena.old graph.old }
        ensures { Explores arena.old arena.new graph.old graph.new }
    {
        let Some(item) = self.open_item(goal) else {
            return self.test_end(arena, problem, goal);
        };
        let place = item.place;
        let end = item.end;
        let regex = item.regex;
        let walk = item.walk;
        let codes = problem.word(begin, last);
        spend(&mut self.fuel, codes.len());
        let Some(target) = along(arena, graph, regex, codes)? else {
            return Ok(Step::Fails);
        };
        self.put_left(goal, place.saturating_add(1), end, target, walk)?;
        self.settle_last(arena, graph, problem, goal)
    }

    /// Tests that the regex has the empty word that is left behind all parts of a goal; not of one whose last part
    /// was a
    /// constant.
    fn test_end(&self, arena: &Arena, problem: &Problem, goal: usize) -> Result<Step, AllocError> {
        let Some(item) = self.items.get(goal).copied() else {
            return Ok(Step::On);
        };
        if ends_in_constant(problem, goal) || is_nullable(arena, item.regex) {
            return Ok(Step::On);
        }
        Ok(Step::Fails)
    }

    /// Where a constant is the last part of a goal, asks it to be in what is left; where none is left, tests the end.
    fn settle_last(
        &mut self,
        arena: &mut Arena,
        graph: &mut Graph,
        problem: &Problem,
        goal: usize,
    ) -> Result<Step, AllocError>
        requires { IsGraph arena.old graph.old }
        ensures { Explores arena.old arena.new graph.old graph.new }
    {
        let Some(item) = self.open_item(goal) else {
            return self.test_end(arena, problem, goal);
        };
        let end = item.end;
        let regex = item.regex;
        let walk = item.walk;
        let Some(constant) = last_constant(problem, item.place, end) else {
            return Ok(Step::On);
        };
        self.ask(arena, graph, constant, regex)?;
        self.put_left(goal, end, end, regex, walk)?;
        self.look(arena, graph, constant)
    }

    /// Tests that a constant has a word.
    fn look(
        &mut self,
        arena: &mut Arena,
        graph: &mut Graph,
        constant: usize,
    ) -> Result<Step, AllocError>
        requires { IsGraph arena.old graph.old }
        ensures { Explores arena.old arena.new graph.old graph.new }
    {
        let own = own_at(&self.own, constant);
        match look(arena, graph, own, &mut self.fuel)? {
            Looked::Word => Ok(Step::On),
            Looked::Nothing => Ok(Step::Fails),
            Looked::OutOfFuel => Ok(Step::OutOfFuel),
        }
    }

    /// What is left of a goal, if there is something.
    fn open_item(&self, goal: usize) -> Option<Item> {
        let item = self.items.get(goal).copied()?;
        if item.place < item.end {
            Some(item)
        } else {
            None
        }
    }

    /// Puts what is left of a goal, the seams of which are not counted.
    fn put_left(
        &mut self,
        goal: usize,
        place: usize,
        end: usize,
        regex: RegexId,
        walk: usize,
    ) -> Result<(), AllocError> {
        let item = Item {
            place,
            end,
            regex,
            walk,
            count: UNKNOWN,
        };
        self.put_item(goal, item)
    }

    /// Puts what is left of a goal, in place of what was.
    fn put_item(&mut self, goal: usize, item: Item) -> Result<(), AllocError> {
        if let Some(before) = self.items.get(goal).copied() {
            self.lefts.push((goal, before))?;
            put_at(&mut self.items, goal, item);
        }
        Ok(())
    }

    /// Undoes the changes down to so many of each kind.
    fn undo(&mut self, owns: usize, lefts: usize) {
        for _turn in owns..self.owns.len() {
            if let Some((constant, own)) = self.owns.pop() {
                put_own(&mut self.own, constant, own);
            }
        }
        for _turn in lefts..self.lefts.len() {
            if let Some((goal, item)) = self.lefts.pop() {
                put_at(&mut self.items, goal, item);
            }
        }
    }

    /// Whether what is left is known to fail.
    fn has_failed(&self, problem: &Problem, group: &[(usize, usize)]) -> Result<bool, AllocError> {
        if self.failed.is_empty() {
            return Ok(false);
        }
        let key = self.key(problem, group)?;
        Ok(self.failed.contains(&key))
    }

    /// Keeps that what is left fails.
    fn fail(&mut self, problem: &Problem, group: &[(usize, usize)]) -> Result<(), AllocError> {
        let key = self.key(problem, group)?;
        self.failed.insert(key)?;
        Ok(())
    }

    /// What is left of the goals of a group, and what their constants are asked for, as numbers.
    fn key(&self, problem: &Problem, group: &[(usize, usize)]) -> Result<Vec<usize>, AllocError> {
        let mut key = Vec::new(self.alloc);
        for (_, goal) in group {
            if let Some(item) = self.open_item(*goal) {
                self.put_key(problem, *goal, &item, &mut key)?;
            }
        }
        Ok(key)
    }

    /// Puts what is left of a goal behind other numbers.
    fn put_key(
        &self,
        problem: &Problem,
        goal: usize,
        item: &Item,
        key: &mut Vec<usize>,
    ) -> Result<(), AllocError> {
        key.push(goal)?;
        key.push(item.place)?;
        key.push(item.regex.number())?;
        let begin = item.place;
        let end = item.end;
        for place in begin..end {
            key.push(own_of(problem, &self.own, place).number())?;
        }
        Ok(())
    }

    /// The least words of the constants in what they are asked for.
    fn words(
        &mut self,
        arena: &mut Arena,
        graph: &mut Graph,
        problem: &Problem,
    ) -> Result<Values, AllocError>
        requires { IsGraph arena.old graph.old }
        ensures { Explores arena.old arena.new graph.old graph.new }
    {
        let mut words = Vec::new(self.alloc);
        for constant in 0..problem.count() {
            let Some(serial) = problem.constant(constant) else {
                return Ok(Values::OutOfFuel);
            };
            let own = own_at(&self.own, constant);
            match explore(arena, graph, own, &mut self.fuel)? {
                Within::Found(Explored::Alive(word)) => words.push((serial, word))?,
                Within::Found(Explored::Dead) => return Ok(Values::None),
                Within::Limit => return Ok(Values::OutOfFuel),
            }
        }
        Ok(Values::Found(words))
    }
}

/// The goal with fewer seams, the first where both have as many.
fn lesser(best: (usize, usize), goal: usize, count: usize) -> (usize, usize) {
    if count < best.1 { (goal, count) } else { best }
}

/// All of a goal from a place on.
fn begun(place: usize, end: usize, regex: RegexId) -> Item {
    Item {
        place,
        end,
        regex,
        walk: UNKNOWN,
        count: UNKNOWN,
    }
}

/// The choice with its next seam passed.
fn next_of(frame: Frame) -> Frame {
    Frame {
        goal: frame.goal,
        first: frame.first,
        next: frame.next.saturating_add(1),
        owns: frame.owns,
        lefts: frame.lefts,
        walks: frame.walks,
    }
}

/// The constant at a place that is the last one in front of an end.
fn last_constant(problem: &Problem, place: usize, end: usize) -> Option<usize> {
    if place.saturating_add(1) != end {
        return None;
    }
    match problem.part(place) {
        Some(Part::Constant(constant)) => Some(constant),
        _ => None,
    }
}

/// Whether the last part of a goal is a constant.
fn ends_in_constant(problem: &Problem, goal: usize) -> bool {
    let Some(goal) = problem.goals().get(goal).copied() else {
        return false;
    };
    if goal.end <= goal.first {
        return false;
    }
    matches!(problem.part(goal.end - 1), Some(Part::Constant(_)))
}

/// Puts what a constant is asked for.
fn put_own(own: &mut [RegexId], constant: usize, regex: RegexId) {
    if let Some(place) = own.get_mut(constant) {
        *place = regex;
    }
}

/// Puts what is left of a goal.
fn put_at(items: &mut [Item], goal: usize, item: Item) {
    if let Some(place) = items.get_mut(goal) {
        *place = item;
    }
}

/// Puts the live seams of the constant at a place behind others, by a walk.
fn put_seams(
    walks: &[Walk],
    walk: usize,
    place: usize,
    regex: RegexId,
    seams: &mut Vec<RegexId>,
) -> Result<(), AllocError> {
    match walks.get(walk) {
        Some(walk) => walk.put_seams(place, regex, seams),
        None => Ok(()),
    }
}
