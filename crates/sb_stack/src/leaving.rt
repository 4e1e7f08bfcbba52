//! Levels that are opened and left, and the ways back to the start (SMT-LIB 2.6, sections 4.1.4 and 4.2.1).

ghost use Rattle.std.specs.Prelude.{◌≡◌, ℕ, ◌+◌, ◌<◌, ◌++◌, [], length, reverse, replicate, true, false, nat_le, IfOk, OnOk, OnErr, MatchOption};
ghost use Rattle.sb_script.specs.State.{pushed, popped, without_assertions, start_behind};
ghost use Rattle.sb_script.specs.Replies as meaning;
ghost use Rattle.sb_script.specs.Texts.{number_of};
ghost use Rattle.sb_stack.specs.Keeping.{Keeps, KeepsBy, Leaves};
ghost use Rattle.sb_stack.specs.Stacked.{state_of};
ghost use Rattle.sb_stack.specs.Steps.{IsStep, IsUnder};
ghost use Rattle.sb_stack.specs.Taking.{IsAnswered};

use crate::level::Level;
use crate::reply::{error_line, success_line};
use crate::stack::{Mode, Stack, Step, answered};
use sb_sorts::number_up_to;
use std::alloc::{AllocError, Global};

/// How many levels may be open.
const LEVEL_LIMIT: usize = 65_535;

#[tactic(auto, using(crate::proofs::Changes::keeps_parts, crate::proofs::Changes::keeps_more))]
impl Stack {
    /// Opens so many levels, by the digits of their number, unless there would be too many.
    pub(crate) fn push(&mut self, count: &[u8]) -> Result<Vec<u8>, AllocError>
        ensures ok { IfOk result
            (λ text. IsAnswered (meaning.push (number_of count.now) (state_of self.old)) text (state_of self.old)
            (state_of self.new)) }
        ensures err { OnErr result (state_of self.new ≡ state_of self.old) }
        ensures keeps { Keeps self.old self.new }
    {
        let Some(count) = self.room_for(count) else {
            return error_line(self.alloc, b"numeral too large");
        };
        let answer = success_line(self.alloc, self.print_success)?;
        self.open_levels(count)?;
        Ok(answer)
    }

    /// The number that the digits spell, where so many levels more may be open.
    fn room_for(&self, count: &[u8]) -> Option<usize>
        ensures { MatchOption result
            (nat_le (number_of count.now + length self.now.levels) meaning.level_limit ≡ false)
            (λ n. (number_of count.now ≡ n)
            × (nat_le (number_of count.now + length self.now.levels) meaning.level_limit ≡ true)) }
    {
        let count = number_up_to(count, LEVEL_LIMIT)?;
        if self.levels.len() <= LEVEL_LIMIT - count {
            Some(count)
        } else {
            None
        }
    }

    /// Opens so many levels.
    fn open_levels(&mut self, count: usize) -> Result<(), AllocError>
        ensures ok { OnOk result (state_of self.new ≡ pushed count (state_of self.old)) }
        ensures err { OnErr result (state_of self.new ≡ state_of self.old) }
        ensures keeps { Keeps self.old self.new }
    {
        let names = self.scope.len();
        let assertions = self.assertions.len();
        let level = Level { names, assertions };
        push_levels(&mut self.levels, count, level)?;
        self.mode = Mode::Plain;
        Ok(())
    }

    /// Leaves so many levels, by the digits of their number, unless there are not so many.
    pub(crate) fn pop(&mut self, count: &[u8]) -> Result<Step, AllocError>
        ensures ok { IfOk result
            (λ step. IsStep (meaning.pop (number_of count.now) (state_of self.old)) step (state_of self.old)
            (state_of self.new)) }
        ensures err { OnErr result (state_of self.new ≡ state_of self.old) }
        ensures keeps { KeepsBy result self.old self.new }
        ensures given { IfOk result
            (λ step. IsUnder (meaning.pop (number_of count.now) (state_of self.old)) step self.new.assumptions) }
    {
        let Some(count) = number_up_to(count, self.levels.len()) else {
            return answered(self.fail(b"no such level"));
        };
        let answer = success_line(self.alloc, self.print_success)?;
        self.leave_levels(count);
        let left = self.levels.len();
        Ok(Step::Left(answer, Some(left)))
    }

    /// Leaves so many levels.
    fn leave_levels(&mut self, count: usize)
        ensures state { state_of self.new ≡ popped count (state_of self.old) }
        ensures leaves { Leaves self.old self.new }
    {
        self.mode = Mode::Plain;
        for _place in 0..count {
            self.leave_level();
        }
    }

    /// Leaves the innermost level, where there is one above the first.
    fn leave_level(&mut self)
        ensures state { state_of self.new ≡ popped 1 (state_of self.old) }
        ensures leaves { Leaves self.old self.new }
    {
        self.mode = Mode::Plain;
        if let Some(level) = self.levels.pop() {
            self.scope.leave(level.names);
            self.assertions.truncate(level.assertions);
            self.assumptions.clear();
        }
    }

    /// Leaves all levels above the first one, and what stands on the first, but for its names where they are to stay.
    pub(crate) fn reset_assertions(&mut self) -> Result<Step, AllocError>
        ensures ok { IfOk result
            (λ step. IsStep (meaning.reset_assertions (state_of self.old)) step (state_of self.old)
            (state_of self.new)) }
        ensures err { OnErr result (state_of self.new ≡ state_of self.old) }
        ensures keeps { KeepsBy result self.old self.new }
        ensures given { IfOk result
            (λ step. IsUnder (meaning.reset_assertions (state_of self.old)) step self.new.assumptions) }
    {
        let answer = success_line(self.alloc, self.print_success)?;
        self.leave_all();
        Ok(Step::Left(answer, None))
    }

    /// Goes back to the start. Serials go on.
    pub(crate) fn reset(&mut self) -> Result<Step, AllocError>
        ensures ok { IfOk result
            (λ step. IsStep (meaning.reset (state_of self.old)) step (state_of self.old) (state_of self.new)) }
        ensures err { OnErr result (state_of self.new ≡ state_of self.old) }
        ensures keeps { KeepsBy result self.old self.new }
        ensures given { IfOk result (λ step. IsUnder (meaning.reset (state_of self.old)) step self.new.assumptions) }
    {
        let answer = success_line(self.alloc, true)?;
        self.start_again();
        Ok(Step::Left(answer, None))
    }

    /// Takes all assertions back, and the names unless they are to stay.
    fn leave_all(&mut self)
        ensures state { state_of self.new ≡ without_assertions (state_of self.old) }
        ensures leaves { Leaves self.old self.new }
    {
        self.scope.leave(0);
        self.assertions.clear();
        self.levels.clear();
        self.assumptions.clear();
        self.mode = Mode::Plain;
    }

    /// Takes everything back but the serials.
    fn start_again(&mut self)
        ensures state { state_of self.new ≡ start_behind (state_of self.old).sorts }
        ensures leaves { Leaves self.old self.new }
    {
        self.scope.clear();
        self.assertions.clear();
        self.levels.clear();
        self.assumptions.clear();
        self.mode = Mode::Plain;
        self.logic_set = false;
        self.begun = false;
        self.print_success = true;
        self.produce_models = false;
        self.produce_unsat_assumptions = false;
    }
}

/// Opens levels that begin at one place, so many. Where memory runs out none is opened.
fn push_levels(levels: &mut Vec<Level>, count: usize, level: Level) -> Result<(), AllocError>
    ensures ok { OnOk result (reverse levels.new.items ≡ replicate count level ++ reverse levels.old.items) }
    ensures err { OnErr result (levels.new.items ≡ levels.old.items) }
{
    let open = levels.len();
    for _place in 0..count {
        if levels.push(level).is_err() {
            levels.truncate(open);
            return Err(AllocError);
        }
    }
    Ok(())
}
