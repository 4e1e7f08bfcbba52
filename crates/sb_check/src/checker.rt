//! A script and its proof, entry by entry.

ghost use Rattle.std.specs.Prelude.{◌≡◌, ◌+◌, ◌<◌, ◌≤◌, true, Some, IfOk, IfErr, OnOk};
ghost use Rattle.sb_world.specs.Outside.{Rose};
ghost use Rattle.sb_script.specs.State.{start};
ghost use Rattle.sb_script.specs.Replies.{step_of};
ghost use Rattle.sb_rulebook.specs.Judging.{at_rest, at_end, behind_end, beginning};
ghost use Rattle.sb_rulebook.specs.Accepted.{events_of, state_behind};
ghost use Rattle.sb_stack.specs.Stacked.{state_of};
ghost use Rattle.sb_stack.specs.Steps.{IsEntry, entry_of};
ghost use Rattle.sb_input.specs.TakingLines.{most_to_come};
ghost use Rattle.sb_check.specs.Standing.{IsStanding, IsAt};
ghost use Rattle.sb_check.specs.Going.{said_by, LeadsTo, Goes, Fails, Finishes, IsRefusedAlong, IsRefusedAtEnd, WaitsAlong, WaitsAtEnd, HasRunOut, CountsCheckerFault};
ghost use Rattle.sb_check.specs.Through.{GoesThrough, StopsThrough, GoesLast, StopsLast, IsBehindEnd};

use crate::entry::Entered;
use crate::judge::Judge;
use crate::reason::{JudgeFault, Reason, TakeFault};
use sb_input::{Found, Lines, LinesFault};
use sb_proof::Said;
use sb_reader::Next;
use sb_rulebook::laws::refusal_is_final;
use sb_world::{World, WorldError};
use std::alloc::{AllocError, Global};

/// What becomes of an entry of the script.
#[derive(Drop)]
pub enum Checked {
    /// It is no check, and the next entry may come.
    Goes,
    /// It is a check, and this is its verdict.
    Said(Said),
    /// The script ends with it.
    Ends,
}

/// Why a script and its proof are not gone through further.
#[derive(Clone, Copy)]
pub enum CheckerFault {
    /// The line of this number is refused.
    Refused(u64, Reason),
    /// As many bytes as the limit were read, and not the end.
    Limit,
    /// The outside failed.
    Fault,
    NoMemory,
    /// A line or a check has the last number of 64 bits, behind which there is no other.
    PastNumbers,
}

/// A script and its proof, as far as they were gone through.
#[derive(Drop)]
pub struct Checker {
    pub judge: Judge,
}

impl Checker {
    /// The beginning of a script and of its proof. Takes no memory.
    pub fn new(alloc: Global) -> Checker
        ensures standing { IsStanding result.judge }
        ensures at { IsAt at_rest result.judge beginning }
        ensures state { state_of result.judge.stack ≡ start }
        ensures next { result.judge.next ≡ 1 }
    {
        Checker {
            judge: Judge::new(alloc),
        }
    }

    /// Takes the next entry of the script, and at a check the lines of the proof up to its verdict. `Refused` comes
    /// where a line is refused by the rules of proofs, whatever entries come behind this one; `Limit` where as many
    /// bytes of the proof as the limit of `lines` were read, and not its end, the whole lines among them are taken, and
    /// the check waits for more; `Fault` only where the world's count of faults rose; `PastNumbers` only where the
    /// number of the next line, with as many more as bytes may come, reaches 2^64 - 1. After an error nothing more may
    /// be checked. The cost is that of `Judge::enter`, and that of each line.
    pub fn command<W: World>(
        &mut self,
        entry: &Next,
        lines: &mut Lines,
        world: &mut W,
    ) -> Result<Checked, CheckerFault>
        requires entry { IsEntry entry.now }
        requires standing { IsStanding self.old.judge }
        ensures ok { IfOk result (λ checked. Goes (said_by checked)
            (events_of (step_of (entry_of entry.now) (state_of self.old.judge.stack)) (state_of self.old.judge.stack))
            self.old.judge self.new.judge lines.old lines.new (W.outside world.old) (W.outside world.new)) }
        ensures leads { IfOk result (λ checked. LeadsTo checked
            (state_behind (step_of (entry_of entry.now) (state_of self.old.judge.stack))
            (state_of self.old.judge.stack)) (state_of self.new.judge.stack)) }
        ensures standing { OnOk result (IsStanding self.new.judge) }
        ensures room { OnOk result
            (self.new.judge.next + most_to_come lines.new ≤ self.old.judge.next + most_to_come lines.old) }
        ensures err { IfErr result (λ fault. Fails fault
            (IsRefusedAlong
            (events_of (step_of (entry_of entry.now) (state_of self.old.judge.stack)) (state_of self.old.judge.stack)))
            (WaitsAlong
            (events_of (step_of (entry_of entry.now) (state_of self.old.judge.stack)) (state_of self.old.judge.stack)))
            self.old.judge lines.old lines.new (W.outside world.old) (W.outside world.new)) }
        ensures numbers { IfErr result (λ fault. HasRunOut fault (self.old.judge.next + most_to_come lines.old)) }
        ensures faults { CountsCheckerFault result (W.faults world.old) (W.faults world.new) }
    {
        match self.judge.enter(entry)? {
            Entered::Goes => Ok(Checked::Goes),
            Entered::Left => Ok(Checked::Goes),
            Entered::Ends => Ok(Checked::Ends),
            Entered::Waits => Ok(Checked::Said(self.verdict(lines, world)?)),
        }
    }

    /// Takes the lines of the proof that are due where the script has ended: its last line, and nothing behind it. The
    /// errors are those of `command`.
    pub fn finish<W: World>(&mut self, lines: &mut Lines, world: &mut W) -> Result<(), CheckerFault>
        requires standing { IsStanding self.old.judge }
        ensures ok { OnOk result
            (Finishes self.old.judge lines.old lines.new (W.outside world.old) (W.outside world.new)) }
        ensures err { IfErr result (λ fault. Fails fault IsRefusedAtEnd WaitsAtEnd self.old.judge lines.old lines.new
            (W.outside world.old) (W.outside world.new)) }
        ensures numbers { IfErr result (λ fault. HasRunOut fault (self.old.judge.next + most_to_come lines.old)) }
        ensures faults { CountsCheckerFault result (W.faults world.old) (W.faults world.new) }
    {
        self.last_line(lines, world)?;
        self.nothing_behind(lines, world)
    }

    /// Takes the lines of a check that waits, up to its verdict.
    fn verdict<W: World>(&mut self, lines: &mut Lines, world: &mut W) -> Result<Said, CheckerFault>
        requires standing { IsStanding self.old.judge }
        ensures ok { IfOk result (λ said. GoesThrough (Some said) self.old.judge self.new.judge lines.old lines.new
            (W.outside world.old) (W.outside world.new)) }
        ensures stack { self.new.judge.stack ≡ self.old.judge.stack }
        ensures standing { OnOk result (IsStanding self.new.judge) }
        ensures room { OnOk result
            (self.new.judge.next + most_to_come lines.new ≤ self.old.judge.next + most_to_come lines.old) }
        ensures err { IfErr result (λ fault. StopsThrough fault self.old.judge lines.old lines.new
            (W.outside world.old) (W.outside world.new)) }
        ensures numbers { IfErr result (λ fault. HasRunOut fault (self.old.judge.next + most_to_come lines.old)) }
        ensures faults { CountsCheckerFault result (W.faults world.old) (W.faults world.new) }
    {
        loop {
            if let Some(said) = self.turn(lines, world)? {
                return Ok(said);
            }
        }
    }

    /// Takes the next line of a check that waits, and says the verdict, where the line is one.
    fn turn<W: World>(
        &mut self,
        lines: &mut Lines,
        world: &mut W,
    ) -> Result<Option<Said>, CheckerFault>
        requires standing { IsStanding self.old.judge }
        ensures ok { IfOk result (λ said. GoesThrough said self.old.judge self.new.judge lines.old lines.new
            (W.outside world.old) (W.outside world.new)) }
        ensures stack { self.new.judge.stack ≡ self.old.judge.stack }
        ensures standing { OnOk result (IsStanding self.new.judge) }
        ensures room { OnOk result
            (self.new.judge.next + most_to_come lines.new ≤ self.old.judge.next + most_to_come lines.old) }
        ensures fewer { OnOk result (most_to_come lines.new < most_to_come lines.old) }
        ensures err { IfErr result (λ fault. StopsThrough fault self.old.judge lines.old lines.new
            (W.outside world.old) (W.outside world.new)) }
        ensures numbers { IfErr result (λ fault. HasRunOut fault (self.old.judge.next + most_to_come lines.old)) }
        ensures faults { CountsCheckerFault result (W.faults world.old) (W.faults world.new) }
    {
        refusal_is_final();
        match lines.advance(world)? {
            Found::Line { ended } => Ok(self.judge.take(lines.line(), ended)?),
            Found::End => Err(self.missing_line()),
            Found::Limit => Err(CheckerFault::Limit),
        }
    }

    /// Why the proof may not end where its next line is due.
    fn missing_line(&self) -> CheckerFault
        ensures { result ≡ CheckerFault.Refused self.now.judge.next Reason.MissingLine }
    {
        CheckerFault::Refused(self.judge.next, Reason::MissingLine)
    }

    /// Takes the lines that are due at the end, up to the last one.
    fn last_line<W: World>(&mut self, lines: &mut Lines, world: &mut W) -> Result<(), CheckerFault>
        requires standing { IsStanding self.old.judge }
        ensures ok { OnOk result (GoesLast true self.old.judge self.new.judge lines.old lines.new
            (W.outside world.old) (W.outside world.new)) }
        ensures err { IfErr result (λ fault. StopsLast fault at_end self.old.judge lines.old lines.new
            (W.outside world.old) (W.outside world.new)) }
        ensures numbers { IfErr result (λ fault. HasRunOut fault (self.old.judge.next + most_to_come lines.old)) }
        ensures faults { CountsCheckerFault result (W.faults world.old) (W.faults world.new) }
    {
        loop {
            if self.last_turn(lines, world)? {
                return Ok(());
            }
        }
    }

    /// Takes the next line that is due at the end, and says whether it is the last one.
    fn last_turn<W: World>(
        &mut self,
        lines: &mut Lines,
        world: &mut W,
    ) -> Result<bool, CheckerFault>
        requires standing { IsStanding self.old.judge }
        ensures ok { IfOk result (λ last. GoesLast last self.old.judge self.new.judge lines.old lines.new
            (W.outside world.old) (W.outside world.new)) }
        ensures standing { OnOk result (IsStanding self.new.judge) }
        ensures room { OnOk result
            (self.new.judge.next + most_to_come lines.new ≤ self.old.judge.next + most_to_come lines.old) }
        ensures fewer { OnOk result (most_to_come lines.new < most_to_come lines.old) }
        ensures err { IfErr result (λ fault. StopsLast fault at_end self.old.judge lines.old lines.new
            (W.outside world.old) (W.outside world.new)) }
        ensures numbers { IfErr result (λ fault. HasRunOut fault (self.old.judge.next + most_to_come lines.old)) }
        ensures faults { CountsCheckerFault result (W.faults world.old) (W.faults world.new) }
    {
        match lines.advance(world)? {
            Found::Line { ended } => Ok(self.judge.take_last(lines.line(), ended)?),
            Found::End => Err(self.missing_line()),
            Found::Limit => Err(CheckerFault::Limit),
        }
    }

    /// Sees that nothing stands behind the last line.
    fn nothing_behind<W: World>(&self, lines: &mut Lines, world: &mut W) -> Result<(), CheckerFault>
        ensures ok { OnOk result (IsBehindEnd lines.old lines.new (W.outside world.old) (W.outside world.new)) }
        ensures err { IfErr result (λ fault. StopsLast fault behind_end self.now.judge lines.old lines.new
            (W.outside world.old) (W.outside world.new)) }
        ensures numbers { IfErr result (λ fault. HasRunOut fault 0) }
        ensures faults { CountsCheckerFault result (W.faults world.old) (W.faults world.new) }
    {
        match lines.advance(world)? {
            Found::Line { ended } => Err(CheckerFault::from(
                self.judge.refuse(lines.line(), ended),
            )),
            Found::End => Ok(()),
            Found::Limit => Err(CheckerFault::Limit),
        }
    }
}

impl From<AllocError> for CheckerFault {
    ghost use Rattle.sb_check.specs.declared.checker.CheckerFault.TheVariants.{NoMemory};

    ghost from_gives = { λ _ fault. fault ≡ NoMemory };

    fn from(_error: AllocError) -> CheckerFault {
        CheckerFault::NoMemory
    }
}

impl From<WorldError> for CheckerFault {
    ghost use Rattle.sb_check.specs.Going.{fault_of_world};

    ghost from_gives = { λ error fault. fault ≡ fault_of_world error };

    fn from(error: WorldError) -> CheckerFault {
        match error {
            WorldError::Failed => CheckerFault::Fault,
            WorldError::NoMemory => CheckerFault::NoMemory,
        }
    }
}

impl From<LinesFault> for CheckerFault {
    ghost use Rattle.sb_check.specs.Going.{fault_of_lines};

    ghost from_gives = { λ error fault. fault ≡ fault_of_lines error };

    fn from(error: LinesFault) -> CheckerFault {
        match error {
            LinesFault::Fault => CheckerFault::Fault,
            LinesFault::NoMemory => CheckerFault::NoMemory,
        }
    }
}

impl From<TakeFault> for CheckerFault {
    ghost use Rattle.sb_check.specs.Going.{fault_of_take};

    ghost from_gives = { λ error fault. fault ≡ fault_of_take error };

    fn from(error: TakeFault) -> CheckerFault {
        match error {
            TakeFault::Judged(fault) => CheckerFault::from(fault),
            TakeFault::PastNumbers => CheckerFault::PastNumbers,
        }
    }
}

impl From<JudgeFault> for CheckerFault {
    ghost use Rattle.sb_check.specs.Going.{fault_of_judge};

    ghost from_gives = { λ error fault. fault ≡ fault_of_judge error };

    fn from(error: JudgeFault) -> CheckerFault {
        match error {
            JudgeFault::Refused(n, reason) => CheckerFault::Refused(n, reason),
            JudgeFault::NoMemory => CheckerFault::NoMemory,
        }
    }
}
