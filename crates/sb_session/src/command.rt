//! The session, entry by entry.

ghost use Rattle.std.specs.Prelude.{◌≡◌, ◌⊎◌, ◌^◌, ◌-◌, [], length, true, false, is_some, Some, None, IfOk, IfErr, IfSome, OnOk, OnErr};
ghost use Rattle.sb_world.specs.Outside.{CountsFault};
ghost use Rattle.sb_world.specs.Moved.{moved_by, writing_all};
ghost use Rattle.sb_script.specs.State.{start};
ghost use Rattle.sb_script.specs.Verdicts.{FindsUnproved};
ghost use Rattle.sb_rulebook.specs.Judging.{Progress, beginning};
ghost use Rattle.sb_stack.specs.Stacked.{state_of, given_in, live_constants, without_words};
ghost use Rattle.sb_stack.specs.Steps.{IsEntry, entry_of, verdict_in, found};
ghost use Rattle.sb_store.specs.Stores.{KnowsMore};
ghost use Rattle.sb_decide.specs.Ready.{IsDecided};
ghost use Rattle.sb_decide.specs.Laws.{LeavesKnown};
ghost use Rattle.sb_session.specs.Commanding.{SessionState, Goes, Fails, AnswersEntry, CutOrNot, CutOf, IsTracked, proof_of, is_proved, is_exited, went_of, CountsSessionFault, CountsStop};
ghost use Rattle.sb_session.specs.Checking.{session_of, Holds, IsKnown, LeavesProof, ProvesCheck, CutProof, AnswersCheck, CutCheck};
ghost use Rattle.sb_session.specs.Reading.{end_writes};

use sb_decide::{Decided, Decider, knows_stays};
use sb_lit::Budget;
use sb_proof::MemTape;
use sb_prover::{
    NoTape, Prover, abreast_stays, entries_move_live, entries_stay_fit, levels_stay,
    regexes_stay_below, true_stays,
};
use sb_reader::Next;
use sb_script::laws::{entries_keep_sorts, live_are_well_sorted, start_is_sorted};
use sb_sound::scripts::entries_lead_on;
use sb_stack::{Stack, Step, Verdict};
use sb_world::{OutPort, World, WorldError, write_all};
use std::alloc::{AllocError, Global};
use std::marker::Model;
use thiserror::Error;

/// How a session goes on behind an entry.
#[derive(Clone, Copy, PartialEq, Eq)]
pub enum Went {
    /// The next entry may come.
    Go,
    /// The entry was `(exit)`.
    Exited,
}

/// Why an entry is not answered.
#[derive(Clone, Copy, Debug, PartialEq, Eq, Error)]
pub enum SessionFault {
    /// The outside failed.
    #[error("input or output failed")]
    Fault,
    #[error("out of memory")]
    NoMemory,
    /// A check without a proof took as many steps as it may, 2^64 - 1.
    #[error("a check took as many steps as it may")]
    Spent,
    /// An earlier entry was `(exit)`, or was not answered.
    #[error("the session has ended")]
    Ended,
}

/// Why an entry is not answered, where no earlier one ended the session.
#[derive(Clone, Copy)]
pub enum Stop {
    /// The outside failed.
    Fault,
    /// Memory was wanted.
    NoMemory,
    /// A check without a proof took as many steps as it may, 2^64 - 1.
    Spent,
}

impl From<AllocError> for Stop {
    ghost use Rattle.sb_session.specs.declared.command.Stop.TheVariants.{NoMemory};

    ghost from_gives = { λ _ stop. stop ≡ NoMemory };

    fn from(_error: AllocError) -> Stop {
        Stop::NoMemory
    }
}

impl From<WorldError> for Stop {
    ghost use Rattle.sb_session.specs.Commanding.{stop_of};

    ghost from_gives = { λ error stop. stop ≡ stop_of error };

    fn from(error: WorldError) -> Stop {
        match error {
            WorldError::Failed => Stop::Fault,
            WorldError::NoMemory => Stop::NoMemory,
        }
    }
}

impl From<Stop> for SessionFault {
    ghost use Rattle.sb_session.specs.Commanding.{fault_of};

    ghost from_gives = { λ stop fault. fault ≡ fault_of stop };

    fn from(stop: Stop) -> SessionFault {
        match stop {
            Stop::Fault => SessionFault::Fault,
            Stop::NoMemory => SessionFault::NoMemory,
            Stop::Spent => SessionFault::Spent,
        }
    }
}

/// The state of a run: what the script has said so far, what stands in its proof, and whether the run has ended.
#[derive(Drop)]
pub struct Session {
    alloc: Global,
    stack: Stack,
    decider: Decider,
    prover: Prover,
    /// A proof is written.
    proved: bool,
    ended: bool,
}

impl Model for Session {
    ghost use Rattle.std.specs.Prelude.{◌≡◌, false};
    ghost use Rattle.sb_session.specs.Checking.{Holds};
    ghost use Rattle.sb_session.specs.Commanding.{SessionState, proof_of};
    ghost use Rattle.sb_lang.proofs.CallerLemmas.{coded_regex};
    ghost use Rattle.sb_meaning.proofs.CallerLemmas.{coded_term};
    ghost use Rattle.std.specs.Coded.{codes};

    ghost Value = { SessionState };

    ghost coded = { Prim.hlevel (codes, coded_regex, coded_term) };

    ghost view = { λ s. record {
      stack = s.stack;
      store = s.decider.store;
      proof = proof_of s.proved s.prover;
      ended = s.ended;
    } };

    ghost invariant = { λ s. s.ended ≡ false → Holds s.stack s.decider s.prover };
}

impl Session {
    /// A session at the start of a script, which writes its proof or none. It takes no memory.
    pub fn new(alloc: Global, proved: bool) -> Session
        ensures state { state_of result.stack ≡ start }
        ensures ended { result.ended ≡ false }
        ensures kind { is_proved result ≡ proved }
        ensures tracked { IsTracked result beginning }
    {
        entries_lead_on();
        start_is_sorted();
        Session {
            alloc,
            stack: Stack::new(alloc),
            decider: Decider::new(alloc),
            prover: Prover::new(alloc),
            proved,
            ended: false,
        }
    }

    /// Ends the session, and gives its memory back. Whoever ends one so has none of its parts to drop.
    pub fn close(self) {
        drop(self);
    }

    /// Answers the next entry of the script, whole, before it returns; at a check the lines of its proof are written
    /// before the answer, where a proof is. `Ended` exactly where an earlier entry was `(exit)` or was not answered;
    /// `Fault` only where the world's count of faults rose; `Spent` only where no proof is written, at a check that
    /// took 2^64 - 1 steps. Linear in the entry and the answer, and for a check in the
    /// assertions and constants that are new since the last check with a model, in what they make it explore, and in
    /// the lines of its proof.
    pub fn command<W: World>(&mut self, entry: &Next, world: &mut W) -> Result<Went, SessionFault>
        requires { IsEntry entry.now }
        ensures ok { IfOk result
            (λ went. Goes went (entry_of entry.now) self.old self.new (W.outside world.old) (W.outside world.new)) }
        ensures err { IfErr result
            (λ fault. Fails fault (entry_of entry.now) self.old self.new (W.outside world.old) (W.outside world.new)) }
        ensures store { OnOk result (KnowsMore self.old.store self.new.store) }
        ensures faults { CountsSessionFault result (W.faults world.old) (W.faults world.new) }
    {
        if self.ended {
            return Err(SessionFault::Ended);
        }
        let went = self.answer(entry, world)?;
        Ok(went)
    }

    /// Answers the next entry of a session that has not ended.
    pub(crate) fn answer<W: World>(&mut self, entry: &Next, world: &mut W) -> Result<Went, Stop>
        requires entry { IsEntry entry.now }
        requires goes_on { self.old.ended ≡ false }
        ensures ok { IfOk result
            (λ went. Goes went (entry_of entry.now) self.old self.new (W.outside world.old) (W.outside world.new)) }
        ensures store { OnOk result (KnowsMore self.old.store self.new.store) }
        ensures err { OnErr result
            (CutOrNot (entry_of entry.now) self.old (W.outside world.old) (W.outside world.new)) }
        ensures ended { OnErr result (self.new.ended ≡ true) }
        ensures spent { IfErr result (λ stop. stop ≡ Stop.Spent → is_proved self.old ≡ false) }
        ensures faults { CountsStop result (W.faults world.old) (W.faults world.new) }
    {
        self.ended = true;
        let went = answer_entry(
            self.alloc,
            &mut self.stack,
            &mut self.decider,
            &mut self.prover,
            self.proved,
            entry,
            world,
        )?;
        self.ended = exits(went);
        Ok(went)
    }

    /// Writes the last lines of the proof, where one is written. No entry may come behind them. An error is want of
    /// memory, or a fault of the outside where the world's count of faults rose.
    pub fn finish<W: World>(&mut self, world: &mut W) -> Result<(), WorldError>
        ensures ok { OnOk result ((p : Progress) → IsTracked self.old p
            → W.outside world.new ≡ moved_by (writing_all (end_writes (is_proved self.old) p)) (W.outside world.old)) }
        ensures err { OnErr result ((p : Progress) → IsTracked self.old p
            → CutOf (end_writes (is_proved self.old) p) (W.outside world.old) (W.outside world.new)) }
        ensures ended { self.new.ended ≡ true }
        ensures cause { CountsFault result (W.faults world.old) (W.faults world.new) }
    {
        self.ended = true;
        finish_proof(self.alloc, &mut self.prover, self.proved, world)?;
        Ok(())
    }
}

/// Whether the run ends.
fn exits(went: Went) -> bool
    ensures { result ≡ is_exited went }
{
    match went {
        Went::Go => false,
        Went::Exited => true,
    }
}

/// Writes the last lines of the proof, where one is written.
fn finish_proof<W: World>(
    alloc: Global,
    prover: &mut Prover,
    proved: bool,
    world: &mut W,
) -> Result<(), WorldError>
    ensures ok { OnOk result ((s : SessionState) (p : Progress) → s.proof ≡ proof_of proved prover.old → IsTracked s p
        → W.outside world.new ≡ moved_by (writing_all (end_writes (is_proved s) p)) (W.outside world.old)) }
    ensures err { OnErr result ((s : SessionState) (p : Progress) → s.proof ≡ proof_of proved prover.old → IsTracked s p
        → CutOf (end_writes (is_proved s) p) (W.outside world.old) (W.outside world.new)) }
    ensures faults { CountsFault result (W.faults world.old) (W.faults world.new) }
{
    if !proved {
        return Ok(());
    }
    let mut tape = MemTape::new(alloc);
    let Ok(()) = prover.finish(&mut tape) else {
        return Err(WorldError::NoMemory);
    };
    write_all(world, OutPort::Proof, tape.bytes())
}

/// Answers an entry.
fn answer_entry<W: World>(
    alloc: Global,
    stack: &mut Stack,
    decider: &mut Decider,
    prover: &mut Prover,
    proved: bool,
    entry: &Next,
    world: &mut W,
) -> Result<Went, Stop>
    requires entry { IsEntry entry.now }
    requires held { Holds stack.old decider.old prover.old }
    ensures held { OnOk result (Holds stack.new decider.new prover.new) }
    ensures ok { IfOk result (λ went. (went ≡ went_of (entry_of entry.now))
        × AnswersEntry (entry_of entry.now) (session_of stack.old decider.old (proof_of proved prover.old))
        (session_of stack.new decider.new (proof_of proved prover.new)) (W.outside world.old) (W.outside world.new)) }
    ensures store { OnOk result (KnowsMore decider.old.store decider.new.store) }
    ensures err { OnErr result (CutOrNot (entry_of entry.now)
        (session_of stack.old decider.old (proof_of proved prover.old)) (W.outside world.old) (W.outside world.new)) }
    ensures spent { IfErr result (λ stop. stop ≡ Stop.Spent → proved ≡ false) }
    ensures faults { CountsStop result (W.faults world.old) (W.faults world.new) }
{
    knows_stays();
    levels_stay();
    entries_move_live();
    entries_stay_fit();
    entries_lead_on();
    entries_keep_sorts();
    true_stays();
    match stack.apply(entry)? {
        Step::Answer(text) => {
            write_all(world, OutPort::Answers, &text)?;
            Ok(Went::Go)
        }
        Step::Check => {
            answer_check(alloc, stack, decider, prover, proved, world)?;
            Ok(Went::Go)
        }
        Step::Left(text, level) => {
            leave(stack, decider, prover, level)?;
            write_all(world, OutPort::Answers, &text)?;
            Ok(Went::Go)
        }
        Step::Exit(text) => {
            write_all(world, OutPort::Answers, &text)?;
            Ok(Went::Exited)
        }
    }
}

/// Goes along where levels are left: what is known of the assertions that went is taken back, and what the prover had
/// of them is forgotten.
fn leave(
    stack: &Stack,
    decider: &mut Decider,
    prover: &mut Prover,
    level: Option<usize>,
) -> Result<(), AllocError>
    ensures knows { OnOk result (LeavesKnown (length stack.now.assertions) decider.old decider.new) }
    ensures store { decider.new.store ≡ decider.old.store }
    ensures proof { OnOk result (LeavesProof level (length stack.now.assertions) prover.old prover.new) }
{
    let count = stack.assertions().len();
    decider.leave(count)?;
    prover.leave(level_of(level), count);
    Ok(())
}

/// The level, as proofs number levels.
fn level_of(level: Option<usize>) -> Option<u64>
    ensures { result ≡ level }
{
    match level {
        Some(level) => Some(level as u64),
        None => None,
    }
}

/// Answers a check: finds a verdict, and writes the lines of its proof first, where one is written.
fn answer_check<W: World>(
    alloc: Global,
    stack: &mut Stack,
    decider: &mut Decider,
    prover: &mut Prover,
    proved: bool,
    world: &mut W,
) -> Result<(), Stop>
    requires held { Holds stack.old decider.old prover.old }
    ensures held { OnOk result (Holds stack.new decider.new prover.new) }
    ensures store { OnOk result (KnowsMore decider.old.store decider.new.store) }
    ensures ok { OnOk result
        ((p : Progress) → IsTracked (session_of stack.old decider.old (proof_of proved prover.old)) p
        → AnswersCheck p (session_of stack.old decider.old (proof_of proved prover.old))
        (session_of stack.new decider.new (proof_of proved prover.new)) (W.outside world.old) (W.outside world.new)) }
    ensures err { OnErr result
        ((p : Progress) → IsTracked (session_of stack.old decider.old (proof_of proved prover.old)) p
        → (W.outside world.new ≡ W.outside world.old)
        ⊎ CutCheck p (session_of stack.old decider.old (proof_of proved prover.old)) (W.outside world.old)
        (W.outside world.new)) }
    ensures spent { IfErr result (λ stop. stop ≡ Stop.Spent → proved ≡ false) }
    ensures faults { CountsStop result (W.faults world.old) (W.faults world.new) }
{
    abreast_stays();
    regexes_stay_below();
    true_stays();
    let decided = decider.decide(alloc, stack)?;
    let verdict = find_verdict(alloc, stack, decider, prover, proved, decided, world)?;
    write_all(world, OutPort::Answers, stack.settle(verdict))?;
    Ok(())
}

/// The verdict of a check of which this is known, under the assumptions of the stack. Writes the lines that prove it,
/// where a proof is written; without one it is `Spent` where it would take more steps than a check may have.
fn find_verdict<W: World>(
    alloc: Global,
    stack: &mut Stack,
    decider: &mut Decider,
    prover: &mut Prover,
    proved: bool,
    decided: Decided,
    world: &mut W,
) -> Result<Verdict, Stop>
    requires held { Holds stack.old decider.old prover.old }
    requires decided { IsDecided decider.old stack.old decided }
    ensures held { IfOk result (λ v. Holds (found v stack.new) decider.new prover.new) }
    ensures store { OnOk result (KnowsMore decider.old.store decider.new.store) }
    ensures rest { without_words stack.new ≡ without_words stack.old }
    ensures ok { IfOk result
        (λ v. (p : Progress) → IsTracked (session_of stack.old decider.old (proof_of proved prover.old)) p
        → ProvesCheck (state_of stack.old) (given_in stack.old) (verdict_in (live_constants stack.old) v) p
        (is_some (proof_of proved prover.old)) (session_of stack.old decider.new (proof_of proved prover.new))
        (W.outside world.old) (W.outside world.new)) }
    ensures err { OnErr result
        ((p : Progress) → IsTracked (session_of stack.old decider.old (proof_of proved prover.old)) p
        → (W.outside world.new ≡ W.outside world.old)
        ⊎ CutProof (state_of stack.old) (given_in stack.old) p (is_some (proof_of proved prover.old))
        (W.outside world.old) (W.outside world.new)) }
    ensures spent { IfErr result (λ stop. stop ≡ Stop.Spent → proved ≡ false) }
    ensures faults { CountsStop result (W.faults world.old) (W.faults world.new) }
{
    live_are_well_sorted();
    let mut budget = Budget::new(u64::MAX);
    if !proved {
        let Some(verdict) = find_unproved(stack, decider, prover, decided, &mut budget)? else {
            return Err(Stop::Spent);
        };
        return Ok(verdict);
    }
    let mut lines = MemTape::new(alloc);
    let Ok(verdict) = prover.check(decider, stack, decided, true, &mut lines, &mut budget) else {
        return Err(Stop::NoMemory);
    };
    write_all(world, OutPort::Proof, lines.bytes())?;
    Ok(verdict)
}

/// The verdict of a check, without a proof, and never `Unknown`; none where the budget is spent.
fn find_unproved(
    stack: &mut Stack,
    decider: &mut Decider,
    prover: &mut Prover,
    decided: Decided,
    budget: &mut Budget,
) -> Result<Option<Verdict>, AllocError>
    requires held { Holds stack.old decider.old prover.old }
    requires decided { IsDecided decider.old stack.old decided }
    ensures finds { IfOk result
        (λ answer. IfSome answer
        (λ v. FindsUnproved (state_of stack.old) (given_in stack.old) [] (verdict_in (live_constants stack.old) v))) }
    ensures held { IfOk result
        (λ answer. IfSome answer (λ v. Holds (found v stack.new) decider.new prover.new)) }
    ensures spent { IfOk result (λ answer. answer ≡ None → budget.new.spent ≡ 2 ^ 64 - 1) }
    ensures store { OnOk result (KnowsMore decider.old.store decider.new.store) }
    ensures rest { without_words stack.new ≡ without_words stack.old }
{
    live_are_well_sorted();
    let Ok(verdict) = prover.check(decider, stack, decided, false, &mut NoTape, budget) else {
        return Err(AllocError);
    };
    Ok(if_known(verdict))
}

/// The verdict, unless it is `Unknown`.
fn if_known(verdict: Verdict) -> Option<Verdict>
    ensures some { IfSome result (λ v. (v ≡ verdict) × IsKnown v) }
    ensures none { result ≡ None → verdict ≡ Verdict.Unknown }
{
    match verdict {
        Verdict::Sat { words, truths } => Some(Verdict::Sat { words, truths }),
        Verdict::Unsat(assumptions) => Some(Verdict::Unsat(assumptions)),
        Verdict::Unknown => None,
        Verdict::Outside => Some(Verdict::Outside),
    }
}
