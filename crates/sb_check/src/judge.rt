//! Lines where a check waits.

ghost use Rattle.std.specs.Prelude.{◌≡◌, ◌&&◌, ◌==◌, ◌+◌, ◌-◌, ◌^◌, ◌<◌, false, true, None, map, option_map, IfOk, IfErr, OnOk};
ghost use Rattle.sb_script.specs.State.{start};
ghost use Rattle.sb_script.specs.Fragment.{in_fragment};
ghost use Rattle.sb_rulebook.specs.Kept.{AllKept};
ghost use Rattle.sb_rulebook.specs.Lines.{header_line, said_sat, said_unsat};
ghost use Rattle.sb_rulebook.specs.Follows.{follows};
ghost use Rattle.sb_rulebook.specs.Verdicts.{refusal_of, unless_wrong};
ghost use Rattle.sb_rulebook.specs.Judging.{Phase, Progress, beginning, at_rest, at_end, behind_end, takes_last, takes_in, takes_first, takes_kept, takes_verdict};
ghost use Rattle.sb_rulebook.specs.JudgingTexts.{takes};
ghost use Rattle.sb_rulebook.specs.Accepted.{asked_in};
ghost use Rattle.sb_proof.specs.Lines.{line_in, said_in, value_in};
ghost use Rattle.sb_stack.specs.Stacked.{state_of, question_of};
ghost use Rattle.sb_rules.specs.Kept.{kept_in};
ghost use Rattle.sb_check.specs.Reasons.{reason_in};
ghost use Rattle.sb_check.specs.Standing.{IsStanding, IsAt, IsSame, IsAtLast, IsNotTaken, IsRefusal, Took, TookLast, said_when, waiting_in};

use crate::denial::refutes;
use crate::reason::{JudgeFault, Reason, TakeFault, of_refusal, of_text};
use sb_models::Models;
use sb_plain::right_stays;
use sb_problem::normals_stay;
use sb_proof::{Line, Said, Value, read_line};
use sb_rules::{Fault, Kept};
use sb_stack::Stack;
use std::alloc::{AllocError, Global};

/// A script and its proof, as far as they have come.
#[derive(Drop)]
pub struct Judge {
    pub alloc: Global,
    pub stack: Stack,
    pub kept: Kept,
    pub models: Models,
    /// The first line of the proof has come.
    pub begun: bool,
    /// The number of the next line, from 1.
    pub next: u64,
}

impl Judge {
    /// The beginning of a script and of its proof. Takes no memory.
    pub fn new(alloc: Global) -> Judge
        ensures standing { IsStanding result }
        ensures at { IsAt at_rest result beginning }
        ensures state { state_of result.stack ≡ start }
    {
        Judge {
            alloc,
            stack: Stack::new(alloc),
            kept: Kept::new(alloc),
            models: Models::new(alloc),
            begun: false,
            next: 1,
        }
    }

    /// Judges a line where a check waits: the text in front of a line feed, or, where the proof ends without one, what
    /// stands behind the last line feed, and `ended` is false. Answers the verdict, where the line is one. Its cost is
    /// that of the line's kind. After an error nothing more may be judged.
    pub fn take(&mut self, text: &[u8], ended: bool) -> Result<Option<Said>, TakeFault>
        requires { IsStanding self.old }
        ensures ok { IfOk result (λ said. (p : Progress) → IsAt (waiting_in self.old.stack) self.old p
            → Took said self.new p.said (takes (text.now, ended) p)) }
        ensures err { IfErr result (λ fault. (p : Progress) → IsAt (waiting_in self.old.stack) self.old p
            → IsNotTaken fault p (takes (text.now, ended) p)) }
        ensures numbers { IfErr result (λ fault. IsAtLast fault self.old.next) }
        ensures stack { self.new.stack ≡ self.old.stack }
        ensures next { OnOk result (self.new.next ≡ self.old.next + 1) }
        ensures standing { IsStanding self.new }
    {
        if self.next == u64::MAX {
            return Err(TakeFault::PastNumbers);
        }
        let said = self.take_numbered(text, ended)?;
        Ok(said)
    }

    /// Judges a line where a check waits, whose number is not the last one.
    fn take_numbered(&mut self, text: &[u8], ended: bool) -> Result<Option<Said>, JudgeFault>
        requires standing { IsStanding self.old }
        requires room { self.old.next + 1 < 2 ^ 64 }
        ensures ok { IfOk result (λ said. (p : Progress) → IsAt (waiting_in self.old.stack) self.old p
            → Took said self.new p.said (takes (text.now, ended) p)) }
        ensures err { IfErr result (λ fault. (p : Progress) → IsAt (waiting_in self.old.stack) self.old p
            → IsRefusal fault p (takes (text.now, ended) p)) }
        ensures stack { self.new.stack ≡ self.old.stack }
        ensures next { OnOk result (self.new.next ≡ self.old.next + 1) }
        ensures standing { IsStanding self.new }
    {
        match read_line(self.alloc, text, ended)? {
            Ok(line) => {
                if self.take_line(&line)? {
                    return Ok(said_of(line));
                }
                Ok(None)
            }
            Err(fault) => Err(JudgeFault::Refused(self.next, of_text(fault))),
        }
    }

    /// Judges a line where the end of the proof is due, and says whether it is the last line. The text is as `take` has
    /// it. After an error nothing more may be judged.
    pub fn take_last(&mut self, text: &[u8], ended: bool) -> Result<bool, TakeFault>
        requires { IsStanding self.old }
        ensures ok { IfOk result (λ last. (p : Progress) → IsAt at_end self.old p
            → TookLast last self.new p.said (takes (text.now, ended) p)) }
        ensures err { IfErr result (λ fault. (p : Progress) → IsAt at_end self.old p
            → IsNotTaken fault p (takes (text.now, ended) p)) }
        ensures numbers { IfErr result (λ fault. IsAtLast fault self.old.next) }
        ensures stack { self.new.stack ≡ self.old.stack }
        ensures next { OnOk result (self.new.next ≡ self.old.next + 1) }
        ensures standing { IsStanding self.new }
    {
        if self.next == u64::MAX {
            return Err(TakeFault::PastNumbers);
        }
        let last = self.take_last_numbered(text, ended)?;
        Ok(last)
    }

    /// Judges a line where the end of the proof is due, whose number is not the last one.
    fn take_last_numbered(&mut self, text: &[u8], ended: bool) -> Result<bool, JudgeFault>
        requires standing { IsStanding self.old }
        requires room { self.old.next + 1 < 2 ^ 64 }
        ensures ok { IfOk result (λ last. (p : Progress) → IsAt at_end self.old p
            → TookLast last self.new p.said (takes (text.now, ended) p)) }
        ensures err { IfErr result (λ fault. (p : Progress) → IsAt at_end self.old p
            → IsRefusal fault p (takes (text.now, ended) p)) }
        ensures stack { self.new.stack ≡ self.old.stack }
        ensures next { OnOk result (self.new.next ≡ self.old.next + 1) }
        ensures standing { IsStanding self.new }
    {
        match read_line(self.alloc, text, ended)? {
            Ok(line) => self.take_end(&line),
            Err(fault) => Err(JudgeFault::Refused(self.next, of_text(fault))),
        }
    }

    /// Judges a line that was read where the end is due, and says whether it is the last line.
    fn take_end(&mut self, line: &Line) -> Result<bool, JudgeFault>
        requires standing { IsStanding self.old }
        requires room { self.old.next + 1 < 2 ^ 64 }
        ensures ok { IfOk result (λ last. (p : Progress) → IsAt at_end self.old p
            → TookLast last self.new p.said (takes_in p.phase (line_in line.now) p)) }
        ensures err { IfErr result (λ fault. (p : Progress) → IsAt at_end self.old p
            → IsRefusal fault p (takes_in p.phase (line_in line.now) p)) }
        ensures stack { self.new.stack ≡ self.old.stack }
        ensures next { OnOk result (self.new.next ≡ self.old.next + 1) }
        ensures standing { IsStanding self.new }
    {
        if !self.begun {
            self.take_first(line)?;
            return Ok(false);
        }
        self.end(line)?;
        Ok(true)
    }

    /// The last line is `end`.
    fn end(&mut self, line: &Line) -> Result<(), JudgeFault>
        requires standing { IsStanding self.old }
        requires begun { self.old.begun ≡ true }
        requires room { self.old.next + 1 < 2 ^ 64 }
        ensures ok { OnOk result ((p : Progress) → IsAt at_end self.old p
            → IsAt behind_end self.new (takes_last (line_in line.now) p)
            × ((takes_last (line_in line.now) p).said ≡ p.said)) }
        ensures err { IfErr result (λ fault. (p : Progress) → IsAt at_end self.old p
            → IsRefusal fault p (takes_last (line_in line.now) p)) }
        ensures stack { self.new.stack ≡ self.old.stack }
        ensures next { OnOk result (self.new.next ≡ self.old.next + 1) }
        ensures standing { IsStanding self.new }
    {
        match line {
            Line::End => {
                self.next += 1;
                Ok(())
            }
            _ => Err(JudgeFault::Refused(self.next, Reason::Misplaced)),
        }
    }

    /// Why a line behind the last one is refused.
    pub fn refuse(&self, text: &[u8], ended: bool) -> JudgeFault
        ensures { (p : Progress) → IsAt behind_end self.now p → IsRefusal result p (takes (text.now, ended) p) }
    {
        match read_line(self.alloc, text, ended) {
            Ok(Ok(_)) => JudgeFault::Refused(self.next, Reason::Misplaced),
            Ok(Err(fault)) => JudgeFault::Refused(self.next, of_text(fault)),
            Err(_) => JudgeFault::NoMemory,
        }
    }

    /// Judges a line that was read, and says whether it is a verdict.
    fn take_line(&mut self, line: &Line) -> Result<bool, JudgeFault>
        requires standing { IsStanding self.old }
        requires room { self.old.next + 1 < 2 ^ 64 }
        ensures ok { IfOk result (λ verdict. (p : Progress) → IsAt (waiting_in self.old.stack) self.old p
            → Took (said_when verdict line.now) self.new p.said (takes_in p.phase (line_in line.now) p)) }
        ensures err { IfErr result (λ fault. (p : Progress) → IsAt (waiting_in self.old.stack) self.old p
            → IsRefusal fault p (takes_in p.phase (line_in line.now) p)) }
        ensures stack { self.new.stack ≡ self.old.stack }
        ensures next { OnOk result (self.new.next ≡ self.old.next + 1) }
        ensures standing { IsStanding self.new }
    {
        if !self.begun {
            self.take_first(line)?;
            return Ok(false);
        }
        if let Line::Verdict(said) = line {
            self.take_verdict(said)?;
            return Ok(true);
        }
        self.take_kept(line)?;
        Ok(false)
    }

    /// The first line says the format.
    fn take_first(&mut self, line: &Line) -> Result<(), JudgeFault>
        requires standing { IsStanding self.old }
        requires first { self.old.begun ≡ false }
        requires room { self.old.next + 1 < 2 ^ 64 }
        ensures ok { OnOk result ((phase : Phase) (p : Progress) → IsAt phase self.old p
            → IsAt phase self.new (takes_first (line_in line.now) p)
            × ((takes_first (line_in line.now) p).said ≡ p.said)) }
        ensures err { IfErr result (λ fault. (phase : Phase) (p : Progress) → IsAt phase self.old p
            → IsRefusal fault p (takes_first (line_in line.now) p)) }
        ensures stack { self.new.stack ≡ self.old.stack }
        ensures next { OnOk result (self.new.next ≡ self.old.next + 1) }
        ensures standing { IsStanding self.new }
    {
        match line {
            Line::Header(format) => self.begin(*format),
            _ => Err(JudgeFault::Refused(self.next, Reason::Misplaced)),
        }
    }

    /// The proof begins, if it is of a format that is read.
    fn begin(&mut self, format: u64) -> Result<(), JudgeFault>
        requires standing { IsStanding self.old }
        requires first { self.old.begun ≡ false }
        requires room { self.old.next + 1 < 2 ^ 64 }
        ensures ok { OnOk result ((phase : Phase) (p : Progress) → IsAt phase self.old p
            → IsAt phase self.new (takes_first (header_line format) p)
            × ((takes_first (header_line format) p).said ≡ p.said)) }
        ensures err { IfErr result (λ fault. (phase : Phase) (p : Progress) → IsAt phase self.old p
            → IsRefusal fault p (takes_first (header_line format) p)) }
        ensures stack { self.new.stack ≡ self.old.stack }
        ensures next { OnOk result (self.new.next ≡ self.old.next + 1) }
        ensures standing { IsStanding self.new }
    {
        if format == 1 {
            self.begun = true;
            self.next += 1;
            Ok(())
        } else {
            Err(JudgeFault::Refused(self.next, Reason::Misplaced))
        }
    }

    /// A line that adds to what is kept.
    fn take_kept(&mut self, line: &Line) -> Result<(), JudgeFault>
        requires standing { IsStanding self.old }
        requires begun { self.old.begun ≡ true }
        requires room { self.old.next + 1 < 2 ^ 64 }
        ensures ok { OnOk result ((p : Progress) → IsAt (waiting_in self.old.stack) self.old p
            → IsAt (waiting_in self.old.stack) self.new
            (takes_kept (follows (asked_in (state_of self.old.stack)) p.kept (line_in line.now)) p)) }
        ensures err { IfErr result (λ fault. (p : Progress) → IsAt (waiting_in self.old.stack) self.old p
            → IsRefusal fault p (takes_kept (follows (asked_in (state_of self.old.stack)) p.kept (line_in line.now)) p)) }
        ensures stack { self.new.stack ≡ self.old.stack }
        ensures next { OnOk result (self.new.next ≡ self.old.next + 1) }
        ensures standing { IsStanding self.new }
    {
        match self.kept.follows(
            self.stack.table(),
            self.stack.assertions(),
            self.stack.sorts(),
            0,
            line,
        ) {
            Ok(()) => {
                self.next += 1;
                Ok(())
            }
            Err(Fault::Refused(refusal)) => {
                Err(JudgeFault::Refused(self.next, of_refusal(refusal)))
            }
            Err(Fault::NoMemory) => Err(JudgeFault::NoMemory),
        }
    }

    /// A verdict, if it follows.
    fn take_verdict(&mut self, said: &Said) -> Result<(), JudgeFault>
        requires standing { IsStanding self.old }
        requires begun { self.old.begun ≡ true }
        requires room { self.old.next + 1 < 2 ^ 64 }
        ensures ok { OnOk result ((p : Progress) → IsAt (waiting_in self.old.stack) self.old p
            → IsAt at_rest self.new (takes_verdict (said_in said.now) None p)
            × (refusal_of (question_of self.old.stack) p.kept (said_in said.now) ≡ None)) }
        ensures err { IfErr result (λ fault. (p : Progress) → IsAt (waiting_in self.old.stack) self.old p
            → IsRefusal fault p (takes_verdict (said_in said.now)
            (refusal_of (question_of self.old.stack) p.kept (said_in said.now)) p)) }
        ensures stack { self.new.stack ≡ self.old.stack }
        ensures next { OnOk result (self.new.next ≡ self.old.next + 1) }
        ensures standing { IsStanding self.new }
    {
        match self.wrong(said)? {
            Some(reason) => Err(JudgeFault::Refused(self.next, reason)),
            None => {
                self.kept.counted = 0;
                self.next += 1;
                Ok(())
            }
        }
    }

    /// Why a verdict does not follow, if it does not.
    fn wrong(&mut self, said: &Said) -> Result<Option<Reason>, AllocError>
        requires { IsStanding self.old }
        ensures ok { IfOk result (λ found. (others : AllKept) → others.format ≡ 1
            → refusal_of (question_of self.old.stack) (kept_in self.old.kept others) (said_in said.now)
            ≡ option_map reason_in found) }
        ensures kept { (others : AllKept) → kept_in self.new.kept others ≡ kept_in self.old.kept others }
        ensures same { IsSame self.old self.new }
        ensures standing { IsStanding self.new }
    {
        match said {
            Said::Sat(values) => self.wrong_values(values),
            Said::Unsat(id) => self.wrong_clause(*id),
            Said::Unknown(limit) => {
                let inside = self.is_inside()?;
                let used_up = is_used_up(*limit, self.kept.counted);
                Ok(unless_both(inside, used_up))
            }
            Said::Unsupported => Ok(unless(!self.is_inside()?)),
        }
    }

    /// Why values are no model, if they are none.
    fn wrong_values(&mut self, values: &[Value]) -> Result<Option<Reason>, AllocError>
        requires { IsStanding self.old }
        ensures ok { IfOk result (λ found. (others : AllKept) → others.format ≡ 1
            → refusal_of (question_of self.old.stack) (kept_in self.old.kept others)
            (said_sat (map value_in values.now)) ≡ option_map reason_in found) }
        ensures kept { (others : AllKept) → kept_in self.new.kept others ≡ kept_in self.old.kept others }
        ensures same { IsSame self.old self.new }
        ensures standing { IsStanding self.new }
    {
        right_stays();
        normals_stay();
        if !self.is_inside()? {
            return Ok(Some(Reason::WrongVerdict));
        }
        let right = self.models.is_model(
            self.alloc,
            &mut self.kept.plain,
            &mut self.kept.normals,
            &mut self.kept.arena,
            &self.stack,
            values,
        )?;
        Ok(unless(right))
    }

    /// Why a clause does not refute the check under its assumptions, if it does not.
    fn wrong_clause(&mut self, id: u64) -> Result<Option<Reason>, AllocError>
        requires { IsStanding self.old }
        ensures ok { IfOk result (λ found. (others : AllKept) → others.format ≡ 1
            → refusal_of (question_of self.old.stack) (kept_in self.old.kept others)
            (said_unsat id None) ≡ option_map reason_in found) }
        ensures kept { (others : AllKept) → kept_in self.new.kept others ≡ kept_in self.old.kept others }
        ensures same { IsSame self.old self.new }
        ensures standing { IsStanding self.new }
    {
        let Some(literals) = self.kept.clauses.clause(id) else {
            return Ok(Some(Reason::UnknownId));
        };
        let refuted = refutes(
            self.alloc,
            &self.kept.atoms,
            self.stack.assumptions(),
            literals,
        )?;
        let inside = self.is_inside()?;
        Ok(unless_both(inside, refuted))
    }

    /// Whether the check is inside the fragment.
    fn is_inside(&mut self) -> Result<bool, AllocError>
        requires { IsStanding self.old }
        ensures ok { IfOk result (λ inside. inside ≡ in_fragment (state_of self.old.stack)) }
        ensures kept { (others : AllKept) → kept_in self.new.kept others ≡ kept_in self.old.kept others }
        ensures same { IsSame self.old self.new }
        ensures standing { IsStanding self.new }
    {
        self.models.is_inside(&mut self.kept.measures, &self.stack)
    }
}

/// The verdict that a line says, if it is one.
fn said_of(line: Line) -> Option<Said>
    ensures { result ≡ said_when true line }
{
    match line {
        Line::Verdict(said) => Some(said),
        _ => None,
    }
}

/// Whether so many counted lines are as many as may be, and the verdict says so.
fn is_used_up(limit: u64, counted: u64) -> bool
    ensures { result ≡ ((limit == 2 ^ 64 - 1) && (counted == limit)) }
{
    limit == u64::MAX && counted == limit
}

/// The verdict is wrong unless both hold.
fn unless_both(one: bool, other: bool) -> Option<Reason>
    ensures { option_map reason_in result ≡ unless_wrong (one && other) }
{
    unless(one && other)
}

/// The verdict is wrong unless this holds.
fn unless(right: bool) -> Option<Reason>
    ensures { option_map reason_in result ≡ unless_wrong right }
{
    if right {
        None
    } else {
        Some(Reason::WrongVerdict)
    }
}
