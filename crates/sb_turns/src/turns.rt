//! The runs of a case, once or in turns.

use crate::programs::Programs;
use crate::runs::run;
use crate::stage::{Stage, Turn};
use sb_cases::case::{Case, Kind};
use sb_cases::directive::Directive;
use sb_cases::fault::Fault;
use sb_cases::reader::number;
use std::io::Write;

/// What was run so far.
#[derive(Drop)]
pub struct Tally {
    rt: HostRuntime,
    pub cases: u64,
    pub runs: u64,
    pub differ: u64,
    /// All was read, understood and printed.
    pub whole: bool,
    pub stage: Stage,
}

impl Tally {
    /// Nothing was run.
    pub fn new(rt: HostRuntime) -> Tally {
        Tally {
            rt,
            cases: 0,
            runs: 0,
            differ: 0,
            whole: true,
            stage: Stage::new(rt.alloc()),
        }
    }

    /// Begins a case.
    pub fn begin(&mut self) {
        self.cases = self.cases.saturating_add(1);
        self.stage.run.number = 0;
    }

    /// Runs a case, once or in turns, and compares what comes with the answers and with what else is wanted.
    pub fn run<P: Programs>(&mut self, case: &mut Case) -> Result<(), Fault> {
        may_fail(case)?;
        self.set_proof(case)?;
        self.run_lengths::<P>(case)?;
        case.pass();
        if case.is_whole() && self.stage.is_whole() {
            return Ok(());
        }
        Err(Fault::NoMemory)
    }

    /// Sets the proof with its changes.
    fn set_proof(&mut self, case: &Case) -> Result<(), Fault> {
        self.stage.proof.clear();
        if case.add_proof(&mut self.stage.proof) {
            return Ok(());
        }
        Err(Fault::Line)
    }

    /// Runs a case for each number of bytes that a read gives at most.
    fn run_lengths<P: Programs>(&mut self, case: &Case) -> Result<(), Fault> {
        if case.last(Directive::Pieces) > 0 {
            self.run_up_to::<P>(case);
            return Ok(());
        }
        if !case.has(Directive::Pieces) {
            self.run_calls::<P>(usize::MAX, case);
            return Ok(());
        }
        if self.run_numbers::<P>(case.words(Directive::Pieces), case) {
            return Ok(());
        }
        Err(Fault::Pieces)
    }

    /// Runs a case for each of these numbers of bytes, and says whether they are numbers from 1 on.
    fn run_numbers<P: Programs>(&mut self, numbers: &str, case: &Case) -> bool {
        let mut right = !numbers.is_empty();
        for word in numbers.split_whitespace() {
            match number(word) {
                Some(length) if length > 0 => self.run_calls::<P>(length as usize, case),
                _ => right = false,
            }
        }
        right
    }

    /// Runs a case for each number of bytes from 1 up to the length of the script or of the proof.
    fn run_up_to<P: Programs>(&mut self, case: &Case) {
        let script = case.block(Directive::Script).len();
        let most = self.stage.proof.bytes().len().max(script);
        for length in 1..=most {
            self.run_calls::<P>(length, case);
        }
    }

    /// Runs a case for each call that is to fail.
    fn run_calls<P: Programs>(&mut self, length: usize, case: &Case) {
        for fails in case.first(Directive::Fail)..=case.last(Directive::Fail) {
            self.run_fronts::<P>(length, fails, case);
        }
    }

    /// Runs a case with the whole script and proof, or for each front of the script, or of the proof.
    fn run_fronts<P: Programs>(&mut self, length: usize, fails: u64, case: &Case) {
        let script = case.block(Directive::Script).len();
        let proof = self.stage.proof.bytes().len();
        let turn = Turn {
            length,
            fails,
            script,
            end: proof,
        };
        if case.last(Directive::Cuts) > 0 {
            return self.run_cuts::<P>(turn, case);
        }
        if case.last(Directive::Fronts) == 0 {
            return self.run_once::<P>(turn, case);
        }
        for end in 0..proof {
            self.run_once::<P>(Turn { end, ..turn }, case);
        }
    }

    /// Runs a case for each front of the script.
    fn run_cuts<P: Programs>(&mut self, turn: Turn, case: &Case) {
        for script in 0..turn.script {
            self.run_once::<P>(Turn { script, ..turn }, case);
        }
    }

    /// Runs a case once.
    fn run_once<P: Programs>(&mut self, turn: Turn, case: &Case) {
        self.runs = self.runs.saturating_add(1);
        self.stage.turn = turn;
        self.stage.run.begin(case);
        run::<P>(case, &mut self.stage);
        self.end();
    }

    /// Prints what differs in the run.
    fn end(&mut self) {
        let text = self.stage.run.text.bytes();
        if text.is_empty() {
            return;
        }
        self.differ = self.differ.saturating_add(1);
        match self.rt.stdout().write_all(text) {
            Ok(()) => {}
            Err(_) => self.whole = false,
        }
    }
}

/// Refuses a call that is to fail in a kind of case where none does.
fn may_fail(case: &Case) -> Result<(), Fault> {
    match case.kind {
        Kind::Solve | Kind::Check => Ok(()),
        _ if case.last(Directive::Fail) == 0 => Ok(()),
        _ => Err(Fault::Fail),
    }
}
