//! The programs of this repository, as cases run them.

use crate::sessions::answer_script;
use sb_check::{CheckStatus, check_top, check_within};
use sb_session::{SolveStatus, solve_top, solve_within};
use sb_turns::Programs;
use sb_world::{MemWorld, World};
use std::alloc::{AllocError, Global};
use std::process::ExitCode;

/// Runs the cases of the files that the program's words name, and prints what differs. The exit status is 1 where a run
/// differs, or where a file can't be read or understood.
pub fn run(rt: HostRuntime) -> ExitCode {
    sb_turns::run::<SolverAndChecker>(rt)
}

/// The solver and the checker of proofs.
struct SolverAndChecker;

impl Programs for SolverAndChecker {
    fn solve<W: World>(
        alloc: Global,
        words: &[String],
        world: &mut W,
        limit: Option<u64>,
    ) -> &'static str {
        solve_status(match limit {
            None => solve_top(alloc, words, world),
            Some(limit) => solve_within(alloc, words, world, limit),
        })
    }

    fn check<W: World>(
        alloc: Global,
        words: &[String],
        world: &mut W,
        limit: Option<u64>,
    ) -> &'static str {
        check_status(match limit {
            None => check_top(alloc, words, world),
            Some(limit) => check_within(alloc, words, world, limit),
        })
    }

    fn answer(
        alloc: Global,
        script: &[u8],
        world: &mut MemWorld,
    ) -> Result<&'static str, AllocError> {
        answer_script(alloc, script, world)
    }
}

/// The word for a status of the solver.
fn solve_status(status: SolveStatus) -> &'static str {
    match status {
        SolveStatus::Done => "done",
        SolveStatus::Unfinished => "unfinished",
        SolveStatus::Usage => "usage",
        SolveStatus::Fault => "fault",
        SolveStatus::NoMemory => "no-memory",
        SolveStatus::InputLimit => "limit",
    }
}

/// The word for a status of the checker.
fn check_status(status: CheckStatus) -> &'static str {
    match status {
        CheckStatus::Accepted => "accepted",
        CheckStatus::Refused => "refused",
        CheckStatus::Usage => "usage",
        CheckStatus::Fault => "fault",
        CheckStatus::NoMemory => "no-memory",
        CheckStatus::InputLimit => "limit",
    }
}
