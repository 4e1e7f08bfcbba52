//! `strsolve [--proof FILE] [SCRIPT]`: answers the SMT-LIB script of a file, or of standard input, on standard output.
//!
//! The exit status is 0 where the script is answered to its end or to `(exit)`, 1 where it ended within a form,
//! 2 where the program's words are wrong or ask for a text, 3 where input or output failed, 4 where memory ran out,
//! 5 where `2^32` bytes of the script were read without an end. For 2 to 5 standard error says why.
#![tactic(auto)]

ghost use Rattle.std.specs.Prelude.{◌≡◌};
ghost use Rattle.std.specs.Process.{exit_status};
ghost use Rattle.strsolve.specs.Exit.{number_of};

use sb_session::{SolveStatus, solve_top};
use sb_std_world::{NoWords, StdWorld, say, words};
use std::process::ExitCode;

fn main(rt: HostRuntime) -> ExitCode {
    let mut world = StdWorld::new(rt);
    let status = match words(rt, "strsolve") {
        Ok(words) => solve_top(rt.alloc(), &words, &mut world),
        Err(NoWords::NoMemory) => SolveStatus::NoMemory,
        Err(NoWords::NoText) => SolveStatus::Usage,
    };
    if let Some(why) = reason(status, &world) {
        say(rt, "strsolve", why);
    }
    exit_code(status)
}

/// What the system is told of the run.
pub fn exit_code(status: SolveStatus) -> ExitCode
    ensures { exit_status result ≡ number_of status }
{
    ExitCode::from(match status {
        SolveStatus::Done => 0,
        SolveStatus::Unfinished => 1,
        SolveStatus::Usage => 2,
        SolveStatus::Fault => 3,
        SolveStatus::NoMemory => 4,
        SolveStatus::InputLimit => 5,
    })
}

/// Why the run ended so, where nothing that was written says it.
fn reason(status: SolveStatus, world: &StdWorld) -> Option<&str> {
    match status {
        SolveStatus::Done | SolveStatus::Unfinished | SolveStatus::Usage => None,
        SolveStatus::Fault => Some(world.first_failure().unwrap_or("input or output failed")),
        SolveStatus::NoMemory => Some("out of memory"),
        SolveStatus::InputLimit => Some("the script has 2^32 bytes or more"),
    }
}
