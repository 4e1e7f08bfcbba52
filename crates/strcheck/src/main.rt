//! `strcheck SCRIPT PROOF`: checks a proof that strsolve wrote against its script, and confirms on standard output each
//! verdict that follows.
//!
//! The exit status is 0 where the proof is accepted, 1 where it is refused, 2 where the program's words are wrong or
//! ask for a text, 3 where input or output failed, 4 where memory ran out, 5 where `2^32` bytes of the script or of the
//! proof were read without an end. For 2 to 5 standard error says why.
#![tactic(auto)]

ghost use Rattle.std.specs.Prelude.{◌≡◌};
ghost use Rattle.std.specs.Process.{exit_status};
ghost use Rattle.strcheck.specs.Exit.{number_of};

use sb_check::{CheckStatus, check_top};
use sb_std_world::{NoWords, StdWorld, say, words};
use std::process::ExitCode;

fn main(rt: HostRuntime) -> ExitCode {
    let mut world = StdWorld::new(rt);
    let status = match words(rt, "strcheck") {
        Ok(words) => check_top(rt.alloc(), &words, &mut world),
        Err(NoWords::NoMemory) => CheckStatus::NoMemory,
        Err(NoWords::NoText) => CheckStatus::Usage,
    };
    if let Some(why) = reason(status, &world) {
        say(rt, "strcheck", why);
    }
    exit_code(status)
}

/// What the system is told of the run.
pub fn exit_code(status: CheckStatus) -> ExitCode
    ensures { exit_status result ≡ number_of status }
{
    ExitCode::from(match status {
        CheckStatus::Accepted => 0,
        CheckStatus::Refused => 1,
        CheckStatus::Usage => 2,
        CheckStatus::Fault => 3,
        CheckStatus::NoMemory => 4,
        CheckStatus::InputLimit => 5,
    })
}

/// Why the run ended so, where nothing that was written says it.
fn reason(status: CheckStatus, world: &StdWorld) -> Option<&str> {
    match status {
        CheckStatus::Accepted | CheckStatus::Refused | CheckStatus::Usage => None,
        CheckStatus::Fault => Some(world.first_failure().unwrap_or("input or output failed")),
        CheckStatus::NoMemory => Some("out of memory"),
        CheckStatus::InputLimit => Some("the script or the proof has 2^32 bytes or more"),
    }
}
