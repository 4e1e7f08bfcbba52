//! `run_cases FILE..`: runs the solver and the checker of proofs over worlds in memory, as the cases of the files say,
//! and compares what comes of each run with what is wanted.
//!
//! For each run that differs it prints the file, the case, the run's number and what differs, with what was wanted and
//! what came. At the end it prints how many cases and runs there were, and how many runs differ. The exit status is 1
//! where a run differs, or where a file can't be read or understood. `sb_runs` does the work.
#![tactic(auto)]

use sb_runs::run;
use std::process::ExitCode;

fn main(rt: HostRuntime) -> ExitCode {
    run(rt)
}
