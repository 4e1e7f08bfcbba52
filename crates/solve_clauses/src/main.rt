//! `solve_clauses`: searches over clauses in DIMACS, as tests and to be timed.
//!
//! `solve_clauses search FILE ..` reads clauses from standard input, searches as the solver does, over a theory that finds
//! nothing wrong, and says whether some values make all of them true, and how many steps were spent. Then it goes through
//! the cases of the files, and prints what they come to. `solve_clauses rounds N` reads nothing: so often ten clauses are
//! kept, propagated and dropped. The exit status is 1 where input, output or memory failed, and 2 where the words are
//! wrong. `sb_dimacs` does the work.
#![tactic(auto)]

use sb_dimacs::run;
use std::process::ExitCode;

fn main(rt: HostRuntime) -> ExitCode {
    run(rt)
}
