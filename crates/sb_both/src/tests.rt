//! A script that is answered, and its proof that is accepted, where memory is ample.

use crate::solve_and_check;
use sb_check::CheckStatus;
use sb_session::SolveStatus;
use std::alloc::{AllocError, Global};
use std::process::Abort;
use std::test::Fail;

/// A check that is sat, and one that is unsat.
const SCRIPT: &[u8] =
    b"(declare-const x String)(assert (str.in_re x (re.* (str.to_re \"a\"))))(check-sat)\
      (assert (str.in_re x (re.+ (str.to_re \"b\"))))(check-sat)";

/// Expects a script to be answered to its end, and its proof to be accepted.
fn expect_accepted(rt: &impl Abort, alloc: Global, script: &[u8]) -> Result<(), AllocError> {
    let (solved, checked) = solve_and_check(alloc, script)?;
    assert!(rt; solved == SolveStatus::Done);
    assert!(rt; checked == CheckStatus::Accepted);
    Ok(())
}

#[test]
fn what_the_solver_writes_the_checker_accepts(rt: HostRuntime) -> Result<(), Fail> {
    expect_accepted(&rt, rt.alloc(), SCRIPT)?;
    Ok(())
}
