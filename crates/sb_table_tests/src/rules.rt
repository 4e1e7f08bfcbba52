//! Lines of proofs one behind the other, some with a limit of their own, which no script can set.

ghost use Rattle.sb_rules.specs.Kept.{IsOver};

use sb_proof::{LineFault, read_line};
use sb_rules::{Fault, Kept, Refusal};
use sb_term::{Sort, Table};
use std::alloc::{AllocError, Global};
use std::process::Abort;
use std::test::Fail;

/// A line, a limit, none where it is 0, and whether the line has more steps than that.
type Row = (&'static [u8], u64, bool);

/// The sorts of the constants that are declared.
static SORTS: [Sort; 2] = [Sort::String, Sort::Bool];

/// Two memberships that exclude each other.
static LINES: [Row; 15] = [
    (b"r set 61-61", 0, false),
    (b"r star 0", 0, false),
    (b"r set 62-62", 0, false),
    (b"r star 2", 0, false),
    (b"r cat 2 3", 0, false),
    (b"r and 4 1", 0, false),
    (b"r none", 0, false),
    (b"a in v0 : 1", 0, false),
    (b"a in v0 : 4", 0, false),
    (b"x 5 0-2ffff>6", 0, false),
    (b"x 6 0-2ffff>6", 1, true),
    (b"x 6 0-2ffff>6", 2, false),
    (b"d 5 6", 0, false),
    (b"c empty -0 -1", 2, true),
    (b"c empty -0 -1", 3, false),
];

/// Two memberships and a conjunction. The first regex has no word, and the second one has all.
static EMPTY: [Row; 9] = [
    (b"r none", 0, false),
    (b"r not 0", 0, false),
    (b"a in v0 : 1", 0, false),
    (b"a in v0 : 0", 0, false),
    (b"a and", 0, false),
    (b"x 0 0-2ffff>0", 0, false),
    (b"d 0", 0, false),
    (b"c empty +0 +1", 0, false),
    (b"c empty +0", 2, true),
];

/// Whether a line has more steps than the limit; an error where it does not follow for another reason.
fn is_past(
    alloc: Global,
    table: &Table,
    kept: &mut Kept,
    text: &[u8],
    limit: u64,
) -> Result<bool, AllocError>
    requires { IsOver table.now kept.old }
    ensures { IsOver table.now kept.new }
{
    match read_line(alloc, text, true)? {
        Ok(line) => {
            let followed = kept.follows(table, &[], &SORTS, limit, &line);
            drop(line);
            verdict_of(followed)
        }
        Err(_) => Err(AllocError),
    }
}

/// Whether the limit was met; an error where a line was refused for another reason.
fn verdict_of(followed: Result<(), Fault>) -> Result<bool, AllocError> {
    match followed {
        Ok(()) => Ok(false),
        Err(Fault::Refused(Refusal::WrongVerdict)) => Ok(true),
        Err(_) => Err(AllocError),
    }
}

/// Goes through rows.
fn follow(
    rt: &impl Abort,
    alloc: Global,
    table: &Table,
    kept: &mut Kept,
    rows: &[Row],
) -> Result<(), AllocError>
    requires { IsOver table.now kept.old }
{
    for row in rows {
        let past = is_past(alloc, table, kept, row.0, row.1)?;
        assert!(rt; past == row.2);
    }
    Ok(())
}

/// Goes through rows, where no terms are known and nothing is kept.
fn go_through(rt: &impl Abort, alloc: Global, rows: &[Row]) -> Result<(), AllocError> {
    let table = Table::new(alloc);
    let mut kept = Kept::new(alloc);
    let followed = follow(rt, alloc, &table, &mut kept, rows);
    drop(kept);
    drop(table);
    followed
}

/// Whether no bytes that no line feed ends are no line.
fn is_no_line(alloc: Global) -> Result<bool, AllocError> {
    match read_line(alloc, b"", false)? {
        Err(LineFault::BadWord) => Ok(true),
        other => {
            drop(other);
            Ok(false)
        }
    }
}

/// Goes through all rows, and looks at what is no line.
fn judge(rt: &impl Abort, alloc: Global) -> Result<(), AllocError> {
    go_through(rt, alloc, &LINES)?;
    go_through(rt, alloc, &EMPTY)?;
    let none = is_no_line(alloc)?;
    assert!(rt; none);
    Ok(())
}

#[test]
fn lines_are_judged_up_to_a_limit(rt: HostRuntime) -> Result<(), Fail> {
    judge(&rt, rt.alloc())?;
    Ok(())
}
