//! Lines of proofs as texts, as docs/PROOF-FORMAT.md has them, and on a tape.

use sb_proof::{Atom, Line, MemTape, Node, Tape, TapeFault, Variable, print_line, read_line};
use std::alloc::{AllocError, Global};
use std::process::Abort;
use std::test::Fail;

/// Texts of each kind of line, of each regex, atom, rule and verdict, and of each field at its limits.
static LINES: [&str; 43] = [
    "strproof 1",
    "strproof 18446744073709551615",
    "r none",
    "r eps",
    "r set 0-2ffff",
    "r set 61-61,80-ffffffffffffffff",
    "r cat 2 3",
    "r alt 10 9 0",
    "r and 4",
    "r not 8",
    "r star 0",
    "r rep 1 0 18446744073709551615",
    "r path 5 6",
    "a bool 3",
    "a in : 0",
    "a in v0 w w61.1f600 : 4",
    "a le l2 -5",
    "a le i0 18446744073709551615",
    "a sum 0 3 i0",
    "a sum -18446744073709551615 3 i0 -1 l12",
    "a and",
    "a and -0 +7",
    "a iff -0 +7",
    "x 5",
    "x 5 0-2f>6 30-39,61-61>1",
    "d",
    "d 5 6",
    "c assert 1 +7",
    "c gate",
    "c order -0",
    "c linear -0 +1",
    "c step -0 +7",
    "c empty -0",
    "c learn :",
    "c learn : 0 1 2",
    "c learn -0 +7 :",
    "c learn -0 : 3",
    "v sat",
    "v sat t f -12 0 w w61.62",
    "v unsat 3",
    "v unknown 100",
    "v unsupported",
    "end",
];

/// Expects a line to print as the text.
fn prints_as(rt: &impl Abort, alloc: Global, line: Line, text: &str) -> Result<(), AllocError> {
    let printed = print_line(alloc, &line);
    drop(line);
    let printed = printed?;
    let same = printed.as_str().strip_suffix("\n") == Some(text);
    drop(printed);
    assert!(rt; same, "{text}");
    Ok(())
}

/// The text is read as a line, which prints as the text.
fn goes_round(rt: &impl Abort, alloc: Global, text: &str) -> Result<(), AllocError> {
    match read_line(alloc, text.as_bytes(), true)? {
        Ok(line) => prints_as(rt, alloc, line, text),
        Err(_) => {
            assert!(rt; false, "{text}");
            Ok(())
        }
    }
}

/// Texts are read as lines, which print as the texts, and numbers keep their order.
fn go_round(rt: &impl Abort, alloc: Global) -> Result<(), AllocError> {
    for text in &LINES {
        goes_round(rt, alloc, text)?;
    }
    let bound = Line::Atom(Atom::Le(Variable::Length(2), -5));
    prints_as(rt, alloc, bound, "a le l2 -5")?;
    prints_as(rt, alloc, Line::Regex(Node::Cat(2, 3)), "r cat 2 3")?;
    prints_as(rt, alloc, Line::Regex(Node::Rep(1, 2, 3)), "r rep 1 2 3")
}

#[test]
fn lines_go_round(rt: HostRuntime) -> Result<(), Fail> {
    go_round(&rt, rt.alloc())?;
    Ok(())
}

static WHOLE: &[u8] = b"strproof 1\nd 5 6\nend\n";

/// Puts three lines through the bound, as a writer of proofs does.
fn put_three<T: Tape>(tape: &mut T, dead: &Line) -> Result<(), TapeFault> {
    tape.put(&Line::Header(1))?;
    tape.put(dead)?;
    tape.put(&Line::End)
}

/// Expects the bytes of a tape to be the whole text, or whole lines of its front.
fn expect_lines(rt: &impl Abort, bytes: &[u8], whole: bool) {
    assert!(rt; WHOLE.starts_with(bytes) && (!whole || bytes.len() == WHOLE.len()));
    assert!(rt; bytes.is_empty() || bytes.ends_with(b"\n"));
}

/// Expects a new tape to keep three lines.
fn expect_kept(rt: &impl Abort, alloc: Global, tape: &mut MemTape) -> Result<(), AllocError> {
    assert!(rt; tape.bytes().is_empty());
    let dead = Line::Dead(vec![in alloc; 5, 6]?);
    let put = put_three(tape, &dead);
    drop(dead);
    expect_lines(rt, tape.bytes(), put.is_ok());
    Ok(())
}

/// Where memory ends, too.
#[test]
fn a_tape_in_memory_keeps_whole_lines(rt: HostRuntime) -> Result<(), Fail> {
    let mut tape = MemTape::new(rt.alloc());
    let done = expect_kept(&rt, rt.alloc(), &mut tape);
    drop(tape);
    done?;
    Ok(())
}
