//! The lines that a trace puts, and what it answers, where the budget ends and where it is asked again.

ghost use Rattle.std.specs.Prelude.{◌<◌, List, length};
ghost use Rattle.sb_lang.specs.Regex.{Regex};
ghost use Rattle.sb_graph.specs.Findings.{IsGraph};

use crate::regexes::regex;
use sb_graph::Graph;
use sb_lit::Budget;
use sb_proof::{MemTape, TapeFault};
use sb_regex::{Arena, RegexId};
use sb_trace::{Closure, Expand, Explore, Trace};
use std::alloc::Global;
use std::process::Abort;
use std::test::Fail;

/// What a trace is asked.
#[derive(Clone, Copy)]
enum Call {
    Explore,
    Close,
    Expand,
}

/// Nothing, since the budget is spent.
const SPENT: usize = 0;

/// The regex is expanded now, or it was before.
const EXPANDED: usize = 1;

const ALREADY: usize = 2;

/// An exploration found a word, or none.
const ALIVE: usize = 3;

const DEAD: usize = 4;

/// A regex, a call, how many lines may be counted, what the call answers each time, of a closure the number of its
/// regexes, and the lines that are put.
type Row = (&'static [u8], Call, u64, &'static [usize], &'static [u8]);

/// A regex without a word, three times a character or nothing, one of two characters, and the words from one regex to
/// another.
static ROWS: [Row; 7] = [
    (
        b"a*bb*.&",
        Call::Explore,
        1,
        &[SPENT],
        b"r set 62-62\nr star 0\nr cat 0 1\nr set 61-61\nr star 3\nr and 2 4\nr none\nx 5 0-2ffff>6\n",
    ),
    (
        b"a*bb*.&",
        Call::Explore,
        0,
        &[SPENT],
        b"r set 62-62\nr star 0\nr cat 0 1\nr set 61-61\nr star 3\nr and 2 4\nr none\n",
    ),
    (
        b"aZ|aZ|.aZ|.",
        Call::Close,
        100,
        &[5, 5],
        b"r eps\nr set 61-61\nr alt 0 1\nr cat 2 2\nr cat 2 3\nr none\nr alt 0 1 3\n\
        x 4 0-60>5 61-61>6 62-2ffff>5\nx 5 0-2ffff>5\nx 6 0-60>5 61-61>2 62-2ffff>5\n\
        x 2 0-60>5 61-61>0 62-2ffff>5\nx 0 0-2ffff>5\n",
    ),
    (
        b"aZ|aZ|.aZ|.",
        Call::Close,
        2,
        &[SPENT, SPENT],
        b"r eps\nr set 61-61\nr alt 0 1\nr cat 2 2\nr cat 2 3\nr none\nr alt 0 1 3\n\
        x 4 0-60>5 61-61>6 62-2ffff>5\nx 5 0-2ffff>5\n",
    ),
    (
        b"aZ|aZ|.aZ|.",
        Call::Close,
        0,
        &[SPENT, SPENT],
        b"r eps\nr set 61-61\nr alt 0 1\nr cat 2 2\nr cat 2 3\nr none\nr alt 0 1 3\n",
    ),
    (
        b"ab|",
        Call::Expand,
        100,
        &[EXPANDED, ALREADY],
        b"r set 61-62\nr none\nr eps\nx 0 0-60>1 61-62>2 63-2ffff>1\n",
    ),
    (
        b"aZ>",
        Call::Expand,
        100,
        &[EXPANDED, ALREADY],
        b"r set 61-61\nr eps\nr path 0 1\nr none\nr path 1 1\nx 2 0-60>3 61-61>4 62-2ffff>3\n",
    ),
];

/// What a call answers.
fn answer(
    arena: &mut Arena,
    graph: &mut Graph,
    trace: &mut Trace,
    tape: &mut MemTape,
    budget: &mut Budget,
    root: RegexId,
    call: Call,
) -> Result<usize, TapeFault>
    requires known { root < length arena.old }
    requires graph { IsGraph arena.old graph.old }
    ensures { IsGraph arena.new graph.new }
{
    match call {
        Call::Explore => match trace.explore(arena, graph, root, tape, budget)? {
            Explore::Alive(_) => Ok(ALIVE),
            Explore::Dead => Ok(DEAD),
            Explore::Spent => Ok(SPENT),
        },
        Call::Close => match trace.closed_from(arena, graph, root, tape, budget)? {
            Closure::Closed(regexes) => Ok(regexes.len()),
            Closure::Spent => Ok(SPENT),
        },
        Call::Expand => match trace.expand(arena, graph, root, tape, budget)? {
            Expand::Expanded => Ok(EXPANDED),
            Expand::Already => Ok(ALREADY),
            Expand::Spent => Ok(SPENT),
        },
    }
}

/// Makes a call, and expects it to answer that.
fn ask(
    rt: &impl Abort,
    arena: &mut Arena,
    graph: &mut Graph,
    trace: &mut Trace,
    tape: &mut MemTape,
    budget: &mut Budget,
    root: RegexId,
    call: Call,
    wanted: usize,
) -> Result<(), TapeFault>
    requires { IsGraph arena.old graph.old }
    ensures { IsGraph arena.new graph.new }
{
    assert!(rt; root.number() < arena.len());
    let found = answer(arena, graph, trace, tape, budget, root, call)?;
    assert!(rt; found == wanted);
    Ok(())
}

/// Expects these lines to be put.
fn expect_lines(rt: &impl Abort, tape: &MemTape, lines: &[u8]) {
    assert!(rt; tape.bytes() == lines);
}

/// Makes the calls of a row, and looks at the lines.
fn make(
    rt: &impl Abort,
    alloc: Global,
    arena: &mut Arena,
    graph: &mut Graph,
    trace: &mut Trace,
    tape: &mut MemTape,
    row: &Row,
) -> Result<(), TapeFault>
    requires { (regexes : List Regex) → IsGraph regexes graph.old }
{
    let root = regex(alloc, arena, row.0)?;
    let mut budget = Budget::new(row.2);
    for wanted in row.3 {
        ask(
            rt,
            arena,
            graph,
            trace,
            tape,
            &mut budget,
            root,
            row.1,
            *wanted,
        )?;
    }
    expect_lines(rt, tape, row.4);
    Ok(())
}

/// Goes through a row over tables of its own.
fn go_through(rt: &impl Abort, alloc: Global, row: &Row) -> Result<(), TapeFault> {
    let mut arena = Arena::new(alloc);
    let mut graph = Graph::new(alloc);
    let mut trace = Trace::new(alloc);
    let mut tape = MemTape::new(alloc);
    let made = make(
        rt, alloc, &mut arena, &mut graph, &mut trace, &mut tape, row,
    );
    drop(tape);
    drop(trace);
    drop(graph);
    drop(arena);
    made
}

/// Goes through the rows.
fn make_all(rt: &impl Abort, alloc: Global) -> Result<(), TapeFault> {
    for row in &ROWS {
        go_through(rt, alloc, row)?;
    }
    Ok(())
}

#[test]
fn traces_stop_and_put_lines_once(rt: HostRuntime) -> Result<(), Fail> {
    make_all(&rt, rt.alloc())?;
    Ok(())
}

/// A regex, a guard, how many lines may be counted, to how many regexes words of the guard lead, and the lines that are
/// put.
type Guarded = (&'static [u8], &'static [u8], u64, usize, &'static [u8]);

/// Behind one character, behind any number of it, behind no word, and where the budget ends.
static GUARDED: [Guarded; 6] = [
    (
        b"aZ|aZ|.aZ|.",
        b"a",
        100,
        1,
        b"r eps\nr set 61-61\nr alt 0 1\nr cat 2 2\nr cat 2 3\nr none\nr alt 0 1 3\n\
        x 4 0-60>5 61-61>6 62-2ffff>5\nx 1 0-60>5 61-61>0 62-2ffff>5\n\
        x 6 0-60>5 61-61>2 62-2ffff>5\nx 0 0-2ffff>5\n",
    ),
    (
        b"aZ|aZ|.aZ|.",
        b"a*",
        100,
        5,
        b"r eps\nr set 61-61\nr alt 0 1\nr cat 2 2\nr cat 2 3\nr none\nr alt 0 1 3\n\
        x 4 0-60>5 61-61>6 62-2ffff>5\nr star 1\nx 7 0-60>5 61-61>7 62-2ffff>5\n\
        x 6 0-60>5 61-61>2 62-2ffff>5\nx 2 0-60>5 61-61>0 62-2ffff>5\n\
        x 0 0-2ffff>5\nx 5 0-2ffff>5\n",
    ),
    (b"aZ|aZ|.aZ|.", b"N", 100, 0, b""),
    (
        b"a*",
        b"a",
        100,
        1,
        b"r set 61-61\nr star 0\nr none\nx 1 0-60>2 61-61>1 62-2ffff>2\n\
        r eps\nx 0 0-60>2 61-61>3 62-2ffff>2\nx 3 0-2ffff>2\n",
    ),
    (
        b"aZ|aZ|.aZ|.",
        b"a*",
        2,
        SPENT,
        b"r eps\nr set 61-61\nr alt 0 1\nr cat 2 2\nr cat 2 3\nr none\nr alt 0 1 3\n\
        x 4 0-60>5 61-61>6 62-2ffff>5\nr star 1\nx 7 0-60>5 61-61>7 62-2ffff>5\n",
    ),
    (
        b"aZ|aZ|.aZ|.",
        b"a*",
        0,
        SPENT,
        b"r eps\nr set 61-61\nr alt 0 1\nr cat 2 2\nr cat 2 3\nr none\nr alt 0 1 3\n",
    ),
];

/// To how many regexes words of the guard lead.
fn count_within(
    arena: &mut Arena,
    graph: &mut Graph,
    trace: &mut Trace,
    tape: &mut MemTape,
    budget: &mut Budget,
    root: RegexId,
    guard: RegexId,
) -> Result<usize, TapeFault>
    requires known { root < length arena.old }
    requires guard { guard < length arena.old }
    requires graph { IsGraph arena.old graph.old }
{
    match trace.within(arena, graph, root, guard, tape, budget)? {
        Closure::Closed(regexes) => Ok(regexes.len()),
        Closure::Spent => Ok(SPENT),
    }
}

/// Makes the call of a row, and looks at the lines.
fn guard(
    rt: &impl Abort,
    alloc: Global,
    arena: &mut Arena,
    graph: &mut Graph,
    trace: &mut Trace,
    tape: &mut MemTape,
    row: &Guarded,
) -> Result<(), TapeFault>
    requires { (regexes : List Regex) → IsGraph regexes graph.old }
{
    let root = regex(alloc, arena, row.0)?;
    let guard = regex(alloc, arena, row.1)?;
    let mut budget = Budget::new(row.2);
    assert!(rt; root.number() < arena.len());
    assert!(rt; guard.number() < arena.len());
    let found = count_within(arena, graph, trace, tape, &mut budget, root, guard)?;
    assert!(rt; found == row.3);
    expect_lines(rt, tape, row.4);
    Ok(())
}

/// Goes through a row over tables of its own.
fn go_guarded(rt: &impl Abort, alloc: Global, row: &Guarded) -> Result<(), TapeFault> {
    let mut arena = Arena::new(alloc);
    let mut graph = Graph::new(alloc);
    let mut trace = Trace::new(alloc);
    let mut tape = MemTape::new(alloc);
    let made = guard(
        rt, alloc, &mut arena, &mut graph, &mut trace, &mut tape, row,
    );
    drop(tape);
    drop(trace);
    drop(graph);
    drop(arena);
    made
}

/// Goes through the rows.
fn go_all_guarded(rt: &impl Abort, alloc: Global) -> Result<(), TapeFault> {
    for row in &GUARDED {
        go_guarded(rt, alloc, row)?;
    }
    Ok(())
}

#[test]
fn words_of_a_guard_lead_to_these(rt: HostRuntime) -> Result<(), Fail> {
    go_all_guarded(&rt, rt.alloc())?;
    Ok(())
}
