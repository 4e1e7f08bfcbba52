//! Explorations and walks that stop at a limit, words behind very many derivatives, and derivatives that stay.

ghost use Rattle.std.specs.Prelude.{◌<◌, List, length};
ghost use Rattle.sb_lang.specs.Regex.{Regex};
ghost use Rattle.sb_deriv.specs.Faithful.{IsFaithful};
ghost use Rattle.sb_graph.specs.Findings.{IsGraph};

use crate::regexes::{Pieces, put, put_all, regex, whole};
use sb_deriv::Deriver;
use sb_graph::{Explored, Graph, Outcome, Within, find_word};
use sb_regex::{Arena, RegexId};
use std::alloc::{AllocError, Global};
use std::process::Abort;
use std::test::Fail;

/// What is asked of a regex.
enum Ask {
    /// What an exploration finds that may expand so many regexes, which it does not exceed.
    Within(usize),
    /// What a walk finds that may meet so many states, or a search by lengths where it met so many.
    Walk(usize),
    /// The answer, for which fewer than 1,000 regexes are made.
    Answer,
    /// The least word, for which at most 100 regexes are expanded.
    Least,
}

/// What is to be found.
enum Wanted {
    /// A word of so many characters.
    Long(usize),
    /// That word.
    Word(&'static [u32]),
    /// No word is in the language.
    Empty,
    /// The limit was met.
    Limit,
}

/// A regex, by pieces of its text, each so many times; what is asked of it; and what is found.
type Row = (Pieces, Ask, Wanted);

static ROWS: [Row; 20] = [
    (&[(b"N", Some(1))], Ask::Within(0), Wanted::Limit),
    (&[(b"N", Some(1))], Ask::Within(1), Wanted::Empty),
    (&[(b"ab.", Some(1))], Ask::Within(0), Wanted::Long(2)),
    (&[(b"a*bb*.&", Some(1))], Ask::Within(1), Wanted::Limit),
    (&[(b"a*bb*.&", Some(1))], Ask::Within(2), Wanted::Empty),
    (
        &[(b"x*a.x.x.x*b.x.x.&", Some(1))],
        Ask::Within(0),
        Wanted::Limit,
    ),
    (
        &[(b"x*a.x.x.x*b.x.x.&", Some(1))],
        Ask::Within(5),
        Wanted::Limit,
    ),
    (
        &[(b"x*a.x.x.x*b.x.x.&", Some(1))],
        Ask::Within(100),
        Wanted::Empty,
    ),
    (
        &[(b"x*a.x.x.x.x*b.x.x.x.x.&", Some(1))],
        Ask::Within(0),
        Wanted::Long(5),
    ),
    (&[(b"aa.b.z|", Some(1))], Ask::Walk(100), Wanted::Long(1)),
    (
        &[(b"E*ba..E*.E*ab..E*.&", Some(1))],
        Ask::Walk(100),
        Wanted::Long(3),
    ),
    (
        &[(b"aaa.*.aa.a.*&", Some(1))],
        Ask::Walk(100),
        Wanted::Long(3),
    ),
    (&[(b"a*b.a*c.&", Some(1))], Ask::Walk(100), Wanted::Empty),
    (&[(b"ab.a.b.a.b.", Some(1))], Ask::Walk(3), Wanted::Limit),
    (
        &[(b"x*a.x.x.x.x*b.x.x.x.x.&", Some(1))],
        Ask::Walk(8),
        Wanted::Long(5),
    ),
    (
        &[(b"x*a.x.x.x.x*b.x.x.x.x.&", Some(1))],
        Ask::Walk(4),
        Wanted::Limit,
    ),
    // `(a|b)*a(a|b)^60`, which has 2^60 derivatives
    (
        &[(b"ab|*a", Some(1)), (b"ab|", Some(60)), (b".", Some(61))],
        Ask::Answer,
        Wanted::Word(&[0x61; 61]),
    ),
    // both `E*a E^n` and `E*b E^m`: an `a` and a `b` in one place from the end, or the `b` one place farther
    (
        &[
            (b"E*a", Some(1)),
            (b"E", Some(2)),
            (b".", Some(2)),
            (b".E*b", Some(1)),
            (b"E", Some(2)),
            (b".", Some(2)),
            (b".&", Some(1)),
        ],
        Ask::Least,
        Wanted::Empty,
    ),
    (
        &[
            (b"E*a", Some(1)),
            (b"E", Some(20)),
            (b".", Some(20)),
            (b".E*b", Some(1)),
            (b"E", Some(20)),
            (b".", Some(20)),
            (b".&", Some(1)),
        ],
        Ask::Least,
        Wanted::Empty,
    ),
    (
        &[
            (b"E*a", Some(1)),
            (b"E", Some(20)),
            (b".", Some(20)),
            (b".E*b", Some(1)),
            (b"E", Some(21)),
            (b".", Some(21)),
            (b".&", Some(1)),
        ],
        Ask::Least,
        Wanted::Long(22),
    ),
];

/// All `a^i E` and `E a^i` from one to 100 in one, with the letters in the place of every character.
static RUNS: Row = (
    &[
        (b"a", None),
        (b"a$*", Some(1)),
        (b".", None),
        (b".&$*", Some(1)),
        (b"a", None),
        (b"a", Some(1)),
        (b".", None),
        (b".&", Some(1)),
    ],
    Ask::Answer,
    Wanted::Word(&[0x61; 100]),
);

/// The word that an exploration finds, if any is in the language.
fn outcome_of(explored: Explored) -> Outcome {
    match explored {
        Explored::Alive(word) => Outcome::Found(word),
        Explored::Dead => Outcome::Empty,
    }
}

/// Expects what is found to be that.
fn expect_found(rt: &impl Abort, outcome: Outcome, wanted: &Wanted) {
    let same = match (&outcome, wanted) {
        (Outcome::Found(word), Wanted::Long(length)) => word.codes().len() == *length,
        (Outcome::Found(word), Wanted::Word(codes)) => word.codes() == *codes,
        (Outcome::Empty, Wanted::Empty) | (Outcome::Bounded, Wanted::Limit) => true,
        _ => false,
    };
    drop(outcome);
    assert!(rt; same);
}

/// Asks that of a regex.
fn find(
    alloc: Global,
    arena: &mut Arena,
    graph: &mut Graph,
    deriver: &mut Deriver,
    root: RegexId,
    asked: &Ask,
) -> Result<Outcome, AllocError>
    requires known { root < length arena.old }
    requires graph { IsGraph arena.old graph.old }
    requires faithful { IsFaithful arena.old deriver.old }
{
    match asked {
        Ask::Within(limit) => match graph.answer_within(arena, root, *limit)? {
            Within::Found(explored) => Ok(outcome_of(explored)),
            Within::Limit => Ok(Outcome::Bounded),
        },
        Ask::Walk(bound) => find_word(alloc, arena, deriver, root, *bound),
        Ask::Answer => Ok(outcome_of(graph.answer(arena, root)?)),
        Ask::Least => Ok(outcome_of(graph.least_word(arena, root)?)),
    }
}

/// Asks a row's question of a regex, for which the arena had so many before it, and expects what the row wants.
fn expect_row(
    rt: &impl Abort,
    alloc: Global,
    arena: &mut Arena,
    before: usize,
    root: RegexId,
    row: &Row,
) -> Result<(), AllocError>
    requires { root < length arena.old }
{
    let mut graph = Graph::new(alloc);
    let mut deriver = Deriver::new(alloc);
    let found = find(alloc, arena, &mut graph, &mut deriver, root, &row.1);
    let expanded = graph.expanded().len();
    drop(deriver);
    drop(graph);
    expect_found(rt, found?, &row.2);
    let made = arena.len().saturating_sub(before);
    let few = match &row.1 {
        Ask::Within(limit) => expanded <= *limit,
        Ask::Walk(_) => true,
        Ask::Answer => made < 1000,
        Ask::Least => expanded <= 100,
    };
    assert!(rt; few);
    Ok(())
}

/// Goes through the rows.
fn expect_rows(
    rt: &impl Abort,
    alloc: Global,
    arena: &mut Arena,
    parts: &mut Vec<RegexId>,
) -> Result<(), AllocError> {
    for row in &ROWS {
        let before = arena.len();
        put_all(alloc, arena, parts, row.0, 0)?;
        let root = whole(arena, parts)?;
        expect_row(rt, alloc, arena, before, root, row)?;
    }
    Ok(())
}

/// Goes through the row of runs.
fn expect_runs(
    rt: &impl Abort,
    alloc: Global,
    arena: &mut Arena,
    parts: &mut Vec<RegexId>,
) -> Result<(), AllocError> {
    let row = &RUNS;
    let before = arena.len();
    put(alloc, arena, parts, b"$*")?;
    for i in 0..100 {
        put_all(alloc, arena, parts, row.0, i)?;
    }
    let root = whole(arena, parts)?;
    expect_row(rt, alloc, arena, before, root, row)
}

/// Explorations one after the other: whether of the second regex, and not of the first; whether the derivatives of the
/// rest and of the second are known before; whether a regex is expanded; and the word.
static SHARED: [(bool, (bool, bool), bool, Wanted); 3] = [
    (
        false,
        (false, false),
        true,
        Wanted::Word(&[0x61, 0x62, 0x63]),
    ),
    (true, (true, false), true, Wanted::Word(&[0x63, 0x62, 0x63])),
    (
        false,
        (true, true),
        false,
        Wanted::Word(&[0x61, 0x62, 0x63]),
    ),
];

/// Expects derivatives of two regexes to be known, or not.
fn expect_known(
    rt: &impl Abort,
    graph: &Graph,
    rest: RegexId,
    second: RegexId,
    known: &(bool, bool),
) {
    assert!(rt; graph.derivative(rest).is_some() == known.0);
    assert!(rt; graph.derivative(second).is_some() == known.1);
}

/// Explores a regex, and expects whether a regex is expanded, and that word.
fn explore(
    rt: &impl Abort,
    arena: &mut Arena,
    graph: &mut Graph,
    r: RegexId,
    expands: bool,
    wanted: &Wanted,
) -> Result<(), AllocError>
    requires { IsGraph arena.old graph.old }
    ensures { IsGraph arena.new graph.new }
{
    assert!(rt; r.number() < arena.len());
    let count = graph.expanded().len();
    let explored = graph.explore(arena, r)?;
    expect_found(rt, outcome_of(explored), wanted);
    assert!(rt; (graph.expanded().len() > count) == expands);
    Ok(())
}

/// Explores two regexes that lead to one, the first of them twice.
fn explore_both(
    rt: &impl Abort,
    arena: &mut Arena,
    graph: &mut Graph,
    rest: RegexId,
    first: RegexId,
    second: RegexId,
) -> Result<(), AllocError>
    requires { IsGraph arena.old graph.old }
{
    for row in &SHARED {
        expect_known(rt, graph, rest, second, &row.1);
        let r = if row.0 { second } else { first };
        explore(rt, arena, graph, r, row.2, &row.3)?;
    }
    Ok(())
}

/// Derivatives stay, so two regexes that lead to one regex share its derivative.
fn share(
    rt: &impl Abort,
    alloc: Global,
    arena: &mut Arena,
    graph: &mut Graph,
) -> Result<(), AllocError>
    requires { (regexes : List Regex) → IsGraph regexes graph.old }
{
    let rest = regex(alloc, arena, b"x*b.c.")?;
    let first = regex(alloc, arena, b"ax*b.c..")?;
    let second = regex(alloc, arena, b"cx*b.c..")?;
    explore_both(rt, arena, graph, rest, first, second)
}

/// Goes through all rows over one arena.
fn expect_all(
    rt: &impl Abort,
    alloc: Global,
    arena: &mut Arena,
    graph: &mut Graph,
    parts: &mut Vec<RegexId>,
) -> Result<(), AllocError>
    requires { (regexes : List Regex) → IsGraph regexes graph.old }
{
    share(rt, alloc, arena, graph)?;
    expect_rows(rt, alloc, arena, parts)?;
    expect_runs(rt, alloc, arena, parts)
}

/// Makes what the rows are gone through with, and drops it.
fn go_through(rt: &impl Abort, alloc: Global) -> Result<(), AllocError> {
    let mut arena = Arena::new(alloc);
    let mut graph = Graph::new(alloc);
    let mut parts = Vec::new(alloc);
    let done = expect_all(rt, alloc, &mut arena, &mut graph, &mut parts);
    drop(parts);
    drop(graph);
    drop(arena);
    done
}

#[test]
fn explorations_stop_and_make_little(rt: HostRuntime) -> Result<(), Fail> {
    go_through(&rt, rt.alloc())?;
    Ok(())
}
