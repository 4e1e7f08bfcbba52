//! Terms in postfix: their measures, and where they stand. Most of them no script writes, since they are not of the sorts
//! that are wanted; of the others it is told here what a script does not show.

ghost use Rattle.std.specs.Prelude.{◌<◌, length, All, IfOk, IfSome};

use sb_fragment::{Fragment, Measure, Measures, Problem, Reason, Standing};
use sb_problem::Pattern;
use sb_term::{Assertion, Serial, Sort, Symbol, Table, Term, TermId};
use sb_word::Word;
use smallvec::SmallVec;
use std::alloc::{AllocError, Global};
use std::process::Abort;
use std::test::Fail;

/// A term, whether it is a word, is without constants, is a regular expression over words, and has short words, its
/// size, and whether it is a RegLan term within the limits, or a String term within them.
type Measured = (&'static [u8], (bool, bool, bool, bool), u32, bool);

static MEASURES: [Measured; 10] = [
    (b"x", (false, false, false, true), 0, false),
    (b"xa+", (false, false, false, true), 1, false),
    (b"ab+", (true, true, false, true), 2, true),
    (b"VV+", (true, true, false, false), 131_070, false),
    (b"xw", (false, false, false, true), 1, false),
    (b"ab.", (false, true, false, true), 3, true),
    (b"awxw|", (false, false, false, true), 4, false),
    (b"W", (true, true, false, false), 65_536, false),
    (b"Ww", (false, true, true, false), 65_537, false),
    (b"Vw88", (false, true, true, true), 1_000_001, false),
];

/// Terms, and why an assertion of each is outside the fragment; of no text a mark.
static OUTSIDE: [(&[u8], Reason); 18] = [
    (b"xab.e", Reason::NotBrought),
    (b"x", Reason::NotBrought),
    (b"ix=", Reason::NotBrought),
    (b"xx+awe", Reason::RepeatedVariable),
    (b"xx+a=", Reason::RepeatedVariable),
    (b"xx+y=!", Reason::RepeatedVariable),
    (b"xxwe!", Reason::NotGround),
    (b"xy#", Reason::NotGround),
    (b"xy=", Reason::NotGround),
    (b"xi=", Reason::NotGround),
    (b"xxwe", Reason::NotGround),
    (b"xawxw|e", Reason::NotGround),
    (b"xWwe!", Reason::TooLarge),
    (b"xW=P/", Reason::TooLarge),
    (b"xW=", Reason::TooLarge),
    (b"VV+x=", Reason::TooLarge),
    (b"iawe", Reason::TooLarge),
    (b"", Reason::Marked),
];

/// Terms of which an assertion is inside it.
static INSIDE: [&[u8]; 7] = [
    b"bawe", b"ab=", b"ab+x=", b"ab+x#P/", b"xO", b"xy+awe", b"xy+a=",
];

/// The term of a text in postfix: `x` and `y` are String constants, `i` an Int constant, `P` a Bool constant, `V` a word
/// of as many letters as there may be, `W` one of a letter more, `a` and `b` words of one letter, `8` the union of eight
/// times the same, `O` an equality of one term alone, another sign its symbol.
fn read(
    alloc: Global,
    table: &mut Table,
    parts: &mut Vec<TermId>,
    text: &[u8],
) -> Result<TermId, AllocError>
    ensures { IfOk result (λ id. id < length table.new) }
{
    for sign in text {
        let part = add_sign(alloc, table, parts, *sign)?;
        parts.push(part)?;
    }
    last(table, parts)
}

/// Adds the term of a sign.
fn add_sign(
    alloc: Global,
    table: &mut Table,
    parts: &mut Vec<TermId>,
    sign: u8,
) -> Result<TermId, AllocError> {
    let (serial, sort) = match sign {
        b'x' => (0, Sort::String),
        b'i' => (1, Sort::Int),
        b'y' => (2, Sort::String),
        b'P' => (3, Sort::Bool),
        b'V' => return add_word(alloc, table, 0x61, 65_535),
        b'W' => return add_word(alloc, table, 0x61, 65_536),
        b'a' | b'b' => return add_word(alloc, table, u32::from(sign), 1),
        _ => return apply(alloc, table, parts, sign),
    };
    table.add(Term::Constant(Serial(serial), sort))
}

/// Adds the word of so many times this letter.
fn add_word(
    alloc: Global,
    table: &mut Table,
    code: u32,
    count: usize,
) -> Result<TermId, AllocError> {
    let codes = vec![in alloc; code; count]?;
    let word = Word::from_codes(alloc, &codes);
    drop(codes);
    match word {
        Ok(word) => table.add(Term::Word(word.into_codes())),
        Err(_) => Err(AllocError),
    }
}

/// The last part, which is taken.
fn last(table: &Table, parts: &mut Vec<TermId>) -> Result<TermId, AllocError>
    ensures { IfOk result (λ id. id < length table.now) }
{
    match parts.pop() {
        Some(id) if id.number() < table.len() => Ok(id),
        _ => Err(AllocError),
    }
}

/// Adds the term of a symbol's sign over the last parts, which are taken.
fn apply(
    alloc: Global,
    table: &mut Table,
    parts: &mut Vec<TermId>,
    sign: u8,
) -> Result<TermId, AllocError> {
    let right = last(table, parts)?;
    let symbol = match sign {
        b'w' => return add(alloc, table, Symbol::StrToRe, &[right]),
        b'!' => return add(alloc, table, Symbol::Not, &[right]),
        b'O' => return add(alloc, table, Symbol::Equal, &[right]),
        b'8' => return add(alloc, table, Symbol::ReUnion, &[right; 8]),
        b'+' => Symbol::StrConcat,
        b'.' => Symbol::ReConcat,
        b'|' => Symbol::ReUnion,
        b'e' => Symbol::StrInRe,
        b'/' => Symbol::Or,
        b'=' => Symbol::Equal,
        b'#' => Symbol::Distinct,
        _ => return Err(AllocError),
    };
    let left = last(table, parts)?;
    add(alloc, table, symbol, &[left, right])
}

/// Adds a symbol with its arguments.
fn add(
    alloc: Global,
    table: &mut Table,
    symbol: Symbol,
    arguments: &[TermId],
) -> Result<TermId, AllocError>
    requires { All (λ i. i < length table.old) arguments.now }
{
    let arguments = SmallVec::from_slice(alloc, arguments)?;
    table.add(Term::Apply(symbol, arguments))
}

/// Expects measures to be those of a row, and so whether the term is within the limits.
fn expect_row(rt: &impl Abort, measure: Measure, regular: bool, row: &Measured) {
    assert!(rt; measure.is_text == row.1.0 && measure.is_ground == row.1.1);
    assert!(rt; measure.is_regex == row.1.2 && measure.is_short == row.1.3);
    assert!(rt; measure.size == row.2 && regular == row.3);
}

/// Expects a term to have these measures, and to be within the limits or not.
fn expect_measure(
    rt: &impl Abort,
    alloc: Global,
    table: &Table,
    id: TermId,
    row: &Measured,
) -> Result<(), AllocError>
    requires { id < length table.now }
{
    let mut measures = Measures::new(alloc);
    let measure = measures.measure(table, id);
    let found = measures.is_regular(table, Pattern::Expression(id));
    drop(measures);
    expect_row(rt, measure?, found?, row);
    Ok(())
}

/// Where an assertion stands.
fn standing_of(alloc: Global, table: &Table, term: Option<TermId>) -> Result<Standing, AllocError>
    requires { IfSome term (λ id. id < length table.now) }
{
    let mut measures = Measures::new(alloc);
    let mut fragment = Fragment::new();
    let standing = fragment.stand(&mut measures, table, &[Assertion { term, level: 0 }]);
    drop(measures);
    standing
}

/// Where the assertion of a text stands; of no text a mark.
fn standing_in(
    alloc: Global,
    table: &mut Table,
    parts: &mut Vec<TermId>,
    text: &[u8],
) -> Result<Standing, AllocError> {
    if text.is_empty() {
        return standing_of(alloc, table, None);
    }
    let id = read(alloc, table, parts, text)?;
    standing_of(alloc, table, Some(id))
}

/// Goes through the rows of measures.
fn measure(
    rt: &impl Abort,
    alloc: Global,
    table: &mut Table,
    parts: &mut Vec<TermId>,
) -> Result<(), AllocError> {
    for row in &MEASURES {
        let id = read(alloc, table, parts, row.0)?;
        expect_measure(rt, alloc, table, id, row)?;
    }
    Ok(())
}

/// Goes through the rows of assertions outside the fragment.
fn stand(
    rt: &impl Abort,
    alloc: Global,
    table: &mut Table,
    parts: &mut Vec<TermId>,
) -> Result<(), AllocError> {
    for row in &OUTSIDE {
        let standing = standing_in(alloc, table, parts, row.0)?;
        assert!(rt; standing == Standing::Outside(row.1));
    }
    Ok(())
}

/// Goes through the rows of assertions inside it.
fn stand_inside(
    rt: &impl Abort,
    alloc: Global,
    table: &mut Table,
    parts: &mut Vec<TermId>,
) -> Result<(), AllocError> {
    for text in &INSIDE {
        let standing = standing_in(alloc, table, parts, text)?;
        assert!(rt; standing == Standing::Inside(Problem));
    }
    Ok(())
}

/// Goes through all rows over one table.
fn go_through(rt: &impl Abort, alloc: Global) -> Result<(), AllocError> {
    let mut table = Table::new(alloc);
    let mut parts = Vec::new(alloc);
    let measured = measure(rt, alloc, &mut table, &mut parts);
    let stood = stand(rt, alloc, &mut table, &mut parts);
    let inside = stand_inside(rt, alloc, &mut table, &mut parts);
    drop(parts);
    drop(table);
    measured?;
    stood?;
    inside
}

#[test]
fn terms_are_measured_and_stand_outside(rt: HostRuntime) -> Result<(), Fail> {
    go_through(&rt, rt.alloc())?;
    Ok(())
}
