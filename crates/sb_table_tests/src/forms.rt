//! Large forms, and how many terms they are read into.

ghost use Rattle.std.specs.Prelude.{◌≡◌, false};
ghost use Rattle.sb_sorts.specs.Scopes.{AreBodies};

use sb_reader::{Feed, Next, Sexpr, Shape};
use sb_sorts::{Scope, read_term};
use sb_term::{Table, Term};
use std::alloc::{AllocError, Global};
use std::process::Abort;
use std::test::Fail;

/// Texts, and how often each stands there.
type Pieces = &'static [(&'static [u8], usize)];

/// Large forms by a front, a part and how often it stands, a middle, and an end and how often it stands; how many terms
/// there are after they are read, and how many arguments the last has: a form nested 512 deep, a million arguments that
/// are one text, and as many that are two by turns.
static LARGE: [(Pieces, (usize, usize)); 3] = [
    (
        &[
            (b"((re.+ ", 1),
            (b"(re.+ ", 509),
            (b"(str.to_re \"a\")", 1),
            (b")", 511),
        ],
        (512, 1),
    ),
    (
        &[
            (b"((re.union", 1),
            (b" (str.to_re \"a\")", 1_000_000),
            (b")", 1),
            (b")", 1),
        ],
        (3, 1_000_000),
    ),
    (
        &[
            (b"((re.++", 1),
            (
                b" (re.range \"a\" \"b\") (re.* (re.range \"a\" \"b\"))",
                500_000,
            ),
            (b")", 1),
            (b")", 1),
        ],
        (5, 1_000_000),
    ),
];

/// Puts a form's pieces.
fn put_pieces(bytes: &mut Vec<u8>, pieces: Pieces) -> Result<(), AllocError> {
    for piece in pieces {
        put_piece(bytes, piece.0, piece.1)?;
    }
    Ok(())
}

/// Puts a piece so many times.
fn put_piece(bytes: &mut Vec<u8>, piece: &[u8], times: usize) -> Result<(), AllocError> {
    for _ in 0..times {
        bytes.extend_from_slice(piece)?;
    }
    Ok(())
}

/// How many terms there are after a command's form is read, and how many arguments the last has.
fn counts_of(alloc: Global, table: &mut Table, scope: &Scope, command: &Sexpr) -> (usize, usize)
    requires { AreBodies table.old scope.now }
{
    let Shape::List(forms) = command.shape() else {
        return (0, 0);
    };
    let Some(form) = forms.only() else {
        return (0, 0);
    };
    let Ok(id) = read_term(alloc, table, scope, form) else {
        return (0, 0);
    };
    match table.term(id) {
        Term::Apply(_, ids) => (table.len(), ids.len()),
        _ => (table.len(), 0),
    }
}

/// Reads the command of a form's bytes.
fn count(
    alloc: Global,
    feed: &mut Feed,
    table: &mut Table,
    scope: &Scope,
    bytes: &[u8],
) -> Result<(usize, usize), AllocError>
    requires pushed { feed.old.1 ≡ false }
    requires bodies { AreBodies table.old scope.now }
{
    feed.push(bytes)?;
    let command = feed.next()?;
    let counts = match &command {
        Next::Command(form) => counts_of(alloc, table, scope, form),
        _ => (0, 0),
    };
    drop(command);
    Ok(counts)
}

/// Reads a large form over tables of its own.
fn read_large(alloc: Global, pieces: Pieces) -> Result<(usize, usize), AllocError> {
    let mut bytes = Vec::new(alloc);
    let mut feed = Feed::new(alloc);
    let mut table = Table::new(alloc);
    let scope = Scope::new(alloc);
    let put = put_pieces(&mut bytes, pieces);
    let counts = count(alloc, &mut feed, &mut table, &scope, &bytes);
    drop(scope);
    drop(table);
    drop(feed);
    drop(bytes);
    put?;
    counts
}

/// Goes through the large forms.
fn read_each(rt: &impl Abort, alloc: Global) -> Result<(), AllocError> {
    for row in &LARGE {
        let counts = read_large(alloc, row.0)?;
        assert!(rt; counts.0 == row.1.0 && counts.1 == row.1.1);
    }
    Ok(())
}

#[test]
fn large_forms_are_read_into_few_terms(rt: HostRuntime) -> Result<(), Fail> {
    read_each(&rt, rt.alloc())?;
    Ok(())
}
