//! Values as a hint: words that may make all wanted memberships on a trail true.

ghost use Rattle.std.specs.Prelude.{◌≡◌, ◌<◌, ◌∷◌, [], true, length, map, IfOk};
ghost use Rattle.sb_word.specs.Words.{are_characters};
ghost use Rattle.sb_regex.specs.Numbered.{Extends};
ghost use Rattle.sb_rulebook.specs.Atoms.{are_pieces};
ghost use Rattle.sb_proof.specs.Lines.{piece_in};
ghost use Rattle.sb_theory.specs.Words.{HaveRegexesBelow, IsStore, RegexesGrow};
ghost use Rattle.sb_theory.specs.Memberships.{are_atoms, is_atom};
ghost use Rattle.sb_theory.specs.Tables.{AreFormed};

use crate::joined::code_of;
use crate::wanted::WantedAtoms;
use sb_atoms::{AtomId, Atoms};
use sb_lit::Lit;
use sb_proof::{Atom, Piece};
use sb_regex::{Arena, RegexId};
use sb_store::{Store, regexes_grow};
use sb_term::Serial;
use sb_trail::Trail;
use sb_values::{Problem, Values};
use sb_word::Word;
use std::alloc::{AllocError, Global};

/// So many states may be walked for one answer.
const FUEL: u64 = 200_000;

/// The literals of wanted memberships on the trail, in the order in which their atoms are wanted. Linear in the wanted
/// atoms.
pub(crate) fn asked_now(
    alloc: Global,
    wanted: &WantedAtoms,
    atoms: &Atoms,
    trail: &Trail,
) -> Result<Vec<Lit>, AllocError>
    ensures { IfOk result (λ found. are_atoms atoms.now found.items ≡ true) }
{
    let mut found = Vec::new(alloc);
    for atom in wanted.atoms() {
        put_asked(&mut found, atoms, trail, *atom)?;
    }
    Ok(found)
}

/// Adds the literal of an atom, where it is a membership that has a value.
fn put_asked(
    found: &mut Vec<Lit>,
    atoms: &Atoms,
    trail: &Trail,
    atom: u64,
) -> Result<(), AllocError>
    requires { are_atoms atoms.now found.old.items ≡ true }
    ensures { are_atoms atoms.now found.new.items ≡ true }
{
    let Some(positive) = trail.value(atom) else {
        return Ok(());
    };
    let literal = Lit { atom, positive };
    if is_membership(atoms, literal) {
        found.push(literal)?;
    }
    Ok(())
}

/// Whether a literal's atom is a membership.
fn is_membership(atoms: &Atoms, literal: Lit) -> bool
    ensures { result ≡ true → is_atom atoms.now literal.atom ≡ true }
{
    let id = AtomId::of(literal);
    if id.number() >= atoms.len() {
        return false;
    }
    match atoms.describe(id) {
        Atom::In(..) => true,
        Atom::Bool(_) | Atom::Le(..) | Atom::Sum(..) | Atom::And(_) | Atom::Iff(..) => false,
    }
}

/// Words that make these literals of memberships true, of all their constants; none where there are none, or the fuel
/// ended before. The layer above tests them.
pub(crate) fn values(
    alloc: Global,
    store: &mut Store,
    atoms: &Atoms,
    literals: &[Lit],
) -> Result<Vec<(Serial, Word)>, AllocError>
    requires known { are_atoms atoms.now literals.now ≡ true }
    requires regexes { HaveRegexesBelow (length store.old.arena) atoms.now }
    requires formed { AreFormed atoms.now }
    requires store { IsStore store.old }
    ensures { RegexesGrow store.old store.new }
{
    regexes_grow();
    let mut problem = Problem::new(alloc);
    for literal in literals {
        put_goal(&mut store.arena, atoms, &mut problem, *literal)?;
    }
    search(alloc, store, &problem)
}

/// Words that the search for values finds.
fn search(
    alloc: Global,
    store: &mut Store,
    problem: &Problem,
) -> Result<Vec<(Serial, Word)>, AllocError>
    requires { IsStore store.old }
    ensures { RegexesGrow store.old store.new }
{
    regexes_grow();
    let values = problem.values(&mut store.arena, &mut store.graph, FUEL)?;
    match values {
        Values::Found(words) => Ok(words),
        Values::None | Values::OutOfFuel => Ok(Vec::new(alloc)),
    }
}

/// Puts the goal of a literal.
fn put_goal(
    arena: &mut Arena,
    atoms: &Atoms,
    problem: &mut Problem,
    literal: Lit,
) -> Result<(), AllocError>
    requires known { literal.atom < length atoms.now }
    requires regexes { HaveRegexesBelow (length arena.old) atoms.now }
    requires formed { AreFormed atoms.now }
    ensures { Extends arena.old arena.new }
{
    match atoms.describe(AtomId::of(literal)) {
        Atom::In(pieces, regex) => {
            put_pieces(problem, pieces.as_slice())?;
            problem.put_goal(arena, *regex, literal.positive)
        }
        Atom::Bool(_) | Atom::Le(..) | Atom::Sum(..) | Atom::And(_) | Atom::Iff(..) => Ok(()),
    }
}

/// Puts the parts of a goal.
fn put_pieces(problem: &mut Problem, pieces: &[Piece]) -> Result<(), AllocError>
    requires { are_pieces (map piece_in pieces.now) ≡ true }
{
    for piece in pieces {
        put_piece(problem, piece)?;
    }
    Ok(())
}

/// Puts a part of a goal.
fn put_piece(problem: &mut Problem, piece: &Piece) -> Result<(), AllocError>
    requires { are_pieces (piece_in piece.now ∷ []) ≡ true }
{
    match piece {
        Piece::Constant(serial) => problem.put_constant(Serial(*serial)),
        Piece::Word(characters) => put_characters(problem, characters.as_slice()),
    }
}

/// Puts the characters of a word.
fn put_characters(problem: &mut Problem, characters: &[u64]) -> Result<(), AllocError>
    requires { are_characters characters.now ≡ true }
{
    for character in characters {
        problem.put_character(code_of(*character))?;
    }
    Ok(())
}
