//! Memberships of several pieces, and the words of their constants.

ghost use Rattle.std.specs.Prelude.{◌≡◌, ◌<◌, ◌≤◌, ◌∷◌, [], true, not, get_or, length, map, slice_get, ℕ, IfOk};
ghost use Rattle.sb_word.specs.Words.{IsWord, are_characters};
ghost use Rattle.sb_lang.specs.Language.{language};
ghost use Rattle.sb_regex.specs.Numbered as numbered;
ghost use Rattle.sb_rulebook.specs.Atoms.{are_pieces};
ghost use Rattle.sb_plain.specs.Memory.{IsRight};
ghost use Rattle.sb_proof.specs.Lines.{piece_in};
ghost use Rattle.sb_theory.specs.Words.{HaveRegexesBelow, IsStore, RegexesGrow, atom_in, bool_atom, in_atom, nd_along, regex_at};
ghost use Rattle.sb_theory.specs.Memberships as meaning;
ghost use Rattle.sb_theory.specs.Memberships.{is_joined, is_joined_atom, joined_word, piece_word, word_at};
ghost use Rattle.sb_theory.specs.Tables.{AreFormed};
ghost use Rattle.sb_theory.specs.Walks.{IsLeading};

use crate::place::word_of;
use sb_atoms::{AtomId, Atoms};
use sb_lang::derivative::{derivative_along_has_rests, nullable_has_empty_word};
use sb_lit::Lit;
use sb_plain::Plain;
use sb_proof::{Atom, Piece};
use sb_regex::{Arena, RegexId};
use sb_store::{Store, regexes_grow};
use sb_term::Serial;
use sb_word::Word;
use std::alloc::AllocError;

/// Whether an atom is a membership, but not of one constant alone. Takes constant time and no memory.
pub(crate) fn is_joined(atoms: &Atoms, atom: u64) -> bool
    ensures { result ≡ is_joined atoms.now atom }
{
    let id = AtomId::of(Lit {
        atom,
        positive: true,
    });
    if id.number() >= atoms.len() {
        return false;
    }
    joins(atoms.describe(id))
}

/// Whether an atom is a membership, but not of one constant alone.
fn joins(atom: &Atom<RegexId>) -> bool
    ensures { result ≡ is_joined_atom (atom_in atom.now) }
{
    match atom {
        Atom::In(pieces, _) => !is_constant(pieces.as_slice()),
        Atom::Bool(_) | Atom::Le(..) | Atom::Sum(..) | Atom::And(_) | Atom::Iff(..) => false,
    }
}

/// Whether the pieces are one constant alone.
fn is_constant(pieces: &[Piece]) -> bool
    ensures { (r : ℕ) → is_joined_atom (in_atom (map piece_in pieces.now) r) ≡ not result }
{
    match pieces {
        [Piece::Constant(_)] => true,
        _ => false,
    }
}

/// Whether the words of the pieces of a literal's membership make it true.
pub(crate) fn fits_pieces(
    store: &mut Store,
    atoms: &Atoms,
    words: &[Option<Word>],
    literal: Lit,
) -> Result<bool, AllocError>
    requires regexes { HaveRegexesBelow (length store.old.arena) atoms.now }
    requires formed { AreFormed atoms.now }
    requires store { IsStore store.old }
    ensures fits { IfOk result (λ b. b ≡ meaning.fits_pieces store.old.arena words.now literal.positive
        (slice_get atoms.now literal.atom)) }
    ensures grows { RegexesGrow store.old store.new }
{
    let id = AtomId::of(literal);
    if id.number() >= atoms.len() {
        return Ok(true);
    }
    match atoms.describe(id) {
        Atom::In(pieces, regex) => {
            let is_in = contains_joined(store, words, pieces.as_slice(), *regex)?;
            Ok(is_in == literal.positive)
        }
        Atom::Bool(_) | Atom::Le(..) | Atom::Sum(..) | Atom::And(_) | Atom::Iff(..) => Ok(true),
    }
}

/// Whether the joined word of the pieces is in the language of a regex. A derivative for each of its characters, and no
/// word is made.
fn contains_joined(
    store: &mut Store,
    words: &[Option<Word>],
    pieces: &[Piece],
    regex: RegexId,
) -> Result<bool, AllocError>
    requires known { regex < length store.old.arena }
    requires formed { are_pieces (map piece_in pieces.now) ≡ true }
    requires store { IsStore store.old }
    ensures ok { IfOk result (λ b. b ≡ language (regex_at store.old.arena regex)
        (joined_word words.now (map piece_in pieces.now))) }
    ensures grows { RegexesGrow store.old store.new }
{
    derivative_along_has_rests();
    nullable_has_empty_word();
    let mut rest = regex;
    for piece in pieces {
        rest = behind(store, words, piece, rest)?;
    }
    Ok(store.arena.nullable(rest))
}

/// The regex that is left of one behind a piece.
fn behind(
    store: &mut Store,
    words: &[Option<Word>],
    piece: &Piece,
    regex: RegexId,
) -> Result<RegexId, AllocError>
    requires known { regex < length store.old.arena }
    requires formed { are_pieces (piece_in piece.now ∷ []) ≡ true }
    requires store { IsStore store.old }
    ensures ok { IfOk result (λ id. numbered.Names store.new.arena id
        (nd_along (regex_at store.old.arena regex) (piece_word words.now (piece_in piece.now)))) }
    ensures word { IsWord (piece_word words.now (piece_in piece.now)) }
    ensures grows { RegexesGrow store.old store.new }
{
    match piece {
        Piece::Constant(serial) => behind_word(store, words, Serial(*serial), regex),
        Piece::Word(characters) => behind_characters(store, characters.as_slice(), regex),
    }
}

/// The regex that is left of one behind the word of a constant.
pub(crate) fn behind_word(
    store: &mut Store,
    words: &[Option<Word>],
    serial: Serial,
    regex: RegexId,
) -> Result<RegexId, AllocError>
    requires known { regex < length store.old.arena }
    requires store { IsStore store.old }
    ensures ok { IfOk result (λ id. numbered.Names store.new.arena id
        (nd_along (regex_at store.old.arena regex) (word_at words.now serial.0))) }
    ensures word { IsWord (word_at words.now serial.0) }
    ensures grows { RegexesGrow store.old store.new }
{
    regexes_grow();
    match word_of(words, serial) {
        Some(word) => store.plain.along(&mut store.arena, word.codes(), regex),
        None => Ok(regex),
    }
}

/// The regex that is left of one behind characters.
fn behind_characters(
    store: &mut Store,
    characters: &[u64],
    regex: RegexId,
) -> Result<RegexId, AllocError>
    requires known { regex < length store.old.arena }
    requires word { are_characters characters.now ≡ true }
    requires store { IsStore store.old }
    ensures ok { IfOk result (λ id. numbered.Names store.new.arena id
        (nd_along (regex_at store.old.arena regex) characters.now)) }
    ensures grows { RegexesGrow store.old store.new }
{
    regexes_grow();
    along(&mut store.plain, &mut store.arena, characters, regex)
}

/// The derivative along characters.
fn along(
    plain: &mut Plain,
    arena: &mut Arena,
    characters: &[u64],
    regex: RegexId,
) -> Result<RegexId, AllocError>
    requires known { regex < length arena.old }
    requires word { are_characters characters.now ≡ true }
    requires right { IsRight arena.old plain.old }
    ensures ok { IfOk result (λ id. numbered.Names arena.new id (nd_along (regex_at arena.old regex) characters.now)) }
    ensures extends { numbered.Extends arena.old arena.new }
    ensures right { IsRight arena.new plain.new }
{
    let mut rest = regex;
    for character in characters {
        rest = plain.plain_derivative(arena, rest, code_of(*character))?;
    }
    Ok(rest)
}

/// The character, as a smaller number.
pub(crate) fn code_of(character: u64) -> u32
    requires { character ≤ 0x2ffff }
    ensures { result ≡ character }
{
    character as u32
}

/// The first constant of a literal's membership, with its regex, where more pieces are behind it. Takes constant time
/// and no memory.
pub(crate) fn leading(atoms: &Atoms, literal: Lit) -> Option<(Serial, RegexId)>
    requires { literal.atom < length atoms.now }
    ensures { IsLeading (get_or atoms.now literal.atom (bool_atom 0)) result }
{
    match atoms.describe(AtomId::of(literal)) {
        Atom::In(pieces, regex) => leading_of(pieces.as_slice(), *regex),
        Atom::Bool(_) | Atom::Le(..) | Atom::Sum(..) | Atom::And(_) | Atom::Iff(..) => None,
    }
}

/// The first of several pieces, where it is a constant, with the regex.
fn leading_of(pieces: &[Piece], regex: RegexId) -> Option<(Serial, RegexId)>
    ensures { IsLeading (in_atom (map piece_in pieces.now) regex) result }
{
    match pieces {
        [Piece::Constant(serial), _, ..] => Some((Serial(*serial), regex)),
        _ => None,
    }
}
