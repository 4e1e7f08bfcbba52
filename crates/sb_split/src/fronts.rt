//! Memberships, taken apart at their first piece.

ghost use Rattle.std.specs.Prelude.{◌≡◌, ◌≤◌, ◌∷◌, true, map, IfOk};
ghost use Rattle.sb_word.specs.Words.{are_characters};
ghost use Rattle.sb_rulebook.specs.Atoms.{are_pieces, is_well_formed};
ghost use Rattle.sb_proof.specs.Lines.{atom_in, piece_in};
ghost use Rattle.sb_split.specs.Words.{constant_piece, in_atom, word_piece};
ghost use Rattle.sb_split.specs.Fronts.{IsFrontOf};

use crate::defining::copied_pieces;
use sb_proof::{Atom, Piece};
use sb_regex::RegexId;
use smallvec::SmallVec;
use std::alloc::{AllocError, Global};

/// A membership as rule step takes it.
#[derive(Drop)]
pub(crate) enum Front {
    /// No pieces are in the regex.
    End(RegexId),
    /// A word and more pieces are in the regex.
    Word(Vec<u32>, SmallVec<Piece, 1>, RegexId),
    /// A constant and at least one more piece are in the regex.
    Constant(u64, SmallVec<Piece, 1>, RegexId),
    /// The atom is no membership, or one of one constant alone.
    Other,
}

/// The atom, taken apart. Linear in it.
pub(crate) fn front_of(alloc: Global, atom: &Atom<RegexId>) -> Result<Front, AllocError>
    requires { is_well_formed (atom_in atom.now) ≡ true }
    ensures { IfOk result (IsFrontOf (atom_in atom.now)) }
{
    match atom {
        Atom::In(pieces, regex) => front_of_pieces(alloc, pieces.as_slice(), *regex),
        Atom::Bool(_) | Atom::Le(..) | Atom::Sum(..) | Atom::And(_) | Atom::Iff(..) => {
            Ok(Front::Other)
        }
    }
}

/// The membership of pieces, taken apart.
fn front_of_pieces(alloc: Global, pieces: &[Piece], regex: RegexId) -> Result<Front, AllocError>
    requires { are_pieces (map piece_in pieces.now) ≡ true }
    ensures { IfOk result (IsFrontOf (in_atom (map piece_in pieces.now) regex)) }
{
    let [first, behind @ ..] = pieces else {
        return Ok(Front::End(regex));
    };
    front_before(alloc, first, behind, regex)
}

/// The same, where the first piece is apart.
fn front_before(
    alloc: Global,
    first: &Piece,
    behind: &[Piece],
    regex: RegexId,
) -> Result<Front, AllocError>
    requires { are_pieces (piece_in first.now ∷ map piece_in behind.now) ≡ true }
    ensures { IfOk result (IsFrontOf (in_atom (piece_in first.now ∷ map piece_in behind.now) regex)) }
{
    match first {
        Piece::Constant(serial) => constant_front(alloc, *serial, behind, regex),
        Piece::Word(word) => word_front(alloc, word.as_slice(), behind, regex),
    }
}

/// The membership of a constant and pieces behind it.
fn constant_front(
    alloc: Global,
    serial: u64,
    behind: &[Piece],
    regex: RegexId,
) -> Result<Front, AllocError>
    requires { are_pieces (map piece_in behind.now) ≡ true }
    ensures { IfOk result (IsFrontOf (in_atom (constant_piece serial ∷ map piece_in behind.now) regex)) }
{
    if behind.is_empty() {
        return Ok(Front::Other);
    }
    let rest = copied_pieces(alloc, behind)?;
    Ok(Front::Constant(serial, rest, regex))
}

/// The membership of a word and pieces behind it.
fn word_front(
    alloc: Global,
    word: &[u64],
    behind: &[Piece],
    regex: RegexId,
) -> Result<Front, AllocError>
    requires word { are_characters word.now ≡ true }
    requires formed { are_pieces (map piece_in behind.now) ≡ true }
    ensures { IfOk result (IsFrontOf (in_atom (word_piece word.now ∷ map piece_in behind.now) regex)) }
{
    let codes = codes_of(alloc, word)?;
    let rest = copied_pieces(alloc, behind)?;
    Ok(Front::Word(codes, rest, regex))
}

/// The characters of a word.
fn codes_of(alloc: Global, word: &[u64]) -> Result<Vec<u32>, AllocError>
    requires { are_characters word.now ≡ true }
    ensures { IfOk result (λ codes. codes.items ≡ word.now) }
{
    let mut codes = Vec::with_capacity(alloc, word.len())?;
    for number in word {
        codes.push(character(*number))?;
    }
    Ok(codes)
}

/// The character of a number.
fn character(number: u64) -> u32
    requires { number ≤ 0x2ffff }
    ensures { result ≡ number }
{
    number as u32
}
