//! Atoms.

ghost use Rattle.std.specs.Prelude.{◌≡◌, ◌∷◌, [], map, IfOk, IfSome};
ghost use Rattle.sb_script.specs.Pieces.{constant_piece};
ghost use Rattle.sb_rulebook.specs.Atoms.{constant_of, in_atom, literals_in, map_atom, member_in, regex_in};
ghost use Rattle.sb_rulebook.specs.Brought.{is_brought_atom};
ghost use Rattle.sb_proof.specs.Lines.{atom_in, piece_in};

use sb_lit::Lit;
use smallvec::SmallVec;
use std::alloc::{AllocError, Global};

/// A piece of a concatenation.
#[derive(PartialEq, Eq, Hash, Drop)]
pub enum Piece {
    /// The String constant of this serial.
    Constant(u64),
    /// A word, by its characters.
    Word(Vec<u64>),
}

impl Default for Piece {
    fn default() -> Piece {
        Piece::Constant(0)
    }
}

/// What a bound speaks of.
#[derive(Clone, Copy, PartialEq, Eq, Hash)]
pub enum Variable {
    /// The Int constant of this serial.
    Int(u64),
    /// The length of the String constant of this serial.
    Length(u64),
}

/// What a literal is true or false of, over what stands for a regex in it.
#[derive(PartialEq, Eq, Hash, Drop)]
pub enum Atom<R> {
    /// The Bool constant of this serial is true.
    Bool(u64),
    /// The concatenation of the pieces is in the language of the regex.
    In(SmallVec<Piece, 1>, R),
    /// The variable is at most the number.
    Le(Variable, i128),
    /// The sum of numbers times variables is at most the number.
    Sum(i128, Vec<(i128, Variable)>),
    /// All the literals are true.
    And(SmallVec<Lit, 4>),
    /// The two literals are both true or both false.
    Iff(Lit, Lit),
}

impl<R> Atom<R> {
    /// The literals that stand in it. Linear in them. `AllocError` only for want of memory.
    pub fn literals(&self, alloc: Global) -> Result<SmallVec<Lit, 4>, AllocError>
        ensures { IfOk result (λ all. all.items ≡ literals_in (atom_in self.now)) }
    {
        match self {
            Atom::And(literals) => SmallVec::from_slice(alloc, literals),
            Atom::Iff(one, other) => SmallVec::from_slice(alloc, &[*one, *other]),
            Atom::Bool(_) | Atom::In(..) | Atom::Le(..) | Atom::Sum(..) => Ok(SmallVec::new(alloc)),
        }
    }

    /// Whether atoms of its form are brought.
    pub fn is_brought(&self) -> bool
        ensures { result ≡ is_brought_atom (atom_in self.now) }
    {
        match self {
            Atom::Le(..) | Atom::Sum(..) => false,
            Atom::Bool(_) | Atom::In(..) | Atom::And(_) | Atom::Iff(..) => true,
        }
    }

    /// The atom with this regex in place of its own, where it has one. Linear in what stands in it. `AllocError` only
    /// for want of memory.
    pub fn with_regex<S: Drop>(&self, alloc: Global, regex: S) -> Result<Atom<S>, AllocError>
        ensures { IfOk result (λ other. atom_in other ≡ map_atom (λ _. regex) (atom_in self.now)) }
    {
        match self {
            Atom::Bool(serial) => Ok(Atom::Bool(*serial)),
            Atom::In(pieces, _) => {
                let pieces = copied(alloc, pieces)?;
                Ok(Atom::In(pieces, regex))
            }
            Atom::Le(variable, bound) => Ok(Atom::Le(*variable, *bound)),
            Atom::Sum(bound, summands) => {
                let summands = Vec::from_slice(alloc, summands)?;
                Ok(Atom::Sum(*bound, summands))
            }
            Atom::And(literals) => {
                let literals = SmallVec::from_slice(alloc, literals)?;
                Ok(Atom::And(literals))
            }
            Atom::Iff(one, other) => Ok(Atom::Iff(*one, *other)),
        }
    }
}

impl<R: Copy> Atom<R> {
    /// What stands for the regex in it, where it has one.
    pub fn regex(&self) -> Option<R>
        ensures { result ≡ regex_in (atom_in self.now) }
    {
        match self {
            Atom::In(_, regex) => Some(*regex),
            Atom::Bool(_) | Atom::Le(..) | Atom::Sum(..) | Atom::And(_) | Atom::Iff(..) => None,
        }
    }

    /// The constant and what stands for the regex, where it is a membership of one constant.
    pub fn member(&self) -> Option<(u64, R)>
        ensures exact { result ≡ member_in (atom_in self.now) }
        ensures is { IfSome result (λ m. atom_in self.now ≡ in_atom (constant_piece m.0 ∷ []) m.1) }
    {
        match self {
            Atom::In(pieces, regex) => match constant_of(pieces) {
                Some(serial) => Some((serial, *regex)),
                None => None,
            },
            Atom::Bool(_) | Atom::Le(..) | Atom::Sum(..) | Atom::And(_) | Atom::Iff(..) => None,
        }
    }
}

/// The constant of a concatenation that is one constant.
fn constant_of(pieces: &[Piece]) -> Option<u64>
    ensures exact { result ≡ constant_of (map piece_in pieces.now) }
    ensures is { IfSome result (λ serial. map piece_in pieces.now ≡ constant_piece serial ∷ []) }
{
    let [piece] = pieces else {
        return None;
    };
    match piece {
        Piece::Constant(serial) => Some(*serial),
        Piece::Word(_) => None,
    }
}

/// The same pieces.
fn copied(alloc: Global, pieces: &[Piece]) -> Result<SmallVec<Piece, 1>, AllocError>
    ensures { IfOk result (λ all. map piece_in all.items ≡ map piece_in pieces.now) }
{
    let mut all = SmallVec::with_capacity(alloc, pieces.len())?;
    for piece in pieces {
        all.push(copied_one(alloc, piece)?)?;
    }
    Ok(all)
}

/// The same piece.
fn copied_one(alloc: Global, piece: &Piece) -> Result<Piece, AllocError>
    ensures { IfOk result (λ other. piece_in other ≡ piece_in piece.now) }
{
    match piece {
        Piece::Constant(serial) => Ok(Piece::Constant(*serial)),
        Piece::Word(characters) => {
            let characters = Vec::from_slice(alloc, characters)?;
            Ok(Piece::Word(characters))
        }
    }
}
