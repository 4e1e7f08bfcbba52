//! The pieces of String terms, as atoms have them, and the sides of memberships.

ghost use Rattle.std.specs.Prelude.{◌≡◌, ◌<◌, true, length, map, option_map, IfOk};
ghost use Rattle.sb_regex.specs.Numbered.{Extends};
ghost use Rattle.sb_term.specs.Numbered.{term_at};
ghost use Rattle.sb_problem.specs.Known.{AreNormals};
ghost use Rattle.sb_problem.specs.Parts as problem;
ghost use Rattle.sb_fragment.specs.Memberships.{in_re, is_in_re};
ghost use Rattle.sb_proof.specs.Lines.{piece_in};
ghost use Rattle.sb_atoms.specs.Shapes.{ArePiecesOf};

use sb_fragment::term_and_regex;
use sb_problem::{Normals, Part};
use sb_proof::Piece;
use sb_regex::Arena;
use sb_term::{Table, TermId};
use smallvec::SmallVec;
use std::alloc::{AllocError, Global};

/// The String term and the regular expression of a membership.
pub(crate) fn sides_of(table: &Table, id: TermId) -> (TermId, TermId)
    requires number { id < length table.now }
    requires member { is_in_re (term_at table.now id) ≡ true }
    ensures is { term_at table.now id ≡ in_re (term_at table.now result.0) (term_at table.now result.1) }
    ensures below { (result.0 < id) × (result.1 < id) }
{
    match term_and_regex(table, id) {
        Some(sides) => sides,
        None => unreachable!(),
    }
}

/// The characters as numbers of a proof.
fn widened(alloc: Global, codes: &[u32]) -> Result<Vec<u64>, AllocError>
    ensures { IfOk result (λ all. all.items ≡ codes.now) }
{
    let mut all = Vec::with_capacity(alloc, codes.len())?;
    for code in codes {
        all.push(*code as u64)?;
    }
    Ok(all)
}

/// A part of a String term as a piece of an atom.
fn piece_of(alloc: Global, part: &Part) -> Result<Piece, AllocError>
    ensures { IfOk result (λ piece. piece_in piece ≡ problem.piece_in part.now) }
{
    match part {
        Part::Constant(serial) => Ok(Piece::Constant(serial.0)),
        Part::Word(codes) => {
            let characters = widened(alloc, codes)?;
            Ok(Piece::Word(characters))
        }
    }
}

/// The parts of a String term as pieces of an atom.
fn pieces_of(alloc: Global, parts: &[Part]) -> Result<SmallVec<Piece, 1>, AllocError>
    ensures { IfOk result (λ all. map piece_in all.items ≡ problem.parts_in parts.now) }
{
    let mut all = SmallVec::with_capacity(alloc, parts.len())?;
    for part in parts {
        all.push(piece_of(alloc, part)?)?;
    }
    Ok(all)
}

/// The pieces of a String term in which each constant stands once at most, none of another term. Linear in them and in
/// what [`Normals::single_pieces`] takes.
pub(crate) fn single_pieces(
    alloc: Global,
    normals: &mut Normals,
    table: &Table,
    arena: &mut Arena,
    id: TermId,
) -> Result<Option<SmallVec<Piece, 1>>, AllocError>
    requires number { id < length table.now }
    requires normals { AreNormals table.now arena.old normals.old }
    ensures ok { IfOk result
        (λ found. ArePiecesOf (term_at table.now id) (option_map (λ v. map piece_in v.items) found)) }
    ensures extends { Extends arena.old arena.new }
    ensures normals { AreNormals table.now arena.new normals.new }
{
    let Some(parts) = normals.single_pieces(table, arena, id)? else {
        return Ok(None);
    };
    let pieces = pieces_of(alloc, &parts)?;
    Ok(Some(pieces))
}
