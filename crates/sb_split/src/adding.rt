//! Literals of memberships whose atoms are added where they are missing, and clauses of literals.

ghost use Rattle.std.specs.Prelude.{◌≡◌, ◌<◌, ◌∷◌, [], true, List, length, map, IfOk};
ghost use Rattle.std.specs.List.{list_all};
ghost use Rattle.sb_rulebook.specs.Atoms.{are_pieces};
ghost use Rattle.sb_rulebook.specs.AtomRules.{is_declared_piece};
ghost use Rattle.sb_proof.specs.Lines.{piece_in};
ghost use Rattle.sb_split.specs.Words.{HaveRegexesBelow, Regex, constant_piece, in_atom, in_order};
ghost use Rattle.sb_split.specs.Added.{Adds, declares};
ghost use Rattle.sb_split.specs.Covers.{IsPath};
ghost use Rattle.sb_split.specs.Fronts.{AreOf, IsMember};

use sb_atoms::{Atoms, in_order};
use sb_lit::{Clause, Lit};
use sb_proof::{Atom, Piece};
use sb_regex::{Arena, RegexId};
use smallvec::SmallVec;
use std::alloc::{AllocError, Global};

/// The literal that the concatenation of pieces is in a regex.
pub(crate) fn member(
    atoms: &mut Atoms,
    pieces: SmallVec<Piece, 1>,
    regex: RegexId,
) -> Result<Lit, AllocError>
    requires { are_pieces (map piece_in pieces.items) ≡ true }
    ensures member { IfOk result (IsMember atoms.new (in_atom (map piece_in pieces.items) regex)) }
    ensures adds { (rs : List Regex) → regex < length rs → HaveRegexesBelow (length rs) atoms.old
        → Adds (λ sorts. list_all (is_declared_piece sorts) (map piece_in pieces.items)) rs rs atoms.old atoms.new }
    ensures only { IfOk result (λ l. AreOf atoms.old atoms.new (l ∷ [])) }
{
    let id = atoms.add(Atom::In(pieces, regex))?;
    atoms.atoms_each_once();
    Ok(Lit {
        atom: id.number() as u64,
        positive: true,
    })
}

/// The literal that the word of a constant leads from a regex to another one.
pub(crate) fn path(
    alloc: Global,
    arena: &mut Arena,
    atoms: &mut Atoms,
    serial: u64,
    from: RegexId,
    to: RegexId,
) -> Result<Lit, AllocError>
    requires from { from < length arena.old }
    requires to { to < length arena.old }
    requires regexes { HaveRegexesBelow (length arena.old) atoms.old }
    ensures path { IfOk result (IsPath arena.new atoms.new serial from to) }
    ensures adds { Adds (declares serial) arena.old arena.new atoms.old atoms.new }
    ensures only { IfOk result (λ l. AreOf atoms.old atoms.new (l ∷ [])) }
{
    let regex = arena.path(from, to)?;
    let pieces = alone(alloc, serial);
    member(atoms, pieces, regex)
}

/// The concatenation of one constant.
fn alone(alloc: Global, serial: u64) -> SmallVec<Piece, 1>
    ensures { map piece_in result.items ≡ constant_piece serial ∷ [] }
{
    SmallVec::from_buf(alloc, [Piece::Constant(serial)])
}

/// The clause of the literals, in order and each once.
pub(crate) fn clause_of(alloc: Global, literals: &[Lit]) -> Result<Clause, AllocError>
    ensures { IfOk result (λ clause. clause ≡ in_order literals.now) }
{
    let all = Vec::from_slice(alloc, literals)?;
    let ordered = in_order(alloc, all)?;
    let literals = Vec::from_slice(alloc, ordered.as_slice())?;
    Ok(Clause::from_literals(literals))
}
