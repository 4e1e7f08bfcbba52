//! The clause by rule step of a literal of a membership.

ghost use Rattle.std.specs.Prelude.{◌≡◌, ℕ, ◌<◌, ◌∷◌, [], true, length, map, IfOk, IsSomeAnd};
ghost use Rattle.std.specs.List.{list_all};
ghost use Rattle.sb_word.specs.Words.{IsWord};
ghost use Rattle.sb_lang.specs.Constructors.{mkpath};
ghost use Rattle.sb_lang.specs.Derivative.{nd_along};
ghost use Rattle.sb_plain.specs.Memory.{IsRight};
ghost use Rattle.sb_rulebook.specs.Atoms.{are_pieces, is_well_formed};
ghost use Rattle.sb_rulebook.specs.AtomRules.{is_declared_piece};
ghost use Rattle.sb_proof.specs.Lines.{piece_in};
ghost use Rattle.sb_split.specs.Words.{AtomOver, HaveRegexesBelow, Names, atoms_in, constant_piece, in_atom, of_sign, regex_at};
ghost use Rattle.sb_split.specs.Added.{Adds, declares_at};
ghost use Rattle.sb_split.specs.Fronts.{IsFrontAt, IsStepOver};
ghost use Rattle.sb_split.specs.Steps.{AreOfStep, IsConstantStep, IsEndStep, IsStepAt, IsWordStep};

use crate::adding::{clause_of, member, path};
use crate::fronts::{Front, front_of};
use sb_atoms::{AtomId, Atoms};
use sb_lit::{Clause, Lit};
use sb_plain::{Plain, right_stays};
use sb_proof::Piece;
use sb_regex::{Arena, RegexId};
use smallvec::SmallVec;
use std::alloc::{AllocError, Global};

/// The clause by rule step that is false where a literal of a membership is true and the membership of what is left
/// behind the first piece is not what it is to be. Of a membership of no pieces the clause says whether it is true.
#[derive(Drop)]
pub struct Step {
    /// Its literals ascend.
    pub clause: Clause,
    /// That the constant in front leads to the regex in between, where a constant stands in front.
    pub lead: Option<Lit>,
    /// What the membership of what is left is to be, where a piece stands in front.
    pub rest: Option<Lit>,
}

/// The step of a literal. Of no pieces its clause says whether the membership is true, whatever the literal's sign; of a
/// word and more pieces the clause is false where the literal is true and what is left is not as true as its atom; of a
/// constant and more pieces so where the constant leads to the regex `between`, which else is not looked at. Of another
/// atom there is none. The atoms of which the clause speaks are added where they are missing.
///
/// Linear in the pieces and in the letters of a word, with a derivative for each letter. `AllocError` only for want of
/// memory; the arena may hold more regexes then, and the table more atoms.
pub fn step_lemma(
    alloc: Global,
    arena: &mut Arena,
    plain: &mut Plain,
    atoms: &mut Atoms,
    literal: Lit,
    between: RegexId,
) -> Result<Option<Step>, AllocError>
    requires known { literal.atom < length atoms.old }
    requires between { between < length arena.old }
    requires formed { (whole : AtomOver ℕ) → Names atoms.old literal.atom whole → is_well_formed whole ≡ true }
    requires regexes { HaveRegexesBelow (length arena.old) atoms.old }
    requires right { IsRight arena.old plain.old }
    ensures step { IfOk result (IsStepAt arena.new atoms.new between literal) }
    ensures adds { Adds (declares_at atoms.old literal.atom) arena.old arena.new atoms.old atoms.new }
    ensures only { IfOk result (AreOfStep atoms.old atoms.new) }
    ensures right { IsRight arena.new plain.new }
{
    right_stays();
    let front = front_at(alloc, atoms, literal)?;
    match front {
        Front::End(regex) => end_step(alloc, arena, literal, regex),
        Front::Word(word, pieces, regex) => {
            word_step(alloc, arena, plain, atoms, literal, &word, pieces, regex)
        }
        Front::Constant(serial, pieces, regex) => {
            constant_step(alloc, arena, atoms, literal, serial, pieces, regex, between)
        }
        Front::Other => Ok(None),
    }
}

/// The atom of a literal, taken apart.
fn front_at(alloc: Global, atoms: &Atoms, literal: Lit) -> Result<Front, AllocError>
    requires known { literal.atom < length atoms.now }
    requires formed { (whole : AtomOver ℕ) → Names atoms.now literal.atom whole → is_well_formed whole ≡ true }
    ensures { IfOk result (IsFrontAt atoms.now literal.atom) }
{
    front_of(alloc, atoms.describe(AtomId::of(literal)))
}

/// The step of these literals.
fn step_over(
    alloc: Global,
    literals: &[Lit],
    lead: Option<Lit>,
    rest: Option<Lit>,
) -> Result<Option<Step>, AllocError>
    ensures { IfOk result (λ answer. IsSomeAnd answer (IsStepOver literals.now lead rest)) }
{
    let clause = clause_of(alloc, literals)?;
    Ok(Some(Step { clause, lead, rest }))
}

/// The step of a membership of no pieces.
fn end_step(
    alloc: Global,
    arena: &Arena,
    literal: Lit,
    regex: RegexId,
) -> Result<Option<Step>, AllocError>
    requires { regex < length arena.now }
    ensures { IfOk result (λ answer. IsSomeAnd answer (IsEndStep literal.atom (regex_at arena.now regex))) }
{
    let truth = Lit {
        atom: literal.atom,
        positive: arena.nullable(regex),
    };
    step_over(alloc, &[truth], None, None)
}

/// The step of a membership of a word and more pieces.
fn word_step(
    alloc: Global,
    arena: &mut Arena,
    plain: &mut Plain,
    atoms: &mut Atoms,
    literal: Lit,
    word: &[u32],
    pieces: SmallVec<Piece, 1>,
    regex: RegexId,
) -> Result<Option<Step>, AllocError>
    requires regex { regex < length arena.old }
    requires word { IsWord word.now }
    requires formed { are_pieces (map piece_in pieces.items) ≡ true }
    requires regexes { HaveRegexesBelow (length arena.old) atoms.old }
    requires right { IsRight arena.old plain.old }
    ensures step { IfOk result (λ answer. IsSomeAnd answer (IsWordStep (atoms_in arena.new atoms.new) literal
        (in_atom (map piece_in pieces.items) (nd_along (regex_at arena.old regex) word.now)))) }
    ensures adds { Adds (λ sorts. list_all (is_declared_piece sorts) (map piece_in pieces.items))
        arena.old arena.new atoms.old atoms.new }
    ensures only { IfOk result (AreOfStep atoms.old atoms.new) }
    ensures right { IsRight arena.new plain.new }
{
    let target = plain.along(arena, word, regex)?;
    let behind = member(atoms, pieces, target)?;
    let rest = signed_as(behind, literal);
    step_over(alloc, &[literal.negated(), rest], None, Some(rest))
}

/// The literal with the sign of another one.
fn signed_as(literal: Lit, other: Lit) -> Lit
    ensures { result ≡ of_sign other.positive literal.atom }
{
    Lit {
        atom: literal.atom,
        positive: other.positive,
    }
}

/// The step of a membership of a constant and more pieces.
fn constant_step(
    alloc: Global,
    arena: &mut Arena,
    atoms: &mut Atoms,
    literal: Lit,
    serial: u64,
    pieces: SmallVec<Piece, 1>,
    regex: RegexId,
    between: RegexId,
) -> Result<Option<Step>, AllocError>
    requires regex { regex < length arena.old }
    requires between { between < length arena.old }
    requires formed { are_pieces (map piece_in pieces.items) ≡ true }
    requires regexes { HaveRegexesBelow (length arena.old) atoms.old }
    ensures step { IfOk result (λ answer. IsSomeAnd answer (IsConstantStep (atoms_in arena.new atoms.new) literal
        (in_atom (constant_piece serial ∷ []) (mkpath (regex_at arena.old regex) (regex_at arena.old between)))
        (in_atom (map piece_in pieces.items) (regex_at arena.old between)))) }
    ensures adds { Adds
        (λ sorts. list_all (is_declared_piece sorts) (constant_piece serial ∷ map piece_in pieces.items))
        arena.old arena.new atoms.old atoms.new }
    ensures only { IfOk result (AreOfStep atoms.old atoms.new) }
{
    let lead = path(alloc, arena, atoms, serial, regex, between)?;
    let behind = member(atoms, pieces, between)?;
    let rest = signed_as(behind, literal);
    step_over(
        alloc,
        &[lead.negated(), literal.negated(), rest],
        Some(lead),
        Some(rest),
    )
}
