//! Clauses of steps: which of their literals are of the memberships that a step speaks of.

ghost use Rattle.std.specs.Prelude.{◌≡◌, ◌&&◌, ◌∷◌, [], true, not, nat_lt, length, IfOk};
ghost use Rattle.std.specs.List.{list_all, list_any};
ghost use Rattle.sb_lit.specs.Clauses.{are_ascending};
ghost use Rattle.sb_regex.specs.Numbered.{Extends};
ghost use Rattle.sb_rulebook.specs.Gates.{atom_of, differ_in_sign, is_set_of};
ghost use Rattle.sb_rulebook.specs.Splits.{is_cut, is_split_by, is_step, is_step_of};
ghost use Rattle.sb_proof.specs.Lines.{atom_in};
ghost use Rattle.sb_atoms.specs.Numbered.{Names, atoms_in, HaveRegexesBelow};
ghost use Rattle.sb_rules.specs.Stepping.{AreReady, begins_step, is_ended_by, is_split_with};

use crate::gates::are_among;
use crate::splits::{is_cut, is_end, is_split};
use sb_atoms::{AtomId, Atoms};
use sb_lit::Lit;
use sb_plain::{Plain, right_stays};
use sb_proof::Atom;
use sb_regex::{Arena, RegexId};
use std::alloc::{AllocError, Global};

/// Whether a clause is a step. One of more than three literals is none, so that the time is that of a few looks at its
/// memberships: linear in their pieces and words, with a derivative for each character of a word. `AllocError` only for
/// want of memory; the arena may hold more regexes then.
pub(crate) fn is_step(
    alloc: Global,
    atoms: &Atoms,
    arena: &mut Arena,
    plain: &mut Plain,
    clause: &[Lit],
) -> Result<bool, AllocError>
    requires known { list_all (λ l. nat_lt l.atom (length atoms.now)) clause.now ≡ true }
    requires ascending { are_ascending clause.now ≡ true }
    requires ready { AreReady atoms.now arena.old plain.old }
    ensures ok { IfOk result (λ b. b ≡ is_step (atoms_in arena.old atoms.now) clause.now) }
    ensures extends { Extends arena.old arena.new }
    ensures ready { AreReady atoms.now arena.new plain.new }
{
    if is_long(clause) {
        return Ok(false);
    }
    begin_step(alloc, atoms, arena, plain, clause)
}

/// Whether the clause has more literals than a step has.
fn is_long(clause: &[Lit]) -> bool
    ensures { result ≡ nat_lt 3 (length clause.now) }
{
    clause.len() > 3
}

/// Whether the clause is a step of the membership of one of its literals.
fn begin_step(
    alloc: Global,
    atoms: &Atoms,
    arena: &mut Arena,
    plain: &mut Plain,
    clause: &[Lit],
) -> Result<bool, AllocError>
    requires known { list_all (λ l. nat_lt l.atom (length atoms.now)) clause.now ≡ true }
    requires ready { AreReady atoms.now arena.old plain.old }
    ensures ok { IfOk result (λ b. b ≡ list_any (begins_step (atoms_in arena.old atoms.now) clause.now) clause.now) }
    ensures extends { Extends arena.old arena.new }
    ensures ready { AreReady atoms.now arena.new plain.new }
{
    for literal in clause {
        if begins_step(alloc, atoms, arena, plain, clause, *literal)? {
            return Ok(true);
        }
    }
    Ok(false)
}

/// Whether the clause is a step of the membership of this literal of it.
fn begins_step(
    alloc: Global,
    atoms: &Atoms,
    arena: &mut Arena,
    plain: &mut Plain,
    clause: &[Lit],
    one: Lit,
) -> Result<bool, AllocError>
    requires known { list_all (λ l. nat_lt l.atom (length atoms.now)) clause.now ≡ true }
    requires one { nat_lt one.atom (length atoms.now) ≡ true }
    requires ready { AreReady atoms.now arena.old plain.old }
    ensures ok { IfOk result (λ b. b ≡ begins_step (atoms_in arena.old atoms.now) clause.now one) }
    ensures extends { Extends arena.old arena.new }
    ensures ready { AreReady atoms.now arena.new plain.new }
{
    if is_ended_by(atoms, arena, clause, one) {
        return Ok(true);
    }
    for literal in clause {
        if is_step_of(alloc, atoms, arena, plain, clause, one, *literal)? {
            return Ok(true);
        }
    }
    Ok(false)
}

/// Whether the clause is this literal alone, of a membership of no pieces.
fn is_ended_by(atoms: &Atoms, arena: &Arena, clause: &[Lit], one: Lit) -> bool
    requires one { nat_lt one.atom (length atoms.now) ≡ true }
    requires regexes { HaveRegexesBelow (length arena.now) atoms.now }
    ensures { result ≡ is_ended_by (atoms_in arena.now atoms.now) clause.now one }
{
    is_these(clause, &[one]) && is_end(arena, one.positive, atom_of(atoms, one))
}

/// Whether the clause is a step of these two of its literals, the first of a membership of more pieces.
fn is_step_of(
    alloc: Global,
    atoms: &Atoms,
    arena: &mut Arena,
    plain: &mut Plain,
    clause: &[Lit],
    one: Lit,
    other: Lit,
) -> Result<bool, AllocError>
    requires known { list_all (λ l. nat_lt l.atom (length atoms.now)) clause.now ≡ true }
    requires one { nat_lt one.atom (length atoms.now) ≡ true }
    requires other { nat_lt other.atom (length atoms.now) ≡ true }
    requires ready { AreReady atoms.now arena.old plain.old }
    ensures ok { IfOk result (λ b. b ≡ is_step_of (atoms_in arena.old atoms.now) clause.now one other) }
    ensures extends { Extends arena.old arena.new }
    ensures ready { AreReady atoms.now arena.new plain.new }
{
    right_stays();
    if !differ_in_sign(one, other) {
        return Ok(false);
    }
    if is_cut_of(alloc, atoms, arena, plain, clause, one, other)? {
        return Ok(true);
    }
    is_split_by(atoms, arena, clause, one, other)
}

fn differ_in_sign(one: Lit, other: Lit) -> bool
    ensures { result ≡ differ_in_sign one other }
{
    if one.positive {
        !other.positive
    } else {
        other.positive
    }
}

/// Whether the clause is these two literals, the first of a membership of a word and the pieces of the other.
fn is_cut_of(
    alloc: Global,
    atoms: &Atoms,
    arena: &mut Arena,
    plain: &mut Plain,
    clause: &[Lit],
    one: Lit,
    other: Lit,
) -> Result<bool, AllocError>
    requires one { nat_lt one.atom (length atoms.now) ≡ true }
    requires other { nat_lt other.atom (length atoms.now) ≡ true }
    requires ready { AreReady atoms.now arena.old plain.old }
    ensures ok { IfOk result (λ b. b ≡ (is_set_of clause.now (one ∷ other ∷ [])
        && is_cut (atom_of (atoms_in arena.old atoms.now) one) (atom_of (atoms_in arena.old atoms.now) other))) }
    ensures extends { Extends arena.old arena.new }
    ensures ready { AreReady atoms.now arena.new plain.new }
{
    if !is_these(clause, &[one, other]) {
        return Ok(false);
    }
    let first = atom_of(atoms, one);
    let second = atom_of(atoms, other);
    is_cut(alloc, arena, plain, first, second)
}

/// Whether the clause is these two literals and the negation of one that says that a constant leads from the regex of
/// the first to that of the other.
fn is_split_by(
    atoms: &Atoms,
    arena: &mut Arena,
    clause: &[Lit],
    one: Lit,
    other: Lit,
) -> Result<bool, AllocError>
    requires known { list_all (λ l. nat_lt l.atom (length atoms.now)) clause.now ≡ true }
    requires one { nat_lt one.atom (length atoms.now) ≡ true }
    requires other { nat_lt other.atom (length atoms.now) ≡ true }
    requires regexes { HaveRegexesBelow (length arena.old) atoms.now }
    ensures ok { IfOk result (λ b. b ≡ is_split_by (atoms_in arena.old atoms.now) clause.now one other) }
    ensures extends { Extends arena.old arena.new }
{
    for literal in clause {
        if is_split_with(atoms, arena, clause, one, other, *literal)? {
            return Ok(true);
        }
    }
    Ok(false)
}

/// The same of this third literal, which may be one of the two.
fn is_split_with(
    atoms: &Atoms,
    arena: &mut Arena,
    clause: &[Lit],
    one: Lit,
    other: Lit,
    between: Lit,
) -> Result<bool, AllocError>
    requires one { nat_lt one.atom (length atoms.now) ≡ true }
    requires other { nat_lt other.atom (length atoms.now) ≡ true }
    requires between { nat_lt between.atom (length atoms.now) ≡ true }
    requires regexes { HaveRegexesBelow (length arena.old) atoms.now }
    ensures ok { IfOk result
        (λ b. b ≡ is_split_with (atoms_in arena.old atoms.now) clause.now one other between) }
    ensures extends { Extends arena.old arena.new }
{
    if !is_third(clause, one, other, between) {
        return Ok(false);
    }
    let first = atom_of(atoms, one);
    let path = atom_of(atoms, between);
    let second = atom_of(atoms, other);
    is_split(arena, first, path, second)
}

/// Whether the literal is negative, and the clause is it and these two.
fn is_third(clause: &[Lit], one: Lit, other: Lit, between: Lit) -> bool
    ensures { result ≡ (not between.positive && is_set_of clause.now (between ∷ one ∷ other ∷ [])) }
{
    if between.positive {
        false
    } else {
        is_these(clause, &[between, one, other])
    }
}

/// Whether the clause has these few literals, and no others.
fn is_these(clause: &[Lit], few: &[Lit]) -> bool
    ensures { result ≡ is_set_of clause.now few.now }
{
    are_among(clause, few) && are_among(few, clause)
}

/// The atom of a literal.
fn atom_of(atoms: &Atoms, literal: Lit) -> &Atom<RegexId>
    requires { nat_lt literal.atom (length atoms.now) ≡ true }
    ensures { Names atoms.now literal.atom (atom_in result.now) }
{
    atoms.describe(AtomId::of(literal))
}
