//! The clauses by rule empty that say where a constant's word leads.

ghost use Rattle.std.specs.Prelude.{◌≡◌, ◌≢◌, ◌<◌, ◌∷◌, [], length, map, IfOk, OnOk};
ghost use Rattle.sb_regex.specs.Numbered.{AllNumbers};
ghost use Rattle.sb_clash.specs.Denials.{IsDenial};
ghost use Rattle.sb_clash.specs.Literals.{AreAbout};
ghost use Rattle.sb_split.specs.Words.{HaveRegexesBelow, negation};
ghost use Rattle.sb_split.specs.Added.{Adds, AreSpokenOf, declares};
ghost use Rattle.sb_split.specs.Covers.{Covers, IsCover, IsPair};
ghost use Rattle.sb_split.specs.Fronts.{AreOf, IsWithPaths};

use crate::adding::{clause_of, path};
use sb_atoms::Atoms;
use sb_lang::constructors::{mkand_keeps_language, mknot_keeps_language, mkpath_keeps_language};
use sb_lang::order::order_tells_apart;
use sb_lit::{Clause, Lit};
use sb_regex::{Arena, RegexId};
use sb_term::Serial;
use std::alloc::{AllocError, Global};

/// The clause that a constant's word leads from a regex to one of a list, or makes one of the guards false, which are
/// literals of memberships of the constant alone. The atoms of which it speaks are added where they are missing.
///
/// It sorts the literals. `AllocError` only for want of memory; the arena may hold more regexes then, and the table
/// more atoms.
pub fn cover_lemma(
    alloc: Global,
    arena: &mut Arena,
    atoms: &mut Atoms,
    constant: Serial,
    from: RegexId,
    guards: &[Lit],
    list: &[RegexId],
) -> Result<Clause, AllocError>
    requires from { from < length arena.old }
    requires list { AllNumbers arena.old list.now }
    requires about { AreAbout atoms.old constant.0 guards.now }
    requires covers { Covers arena.old atoms.old from guards.now list.now }
    requires regexes { HaveRegexesBelow (length arena.old) atoms.old }
    ensures cover { IfOk result (IsCover arena.new atoms.new constant.0 from guards.now list.now) }
    ensures denial { IfOk result (IsDenial arena.new atoms.new constant.0) }
    ensures adds { Adds (declares constant.0) arena.old arena.new atoms.old atoms.new }
    ensures only { IfOk result (λ clause. AreSpokenOf atoms.old atoms.new (clause ∷ [])) }
{
    mkand_keeps_language();
    mknot_keeps_language();
    mkpath_keeps_language();
    order_tells_apart();
    let mut literals = negations(alloc, guards)?;
    add_paths(alloc, arena, atoms, constant.0, from, list, &mut literals)?;
    clause_of(alloc, &literals)
}

/// The negations of literals, in order.
fn negations(alloc: Global, literals: &[Lit]) -> Result<Vec<Lit>, AllocError>
    ensures { IfOk result (λ all. all.items ≡ map negation literals.now) }
{
    let mut all = Vec::with_capacity(alloc, literals.len())?;
    for literal in literals {
        all.push(literal.negated())?;
    }
    Ok(all)
}

/// Adds the literals that a constant's word leads from a regex to each of a list.
fn add_paths(
    alloc: Global,
    arena: &mut Arena,
    atoms: &mut Atoms,
    serial: u64,
    from: RegexId,
    list: &[RegexId],
    literals: &mut Vec<Lit>,
) -> Result<(), AllocError>
    requires from { from < length arena.old }
    requires list { AllNumbers arena.old list.now }
    requires regexes { HaveRegexesBelow (length arena.old) atoms.old }
    ensures paths { OnOk result
        (IsWithPaths arena.new atoms.new serial from list.now literals.old.items literals.new.items) }
    ensures adds { Adds (declares serial) arena.old arena.new atoms.old atoms.new }
    ensures only { OnOk result (AreOf atoms.old atoms.new literals.new.items) }
{
    for to in list {
        let literal = path(alloc, arena, atoms, serial, from, *to)?;
        literals.push(literal)?;
    }
    Ok(())
}

/// The clause that a constant's word does not lead from a regex to two others. The atoms of which it speaks are added
/// where they are missing. Constant time. `AllocError` only for want of memory; the arena may hold more regexes then,
/// and the table more atoms.
pub fn pair_lemma(
    alloc: Global,
    arena: &mut Arena,
    atoms: &mut Atoms,
    constant: Serial,
    from: RegexId,
    one: RegexId,
    other: RegexId,
) -> Result<Clause, AllocError>
    requires from { from < length arena.old }
    requires one { one < length arena.old }
    requires other { other < length arena.old }
    requires apart { one ≢ other }
    requires regexes { HaveRegexesBelow (length arena.old) atoms.old }
    ensures pair { IfOk result (IsPair arena.new atoms.new constant.0 from one other) }
    ensures denial { IfOk result (IsDenial arena.new atoms.new constant.0) }
    ensures adds { Adds (declares constant.0) arena.old arena.new atoms.old atoms.new }
    ensures only { IfOk result (λ clause. AreSpokenOf atoms.old atoms.new (clause ∷ [])) }
{
    mkand_keeps_language();
    mknot_keeps_language();
    mkpath_keeps_language();
    order_tells_apart();
    arena.normal_regexes_each_once();
    let first = path(alloc, arena, atoms, constant.0, from, one)?;
    let second = path(alloc, arena, atoms, constant.0, from, other)?;
    clause_of(alloc, &[first.negated(), second.negated()])
}
