//! The memberships of literals, and where a word is in them.

ghost use Rattle.std.specs.Prelude.{◌≡◌, ◌<◌, map, nat_lt, true, Some, is_some, length, option_map, if◌then◌else◌, IfOk};
ghost use Rattle.std.specs.List.{list_all};
ghost use Rattle.sb_lang.specs.Constructors.{mknot};
ghost use Rattle.sb_regex.specs.Numbered.{regex_at, regexes_at, AllNumbers, Extends};
ghost use Rattle.sb_atoms.specs.Numbered.{atom_in, HaveRegexesBelow};
ghost use Rattle.sb_rules.specs.Refuting.{member_in, member_at, is_of, denied_at};

use sb_atoms::{AtomId, Atoms};
use sb_lit::Lit;
use sb_proof::Atom;
use sb_regex::{Arena, RegexId};
use sb_term::Serial;
use std::alloc::{AllocError, Global};

/// The constant and the regex of a literal's atom, if that is a membership of one constant.
pub(crate) fn member(atoms: &Atoms, literal: Lit) -> Option<(Serial, RegexId)>
    requires { literal.atom < length atoms.now }
    ensures { option_map (λ m. (m.0.0, m.1)) result ≡ member_at atoms.now literal }
{
    member_in(atoms.describe(AtomId::of(literal)))
}

/// The constant and the regex of an atom, if it is a membership of one constant.
fn member_in(atom: &Atom<RegexId>) -> Option<(Serial, RegexId)>
    ensures { option_map (λ m. (m.0.0, m.1)) result ≡ member_in (Some (atom_in atom.now)) }
{
    match atom.member() {
        Some(member) => Some((Serial(member.0), member.1)),
        None => None,
    }
}

/// Whether the literals' atoms are memberships of this constant.
pub(crate) fn are_of(atoms: &Atoms, serial: Serial, literals: &[Lit]) -> bool
    requires { list_all (λ l. nat_lt l.atom (length atoms.now)) literals.now ≡ true }
    ensures { result ≡ list_all (λ l. is_of serial.0 (member_at atoms.now l)) literals.now }
{
    for literal in literals {
        if !is_of(serial, member(atoms, *literal)) {
            return false;
        }
    }
    true
}

/// Whether a membership is of this constant.
fn is_of(serial: Serial, member: Option<(Serial, RegexId)>) -> bool
    ensures { result ≡ is_of serial.0 (option_map (λ m. (m.0.0, m.1)) member) }
{
    match member {
        Some((other, _)) => other == serial,
        None => false,
    }
}

/// The regexes in which the constant's word is where the literals, of memberships, are false.
pub(crate) fn denied(
    alloc: Global,
    atoms: &Atoms,
    arena: &mut Arena,
    literals: &[Lit],
) -> Result<Vec<RegexId>, AllocError>
    requires known { list_all (λ l. nat_lt l.atom (length atoms.now)) literals.now ≡ true }
    requires members { list_all (λ l. is_some (member_at atoms.now l)) literals.now ≡ true }
    requires regexes { HaveRegexesBelow (length arena.old) atoms.now }
    ensures ids { IfOk result (λ ids. regexes_at arena.new ids.items
        ≡ map (denied_at arena.old atoms.now) literals.now) }
    ensures known { IfOk result (λ ids. AllNumbers arena.new ids.items) }
    ensures extends { Extends arena.old arena.new }
{
    let mut ids = Vec::with_capacity(alloc, literals.len())?;
    for literal in literals {
        let Some((_, regex)) = member(atoms, *literal) else {
            unreachable!();
        };
        let id = denied_in(arena, regex, literal.positive)?;
        ids.push(id)?;
    }
    Ok(ids)
}

/// The regex of the words that are not in this one, for a positive literal; else this one.
fn denied_in(arena: &mut Arena, regex: RegexId, positive: bool) -> Result<RegexId, AllocError>
    requires { regex < length arena.old }
    ensures id { IfOk result (λ id. regex_at arena.new id
        ≡ (if positive then mknot (regex_at arena.old regex) else regex_at arena.old regex)) }
    ensures known { IfOk result (λ id. id < length arena.new) }
    ensures extends { Extends arena.old arena.new }
{
    if positive {
        arena.not(regex)
    } else {
        Ok(regex)
    }
}
