//! Clauses whose literals deny assumptions.

ghost use Rattle.std.specs.Prelude.{◌≡◌, option_map, Some, slice_get, IfOk};
ghost use Rattle.std.specs.List.{list_all};
ghost use Rattle.std.specs.HashSet.{contains};
ghost use Rattle.sb_script.specs.State as meaning;
ghost use Rattle.sb_proof.specs.Lines.{atom_in};
ghost use Rattle.sb_check.specs.Denying.{are_equal, is_given, constant_in, denies_in};

use sb_atoms::{AtomId, Atoms};
use sb_lit::Lit;
use sb_proof::Atom;
use sb_regex::RegexId;
use sb_stack::Assumption;
use sb_term::Serial;
use std::alloc::{AllocError, Global};
use std::collections::HashSet;

/// Whether each literal is the negation of an assumption, so that not all assumptions hold where the clause does.
/// Linear in the assumptions and the literals, by hash. `AllocError` only for want of memory.
pub(crate) fn refutes(
    alloc: Global,
    atoms: &Atoms,
    assumptions: &[Assumption],
    literals: &[Lit],
) -> Result<bool, AllocError>
    ensures { IfOk result
        (λ refuted. refuted ≡ list_all (denies_in (is_given assumptions.now) atoms.now) literals.now) }
{
    let given = set_of(alloc, assumptions)?;
    Ok(deny_all(atoms, &given, literals))
}

/// The set of these assumptions.
fn set_of(alloc: Global, assumptions: &[Assumption]) -> Result<HashSet<Assumption>, AllocError>
    ensures { IfOk result
        (λ given. (a : meaning.Assumption) → contains are_equal given a ≡ is_given assumptions.now a) }
{
    let mut given = HashSet::new(alloc);
    for assumption in assumptions {
        given.insert(*assumption)?;
    }
    Ok(given)
}

/// Whether each literal denies an assumption of the set.
fn deny_all(atoms: &Atoms, given: &HashSet<Assumption>, literals: &[Lit]) -> bool
    ensures { result ≡ list_all (denies_in (contains are_equal given.now) atoms.now) literals.now }
{
    literals
        .iter()
        .all(|literal| denies(atoms, given, *literal))
}

/// Whether the literal denies an assumption of the set.
fn denies(atoms: &Atoms, given: &HashSet<Assumption>, literal: Lit) -> bool
    ensures { result ≡ denies_in (contains are_equal given.now) atoms.now literal }
{
    match constant_of(atoms, literal) {
        Some(serial) => given.contains(&Assumption {
            serial,
            positive: !literal.positive,
        }),
        None => false,
    }
}

/// The constant whose truth the literal's atom is, if it is one's.
fn constant_of(atoms: &Atoms, literal: Lit) -> Option<Serial>
    ensures { option_map (λ serial. serial.0) result ≡ constant_in (slice_get atoms.now literal.atom) }
{
    if literal.atom as usize >= atoms.len() {
        return None;
    }
    constant_in(atoms.describe(AtomId::of(literal)))
}

/// The constant whose truth the atom is, if it is one's.
fn constant_in(atom: &Atom<RegexId>) -> Option<Serial>
    ensures { option_map (λ serial. serial.0) result ≡ constant_in (Some (atom_in atom.now)) }
{
    match atom {
        Atom::Bool(serial) => Some(Serial(*serial)),
        Atom::In(..) | Atom::And(_) | Atom::Iff(..) | Atom::Le(..) | Atom::Sum(..) => None,
    }
}
