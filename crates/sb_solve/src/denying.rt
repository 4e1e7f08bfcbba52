//! The assumptions that a clause denies.

ghost use Rattle.std.specs.Prelude.{◌≡◌, ◌||◌, ◌&&◌, not, List, slice_get, IfOk, OnOk};
ghost use Rattle.std.specs.HashSet.{contains};
ghost use Rattle.sb_solve.specs.Words.{Assumption as TheAssumption, Regex, atoms_in};
ghost use Rattle.sb_script.specs.Verdicts.{is_same_assumption};
ghost use Rattle.sb_rulebook.specs.Verdicts.{denies};
ghost use Rattle.sb_solve.specs.Assumed.{denied_in};
ghost use Rattle.sb_solve.specs.Denying.{AreDenials, are_equal, claim_of};

use crate::given::constant_at;
use sb_atoms::Atoms;
use sb_lit::Lit;
use sb_stack::Assumption;
use std::alloc::{AllocError, Global};
use std::collections::HashSet;

/// That a Bool constant has a truth value.
#[derive(Clone, Copy, PartialEq, Eq, Hash)]
pub(crate) struct Claim {
    pub(crate) serial: u64,
    pub(crate) holds: bool,
}

/// The assumptions that a literal of the clause denies, each once, in the order given. Linear in the clause and in the
/// assumptions. `AllocError` only for want of memory.
pub fn denied(
    alloc: Global,
    atoms: &Atoms,
    clause: &[Lit],
    given: &[Assumption],
) -> Result<Vec<Assumption>, AllocError>
    ensures { IfOk result (λ found. (rs : List Regex)
        → found.items ≡ denied_in (atoms_in rs atoms.now) clause.now given.now) }
{
    let mut claims = denials(alloc, atoms, clause)?;
    let mut found = Vec::new(alloc);
    for assumption in given {
        if !take(&mut claims, *assumption) {
            continue;
        }
        found.push(*assumption)?;
    }
    Ok(found)
}

/// What the literals of the clause deny.
fn denials(alloc: Global, atoms: &Atoms, clause: &[Lit]) -> Result<HashSet<Claim>, AllocError>
    ensures { IfOk result
        (λ claims. AreDenials atoms.now clause.now (λ a. contains are_equal claims (claim_of a))) }
{
    let mut claims = HashSet::new(alloc);
    for literal in clause {
        deny(&mut claims, atoms, *literal)?;
    }
    Ok(claims)
}

/// Puts what a literal denies into the set.
fn deny(claims: &mut HashSet<Claim>, atoms: &Atoms, literal: Lit) -> Result<(), AllocError>
    ensures { OnOk result ((rs : List Regex) (a : TheAssumption) → contains are_equal claims.new (claim_of a)
        ≡ (contains are_equal claims.old (claim_of a)
        || denies literal (slice_get (atoms_in rs atoms.now) literal.atom) a)) }
{
    match constant_at(atoms, literal.atom) {
        Some(serial) => put(
            claims,
            Claim {
                serial: serial.0,
                holds: !literal.positive,
            },
        ),
        None => Ok(()),
    }
}

/// Puts one into the set.
fn put(claims: &mut HashSet<Claim>, claim: Claim) -> Result<(), AllocError>
    ensures { OnOk result ((a : TheAssumption) → contains are_equal claims.new (claim_of a)
        ≡ (contains are_equal claims.old (claim_of a) || are_equal claim (claim_of a))) }
{
    claims.insert(claim)?;
    Ok(())
}

/// Takes what an assumption says out of the set, and says whether it was there.
fn take(claims: &mut HashSet<Claim>, assumption: Assumption) -> bool
    ensures there { result ≡ contains are_equal claims.old (claim_of assumption) }
    ensures left { (a : TheAssumption) → contains are_equal claims.new (claim_of a)
        ≡ (contains are_equal claims.old (claim_of a) && not (is_same_assumption assumption a)) }
{
    let claim = claim_of(assumption);
    let there = claims.contains(&claim);
    claims.remove(&claim);
    there
}

/// What an assumption says.
fn claim_of(assumption: Assumption) -> Claim
    ensures { result ≡ claim_of assumption }
{
    Claim {
        serial: assumption.serial.0,
        holds: assumption.positive,
    }
}
