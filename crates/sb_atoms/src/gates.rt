//! The clauses of gates.

ghost use Rattle.std.specs.Prelude.{◌≡◌, ◌<◌, Bool, true, false, List, ◌++◌, ◌∷◌, [], length, map, IfOk, OnOk};
ghost use Rattle.std.specs.List.{list_all, flat_map};
ghost use Rattle.sb_lang.specs.Regex.{Regex};
ghost use Rattle.sb_lit.specs.Clauses.{are_ascending, negation};
ghost use Rattle.sb_rulebook.specs.Gates.{clauses_of, gate, is_gate};
ghost use Rattle.sb_sound.specs.GateLaws.{all_hold, is_as_it_says};
ghost use Rattle.sb_proof.specs.Lines.{atom_in};
ghost use Rattle.sb_atoms.specs.Numbered.{atoms_in};
ghost use Rattle.sb_atoms.specs.GateClauses.{atom_at, gate_clauses, is_trivial, begins_with, clause_of};

use crate::atom::AtomId;
use crate::order::in_order;
use crate::table::Atoms;
use sb_lit::{Clause, Lit};
use sb_proof::Atom;
use sb_regex::RegexId;
use std::alloc::{AllocError, Global};

/// Whether a clause whose literals ascend has a literal and its negation.
fn is_trivial(literals: &[Lit]) -> bool
    ensures { result ≡ is_trivial literals.now }
{
    let mut left = literals;
    while let [first, others @ ..] = left {
        if begins_with(first.atom, others) {
            return true;
        }
        left = others;
    }
    false
}

/// Whether the first of the literals is of this atom.
fn begins_with(atom: u64, literals: &[Lit]) -> bool
    ensures { result ≡ begins_with atom literals.now }
{
    match literals {
        [first, ..] => atom == first.atom,
        [] => false,
    }
}

/// Adds the clause of the literals, in order and each once, unless it is true whatever they are.
fn put(alloc: Global, clauses: &mut Vec<Clause>, literals: Vec<Lit>) -> Result<(), AllocError>
    ensures { OnOk result (clauses.new.items ≡ clauses.old.items ++ clause_of literals.items) }
{
    let ordered = in_order(alloc, literals)?;
    if is_trivial(ordered.as_slice()) {
        return Ok(());
    }
    let literals = Vec::from_slice(alloc, ordered.as_slice())?;
    clauses.push(Clause::from_literals(literals))?;
    Ok(())
}

/// Adds the clauses of these literals so.
fn ordered(alloc: Global, said: &[Clause]) -> Result<Vec<Clause>, AllocError>
    ensures { IfOk result (λ found. found.items ≡ flat_map clause_of said.now) }
{
    let mut found = Vec::new(alloc);
    for clause in said {
        let literals = Vec::from_slice(alloc, clause.literals())?;
        put(alloc, &mut found, literals)?;
    }
    Ok(found)
}

/// The literal that an atom is true in, or the one that it is false in.
fn gate(atom: AtomId, positive: bool) -> Lit
    ensures { result ≡ gate atom positive }
{
    Lit {
        atom: atom.number() as u64,
        positive,
    }
}

/// Adds the clause of these literals.
fn say(alloc: Global, said: &mut Vec<Clause>, literals: &[Lit]) -> Result<(), AllocError>
    ensures { OnOk result (said.new.items ≡ said.old.items ++ literals.now ∷ []) }
{
    let literals = Vec::from_slice(alloc, literals)?;
    said.push(Clause::from_literals(literals))?;
    Ok(())
}

/// Where the conjunction is true each literal is.
fn say_parts(
    alloc: Global,
    said: &mut Vec<Clause>,
    atom: AtomId,
    literals: &[Lit],
) -> Result<(), AllocError>
    ensures { OnOk result
        (said.new.items ≡ said.old.items ++ map (λ l. gate atom false ∷ l ∷ []) literals.now) }
{
    for literal in literals {
        say(alloc, said, &[gate(atom, false), *literal])?;
    }
    Ok(())
}

/// Where all literals are true the conjunction is.
fn say_whole(
    alloc: Global,
    said: &mut Vec<Clause>,
    atom: AtomId,
    literals: &[Lit],
) -> Result<(), AllocError>
    ensures { OnOk result
        (said.new.items ≡ said.old.items ++ (gate atom true ∷ map negation literals.now) ∷ []) }
{
    let mut whole = Vec::with_capacity(alloc, literals.len())?;
    whole.push(gate(atom, true))?;
    for literal in literals {
        whole.push(literal.negated())?;
    }
    said.push(Clause::from_literals(whole))?;
    Ok(())
}

/// Where the equivalence is true both literals are true, or both false, and where it is false they are not.
fn say_two(
    alloc: Global,
    said: &mut Vec<Clause>,
    atom: AtomId,
    one: Lit,
    other: Lit,
) -> Result<(), AllocError>
    ensures { OnOk result (said.new.items ≡ said.old.items
        ++ (gate atom true ∷ one ∷ other ∷ [])
        ∷ (gate atom true ∷ negation one ∷ negation other ∷ [])
        ∷ (gate atom false ∷ negation one ∷ other ∷ [])
        ∷ (gate atom false ∷ one ∷ negation other ∷ []) ∷ []) }
{
    let (yes, no) = (gate(atom, true), gate(atom, false));
    say(alloc, said, &[yes, one, other])?;
    say(alloc, said, &[yes, one.negated(), other.negated()])?;
    say(alloc, said, &[no, one.negated(), other])?;
    say(alloc, said, &[no, one, other.negated()])
}

/// Adds the clauses of an atom, each kind by its own rule.
fn say_all(
    alloc: Global,
    said: &mut Vec<Clause>,
    atom: AtomId,
    described: &Atom<RegexId>,
) -> Result<(), AllocError>
    ensures { OnOk result (said.new.items ≡ said.old.items ++ clauses_of atom (atom_in described.now)) }
{
    match described {
        Atom::And(literals) => {
            say_parts(alloc, said, atom, literals.as_slice())?;
            say_whole(alloc, said, atom, literals.as_slice())
        }
        Atom::Iff(one, other) => say_two(alloc, said, atom, *one, *other),
        Atom::Bool(_) | Atom::In(..) | Atom::Le(..) | Atom::Sum(..) => Ok(()),
    }
}

/// The clauses that say what an atom says of literals. Of a conjunction: where it is true each of its literals is, and
/// where all of these are true it is. Of an equivalence: where it is true both of its literals are true, or both false,
/// and where it is false one of them is true and the other one is not. Of another atom there are none. Each is as the
/// atom has its literals.
///
/// Linear in the literals of the clauses. `AllocError` only for want of memory.
pub fn said_clauses(alloc: Global, atoms: &Atoms, atom: AtomId) -> Result<Vec<Clause>, AllocError>
    requires { atom < length atoms.now }
    ensures { IfOk result (λ said. said.items ≡ clauses_of atom (atom_at atoms.now atom)) }
{
    let mut said = Vec::new(alloc);
    say_all(alloc, &mut said, atom, atoms.describe(atom))?;
    Ok(said)
}

/// The clauses that say what an atom says of literals, each in order. A clause with a literal and its negation is left
/// out, and no clause is repeated where the atom's literals are not.
///
/// Linear in the literals of the clauses, but that those of one clause are sorted. `AllocError` only for want of memory.
pub fn gate_clauses(alloc: Global, atoms: &Atoms, atom: AtomId) -> Result<Vec<Clause>, AllocError>
    requires { atom < length atoms.now }
    ensures exact { IfOk result (λ found. found.items ≡ gate_clauses atom (atom_at atoms.now atom)) }
    ensures ascending { IfOk result (λ found. list_all are_ascending found.items ≡ true) }
    ensures gates { IfOk result
        (λ found. (rs : List Regex) → list_all (is_gate (atoms_in rs atoms.now)) found.items ≡ true) }
    ensures says { IfOk result (λ found. (truths : List Bool)
        → all_hold truths found.items ≡ is_as_it_says truths atom (atom_at atoms.now atom)) }
{
    let said = said_clauses(alloc, atoms, atom)?;
    let found = ordered(alloc, &said)?;
    Ok(found)
}
