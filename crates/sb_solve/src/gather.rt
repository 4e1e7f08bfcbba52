//! The atoms that a search is to decide.

ghost use Rattle.std.specs.Prelude.{◌≡◌, ◌<◌, ℕ, true, nat_eq, List, length, IfOk, OnOk};
ghost use Rattle.sb_solve.specs.Words.{Regex, are_atoms, atoms_in, is_atom, is_table, list_all};
ghost use Rattle.indexmap.specs.IndexSet.{insert_all};
ghost use Rattle.sb_solve.specs.Wanted.{atoms_of, parts_at, is_simple_at, AreWanted};
ghost use Rattle.sb_solve.specs.Gathering.{Closes};

use indexmap::IndexSet;
use sb_atoms::{AtomId, Atoms};
use sb_lit::Lit;
use std::alloc::{AllocError, Global};

/// The atoms of the literals, with those that they speak of, and so on to the end, each once. No others are among them,
/// whatever stands in the table. Each is an atom of the table where the literals' atoms are and the table is one.
///
/// Linear in these atoms and the literals that they speak of. `AllocError` only for want of memory.
pub fn wanted(alloc: Global, atoms: &Atoms, literals: &[Lit]) -> Result<IndexSet<u64>, AllocError>
    ensures wanted { IfOk result (λ found. AreWanted atoms.now literals.now found.keys) }
    ensures known { IfOk result (λ found. (rs : List Regex) → is_table (atoms_in rs atoms.now) ≡ true
        → are_atoms atoms.now literals.now ≡ true → list_all (is_atom atoms.now) found.keys ≡ true) }
{
    let mut found = IndexSet::new(alloc);
    add_all(&mut found, literals)?;
    close(atoms, &mut found)?;
    let _each_once = found.as_slice();
    Ok(found)
}

/// Adds the atoms of literals that are not there.
fn add_all(found: &mut IndexSet<u64>, literals: &[Lit]) -> Result<(), AllocError>
    ensures { OnOk result (found.new.keys ≡ insert_all nat_eq found.old.keys (atoms_of literals.now)) }
{
    for literal in literals {
        found.insert(literal.atom)?;
    }
    Ok(())
}

/// Adds the atoms that these speak of, and so on to the end.
fn close(atoms: &Atoms, found: &mut IndexSet<u64>) -> Result<(), AllocError>
    ensures { OnOk result (Closes atoms.now found.old.keys found.new.keys) }
{
    let mut place = 0;
    while place < found.len() {
        let atom = found[place];
        add_parts(atoms, found, atom)?;
        place += 1;
    }
    Ok(())
}

/// Adds the atoms that an atom speaks of.
fn add_parts(atoms: &Atoms, found: &mut IndexSet<u64>, atom: u64) -> Result<(), AllocError>
    ensures parts { OnOk result (found.new.keys ≡ insert_all nat_eq found.old.keys (parts_at atoms.now atom)) }
    ensures simple { is_simple_at atoms.now atom ≡ true }
{
    let id = AtomId::of(Lit {
        atom,
        positive: true,
    });
    if id.number() >= atoms.len() {
        return Ok(());
    }
    let literals = atoms.describe(id).literals(*found.allocator())?;
    add_all(found, &literals)
}
