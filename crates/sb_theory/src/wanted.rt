//! The atoms that are to have values.

ghost use Rattle.std.specs.Prelude.{◌≡◌, ◌<◌, ◌^◌, slice_get, length, IfOk, OnOk};
ghost use Rattle.sb_theory.specs.Wanted.{is_wanted, IsWithAtom};

use indexmap::IndexSet;
use std::alloc::AllocError;
use std::marker::Model;

/// Atoms, of each of which it is known at once that it is one of them.
#[derive(Drop)]
pub struct WantedAtoms {
    atoms: IndexSet<u64>,
}

impl Model for WantedAtoms {
    ghost use Rattle.std.specs.Prelude.{ℕ, List};

    ghost Value = { List ℕ };

    ghost view = { λ wanted. wanted.atoms.keys };
}

impl WantedAtoms {
    /// These atoms. Takes no memory; constant time.
    pub fn of(atoms: IndexSet<u64>) -> WantedAtoms
        ensures { result ≡ atoms.keys }
    {
        WantedAtoms { atoms }
    }

    /// The same atoms, in a set of its own. Linear in them.
    pub(crate) fn copied(&self) -> Result<WantedAtoms, AllocError>
        ensures { IfOk result (λ other. other ≡ self.now) }
    {
        let all = self.atoms.as_slice();
        let mut atoms = IndexSet::new(*self.atoms.allocator());
        for atom in all {
            atoms.insert_full(*atom)?;
        }
        Ok(WantedAtoms { atoms })
    }

    /// Adds an atom, unless it is there.
    pub(crate) fn add(&mut self, atom: u64) -> Result<(), AllocError>
        ensures { OnOk result (IsWithAtom self.old self.new atom) }
    {
        self.atoms.insert_full(atom)?;
        Ok(())
    }

    /// Whether an atom is one of them. Takes constant time and no memory.
    pub fn contains(&self, atom: u64) -> bool
        ensures { result ≡ is_wanted self.now atom }
    {
        self.atoms.contains(&atom)
    }

    /// The atom at a place, `None` exactly past the last one. Takes no memory.
    pub fn at(&self, place: u64) -> Option<u64>
        ensures atom { result ≡ slice_get self.now place }
        ensures small { length self.now < 2 ^ 63 }
    {
        let atoms = self.atoms.as_slice();
        let _small = atoms.len();
        atoms.get(place as usize).copied()
    }

    /// The atoms. Takes no memory.
    pub fn atoms(&self) -> &[u64]
        ensures { result.now ≡ self.now }
    {
        self.atoms.as_slice()
    }
}
