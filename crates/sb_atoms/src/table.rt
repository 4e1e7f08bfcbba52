//! The table of atoms.

ghost use Rattle.std.specs.Prelude.{◌≡◌, ◌<◌, true, Some, length, [], IfOk};
ghost use Rattle.sb_rulebook.specs.Brought.{is_brought_atom};
ghost use Rattle.sb_proof.specs.Lines.{atom_in};
ghost use Rattle.sb_atoms.specs.Numbered.{Names, IsWith, IsNumberIn, AreDistinct};
ghost use Rattle.sb_atoms.specs.Growing.{IsLiteralOf, GrownByOne};

use crate::atom::AtomId;
use indexmap::IndexSet;
use sb_lang::order::order_tells_apart;
use sb_lit::Lit;
use sb_proof::Atom;
use sb_regex::RegexId;
use std::alloc::{AllocError, Global};
use std::marker::Model;

/// Atoms by their numbers, each once, of the kinds that are brought.
#[derive(Drop)]
pub struct Atoms {
    atoms: IndexSet<Atom<RegexId>>,
}

impl Model for Atoms {
    ghost use Rattle.std.specs.Prelude.{◌≡◌, ℕ, true, List};
    ghost use Rattle.std.specs.List.{list_all};
    ghost use Rattle.sb_rulebook.specs.Atoms.{AtomOver};

    ghost Value = { List (AtomOver ℕ) };

    ghost use Rattle.sb_atoms.specs.Numbered.{numbered_atoms, AreDistinct};

    ghost view = { λ atoms. numbered_atoms atoms.atoms.keys };

    ghost use Rattle.sb_rulebook.specs.Brought.{is_brought_atom};

    ghost invariant = { λ atoms. AreDistinct (numbered_atoms atoms.atoms.keys)
        × (list_all is_brought_atom (numbered_atoms atoms.atoms.keys) ≡ true) };
}

impl Atoms {
    /// A table without atoms. Takes no memory.
    pub fn new(alloc: Global) -> Atoms
        ensures { result ≡ [] }
    {
        Atoms {
            atoms: IndexSet::new(alloc),
        }
    }

    /// The number of atoms. The numbers of atoms are those below it.
    pub fn len(&self) -> usize
        ensures { result ≡ length self.now }
    {
        self.atoms.len()
    }

    /// The atom of a number. Takes constant time and no memory.
    pub fn describe(&self, id: AtomId) -> &Atom<RegexId>
        requires { id < length self.now }
        ensures names { Names self.now id (atom_in result.now) }
        ensures brought { is_brought_atom (atom_in result.now) ≡ true }
    {
        &self.atoms[id.number()]
    }

    /// Numbers are equal exactly where their atoms are.
    pub fn atoms_each_once(&self)
        ensures { AreDistinct self.now }
    {
        let _atoms = &self.atoms;
    }

    /// The number of an atom, a new one where it has none. Takes constant time, by hash. `AllocError` only for want of
    /// memory; the table is then as it was.
    pub fn add(&mut self, atom: Atom<RegexId>) -> Result<AtomId, AllocError>
        requires { is_brought_atom (atom_in atom) ≡ true }
        ensures ok { IfOk result (λ id. Names self.new id (atom_in atom)) }
        ensures grows { IsWith self.old self.new (atom_in atom) }
    {
        let (number, _) = self.atoms.insert_full(atom)?;
        Ok(AtomId::new(number))
    }

    /// The number of an atom, if it has one. Takes constant time and no memory.
    pub fn find(&self, atom: &Atom<RegexId>) -> Option<AtomId>
        requires { is_brought_atom (atom_in atom.now) ≡ true }
        ensures { IsNumberIn self.now (atom_in atom.now) result }
    {
        match self.atoms.get_index_of(atom) {
            Some(number) => Some(AtomId::new(number)),
            None => None,
        }
    }

    /// The allocator of the table.
    pub(crate) fn allocator(&self) -> Global {
        *self.atoms.allocator()
    }

    /// The literal that an atom is true in. An atom that is missing is added, or has none.
    pub(crate) fn literal(
        &mut self,
        adds: bool,
        atom: Atom<RegexId>,
    ) -> Result<Option<Lit>, AllocError>
        requires { is_brought_atom (atom_in atom) ≡ true }
        ensures ok { IfOk result (λ found. IsLiteralOf adds self.new (atom_in atom) found) }
        ensures grows { GrownByOne adds self.old self.new (atom_in atom) }
    {
        if adds {
            return Ok(Some(self.added(atom)?));
        }
        order_tells_apart();
        self.atoms_each_once();
        match self.find(&atom) {
            Some(id) => Ok(Some(positive(id))),
            None => Ok(None),
        }
    }

    /// The literal that an atom is true in, which is added where it is missing.
    fn added(&mut self, atom: Atom<RegexId>) -> Result<Lit, AllocError>
        requires { is_brought_atom (atom_in atom) ≡ true }
        ensures ok { IfOk result (λ literal. IsLiteralOf true self.new (atom_in atom) (Some literal)) }
        ensures grows { IsWith self.old self.new (atom_in atom) }
    {
        order_tells_apart();
        let id = self.add(atom)?;
        self.atoms_each_once();
        Ok(positive(id))
    }
}

/// The literal that the atom of a number is true in.
fn positive(id: AtomId) -> Lit
    ensures { result ≡ record { atom = id; positive = true } }
{
    Lit {
        atom: id.number() as u64,
        positive: true,
    }
}
