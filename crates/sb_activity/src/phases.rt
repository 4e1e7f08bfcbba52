//! The value that each atom had last.

ghost use Rattle.std.specs.Prelude.{◌≡◌, ◌-◌, ◌++◌, [], false, length, replicate, slice_index_or, slice_set, OnOk, OnErr};

use std::alloc::{AllocError, Global};
use std::marker::Model;

/// The value that each atom had last, false at first.
#[derive(Drop)]
pub struct Phases {
    values: Vec<bool>,
}

impl Model for Phases {
    ghost use Rattle.std.specs.Prelude.{Bool, List};

    ghost Value = { List Bool };

    ghost view = { λ phases. phases.values.items };
}

impl Phases {
    /// No atom has a phase. Takes no memory.
    pub fn new(alloc: Global) -> Phases
        ensures { result ≡ [] }
    {
        Phases {
            values: Vec::new(alloc),
        }
    }

    /// Gives each atom below `atoms` a phase, false at first. Linear in the number of new ones.
    pub fn reserve(&mut self, atoms: usize) -> Result<(), AllocError>
        ensures ok { OnOk result
            (self.new ≡ self.old ++ replicate (atoms - length self.old) false) }
        ensures err { OnErr result (self.new ≡ self.old) }
    {
        if atoms <= self.values.len() {
            return Ok(());
        }
        self.values.resize(atoms, false)
    }

    /// Keeps the value that an atom has, if it has a phase. Takes no memory; constant time.
    pub fn save(&mut self, atom: u64, value: bool)
        ensures { self.new ≡ slice_set self.old atom value }
    {
        if let Some(phase) = self.values.get_mut(atom as usize) {
            *phase = value;
        }
    }

    /// The value that was saved last, false where none was. Constant time.
    pub fn of(&self, atom: u64) -> bool
        ensures { result ≡ slice_index_or self.now atom false }
    {
        self.values.get(atom as usize).copied().unwrap_or(false)
    }
}
