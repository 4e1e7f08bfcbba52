//! The files and the standard input of a world in memory.

ghost use Rattle.std.specs.Prelude.{◌≡◌, ◌≢◌, ℕ, List, [], Some, None, OnOk, OnErr};
ghost use Rattle.std.specs.Option.{option_copied};
ghost use Rattle.sb_world.specs.Memory.{held_by};

use std::alloc::{AllocError, Global};
use std::collections::BTreeMap;

#[derive(Drop)]
pub(crate) struct Store {
    files: BTreeMap<String, Vec<u8>>,
    standard_input: Vec<u8>,
}

impl Store {
    ghost use Rattle.sb_world.specs.Sources.{source_in};

    pub(crate) fn new(alloc: Global) -> Self
        ensures files { (name : List ℕ) → held_by result.files name ≡ None }
        ensures standard_input { result.standard_input.items ≡ [] }
    {
        Store {
            files: BTreeMap::new(alloc),
            standard_input: Vec::new(alloc),
        }
    }

    #[tactic(auto, using(std::proofs::lemmas::Map::Text::text_keys))]
    pub(crate) fn add_file(
        &mut self,
        alloc: Global,
        name: &str,
        bytes: &[u8],
    ) -> Result<(), AllocError>
        ensures added { OnOk result (held_by self.new.files name.now ≡ Some bytes.now) }
        ensures others { OnOk result ((other : List ℕ) → other ≢ name.now
            → held_by self.new.files other ≡ held_by self.old.files other) }
        ensures err { OnErr result (held_by self.new.files ≡ held_by self.old.files) }
        ensures standard_input { self.new.standard_input ≡ self.old.standard_input }
    {
        let name = String::from_str(alloc, name)?;
        let bytes = Vec::from_slice(alloc, bytes)?;
        self.files.insert(name, bytes)?;
        Ok(())
    }

    pub(crate) fn set_standard_input(
        &mut self,
        alloc: Global,
        bytes: &[u8],
    ) -> Result<(), AllocError>
        ensures ok { OnOk result (self.new.standard_input.items ≡ bytes.now) }
        ensures err { OnErr result (self.new.standard_input ≡ self.old.standard_input) }
        ensures files { self.new.files ≡ self.old.files }
    {
        self.standard_input = Vec::from_slice(alloc, bytes)?;
        Ok(())
    }

    /// What an input opened by this name, or without one, is to hold.
    pub(crate) fn source(&self, name: Option<&str>) -> Option<&[u8]>
        ensures { option_copied result ≡ source_in self.now (option_copied name.entry) }
    {
        match name {
            None => Some(&self.standard_input),
            Some(name) => self.files.get(name).map(|bytes| bytes.as_slice()),
        }
    }
}
