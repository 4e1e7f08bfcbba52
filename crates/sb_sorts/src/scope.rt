//! Scopes.

ghost use Rattle.std.specs.Prelude.{◌≡◌, List, if◌then◌else◌, [], ◌∷◌, ◌++◌, None, Some, length, map, take, option_map, true, false, slice_get, IfOk, OnOk, OnErr, IfErr, IfSome};
ghost use Rattle.sb_script.specs.Scopes as meaning;
ghost use Rattle.sb_meaning.specs.Terms.{Term};
ghost use Rattle.sb_script.specs.Symbols.{is_taken};
ghost use Rattle.sb_sorts.specs.declared.scope.DeclareError.TheVariants.{AlreadyDeclared, NoMemory};
ghost use Rattle.sb_sorts.specs.Scopes.{named_in, names_in, constants_among, serials_in, ascend_below, are_sorted, with_constant, with_mark, with_definition, AreBodies, is_body_below};
ghost use Rattle.sb_term.specs.Symbols.{sort_in};
ghost use Rattle.sb_sorts.specs.NameTable.{kept_in, namings_in, named_below};

use crate::names::is_theory_name;
use indexmap::IndexMap;
use sb_term::{Serial, Sort, TermId};
use std::alloc::{AllocError, AllocFailed, Global};
use std::marker::Model;
use thiserror::Error;

/// What a definition makes of arguments: the term of its body with them in the places of its parameters.
#[derive(Drop)]
pub struct Definition {
    /// The sorts of the parameters, in order.
    pub(crate) sorts: Vec<Sort>,
    pub(crate) body: TermId,
}

impl Model for Definition {
    ghost use Rattle.sb_sorts.specs.Defined.{Defined};

    ghost Value = { Defined };

    ghost view = { λ d. record { sorts = d.sorts.items; body = d.body } };
}

/// What a name stands for.
#[derive(Drop)]
pub enum Named {
    /// A declared constant, with its serial and its sort.
    Constant(Serial, Sort),
    /// A definition.
    Definition(Definition),
    /// A name whose declaration or definition is left out.
    Marked,
}

/// The names in force.
#[derive(Drop)]
pub struct Scope {
    names: IndexMap<Vec<u8>, Named>,
    /// The sorts of all constants declared so far, by serial, those too whose names were taken back.
    sorts: Vec<Sort>,
    /// Names stay where levels are left.
    global: bool,
    alloc: Global,
}

impl Model for Scope {
    ghost use Rattle.std.specs.Prelude.{map};
    ghost use Rattle.sb_sorts.specs.Scopes.{ScopeNames};
    ghost use Rattle.sb_sorts.specs.NameTable.{HasSerials};

    ghost Value = { ScopeNames };

    ghost view = { λ s. record {
      names = map (λ e. (e.0.items, e.1)) s.names.entries;
      sorts = s.sorts.items;
      global = s.global;
    } };

    ghost invariant = { λ s. HasSerials (map (λ e. (e.0.items, e.1)) s.names.entries) s.sorts.items };
}

impl Scope {
    /// A scope without names. It takes no memory.
    pub fn new(alloc: Global) -> Scope
        ensures { result ≡ record { names = []; sorts = []; global = false } }
    {
        Scope {
            names: IndexMap::new(alloc),
            sorts: Vec::new(alloc),
            global: false,
            alloc,
        }
    }

    /// What the name stands for. By hash. Takes no memory.
    pub fn named(&self, name: &[u8]) -> Option<&Named>
        ensures { (ts : List Term) → option_map (λ n. named_in ts n.now) result
            ≡ meaning.named (names_in ts self.now) name.now }
    {
        self.look_up(name)
    }

    /// What the name stands for. A constant's serial is below their number, and the body of a definition among those of
    /// all.
    pub(crate) fn look_up(&self, name: &[u8]) -> Option<&Named>
        ensures value { (ts : List Term) → option_map (λ n. named_in ts n.now) result
            ≡ meaning.named (names_in ts self.now) name.now }
        ensures serial { IfSome result (λ n. named_below (length self.now.sorts) n.now ≡ true) }
        ensures body { (ts : List Term) → AreBodies ts self.now
            → IfSome result (λ n. is_body_below (length ts) n.now ≡ true) }
    {
        self.names.get(name)
    }

    /// Whether the name is live, marked or of the theories, so that it can't be declared. By hash. Takes no memory.
    pub fn is_taken(&self, name: &[u8]) -> bool
        ensures { (ts : List Term) → result ≡ is_taken (names_in ts self.now) name.now }
    {
        self.look_up(name).is_some() || is_theory_name(name)
    }

    /// The name at this place, in the order of declaration, and what it stands for. Takes no memory.
    pub fn at(&self, place: usize) -> Option<(&[u8], &Named)>
        ensures { option_map (λ n. (n.0.now, n.1.now)) result ≡ slice_get self.now.names place }
    {
        let (name, named) = self.names.get_index(place)?;
        Some((name.as_slice(), named))
    }

    /// How many names are in force. Takes no memory.
    pub fn len(&self) -> usize
        ensures { result ≡ length self.now.names }
    {
        self.names.len()
    }

    /// How many constants were declared so far, those too whose names were taken back. The serials of the constants
    /// that are left ascend, and are below. Takes no memory.
    pub fn declared(&self) -> usize
        ensures value { result ≡ length self.now.sorts }
        ensures serials { ascend_below 0 result (serials_in self.now.names) ≡ true }
    {
        self.sorts.len()
    }

    /// The sorts of all constants declared so far, by serial, those too whose names were taken back. Each constant that
    /// is left has the sort that stands at its serial. Takes no memory.
    pub fn sorts(&self) -> &[Sort]
        ensures value { result.now ≡ self.now.sorts }
        ensures sorted { are_sorted (map sort_in result.now) (constants_among self.now.names) ≡ true }
    {
        self.sorts.as_slice()
    }

    /// Declares a constant of this sort, with the next serial. `AlreadyDeclared` exactly where the name is live, marked
    /// or of the theories. By hash, and keeps a copy of the name.
    pub fn declare(&mut self, name: &[u8], sort: Sort) -> Result<(), DeclareError>
        ensures ok { OnOk result ((self.new ≡ with_constant name.now sort self.old)
            × ((ts : List Term) → is_taken (names_in ts self.old) name.now ≡ false)) }
        ensures err { OnErr result (self.new ≡ self.old) }
        ensures taken { IfErr result (λ e. e ≡ AlreadyDeclared
            → (ts : List Term) → is_taken (names_in ts self.old) name.now ≡ true) }
    {
        self.refuse_taken(name)?;
        self.sorts.reserve(1)?;
        let serial = Serial(self.sorts.len() as u64);
        push_name(
            &mut self.names,
            self.alloc,
            name,
            Named::Constant(serial, sort),
        )?;
        self.sorts.push(sort)?;
        Ok(())
    }

    /// Marks a name whose declaration is left out. `AlreadyDeclared` exactly where it is live, marked or of the
    /// theories. By hash, and keeps a copy of the name.
    pub fn mark(&mut self, name: &[u8]) -> Result<(), DeclareError>
        ensures ok { OnOk result ((self.new ≡ with_mark name.now self.old)
            × ((ts : List Term) → is_taken (names_in ts self.old) name.now ≡ false)) }
        ensures err { OnErr result (self.new ≡ self.old) }
        ensures taken { IfErr result (λ e. e ≡ AlreadyDeclared
            → (ts : List Term) → is_taken (names_in ts self.old) name.now ≡ true) }
    {
        self.refuse_taken(name)?;
        push_name(&mut self.names, self.alloc, name, Named::Marked)
    }

    /// Defines a name, by the sorts of the parameters and the number of the body's term. `AlreadyDeclared` exactly
    /// where it is live, marked or of the theories. By hash, and keeps copies of the name and of the sorts.
    pub fn define(&mut self, name: &[u8], sorts: &[Sort], body: TermId) -> Result<(), DeclareError>
        ensures ok { OnOk result ((self.new ≡ with_definition name.now sorts.now body self.old)
            × ((ts : List Term) → is_taken (names_in ts self.old) name.now ≡ false)) }
        ensures err { OnErr result (self.new ≡ self.old) }
        ensures taken { IfErr result (λ e. e ≡ AlreadyDeclared
            → (ts : List Term) → is_taken (names_in ts self.old) name.now ≡ true) }
    {
        self.refuse_taken(name)?;
        let sorts = Vec::from_slice(self.alloc, sorts)?;
        let definition = Definition { sorts, body };
        push_name(
            &mut self.names,
            self.alloc,
            name,
            Named::Definition(definition),
        )
    }

    /// Whether names stay where levels are left. Takes no memory.
    pub fn is_global(&self) -> bool
        ensures { result ≡ self.now.global }
    {
        self.global
    }

    /// Says whether names are to stay where levels are left. Takes no memory.
    pub fn set_global(&mut self, on: bool)
        requires { self.old.names ≡ [] }
        ensures { self.new ≡ record self.old { global = on } }
    {
        self.global = on;
    }

    /// Keeps the first names, so many, and takes the others back, unless they are to stay. Serials are not given again.
    /// Takes no memory.
    pub fn leave(&mut self, count: usize)
        ensures { self.new ≡ record self.old {
          names = if self.old.global then self.old.names
              else take count self.old.names;
        } }
    {
        if !self.global {
            self.names.truncate(count);
        }
    }

    /// Takes all names back, and those that come are to stay no more. Serials are not given again. Takes no memory.
    pub fn clear(&mut self)
        ensures { self.new ≡ record self.old { names = []; global = false } }
    {
        self.names.clear();
        self.global = false;
    }

    /// `AlreadyDeclared` where the name is live, marked or of the theories.
    fn refuse_taken(&self, name: &[u8]) -> Result<(), DeclareError>
        ensures ok { OnOk result ((ts : List Term) → is_taken (names_in ts self.now) name.now ≡ false) }
        ensures taken { OnErr result ((ts : List Term) → is_taken (names_in ts self.now) name.now ≡ true) }
    {
        if self.is_taken(name) {
            return Err(DeclareError::AlreadyDeclared);
        }
        Ok(())
    }
}

/// Puts a name that is not there behind the others.
fn push_name(
    names: &mut IndexMap<Vec<u8>, Named>,
    alloc: Global,
    name: &[u8],
    named: Named,
) -> Result<(), DeclareError>
    requires { meaning.named (namings_in [] names.old.entries) name.now ≡ None }
    ensures ok { OnOk result (kept_in names.new.entries ≡ kept_in names.old.entries ++ (name.now, named) ∷ []) }
    ensures err { OnErr result (names.new.entries ≡ names.old.entries) }
    ensures no_memory { IfErr result (λ e. e ≡ NoMemory) }
{
    let key = Vec::from_slice(alloc, name)?;
    match names.insert(key, named) {
        Ok(_) => Ok(()),
        Err(_) => Err(DeclareError::NoMemory),
    }
}

/// Why a name can't be declared.
#[derive(Clone, Copy, Debug, PartialEq, Eq, Error)]
pub enum DeclareError {
    /// The name is live, marked or a name of the theories.
    #[error("already declared")]
    AlreadyDeclared,
    #[error("out of memory")]
    NoMemory,
}

impl From<AllocError> for DeclareError {
    ghost use Rattle.sb_sorts.specs.declared.scope.DeclareError.TheVariants.{NoMemory};

    ghost from_gives = { λ _ error. error ≡ NoMemory };

    fn from(_error: AllocError) -> DeclareError {
        DeclareError::NoMemory
    }
}

impl From<AllocFailed<Sort>> for DeclareError {
    ghost use Rattle.sb_sorts.specs.declared.scope.DeclareError.TheVariants.{NoMemory};

    ghost from_gives = { λ _ error. error ≡ NoMemory };

    fn from(_failed: AllocFailed<Sort>) -> DeclareError {
        DeclareError::NoMemory
    }
}
