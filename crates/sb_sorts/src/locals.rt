//! The names that lets bind and parameters have, while a term is read.

ghost use Rattle.std.specs.Prelude.{◌≡◌, ◌≤◌, ◌-◌, nat_eq, [], ◌∷◌, length, drop, None, OnOk, OnErr};
ghost use Rattle.std.specs.Cmp.Lexicographic.{pointwise};
ghost use Rattle.std.specs.Map.{lookup};
ghost use Rattle.indexmap.specs.IndexMap.{insert_entry};
ghost use Rattle.sb_sorts.specs.Locals.{bound_to};

use indexmap::IndexMap;
use sb_term::TermId;
use std::alloc::{AllocError, Global};
use std::marker::Model;

/// A name that is bound to a term, and what it stood for before.
#[derive(Drop)]
struct Binding {
    name: Vec<u8>,
    id: TermId,
    outer: Option<TermId>,
}

/// Names that are bound to terms. A name may be bound again, and is what it was when that binding is left.
#[derive(Drop)]
pub(crate) struct Locals {
    /// By name what it stands for, none where no binding of it is in force.
    bound: IndexMap<Vec<u8>, Option<TermId>>,
    /// The bindings in force, the innermost last.
    bindings: Vec<Binding>,
    alloc: Global,
}

impl Model for Locals {
    ghost use Rattle.std.specs.Prelude.{ℕ, List, reverse};
    ghost use Rattle.sb_script.specs.Names.{Name};
    ghost use Rattle.sb_sorts.specs.Locals.{locals_in, AreBound};

    ghost Value = { List (Name × ℕ) };

    ghost view = { λ locals. locals_in (reverse locals.bindings.items) };

    ghost invariant = { λ locals. AreBound locals.bound.entries (reverse locals.bindings.items) };
}

impl Locals {
    /// No name is bound. Takes no memory.
    pub(crate) fn new(alloc: Global) -> Locals
        ensures { result ≡ [] }
    {
        Locals {
            bound: IndexMap::new(alloc),
            bindings: Vec::new(alloc),
            alloc,
        }
    }

    /// How many bindings are in force. Takes no memory.
    pub(crate) fn len(&self) -> usize
        ensures { result ≡ length self.now }
    {
        self.bindings.len()
    }

    /// What a name is bound to. By hash, takes no memory.
    pub(crate) fn get(&self, name: &[u8]) -> Option<TermId>
        ensures { result ≡ bound_to self.now name.now }
    {
        match self.bound.get(name) {
            Some(id) => *id,
            None => None,
        }
    }

    /// Binds a name, which hides what it was. By hash, and keeps two copies of the name.
    pub(crate) fn push(&mut self, name: &[u8], id: TermId) -> Result<(), AllocError>
        ensures ok { OnOk result (self.new ≡ (name.now, id) ∷ self.old) }
        ensures err { OnErr result (self.new ≡ self.old) }
    {
        let outer = self.get(name);
        self.bindings.reserve(1)?;
        let binding = Binding {
            name: Vec::from_slice(self.alloc, name)?,
            id,
            outer,
        };
        let key = Vec::from_slice(self.alloc, name)?;
        match self.bound.insert(key, Some(id)) {
            Ok(_) => {
                self.bindings.push(binding)?;
                Ok(())
            }
            Err(_) => Err(AllocError),
        }
    }

    /// Leaves the bindings behind the first ones, so many. Takes no memory.
    pub(crate) fn leave(&mut self, count: usize)
        requires { count ≤ length self.old }
        ensures { self.new ≡ drop (length self.old - count) self.old }
    {
        for _place in count..self.bindings.len() {
            self.pop();
        }
    }

    /// Leaves the innermost binding, where there is one.
    fn pop(&mut self)
        ensures { self.new ≡ drop 1 self.old }
    {
        if let Some(binding) = self.bindings.pop() {
            let Binding { name, outer, .. } = binding;
            restore(&mut self.bound, name, outer);
        }
    }
}

/// Gives a name that is there what it stood for before. Takes no memory.
fn restore(bound: &mut IndexMap<Vec<u8>, Option<TermId>>, name: Vec<u8>, outer: Option<TermId>)
    requires { lookup (λ key. pointwise nat_eq name.items key.items) bound.old.entries ≡ None → ⊥ }
    ensures { bound.new.entries ≡ insert_entry (λ a b. pointwise nat_eq a.items b.items) bound.old.entries name outer }
{
    match bound.insert(name, outer) {
        Ok(_) => {}
        Err(_) => unreachable!(),
    }
}
