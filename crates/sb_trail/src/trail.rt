//! The trail.

ghost use Rattle.std.specs.Prelude.{◌≡◌, Option, ◌+◌, ◌-◌, ◌^◌, ◌<◌, ◌≤◌, [], ◌∷◌, ◌++◌, length, max, Some, None, is_none, IsOk, OnOk, OnErr, MatchBool, MatchOption};
ghost use Rattle.std.specs.Vec.{vec_capacity};
ghost use Rattle.sb_lit.specs.Clauses.{value_under};
ghost use Rattle.sb_trail.specs.Assignments.{held, IsConsistent, AreDistinct, value_of, level_of, reason_of, entry_of, current_level, level_behind, up_to, IsTrail};
ghost use Rattle.sb_trail.specs.Tables.{IsPlace};
ghost use Rattle.sb_trail.specs.declared.assigned.Assigned.{Assigned, Assigned as TheAssigned};

use crate::assigned::Assigned;
use crate::entry::Entry;
use sb_lit::{ClauseId, Lit};
use std::alloc::{AllocError, Global};
use std::marker::Model;

/// So many atoms may have a place.
const PLACES: usize = (1 << 31) - 1;

/// The literals that are true, oldest first, with their levels and reasons.
#[derive(Drop)]
pub struct Trail {
    entries: Vec<Entry>,
    /// The value of each atom, apart from the rest since it is read most.
    values: Vec<Option<bool>>,
    /// By atom one more than the place of its entry, and 0 where it has none.
    places: Vec<u32>,
}

impl Model for Trail {
    ghost use Rattle.std.specs.Prelude.{length};
    ghost use Rattle.std.specs.Vec.{vec_capacity};
    ghost use Rattle.sb_trail.specs.Assignments.{Assignments};
    ghost use Rattle.sb_trail.specs.Tables.{AreTables};

    ghost Value = { Assignments };

    ghost view = { λ trail. record { reserved = length trail.places.items; literals = trail.entries.items } };

    ghost invariant = { λ trail. AreTables trail.entries.items (vec_capacity trail.entries) trail.values.items
        trail.places.items };
}

impl Trail {
    /// A trail without literals, on which no atom has a place. Takes no memory.
    pub fn new(alloc: Global) -> Trail
        ensures { result ≡ record { reserved = 0; literals = [] } }
    {
        Trail {
            entries: Vec::new(alloc),
            values: Vec::new(alloc),
            places: Vec::new(alloc),
        }
    }

    /// Gives each atom below `atoms` a place: from then on its literals may be added, and that takes no
    /// memory. Places are never taken back. Linear in the number of new places, over many calls too. 2 ^ 31 atoms or
    /// more are an error.
    pub fn reserve(&mut self, atoms: usize) -> Result<(), AllocError>
        ensures ok { OnOk result (self.new ≡ record self.old { reserved = max self.old.reserved atoms }) }
        ensures enough { atoms ≤ self.old.reserved → IsOk result }
        ensures err { OnErr result (self.new ≡ self.old) }
    {
        if atoms <= self.places.len() {
            return Ok(());
        }
        if atoms > PLACES {
            return Err(AllocError);
        }
        self.entries.reserve(atoms - self.entries.len())?;
        let wider = atoms.max(self.values.len());
        self.values.resize(wider, None)?;
        self.places.resize(atoms, 0)
    }

    /// Adds a literal that the clause forces, on the current level. Takes no memory; constant time.
    pub fn assign(&mut self, literal: Lit, why: ClauseId)
        requires reserved { literal.atom < self.old.reserved }
        requires unassigned { value_of self.old.literals literal.atom ≡ None }
        ensures { self.new ≡ record self.old {
          literals =
              self.old.literals ++ record {
                literal = literal;
                level = current_level self.old.literals;
                reason =
                    Some why;
              } ∷ [];
        } }
    {
        self.push(literal, Some(why));
    }

    /// Opens the next level with a literal that no clause forces. Takes no memory; constant time.
    pub fn decide(&mut self, literal: Lit)
        requires reserved { literal.atom < self.old.reserved }
        requires unassigned { value_of self.old.literals literal.atom ≡ None }
        ensures { self.new ≡ record self.old {
          literals =
              self.old.literals ++ record {
                literal = literal;
                level = current_level self.old.literals + 1;
                reason =
                    None;
              } ∷ [];
        } }
    {
        self.push(literal, None);
    }

    /// Keeps exactly the literals of levels up to this one. Takes no memory; linear in the number of
    /// literals that go.
    pub fn backtrack(&mut self, level: usize)
        ensures { self.new ≡ record self.old { literals = up_to level self.old.literals } }
    {
        while self.pop_above(level) {}
    }

    /// Takes all literals off, those of level 0 too. Takes no memory; linear in their number.
    pub fn clear(&mut self)
        ensures { self.new ≡ record self.old { literals = [] } }
    {
        while self.pop() {}
    }

    /// The value of the atom, that is whether its positive literal is true; `None` exactly where it has
    /// none, as an atom without a place. Constant time.
    pub fn value(&self, atom: u64) -> Option<bool>
        ensures value { result ≡ value_of self.now.literals atom }
        ensures distinct { AreDistinct self.now.literals }
    {
        self.values.get(atom as usize).copied().flatten()
    }

    /// The value of the literal, `None` exactly where its atom has none. Constant time.
    pub fn literal_value(&self, literal: Lit) -> Option<bool>
        ensures value { result ≡ value_under (held self.now.literals) literal }
        ensures atom { is_none result ≡ is_none (value_of self.now.literals literal.atom) }
        ensures distinct { AreDistinct self.now.literals }
        ensures consistent { IsConsistent (held self.now.literals) }
    {
        match self.value(literal.atom) {
            Some(value) => Some(value == literal.positive),
            None => None,
        }
    }

    /// The level at which the atom got its value, `None` where it has none. Constant time.
    pub fn level(&self, atom: u64) -> Option<usize>
        ensures { result ≡ level_of self.now.literals atom }
    {
        Some(self.entry(atom)?.level)
    }

    /// The clause that forced the atom's value, `None` where it was decided or has none. Constant time.
    pub fn reason(&self, atom: u64) -> Option<ClauseId>
        ensures { result ≡ reason_of self.now.literals atom }
    {
        self.entry(atom)?.reason
    }

    /// The entry of the atom.
    fn entry(&self, atom: u64) -> Option<Assigned>
        ensures { result ≡ entry_of self.now.literals atom }
    {
        let number = *self.places.get(atom as usize)?;
        entry_at(&self.entries, number)
    }

    /// The number of decisions on the trail.
    pub fn current_level(&self) -> usize
        ensures { result ≡ current_level self.now.literals }
    {
        newest_level(&self.entries)
    }

    /// The literals that are true, oldest first. Takes no memory.
    pub fn literals(&self) -> &[Entry]
        ensures value { result.now ≡ self.now.literals }
        ensures trail { IsTrail self.now }
        ensures consistent { IsConsistent (held self.now.literals) }
    {
        self.entries.as_slice()
    }

    /// The number of literals that are true.
    pub fn len(&self) -> usize
        ensures len { result ≡ length self.now.literals }
        ensures within { result ≤ self.now.reserved }
    {
        self.entries.len()
    }

    /// The number of atoms that have a place.
    pub fn reserved(&self) -> usize
        ensures { result ≡ self.now.reserved }
    {
        self.places.len()
    }

    /// Adds a literal, on the current level or by a decision on the next one.
    fn push(&mut self, literal: Lit, reason: Option<ClauseId>)
        requires reserved { literal.atom < self.old.reserved }
        requires unassigned { value_of self.old.literals literal.atom ≡ None }
        ensures { self.new ≡ record self.old {
          literals =
              self.old.literals
              ++ record {
                literal = literal;
                level = level_behind (current_level self.old.literals) reason;
                reason =
                    reason;
              } ∷ [];
        } }
    {
        let level = level_behind(newest_level(&self.entries), reason);
        let entry = Entry::new(Assigned {
            literal,
            level,
            reason,
        });
        let atom = literal.atom as usize;
        self.values[atom] = Some(literal.positive);
        self.places[atom] = behind(self.entries.len());
        if self.entries.push(entry).is_err() {
            unreachable!();
        }
    }

    /// Takes the newest entry off where it is above the level, and says whether it was.
    fn pop_above(&mut self, level: usize) -> bool
        ensures reserved { self.new.reserved ≡ self.old.reserved }
        ensures cases { MatchBool result ((entry : Assigned) × (self.old.literals ≡ self.new.literals ++ entry ∷ [])
            × (level < entry.level)) ((self.new.literals ≡ self.old.literals)
            × (up_to level self.old.literals ≡ self.old.literals)) }
    {
        if newest_level(&self.entries) <= level {
            return false;
        }
        self.pop()
    }

    /// Takes the newest entry off, and says whether there was one.
    fn pop(&mut self) -> bool
        ensures reserved { self.new.reserved ≡ self.old.reserved }
        ensures cases { MatchBool result ((entry : Assigned) × (self.old.literals ≡ self.new.literals ++ entry ∷ []))
            ((self.new.literals ≡ self.old.literals) × (self.old.literals ≡ [])) }
    {
        let Some(entry) = pop_entry(&mut self.entries) else {
            return false;
        };
        let atom = entry.literal().atom as usize;
        self.values[atom] = None;
        self.places[atom] = 0;
        true
    }
}

/// The level of the newest entry, 0 where there is none.
fn newest_level(entries: &[Entry]) -> usize
    ensures { result ≡ current_level entries.now }
{
    match entries.last() {
        Some(newest) => newest.level(),
        None => 0,
    }
}

/// The level of a literal with this reason that stands behind the level.
fn level_behind(newest: usize, reason: Option<ClauseId>) -> usize
    requires { newest < usize.MAX }
    ensures { result ≡ level_behind newest reason }
{
    if reason.is_none() { newest + 1 } else { newest }
}

/// The entry at one less than this place, none where that is 0.
fn entry_at(entries: &[Entry], number: u32) -> Option<Assigned>
    ensures { (entry : Option TheAssigned) → IsPlace entries.now number entry → result ≡ entry }
{
    if number == 0 {
        return None;
    }
    let entry = entries.get(number as usize - 1)?;
    Some(entry.assigned())
}

/// One more than this place.
fn behind(place: usize) -> u32
    requires { place < 2 ^ 31 }
    ensures { result ≡ place + 1 }
{
    place as u32 + 1
}

/// Takes the newest entry off, if there is one.
fn pop_entry(entries: &mut Vec<Entry>) -> Option<Entry>
    ensures capacity { vec_capacity entries.new ≡ vec_capacity entries.old }
    ensures cases { MatchOption result ((entries.new.items ≡ entries.old.items) × (entries.old.items ≡ []))
        (λ entry. entries.old.items ≡ entries.new.items ++ entry ∷ []) }
{
    entries.pop()
}
