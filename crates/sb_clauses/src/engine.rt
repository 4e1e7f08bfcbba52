//! The kept clauses with the trail that they are propagated on.

ghost use Rattle.std.specs.Prelude.{◌≡◌, ℕ, ◌+◌, ◌<◌, ◌≤◌, [], ◌∷◌, ◌++◌, length, max, true, Some, None, IsOk, IfOk, OnOk, OnErr};
ghost use Rattle.sb_lit.specs.Kept.{kept_up_to};
ghost use Rattle.sb_trail.specs.Assignments.{held, value_of, current_level, up_to};
ghost use Rattle.sb_clauses.specs.Propagation.{all_dropped, has_room_for, GrowsBy, AnswersOf};

use crate::clauses::Clauses;
use crate::marks::{Queue, backtrack_marks, end_of, end_of_marks, forget_from};
use crate::propagated::Propagated;
use crate::settle::settle_on;
use crate::spare::{Spares, grow_spares};
use crate::watches::{Watches, lists_for};
use sb_lit::{Clause, ClauseId, Lit};
use sb_trail::Trail;
use std::alloc::{AllocError, Global};
use std::marker::Model;

/// The clauses that are kept, and the trail that they are propagated on. Each clause has two watched literals, and
/// stands in the watch list of each.
#[derive(Drop)]
pub struct Engine {
    clauses: Clauses,
    trail: Trail,
    first: Watches,
    second: Watches,
    spares: Spares,
    queue: Queue,
}

impl Model for Engine {
    ghost use Rattle.sb_clauses.specs.Propagation.{State};
    ghost use Rattle.sb_clauses.specs.Waiting.{AreStored};
    ghost use Rattle.sb_clauses.specs.Sparing.{AreSpared};

    ghost Value = { State };

    ghost view = { λ engine. record { kept = engine.clauses; trail = engine.trail } };

    ghost invariant = { λ engine. AreStored engine.clauses engine.first.watched.items engine.first.lists
        engine.second.watched.items engine.second.lists engine.trail.literals engine.queue.marks.items
        engine.queue.head engine.queue.listed × AreSpared engine.clauses engine.spares.literals.items };
}

impl Engine {
    /// No clauses, and a trail without literals, on which no atom has a place. Takes no memory.
    pub fn new(alloc: Global) -> Engine
        ensures { result ≡ record { kept = []; trail = record { reserved = 0; literals = [] } } }
    {
        Engine {
            clauses: Clauses::new(alloc),
            trail: Trail::new(alloc),
            first: Watches::new(alloc),
            second: Watches::new(alloc),
            spares: Spares::new(alloc),
            queue: Queue {
                marks: Vec::new(alloc),
                head: None,
                listed: 0,
            },
        }
    }

    /// The clauses that are kept.
    pub fn clauses(&self) -> &Clauses
        ensures { result.now ≡ self.now.kept }
    {
        &self.clauses
    }

    /// The trail.
    pub fn trail(&self) -> &Trail
        ensures { result.now ≡ self.now.trail }
    {
        &self.trail
    }

    /// Gives each atom below `atoms` a place on the trail: from then on its literals may be added, and that takes no
    /// memory. Places are never taken back. Linear in the number of new places, over many calls too. 2 ^ 31 atoms or
    /// more are an error.
    pub fn reserve(&mut self, atoms: usize) -> Result<(), AllocError>
        ensures ok { OnOk result
            (self.new
            ≡ record self.old {
              trail = record self.old.trail { reserved = max self.old.trail.reserved atoms };
            }) }
        ensures err { OnErr result (self.new ≡ self.old) }
    {
        let marks = atoms.saturating_sub(self.queue.marks.len());
        self.queue.marks.reserve(marks)?;
        self.trail.reserve(atoms)
    }

    /// Keeps a clause at a level, under the next number. Linear in the number of its literals, and above level 0
    /// logarithmic in the number of clauses there; takes memory for each atom up to the greatest one, and is an error
    /// where that cannot be had, as for an atom of 2 ^ 30, and where 2 ^ 32 - 1 numbers were given.
    pub fn add(&mut self, clause: &Clause, level: u64) -> Result<ClauseId, AllocError>
        ensures number { IfOk result (λ id. id.0 ≡ length self.old.kept) }
        ensures ok { IfOk result
            (λ _. self.new
            ≡ record self.old {
              kept =
                  self.old.kept ++ Some (record { literals = clause.now; level = level }) ∷ [];
            }) }
        ensures err { OnErr result (self.new ≡ self.old) }
    {
        let Some(lists) = lists_for(clause.literals()) else {
            return Err(AllocError);
        };
        let numbers = self.clauses.len() + 1;
        self.first.make_room(numbers, lists)?;
        self.second.make_room(numbers, lists)?;
        grow_spares(&mut self.spares, numbers)?;
        self.clauses.add(clause, level)
    }

    /// Drops the clauses above the level; their numbers are not given again. Takes no memory; linear in the
    /// clauses that go, each with a logarithm of the number of clauses above level 0.
    pub fn leave_above(&mut self, level: u64)
        ensures { self.new ≡ record self.old { kept = kept_up_to level self.old.kept } }
    {
        self.spares.gone = true;
        self.clauses.leave_above(level);
    }

    /// Drops all clauses, those of level 0 too; their numbers are not given again. Takes no memory; linear in the numbers
    /// that were given since all clauses were dropped before.
    pub fn leave_all(&mut self)
        ensures { self.new ≡ record self.old { kept = all_dropped self.old.kept } }
    {
        self.clauses.leave_all();
    }

    /// Opens the next level of the trail with a literal that no clause forces. Takes no memory; constant time.
    pub fn decide(&mut self, literal: Lit)
        requires reserved { literal.atom < self.old.trail.reserved }
        requires unassigned { value_of self.old.trail.literals literal.atom ≡ None }
        ensures { self.new
            ≡ record self.old {
              trail =
                  record self.old.trail {
                    literals =
                        self.old.trail.literals
                        ++ record {
                          literal = literal;
                          level = current_level self.old.trail.literals + 1;
                          reason =
                              None;
                        } ∷ [];
                  };
            } }
    {
        self.trail.decide(literal);
    }

    /// Adds a literal that the clause forces, on the current level of the trail. Takes no memory; constant time.
    pub fn assign(&mut self, literal: Lit, why: ClauseId)
        requires reserved { literal.atom < self.old.trail.reserved }
        requires unassigned { value_of self.old.trail.literals literal.atom ≡ None }
        ensures { self.new
            ≡ record self.old {
              trail =
                  record self.old.trail {
                    literals =
                        self.old.trail.literals
                        ++ record {
                          literal = literal;
                          level = current_level self.old.trail.literals;
                          reason =
                              Some why;
                        } ∷ [];
                  };
            } }
    {
        forget_from(&mut self.queue.marks, self.trail.current_level());
        self.trail.assign(literal, why);
    }

    /// Keeps exactly the literals of levels up to this one on the trail. Takes no memory; linear in the number of
    /// literals that go.
    pub fn backtrack(&mut self, level: usize)
        ensures { self.new
            ≡ record self.old {
              trail = record self.old.trail { literals = up_to level self.old.trail.literals };
            } }
    {
        let entries = self.trail.literals();
        if end_of(entries, level) == entries.len() {
            return;
        }
        self.trail.backtrack(level);
        backtrack_marks(&mut self.queue.marks, level);
        backtrack_marks(&mut self.queue.marks, self.trail.current_level());
        self.queue.head = end_of_marks(&self.queue.marks, self.trail.literals());
    }

    /// Takes all literals off the trail, those of level 0 too, so that clauses which forced them may be dropped; the next
    /// propagation begins as on a new trail. Takes no memory; linear in the number of literals.
    pub fn clear(&mut self)
        ensures { self.new ≡ record self.old { trail = record self.old.trail { literals = [] } } }
    {
        self.trail.clear();
        self.queue.marks.clear();
        self.queue.head = None;
    }

    /// Whether the trail has a place for each atom of a kept clause. Takes no memory; constant time where it has as
    /// many places as [`Engine::atoms`], else linear in the number of all literals.
    pub fn has_room(&self) -> bool
        ensures { result ≡ has_room_for self.now.trail.reserved self.now.kept }
    {
        if self.atoms() <= self.trail.reserved() {
            return true;
        }
        self.clauses.have_room_on(&self.trail)
    }

    /// So many places are enough for the atoms of the kept clauses, and for those that were dropped: a search that
    /// reserves them after each clause may propagate, and has not to ask whether there is room. Constant time.
    pub fn atoms(&self) -> usize
        ensures { (reserved : ℕ) → result ≤ reserved → has_room_for reserved self.now.kept ≡ true }
    {
        self.first.lists.len().saturating_sub(1) / 2
    }

    /// Adds what the clauses force to the trail, until nothing more is forced or one of them is false.
    /// Takes no memory. It looks once at each clause that is new, and then, for each literal of the trail from the
    /// propagation queue head on, at the clauses that watch its negation. The queue head stands behind what the last
    /// propagation went over; going back on the trail takes it back to the end of the highest level up to which
    /// propagation had come to its end.
    pub fn propagate(&mut self) -> Propagated
        requires { has_room_for self.old.trail.reserved self.old.kept ≡ true }
        ensures kept { self.new.kept ≡ self.old.kept }
        ensures grows { GrowsBy self.old.kept self.old.trail self.new.trail }
        ensures answer { AnswersOf self.old.kept (held self.new.trail.literals) result }
    {
        let conflict = settle_on(
            &self.clauses,
            &mut self.first,
            &mut self.second,
            &mut self.spares,
            &mut self.queue,
            &mut self.trail,
        );
        match conflict {
            Some(id) => Propagated::Conflict(id),
            None => Propagated::Done,
        }
    }
}
