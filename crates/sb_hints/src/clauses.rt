//! The kept clauses.

ghost use Rattle.std.specs.Prelude.{◌≡◌, [], ◌∷◌, ◌++◌, length, map, Some, None, IfOk, OnOk, OnErr, IfSome, option_map, is_some, true};
ghost use Rattle.std.specs.Option.{option_copied};
ghost use Rattle.sb_lit.specs.Kept.{kept_at, kept_up_to};
ghost use Rattle.sb_lit.specs.Hints.{has_only, is_repeated};

use crate::levels::drop_left;
use crate::lists::{Listed, find_part, find_part_under, last_at, put, rarest};
use crate::rows::{Row, literals_of, set_behind};
use crate::sets::set_of;
use indexmap::IndexMap;
use sb_lit::Lit;
use std::alloc::{AllocError, Global};
use std::collections::BinaryHeap;
use std::marker::Model;

/// Clauses by number, of which some were dropped.
#[derive(Drop)]
pub struct KeptClauses {
    alloc: Global,
    /// The literals of all clauses.
    literals: Vec<Lit>,
    rows: Vec<Row>,
    /// The kept clauses that are listed under each literal.
    lists: IndexMap<Lit, Listed>,
    /// The newest kept clause without literals.
    bare: Option<usize>,
    /// The levels with the numbers of their clauses, the highest level first.
    scoped: BinaryHeap<(u64, usize)>,
}

impl Model for KeptClauses {
    ghost use Rattle.sb_lit.specs.Kept.{Kept};
    ghost use Rattle.sb_hints.specs.Storing.{kept_in};
    ghost use Rattle.sb_hints.specs.Listing.{last_at};
    ghost use Rattle.std.specs.BinaryHeap.{heap_items};
    ghost use Rattle.sb_hints.specs.Keeping.{AreInOrder};

    ghost Value = { Kept };

    ghost view = { λ all. kept_in all.literals.items all.rows.items };

    ghost invariant = { λ all. AreInOrder all.literals.items all.rows.items (last_at all.lists all.bare)
        (heap_items all.scoped) };
}

impl KeptClauses {
    /// No clauses. Takes no memory.
    pub fn new(alloc: Global) -> KeptClauses
        ensures { result ≡ [] }
    {
        KeptClauses {
            alloc,
            literals: Vec::new(alloc),
            rows: Vec::new(alloc),
            lists: IndexMap::new(alloc),
            bare: None,
            scoped: BinaryHeap::new(alloc),
        }
    }

    /// Where memory is asked for.
    pub(crate) fn allocator(&self) -> Global {
        self.alloc
    }

    /// How many numbers were given. Constant time.
    pub fn len(&self) -> usize
        ensures { result ≡ length self.now }
    {
        self.rows.len()
    }

    /// Keeps a clause at a level, under the next number. Linear in the number of its literals, and logarithmic in the
    /// number of kept clauses; an error for want of memory, and then nothing changes.
    pub fn add(&mut self, clause: &[Lit], level: u64) -> Result<(), AllocError>
        ensures ok { OnOk result
            (self.new ≡ self.old ++ Some (record { literals = clause.now; level = level }) ∷ []) }
        ensures err { OnErr result (self.new ≡ self.old) }
    {
        self.lists.reserve(1)?;
        let number = self.rows.len();
        let start = self.literals.len();
        self.literals.extend_from_slice(clause)?;
        let end = self.literals.len();
        self.scoped.push((level, number))?;
        let place = rarest(&self.lists, clause);
        let before = last_at(&self.lists, self.bare, place);
        self.rows.push(Row {
            start,
            end,
            level,
            is_kept: true,
            place,
            before,
            behind: None,
        })?;
        set_behind(&mut self.rows, before, Some(number));
        put(&mut self.lists, &mut self.bare, place, number);
        Ok(())
    }

    /// The literals of the clause, `None` exactly where the number is not given or its clause was dropped. Constant
    /// time.
    pub fn clause(&self, id: u64) -> Option<&[Lit]>
        ensures { option_copied result ≡ option_map (λ clause. clause.literals) (kept_at self.now id) }
    {
        match self.rows.get(id as usize) {
            Some(row) => {
                if row.is_kept {
                    return Some(literals_of(&self.literals, *row));
                }
                None
            }
            None => None,
        }
    }

    /// The level of the clause, `None` exactly where the number is not given or its clause was dropped. Constant time.
    pub fn level(&self, id: u64) -> Option<u64>
        ensures { result ≡ option_map (λ clause. clause.level) (kept_at self.now id) }
    {
        match self.rows.get(id as usize) {
            Some(row) => {
                if row.is_kept {
                    return Some(row.level);
                }
                None
            }
            None => None,
        }
    }

    /// The number of a kept clause that has only literals of this one, if there is one. Looks at the kept clauses alone
    /// that are listed under a literal of this one, once for each time that the literal stands in it, and at those
    /// without literals; linear in the number of their literals. An error for want of memory.
    pub fn part_of(&self, clause: &[Lit]) -> Result<Option<u64>, AllocError>
        ensures found { IfOk result (λ found. is_some found ≡ is_repeated self.now clause.now) }
        ensures part { IfOk result (λ found. IfSome found (λ id. has_only clause.now (kept_at self.now id) ≡ true)) }
    {
        let all = set_of(self.alloc, clause)?;
        if let Some(number) = find_part(&self.rows, &self.literals, self.bare, &all) {
            return Ok(Some(number as u64));
        }
        match find_part_under(&self.rows, &self.literals, &self.lists, clause, &all) {
            Some(number) => Ok(Some(number as u64)),
            None => Ok(None),
        }
    }

    /// Whether some kept clause has only literals of this one. Costs what [`KeptClauses::part_of`] does; an error for
    /// want of memory.
    pub fn is_repeated(&self, clause: &[Lit]) -> Result<bool, AllocError>
        ensures { IfOk result (λ b. b ≡ is_repeated self.now clause.now) }
    {
        Ok(self.part_of(clause)?.is_some())
    }

    /// Drops the clauses above the level; their numbers are not given again. Takes no memory; linear in the number of
    /// clauses that go, each with a logarithm of the number of those that were kept.
    pub fn leave_above(&mut self, level: u64)
        ensures { self.new ≡ kept_up_to level self.old }
    {
        drop_left(
            &mut self.rows,
            &mut self.lists,
            &mut self.bare,
            &mut self.scoped,
            Some(level),
        );
    }

    /// Drops each clause; their numbers are not given again. Takes no memory; linear in the number of clauses that were
    /// kept, each with a logarithm of it, and in the literals that were added since the last time.
    pub fn leave_all(&mut self)
        ensures { self.new ≡ map (λ clause. None) self.old }
    {
        drop_left(
            &mut self.rows,
            &mut self.lists,
            &mut self.bare,
            &mut self.scoped,
            None,
        );
        self.literals.clear();
    }
}
