//! Which atom is decided next, and how.

ghost use Rattle.std.specs.Prelude.{◌≡◌, ◌<◌, true, None, IfSome};
ghost use Rattle.sb_trail.specs.Assignments.{value_of};

use sb_activity::{Order, Phases};
use sb_analyze::Learned;
use sb_clauses::Clauses;
use sb_lit::Lit;
use sb_trail::{CompactLit, Entry, Trail};
use std::alloc::{AllocError, Global};

/// Which atom is decided next, and how: of the wanted atoms without a value the one that was met most in conflicts of
/// late, as a hint says, or else as it was where levels were taken back last. How often an atom was met, and that value,
/// stay from search to search. No answer rests on it.
#[derive(Drop)]
pub struct Choices {
    /// The wanted atoms that wait: all that have no value, and some that have one.
    order: Order,
    phases: Phases,
    /// By atom the number of the search in which it was wanted last, 0 where it was in none.
    wanted: Vec<u32>,
    /// The number of this search.
    search: u32,
}

impl Choices {
    /// No atom is wanted. Takes no memory.
    pub fn new(alloc: Global) -> Choices {
        Choices {
            order: Order::new(alloc),
            phases: Phases::new(alloc),
            wanted: Vec::new(alloc),
            search: 0,
        }
    }

    /// A search begins, for which no atom is wanted yet. Takes no memory; linear in the atoms that wait.
    pub(crate) fn begin(&mut self) {
        self.search = self.search.wrapping_add(1);
        for _ in 0..self.order.len() {
            if self.order.pop().is_none() {
                return;
            }
        }
    }

    /// An atom is wanted. Takes memory for each atom up to it where that was not there.
    pub(crate) fn want(&mut self, atom: u64) -> Result<(), AllocError> {
        let Some(atoms) = atom.checked_add(1) else {
            return Err(AllocError);
        };
        let atoms = atoms as usize;
        self.order.reserve(atoms)?;
        self.phases.reserve(atoms)?;
        if self.wanted.len() < atoms {
            self.wanted.resize(atoms, 0)?;
        }
        mark(&mut self.wanted, atom, self.search);
        self.order.insert(atom);
        Ok(())
    }

    /// A wanted atom without a value; none where no atom waits that has none.
    pub(crate) fn next(&mut self, trail: &Trail) -> Option<u64>
        ensures { IfSome result (λ atom. (value_of trail.now.literals atom ≡ None) × (atom < trail.now.reserved)) }
    {
        for _ in 0..self.order.len() {
            let atom = self.order.first()?;
            if is_open(trail, atom) {
                return Some(atom);
            }
            self.order.pop();
        }
        None
    }

    /// The literal of an atom that is decided: as the hint says, if there is one, or else as the atom was last, and
    /// negative at first.
    pub(crate) fn literal(&self, atom: u64, hint: Option<bool>) -> Lit
        ensures { result.atom ≡ atom }
    {
        Lit {
            atom,
            positive: hint.unwrap_or(self.phases.of(atom)),
        }
    }

    /// The levels above this one are taken back: their atoms wait again. Takes no memory.
    pub(crate) fn backtrack(&mut self, entries: &[Entry], level: usize) {
        for entry in entries.iter().rev() {
            if entry.level() <= level {
                return;
            }
            self.open(entry.literal());
        }
    }

    /// An atom is about to lose its value.
    fn open(&mut self, literal: Lit) {
        if is_marked(&self.wanted, literal.atom, self.search) {
            self.phases.save(literal.atom, literal.positive);
            self.order.insert(literal.atom);
        }
    }

    /// The atoms of the clauses that were resolved in a conflict were met.
    pub(crate) fn learn(&mut self, clauses: &Clauses, lesson: &Learned) {
        for id in lesson.hints.ids() {
            if let Some(literals) = clauses.literals(*id) {
                self.meet(literals);
            }
        }
        self.order.decay();
    }

    /// The atoms of a clause were met.
    fn meet(&mut self, literals: &[CompactLit]) {
        for literal in literals {
            self.order.bump(literal.literal().atom);
        }
    }
}

/// Whether an atom has a place, and no value.
fn is_open(trail: &Trail, atom: u64) -> bool
    ensures value { result ≡ true → value_of trail.now.literals atom ≡ None }
    ensures place { result ≡ true → atom < trail.now.reserved }
{
    (atom as usize) < trail.reserved() && trail.value(atom).is_none()
}

/// Marks an atom with the number of a search.
fn mark(marks: &mut [u32], atom: u64, search: u32) {
    if let Some(mark) = marks.get_mut(atom as usize) {
        *mark = search;
    }
}

/// Whether an atom is marked with the number of a search.
fn is_marked(marks: &[u32], atom: u64, search: u32) -> bool {
    match marks.get(atom as usize) {
        Some(mark) => *mark == search,
        None => false,
    }
}
