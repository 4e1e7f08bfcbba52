//! The atoms that wait to be decided.

ghost use Rattle.std.specs.Prelude.{◌≡◌, ℕ, ◌-◌, ◌^◌, ◌<◌, ◌≤◌, ◌++◌, ◌∷◌, [], true, false, not, length, replicate};
ghost use Rattle.std.specs.Prelude.{slice_index_or, slice_set, OnOk, OnErr, MatchOption};
ghost use Rattle.std.specs.List.{list_all};
ghost use Rattle.std.specs.Vec.{vec_capacity};
ghost use Rattle.sb_activity.specs.Places.{AreInverse};
ghost use Rattle.sb_activity.specs.Waiting.{are_first};

use crate::heap::{sift_down, sift_up, swap};
use std::alloc::{AllocError, Global};
use std::marker::Model;

/// So many atoms may have a place.
const MOST: usize = (1 << 32) - 1;

/// How much more a bump counts after a conflict.
const GROWTH: f64 = 1.0 / 0.95;

/// What a bump counts at most,
const GREATEST: f64 = 1e100;

/// and what all is multiplied by then.
const SHRINK: f64 = 1e-100;

/// The atoms that wait to be decided, the most active one first.
#[derive(Drop)]
pub struct Order {
    /// All atoms that have a place: first those that wait, as a binary heap.
    heap: Vec<u32>,
    /// By atom its place there.
    places: Vec<u32>,
    /// So many wait.
    waiting: usize,
    /// By atom how active it is.
    activities: Vec<f64>,
    /// By atom the number of calls of `decay` at which it was bumped last, and one.
    bumped: Vec<u64>,
    /// The number of calls of `decay`, and one.
    round: u64,
    /// What a bump counts.
    bump: f64,
}

impl Model for Order {
    ghost use Rattle.std.specs.Prelude.{Bool, List};
    ghost use Rattle.sb_activity.specs.Places.{IsOrder};
    ghost use Rattle.sb_activity.specs.Waiting.{are_first};

    ghost Value = { List Bool };

    ghost view = { λ order. are_first order.waiting order.places.items };

    ghost invariant = { λ order. IsOrder order.heap.items order.places.items order.waiting };
}

impl Order {
    /// No atom has a place. Takes no memory.
    pub fn new(alloc: Global) -> Order
        ensures { result ≡ [] }
    {
        Order {
            heap: Vec::new(alloc),
            places: Vec::new(alloc),
            waiting: 0,
            activities: Vec::new(alloc),
            bumped: Vec::new(alloc),
            round: 1,
            bump: 1.0,
        }
    }

    /// Gives each atom below `atoms` a place; those that are new do not wait. Places are never taken back. Linear in the
    /// number of new places, over many calls too. 2 ^ 32 atoms or more are an error.
    pub fn reserve(&mut self, atoms: usize) -> Result<(), AllocError>
        ensures ok { OnOk result (self.new ≡ self.old ++ replicate (atoms - length self.old) false) }
        ensures err { OnErr result (self.new ≡ self.old) }
    {
        let old = self.places.len();
        if atoms <= old {
            return Ok(());
        }
        if atoms > MOST {
            return Err(AllocError);
        }
        self.activities.resize(atoms, 0.0)?;
        self.bumped.resize(atoms, 0)?;
        self.heap.reserve(atoms - old)?;
        self.places.reserve(atoms - old)?;
        grow(&mut self.heap, &mut self.places, atoms);
        Ok(())
    }

    /// The number of atoms that have a place.
    pub fn len(&self) -> usize
        ensures { result ≡ length self.now }
    {
        self.places.len()
    }

    /// Whether an atom waits. Constant time.
    pub fn contains(&self, atom: u64) -> bool
        ensures { result ≡ slice_index_or self.now atom false }
    {
        match self.places.get(atom as usize) {
            Some(place) => (*place as usize) < self.waiting,
            None => false,
        }
    }

    /// An atom waits, if it has a place. Takes no memory; logarithmic in the number of atoms that wait.
    pub fn insert(&mut self, atom: u64)
        ensures { self.new ≡ slice_set self.old atom true }
    {
        let Some(place) = place_of(&self.places, atom) else {
            return;
        };
        let last = self.waiting;
        if place < last {
            return;
        }
        swap(&mut self.heap, &mut self.places, place, last);
        self.waiting = last + 1;
        sift_up(&mut self.heap, &mut self.places, &self.activities, last);
    }

    /// The most active atom of those that wait; none exactly where none waits. Constant time.
    pub fn first(&self) -> Option<u64>
        ensures { MatchOption result (list_all not self.now ≡ true)
            (λ atom. slice_index_or self.now atom false ≡ true) }
    {
        if self.waiting == 0 {
            return None;
        }
        Some(u64::from(self.heap[0]))
    }

    /// Takes the most active atom out of those that wait; none exactly where none waits. Takes no memory; logarithmic in
    /// their number.
    pub fn pop(&mut self) -> Option<u64>
        ensures { MatchOption result ((list_all not self.old ≡ true) × (self.new ≡ self.old))
            (λ atom. (slice_index_or self.old atom false ≡ true) × (self.new ≡ slice_set self.old atom false)) }
    {
        if self.waiting == 0 {
            return None;
        }
        let atom = self.heap[0];
        let last = self.waiting - 1;
        swap(&mut self.heap, &mut self.places, 0, last);
        self.waiting = last;
        sift_down(&mut self.heap, &mut self.places, &self.activities, last);
        Some(u64::from(atom))
    }

    /// An atom was met in a conflict: it becomes more active, once between two calls of `decay`. Takes no memory;
    /// logarithmic in the number of atoms that wait.
    pub fn bump(&mut self, atom: u64)
        ensures { self.new ≡ self.old }
    {
        if !is_first(&mut self.bumped, atom, self.round) {
            return;
        }
        raise(&mut self.activities, atom, self.bump);
        let Some(place) = place_of(&self.places, atom) else {
            return;
        };
        if place < self.waiting {
            sift_up(&mut self.heap, &mut self.places, &self.activities, place);
        }
    }

    /// A conflict is over: each bump from now on counts more than those before. Takes no memory; constant time, but
    /// linear in the number of atoms once in some 4,000 calls.
    pub fn decay(&mut self)
        ensures { self.new ≡ self.old }
    {
        self.round = self.round.wrapping_add(1);
        self.bump *= GROWTH;
        if self.bump > GREATEST {
            self.bump *= SHRINK;
            shrink(&mut self.activities);
        }
    }
}

/// The place of an atom, none where it has none.
fn place_of(places: &[u32], atom: u64) -> Option<usize>
    ensures { MatchOption result (length places.now ≤ atom)
        (λ place. (atom < length places.now) × (place ≡ slice_index_or places.now atom 0)) }
{
    let place = places.get(atom as usize).copied()?;
    Some(place as usize)
}

/// Whether an atom is met for the first time in this round.
fn is_first(bumped: &mut [u64], atom: u64, round: u64) -> bool {
    match bumped.get_mut(atom as usize) {
        Some(last) if *last != round => {
            *last = round;
            true
        }
        _ => false,
    }
}

/// Makes an atom more active.
fn raise(activities: &mut [f64], atom: u64, by: f64) {
    if let Some(activity) = activities.get_mut(atom as usize) {
        *activity += by;
    }
}

/// Makes all activities smaller.
fn shrink(activities: &mut [f64]) {
    for activity in activities {
        *activity *= SHRINK;
    }
}

/// Adds the atoms below this one, each at the place of its own number.
fn grow(heap: &mut Vec<u32>, places: &mut Vec<u32>, atoms: usize)
    requires inverse { AreInverse heap.old.items places.old.items }
    requires fits { atoms < 2 ^ 32 }
    requires more { length places.old.items ≤ atoms }
    requires room { atoms ≤ vec_capacity heap.old }
    requires room_for_places { atoms ≤ vec_capacity places.old }
    ensures inverse { AreInverse heap.new.items places.new.items }
    ensures length { length heap.old.items ≤ length heap.new.items }
    ensures first { (count : ℕ) → count ≤ length places.old.items → are_first count places.new.items
        ≡ are_first count places.old.items ++ replicate (atoms - length places.old.items) false }
{
    for atom in places.len()..atoms {
        add(heap, places, atom);
    }
}

/// Adds an atom at the place of its own number.
fn add(heap: &mut Vec<u32>, places: &mut Vec<u32>, atom: usize)
    requires inverse { AreInverse heap.old.items places.old.items }
    requires fits { atom < 2 ^ 32 - 1 }
    requires next { atom ≡ length places.old.items }
    requires room { atom < vec_capacity heap.old }
    requires room_for_places { atom < vec_capacity places.old }
    ensures inverse { AreInverse heap.new.items places.new.items }
    ensures heap { heap.new.items ≡ heap.old.items ++ atom ∷ [] }
    ensures places { places.new.items ≡ places.old.items ++ atom ∷ [] }
    ensures capacity { vec_capacity heap.old ≤ vec_capacity heap.new }
    ensures places_capacity { vec_capacity places.old ≤ vec_capacity places.new }
{
    if heap.push(atom as u32).is_err() {
        unreachable!();
    }
    if places.push(atom as u32).is_err() {
        unreachable!();
    }
}
