//! One of the two watches of each clause, with the watch lists.

ghost use Rattle.std.specs.Prelude.{◌≡◌, ℕ, ◌+◌, ◌*◌, ◌^◌, ◌<◌, ◌≤◌, [], ◌∷◌, length, true, slice_index_or, slice_set, MatchOption, OnOk, IfSome};
ghost use Rattle.std.specs.List.{list_all};
ghost use Rattle.sb_clauses.specs.WatchLists.{times};
ghost use Rattle.sb_clauses.specs.Watching.{list_of, literal_of, home};
ghost use Rattle.sb_clauses.specs.Adding.{IsRoomier, HasRoom, AreEnough};

use crate::watch_lists::WatchLists;
use sb_lit::Lit;
use std::alloc::{AllocError, Global};

/// The list of the clauses without two different literals.
pub const SHORT: usize = 1;

/// So many atoms have lists, so that a list's number is one of 32 bits.
const ATOMS: u64 = 1 << 30;

/// One of the two watches of each clause: by clause number the watched literal, as the number of its list, and by
/// literal the watch list, of the clauses that watch it.
#[derive(Drop)]
pub struct Watches {
    pub watched: Vec<u32>,
    pub lists: WatchLists,
}

impl Watches {
    /// No clauses and no lists. Takes no memory.
    pub fn new(alloc: Global) -> Watches
        ensures watched { result.watched.items ≡ [] }
        ensures lists { result.lists ≡ record { nodes = 0; lists = [] } }
    {
        Watches {
            watched: Vec::new(alloc),
            lists: WatchLists::new(alloc),
        }
    }

    /// Makes room for the clauses of numbers below `numbers`, and for so many lists.
    pub fn make_room(&mut self, numbers: usize, lists: usize) -> Result<(), AllocError>
        ensures roomier { IsRoomier self.old.watched.items self.old.lists self.new.watched.items self.new.lists }
        ensures room { OnOk result (HasRoom numbers lists self.new.watched.items self.new.lists) }
    {
        grow(&mut self.watched, numbers)?;
        self.lists.add_nodes(numbers)?;
        self.lists.add_lists(lists)
    }

    /// Puts a number that stands in no list on the list where its clause belongs, by the literal that is watched here
    /// and the other one. Takes no memory.
    pub fn watch(&mut self, number: usize, own: Lit, other: Lit)
        requires number { number < length self.old.watched.items }
        requires node { number < self.old.lists.nodes }
        requires nowhere { times number self.old.lists.lists ≡ 0 }
        requires small { own.atom < 2 ^ 30 }
        requires home { home own other < length self.old.lists.lists }
        ensures watched { self.new.watched.items ≡ slice_set self.old.watched.items number (list_of own) }
        ensures lists { self.new.lists
            ≡ record self.old.lists {
              lists =
                  slice_set self.old.lists.lists (home own other)
                  (number ∷ slice_index_or self.old.lists.lists (home own other) []);
            } }
    {
        self.watched[number] = code_of(own);
        let list = if own == other { SHORT } else { list_of(own) };
        self.lists.push(list, number);
    }
}

/// Fills up to so many numbers.
fn grow(watched: &mut Vec<u32>, numbers: usize) -> Result<(), AllocError>
    ensures more { length watched.old.items ≤ length watched.new.items }
    ensures same { (k : ℕ) → k < length watched.old.items
        → slice_index_or watched.new.items k 0 ≡ slice_index_or watched.old.items k 0 }
    ensures room { OnOk result (numbers ≤ length watched.new.items) }
{
    if numbers > watched.len() {
        watched.resize(numbers, 0)?;
    }
    Ok(())
}

/// The number of the literal's list, as it is stored.
pub fn code_of(literal: Lit) -> u32
    requires { literal.atom < 2 ^ 30 }
    ensures { result ≡ list_of literal }
{
    list_of(literal) as u32
}

/// The literal of a list.
#[tactic(auto, unfolding(crate::specs::Watching::literal_of))]
pub fn literal_of(list: u32) -> Lit
    ensures { result ≡ literal_of list }
{
    Lit {
        atom: (list.saturating_sub(2) / 2) as u64,
        positive: list % 2 == 1,
    }
}

/// The list of the clauses whose watched literal is this one.
pub fn list_of(literal: Lit) -> usize
    requires { 2 * literal.atom + 3 ≤ usize.MAX }
    ensures { result ≡ list_of literal }
{
    let pair = 2 * literal.atom as usize;
    if literal.positive { pair + 3 } else { pair + 2 }
}

/// The list of the clauses whose watched literal is this one, none where there are not so many lists.
pub fn list_among(literal: Lit, lists: usize) -> Option<usize>
    ensures { MatchOption result (lists ≤ list_of literal) (λ list. (list ≡ list_of literal) × (list < lists)) }
{
    if literal.atom >= (lists / 2) as u64 {
        return None;
    }
    let list = list_of(literal);
    if list < lists { Some(list) } else { None }
}

/// How many lists a clause of these literals wants, none where that is more than there can be.
pub fn lists_for(clause: &[Lit]) -> Option<usize>
    ensures { IfSome result (AreEnough clause.now) }
{
    let mut lists = SHORT + 1;
    for literal in clause {
        if literal.atom >= ATOMS {
            return None;
        }
        lists = lists.max(list_of(*literal) + 1);
    }
    Some(lists)
}
