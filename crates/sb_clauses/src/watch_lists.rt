//! Watch lists: lists of clause numbers, linked through one table.

ghost use Rattle.std.specs.Prelude.{◌≡◌, ◌≢◌, ◌+◌, ◌-◌, ◌<◌, ◌≤◌, [], ◌∷◌, ◌++◌, length, max, drop, replicate, slice_get, slice_index_or, slice_set, None, OnOk, OnErr, IfSome};
ghost use Rattle.sb_clauses.specs.WatchLists.{times, IsPoured};

use crate::links::{Links, NUMBERS};
use std::alloc::{AllocError, Global};
use std::marker::Model;

/// Lists of clause numbers, of which each stands in one list at most.
#[derive(Drop)]
pub struct WatchLists {
    heads: Links,
    next: Links,
}

impl Model for WatchLists {
    ghost use Rattle.std.specs.Prelude.{length, ◌<◌, ◌^◌};
    ghost use Rattle.sb_clauses.specs.WatchLists.{WatchLists, lists_from, AreListsOf};

    ghost Value = { WatchLists };

    ghost view = { λ all. record { nodes = length all.next; lists = lists_from all.heads all.next } };

    ghost invariant = { λ all. AreListsOf all.heads all.next (lists_from all.heads all.next) × (length all.next < 2 ^ 32) };
}

impl WatchLists {
    /// No lists. Takes no memory.
    pub fn new(alloc: Global) -> WatchLists
        ensures { result ≡ record { nodes = 0; lists = [] } }
    {
        WatchLists {
            heads: Links::new(alloc),
            next: Links::new(alloc),
        }
    }

    /// Makes room for the numbers below `nodes`, an error where they are 2 ^ 32 or more.
    pub fn add_nodes(&mut self, nodes: usize) -> Result<(), AllocError>
        ensures ok { OnOk result (self.new ≡ record self.old { nodes = max self.old.nodes nodes }) }
        ensures err { OnErr result (self.new ≡ self.old) }
    {
        if nodes > NUMBERS {
            return Err(AllocError);
        }
        self.next.grow(nodes)
    }

    /// Adds empty lists, up to this many.
    pub fn add_lists(&mut self, lists: usize) -> Result<(), AllocError>
        ensures ok { OnOk result
            (self.new ≡ record self.old { lists = self.old.lists ++ replicate (lists - length self.old.lists) [] }) }
        ensures err { OnErr result (self.new ≡ self.old) }
    {
        self.heads.grow(lists)
    }

    /// Puts a number that stands in no list in front of a list. Takes no memory; constant time.
    pub fn push(&mut self, list: usize, node: usize)
        requires list { list < length self.old.lists }
        requires node { node < self.old.nodes }
        requires nowhere { times node self.old.lists ≡ 0 }
        ensures { self.new ≡ record self.old {
          lists =
              slice_set self.old.lists list (node ∷ slice_index_or self.old.lists list []);
        } }
    {
        let behind = self.heads.get(list);
        self.next.set(node, behind);
        self.heads.set(list, Some(node));
    }

    /// Takes the first number off a list. Takes no memory; constant time.
    pub fn pop(&mut self, list: usize) -> Option<usize>
        requires { list < length self.old.lists }
        ensures first { result ≡ slice_get (slice_index_or self.old.lists list []) 0 }
        ensures rest { self.new
            ≡ record self.old {
              lists =
                  slice_set self.old.lists list (drop 1 (slice_index_or self.old.lists list []));
            } }
        ensures nowhere { IfSome result (λ node. (node < self.new.nodes) × (times node self.new.lists ≡ 0)) }
    {
        let first = self.heads.get(list);
        if let Some(node) = first {
            let behind = self.next.get(node);
            self.heads.set(list, behind);
        }
        first
    }

    /// Makes an empty list what another one is, and that one empty. Takes no memory; constant time.
    pub fn put(&mut self, from: usize, to: usize)
        requires from { from < length self.old.lists }
        requires to { to < length self.old.lists }
        requires apart { from ≢ to }
        requires empty { slice_index_or self.old.lists to [] ≡ [] }
        ensures { self.new ≡ record self.old {
          lists =
              slice_set (slice_set self.old.lists to (slice_index_or self.old.lists from [])) from [];
        } }
    {
        let first = self.heads.get(from);
        self.heads.set(to, first);
        self.heads.set(from, None);
    }

    /// How many lists there are.
    pub fn len(&self) -> usize
        ensures { result ≡ length self.now.lists }
    {
        self.heads.len()
    }
}

/// Puts all numbers of a list in front of another one. Takes no memory; linear in their number.
pub fn pour(lists: &mut WatchLists, from: usize, to: usize)
    requires from { from < length lists.old.lists }
    requires to { to < length lists.old.lists }
    requires apart { from ≢ to }
    ensures { IsPoured from to lists.old lists.new }
{
    while let Some(node) = lists.pop(from) {
        lists.push(to, node);
    }
}
