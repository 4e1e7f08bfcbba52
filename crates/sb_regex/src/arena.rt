//! The table of regexes.

ghost use Rattle.std.specs.Prelude.{◌≡◌, ℕ, ◌<◌, true, length, map, slice_get, Some, [], IfOk, IfSome};
ghost use Rattle.std.specs.List.{list_all};
ghost use Rattle.sb_lang.specs.Regex.{none, eps};
ghost use Rattle.sb_lang.specs.Constructors.{anything};
ghost use Rattle.sb_lang.specs.Order.{regex_cmp};
ghost use Rattle.sb_lang.specs.Derivative.{nullable};
ghost use Rattle.sb_lang.specs.Language.{language};
ghost use Rattle.sb_lang.specs.NormalForm.{is_normal, IsNormal};
ghost use Rattle.sb_lengths.specs.Lengths.{AreLengths};
ghost use Rattle.sb_regex.specs.Numbered.{regex_at, AreDistinct, Extends, Names};
ghost use Rattle.sb_regex.specs.Nodes.{node_regex, PartsBelow};
ghost use Rattle.sb_regex.specs.Remembered.{normal_of};

use crate::node::{Node, RegexId};
use indexmap::{IndexMap, IndexSet};
use sb_lengths::Lengths;
use std::alloc::{AllocError, Global};
use std::cmp::Ordering;
use std::marker::Model;

/// The numbers of the regexes that are asked for most, once they have one.
#[derive(Clone, Copy)]
struct Basics {
    none: Option<RegexId>,
    eps: Option<RegexId>,
    anything: Option<RegexId>,
}

/// What is known of a regex from when it is made.
#[derive(Clone, Copy)]
pub(crate) struct Facts {
    pub(crate) nullable: bool,
    pub(crate) lengths: Lengths,
}

/// Normal regexes by their numbers, each once, with what unions, intersections and comparisons were answered.
#[derive(Drop)]
pub struct Arena {
    nodes: IndexSet<Node>,
    facts: Vec<Facts>,
    /// The numbers of what constructors made, by their calls: a node of the operation and of the members by number.
    made: IndexMap<Node, RegexId>,
    orders: IndexMap<(RegexId, RegexId), Ordering>,
    basics: Basics,
}

impl Model for Arena {
    ghost use Rattle.std.specs.Prelude.{List};
    ghost use Rattle.std.specs.Coded.{coded_list};
    ghost use Rattle.sb_lang.specs.Regex.{Regex};
    ghost use Rattle.sb_lang.proofs.CallerLemmas.{coded_regex};

    ghost Value = { List Regex };

    ghost coded = { coded_list coded_regex };

    ghost use Rattle.sb_regex.specs.Table.{regexes_of};
    ghost use Rattle.sb_regex.specs.Interning.{IsTable};
    ghost use Rattle.sb_regex.specs.Remembered.{IsRemembered, AreBasic};

    ghost view = { λ arena. regexes_of arena.nodes.keys };

    ghost invariant = { λ arena. IsTable (regexes_of arena.nodes.keys) arena.nodes.keys arena.facts.items
        × IsRemembered (regexes_of arena.nodes.keys) arena.made arena.orders
        × AreBasic (regexes_of arena.nodes.keys) arena.basics.none arena.basics.eps arena.basics.anything };
}

impl Arena {
    /// An arena with no regex. Takes no memory.
    pub fn new(alloc: Global) -> Arena
        ensures { result ≡ [] }
    {
        Arena {
            nodes: IndexSet::new(alloc),
            facts: Vec::new(alloc),
            made: IndexMap::new(alloc),
            orders: IndexMap::new(alloc),
            basics: Basics {
                none: None,
                eps: None,
                anything: None,
            },
        }
    }

    /// The number of regexes. The numbers of regexes are those below it.
    pub fn len(&self) -> usize
        ensures { result ≡ length self.now }
    {
        self.nodes.len()
    }

    /// The node of a regex. Takes constant time and no memory.
    pub fn node(&self, id: RegexId) -> &Node
        requires { id < length self.now }
        ensures value { node_regex self.now result.now ≡ regex_at self.now id }
        ensures parts { PartsBelow id result.now }
    {
        &self.nodes[id.number()]
    }

    /// Numbers are equal exactly where their regexes are, and each regex is normal.
    pub fn normal_regexes_each_once(&self)
        ensures distinct { AreDistinct self.now }
        ensures normal { list_all is_normal self.now ≡ true }
    {
        let _nodes = &self.nodes;
    }

    /// Whether the empty word is in the language of a regex. Takes constant time and no memory.
    pub fn nullable(&self, id: RegexId) -> bool
        requires { id < length self.now }
        ensures { result ≡ nullable (regex_at self.now id) }
    {
        self.facts[id.number()].nullable
    }

    /// Which lengths words of a regex may have, and at which each word of characters is one. Takes constant time and
    /// no memory.
    pub fn lengths(&self, id: RegexId) -> Lengths
        requires { id < length self.now }
        ensures { AreLengths result (language (regex_at self.now id)) }
    {
        self.facts[id.number()].lengths
    }

    /// The allocator of the table.
    pub(crate) fn allocator(&self) -> Global {
        *self.facts.allocator()
    }

    /// The number of the node's regex, a new one where it has none.
    pub(crate) fn intern(&mut self, node: Node) -> Result<RegexId, AllocError>
        requires parts { PartsBelow (length self.old) node }
        requires normal { IsNormal (node_regex self.old node) }
        ensures ok { IfOk result (λ id. Names self.new id (node_regex self.old node)) }
        ensures extends { Extends self.old self.new }
    {
        if let Some(number) = self.nodes.get_index_of(&node) {
            return RegexId::new(number);
        }
        let facts = Facts {
            nullable: self.node_nullable(&node),
            lengths: self.node_lengths(&node),
        };
        self.facts.reserve(1)?;
        let (number, _) = self.nodes.insert_full(node)?;
        self.facts.push(facts)?;
        RegexId::new(number)
    }

    /// The regex with no word. Constant time.
    #[tactic(auto, unfolding(sb_lang::specs::NormalForm::is_normal))]
    pub fn none(&mut self) -> Result<RegexId, AllocError>
        ensures ok { IfOk result (λ id. Names self.new id none) }
        ensures extends { Extends self.old self.new }
    {
        if let Some(id) = self.basics.none {
            return Ok(id);
        }
        let id = self.intern(Node::None)?;
        self.basics.none = Some(id);
        Ok(id)
    }

    /// The regex of the empty word alone. Constant time.
    #[tactic(auto, unfolding(sb_lang::specs::NormalForm::is_normal))]
    pub fn eps(&mut self) -> Result<RegexId, AllocError>
        ensures ok { IfOk result (λ id. Names self.new id eps) }
        ensures extends { Extends self.old self.new }
    {
        if let Some(id) = self.basics.eps {
            return Ok(id);
        }
        let id = self.intern(Node::Eps)?;
        self.basics.eps = Some(id);
        Ok(id)
    }

    /// The regex of every word. Constant time.
    pub(crate) fn anything(&mut self) -> Result<RegexId, AllocError>
        ensures ok { IfOk result (λ id. Names self.new id anything) }
        ensures extends { Extends self.old self.new }
    {
        if let Some(id) = self.basics.anything {
            return Ok(id);
        }
        let none = self.none()?;
        let id = self.intern(Node::Not(none))?;
        self.basics.anything = Some(id);
        Ok(id)
    }

    /// The number that the call was answered, if it was made before.
    pub(crate) fn made(&self, call: &Node) -> Option<RegexId>
        ensures { IfSome result (λ id. Names self.now id (normal_of (node_regex self.now call.now))) }
    {
        self.made.get(call).copied()
    }

    /// Remembers what a call was answered.
    pub(crate) fn remember(&mut self, call: Node, id: RegexId) -> Result<(), AllocError>
        requires parts { PartsBelow (length self.old) call }
        requires answer { Names self.old id (normal_of (node_regex self.old call)) }
        ensures { self.new ≡ self.old }
    {
        self.made.insert(call, id)?;
        Ok(())
    }

    /// The order of two regexes, if it was kept.
    pub(crate) fn known_order(&self, a: RegexId, b: RegexId) -> Option<Ordering>
        ensures { IfSome result (λ order. order ≡ regex_cmp (regex_at self.now a) (regex_at self.now b)) }
    {
        self.orders.get(&(a, b)).copied()
    }

    /// Keeps the order of two regexes.
    pub(crate) fn keep_order(
        &mut self,
        a: RegexId,
        b: RegexId,
        order: Ordering,
    ) -> Result<(), AllocError>
        requires left { a < length self.old }
        requires right { b < length self.old }
        requires order { order ≡ regex_cmp (regex_at self.old a) (regex_at self.old b) }
        ensures { self.new ≡ self.old }
    {
        self.orders.insert((a, b), order)?;
        Ok(())
    }
}
