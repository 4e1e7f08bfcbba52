//! What is kept of regexes.

ghost use Rattle.std.specs.Prelude.{◌≡◌, ◌<◌, ◌∷◌, ◌++◌, [], true, false, None, Some, is_some, nat_eq, nat_lt, List, map, option_map, set, slice_get, length, IfOk, OnOk, OnErr};
ghost use Rattle.std.specs.List.{list_all, list_any, IsDistinct};
ghost use Rattle.sb_rulebook.specs.Parts.{together};
ghost use Rattle.sb_regex.specs.Numbered.{regex_at, regexes_at, AllNumbers, Extends};
ghost use Rattle.sb_rulebook.specs.Kept.{AllKept, Asked, marked, targets_in};
ghost use Rattle.sb_rulebook.specs.Lines.{regex_line, dead_line, set_node, cat_node, alt_node, and_node, not_node, star_node, rep_node, path_node};
ghost use Rattle.sb_rulebook.specs.RegexRules.{regex_of_node};
ghost use Rattle.sb_rulebook.specs.Follows.{follows};
ghost use Rattle.sb_rulebook.specs.Splits.{is_dead_regex};
ghost use Rattle.sb_proof.specs.Lines.{node_in};
ghost use Rattle.sb_rules.specs.Answers.{IsJudged, refusal_in};
ghost use Rattle.sb_rules.specs.Known.{with_known};
ghost use Rattle.sb_rules.specs.Burying.{AreMembers, has_dead, is_dead_by, is_settled_by, are_settled_by, alive_at, first_alive_of};
ghost use Rattle.sb_rules.specs.Making.{IsOne, AreSeveral, IsMade, IsAdded};

use crate::fault::{Fault, Refusal};
use crate::normal::{alt, and, cat, not, path, rep, set, star};
use indexmap::IndexSet;
use sb_lang::order::order_tells_apart;
use sb_proof::Node;
use sb_regex::{Arena, RegexId};
use std::alloc::{AllocError, Global};
use std::marker::Model;

/// The numbers of the targets of an expansion.
#[derive(Drop)]
struct Targets {
    numbers: Vec<u64>,
}

impl Model for Targets {
    ghost use Rattle.std.specs.Prelude.{ℕ, List};

    ghost Value = { List ℕ };

    ghost view = { λ targets. targets.numbers.items };
}

/// What a proof keeps of regexes, by their numbers in the proof.
#[derive(Drop)]
pub struct KnownRegexes {
    alloc: Global,
    /// The numbers in the arena.
    order: IndexSet<RegexId>,
    expansions: Vec<Option<Targets>>,
    dead: Vec<bool>,
}

impl Model for KnownRegexes {
    ghost use Rattle.std.specs.Prelude.{◌≡◌, length};
    ghost use Rattle.sb_rules.specs.Known.{Known};

    ghost Value = { Known };

    ghost view = { λ known. record {
      order = known.order.keys;
      expansions = known.expansions.items;
      dead = known.dead.items;
    } };

    ghost invariant = { λ known. (length known.expansions.items ≡ length known.order.keys)
        × (length known.dead.items ≡ length known.order.keys) };
}

impl KnownRegexes {
    /// No regex. Takes no memory.
    pub fn new(alloc: Global) -> KnownRegexes
        ensures { result ≡ record { order = []; expansions = []; dead = [] } }
    {
        KnownRegexes {
            alloc,
            order: IndexSet::new(alloc),
            expansions: Vec::new(alloc),
            dead: Vec::new(alloc),
        }
    }

    /// Judges the line that defines the next regex, which is kept where it follows. After an error what is kept is as
    /// before; the arena may hold more regexes. It takes the time of the node's constructor: constant but for the
    /// ranges of a set, and the members of a union or an intersection.
    pub fn define(&mut self, arena: &mut Arena, node: &Node) -> Result<(), Fault>
        requires known { AllNumbers arena.old self.old.order }
        ensures follows { (asked : Asked) (kept : AllKept) → IsJudged result (with_known arena.new self.new kept)
            (follows asked (with_known arena.old self.old kept) (regex_line (node_in node.now))) }
        ensures unchanged { OnErr result (self.new ≡ self.old) }
        ensures known { AllNumbers arena.new self.new.order }
        ensures extends { Extends arena.old arena.new }
    {
        let made = self.made(arena, node)?;
        order_tells_apart();
        arena.normal_regexes_each_once();
        let Some(id) = made else {
            return Err(Fault::Refused(Refusal::NotNormal));
        };
        self.add_new(id)
    }

    /// Judges the line that says that regexes have no word, and marks them where it follows. After an error what is
    /// kept is as before. Linear in the members and the targets of their expansions.
    pub fn bury(&mut self, arena: &Arena, numbers: &[u64]) -> Result<(), Fault>
        requires known { AllNumbers arena.now self.old.order }
        ensures follows { (asked : Asked) (kept : AllKept) → IsJudged result (with_known arena.now self.new kept)
            (follows asked (with_known arena.now self.old kept) (dead_line numbers.now)) }
        ensures unchanged { OnErr result (self.new ≡ self.old) }
        ensures order { self.new.order ≡ self.old.order }
    {
        if !self.are_known(numbers) {
            return Err(Fault::Refused(Refusal::UnknownId));
        }
        let Some(members) = self.members(numbers)? else {
            return Err(Fault::Refused(Refusal::Repeated));
        };
        if let Some(refusal) = self.first_alive(arena, numbers, &members) {
            return Err(Fault::Refused(refusal));
        }
        self.mark(numbers);
        Ok(())
    }

    /// How many regexes are kept. Constant time.
    pub fn len(&self) -> usize
        ensures { result ≡ length self.now.order }
    {
        self.order.len()
    }

    /// The number in the arena of the regex of a number of the proof. Constant time.
    pub fn regex(&self, number: u64) -> Option<RegexId>
        ensures { result ≡ slice_get self.now.order number }
    {
        self.order.get_index(number as usize).copied()
    }

    /// Whether a regex is expanded. Constant time.
    pub fn is_expanded(&self, number: u64) -> bool
        ensures { result ≡ is_some (targets_in self.now.expansions number) }
    {
        match self.expansions.get(number as usize) {
            Some(targets) => targets.is_some(),
            None => false,
        }
    }

    /// Keeps the targets of the expansion of a regex, by their numbers in the proof. Constant time, and no memory.
    pub fn expand(&mut self, number: u64, targets: Vec<u64>)
        requires { number < length self.old.order }
        ensures { self.new
            ≡ record self.old { expansions = set self.old.expansions number (Some targets.items) } }
    {
        self.expansions[number as usize] = Some(Targets { numbers: targets });
    }

    /// Whether a regex of the arena is known to have no word. Constant time.
    pub fn is_dead_regex(&self, arena: &Arena, id: RegexId) -> bool
        requires known { AllNumbers arena.now self.now.order }
        requires id { id < length arena.now }
        ensures { (kept : AllKept)
            → result ≡ is_dead_regex (with_known arena.now self.now kept) (regex_at arena.now id) }
    {
        order_tells_apart();
        arena.normal_regexes_each_once();
        self.each_is_kept_once();
        self.has_dead(id)
    }

    /// No regex has two numbers.
    fn each_is_kept_once(&self)
        ensures { IsDistinct nat_eq self.now.order }
    {
        let _count = self.order.len();
    }

    /// Whether a regex of the arena is kept and dead.
    fn has_dead(&self, id: RegexId) -> bool
        ensures { result ≡ has_dead self.now id }
    {
        match self.order.get_index_of(&id) {
            Some(place) => self.is_dead(place as u64),
            None => false,
        }
    }

    /// Whether each number is of a regex.
    fn are_known(&self, numbers: &[u64]) -> bool
        ensures { result ≡ list_all (λ n. nat_lt n (length self.now.order)) numbers.now }
    {
        numbers
            .iter()
            .all(|number| (*number as usize) < self.order.len())
    }

    /// The set of the members, if none is dead or twice among them.
    fn members(&self, numbers: &[u64]) -> Result<Option<IndexSet<u64>>, AllocError>
        ensures { IfOk result (AreMembers self.now.dead numbers.now) }
    {
        let mut members = IndexSet::new(self.alloc);
        let mut place = numbers.len();
        while place > 0 {
            place -= 1;
            let number = numbers[place];
            if self.is_dead(number) || members.contains(&number) {
                return Ok(None);
            }
            members.insert(number)?;
        }
        Ok(Some(members))
    }

    /// Whether a regex is known to have no word.
    fn is_dead(&self, number: u64) -> bool
        ensures { result ≡ is_dead_by self.now.dead number }
    {
        match self.dead.get(number as usize) {
            Some(dead) => *dead,
            None => false,
        }
    }

    /// Why the first of the members that may not be dead may not.
    fn first_alive(
        &self,
        arena: &Arena,
        numbers: &[u64],
        members: &IndexSet<u64>,
    ) -> Option<Refusal>
        requires known { AllNumbers arena.now self.now.order }
        requires numbers { list_all (λ n. nat_lt n (length self.now.order)) numbers.now ≡ true }
        ensures { option_map refusal_in result
            ≡ first_alive_of arena.now self.now members.now.keys numbers.now }
    {
        for number in numbers {
            let alive = self.alive(arena, *number, members);
            if alive.is_some() {
                return alive;
            }
        }
        None
    }

    /// Why a member may not be dead.
    fn alive(&self, arena: &Arena, number: u64, members: &IndexSet<u64>) -> Option<Refusal>
        requires known { AllNumbers arena.now self.now.order }
        requires number { number < length self.now.order }
        ensures { option_map refusal_in result ≡ alive_at arena.now self.now members.now.keys number }
    {
        if arena.nullable(self.order.as_slice()[number as usize]) {
            return Some(Refusal::HoldsEmptyWord);
        }
        if self.is_closed(number, members) {
            return None;
        }
        Some(Refusal::NotClosed)
    }

    /// Whether a regex is expanded, and each of its targets is dead or a member.
    fn is_closed(&self, number: u64, members: &IndexSet<u64>) -> bool
        ensures { result
            ≡ are_settled_by self.now.dead members.now.keys (targets_in self.now.expansions number) }
    {
        match self.expansions.get(number as usize) {
            Some(Some(targets)) => self.are_settled(&targets.numbers, members),
            Some(None) => false,
            None => false,
        }
    }

    /// Whether each number is of a dead regex or of a member.
    fn are_settled(&self, numbers: &[u64], members: &IndexSet<u64>) -> bool
        ensures { result ≡ list_all (is_settled_by self.now.dead members.now.keys) numbers.now }
    {
        numbers
            .iter()
            .all(|number| members.contains(number) || self.is_dead(*number))
    }

    /// Marks regexes as dead.
    fn mark(&mut self, numbers: &[u64])
        requires { list_all (λ n. nat_lt n (length self.old.order)) numbers.now ≡ true }
        ensures { self.new ≡ record self.old { dead = marked numbers.now self.old.dead } }
    {
        mark(&mut self.dead, numbers);
    }

    /// The number in the arena of the regex of a node, if it is normal.
    fn made(&self, arena: &mut Arena, node: &Node) -> Result<Option<RegexId>, Fault>
        requires known { AllNumbers arena.old self.now.order }
        ensures made { IsMade arena.new
            (regex_of_node (regexes_at arena.old self.now.order) (node_in node.now)) result }
        ensures extends { Extends arena.old arena.new }
    {
        match node {
            Node::None => Ok(Some(arena.none()?)),
            Node::Eps => Ok(Some(arena.eps()?)),
            Node::Set(ranges) => self.made_set(arena, ranges),
            Node::Cat(a, b) => self.made_cat(arena, *a, *b),
            Node::Alt(numbers) => self.made_alt(arena, numbers),
            Node::And(numbers) => self.made_and(arena, numbers),
            Node::Not(a) => self.made_not(arena, *a),
            Node::Star(a) => self.made_star(arena, *a),
            Node::Rep(a, least, most) => self.made_rep(arena, *a, *least, *most),
            Node::Path(a, b) => self.made_path(arena, *a, *b),
        }
    }

    /// The number in the arena of a set, if it is normal.
    fn made_set(&self, arena: &mut Arena, ranges: &[(u64, u64)]) -> Result<Option<RegexId>, Fault>
        requires known { AllNumbers arena.old self.now.order }
        ensures made { IsMade arena.new
            (regex_of_node (regexes_at arena.old self.now.order) (set_node ranges.now)) result }
        ensures extends { Extends arena.old arena.new }
    {
        Ok(set(self.alloc, arena, ranges)?)
    }

    /// The number in the arena of a concatenation, if it is normal.
    fn made_cat(&self, arena: &mut Arena, a: u64, b: u64) -> Result<Option<RegexId>, Fault>
        requires known { AllNumbers arena.old self.now.order }
        ensures made { IsMade arena.new
            (regex_of_node (regexes_at arena.old self.now.order) (cat_node a b)) result }
        ensures extends { Extends arena.old arena.new }
    {
        let first = self.one(a)?;
        let second = self.one(b)?;
        Ok(cat(arena, first, second)?)
    }

    /// The number in the arena of a union, if it is normal.
    fn made_alt(&self, arena: &mut Arena, numbers: &[u64]) -> Result<Option<RegexId>, Fault>
        requires known { AllNumbers arena.old self.now.order }
        ensures made { IsMade arena.new
            (regex_of_node (regexes_at arena.old self.now.order) (alt_node numbers.now)) result }
        ensures extends { Extends arena.old arena.new }
    {
        let ids = self.several(numbers)?;
        Ok(alt(arena, &ids)?)
    }

    /// The number in the arena of an intersection, if it is normal.
    fn made_and(&self, arena: &mut Arena, numbers: &[u64]) -> Result<Option<RegexId>, Fault>
        requires known { AllNumbers arena.old self.now.order }
        ensures made { IsMade arena.new
            (regex_of_node (regexes_at arena.old self.now.order) (and_node numbers.now)) result }
        ensures extends { Extends arena.old arena.new }
    {
        let ids = self.several(numbers)?;
        Ok(and(arena, &ids)?)
    }

    /// The number in the arena of a complement, if it is normal.
    fn made_not(&self, arena: &mut Arena, a: u64) -> Result<Option<RegexId>, Fault>
        requires known { AllNumbers arena.old self.now.order }
        ensures made { IsMade arena.new
            (regex_of_node (regexes_at arena.old self.now.order) (not_node a)) result }
        ensures extends { Extends arena.old arena.new }
    {
        let id = self.one(a)?;
        Ok(not(arena, id)?)
    }

    /// The number in the arena of a star, if it is normal.
    fn made_star(&self, arena: &mut Arena, a: u64) -> Result<Option<RegexId>, Fault>
        requires known { AllNumbers arena.old self.now.order }
        ensures made { IsMade arena.new
            (regex_of_node (regexes_at arena.old self.now.order) (star_node a)) result }
        ensures extends { Extends arena.old arena.new }
    {
        let id = self.one(a)?;
        Ok(star(arena, id)?)
    }

    /// The number in the arena of a repetition, if it is normal.
    fn made_rep(
        &self,
        arena: &mut Arena,
        a: u64,
        least: u64,
        most: u64,
    ) -> Result<Option<RegexId>, Fault>
        requires known { AllNumbers arena.old self.now.order }
        ensures made { IsMade arena.new
            (regex_of_node (regexes_at arena.old self.now.order) (rep_node a least most)) result }
        ensures extends { Extends arena.old arena.new }
    {
        let id = self.one(a)?;
        Ok(rep(arena, id, least, most)?)
    }

    /// The number in the arena of a path, if it is normal.
    fn made_path(&self, arena: &mut Arena, a: u64, b: u64) -> Result<Option<RegexId>, Fault>
        requires known { AllNumbers arena.old self.now.order }
        ensures made { IsMade arena.new
            (regex_of_node (regexes_at arena.old self.now.order) (path_node a b)) result }
        ensures extends { Extends arena.old arena.new }
    {
        let first = self.one(a)?;
        let second = self.one(b)?;
        Ok(path(arena, first, second)?)
    }

    /// The number in the arena of the regex of a number.
    fn one(&self, number: u64) -> Result<RegexId, Fault>
        ensures { IsOne (slice_get self.now.order number) result }
    {
        match self.regex(number) {
            Some(id) => Ok(id),
            None => Err(Fault::Refused(Refusal::UnknownId)),
        }
    }

    /// The numbers in the arena of the regexes of some numbers.
    fn several(&self, numbers: &[u64]) -> Result<Vec<RegexId>, Fault>
        ensures { AreSeveral (together (map (slice_get self.now.order) numbers.now)) result }
    {
        match self.regexes(numbers)? {
            Some(ids) => Ok(ids),
            None => Err(Fault::Refused(Refusal::UnknownId)),
        }
    }

    /// The numbers in the arena of the regexes of some numbers of the proof, if each has one. Linear.
    pub fn regexes(&self, numbers: &[u64]) -> Result<Option<Vec<RegexId>>, AllocError>
        ensures { IfOk result (λ found. option_map (λ ids. ids.items) found
            ≡ together (map (slice_get self.now.order) numbers.now)) }
    {
        let mut ids = Vec::with_capacity(self.alloc, numbers.len())?;
        for number in numbers {
            match self.regex(*number) {
                Some(id) => ids.push(id)?,
                None => return Ok(None),
            }
        }
        Ok(Some(ids))
    }

    /// Keeps a normal regex, unless it is kept.
    fn add_new(&mut self, id: RegexId) -> Result<(), Fault>
        ensures added { IsAdded self.old self.new id result }
    {
        if self.order.contains(&id) {
            return Err(Fault::Refused(Refusal::Repeated));
        }
        self.add(id)?;
        Ok(())
    }

    /// Keeps a regex that is not kept, neither expanded nor dead.
    fn add(&mut self, id: RegexId) -> Result<(), AllocError>
        requires { list_any (nat_eq id) self.old.order ≡ false }
        ensures ok { OnOk result (self.new ≡ record {
          order = self.old.order ++ id ∷ [];
          expansions = self.old.expansions ++ None ∷ [];
          dead = self.old.dead ++ false ∷ [];
        }) }
        ensures err { OnErr result (self.new ≡ self.old) }
    {
        self.expansions.reserve(1)?;
        self.dead.reserve(1)?;
        self.order.insert(id)?;
        self.expansions.push(None)?;
        self.dead.push(false)?;
        Ok(())
    }
}

/// Marks the places of these numbers.
fn mark(marks: &mut Vec<bool>, numbers: &[u64])
    requires { list_all (λ n. nat_lt n (length marks.old.items)) numbers.now ≡ true }
    ensures { marks.new.items ≡ marked numbers.now marks.old.items }
{
    let mut place = numbers.len();
    while place > 0 {
        place -= 1;
        marks[numbers[place] as usize] = true;
    }
}
