//! Each kept clause stands in a list, under one of its literals.

ghost use Rattle.std.specs.Prelude.{◌≡◌, ◌⊎◌, ℕ, List, Option, ◌+◌, ◌-◌, ◌^◌, ◌<◌, ◌≤◌, [], length, map, true, false, slice_index_or, Some, None, IfOk, OnOk, IfSome, MatchOption};
ghost use Rattle.std.specs.List.{list_all};
ghost use Rattle.std.specs.HashSet.{contains};
ghost use Rattle.sb_lit.specs.declared.clause.Lit.{Lit as TheLit};
ghost use Rattle.sb_lit.specs.Clauses.{negation, is_among};
ghost use Rattle.sb_clauses.specs.declared.occurrences.Node.{Node as TheNode};
ghost use Rattle.sb_lit.specs.Kept.{Kept, kept_at};
ghost use Rattle.sb_clauses.specs.Records.{kept_of, clause_of};
ghost use Rattle.sb_clauses.specs.Watching.{is_small, list_of};
ghost use Rattle.sb_clauses.specs.Propagation.{IsConflict, HasNoneFalse};
ghost use Rattle.sb_clauses.specs.Occurring.{are_equal, node_at, head_at, IsHome, AreFound, AreSame, IsLed, IsPut, IsWider, are_false_by, is_false_place, HasNoneIn};
ghost use Rattle.std.specs.Option.{option_map};

use crate::links::{Link, Links, NUMBERS};
use crate::record::Record;
use crate::watches::{SHORT, list_among, list_of};
use sb_lit::{ClauseId, Lit};
use sb_trail::CompactLit;
use std::alloc::{AllocError, Global};
use std::collections::HashSet;

/// Where the number of a clause stands.
#[derive(Clone, Copy)]
pub struct Node {
    pub list: u32,
    /// The number that came to the list before it.
    pub before: Link,
    /// The number that came to the list behind it. It is only asked whether it leads here.
    pub behind: Link,
}

/// The lists, by literal: the newest number of each, and where each number stands.
#[derive(Drop)]
pub struct Occurrences {
    pub heads: Links,
    pub nodes: Vec<Node>,
}

impl Occurrences {
    /// No lists. Takes no memory.
    pub fn new(alloc: Global) -> Occurrences
        ensures heads { result.heads ≡ [] }
        ensures nodes { result.nodes.items ≡ [] }
    {
        Occurrences {
            heads: Links::new(alloc),
            nodes: Vec::new(alloc),
        }
    }

    /// Makes room for the numbers below `numbers`, and for so many lists; 2 ^ 32 or more of either are an error.
    pub fn make_room(&mut self, numbers: usize, lists: usize) -> Result<(), AllocError>
        ensures wider { IsWider self.old.heads self.old.nodes.items self.new.heads self.new.nodes.items }
        ensures nodes { OnOk result (numbers ≤ length self.new.nodes.items) }
        ensures heads { OnOk result (lists ≤ length self.new.heads) }
        ensures small { OnOk result ((numbers < 2 ^ 32) × (lists < 2 ^ 32)) }
    {
        if numbers > NUMBERS || lists > NUMBERS {
            return Err(AllocError);
        }
        grow_heads(&mut self.heads, lists)?;
        grow_nodes(&mut self.nodes, numbers)
    }

    /// Puts a number in front of a list. Takes no memory; constant time.
    pub fn put(&mut self, number: usize, list: usize)
        requires number { number < length self.old.nodes.items }
        requires list { list < length self.old.heads }
        requires small { (number < 2 ^ 32 - 1) × (list < 2 ^ 32) }
        ensures { IsPut self.old.heads self.old.nodes.items self.new.heads self.new.nodes.items number
            list }
    {
        let before = Link::new(self.heads.get(list));
        set_behind(&mut self.nodes, before, Link::new(Some(number)));
        self.nodes[number] = Node {
            list: list as u32,
            before,
            behind: Link::new(None),
        };
        self.heads.set(list, Some(number));
    }

    /// Takes the number of a clause that is dropped off its list. Takes no memory; constant time.
    pub fn remove(&mut self, number: usize)
        ensures { (kept : Kept) → kept_at kept number ≡ None → number < length kept
            → AreFound kept self.old.heads self.old.nodes.items
            → AreFound kept self.new.heads self.new.nodes.items }
    {
        if number >= self.nodes.len() {
            return;
        }
        let Node {
            list,
            before,
            behind,
        } = self.nodes[number];
        set_behind(&mut self.nodes, before, behind);
        if !pass_over(&mut self.nodes, behind, number, before) {
            begin_behind(&mut self.heads, list as usize, number, before.number());
        }
    }
}

/// Fills up with empty lists.
fn grow_heads(heads: &mut Links, lists: usize) -> Result<(), AllocError>
    ensures same { (list : ℕ) → head_at heads.new list ≡ head_at heads.old list }
    ensures room { OnOk result (lists ≤ length heads.new) }
{
    heads.grow(lists)
}

/// Fills up with places of numbers.
fn grow_nodes(nodes: &mut Vec<Node>, numbers: usize) -> Result<(), AllocError>
    ensures more { length nodes.old.items ≤ length nodes.new.items }
    ensures same { (k : ℕ) → k < length nodes.old.items → node_at nodes.new.items k ≡ node_at nodes.old.items k }
    ensures room { OnOk result (numbers ≤ length nodes.new.items) }
{
    if numbers > nodes.len() {
        let empty = Node {
            list: 0,
            before: Link::new(None),
            behind: Link::new(None),
        };
        nodes.resize(numbers, empty)?;
    }
    Ok(())
}

/// Says of a number which one is behind it.
fn set_behind(nodes: &mut Vec<Node>, at: Link, behind: Link)
    ensures { AreSame nodes.old.items nodes.new.items }
{
    let Some(number) = at.number() else {
        return;
    };
    if number < nodes.len() {
        nodes[number].behind = behind;
    }
}

/// Leads from the number behind this one to the one before it, where it led to this one, and says whether it did.
fn pass_over(nodes: &mut Vec<Node>, behind: Link, number: usize, before: Link) -> bool
    requires before { (node_at nodes.old.items number).before ≡ before }
    ensures same { result ≡ false → nodes.new.items ≡ nodes.old.items }
    ensures found { (kept : Kept) → kept_at kept number ≡ None → number < length kept → (heads : List (Option ℕ))
        → AreFound kept heads nodes.old.items → AreFound kept heads nodes.new.items }
{
    let Some(newer) = behind.number() else {
        return false;
    };
    if !is_led(nodes, newer, number) {
        return false;
    }
    lead(nodes, newer, before);
    true
}

/// Whether a number leads to another one.
fn is_led(nodes: &[Node], newer: usize, number: usize) -> bool
    ensures { result ≡ true → (newer < length nodes.now) × ((node_at nodes.now newer).before ≡ Some number) }
{
    if newer >= nodes.len() {
        return false;
    }
    match nodes[newer].before.number() {
        Some(before) => before == number,
        None => false,
    }
}

/// Leads from a number to another one.
fn lead(nodes: &mut Vec<Node>, at: usize, before: Link)
    requires { at < length nodes.old.items }
    ensures { IsLed nodes.old.items nodes.new.items at before }
{
    nodes[at].before = before;
}

/// Begins the list with the number before this one, where it began with this one.
fn begin_behind(heads: &mut Links, list: usize, number: usize, before: Option<usize>)
    ensures { (kept : Kept) → kept_at kept number ≡ None → number < length kept → (nodes : List TheNode)
        → (node_at nodes number).before ≡ before → (node_at nodes number).list ≡ list
        → AreFound kept heads.old nodes → AreFound kept heads.new nodes }
{
    if list >= heads.len() || !fits(before) {
        return;
    }
    if heads.get(list) == Some(number) {
        heads.set(list, before);
    }
}

/// Whether a table of numbers may have it.
fn fits(number: Option<usize>) -> bool
    ensures { result ≡ true → IfSome number (λ number. number < 2 ^ 32 - 1) }
{
    match number {
        Some(number) => number < NUMBERS,
        None => true,
    }
}

/// The list for a clause: of the literal whose list was put a number to the longest ago.
pub fn home_for(heads: &Links, clause: &[Lit]) -> usize
    requires { list_all is_small clause.now ≡ true }
    ensures { IsHome clause.now result }
{
    let mut home = None;
    for literal in clause {
        home = Some(older(heads, list_of(*literal), home));
    }
    home.unwrap_or(SHORT)
}

/// Of two lists the one that was put a number to longer ago.
fn older(heads: &Links, list: usize, other: Option<usize>) -> usize
    ensures { (result ≡ list) ⊎ (other ≡ Some result) }
{
    match other {
        Some(home) => {
            if is_older(heads, home, list) {
                home
            } else {
                list
            }
        }
        None => list,
    }
}

/// Whether a list was put a number to longer ago than another one.
fn is_older(heads: &Links, list: usize, other: usize) -> bool {
    match (head(heads, list), head(heads, other)) {
        (Some(newest), Some(than)) => newest < than,
        (None, _) => true,
        (Some(_), None) => false,
    }
}

/// The newest number of a list.
fn head(heads: &Links, list: usize) -> Option<usize>
    ensures { result ≡ head_at heads.now list }
{
    if list < heads.len() {
        heads.get(list)
    } else {
        None
    }
}

/// The set of these literals.
fn set_of(alloc: Global, literals: &[Lit]) -> Result<HashSet<Lit>, AllocError>
    ensures { IfOk result (λ all. (l : TheLit) → contains are_equal all l ≡ is_among literals.now l) }
{
    let mut all = HashSet::new(alloc);
    for literal in literals {
        all.insert(*literal)?;
    }
    Ok(all)
}

/// Whether there is a clause that is false where the literals of the set are true.
fn is_false_place(place: &Option<Record>, all: &HashSet<Lit>) -> bool
    ensures { result ≡ is_false_place (contains are_equal all.now) (option_map clause_of place.now) }
{
    match place {
        Some(record) => are_false(record.literals.as_slice(), all),
        None => false,
    }
}

/// Whether the literals are all false where those of the set are true.
fn are_false(literals: &[CompactLit], all: &HashSet<Lit>) -> bool
    ensures { result ≡ are_false_by (contains are_equal all.now) literals.now }
{
    literals
        .iter()
        .all(|literal| all.contains(&literal.literal().negated()))
}

/// The newest clause of a list that is false where the literals of the set are true.
fn false_in(
    records: &[Option<Record>],
    heads: &Links,
    nodes: &[Node],
    all: &HashSet<Lit>,
    list: usize,
) -> Option<usize>
    requires { AreFound (kept_of records.now) heads.now nodes.now }
    ensures { MatchOption result (HasNoneIn (kept_of records.now) nodes.now (contains are_equal all.now) list)
        (λ id. is_false_place (contains are_equal all.now) (kept_at (kept_of records.now) id) ≡ true) }
{
    let mut next = head(heads, list);
    while let Some(number) = next {
        if is_false_place(&records[number], all) {
            return Some(number);
        }
        next = nodes[number].before.number();
    }
    None
}

/// A clause of the literal's list that is false where the literals of the set are true.
fn false_of(
    records: &[Option<Record>],
    heads: &Links,
    nodes: &[Node],
    all: &HashSet<Lit>,
    literal: Lit,
) -> Option<usize>
    requires { AreFound (kept_of records.now) heads.now nodes.now }
    ensures { MatchOption result
        (HasNoneIn (kept_of records.now) nodes.now (contains are_equal all.now) (list_of literal))
        (λ id. is_false_place (contains are_equal all.now) (kept_at (kept_of records.now) id) ≡ true) }
{
    match list_among(literal, heads.len()) {
        Some(list) => false_in(records, heads, nodes, all, list),
        None => None,
    }
}

/// A clause of the lists of the literals' negations that is false where the literals of the set are true.
fn false_of_any(
    records: &[Option<Record>],
    heads: &Links,
    nodes: &[Node],
    all: &HashSet<Lit>,
    literals: &[Lit],
) -> Option<usize>
    requires { AreFound (kept_of records.now) heads.now nodes.now }
    ensures { MatchOption result ((l : TheLit) → is_among literals.now l ≡ true
        → HasNoneIn (kept_of records.now) nodes.now (contains are_equal all.now) (list_of (negation l)))
        (λ id. is_false_place (contains are_equal all.now) (kept_at (kept_of records.now) id) ≡ true) }
{
    for literal in literals {
        let found = false_of(records, heads, nodes, all, literal.negated());
        if found.is_some() {
            return found;
        }
    }
    None
}

/// A kept clause that is false where the literals are true. Looks at the clauses alone that stand in the lists of the
/// literals' negations, and at those without literals.
pub fn false_where(
    alloc: Global,
    records: &[Option<Record>],
    heads: &Links,
    nodes: &[Node],
    literals: &[Lit],
) -> Result<Option<ClauseId>, AllocError>
    requires { AreFound (kept_of records.now) heads.now nodes.now }
    ensures { IfOk result (λ found. MatchOption found (HasNoneFalse (kept_of records.now) literals.now)
        (λ id. IsConflict (kept_of records.now) literals.now id.0)) }
{
    let all = set_of(alloc, literals)?;
    let bare = false_in(records, heads, nodes, &all, SHORT);
    if let Some(number) = bare {
        return Ok(Some(ClauseId(number as u64)));
    }
    match false_of_any(records, heads, nodes, &all, literals) {
        Some(number) => Ok(Some(ClauseId(number as u64))),
        None => Ok(None),
    }
}
