//! Deciding a check: what the regexes of each constant's memberships have in common, explored.
//!
//! A constant's memberships are true of one word exactly where the intersection of their regexes has a word, and the
//! word that exploring the intersection finds is the one that a model gives. An equality of a constant with a literal
//! is a membership too, in the regex that has the literal's word alone, and what is denied is one in the complement.
//! What is known of the assertions so far is kept, so that a check takes in those that are new, and finds words of the
//! constants that they speak of: a kept word that is in the regexes of the new memberships stays, and nothing is made
//! for it. Memberships speak of no constant of sort Bool, so each of these is false. A decided assertion that is no
//! membership is taken in too, by its place alone, and while there are such ones a search is asked about them, where
//! the memberships alone don't refute the check. Assertions are taken in where all that are live are decided.

ghost use Rattle.std.specs.Prelude.{◌≡◌, ℕ, ◌<◌, ◌≤◌, [], List, Option, Some, length, map, true};
ghost use Rattle.std.specs.Prelude.{All, IfOk, OnOk, MatchOption};
ghost use Rattle.std.specs.List.{list_all};
ghost use Rattle.sb_lang.specs.Least.{IsShortestLeast};
ghost use Rattle.sb_lang.specs.Regex.{Regex};
ghost use Rattle.sb_regex.specs.Numbered.{Extends};
ghost use Rattle.sb_script.specs.State.{live, live_terms};
ghost use Rattle.sb_script.specs.Fragment.{is_decided};
ghost use Rattle.sb_store.specs.Stores.{Grows, IsStore};
ghost use Rattle.sb_stack.specs.Stacked.{Stacked, state_of, live_constants, assertion_in, HasNumberBelow};
ghost use Rattle.sb_stack.specs.Speaking.{speaks_of};
ghost use Rattle.sb_term.specs.Serials.{all_below};
ghost use Rattle.sb_decide.specs.Conjoined.{conjoined_at, with_place, without_place, RestSettled, HasRoom, IsChangedAt};
ghost use Rattle.sb_decide.specs.Deciding.{word_at};
ghost use Rattle.sb_decide.specs.Knowing.{IsTaken, IsLeastOf, AreKept, Knows};
ghost use Rattle.sb_decide.specs.Ready.{IsDecided, FindsWords};
ghost use Rattle.sb_decide.specs.Laws.{LeavesKnown};
ghost use Rattle.sb_decide.specs.Members.{AreRooted, IsEmptyAt, IsRootOf, ids_in, places_in, words_in};
ghost use Rattle.sb_decide.specs.Parting.{SetsAside};
ghost use Rattle.sb_decide.specs.Taking.{HasAll, AreWords, IsFoundAt, Searches, Stands, TakesAll, TakesIn, TakesOther, other_dead};

use crate::conjuncts::{Conjuncts, Member, conjuncts_at};
use crate::demand::{demand_of, regular_of};
use crate::parting::part;
use crate::question::hear;
use crate::standing::stands;
use indexmap::IndexSet;
use sb_fragment::{Fragment, Standing, fragment_is_of_each};
use sb_graph::Explored;
use sb_lang::constructors::{intersection_is_of_each, mkand_keeps_language};
use sb_lang::normal::normal_has_terms_words;
use sb_problem::normals_stay;
use sb_regex::{Arena, RegexId};
use sb_stack::Stack;
use sb_store::{Store, regexes_grow};
use sb_term::{Assertion, Serial, Table};
use sb_word::Word;
use std::alloc::{AllocError, Global};
use std::mem;

/// What is known of the assertions that were taken in, and of the regexes that checks have met, which stays true from
/// one check to the next.
#[derive(Drop)]
pub struct Decider {
    pub store: Store,
    /// Which live assertions are known to be decided ones.
    pub fragment: Fragment,
    /// By place what was taken in, decided assertions from the first on: the membership that each one is, `None` where
    /// it is none. Equalities with a literal count as memberships, and so does what is denied.
    pub members: Vec<Option<Member>>,
    /// By place the intersection of the constant's memberships up to this one, where a check made it.
    pub roots: Vec<Option<RegexId>>,
    /// The places of those that are no memberships, ascending.
    pub others: Vec<usize>,
    /// By serial the memberships of each constant.
    pub constants: Vec<Conjuncts>,
    /// The constants with memberships that came or went since the last check with a model, and those whose words that
    /// one had from a search: at least those whose kept words are not known to be the least ones of all their
    /// memberships.
    pub changed: Vec<Serial>,
    /// Those that changed too, and that the last check left to a search, since they occur in an assertion of other
    /// structure.
    pub left: Vec<Serial>,
    /// The constants that occur in the assertions of other structure that checks have heard, each once.
    pub spoken: IndexSet<Serial>,
    /// How many of `others` checks have heard: so many first ones.
    pub heard: usize,
    /// What the last check found of the constants in `changed`, until a model takes it over.
    pub found: Vec<Found>,
    /// A constant that is known to have no word.
    pub dead: Option<Serial>,
}

/// What a check finds of a constant: the least word of its memberships, `None` where it is the kept one.
#[derive(Drop)]
pub struct Found {
    pub serial: Serial,
    pub word: Option<Word>,
}

/// What is known of a check before any search.
#[derive(Clone, Copy)]
pub enum Decided {
    /// Not each live assertion is a decided one.
    Outside,
    /// A constant is known to have no word: no values make the live assertions true.
    Dead,
    /// Each constant that occurs in no assertion of other structure has a word by its memberships alone.
    Ready,
}

/// What a check finds of the constants that it asks for.
#[derive(Drop)]
enum Words {
    /// Each has a word.
    Found(Vec<Found>),
    /// This one has none.
    Dead(Serial),
}

impl Decider {
    /// Nothing is known. Takes no memory.
    pub fn new(alloc: Global) -> Decider
        ensures { (stack : Stacked) → stack.words ≡ [] → Knows result stack }
    {
        Decider {
            store: Store::new(alloc),
            fragment: Fragment::new(),
            members: Vec::new(alloc),
            roots: Vec::new(alloc),
            others: Vec::new(alloc),
            constants: Vec::new(alloc),
            changed: Vec::new(alloc),
            left: Vec::new(alloc),
            spoken: IndexSet::new(alloc),
            heard: 0,
            found: Vec::new(alloc),
            dead: None,
        }
    }

    /// What is known of a check of the live assertions before any search. Where a constant has no word,
    /// [`Decider::clash`] are places of assertions that refute it. Where it is ready, [`Decider::question`] says what a
    /// search is to be asked about, and [`Decider::close`] gives the words of a model.
    ///
    /// Linear in the assertions and constants that are new since the last check with a model, and in the constants that
    /// the new ones, those that were taken back, and the search of that check spoke of. The kept word of such a
    /// constant is matched with the regexes of the memberships behind those that it is known to be the least word of
    /// ([`sb_plain::Plain::matches`]), and stays where it is in all of them. Else, and where one of those was taken
    /// back, the check is linear in the constant's memberships and in what is explored; a regex that was explored
    /// before is not expanded again. Whether an assertion is decided is looked at once, in the time of
    /// [`sb_fragment::Measures::fits_structure`]. While there are some that are no memberships, the constants that
    /// occur in them are left to the search. They are found in the terms of those that are new, but for ground ones,
    /// each once, and in those of all where one was taken back since. `AllocError` only for want of memory.
    pub fn decide(&mut self, alloc: Global, stack: &Stack) -> Result<Decided, AllocError>
        requires { Knows self.old stack.now }
        ensures knows { OnOk result (Knows self.new stack.now) }
        ensures decided { IfOk result (IsDecided self.new stack.now) }
        ensures store { OnOk result (Grows stack.now.table self.old.store self.new.store) }
    {
        normal_has_terms_words();
        fragment_is_of_each();
        if !self.is_inside(stack)? {
            return Ok(Decided::Outside);
        }
        self.take_in(alloc, stack)?;
        if !self.find_words(alloc, stack)? {
            return Ok(Decided::Dead);
        }
        Ok(Decided::Ready)
    }

    /// Whether all live assertions are decided ones.
    fn is_inside(&mut self, stack: &Stack) -> Result<bool, AllocError>
        requires { Knows self.old stack.now }
        ensures { IfOk result (Stands self.old self.new stack.now) }
    {
        let standing = self.fragment.stand(
            &mut self.store.measures,
            stack.table(),
            stack.assertions(),
        )?;
        match standing {
            Standing::Inside(_) => Ok(true),
            Standing::Outside(_) => Ok(false),
        }
    }

    /// Finds the words that the constants which changed and occur in no assertion of other structure have by their
    /// memberships, where all live assertions are taken in, and answers whether each has one.
    fn find_words(&mut self, alloc: Global, stack: &Stack) -> Result<bool, AllocError>
        requires knows { Knows self.old stack.now }
        requires all { HasAll self.old stack.now }
        requires named { list_all (speaks_of (live_constants stack.now)) (live_terms (state_of stack.now)) ≡ true }
        ensures { IfOk result (FindsWords self.old self.new stack.now) }
    {
        regexes_grow();
        if self.dead.is_some() {
            return Ok(false);
        }
        self.set_aside(alloc, stack)?;
        match least_words(
            alloc,
            &mut self.store,
            &mut self.roots,
            &self.members,
            &self.constants,
            stack.words(),
            &self.changed,
        )? {
            Words::Dead(serial) => {
                self.dead = Some(serial);
                Ok(false)
            }
            Words::Found(found) => {
                self.found = found;
                Ok(true)
            }
        }
    }

    /// Finds the constants that occur in an assertion of other structure, and leaves those of them that changed to a
    /// search.
    fn set_aside(&mut self, alloc: Global, stack: &Stack) -> Result<(), AllocError>
        requires knows { Knows self.old stack.now }
        requires all { HasAll self.old stack.now }
        ensures { OnOk result (SetsAside self.old self.new stack.now) }
    {
        let others = self.others.as_slice();
        hear(
            alloc,
            &mut self.store.measures,
            stack.table(),
            stack.assertions(),
            &others[self.heard..],
            &mut self.spoken,
        )?;
        self.heard = self.others.len();
        let mut all = mem::replace(&mut self.changed, Vec::new(alloc));
        all.extend_from_slice(self.left.as_slice())?;
        self.left.clear();
        let spoken = &self.spoken;
        part(all.as_slice(), spoken, &mut self.changed, &mut self.left)?;
        Ok(())
    }

    /// Takes assertions back from the end: the first `count` stay, and what is known of them, as what is known of terms
    /// and regexes does. Linear in the assertions that were taken in and are taken back, and in the constants of
    /// `spoken` where one of these was heard. `AllocError` only for want of memory.
    pub fn leave(&mut self, count: usize) -> Result<(), AllocError>
        ensures knows { OnOk result (LeavesKnown count self.old self.new) }
        ensures store { self.new.store ≡ self.old.store }
    {
        normals_stay();
        while self.members.len() > count {
            self.take_last_back()?;
        }
        self.fragment.leave(count);
        Ok(())
    }

    /// Takes in the assertions that are new, which are decided ones. Linear in them, and in the constants that are new.
    fn take_in(&mut self, alloc: Global, stack: &Stack) -> Result<(), AllocError>
        requires knows { Knows self.old stack.now }
        requires decided { list_all is_decided (live (state_of stack.now)) ≡ true }
        ensures { OnOk result (TakesAll self.old self.new stack.now) }
    {
        let assertions = stack.assertions();
        let table = stack.table();
        make_room(alloc, &mut self.constants, stack.declared())?;
        while self.members.len() < assertions.len() {
            self.take_one(table, assertions)?;
        }
        Ok(())
    }

    /// Takes in the next assertion, which is a decided one.
    fn take_one(&mut self, table: &Table, assertions: &[Assertion]) -> Result<(), AllocError>
        requires more { length self.old.members.items < length assertions.now }
        requires numbers { All (HasNumberBelow (length table.now)) assertions.now }
        requires decided { list_all is_decided (map (assertion_in table.now) assertions.now) ≡ true }
        requires serials { all_below (length self.old.constants.items) table.now ≡ true }
        requires taken { IsTaken self.old table.now assertions.now }
        ensures { OnOk result (TakesIn self.old self.new table.now assertions.now) }
    {
        let place = self.members.len();
        let assertion = &assertions[place];
        let Some(term) = assertion.term else {
            unreachable!();
        };
        let Some(demand) = demand_of(table, term) else {
            self.take_other()?;
            return Ok(());
        };
        let serial = demand.serial;
        let regex = regular_of(table, &mut self.store, demand)?;
        self.members.push(Some(Member { serial, regex }))?;
        self.roots.push(None)?;
        put(&mut self.constants, &mut self.changed, serial, place)?;
        Ok(())
    }

    /// Takes in the next assertion, which asks for no constant's word alone.
    fn take_other(&mut self) -> Result<(), AllocError>
        ensures { OnOk result (TakesOther self.old self.new) }
    {
        let place = self.members.len();
        self.others.push(place)?;
        self.members.push(None)?;
        self.roots.push(None)?;
        Ok(())
    }

    /// Takes the last one of the assertions that were taken in back, if there is one.
    fn take_last_back(&mut self) -> Result<(), AllocError>
        ensures knows { OnOk result ((stack : Stacked) → Knows self.old stack → Knows self.new stack) }
        ensures fewer { 0 < length self.old.members.items
            → length self.new.members.items < length self.old.members.items }
        ensures same { self.new.store ≡ self.old.store }
    {
        let Some(last) = self.members.pop() else {
            return Ok(());
        };
        self.roots.pop();
        let Some(member) = last else {
            self.others.pop();
            if self.heard <= self.others.len() {
                return Ok(());
            }
            self.heard = 0;
            self.spoken.clear();
            return Ok(());
        };
        self.dead = other_dead(self.dead, member.serial);
        if member.serial.0 as usize >= self.constants.len() {
            return Ok(());
        }
        put_back(&mut self.constants, &mut self.changed, member.serial)?;
        unlist(&self.constants, &mut self.changed, member.serial);
        Ok(())
    }
}

/// The constant without a word, where it is not this one.
fn other_dead(dead: Option<Serial>, serial: Serial) -> Option<Serial>
    ensures { result ≡ other_dead dead serial.0 }
{
    match dead {
        Some(dead) if dead.0 != serial.0 => Some(dead),
        _ => None,
    }
}

/// Room for so many constants, of which those that are new have no memberships.
fn make_room(alloc: Global, constants: &mut Vec<Conjuncts>, count: usize) -> Result<(), AllocError>
    requires { length constants.old.items ≤ count }
    ensures { OnOk result (HasRoom count constants.old.items constants.new.items) }
{
    while constants.len() < count {
        constants.push(Conjuncts::new(alloc))?;
    }
    Ok(())
}

/// Takes one more membership of a constant into account.
fn put(
    constants: &mut [Conjuncts],
    changed: &mut Vec<Serial>,
    serial: Serial,
    place: usize,
) -> Result<(), AllocError>
    requires within { serial.0 < length constants.old }
    requires listed { All (λ other. other.0 < length constants.old) changed.old.items }
    ensures put { OnOk result (IsChangedAt constants.old constants.new serial.0
        (with_place place (conjoined_at constants.old serial.0))) }
    ensures settled { OnOk result ((left : List Serial) → RestSettled left changed.old.items constants.old
        → RestSettled left changed.new.items constants.new) }
    ensures listed { OnOk result (All (λ other. other.0 < length constants.old) changed.new.items) }
{
    let conjuncts = &mut constants[serial.0 as usize];
    if conjuncts.is_settled() {
        changed.push(serial)?;
    }
    conjuncts.push(place)
}

/// Takes the last membership of a constant out of account.
fn put_back(
    constants: &mut [Conjuncts],
    changed: &mut Vec<Serial>,
    serial: Serial,
) -> Result<(), AllocError>
    requires within { serial.0 < length constants.old }
    ensures put { OnOk result (IsChangedAt constants.old constants.new serial.0
        (without_place (conjoined_at constants.old serial.0))) }
    ensures settled { OnOk result ((left : List Serial) → RestSettled left changed.old.items constants.old
        → RestSettled left changed.new.items constants.new) }
    ensures listed { OnOk result (All (λ other. other.0 < length constants.old) changed.old.items
        → All (λ other. other.0 < length constants.old) changed.new.items) }
{
    let conjuncts = &mut constants[serial.0 as usize];
    if conjuncts.is_settled() {
        changed.push(serial)?;
    }
    conjuncts.pop();
    Ok(())
}

/// Takes a constant that has its word out of the list, where it is the last one there. Takes no memory.
fn unlist(constants: &[Conjuncts], changed: &mut Vec<Serial>, serial: Serial)
    ensures settled { (left : List Serial) → RestSettled left changed.old.items constants.now
        → RestSettled left changed.new.items constants.now }
    ensures listed { (n : ℕ) → All (λ other. other.0 < n) changed.old.items
        → All (λ other. other.0 < n) changed.new.items }
{
    let Some(conjuncts) = constants.get(serial.0 as usize) else {
        return;
    };
    if !conjuncts.is_settled() {
        return;
    }
    let Some(last) = changed.last() else {
        return;
    };
    let same = last.0 == serial.0;
    if !same {
        return;
    }
    changed.pop();
}

/// The least word of each of these constants, or one that has none. The intersections that are made are kept.
fn least_words(
    alloc: Global,
    store: &mut Store,
    roots: &mut Vec<Option<RegexId>>,
    members: &[Option<Member>],
    constants: &[Conjuncts],
    words: &[Word],
    changed: &[Serial],
) -> Result<Words, AllocError>
    requires rooted { AreRooted store.old.arena members.now roots.old.items }
    requires places { (n : ℕ) → (conjoined_at constants.now n).places ≡ places_in 0 n members.now }
    requires listed { All (λ serial. serial.0 < length constants.now) changed.now }
    requires kept { AreKept store.old.arena members.now constants.now words.now }
    requires store { IsStore store.old }
    ensures words { IfOk result (AreWords store.new.arena members.now constants.now words.now changed.now) }
    ensures searches { Searches members.now store.old store.new roots.new.items }
{
    let mut found = Vec::new(alloc);
    for serial in changed {
        let place = serial.0 as usize;
        let conjuncts = &constants[place];
        let Some(one) = find_word(alloc, store, roots, members, words, *serial, conjuncts)? else {
            return Ok(Words::Dead(*serial));
        };
        found.push(one)?;
    }
    Ok(Words::Found(found))
}

/// What a check finds of a constant: the kept word, where it stands, or the least one; `None` where it has none.
fn find_word(
    alloc: Global,
    store: &mut Store,
    roots: &mut Vec<Option<RegexId>>,
    members: &[Option<Member>],
    words: &[Word],
    serial: Serial,
    conjuncts: &Conjuncts,
) -> Result<Option<Found>, AllocError>
    requires rooted { AreRooted store.old.arena members.now roots.old.items }
    requires places { conjuncts.now.places ≡ places_in 0 serial.0 members.now }
    requires kept { (k : ℕ) → conjuncts.now.known ≡ Some k
        → IsLeastOf store.old.arena (ids_in members.now serial.0) k (word_at words.now serial.0) }
    requires store { IsStore store.old }
    ensures found { IfOk result (λ found. MatchOption found (IsEmptyAt store.new.arena members.now serial.0)
        (IsFoundAt store.new.arena members.now words.now serial)) }
    ensures searches { Searches members.now store.old store.new roots.new.items }
{
    let stays = stands(store, members, words, serial, conjuncts)?;
    if stays {
        return Ok(Some(Found { serial, word: None }));
    }
    let places = conjuncts.places();
    let Some(word) = least_word(alloc, store, roots, members, serial, places)? else {
        return Ok(None);
    };
    Ok(Some(Found {
        serial,
        word: Some(word),
    }))
}

/// The shortest word of all regexes of a constant, the least by code points among the shortest; `None` where it has
/// none. Their intersection is kept.
fn least_word(
    alloc: Global,
    store: &mut Store,
    roots: &mut Vec<Option<RegexId>>,
    members: &[Option<Member>],
    serial: Serial,
    places: &[usize],
) -> Result<Option<Word>, AllocError>
    requires rooted { AreRooted store.old.arena members.now roots.old.items }
    requires places { places.now ≡ places_in 0 serial.0 members.now }
    requires store { IsStore store.old }
    ensures found { IfOk result (λ found. MatchOption found (IsEmptyAt store.new.arena members.now serial.0)
        (IsShortestLeast (words_in store.new.arena members.now serial.0))) }
    ensures searches { Searches members.now store.old store.new roots.new.items }
{
    regexes_grow();
    let root = root_of(alloc, &mut store.arena, roots, members, serial, places)?;
    match store.graph.least_word(&mut store.arena, root)? {
        Explored::Alive(word) => Ok(Some(word)),
        Explored::Dead => Ok(None),
    }
}

/// The intersection of all regexes of a constant, which is kept.
fn root_of(
    alloc: Global,
    arena: &mut Arena,
    roots: &mut Vec<Option<RegexId>>,
    members: &[Option<Member>],
    serial: Serial,
    places: &[usize],
) -> Result<RegexId, AllocError>
    requires rooted { AreRooted arena.old members.now roots.old.items }
    requires places { places.now ≡ places_in 0 serial.0 members.now }
    ensures root { IfOk result (IsRootOf arena.new members.now serial.0) }
    ensures rooted { AreRooted arena.new members.now roots.new.items }
    ensures extends { Extends arena.old arena.new }
{
    mkand_keeps_language();
    intersection_is_of_each();
    let ids = conjuncts_at(alloc, members, roots, places)?;
    let root = arena.and(&ids)?;
    keep_root(roots, places, root);
    Ok(root)
}

/// Keeps the intersection of all memberships of a constant at the last of their places, if there is one.
fn keep_root(roots: &mut Vec<Option<RegexId>>, places: &[usize], root: RegexId)
    requires within { All (λ place. place < length roots.old.items) places.now }
    ensures { (rs : List Regex) (ms : List (Option Member)) (n : ℕ) → places.now ≡ places_in 0 n ms
        → IsRootOf rs ms n root → AreRooted rs ms roots.old.items → AreRooted rs ms roots.new.items }
{
    let Some((place, _)) = places.split_last() else {
        return;
    };
    roots[*place] = Some(root);
}
