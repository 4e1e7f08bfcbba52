//! What was learnt of regexes: their derivatives and cut points, by number.

ghost use Rattle.std.specs.Prelude.{◌≡◌, ◌<◌, ◌≤◌, ℕ, List, true, false, [], ◌∷◌, length, map, take, get_or, slice_get, nat_lt, IfOk, OnOk, Some, None, IsSome, option_copied, option_map, All};
ghost use Rattle.std.specs.List.{list_any};
ghost use Rattle.sb_word.specs.Words.{IsWord};
ghost use Rattle.sb_lang.specs.Regex.{Regex};
ghost use Rattle.sb_lang.specs.Derivative.{nd, nd_along};
ghost use Rattle.sb_regex.specs.Numbered.{regex_at, Extends, Names};
ghost use Rattle.sb_plain.specs.CutPoints.{ArePoints, AreCutPoints};
ghost use Rattle.sb_plain.specs.Memory.{LearntIsRight, IsStay, place_of, points_of};
ghost use Rattle.sb_plain.specs.Making.{stretch, found, is_found, target_at, AreFound, IsWanted, IsShape, IsPlaceFor, PlacesExist, ListsAreKept, Covers};

use crate::points::{Points, merge};
use crate::shape::{Operation, Shape, shape_of};
use crate::walked::Stay;
use indexmap::IndexMap;
use sb_regex::{Arena, Node, RegexId};
use std::alloc::{AllocError, Global};
use std::collections::BTreeSet;
use std::marker::Model;

/// So many members of unions are looked at in any case, before a walk by whole derivatives is given up.
const FEW: usize = 16;

/// The derivatives and cut points that are remembered, of regexes of one arena.
#[derive(Drop)]
pub(crate) struct Learnt {
    /// Lists of cut points. Regexes whose points come from one other regex have that one's list.
    lists: Vec<Points>,
    /// By number of regex the place of its list.
    places: Vec<Option<usize>>,
    /// By a regex and one of its cut points, or 0: the derivative by the characters from there up to the next one.
    derivatives: IndexMap<(RegexId, u32), RegexId>,
}

impl Model for Learnt {
    ghost use Rattle.std.specs.Prelude.{ℕ, List, Option};

    ghost Value = { List (List ℕ) × (List (Option ℕ) × List ((ℕ × ℕ) × ℕ)) };

    ghost view = { λ learnt. (learnt.lists.items, (learnt.places.items, learnt.derivatives.entries)) };
}

impl Learnt {
    /// Nothing is remembered. Takes no memory.
    pub(crate) fn new(alloc: Global) -> Learnt
        ensures { (rs : List Regex) → LearntIsRight rs result }
    {
        Learnt {
            lists: Vec::new(alloc),
            places: Vec::new(alloc),
            derivatives: IndexMap::new(alloc),
        }
    }

    /// The derivative by a character.
    pub(crate) fn plain_derivative(
        &mut self,
        arena: &mut Arena,
        r: RegexId,
        c: u32,
    ) -> Result<RegexId, AllocError>
        requires known { r < length arena.old }
        requires character { c ≤ 0x2ffff }
        requires right { LearntIsRight arena.old self.old }
        ensures ok { IfOk result (λ id. Names arena.new id (nd (regex_at arena.old r) c)) }
        ensures extends { Extends arena.old arena.new }
        ensures right { LearntIsRight arena.new self.new }
    {
        if let Some(id) = self.found(r, c) {
            return Ok(id);
        }
        self.learn(arena, r, c)?;
        Ok(self.derivative(r, c))
    }

    /// A copy of the cut points of a regex.
    pub(crate) fn cut_points(
        &mut self,
        arena: &mut Arena,
        r: RegexId,
    ) -> Result<Vec<u32>, AllocError>
        requires known { r < length arena.old }
        requires right { LearntIsRight arena.old self.old }
        ensures ok { IfOk result (λ points. AreCutPoints (regex_at arena.old r) points.items) }
        ensures extends { Extends arena.old arena.new }
        ensures right { LearntIsRight arena.new self.new }
    {
        self.learn(arena, r, 0)?;
        self.copy_points(r)
    }

    /// The walk along the characters from where it stays on: to their end, or up to a union whose derivative is not
    /// known, once members of such unions were looked at that are a quarter as many as the characters.
    pub(crate) fn walk_on(
        &mut self,
        arena: &mut Arena,
        codes: &[u32],
        begun: Stay,
    ) -> Result<Stay, AllocError>
        requires known { begun.rest < length arena.old }
        requires begins { begun.from ≤ begun.to }
        requires word { IsWord codes.now }
        requires right { LearntIsRight arena.old self.old }
        ensures begins { IfOk result (λ stay. stay.from ≤ stay.to) }
        ensures stay { IfOk result (λ stay. (n : ℕ) → n < length arena.old → IsStay arena.old n codes.now begun
            → IsStay arena.new n codes.now stay) }
        ensures extends { Extends arena.old arena.new }
        ensures right { LearntIsRight arena.new self.new }
    {
        let mut stay = begun;
        let mut left = codes.len() / 4 + FEW;
        while stay.to < codes.len() {
            let c = codes[stay.to];
            let members = self.unknown_members(arena, stay.rest, c);
            if members > left {
                return Ok(stay);
            }
            left -= members;
            let rest = self.plain_derivative(arena, stay.rest, c)?;
            let to = stay.to + 1;
            stay = stay.on(to, rest);
        }
        Ok(stay)
    }

    /// The number of the members of a union whose derivative is not known; of another regex it is 0.
    fn unknown_members(&self, arena: &Arena, id: RegexId, c: u32) -> usize
        requires { id < length arena.now }
    {
        match arena.node(id) {
            Node::Alt(parts) => { if self.is_found(id, c) { 0 } else { parts.len() } }
            _ => 0,
        }
    }

    /// The derivative along characters.
    pub(crate) fn along(
        &mut self,
        arena: &mut Arena,
        codes: &[u32],
        r: RegexId,
    ) -> Result<RegexId, AllocError>
        requires known { r < length arena.old }
        requires word { IsWord codes.now }
        requires right { LearntIsRight arena.old self.old }
        ensures ok { IfOk result (λ id. Names arena.new id (nd_along (regex_at arena.old r) codes.now)) }
        ensures extends { Extends arena.old arena.new }
        ensures right { LearntIsRight arena.new self.new }
    {
        let mut rest = r;
        for c in codes {
            rest = self.plain_derivative(arena, rest, *c)?;
        }
        Ok(rest)
    }

    /// Makes the derivative by a character known, with the cut points of the regex.
    fn learn(&mut self, arena: &mut Arena, r: RegexId, c: u32) -> Result<(), AllocError>
        requires known { r < length arena.old }
        requires character { c ≤ 0x2ffff }
        requires right { LearntIsRight arena.old self.old }
        ensures done { OnOk result (is_found self.new c r ≡ true) }
        ensures extends { Extends arena.old arena.new }
        ensures right { LearntIsRight arena.new self.new }
    {
        make_room(&mut self.places, r.number())?;
        let mut waiting = BTreeSet::new(self.allocator());
        let mut next = r;
        while !self.is_found(r, c) {
            let _added = self.advance(arena, next, c, &mut waiting)?;
            next = waiting.pop_first().unwrap_or(r);
        }
        Ok(())
    }

    /// Makes the derivative of a regex known, or lets parts of it wait, and then the regex too. Whether it is known.
    fn advance(
        &mut self,
        arena: &mut Arena,
        id: RegexId,
        c: u32,
        waiting: &mut BTreeSet<RegexId>,
    ) -> Result<bool, AllocError>
        requires known { id < length arena.old }
        requires character { c ≤ 0x2ffff }
        requires room { id < length self.old.1.0 }
        requires right { LearntIsRight arena.old self.old }
        ensures extends { Extends arena.old arena.new }
        ensures right { LearntIsRight arena.new self.new }
        ensures long { length self.new.1.0 ≡ length self.old.1.0 }
        ensures elsewhere { (n : ℕ) → (n ≡ id → ⊥) → found self.new n c ≡ found self.old n c }
        ensures added { IfOk result (λ added. added ≡ true
            → (is_found self.new c id ≡ true) × (waiting.new.keys ≡ waiting.old.keys)) }
        ensures same { IfOk result (λ added. added ≡ false → self.new ≡ self.old) }
        ensures waits { IfOk result (λ added. added ≡ false → list_any (λ q. nat_lt q id) waiting.new.keys ≡ true) }
        ensures wanted { IfOk result (λ added. added ≡ false → is_found self.old c id ≡ false → (n : ℕ) → id < n
            → All (IsWanted n self.old c) waiting.old.keys → All (IsWanted n self.old c) waiting.new.keys) }
    {
        let shape = shape_of(self.allocator(), arena, id)?;
        let mut targets = Vec::new(self.allocator());
        if self.want(&shape.parts, c, &mut targets, waiting)? {
            waiting.insert(id)?;
            return Ok(false);
        }
        self.learn_points(arena, id, &shape.operation, &shape.parts)?;
        self.learn_derivative(arena, id, c, &shape, &targets)?;
        Ok(true)
    }

    pub(crate) fn allocator(&self) -> Global {
        *self.places.allocator()
    }

    /// Gives the derivatives of the parts by a character, as far as they are known; the other parts wait. Whether there
    /// are such.
    fn want(
        &self,
        parts: &[RegexId],
        c: u32,
        targets: &mut Vec<RegexId>,
        waiting: &mut BTreeSet<RegexId>,
    ) -> Result<bool, AllocError>
        requires { targets.old.items ≡ [] }
        ensures none { IfOk result (λ some. some ≡ false → AreFound self.now c parts.now) }
        ensures targets { IfOk result
            (λ some. some ≡ false → targets.new.items ≡ map (target_at self.now c) parts.now) }
        ensures idle { IfOk result (λ some. some ≡ false → waiting.new.keys ≡ waiting.old.keys) }
        ensures waits { IfOk result (λ some. some ≡ true → (n : ℕ) → All (λ i. i < n) parts.now
            → list_any (λ q. nat_lt q n) waiting.new.keys ≡ true) }
        ensures added { OnOk result ((n : ℕ) → All (λ i. i < n) parts.now
            → All (IsWanted n self.now c) waiting.old.keys → All (IsWanted n self.now c) waiting.new.keys) }
    {
        let mut some = false;
        for part in parts {
            match self.found(*part, c) {
                Some(target) => targets.push(target)?,
                None => {
                    waiting.insert(*part)?;
                    some = true;
                }
            }
        }
        Ok(some)
    }

    /// Makes the cut points of a regex known, if they are not.
    fn learn_points(
        &mut self,
        arena: &Arena,
        id: RegexId,
        operation: &Operation,
        parts: &[RegexId],
    ) -> Result<(), AllocError>
        requires known { id < length arena.now }
        requires room { id < length self.old.1.0 }
        requires right { LearntIsRight arena.now self.old }
        requires shape { IsShape arena.now id operation.now parts.now }
        requires parts { All (λ n. IsSome (place_of self.old n)) parts.now }
        ensures right { LearntIsRight arena.now self.new }
        ensures done { OnOk result (IsSome (place_of self.new id)) }
        ensures long { length self.new.1.0 ≡ length self.old.1.0 }
        ensures elsewhere { (n c : ℕ) → (n ≡ id → ⊥) → found self.new n c ≡ found self.old n c }
        ensures kept { (n c : ℕ) → is_found self.old c n ≡ true → found self.new n c ≡ found self.old n c }
    {
        if self.place(id).is_some() {
            return Ok(());
        }
        let place = self.place_for(operation, parts)?;
        self.places[id.number()] = Some(place);
        Ok(())
    }

    /// Makes the derivative of a regex known, where its cut points and the derivatives of its parts are.
    fn learn_derivative(
        &mut self,
        arena: &mut Arena,
        id: RegexId,
        c: u32,
        shape: &Shape,
        targets: &[RegexId],
    ) -> Result<(), AllocError>
        requires known { id < length arena.old }
        requires character { c ≤ 0x2ffff }
        requires right { LearntIsRight arena.old self.old }
        requires shape { IsShape arena.old id shape.now.operation shape.now.parts.items }
        requires points { IsSome (place_of self.old id) }
        requires parts { AreFound self.old c shape.now.parts.items }
        requires targets { targets.now ≡ map (target_at self.old c) shape.now.parts.items }
        ensures extends { Extends arena.old arena.new }
        ensures right { LearntIsRight arena.new self.new }
        ensures done { OnOk result (is_found self.new c id ≡ true) }
        ensures long { length self.new.1.0 ≡ length self.old.1.0 }
        ensures elsewhere { (n : ℕ) → (n ≡ id → ⊥) → found self.new n c ≡ found self.old n c }
    {
        let target = shape.operation.make(self.allocator(), arena, c, targets)?;
        let begin = self.stretch(id, c);
        self.derivatives.insert((id, begin), target)?;
        Ok(())
    }

    /// The place of a list of points for a regex that is made so: that of a part's list, if no other points are wanted.
    fn place_for(&mut self, operation: &Operation, parts: &[RegexId]) -> Result<usize, AllocError>
        requires exist { PlacesExist self.old }
        requires parts { All (λ n. IsSome (place_of self.old n)) parts.now }
        ensures ok { IfOk result (λ k. IsPlaceFor self.old self.new operation.now parts.now k) }
        ensures grown { ListsAreKept self.old self.new }
    {
        let places = self.places_of(parts)?;
        let ranges = operation.ranges();
        if places.len() == 1 && ranges.is_empty() {
            let place = places[0];
            self.has_points(place);
            return Ok(place);
        }
        let points = merge(self.allocator(), &self.lists, &places, ranges)?;
        self.lists.push(points)?;
        Ok(self.lists.len() - 1)
    }

    /// The lists are of points.
    fn has_points(&self, place: usize)
        requires { place < length self.now.0 }
        ensures { (list : List ℕ) → slice_get self.now.0 place ≡ Some list → ArePoints list }
    {
        let _points = self.lists[place].as_slice();
    }

    /// The places of the lists of parts, each once.
    fn places_of(&self, parts: &[RegexId]) -> Result<Vec<usize>, AllocError>
        requires exist { PlacesExist self.now }
        requires parts { All (λ n. IsSome (place_of self.now n)) parts.now }
        ensures within { IfOk result (λ places. All (λ k. k < length self.now.0) places.items) }
        ensures all { IfOk result
            (λ places. All (λ n. (k : ℕ) → place_of self.now n ≡ Some k → Covers places.items (k ∷ [])) parts.now) }
    {
        let mut seen = BTreeSet::new(self.allocator());
        let mut places = Vec::new(self.allocator());
        for part in parts {
            put_place(&mut seen, &mut places, self.place_at(*part))?;
        }
        Ok(places)
    }

    /// The derivative of a regex by a character, if it is known. Logarithmic in the number of its cut points.
    fn found(&self, id: RegexId, c: u32) -> Option<RegexId>
        ensures { result ≡ found self.now id c }
    {
        match self.points(id) {
            Some(points) => {
                let begin = points.stretch(c);
                self.derivatives.get(&(id, begin)).copied()
            }
            None => None,
        }
    }

    fn is_found(&self, id: RegexId, c: u32) -> bool
        ensures { result ≡ is_found self.now c id }
    {
        self.found(id, c).is_some()
    }

    /// The derivative that is known.
    fn derivative(&self, id: RegexId, c: u32) -> RegexId
        requires { is_found self.now c id ≡ true }
        ensures { found self.now id c ≡ Some result }
    {
        match self.found(id, c) {
            Some(target) => target,
            None => unreachable!(),
        }
    }

    /// Where the stretch of a character begins, among the points of a regex that are known.
    fn stretch(&self, id: RegexId, c: u32) -> u32
        requires { IsSome (points_of self.now id) }
        ensures { option_map (λ points. stretch points c) (points_of self.now id) ≡ Some result }
    {
        match self.points(id) {
            Some(points) => points.stretch(c),
            None => unreachable!(),
        }
    }

    /// The points of a regex that are known.
    fn copy_points(&self, id: RegexId) -> Result<Vec<u32>, AllocError>
        requires { IsSome (points_of self.now id) }
        ensures { IfOk result (λ points. points_of self.now id ≡ Some points.items) }
    {
        match self.points(id) {
            Some(points) => Vec::from_slice(self.allocator(), points.as_slice()),
            None => unreachable!(),
        }
    }

    fn points(&self, id: RegexId) -> Option<&Points>
        ensures { option_copied result ≡ points_of self.now id }
    {
        match self.place(id) {
            Some(place) => self.lists.get(place),
            None => None,
        }
    }

    fn place(&self, id: RegexId) -> Option<usize>
        ensures { result ≡ place_of self.now id }
    {
        match self.places.get(id.number()) {
            Some(place) => *place,
            None => None,
        }
    }

    /// The place that is known.
    fn place_at(&self, id: RegexId) -> usize
        requires { IsSome (place_of self.now id) }
        ensures { place_of self.now id ≡ Some result }
    {
        match self.place(id) {
            Some(place) => place,
            None => unreachable!(),
        }
    }
}

/// Puts a place behind the others, unless it was seen.
fn put_place(
    seen: &mut BTreeSet<usize>,
    places: &mut Vec<usize>,
    place: usize,
) -> Result<(), AllocError>
    requires seen { Covers places.old.items seen.old.keys }
    ensures seen { OnOk result (Covers places.new.items seen.new.keys) }
    ensures kept { OnOk result (Covers places.new.items places.old.items) }
    ensures put { OnOk result (Covers places.new.items (place ∷ [])) }
    ensures within { OnOk result ((n : ℕ) → place < n → All (λ k. k < n) places.old.items
        → All (λ k. k < n) places.new.items) }
{
    if seen.insert(place)? {
        places.push(place)?;
    }
    Ok(())
}

/// Makes room for the place of a number's list.
fn make_room(places: &mut Vec<Option<usize>>, number: usize) -> Result<(), AllocError>
    ensures same { (n : ℕ) → get_or places.new.items n None ≡ get_or places.old.items n None }
    ensures long { OnOk result (number < length places.new.items) }
{
    while places.len() <= number {
        places.push(None)?;
    }
    Ok(())
}
