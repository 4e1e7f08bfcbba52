//! Derivatives by number of regex.

ghost use Rattle.std.specs.Prelude.{◌≡◌, ◌<◌, ◌≤◌, ℕ, true, false, [], ◌∷◌, length, IfOk, OnOk, IfSome, IfNone, OnSome, IsSome, is_some, None, IsSomeAnd, option_copied, All, map, nat_lt};
ghost use Rattle.std.specs.List.{list_any};
ghost use Rattle.sb_lang.specs.Regex.{none, set, cat, rep};
ghost use Rattle.sb_lang.specs.Derivative.{nd};
ghost use Rattle.sb_word.specs.Words.{is_character};
ghost use Rattle.sb_class.specs.Ranges.{IsCanonical};
ghost use Rattle.sb_lang.specs.Constructors.{mkalt, mkcat};
ghost use Rattle.sb_regex.specs.Numbered.{regex_at, regexes_at, AllNumbers, Extends};
ghost use Rattle.sb_deriv.specs.Pieces.{covers, value_from, IsIntervalMap, end_of_characters};
ghost use Rattle.sb_deriv.specs.Faithful.{entry_of, IsFaithful, KeepsEntries, IsDerivative, IsMapOf};
ghost use Rattle.sb_deriv.specs.Choices.{made, map_of, picked, targets_at, nd_each, AreConstants, OperandIsKnown, HaveEntries, IsWanted, lacking};

use crate::choices::{Choices, refine, refine_two};
use crate::derivative::Derivative;
use crate::operation::{Constants, Operation, Shape, shape_of};
use crate::pieces::{Map, make_each, of_ranges};
use sb_regex::{Arena, RegexId};
use std::alloc::{AllocError, Global};
use std::collections::BTreeSet;
use std::marker::Model;

/// The derivatives that are known.
#[derive(Drop)]
pub struct Deriver {
    memo: Vec<Option<Derivative>>,
    constants: Option<Constants>,
}

impl Model for Deriver {
    ghost use Rattle.std.specs.Prelude.{ℕ, List, Option};

    ghost Value = { List (Option (List (ℕ × ℕ))) };

    ghost view = { λ deriver. deriver.memo.items };
}

impl Deriver {
    /// Nothing is known. Takes no memory.
    pub fn new(alloc: Global) -> Deriver
        ensures { result ≡ [] }
    {
        Deriver {
            memo: Vec::new(alloc),
            constants: None,
        }
    }

    /// The derivative of a regex, if it is known. Takes constant time and no memory.
    pub fn derivative(&self, r: RegexId) -> Option<&Derivative>
        ensures { option_copied result ≡ entry_of self.now r }
    {
        match self.memo.get(r.number()) {
            Some(entry) => entry.as_ref(),
            None => None,
        }
    }

    /// Makes the derivative of a regex known, and those of the parts that it is made from.
    ///
    /// Each part's is made once, with one constructor for each piece of the common refinement. In the number of pieces
    /// and of targets that differ from none (of an intersection, from every word) it takes time n log n, beside the
    /// constructors.
    pub fn derive(&mut self, arena: &mut Arena, r: RegexId) -> Result<(), AllocError>
        requires known { r < length arena.old }
        requires faithful { IsFaithful arena.old self.old }
        ensures done { OnOk result (IsSome (entry_of self.new r)) }
        ensures extends { Extends arena.old arena.new }
        ensures faithful { IsFaithful arena.new self.new }
        ensures kept { KeepsEntries self.old self.new }
    {
        let constants = self.constants(arena)?;
        make_room(&mut self.memo, r.number())?;
        let mut waiting = BTreeSet::new(self.allocator());
        let mut next = r;
        while !self.is_known(r) {
            let _added = self.advance(arena, &constants, next, &mut waiting)?;
            next = waiting.pop_first().unwrap_or(r);
        }
        Ok(())
    }

    /// The numbers of three regexes in an arena, which are asked for once in each.
    fn constants(&mut self, arena: &mut Arena) -> Result<Constants, AllocError>
        ensures ok { IfOk result (λ constants. AreConstants arena.new constants) }
        ensures extends { Extends arena.old arena.new }
        ensures same { self.new ≡ self.old }
    {
        if let Some(constants) = &self.constants {
            if constants.are_of(arena) {
                return Ok(constants.again());
            }
        }
        let constants = Constants::of(arena)?;
        self.constants = Some(constants.again());
        Ok(constants)
    }

    /// Whether the derivative of a regex is known.
    fn is_known(&self, r: RegexId) -> bool
        ensures { result ≡ is_some (entry_of self.now r) }
    {
        self.derivative(r).is_some()
    }

    /// Makes the derivative of a regex known, or lets parts of it wait, and then the regex too. Whether it is known.
    fn advance(
        &mut self,
        arena: &mut Arena,
        constants: &Constants,
        id: RegexId,
        waiting: &mut BTreeSet<RegexId>,
    ) -> Result<bool, AllocError>
        requires constants { AreConstants arena.old constants.now }
        requires known { id < length arena.old }
        requires room { id < length self.old }
        requires lacks { entry_of self.old id ≡ None }
        requires faithful { IsFaithful arena.old self.old }
        ensures extends { Extends arena.old arena.new }
        ensures faithful { IsFaithful arena.new self.new }
        ensures kept { KeepsEntries self.old self.new }
        ensures long { length self.new ≡ length self.old }
        ensures added { IfOk result (λ added. added ≡ true → lacking self.new < lacking self.old) }
        ensures same { IfOk result (λ added. added ≡ false → lacking self.new ≡ lacking self.old) }
        ensures waits { IfOk result (λ added. added ≡ false → list_any (λ q. nat_lt q id) waiting.new.keys ≡ true) }
        ensures wanted { OnOk result ((n : ℕ) → id < n → All (IsWanted n self.old) waiting.old.keys
            → All (λ q. id < q) waiting.old.keys → All (IsWanted n self.new) waiting.new.keys) }
    {
        match self.step(arena, constants, id, waiting)? {
            Some(derivative) => {
                self.memo[id.number()] = Some(derivative);
                Ok(true)
            }
            None => {
                waiting.insert(id)?;
                Ok(false)
            }
        }
    }

    fn allocator(&self) -> Global {
        *self.memo.allocator()
    }

    /// The derivative of a regex. Where that of a part is wanted first, there is none, and the part waits.
    fn step(
        &self,
        arena: &mut Arena,
        constants: &Constants,
        id: RegexId,
        waiting: &mut BTreeSet<RegexId>,
    ) -> Result<Option<Derivative>, AllocError>
        requires constants { AreConstants arena.old constants.now }
        requires known { id < length arena.old }
        requires faithful { IsFaithful arena.old self.now }
        ensures found { IfOk result (λ found. IfSome found (λ d. IsDerivative arena.new (regex_at arena.old id) d)) }
        ensures idle { IfOk result (λ found. OnSome found (waiting.new.keys ≡ waiting.old.keys)) }
        ensures waits { IfOk result (λ found. IfNone found (list_any (λ q. nat_lt q id) waiting.new.keys ≡ true)) }
        ensures added { OnOk result ((n : ℕ) → id ≤ n → All (IsWanted n self.now) waiting.old.keys
            → All (IsWanted n self.now) waiting.new.keys) }
        ensures extends { Extends arena.old arena.new }
    {
        match shape_of(self.allocator(), arena, id)? {
            Shape::Nowhere => self.nowhere(arena, constants),
            Shape::Set(ranges) => self.of_set(arena, constants, &ranges),
            Shape::Cat(a, b) => self.of_cat(arena, constants, a, b, waiting),
            Shape::Rep(a, least, most) => { self.of_rep(arena, constants, a, least, most, waiting) }
            Shape::Made(operation, parts) => {
                self.of_all(arena, constants, operation, parts.as_slice(), id, waiting)
            }
        }
    }

    /// The derivative of a regex with no word but the empty one.
    fn nowhere(
        &self,
        arena: &Arena,
        constants: &Constants,
    ) -> Result<Option<Derivative>, AllocError>
        requires constants { AreConstants arena.now constants.now }
        ensures found { IfOk result (λ found. IsSomeAnd found (λ d. IsMapOf arena.now (λ c. none) d)) }
    {
        let pieces = Vec::from_slice(self.allocator(), &[(0, constants.none)])?;
        Ok(Some(Derivative::new(pieces)))
    }

    /// The derivative of a set.
    fn of_set(
        &self,
        arena: &Arena,
        constants: &Constants,
        ranges: &[(u32, u32)],
    ) -> Result<Option<Derivative>, AllocError>
        requires constants { AreConstants arena.now constants.now }
        requires canonical { IsCanonical ranges.now }
        ensures found { IfOk result (λ found. IsSomeAnd found (λ d. IsDerivative arena.now (set ranges.now) d)) }
    {
        let pieces = of_ranges(self.allocator(), ranges, constants.eps, constants.none)?;
        Ok(Some(Derivative::new(pieces)))
    }

    /// The derivative of a concatenation.
    fn of_cat(
        &self,
        arena: &mut Arena,
        constants: &Constants,
        a: RegexId,
        b: RegexId,
        waiting: &mut BTreeSet<RegexId>,
    ) -> Result<Option<Derivative>, AllocError>
        requires constants { AreConstants arena.old constants.now }
        requires left { a < length arena.old }
        requires right { b < length arena.old }
        requires faithful { IsFaithful arena.old self.now }
        ensures found { IfOk result
            (λ found. IfSome found
            (λ d. IsDerivative arena.new (cat (regex_at arena.old a) (regex_at arena.old b)) d)) }
        ensures idle { IfOk result (λ found. OnSome found (waiting.new.keys ≡ waiting.old.keys)) }
        ensures waits { IfOk result
            (λ found. IfNone found ((n : ℕ) → a < n → b < n → list_any (λ q. nat_lt q n) waiting.new.keys ≡ true)) }
        ensures added { OnOk result ((n : ℕ) → a < n → b < n → All (IsWanted n self.now) waiting.old.keys
            → All (IsWanted n self.now) waiting.new.keys) }
        ensures extends { Extends arena.old arena.new }
    {
        if !arena.nullable(a) {
            return self.of_all(arena, constants, Operation::Cat(b), &[a], a, waiting);
        }
        if self.want(&[a, b], waiting)? {
            return Ok(None);
        }
        let choices = self.heads_and_tails(arena, constants, a, b)?;
        let pieces = make_each(
            arena,
            self.allocator(),
            &Operation::Alt,
            constants,
            &choices,
            b,
        )?;
        Ok(Some(Derivative::new(pieces)))
    }

    /// The derivatives of the first with the second behind it, and those of the second.
    fn heads_and_tails(
        &self,
        arena: &mut Arena,
        constants: &Constants,
        a: RegexId,
        b: RegexId,
    ) -> Result<Choices, AllocError>
        requires constants { AreConstants arena.old constants.now }
        requires left { a < length arena.old }
        requires right { b < length arena.old }
        requires faithful { IsFaithful arena.old self.now }
        requires entries { HaveEntries self.now (a ∷ b ∷ []) }
        ensures whole { IfOk result (λ choices. covers choices end_of_characters ≡ true) }
        ensures numbers { IfOk result (λ choices. (c : ℕ) → c < end_of_characters
            → AllNumbers arena.new (value_from [] choices c)) }
        ensures values { IfOk result (λ choices. (c : ℕ) → is_character c ≡ true
            → mkalt (regexes_at arena.new (value_from [] choices c))
            ≡ mkalt (mkcat (nd (regex_at arena.old a) c) (regex_at arena.old b) ∷ nd (regex_at arena.old b) c ∷ [])) }
        ensures extends { Extends arena.old arena.new }
    {
        let alloc = self.allocator();
        let operation = Operation::Cat(b);
        let heads = refine(alloc, &operation, constants, &[Map::new(self.pieces_of(a))])?;
        let heads = make_each(arena, alloc, &operation, constants, &heads, a)?;
        refine_two(alloc, &Operation::Alt, constants, &heads, self.pieces_of(b))
    }

    /// The derivative of a repetition: that of the body, with the rest of the repetition behind it.
    fn of_rep(
        &self,
        arena: &mut Arena,
        constants: &Constants,
        a: RegexId,
        least: u64,
        most: u64,
        waiting: &mut BTreeSet<RegexId>,
    ) -> Result<Option<Derivative>, AllocError>
        requires constants { AreConstants arena.old constants.now }
        requires body { a < length arena.old }
        requires some { 0 < most }
        requires faithful { IsFaithful arena.old self.now }
        ensures found { IfOk result
            (λ found. IfSome found (λ d. IsDerivative arena.new (rep (regex_at arena.old a) least most) d)) }
        ensures idle { IfOk result (λ found. OnSome found (waiting.new.keys ≡ waiting.old.keys)) }
        ensures waits { IfOk result
            (λ found. IfNone found ((n : ℕ) → a < n → list_any (λ q. nat_lt q n) waiting.new.keys ≡ true)) }
        ensures added { OnOk result ((n : ℕ) → a < n → All (IsWanted n self.now) waiting.old.keys
            → All (IsWanted n self.now) waiting.new.keys) }
        ensures extends { Extends arena.old arena.new }
    {
        let rest = arena.rep(a, least.saturating_sub(1), most - 1)?;
        self.of_all(arena, constants, Operation::Cat(rest), &[a], rest, waiting)
    }

    /// What the operation makes of the derivatives of all parts, which the hint may be at some characters.
    fn of_all(
        &self,
        arena: &mut Arena,
        constants: &Constants,
        operation: Operation,
        parts: &[RegexId],
        hint: RegexId,
        waiting: &mut BTreeSet<RegexId>,
    ) -> Result<Option<Derivative>, AllocError>
        requires constants { AreConstants arena.old constants.now }
        requires hint { hint < length arena.old }
        requires numbers { AllNumbers arena.old parts.now }
        requires operand { OperandIsKnown arena.old operation }
        requires faithful { IsFaithful arena.old self.now }
        ensures found { IfOk result
            (λ found. IfSome found
            (λ d. IsMapOf arena.new (λ c. made arena.old operation (nd_each (regexes_at arena.old parts.now) c)) d)) }
        ensures idle { IfOk result (λ found. OnSome found (waiting.new.keys ≡ waiting.old.keys)) }
        ensures waits { IfOk result
            (λ found. IfNone found ((n : ℕ) → All (λ i. i < n) parts.now
            → list_any (λ q. nat_lt q n) waiting.new.keys ≡ true)) }
        ensures added { OnOk result ((n : ℕ) → All (λ i. i < n) parts.now → All (IsWanted n self.now) waiting.old.keys
            → All (IsWanted n self.now) waiting.new.keys) }
        ensures extends { Extends arena.old arena.new }
    {
        if self.want(parts, waiting)? {
            return Ok(None);
        }
        let maps = self.maps(parts)?;
        let choices = refine(self.allocator(), &operation, constants, &maps)?;
        let alloc = self.allocator();
        let pieces = make_each(arena, alloc, &operation, constants, &choices, hint)?;
        Ok(Some(Derivative::new(pieces)))
    }

    /// The parts whose derivatives are not known wait. Whether there are such.
    fn want(&self, parts: &[RegexId], waiting: &mut BTreeSet<RegexId>) -> Result<bool, AllocError>
        ensures none { IfOk result (λ some. some ≡ false → HaveEntries self.now parts.now) }
        ensures idle { IfOk result (λ some. some ≡ false → waiting.new.keys ≡ waiting.old.keys) }
        ensures waits { IfOk result (λ some. some ≡ true → (n : ℕ) → All (λ i. i < n) parts.now
            → list_any (λ q. nat_lt q n) waiting.new.keys ≡ true) }
        ensures added { OnOk result ((n : ℕ) → All (λ i. i < n) parts.now → All (IsWanted n self.now) waiting.old.keys
            → All (IsWanted n self.now) waiting.new.keys) }
    {
        let mut some = false;
        for part in parts {
            if !self.is_known(*part) {
                waiting.insert(*part)?;
                some = true;
            }
        }
        Ok(some)
    }

    /// The derivatives of the parts.
    fn maps(&self, parts: &[RegexId]) -> Result<Vec<Map>, AllocError>
        requires { HaveEntries self.now parts.now }
        ensures { IfOk result (λ maps. maps.items ≡ map (map_of self.now) parts.now) }
    {
        let mut maps = Vec::with_capacity(self.allocator(), parts.len())?;
        for part in parts {
            maps.push(Map::new(self.pieces_of(*part)))?;
        }
        Ok(maps)
    }

    /// The derivative of a regex for which it is known.
    fn pieces_of(&self, id: RegexId) -> &[(u32, RegexId)]
        requires { IsSome (entry_of self.now id) }
        ensures value { result.now ≡ map_of self.now id }
        ensures whole { IsIntervalMap result.now }
    {
        match self.derivative(id) {
            Some(map) => map.pieces(),
            None => unreachable!(),
        }
    }
}

/// Makes room for the entry of a number.
fn make_room(memo: &mut Vec<Option<Derivative>>, number: usize) -> Result<(), AllocError>
    ensures same { (n : ℕ) → entry_of memo.new.items n ≡ entry_of memo.old.items n }
    ensures long { OnOk result (number < length memo.new.items) }
{
    while memo.len() <= number {
        memo.push(None)?;
    }
    Ok(())
}
