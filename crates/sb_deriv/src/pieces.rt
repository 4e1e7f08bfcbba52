//! Lists of pieces.

ghost use Rattle.std.specs.Prelude.{◌≡◌, ◌<◌, ◌≤◌, ◌+◌, ℕ, All, true, [], nat_le, cond, length, get_or, drop, IfOk, OnOk, IfSome};
ghost use Rattle.sb_class.specs.Ranges.{in_ranges, IsCanonical};
ghost use Rattle.sb_regex.specs.Numbered.{regex_at, regexes_at, AllNumbers, Extends, Names};
ghost use Rattle.sb_deriv.specs.Pieces.{covers, are_merged, value_from, value_at, IsIntervalMap, targets_of, end_of_characters};
ghost use Rattle.sb_deriv.specs.Faithful.{IsMapOf};
ghost use Rattle.sb_deriv.specs.Choices.{made, first_of, list_of, AreConstants, OperandIsKnown, AreMade, IsFound, IsSpan, ends_with};

use crate::choices::Choices;
use crate::operation::{Constants, Operation};
use sb_class::LAST_CHARACTER;
use sb_regex::{Arena, RegexId};
use smallvec::SmallVec;
use std::alloc::{AllocError, Global};
use std::marker::Model;

/// The target of a character: that of the last piece that begins at or below it. Logarithmic.
pub(crate) fn value_at(pieces: &[(u32, RegexId)], c: u32) -> RegexId
    requires map { IsIntervalMap pieces.now }
    requires character { c ≤ 0x2ffff }
    ensures { result ≡ value_at pieces.now c }
{
    span_at(pieces, c).1
}

/// Up to where the piece of a character goes, and its target. Logarithmic.
fn span_at(pieces: &[(u32, RegexId)], c: u32) -> (u32, RegexId)
    requires map { IsIntervalMap pieces.now }
    requires character { c ≤ 0x2ffff }
    ensures { IsSpan pieces.now c result.0 result.1 }
{
    let place = place_of(pieces, c);
    (first_from(pieces, place + 1), pieces[place].1)
}

/// Where the piece at a place begins, or the end of all.
fn first_from(pieces: &[(u32, RegexId)], i: usize) -> u32
    ensures { result ≡ first_of end_of_characters (drop i pieces.now) }
{
    match pieces.get(i) {
        Some(piece) => piece.0,
        None => LAST_CHARACTER + 1,
    }
}

/// The place of the last piece that begins at or below a character.
fn place_of(pieces: &[(u32, RegexId)], c: u32) -> usize
    requires { IsIntervalMap pieces.now }
    ensures within { result < length pieces.now }
    ensures begins { (get_or pieces.now result (0, 0)).0 ≤ c }
    ensures ends { result + 1 < length pieces.now → c < (get_or pieces.now (result + 1) (0, 0)).0 }
{
    let mut low = 0;
    let mut high = pieces.len();
    while high - low > 1 {
        let middle = low + (high - low) / 2;
        if first_at(pieces, middle) <= c {
            low = middle;
        } else {
            high = middle;
        }
    }
    low
}

/// An interval map that is lent.
#[derive(Drop)]
pub(crate) struct Map<'a> {
    pieces: &'a [(u32, RegexId)],
}

impl<'a> Model for Map<'a> {
    ghost use Rattle.std.specs.Prelude.{ℕ, List};

    ghost Value = { List (ℕ × ℕ) };

    ghost use Rattle.sb_deriv.specs.Pieces.{IsIntervalMap};

    ghost view = { λ map. map.pieces.now };

    ghost invariant = { λ map. IsIntervalMap map.pieces.now };
}

impl<'a> Map<'a> {
    pub(crate) fn new(pieces: &'a [(u32, RegexId)]) -> Map<'a>
        requires { IsIntervalMap pieces.now }
        ensures { result ≡ pieces.now }
    {
        Map { pieces }
    }
}

/// An interval map that is looked at from character to character, with the piece that was looked at last.
#[derive(Drop)]
pub(crate) struct Cursor<'a> {
    pieces: &'a [(u32, RegexId)],
    begin: u32,
    end: u32,
    target: RegexId,
}

impl<'a> Model for Cursor<'a> {
    ghost use Rattle.std.specs.Prelude.{ℕ, List};

    ghost Value = { List (ℕ × ℕ) };

    ghost use Rattle.sb_deriv.specs.Pieces.{IsIntervalMap};
    ghost use Rattle.sb_deriv.specs.Choices.{IsSpan};

    ghost view = { λ cursor. cursor.pieces.now };

    ghost invariant = { λ cursor. IsIntervalMap cursor.pieces.now
        × IsSpan cursor.pieces.now cursor.begin cursor.end cursor.target };
}

impl<'a> Cursor<'a> {
    /// At the first character.
    pub(crate) fn new(map: &Map<'a>) -> Cursor<'a>
        ensures { result ≡ map.now }
    {
        let (end, target) = span_at(map.pieces, 0);
        Cursor {
            pieces: map.pieces,
            begin: 0,
            end,
            target,
        }
    }

    /// Up to where the piece of a character goes, and its target. Constant where it is the piece that was looked at
    /// last, else logarithmic.
    pub(crate) fn span_at(&mut self, c: u32) -> (u32, RegexId)
        requires { c ≤ 0x2ffff }
        ensures same { self.new ≡ self.old }
        ensures span { IsSpan self.old c result.0 result.1 }
    {
        if self.begin <= c && c < self.end {
            return (self.end, self.target);
        }
        let (end, target) = span_at(self.pieces, c);
        self.begin = c;
        self.end = end;
        self.target = target;
        (end, target)
    }
}

/// Where a piece begins.
fn first_at(pieces: &[(u32, RegexId)], i: usize) -> u32
    requires { i < length pieces.now }
    ensures { result ≡ (get_or pieces.now i (0, 0)).0 }
{
    pieces[i].0
}

/// Whether there is a last piece, with this target.
fn ends_with(pieces: &[(u32, RegexId)], target: RegexId) -> bool
    ensures { result ≡ ends_with target pieces.now }
{
    match pieces {
        [] => false,
        [.., last] => last.1 == target,
    }
}

/// Puts a piece behind the others, unless the last one has its target.
pub(crate) fn push(
    pieces: &mut Vec<(u32, RegexId)>,
    first: u32,
    target: RegexId,
) -> Result<(), AllocError>
    requires whole { covers pieces.old.items first ≡ true }
    requires merged { are_merged pieces.old.items ≡ true }
    ensures whole { OnOk result ((end : ℕ) → first < end → covers pieces.new.items end ≡ true) }
    ensures merged { OnOk result (are_merged pieces.new.items ≡ true) }
    ensures value { OnOk result ((c : ℕ)
        → value_at pieces.new.items c ≡ cond (nat_le first c) target (value_at pieces.old.items c)) }
    ensures targets { OnOk result ((n : ℕ) → target < n → All (λ i. i < n) (targets_of pieces.old.items)
        → All (λ i. i < n) (targets_of pieces.new.items)) }
{
    if ends_with(pieces, target) {
        return Ok(());
    }
    pieces.push((first, target))?;
    Ok(())
}

/// Puts a piece behind the others that goes up to a number, where it is not empty.
fn fill(
    pieces: &mut Vec<(u32, RegexId)>,
    first: u32,
    end: u32,
    target: RegexId,
) -> Result<(), AllocError>
    requires ordered { first ≤ end }
    requires whole { covers pieces.old.items first ≡ true }
    requires merged { are_merged pieces.old.items ≡ true }
    ensures whole { OnOk result (covers pieces.new.items end ≡ true) }
    ensures merged { OnOk result (are_merged pieces.new.items ≡ true) }
    ensures value { OnOk result ((c : ℕ) → c < end
        → value_at pieces.new.items c ≡ cond (nat_le first c) target (value_at pieces.old.items c)) }
    ensures targets { OnOk result ((n : ℕ) → target < n → All (λ i. i < n) (targets_of pieces.old.items)
        → All (λ i. i < n) (targets_of pieces.new.items)) }
{
    if first < end {
        return push(pieces, first, target);
    }
    Ok(())
}

/// One target in the ranges, and another one elsewhere.
pub(crate) fn of_ranges(
    alloc: Global,
    ranges: &[(u32, u32)],
    within: RegexId,
    outside: RegexId,
) -> Result<Vec<(u32, RegexId)>, AllocError>
    requires { IsCanonical ranges.now }
    ensures map { IfOk result (λ pieces. IsIntervalMap pieces.items) }
    ensures value { IfOk result (λ pieces. (c : ℕ) → c < end_of_characters
        → value_at pieces.items c ≡ cond (in_ranges ranges.now c) within outside) }
    ensures targets { IfOk result (λ pieces. (n : ℕ) → within < n → outside < n
        → All (λ i. i < n) (targets_of pieces.items)) }
{
    let mut pieces = Vec::new(alloc);
    let mut end = 0;
    for range in ranges {
        fill(&mut pieces, end, range.0, outside)?;
        push(&mut pieces, range.0, within)?;
        end = range.1 + 1;
    }
    fill(&mut pieces, end, LAST_CHARACTER + 1, outside)?;
    Ok(pieces)
}

/// Of each piece what the operation makes of its choices, which the hint may be. It is made once of each list of
/// regexes, where there are few.
pub(crate) fn make_each(
    arena: &mut Arena,
    alloc: Global,
    operation: &Operation,
    constants: &Constants,
    choices: &Choices,
    hint: RegexId,
) -> Result<Vec<(u32, RegexId)>, AllocError>
    requires constants { AreConstants arena.old constants.now }
    requires hint { hint < length arena.old }
    requires whole { covers choices.now end_of_characters ≡ true }
    requires members { (c : ℕ) → c < end_of_characters → AllNumbers arena.old (value_from [] choices.now c) }
    requires operand { OperandIsKnown arena.old operation.now }
    ensures map { IfOk result
        (λ pieces. IsMapOf arena.new
        (λ c. made arena.old operation.now (regexes_at arena.old (value_from [] choices.now c))) pieces.items) }
    ensures extends { Extends arena.old arena.new }
{
    let mut pieces = Vec::with_capacity(alloc, choices.len())?;
    let mut known = SmallVec::new(alloc);
    for place in 0..choices.len() {
        let target = target_of(
            arena, operation, constants, choices, place, hint, &mut known,
        )?;
        push(&mut pieces, choices.first(place), target)?;
    }
    pieces.shrink_to_fit();
    Ok(pieces)
}

/// So many different lists of regexes are remembered.
const KEPT: usize = 64;

/// What the operation makes of the regexes of a piece.
fn target_of(
    arena: &mut Arena,
    operation: &Operation,
    constants: &Constants,
    choices: &Choices,
    place: usize,
    hint: RegexId,
    known: &mut SmallVec<(usize, RegexId), 16>,
) -> Result<RegexId, AllocError>
    requires constants { AreConstants arena.old constants.now }
    requires within { place < length choices.now }
    requires hint { hint < length arena.old }
    requires members { AllNumbers arena.old (list_of choices.now place) }
    requires operand { OperandIsKnown arena.old operation.now }
    requires known { AreMade arena.old operation.now choices.now known.old.items }
    ensures ok { IfOk result
        (λ id. Names arena.new id (made arena.old operation.now (regexes_at arena.old (list_of choices.now place)))) }
    ensures known { OnOk result (AreMade arena.new operation.now choices.now known.new.items) }
    ensures extends { Extends arena.old arena.new }
{
    let ids = choices.ids(place);
    if let Some(target) = find(choices, known.as_slice(), ids) {
        return Ok(target);
    }
    let target = operation.make(arena, constants, hint, ids)?;
    if known.len() < KEPT {
        known.push((place, target))?;
    }
    Ok(target)
}

/// The target of a piece with these regexes, if there is one.
fn find(choices: &Choices, known: &[(usize, RegexId)], ids: &[RegexId]) -> Option<RegexId>
    requires { All (λ m. m.0 < length choices.now) known.now }
    ensures { IfSome result (λ target. IsFound choices.now known.now ids.now target) }
{
    for entry in known {
        if choices.ids(entry.0) == ids {
            return Some(entry.1);
        }
    }
    None
}
