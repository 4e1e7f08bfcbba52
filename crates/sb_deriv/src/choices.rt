//! Pieces with several regexes each.

ghost use Rattle.std.specs.Prelude.{◌≡◌, ◌<◌, ◌≤◌, ◌++◌, ◌+◌, ◌∷◌, ℕ, true, [], length, get_or, IfOk, OnOk, take, drop, cond};
ghost use Rattle.sb_deriv.specs.Pieces.{covers, value_from, value_at, IsIntervalMap, end_of_characters};
ghost use Rattle.sb_deriv.specs.Choices.{drops, leads, joined, picked, values_at, first_of, count_at, last_value, list_of, IsSpan, AreChosen};

use crate::operation::{Constants, Operation};
use crate::pieces::{Cursor, Map};
use sb_class::LAST_CHARACTER;
use sb_regex::RegexId;
use std::alloc::{AllocError, Global};
use std::marker::Model;

/// Ranges of characters from the first on, with regexes. The regexes of all pieces stand side by side.
#[derive(Drop)]
pub(crate) struct Choices {
    pieces: Vec<(u32, (usize, usize))>,
    ids: Vec<RegexId>,
}

impl Model for Choices {
    ghost use Rattle.std.specs.Prelude.{ℕ, List, ◌≤◌, All, map};
    ghost use Rattle.std.specs.Prelude.{length as how_many};
    ghost use Rattle.sb_deriv.specs.Choices.{choice_of};

    ghost Value = { List (ℕ × List ℕ) };

    ghost view = { λ choices. map (choice_of choices.ids.items) choices.pieces.items };

    ghost invariant = { λ choices. All (λ p. (p.1.0 ≤ p.1.1) × (p.1.1 ≤ how_many choices.ids.items))
        choices.pieces.items };
}

impl Choices {
    /// No pieces, with room for so many, and for so many regexes in all of them.
    fn with_room(alloc: Global, pieces: usize, ids: usize) -> Result<Choices, AllocError>
        ensures { IfOk result (λ choices. choices ≡ []) }
    {
        Ok(Choices {
            pieces: Vec::with_capacity(alloc, pieces)?,
            ids: Vec::with_capacity(alloc, ids)?,
        })
    }

    pub(crate) fn len(&self) -> usize
        ensures { result ≡ length self.now }
    {
        self.pieces.len()
    }

    /// Where a piece begins.
    pub(crate) fn first(&self, i: usize) -> u32
        requires { i < length self.now }
        ensures { result ≡ (get_or self.now i (0, [])).0 }
    {
        self.pieces[i].0
    }

    /// The regexes of a piece.
    pub(crate) fn ids(&self, i: usize) -> &[RegexId]
        requires { i < length self.now }
        ensures { result.now ≡ list_of self.now i }
    {
        let (start, end) = self.pieces[i].1;
        &self.ids[start..end]
    }

    fn push(&mut self, first: u32, ids: &[RegexId]) -> Result<(), AllocError>
        ensures { OnOk result (self.new ≡ self.old ++ (first, ids.now) ∷ []) }
    {
        let start = self.ids.len();
        self.ids.extend_from_slice(ids)?;
        self.pieces.push((first, (start, self.ids.len())))?;
        Ok(())
    }
}

/// Up to so many maps are looked at together.
const FEW: usize = 16;

/// For so many pieces there is room from the start.
const ROOM: usize = 16;

/// The common refinement of maps, with the targets that make a difference. In the number of pieces and of such
/// targets it takes time n log n.
pub(crate) fn refine(
    alloc: Global,
    operation: &Operation,
    constants: &Constants,
    maps: &[Map],
) -> Result<Choices, AllocError>
    ensures whole { IfOk result (λ choices. covers choices end_of_characters ≡ true) }
    ensures values { IfOk result (λ choices. (c : ℕ) → c < end_of_characters
        → value_from [] choices c ≡ picked constants.now operation.now (values_at maps.now c)) }
{
    if maps.len() <= FEW {
        return sweep(alloc, operation, constants, maps);
    }
    let (front, back) = maps.split_at(maps.len() / 2);
    let left = refine(alloc, operation, constants, front)?;
    let right = refine(alloc, operation, constants, back)?;
    merge(alloc, operation, constants, &left, &right)
}

/// That of two maps.
pub(crate) fn refine_two<'a>(
    alloc: Global,
    operation: &Operation,
    constants: &Constants,
    left: &'a [(u32, RegexId)],
    right: &'a [(u32, RegexId)],
) -> Result<Choices, AllocError>
    requires left { IsIntervalMap left.now }
    requires right { IsIntervalMap right.now }
    ensures whole { IfOk result (λ choices. covers choices end_of_characters ≡ true) }
    ensures values { IfOk result (λ choices. (c : ℕ) → c < end_of_characters → value_from [] choices c
        ≡ picked constants.now operation.now (value_at left.now c ∷ value_at right.now c ∷ [])) }
{
    refine(
        alloc,
        operation,
        constants,
        &[Map::new(left), Map::new(right)],
    )
}

/// The common refinement of a few maps: for each of its pieces each map is looked at.
fn sweep(
    alloc: Global,
    operation: &Operation,
    constants: &Constants,
    maps: &[Map],
) -> Result<Choices, AllocError>
    ensures whole { IfOk result (λ choices. covers choices end_of_characters ≡ true) }
    ensures values { IfOk result (λ choices. (c : ℕ) → c < end_of_characters
        → value_from [] choices c ≡ picked constants.now operation.now (values_at maps.now c)) }
{
    let mut cursors = cursors(alloc, maps)?;
    let mut choices = Choices::with_room(alloc, ROOM, ROOM * 8)?;
    let mut ids = Vec::with_capacity(alloc, maps.len())?;
    fill(operation, constants, &mut cursors, &mut ids, &mut choices)?;
    Ok(choices)
}

/// Puts the pieces of the common refinement of a few maps.
fn fill(
    operation: &Operation,
    constants: &Constants,
    maps: &mut Vec<Cursor>,
    ids: &mut Vec<RegexId>,
    choices: &mut Choices,
) -> Result<(), AllocError>
    requires { choices.old ≡ [] }
    ensures whole { OnOk result (covers choices.new end_of_characters ≡ true) }
    ensures values { OnOk result ((c : ℕ) → c < end_of_characters
        → value_from [] choices.new c ≡ picked constants.now operation.now (values_at maps.old.items c)) }
{
    let mut first = 0;
    while first <= LAST_CHARACTER {
        let end = choose(operation, constants, maps, first, ids)?;
        choices.push(first, ids.as_slice())?;
        first = end;
    }
    Ok(())
}

/// The maps, each at the first character.
fn cursors<'a>(alloc: Global, maps: &[Map<'a>]) -> Result<Vec<Cursor<'a>>, AllocError>
    ensures { IfOk result (λ cursors. cursors.items ≡ maps.now) }
{
    let mut cursors = Vec::with_capacity(alloc, maps.len())?;
    for map in maps {
        cursors.push(Cursor::new(map))?;
    }
    Ok(cursors)
}

/// The targets of maps at a character that make a difference. Up to where they are the same.
fn choose(
    operation: &Operation,
    constants: &Constants,
    maps: &mut Vec<Cursor>,
    c: u32,
    ids: &mut Vec<RegexId>,
) -> Result<u32, AllocError>
    requires { c ≤ 0x2ffff }
    ensures same { OnOk result (maps.new.items ≡ maps.old.items) }
    ensures chosen { IfOk result
        (λ end. AreChosen constants.now operation.now maps.old.items c end ids.new.items) }
{
    ids.clear();
    let mut end = LAST_CHARACTER + 1;
    for i in 0..maps.len() {
        let (stays, target) = span_of(maps, i, c);
        if operation.absorbs(constants, target) {
            ids.clear();
            ids.push(target)?;
            return Ok(stays);
        }
        keep(operation, constants, target, ids)?;
        end = end.min(stays);
    }
    Ok(end)
}

/// Up to where the piece of a character goes in the map at a place, and its target.
fn span_of(maps: &mut Vec<Cursor>, i: usize, c: u32) -> (u32, RegexId)
    requires within { i < length maps.old.items }
    requires character { c ≤ 0x2ffff }
    ensures same { maps.new.items ≡ maps.old.items }
    ensures span { IsSpan (get_or maps.old.items i []) c result.0 result.1 }
{
    maps[i].span_at(c)
}

/// Puts the regex behind the others, unless it makes no difference.
fn keep(
    operation: &Operation,
    constants: &Constants,
    target: RegexId,
    ids: &mut Vec<RegexId>,
) -> Result<(), AllocError>
    ensures { OnOk result
        (ids.new.items ≡ ids.old.items ++ cond (drops constants.now operation.now target) [] (target ∷ [])) }
{
    if !operation.drops(constants, target) {
        ids.push(target)?;
    }
    Ok(())
}

/// The pieces of both, with the regexes of both that make a difference. Linear.
fn merge(
    alloc: Global,
    operation: &Operation,
    constants: &Constants,
    left: &Choices,
    right: &Choices,
) -> Result<Choices, AllocError>
    requires left { covers left.now end_of_characters ≡ true }
    requires right { covers right.now end_of_characters ≡ true }
    ensures whole { IfOk result (λ choices. covers choices end_of_characters ≡ true) }
    ensures values { IfOk result (λ choices. (c : ℕ) → value_from [] choices c
        ≡ joined constants.now operation.now (value_from [] left.now c) (value_from [] right.now c)) }
{
    let mut choices = Choices::with_room(alloc, ROOM, ROOM * 8)?;
    let mut ids = Vec::new(alloc);
    let mut i = 0;
    let mut j = 0;
    let mut first = 0;
    while first <= LAST_CHARACTER {
        i = past(left, i, first);
        j = past(right, j, first);
        join(
            operation,
            constants,
            latest(left, i),
            latest(right, j),
            &mut ids,
        )?;
        choices.push(first, &ids)?;
        first = next_first(left, i).min(next_first(right, j));
    }
    Ok(choices)
}

/// Where the next piece begins, or the end of all.
fn next_first(choices: &Choices, i: usize) -> u32
    ensures { result ≡ first_of end_of_characters (drop i choices.now) }
{
    if i < choices.len() {
        choices.first(i)
    } else {
        LAST_CHARACTER + 1
    }
}

/// The next place, if the piece at this one begins there.
fn past(choices: &Choices, i: usize, first: u32) -> usize
    ensures { result ≡ i + count_at first (drop i choices.now) }
{
    if i < choices.len() && choices.first(i) == first {
        i + 1
    } else {
        i
    }
}

/// The regexes of the piece before a place.
fn latest(choices: &Choices, i: usize) -> &[RegexId]
    requires { i ≤ length choices.now }
    ensures { result.now ≡ last_value [] (take i choices.now) }
{
    if 0 < i { choices.ids(i - 1) } else { &[] }
}

/// The regexes of both that make a difference.
fn join(
    operation: &Operation,
    constants: &Constants,
    left: &[RegexId],
    right: &[RegexId],
    ids: &mut Vec<RegexId>,
) -> Result<(), AllocError>
    ensures { OnOk result (ids.new.items ≡ joined constants.now operation.now left.now right.now) }
{
    ids.clear();
    if leads(operation, constants, left) {
        return ids.extend_from_slice(left);
    }
    if leads(operation, constants, right) {
        return ids.extend_from_slice(right);
    }
    ids.extend_from_slice(left)?;
    ids.extend_from_slice(right)
}

/// Whether the first absorbs the others.
#[tactic(auto, unfolding(crate::specs::Choices::leads))]
fn leads(operation: &Operation, constants: &Constants, ids: &[RegexId]) -> bool
    ensures { result ≡ leads constants.now operation.now ids.now }
{
    match ids {
        [] => false,
        [first, ..] => operation.absorbs(constants, *first),
    }
}
