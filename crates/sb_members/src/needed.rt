//! An intersection without members that follow from others.
//!
//! Of `ALL u` and `ALL v`, where `u` ends in `v` and `ALL` takes up what stands before it there, the second one follows
//! from the first. Of `u v` and `u ALL`, where the words of `v` are words of `ALL`, the second one follows from the first.

ghost use Rattle.std.specs.Prelude.{◌≡◌, ◌<◌, ℕ, List, [], true, length, get_or, take, All, IfOk, OnOk, IfSome};
ghost use Rattle.sb_lang.specs.Regex.{star};
ghost use Rattle.sb_lang.specs.Language.{language};
ghost use Rattle.sb_lang.specs.Languages.{one_character};
ghost use Rattle.sb_class.specs.Ranges.{in_range, in_ranges};
ghost use Rattle.sb_regex.specs.Numbered.{regex_at, AllNumbers, Extends};
ghost use Rattle.sb_members.specs.Choices.{in_each};
ghost use Rattle.sb_members.specs.Strongest.{IsWithin, TakesUp, AreWeaker, IsNext, IsTaken, in_rows, AreRows, AreNeeded, AreBehind, IsBehindPart};

use crate::none::is_none;
use indexmap::IndexSet;
use sb_lang::constructors::{intersection_is_of_each, mkand_keeps_language};
use sb_lang::languages::{cut_is_some_cut, iteration_is_some_power};
use sb_regex::{Arena, Node, RegexId};
use std::alloc::{AllocError, Global};

/// For so many pairs of a head and what stands behind it, for each member, it is noted that they follow.
const MOST: usize = 16;

/// So many ranges of a set are looked at.
const FEW: usize = 8;

/// The intersection of the members that don't follow from others, as far as that is seen: a concatenation of a star, or
/// of every word, and an end of what stands behind it in another member; and a front of the member before it, with such a
/// star or every word behind it. Another regex is itself.
///
/// Takes time n log n in the number of members, and linear in the numbers of parts of those that are concatenations,
/// beside the intersection.
pub fn strongest(alloc: Global, arena: &mut Arena, regex: RegexId) -> Result<RegexId, AllocError>
    requires { regex < length arena.old }
    ensures known { IfOk result (λ id. id < length arena.new) }
    ensures same { IfOk result
        (λ id. (u : List ℕ) → language (regex_at arena.new id) u ≡ language (regex_at arena.old regex) u) }
    ensures extends { Extends arena.old arena.new }
{
    mkand_keeps_language();
    intersection_is_of_each();
    match needed(alloc, arena, regex)? {
        Some(kept) => arena.and(&kept),
        None => Ok(regex),
    }
}

/// The members that are needed, where these are fewer.
fn needed(alloc: Global, arena: &Arena, regex: RegexId) -> Result<Option<Vec<RegexId>>, AllocError>
    requires { regex < length arena.now }
    ensures { IfOk result (λ found. IfSome found (λ kept. AreNeeded arena.now regex kept.items)) }
{
    intersection_is_of_each();
    match arena.node(regex) {
        Node::And(parts) => {
            let kept = needed_among(alloc, arena, parts.as_slice())?;
            if kept.len() < parts.len() {
                return Ok(Some(kept));
            }
            Ok(None)
        }
        _ => Ok(None),
    }
}

/// Those of the regexes that are needed for the words that all of them have.
fn needed_among(alloc: Global, arena: &Arena, parts: &[RegexId]) -> Result<Vec<RegexId>, AllocError>
    requires { AllNumbers arena.now parts.now }
    ensures known { IfOk result (λ kept. AllNumbers arena.now kept.items) }
    ensures same { IfOk result (λ kept. (u : List ℕ) → in_each arena.now kept.items u ≡ in_each arena.now parts.now u) }
{
    let longest = longest_fronts(alloc, arena, parts)?;
    without_ends(alloc, arena, &longest)
}

/// The regexes without those that are seen to follow from the one before them: in the order of regexes, a front with a
/// star behind it comes next to the longer fronts.
fn longest_fronts(
    alloc: Global,
    arena: &Arena,
    parts: &[RegexId],
) -> Result<Vec<RegexId>, AllocError>
    requires { AllNumbers arena.now parts.now }
    ensures known { IfOk result (λ kept. AllNumbers arena.now kept.items) }
    ensures same { IfOk result (λ kept. (u : List ℕ) → in_each arena.now kept.items u ≡ in_each arena.now parts.now u) }
{
    let mut kept = Vec::new(alloc);
    for i in 0..parts.len() {
        if !follows_at(arena, parts, i) {
            kept.push(parts[i])?;
        }
    }
    Ok(kept)
}

/// Whether the regex at a place is seen to follow from the one before it.
fn follows_at(arena: &Arena, parts: &[RegexId], i: usize) -> bool
    requires known { AllNumbers arena.now parts.now }
    requires place { i < length parts.now }
    ensures { result ≡ true
        → IsWithin (in_each arena.now (take i parts.now)) (language (regex_at arena.now (get_or parts.now i 0))) }
{
    if i == 0 {
        return false;
    }
    is_front_of(arena, parts[i], parts[i - 1])
}

/// Whether a regex is seen to be a front of another one with what takes in the rest behind it.
fn is_front_of(arena: &Arena, front: RegexId, regex: RegexId) -> bool
    requires front { front < length arena.now }
    requires regex { regex < length arena.now }
    ensures { result ≡ true
        → IsWithin (language (regex_at arena.now regex)) (language (regex_at arena.now front)) }
{
    let mut wide = front;
    let mut narrow = regex;
    while !takes_in(arena, wide, narrow) {
        let Some((x, y)) = behind_one_head(arena, wide, narrow) else {
            return false;
        };
        wide = x;
        narrow = y;
    }
    true
}

/// What stands behind the heads of two concatenations, where the heads are the same.
fn behind_one_head(arena: &Arena, wide: RegexId, narrow: RegexId) -> Option<(RegexId, RegexId)>
    requires wide { wide < length arena.now }
    requires narrow { narrow < length arena.now }
    ensures { IfSome result (AreBehind arena.now wide narrow) }
{
    cut_is_some_cut();
    match arena.node(wide) {
        Node::Cat(head, x) => match arena.node(narrow) {
            Node::Cat(other, y) => {
                if head == other {
                    return Some((*x, *y));
                }
                None
            }
            _ => None,
        },
        _ => None,
    }
}

/// Whether a star, or every word, has the words of another regex, as far as that is seen.
fn takes_in(arena: &Arena, head: RegexId, regex: RegexId) -> bool
    requires head { head < length arena.now }
    requires regex { regex < length arena.now }
    ensures { result ≡ true
        → IsWithin (language (regex_at arena.now regex)) (language (regex_at arena.now head)) }
{
    match arena.node(head) {
        Node::Star(body) => is_row(arena, head, *body, regex),
        Node::Not(part) => is_none(arena, *part),
        _ => false,
    }
}

/// Whether a regex is seen to be a concatenation of parts of the body, with the star or one more part at the end.
fn is_row(arena: &Arena, all: RegexId, body: RegexId, regex: RegexId) -> bool
    requires all { all < length arena.now }
    requires body { body < length arena.now }
    requires regex { regex < length arena.now }
    requires is { star (regex_at arena.now body) ≡ regex_at arena.now all }
    ensures { result ≡ true
        → IsWithin (language (regex_at arena.now regex)) (language (regex_at arena.now all)) }
{
    cut_is_some_cut();
    iteration_is_some_power();
    let mut at = regex;
    while at != all {
        let Some(next) = behind_part(arena, body, at) else {
            return lies_within(arena, at, body);
        };
        at = next;
    }
    true
}

/// What stands behind the head of a concatenation, if the words of the head are seen to be words of the body.
fn behind_part(arena: &Arena, body: RegexId, at: RegexId) -> Option<RegexId>
    requires body { body < length arena.now }
    requires at { at < length arena.now }
    ensures { IfSome result (IsBehindPart arena.now body at) }
{
    cut_is_some_cut();
    match arena.node(at) {
        Node::Cat(first, next) => {
            if lies_within(arena, *first, body) {
                return Some(*next);
            }
            None
        }
        _ => None,
    }
}

/// The regexes without those that are seen to follow from one with a longer end.
fn without_ends(alloc: Global, arena: &Arena, parts: &[RegexId]) -> Result<Vec<RegexId>, AllocError>
    requires { AllNumbers arena.now parts.now }
    ensures known { IfOk result (λ kept. AllNumbers arena.now kept.items) }
    ensures same { IfOk result (λ kept. (u : List ℕ) → in_each arena.now kept.items u ≡ in_each arena.now parts.now u) }
{
    let rows = rows_of(alloc, arena, parts)?;
    let mut kept = Vec::new(alloc);
    let mut weaker = IndexSet::new(alloc);
    take_all(arena, &mut kept, &mut weaker, &rows)?;
    Ok(kept)
}

/// Keeps those of the rows that are not seen to follow from one before them.
fn take_all(
    arena: &Arena,
    kept: &mut Vec<RegexId>,
    weaker: &mut IndexSet<(RegexId, RegexId)>,
    rows: &[(usize, RegexId)],
) -> Result<(), AllocError>
    requires rows { All (λ (row : ℕ × ℕ). row.1 < length arena.now) rows.now }
    requires kept { kept.old.items ≡ [] }
    requires weaker { weaker.old.keys ≡ [] }
    ensures known { OnOk result (AllNumbers arena.now kept.new.items) }
    ensures same { OnOk result
        ((u : List ℕ) → in_each arena.now kept.new.items u ≡ in_rows arena.now rows.now u) }
{
    let mut left = rows.len().saturating_mul(MOST);
    for row in rows {
        left = take(arena, kept, weaker, row.1, left)?;
    }
    Ok(())
}

/// The regexes, those first whose rest behind the head has the greatest number: it has those of its own ends as parts.
fn rows_of(
    alloc: Global,
    arena: &Arena,
    parts: &[RegexId],
) -> Result<Vec<(usize, RegexId)>, AllocError>
    requires { AllNumbers arena.now parts.now }
    ensures { IfOk result (λ rows. AreRows arena.now parts.now rows.items) }
{
    let mut rows = Vec::new(alloc);
    for part in parts {
        rows.push((usize::MAX - rest_of(arena, *part).number(), *part))?;
    }
    rows.sort_unstable();
    Ok(rows)
}

/// What stands behind the head of a concatenation; of another regex it is itself.
fn rest_of(arena: &Arena, regex: RegexId) -> RegexId
    requires { regex < length arena.now }
{
    match arena.node(regex) {
        Node::Cat(_, rest) => *rest,
        _ => regex,
    }
}

/// Keeps a regex, unless it follows from those that are kept, and notes what follows from it, in so many steps at most.
/// The steps that are left.
fn take(
    arena: &Arena,
    kept: &mut Vec<RegexId>,
    weaker: &mut IndexSet<(RegexId, RegexId)>,
    part: RegexId,
    steps: usize,
) -> Result<usize, AllocError>
    requires { part < length arena.now }
    ensures { OnOk result (IsTaken arena.now part kept.old.items weaker.old.keys kept.new.items weaker.new.keys) }
{
    match arena.node(part) {
        Node::Cat(head, rest) => {
            if weaker.contains(&(*head, *rest)) {
                return Ok(steps);
            }
            kept.push(part)?;
            note(arena, weaker, *head, *rest, steps)
        }
        _ => {
            kept.push(part)?;
            Ok(steps)
        }
    }
}

/// Notes what follows from a head and a rest.
fn note(
    arena: &Arena,
    weaker: &mut IndexSet<(RegexId, RegexId)>,
    head: RegexId,
    rest: RegexId,
    steps: usize,
) -> Result<usize, AllocError>
    requires head { head < length arena.now }
    requires rest { rest < length arena.now }
    ensures { OnOk result (AreWeaker arena.now (head, rest) weaker.old.keys weaker.new.keys) }
{
    let mut at = rest;
    let mut left = steps;
    while left > 0 {
        let Some(next) = next_of(arena, head, at) else {
            return Ok(left);
        };
        if !weaker.insert((head, next))? {
            return Ok(left);
        }
        left -= 1;
        at = next;
    }
    Ok(left)
}

/// What stands behind the first part of a rest, if the head takes that part up.
fn next_of(arena: &Arena, head: RegexId, at: RegexId) -> Option<RegexId>
    requires head { head < length arena.now }
    requires rest { at < length arena.now }
    ensures { IfSome result (IsNext arena.now head at) }
{
    match arena.node(at) {
        Node::Cat(first, next) => {
            if takes_up(arena, head, *first) {
                return Some(*next);
            }
            None
        }
        _ => None,
    }
}

/// Whether each word of the head with one of the other regex behind it is a word of the head.
fn takes_up(arena: &Arena, head: RegexId, first: RegexId) -> bool
    requires head { head < length arena.now }
    requires first { first < length arena.now }
    ensures { result ≡ true → TakesUp (regex_at arena.now head) (regex_at arena.now first) }
{
    cut_is_some_cut();
    iteration_is_some_power();
    match arena.node(head) {
        Node::Star(body) => lies_within(arena, first, *body),
        Node::Not(part) => is_none(arena, *part),
        _ => false,
    }
}

/// Whether the words of a regex are seen to be words of another one.
fn lies_within(arena: &Arena, regex: RegexId, other: RegexId) -> bool
    requires regex { regex < length arena.now }
    requires other { other < length arena.now }
    ensures { result ≡ true
        → IsWithin (language (regex_at arena.now regex)) (language (regex_at arena.now other)) }
{
    if regex == other {
        return true;
    }
    match arena.node(regex) {
        Node::Set(ranges) => set_lies_within(arena, ranges.as_slice(), other),
        _ => false,
    }
}

/// Whether the characters of a set of one range are seen to be words of a regex.
fn set_lies_within(arena: &Arena, ranges: &[(u32, u32)], other: RegexId) -> bool
    requires { other < length arena.now }
    ensures { result ≡ true
        → IsWithin (one_character (in_ranges ranges.now)) (language (regex_at arena.now other)) }
{
    match ranges {
        [range] => range_lies_within(arena, *range, other),
        _ => false,
    }
}

/// Whether the characters of a range are seen to be words of a regex.
fn range_lies_within(arena: &Arena, range: (u32, u32), other: RegexId) -> bool
    requires { other < length arena.now }
    ensures { result ≡ true
        → IsWithin (one_character (in_range range)) (language (regex_at arena.now other)) }
{
    match arena.node(other) {
        Node::Set(ranges) => covers(ranges.as_slice(), range),
        _ => false,
    }
}

/// Whether a range lies within one of few.
fn covers(ranges: &[(u32, u32)], range: (u32, u32)) -> bool
    ensures { result ≡ true → (c : ℕ) → in_range range c ≡ true → in_ranges ranges.now c ≡ true }
{
    if ranges.len() > FEW {
        return false;
    }
    for other in ranges {
        if other.0 <= range.0 && range.1 <= other.1 {
            return true;
        }
    }
    false
}
