//! Regular expressions that are made of others.

ghost use Rattle.std.specs.Prelude.{◌≡◌, IfOk, map};
ghost use Rattle.sb_lang.specs.Regex.{none};
ghost use Rattle.sb_lang.specs.Constructors.{anything, any_character, mknot, mkstar};
ghost use Rattle.sb_regex.specs.Numbered.{AllNumbers, Extends, regexes_at};
ghost use Rattle.sb_problem.specs.Shapes.{IsFound, joined_right, joined_left, of_nothing, of_one};
ghost use Rattle.sb_problem.specs.Shapes.{either, both, without, repeated, optional, times, made};

use crate::literals::of_characters;
use sb_lang::fold::{intersection_of_members, intersection_of_more, union_of_more, union_of_one};
use sb_lang::normal_form::constructors_give_normal;
use sb_regex::{Arena, RegexId};
use sb_term::Symbol;
use std::alloc::{AllocError, Global};

/// What a symbol makes of regexes, `None` where it does not take so many.
pub(crate) fn joined(
    alloc: Global,
    arena: &mut Arena,
    symbol: Symbol,
    ids: &[RegexId],
) -> Result<Option<RegexId>, AllocError>
    requires { AllNumbers arena.old ids.now }
    ensures ok { IfOk result (λ found. IsFound arena.new found (made symbol (regexes_at arena.old ids.now))) }
    ensures extends { Extends arena.old arena.new }
{
    match symbol {
        Symbol::ReNone => no_word(arena, ids),
        Symbol::ReAll => every_word(arena, ids),
        Symbol::ReAllChar => every_character(alloc, arena, ids),
        Symbol::ReUnion => union(arena, ids),
        Symbol::ReInter => intersection(arena, ids),
        Symbol::ReDiff => difference(alloc, arena, ids),
        Symbol::ReStar => star(arena, ids),
        Symbol::RePlus => plus(arena, ids),
        Symbol::ReOpt => option(arena, ids),
        Symbol::ReComp => complement(arena, ids),
        Symbol::RePower(count) => repetition(arena, count, count, ids),
        Symbol::ReLoop(least, most) => repetition(arena, least, most, ids),
        _ => Ok(None),
    }
}

/// The regex with no word, of none.
fn no_word(arena: &mut Arena, ids: &[RegexId]) -> Result<Option<RegexId>, AllocError>
    requires { AllNumbers arena.old ids.now }
    ensures ok { IfOk result (λ found. IsFound arena.new found (of_nothing none (regexes_at arena.old ids.now))) }
    ensures extends { Extends arena.old arena.new }
{
    if !ids.is_empty() {
        return Ok(None);
    }
    Ok(Some(arena.none()?))
}

/// The regex of every word, of none.
fn every_word(arena: &mut Arena, ids: &[RegexId]) -> Result<Option<RegexId>, AllocError>
    requires { AllNumbers arena.old ids.now }
    ensures ok { IfOk result (λ found. IsFound arena.new found (of_nothing anything (regexes_at arena.old ids.now))) }
    ensures extends { Extends arena.old arena.new }
{
    if !ids.is_empty() {
        return Ok(None);
    }
    let none = arena.none()?;
    Ok(Some(arena.not(none)?))
}

/// The regex of every character, of none.
fn every_character(
    alloc: Global,
    arena: &mut Arena,
    ids: &[RegexId],
) -> Result<Option<RegexId>, AllocError>
    requires { AllNumbers arena.old ids.now }
    ensures ok { IfOk result
        (λ found. IsFound arena.new found (of_nothing any_character (regexes_at arena.old ids.now))) }
    ensures extends { Extends arena.old arena.new }
{
    if !ids.is_empty() {
        return Ok(None);
    }
    Ok(Some(of_characters(alloc, arena)?))
}

/// The union of one or more.
fn union(arena: &mut Arena, ids: &[RegexId]) -> Result<Option<RegexId>, AllocError>
    requires { AllNumbers arena.old ids.now }
    ensures ok { IfOk result (λ found. IsFound arena.new found (joined_right either (regexes_at arena.old ids.now))) }
    ensures extends { Extends arena.old arena.new }
{
    union_of_one();
    union_of_more();
    arena.normal_regexes_each_once();
    if ids.is_empty() {
        return Ok(None);
    }
    Ok(Some(arena.alt(ids)?))
}

/// The intersection of one or more.
fn intersection(arena: &mut Arena, ids: &[RegexId]) -> Result<Option<RegexId>, AllocError>
    requires { AllNumbers arena.old ids.now }
    ensures ok { IfOk result (λ found. IsFound arena.new found (joined_right both (regexes_at arena.old ids.now))) }
    ensures extends { Extends arena.old arena.new }
{
    intersection_of_more();
    arena.normal_regexes_each_once();
    match ids {
        [] => Ok(None),
        [only] => Ok(Some(*only)),
        _ => Ok(Some(arena.and(ids)?)),
    }
}

/// The first of one or more without the words of the others.
fn difference(
    alloc: Global,
    arena: &mut Arena,
    ids: &[RegexId],
) -> Result<Option<RegexId>, AllocError>
    requires { AllNumbers arena.old ids.now }
    ensures ok { IfOk result (λ found. IsFound arena.new found (joined_left without (regexes_at arena.old ids.now))) }
    ensures extends { Extends arena.old arena.new }
{
    let [first, others @ ..] = ids else {
        return Ok(None);
    };
    intersection_of_more();
    intersection_of_members();
    constructors_give_normal();
    arena.normal_regexes_each_once();
    if others.is_empty() {
        return Ok(Some(*first));
    }
    let mut members = complements(alloc, arena, others)?;
    members.push(*first)?;
    Ok(Some(arena.and(&members)?))
}

/// The complements of regexes, in their order.
fn complements(
    alloc: Global,
    arena: &mut Arena,
    ids: &[RegexId],
) -> Result<Vec<RegexId>, AllocError>
    requires { AllNumbers arena.old ids.now }
    ensures numbers { IfOk result (λ found. AllNumbers arena.new found.items) }
    ensures regexes { IfOk result
        (λ found. regexes_at arena.new found.items ≡ map mknot (regexes_at arena.old ids.now)) }
    ensures extends { Extends arena.old arena.new }
{
    let mut found = Vec::new(alloc);
    for id in ids {
        let complement = arena.not(*id)?;
        found.push(complement)?;
    }
    Ok(found)
}

/// The star of one.
fn star(arena: &mut Arena, ids: &[RegexId]) -> Result<Option<RegexId>, AllocError>
    requires { AllNumbers arena.old ids.now }
    ensures ok { IfOk result (λ found. IsFound arena.new found (of_one mkstar (regexes_at arena.old ids.now))) }
    ensures extends { Extends arena.old arena.new }
{
    let [body] = ids else {
        return Ok(None);
    };
    Ok(Some(arena.star(*body)?))
}

/// One and its star.
fn plus(arena: &mut Arena, ids: &[RegexId]) -> Result<Option<RegexId>, AllocError>
    requires { AllNumbers arena.old ids.now }
    ensures ok { IfOk result (λ found. IsFound arena.new found (of_one repeated (regexes_at arena.old ids.now))) }
    ensures extends { Extends arena.old arena.new }
{
    let [body] = ids else {
        return Ok(None);
    };
    let star = arena.star(*body)?;
    Ok(Some(arena.cat(*body, star)?))
}

/// One or the empty word.
fn option(arena: &mut Arena, ids: &[RegexId]) -> Result<Option<RegexId>, AllocError>
    requires { AllNumbers arena.old ids.now }
    ensures ok { IfOk result (λ found. IsFound arena.new found (of_one optional (regexes_at arena.old ids.now))) }
    ensures extends { Extends arena.old arena.new }
{
    let [body] = ids else {
        return Ok(None);
    };
    let eps = arena.eps()?;
    Ok(Some(arena.alt(&[*body, eps])?))
}

/// The complement of one.
fn complement(arena: &mut Arena, ids: &[RegexId]) -> Result<Option<RegexId>, AllocError>
    requires { AllNumbers arena.old ids.now }
    ensures ok { IfOk result (λ found. IsFound arena.new found (of_one mknot (regexes_at arena.old ids.now))) }
    ensures extends { Extends arena.old arena.new }
{
    let [body] = ids else {
        return Ok(None);
    };
    Ok(Some(arena.not(*body)?))
}

/// One, so many times at least and so many at most.
fn repetition(
    arena: &mut Arena,
    least: u32,
    most: u32,
    ids: &[RegexId],
) -> Result<Option<RegexId>, AllocError>
    requires { AllNumbers arena.old ids.now }
    ensures ok { IfOk result
        (λ found. IsFound arena.new found (of_one (times least most) (regexes_at arena.old ids.now))) }
    ensures extends { Extends arena.old arena.new }
{
    let [body] = ids else {
        return Ok(None);
    };
    Ok(Some(arena.rep(*body, least as u64, most as u64)?))
}
