//! The members that an intersection is split into.

ghost use Rattle.std.specs.Prelude.{◌≡◌, ◌<◌, ◌&&◌, ◌||◌, ℕ, List, length, IfOk, OnOk};
ghost use Rattle.sb_lang.specs.Regex.{Regex};
ghost use Rattle.sb_lang.specs.Language.{language};
ghost use Rattle.sb_regex.specs.Numbered.{regex_at, AllNumbers, Extends};
ghost use Rattle.sb_members.specs.Members.{in_some, IsSplit};
ghost use Rattle.sb_members.specs.Choices.{in_each, IsChoice};

use sb_lang::constructors::{intersection_is_of_each, mkand_keeps_language};
use sb_regex::{Arena, Node, RegexId};
use std::alloc::{AllocError, Global};

/// Into so many members an intersection is split at most.
const MOST: usize = 16;

/// One of more members than this is left whole, since each of those that it were split into would have as many.
const MANY: usize = 64;

/// Regexes whose languages together are that of a regex: of an intersection, one for each choice of members of the
/// unions in it, as long as these are few, and at most `room`; else the regex itself, or the members of a union.
pub fn split(
    alloc: Global,
    arena: &mut Arena,
    regex: RegexId,
    room: usize,
) -> Result<Vec<RegexId>, AllocError>
    requires { regex < length arena.old }
    ensures split { IfOk result (λ members. IsSplit arena.new regex members.items) }
    ensures extends { Extends arena.old arena.new }
{
    mkand_keeps_language();
    intersection_is_of_each();
    let choice = choose(alloc, arena, regex, room)?;
    if choice.1.is_empty() {
        return members_of(alloc, arena, regex);
    }
    let first = arena.and(&choice.0)?;
    let members = cross_all(alloc, arena, first, &choice.1)?;
    Ok(members)
}

/// The members of a union, or the regex itself.
fn members_of(alloc: Global, arena: &Arena, regex: RegexId) -> Result<Vec<RegexId>, AllocError>
    requires { regex < length arena.now }
    ensures { IfOk result (λ members. IsSplit arena.now regex members.items) }
{
    match arena.node(regex) {
        Node::Alt(parts) => {
            let members = Vec::from_slice(alloc, parts.as_slice())?;
            Ok(members)
        }
        _ => {
            let members = Vec::from_slice(alloc, &[regex])?;
            Ok(members)
        }
    }
}

/// The members of an intersection that are left whole, and those that are divided.
fn choose(
    alloc: Global,
    arena: &Arena,
    regex: RegexId,
    room: usize,
) -> Result<(Vec<RegexId>, Vec<RegexId>), AllocError>
    requires { regex < length arena.now }
    ensures { IfOk result (λ choice. IsChoice arena.now regex choice.0.items choice.1.items) }
{
    intersection_is_of_each();
    match arena.node(regex) {
        Node::And(parts) => {
            let choice = choose_among(alloc, arena, parts.as_slice(), room)?;
            Ok(choice)
        }
        _ => {
            let whole = Vec::from_slice(alloc, &[regex])?;
            Ok((whole, Vec::new(alloc)))
        }
    }
}

/// The regexes that are left whole, and the unions that are divided: the choices of their members stay few.
fn choose_among(
    alloc: Global,
    arena: &Arena,
    parts: &[RegexId],
    room: usize,
) -> Result<(Vec<RegexId>, Vec<RegexId>), AllocError>
    requires { AllNumbers arena.now parts.now }
    ensures whole { IfOk result (λ choice. AllNumbers arena.now choice.0.items) }
    ensures divided { IfOk result (λ choice. AllNumbers arena.now choice.1.items) }
    ensures both { IfOk result (λ choice. (u : List ℕ)
        → (in_each arena.now choice.0.items u && in_each arena.now choice.1.items u)
        ≡ in_each arena.now parts.now u) }
{
    let mut whole = Vec::new(alloc);
    let mut divided = Vec::new(alloc);
    let mut room = room.min(room_of(parts.len()));
    for part in parts {
        let size = size_of(arena, *part);
        let left = left_of(room, size);
        put_part(&mut whole, &mut divided, *part, left < room)?;
        room = left;
    }
    Ok((whole, divided))
}

/// Into so many members the states of a walk that begins with a regex are split at most. Where that is an intersection
/// of many, they are left whole, also where few of its members are left: each of them may have as many ways to go on.
pub fn room_for(arena: &Arena, regex: RegexId) -> usize
    requires { regex < length arena.now }
{
    match arena.node(regex) {
        Node::And(parts) => room_of(parts.len()),
        _ => MOST,
    }
}

/// Into so many members an intersection of so many is split at most.
fn room_of(count: usize) -> usize {
    if count > MANY {
        return 1;
    }
    MOST
}

/// How many times as many members there may be once a union of this size is divided; the same where it can't be.
fn left_of(room: usize, size: usize) -> usize {
    if size > 1 && size <= room {
        return room / size;
    }
    room
}

/// Puts a regex behind those that are divided, or those that are left whole.
fn put_part(
    whole: &mut Vec<RegexId>,
    divided: &mut Vec<RegexId>,
    part: RegexId,
    divides: bool,
) -> Result<(), AllocError>
    ensures whole { OnOk result ((rs : List Regex) → part < length rs → AllNumbers rs whole.old.items
        → AllNumbers rs whole.new.items) }
    ensures divided { OnOk result ((rs : List Regex) → part < length rs → AllNumbers rs divided.old.items
        → AllNumbers rs divided.new.items) }
    ensures both { OnOk result ((rs : List Regex) (u : List ℕ)
        → (in_each rs whole.new.items u && in_each rs divided.new.items u)
        ≡ ((in_each rs whole.old.items u && in_each rs divided.old.items u) && language (regex_at rs part) u)) }
{
    if divides {
        divided.push(part)?;
        return Ok(());
    }
    whole.push(part)?;
    Ok(())
}

/// The number of the members of a union, or 1.
fn size_of(arena: &Arena, regex: RegexId) -> usize
    requires { regex < length arena.now }
{
    match arena.node(regex) {
        Node::Alt(parts) => parts.len(),
        _ => 1,
    }
}

/// The intersections of a regex and a member of each of some unions.
fn cross_all(
    alloc: Global,
    arena: &mut Arena,
    first: RegexId,
    unions: &[RegexId],
) -> Result<Vec<RegexId>, AllocError>
    requires first { first < length arena.old }
    requires unions { AllNumbers arena.old unions.now }
    ensures known { IfOk result (λ rows. AllNumbers arena.new rows.items) }
    ensures both { IfOk result (λ rows. (u : List ℕ) → in_some arena.new rows.items u
        ≡ (language (regex_at arena.old first) u && in_each arena.old unions.now u)) }
    ensures extends { Extends arena.old arena.new }
{
    let mut rows = Vec::from_slice(alloc, &[first])?;
    for part in unions {
        let choices = members_of(alloc, arena, *part)?;
        let next = cross(alloc, arena, &rows, &choices)?;
        rows = next;
    }
    Ok(rows)
}

/// The intersections of each of some regexes with each of others.
fn cross(
    alloc: Global,
    arena: &mut Arena,
    rows: &[RegexId],
    choices: &[RegexId],
) -> Result<Vec<RegexId>, AllocError>
    requires rows { AllNumbers arena.old rows.now }
    requires choices { AllNumbers arena.old choices.now }
    ensures known { IfOk result (λ all. AllNumbers arena.new all.items) }
    ensures both { IfOk result (λ all. (u : List ℕ) → in_some arena.new all.items u
        ≡ (in_some arena.old rows.now u && in_some arena.old choices.now u)) }
    ensures extends { Extends arena.old arena.new }
{
    let mut all = Vec::new(alloc);
    for row in rows {
        cross_one(arena, &mut all, *row, choices)?;
    }
    Ok(all)
}

/// Puts the intersections of a regex with each of others behind some.
fn cross_one(
    arena: &mut Arena,
    all: &mut Vec<RegexId>,
    row: RegexId,
    choices: &[RegexId],
) -> Result<(), AllocError>
    requires all { AllNumbers arena.old all.old.items }
    requires row { row < length arena.old }
    requires choices { AllNumbers arena.old choices.now }
    ensures known { OnOk result (AllNumbers arena.new all.new.items) }
    ensures both { OnOk result ((u : List ℕ) → in_some arena.new all.new.items u
        ≡ (in_some arena.old all.old.items u
        || (language (regex_at arena.old row) u && in_some arena.old choices.now u))) }
    ensures extends { Extends arena.old arena.new }
{
    mkand_keeps_language();
    intersection_is_of_each();
    for choice in choices {
        let both = arena.and(&[row, *choice])?;
        all.push(both)?;
    }
    Ok(())
}
