//! A few literals that no word makes true together.

ghost use Rattle.std.specs.Prelude.{◌≡◌, ◌<◌, ◌+◌, true, false, length, IfOk, IfSome};
ghost use Rattle.sb_clash.specs.Literals.{AreClashing};
ghost use Rattle.sb_clash.specs.Asked.{CanBeAsked, Explores, IsCore, LeavesOut};

use crate::asking::least_word;
use sb_atoms::Atoms;
use sb_graph::{Explored, Graph};
use sb_lit::Lit;
use sb_regex::Arena;
use sb_term::Serial;
use std::alloc::{AllocError, Global};

/// The most literals of which each is tried to be left out.
const MOST_TRIED: usize = 32;

/// A few of the literals that no word makes true together. The last one is tried with each other one alone, and then,
/// where there are at most 32 literals, each is left out in turn where the others have no word without it. Its cost is
/// that of one exploration for each such try. `AllocError` only for want of memory.
pub fn core(
    alloc: Global,
    arena: &mut Arena,
    graph: &mut Graph,
    atoms: &Atoms,
    serial: Serial,
    literals: &[Lit],
) -> Result<Vec<Lit>, AllocError>
    requires can { CanBeAsked arena.old graph.old atoms.now serial.0 literals.now }
    requires clash { AreClashing arena.old atoms.now literals.now }
    ensures few { IfOk result (λ few. IsCore arena.new atoms.now literals.now few.items) }
    ensures explores { Explores arena.old arena.new graph.old graph.new }
{
    let found = pair_with_last(alloc, arena, graph, atoms, serial, literals)?;
    match found {
        Some(pair) => Ok(pair),
        None => leave_out(alloc, arena, graph, atoms, serial, literals),
    }
}

/// The last literal and another one that clash, if there are such.
fn pair_with_last(
    alloc: Global,
    arena: &mut Arena,
    graph: &mut Graph,
    atoms: &Atoms,
    serial: Serial,
    literals: &[Lit],
) -> Result<Option<Vec<Lit>>, AllocError>
    requires { CanBeAsked arena.old graph.old atoms.now serial.0 literals.now }
    ensures few { IfOk result (λ found. IfSome found (λ few. IsCore arena.new atoms.now literals.now few.items)) }
    ensures explores { Explores arena.old arena.new graph.old graph.new }
{
    let Some(last) = literals.len().checked_sub(1) else {
        return Ok(None);
    };
    let mut place = 0;
    while place < last {
        let pair = [literals[place], literals[last]];
        if clash(alloc, arena, graph, atoms, serial, &pair)? {
            return Ok(Some(Vec::from_slice(alloc, &pair)?));
        }
        place += 1;
    }
    Ok(None)
}

/// Whether no word makes the literals true together.
fn clash(
    alloc: Global,
    arena: &mut Arena,
    graph: &mut Graph,
    atoms: &Atoms,
    serial: Serial,
    literals: &[Lit],
) -> Result<bool, AllocError>
    requires { CanBeAsked arena.old graph.old atoms.now serial.0 literals.now }
    ensures clash { IfOk result (λ b. b ≡ true → AreClashing arena.new atoms.now literals.now) }
    ensures explores { Explores arena.old arena.new graph.old graph.new }
{
    match least_word(alloc, arena, graph, atoms, serial, literals, false)? {
        Explored::Dead => Ok(true),
        Explored::Alive(_) => Ok(false),
    }
}

/// What is left of the literals once each is left out in turn without which the others clash, where there are at most
/// 32; else all of them.
fn leave_out(
    alloc: Global,
    arena: &mut Arena,
    graph: &mut Graph,
    atoms: &Atoms,
    serial: Serial,
    literals: &[Lit],
) -> Result<Vec<Lit>, AllocError>
    requires can { CanBeAsked arena.old graph.old atoms.now serial.0 literals.now }
    requires clash { AreClashing arena.old atoms.now literals.now }
    ensures few { IfOk result (λ few. IsCore arena.new atoms.now literals.now few.items) }
    ensures explores { Explores arena.old arena.new graph.old graph.new }
{
    let mut left = Vec::from_slice(alloc, literals)?;
    if left.len() > MOST_TRIED {
        return Ok(left);
    }
    let mut place = 0;
    while place < left.len() {
        if !leaves_out(alloc, arena, graph, atoms, serial, &mut left, place)? {
            place += 1;
        }
    }
    Ok(left)
}

/// Leaves out the literal at a place where the others clash without it. Whether it was left out.
fn leaves_out(
    alloc: Global,
    arena: &mut Arena,
    graph: &mut Graph,
    atoms: &Atoms,
    serial: Serial,
    left: &mut Vec<Lit>,
    place: usize,
) -> Result<bool, AllocError>
    requires place { place < length left.old.items }
    requires can { CanBeAsked arena.old graph.old atoms.now serial.0 left.old.items }
    requires clash { AreClashing arena.old atoms.now left.old.items }
    ensures ok { IfOk result
        (LeavesOut arena.new graph.new atoms.now serial.0 left.old.items left.new.items) }
    ensures explores { Explores arena.old arena.new graph.old graph.new }
{
    let mut others = Vec::from_slice(alloc, left)?;
    others.remove(place);
    if !clash(alloc, arena, graph, atoms, serial, &others)? {
        return Ok(false);
    }
    *left = others;
    Ok(true)
}
