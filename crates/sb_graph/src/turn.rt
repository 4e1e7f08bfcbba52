//! A turn of the states that one word leads to.

ghost use Rattle.std.specs.Prelude.{◌≡◌, ◌<◌, ◌≤◌, ℕ, length, IfOk, OnOk};
ghost use Rattle.sb_lang.specs.Languages.{Language};
ghost use Rattle.sb_regex.specs.Numbered.{AllNumbers, Extends};
ghost use Rattle.sb_deriv.specs.Pieces.{targets_of};
ghost use Rattle.sb_deriv.specs.Faithful.{IsFaithful, KeepsEntries};
ghost use Rattle.sb_graph.specs.Queue.{regex_of};
ghost use Rattle.sb_graph.specs.Edges.{Puts, IsPut};
ghost use Rattle.sb_graph.specs.Walks.{IsSearched, IsTurned};

use crate::edges::edges_of;
use crate::queue::Queue;
use sb_deriv::{Deriver, faithful_stays};
use sb_members::split;
use sb_regex::{Arena, Node, RegexId};
use std::alloc::{AllocError, Global};

/// Puts the states behind those that have the way of a place into the queue, intersections split into at most `room`
/// each. The first place behind these.
pub(crate) fn take_turn(
    alloc: Global,
    arena: &mut Arena,
    deriver: &mut Deriver,
    queue: &mut Queue,
    place: usize,
    room: usize,
) -> Result<usize, AllocError>
    requires within { place < length queue.old }
    requires faithful { IsFaithful arena.old deriver.old }
    requires known { (k : ℕ) → k < length queue.old → regex_of queue.old k < length arena.old }
    ensures next { IfOk result (λ end. (place < end) × (end ≤ length queue.old)) }
    ensures turned { IfOk result (λ end. (L : Language) → IsSearched arena.old L queue.old place
        → IsTurned arena.new L queue.old queue.new end) }
    ensures extends { Extends arena.old arena.new }
    ensures faithful { IsFaithful arena.new deriver.new }
    ensures kept { KeepsEntries deriver.old deriver.new }
{
    faithful_stays();
    let end = queue.run_end(place);
    let edges = edges_of(alloc, arena, deriver, &queue.regexes()[place..end])?;
    put_edges(alloc, arena, queue, &edges, place, room)?;
    Ok(end)
}

/// Puts the states that edges lead to into the queue.
fn put_edges(
    alloc: Global,
    arena: &mut Arena,
    queue: &mut Queue,
    edges: &[(u32, RegexId)],
    place: usize,
    room: usize,
) -> Result<(), AllocError>
    requires { AllNumbers arena.old (targets_of edges.now) }
    ensures puts { OnOk result (Puts arena.new place edges.now queue.old queue.new) }
    ensures extends { Extends arena.old arena.new }
{
    for (character, target) in edges {
        put_parts(alloc, arena, queue, *target, (place, *character), room)?;
    }
    Ok(())
}

/// Puts the members that a regex is split into into the queue.
fn put_parts(
    alloc: Global,
    arena: &mut Arena,
    queue: &mut Queue,
    target: RegexId,
    way: (usize, u32),
    room: usize,
) -> Result<(), AllocError>
    requires { target < length arena.old }
    ensures put { OnOk result (IsPut arena.new target way queue.old queue.new) }
    ensures extends { Extends arena.old arena.new }
{
    if is_intersection(arena, target) {
        let members = split(alloc, arena, target, room)?;
        return queue.put_each(&members, way.0, way.1);
    }
    put_union(arena, queue, target, way.0, way.1)
}

fn is_intersection(arena: &Arena, regex: RegexId) -> bool
    requires { regex < length arena.now }
{
    match arena.node(regex) {
        Node::And(_) => true,
        _ => false,
    }
}

/// Puts the members of a union into the queue, or another regex itself, but for the one that has no word.
fn put_union(
    arena: &Arena,
    queue: &mut Queue,
    target: RegexId,
    place: usize,
    character: u32,
) -> Result<(), AllocError>
    requires { target < length arena.now }
    ensures { OnOk result (IsPut arena.now target (place, character) queue.old queue.new) }
{
    match arena.node(target) {
        Node::None => Ok(()),
        Node::Alt(parts) => queue.put_each(parts.as_slice(), place, character),
        _ => queue.put(target, place, character),
    }
}
