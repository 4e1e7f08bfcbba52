//! The edges that lead from states.

ghost use Rattle.std.specs.Prelude.{◌≡◌, ◌<◌, length, Some, IsSome, IfOk, OnOk};
ghost use Rattle.sb_lang.specs.Constructors.{mkcat};
ghost use Rattle.sb_regex.specs.Numbered.{regex_at, AllNumbers, Extends};
ghost use Rattle.sb_deriv.specs.Pieces.{targets_of};
ghost use Rattle.sb_deriv.specs.Faithful.{entry_of, IsFaithful, KeepsEntries};
ghost use Rattle.sb_members.specs.Members.{in_some};
ghost use Rattle.sb_graph.specs.Edges.{AreRising, AreEdges, IsPushed, ArePushed, AreFrom, AreGathered};

use sb_deriv::{Deriver, faithful_stays};
use sb_lang::constructors::mkalt_keeps_language;
use sb_lang::derivative::derivative_has_rests;
use sb_members::{front_of, is_none, starts_of};
use sb_regex::{Arena, RegexId};
use std::alloc::{AllocError, Global};

/// The edges from states, in the order of their characters.
///
/// Of a concatenation the derivatives of its heads alone are made, up to the first without the empty word.
pub(crate) fn edges_of(
    alloc: Global,
    arena: &mut Arena,
    deriver: &mut Deriver,
    states: &[RegexId],
) -> Result<Vec<(u32, RegexId)>, AllocError>
    requires known { AllNumbers arena.old states.now }
    requires faithful { IsFaithful arena.old deriver.old }
    ensures edges { IfOk result (λ edges. AreEdges arena.new (in_some arena.new states.now) edges.items) }
    ensures rising { IfOk result (λ edges. AreRising 0 edges.items) }
    ensures extends { Extends arena.old arena.new }
    ensures faithful { IsFaithful arena.new deriver.new }
    ensures kept { KeepsEntries deriver.old deriver.new }
{
    derivative_has_rests();
    mkalt_keeps_language();
    let starts = starts_of(alloc, arena, states)?;
    let mut edges = gather(alloc, arena, deriver, starts.as_slice())?;
    edges.sort_unstable();
    Ok(edges)
}

/// The edges from starts.
fn gather(
    alloc: Global,
    arena: &mut Arena,
    deriver: &mut Deriver,
    starts: &[RegexId],
) -> Result<Vec<(u32, RegexId)>, AllocError>
    requires known { AllNumbers arena.old starts.now }
    requires faithful { IsFaithful arena.old deriver.old }
    ensures gathered { IfOk result (λ edges. AreGathered arena.new starts.now (length starts.now) edges.items) }
    ensures extends { Extends arena.old arena.new }
    ensures faithful { IsFaithful arena.new deriver.new }
    ensures kept { KeepsEntries deriver.old deriver.new }
{
    let mut edges = Vec::new(alloc);
    for start in starts {
        push_from(arena, deriver, &mut edges, *start)?;
    }
    Ok(edges)
}

/// Puts the edges from a start behind others, but for those to the regex with no word.
fn push_from(
    arena: &mut Arena,
    deriver: &mut Deriver,
    edges: &mut Vec<(u32, RegexId)>,
    start: RegexId,
) -> Result<(), AllocError>
    requires known { start < length arena.old }
    requires faithful { IsFaithful arena.old deriver.old }
    ensures pushed { OnOk result (AreFrom arena.new start edges.old.items edges.new.items) }
    ensures extends { Extends arena.old arena.new }
    ensures faithful { IsFaithful arena.new deriver.new }
    ensures kept { KeepsEntries deriver.old deriver.new }
{
    faithful_stays();
    let (head, rest) = front_of(arena, start)?;
    deriver.derive(arena, head)?;
    push_pieces(arena, edges, pieces_of(deriver, head), rest)
}

/// The pieces of a derivative that is known.
fn pieces_of(deriver: &Deriver, regex: RegexId) -> &[(u32, RegexId)]
    requires { IsSome (entry_of deriver.now regex) }
    ensures { Some result.now ≡ entry_of deriver.now regex }
{
    match deriver.derivative(regex) {
        Some(derivative) => derivative.pieces(),
        None => unreachable!(),
    }
}

/// Puts behind others an edge to each target with a regex behind it.
fn push_pieces(
    arena: &mut Arena,
    edges: &mut Vec<(u32, RegexId)>,
    pieces: &[(u32, RegexId)],
    rest: RegexId,
) -> Result<(), AllocError>
    requires pieces { AllNumbers arena.old (targets_of pieces.now) }
    requires rest { rest < length arena.old }
    ensures pushed { OnOk result
        (ArePushed arena.new pieces.now rest (length pieces.now) edges.old.items edges.new.items) }
    ensures extends { Extends arena.old arena.new }
{
    for (character, target) in pieces {
        push_one(arena, edges, *character, *target, rest)?;
    }
    Ok(())
}

/// Puts an edge to a target with a regex behind it behind others, unless that has no word.
fn push_one(
    arena: &mut Arena,
    edges: &mut Vec<(u32, RegexId)>,
    character: u32,
    target: RegexId,
    rest: RegexId,
) -> Result<(), AllocError>
    requires target { target < length arena.old }
    requires rest { rest < length arena.old }
    ensures pushed { OnOk result (IsPushed arena.new character (mkcat (regex_at arena.old target) (regex_at arena.old rest))
        edges.old.items edges.new.items) }
    ensures extends { Extends arena.old arena.new }
{
    let behind = arena.cat(target, rest)?;
    if is_none(arena, behind) {
        return Ok(());
    }
    edges.push((character, behind))?;
    Ok(())
}
