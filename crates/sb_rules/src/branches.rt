//! The test of an expansion: whether classes of characters, each with the number of a regex in an arena, are the
//! expansion of a regex.

ghost use Rattle.std.specs.Prelude.{◌≡◌, ◌<◌, ◌≤◌, true, length, IfOk, All};
ghost use Rattle.sb_regex.specs.Numbered.{regex_at, AllNumbers, Extends};
ghost use Rattle.sb_lang.specs.Derivative.{nd};
ghost use Rattle.sb_lang.specs.Order.{regex_eq};
ghost use Rattle.sb_plain.specs.CutPoints.{AreCutPoints};
ghost use Rattle.sb_plain.specs.Memory.{IsRight};
ghost use Rattle.sb_rulebook.specs.Expansions as rules;
ghost use Rattle.sb_rules.specs.Branches.{branches_at};
ghost use Rattle.sb_rules.specs.Pieces.{Piece, covers_from, LeadsRight, LeadRight};

use crate::pieces::{covers, pieces_of};
use sb_lang::order::order_tells_apart;
use sb_plain::Plain;
use sb_proof::Class;
use sb_regex::{Arena, RegexId};
use sb_rulebook::laws::test_decides_expansion;
use std::alloc::{AllocError, Global};

/// Whether the classes, each with the number of its target in the arena, are the expansion of a regex: canonical sets,
/// of which each character is in one, and that leads to the derivative by it.
///
/// In the number n of ranges and of cut points of the regex it takes time n log n, and a derivative for each of them,
/// that is a look-up where it was made before. `AllocError` only for want of memory; the arena may hold more regexes
/// then.
pub fn is_expansion(
    alloc: Global,
    arena: &mut Arena,
    plain: &mut Plain,
    regex: RegexId,
    classes: &[Class],
    targets: &[RegexId],
) -> Result<bool, AllocError>
    requires known { regex < length arena.old }
    requires targets { AllNumbers arena.old targets.now }
    requires long { length targets.now ≡ length classes.now }
    requires right { IsRight arena.old plain.old }
    ensures ok { IfOk result
        (λ b. b ≡ rules.is_expansion (regex_at arena.old regex) (branches_at arena.old classes.now targets.now)) }
    ensures extends { Extends arena.old arena.new }
    ensures right { IsRight arena.new plain.new }
{
    test_decides_expansion();
    order_tells_apart();
    let Some(pieces) = pieces_of(alloc, classes, targets)? else {
        return Ok(false);
    };
    if !covers(&pieces) {
        return Ok(false);
    }
    let points = plain.cut_points(arena, regex)?;
    lead_right(arena, plain, regex, &pieces, &points)
}

/// Whether each piece leads to the derivative by all of its characters.
fn lead_right(
    arena: &mut Arena,
    plain: &mut Plain,
    regex: RegexId,
    pieces: &[(u32, (u32, RegexId))],
    points: &[u32],
) -> Result<bool, AllocError>
    requires known { regex < length arena.old }
    requires targets { All (λ p. p.1.1 < length arena.old) pieces.now }
    requires covers { covers_from 0 pieces.now ≡ true }
    requires points { AreCutPoints (regex_at arena.old regex) points.now }
    requires right { IsRight arena.old plain.old }
    ensures ok { IfOk result (λ b. LeadRight arena.old (regex_at arena.old regex) pieces.now b) }
    ensures extends { Extends arena.old arena.new }
    ensures right { IsRight arena.new plain.new }
{
    for piece in pieces {
        if !leads_right(arena, plain, regex, *piece, points)? {
            return Ok(false);
        }
    }
    Ok(true)
}

/// Whether a piece leads to the derivative by all of its characters.
fn leads_right(
    arena: &mut Arena,
    plain: &mut Plain,
    regex: RegexId,
    piece: (u32, (u32, RegexId)),
    points: &[u32],
) -> Result<bool, AllocError>
    requires known { regex < length arena.old }
    requires target { piece.1.1 < length arena.old }
    requires ordered { piece.0 ≤ piece.1.0 }
    requires characters { piece.1.0 ≤ 0x2ffff }
    requires points { AreCutPoints (regex_at arena.old regex) points.now }
    requires right { IsRight arena.old plain.old }
    ensures ok { IfOk result (λ b. LeadsRight arena.old (regex_at arena.old regex) piece b) }
    ensures extends { Extends arena.old arena.new }
    ensures right { IsRight arena.new plain.new }
{
    let (first, (last, target)) = piece;
    if !leads_at(arena, plain, regex, first, target)? {
        return Ok(false);
    }
    let mut place = points.partition_point(|point| *point <= first);
    while place < points.len() && points[place] <= last {
        if !leads_at(arena, plain, regex, points[place], target)? {
            return Ok(false);
        }
        place += 1;
    }
    Ok(true)
}

/// Whether the derivative by a character is the target.
fn leads_at(
    arena: &mut Arena,
    plain: &mut Plain,
    regex: RegexId,
    character: u32,
    target: RegexId,
) -> Result<bool, AllocError>
    requires known { regex < length arena.old }
    requires target { target < length arena.old }
    requires character { character ≤ 0x2ffff }
    requires right { IsRight arena.old plain.old }
    ensures ok { IfOk result
        (λ b. b ≡ regex_eq (nd (regex_at arena.old regex) character) (regex_at arena.old target)) }
    ensures extends { Extends arena.old arena.new }
    ensures right { IsRight arena.new plain.new }
{
    order_tells_apart();
    let derivative = plain.plain_derivative(arena, regex, character)?;
    arena.normal_regexes_each_once();
    Ok(derivative == target)
}
