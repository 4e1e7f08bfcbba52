//! The ranges of the classes of an expansion, in their order.

ghost use Rattle.std.specs.Prelude.{◌≡◌, ◌++◌, length, IfOk, OnOk};
ghost use Rattle.sb_rules.specs.Pieces.{ArePieces, AreAdded, pieces_to, covers_from, ranged_at};

use crate::ranges::class_of;
use sb_class::LAST_CHARACTER;
use sb_proof::Class;
use sb_regex::RegexId;
use std::alloc::{AllocError, Global};

/// The ranges of all classes in ascending order, each with its target; none where a class is no canonical set.
pub(crate) fn pieces_of(
    alloc: Global,
    classes: &[Class],
    targets: &[RegexId],
) -> Result<Option<Vec<(u32, (u32, RegexId))>>, AllocError>
    requires { length targets.now ≡ length classes.now }
    ensures { IfOk result (λ found. ArePieces (ranged_at classes.now targets.now) found) }
{
    let mut pieces = Vec::new(alloc);
    let mut place = 0;
    while place < classes.len() {
        if !add(alloc, &mut pieces, &classes[place].ranges, targets[place])? {
            return Ok(None);
        }
        place += 1;
    }
    pieces.sort_unstable();
    Ok(Some(pieces))
}

/// Adds the ranges of a class, if it is a canonical set.
fn add(
    alloc: Global,
    pieces: &mut Vec<(u32, (u32, RegexId))>,
    ranges: &[(u64, u64)],
    target: RegexId,
) -> Result<bool, AllocError>
    ensures { IfOk result (λ b. AreAdded pieces.old.items pieces.new.items ranges.now target b) }
{
    let Some(set) = class_of(alloc, ranges)? else {
        return Ok(false);
    };
    add_all(pieces, set.ranges(), target)?;
    Ok(true)
}

/// Adds ranges.
fn add_all(
    pieces: &mut Vec<(u32, (u32, RegexId))>,
    ranges: &[(u32, u32)],
    target: RegexId,
) -> Result<(), AllocError>
    ensures { OnOk result (pieces.new.items ≡ pieces.old.items ++ pieces_to target ranges.now) }
{
    for range in ranges {
        pieces.push((range.0, (range.1, target)))?;
    }
    Ok(())
}

/// Whether the pieces follow one upon the other, from the first character to the last. Linear.
pub(crate) fn covers(pieces: &[(u32, (u32, RegexId))]) -> bool
    ensures { result ≡ covers_from 0 pieces.now }
{
    let mut next = 0;
    for piece in pieces {
        let (first, (last, _)) = *piece;
        if first != next || last < first || last > LAST_CHARACTER {
            return false;
        }
        next = last + 1;
    }
    next == LAST_CHARACTER + 1
}
