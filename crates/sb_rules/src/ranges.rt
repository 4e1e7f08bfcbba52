//! Ranges of numbers, as sets of characters.

ghost use Rattle.std.specs.Prelude.{IfOk};
ghost use Rattle.sb_rules.specs.Ranging.{AreNarrowed, IsClassOf};

use sb_class::{Class, LAST_CHARACTER};
use std::alloc::{AllocError, Global};

/// The set of these ranges, if they are a canonical one. Linear in their number.
pub(crate) fn class_of(alloc: Global, ranges: &[(u64, u64)]) -> Result<Option<Class>, AllocError>
    ensures { IfOk result (λ found. IsClassOf ranges.now found) }
{
    let Some(narrow) = narrowed(alloc, ranges)? else {
        return Ok(None);
    };
    Class::from_ranges(alloc, &narrow)
}

/// The ranges, if their ends are characters.
fn narrowed(alloc: Global, ranges: &[(u64, u64)]) -> Result<Option<Vec<(u32, u32)>>, AllocError>
    ensures { IfOk result (λ found. AreNarrowed ranges.now found) }
{
    let mut narrow = Vec::with_capacity(alloc, ranges.len())?;
    for range in ranges {
        if range.0 > LAST_CHARACTER as u64 || range.1 > LAST_CHARACTER as u64 {
            return Ok(None);
        }
        narrow.push((range.0 as u32, range.1 as u32))?;
    }
    Ok(Some(narrow))
}
