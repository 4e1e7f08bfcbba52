//! The set operations on lists of ranges that ascend with a gap between any two.
ghost use Rattle.std.specs.Prelude.{◌≡◌, ℕ, ◌≤◌, ◌&&◌, ◌||◌, not, true, IsTrue, ◌↔◌, IfOk, OnOk, MatchOption};
ghost use Rattle.sb_class.specs.Ranges.{in_range, in_ranges, fits_from, IsCanonical, IsEmptySet, IsLeast, AreCuts};
ghost use Rattle.sb_word.specs.Words.{is_character};
ghost use Rattle.sb_class.specs.Ends.{last_start_or, StartsAfter, IsPushed};

use crate::LAST_CHARACTER;
use std::alloc::{AllocError, Global};

/// Whether the ranges ascend within the characters, with a gap between any two.
pub fn is_canonical(ranges: &[(u32, u32)]) -> bool
    ensures { IsTrue result ↔ IsCanonical ranges.now }
{
    let mut next = 0;
    for range in ranges {
        if range.0 < next || range.1 < range.0 || LAST_CHARACTER < range.1 {
            return false;
        }
        next = range.1 + 2;
    }
    true
}

/// Whether `c` lies in one of the ranges, by binary search.
pub fn contains(ranges: &[(u32, u32)], c: u32) -> bool
    requires { IsCanonical ranges.now }
    ensures { result ≡ in_ranges ranges.now c }
{
    let mut low = 0;
    let mut high = ranges.len();
    while low < high {
        let middle = low + (high - low) / 2;
        let (start, end) = ranges[middle];
        if c < start {
            high = middle;
        } else if end < c {
            low = middle + 1;
        } else {
            return true;
        }
    }
    false
}

/// The start of the first range.
pub fn least(ranges: &[(u32, u32)]) -> Option<u32>
    requires { IsCanonical ranges.now }
    ensures { MatchOption result (IsEmptySet ranges.now) (λ m. IsLeast ranges.now m) }
{
    if ranges.is_empty() {
        None
    } else {
        Some(ranges[0].0)
    }
}

/// Adds a range that starts no earlier than the last one, and joins the two where they touch.
fn push(out: &mut Vec<(u32, u32)>, range: (u32, u32)) -> Result<(), AllocError>
    requires canonical { IsCanonical out.old.items }
    requires fits { fits_from (last_start_or 0 out.old.items) range ≡ true }
    ensures { OnOk result (IsPushed out.old.items out.new.items range) }
{
    let len = out.len();
    if len > 0 {
        let last = out[len - 1];
        if range.0 <= last.1 + 1 {
            out[len - 1] = (last.0, last.1.max(range.1));
            return Ok(());
        }
    }
    out.push(range)?;
    Ok(())
}

/// Adds ranges of which the first starts no earlier than the last one there.
fn push_all(out: &mut Vec<(u32, u32)>, ranges: &[(u32, u32)]) -> Result<(), AllocError>
    requires canonical { IsCanonical out.old.items }
    requires fit { StartsAfter out.old.items ranges.now }
    ensures canonical { OnOk result (IsCanonical out.new.items) }
    ensures members { OnOk result ((c : ℕ)
        → in_ranges out.new.items c ≡ (in_ranges out.old.items c || in_ranges ranges.now c)) }
{
    for range in ranges {
        push(out, *range)?;
    }
    Ok(())
}

/// The members of either list: a merge by the ranges' starts.
pub fn union(
    alloc: Global,
    left: &[(u32, u32)],
    right: &[(u32, u32)],
) -> Result<Vec<(u32, u32)>, AllocError>
    requires left { IsCanonical left.now }
    requires right { IsCanonical right.now }
    ensures { IfOk result
        (λ out. IsCanonical out.items
        × ((c : ℕ) → in_ranges out.items c ≡ (in_ranges left.now c || in_ranges right.now c))) }
{
    let mut out = Vec::new(alloc);
    let mut i = 0;
    let mut j = 0;
    while i < left.len() && j < right.len() {
        if left[i].0 <= right[j].0 {
            push(&mut out, left[i])?;
            i += 1;
        } else {
            push(&mut out, right[j])?;
            j += 1;
        }
    }
    let rest = if i < left.len() {
        &left[i..]
    } else {
        &right[j..]
    };
    push_all(&mut out, rest)?;
    Ok(out)
}

/// The members of both lists. Of the two ranges at hand, the one that ends first meets no later one.
pub fn inter(
    alloc: Global,
    left: &[(u32, u32)],
    right: &[(u32, u32)],
) -> Result<Vec<(u32, u32)>, AllocError>
    requires left { IsCanonical left.now }
    requires right { IsCanonical right.now }
    ensures { IfOk result
        (λ out. IsCanonical out.items
        × ((c : ℕ) → in_ranges out.items c ≡ (in_ranges left.now c && in_ranges right.now c))) }
{
    let mut out = Vec::new(alloc);
    let mut i = 0;
    let mut j = 0;
    while i < left.len() && j < right.len() {
        let start = left[i].0.max(right[j].0);
        let end = left[i].1.min(right[j].1);
        if start <= end {
            out.push((start, end))?;
        }
        if left[i].1 <= right[j].1 {
            i += 1;
        } else {
            j += 1;
        }
    }
    Ok(out)
}

/// The characters between the ranges, before the first and after the last.
pub fn complement(alloc: Global, ranges: &[(u32, u32)]) -> Result<Vec<(u32, u32)>, AllocError>
    requires { IsCanonical ranges.now }
    ensures { IfOk result
        (λ out. IsCanonical out.items
        × ((c : ℕ) → in_ranges out.items c ≡ (is_character c && not (in_ranges ranges.now c)))) }
{
    let mut out = Vec::new(alloc);
    let mut next = 0;
    for range in ranges {
        if next < range.0 {
            out.push((next, range.0 - 1))?;
        }
        next = range.1 + 1;
    }
    if next <= LAST_CHARACTER {
        out.push((next, LAST_CHARACTER))?;
    }
    Ok(out)
}

/// The start of each range and the character after it, except 0 and the one after the last character.
pub fn cuts(alloc: Global, ranges: &[(u32, u32)]) -> Result<Vec<u32>, AllocError>
    requires { IsCanonical ranges.now }
    ensures { IfOk result (λ cuts. AreCuts ranges.now cuts.items) }
{
    let mut cuts = Vec::new(alloc);
    for range in ranges {
        if range.0 > 0 {
            cuts.push(range.0)?;
        }
        if range.1 < LAST_CHARACTER {
            cuts.push(range.1 + 1)?;
        }
    }
    Ok(cuts)
}
