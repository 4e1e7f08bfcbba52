//! Lists of cut points.

ghost use Rattle.std.specs.Prelude.{◌≡◌, ◌<◌, ◌≤◌, [], ◌∷◌, All, Some, get_or, slice_get, length, OnOk, IfOk};
ghost use Rattle.std.specs.List.{list_all};
ghost use Rattle.std.specs.List.Sorted.{IsStrictlyIncreasing};
ghost use Rattle.sb_class.specs.Ranges.{in_range, in_ranges};
ghost use Rattle.sb_plain.specs.CutPoints.{ArePoints};
ghost use Rattle.sb_plain.specs.Making.{stretch, Covers, Parts};

use sb_class::LAST_CHARACTER;
use std::alloc::{AllocError, Global};
use std::collections::BTreeSet;
use std::marker::Model;

/// Characters in ascending order, from 0 on.
#[derive(Drop)]
pub(crate) struct Points {
    points: Vec<u32>,
}

impl Model for Points {
    ghost use Rattle.std.specs.Prelude.{ℕ, List};

    ghost Value = { List ℕ };

    ghost use Rattle.sb_plain.specs.CutPoints.{ArePoints};

    ghost view = { λ points. points.points.items };

    ghost invariant = { λ points. ArePoints points.points.items };
}

impl Points {
    fn new(points: Vec<u32>) -> Points
        requires { ArePoints points.items }
        ensures { result ≡ points.items }
    {
        Points { points }
    }

    pub(crate) fn as_slice(&self) -> &[u32]
        ensures value { result.now ≡ self.now }
        ensures points { ArePoints self.now }
    {
        &self.points
    }

    /// The last point at or below a character. Logarithmic.
    pub(crate) fn stretch(&self, c: u32) -> u32
        ensures { result ≡ stretch self.now c }
    {
        last_up_to(&self.points, c)
    }
}

/// The last point at or below a number.
fn last_up_to(points: &[u32], c: u32) -> u32
    requires { IsStrictlyIncreasing points.now }
    ensures { result ≡ stretch points.now c }
{
    let place = points.partition_point(|point| *point <= c);
    if place == 0 { 0 } else { points[place - 1] }
}

/// The points of the lists at these places, 0, and where the ranges begin or have just ended. In the number n of the
/// ends and of the lists' points it takes time n log n.
pub(crate) fn merge(
    alloc: Global,
    lists: &[Points],
    places: &[usize],
    ranges: &[(u32, u32)],
) -> Result<Points, AllocError>
    requires { All (λ k. k < length lists.now) places.now }
    ensures points { IfOk result (λ points. ArePoints points) }
    ensures lists { IfOk result (λ points. All (λ k. Covers points (get_or lists.now k [])) places.now) }
    ensures ranges { IfOk result (λ points. Parts points (in_ranges ranges.now)) }
{
    let mut set = BTreeSet::new(alloc);
    set.insert(0)?;
    put_ends(&mut set, ranges)?;
    put_lists(&mut set, lists, places)?;
    collect(alloc, &mut set)
}

/// The points of the lists at these places.
fn put_lists(set: &mut BTreeSet<u32>, lists: &[Points], places: &[usize]) -> Result<(), AllocError>
    requires places { All (λ k. k < length lists.now) places.now }
    requires points { ArePoints set.old.keys }
    ensures points { OnOk result (ArePoints set.new.keys) }
    ensures kept { OnOk result (Covers set.new.keys set.old.keys) }
    ensures put { OnOk result (All (λ k. Covers set.new.keys (get_or lists.now k [])) places.now) }
{
    for place in places {
        put_all(set, lists[*place].as_slice())?;
    }
    Ok(())
}

/// The points of a list.
fn put_all(set: &mut BTreeSet<u32>, points: &[u32]) -> Result<(), AllocError>
    requires list { ArePoints points.now }
    requires points { ArePoints set.old.keys }
    ensures points { OnOk result (ArePoints set.new.keys) }
    ensures kept { OnOk result (Covers set.new.keys set.old.keys) }
    ensures put { OnOk result (Covers set.new.keys points.now) }
{
    for point in points {
        put(set, *point)?;
    }
    Ok(())
}

/// Where ranges begin or have just ended.
fn put_ends(set: &mut BTreeSet<u32>, ranges: &[(u32, u32)]) -> Result<(), AllocError>
    requires points { ArePoints set.old.keys }
    ensures points { OnOk result (ArePoints set.new.keys) }
    ensures kept { OnOk result (Covers set.new.keys set.old.keys) }
    ensures put { OnOk result (Parts set.new.keys (in_ranges ranges.now)) }
{
    for range in ranges {
        put_range(set, *range)?;
    }
    Ok(())
}

/// Where a range begins or has just ended.
fn put_range(set: &mut BTreeSet<u32>, range: (u32, u32)) -> Result<(), AllocError>
    requires points { ArePoints set.old.keys }
    ensures points { OnOk result (ArePoints set.new.keys) }
    ensures kept { OnOk result (Covers set.new.keys set.old.keys) }
    ensures put { OnOk result (Parts set.new.keys (in_range range)) }
{
    put(set, range.0)?;
    if range.1 < LAST_CHARACTER {
        put(set, range.1 + 1)?;
    }
    Ok(())
}

/// One more point, if it is a character.
fn put(set: &mut BTreeSet<u32>, point: u32) -> Result<(), AllocError>
    requires points { ArePoints set.old.keys }
    ensures points { OnOk result (ArePoints set.new.keys) }
    ensures kept { OnOk result (Covers set.new.keys set.old.keys) }
    ensures put { OnOk result (point ≤ 0x2ffff → Covers set.new.keys (point ∷ [])) }
{
    if point <= LAST_CHARACTER {
        set.insert(point)?;
    }
    Ok(())
}

/// The set as a list.
fn collect(alloc: Global, set: &mut BTreeSet<u32>) -> Result<Points, AllocError>
    requires { ArePoints set.old.keys }
    ensures { IfOk result (λ points. points ≡ set.old.keys) }
{
    let mut points = Vec::new(alloc);
    while let Some(point) = set.pop_first() {
        points.push(point)?;
    }
    Ok(Points::new(points))
}
