//! A binary heap of atoms by activity, with the place of each atom.

ghost use Rattle.std.specs.Prelude.{◌≡◌, ℕ, ◌/◌, ◌<◌, ◌≤◌, length};
ghost use Rattle.sb_activity.specs.Places.{AreInverse, places_swapped};
ghost use Rattle.sb_activity.specs.Waiting.{are_first};

/// Moves the atom at a place up, until the one above it is as active.
pub(crate) fn sift_up(heap: &mut [u32], places: &mut [u32], activities: &[f64], from: usize)
    requires inverse { AreInverse heap.old places.old }
    requires within { from < length heap.old }
    ensures inverse { AreInverse heap.new places.new }
    ensures length { length heap.new ≡ length heap.old }
    ensures first { (count : ℕ) → from < count → are_first count places.new ≡ are_first count places.old }
{
    let mut at = from;
    while at > 0 {
        let above = (at - 1) / 2;
        if !is_before(activities, heap[at], heap[above]) {
            return;
        }
        swap(heap, places, at, above);
        at = above;
    }
}

/// Moves the atom at the first place down, until those below it, among the first `count` ones, are no more active.
pub(crate) fn sift_down(heap: &mut [u32], places: &mut [u32], activities: &[f64], count: usize)
    requires inverse { AreInverse heap.old places.old }
    requires within { count ≤ length heap.old }
    ensures inverse { AreInverse heap.new places.new }
    ensures length { length heap.new ≡ length heap.old }
    ensures first { are_first count places.new ≡ are_first count places.old }
{
    let mut at = 0;
    while at < count / 2 {
        let below = below(heap, activities, at, count);
        if !is_before(activities, heap[below], heap[at]) {
            return;
        }
        swap(heap, places, at, below);
        at = below;
    }
}

/// Of the two places below this one, among the first `count` ones, that of the more active atom.
fn below(heap: &[u32], activities: &[f64], at: usize, count: usize) -> usize
    requires within { count ≤ length heap.now }
    requires inside { at < count / 2 }
    ensures below { at < result }
    ensures within { result < count }
{
    let left = 2 * at + 1;
    let right = left + 1;
    if right < count && is_before(activities, heap[right], heap[left]) {
        right
    } else {
        left
    }
}

/// Whether the first atom is more active.
fn is_before(activities: &[f64], one: u32, other: u32) -> bool {
    activity(activities, one) > activity(activities, other)
}

/// The activity of an atom.
fn activity(activities: &[f64], atom: u32) -> f64 {
    activities.get(atom as usize).copied().unwrap_or(0.0)
}

/// Changes the atoms at two places for each other.
pub(crate) fn swap(heap: &mut [u32], places: &mut [u32], one: usize, other: usize)
    requires inverse { AreInverse heap.old places.old }
    requires one { one < length heap.old }
    requires other { other < length heap.old }
    ensures inverse { AreInverse heap.new places.new }
    ensures length { length heap.new ≡ length heap.old }
    ensures places { places.new ≡ places_swapped heap.old places.old one other }
{
    let first = heap[one];
    let second = heap[other];
    heap[one] = second;
    heap[other] = first;
    places[first as usize] = other as u32;
    places[second as usize] = one as u32;
}
