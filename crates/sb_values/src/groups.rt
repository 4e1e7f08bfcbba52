//! Groups of goals.

ghost use Rattle.std.specs.Prelude.{◌<◌, ◌≤◌, length};

use crate::problem::{Goal, Part, Problem};
use std::alloc::{AllocError, Global};

/// The goals with constants, each behind the number of its group, in order: goals of different groups share no
/// constant.
/// A goal of one constant alone stands there too.
pub(crate) fn groups(alloc: Global, problem: &Problem) -> Result<Vec<(usize, usize)>, AllocError> {
    let mut heads = Vec::new(alloc);
    for constant in 0..problem.count() {
        heads.push(constant)?;
    }
    for goal in problem.goals() {
        join_goal(problem, *goal, &mut heads);
    }
    let mut grouped = Vec::new(alloc);
    for (number, goal) in problem.goals().iter().enumerate() {
        if let Some(constant) = first_constant(problem, goal.first, goal.end) {
            grouped.push((head_of(&heads, constant), number))?;
        }
    }
    grouped.sort_unstable();
    Ok(grouped)
}

/// The first constant from a place up to another.
fn first_constant(problem: &Problem, begin: usize, end: usize) -> Option<usize> {
    for place in begin..end {
        if let Some(Part::Constant(constant)) = problem.part(place) {
            return Some(constant);
        }
    }
    None
}

/// Joins the groups of a goal's constants.
fn join_goal(problem: &Problem, goal: Goal, heads: &mut [usize]) {
    let begin = goal.first;
    let end = goal.end;
    let Some(first) = first_constant(problem, begin, end) else {
        return;
    };
    for place in begin..end {
        if let Some(Part::Constant(constant)) = problem.part(place) {
            join(heads, first, constant);
        }
    }
}

/// Joins the groups of two constants, under the smaller of their heads.
fn join(heads: &mut [usize], one: usize, other: usize) {
    let head = head_of(heads, one);
    let second = head_of(heads, other);
    let least = head.min(second);
    put_head(heads, head.max(second), least);
    put_head(heads, one, least);
    put_head(heads, other, least);
}

/// Puts what a constant leads to.
fn put_head(heads: &mut [usize], constant: usize, head: usize) {
    if let Some(place) = heads.get_mut(constant) {
        *place = head;
    }
}

/// The constant that a group is known by: the one that leads to itself.
fn head_of(heads: &[usize], constant: usize) -> usize {
    let mut now = constant;
    for _turn in 0..heads.len() {
        let Some(head) = heads.get(now).copied() else {
            return now;
        };
        if head == now {
            return now;
        }
        now = head;
    }
    now
}

/// Where the group ends that begins at a place.
pub(crate) fn end_of_group(grouped: &[(usize, usize)], begin: usize) -> usize
    requires { begin < length grouped.now }
    ensures later { begin < result }
    ensures within { result ≤ length grouped.now }
{
    let mut end = begin + 1;
    while end < grouped.len() {
        if grouped[end].0 != grouped[begin].0 {
            return end;
        }
        end += 1;
    }
    end
}
