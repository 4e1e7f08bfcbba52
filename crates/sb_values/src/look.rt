//! What the arena and the graph say of regexes, tested for being theirs.
//!
//! A number that the arena has no regex of is taken for one without a word, so the tables of a search need no invariant
//! on the numbers in them: a test takes constant time.

ghost use Rattle.std.specs.Prelude.{◌≡◌, ◌<◌, true, length};
ghost use Rattle.sb_graph.specs.Findings.{IsGraph};
ghost use Rattle.sb_values.specs.Explored.{Explores};

use sb_graph::{Explored, Graph, Within, graph_stays};
use sb_regex::{Arena, Node, RegexId};
use std::alloc::{AllocError, Global};

/// The number behind the last character.
const END: u32 = 0x30000;

/// Where one character leads two regexes: the first such character, and both derivatives.
pub(crate) type Pair = (u32, RegexId, RegexId);

/// What an exploration finds that has fuel.
pub(crate) enum Looked {
    /// A word of the language.
    Word,
    /// There is none.
    Nothing,
    /// The fuel ended.
    OutOfFuel,
}

/// Whether the arena has a regex of the number.
fn is_known(arena: &Arena, regex: RegexId) -> bool
    ensures { result ≡ true → regex < length arena.now }
{
    regex.number() < arena.len()
}

/// Whether a regex may have a word, as far as it is known without a search.
pub(crate) fn may_live(arena: &Arena, graph: &Graph, regex: RegexId) -> bool {
    if !is_known(arena, regex) || graph.is_dead(regex) {
        return false;
    }
    !matches!(arena.node(regex), Node::None)
}

/// Whether a regex has the empty word.
pub(crate) fn is_nullable(arena: &Arena, regex: RegexId) -> bool {
    is_known(arena, regex) && arena.nullable(regex)
}

/// The regex of every word.
pub(crate) fn every_word(arena: &mut Arena, graph: &Graph) -> Result<RegexId, AllocError>
    requires { IsGraph arena.old graph.now }
    ensures { Explores arena.old arena.new graph.now graph.now }
{
    graph_stays();
    let none = arena.none()?;
    arena.not(none)
}

/// The intersection of two regexes.
pub(crate) fn meet(
    arena: &mut Arena,
    graph: &Graph,
    one: RegexId,
    other: RegexId,
) -> Result<RegexId, AllocError>
    requires { IsGraph arena.old graph.now }
    ensures { Explores arena.old arena.new graph.now graph.now }
{
    graph_stays();
    if !is_known(arena, one) || !is_known(arena, other) {
        return arena.none();
    }
    arena.and(&[one, other])
}

/// The words that lead a regex to another one.
pub(crate) fn path(
    arena: &mut Arena,
    graph: &Graph,
    from: RegexId,
    to: RegexId,
) -> Result<RegexId, AllocError>
    requires { IsGraph arena.old graph.now }
    ensures { Explores arena.old arena.new graph.now graph.now }
{
    graph_stays();
    if !is_known(arena, from) || !is_known(arena, to) {
        return arena.none();
    }
    arena.path(from, to)
}

/// The derivative by a character, if it may have a word.
fn next(
    arena: &mut Arena,
    graph: &mut Graph,
    regex: RegexId,
    code: u32,
) -> Result<Option<RegexId>, AllocError>
    requires { IsGraph arena.old graph.old }
    ensures { Explores arena.old arena.new graph.old graph.new }
{
    if !is_known(arena, regex) || code >= END {
        return Ok(None);
    }
    graph.derive(arena, regex)?;
    let Some(derivative) = graph.derivative(regex) else {
        return Ok(None);
    };
    let target = derivative.value_at(code);
    if may_live(arena, graph, target) {
        return Ok(Some(target));
    }
    Ok(None)
}

/// Where characters lead a regex, if that may have a word. Linear in the characters.
#[tactic(auto, using(crate::proofs::Exploring::explores_both, crate::proofs::Exploring::explores_none))]
pub(crate) fn along(
    arena: &mut Arena,
    graph: &mut Graph,
    regex: RegexId,
    codes: &[u32],
) -> Result<Option<RegexId>, AllocError>
    requires { IsGraph arena.old graph.old }
    ensures { Explores arena.old arena.new graph.old graph.new }
{
    let mut now = regex;
    for code in codes {
        let Some(target) = next(arena, graph, now, *code)? else {
            return Ok(None);
        };
        now = target;
    }
    Ok(Some(now))
}

/// Puts where characters lead two regexes in place of what the list has, in the order of characters, but for those that
/// lead one of them where no word is. Linear in the pieces of both derivatives, beside the derivatives.
#[tactic(auto, using(crate::proofs::Exploring::explores_both, crate::proofs::Exploring::explores_none))]
pub(crate) fn put_pairs(
    arena: &mut Arena,
    graph: &mut Graph,
    one: RegexId,
    other: RegexId,
    pairs: &mut Vec<Pair>,
) -> Result<(), AllocError>
    requires { IsGraph arena.old graph.old }
    ensures { Explores arena.old arena.new graph.old graph.new }
{
    pairs.clear();
    if !is_known(arena, one) || !is_known(arena, other) {
        return Ok(());
    }
    graph.derive(arena, one)?;
    derive_again(arena, graph, other)?;
    join(arena, graph, one, other, pairs)
}

/// Makes a derivative known, of a number that was tested before.
fn derive_again(arena: &mut Arena, graph: &mut Graph, regex: RegexId) -> Result<(), AllocError>
    requires { IsGraph arena.old graph.old }
    ensures { Explores arena.old arena.new graph.old graph.new }
{
    if !is_known(arena, regex) {
        return Ok(());
    }
    graph.derive(arena, regex)
}

/// Puts where characters lead two regexes whose derivatives are known.
fn join(
    arena: &Arena,
    graph: &Graph,
    one: RegexId,
    other: RegexId,
    pairs: &mut Vec<Pair>,
) -> Result<(), AllocError> {
    let Some(left) = graph.derivative(one) else {
        return Ok(());
    };
    let Some(right) = graph.derivative(other) else {
        return Ok(());
    };
    merge(arena, graph, left.pieces(), right.pieces(), pairs)
}

/// Puts the targets of two derivatives by their common pieces.
fn merge(
    arena: &Arena,
    graph: &Graph,
    one: &[(u32, RegexId)],
    other: &[(u32, RegexId)],
    pairs: &mut Vec<Pair>,
) -> Result<(), AllocError> {
    let mut left = 0;
    let mut right = 0;
    while left < one.len() && right < other.len() {
        put_pair(arena, graph, one[left], other[right], pairs)?;
        let end = end_of(one, left);
        let other_end = end_of(other, right);
        if end < other_end {
            left += 1;
        } else if other_end < end {
            right += 1;
        } else {
            left += 1;
            right += 1;
        }
    }
    Ok(())
}

/// Where a piece ends: where the next one begins.
fn end_of(pieces: &[(u32, RegexId)], place: usize) -> u32
    requires { place < length pieces.now }
{
    match pieces.get(place + 1) {
        Some(piece) => piece.0,
        None => END,
    }
}

/// Puts two targets that may have words, where both pieces have begun.
fn put_pair(
    arena: &Arena,
    graph: &Graph,
    left: (u32, RegexId),
    right: (u32, RegexId),
    pairs: &mut Vec<Pair>,
) -> Result<(), AllocError> {
    if !may_live(arena, graph, left.1) || !may_live(arena, graph, right.1) {
        return Ok(());
    }
    pairs.push((left.0.max(right.0), left.1, right.1))?;
    Ok(())
}

/// Takes so much of the fuel, or all that is left.
pub(crate) fn spend(fuel: &mut u64, states: usize) {
    *fuel = fuel.saturating_sub(states as u64);
}

/// The most regexes that one exploration goes through.
const MOST: u64 = 20_000;

/// What an exploration of a regex finds that has so much fuel, of which it spends one and a state for each regex that
/// it expands. Words and marks are kept in the graph.
pub(crate) fn explore(
    arena: &mut Arena,
    graph: &mut Graph,
    regex: RegexId,
    fuel: &mut u64,
) -> Result<Within, AllocError>
    requires { IsGraph arena.old graph.old }
    ensures { Explores arena.old arena.new graph.old graph.new }
{
    if !is_known(arena, regex) {
        return Ok(Within::Found(Explored::Dead));
    }
    let before = graph.expanded().len();
    let limit = (*fuel).min(MOST) as usize;
    let found = graph.answer_within(arena, regex, limit)?;
    spend(fuel, graph.expanded().len().saturating_sub(before));
    spend(fuel, 1);
    Ok(found)
}

/// Whether a regex has a word.
pub(crate) fn look(
    arena: &mut Arena,
    graph: &mut Graph,
    regex: RegexId,
    fuel: &mut u64,
) -> Result<Looked, AllocError>
    requires { IsGraph arena.old graph.old }
    ensures { Explores arena.old arena.new graph.old graph.new }
{
    match explore(arena, graph, regex, fuel)? {
        Within::Found(Explored::Alive(_)) => Ok(Looked::Word),
        Within::Found(Explored::Dead) => Ok(Looked::Nothing),
        Within::Limit => Ok(Looked::OutOfFuel),
    }
}
