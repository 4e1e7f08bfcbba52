//! A walk over the members of derivatives along a word, depth first.

ghost use Rattle.std.specs.Prelude.{◌≡◌, ◌<◌, ◌≤◌, ◌+◌, ◌++◌, ◌∷◌, [], Bool, true, false, length, drop, IfOk, IfSome, OnOk};
ghost use Rattle.sb_word.specs.Words.{IsWord};
ghost use Rattle.sb_lang.specs.Language.{language};
ghost use Rattle.sb_regex.specs.Numbered.{regex_at, Extends};
ghost use Rattle.sb_plain.specs.Memory.{LearntIsRight, AreFailed};
ghost use Rattle.sb_plain.specs.Walking.{fresh, states_of, state_matches, IsState, ArePut, IsEntered, KeepsStates};

use crate::failed::Failed;
use crate::learnt::Learnt;
use sb_lang::derivative::{derivative_has_rests, nullable_has_empty_word};
use sb_regex::{Arena, Node, RegexId};
use std::alloc::{AllocError, Global};

/// So many turns there are at most.
const MOST_TURNS: usize = 1 << 18;

/// For each character that is left there are so many turns at most, and as many besides.
const TURNS: usize = 16;

/// A regex that the rest of a word from a place on may match. One that was entered matches if a member of its
/// derivative does, and these are above it.
#[derive(Copy, Clone)]
pub(crate) struct State {
    pub(crate) regex: RegexId,
    pub(crate) place: usize,
    pub(crate) entered: bool,
}

/// Whether the characters from a place on are a word of a regex's language; none where it takes too many turns to see.
pub(crate) fn search(
    arena: &mut Arena,
    learnt: &mut Learnt,
    failed: &mut Failed,
    codes: &[u32],
    r: RegexId,
    place: usize,
) -> Result<Option<bool>, AllocError>
    requires known { r < length arena.old }
    requires word { IsWord codes.now }
    requires place { place ≤ length codes.now }
    requires same { failed.old.0 ≡ codes.now }
    requires right { LearntIsRight arena.old learnt.old }
    requires failed { AreFailed arena.old failed.old }
    ensures found { IfOk result (λ found. IfSome found
        (λ b. b ≡ language (regex_at arena.old r) (drop place codes.now))) }
    ensures extends { Extends arena.old arena.new }
    ensures right { LearntIsRight arena.new learnt.new }
    ensures failed { AreFailed arena.new failed.new }
{
    let mut states = Vec::new(learnt.allocator());
    states.push(State {
        regex: r,
        place,
        entered: false,
    })?;
    for _turn in 0..turns_for(codes.len()) {
        let Some(state) = states.pop() else {
            return Ok(Some(false));
        };
        if take_turn(arena, learnt, failed, codes, &mut states, state)? {
            return Ok(Some(true));
        }
    }
    Ok(None)
}

fn turns_for(length: usize) -> usize {
    if length >= MOST_TURNS / TURNS {
        return MOST_TURNS;
    }
    (length + 4) * TURNS
}

/// A turn of a state that was the last one. Whether the word is seen to match.
fn take_turn(
    arena: &mut Arena,
    learnt: &mut Learnt,
    failed: &mut Failed,
    codes: &[u32],
    states: &mut Vec<State>,
    state: State,
) -> Result<bool, AllocError>
    requires state { IsState arena.old codes.now state }
    requires fails { state.entered ≡ true → state_matches arena.old codes.now state ≡ false }
    requires word { IsWord codes.now }
    requires same { failed.old.0 ≡ codes.now }
    requires right { LearntIsRight arena.old learnt.old }
    requires failed { AreFailed arena.old failed.old }
    ensures found { IfOk result (λ found. found ≡ true → state_matches arena.old codes.now state ≡ true) }
    ensures next { IfOk result (λ found. found ≡ false
        → KeepsStates arena.old arena.new codes.now state states.old.items states.new.items) }
    ensures extends { Extends arena.old arena.new }
    ensures right { LearntIsRight arena.new learnt.new }
    ensures failed { AreFailed arena.new failed.new }
    ensures same { failed.new.0 ≡ codes.now }
{
    nullable_has_empty_word();
    if state.entered {
        failed.put(state.regex, state.place)?;
        return Ok(false);
    }
    if failed.has(state.regex, state.place) {
        return Ok(false);
    }
    if state.place == codes.len() {
        return Ok(arena.nullable(state.regex));
    }
    enter(arena, learnt, codes, states, state)?;
    Ok(false)
}

/// Puts a state behind the others as an entered one, and above it the members of its derivative.
fn enter(
    arena: &mut Arena,
    learnt: &mut Learnt,
    codes: &[u32],
    states: &mut Vec<State>,
    state: State,
) -> Result<(), AllocError>
    requires known { state.regex < length arena.old }
    requires place { state.place < length codes.now }
    requires word { IsWord codes.now }
    requires right { LearntIsRight arena.old learnt.old }
    ensures entered { OnOk result (IsEntered arena.new codes.now state states.old.items states.new.items) }
    ensures extends { Extends arena.old arena.new }
    ensures right { LearntIsRight arena.new learnt.new }
{
    derivative_has_rests();
    let target = learnt.plain_derivative(arena, state.regex, codes[state.place])?;
    states.push(State {
        regex: state.regex,
        place: state.place,
        entered: true,
    })?;
    put_members(arena, states, target, state.place + 1)
}

/// Puts the members of a union behind the others, or another regex itself, but for the one that has no word.
fn put_members(
    arena: &Arena,
    states: &mut Vec<State>,
    target: RegexId,
    place: usize,
) -> Result<(), AllocError>
    requires { target < length arena.now }
    ensures { OnOk result (ArePut arena.now target place states.old.items states.new.items) }
{
    match arena.node(target) {
        Node::None => Ok(()),
        Node::Alt(parts) => put_each(states, parts.as_slice(), place),
        _ => put(states, target, place),
    }
}

/// Puts regexes behind the others, the last one first, so that the first one has its turn first: a regex that begins
/// with a star is a late one in the order of regexes.
fn put_each(states: &mut Vec<State>, parts: &[RegexId], place: usize) -> Result<(), AllocError>
    ensures { OnOk result (states.new.items ≡ states.old.items ++ states_of place parts.now) }
{
    for count in 0..parts.len() {
        put(states, parts[parts.len() - 1 - count], place)?;
    }
    Ok(())
}

fn put(states: &mut Vec<State>, regex: RegexId, place: usize) -> Result<(), AllocError>
    ensures { OnOk result (states.new.items ≡ states.old.items ++ fresh place regex ∷ []) }
{
    states.push(State {
        regex,
        place,
        entered: false,
    })?;
    Ok(())
}
