//! The walk over members, and the words along which places of a queue are reached.

ghost use Rattle.std.specs.Prelude.{◌≡◌, ℕ, ◌<◌, List, [], length, get_or, IfOk, OnOk, MatchOption};
ghost use Rattle.sb_word.specs.Words.{IsWord};
ghost use Rattle.sb_lang.specs.Language.{language};
ghost use Rattle.sb_regex.specs.Numbered.{regex_at, Extends};
ghost use Rattle.sb_deriv.specs.Faithful.{IsFaithful, KeepsEntries};
ghost use Rattle.sb_graph.specs.Members.{IsOutcome, MeetsBound, AreMany};
ghost use Rattle.sb_graph.specs.Queue.{with_entry, word_at, GoesBack, AreWords, LeadsBy, AreTested, IsFirstNullable};
ghost use Rattle.sb_graph.specs.Walks.{IsSearched, IsStop, first_language};

use crate::depth::find_by_length;
use crate::queue::Queue;
use crate::turn::take_turn;
use sb_deriv::{Deriver, faithful_stays};
use sb_lang::derivative::nullable_has_empty_word;
use sb_members::{room_for, strongest};
use sb_regex::{Arena, RegexId};
use sb_word::{CodesError, Word};
use std::alloc::{AllocError, Global};

/// What a walk finds.
#[derive(Drop)]
pub enum Outcome {
    /// A word of the language: no other is shorter, and none as long is less by code points.
    Found(Word),
    /// No word is in the language.
    Empty,
    /// The walk expanded as many states as it may, and has found no word.
    Bounded,
}

/// The least of the shortest words of a regex's language, that there is none, or that a walk expanded `bound` states.
///
/// Takes time n log n in the number of the states that it meets and of the pieces of their derivatives, beside those
/// derivatives, which are kept, and the intersections that targets are split into, at most 16 for each piece. No state
/// is expanded whose word is as long as the one that is found. The walk ends at the bound where there are many states,
/// or where it takes many to see that there is no word. States that are met and not expanded are not counted, so one
/// that leads to thousands ends no walk. Where the walk came to the bound, a search for a word of one length after the
/// other expands as many states again: it finds a short word that lies behind many others.
pub fn find_word(
    alloc: Global,
    arena: &mut Arena,
    deriver: &mut Deriver,
    root: RegexId,
    bound: usize,
) -> Result<Outcome, AllocError>
    requires known { root < length arena.old }
    requires faithful { IsFaithful arena.old deriver.old }
    ensures found { IfOk result (λ outcome. IsOutcome (language (regex_at arena.old root)) outcome) }
    ensures bound { IfOk result (λ outcome. MeetsBound arena.new (language (regex_at arena.old root)) bound outcome) }
    ensures extends { Extends arena.old arena.new }
    ensures faithful { IsFaithful arena.new deriver.new }
    ensures kept { KeepsEntries deriver.old deriver.new }
{
    faithful_stays();
    let room = room_for(arena, root);
    let start = strongest(alloc, arena, root)?;
    let mut queue = Queue::of(alloc, start)?;
    find_from(alloc, arena, deriver, &mut queue, start, room, bound)
}

/// That of a regex, by a walk whose queue begins with it, and whose states are split into at most `room`.
fn find_from(
    alloc: Global,
    arena: &mut Arena,
    deriver: &mut Deriver,
    queue: &mut Queue,
    root: RegexId,
    room: usize,
    bound: usize,
) -> Result<Outcome, AllocError>
    requires known { root < length arena.old }
    requires faithful { IsFaithful arena.old deriver.old }
    requires start { queue.old ≡ with_entry [] (root, (0, 0)) }
    ensures found { IfOk result (λ outcome. IsOutcome (language (regex_at arena.old root)) outcome) }
    ensures bound { IfOk result (λ outcome. MeetsBound arena.new (language (regex_at arena.old root)) bound outcome) }
    ensures extends { Extends arena.old arena.new }
    ensures faithful { IsFaithful arena.new deriver.new }
    ensures kept { KeepsEntries deriver.old deriver.new }
{
    nullable_has_empty_word();
    let stop = walk(alloc, arena, deriver, queue, room, bound)?;
    match stop {
        Stop::Nullable(place) => {
            let word = word_of(alloc, queue, place)?;
            Ok(Outcome::Found(word))
        }
        Stop::End => Ok(Outcome::Empty),
        Stop::Bound => search_lengths(alloc, arena, deriver, root, bound),
    }
}

/// What a search by lengths finds, where a walk has met so many states.
fn search_lengths(
    alloc: Global,
    arena: &mut Arena,
    deriver: &mut Deriver,
    root: RegexId,
    bound: usize,
) -> Result<Outcome, AllocError>
    requires known { root < length arena.old }
    requires faithful { IsFaithful arena.old deriver.old }
    requires many { AreMany arena.old (language (regex_at arena.old root)) bound }
    ensures found { IfOk result (λ outcome. IsOutcome (language (regex_at arena.old root)) outcome) }
    ensures bound { IfOk result (λ outcome. MeetsBound arena.new (language (regex_at arena.old root)) bound outcome) }
    ensures extends { Extends arena.old arena.new }
    ensures faithful { IsFaithful arena.new deriver.new }
    ensures kept { KeepsEntries deriver.old deriver.new }
{
    match find_by_length(alloc, arena, deriver, root, bound)? {
        Some(codes) => {
            let word = word_from(alloc, &codes)?;
            Ok(Outcome::Found(word))
        }
        None => Ok(Outcome::Bounded),
    }
}

/// Where a walk stops.
enum Stop {
    /// At a state with the empty word, by its place.
    Nullable(usize),
    /// At the end of the queue.
    End,
    /// At the bound.
    Bound,
}

/// Goes through the queue up to a state with the empty word, or to the bound.
fn walk(
    alloc: Global,
    arena: &mut Arena,
    deriver: &mut Deriver,
    queue: &mut Queue,
    room: usize,
    bound: usize,
) -> Result<Stop, AllocError>
    requires start { IsSearched arena.old (first_language arena.old queue.old) queue.old 0 }
    requires faithful { IsFaithful arena.old deriver.old }
    ensures stop { IfOk result (λ stop. IsStop arena.new (first_language arena.old queue.old) queue.new bound stop) }
    ensures extends { Extends arena.old arena.new }
    ensures faithful { IsFaithful arena.new deriver.new }
    ensures kept { KeepsEntries deriver.old deriver.new }
{
    let mut place = 0;
    let mut tested = 0;
    while place < queue.len() {
        if let Some(found) = first_nullable(arena, queue.regexes(), tested) {
            return Ok(Stop::Nullable(found));
        }
        if place >= bound {
            return Ok(Stop::Bound);
        }
        tested = queue.len();
        place = take_turn(alloc, arena, deriver, queue, place, room)?;
    }
    Ok(Stop::End)
}

/// The first place from one on of a regex with the empty word. Linear in the number of the places that are looked at.
pub(crate) fn first_nullable(arena: &Arena, regexes: &[RegexId], from: usize) -> Option<usize>
    requires { (k : ℕ) → k < length regexes.now → get_or regexes.now k 0 < length arena.now }
    ensures { MatchOption result (AreTested arena.now regexes.now from (length regexes.now))
        (IsFirstNullable arena.now regexes.now from) }
{
    let mut place = from;
    while place < regexes.len() {
        if arena.nullable(regexes[place]) {
            return Some(place);
        }
        place += 1;
    }
    None
}

/// The word along which a place was reached. Linear in its length.
pub(crate) fn word_of(alloc: Global, queue: &Queue, place: usize) -> Result<Word, AllocError>
    requires within { place < length queue.now }
    requires back { GoesBack queue.now }
    requires word { LeadsBy IsWord queue.now place }
    ensures word { IfOk result (λ word. IsWord word) }
    ensures along { IfOk result (λ word. (words : List (List ℕ)) → AreWords queue.now words
        → word ≡ word_at words place) }
{
    let mut codes = Vec::new(alloc);
    let mut at = place;
    while at > 0 {
        let (_, (before, character)) = queue.at(at);
        codes.push(character)?;
        at = before;
    }
    codes.reverse();
    word_from(alloc, &codes)
}

/// The word of these characters. Linear.
pub(crate) fn word_from(alloc: Global, codes: &[u32]) -> Result<Word, AllocError>
    requires { IsWord codes.now }
    ensures { IfOk result (λ word. word ≡ codes.now) }
{
    match Word::from_codes(alloc, codes) {
        Ok(word) => Ok(word),
        Err(CodesError::NotACharacter(_)) => unreachable!(),
        Err(CodesError::NoMemory) => Err(AllocError),
    }
}
