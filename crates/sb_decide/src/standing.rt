//! Whether a kept word is still the least one.
//!
//! The least word of a language is the least one of each smaller language that has it. So where memberships came behind
//! those that the word is the least one of, it is matched with their regexes alone.

ghost use Rattle.std.specs.Prelude.{◌≡◌, ℕ, ◌<◌, ◌≤◌, length, drop, All, IfOk, Some, true};
ghost use Rattle.sb_lang.specs.Least.{IsShortestLeast};
ghost use Rattle.sb_store.specs.Stores.{IsStore, RegexesGrow};
ghost use Rattle.sb_decide.specs.Deciding.{word_at};
ghost use Rattle.sb_decide.specs.Knowing.{IsLeastOf};
ghost use Rattle.sb_decide.specs.Members.{HasRegexBelow, ids_in, places_in, words_in};
ghost use Rattle.sb_decide.specs.Taking.{IsInEach};

use crate::conjuncts::{Conjuncts, Member};
use sb_store::{Store, regexes_grow};
use sb_term::Serial;
use sb_word::Word;
use std::alloc::AllocError;

/// Whether the kept word of a constant is known to be the least one of all its memberships, once it is matched with the
/// regexes of those behind the ones that it is known of: linear in these, and for each in the time of
/// [`sb_plain::Plain::matches`]. `AllocError` only for want of memory.
pub(crate) fn stands(
    store: &mut Store,
    members: &[Option<Member>],
    words: &[Word],
    serial: Serial,
    conjuncts: &Conjuncts,
) -> Result<bool, AllocError>
    requires numbers { All (HasRegexBelow (length store.old.arena)) members.now }
    requires places { conjuncts.now.places ≡ places_in 0 serial.0 members.now }
    requires kept { (k : ℕ) → conjuncts.now.known ≡ Some k
        → IsLeastOf store.old.arena (ids_in members.now serial.0) k (word_at words.now serial.0) }
    requires store { IsStore store.old }
    ensures least { IfOk result (λ stands. stands ≡ true
        → IsShortestLeast (words_in store.new.arena members.now serial.0) (word_at words.now serial.0)) }
    ensures store { RegexesGrow store.old store.new }
{
    let Some(known) = conjuncts.known() else {
        return Ok(false);
    };
    let Some(word) = words.get(serial.0 as usize) else {
        return Ok(false);
    };
    let places = conjuncts.places();
    let behind = places_behind(places, known);
    let all = is_in_each(store, members, behind, word)?;
    Ok(all)
}

/// The places behind so many first ones.
fn places_behind(places: &[usize], count: usize) -> &[usize]
    requires { count ≤ length places.now }
    ensures { result.now ≡ drop count places.now }
{
    &places[count..]
}

/// Whether a word is in the regexes of the memberships at these places.
fn is_in_each(
    store: &mut Store,
    members: &[Option<Member>],
    places: &[usize],
    word: &Word,
) -> Result<bool, AllocError>
    requires within { All (λ place. place < length members.now) places.now }
    requires numbers { All (HasRegexBelow (length store.old.arena)) members.now }
    requires store { IsStore store.old }
    ensures all { IfOk result (λ all. all ≡ true → IsInEach store.new.arena members.now places.now word.now) }
    ensures store { RegexesGrow store.old store.new }
{
    regexes_grow();
    for place in places {
        let Some(member) = members[*place] else {
            return Ok(false);
        };
        if !store.plain.matches(&mut store.arena, word, member.regex)? {
            return Ok(false);
        }
    }
    Ok(true)
}
