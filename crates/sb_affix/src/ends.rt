//! The ends of a word, and what is made of each.

ghost use Rattle.std.specs.Prelude.{◌≡◌, ◌∷◌, [], ◌<◌, true, length, map, IfOk};
ghost use Rattle.sb_word.specs.Words.{is_character, IsWord};
ghost use Rattle.sb_lang.specs.Regex.{eps};
ghost use Rattle.sb_lang.specs.Constructors.{mkalt};
ghost use Rattle.sb_lang.specs.Affixes.{ends_of, prefixes};
ghost use Rattle.sb_regex.specs.Numbered.{regex_at, regexes_at, AllNumbers, Extends, Names};
ghost use Rattle.sb_affix.specs.PartRegex.{part_regex, with_front};

use sb_regex::{Arena, RegexId};
use std::alloc::{AllocError, Global};

/// What of an end of a word the words are that are wanted.
#[derive(Clone, Copy)]
pub(crate) enum Part {
    /// The end itself.
    Whole,
    /// Each prefix of it.
    Prefix,
}

/// The prefixes of the word. Linear.
pub(crate) fn prefixes(
    alloc: Global,
    arena: &mut Arena,
    codes: &[u32],
) -> Result<RegexId, AllocError>
    requires { IsWord codes.now }
    ensures ok { IfOk result (λ id. Names arena.new id (prefixes codes.now)) }
    ensures extends { Extends arena.old arena.new }
{
    let ends = parts_of_ends(alloc, arena, Part::Prefix, codes)?;
    Ok(ends[0])
}

/// The parts of all ends of the word.
pub(crate) fn union_of_ends(
    alloc: Global,
    arena: &mut Arena,
    part: Part,
    codes: &[u32],
) -> Result<RegexId, AllocError>
    requires { IsWord codes.now }
    ensures ok { IfOk result (λ id. Names arena.new id (mkalt (map (part_regex part) (ends_of codes.now)))) }
    ensures extends { Extends arena.old arena.new }
{
    let ends = parts_of_ends(alloc, arena, part, codes)?;
    arena.alt(&ends)
}

/// The part of each end of the word: of the word itself first, and of the empty word last. Linear.
fn parts_of_ends(
    alloc: Global,
    arena: &mut Arena,
    part: Part,
    codes: &[u32],
) -> Result<Vec<RegexId>, AllocError>
    requires { IsWord codes.now }
    ensures value { IfOk result
        (λ ends. regexes_at arena.new ends.items ≡ map (part_regex part) (ends_of codes.now)) }
    ensures numbers { IfOk result (λ ends. AllNumbers arena.new ends.items) }
    ensures extends { Extends arena.old arena.new }
{
    let mut last = arena.eps()?;
    let mut ends = Vec::from_slice(alloc, &[last])?;
    let mut left = codes.len();
    while left > 0 {
        left -= 1;
        last = in_front(arena, part, codes[left], last)?;
        ends.push(last)?;
    }
    ends.reverse();
    Ok(ends)
}

/// The part of an end that begins with a character, of the part of what stands behind it. Constant time.
fn in_front(arena: &mut Arena, part: Part, code: u32, rest: RegexId) -> Result<RegexId, AllocError>
    requires character { is_character code ≡ true }
    requires rest { rest < length arena.old }
    ensures ok { IfOk result (λ id. Names arena.new id (with_front part code (regex_at arena.old rest))) }
    ensures extends { Extends arena.old arena.new }
{
    let character = arena.characters(&[code])?;
    let whole = arena.cat(character, rest)?;
    match part {
        Part::Whole => Ok(whole),
        Part::Prefix => or_empty_word(arena, whole),
    }
}

/// The words of a regex, and the empty one. Constant time where it is no union.
fn or_empty_word(arena: &mut Arena, regex: RegexId) -> Result<RegexId, AllocError>
    requires { regex < length arena.old }
    ensures ok { IfOk result (λ id. Names arena.new id (mkalt (eps ∷ regex_at arena.old regex ∷ []))) }
    ensures extends { Extends arena.old arena.new }
{
    let empty = arena.eps()?;
    arena.alt(&[empty, regex])
}
