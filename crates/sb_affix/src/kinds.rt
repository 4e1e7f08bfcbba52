//! The regex of each kind of affix.

ghost use Rattle.std.specs.Prelude.{◌≡◌, IfOk};
ghost use Rattle.sb_word.specs.Words.{IsWord};
ghost use Rattle.sb_lang.specs.Constructors.{anything};
ghost use Rattle.sb_lang.specs.Affixes.{beginning_with, ending_with, containing};
ghost use Rattle.sb_regex.specs.Numbered.{Extends, Names};
ghost use Rattle.sb_affix.specs.AffixRegex.{affix_regex};

use crate::ends::{Part, prefixes, union_of_ends};
use sb_regex::{Arena, RegexId};
use std::alloc::{AllocError, Global};

/// How other words stand to a word.
#[derive(Clone, Copy)]
pub enum Affix {
    /// They begin with it.
    Beginning,
    /// They end with it.
    Ending,
    /// It stands somewhere in them.
    Holder,
    /// They are its prefixes.
    Prefixes,
    /// They are its suffixes.
    Suffixes,
    /// They stand somewhere in it.
    Factors,
}

/// The regex of the words that stand so to a word of these characters.
///
/// The first three kinds and the prefixes take linear time. The suffixes and the factors are a union of as many members
/// as the word has ends, which takes the time of [`Arena::alt`]: for 1,000 characters some 10,000 comparisons, with 3 to 8
/// steps each, and where nearly all characters are one letter 2,000 to 3,000 with up to 200 steps each. All make so many
/// regexes as the word is long, or twice as many; beside them the arena remembers some thousands of comparisons, and some
/// 30,000 where nearly all characters are one letter.
///
/// An error comes for want of memory alone, and the arena may hold more regexes then.
pub fn affix_regex(
    alloc: Global,
    arena: &mut Arena,
    affix: Affix,
    codes: &[u32],
) -> Result<RegexId, AllocError>
    requires { IsWord codes.now }
    ensures ok { IfOk result (λ id. Names arena.new id (affix_regex affix codes.now)) }
    ensures extends { Extends arena.old arena.new }
{
    match affix {
        Affix::Beginning => beginning(arena, codes),
        Affix::Ending => ending(arena, codes),
        Affix::Holder => holder(arena, codes),
        Affix::Prefixes => prefixes(alloc, arena, codes),
        Affix::Suffixes => union_of_ends(alloc, arena, Part::Whole, codes),
        Affix::Factors => union_of_ends(alloc, arena, Part::Prefix, codes),
    }
}

/// The words that begin with this one.
fn beginning(arena: &mut Arena, codes: &[u32]) -> Result<RegexId, AllocError>
    requires { IsWord codes.now }
    ensures ok { IfOk result (λ id. Names arena.new id (beginning_with codes.now)) }
    ensures extends { Extends arena.old arena.new }
{
    let word = arena.characters(codes)?;
    let rest = every_word(arena)?;
    arena.cat(word, rest)
}

/// The words that end with this one.
fn ending(arena: &mut Arena, codes: &[u32]) -> Result<RegexId, AllocError>
    requires { IsWord codes.now }
    ensures ok { IfOk result (λ id. Names arena.new id (ending_with codes.now)) }
    ensures extends { Extends arena.old arena.new }
{
    let word = arena.characters(codes)?;
    let front = every_word(arena)?;
    arena.cat(front, word)
}

/// The words in which this one stands somewhere.
fn holder(arena: &mut Arena, codes: &[u32]) -> Result<RegexId, AllocError>
    requires { IsWord codes.now }
    ensures ok { IfOk result (λ id. Names arena.new id (containing codes.now)) }
    ensures extends { Extends arena.old arena.new }
{
    let word = beginning(arena, codes)?;
    let front = every_word(arena)?;
    arena.cat(front, word)
}

/// Every word. Constant time.
fn every_word(arena: &mut Arena) -> Result<RegexId, AllocError>
    ensures ok { IfOk result (λ id. Names arena.new id anything) }
    ensures extends { Extends arena.old arena.new }
{
    let none = arena.none()?;
    arena.not(none)
}
