//! Ranges of characters.

ghost use Rattle.std.specs.Prelude.{IfOk};
ghost use Rattle.sb_lang.specs.Constructors.{any_character};
ghost use Rattle.sb_lang.specs.Normal.{range_regex};
ghost use Rattle.sb_regex.specs.Numbered.{Extends, Names};
ghost use Rattle.sb_word.specs.Words.{IsWord};

use sb_class::{Class, LAST_CHARACTER, same_members};
use sb_regex::{Arena, RegexId};
use std::alloc::{AllocError, Global};

/// The characters from that of the first word to that of the second, no word where one of them has another length.
pub(crate) fn between(
    alloc: Global,
    arena: &mut Arena,
    from: &[u32],
    to: &[u32],
) -> Result<RegexId, AllocError>
    requires { IsWord to.now }
    ensures names { IfOk result (λ id. Names arena.new id (range_regex from.now to.now)) }
    ensures extends { Extends arena.old arena.new }
{
    let [low] = from else {
        return arena.none();
    };
    let [high] = to else {
        return arena.none();
    };
    if low <= high {
        same_members();
        let class = Class::range(alloc, *low, *high)?;
        arena.set(&class)
    } else {
        arena.none()
    }
}

/// The words of one character, whichever it is.
pub(crate) fn of_characters(alloc: Global, arena: &mut Arena) -> Result<RegexId, AllocError>
    ensures names { IfOk result (λ id. Names arena.new id any_character) }
    ensures extends { Extends arena.old arena.new }
{
    between(alloc, arena, &[0], &[LAST_CHARACTER])
}
