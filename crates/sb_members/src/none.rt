//! The regex that has no word.

ghost use Rattle.std.specs.Prelude.{◌≡◌, ◌<◌, true, length};
ghost use Rattle.sb_lang.specs.Regex.{none};
ghost use Rattle.sb_regex.specs.Numbered.{regex_at};

use sb_regex::{Arena, Node, RegexId};

/// Whether a regex is the one that has no word. Constant time.
pub fn is_none(arena: &Arena, regex: RegexId) -> bool
    requires { regex < length arena.now }
    ensures { result ≡ true → regex_at arena.now regex ≡ none }
{
    match arena.node(regex) {
        Node::None => true,
        _ => false,
    }
}
