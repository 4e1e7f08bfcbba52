//! Characters by their hexadecimal digits.

ghost use Rattle.std.specs.Prelude.{◌≡◌, true, option_map};
ghost use Rattle.sb_word.specs.Words.{is_character};
ghost use Rattle.sb_reader.specs.Forms.{shape_of};
ghost use Rattle.sb_script.specs.Heads.{hexadecimal_digits};
ghost use Rattle.sb_sorts.specs.Characters.{character_in};

use sb_reader::Shape;
use sb_word::read_character;

/// A character, by its number.
#[derive(Clone, Copy)]
pub(crate) struct Character {
    pub(crate) code: u32,
    ghost is: { is_character code ≡ true },
}

/// The digits behind `#x`, none where there is no such front.
fn hexadecimal_digits(bytes: &[u8]) -> &[u8]
    ensures { result.now ≡ hexadecimal_digits bytes.now }
{
    match bytes {
        [b'#', b'x', digits @ ..] => digits,
        _ => &[],
    }
}

/// The character of `(_ char #xH)`, by its index.
pub(crate) fn character_of(index: Shape<'_>) -> Option<Character>
    ensures { option_map (λ character. character.code) result ≡ character_in (shape_of index.entry) }
{
    match index {
        Shape::OtherNumber(bytes) => {
            let code = read_character(hexadecimal_digits(bytes))?;
            Some(Character { code })
        }
        _ => None,
    }
}
