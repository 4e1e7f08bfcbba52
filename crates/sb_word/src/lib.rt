//! Words over the characters of the SMT-LIB theory of Unicode Strings, and their literals; numerals, integers as they
//! are printed, and the values of constants.
//!
//! A [`Word`] is a list of characters, numbers from 0 to `0x2ffff`; contracts see it as that list. The
//! layers above print words as literals and keep them as witnesses.
#![tactic(auto)]

mod escape;
mod literal;
mod number;
mod read;
mod value;
mod word;

pub use escape::read_character;
pub use literal::{
    literal_has_its_word, literal_stands_for_one_word, print_literal, rest_has_its_word,
    text_is_literal,
};
pub use number::{print_int, read_numeral};
pub use read::{LiteralError, read_literal};
pub use value::Value;
pub use word::{CodesError, Word};
