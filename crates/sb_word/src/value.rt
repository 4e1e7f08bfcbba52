//! Values of constants.

use crate::word::Word;

/// The value of a constant: a word, an integer, or a truth value.
#[derive(Drop)]
pub enum Value {
    Text(Word),
    Int(i128),
    Truth(bool),
}
