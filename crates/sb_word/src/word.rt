//! Words.

ghost use Rattle.std.specs.Prelude.{◌≡◌, IfOk, OnOk, MatchOption};
ghost use Rattle.sb_word.specs.Words.{IsWord, IsFirstOutside};
ghost use Rattle.sb_word.specs.Faults.{OutsideFault};

use std::alloc::Global;
use std::marker::Model;
use thiserror::Error;

/// The last character: the theory's characters are the numbers from 0 to this one.
pub(crate) const LAST_CHARACTER: u32 = 0x2ffff;

/// A word: a list of characters.
#[derive(Drop)]
pub struct Word {
    codes: Vec<u32>,
}

impl Model for Word {
    ghost use Rattle.std.specs.Prelude.{List, ℕ};
    ghost use Rattle.sb_word.specs.Words.{IsWord};

    ghost Value = { List ℕ };

    ghost view = { λ word. word.codes.items };

    ghost invariant = { λ word. IsWord word.codes.items };
}

/// Why a list of numbers gives no word.
#[derive(Debug, Drop, Clone, Copy, PartialEq, Eq, Error)]
pub enum CodesError {
    /// The first number that is no character stands at this place, counted from 0.
    #[error("the number at place {0} is no character")]
    NotACharacter(usize),
    #[error("out of memory")]
    NoMemory,
}

impl Word {
    /// The word of these numbers. `NotACharacter(place)` exactly at the first number above `0x2ffff`.
    /// Linear.
    pub fn from_codes(alloc: Global, codes: &[u32]) -> Result<Word, CodesError>
        ensures ok { OnOk result (IsWord codes.now) }
        ensures word { IfOk result (λ word. word ≡ codes.now) }
        ensures outside { OutsideFault codes.now result }
    {
        if let Some(place) = first_outside(codes) {
            return Err(CodesError::NotACharacter(place));
        }
        let codes = Vec::from_slice(alloc, codes).map_err(|_| CodesError::NoMemory)?;
        Ok(Word { codes })
    }

    /// The word of these characters.
    pub(crate) fn of_characters(codes: Vec<u32>) -> Word
        requires { IsWord codes.items }
        ensures { result ≡ codes.items }
    {
        Word { codes }
    }

    /// The characters, in order. Takes no memory.
    pub fn codes(&self) -> &[u32]
        ensures value { result.now ≡ self.now }
        ensures word { IsWord self.now }
    {
        self.codes.as_slice()
    }

    /// The characters, in order, in place of the word. Takes no memory.
    pub fn into_codes(self) -> Vec<u32>
        ensures value { result.items ≡ self }
        ensures word { IsWord self }
    {
        self.codes
    }
}

/// The place of the first number that is no character.
fn first_outside(codes: &[u32]) -> Option<usize>
    ensures { MatchOption result (IsWord codes.now) (λ place. IsFirstOutside codes.now place) }
{
    codes.iter().position(|code| *code > LAST_CHARACTER)
}
