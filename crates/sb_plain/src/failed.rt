//! Which regexes do not match what is left of a word.

ghost use Rattle.std.specs.Prelude.{◌≡◌, [], List, OnOk, true, ◌<◌, false, drop, length, ℕ};
ghost use Rattle.sb_lang.specs.Regex.{Regex};
ghost use Rattle.sb_lang.specs.Language.{language};
ghost use Rattle.sb_regex.specs.Numbered.{regex_at};
ghost use Rattle.sb_plain.specs.Memory.{AreFailed};

use indexmap::IndexSet;
use sb_regex::RegexId;
use std::alloc::{AllocError, Global};
use std::marker::Model;

/// What failed before is forgotten once it is more than this.
const MOST: usize = 1 << 20;

/// Regexes that do not match a word from a place on, with the place, of one word.
#[derive(Drop)]
pub(crate) struct Failed {
    codes: Vec<u32>,
    pairs: IndexSet<(RegexId, usize)>,
}

impl Model for Failed {
    ghost use Rattle.std.specs.Prelude.{ℕ, List};

    ghost Value = { List ℕ × List (ℕ × ℕ) };

    ghost view = { λ failed. (failed.codes.items, failed.pairs.keys) };
}

impl Failed {
    /// None, of the empty word. Takes no memory.
    pub(crate) fn new(alloc: Global) -> Failed
        ensures { result ≡ ([], []) }
    {
        Failed {
            codes: Vec::new(alloc),
            pairs: IndexSet::new(alloc),
        }
    }

    /// Forgets what is of another word than these characters, and what has become too much.
    pub(crate) fn turn_to(&mut self, codes: &[u32]) -> Result<(), AllocError>
        ensures word { OnOk result (self.new.0 ≡ codes.now) }
        ensures right { (rs : List Regex) → AreFailed rs self.old → AreFailed rs self.new }
    {
        if self.pairs.len() <= MOST && self.codes.as_slice() == codes {
            return Ok(());
        }
        let alloc = *self.codes.allocator();
        let copy = Vec::from_slice(alloc, codes)?;
        self.pairs = IndexSet::new(alloc);
        self.codes = copy;
        Ok(())
    }

    /// Whether the regex is known not to match from the place on.
    pub(crate) fn has(&self, regex: RegexId, place: usize) -> bool
        ensures { result ≡ true → (rs : List Regex) → AreFailed rs self.now
            → language (regex_at rs regex) (drop place self.now.0) ≡ false }
    {
        self.pairs.contains(&(regex, place))
    }

    /// The regex does not match from the place on.
    pub(crate) fn put(&mut self, regex: RegexId, place: usize) -> Result<(), AllocError>
        ensures word { self.new.0 ≡ self.old.0 }
        ensures right { (rs : List Regex) → AreFailed rs self.old → regex < length rs
            → language (regex_at rs regex) (drop place self.old.0) ≡ false → AreFailed rs self.new }
    {
        self.pairs.insert((regex, place))?;
        Ok(())
    }
}
