//! Which lengths the words of a language have, without a look at the words.
//!
//! [`Lengths`] has two sets of lengths below 64: those that some word may have, and those at which every word of
//! characters is in. There is an operation for each kind of regex, in constant time: a sum of lengths for a
//! concatenation, a complement of the other set for a complement. The layer above keeps them by regex, so that a
//! search for a word of one length passes over regexes that have none, and stops where each word is one.
#![tactic(auto)]

mod length_set;

ghost use Rattle.std.specs.Prelude.{◌≡◌, ℕ, Bool, true, false, not, ◌&&◌, ◌||◌};
ghost use Rattle.sb_word.specs.Words.{is_character};
ghost use Rattle.sb_lang.specs.Languages.{Language, empty_word, one_character, cut, iterate, repeat};
ghost use Rattle.sb_lengths.specs.Lengths.{may, must, AreLengths};

pub use length_set::LengthSet;
use sb_lang::languages::{cut_is_some_cut, iteration_is_some_power, repetition_is_some_power};

/// The lengths that words of a language may have, and those at which every word of characters is in it.
#[derive(Clone, Copy, PartialEq, Eq)]
pub struct Lengths {
    /// The lengths below 64 that some word may have.
    pub possible: LengthSet,
    /// The lengths below 64 at which every word of characters is in.
    pub certain: LengthSet,
}

impl Lengths {
    /// Of the language with no word.
    pub fn none() -> Lengths
        ensures { AreLengths result (λ w. false) }
    {
        Lengths {
            possible: LengthSet::none(),
            certain: LengthSet::none(),
        }
    }

    /// Of the language of every word.
    pub fn every() -> Lengths
        ensures { AreLengths result (λ w. true) }
    {
        Lengths {
            possible: LengthSet::full(),
            certain: LengthSet::full(),
        }
    }

    /// Of a language of which nothing is known.
    pub fn unknown() -> Lengths
        ensures { (L : Language) → AreLengths result L }
    {
        Lengths {
            possible: LengthSet::full(),
            certain: LengthSet::none(),
        }
    }

    /// Of the empty word alone.
    pub fn empty_word() -> Lengths
        ensures { AreLengths result empty_word }
    {
        Lengths {
            possible: LengthSet::of(0),
            certain: LengthSet::of(0),
        }
    }

    /// Of the words of one character that passes a test; whether each character does is given.
    pub fn character(full: bool) -> Lengths
        ensures { (test : ℕ → Bool) → (full ≡ true → (c : ℕ) → is_character c ≡ true → test c ≡ true)
            → AreLengths result (one_character test) }
    {
        Lengths {
            possible: LengthSet::of(1),
            certain: if full {
                LengthSet::of(1)
            } else {
                LengthSet::none()
            },
        }
    }

    /// Of the words of the first language with one of the second behind it.
    pub fn cat(self, other: Lengths) -> Lengths
        ensures { (L M : Language) → AreLengths self L → AreLengths other M → AreLengths result (cut L M) }
    {
        cut_is_some_cut();
        Lengths {
            possible: self.possible.sums(other.possible),
            certain: self.certain.sums(other.certain),
        }
    }

    /// Of the words of either language.
    pub fn union(self, other: Lengths) -> Lengths
        ensures { (L M : Language) → AreLengths self L → AreLengths other M
            → AreLengths result (λ w. L w || M w) }
    {
        Lengths {
            possible: self.possible.union(other.possible),
            certain: self.certain.union(other.certain),
        }
    }

    /// Of the words of both languages.
    pub fn intersection(self, other: Lengths) -> Lengths
        ensures { (L M : Language) → AreLengths self L → AreLengths other M
            → AreLengths result (λ w. L w && M w) }
    {
        Lengths {
            possible: self.possible.intersection(other.possible),
            certain: self.certain.intersection(other.certain),
        }
    }

    /// Of the words that are not in the language.
    pub fn complement(self) -> Lengths
        ensures { (L : Language) → AreLengths self L → AreLengths result (λ w. not (L w)) }
    {
        Lengths {
            possible: self.certain.complement(),
            certain: self.possible.complement(),
        }
    }

    /// Of any number of words of the language, one behind the other.
    pub fn star(self) -> Lengths
        ensures { (L : Language) → AreLengths self L → AreLengths result (iterate L) }
    {
        cut_is_some_cut();
        iteration_is_some_power();
        Lengths {
            possible: self.possible.repeats(),
            certain: self.certain.repeats(),
        }
    }

    /// Of so many words of the language, one behind the other: of at least the one number of them, and at most the other.
    /// Constant time, however great these are.
    pub fn repeat(self, least: u64, most: u64) -> Lengths
        ensures { (L : Language) → AreLengths self L → AreLengths result (repeat L least most) }
    {
        cut_is_some_cut();
        repetition_is_some_power();
        Lengths {
            possible: self.possible.powers(least, most),
            certain: self.certain.powers(least, most),
        }
    }

    /// Whether a word of the length may be in the language. Constant time.
    pub fn may(self, length: usize) -> bool
        ensures { result ≡ may self length }
    {
        length >= 64 || self.possible.has(length as u32)
    }

    /// Whether every word of characters of the length is known to be in the language. Constant time.
    pub fn must(self, length: usize) -> bool
        ensures { result ≡ must self length }
    {
        length < 64 && self.certain.has(length as u32)
    }
}
