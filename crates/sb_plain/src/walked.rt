//! Where walks along one word stay at a regex.

ghost use Rattle.std.specs.Prelude.{◌≡◌, ◌<◌, ◌≤◌, ◌+◌, [], List, ℕ, OnOk, IfSome, Some, length, map, slice_get};
ghost use Rattle.sb_lang.specs.Regex.{Regex};
ghost use Rattle.sb_plain.specs.Memory.{IsStay, AreWalked};
ghost use Rattle.sb_plain.specs.Staying.{cut_to, AreAlike, IsStep};

use indexmap::IndexSet;
use sb_regex::RegexId;
use std::alloc::{AllocError, Global};
use std::marker::Model;

/// What is known of another word is forgotten once it is of more regexes than this.
const MOST: usize = 1 << 16;

/// Where the walk along a word stays: at one regex from the place where it last came to another one, up to where that
/// is known. If it begins behind its end, nothing is known.
#[derive(Copy, Clone)]
pub(crate) struct Stay {
    pub(crate) from: usize,
    pub(crate) to: usize,
    pub(crate) rest: RegexId,
}

impl Stay {
    /// At the regex itself, before the first character.
    fn start(regex: RegexId) -> Stay
        ensures begins { result.from ≤ result.to }
        ensures right { (rs : List Regex) (codes : List ℕ) → regex < length rs → IsStay rs regex codes result }
    {
        Stay {
            from: 0,
            to: 0,
            rest: regex,
        }
    }

    /// One character on, where the derivative is that regex.
    pub(crate) fn on(self, to: usize, rest: RegexId) -> Stay
        requires { to ≡ self.to + 1 }
        ensures begins { self.from ≤ self.to → result.from ≤ result.to }
        ensures to { result.to ≡ to }
        ensures rest { result.rest ≡ rest }
        ensures right { (old new : List Regex) (regex : ℕ) (codes : List ℕ) → regex < length old
            → IsStep old new codes self rest → IsStay old regex codes self → IsStay new regex codes result }
    {
        if rest == self.rest {
            return Stay {
                from: self.from,
                to,
                rest,
            };
        }
        Stay { from: to, to, rest }
    }

    /// Along so many first characters at most.
    fn cut(self, count: usize) -> Stay
        ensures { result ≡ cut_to count self }
    {
        Stay {
            from: self.from,
            to: self.to.min(count),
            rest: self.rest,
        }
    }

    /// The stay itself, or the start where nothing is known.
    fn or_start(self, regex: RegexId) -> Stay
        ensures begins { result.from ≤ result.to }
        ensures right { (rs : List Regex) (codes : List ℕ) → regex < length rs → IsStay rs regex codes self
            → IsStay rs regex codes result }
    {
        if self.from <= self.to {
            return self;
        }
        Stay::start(regex)
    }
}

/// The stays of regexes along one word.
#[derive(Drop)]
pub(crate) struct Walked {
    codes: Vec<u32>,
    regexes: IndexSet<RegexId>,
    /// By the place of the regex.
    stays: Vec<Stay>,
}

impl Model for Walked {
    ghost use Rattle.std.specs.Prelude.{ℕ, List};
    ghost use Rattle.sb_plain.specs.declared.walked.Stay.{Stay};

    ghost Value = { List ℕ × List ℕ × List Stay };

    ghost view = { λ walked. (walked.codes.items, walked.regexes.keys, walked.stays.items) };
}

impl Walked {
    /// None, of the empty word. Takes no memory.
    pub(crate) fn new(alloc: Global) -> Walked
        ensures { result ≡ ([], [], []) }
    {
        Walked {
            codes: Vec::new(alloc),
            regexes: IndexSet::new(alloc),
            stays: Vec::new(alloc),
        }
    }

    /// Where the walk of a regex along the characters is known to stay, as far as the word has the same ones.
    pub(crate) fn begin(&self, codes: &[u32], regex: RegexId) -> Stay
        ensures begins { result.from ≤ result.to }
        ensures right { (rs : List Regex) → AreWalked rs self.now → regex < length rs
            → IsStay rs regex codes.now result }
    {
        match self.stay(regex) {
            Some(stay) => stay.cut(common(codes, &self.codes)).or_start(regex),
            None => Stay::start(regex),
        }
    }

    /// The stay that is kept of a regex.
    fn stay(&self, regex: RegexId) -> Option<Stay>
        ensures { IfSome result (λ stay. (rs : List Regex) → AreWalked rs self.now → IsStay rs regex self.now.0 stay) }
    {
        match self.regexes.get_index_of(&regex) {
            Some(place) => self.stay_at(place),
            None => None,
        }
    }

    /// The one that is kept at a place.
    fn stay_at(&self, place: usize) -> Option<Stay>
        ensures { result ≡ slice_get self.now.2 place }
    {
        self.stays.get(place).copied()
    }

    /// The walk of the regex along the characters stays there.
    pub(crate) fn put(
        &mut self,
        codes: &[u32],
        regex: RegexId,
        stay: Stay,
    ) -> Result<(), AllocError>
        ensures { (rs : List Regex) → AreWalked rs self.old → regex < length rs → IsStay rs regex codes.now stay
            → AreWalked rs self.new }
    {
        self.turn_to(codes)?;
        self.keep(regex, stay)
    }

    /// Makes the word one that begins with these characters, and leaves of the stays what is along the same ones.
    fn turn_to(&mut self, codes: &[u32]) -> Result<(), AllocError>
        ensures word { OnOk result (AreAlike (length codes.now) self.new.0 codes.now) }
        ensures right { (rs : List Regex) → AreWalked rs self.old → AreWalked rs self.new }
    {
        let count = common(codes, &self.codes);
        if count == codes.len() {
            return Ok(());
        }
        let alloc = *self.codes.allocator();
        let copy = Vec::from_slice(alloc, codes)?;
        self.leave(count, codes.len() / 2);
        self.codes = copy;
        Ok(())
    }

    /// Leaves of the stays what is along so many first characters, or nothing where these are fewer than wanted.
    fn leave(&mut self, count: usize, wanted: usize)
        ensures { (rs : List Regex) (codes : List ℕ) → AreAlike count codes self.old.0 → AreWalked rs self.old
            → AreWalked rs (codes, self.new.1, self.new.2) }
    {
        if count == self.codes.len() {
            return;
        }
        if count < wanted || self.stays.len() > MOST {
            let alloc = *self.codes.allocator();
            self.stays = Vec::new(alloc);
            self.regexes = IndexSet::new(alloc);
            return;
        }
        cut(&mut self.stays, count);
    }

    /// Keeps a stay along the word, in place of that of the same regex.
    fn keep(&mut self, regex: RegexId, stay: Stay) -> Result<(), AllocError>
        ensures { (rs : List Regex) → AreWalked rs self.old → regex < length rs → IsStay rs regex self.old.0 stay
            → AreWalked rs self.new }
    {
        if let Some(place) = self.regexes.get_index_of(&regex) {
            return put_at(&mut self.stays, place, stay);
        }
        let place = self.regexes.len();
        put_at(&mut self.stays, place, stay)?;
        self.regexes.insert(regex)?;
        Ok(())
    }
}

/// How many first characters are the same in both.
fn common(left: &[u32], right: &[u32]) -> usize
    ensures { AreAlike result left.now right.now }
{
    let least = left.len().min(right.len());
    if left[..least] == right[..least] {
        return least;
    }
    let mut count = 0;
    while count < least && left[count] == right[count] {
        count += 1;
    }
    count
}

/// Leaves of each stay what is along so many first characters.
fn cut(stays: &mut [Stay], count: usize)
    ensures { stays.new ≡ map (cut_to count) stays.old }
{
    for place in 0..stays.len() {
        stays[place] = stays[place].cut(count);
    }
}

/// Puts a stay at a place, which is one of the others or the one behind them.
fn put_at(stays: &mut Vec<Stay>, place: usize, stay: Stay) -> Result<(), AllocError>
    ensures there { (s : Stay) → slice_get stays.new.items place ≡ Some s → s ≡ stay }
    ensures others { (i : ℕ) → (i ≡ place → ⊥) → slice_get stays.new.items i ≡ slice_get stays.old.items i }
{
    if place < stays.len() {
        stays[place] = stay;
        return Ok(());
    }
    if place == stays.len() {
        stays.push(stay)?;
    }
    Ok(())
}
