//! A constant's memberships.

ghost use Rattle.std.specs.Prelude.{◌≡◌, ℕ, ◌<◌, length, All, List, IfOk, OnOk};
ghost use Rattle.sb_lang.specs.Regex.{Regex};
ghost use Rattle.sb_decide.specs.Conjoined.{blank, with_place, without_place, known_within, is_settled, forgotten, all_known};
ghost use Rattle.sb_decide.specs.Members.{AreConjuncts, AreRooted, places_in};

use sb_regex::RegexId;
use sb_term::Serial;
use std::alloc::{AllocError, Global};
use std::marker::Model;

/// A membership: the constant, whose word is to be in the regex. Of an equality with a literal it is the regex that has
/// the literal's word alone, and of what is denied the complement.
#[derive(Clone, Copy, Drop)]
pub struct Member {
    pub serial: Serial,
    pub regex: RegexId,
}

/// The memberships of one constant by their places among the live assertions, and of how many first ones of them its
/// kept word is known to be the least.
#[derive(Drop)]
pub struct Conjuncts {
    places: Vec<usize>,
    known: Option<usize>,
}

impl Model for Conjuncts {
    ghost use Rattle.sb_decide.specs.Conjoined.{Conjoined};

    ghost Value = { Conjoined };

    ghost view = { λ conjuncts. record {
      places = conjuncts.places.items;
      known = conjuncts.known;
    } };
}

impl Conjuncts {
    /// No memberships, and the empty word. Takes no memory.
    pub fn new(alloc: Global) -> Conjuncts
        ensures { result ≡ blank }
    {
        Conjuncts {
            places: Vec::new(alloc),
            known: Some(0),
        }
    }

    /// One more membership, by its place: the kept word is still the least one of those before it. `AllocError` only
    /// for want of memory.
    pub fn push(&mut self, place: usize) -> Result<(), AllocError>
        ensures { OnOk result (self.new ≡ with_place place self.old) }
    {
        self.places.push(place)?;
        Ok(())
    }

    /// One membership less, the last one: where the kept word was the least one of more than are left, nothing is known
    /// of it. Takes no memory.
    pub fn pop(&mut self)
        ensures { self.new ≡ without_place self.old }
    {
        self.places.pop();
        self.known = known_within(self.places.len(), self.known);
    }

    /// Whether the kept word is the least one of all memberships. Constant time.
    pub fn is_settled(&self) -> bool
        ensures { result ≡ is_settled self.now }
    {
        match self.known {
            Some(known) => known == self.places.len(),
            None => false,
        }
    }

    /// Of how many first memberships the kept word is the least one; `None` where nothing is known of it. Constant
    /// time.
    pub fn known(&self) -> Option<usize>
        ensures { result ≡ self.now.known }
    {
        self.known
    }

    /// The places, ascending. Constant time.
    pub fn places(&self) -> &[usize]
        ensures { result.now ≡ self.now.places }
    {
        self.places.as_slice()
    }

    /// Nothing is known of the kept word. Takes no memory.
    pub fn forget(&mut self)
        ensures { self.new ≡ forgotten self.old }
    {
        self.known = None;
    }

    /// The kept word is the least one of all memberships. Takes no memory.
    pub fn settle(&mut self)
        ensures { self.new ≡ all_known self.old }
    {
        self.known = Some(self.places.len());
    }
}

/// So many first memberships, where there are so many.
fn known_within(count: usize, known: Option<usize>) -> Option<usize>
    ensures { result ≡ known_within count known }
{
    match known {
        Some(known) if known <= count => Some(known),
        _ => None,
    }
}

/// Regexes that have the words in common that those of a constant's memberships have: the last intersection that is
/// known, and the regexes of the memberships behind it. Linear in these. `AllocError` only for want of memory.
pub fn conjuncts_at(
    alloc: Global,
    members: &[Option<Member>],
    roots: &[Option<RegexId>],
    places: &[usize],
) -> Result<Vec<RegexId>, AllocError>
    requires within { All (λ place. place < length members.now) places.now }
    requires abreast { length roots.now ≡ length members.now }
    ensures { IfOk result (λ ids. (rs : List Regex) (n : ℕ) → places.now ≡ places_in 0 n members.now
        → AreRooted rs members.now roots.now → AreConjuncts rs members.now n ids.items) }
{
    let mut ids = Vec::new(alloc);
    let mut left = places;
    while let Some((place, front)) = left.split_last() {
        let known = roots[*place];
        if let Some(root) = known {
            ids.push(root)?;
            return Ok(ids);
        }
        let taken = members[*place];
        let Some(member) = taken else {
            return Ok(ids);
        };
        ids.push(member.regex)?;
        left = front;
    }
    Ok(ids)
}
