//! The constructors of single regexes, concatenations, stars, repetitions and paths.

ghost use Rattle.std.specs.Prelude.{◌≡◌, ◌<◌, ◌≤◌, ◌||◌, true, false, if◌then◌else◌, length, IfOk};
ghost use Rattle.sb_lang.specs.Regex.{none, set};
ghost use Rattle.sb_lang.specs.Constructors.{any_character, anything, is_anything, is_none, mkset, mkcat, mknot, mkstar, mkrep, mkpath};
ghost use Rattle.sb_lang.specs.Order.{regex_eq};
ghost use Rattle.sb_lang.specs.Normal.{word_regex};
ghost use Rattle.sb_lang.specs.NormalForm.{IsNormal};
ghost use Rattle.sb_word.specs.Words.{IsWord};
ghost use Rattle.sb_regex.specs.Numbered.{regex_at, regexes_at, AllNumbers, Extends, Names};
ghost use Rattle.sb_regex.specs.Spine.{chain, is_cat, is_plain};

use crate::arena::Arena;
use crate::node::{Node, RegexId};
use sb_class::{Class, LAST_CHARACTER};
use sb_lang::normal_form::constructors_give_normal;
use sb_lang::order::order_tells_apart;
use sb_word::Word;
use std::alloc::AllocError;

/// A concatenation as its members from left to right and what stands behind them.
#[derive(Drop)]
struct Spine {
    heads: Vec<RegexId>,
    last: RegexId,
}

impl Arena {
    /// The words of one character of the set. Linear in the number of its ranges.
    pub fn set(&mut self, class: &Class) -> Result<RegexId, AllocError>
        ensures ok { IfOk result (λ id. Names self.new id (mkset class.now)) }
        ensures extends { Extends self.old self.new }
    {
        constructors_give_normal();
        let ranges = class.ranges();
        if ranges.is_empty() {
            return self.none();
        }
        let ranges = Vec::from_slice(self.allocator(), ranges)?;
        self.intern(Node::Set(ranges))
    }

    /// The concatenation. Linear in the number of members of the first, constant where it is none.
    pub fn cat(&mut self, a: RegexId, b: RegexId) -> Result<RegexId, AllocError>
        requires left { a < length self.old }
        requires right { b < length self.old }
        ensures ok { IfOk result (λ id. Names self.new id (mkcat (regex_at self.old a) (regex_at self.old b))) }
        ensures extends { Extends self.old self.new }
    {
        match self.node(a) {
            Node::None => Ok(a),
            Node::Eps => Ok(b),
            _ => match self.node(b) {
                Node::None => Ok(b),
                Node::Eps => Ok(a),
                _ => self.join(a, b),
            },
        }
    }

    /// The concatenation of two regexes that are neither none nor of the empty word alone.
    fn join(&mut self, a: RegexId, b: RegexId) -> Result<RegexId, AllocError>
        requires left { a < length self.old }
        requires right { b < length self.old }
        requires left_is_plain { is_plain (regex_at self.old a) ≡ true }
        requires right_is_plain { is_plain (regex_at self.old b) ≡ true }
        ensures ok { IfOk result (λ id. Names self.new id (mkcat (regex_at self.old a) (regex_at self.old b))) }
        ensures extends { Extends self.old self.new }
    {
        constructors_give_normal();
        order_tells_apart();
        self.normal_regexes_each_once();
        let mut spine = self.spine(a)?;
        spine.heads.push(spine.last)?;
        self.lean(&spine.heads, b)
    }

    /// The members of a concatenation, from left to right.
    fn spine(&self, a: RegexId) -> Result<Spine, AllocError>
        requires { a < length self.now }
        ensures value { IfOk result
            (λ spine. chain (regexes_at self.now spine.heads.items) (regex_at self.now spine.last)
            ≡ regex_at self.now a) }
        ensures heads { IfOk result (λ spine. AllNumbers self.now spine.heads.items) }
        ensures last { IfOk result (λ spine. spine.last < length self.now) }
        ensures ends { IfOk result (λ spine. is_cat (regex_at self.now spine.last) ≡ false) }
    {
        let mut heads = Vec::new(self.allocator());
        let mut last = a;
        while let Node::Cat(head, rest) = self.node(last) {
            heads.push(*head)?;
            last = *rest;
        }
        Ok(Spine { heads, last })
    }

    /// The concatenation of members that leans to the right.
    fn lean(&mut self, heads: &[RegexId], last: RegexId) -> Result<RegexId, AllocError>
        requires heads { AllNumbers self.old heads.now }
        requires last { last < length self.old }
        requires normal { IsNormal (chain (regexes_at self.old heads.now) (regex_at self.old last)) }
        ensures ok { IfOk result
            (λ id. Names self.new id (chain (regexes_at self.old heads.now) (regex_at self.old last))) }
        ensures extends { Extends self.old self.new }
    {
        let mut whole = last;
        let mut left = heads.len();
        while left > 0 {
            left -= 1;
            whole = self.intern(Node::Cat(heads[left], whole))?;
        }
        Ok(whole)
    }

    /// The complement. Constant time.
    pub fn not(&mut self, a: RegexId) -> Result<RegexId, AllocError>
        requires { a < length self.old }
        ensures ok { IfOk result (λ id. Names self.new id (mknot (regex_at self.old a))) }
        ensures extends { Extends self.old self.new }
    {
        constructors_give_normal();
        self.normal_regexes_each_once();
        match self.node(a) {
            Node::Not(b) => Ok(*b),
            _ => self.intern(Node::Not(a)),
        }
    }

    /// The star. Constant time, but for a set it is linear in the number of ranges.
    pub fn star(&mut self, a: RegexId) -> Result<RegexId, AllocError>
        requires { a < length self.old }
        ensures ok { IfOk result (λ id. Names self.new id (mkstar (regex_at self.old a))) }
        ensures extends { Extends self.old self.new }
    {
        constructors_give_normal();
        self.normal_regexes_each_once();
        match self.node(a) {
            Node::None => self.eps(),
            Node::Eps => Ok(a),
            Node::Star(_) => Ok(a),
            Node::Set(ranges) => {
                if is_full(ranges.as_slice()) {
                    self.anything()
                } else {
                    self.intern(Node::Star(a))
                }
            }
            _ => self.intern(Node::Star(a)),
        }
    }

    /// The repetition, from the one number of times to the other. Constant time, however great these are.
    pub fn rep(&mut self, body: RegexId, least: u64, most: u64) -> Result<RegexId, AllocError>
        requires { body < length self.old }
        ensures ok { IfOk result (λ id. Names self.new id (mkrep (regex_at self.old body) least most)) }
        ensures extends { Extends self.old self.new }
    {
        if most < least {
            return self.none();
        }
        if most == 0 {
            return self.eps();
        }
        if least == 1 && most == 1 {
            return Ok(body);
        }
        self.repeat(body, least, most)
    }

    /// A repetition with bounds in order, of more than no time and more than once alone.
    fn repeat(&mut self, body: RegexId, least: u64, most: u64) -> Result<RegexId, AllocError>
        requires body { body < length self.old }
        requires ordered { least ≤ most }
        requires some { 0 < most }
        requires not_once { (least ≡ 1) → (most ≡ 1) → ⊥ }
        ensures ok { IfOk result (λ id. Names self.new id (mkrep (regex_at self.old body) least most)) }
        ensures extends { Extends self.old self.new }
    {
        constructors_give_normal();
        self.normal_regexes_each_once();
        match self.node(body) {
            Node::Eps => Ok(body),
            Node::None => { if least == 0 { self.eps() } else { Ok(body) } }
            _ => self.intern(Node::Rep(body, least, most)),
        }
    }

    /// The words along which the derivative takes the one regex to the other. Constant time.
    pub fn path(&mut self, from: RegexId, to: RegexId) -> Result<RegexId, AllocError>
        requires from { from < length self.old }
        requires to { to < length self.old }
        ensures ok { IfOk result (λ id. Names self.new id (mkpath (regex_at self.old from) (regex_at self.old to))) }
        ensures extends { Extends self.old self.new }
    {
        constructors_give_normal();
        order_tells_apart();
        self.normal_regexes_each_once();
        if self.stays(from) {
            return self.every_word_if(from == to);
        }
        self.intern(Node::Path(from, to))
    }

    /// Whether the derivative by each character is the regex itself: it has no word, or every word.
    fn stays(&self, a: RegexId) -> bool
        requires { a < length self.now }
        ensures { result ≡ (is_none (regex_at self.now a) || is_anything (regex_at self.now a)) }
    {
        match self.node(a) {
            Node::None => true,
            Node::Not(b) => self.is_none(*b),
            _ => false,
        }
    }

    /// Whether the regex is the one with no word.
    fn is_none(&self, a: RegexId) -> bool
        requires { a < length self.now }
        ensures { result ≡ is_none (regex_at self.now a) }
    {
        match self.node(a) {
            Node::None => true,
            _ => false,
        }
    }

    /// The regex of every word, or of none.
    fn every_word_if(&mut self, every: bool) -> Result<RegexId, AllocError>
        ensures ok { IfOk result (λ id. Names self.new id (if every then anything else none)) }
        ensures extends { Extends self.old self.new }
    {
        if every { self.anything() } else { self.none() }
    }

    /// The sets of the word's characters, one behind the other. Linear.
    pub fn word(&mut self, word: &Word) -> Result<RegexId, AllocError>
        ensures ok { IfOk result (λ id. Names self.new id (word_regex word.now)) }
        ensures extends { Extends self.old self.new }
    {
        self.characters(word.codes())
    }

    /// The sets of the characters, one behind the other. Linear.
    pub fn characters(&mut self, codes: &[u32]) -> Result<RegexId, AllocError>
        requires { IsWord codes.now }
        ensures ok { IfOk result (λ id. Names self.new id (word_regex codes.now)) }
        ensures extends { Extends self.old self.new }
    {
        constructors_give_normal();
        let mut whole = self.eps()?;
        let mut left = codes.len();
        while left > 0 {
            left -= 1;
            let code = codes[left];
            let ranges = Vec::from_slice(self.allocator(), &[(code, code)])?;
            let character = self.intern(Node::Set(ranges))?;
            whole = self.cat(character, whole)?;
        }
        Ok(whole)
    }
}

/// Whether the ranges are those of the set of all characters.
pub(crate) fn is_full(ranges: &[(u32, u32)]) -> bool
    ensures { result ≡ regex_eq (set ranges.now) any_character }
{
    match ranges {
        [(low, high)] => *low == 0 && *high == LAST_CHARACTER,
        _ => false,
    }
}
