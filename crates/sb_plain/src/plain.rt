//! Derivatives, cut points and whether a word matches, of regexes of one arena.

ghost use Rattle.std.specs.Prelude.{◌≡◌, ◌<◌, ◌≤◌, ℕ, List, length, drop, IfOk};
ghost use Rattle.sb_word.specs.Words.{IsWord};
ghost use Rattle.sb_lang.specs.Regex.{Regex};
ghost use Rattle.sb_lang.specs.Derivative.{nd, nd_along};
ghost use Rattle.sb_lang.specs.Language.{language};
ghost use Rattle.sb_regex.specs.Numbered.{regex_at, Extends, Names};
ghost use Rattle.sb_plain.specs.CutPoints.{AreCutPoints};
ghost use Rattle.sb_plain.specs.Memory.{IsRight};

use crate::failed::Failed;
use crate::learnt::Learnt;
use crate::walk::search;
use crate::walked::Walked;
use sb_lang::derivative::{derivative_along_has_rests, nullable_has_empty_word};
use sb_regex::{Arena, RegexId};
use sb_word::Word;
use std::alloc::{AllocError, Global};
use std::marker::Model;

/// The derivatives and cut points that are remembered, of regexes of one arena, which of them were found not to match
/// what is left of one word at a place, and at which regex the walk along one word stays.
#[derive(Drop)]
pub struct Plain {
    learnt: Learnt,
    failed: Failed,
    walked: Walked,
}

impl Model for Plain {
    ghost use Rattle.sb_plain.specs.Memory.{Memory};

    ghost Value = { Memory };

    ghost view = { λ plain. (plain.learnt, plain.failed, plain.walked) };
}

impl Plain {
    /// Nothing is remembered. Takes no memory.
    pub fn new(alloc: Global) -> Plain
        ensures { (rs : List Regex) → IsRight rs result }
    {
        Plain {
            learnt: Learnt::new(alloc),
            failed: Failed::new(alloc),
            walked: Walked::new(alloc),
        }
    }

    /// The derivative by a character.
    ///
    /// It is made once for each stretch of characters between cut points of the regex. A call for a stretch that was
    /// asked for before is a look-up, logarithmic in the number of cut points: at unions of 500, 2,000 and 5,000 words
    /// it takes the same time. The first call for a stretch looks each part up, once more where one was not known,
    /// makes what is not known of the parts, and then calls one constructor, or two; it is linear in the number of
    /// parts. By all 62 stretches of such unions, of words of six letters out of sixty, it took times as 1 : 5 : 12.
    ///
    /// Beside the derivatives by all characters at once of `sb_deriv`, natively: the first derivatives of the union of
    /// 5,000 words took 21 ms for 4.4, since each stretch looks each part up; all 10,409 states behind it 61 for 19;
    /// the 59,049 states of ten letters twice each 725 for 341.
    ///
    /// An error comes for want of memory alone, and the arena may hold more regexes then.
    pub fn plain_derivative(
        &mut self,
        arena: &mut Arena,
        r: RegexId,
        c: u32,
    ) -> Result<RegexId, AllocError>
        requires known { r < length arena.old }
        requires character { c ≤ 0x2ffff }
        requires right { IsRight arena.old self.old }
        ensures ok { IfOk result (λ id. Names arena.new id (nd (regex_at arena.old r) c)) }
        ensures extends { Extends arena.old arena.new }
        ensures right { IsRight arena.new self.new }
    {
        self.learnt.plain_derivative(arena, r, c)
    }

    /// The derivative along characters: one by each, as `plain_derivative` makes it.
    ///
    /// An error comes for want of memory alone, and the arena may hold more regexes then.
    pub fn along(
        &mut self,
        arena: &mut Arena,
        codes: &[u32],
        r: RegexId,
    ) -> Result<RegexId, AllocError>
        requires known { r < length arena.old }
        requires word { IsWord codes.now }
        requires right { IsRight arena.old self.old }
        ensures ok { IfOk result (λ id. Names arena.new id (nd_along (regex_at arena.old r) codes.now)) }
        ensures extends { Extends arena.old arena.new }
        ensures right { IsRight arena.new self.new }
    {
        self.learnt.along(arena, codes, r)
    }

    /// The cut points of a regex: 0, and where a range of a set by which a word can begin itself begins or has just
    /// ended. A copy of what is kept.
    ///
    /// They are made once, with the derivative by 0, from the lists of the parts: each different list is looked at
    /// once, and a regex whose points all come from one list shares it. For the first time it took times as
    /// 1 : 4 : 12 at unions of 500, 2,000 and 5,000 words.
    ///
    /// An error comes for want of memory alone, and the arena may hold more regexes then.
    pub fn cut_points(&mut self, arena: &mut Arena, r: RegexId) -> Result<Vec<u32>, AllocError>
        requires known { r < length arena.old }
        requires right { IsRight arena.old self.old }
        ensures ok { IfOk result (λ points. AreCutPoints (regex_at arena.old r) points.items) }
        ensures extends { Extends arena.old arena.new }
        ensures right { IsRight arena.new self.new }
    {
        self.learnt.cut_points(arena, r)
    }

    /// Whether a word is in the language of a regex. The members of unions are followed one by one, depth first, and
    /// which of them fail at a place is remembered as long as the same word is asked for: a derivative for each member
    /// and place that is met. That takes at most 16 turns for each character and 64 more, and no more than 2^18; where
    /// they do not suffice, a derivative of the whole for each character. A derivative that is known is looked up.
    ///
    /// Where derivatives of the whole lead to the word's end, it is remembered of the regex at which one the walk
    /// stays, behind how many characters it came there, and up to where. This is kept of one word. A later call for the
    /// same regex begins from there, as far as both words have the same first characters; or with the first one, where
    /// the walk came there behind these. It takes a look-up, a comparison of the first characters, and a derivative for
    /// each character from there on.
    ///
    /// Where such a call comes to the end by one derivative at least, its word is the kept one from then on, unless the
    /// kept one begins with it, and its characters are copied. Where the words part, what is kept of all regexes is cut
    /// to the characters that both begin with, one step for each regex; or forgotten, where these are fewer than half
    /// of the new word's, or the regexes more than 2^16.
    ///
    /// An error comes for want of memory alone, and the arena may hold more regexes then.
    pub fn matches(
        &mut self,
        arena: &mut Arena,
        word: &Word,
        r: RegexId,
    ) -> Result<bool, AllocError>
        requires known { r < length arena.old }
        requires right { IsRight arena.old self.old }
        ensures ok { IfOk result (λ b. b ≡ language (regex_at arena.old r) word.now) }
        ensures extends { Extends arena.old arena.new }
        ensures right { IsRight arena.new self.new }
    {
        derivative_along_has_rests();
        nullable_has_empty_word();
        let codes = word.codes();
        let begun = self.walked.begin(codes, r);
        let first = begun.to;
        let stay = self.learnt.walk_on(arena, codes, begun)?;
        let place = stay.to;
        let rest = stay.rest;
        if place < codes.len() {
            return self.matches_from(arena, codes, rest, place);
        }
        if place == first {
            return Ok(arena.nullable(rest));
        }
        self.walked.put(codes, r, stay)?;
        Ok(arena.nullable(rest))
    }

    /// Whether the characters from a place on are a word of a regex's language.
    fn matches_from(
        &mut self,
        arena: &mut Arena,
        codes: &[u32],
        r: RegexId,
        place: usize,
    ) -> Result<bool, AllocError>
        requires known { r < length arena.old }
        requires word { IsWord codes.now }
        requires place { place ≤ length codes.now }
        requires right { IsRight arena.old self.old }
        ensures ok { IfOk result (λ b. b ≡ language (regex_at arena.old r) (drop place codes.now)) }
        ensures extends { Extends arena.old arena.new }
        ensures right { IsRight arena.new self.new }
    {
        derivative_along_has_rests();
        nullable_has_empty_word();
        self.failed.turn_to(codes)?;
        if let Some(found) = search(arena, &mut self.learnt, &mut self.failed, codes, r, place)? {
            return Ok(found);
        }
        let rest = self.learnt.along(arena, &codes[place..], r)?;
        Ok(arena.nullable(rest))
    }
}
