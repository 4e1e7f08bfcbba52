//! What terms are as regular expressions, by number.

ghost use Rattle.std.specs.Prelude.{◌≡◌, ◌<◌, ◌+◌, ◌++◌, ◌∷◌, true, false, List, [], length, get_or, set, All, IfOk, OnOk, MatchOption};
ghost use Rattle.std.specs.List.{list_all};
ghost use Rattle.sb_lang.specs.Regex.{Regex};
ghost use Rattle.sb_meaning.specs.Terms as meaning;
ghost use Rattle.sb_meaning.specs.Terms.{apply, re_concat, re_range, str_concat, str_to_re, terms_of};
ghost use Rattle.sb_regex.specs.Numbered.{Names, Extends};
ghost use Rattle.sb_script.specs.Brought.{is_regex};
ghost use Rattle.sb_term.specs.Numbered.{term_at, terms_at};
ghost use Rattle.sb_problem.specs.declared.normals.Known.TheVariants.{Nothing};
ghost use Rattle.sb_problem.specs.Known.{IsKnown, KnowsMore, AreNormals, AreTexts, AreTold, PartsPass, count_known, is_known, known_from};
ghost use Rattle.sb_problem.specs.Normals.{IsNumberOf};
ghost use Rattle.sb_problem.specs.Patterns.{literal_of, number_of, pattern_in};
ghost use Rattle.sb_problem.specs.Shapes.{IsNumbered, AreRegexesOf, arguments_in, joins, regex_of};
ghost use Rattle.sb_problem.specs.Waiting.{AreWaiting, Settles};
ghost use Rattle.sb_problem.specs.Words.{up_to_limit};
ghost use Rattle.sb_term.specs.Symbols.{symbol_in};

use crate::join::joined;
use crate::literals::between;
use crate::pattern::Pattern;
use crate::waiting::{Waiting, enter};
use sb_lang::fold::concatenation_groups;
use sb_regex::{Arena, RegexId};
use sb_term::{Symbol, Table, Term, TermId};
use std::alloc::{AllocError, Global};
use std::marker::Model;

/// The most letters of a word of which a check may speak.
pub(crate) const WORD_LIMIT: u32 = 65_535;

/// What a term is as a regular expression over words, or as a word.
#[derive(Clone, Copy)]
pub(crate) enum Known {
    /// It was not asked for.
    Nothing,
    /// It is none.
    Other,
    /// A concatenation whose regex was not asked for, of terms that are known.
    Concatenation,
    /// It has this normal regex.
    Made(RegexId),
    /// It is a word of so many letters, up to the least count past the limit.
    Text(u32),
    /// It is such a word, and has this normal regex.
    Spelled(RegexId, u32),
}

impl Known {
    /// How many letters it has, up to the least count past the limit, where it is known to be a word.
    pub(crate) fn count(self) -> Option<u32>
        ensures { result ≡ count_known self }
    {
        match self {
            Known::Text(count) => Some(count),
            Known::Spelled(_, count) => Some(count),
            Known::Nothing | Known::Other | Known::Concatenation | Known::Made(_) => None,
        }
    }

    fn made(found: Option<RegexId>) -> Known
        ensures { result ≡ known_from found }
    {
        match found {
            Some(id) => Known::Made(id),
            None => Known::Other,
        }
    }
}

/// The count of letters up to the least one past the limit.
fn capped(count: usize) -> u32
    ensures { result ≡ up_to_limit count }
{
    if count <= WORD_LIMIT as usize {
        count as u32
    } else {
        WORD_LIMIT + 1
    }
}

/// The sum of two counts of letters, up to the least one past the limit.
fn sum(a: u32, b: u32) -> u32
    ensures { result ≡ up_to_limit (a + b) }
{
    let sum = a as u64 + b as u64;
    if sum <= WORD_LIMIT as u64 {
        sum as u32
    } else {
        WORD_LIMIT + 1
    }
}

/// What is known of the terms of a table, those that were asked for, as words, and as regular expressions over words:
/// those that are made of words, ranges and the constants of that sort.
#[derive(Drop)]
pub struct Normals {
    known: Vec<Known>,
}

impl Model for Normals {
    ghost use Rattle.std.specs.Prelude.{List};
    ghost use Rattle.sb_problem.specs.declared.normals.Known.{Known};

    ghost Value = { List Known };

    ghost view = { λ normals. normals.known.items };
}

impl Normals {
    /// Nothing is known. Takes no memory.
    pub fn new(alloc: Global) -> Normals
        ensures { (terms : List meaning.Term) (regexes : List Regex) → AreNormals terms regexes result }
    {
        Normals {
            known: Vec::new(alloc),
        }
    }

    /// The number of a term's normal regex, `None` exactly where the term is no regular expression over words.
    ///
    /// A term and those that it is made of are gone over once, when it is asked for first, by itself or as a part, with
    /// no recursion; what is not asked for is not made. In all that is linear in these terms and their arguments, and in
    /// the largest number that was asked for, but that the members of unions and intersections are sorted. A
    /// concatenation is made when it is asked for by itself or as an argument of another symbol, and then goes over its
    /// parts, however they are nested, up to those that are made: linear in their tree. A word that is concatenated is
    /// made of its parts that have letters when its regex is asked for: linear in the tree of these. Where concatenations
    /// share their parts, that and the regex may be larger than the terms by far, so whoever asks bounds the size of the
    /// term as a tree before. `AllocError` only for want of memory; the arena may hold more regexes then.
    pub fn normal(
        &mut self,
        table: &Table,
        arena: &mut Arena,
        id: TermId,
    ) -> Result<Option<RegexId>, AllocError>
        requires known { id < length table.now }
        requires normals { AreNormals table.now arena.old self.old }
        ensures number { IfOk result (λ found. IsNumberOf arena.new (term_at table.now id) found) }
        ensures extends { Extends arena.old arena.new }
        ensures normals { AreNormals table.now arena.new self.new }
    {
        self.reach(table, arena, id)?;
        self.regex(table, arena, id)
    }

    /// The number of the normal regex of a pattern, `None` exactly where the pattern is no regular expression over words
    /// and no word. Its cost and its error are those of [`Normals::normal`]; a word is made a regex when it is asked for
    /// first, which is linear in it.
    pub fn pattern(
        &mut self,
        table: &Table,
        arena: &mut Arena,
        pattern: Pattern,
    ) -> Result<Option<RegexId>, AllocError>
        requires known { number_of pattern < length table.now }
        requires normals { AreNormals table.now arena.old self.old }
        ensures number { IfOk result (λ found. IsNumberOf arena.new (pattern_in table.now pattern) found) }
        ensures extends { Extends arena.old arena.new }
        ensures normals { AreNormals table.now arena.new self.new }
    {
        match pattern {
            Pattern::Expression(id) => self.normal(table, arena, id),
            Pattern::Word(id) => {
                self.reach(table, arena, id)?;
                let found = self.spelled(table, arena, id)?;
                Ok(found)
            }
        }
    }

    /// Makes room for what is known of the terms up to a number.
    fn lengthen(&mut self, id: TermId) -> Result<(), AllocError>
        ensures inside { OnOk result (id < length self.new) }
        ensures normals { (terms : List meaning.Term) (regexes : List Regex) → id < length terms
            → AreNormals terms regexes self.old → AreNormals terms regexes self.new }
    {
        while self.known.len() <= id.number() {
            self.known.push(Known::Nothing)?;
        }
        Ok(())
    }

    /// What is known of a term.
    pub(crate) fn kept(&self, id: TermId) -> Known
        ensures { result ≡ get_or self.now id Nothing }
    {
        match self.known.get(id.number()) {
            Some(known) => *known,
            None => Known::Nothing,
        }
    }

    /// Keeps what is known of a term.
    fn keep(&mut self, id: TermId, known: Known)
        requires { id < length self.old }
        ensures { self.new ≡ set self.old id known }
    {
        self.known[id.number()] = known;
    }

    /// Makes known what a term is, and first what those are that it is made of, each once, with no recursion.
    pub(crate) fn reach(
        &mut self,
        table: &Table,
        arena: &mut Arena,
        id: TermId,
    ) -> Result<(), AllocError>
        requires known { id < length table.now }
        requires normals { AreNormals table.now arena.old self.old }
        ensures reached { OnOk result (is_known self.new id ≡ true) }
        ensures extends { Extends arena.old arena.new }
        ensures normals { AreNormals table.now arena.new self.new }
    {
        self.lengthen(id)?;
        let Known::Nothing = self.kept(id) else {
            return Ok(());
        };
        let mut waiting = Vec::new(self.allocator());
        waiting.push(Waiting { id, entered: false })?;
        while let Some(next) = waiting.pop() {
            self.settle(table, arena, next, &mut waiting)?;
        }
        Ok(())
    }

    /// Makes known what a term is whose arguments are known; one whose arguments were not put behind it yet waits for
    /// them first.
    fn settle(
        &mut self,
        table: &Table,
        arena: &mut Arena,
        next: Waiting,
        waiting: &mut Vec<Waiting>,
    ) -> Result<(), AllocError>
        requires normals { AreNormals table.now arena.old self.old }
        requires waiting { AreWaiting table.now self.old (waiting.old.items ++ next ∷ []) }
        ensures settles { OnOk result
            (Settles table.now self.old self.new (waiting.old.items ++ next ∷ []) waiting.new.items) }
        ensures extends { Extends arena.old arena.new }
        ensures normals { AreNormals table.now arena.new self.new }
    {
        let Known::Nothing = self.kept(next.id) else {
            return Ok(());
        };
        if next.entered {
            let known = self.learn(table, arena, next.id)?;
            self.keep(next.id, known);
            return Ok(());
        }
        table.terms_each_once();
        enter(waiting, next.id, arguments_of(table, next.id))
    }

    /// The number of the normal regex of a word, made where it was not asked for before.
    fn spelled(
        &mut self,
        table: &Table,
        arena: &mut Arena,
        id: TermId,
    ) -> Result<Option<RegexId>, AllocError>
        requires known { is_known self.old id ≡ true }
        requires normals { AreNormals table.now arena.old self.old }
        ensures number { IfOk result (λ found. IsNumbered arena.new (literal_of (term_at table.now id)) found) }
        ensures extends { Extends arena.old arena.new }
        ensures normals { AreNormals table.now arena.new self.new }
    {
        let Some(count) = self.kept(id).count() else {
            return Ok(None);
        };
        let Some(regex) = self.of_word(table, arena, id)? else {
            return Ok(None);
        };
        self.keep(id, Known::Spelled(regex, count));
        Ok(Some(regex))
    }

    /// The number of the normal regex of a word that is known, `None` where the term is none.
    fn of_word(
        &self,
        table: &Table,
        arena: &mut Arena,
        id: TermId,
    ) -> Result<Option<RegexId>, AllocError>
        requires known { is_known self.now id ≡ true }
        requires normals { AreNormals table.now arena.old self.now }
        ensures number { IfOk result (λ found. IsNumbered arena.new (literal_of (term_at table.now id)) found) }
        ensures extends { Extends arena.old arena.new }
    {
        if let Known::Spelled(regex, _) = self.kept(id) {
            return Ok(Some(regex));
        }
        let Some(letters) = self.word(table, id)? else {
            return Ok(None);
        };
        Ok(Some(arena.characters(&letters)?))
    }

    /// The regular expression of a word, `None` where the arguments are others.
    fn of_one_word(
        &self,
        table: &Table,
        arena: &mut Arena,
        arguments: &[TermId],
    ) -> Result<Option<RegexId>, AllocError>
        requires known { list_all (is_known self.now) arguments.now ≡ true }
        requires normals { AreNormals table.now arena.old self.now }
        ensures number { IfOk result
            (λ found. IsNumbered arena.new (apply str_to_re (terms_of (terms_at table.now arguments.now))) found) }
        ensures extends { Extends arena.old arena.new }
    {
        let [argument] = arguments else {
            return Ok(None);
        };
        self.of_word(table, arena, *argument)
    }

    /// The range between two words, `None` where the arguments are others.
    fn of_range(
        &self,
        table: &Table,
        arena: &mut Arena,
        arguments: &[TermId],
    ) -> Result<Option<RegexId>, AllocError>
        requires known { list_all (is_known self.now) arguments.now ≡ true }
        requires normals { AreNormals table.now arena.old self.now }
        ensures number { IfOk result
            (λ found. IsNumbered arena.new (apply re_range (terms_of (terms_at table.now arguments.now))) found) }
        ensures extends { Extends arena.old arena.new }
    {
        let [from, to] = arguments else {
            return Ok(None);
        };
        let Some(from) = self.word(table, *from)? else {
            return Ok(None);
        };
        let Some(to) = self.word(table, *to)? else {
            return Ok(None);
        };
        Ok(Some(between(self.allocator(), arena, &from, &to)?))
    }

    /// What a term is of which the arguments are known.
    fn learn(&mut self, table: &Table, arena: &mut Arena, id: TermId) -> Result<Known, AllocError>
        requires known { id < length table.now }
        requires parts { PartsPass table.now (is_known self.old) id }
        requires normals { AreNormals table.now arena.old self.old }
        ensures is { IfOk result (λ found. IsKnown arena.new (term_at table.now id) found) }
        ensures extends { Extends arena.old arena.new }
        ensures normals { AreNormals table.now arena.new self.new }
        ensures more { KnowsMore self.old self.new }
    {
        match table.term(id) {
            Term::Word(codes) => Ok(Known::Text(capped(codes.len()))),
            Term::Apply(symbol, arguments) => {
                self.applied(table, arena, *symbol, arguments.as_slice())
            }
            _ => Ok(Known::Other),
        }
    }

    /// What a symbol makes of arguments that are known.
    fn applied(
        &mut self,
        table: &Table,
        arena: &mut Arena,
        symbol: Symbol,
        ids: &[TermId],
    ) -> Result<Known, AllocError>
        requires known { list_all (is_known self.old) ids.now ≡ true }
        requires normals { AreNormals table.now arena.old self.old }
        ensures is { IfOk result
            (λ found. IsKnown arena.new (apply (symbol_in symbol) (terms_of (terms_at table.now ids.now))) found) }
        ensures extends { Extends arena.old arena.new }
        ensures normals { AreNormals table.now arena.new self.new }
        ensures more { KnowsMore self.old self.new }
    {
        match symbol {
            Symbol::StrConcat => Ok(self.joined_words(table, ids)),
            Symbol::StrToRe => Ok(Known::made(self.of_one_word(table, arena, ids)?)),
            Symbol::ReRange => Ok(Known::made(self.of_range(table, arena, ids)?)),
            Symbol::ReConcat => Ok(self.concatenated(table, ids)),
            Symbol::ReUnion
            | Symbol::ReInter
            | Symbol::ReDiff
            | Symbol::ReStar
            | Symbol::RePlus
            | Symbol::ReOpt
            | Symbol::ReComp
            | Symbol::ReNone
            | Symbol::ReAll
            | Symbol::ReAllChar => self.join(table, arena, symbol, ids),
            Symbol::RePower(_) => self.join(table, arena, symbol, ids),
            Symbol::ReLoop(..) => self.join(table, arena, symbol, ids),
            _ => Ok(Known::Other),
        }
    }

    /// What the concatenation of String terms is: a word where each of them is one.
    fn joined_words(&self, table: &Table, ids: &[TermId]) -> Known
        requires texts { AreTexts table.now self.now }
        requires known { list_all (is_known self.now) ids.now ≡ true }
        ensures { (rs : List Regex)
            → IsKnown rs (apply str_concat (terms_of (terms_at table.now ids.now))) result }
    {
        let mut left = ids.len();
        let mut all = 0;
        while left > 0 {
            left -= 1;
            let Some(count) = self.kept(ids[left]).count() else {
                return Known::Other;
            };
            all = sum(count, all);
        }
        Known::Text(all)
    }

    /// What a symbol makes of regexes, those of these terms.
    fn join(
        &mut self,
        table: &Table,
        arena: &mut Arena,
        symbol: Symbol,
        ids: &[TermId],
    ) -> Result<Known, AllocError>
        requires joins { joins symbol ≡ true }
        requires known { list_all (is_known self.old) ids.now ≡ true }
        requires normals { AreNormals table.now arena.old self.old }
        ensures is { IfOk result
            (λ found. IsKnown arena.new (apply (symbol_in symbol) (terms_of (terms_at table.now ids.now))) found) }
        ensures extends { Extends arena.old arena.new }
        ensures normals { AreNormals table.now arena.new self.new }
        ensures more { KnowsMore self.old self.new }
    {
        match self.regexes(table, arena, ids)? {
            Some(regexes) => Ok(Known::made(joined(self.allocator(), arena, symbol, &regexes)?)),
            None => Ok(Known::Other),
        }
    }

    /// The allocator of what is known.
    pub fn allocator(&self) -> Global {
        *self.known.allocator()
    }

    /// What the concatenation of terms is.
    fn concatenated(&self, table: &Table, ids: &[TermId]) -> Known
        requires told { AreTold table.now self.now }
        requires known { list_all (is_known self.now) ids.now ≡ true }
        ensures { (rs : List Regex)
            → IsKnown rs (apply re_concat (terms_of (terms_at table.now ids.now))) result }
    {
        if ids.is_empty() {
            return Known::Other;
        }
        for id in ids {
            if let Known::Nothing | Known::Other | Known::Text(_) | Known::Spelled(..) = self.kept(
                *id,
            ) {
                return Known::Other;
            }
        }
        Known::Concatenation
    }

    /// The numbers of the terms' normal regexes, `None` where one of them has none.
    fn regexes(
        &mut self,
        table: &Table,
        arena: &mut Arena,
        ids: &[TermId],
    ) -> Result<Option<Vec<RegexId>>, AllocError>
        requires known { list_all (is_known self.old) ids.now ≡ true }
        requires normals { AreNormals table.now arena.old self.old }
        ensures found { IfOk result (λ found. MatchOption found (list_all is_regex (terms_at table.now ids.now) ≡ false)
            (λ found. AreRegexesOf arena.new (terms_at table.now ids.now) found.items)) }
        ensures extends { Extends arena.old arena.new }
        ensures normals { AreNormals table.now arena.new self.new }
        ensures more { KnowsMore self.old self.new }
    {
        let mut found = Vec::new(self.allocator());
        for id in ids {
            match self.regex(table, arena, *id)? {
                Some(regex) => found.push(regex)?,
                None => return Ok(None),
            }
        }
        Ok(Some(found))
    }

    /// The number of the normal regex of a term that is known, made where it was not asked for before.
    fn regex(
        &mut self,
        table: &Table,
        arena: &mut Arena,
        id: TermId,
    ) -> Result<Option<RegexId>, AllocError>
        requires known { is_known self.old id ≡ true }
        requires normals { AreNormals table.now arena.old self.old }
        ensures number { IfOk result (λ found. IsNumbered arena.new (term_at table.now id) found) }
        ensures extends { Extends arena.old arena.new }
        ensures normals { AreNormals table.now arena.new self.new }
        ensures more { KnowsMore self.old self.new }
    {
        match self.kept(id) {
            Known::Nothing | Known::Other | Known::Text(_) | Known::Spelled(..) => Ok(None),
            Known::Made(regex) => Ok(Some(regex)),
            Known::Concatenation => {
                let regex = self.concatenation(table, arena, id)?;
                self.keep(id, Known::Made(regex));
                Ok(Some(regex))
            }
        }
    }

    /// The normal regex of a concatenation, from the last of its members to the first. Linear in the tree of its parts
    /// that are concatenations and not made.
    fn concatenation(
        &self,
        table: &Table,
        arena: &mut Arena,
        id: TermId,
    ) -> Result<RegexId, AllocError>
        requires known { is_known self.now id ≡ true }
        requires normals { AreNormals table.now arena.old self.now }
        requires kind { is_regex (term_at table.now id) ≡ true }
        ensures names { IfOk result (λ regex. Names arena.new regex (regex_of (term_at table.now id))) }
        ensures extends { Extends arena.old arena.new }
    {
        concatenation_groups();
        let mut whole = arena.eps()?;
        let mut left = Vec::from_slice(self.allocator(), &[id])?;
        while let Some(last) = left.pop() {
            match self.kept(last) {
                Known::Made(regex) => whole = arena.cat(regex, whole)?,
                _ => left.extend_from_slice(arguments_of(table, last))?,
            }
        }
        Ok(whole)
    }
}

/// The arguments of a term, none where it is no symbol with arguments.
pub(crate) fn arguments_of(table: &Table, id: TermId) -> &[TermId]
    requires { id < length table.now }
    ensures terms { terms_of (terms_at table.now result.now) ≡ arguments_in (term_at table.now id) }
    ensures below { All (λ i. i < id) result.now }
{
    match table.term(id) {
        Term::Apply(_, arguments) => arguments.as_slice(),
        _ => &[],
    }
}
