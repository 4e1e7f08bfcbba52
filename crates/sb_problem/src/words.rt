//! Words, and String terms as pieces.

ghost use Rattle.std.specs.Prelude.{◌≡◌, ◌<◌, ◌++◌, ◌∷◌, ℕ, true, false, List, [], length, get_or, option_map, IfOk, OnOk, IfSome, MatchOption};
ghost use Rattle.sb_meaning.specs.Terms as meaning;
ghost use Rattle.sb_regex.specs.Numbered.{Extends};
ghost use Rattle.sb_script.specs.Brought.{is_text};
ghost use Rattle.sb_script.specs.Pieces.{Piece, single_pieces};
ghost use Rattle.sb_script.specs.Sizes.{size_of};
ghost use Rattle.sb_term.specs.Numbered.{term_at, terms_at};
ghost use Rattle.sb_word.specs.Words.{IsWord};
ghost use Rattle.sb_problem.specs.declared.normals.Known.TheVariants.{Nothing};
ghost use Rattle.sb_problem.specs.Known.{AreNormals, AreTexts, is_known, is_silent};
ghost use Rattle.sb_problem.specs.Normals.{is_text_constant};
ghost use Rattle.sb_problem.specs.Parts.{parts_in, are_written};
ghost use Rattle.sb_problem.specs.Taking.{backwards, Fewer, GoesOn, PutsParts, Spells, Taking};
ghost use Rattle.sb_problem.specs.Words.{letters_of, up_to_limit, AreLetters};

use crate::normals::{Known, Normals, WORD_LIMIT, arguments_of};
use crate::pieces::{Part, constant_of, is_joined, put_constant, put_run};
use sb_regex::Arena;
use sb_term::{Table, Term, TermId};
use std::alloc::AllocError;
use std::collections::BTreeSet;

/// Puts numbers behind those that are left, the other way round, so that the first one is taken first.
fn put_backwards(left: &mut Vec<TermId>, ids: &[TermId]) -> Result<(), AllocError>
    ensures { OnOk result (left.new.items ≡ left.old.items ++ backwards ids.now) }
{
    let mut place = ids.len();
    while place > 0 {
        place -= 1;
        left.push(ids[place])?;
    }
    Ok(())
}

/// Puts the arguments of a term behind those that are left, the other way round.
fn put_parts(table: &Table, next: TermId, left: &mut Vec<TermId>) -> Result<(), AllocError>
    requires { next < length table.now }
    ensures { OnOk result (PutsParts table.now next left.old.items left.new.items) }
{
    put_backwards(left, arguments_of(table, next))
}

/// Takes what comes next in a String term, where it is no word and no constant: the parts of a concatenation. False where
/// it is none.
fn take_joined(table: &Table, next: TermId, left: &mut Vec<TermId>) -> Result<bool, AllocError>
    requires number { next < length table.now }
    requires other { is_text (term_at table.now next) ≡ false }
    requires constant { is_text_constant (term_at table.now next) ≡ false }
    ensures goes { IfOk result (λ goes. (whole : meaning.Term) (parts : List Piece) (run met : List ℕ)
        → Taking whole parts run met (terms_at table.now left.old.items ++ term_at table.now next ∷ [])
        → GoesOn goes whole parts run met (terms_at table.now left.new.items)) }
    ensures fewer { OnOk result (Fewer table.now next left.old.items left.new.items) }
{
    if !is_joined(table, next) {
        return Ok(false);
    }
    put_parts(table, next, left)?;
    Ok(true)
}

/// Takes what comes next in a String term, where it is no word: a constant, or the parts of a concatenation. False where
/// it is neither, or the constant was met.
fn take_other(
    table: &Table,
    next: TermId,
    parts: &mut Vec<Part>,
    run: &mut Vec<u32>,
    met: &mut BTreeSet<u64>,
    left: &mut Vec<TermId>,
) -> Result<bool, AllocError>
    requires number { next < length table.now }
    requires other { is_text (term_at table.now next) ≡ false }
    ensures goes { IfOk result (λ goes. (whole : meaning.Term)
        → Taking whole (parts_in parts.old.items) run.old.items met.old.keys
        (terms_at table.now left.old.items ++ term_at table.now next ∷ [])
        → GoesOn goes whole (parts_in parts.new.items) run.new.items met.new.keys (terms_at table.now left.new.items)) }
    ensures fewer { OnOk result (Fewer table.now next left.old.items left.new.items) }
{
    match constant_of(table, next) {
        Some(serial) => {
            let goes = put_constant(serial, parts, run, met)?;
            Ok(goes)
        }
        None => {
            let goes = take_joined(table, next, left)?;
            Ok(goes)
        }
    }
}

impl Normals {
    /// Whether a term is known to be a word without letters.
    fn is_silent(&self, id: TermId) -> bool
        ensures { result ≡ is_silent (get_or self.now id Nothing) }
    {
        match self.kept(id) {
            Known::Text(count) => count == 0,
            Known::Spelled(_, count) => count == 0,
            Known::Nothing | Known::Other | Known::Concatenation | Known::Made(_) => false,
        }
    }

    /// Puts the letters of a literal behind others, or the parts of a concatenation behind those that are left. A word
    /// that is known to have no letters is passed over.
    fn spell(
        &self,
        table: &Table,
        next: TermId,
        letters: &mut Vec<u32>,
        left: &mut Vec<TermId>,
    ) -> Result<(), AllocError>
        requires number { next < length table.now }
        requires texts { AreTexts table.now self.now }
        requires text { is_text (term_at table.now next) ≡ true }
        ensures { OnOk result
            (Spells table.now next letters.old.items letters.new.items left.old.items left.new.items) }
    {
        if self.is_silent(next) {
            return Ok(());
        }
        if let Term::Word(codes) = table.term(next) {
            letters.extend_from_slice(codes)?;
            return Ok(());
        }
        put_parts(table, next, left)?;
        Ok(())
    }

    /// The letters of a word, with no recursion. Linear in the tree of its parts that have letters, and their arguments.
    fn letters(&self, table: &Table, id: TermId) -> Result<Vec<u32>, AllocError>
        requires number { id < length table.now }
        requires texts { AreTexts table.now self.now }
        requires text { is_text (term_at table.now id) ≡ true }
        ensures is { IfOk result (λ letters. letters.items ≡ letters_of (term_at table.now id)) }
        ensures written { IfOk result (λ letters. IsWord letters.items) }
    {
        let mut letters = Vec::new(self.allocator());
        let mut left = Vec::from_slice(self.allocator(), &[id])?;
        while let Some(next) = left.pop() {
            self.spell(table, next, &mut letters, &mut left)?;
        }
        Ok(letters)
    }

    /// The letters of a term that is known, `None` where it is no word.
    pub(crate) fn word(&self, table: &Table, id: TermId) -> Result<Option<Vec<u32>>, AllocError>
        requires known { is_known self.now id ≡ true }
        requires number { id < length table.now }
        requires texts { AreTexts table.now self.now }
        ensures { IfOk result (λ found. MatchOption found (is_text (term_at table.now id) ≡ false)
            (λ letters. AreLetters (term_at table.now id) letters.items)) }
    {
        if self.kept(id).count().is_none() {
            return Ok(None);
        }
        let letters = self.letters(table, id)?;
        Ok(Some(letters))
    }

    /// Takes a word that comes next in a String term. False where it is past the limit.
    fn take_word(
        &self,
        table: &Table,
        next: TermId,
        count: u32,
        run: &mut Vec<u32>,
    ) -> Result<bool, AllocError>
        requires number { next < length table.now }
        requires texts { AreTexts table.now self.now }
        requires text { is_text (term_at table.now next) ≡ true }
        requires counted { count ≡ up_to_limit (size_of (term_at table.now next)) }
        ensures { IfOk result (λ goes. (whole : meaning.Term) (parts : List Piece) (met : List ℕ)
            (left : List meaning.Term) → Taking whole parts run.old.items met (left ++ term_at table.now next ∷ [])
            → GoesOn goes whole parts run.new.items met left) }
    {
        if count > WORD_LIMIT {
            return Ok(false);
        }
        let letters = self.letters(table, next)?;
        run.extend_from_slice(&letters)?;
        Ok(true)
    }

    /// Takes what comes next in a String term. False where the term has no pieces in which each constant stands once.
    fn take(
        &self,
        table: &Table,
        next: TermId,
        parts: &mut Vec<Part>,
        run: &mut Vec<u32>,
        met: &mut BTreeSet<u64>,
        left: &mut Vec<TermId>,
    ) -> Result<bool, AllocError>
        requires number { next < length table.now }
        requires known { is_known self.now next ≡ true }
        requires texts { AreTexts table.now self.now }
        ensures goes { IfOk result (λ goes. (whole : meaning.Term)
            → Taking whole (parts_in parts.old.items) run.old.items met.old.keys
            (terms_at table.now left.old.items ++ term_at table.now next ∷ [])
            → GoesOn goes whole (parts_in parts.new.items) run.new.items met.new.keys
            (terms_at table.now left.new.items)) }
        ensures fewer { OnOk result (Fewer table.now next left.old.items left.new.items) }
    {
        match self.kept(next).count() {
            Some(count) => {
                let goes = self.take_word(table, next, count, run)?;
                Ok(goes)
            }
            None => {
                let goes = take_other(table, next, parts, run, met, left)?;
                Ok(goes)
            }
        }
    }

    /// The pieces of a String term, where each constant stands once in it; `None` exactly where it has none: it is no
    /// String term, a constant stands twice, or a word that is a part of it is past the limit on sizes.
    ///
    /// What the term is made of is gone over with no recursion, up to the first constant that stands twice. Linear in
    /// that, in the letters of the pieces, and in the tree of the parts of its words that have letters; times a logarithm
    /// where it is of constants. Terms that were not asked for become known first, at the cost of [`Normals::normal`].
    /// `AllocError` only for want of memory.
    pub fn single_pieces(
        &mut self,
        table: &Table,
        arena: &mut Arena,
        id: TermId,
    ) -> Result<Option<Vec<Part>>, AllocError>
        requires known { id < length table.now }
        requires normals { AreNormals table.now arena.old self.old }
        ensures ok { IfOk result
            (λ found. option_map (λ parts. parts_in parts.items) found ≡ single_pieces (term_at table.now id)) }
        ensures written { IfOk result (λ found. IfSome found (λ parts. are_written (parts_in parts.items) ≡ true)) }
        ensures extends { Extends arena.old arena.new }
        ensures normals { AreNormals table.now arena.new self.new }
    {
        let mut parts = Vec::new(self.allocator());
        let mut run = Vec::new(self.allocator());
        let mut met = BTreeSet::new(self.allocator());
        let mut left = Vec::from_slice(self.allocator(), &[id])?;
        while let Some(next) = left.pop() {
            self.reach(table, arena, next)?;
            let goes = self.take(table, next, &mut parts, &mut run, &mut met, &mut left)?;
            if !goes {
                return Ok(None);
            }
        }
        put_run(&mut parts, &mut run)?;
        Ok(Some(parts))
    }
}
