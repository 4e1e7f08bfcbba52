//! Lines that define atoms.

ghost use Rattle.std.specs.Prelude.{◌≡◌, ◌&&◌, ℕ, List, true, not, nat_lt, map, None, length, slice_get, option_map, IfOk};
ghost use Rattle.std.specs.List.{list_all};
ghost use Rattle.sb_word.specs.Words.{is_character, are_characters};
ghost use Rattle.sb_rulebook.specs.Atoms.{are_pieces, is_conjunction, is_well_formed, map_atom};
ghost use Rattle.sb_rulebook.specs.Brought.{is_brought_atom};
ghost use Rattle.sb_meaning.specs.Sorts.{is_same_sort};
ghost use Rattle.sb_rulebook.specs.AtomRules.{defined, is_declared, is_declared_piece, is_declared_variable};
ghost use Rattle.sb_rulebook.specs.Kept.{AllKept, Asked};
ghost use Rattle.sb_rulebook.specs.Lines.{atom_line};
ghost use Rattle.sb_atoms.specs.Numbered.{HasRegexBelow, IsNumberIn, over};
ghost use Rattle.sb_term.specs.Symbols.{sort_in};
ghost use Rattle.sb_proof.specs.Lines.{atom_in, piece_in, variable_in};
ghost use Rattle.sb_rules.specs.Kept.{IsWhole, KeepsTerms, kept_in};
ghost use Rattle.sb_rules.specs.Judged.{Judges, Meets};
ghost use Rattle.sb_rules.specs.Defining.{IsBroughtAs, have_parts, numbered};
ghost use Rattle.sb_rules.specs.Stepping.{is_full, may_stand, is_word_piece};

use crate::fault::{Fault, Refusal};
use crate::kept::Kept;
use sb_class::LAST_CHARACTER;
use sb_hints::are_ascending;
use sb_lang::order::order_tells_apart;
use sb_lit::Lit;
use sb_proof::{Atom, Piece, Variable};
use sb_regex::RegexId;
use sb_term::Sort;
use std::alloc::AllocError;

impl Kept {
    /// Judges the line that defines the next atom, where constants of these sorts are declared, and keeps it where it
    /// follows.
    pub(crate) fn define_atom(&mut self, sorts: &[Sort], atom: &Atom<u64>) -> Result<(), Fault>
        requires { IsWhole self.old }
        ensures judges { (asked : Asked) → asked.sorts ≡ map sort_in sorts.now
            → Judges result asked self.old self.new (atom_line (atom_in atom.now)) }
        ensures whole { IsWhole self.new }
        ensures terms { KeepsTerms self.old self.new }
    {
        if !self.has_parts(sorts, atom) {
            return Err(Fault::Refused(Refusal::UnknownId));
        }
        match self.brought(atom)? {
            Some(atom) => self.add_atom(atom),
            None => Err(Fault::Refused(Refusal::RuleBroken)),
        }
    }

    /// Keeps an atom, unless it is kept or not well formed.
    fn add_atom(&mut self, atom: Atom<RegexId>) -> Result<(), Fault>
        requires whole { IsWhole self.old }
        requires regex { HasRegexBelow (length self.old.arena) (atom_in atom) }
        requires brought { is_brought_atom (atom_in atom) ≡ true }
        ensures defines { (others : AllKept) → Meets result
            (defined (kept_in self.old others) (over self.old.arena (atom_in atom))) self.old self.new others }
        ensures whole { IsWhole self.new }
        ensures terms { KeepsTerms self.old self.new }
    {
        order_tells_apart();
        match self.atoms.find(&atom) {
            Some(_) => Err(Fault::Refused(Refusal::Repeated)),
            None => self.add_new(atom),
        }
    }

    /// Keeps an atom that is not kept, unless it is not well formed.
    fn add_new(&mut self, atom: Atom<RegexId>) -> Result<(), Fault>
        requires whole { IsWhole self.old }
        requires regex { HasRegexBelow (length self.old.arena) (atom_in atom) }
        requires brought { is_brought_atom (atom_in atom) ≡ true }
        requires is_new { IsNumberIn self.old.atoms (atom_in atom) None }
        ensures defines { (others : AllKept) → Meets result
            (defined (kept_in self.old others) (over self.old.arena (atom_in atom))) self.old self.new others }
        ensures whole { IsWhole self.new }
        ensures terms { KeepsTerms self.old self.new }
    {
        order_tells_apart();
        self.arena.normal_regexes_each_once();
        if !is_well_formed(&atom) {
            return Err(Fault::Refused(Refusal::NotNormal));
        }
        self.atoms.add(atom)?;
        Ok(())
    }

    /// The atom by the number of its regex in the arena; none where atoms of its form are not brought.
    fn brought(&self, atom: &Atom<u64>) -> Result<Option<Atom<RegexId>>, AllocError>
        ensures { IfOk result (λ found. IsBroughtAs self.now.regexes.order (atom_in atom.now) found) }
    {
        if !atom.is_brought() {
            return Ok(None);
        }
        let found = self.numbered(atom)?;
        Ok(found)
    }

    /// The atom by the number of its regex in the arena; none where that is not defined.
    fn numbered(&self, atom: &Atom<u64>) -> Result<Option<Atom<RegexId>>, AllocError>
        ensures { IfOk result
            (λ found. option_map atom_in found ≡ numbered self.now.regexes.order (atom_in atom.now)) }
    {
        match atom.regex() {
            Some(number) => self.with_number(atom, number),
            None => {
                let same = atom.with_regex(self.alloc, RegexId::default())?;
                Ok(Some(same))
            }
        }
    }

    /// The atom with the number in the arena of this regex; none where that is not defined.
    fn with_number(
        &self,
        atom: &Atom<u64>,
        number: u64,
    ) -> Result<Option<Atom<RegexId>>, AllocError>
        ensures { IfOk result (λ found. option_map atom_in found
            ≡ option_map (λ n. map_atom (λ _. n) (atom_in atom.now)) (slice_get self.now.regexes.order number)) }
    {
        let Some(regex) = self.regexes.regex(number) else {
            return Ok(None);
        };
        let found = atom.with_regex(self.alloc, regex)?;
        Ok(Some(found))
    }

    /// Whether the constants, the regex and the atoms are there that an atom names.
    fn has_parts(&self, sorts: &[Sort], atom: &Atom<u64>) -> bool
        ensures { result
            ≡ have_parts (map sort_in sorts.now) self.now.regexes.order (length self.now.atoms) (atom_in atom.now) }
    {
        match atom {
            Atom::Bool(serial) => is_declared(sorts, Sort::Bool, *serial),
            Atom::In(pieces, number) => {
                self.regexes.regex(*number).is_some() && are_declared(sorts, pieces)
            }
            Atom::Le(variable, _) => is_declared_variable(sorts, *variable),
            Atom::Sum(_, summands) => are_declared_summands(sorts, summands),
            Atom::And(literals) => self.are_known(literals),
            Atom::Iff(first, second) => self.is_known(*first) && self.is_known(*second),
        }
    }

    /// Whether a literal's atom is kept.
    pub(crate) fn is_known(&self, literal: Lit) -> bool
        ensures { result ≡ nat_lt literal.atom (length self.now.atoms) }
    {
        (literal.atom as usize) < self.atoms.len()
    }

    /// Whether the atoms of all literals are kept.
    pub(crate) fn are_known(&self, literals: &[Lit]) -> bool
        ensures { result ≡ list_all (λ l. nat_lt l.atom (length self.now.atoms)) literals.now }
    {
        literals.iter().all(|literal| self.is_known(*literal))
    }
}

/// Whether an atom that is brought is well formed. Linear in its pieces and their words.
fn is_well_formed(atom: &Atom<RegexId>) -> bool
    requires { is_brought_atom (atom_in atom.now) ≡ true }
    ensures { result ≡ is_well_formed (atom_in atom.now) }
{
    match atom {
        Atom::Bool(_) => true,
        Atom::In(pieces, _) => are_pieces(pieces.as_slice()),
        Atom::And(literals) => is_conjunction(literals),
        Atom::Iff(one, other) => !one.cmp(other).is_gt(),
        Atom::Le(..) | Atom::Sum(..) => unreachable!(),
    }
}

/// Whether no word is empty, no two are adjacent, and all are of characters.
fn are_pieces(pieces: &[Piece]) -> bool
    ensures { result ≡ are_pieces (map piece_in pieces.now) }
{
    let mut behind = false;
    for piece in pieces {
        if !may_stand(behind, piece) {
            return false;
        }
        behind = is_word(piece);
    }
    true
}

/// Whether a piece may stand here, where a word stands before it or not.
fn may_stand(behind: bool, piece: &Piece) -> bool
    ensures { result ≡ may_stand behind (piece_in piece.now) }
{
    match piece {
        Piece::Constant(_) => true,
        Piece::Word(characters) => may_begin(behind, characters.as_slice()),
    }
}

/// Whether a word may stand here, where a word stands before it or not.
fn may_begin(behind: bool, characters: &[u64]) -> bool
    ensures { result ≡ (not behind && is_full characters.now) }
{
    if behind { false } else { is_full(characters) }
}

fn is_word(piece: &Piece) -> bool
    ensures { result ≡ is_word_piece (piece_in piece.now) }
{
    match piece {
        Piece::Constant(_) => false,
        Piece::Word(_) => true,
    }
}

/// Whether there are numbers, and all are characters.
fn is_full(characters: &[u64]) -> bool
    ensures { result ≡ is_full characters.now }
{
    if characters.is_empty() {
        return false;
    }
    are_characters(characters)
}

fn are_characters(characters: &[u64]) -> bool
    ensures { result ≡ are_characters characters.now }
{
    characters.iter().all(|character| is_character(*character))
}

fn is_character(number: u64) -> bool
    ensures { result ≡ is_character number }
{
    number <= LAST_CHARACTER as u64
}

/// Whether the literals ascend, and are not a single one.
fn is_conjunction(literals: &[Lit]) -> bool
    ensures { result ≡ is_conjunction literals.now }
{
    literals.len() != 1 && are_ascending(literals)
}

/// Whether the constants in a concatenation are declared.
fn are_declared(sorts: &[Sort], pieces: &[Piece]) -> bool
    ensures { result ≡ list_all (λ p. is_declared_piece (map sort_in sorts.now) (piece_in p)) pieces.now }
{
    pieces.iter().all(|piece| is_declared_piece(sorts, piece))
}

/// Whether the constants of a sum are declared.
fn are_declared_summands(sorts: &[Sort], summands: &[(i128, Variable)]) -> bool
    ensures { result
        ≡ list_all (λ s. is_declared_variable (map sort_in sorts.now) (variable_in s.1)) summands.now }
{
    summands
        .iter()
        .all(|summand| is_declared_variable(sorts, summand.1))
}

/// Whether a piece is a word, or a String constant that is declared.
fn is_declared_piece(sorts: &[Sort], piece: &Piece) -> bool
    ensures { result ≡ is_declared_piece (map sort_in sorts.now) (piece_in piece.now) }
{
    match piece {
        Piece::Constant(serial) => is_declared(sorts, Sort::String, *serial),
        Piece::Word(_) => true,
    }
}

/// Whether a bound speaks of a constant that is declared: of an Int constant, or of the length of a String constant.
fn is_declared_variable(sorts: &[Sort], variable: Variable) -> bool
    ensures { result ≡ is_declared_variable (map sort_in sorts.now) (variable_in variable) }
{
    match variable {
        Variable::Int(serial) => is_declared(sorts, Sort::Int, serial),
        Variable::Length(serial) => is_declared(sorts, Sort::String, serial),
    }
}

/// Whether a constant of the sort has the serial, where the constants of these sorts are declared.
fn is_declared(sorts: &[Sort], sort: Sort, serial: u64) -> bool
    ensures { result ≡ is_declared (map sort_in sorts.now) (sort_in sort) serial }
{
    match sorts.get(serial as usize) {
        Some(other) => is_same_sort(sort, *other),
        None => false,
    }
}

fn is_same_sort(sort: Sort, other: Sort) -> bool
    ensures { result ≡ is_same_sort (sort_in sort) (sort_in other) }
{
    sort == other
}
