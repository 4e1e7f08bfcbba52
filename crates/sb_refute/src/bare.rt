//! Memberships without constants, and the clauses that say whether they are true.

ghost use Rattle.std.specs.Prelude.{◌≡◌, ◌≢◌, ◌<◌, ◌≤◌, ◌++◌, ◌∷◌, [], true, length, map, IfOk, OnOk};
ghost use Rattle.std.specs.List.{list_all};
ghost use Rattle.std.specs.Option.{option_copied};
ghost use Rattle.sb_word.specs.Words.{are_characters};
ghost use Rattle.sb_script.specs.Steps.{line as ended};
ghost use Rattle.sb_lit.specs.Clauses.{are_ascending, negation};
ghost use Rattle.sb_clauses.specs.Propagation.{are_reserved};
ghost use Rattle.sb_rulebook.specs.Atoms.{are_pieces, in_atom, is_well_formed};
ghost use Rattle.sb_rulebook.specs.LineLaws.{is_small_literal};
ghost use Rattle.sb_rulebook.specs.Lines.{step, rule_line, text_of};
ghost use Rattle.sb_proof.specs.Lines.{atom_in, piece_in};
ghost use Rattle.sb_proof.specs.Tapes.{with_bytes};
ghost use Rattle.sb_atoms.specs.Numbered.{HaveRegexesBelow};
ghost use Rattle.sb_trace.specs.Putting.{CountsTapeFault};
ghost use Rattle.sb_split.specs.Defining.{Called};
ghost use Rattle.sb_refute.specs.Settling.{IsBare, IsBareAtom, Steps, word_in};
ghost use Rattle.sb_refute.specs.Lines.{IsAlone, IsCover, IsLettersOf, at_bottom};

use crate::evidence::Evidence;
use sb_atoms::AtomId;
use sb_lit::{Budget, Lit};
use sb_proof::{Atom, Line, Piece, Rule, Tape, TapeFault};
use sb_regex::{Arena, RegexId};
use sb_split::{copied_literals, put_line};
use smallvec::SmallVec;
use std::alloc::{AllocError, Global};

/// A membership without constants: its word, which may be empty, and its regex.
#[derive(Drop)]
pub struct Bare {
    pub word: Vec<u32>,
    pub regex: RegexId,
}

impl Evidence {
    /// The membership without constants that the atom of a number is, if it is one. Linear in its word.
    pub fn bare(&self, atom: u64) -> Result<Option<Bare>, AllocError>
        requires { atom < length self.now.atoms }
        ensures { IfOk result (IsBare self.now.atoms atom) }
    {
        let id = AtomId::of(Lit {
            atom,
            positive: true,
        });
        bare_of(self.alloc, self.parts.atoms.describe(id))
    }

    /// The number of the atom that the empty word is in a regex, in which no piece stands. Where it is new its line is
    /// put, behind those of the regex, and in any case those of the gates of all atoms that lack them. After an error
    /// nothing more may be put.
    pub fn ends<L: Tape>(
        &mut self,
        arena: &Arena,
        regex: RegexId,
        tape: &mut L,
    ) -> Result<u64, TapeFault>
        requires known { regex < length arena.now }
        requires regexes { HaveRegexesBelow (length arena.now) self.old.atoms }
        ensures ends { IfOk result (IsAlone arena.now (in_atom [] regex) self.old self.new (L.Tape.told tape.old)
            (L.Tape.told tape.new)) }
        ensures counts { CountsTapeFault result (L.Tape.faults tape.old) (L.Tape.faults tape.new) }
    {
        let pieces = SmallVec::new(self.alloc);
        self.alone(arena, Atom::In(pieces, regex), tape)
    }

    /// Keeps a clause of memberships at level 0, and puts its line by rule step where `proves`, unless a kept clause
    /// has only literals of this one. A step of the budget is spent for it; false where none is left, and then nothing
    /// is kept. Linear in the clauses that [`sb_clauses::Clauses::false_where`] looks at. After an error nothing more
    /// may be put.
    pub fn step<L: Tape>(
        &mut self,
        literals: &[Lit],
        proves: bool,
        tape: &mut L,
        budget: &mut Budget,
    ) -> Result<bool, TapeFault>
        requires known { are_reserved (length self.old.atoms) literals.now ≡ true }
        requires ascends { are_ascending literals.now ≡ true }
        requires some { literals.now ≢ [] }
        ensures steps { IfOk result (Steps literals.now proves budget.old budget.new self.old self.new
            (L.Tape.told tape.old) (L.Tape.told tape.new)) }
        ensures counts { CountsTapeFault result (L.Tape.faults tape.old) (L.Tape.faults tape.new) }
    {
        let covered = self.covers(literals)?;
        if covered {
            return Ok(true);
        }
        if budget.tick().is_err() {
            return Ok(false);
        }
        self.put_step(literals, proves, tape)?;
        Ok(true)
    }

    /// Whether a kept clause has only literals of this one.
    fn covers(&self, literals: &[Lit]) -> Result<bool, AllocError>
        ensures { IfOk result (IsCover self.now.kept literals.now) }
    {
        let denied = denied(self.alloc, literals)?;
        let found = self.parts.engine.clauses().false_where(denied.as_slice())?;
        if let Some(_id) = found {
            return Ok(true);
        }
        Ok(false)
    }

    /// Keeps a clause at level 0, and puts its line by rule step where `proves`.
    fn put_step<L: Tape>(
        &mut self,
        literals: &[Lit],
        proves: bool,
        tape: &mut L,
    ) -> Result<(), TapeFault>
        requires known { are_reserved (length self.old.atoms) literals.now ≡ true }
        requires some { literals.now ≢ [] }
        ensures { Called result
            (λ _. (self.new ≡ record self.old { kept = self.old.kept ++ at_bottom literals.now ∷ [] })
            × (proves ≡ true → (list_all is_small_literal literals.now ≡ true) × (L.Tape.told tape.new
            ≡ with_bytes (ended (text_of (rule_line step literals.now))) (L.Tape.told tape.old))))
            (Unit {0}) (L.Tape.faults tape.old) (L.Tape.faults tape.new) }
    {
        self.add(literals, 0)?;
        if !proves {
            return Ok(());
        }
        let all = copied_literals(self.alloc, literals)?;
        put_line(Line::Rule(Rule::Step, all), tape)
    }
}

/// The membership without constants that an atom is, if it is one.
fn bare_of(alloc: Global, atom: &Atom<RegexId>) -> Result<Option<Bare>, AllocError>
    requires { is_well_formed (atom_in atom.now) ≡ true }
    ensures { IfOk result (IsBareAtom (atom_in atom.now)) }
{
    match atom {
        Atom::In(pieces, regex) => member_of(alloc, pieces.as_slice(), *regex),
        Atom::Bool(_) | Atom::Le(..) | Atom::Sum(..) | Atom::And(_) | Atom::Iff(..) => Ok(None),
    }
}

/// The membership of pieces in a regex, if none of them is a constant.
fn member_of(alloc: Global, pieces: &[Piece], regex: RegexId) -> Result<Option<Bare>, AllocError>
    requires { are_pieces (map piece_in pieces.now) ≡ true }
    ensures { IfOk result (IsBareAtom (in_atom (map piece_in pieces.now) regex)) }
{
    let found = word_of(alloc, pieces)?;
    match found {
        Some(word) => Ok(Some(Bare { word, regex })),
        None => Ok(None),
    }
}

/// The letters of all pieces, if none of them is a constant.
fn word_of(alloc: Global, pieces: &[Piece]) -> Result<Option<Vec<u32>>, AllocError>
    requires { are_pieces (map piece_in pieces.now) ≡ true }
    ensures { IfOk result (IsLettersOf (map piece_in pieces.now)) }
{
    let mut word = Vec::new(alloc);
    for piece in pieces {
        let Some(characters) = characters_of(piece) else {
            return Ok(None);
        };
        add_characters(&mut word, characters)?;
    }
    Ok(Some(word))
}

/// The characters of a piece, if it is a word.
fn characters_of(piece: &Piece) -> Option<&[u64]>
    ensures { option_copied result ≡ word_in (piece_in piece.now) }
{
    match piece {
        Piece::Constant(_) => None,
        Piece::Word(characters) => Some(characters.as_slice()),
    }
}

/// Adds characters to a word.
fn add_characters(word: &mut Vec<u32>, characters: &[u64]) -> Result<(), AllocError>
    requires { are_characters characters.now ≡ true }
    ensures { OnOk result (word.new.items ≡ word.old.items ++ characters.now) }
{
    for character in characters {
        word.push(code_of(*character))?;
    }
    Ok(())
}

/// The character, as a smaller number.
fn code_of(character: u64) -> u32
    requires { character ≤ 0x2ffff }
    ensures { result ≡ character }
{
    character as u32
}

/// The negations of literals, in order.
fn denied(alloc: Global, literals: &[Lit]) -> Result<Vec<Lit>, AllocError>
    ensures { IfOk result (λ negations. negations.items ≡ map negation literals.now) }
{
    let mut negations = Vec::with_capacity(alloc, literals.len())?;
    for literal in literals {
        negations.push(literal.negated())?;
    }
    Ok(negations)
}
