//! What stands in a proof of the live assertions.

ghost use Rattle.std.specs.Prelude.{◌≡◌, ◌≢◌, ◌<◌, ◌∷◌, ◌++◌, ℕ, [], take, true, List, Some, None, length, option_map, OnOk, IfOk, IfSome};
ghost use Rattle.sb_lit.specs.Kept.{kept_at};
ghost use Rattle.sb_clauses.specs.Propagation.{are_reserved, has_room_for};
ghost use Rattle.sb_lang.specs.Regex.{Regex};
ghost use Rattle.sb_deriv.specs.Faithful.{Memo};
ghost use Rattle.sb_term.specs.Numbered.{term_at};
ghost use Rattle.sb_store.specs.Stores.{Grows, IsStoreOf};
ghost use Rattle.sb_meaning.specs.Terms.{boolean};
ghost use Rattle.sb_rulebook.specs.AtomRules.{is_declared};
ghost use Rattle.sb_rulebook.specs.Atoms.{bool_atom};
ghost use Rattle.sb_rulebook.specs.Kept.{AllKept, Asked, nothing_kept, dropped_above, all_dropped};
ghost use Rattle.sb_atoms.specs.Numbered.{atoms_in, HaveRegexesBelow, Extends, IsWith};
ghost use Rattle.sb_atoms.specs.Translated.{brought_translation, AreDefined, HasNoLiteral};
ghost use Rattle.sb_trace.specs.Putting.{CountsTapeFault};
ghost use Rattle.sb_trace.specs.Tracking.{OnlyNumbers};
ghost use Rattle.sb_split.specs.Defining.{AreDue, Called};
ghost use Rattle.sb_refute.specs.Backing.{backing_of, IsLowestEmpty, HasGates, Backs, EvidencesUncounted, IsStatement, KeepsAsserted, AreUpTo, asserted_at, empty_at, left_above, refuted_up_to, left_all};
ghost use Rattle.sb_refute.specs.Lines.{Becomes, IsAlone, IsClaimed, IsStanding, Leads, LeadsClaimed, LeadsFrom, SpeaksAlone, placed, IsEmptyOf, lower_of};
ghost use Rattle.sb_proof.specs.Lines.{atom_in};
ghost use Rattle.sb_refute.specs.Standing.{Stand};
ghost use Rattle.sb_refute.specs.Assuming.{Says, literals_at};

use sb_atoms::Atoms;
use sb_clauses::{Clauses, Engine};
use sb_lit::{Clause, ClauseId, Lit};
use sb_proof::{Atom, Line, Tape, TapeFault};
use sb_regex::{Arena, RegexId};
use sb_search::Choices;
use sb_sound::clauses::assertion_lines_are_exact;
use sb_split::{define_atoms, put_line};
use sb_store::{Store, regexes_grow};
use sb_term::{Serial, Table, TermId};
use sb_trace::Trace;
use sb_trail::CompactLit;
use std::alloc::{AllocError, Global};
use std::marker::Model;

/// The clause of an assertion: its number, its one literal, and the assertion's level.
#[derive(Clone, Copy)]
pub struct Asserted {
    pub clause: ClauseId,
    pub literal: Lit,
    pub level: u64,
}

/// The empty clause, and its level.
#[derive(Clone, Copy)]
pub struct EmptyClause {
    pub clause: ClauseId,
    pub level: u64,
}

/// What of an arena's regexes, of the atoms of assertions and of their clauses stands in a proof.
#[derive(Drop)]
pub struct Evidence {
    pub(crate) alloc: Global,
    /// No literals stand on the trail.
    pub(crate) parts: Parts,
}

/// An evidence taken apart, for a search that goes on with its tables.
#[derive(Drop)]
pub struct Parts {
    pub trace: Trace,
    /// An atom has the same number in the proof.
    pub atoms: Atoms,
    /// The clauses that stand in the proof, each under the number that it has there.
    pub engine: Engine,
    /// By the places of live assertions.
    pub asserted: Vec<Option<Asserted>>,
    pub refuted: Option<EmptyClause>,
    /// Of so many atoms, the first ones, the clauses of their gates stand in the proof.
    pub gates: usize,
    /// What a search goes by where it decides.
    pub choices: Choices,
}

impl Model for Evidence {
    ghost use Rattle.sb_refute.specs.Backing.{Backing, backing_of};
    ghost use Rattle.std.specs.Prelude.{◌≡◌, []};
    ghost use Rattle.sb_refute.specs.Standing.{Stand};

    ghost Value = { Backing };

    ghost view = { λ evidence. backing_of evidence.parts };

    ghost invariant = { λ evidence. Stand (backing_of evidence.parts) × (evidence.parts.engine.trail.literals ≡ []) };
}

impl Evidence {
    /// Nothing stands in the proof. Takes no memory.
    pub fn new(alloc: Global) -> Evidence
        ensures backs { (rs : List Regex) (memo : Memo) (format : ℕ) → Backs rs memo result (nothing_kept format) }
        ensures nothing { result.asserted ≡ [] }
    {
        let parts = Parts {
            trace: Trace::new(alloc),
            atoms: Atoms::new(alloc),
            engine: Engine::new(alloc),
            asserted: Vec::new(alloc),
            refuted: None,
            gates: 0,
            choices: Choices::new(alloc),
        };
        Evidence { alloc, parts }
    }

    /// Its parts. Takes no memory.
    pub fn into_parts(self) -> Parts
        ensures backing { backing_of result ≡ self }
        ensures stands { Stand (backing_of result) }
        ensures trail { result.engine.trail.literals ≡ [] }
    {
        let Evidence { alloc: _, parts } = self;
        parts
    }

    /// The evidence of these parts, where what is known of all that stands in a proof holds of the first clauses, so
    /// many as `before`, and others may follow these. The empty clause is then that of the lowest level. Takes the
    /// literals off the trail. Takes no memory; linear in these literals and in the clauses behind the first ones.
    pub fn from_parts(parts: Parts, before: usize) -> Evidence
        requires known { has_room_for (length parts.atoms) parts.engine.kept ≡ true }
        requires stands { Stand (record (backing_of parts) { kept = take before parts.engine.kept }) }
        ensures backing { result ≡ record (backing_of parts) { refuted = result.refuted } }
        ensures lowest { IsLowestEmpty parts.engine.kept result.refuted }
    {
        let mut parts = parts;
        parts.engine.clear();
        parts.refuted = lowest_empty(parts.engine.clauses(), before, parts.refuted);
        Evidence {
            alloc: *parts.asserted.allocator(),
            parts,
        }
    }

    /// The atoms that stand in the proof.
    pub fn atoms(&self) -> &Atoms
        ensures { result.now ≡ self.now.atoms }
    {
        &self.parts.atoms
    }

    /// The clause of the live assertion at a place, if it stands in the proof. Constant time.
    pub fn asserted(&self, place: usize) -> Option<Asserted>
        ensures { result ≡ asserted_at self.now.asserted place }
    {
        match self.parts.asserted.get(place) {
            Some(asserted) => *asserted,
            None => None,
        }
    }

    /// The empty clause, if it stands in the proof: it refutes each check until its level is left. Constant time.
    pub fn refuted(&self) -> Option<EmptyClause>
        ensures known { result ≡ self.now.refuted }
        ensures kept { IfSome result (λ empty. kept_at self.now.kept empty.clause.0 ≡ Some (empty_at empty)) }
    {
        self.parts.refuted
    }

    /// The literals of the clause of a number, none where there is none. Linear in them.
    pub fn literals(&self, id: ClauseId) -> Result<Vec<Lit>, AllocError>
        ensures { IfOk result (λ literals. literals.items ≡ literals_at self.now.kept id.0) }
    {
        literals_of(self.alloc, self.parts.engine.clauses(), id)
    }

    /// Forgets what a reader drops where the levels above this one are left, and so many assertions stay: the clauses
    /// above the level, and of which assertions there are clauses at the other places. Takes no memory, and time linear
    /// in the places that are left, and in the clauses that go with a logarithm of those above level 0.
    pub fn leave_above(&mut self, level: u64, count: usize)
        ensures left_above { self.new ≡ left_above level count self.old }
        ensures backs { (rs : List Regex) (memo : Memo) (kept : AllKept) → Backs rs memo self.old kept
            → AreUpTo level count self.old.asserted → Backs rs memo self.new (dropped_above level kept) }
    {
        let empty = self.empty_up_to(level);
        self.parts.engine.leave_above(level);
        self.parts.asserted.truncate(count);
        self.parts.refuted = empty;
    }

    /// The empty clause, unless it is above the level.
    fn empty_up_to(&self, level: u64) -> Option<EmptyClause>
        ensures { result ≡ refuted_up_to level self.now.refuted }
    {
        let empty = self.parts.refuted?;
        if empty.level > level {
            None
        } else {
            Some(empty)
        }
    }

    /// Forgets each clause, as a reader does where all assertions go. Regexes and atoms stay, and so do the numbers of
    /// the clauses. Takes no memory; linear in the numbers of clauses that were given since this was done before, and
    /// in the places.
    pub fn leave_all(&mut self)
        ensures left_all { self.new ≡ left_all self.old }
        ensures backs { (rs : List Regex) (memo : Memo) (kept : AllKept) → Backs rs memo self.old kept
            → Backs rs memo self.new (all_dropped kept) }
    {
        self.parts.engine.leave_all();
        self.parts.asserted.clear();
        self.parts.refuted = None;
        self.parts.gates = 0;
    }

    /// The clause of the live assertion at a place, whose term and level these are. The lines that it lacks are put:
    /// those of the atoms that are new, each behind those of its regex, those of the gates of all atoms that lack them,
    /// and its own, unless it stands in the proof. None where the term has no literal; its atoms may be put then, with
    /// their gates.
    ///
    /// Linear in the term's tree and in the lines that are put, but that the literals of a connective are sorted, that
    /// each two of what is distinct are compared, and that a regular expression is measured, and its normal regex made,
    /// where they were not yet; a place behind those that have clauses costs time in how far it is behind. After an
    /// error the tape may have a line of which nothing is known here, so nothing more may be put.
    pub fn statement<L: Tape>(
        &mut self,
        store: &mut Store,
        table: &Table,
        place: usize,
        term: TermId,
        level: u64,
        tape: &mut L,
    ) -> Result<Option<Asserted>, TapeFault>
        requires number { term < length table.now }
        requires store { IsStoreOf table.now store.old }
        requires regexes { HaveRegexesBelow (length store.old.arena) self.old.atoms }
        ensures puts { OnOk result ((asked : Asked) (memo : Memo) (before : AllKept)
            → Backs store.old.arena memo self.old before → IsStatement asked place (term_at table.now term) level
            → EvidencesUncounted asked before store.new.arena memo self.new (L.Tape.told tape.old)
            (L.Tape.told tape.new)) }
        ensures asserted { IfOk result (λ found. found ≡ asserted_at self.new.asserted place) }
        ensures literal { IfOk result (λ found. option_map (λ a. a.literal) found
            ≡ brought_translation (atoms_in store.new.arena self.new.atoms) (term_at table.now term)) }
        ensures level { IfOk result (λ found. IfSome found (λ a. a.level ≡ level)) }
        ensures none { IfOk result (λ found. found ≡ None → HasNoLiteral (term_at table.now term)) }
        ensures gates { OnOk result (HasGates (length self.new.atoms) self.new.atoms self.new.kept) }
        ensures stays { OnOk result (IfSome (asserted_at self.old.asserted place) (λ a. (a.level ≡ level)
            × (Some a.literal ≡ brought_translation (atoms_in store.new.arena self.new.atoms) (term_at table.now term)))
            → KeepsAsserted self.old self.new) }
        ensures others { OnOk result ((other : ℕ) → other ≢ place
            → asserted_at self.new.asserted other ≡ asserted_at self.old.asserted other) }
        ensures only { OnlyNumbers self.old.trace self.new.trace }
        ensures extends { Extends self.old.atoms self.new.atoms }
        ensures defined { AreDefined self.old.atoms self.new.atoms (term_at table.now term) }
        ensures regexes { HaveRegexesBelow (length store.new.arena) self.new.atoms }
        ensures store { Grows table.now store.old store.new }
        ensures graph { store.new.graph ≡ store.old.graph }
        ensures counts { CountsTapeFault result (L.Tape.faults tape.old) (L.Tape.faults tape.new) }
    {
        regexes_grow();
        let parts = &mut self.parts;
        let known = parts.atoms.len();
        let found = parts.atoms.translate(
            &mut store.measures,
            &mut store.normals,
            table,
            &mut store.arena,
            term,
        )?;
        self.lines(&store.arena, known, place, found, level, tape)
    }

    /// The literal of an assumption: that the Bool constant is true, or that it is false. Where the constant has no
    /// atom the line of one is put, and in any case those of the gates of all atoms that lack them. Constant time, but
    /// for these gates. After an error nothing more may be put.
    pub fn assume<L: Tape>(
        &mut self,
        arena: &Arena,
        serial: Serial,
        positive: bool,
        tape: &mut L,
    ) -> Result<Lit, TapeFault>
        requires regexes { HaveRegexesBelow (length arena.now) self.old.atoms }
        ensures puts { OnOk result ((asked : Asked) (memo : Memo) (before : AllKept)
            → Backs arena.now memo self.old before → is_declared asked.sorts boolean serial.0 ≡ true
            → EvidencesUncounted asked before arena.now memo self.new (L.Tape.told tape.old) (L.Tape.told tape.new)) }
        ensures literal { IfOk result (Says self.new.atoms (serial.0, positive)) }
        ensures asserted { OnOk result (self.new.asserted ≡ self.old.asserted) }
        ensures gates { OnOk result (HasGates (length self.new.atoms) self.new.atoms self.new.kept) }
        ensures grows { OnOk result (IsWith self.old.atoms self.new.atoms (bool_atom serial.0)) }
        ensures extends { OnOk result (Extends self.old.atoms self.new.atoms) }
        ensures regexes { OnOk result (HaveRegexesBelow (length arena.now) self.new.atoms) }
        ensures counts { CountsTapeFault result (L.Tape.faults tape.old) (L.Tape.faults tape.new) }
    {
        let atom = self.alone(arena, Atom::Bool(serial.0), tape)?;
        Ok(Lit { atom, positive })
    }

    /// The number of an atom that speaks of no literals. Where it is new its line is put, behind those of its regex,
    /// and in any case those of the gates of all atoms that lack them.
    pub(crate) fn alone<L: Tape>(
        &mut self,
        arena: &Arena,
        atom: Atom<RegexId>,
        tape: &mut L,
    ) -> Result<u64, TapeFault>
        requires alone { SpeaksAlone (length arena.now) (atom_in atom) }
        requires regexes { HaveRegexesBelow (length arena.now) self.old.atoms }
        ensures is { IfOk result (IsAlone arena.now (atom_in atom) self.old self.new (L.Tape.told tape.old)
            (L.Tape.told tape.new)) }
        ensures counts { CountsTapeFault result (L.Tape.faults tape.old) (L.Tape.faults tape.new) }
    {
        let parts = &mut self.parts;
        let known = parts.atoms.len();
        let id = parts.atoms.add(atom)?;
        self.define(arena, known, tape)?;
        self.put_gates(tape)?;
        self.stands();
        Ok(id.number() as u64)
    }

    /// The clause of the assertion at a place, whose literal and level these are. Puts the lines of the atoms from this
    /// number on, those of the gates that lack them, and its own where it lacks that.
    fn lines<L: Tape>(
        &mut self,
        arena: &Arena,
        known: usize,
        place: usize,
        literal: Option<Lit>,
        level: u64,
        tape: &mut L,
    ) -> Result<Option<Asserted>, TapeFault>
        requires regexes { HaveRegexesBelow (length arena.now) self.old.atoms }
        requires known { IfSome literal (λ l. l.atom < length self.old.atoms) }
        ensures { Called result
            (λ found. IsClaimed (LeadsFrom arena.now known place literal level self.old self.new
            (L.Tape.told tape.old) (L.Tape.told tape.new)) place literal level self.old self.new found
            × (self.new.gates ≡ length self.new.atoms))
            (OnlyNumbers self.old.trace self.new.trace × (self.new.atoms ≡ self.old.atoms)) (L.Tape.faults tape.old)
            (L.Tape.faults tape.new) }
    {
        self.define(arena, known, tape)?;
        self.put_gates(tape)?;
        self.stated(place, literal, level, tape)
    }

    /// The clause of the assertion at a place, whose literal and level these are, and its line where it lacks that. An
    /// assertion without a literal has none.
    fn stated<L: Tape>(
        &mut self,
        place: usize,
        literal: Option<Lit>,
        level: u64,
        tape: &mut L,
    ) -> Result<Option<Asserted>, TapeFault>
        requires { IfSome literal (λ l. l.atom < length self.old.atoms) }
        ensures { Called result
            (IsClaimed (LeadsClaimed place literal level self.old self.new (L.Tape.told tape.old)
            (L.Tape.told tape.new)) place literal level self.old self.new)
            (self.new ≡ record self.old { kept = self.new.kept; asserted = self.new.asserted }) (L.Tape.faults tape.old)
            (L.Tape.faults tape.new) }
    {
        self.stands();
        let Some(literal) = literal else {
            self.keep(place, None)?;
            return Ok(None);
        };
        if let Some(asserted) = self.standing(place, literal, level) {
            return Ok(Some(asserted));
        }
        Ok(Some(self.claim(place, literal, level, tape)?))
    }

    /// The clause of the assertion at a place, if it has this literal and this level.
    fn standing(&self, place: usize, literal: Lit, level: u64) -> Option<Asserted>
        ensures { IsStanding (asserted_at self.now.asserted place) literal level result }
    {
        let asserted = self.asserted(place)?;
        if asserted.literal == literal && asserted.level == level {
            Some(asserted)
        } else {
            None
        }
    }

    /// Puts the lines of the atoms from this number on, with those of their regexes.
    fn define<L: Tape>(
        &mut self,
        arena: &Arena,
        known: usize,
        tape: &mut L,
    ) -> Result<(), TapeFault>
        requires regexes { HaveRegexesBelow (length arena.now) self.old.atoms }
        ensures { Called result
            (λ _. (asked : Asked) (memo : Memo) → AreDue asked known self.old.atoms
            → Leads asked arena.now memo (record self.old { atoms = take known self.old.atoms }) self.new
            (L.Tape.told tape.old) (L.Tape.told tape.new))
            (OnlyNumbers self.old.trace self.new.trace × (self.new ≡ record self.old { trace = self.new.trace }))
            (L.Tape.faults tape.old) (L.Tape.faults tape.new) }
    {
        let parts = &mut self.parts;
        define_atoms(
            self.alloc,
            &mut parts.trace,
            arena,
            &parts.atoms,
            known,
            tape,
        )
    }

    /// Puts the clause of the assertion at a place, whose literal and level these are.
    fn claim<L: Tape>(
        &mut self,
        place: usize,
        literal: Lit,
        level: u64,
        tape: &mut L,
    ) -> Result<Asserted, TapeFault>
        requires known { literal.atom < length self.old.atoms }
        requires lacks { IsStanding (asserted_at self.old.asserted place) literal level None }
        ensures { Called result
            (λ a. IsClaimed (LeadsClaimed place (Some literal) level self.old self.new (L.Tape.told tape.old)
            (L.Tape.told tape.new)) place (Some literal) level self.old self.new (Some a))
            (self.new ≡ record self.old { kept = self.new.kept; asserted = self.new.asserted }) (L.Tape.faults tape.old)
            (L.Tape.faults tape.new) }
    {
        self.stands();
        assertion_lines_are_exact();
        put_line(Line::Assertion(place as u64, literal), tape)?;
        let clause = self.add(&[literal], level)?;
        let asserted = Asserted {
            clause,
            literal,
            level,
        };
        self.keep(place, Some(asserted))?;
        Ok(asserted)
    }

    /// Keeps the clause of the assertion at a place, or that it has none.
    fn keep(&mut self, place: usize, asserted: Option<Asserted>) -> Result<(), AllocError>
        requires { IfSome asserted (λ a. a.literal.atom < length self.old.atoms) }
        ensures { Becomes result self.old self.new
            (record self.old { asserted = placed self.old.asserted place asserted }) }
    {
        put_at(&mut self.parts.asserted, place, asserted)
    }

    /// Keeps a clause, whose line is put in the same step, and answers its number. `AllocError` also for an atom of
    /// 2 ^ 30, and where 2 ^ 32 - 1 numbers were given.
    pub(crate) fn add(&mut self, literals: &[Lit], level: u64) -> Result<ClauseId, AllocError>
        requires known { are_reserved (length self.old.atoms) literals.now ≡ true }
        requires some { literals.now ≢ [] }
        ensures number { IfOk result (λ id. id.0 ≡ length self.old.kept) }
        ensures adds { Becomes result self.old self.new (record self.old {
          kept = self.old.kept ++ Some (record { literals = literals.now; level = level }) ∷ [];
        }) }
    {
        let clause = Clause::from_literals(Vec::from_slice(self.alloc, literals)?);
        self.parts.engine.add(&clause, level)
    }

    /// Says what is known of all that stands in the proof.
    pub fn stands(&self)
        ensures { Stand self.now }
    {
        let _parts = &self.parts;
    }
}

/// The literals of the clause of a number, none where there is none.
fn literals_of(alloc: Global, clauses: &Clauses, id: ClauseId) -> Result<Vec<Lit>, AllocError>
    ensures { IfOk result (λ literals. literals.items ≡ literals_at clauses.now id.0) }
{
    match clauses.literals(id) {
        Some(literals) => enlarged(alloc, literals),
        None => Ok(Vec::new(alloc)),
    }
}

/// The literals, each as a larger number.
fn enlarged(alloc: Global, literals: &[CompactLit]) -> Result<Vec<Lit>, AllocError>
    ensures { IfOk result (λ all. all.items ≡ literals.now) }
{
    let mut all = Vec::with_capacity(alloc, literals.len())?;
    for literal in literals {
        all.push(literal.literal())?;
    }
    Ok(all)
}

/// The empty clause of the lowest level, of this one, which is that of the clauses before a number, and of the others.
fn lowest_empty(clauses: &Clauses, before: usize, found: Option<EmptyClause>) -> Option<EmptyClause>
    requires { IsLowestEmpty (take before clauses.now) found }
    ensures { IsLowestEmpty clauses.now result }
{
    let mut lowest = found;
    let mut number = before;
    while number < clauses.len() {
        lowest = lower(lowest, empty_clause(clauses, number));
        number += 1;
    }
    lowest
}

/// The clause of a number, if it has no literals.
fn empty_clause(clauses: &Clauses, number: usize) -> Option<EmptyClause>
    ensures { IsEmptyOf number (kept_at clauses.now number) result }
{
    let clause = ClauseId(number as u64);
    if !clauses.literals(clause)?.is_empty() {
        return None;
    }
    let level = clauses.level(clause)?;
    Some(EmptyClause { clause, level })
}

/// The one of the lower level.
fn lower(one: Option<EmptyClause>, other: Option<EmptyClause>) -> Option<EmptyClause>
    ensures { result ≡ lower_of one other }
{
    let Some(first) = one else {
        return other;
    };
    let Some(second) = other else {
        return one;
    };
    if second.level < first.level {
        other
    } else {
        one
    }
}

/// Puts what stands at a place, behind none where others lack before it.
fn put_at(
    all: &mut Vec<Option<Asserted>>,
    place: usize,
    asserted: Option<Asserted>,
) -> Result<(), AllocError>
    ensures { Becomes result all.old.items all.new.items (placed all.old.items place asserted) }
{
    if place < all.len() {
        all[place] = asserted;
        return Ok(());
    }
    let lacking = place - all.len();
    all.reserve(lacking.checked_add(1).ok_or(AllocError)?)?;
    all.resize(place, None)?;
    all.push(asserted)?;
    Ok(())
}
