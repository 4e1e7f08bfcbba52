//! The theory.

ghost use Rattle.std.specs.Prelude.{◌≡◌, ◌+◌, ◌<◌, ◌≤◌, [], true, filter, length, if◌then◌else◌, IfOk, OnOk};
ghost use Rattle.std.specs.List.{list_all};
ghost use Rattle.sb_theory.specs.Words.{HaveRegexesBelow, IsStore, Lemma, Spent, current_level};
ghost use Rattle.sb_theory.specs.Memberships.{row_at, is_atom, is_joined};
ghost use Rattle.sb_theory.specs.Tables.{AreFormed};
ghost use Rattle.sb_theory.specs.Wishes.{ungranted};
ghost use Rattle.sb_theory.specs.Wanted.{IsTaught};
ghost use Rattle.sb_theory.specs.Fronts.{number_at};
ghost use Rattle.sb_theory.specs.Strings.{Holds, Stands, Agrees, Keeps, Looks, HasClash, IsAsked, IsTriedNext, IsSettled, AreSettled, IsFront, AreFew, IsDenied, Writes, IsLook};
ghost use Rattle.sb_theory.specs.Laws.{stands_longer, ungranted_longer, writes_none, writes_both, writes_learned, writes_gate};

mod hinting;
mod judging;
mod walking;

use crate::changed::Changed;
use crate::fit::{fits, take_literal};
use crate::joined::is_joined;
use crate::member::cut;
use crate::numbers::{number_of, put_number};
use crate::place::put_word;
use crate::row::{Row, front_of, literal_at, row_of};
use crate::wanted::WantedAtoms;
use indexmap::IndexSet;
use sb_atoms::Atoms;
use sb_clash::{core, denial, least_word, put_denial, tick};
use sb_clauses::Clauses;
use sb_graph::Explored;
use sb_lang::constructors::{mkand_keeps_language, mknot_keeps_language};
use sb_lang::order::order_tells_apart;
use sb_lit::{Budget, Clause, Lit};
use sb_proof::{Tape, TapeFault};
use sb_regex::RegexId;
use sb_search::{Checked, Theory};
use sb_sound::memberships::{empty_holds, empty_is_exact};
use sb_store::{Store, regexes_grow};
use sb_term::Serial;
use sb_trace::Trace;
use sb_trail::{Entry, Trail};
use sb_word::Word;
use std::alloc::{AllocError, Global};

/// The theory of memberships.
#[derive(Drop)]
pub struct Strings {
    alloc: Global,
    pub store: Store,
    pub trace: Trace,
    pub atoms: Atoms,
    /// Whether lines are put.
    pub proves: bool,
    /// The atoms that are to have values in the end.
    pub wanted: WantedAtoms,
    /// The atoms that are, and those of one constant of which steps spoke that the theory looked at.
    noted: WantedAtoms,
    /// The wanted memberships of several pieces, or of none, in the order in which they are wanted.
    joined: Vec<u64>,
    /// The literals for which values were looked for last.
    tried: Vec<Lit>,
    /// The regexes that were expanded where no lines are put.
    expanded: IndexSet<RegexId>,
    /// What was taken in of the trail, oldest first.
    taken: Vec<Entry>,
    /// By serial the literals of the constant's memberships among these whose atoms are noted, oldest first.
    members: Vec<Row>,
    /// By serial a word that makes these literals of the constant true, but for the constants in `changed`; the empty
    /// one where there is none.
    pub words: Vec<Option<Word>>,
    /// By serial how many first literals of the row the word is known to make true. It may be more than are left of a
    /// row that was longer.
    fitting: Vec<usize>,
    /// The constants of which some literal is not known to be true of the word.
    changed: Changed,
}

impl Theory for Strings {
    ghost wanted = { λ x. x.wanted };

    ghost passes = { λ x atom. is_atom x.atoms atom ≡ true };

    ghost teaches = { λ x clause. IsTaught x.store.arena x.atoms clause };

    ghost measure = { λ x kept entries. ungranted x entries };

    ghost stands = { λ x entries. Stands x entries };

    ghost agrees = { λ x entries. Agrees x entries };

    ghost puts = { λ x y before after. Writes x y before after };

    fn check<L: Tape>(
        &mut self,
        trail: &Trail,
        clauses: &Clauses,
        last: bool,
        tape: &mut L,
        budget: &mut Budget,
    ) -> Result<Checked, TapeFault> {
        order_tells_apart();
        let checked = self.look(trail, last, tape, budget)?;
        self.store.arena.normal_regexes_each_once();
        self.atoms.atoms_each_once();
        Ok(checked)
    }

    fn backtrack(&mut self, level: usize) {
        cut(
            &self.noted,
            &self.atoms,
            &mut self.taken,
            &mut self.members,
            level,
        );
    }

    fn wanted_at(&self, at: u64) -> Option<u64> {
        self.wanted.at(at)
    }

    fn phase(&self, _atom: u64) -> Option<bool> {
        None
    }

    ghost stands_longer = { stands_longer };

    ghost measure_longer = { λ x kept. ungranted_longer x };

    ghost puts_none = { writes_none };

    ghost puts_both = { writes_both };

    ghost puts_learned = { writes_learned };

    ghost puts_gate = { writes_gate };
}

impl Strings {
    /// The theory over this store and these tables, where nothing was taken in and all constants are empty. Linear in
    /// the wanted atoms. `AllocError` only for want of memory.
    pub fn new(
        alloc: Global,
        store: Store,
        trace: Trace,
        atoms: Atoms,
        proves: bool,
        wanted: WantedAtoms,
    ) -> Result<Strings, AllocError>
        requires store { IsStore store }
        requires regexes { HaveRegexesBelow (length store.arena) atoms }
        requires formed { AreFormed atoms }
        requires wanted { list_all (is_atom atoms) wanted ≡ true }
        ensures stands { IfOk result (λ strings. Stands strings []) }
        ensures store { IfOk result (λ strings. strings.store ≡ store) }
        ensures trace { IfOk result (λ strings. strings.trace ≡ trace) }
        ensures atoms { IfOk result (λ strings. strings.atoms ≡ atoms) }
        ensures proves { IfOk result (λ strings. strings.proves ≡ proves) }
        ensures wanted { IfOk result (λ strings. strings.wanted ≡ wanted) }
    {
        match lists_of(alloc, &atoms, &wanted) {
            Ok(lists) => Ok(Strings {
                alloc,
                store,
                trace,
                atoms,
                proves,
                wanted,
                noted: lists.noted,
                joined: lists.joined,
                tried: Vec::new(alloc),
                expanded: IndexSet::new(alloc),
                taken: Vec::new(alloc),
                members: Vec::new(alloc),
                words: Vec::new(alloc),
                fitting: Vec::new(alloc),
                changed: Changed::new(alloc),
            }),
            Err(error) => {
                drop(store);
                drop(trace);
                drop(atoms);
                drop(wanted);
                Err(error)
            }
        }
    }

    /// Takes the whole trail in, and then looks for a word of each constant whose word does not fit. A lemma where
    /// there is none; else what is to be said of concatenations.
    fn look<L: Tape>(
        &mut self,
        trail: &Trail,
        last: bool,
        tape: &mut L,
        budget: &mut Budget,
    ) -> Result<Checked, TapeFault>
        requires { Stands self.old trail.now.literals }
        ensures { IsLook self.old self.new trail.now.literals budget.old budget.new (L.Tape.told tape.old)
            (L.Tape.told tape.new) (L.Tape.faults tape.old) (L.Tape.faults tape.new) last result }
    {
        self.take_in(trail)?;
        let found = self.clash_on(trail)?;
        match found {
            None => self.look_on(trail, last, tape, budget),
            Some(serial) => self.clash(trail, serial, last, tape, budget),
        }
    }

    /// Looks for words of the constants whose rows are not known to fit. The first constant that has none, whose row is
    /// marked as dead in the graph where the trail has no decision and lines are put.
    fn clash_on(&mut self, trail: &Trail) -> Result<Option<Serial>, AllocError>
        requires { Holds self.old }
        ensures ok { IfOk result (AreSettled self.old self.new) }
        ensures keeps { Keeps self.old self.new }
    {
        let top = trail.current_level() == 0;
        self.first_clash(self.proves & top)
    }

    /// Takes the whole trail in, whatever the words.
    fn take_in(&mut self, trail: &Trail) -> Result<(), AllocError>
        requires { Stands self.old trail.now.literals }
        ensures ok { OnOk result
            (Stands self.new trail.now.literals × (self.new.taken.items ≡ trail.now.literals)) }
        ensures noted { self.new.noted ≡ self.old.noted }
        ensures keeps { Keeps self.old self.new }
    {
        while self.taken.len() < trail.len() {
            self.take_next(trail)?;
        }
        Ok(())
    }

    /// Takes the next literal of the trail in.
    fn take_next(&mut self, trail: &Trail) -> Result<(), AllocError>
        requires stands { Stands self.old trail.now.literals }
        requires more { length self.old.taken.items < length trail.now.literals }
        ensures ok { OnOk result (Stands self.new trail.now.literals
            × (length self.new.taken.items ≡ length self.old.taken.items + 1)) }
        ensures noted { self.new.noted ≡ self.old.noted }
        ensures keeps { Keeps self.old self.new }
    {
        let entry = trail.literals()[self.taken.len()];
        take_literal(
            self.alloc,
            &mut self.store,
            &self.noted,
            &self.atoms,
            &self.words,
            &mut self.members,
            &mut self.fitting,
            &mut self.changed,
            entry.literal(),
        )?;
        self.taken.push(entry)?;
        Ok(())
    }

    /// Looks for words of the constants whose rows are not known to fit, oldest first. The first constant that has
    /// none: it and those behind it are looked at again. Where `marks` is true, its row is marked as dead in the graph.
    fn first_clash(&mut self, marks: bool) -> Result<Option<Serial>, AllocError>
        requires { Holds self.old }
        ensures ok { IfOk result (AreSettled self.old self.new) }
        ensures keeps { Keeps self.old self.new }
    {
        let mut place = 0;
        while place < self.changed.len() {
            let serial = self.changed.at(place);
            if !self.settles(serial, marks)? {
                return Ok(Some(serial));
            }
            place += 1;
        }
        self.changed.clear();
        Ok(None)
    }

    /// Whether a constant has a word that makes its whole row true, which it has from then on. The word that it has is
    /// tried first.
    fn settles(&mut self, serial: Serial, marks: bool) -> Result<bool, AllocError>
        requires { Holds self.old }
        ensures ok { IfOk result (IsSettled self.old self.new serial.0) }
        ensures looks { Looks self.old self.new }
    {
        let long = row_of(&self.members, serial).len();
        while number_of(&self.fitting, serial) < long {
            if !self.fits_next(serial, long)? {
                return self.ask(serial, long, marks);
            }
        }
        Ok(true)
    }

    /// Whether the word of a constant makes the next literal of its row true, of which it is known to make those in
    /// front true: fewer than so many. It is then known of this one too.
    fn fits_next(&mut self, serial: Serial, long: usize) -> Result<bool, AllocError>
        requires holds { Holds self.old }
        requires more { number_at self.old.fitting.items serial.0 < long }
        requires within { long ≤ length (row_at self.old.members.items serial.0) }
        ensures ok { IfOk result (IsTriedNext self.old self.new serial.0) }
        ensures looks { Looks self.old self.new }
        ensures words { self.new.words ≡ self.old.words }
    {
        let place = number_of(&self.fitting, serial);
        let literal = literal_at(&self.members, serial, place);
        let matches = fits(&mut self.store, &self.atoms, &self.words, literal)?;
        if !matches {
            return Ok(false);
        }
        put_number(&mut self.fitting, serial, place + 1)?;
        Ok(true)
    }

    /// Whether a word makes so many first literals of a constant's row true, more than its word is known to. It is the
    /// constant's from then on.
    fn ask(&mut self, serial: Serial, long: usize, marks: bool) -> Result<bool, AllocError>
        requires holds { Holds self.old }
        requires more { number_at self.old.fitting.items serial.0 < long }
        requires within { long ≤ length (row_at self.old.members.items serial.0) }
        ensures ok { IfOk result (IsAsked long self.old self.new serial.0) }
        ensures looks { Looks self.old self.new }
    {
        regexes_grow();
        mkand_keeps_language();
        mknot_keeps_language();
        let explored = least_word(
            self.alloc,
            &mut self.store.arena,
            &mut self.store.graph,
            &self.atoms,
            serial,
            front_of(&self.members, serial, long),
            marks,
        )?;
        match explored {
            Explored::Alive(word) => {
                put_word(&mut self.words, serial, word)?;
                put_number(&mut self.fitting, serial, long)?;
                Ok(true)
            }
            Explored::Dead => Ok(false),
        }
    }

    /// The lemma that a few literals of a constant, which no word makes true together, are not all true.
    fn clash<L: Tape>(
        &mut self,
        trail: &Trail,
        serial: Serial,
        last: bool,
        tape: &mut L,
        budget: &mut Budget,
    ) -> Result<Checked, TapeFault>
        requires stands { Stands self.old trail.now.literals }
        requires whole { self.old.taken.items ≡ trail.now.literals }
        requires clash { HasClash self.old serial.0 }
        ensures { IsLook self.old self.new trail.now.literals budget.old budget.new (L.Tape.told tape.old)
            (L.Tape.told tape.new) (L.Tape.faults tape.old) (L.Tape.faults tape.new) last result }
    {
        mkand_keeps_language();
        let _trail = trail.literals();
        let few = self.clashing(trail, serial)?;
        let clause = denial(self.alloc, &few)?;
        self.answer(trail, serial, last, clause, tape, budget)
    }

    /// Literals of a constant's row that no word makes true together: all of them where no decision is on the trail,
    /// and else a few of the shortest front of them that has no word.
    fn clashing(&mut self, trail: &Trail, serial: Serial) -> Result<Vec<Lit>, AllocError>
        requires holds { Holds self.old }
        requires clash { HasClash self.old serial.0 }
        ensures few { IfOk result (λ few. AreFew self.new serial.0 few.items) }
        ensures whole { IfOk result (λ few. current_level trail.now.literals ≡ 0
            → few.items ≡ row_at self.new.members.items serial.0) }
        ensures looks { Looks self.old self.new }
    {
        regexes_grow();
        if trail.current_level() == 0 {
            return Vec::from_slice(self.alloc, row_of(&self.members, serial));
        }
        let long = self.clashing_front(serial)?;
        core(
            self.alloc,
            &mut self.store.arena,
            &mut self.store.graph,
            &self.atoms,
            serial,
            front_of(&self.members, serial, long),
        )
    }

    /// The length of the shortest front of a constant's row that no word makes true. The words of shorter ones that are
    /// found on the way are the constant's.
    fn clashing_front(&mut self, serial: Serial) -> Result<usize, AllocError>
        requires holds { Holds self.old }
        requires clash { HasClash self.old serial.0 }
        ensures front { IfOk result (IsFront self.new serial.0) }
        ensures looks { Looks self.old self.new }
    {
        let whole = row_of(&self.members, serial).len();
        let mut long = number_of(&self.fitting, serial);
        while long < whole {
            long += 1;
            if !self.goes_on(serial, long)? {
                return Ok(long);
            }
        }
        Ok(whole)
    }

    /// Whether a word makes so many first literals of a constant's row true, of which its word is known to make all but
    /// the last one true. It is the constant's from then on.
    fn goes_on(&mut self, serial: Serial, long: usize) -> Result<bool, AllocError>
        requires holds { Holds self.old }
        requires next { number_at self.old.fitting.items serial.0 + 1 ≡ long }
        requires within { long ≤ length (row_at self.old.members.items serial.0) }
        ensures ok { IfOk result (IsAsked long self.old self.new serial.0) }
        ensures looks { Looks self.old self.new }
    {
        if self.fits_next(serial, long)? {
            return Ok(true);
        }
        self.ask(serial, long, false)
    }

    /// The clause as a lemma, with its lines where such are put, and a step of the budget.
    fn answer<L: Tape>(
        &mut self,
        trail: &Trail,
        serial: Serial,
        last: bool,
        clause: Clause,
        tape: &mut L,
        budget: &mut Budget,
    ) -> Result<Checked, TapeFault>
        requires stands { Stands self.old trail.now.literals }
        requires denied { IsDenied self.old trail.now.literals serial.0 clause }
        ensures { IsLook self.old self.new trail.now.literals budget.old budget.new (L.Tape.told tape.old)
            (L.Tape.told tape.new) (L.Tape.faults tape.old) (L.Tape.faults tape.new) last result }
    {
        regexes_grow();
        empty_holds();
        empty_is_exact();
        if !self.proves {
            let done = tick(budget);
            return Ok(answered(done, clause));
        }
        self.trace.marks_have_numbers();
        let done = put_denial(
            self.alloc,
            &mut self.trace,
            &mut self.store.arena,
            &mut self.store.graph,
            &self.atoms,
            serial,
            &clause,
            tape,
            budget,
        )?;
        Ok(answered(done, clause))
    }
}

/// What a theory lists at its beginning.
#[derive(Drop)]
struct Lists {
    /// The wanted atoms.
    noted: WantedAtoms,
    /// The wanted memberships of several pieces, or of none.
    joined: Vec<u64>,
}

/// The wanted atoms, and which of them are memberships of several pieces, or of none.
fn lists_of(alloc: Global, atoms: &Atoms, wanted: &WantedAtoms) -> Result<Lists, AllocError>
    ensures noted { IfOk result (λ all. all.noted ≡ wanted.now) }
    ensures joined { IfOk result (λ all. all.joined.items ≡ filter (is_joined atoms.now) wanted.now) }
{
    let joined = joined_of(alloc, atoms, wanted.atoms())?;
    let noted = wanted.copied()?;
    Ok(Lists { noted, joined })
}

/// The memberships of several pieces, or of none, among atoms.
fn joined_of(alloc: Global, atoms: &Atoms, wanted: &[u64]) -> Result<Vec<u64>, AllocError>
    ensures { IfOk result (λ found. found.items ≡ filter (is_joined atoms.now) wanted.now) }
{
    let mut found = Vec::new(alloc);
    for atom in wanted {
        if !is_joined(atoms, *atom) {
            continue;
        }
        found.push(*atom)?;
    }
    Ok(found)
}

/// The lemma where its step was left.
fn answered(done: bool, clause: Clause) -> Checked
    ensures { result ≡ (if done then Lemma clause else Spent) }
{
    if done {
        Checked::Lemma(clause)
    } else {
        Checked::Spent
    }
}
