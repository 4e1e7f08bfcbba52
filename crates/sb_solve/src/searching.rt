//! The search over the clauses of a proof.

ghost use Rattle.std.specs.Prelude.{◌≡◌, [], true, take, length, IfOk, OnOk};
ghost use Rattle.sb_clauses.specs.Propagation.{has_room_for};
ghost use Rattle.sb_solve.specs.Words.{AreDistinct, CountsTapeFault, HaveRegexesBelow, IsStore, Stand, Stands, are_atoms, are_declared, is_atom, list_all, state_of};
ghost use Rattle.sb_solve.specs.Searched.{AreAmong, AreTaken, HasModel, IsDone, Runs, backing_in};
ghost use Rattle.sb_solve.specs.Wanted.{AreWanted};

use crate::check::Solved;
use crate::gather::wanted;
use crate::model::{Values, model};
use sb_atoms::Atoms;
use sb_clauses::Engine;
use sb_lit::{Budget, Lit};
use sb_proof::{Tape, TapeFault};
use sb_refute::{Asserted, EmptyClause, Evidence, Parts};
use sb_search::{Choices, Found, search};
use sb_stack::Stack;
use sb_store::Store;
use sb_theory::{Strings, WantedAtoms};
use std::alloc::{AllocError, Global};
use std::mem;

/// The theory and the clauses that a search goes over, and what it leaves as it is.
#[derive(Drop)]
pub(crate) struct Tables {
    pub strings: Strings,
    pub engine: Engine,
    pub asserted: Vec<Option<Asserted>>,
    pub refuted: Option<EmptyClause>,
    pub gates: usize,
    pub choices: Choices,
    /// So many clauses were kept before it.
    pub before: usize,
}

/// Searches for values of the atoms that these literals speak of, over the clauses of the evidence, where those of the
/// assumptions are true. Where `proves` is false no lines are put for lemmas and regexes. After an error the evidence
/// and the store may be empty.
pub(crate) fn search_for<L: Tape>(
    alloc: Global,
    evidence: &mut Evidence,
    store: &mut Store,
    stack: &Stack,
    literals: &[Lit],
    assumed: &[Lit],
    proves: bool,
    tape: &mut L,
    budget: &mut Budget,
) -> Result<Solved, TapeFault>
    requires store { IsStore store.old }
    requires regexes { HaveRegexesBelow (length store.old.arena) evidence.old.atoms }
    requires declared { are_declared (state_of stack.now).sorts evidence.old.atoms ≡ true }
    requires literals { are_atoms evidence.old.atoms literals.now ≡ true }
    requires assumed { are_atoms evidence.old.atoms assumed.now ≡ true }
    ensures done { IfOk result (IsDone stack.now literals.now assumed.now proves store.old evidence.old budget.old
        (L.Tape.told tape.old) store.new evidence.new budget.new (L.Tape.told tape.new)) }
    ensures counts { CountsTapeFault result (L.Tape.faults tape.old) (L.Tape.faults tape.new) }
{
    evidence.stands();
    let wanted = wanted_of(alloc, evidence.atoms(), literals)?;
    let mut tables = taken(alloc, evidence, store, wanted, proves)?;
    match run(alloc, &mut tables, stack, assumed, tape, budget) {
        Ok(solved) => {
            put_back(tables, evidence, store);
            each_once(evidence);
            Ok(solved)
        }
        Err(fault) => {
            drop(tables);
            Err(fault)
        }
    }
}

/// The atoms that these literals speak of.
fn wanted_of(alloc: Global, atoms: &Atoms, literals: &[Lit]) -> Result<WantedAtoms, AllocError>
    ensures wanted { IfOk result (λ found. AreWanted atoms.now literals.now found) }
    ensures among { IfOk result (λ found. AreAmong atoms.now literals.now found) }
{
    let found = wanted(alloc, atoms, literals)?;
    Ok(WantedAtoms::of(found))
}

/// Says of the evidence that no atom stands in it twice.
fn each_once(evidence: &Evidence)
    ensures { AreDistinct evidence.now.atoms }
{
    evidence.atoms().atoms_each_once();
}

/// Takes the evidence and the store out of their places, where empty ones are left, and makes the theory over them.
fn taken(
    alloc: Global,
    evidence: &mut Evidence,
    store: &mut Store,
    wanted: WantedAtoms,
    proves: bool,
) -> Result<Tables, AllocError>
    requires store { IsStore store.old }
    requires regexes { HaveRegexesBelow (length store.old.arena) evidence.old.atoms }
    requires wanted { list_all (is_atom evidence.old.atoms) wanted ≡ true }
    ensures { IfOk result (AreTaken store.old evidence.old wanted proves) }
{
    let Parts {
        trace,
        atoms,
        engine,
        asserted,
        refuted,
        gates,
        choices,
    } = mem::replace(evidence, Evidence::new(alloc)).into_parts();
    let store = mem::replace(store, Store::new(alloc));
    let before = engine.clauses().len();
    match Strings::new(alloc, store, trace, atoms, proves, wanted) {
        Ok(strings) => Ok(Tables {
            strings,
            engine,
            asserted,
            refuted,
            gates,
            choices,
            before,
        }),
        Err(fault) => {
            drop(engine);
            drop(asserted);
            drop(choices);
            Err(fault)
        }
    }
}

/// The search, under these assumptions, from its beginning to its end.
fn run<L: Tape>(
    alloc: Global,
    tables: &mut Tables,
    stack: &Stack,
    assumed: &[Lit],
    tape: &mut L,
    budget: &mut Budget,
) -> Result<Solved, TapeFault>
    requires stands { Stands tables.old.strings [] }
    requires trail { tables.old.engine.trail.literals ≡ [] }
    requires known { has_room_for (length tables.old.strings.atoms) tables.old.engine.kept ≡ true }
    requires declared { are_declared (state_of stack.now).sorts tables.old.strings.atoms ≡ true }
    requires assumed { are_atoms tables.old.strings.atoms assumed.now ≡ true }
    ensures runs { IfOk result (Runs stack.now assumed.now tables.old budget.old (L.Tape.told tape.old) tables.new
        budget.new (L.Tape.told tape.new)) }
    ensures counts { CountsTapeFault result (L.Tape.faults tape.old) (L.Tape.faults tape.new) }
{
    let found = search(
        alloc,
        &mut tables.strings,
        &mut tables.engine,
        &mut tables.choices,
        tape,
        assumed,
        budget,
    )?;
    match found {
        Found::Sat => {
            let values = values_of(alloc, tables, stack)?;
            Ok(Solved::Sat {
                words: values.words,
                truths: values.truths,
            })
        }
        Found::Unsat(id) => Ok(Solved::Unsat(id)),
        Found::Spent => Ok(Solved::Spent),
    }
}

/// The values that the end of a search gives. The theory's words are taken.
fn values_of(alloc: Global, tables: &mut Tables, stack: &Stack) -> Result<Values, AllocError>
    requires { are_declared (state_of stack.now).sorts tables.old.strings.atoms ≡ true }
    ensures model { IfOk result
        (λ values. HasModel stack.now tables.old values.words.items values.truths.items) }
    ensures rest { OnOk result (tables.new
        ≡ record tables.old { strings = record tables.old.strings { words = tables.new.strings.words } }) }
{
    let words = mem::replace(&mut tables.strings.words, Vec::new(alloc));
    let values = model(
        alloc,
        &tables.strings.atoms,
        tables.strings.wanted.atoms(),
        tables.engine.trail(),
        words,
        stack,
    )?;
    Ok(values)
}

/// Puts the evidence and the store back into their places.
fn put_back(tables: Tables, evidence: &mut Evidence, store: &mut Store)
    requires known { has_room_for (length tables.strings.atoms) tables.engine.kept ≡ true }
    requires stands { Stand (record (backing_in tables) { kept = take tables.before tables.engine.kept }) }
    ensures evidence { evidence.new ≡ record (backing_in tables) { refuted = evidence.new.refuted } }
    ensures store { store.new ≡ tables.strings.store }
{
    let Tables {
        strings,
        engine,
        asserted,
        refuted,
        gates,
        choices,
        before,
    } = tables;
    let parts = Parts {
        trace: strings.trace,
        atoms: strings.atoms,
        engine,
        asserted,
        refuted,
        gates,
        choices,
    };
    drop(mem::replace(evidence, Evidence::from_parts(parts, before)));
    drop(mem::replace(store, strings.store));
}
