//! Searches over the theory of memberships, where the steps end, and where no lines are put: what no script shows.

ghost use Rattle.std.specs.Prelude.{◌≡◌, ◌≤◌, ℕ, [], true, List, length, IfOk};
ghost use Rattle.std.specs.List.{list_all};
ghost use Rattle.sb_rulebook.specs.Atoms.{AtomOver, is_well_formed};
ghost use Rattle.sb_rulebook.specs.Brought.{is_brought_atom};
ghost use Rattle.sb_atoms.specs.Numbered.{HasRegexBelow, HaveRegexesBelow, atom_in};
ghost use Rattle.sb_store.specs.Stores.{IsStore};
ghost use Rattle.sb_theory.specs.Memberships.{is_atom};
ghost use Rattle.sb_theory.specs.Strings.{Stands};
ghost use Rattle.sb_theory.specs.Tables.{AreFormed};

use crate::regexes::regex;
use indexmap::IndexSet;
use sb_atoms::{AtomId, Atoms, gate_clauses};
use sb_clauses::Engine;
use sb_fragment::Measures;
use sb_graph::Graph;
use sb_lit::{Budget, Clause, Lit};
use sb_plain::Plain;
use sb_problem::Normals;
use sb_proof::{Atom, MemTape, Piece, TapeFault};
use sb_regex::{Arena, RegexId};
use sb_search::{Choices, Found, search};
use sb_store::Store;
use sb_theory::{Strings, WantedAtoms};
use sb_trace::Trace;
use smallvec::SmallVec;
use std::alloc::{AllocError, Global};
use std::process::Abort;
use std::test::Fail;

/// What an atom says.
enum Says {
    /// The word of the constant of this serial is in the language.
    In(u64, &'static [u8]),
    /// Both literals are true.
    And(Lit, Lit),
}

/// How a search ends.
enum End {
    Sat,
    Unsat,
    Spent,
}

/// A search, and what it comes to.
struct Case {
    /// The atoms.
    said: &'static [Says],
    /// How many first ones are wanted.
    wanted: u64,
    clauses: &'static [&'static [Lit]],
    /// Whether lines are put.
    proves: bool,
    limit: u64,
    end: End,
    steps: u64,
    /// Literals that are true in the end.
    truths: &'static [Lit],
    /// The words of the first constants.
    words: &'static [&'static [u32]],
    lines: &'static [u8],
}

/// The literals of the first atoms, and negations of them.
pub(crate) const ONE: Lit = Lit {
    atom: 0,
    positive: true,
};

pub(crate) const TWO: Lit = Lit {
    atom: 1,
    positive: true,
};

const THREE: Lit = Lit {
    atom: 2,
    positive: true,
};

const FOUR: Lit = Lit {
    atom: 3,
    positive: true,
};

pub(crate) const NOT_ONE: Lit = Lit {
    atom: 0,
    positive: false,
};

pub(crate) const NOT_TWO: Lit = Lit {
    atom: 1,
    positive: false,
};

/// Some a, some b, and some c.
const SOME: &[Says] = &[
    Says::In(0, b"aa*."),
    Says::In(0, b"bb*."),
    Says::In(0, b"cc*."),
];

static CASES: [Case; 11] = [
    Case {
        said: SOME,
        wanted: 3,
        clauses: &[&[ONE], &[TWO]],
        proves: false,
        limit: 9,
        end: End::Unsat,
        steps: 2,
        truths: &[ONE, TWO],
        words: &[&[]],
        lines: b"c learn : 0 1 2\n",
    },
    Case {
        said: SOME,
        wanted: 3,
        clauses: &[&[ONE, TWO], &[TWO, THREE], &[ONE, THREE]],
        proves: false,
        limit: 2,
        end: End::Spent,
        steps: 2,
        truths: &[],
        words: &[&[97]],
        lines: b"c learn +0 : 2 0 3\n",
    },
    // The last one clashes with the first one alone, and without a decision all are the lemma.
    Case {
        said: &[
            Says::In(0, b"aE*."),
            Says::In(0, b"E*b."),
            Says::In(0, b"bE*."),
        ],
        wanted: 3,
        clauses: &[&[ONE], &[TWO], &[THREE]],
        proves: false,
        limit: 9,
        end: End::Unsat,
        steps: 2,
        truths: &[ONE, TWO, THREE],
        words: &[&[]],
        lines: b"c learn : 0 1 2 3\n",
    },
    // The same behind a decision, where two of them are the lemma.
    Case {
        said: &[
            Says::In(1, b"aE*."),
            Says::In(0, b"aE*."),
            Says::In(0, b"E*b."),
            Says::In(0, b"bE*."),
        ],
        wanted: 4,
        clauses: &[&[ONE, TWO], &[ONE, THREE], &[ONE, FOUR]],
        proves: false,
        limit: 9,
        end: End::Sat,
        steps: 2,
        truths: &[ONE],
        words: &[&[97, 98], &[97]],
        lines: b"c learn +0 : 2 0 3\n",
    },
    // Not the empty word, and not a longer one.
    Case {
        said: &[Says::In(0, b"Z"), Says::In(0, b"EE*.")],
        wanted: 2,
        clauses: &[&[NOT_ONE], &[NOT_TWO]],
        proves: false,
        limit: 9,
        end: End::Unsat,
        steps: 2,
        truths: &[NOT_ONE, NOT_TWO],
        words: &[&[]],
        lines: b"c learn : 0 1 2\n",
    },
    // The second constant's memberships clash, and the first one's do not.
    Case {
        said: &[
            Says::In(0, b"aE*."),
            Says::In(1, b"aE*."),
            Says::In(1, b"bE*."),
            Says::In(0, b"E*b."),
        ],
        wanted: 4,
        clauses: &[&[ONE], &[TWO], &[FOUR], &[THREE]],
        proves: false,
        limit: 9,
        end: End::Unsat,
        steps: 2,
        truths: &[ONE, TWO, THREE, FOUR],
        words: &[&[97, 98], &[]],
        lines: b"c learn : 1 3 4\n",
    },
    // The first decision is taken back.
    Case {
        said: &[
            Says::In(0, b"aE*."),
            Says::In(0, b"bE*."),
            Says::In(0, b"aE*.cE*.|"),
        ],
        wanted: 3,
        clauses: &[&[THREE], &[ONE, TWO]],
        proves: false,
        limit: 9,
        end: End::Sat,
        steps: 1,
        truths: &[ONE, NOT_TWO, THREE],
        words: &[&[97]],
        lines: b"",
    },
    // Of an atom that is not wanted nothing is asked, though it clashes on the trail.
    Case {
        said: &[Says::In(0, b"aE*."), Says::In(0, b"bE*.")],
        wanted: 1,
        clauses: &[&[ONE], &[TWO]],
        proves: false,
        limit: 9,
        end: End::Sat,
        steps: 0,
        truths: &[ONE, TWO],
        words: &[&[97]],
        lines: b"",
    },
    // A conjunction of two that clash.
    Case {
        said: &[
            Says::In(0, b"aE*."),
            Says::In(0, b"bE*."),
            Says::And(ONE, TWO),
        ],
        wanted: 3,
        clauses: &[&[THREE]],
        proves: false,
        limit: 9,
        end: End::Unsat,
        steps: 2,
        truths: &[ONE, TWO, THREE],
        words: &[&[]],
        lines: b"c learn : 0 1 2 4\n",
    },
    Case {
        said: SOME,
        wanted: 3,
        clauses: &[&[ONE], &[TWO]],
        proves: true,
        limit: 0,
        end: End::Spent,
        steps: 0,
        truths: &[ONE, TWO],
        words: &[&[]],
        lines: b"r set 61-61\nr star 0\nr cat 0 1\nr set 62-62\nr star 3\nr cat 3 4\nr and 2 5\nr none\n",
    },
    Case {
        said: SOME,
        wanted: 3,
        clauses: &[&[ONE], &[TWO]],
        proves: true,
        limit: 3,
        end: End::Spent,
        steps: 3,
        truths: &[ONE, TWO],
        words: &[&[]],
        lines: b"r set 61-61\nr star 0\nr cat 0 1\nr set 62-62\nr star 3\nr cat 3 4\nr and 2 5\nr none\n\
        x 6 0-2ffff>7\nx 7 0-2ffff>7\nd 6 7\nc empty -0 -1\n",
    },
];

/// The regex of what is said; that of no word for a conjunction.
fn regex_of(alloc: Global, arena: &mut Arena, says: &Says) -> Result<RegexId, AllocError> {
    match says {
        Says::In(_, text) => regex(alloc, arena, text),
        Says::And(..) => arena.none(),
    }
}

/// So many first atoms.
fn first_atoms(alloc: Global, count: u64) -> Result<WantedAtoms, AllocError>
    ensures { IfOk result (λ wanted. (table : List (AtomOver ℕ)) → count ≤ length table
        → list_all (is_atom table) wanted ≡ true) }
{
    let mut atoms = IndexSet::new(alloc);
    for atom in 0..count {
        atoms.insert(atom)?;
    }
    Ok(WantedAtoms::of(atoms))
}

/// Puts the regexes of what is said.
fn put_regexes(
    alloc: Global,
    arena: &mut Arena,
    ids: &mut Vec<RegexId>,
    said: &[Says],
) -> Result<(), AllocError> {
    for says in said {
        let id = regex_of(alloc, arena, says)?;
        ids.push(id)?;
    }
    Ok(())
}

/// Adds an atom.
fn add(arena: &Arena, atoms: &mut Atoms, atom: Atom<RegexId>) -> Result<(), AllocError>
    requires atom { HasRegexBelow (length arena.now) (atom_in atom) }
    requires brought { is_brought_atom (atom_in atom) ≡ true }
    requires well { is_well_formed (atom_in atom) ≡ true }
    requires atoms { HaveRegexesBelow (length arena.now) atoms.old }
    requires formed { AreFormed atoms.old }
    ensures atoms { HaveRegexesBelow (length arena.now) atoms.new }
    ensures formed { AreFormed atoms.new }
{
    atoms.add(atom)?;
    Ok(())
}

/// Adds the atom of what is said.
fn add_said(
    alloc: Global,
    arena: &Arena,
    atoms: &mut Atoms,
    says: &Says,
    id: RegexId,
) -> Result<(), AllocError>
    requires atoms { HaveRegexesBelow (length arena.now) atoms.old }
    requires formed { AreFormed atoms.old }
    ensures atoms { HaveRegexesBelow (length arena.now) atoms.new }
    ensures formed { AreFormed atoms.new }
{
    match says {
        Says::In(serial, _) => {
            if id.number() < arena.len() {
                let pieces = SmallVec::from_buf(alloc, [Piece::Constant(*serial)]);
                return add(arena, atoms, Atom::In(pieces, id));
            }
            Err(AllocError)
        }
        Says::And(one, other) => {
            if one.atom >= other.atom {
                return Err(AllocError);
            }
            let literals = SmallVec::from_slice(alloc, &[*one, *other])?;
            add(arena, atoms, Atom::And(literals))
        }
    }
}

/// Adds the atoms of all that is said.
fn add_all(
    alloc: Global,
    arena: &Arena,
    atoms: &mut Atoms,
    ids: &[RegexId],
    said: &[Says],
) -> Result<(), AllocError>
    requires atoms { HaveRegexesBelow (length arena.now) atoms.old }
    requires formed { AreFormed atoms.old }
    ensures atoms { HaveRegexesBelow (length arena.now) atoms.new }
    ensures formed { AreFormed atoms.new }
{
    for (says, id) in said.iter().zip(ids.iter()) {
        add_said(alloc, arena, atoms, says, *id)?;
    }
    Ok(())
}

/// Adds the clauses of a case.
fn add_clauses(alloc: Global, engine: &mut Engine, clauses: &[&[Lit]]) -> Result<(), AllocError> {
    for literals in clauses {
        let clause = Clause::from_literals(Vec::from_slice(alloc, literals)?);
        let added = engine.add(&clause, 0);
        drop(clause);
        added?;
    }
    Ok(())
}

/// Adds the clauses of the atoms that are gates.
fn add_gates(alloc: Global, engine: &mut Engine, atoms: &Atoms) -> Result<(), AllocError> {
    for number in 0..atoms.len() {
        let id = AtomId::of(Lit {
            atom: number as u64,
            positive: true,
        });
        let gates = gate_clauses(alloc, atoms, id)?;
        let added = add_each(engine, &gates);
        drop(gates);
        added?;
    }
    Ok(())
}

/// Adds clauses.
fn add_each(engine: &mut Engine, clauses: &[Clause]) -> Result<(), AllocError> {
    for clause in clauses {
        engine.add(clause, 0)?;
    }
    Ok(())
}

/// Expects a search to end so.
fn expect_end(rt: &impl Abort, found: Found, wanted: &End) {
    let same = match found {
        Found::Sat => matches!(wanted, End::Sat),
        Found::Unsat(_) => matches!(wanted, End::Unsat),
        Found::Spent => matches!(wanted, End::Spent),
    };
    assert!(rt; same);
}

/// Expects literals to be true.
fn expect_truths(rt: &impl Abort, engine: &Engine, truths: &[Lit]) {
    for literal in truths {
        let truth = engine.trail().literal_value(*literal);
        assert!(rt; truth == Some(true));
    }
}

/// Expects a constant to have the word of these codes, or none where there are none.
fn expect_word(rt: &impl Abort, theory: &Strings, serial: usize, codes: &[u32]) {
    let same = match theory.words.get(serial) {
        Some(Some(word)) => word.codes() == codes,
        _ => codes.is_empty(),
    };
    assert!(rt; same);
}

/// Expects what a search left to be what is wanted.
fn expect_left(rt: &impl Abort, theory: &Strings, engine: &Engine, tape: &MemTape, case: &Case) {
    assert!(rt; tape.bytes() == case.lines);
    expect_truths(rt, engine, case.truths);
    let words = case.words;
    for i in 0..words.len() {
        expect_word(rt, theory, i, words[i]);
    }
}

/// Makes the search of a case, and expects it to come to what is wanted.
fn search_case(
    rt: &impl Abort,
    alloc: Global,
    theory: &mut Strings,
    engine: &mut Engine,
    tape: &mut MemTape,
    case: &Case,
) -> Result<(), TapeFault>
    requires { Stands theory.old [] }
{
    add_clauses(alloc, engine, case.clauses)?;
    add_gates(alloc, engine, &theory.atoms)?;
    engine.clear();
    if engine.atoms() > theory.atoms.len() {
        return Err(TapeFault::NoMemory);
    }
    let mut budget = Budget::new(case.limit);
    let mut choices = Choices::new(alloc);
    let found = search(alloc, theory, engine, &mut choices, tape, &[], &mut budget)?;
    assert!(rt; budget.spent() == case.steps);
    expect_end(rt, found, &case.end);
    expect_left(rt, theory, engine, tape, case);
    Ok(())
}

/// Makes the theory over the tables of a case, and its search.
fn search_tables(
    rt: &impl Abort,
    alloc: Global,
    store: Store,
    atoms: Atoms,
    wanted: WantedAtoms,
    case: &Case,
) -> Result<(), TapeFault>
    requires store { IsStore store }
    requires regexes { HaveRegexesBelow (length store.arena) atoms }
    requires formed { AreFormed atoms }
    requires wanted { (table : List (AtomOver ℕ)) → case.now.wanted ≤ length table
        → list_all (is_atom table) wanted ≡ true }
{
    if (atoms.len() as u64) < case.wanted {
        drop(store);
        drop(atoms);
        drop(wanted);
        return Err(TapeFault::NoMemory);
    }
    let trace = Trace::new(alloc);
    let mut theory = Strings::new(alloc, store, trace, atoms, case.proves, wanted)?;
    let mut engine = Engine::new(alloc);
    let mut tape = MemTape::new(alloc);
    let searched = search_case(rt, alloc, &mut theory, &mut engine, &mut tape, case);
    drop(tape);
    drop(engine);
    drop(theory);
    searched
}

/// Goes through a case over tables of its own.
fn expect_case(rt: &impl Abort, alloc: Global, case: &Case) -> Result<(), TapeFault> {
    let wanted = first_atoms(alloc, case.wanted)?;
    let mut arena = Arena::new(alloc);
    let mut atoms = Atoms::new(alloc);
    let mut ids = Vec::new(alloc);
    let put = put_regexes(alloc, &mut arena, &mut ids, case.said);
    let added = add_all(alloc, &arena, &mut atoms, &ids, case.said);
    drop(ids);
    let store = Store {
        arena,
        graph: Graph::new(alloc),
        plain: Plain::new(alloc),
        normals: Normals::new(alloc),
        measures: Measures::new(alloc),
    };
    match put.and(added) {
        Ok(()) => search_tables(rt, alloc, store, atoms, wanted, case),
        Err(error) => {
            drop(store);
            drop(atoms);
            drop(wanted);
            Err(TapeFault::from(error))
        }
    }
}

/// Goes through the cases.
fn expect_cases(rt: &impl Abort, alloc: Global) -> Result<(), TapeFault> {
    for case in &CASES {
        expect_case(rt, alloc, case)?;
    }
    Ok(())
}

#[test]
fn searches_come_to_what_is_wanted(rt: HostRuntime) -> Result<(), Fail> {
    expect_cases(&rt, rt.alloc())?;
    Ok(())
}
