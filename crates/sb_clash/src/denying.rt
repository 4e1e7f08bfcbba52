//! The clause that some literals of one constant's memberships are not all true, and its lines.

ghost use Rattle.std.specs.Prelude.{◌≡◌, ℕ, ◌+◌, ◌<◌, true, false, map, length, List, IfOk, OnOk};
ghost use Rattle.std.specs.List.{list_all};
ghost use Rattle.std.specs.List.Sorted.{IsPermutation};
ghost use Rattle.sb_clash.specs.Words.{Ascend, AtomOver, Findings, HaveRegexesBelow, IsGraph, Regex, Traced, negation};
ghost use Rattle.sb_rulebook.specs.LineLaws.{is_small_literal};
ghost use Rattle.sb_trace.specs.Putting.{CountsTapeFault, SpendsWithin};
ghost use Rattle.sb_trace.specs.Reaching.{ExpandsReached};
ghost use Rattle.sb_trace.specs.Tracking.{IsExpandedIn, StaysNumbered};
ghost use Rattle.sb_clash.specs.Literals.{AreSingle};
ghost use Rattle.sb_clash.specs.Asked.{Explores};
ghost use Rattle.sb_clash.specs.Denials.{IsDenial, CanBeDenied, Denying, Ticks, denied_by, sofar};

use crate::asking::meet;
use sb_atoms::Atoms;
use sb_graph::{Graph, graph_stays};
use sb_lit::{Budget, Clause, Lit};
use sb_proof::{Line, Rule, Tape, TapeFault};
use sb_regex::Arena;
use sb_sound::clauses::rule_lines_are_exact;
use sb_term::Serial;
use sb_trace::{Explore, Trace};
use std::alloc::{AllocError, Global};

/// The clause that not all of the literals are true, its literals in order. It sorts them. `AllocError` only for want
/// of memory.
pub fn denial(alloc: Global, literals: &[Lit]) -> Result<Clause, AllocError>
    requires single { AreSingle literals.now }
    ensures ascend { IfOk result (λ clause. Ascend clause) }
    ensures permutation { IfOk result (λ clause. IsPermutation (map negation literals.now) clause) }
{
    let mut negations = opposite(alloc, literals)?;
    negations.sort_unstable();
    Ok(Clause::from_literals(negations))
}

/// The negations of literals, in order.
fn opposite(alloc: Global, literals: &[Lit]) -> Result<Vec<Lit>, AllocError>
    ensures { IfOk result (λ negations. negations.items ≡ map negation literals.now) }
{
    let mut negations = Vec::with_capacity(alloc, literals.len())?;
    for literal in literals {
        negations.push(Lit {
            atom: literal.atom,
            positive: !literal.positive,
        })?;
    }
    Ok(negations)
}

/// Puts the line of a clause of one constant's memberships that no word makes false, behind the lines that show the
/// intersection of what its negations ask for dead; no regex is expanded for it to which no word leads from there. The
/// budget is asked before each line that counts; where it is spent, the lines that were put stay, and the answer is
/// false. Its cost is that of the exploration. After an error the tape may have a line of which nothing is known here,
/// so nothing more may be put.
pub fn put_denial<L: Tape>(
    alloc: Global,
    trace: &mut Trace,
    arena: &mut Arena,
    graph: &mut Graph,
    atoms: &Atoms,
    serial: Serial,
    clause: &Clause,
    tape: &mut L,
    budget: &mut Budget,
) -> Result<bool, TapeFault>
    requires denial { IsDenial arena.old atoms.now serial.0 clause.now }
    requires regexes { HaveRegexesBelow (length arena.old) atoms.now }
    requires graph { IsGraph arena.old graph.old }
    ensures puts { IfOk result
        (Denying (sofar arena.old graph.old trace.old budget.old (L.Tape.told tape.old))
        (sofar arena.new graph.new trace.new budget.new (L.Tape.told tape.new)) atoms.now clause.now) }
    ensures ticks { IfOk result (Ticks budget.old budget.new) }
    ensures steps { SpendsWithin budget.old budget.new }
    ensures stays { StaysNumbered trace.old trace.new }
    ensures expanded_stay { (n : ℕ) → IsExpandedIn trace.old n → IsExpandedIn trace.new n }
    ensures only { OnOk result
        (ExpandsReached arena.new (denied_by arena.new atoms.now clause.now) trace.old trace.new) }
    ensures explores { Explores arena.old arena.new graph.old graph.new }
    ensures counts { CountsTapeFault result (L.Tape.faults tape.old) (L.Tape.faults tape.new) }
{
    graph_stays();
    let literals = opposite(alloc, clause.literals())?;
    let root = meet(alloc, arena, atoms, serial, &literals)?;
    match trace.explore(arena, graph, root, tape, budget)? {
        Explore::Dead => put_line(alloc, clause, tape, budget),
        Explore::Spent => Ok(false),
        Explore::Alive(_) => unreachable!(),
    }
}

/// Puts the line of the clause, where a step is left.
fn put_line<L: Tape>(
    alloc: Global,
    clause: &Clause,
    tape: &mut L,
    budget: &mut Budget,
) -> Result<bool, TapeFault>
    ensures puts { IfOk result (λ done. (rs : List Regex) (g : Findings) (t : Traced) (atoms : List (AtomOver ℕ))
        → CanBeDenied rs t atoms clause.now → Denying (sofar rs g t budget.old (L.Tape.told tape.old))
        (sofar rs g t budget.new (L.Tape.told tape.new)) atoms clause.now done) }
    ensures ticks { IfOk result (Ticks budget.old budget.new) }
    ensures steps { SpendsWithin budget.old budget.new }
    ensures counts { CountsTapeFault result (L.Tape.faults tape.old) (L.Tape.faults tape.new) }
{
    rule_lines_are_exact();
    if !tick(budget) {
        return Ok(false);
    }
    let literals = copied(alloc, clause.literals())?;
    tape.put(&Line::Rule(Rule::Empty, literals))?;
    Ok(true)
}

/// Spends a step, if one is left. Takes no memory.
pub fn tick(budget: &mut Budget) -> bool
    ensures ticks { Ticks budget.old budget.new result }
    ensures one { result ≡ true
        → (budget.old.spent < budget.old.limit) × (budget.new ≡ record budget.old { spent = budget.old.spent + 1 }) }
    ensures none { result ≡ false → budget.new ≡ budget.old }
    ensures steps { SpendsWithin budget.old budget.new }
{
    if budget.tick().is_err() {
        return false;
    }
    true
}

/// The literals, of which each has a text.
fn copied(alloc: Global, literals: &[Lit]) -> Result<Vec<Lit>, AllocError>
    ensures same { IfOk result (λ all. all.items ≡ literals.now) }
    ensures small { OnOk result (list_all is_small_literal literals.now ≡ true) }
{
    let mut all = Vec::new(alloc);
    for literal in literals {
        all.push(with_text(*literal))?;
    }
    Ok(all)
}

/// The literal, which has a text.
fn with_text(literal: Lit) -> Lit
    ensures same { result ≡ literal }
    ensures small { is_small_literal literal ≡ true }
{
    literal
}
