//! The lines that a search puts.

ghost use Rattle.std.specs.Prelude.{◌≡◌, true, map, IfOk, OnOk};
ghost use Rattle.std.specs.List.{list_all};
ghost use Rattle.sb_script.specs.Steps.{line as ended};
ghost use Rattle.sb_rulebook.specs.Lines.{learned_line, rule_line, gate, text_of};
ghost use Rattle.sb_rulebook.specs.LineLaws.{has_text, are_small, is_small_literal};
ghost use Rattle.sb_proof.specs.Tapes.{with_bytes};
ghost use Rattle.sb_search.specs.Asking.{CountsFaults};

use sb_analyze::Learned;
use sb_lit::{ClauseId, Lit};
use sb_proof::{Line, Rule, Tape, TapeFault};
use std::alloc::{AllocError, Global};

/// Puts the line of a clause that was learned.
pub(crate) fn put_learned<L: Tape>(
    alloc: Global,
    lesson: &Learned,
    tape: &mut L,
) -> Result<(), TapeFault>
    ensures told { OnOk result (L.Tape.told tape.new
        ≡ with_bytes (ended (text_of (learned_line lesson.now.clause lesson.now.hints))) (L.Tape.told tape.old)) }
    ensures has_text { OnOk result (has_text (learned_line lesson.now.clause lesson.now.hints) ≡ true) }
    ensures counts { CountsFaults result (L.Tape.faults tape.old) (L.Tape.faults tape.new) }
{
    let literals = copied(alloc, lesson.clause.literals())?;
    let hints = numbers(alloc, lesson.hints.ids())?;
    tape.put(&Line::Learned(literals, hints))
}

/// Puts the line of the clause that a literal or its negation is true.
pub(crate) fn put_both<L: Tape>(literals: Vec<Lit>, tape: &mut L) -> Result<(), TapeFault>
    ensures told { OnOk result (L.Tape.told tape.new
        ≡ with_bytes (ended (text_of (rule_line gate literals.items))) (L.Tape.told tape.old)) }
    ensures counts { CountsFaults result (L.Tape.faults tape.old) (L.Tape.faults tape.new) }
{
    tape.put(&Line::Rule(Rule::Gate, literals))
}

/// The literals, of which each has a text.
fn copied(alloc: Global, literals: &[Lit]) -> Result<Vec<Lit>, AllocError>
    ensures same { IfOk result (λ all. all.items ≡ literals.now) }
    ensures small { OnOk result (list_all is_small_literal literals.now ≡ true) }
{
    let mut all = Vec::new(alloc);
    for literal in literals {
        all.push(with_text(*literal))?;
    }
    Ok(all)
}

/// The literal, which has a text.
fn with_text(literal: Lit) -> Lit
    ensures same { result ≡ literal }
    ensures small { is_small_literal literal ≡ true }
{
    literal
}

/// The numbers of clauses, of which each has a text.
fn numbers(alloc: Global, ids: &[ClauseId]) -> Result<Vec<u64>, AllocError>
    ensures same { IfOk result (λ all. all.items ≡ map (λ id. id.0) ids.now) }
    ensures small { OnOk result (are_small (map (λ id. id.0) ids.now) ≡ true) }
{
    let mut all = Vec::new(alloc);
    for id in ids {
        all.push(id.0)?;
    }
    Ok(all)
}
