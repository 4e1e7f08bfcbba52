//! Constants that stand twice in a String term.

ghost use Rattle.std.specs.Prelude.{◌≡◌, ℕ, ◌<◌, ◌++◌, ◌∷◌, false, List, [], length, IfOk, OnOk};
ghost use Rattle.sb_meaning.specs.Terms as meaning;
ghost use Rattle.sb_term.specs.Numbered.{term_at, terms_at};
ghost use Rattle.sb_script.specs.Rules.{has_each_once};
ghost use Rattle.sb_problem.specs.Normals.{is_text_constant};
ghost use Rattle.sb_fragment.specs.Measures.{AreMeasures};
ghost use Rattle.sb_fragment.specs.Ruled.{Lessens, MeetsMore, Meeting};

use crate::measure::Measure;
use crate::shape::arguments_of;
use sb_problem::{constant_of, is_joined};
use sb_term::{Table, TermId};
use std::alloc::{AllocError, Global};
use std::collections::BTreeSet;

/// Puts the parts of a concatenation among those that are left. What is none, and no constant, has no constants joined.
fn meet_parts(table: &Table, next: TermId, left: &mut Vec<TermId>) -> Result<(), AllocError>
    requires number { next < length table.now }
    requires constant { is_text_constant (term_at table.now next) ≡ false }
    ensures meeting { OnOk result ((whole : meaning.Term) (met : List ℕ)
        → Meeting whole met (terms_at table.now left.old.items ++ term_at table.now next ∷ [])
        → Meeting whole met (terms_at table.now left.new.items)) }
    ensures lessens { OnOk result (Lessens table.now next left.old.items left.new.items) }
{
    if !is_joined(table, next) {
        return Ok(());
    }
    left.extend_from_slice(arguments_of(table, next))?;
    Ok(())
}

/// Meets the part of a String term that comes last among those that are left: a constant, or the parts of a
/// concatenation in its place. A part without constants is passed over. False where the constant was met before.
fn meet(
    table: &Table,
    measures: &[Measure],
    next: TermId,
    met: &mut BTreeSet<u64>,
    left: &mut Vec<TermId>,
) -> Result<bool, AllocError>
    requires number { next < length table.now }
    requires reached { next < length measures.now }
    requires right { AreMeasures table.now measures.now }
    ensures goes { IfOk result (λ goes. (whole : meaning.Term)
        → Meeting whole met.old.keys (terms_at table.now left.old.items ++ term_at table.now next ∷ [])
        → MeetsMore goes whole met.new.keys (terms_at table.now left.new.items)) }
    ensures lessens { OnOk result (Lessens table.now next left.old.items left.new.items) }
{
    let measure = measures[next.number()];
    if measure.is_ground {
        return Ok(true);
    }
    match constant_of(table, next) {
        Some(serial) => {
            let is_new = met.insert(serial.0)?;
            Ok(is_new)
        }
        None => {
            meet_parts(table, next, left)?;
            Ok(true)
        }
    }
}

/// Whether each constant stands once at most in a String term. Goes over the term from the last part to the first, with
/// no recursion, up to the first constant that stands twice.
pub(crate) fn has_each_once(
    alloc: Global,
    table: &Table,
    measures: &[Measure],
    id: TermId,
) -> Result<bool, AllocError>
    requires number { id < length measures.now }
    requires right { AreMeasures table.now measures.now }
    ensures { IfOk result (λ once. once ≡ has_each_once (term_at table.now id)) }
{
    let mut met = BTreeSet::new(alloc);
    let mut left = Vec::from_slice(alloc, &[id])?;
    while let Some(next) = left.pop() {
        let goes = meet(table, measures, next, &mut met, &mut left)?;
        if !goes {
            return Ok(false);
        }
    }
    Ok(true)
}
