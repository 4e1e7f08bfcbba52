//! The measures of terms by number.

ghost use Rattle.std.specs.Prelude.{◌≡◌, ◌<◌, ◌≤◌, length, [], IfOk};
ghost use Rattle.sb_script.specs.Brought.{is_structure};
ghost use Rattle.sb_script.specs.Rules.{has_each_once};
ghost use Rattle.sb_script.specs.Sizes.{is_regular};
ghost use Rattle.sb_script.specs.State.{asserted};
ghost use Rattle.sb_term.specs.Numbered.{term_at};
ghost use Rattle.sb_problem.specs.Patterns.{number_of, pattern_in};
ghost use Rattle.sb_fragment.specs.Measures.{IsMeasure, AreMeasures};
ghost use Rattle.sb_fragment.specs.Shapes.{sides_in};
ghost use Rattle.sb_script.specs.Fragment.{is_decided};

use crate::fitting::{Fit, fit_of};
use crate::measure::{Measure, is_within, literal_of, plain_of, total_of};
use crate::repeated::has_each_once;
use crate::shape::arguments_of;
use sb_problem::Pattern;
use sb_term::{Table, TermId};
use std::alloc::{AllocError, Global};
use std::marker::Model;

/// The measures of the terms of one table, by number.
#[derive(Drop)]
pub struct Measures {
    measures: Vec<Measure>,
}

impl Model for Measures {
    ghost use Rattle.std.specs.Prelude.{List};
    ghost use Rattle.sb_fragment.specs.declared.measure.Measure.{Measure};

    ghost Value = { List Measure };

    ghost view = { λ measures. measures.measures.items };
}

/// The sides of an equality of two String terms.
#[derive(Clone, Copy, PartialEq, Eq)]
pub struct Sides {
    /// The one that is to be a word, by the rules of the fragment.
    pub word: TermId,
    /// The other one.
    pub other: TermId,
}

/// What is known of a term, where the measures of the terms before it are there.
fn measure_of(
    alloc: Global,
    table: &Table,
    measures: &[Measure],
    id: TermId,
) -> Result<Measure, AllocError>
    requires number { id < length table.now }
    requires reached { id ≤ length measures.now }
    requires right { AreMeasures table.now measures.now }
    ensures { IfOk result (λ measure. IsMeasure (term_at table.now id) measure) }
{
    let all = total_of(measures, arguments_of(table, id));
    let parts = Fit {
        is_structure: all.is_structure,
        fits: all.fits,
    };
    let fit = fit_of(alloc, table, measures, id, parts)?;
    let plain = plain_of(table.term(id), all);
    Ok(Measure {
        is_structure: fit.is_structure,
        fits: fit.fits,
        ..plain
    })
}

/// Measures the terms up to a number.
fn extend(measures: &mut Vec<Measure>, table: &Table, id: TermId) -> Result<(), AllocError>
    requires number { id < length table.now }
    requires right { AreMeasures table.now measures.old.items }
    ensures right { AreMeasures table.now measures.new.items }
    ensures reached { IfOk result (λ _. id < length measures.new.items) }
{
    let alloc = *measures.allocator();
    while measures.len() <= id.number() {
        let next = TermId::new(measures.len())?;
        let measure = measure_of(alloc, table, measures, next)?;
        measures.push(measure)?;
    }
    Ok(())
}

impl Measures {
    /// No measure. Takes no memory.
    pub fn new(alloc: Global) -> Measures
        ensures { result ≡ [] }
    {
        Measures {
            measures: Vec::new(alloc),
        }
    }

    /// The measure of a term. Constant time where it, or a term with a larger number, was asked for; else linear in the
    /// terms since the largest one that was, and their arguments, but that String terms which are compared there, asked
    /// to be in a regular expression, or to be a part of another one, are gone over. `AllocError` only for want of
    /// memory.
    pub fn measure(&mut self, table: &Table, id: TermId) -> Result<Measure, AllocError>
        requires number { id < length table.now }
        requires right { AreMeasures table.now self.old }
        ensures ok { IfOk result (λ measure. IsMeasure (term_at table.now id) measure) }
        ensures right { AreMeasures table.now self.new }
    {
        extend(&mut self.measures, table, id)?;
        Ok(self.measures[id.number()])
    }

    /// The measure of a pattern, as a regular expression: that of a word has one node and the word. Its cost and its
    /// error are those of [`Measures::measure`].
    pub fn pattern(&mut self, table: &Table, pattern: Pattern) -> Result<Measure, AllocError>
        requires number { number_of pattern < length table.now }
        requires right { AreMeasures table.now self.old }
        ensures ok { IfOk result (λ measure. IsMeasure (pattern_in table.now pattern) measure) }
        ensures right { AreMeasures table.now self.new }
    {
        match pattern {
            Pattern::Expression(id) => self.measure(table, id),
            Pattern::Word(id) => {
                let measure = self.measure(table, id)?;
                Ok(literal_of(measure))
            }
        }
    }

    /// Whether a pattern has no constants and is within the limits on sizes. Its cost and its error are those of
    /// [`Measures::measure`].
    pub fn is_regular(&mut self, table: &Table, pattern: Pattern) -> Result<bool, AllocError>
        requires number { number_of pattern < length table.now }
        requires right { AreMeasures table.now self.old }
        ensures ok { IfOk result (λ regular. regular ≡ is_regular (pattern_in table.now pattern)) }
        ensures right { AreMeasures table.now self.new }
    {
        let measure = self.pattern(table, pattern)?;
        Ok(is_within(measure))
    }

    /// Whether a term is Boolean structure, whatever the sizes are. Its cost and its error are those of
    /// [`Measures::measure`].
    pub fn is_structure(&mut self, table: &Table, id: TermId) -> Result<bool, AllocError>
        requires number { id < length table.now }
        requires right { AreMeasures table.now self.old }
        ensures ok { IfOk result (λ structure. structure ≡ is_structure (term_at table.now id)) }
        ensures right { AreMeasures table.now self.new }
    {
        Ok(self.measure(table, id)?.is_structure)
    }

    /// Whether a term is decided as an assertion: whether it is Boolean structure over memberships, over comparisons of
    /// String terms and over affixes, and over Bool constants, that keeps the rules of these, within the limits on
    /// sizes. Its cost and its error are those of [`Measures::measure`].
    pub fn fits_structure(&mut self, table: &Table, id: TermId) -> Result<bool, AllocError>
        requires number { id < length table.now }
        requires right { AreMeasures table.now self.old }
        ensures ok { IfOk result (λ fit. fit ≡ is_decided (asserted (term_at table.now id))) }
        ensures right { AreMeasures table.now self.new }
    {
        Ok(self.measure(table, id)?.fits)
    }

    /// Whether each constant stands once at most in a String term. Goes over the term, up to the first constant that
    /// stands twice, once it is measured; its error is that of [`Measures::measure`].
    pub(crate) fn has_each_once(&mut self, table: &Table, id: TermId) -> Result<bool, AllocError>
        requires number { id < length table.now }
        requires right { AreMeasures table.now self.old }
        ensures ok { IfOk result (λ once. once ≡ has_each_once (term_at table.now id)) }
        ensures right { AreMeasures table.now self.new }
    {
        extend(&mut self.measures, table, id)?;
        let once = has_each_once(self.allocator(), table, &self.measures, id)?;
        Ok(once)
    }

    /// Which side of an equality of two String terms is to be a word: the second one where it is one, else the first.
    /// Its cost and its error are those of [`Measures::measure`].
    pub fn sides_of_pair(
        &mut self,
        table: &Table,
        one: TermId,
        other: TermId,
    ) -> Result<Sides, AllocError>
        requires one { one < length table.now }
        requires other { other < length table.now }
        requires right { AreMeasures table.now self.old }
        ensures ok { IfOk result (λ sides. sides ≡ sides_in table.now one other) }
        ensures right { AreMeasures table.now self.new }
    {
        let measure = self.measure(table, other)?;
        if measure.is_text {
            Ok(Sides {
                word: other,
                other: one,
            })
        } else {
            Ok(Sides { word: one, other })
        }
    }

    /// The allocator of the measures.
    pub(crate) fn allocator(&self) -> Global {
        *self.measures.allocator()
    }
}
