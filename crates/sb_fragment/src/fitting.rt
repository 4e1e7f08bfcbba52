//! Which terms are Boolean structure, and which of them are within the limits on sizes, by what is known of their
//! arguments.

ghost use Rattle.std.specs.Prelude.{◌≡◌, ◌<◌, ◌≤◌, true, List, length, IfOk};
ghost use Rattle.sb_meaning.specs.Terms.{Term};
ghost use Rattle.sb_term.specs.Numbered.{term_at};
ghost use Rattle.sb_problem.specs.Patterns.{number_of, pattern_in};
ghost use Rattle.sb_fragment.specs.Measures.{AreMeasures};
ghost use Rattle.sb_fragment.specs.Measured.{within};
ghost use Rattle.sb_fragment.specs.Memberships.{is_in_re};
ghost use Rattle.sb_fragment.specs.Shapes.{IsShape, parts_of};
ghost use Rattle.sb_fragment.specs.Fitting.{AreFit, IsFit, fit_by, regex_fit};
ghost use Rattle.sb_fragment.specs.declared.shape.Shape.TheVariants.{Affix};

use crate::affixes::part_and_whole;
use crate::measure::{Measure, is_within, literal_of};
use crate::memberships::{membership, term_and_regex};
use crate::shape::{AffixKind, Shape, arguments_of, shape_of};
use crate::sides::{fit_part, fit_words, is_single};
use sb_problem::Pattern;
use sb_term::{Table, TermId};
use std::alloc::{AllocError, Global};

/// What a term, or each of some terms, is as Boolean structure.
#[derive(Clone, Copy)]
pub(crate) struct Fit {
    /// It is Boolean structure, whatever the sizes are.
    pub(crate) is_structure: bool,
    /// It is Boolean structure that keeps the rules of memberships, of equalities and of affixes.
    pub(crate) fits: bool,
}

/// It is, by all rules.
const INSIDE: Fit = Fit {
    is_structure: true,
    fits: true,
};

/// It is none.
const OUTSIDE: Fit = Fit {
    is_structure: false,
    fits: false,
};

/// What the demand for a word of a regular expression is, by what is known of the expression.
fn fit_regex(measure: Measure) -> Fit
    ensures { result ≡ fit_by measure.is_regex (within measure) }
{
    Fit {
        is_structure: measure.is_regex,
        fits: measure.is_regex && is_within(measure),
    }
}

/// What the demand for a word of a pattern is.
fn fit_pattern(measures: &[Measure], pattern: Pattern) -> Fit
    requires { number_of pattern < length measures.now }
    ensures { (terms : List Term) → AreMeasures terms measures.now → result ≡ regex_fit (pattern_in terms pattern) }
{
    match pattern {
        Pattern::Expression(id) => fit_regex(measures[id.number()]),
        Pattern::Word(id) => fit_regex(literal_of(measures[id.number()])),
    }
}

/// What the membership of a String term in a regular expression is.
fn fit_member(
    alloc: Global,
    table: &Table,
    measures: &[Measure],
    id: TermId,
) -> Result<Fit, AllocError>
    requires number { id < length table.now }
    requires reached { id ≤ length measures.now }
    requires right { AreMeasures table.now measures.now }
    requires member { is_in_re (term_at table.now id) ≡ true }
    ensures { IfOk result (λ fit. IsFit (term_at table.now id) fit) }
{
    let Some(pair) = term_and_regex(table, id) else {
        return Ok(OUTSIDE);
    };
    let single = is_single(alloc, table, measures, pair.0)?;
    let fit = fit_regex(measures[pair.1.number()]);
    Ok(Fit {
        is_structure: fit.is_structure,
        fits: fit.fits & single,
    })
}

/// What a term is that says of a String term that it is a prefix, a suffix or a factor of another.
fn fit_affix(
    alloc: Global,
    table: &Table,
    measures: &[Measure],
    id: TermId,
    kind: AffixKind,
) -> Result<Fit, AllocError>
    requires number { id < length table.now }
    requires reached { id ≤ length measures.now }
    requires right { AreMeasures table.now measures.now }
    requires affix { IsShape (term_at table.now id) (Affix kind) }
    ensures { IfOk result (λ fit. IsFit (term_at table.now id) fit) }
{
    let Some(pair) = part_and_whole(table, id, kind) else {
        return Ok(Fit {
            is_structure: true,
            fits: false,
        });
    };
    let fits = fit_part(alloc, table, measures, pair.0, pair.1)?;
    Ok(Fit {
        is_structure: true,
        fits,
    })
}

/// What a term is, where the measures of the terms before it are there, and each of its arguments is `parts`. Linear in
/// the number of its arguments, but that String terms which are compared, asked to be in a regular expression, or to be
/// a part of another one, are gone over, up to the first constant that stands twice. `AllocError` only for want of
/// memory.
pub(crate) fn fit_of(
    alloc: Global,
    table: &Table,
    measures: &[Measure],
    id: TermId,
    parts: Fit,
) -> Result<Fit, AllocError>
    requires number { id < length table.now }
    requires reached { id ≤ length measures.now }
    requires right { AreMeasures table.now measures.now }
    requires each { AreFit (parts_of (term_at table.now id)) parts }
    ensures { IfOk result (λ fit. IsFit (term_at table.now id) fit) }
{
    if let Some((_, pattern)) = membership(table, id) {
        return Ok(fit_pattern(measures, pattern));
    }
    match shape_of(table, id) {
        Shape::Constant(_) => Ok(INSIDE),
        Shape::Always(_) => Ok(parts),
        Shape::Alone => Ok(parts),
        Shape::Connected(_) => Ok(parts),
        Shape::Member => fit_member(alloc, table, measures, id),
        Shape::Words(distinct) => {
            let fits = fit_words(alloc, table, measures, distinct, arguments_of(table, id))?;
            Ok(Fit {
                is_structure: true,
                fits,
            })
        }
        Shape::Affix(kind) => fit_affix(alloc, table, measures, id, kind),
        Shape::Other => Ok(OUTSIDE),
    }
}
