//! String terms that are compared, asked to be in a regular expression, or to be parts of others, as the rules of the
//! fragment see them.

ghost use Rattle.std.specs.Prelude.{◌≡◌, ◌<◌, length, All, IfOk};
ghost use Rattle.sb_script.specs.Fragment.{is_affix_pair, is_word_pair};
ghost use Rattle.sb_term.specs.Numbered.{term_at, terms_at};
ghost use Rattle.sb_fragment.specs.Compared.{each_two};
ghost use Rattle.sb_fragment.specs.Measures.{AreMeasures};
ghost use Rattle.sb_fragment.specs.Fitting.{is_single, row_fits, side_in, with_side};

use crate::measure::{Measure, is_short_word, is_whole_word};
use crate::repeated::has_each_once;
use sb_term::{Table, TermId};
use std::alloc::{AllocError, Global};

/// What a String term is as a side of an equality.
#[derive(Clone, Copy)]
pub(crate) struct Side {
    /// It is a word within the limit on sizes.
    pub(crate) is_short: bool,
    /// It is made of words within the limit and of constants, each of which stands once.
    pub(crate) is_single: bool,
}

/// What the terms are with which one in front of them is compared.
#[derive(Clone, Copy)]
pub(crate) struct Behind {
    /// Each of them is made of words within the limit and of constants, each of which stands once in it.
    pub(crate) sides: bool,
    /// Each of them is a word within the limit.
    pub(crate) shorts: bool,
    /// There is none.
    pub(crate) none: bool,
}

/// Whether a term is made of words within the limit and of constants, each of which stands once. Goes over the term,
/// where it is made of such at all, up to the first constant that stands twice.
pub(crate) fn is_single(
    alloc: Global,
    table: &Table,
    measures: &[Measure],
    id: TermId,
) -> Result<bool, AllocError>
    requires number { id < length measures.now }
    requires right { AreMeasures table.now measures.now }
    ensures { IfOk result (λ single. single ≡ is_single (term_at table.now id)) }
{
    let has_pieces = measures[id.number()].has_pieces;
    if !has_pieces {
        return Ok(false);
    }
    let once = has_each_once(alloc, table, measures, id)?;
    Ok(once)
}

/// What a term is as a side of an equality.
fn side_of(
    alloc: Global,
    table: &Table,
    measures: &[Measure],
    id: TermId,
) -> Result<Side, AllocError>
    requires number { id < length measures.now }
    requires right { AreMeasures table.now measures.now }
    ensures { IfOk result (λ side. side ≡ side_in (term_at table.now id)) }
{
    let single = is_single(alloc, table, measures, id)?;
    let is_short = is_short_word(measures[id.number()]);
    Ok(Side {
        is_short,
        is_single: single,
    })
}

/// Whether a side fits with each of those behind it.
fn fits_row(side: Side, behind: Behind) -> bool
    ensures { result ≡ row_fits side behind }
{
    if side.is_short {
        behind.sides
    } else if side.is_single {
        behind.shorts
    } else {
        behind.none
    }
}

/// What is behind the next one.
fn with_side(distinct: bool, side: Side, behind: Behind) -> Behind
    ensures { result ≡ with_side distinct side behind }
{
    Behind {
        sides: side.is_single && (!distinct || behind.sides),
        shorts: side.is_short && (!distinct || behind.shorts),
        none: false,
    }
}

/// Whether String terms fit that are compared: each two where they are to be distinct, else each two neighbours. Of
/// those that are compared one is a word within the limit, and in the other one each constant stands once. Each is gone
/// over once.
pub(crate) fn fit_words(
    alloc: Global,
    table: &Table,
    measures: &[Measure],
    distinct: bool,
    arguments: &[TermId],
) -> Result<bool, AllocError>
    requires numbers { All (λ i. i < length measures.now) arguments.now }
    requires right { AreMeasures table.now measures.now }
    ensures { IfOk result (λ fit. fit ≡ each_two distinct is_word_pair (terms_at table.now arguments.now)) }
{
    let mut left = arguments.len();
    let mut all = true;
    let mut behind = Behind {
        sides: true,
        shorts: true,
        none: true,
    };
    while left > 0 {
        left -= 1;
        let side = side_of(alloc, table, measures, arguments[left])?;
        let fits = fits_row(side, behind);
        all = fits & all;
        behind = with_side(distinct, side, behind);
    }
    Ok(all)
}

/// Whether a part and the whole of which it is said to be one fit: one of them is a word, the part within the limit or
/// else the whole of 1,000 characters at most, and in the other one each constant stands once. That one alone is gone
/// over.
pub(crate) fn fit_part(
    alloc: Global,
    table: &Table,
    measures: &[Measure],
    part: TermId,
    whole: TermId,
) -> Result<bool, AllocError>
    requires part { part < length measures.now }
    requires whole { whole < length measures.now }
    requires right { AreMeasures table.now measures.now }
    ensures { IfOk result
        (λ fit. fit ≡ is_affix_pair (term_at table.now part) (term_at table.now whole)) }
{
    if is_short_word(measures[part.number()]) {
        return is_single(alloc, table, measures, whole);
    }
    if is_whole_word(measures[whole.number()]) {
        return is_single(alloc, table, measures, part);
    }
    Ok(false)
}
