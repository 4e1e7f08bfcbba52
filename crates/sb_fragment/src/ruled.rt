//! The rules of the fragment that a term may break by its form: each constant stands once at most, and one side is
//! ground.

ghost use Rattle.std.specs.Prelude.{◌≡◌, ℕ, ◌<◌, true, nat_lt, [], length, All, IfOk};
ghost use Rattle.std.specs.List.{list_all};
ghost use Rattle.sb_term.specs.Descending.{AreReached, HaveParts};
ghost use Rattle.sb_term.specs.Numbered.{term_at, terms_at, AllNumbers};
ghost use Rattle.sb_script.specs.Fragment.{sort_of_first};
ghost use Rattle.sb_script.specs.Rules.{each_once, keeps, one_ground};
ghost use Rattle.sb_fragment.specs.Compared.{each_two};
ghost use Rattle.sb_fragment.specs.Measures.{AreMeasures};
ghost use Rattle.sb_fragment.specs.Ruled.{kept_here, place_compared, place_in, row_keeps, rule_in, ruled_parts, side_keeps};

use crate::measures::Measures;
use crate::shape::arguments_of;
use sb_term::{Sort, Symbol, Table, Term, TermId, put_all};
use std::alloc::{AllocError, Global};
use std::collections::BTreeSet;

/// A rule of memberships, of equalities of String terms, and of affixes.
#[derive(Clone, Copy, PartialEq, Eq)]
pub(crate) enum Law {
    /// Each constant stands once at most on a side.
    EachOnce,
    /// One side is ground.
    OneGround,
}

/// What a term is asked for such a rule.
#[derive(Clone, Copy, PartialEq, Eq)]
pub(crate) enum Place {
    /// Nothing: its arguments are asked.
    Nowhere,
    /// It is a membership.
    Membership,
    /// It compares String terms: each two where they are to be distinct, else each two neighbours. So does what says of
    /// one that it is a prefix, a suffix or a factor of the other.
    Words(bool),
}

/// What a comparison is asked, by the sort of the first of what is compared.
fn place_compared(table: &Table, distinct: bool, arguments: &[TermId]) -> Place
    requires { AllNumbers table.now arguments.now }
    ensures { result ≡ place_compared distinct (sort_of_first (terms_at table.now arguments.now)) }
{
    let [first, ..] = arguments else {
        return Place::Nowhere;
    };
    match table.sort(*first) {
        Sort::String => Place::Words(distinct),
        Sort::Bool | Sort::Int | Sort::RegLan => Place::Nowhere,
    }
}

/// What a term is asked.
fn place_of(table: &Table, id: TermId) -> Place
    requires { id < length table.now }
    ensures { result ≡ place_in (term_at table.now id) }
{
    let Term::Apply(symbol, arguments) = table.term(id) else {
        return Place::Nowhere;
    };
    match symbol {
        Symbol::Equal => place_compared(table, false, arguments.as_slice()),
        Symbol::Distinct => place_compared(table, true, arguments.as_slice()),
        Symbol::StrInRe => Place::Membership,
        Symbol::StrPrefixOf | Symbol::StrSuffixOf | Symbol::StrContains => Place::Words(false),
        _ => Place::Nowhere,
    }
}

/// The arguments of a term that are asked in its place.
fn ruled_parts(table: &Table, id: TermId) -> &[TermId]
    requires { id < length table.now }
    ensures terms { terms_at table.now result.now ≡ ruled_parts (term_at table.now id) }
    ensures below { All (λ i. i < id) result.now }
{
    match place_of(table, id) {
        Place::Nowhere => arguments_of(table, id),
        Place::Membership => &[],
        Place::Words(_) => &[],
    }
}

/// The terms that are asked of one, itself among them, each once, from the largest number down, so the arguments of
/// each stand behind it. Linear in them and their arguments, times a logarithm.
fn terms_ruled(alloc: Global, table: &Table, id: TermId) -> Result<Vec<TermId>, AllocError>
    requires { id < length table.now }
    ensures { IfOk result (λ ids. AreReached ruled_parts table.now id ids.items) }
{
    table.terms_each_once();
    let mut ids = Vec::new(alloc);
    let mut left = BTreeSet::new(alloc);
    left.insert(id)?;
    while let Some(next) = left.pop_last() {
        put_all(&mut left, ruled_parts(table, next))?;
        ids.push(next)?;
    }
    Ok(ids)
}

/// Whether a side of an equality is as a rule asks.
fn side_keeps(
    measures: &mut Measures,
    table: &Table,
    law: Law,
    id: TermId,
) -> Result<bool, AllocError>
    requires number { id < length table.now }
    requires right { AreMeasures table.now measures.old }
    ensures ok { IfOk result (λ kept. kept ≡ side_keeps law (term_at table.now id)) }
    ensures right { AreMeasures table.now measures.new }
{
    match law {
        Law::EachOnce => measures.has_each_once(table, id),
        Law::OneGround => {
            let measure = measures.measure(table, id)?;
            Ok(measure.is_ground)
        }
    }
}

/// Whether a side keeps a rule with all behind it, by whether it is as asked, each of those is, and there is none.
fn row_keeps(law: Law, one: bool, behind: bool, none: bool) -> bool
    ensures { result ≡ row_keeps law one behind none }
{
    match law {
        Law::EachOnce => none || (one && behind),
        Law::OneGround => one || behind,
    }
}

/// Whether each constant stands once at most in the String term of a membership.
fn member_once(
    measures: &mut Measures,
    table: &Table,
    arguments: &[TermId],
) -> Result<bool, AllocError>
    requires numbers { AllNumbers table.now arguments.now }
    requires right { AreMeasures table.now measures.old }
    ensures ok { IfOk result (λ kept. kept ≡ each_once.of_membership (terms_at table.now arguments.now)) }
    ensures right { AreMeasures table.now measures.new }
{
    let [term, ..] = arguments else {
        return Ok(true);
    };
    let once = measures.has_each_once(table, *term)?;
    Ok(once)
}

/// Whether the regular expression of a membership is without constants.
fn member_over(
    measures: &mut Measures,
    table: &Table,
    arguments: &[TermId],
) -> Result<bool, AllocError>
    requires numbers { AllNumbers table.now arguments.now }
    requires right { AreMeasures table.now measures.old }
    ensures ok { IfOk result (λ kept. kept ≡ one_ground.of_membership (terms_at table.now arguments.now)) }
    ensures right { AreMeasures table.now measures.new }
{
    let [_, regex] = arguments else {
        return Ok(true);
    };
    let measure = measures.measure(table, *regex)?;
    Ok(measure.is_ground)
}

/// Whether a membership keeps a rule.
fn keep_member(
    measures: &mut Measures,
    table: &Table,
    law: Law,
    arguments: &[TermId],
) -> Result<bool, AllocError>
    requires numbers { AllNumbers table.now arguments.now }
    requires right { AreMeasures table.now measures.old }
    ensures ok { IfOk result (λ kept. kept ≡ (rule_in law).of_membership (terms_at table.now arguments.now)) }
    ensures right { AreMeasures table.now measures.new }
{
    match law {
        Law::EachOnce => member_once(measures, table, arguments),
        Law::OneGround => member_over(measures, table, arguments),
    }
}

/// Whether String terms that are compared keep a rule. Linear in their number.
fn keep_words(
    measures: &mut Measures,
    table: &Table,
    law: Law,
    distinct: bool,
    arguments: &[TermId],
) -> Result<bool, AllocError>
    requires numbers { AllNumbers table.now arguments.now }
    requires right { AreMeasures table.now measures.old }
    ensures ok { IfOk result
        (λ kept. kept ≡ each_two distinct (rule_in law).of_pair (terms_at table.now arguments.now)) }
    ensures right { AreMeasures table.now measures.new }
{
    let mut left = arguments.len();
    let mut all = true;
    let mut behind = true;
    let mut none = true;
    while left > 0 {
        left -= 1;
        let one = side_keeps(measures, table, law, arguments[left])?;
        let row = row_keeps(law, one, behind, none);
        all = row & all;
        behind = one & (!distinct | behind);
        none = false;
    }
    Ok(all)
}

/// Whether a term keeps a rule by what it is asked itself.
fn kept_here(
    measures: &mut Measures,
    table: &Table,
    law: Law,
    id: TermId,
) -> Result<bool, AllocError>
    requires number { id < length table.now }
    requires right { AreMeasures table.now measures.old }
    ensures ok { IfOk result (λ kept. kept ≡ kept_here (rule_in law) (term_at table.now id)) }
    ensures right { AreMeasures table.now measures.new }
{
    match place_of(table, id) {
        Place::Nowhere => Ok(true),
        Place::Membership => keep_member(measures, table, law, arguments_of(table, id)),
        Place::Words(distinct) => {
            keep_words(measures, table, law, distinct, arguments_of(table, id))
        }
    }
}

/// Whether each of these terms keeps a rule by what it is asked itself, where the arguments of each stand behind it.
fn keep_each(
    measures: &mut Measures,
    table: &Table,
    law: Law,
    ids: &[TermId],
) -> Result<bool, AllocError>
    requires numbers { list_all (λ i. nat_lt i (length table.now)) ids.now ≡ true }
    requires parts { HaveParts ruled_parts table.now ids.now [] }
    requires right { AreMeasures table.now measures.old }
    ensures ok { IfOk result (λ kept. (root : ℕ) → AreReached ruled_parts table.now root ids.now
        → kept ≡ keeps (rule_in law) (term_at table.now root)) }
    ensures right { AreMeasures table.now measures.new }
{
    let mut place = ids.len();
    while place > 0 {
        place -= 1;
        let next = ids[place];
        let _parts = ruled_parts(table, next);
        let kept = kept_here(measures, table, law, next)?;
        if !kept {
            return Ok(false);
        }
    }
    Ok(true)
}

/// Whether a term keeps a rule, wherever something that the rule speaks of stands in it. Each term that it is made of
/// is asked once; that is linear in these and their arguments, times a logarithm, but that each side of an equality or
/// of an affix is gone over for constants, up to the first that stands twice.
pub(crate) fn keeps(
    measures: &mut Measures,
    table: &Table,
    law: Law,
    id: TermId,
) -> Result<bool, AllocError>
    requires number { id < length table.now }
    requires right { AreMeasures table.now measures.old }
    ensures ok { IfOk result (λ kept. kept ≡ keeps (rule_in law) (term_at table.now id)) }
    ensures right { AreMeasures table.now measures.new }
{
    let ids = terms_ruled(measures.allocator(), table, id)?;
    let kept = keep_each(measures, table, law, &ids)?;
    Ok(kept)
}
