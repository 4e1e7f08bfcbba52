//! What assertions demand of the words of constants.

ghost use Rattle.std.specs.Prelude.{◌≡◌, ◌<◌, true, length, None, Some, IfOk, IfSome, MatchOption};
ghost use Rattle.sb_script.specs.Brought.{asked, is_regex};
ghost use Rattle.sb_script.specs.Fragment.{fits};
ghost use Rattle.sb_script.specs.Sizes.{is_regular};
ghost use Rattle.sb_term.specs.Numbered.{term_at};
ghost use Rattle.sb_problem.specs.Normals.{IsNumberOf, IsRegexOf};
ghost use Rattle.sb_problem.specs.Patterns.{number_of, pattern_in};
ghost use Rattle.sb_store.specs.Stores.{Grows, IsStoreOf};
ghost use Rattle.sb_decide.specs.Demands.{demanded, expression_in, negation_of};

use sb_fragment::membership;
use sb_problem::Pattern;
use sb_regex::RegexId;
use sb_store::{Store, regexes_grow};
use sb_term::{Serial, Symbol, Table, Term, TermId};
use std::alloc::AllocError;

/// What a term demands of the word of one constant, where it demands this alone.
#[derive(Clone, Copy)]
pub struct Demand {
    pub serial: Serial,
    /// What the word is to be in; where the demand is not positive, what it is not to be in.
    pub pattern: Pattern,
    pub positive: bool,
}

/// What a term demands of a constant's word alone: one that [`membership`] takes apart, or one of these denied. Takes
/// constant time and no memory.
pub fn demand_of(table: &Table, id: TermId) -> Option<Demand>
    requires { id < length table.now }
    ensures parts { MatchOption result (demanded (term_at table.now id) ≡ None)
        (λ d. demanded (term_at table.now id) ≡ Some (d.serial.0, expression_in table.now d)) }
    ensures limits { IfSome result
        (λ d. fits (term_at table.now id) ≡ is_regular (pattern_in table.now d.pattern)) }
    ensures smaller { IfSome result (λ d. number_of d.pattern < id) }
{
    if let Some(term) = denied(table, id) {
        let (serial, pattern) = membership(table, term)?;
        return Some(Demand {
            serial,
            pattern,
            positive: false,
        });
    }
    let (serial, pattern) = membership(table, id)?;
    Some(Demand {
        serial,
        pattern,
        positive: true,
    })
}

/// The argument of a term that is `not` of it.
fn denied(table: &Table, id: TermId) -> Option<TermId>
    requires { id < length table.now }
    ensures parts { MatchOption result
        (demanded (term_at table.now id) ≡ asked (term_at table.now id))
        (λ term. term_at table.now id ≡ negation_of (term_at table.now term)) }
    ensures smaller { IfSome result (λ term. term < id) }
{
    let Term::Apply(symbol, arguments) = table.term(id) else {
        return None;
    };
    let Symbol::Not = symbol else {
        return None;
    };
    let [term] = arguments.as_slice() else {
        return None;
    };
    Some(*term)
}

/// The regex that a constant's word is to be in, `None` exactly where the pattern is no regular expression over
/// literals. Its cost and its error are those of [`sb_problem::Normals::pattern`].
pub(crate) fn regex_of(
    table: &Table,
    store: &mut Store,
    demand: Demand,
) -> Result<Option<RegexId>, AllocError>
    requires number { number_of demand.pattern < length table.now }
    requires store { IsStoreOf table.now store.old }
    ensures number { IfOk result (λ found. IsNumberOf store.new.arena (expression_in table.now demand) found) }
    ensures store { Grows table.now store.old store.new }
{
    regexes_grow();
    let Some(id) = store
        .normals
        .pattern(table, &mut store.arena, demand.pattern)?
    else {
        return Ok(None);
    };
    if demand.positive {
        return Ok(Some(id));
    }
    let complement = store.arena.not(id)?;
    Ok(Some(complement))
}

/// The same, where the demand is for a word of a regular expression over words.
pub(crate) fn regular_of(
    table: &Table,
    store: &mut Store,
    demand: Demand,
) -> Result<RegexId, AllocError>
    requires number { number_of demand.pattern < length table.now }
    requires regular { is_regex (expression_in table.now demand) ≡ true }
    requires store { IsStoreOf table.now store.old }
    ensures number { IfOk result (λ id. IsRegexOf store.new.arena (expression_in table.now demand) id) }
    ensures store { Grows table.now store.old store.new }
{
    let found = regex_of(table, store, demand)?;
    match found {
        Some(id) => Ok(id),
        None => unreachable!(),
    }
}
