//! Assertions about one constant taken apart.

ghost use Rattle.std.specs.Prelude.{◌≡◌, ◌<◌, false, length, None, Some, MatchOption, IfSome};
ghost use Rattle.sb_script.specs.Brought.{asked};
ghost use Rattle.sb_term.specs.Numbered.{term_at};
ghost use Rattle.sb_problem.specs.Patterns.{number_of, pattern_in};
ghost use Rattle.sb_fragment.specs.Memberships.{equality, in_re, is_equality, is_in_re, are_sides, IsSides};
ghost use Rattle.sb_fragment.specs.Measures as meaning;

use sb_problem::{Pattern, constant_of};
use sb_term::{Serial, Symbol, Table, Term, TermId};

/// The two arguments of a term that is `str.in_re` of them. Takes constant time and no memory.
pub fn term_and_regex(table: &Table, id: TermId) -> Option<(TermId, TermId)>
    requires { id < length table.now }
    ensures parts { MatchOption result (is_in_re (term_at table.now id) ≡ false)
        (λ p. term_at table.now id ≡ in_re (term_at table.now p.0) (term_at table.now p.1)) }
    ensures smaller { IfSome result (λ p. (p.0 < id) × (p.1 < id)) }
{
    let Term::Apply(symbol, arguments) = table.term(id) else {
        return None;
    };
    let Symbol::StrInRe = symbol else {
        return None;
    };
    let [term, regex] = arguments.as_slice() else {
        return None;
    };
    Some((*term, *regex))
}

/// The two arguments of a term that is `=` of them.
fn sides_of(table: &Table, id: TermId) -> Option<(TermId, TermId)>
    requires { id < length table.now }
    ensures parts { MatchOption result (is_equality (term_at table.now id) ≡ false)
        (λ p. term_at table.now id ≡ equality (term_at table.now p.0) (term_at table.now p.1)) }
    ensures smaller { IfSome result (λ p. (p.0 < id) × (p.1 < id)) }
{
    let Term::Apply(symbol, arguments) = table.term(id) else {
        return None;
    };
    let Symbol::Equal = symbol else {
        return None;
    };
    let [one, other] = arguments.as_slice() else {
        return None;
    };
    Some((*one, *other))
}

/// Whether a term is the word of a literal.
fn is_literal(table: &Table, id: TermId) -> bool
    requires { id < length table.now }
    ensures { result ≡ meaning.is_literal (term_at table.now id) }
{
    matches!(table.term(id), Term::Word(_))
}

/// The constant and the word of an equality of the two, in this order.
fn constant_and_word(table: &Table, one: TermId, other: TermId) -> Option<(Serial, Pattern)>
    requires one { one < length table.now }
    requires other { other < length table.now }
    ensures parts { MatchOption result (are_sides (term_at table.now one) (term_at table.now other) ≡ false)
        (λ p. IsSides table.now one other p.0.0 p.1) }
{
    let serial = constant_of(table, one)?;
    if is_literal(table, other) {
        Some((serial, Pattern::Word(other)))
    } else {
        None
    }
}

/// The constant of a term that asks something of its word alone, and what it asks the word to be in: of the membership
/// of a String constant its regular expression, whatever that is, and of the equality of one with a literal the
/// literal's word. Takes constant time and no memory.
pub fn membership(table: &Table, id: TermId) -> Option<(Serial, Pattern)>
    requires { id < length table.now }
    ensures parts { MatchOption result (asked (term_at table.now id) ≡ None)
        (λ p. asked (term_at table.now id) ≡ Some (p.0.0, pattern_in table.now p.1)) }
    ensures smaller { IfSome result (λ p. number_of p.1 < id) }
{
    if let Some((term, regex)) = term_and_regex(table, id) {
        let serial = constant_of(table, term)?;
        return Some((serial, Pattern::Expression(regex)));
    }
    let (one, other) = sides_of(table, id)?;
    if let Some(found) = constant_and_word(table, one, other) {
        return Some(found);
    }
    constant_and_word(table, other, one)
}
