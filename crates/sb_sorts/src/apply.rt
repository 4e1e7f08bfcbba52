//! Heads with their arguments.

ghost use Rattle.std.specs.Prelude.{◌≡◌, ℕ, ◌<◌, true, [], ◌∷◌, map, length, None, IfOk, MatchResult};
ghost use Rattle.std.specs.List.{list_all};
ghost use Rattle.sb_script.specs.Heads as meaning;
ghost use Rattle.sb_meaning.specs.Sorts as theory;
ghost use Rattle.sb_meaning.specs.Terms.{constant, word};
ghost use Rattle.sb_meaning.specs.Terms as terms;
ghost use Rattle.sb_term.specs.Numbered.{term_at, terms_at, AllNumbers};
ghost use Rattle.sb_term.specs.Symbols.{sort_in, symbol_in};
ghost use Rattle.sb_sorts.specs.Growth.{Grows};
ghost use Rattle.sb_sorts.specs.Heads.{arity_in, head_in, head_below, has_number_below};
ghost use Rattle.sb_sorts.specs.Reads.{ReadsAs, Faults};

use crate::character::Character;
use crate::head::Head;
use crate::read::ReadFault;
use crate::scope::Definition;
use crate::unfold::unfolded;
use sb_term::{Serial, Sort, Symbol, Table, Term, TermId};
use smallvec::SmallVec;
use std::alloc::{AllocError, Global};

/// How many arguments a symbol takes, and of which sorts.
#[derive(Clone, Copy)]
pub(crate) enum Arity {
    /// One of each of these sorts, in order.
    OfEach(&'static [Sort]),
    /// So many of this sort, or more.
    OrMore(usize, Sort),
    /// Two or more, all of one sort.
    OfOneSort,
    /// A truth value, and two of one sort.
    Choice,
}

/// The arguments that a symbol takes.
fn arity_of(symbol: Symbol) -> Arity
    ensures { arity_in result ≡ theory.arity_of (symbol_in symbol) }
{
    match symbol {
        Symbol::True | Symbol::False => Arity::OfEach(&[]),
        Symbol::Not => Arity::OfEach(&[Sort::Bool]),
        Symbol::And | Symbol::Or => Arity::OrMore(1, Sort::Bool),
        Symbol::Implies | Symbol::Xor => Arity::OrMore(2, Sort::Bool),
        Symbol::Ite => Arity::Choice,
        Symbol::Equal | Symbol::Distinct => Arity::OfOneSort,
        Symbol::AtMost | Symbol::Less | Symbol::AtLeast | Symbol::Greater => {
            Arity::OrMore(2, Sort::Int)
        }
        Symbol::Plus | Symbol::Times | Symbol::Minus => Arity::OrMore(1, Sort::Int),
        Symbol::StrConcat => Arity::OrMore(1, Sort::String),
        Symbol::StrLen | Symbol::StrToRe => Arity::OfEach(&[Sort::String]),
        Symbol::StrInRe => Arity::OfEach(&[Sort::String, Sort::RegLan]),
        Symbol::StrPrefixOf | Symbol::StrSuffixOf | Symbol::StrContains | Symbol::ReRange => {
            Arity::OfEach(&[Sort::String, Sort::String])
        }
        Symbol::ReNone | Symbol::ReAll | Symbol::ReAllChar => Arity::OfEach(&[]),
        Symbol::ReConcat | Symbol::ReUnion | Symbol::ReInter => Arity::OrMore(1, Sort::RegLan),
        Symbol::ReDiff => Arity::OrMore(2, Sort::RegLan),
        Symbol::ReStar
        | Symbol::RePlus
        | Symbol::ReOpt
        | Symbol::ReComp
        | Symbol::RePower(_)
        | Symbol::ReLoop(..) => Arity::OfEach(&[Sort::RegLan]),
    }
}

/// Whether so many arguments are taken.
fn is_count(arity: Arity, count: usize) -> bool
    ensures { result ≡ theory.is_count (arity_in arity) count }
{
    match arity {
        Arity::OfEach(sorts) => sorts.len() == count,
        Arity::OrMore(least, _) => least <= count,
        Arity::OfOneSort => 2 <= count,
        Arity::Choice => count == 3,
    }
}

fn is_same_sort(sort: Sort, other: Sort) -> bool
    ensures { result ≡ theory.is_same_sort (sort_in sort) (sort_in other) }
{
    sort == other
}

/// Whether the sorts are these, as many as there are.
fn are_sorts(wanted: &[Sort], sorts: &[Sort]) -> bool
    requires { length wanted.now ≡ length sorts.now }
    ensures { result ≡ theory.are_sorts (map sort_in wanted.now) (map sort_in sorts.now) }
{
    wanted
        .iter()
        .zip(sorts.iter())
        .all(|(sort, other)| is_same_sort(*sort, *other))
}

/// Whether each of the sorts is this one.
fn are_all(sort: Sort, sorts: &[Sort]) -> bool
    ensures { result ≡ list_all (theory.is_same_sort (sort_in sort)) (map sort_in sorts.now) }
{
    sorts.iter().all(|other| is_same_sort(sort, *other))
}

/// Whether the sorts are all one.
fn are_one_sort(sorts: &[Sort]) -> bool
    ensures { result ≡ theory.are_one_sort (map sort_in sorts.now) }
{
    match sorts {
        [first, others @ ..] => are_all(*first, others),
        [] => true,
    }
}

/// Whether the sorts are a truth value's and two of one.
fn is_choice(sorts: &[Sort]) -> bool
    ensures { result ≡ theory.is_choice (map sort_in sorts.now) }
{
    match sorts {
        [test, one, other] => is_same_sort(Sort::Bool, *test) && is_same_sort(*one, *other),
        _ => false,
    }
}

/// Whether arguments of these sorts are taken, as many as there are.
fn takes_sorts(arity: Arity, sorts: &[Sort]) -> bool
    requires { theory.is_count (arity_in arity) (length sorts.now) ≡ true }
    ensures { result ≡ theory.takes_sorts (arity_in arity) (map sort_in sorts.now) }
{
    match arity {
        Arity::OfEach(wanted) => are_sorts(wanted, sorts),
        Arity::OrMore(_, sort) => are_all(sort, sorts),
        Arity::OfOneSort => are_one_sort(sorts),
        Arity::Choice => is_choice(sorts),
    }
}

/// Whether the first of the sorts is the one of regular expressions.
fn begins_with_reglan(sorts: &[Sort]) -> bool
    ensures { result ≡ theory.is_left_out_use theory.of_one_sort (map sort_in sorts.now) }
{
    match sorts {
        [first, ..] => is_same_sort(Sort::RegLan, *first),
        [] => false,
    }
}

/// Whether the second of the sorts is another than the one of truth values.
fn chooses_no_truth(sorts: &[Sort]) -> bool
    ensures { result ≡ theory.is_left_out_use theory.choice (map sort_in sorts.now) }
{
    match sorts {
        [_, second, ..] => !is_same_sort(Sort::Bool, *second),
        _ => false,
    }
}

/// Whether arguments of these sorts are taken by the theories and left out here.
fn is_left_out_use(arity: Arity, sorts: &[Sort]) -> bool
    ensures { result ≡ theory.is_left_out_use (arity_in arity) (map sort_in sorts.now) }
{
    match arity {
        Arity::OfOneSort => begins_with_reglan(sorts),
        Arity::Choice => chooses_no_truth(sorts),
        Arity::OfEach(_) | Arity::OrMore(..) => false,
    }
}

/// Whether the symbol makes of one argument the argument itself.
fn is_of_one(symbol: Symbol) -> bool
    ensures { result ≡ theory.is_of_one (symbol_in symbol) }
{
    matches!(
        symbol,
        Symbol::And
            | Symbol::Or
            | Symbol::Plus
            | Symbol::Times
            | Symbol::StrConcat
            | Symbol::ReConcat
            | Symbol::ReUnion
            | Symbol::ReInter
    )
}

/// The sorts of terms. Linear.
fn sorts_of(alloc: Global, table: &Table, ids: &[TermId]) -> Result<Vec<Sort>, AllocError>
    requires { AllNumbers table.now ids.now }
    ensures { IfOk result (λ sorts. map sort_in sorts.items ≡ map theory.sort_of (terms_at table.now ids.now)) }
{
    let mut sorts = Vec::with_capacity(alloc, ids.len())?;
    for id in ids {
        sorts.push(table.sort(*id))?;
    }
    Ok(sorts)
}

/// The term of a symbol with its arguments.
fn made(table: &mut Table, symbol: Symbol, ids: SmallVec<TermId, 4>) -> Result<TermId, AllocError>
    requires { AllNumbers table.old ids.items }
    ensures value { IfOk result (λ id. term_at table.new id ≡ meaning.made (symbol_in symbol)
        (terms_at table.old ids.items)) }
    ensures number { IfOk result (λ id. id < length table.new) }
    ensures grows { (n : ℕ) → Grows n table.old table.new }
{
    if is_of_one(symbol) && ids.len() == 1 {
        Ok(ids[0])
    } else {
        table.add(Term::Apply(symbol, ids))
    }
}

/// The term of a constant.
fn constant(table: &mut Table, serial: Serial, sort: Sort) -> Result<TermId, AllocError>
    ensures value { IfOk result (λ id. term_at table.new id ≡ constant serial.0 (sort_in sort)) }
    ensures number { IfOk result (λ id. id < length table.new) }
    ensures grows { (n : ℕ) → serial.0 < n → Grows n table.old table.new }
{
    table.add(Term::Constant(serial, sort))
}

/// The word of a character.
fn character(alloc: Global, table: &mut Table, character: Character) -> Result<TermId, AllocError>
    ensures value { IfOk result (λ id. term_at table.new id ≡ word (character.code ∷ [])) }
    ensures number { IfOk result (λ id. id < length table.new) }
    ensures grows { (n : ℕ) → Grows n table.old table.new }
{
    table.add(Term::Word(vec![in alloc; character.code]?))
}

/// A symbol with arguments. The number is judged before the sorts, and what is left out behind both.
fn symbol_applied(
    alloc: Global,
    table: &mut Table,
    symbol: Symbol,
    ids: SmallVec<TermId, 4>,
) -> Result<TermId, ReadFault>
    requires { AllNumbers table.old ids.items }
    ensures reads { ReadsAs table.new
        (meaning.applied_to (meaning.head_symbol (symbol_in symbol)) (terms_at table.old ids.items)) result }
    ensures grows { (n : ℕ) → Grows n table.old table.new }
{
    let arity = arity_of(symbol);
    if !is_count(arity, ids.len()) {
        return Err(ReadFault::WrongCount);
    }
    let sorts = sorts_of(alloc, table, &ids)?;
    if !takes_sorts(arity, &sorts) {
        Err(ReadFault::WrongSort)
    } else if is_left_out_use(arity, &sorts) {
        Err(ReadFault::Unsupported)
    } else {
        Ok(made(table, symbol, ids)?)
    }
}

/// Whether a definition takes arguments of these sorts, by its parameters', and why not. The number is judged first.
fn judge_definition(parameters: &[Sort], sorts: &[Sort]) -> Result<(), ReadFault>
    ensures { MatchResult result
        (λ _. meaning.judged_definition (map sort_in parameters.now) (map sort_in sorts.now) ≡ None)
        (λ fault. (t : terms.Term) → Faults (meaning.unless (meaning.judged_definition (map sort_in parameters.now)
        (map sort_in sorts.now)) t) fault) }
{
    if parameters.len() != sorts.len() {
        Err(ReadFault::WrongCount)
    } else if are_sorts(parameters, sorts) {
        Ok(())
    } else {
        Err(ReadFault::WrongSort)
    }
}

/// A definition with arguments.
fn definition_applied(
    alloc: Global,
    table: &mut Table,
    definition: &Definition,
    ids: &[TermId],
) -> Result<TermId, ReadFault>
    requires body { definition.now.body < length table.old }
    requires numbers { AllNumbers table.old ids.now }
    ensures reads { ReadsAs table.new (meaning.applied_to (meaning.head_definition (map sort_in definition.now.sorts)
        (term_at table.old definition.now.body)) (terms_at table.old ids.now)) result }
    ensures grows { (n : ℕ) → Grows n table.old table.new }
{
    let sorts = sorts_of(alloc, table, ids)?;
    judge_definition(&definition.sorts, &sorts)?;
    Ok(unfolded(alloc, table, definition.body, ids)?)
}

/// A head with its arguments.
pub(crate) fn applied_to(
    alloc: Global,
    table: &mut Table,
    head: Head<'_>,
    ids: SmallVec<TermId, 4>,
) -> Result<TermId, ReadFault>
    requires head { has_number_below (length table.old) head ≡ true }
    requires numbers { AllNumbers table.old ids.items }
    ensures reads { ReadsAs table.new (meaning.applied_to (head_in table.old head.entry) (terms_at table.old ids.items))
        result }
    ensures grows { (n : ℕ) → head_below n head.entry ≡ true → Grows n table.old table.new }
{
    match head {
        Head::Constant(serial, sort) if ids.is_empty() => Ok(constant(table, serial, sort)?),
        Head::Character(code) if ids.is_empty() => Ok(character(alloc, table, code)?),
        Head::Bound(id) if ids.is_empty() => Ok(id),
        Head::Constant(..) | Head::Character(_) | Head::Bound(_) => Err(ReadFault::WrongCount),
        Head::Symbol(symbol) => symbol_applied(alloc, table, symbol, ids),
        Head::Definition(definition) => definition_applied(alloc, table, definition, &ids),
    }
}
