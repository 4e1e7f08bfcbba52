//! Definitions unfolded: bodies with arguments in the places of their parameters, by the numbers of terms.

ghost use Rattle.std.specs.Prelude.{◌≡◌, ℕ, ◌<◌, [], map, length, slice_get, unwrap_or, All, IfOk, OnOk};
ghost use Rattle.sb_script.specs.Heads.{with_arguments};
ghost use Rattle.sb_term.specs.Numbered.{term_at, terms_at, AllNumbers};
ghost use Rattle.sb_term.specs.Descending.{AreReached, Puts};
ghost use Rattle.sb_sorts.specs.Growth.{Grows};
ghost use Rattle.sb_sorts.specs.Unfolding.{arguments_in, open_parts, open_numbers, AreOpen, next_in, IsMadeAs, HasNext, AreMadeOf};

use sb_term::{Table, Term, TermId, put_all};
use smallvec::SmallVec;
use std::alloc::{AllocError, Global};
use std::collections::{BTreeMap, BTreeSet};

/// The arguments of a term, none where it is no symbol with arguments.
fn arguments_of(table: &Table, id: TermId) -> &[TermId]
    requires { id < length table.now }
    ensures terms { terms_at table.now result.now ≡ arguments_in (term_at table.now id) }
    ensures below { All (λ i. i < id) result.now }
{
    match table.term(id) {
        Term::Apply(_, arguments) => arguments.as_slice(),
        _ => &[],
    }
}

/// Puts the arguments in which parameters stand among those that are left.
fn put_open(left: &mut BTreeSet<TermId>, table: &Table, ids: &[TermId]) -> Result<(), AllocError>
    requires { AllNumbers table.now ids.now }
    ensures { OnOk result (Puts left.old.keys (open_numbers table.now ids.now) left.new.keys) }
{
    for id in ids {
        if !table.is_open(*id) {
            continue;
        }
        put_all(left, &[*id])?;
    }
    Ok(())
}

/// The terms in which parameters stand that a body is made of, itself among them, each once, from the largest number
/// down, so the arguments of each stand behind it. Linear in them and their arguments, times a logarithm: what has no
/// parameters is not gone into.
fn open_terms(alloc: Global, table: &Table, body: TermId) -> Result<Vec<TermId>, AllocError>
    requires { body < length table.now }
    ensures { IfOk result (λ ids. AreReached open_parts table.now body ids.items) }
{
    table.terms_each_once();
    let mut ids = Vec::new(alloc);
    let mut left = BTreeSet::new(alloc);
    left.insert(body)?;
    while let Some(next) = left.pop_last() {
        put_open(&mut left, table, arguments_of(table, next))?;
        ids.push(next)?;
    }
    Ok(ids)
}

/// The number that a term has with arguments, as far as it is known: its own where it is not.
fn next_of(made: &BTreeMap<TermId, TermId>, id: TermId) -> TermId
    ensures { result ≡ next_in made.now.entries id }
{
    match made.get(&id) {
        Some(next) => *next,
        None => id,
    }
}

/// The numbers that terms have with arguments.
fn moved(
    alloc: Global,
    made: &BTreeMap<TermId, TermId>,
    ids: &[TermId],
) -> Result<SmallVec<TermId, 4>, AllocError>
    ensures { IfOk result (λ found. found.items ≡ map (next_in made.now.entries) ids.now) }
{
    let mut found = SmallVec::new(alloc);
    for id in ids {
        found.push(next_of(made, *id))?;
    }
    Ok(found)
}

/// The argument in the place of a parameter, the parameter itself where there is none.
fn argument_at(given: &[TermId], place: u32, parameter: TermId) -> TermId
    ensures { result ≡ unwrap_or (slice_get given.now place) parameter }
{
    match given.get(place as usize) {
        Some(id) => *id,
        None => parameter,
    }
}

/// Makes a term anew, whose arguments are made.
fn remade(
    alloc: Global,
    table: &mut Table,
    made: &BTreeMap<TermId, TermId>,
    given: &[TermId],
    id: TermId,
) -> Result<TermId, AllocError>
    requires id { id < length table.old }
    requires given { AllNumbers table.old given.now }
    requires parts { HasNext table.old (terms_at table.old given.now) made.now.entries id }
    ensures value { IfOk result (λ next. IsMadeAs table.old table.new (terms_at table.old given.now) id next) }
    ensures grows { (n : ℕ) → Grows n table.old table.new }
{
    match table.term(id) {
        Term::Parameter(place, _) => Ok(argument_at(given, *place, id)),
        Term::Apply(symbol, arguments) => {
            let symbol = *symbol;
            let ids = moved(alloc, made, arguments.as_slice())?;
            table.add(Term::Apply(symbol, ids))
        }
        _ => Ok(id),
    }
}

/// Makes terms anew, from the last one, which has the smallest number, to the first.
fn remake_all(
    alloc: Global,
    table: &mut Table,
    made: &mut BTreeMap<TermId, TermId>,
    given: &[TermId],
    ids: &[TermId],
) -> Result<(), AllocError>
    requires given { AllNumbers table.old given.now }
    requires none { made.old.entries ≡ [] }
    requires ids { AreOpen table.old ids.now }
    ensures all { OnOk result (AreMadeOf table.old table.new (terms_at table.old given.now) made.new.entries ids.now) }
    ensures grows { (n : ℕ) → Grows n table.old table.new }
{
    let mut place = ids.len();
    while place > 0 {
        place -= 1;
        let id = ids[place];
        let next = remade(alloc, table, made, given, id)?;
        made.insert(id, next)?;
    }
    Ok(())
}

/// The body of a definition with arguments in the places of its parameters. What has no parameters keeps its number:
/// linear in the terms of the body that have some and in their arguments, each once, times a logarithm; constant where
/// the body has none.
pub(crate) fn unfolded(
    alloc: Global,
    table: &mut Table,
    body: TermId,
    given: &[TermId],
) -> Result<TermId, AllocError>
    requires body { body < length table.old }
    requires given { AllNumbers table.old given.now }
    ensures value { IfOk result (λ id. term_at table.new id
        ≡ with_arguments (terms_at table.old given.now) (term_at table.old body)) }
    ensures number { IfOk result (λ id. id < length table.new) }
    ensures grows { (n : ℕ) → Grows n table.old table.new }
{
    if !table.is_open(body) {
        return Ok(body);
    }
    let ids = open_terms(alloc, table, body)?;
    let mut made = BTreeMap::new(alloc);
    remake_all(alloc, table, &mut made, given, &ids)?;
    Ok(next_of(&made, body))
}
