//! The clauses that are listed under a literal.

ghost use Rattle.std.specs.Prelude.{◌≡◌, ◌<◌, ℕ, map, length, slice_index_or, Option, Some, None, is_some, IfSome, true};
ghost use Rattle.std.specs.List.{list_any};
ghost use Rattle.std.specs.HashSet.{contains};
ghost use Rattle.indexmap.specs.IndexMap.{spare};
ghost use Rattle.sb_lit.specs.declared.clause.Lit.{Lit};
ghost use Rattle.sb_lit.specs.Kept.{Kept, kept_at};
ghost use Rattle.sb_hints.specs.Listing.{are_equal, IsPlace, IsBelow, AreLinked, AreListed, on_list, last_of, last_at, passes_in, put_at, passed_at, begun_at};
ghost use Rattle.sb_hints.specs.Storing.{before_of, row_at, AreSame, AreWithin, kept_in};

use crate::rows::{Row, lead, literals_of, set_behind};
use crate::sets::has_all;
use indexmap::IndexMap;
use sb_lit::Lit;
use std::collections::HashSet;

/// The kept clauses that are listed under one literal: the newest one, from which each leads to the one before it, and
/// how many they are.
#[derive(Clone, Copy)]
pub(crate) struct Listed {
    pub(crate) last: Option<usize>,
    pub(crate) count: usize,
}

/// The newest clause that is listed under a literal.
pub(crate) fn last_of(lists: &IndexMap<Lit, Listed>, literal: Lit) -> Option<usize>
    ensures { result ≡ last_of lists.now literal }
{
    match lists.get(&literal) {
        Some(list) => list.last,
        None => None,
    }
}

/// The newest clause that is listed under a literal, or under none.
pub(crate) fn last_at(
    lists: &IndexMap<Lit, Listed>,
    bare: Option<usize>,
    place: Option<Lit>,
) -> Option<usize>
    ensures { result ≡ last_at lists.now bare place }
{
    match place {
        Some(literal) => last_of(lists, literal),
        None => bare,
    }
}

/// How many clauses are listed under a literal.
fn count_of(lists: &IndexMap<Lit, Listed>, literal: Lit) -> usize {
    match lists.get(&literal) {
        Some(list) => list.count,
        None => 0,
    }
}

/// The literal of a clause under which the fewest clauses are listed, `None` where the clause has none.
pub(crate) fn rarest(lists: &IndexMap<Lit, Listed>, clause: &[Lit]) -> Option<Lit>
    ensures { IsPlace clause.now result }
{
    let mut best = None;
    let mut fewest = usize::MAX;
    for literal in clause {
        let count = count_of(lists, *literal);
        if best.is_none() || count < fewest {
            best = Some(*literal);
            fewest = count;
        }
    }
    best
}

/// Lists a clause under a literal, or under none.
pub(crate) fn put(
    lists: &mut IndexMap<Lit, Listed>,
    bare: &mut Option<usize>,
    place: Option<Lit>,
    number: usize,
)
    requires { 0 < spare lists.old }
    ensures { (q : Option Lit) → last_at lists.new bare.new q
        ≡ put_at place number (last_at lists.old bare.old) q }
{
    match place {
        Some(literal) => {
            let count = count_of(lists, literal).saturating_add(1);
            let list = Listed {
                last: Some(number),
                count,
            };
            lists.insert(literal, list).unwrap();
        }
        None => *bare = Some(number),
    }
}

/// Where a list begins with this clause, the one before it.
fn passed(newest: Option<usize>, number: usize, before: Option<usize>) -> Option<usize>
    ensures { result ≡ passed_at number before newest }
{
    match newest {
        Some(newest) => {
            if newest == number {
                before
            } else {
                Some(newest)
            }
        }
        None => None,
    }
}

/// Takes a clause off the list of a literal, or off that of none, where it is the newest one there.
fn begin_before(
    lists: &mut IndexMap<Lit, Listed>,
    bare: &mut Option<usize>,
    place: Option<Lit>,
    number: usize,
    before: Option<usize>,
)
    ensures { (q : Option Lit) → last_at lists.new bare.new q
        ≡ begun_at place number before (last_at lists.old bare.old) q }
{
    match place {
        Some(literal) => {
            let Some(list) = lists.get(&literal) else {
                return;
            };
            let shorter = Listed {
                last: passed(list.last, number, before),
                count: list.count.saturating_sub(1),
            };
            lists.insert(literal, shorter).unwrap();
        }
        None => *bare = passed(*bare, number, before),
    }
}

/// Whether a clause leads to another one.
fn is_led(rows: &[Row], newer: usize, number: usize) -> bool
    ensures { result ≡ true → (newer < length rows.now) × ((row_at rows.now newer).before ≡ Some number) }
{
    if newer >= rows.len() {
        return false;
    }
    match rows[newer].before {
        Some(before) => before == number,
        None => false,
    }
}

/// Leads from the clause behind this one to the one before it, where it leads to this one.
fn pass_over(rows: &mut Vec<Row>, behind: Option<usize>, number: usize, before: Option<usize>)
    ensures same { AreSame rows.old.items rows.new.items }
    ensures listed { (kept : Kept) → kept_at kept number ≡ None
        → slice_index_or (map before_of rows.old.items) number None ≡ before
        → (lists : Option Lit → Option ℕ) → AreListed kept (map before_of rows.old.items) lists
        → AreListed kept (map before_of rows.new.items) lists }
{
    let Some(newer) = behind else {
        return;
    };
    if is_led(rows, newer, number) {
        lead(rows, newer, before);
    }
}

/// Takes a clause that is dropped off its list. Constant time.
pub(crate) fn take_off(
    rows: &mut Vec<Row>,
    lists: &mut IndexMap<Lit, Listed>,
    bare: &mut Option<usize>,
    number: usize,
)
    requires { number < length rows.old.items }
    ensures same { AreSame rows.old.items rows.new.items }
    ensures listed { (kept : Kept) → kept_at kept number ≡ None
        → AreListed kept (map before_of rows.old.items) (last_at lists.old bare.old)
        → AreListed kept (map before_of rows.new.items) (last_at lists.new bare.new) }
{
    let row = rows[number];
    begin_before(lists, bare, row.place, number, row.before);
    pass_over(rows, row.behind, number, row.before);
    set_behind(rows, row.before, row.behind);
}

/// The clause that was listed before another one.
fn before(rows: &[Row], number: usize) -> Option<usize>
    requires { number < length rows.now }
    ensures { result ≡ slice_index_or (map before_of rows.now) number None }
{
    rows[number].before
}

/// Whether the clause is kept, and has only literals of the set.
fn is_part(rows: &[Row], literals: &[Lit], number: usize, all: &HashSet<Lit>) -> bool
    requires within { AreWithin literals.now rows.now }
    requires inside { number < length rows.now }
    ensures { result ≡ passes_in (contains are_equal all.now) (kept_in literals.now rows.now) number }
{
    let row = rows[number];
    row.is_kept && has_all(all, literals_of(literals, row))
}

/// A clause of a list that is kept, and has only literals of the set. Looks at each clause of the list at most once.
pub(crate) fn find_part(
    rows: &[Row],
    literals: &[Lit],
    newest: Option<usize>,
    all: &HashSet<Lit>,
) -> Option<usize>
    requires within { AreWithin literals.now rows.now }
    requires linked { AreLinked (map before_of rows.now) }
    requires below { IsBelow (length rows.now) newest }
    ensures found { is_some result ≡ on_list (passes_in (contains are_equal all.now) (kept_in literals.now rows.now))
        (map before_of rows.now) (length rows.now) newest }
    ensures passes { IfSome result
        (λ k. passes_in (contains are_equal all.now) (kept_in literals.now rows.now) k ≡ true) }
{
    let mut next = newest;
    while let Some(number) = next {
        if is_part(rows, literals, number, all) {
            return Some(number);
        }
        next = before(rows, number);
    }
    None
}

/// A clause that is listed under one of the literals and has only literals of the set.
pub(crate) fn find_part_under(
    rows: &[Row],
    literals: &[Lit],
    lists: &IndexMap<Lit, Listed>,
    clause: &[Lit],
    all: &HashSet<Lit>,
) -> Option<usize>
    requires within { AreWithin literals.now rows.now }
    requires linked { AreLinked (map before_of rows.now) }
    requires below { (l : Lit) → IsBelow (length rows.now) (last_of lists.now l) }
    ensures found { is_some result ≡ list_any (λ l. on_list
        (passes_in (contains are_equal all.now) (kept_in literals.now rows.now))
        (map before_of rows.now) (length rows.now) (last_of lists.now l)) clause.now }
    ensures passes { IfSome result
        (λ k. passes_in (contains are_equal all.now) (kept_in literals.now rows.now) k ≡ true) }
{
    for literal in clause {
        let newest = last_of(lists, *literal);
        let found = find_part(rows, literals, newest, all);
        if found.is_some() {
            return found;
        }
    }
    None
}
