//! Where the literals of the clauses stand.

ghost use Rattle.std.specs.Prelude.{◌≡◌, ◌<◌, length, map, slice_range, slice_set, List};
ghost use Rattle.sb_lit.specs.declared.clause.Lit.{Lit as TheLit};
ghost use Rattle.sb_hints.specs.Storing.{before_of, row_at, emptied, led_to, place_in, AreSame, IsWithin};
ghost use Rattle.sb_hints.specs.Dropping.{is_left, goes};

use sb_lit::Lit;

/// What is known of the clause of a number: its literals, from `start` up to `end` among those of all clauses, and where
/// it is listed.
#[derive(Clone, Copy)]
pub(crate) struct Row {
    pub(crate) start: usize,
    pub(crate) end: usize,
    pub(crate) level: u64,
    pub(crate) is_kept: bool,
    /// The literal under which it is listed, if it has literals.
    pub(crate) place: Option<Lit>,
    /// The clause that was listed there before it.
    pub(crate) before: Option<usize>,
    /// The clause that was listed there behind it. It is only asked whether it leads here.
    pub(crate) behind: Option<usize>,
}

/// The literals of the clause of a row.
pub(crate) fn literals_of(literals: &[Lit], row: Row) -> &[Lit]
    requires { IsWithin (length literals.now) row }
    ensures { result.now ≡ slice_range literals.now row.start row.end }
{
    &literals[row.start..row.end]
}

/// Whether a clause of a level goes where levels are left down to another one, or all are.
pub(crate) fn is_left(down_to: Option<u64>, level: u64) -> bool
    ensures { result ≡ is_left down_to level }
{
    match down_to {
        Some(last) => level > last,
        None => true,
    }
}

/// Whether there is a clause that goes.
pub(crate) fn goes(row: Row, down_to: Option<u64>) -> bool
    ensures { (literals : List TheLit) → result ≡ goes down_to (place_in literals row) }
{
    if row.is_kept {
        is_left(down_to, row.level)
    } else {
        false
    }
}

/// Drops the clause of a number.
pub(crate) fn empty(rows: &mut Vec<Row>, number: usize)
    requires { number < length rows.old.items }
    ensures { rows.new.items ≡ slice_set rows.old.items number (emptied (row_at rows.old.items number)) }
{
    rows[number].is_kept = false;
}

/// Leads from a clause to another one.
pub(crate) fn lead(rows: &mut Vec<Row>, number: usize, before: Option<usize>)
    requires { number < length rows.old.items }
    ensures { rows.new.items ≡ slice_set rows.old.items number (led_to before (row_at rows.old.items number)) }
{
    rows[number].before = before;
}

/// Says of a clause which one is listed behind it.
pub(crate) fn set_behind(rows: &mut Vec<Row>, number: Option<usize>, behind: Option<usize>)
    ensures same { AreSame rows.old.items rows.new.items }
    ensures before { map before_of rows.new.items ≡ map before_of rows.old.items }
{
    let Some(number) = number else {
        return;
    };
    if number < rows.len() {
        rows[number].behind = behind;
    }
}
