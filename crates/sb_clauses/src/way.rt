//! What a number of a watch list comes to.

ghost use Rattle.std.specs.Prelude.{◌≡◌, ◌<◌, List, length, true};
ghost use Rattle.sb_lit.specs.declared.clause.Lit.{Lit as TheLit};
ghost use Rattle.sb_lit.specs.Clauses.{is_true_under};
ghost use Rattle.sb_trail.specs.Assignments.{held};
ghost use Rattle.sb_clauses.specs.Records.{kept_of};
ghost use Rattle.sb_clauses.specs.Watching.{literal_of, HasClause, watched_at};
ghost use Rattle.sb_clauses.specs.Sparing.{AreSpared};
ghost use Rattle.sb_clauses.specs.Ways.{IsReadable, IsWay};

use crate::record::Record;
use crate::spare::{Spares, free_spare, is_gone};
use crate::watch::{Seen, look};
use crate::watches::{SHORT, code_of, literal_of};
use sb_lit::Lit;
use sb_trail::Trail;

/// What a number of a watch list comes to.
#[derive(Clone, Copy)]
pub enum Way {
    /// No clause is kept at it.
    Gone,
    /// The other watched literal of its clause is true.
    Stays,
    /// Its clause leaves this literal.
    Forces(Lit),
    /// Its clause has a further literal that is not false, that of this list.
    Moves(u32),
    /// Its clause is false.
    False,
}

/// Looks at a number of a list of false literals, of so many lists. The clause is read only where neither its other
/// watched literal is true nor its spare literal can be watched.
pub fn way_of(
    records: &[Option<Record>],
    other: &[u32],
    spares: &Spares,
    trail: &Trail,
    list: usize,
    lists: usize,
    number: usize,
) -> Way
    requires number { number < length (kept_of records.now) }
    requires other { number < length other.now }
    requires readable { (clause : List TheLit) → HasClause (kept_of records.now) number clause
        → IsReadable lists clause (watched_at other.now number) }
    requires spared { AreSpared (kept_of records.now) spares.now.literals.items }
    ensures { IsWay (kept_of records.now) trail.now.literals (watched_at other.now number) list lists number result }
{
    if is_gone(records, number, spares) {
        return Way::Gone;
    }
    let partner = other[number];
    if is_passed(list, partner, trail) {
        return Way::Stays;
    }
    if let Some(code) = free_spare(spares, number, partner, lists, trail) {
        return Way::Moves(code);
    }
    let Some(record) = &records[number] else {
        return Way::Gone;
    };
    let literals = record.literals.as_slice();
    match look(trail, literals, literal_of(partner)) {
        Seen::Holds => Way::Stays,
        Seen::Forces(literal) => Way::Forces(literal),
        Seen::Moves(place) => Way::Moves(code_of(literals[place].literal())),
        Seen::False => Way::False,
    }
}

/// Whether a number of the list stays there whatever is kept at it: its other watched literal is true, and no clause
/// without literals stands in the list.
fn is_passed(list: usize, other: u32, trail: &Trail) -> bool
    ensures { result ≡ true → (1 < list) × (is_true_under (held trail.now.literals) (literal_of other) ≡ true) }
{
    if list <= SHORT {
        return false;
    }
    match trail.literal_value(literal_of(other)) {
        Some(true) => true,
        _ => false,
    }
}
