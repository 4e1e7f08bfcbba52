//! What is known of clauses before they are looked at.

ghost use Rattle.std.specs.Prelude.{◌≡◌, ◌<◌, [], ◌∷◌, List, length, true, slice_index_or, slice_set, None, IfSome};
ghost use Rattle.sb_lit.specs.declared.clause.Lit.{Lit as TheLit};
ghost use Rattle.sb_lit.specs.Clauses.{is_among};
ghost use Rattle.sb_lit.specs.Kept.{Kept, kept_at};
ghost use Rattle.sb_trail.specs.Assignments.{held};
ghost use Rattle.sb_clauses.specs.Records.{kept_of};
ghost use Rattle.sb_clauses.specs.WatchLists.{times};
ghost use Rattle.sb_clauses.specs.Watching.{literal_of, HasClause, watched_at};
ghost use Rattle.sb_clauses.specs.Sparing.{AreSpared, IsFree};

use crate::record::Record;
use crate::watch::is_or_false;
use crate::watches::{SHORT, Watches, literal_of};
use sb_trail::Trail;
use std::alloc::{AllocError, Global};

/// What is known of clauses before they are looked at: by number a spare literal, which is one of the clause, as the
/// number of its list, and 0 for none; and whether there were clauses that are gone.
#[derive(Drop)]
pub struct Spares {
    pub literals: Vec<u32>,
    pub gone: bool,
}

impl Spares {
    /// No clauses. Takes no memory.
    pub fn new(alloc: Global) -> Spares
        ensures { result.literals.items ≡ [] }
    {
        Spares {
            literals: Vec::new(alloc),
            gone: false,
        }
    }
}

/// Whether no clause is kept at the number; it is not looked at where no clause is gone.
pub fn is_gone(records: &[Option<Record>], number: usize, spares: &Spares) -> bool
    requires { number < length (kept_of records.now) }
    ensures { result ≡ true → kept_at (kept_of records.now) number ≡ None }
{
    spares.gone && records[number].is_none()
}

/// The spare literal at the number, where it is neither false nor the other watched one, and there are so many lists.
pub fn free_spare(
    spares: &Spares,
    number: usize,
    other: u32,
    lists: usize,
    trail: &Trail,
) -> Option<u32>
    ensures { IfSome result (IsFree (held trail.now.literals) spares.now.literals.items number other lists) }
{
    let code = *spares.literals.get(number)?;
    if code as usize <= SHORT || code as usize >= lists {
        return None;
    }
    let _entries = trail.literals();
    if is_or_false(trail, literal_of(other), literal_of(code)) {
        return None;
    }
    Some(code)
}

/// Has the number watch another literal of its clause in the place of its own one, which becomes the spare one, and
/// puts it on that one's list. Takes no memory.
pub fn change_watch(own: &mut Watches, spares: &mut Spares, number: usize, code: u32)
    requires number { number < length own.old.watched.items }
    requires node { number < own.old.lists.nodes }
    requires nowhere { times number own.old.lists.lists ≡ 0 }
    requires list { code < length own.old.lists.lists }
    ensures watched { own.new.watched.items ≡ slice_set own.old.watched.items number code }
    ensures lists { own.new.lists
        ≡ record own.old.lists {
          lists =
              slice_set own.old.lists.lists code (number ∷ slice_index_or own.old.lists.lists code []);
        } }
    ensures spared { (kept : Kept) → AreSpared kept spares.old.literals.items → number < length kept
        → ((clause : List TheLit) → HasClause kept number clause
        → is_among clause (watched_at own.old.watched.items number) ≡ true)
        → AreSpared kept spares.new.literals.items }
{
    let old = own.watched[number];
    own.watched[number] = code;
    own.lists.push(code as usize, number);
    keep_spare(spares, number, old);
}

/// Keeps the spare literal of a number, if the table goes so far.
fn keep_spare(spares: &mut Spares, number: usize, code: u32)
    ensures { (kept : Kept) → AreSpared kept spares.old.literals.items → number < length kept
        → ((clause : List TheLit) → HasClause kept number clause → is_among clause (literal_of code) ≡ true)
        → AreSpared kept spares.new.literals.items }
{
    if number < spares.literals.len() {
        spares.literals[number] = code;
    }
}

/// Makes room for the spare literals of the numbers below this one.
pub fn grow_spares(spares: &mut Spares, numbers: usize) -> Result<(), AllocError>
    ensures { (kept : Kept) → AreSpared kept spares.old.literals.items → AreSpared kept spares.new.literals.items }
{
    if numbers > spares.literals.len() {
        spares.literals.resize(numbers, 0)?;
    }
    Ok(())
}
