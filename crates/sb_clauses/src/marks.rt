//! The levels at whose end propagation came to its end, and where it begins again.

ghost use Rattle.std.specs.Prelude.{◌≡◌, ℕ, ◌+◌, ◌<◌, ◌≤◌, length, take, IfSome};
ghost use Rattle.sb_trail.specs.Assignments.{up_to, AreLevelled};
ghost use Rattle.sb_clauses.specs.Marking.{mark_at, AreAscending, AreBelow, IsFront, AreNoted, IsEndOf};

use sb_trail::Entry;

/// Where propagation goes on.
#[derive(Drop)]
pub struct Queue {
    /// The levels at whose end all listed clauses were fine, ascending.
    pub marks: Vec<usize>,
    /// The propagation queue head: how many literals of the trail propagation has gone over, none where it has to begin
    /// with the clauses without two different literals.
    pub head: Option<usize>,
    /// How many of the clauses stand in the watch lists; propagation puts the others there.
    pub listed: usize,
}

/// Forgets the marks above the level. Linear in what is forgotten.
pub fn backtrack_marks(marks: &mut Vec<usize>, level: usize)
    requires { AreAscending marks.old.items }
    ensures ascending { AreAscending marks.new.items }
    ensures front { IsFront marks.old.items marks.new.items }
    ensures below { AreBelow marks.new.items (level + 1) }
{
    let count = count_up_to(marks, level);
    marks.truncate(count);
}

/// Forgets the marks of this level and above. Linear in what is forgotten.
pub fn forget_from(marks: &mut Vec<usize>, level: usize)
    requires { AreAscending marks.old.items }
    ensures ascending { AreAscending marks.new.items }
    ensures front { IsFront marks.old.items marks.new.items }
    ensures below { AreBelow marks.new.items level }
{
    match level.checked_sub(1) {
        Some(last) => backtrack_marks(marks, last),
        None => marks.clear(),
    }
}

/// How many marks are left where those above the level go.
fn count_up_to(marks: &[usize], level: usize) -> usize
    ensures within { result ≤ length marks.now }
    ensures ends { (at : ℕ) → result ≡ at + 1 → mark_at marks.now at ≤ level }
{
    let mut count = marks.len();
    while count > 0 && marks[count - 1] > level {
        count -= 1;
    }
    count
}

/// Marks a level, where there is room. Takes no memory.
pub fn mark(marks: &mut Vec<usize>, level: usize)
    ensures { AreNoted level marks.old.items marks.new.items }
{
    if marks.len() >= marks.capacity() {
        return;
    }
    if marks.push(level).is_err() {
        return;
    }
}

/// How many literals stand on the levels up to the last mark. Linear in the literals above it.
pub fn end_of_marks(marks: &[usize], entries: &[Entry]) -> Option<usize>
    requires { AreLevelled 0 entries.now }
    ensures { IfSome result (IsEndOf marks.now entries.now) }
{
    let mark = *marks.last()?;
    Some(end_of(entries, mark))
}

/// How many literals stand on the levels up to this one. Linear in the literals above it.
pub fn end_of(entries: &[Entry], level: usize) -> usize
    requires { AreLevelled 0 entries.now }
    ensures within { result ≤ length entries.now }
    ensures end { take result entries.now ≡ up_to level entries.now }
{
    let mut count = entries.len();
    while count > 0 && entries[count - 1].level() > level {
        count -= 1;
    }
    count
}
