//! Laws of how terms are read, and of linear sums.

ghost use Rattle.sb_script.specs.ReadingLaws.{ReadIsWellSorted, ReadingKeeps};
ghost use Rattle.sb_script.specs.SortedStates.{EntriesKeepSorts, LiveAreWellSorted, StartIsSorted};
ghost use Rattle.sb_script.specs.SumLaws.{SmallBothWays};

/// What reading keeps, and holds of what the names in force stand for, holds of each term that is read.
pub fn reading_keeps()
    ensures { ReadingKeeps }
{}

/// Each term that is read is well sorted, where what the names in force stand for is.
pub fn read_is_well_sorted()
    ensures { ReadIsWellSorted }
{}

/// At the start everything is well sorted.
pub fn start_is_sorted()
    ensures { StartIsSorted }
{}

/// An entry of a script leaves everything in the state well sorted.
pub fn entries_keep_sorts()
    ensures { EntriesKeepSorts }
{}

/// Where everything in a state is well sorted its live terms are.
pub fn live_are_well_sorted()
    ensures { LiveAreWellSorted }
{}

/// Where the sum of a term less that of another one is small, so is the second less the first.
pub fn small_both_ways()
    ensures { SmallBothWays }
{}
