//! The steps of a search, over lists.

ghost use Rattle.std.specs.Prelude.{◌≡◌, ℕ, ◌<◌, List, length, get_or, IfOk, OnOk, MatchOption};
ghost use Rattle.sb_word.specs.Words.{IsWord};
ghost use Rattle.sb_graph.specs.Findings.{is_marked};
ghost use Rattle.sb_graph.specs.Visiting.{visited, with_marks};
ghost use Rattle.sb_graph.specs.Queue.{word_at, GoesBack, AreWords, LeadsBy, AreTested, IsFirstNullable};

use crate::queue::Queue;
use sb_regex::RegexId;
use std::alloc::AllocError;

/// Whether the regex of a number has a mark.
pub(crate) fn is_marked(dead: &[bool], regex: RegexId) -> bool
    ensures { result ≡ is_marked dead.now regex }
{
    regex.number() < dead.len() && dead[regex.number()]
}

/// Puts the targets of a derivative into the queue, but for those with a mark.
pub(crate) fn visit(
    queue: &mut Queue,
    dead: &[bool],
    pieces: &[(u32, RegexId)],
    place: usize,
) -> Result<(), AllocError>
    ensures { OnOk result (queue.new ≡ visited dead.now place queue.old pieces.now) }
{
    for (start, target) in pieces {
        if !is_marked(dead, *target) {
            queue.put(*target, place, *start)?;
        }
    }
    Ok(())
}

/// Marks the regexes.
pub(crate) fn mark(dead: &mut [bool], regexes: &[RegexId])
    requires { (k : ℕ) → k < length regexes.now → get_or regexes.now k 0 < length dead.old }
    ensures { dead.new ≡ with_marks dead.old regexes.now }
{
    for regex in regexes {
        dead[regex.number()] = true;
    }
}
