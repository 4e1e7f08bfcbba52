//! A file of cases: its format, and its heads with the blocks behind them.
//!
//! A line that begins with `== ` or `-- ` is a head. `== KIND NAME` begins a case, whose name says what it shows and is
//! the only one of its kind and name in the file. The kinds are `solve`, `check`, `both`, `calm` (the solver, over a
//! world where nothing fails), `confirmed` (the solver, and the checker behind it over the proof that came, each over a
//! world where nothing fails; the status is the solver's, the checker is to accept, and the answers are not looked at)
//! and `session` (the entries of the script, handed to a session one by one, also those behind an exit; its status is
//! `done`, `exited` or `ended`, as the last entry was answered, was an exit, or came behind one). Behind a head `-- ..`
//! comes its block: the lines up to the next head, each with its line feed, without the blank lines at the block's end.
//! A head that has no block may have blank lines and comments, which begin with `#`. What is set holds for the later
//! runs of the case too, unless it is said here to be for one run.
//!
//! Words of options stand last in the head of a block. `cut` drops the last line feed. With `escaped`, `\xhh` is the
//! byte of this number, `\\` a backslash, a backslash at a line's end drops the line feed, and `\*N{TEXT}` is the text
//! N times, which has no braces and no backslash. A line of a block that begins with `-- ` or `== ` is written escaped.
//!
//! - `-- script`: the script. `solve` and `calm` have it on standard input, `check`, `both` and `confirmed` in the file
//!   `s`. Without it the input is empty, and there is no such file.
//! - `-- proof`: in `check` the proof that is checked, the file `p`; else the one that is to be written.
//! - `-- change N M`: for one run lines N to M of the proof, from 1, are replaced by the block; `-- change N` is of one
//!   line. An empty block leaves them out.
//! - `-- fronts all`: in `check` a run for each front of the proof that is not the whole. It is to be refused, and the
//!   answers in front of the refusal are to be a front of the block. `-- fronts none` ends it.
//! - `-- cuts all`: in `solve`, without a proof, a run for each front of the script that is not the whole. Each whole
//!   entry in it is to be answered by one line, those of the block in order; within a form the status is to be
//!   `unfinished`, and its line stands behind these. The script is of forms in parentheses alone. `-- cuts none` ends
//!   it.
//! - `-- limit N`: the program reads at most so many bytes of the script, and of the proof that is checked. Without it,
//!   and with `-- limit none`, the limit is its own.
//! - `-- file NAME`: a further file of the world.
//! - `-- words W ..`: the words behind the program's name, where `""` is the empty word. Without it they are `s p` in
//!   `check`, and in `solve` none, or `--proof p` where there is a proof. `both` has its own.
//! - `-- pieces N ..`: a read gives at most so many bytes, in a run for each number; `-- pieces all` is each number up to
//!   the length of the script and of the proof.
//! - `-- fail N`: the call of this number fails; what is written is to be exactly what is wanted. `-- fail N..M`: a run
//!   for each of these calls, and what is written is to be a front of what is wanted, in `check` not all of it. The
//!   number of calls is to be that of the failing one. `-- fail none` ends it.
//! - `-- calls N`: for one run, the number of the world's calls.
//! - `-- status WORD`: in `solve` `done`, `unfinished`, `usage`, `fault`, `no-memory` or `limit`, in `check` `accepted` or
//!   `refused` in place of the first two. Without a word it is again the usual one: `fault` where a call fails, else
//!   `done`, and in `check` `accepted` where the answers end so, and `refused` elsewhere. With `fault` one fault is
//!   counted, and with each other status none.
//! - `-- errors`: what is to stand on standard error. Without it nothing, but with the status `usage` some text.
//! - `-- opened PORTS`: what is opened and created: `nothing`, `script`, `proof` or `script proof`.
//! - `-- once TEXT`: in `solve` and `both` the written proof has a line that begins so, and none of them twice.
//! - `-- verdicts`: in `both`, for one run, the checker's answers, where lines of the solver's answers that are `sat`,
//!   `unsat`, `unknown` or `unsupported` are not the verdicts of the checks. Without it the checker is to say these
//!   verdicts, with the checks numbered from 1, and `accepted`.
//! - `-- note TEXT`: for one run, what it shows; it is printed where the run differs.
//! - `-- answers`: what is to be written to standard output. This block runs the case.

use crate::fault::Fault;
use std::alloc::{AllocError, Global};

/// The lines of a text.
pub fn lines_of(alloc: Global, text: &str) -> Result<Vec<&str>, AllocError> {
    text.split('\n').collect(alloc)
}

/// Whether a line is a head.
pub fn is_head(line: &str) -> bool {
    line.starts_with("-- ") || line.starts_with("== ")
}

/// The lines from a place on, up to the next head, without the empty ones at their end.
pub fn body_from<'a, 'b>(lines: &'a [&'b str], place: usize) -> &'a [&'b str] {
    let mut end = place;
    let mut number = 0usize;
    for line in lines {
        number = number.saturating_add(1);
        if number > place {
            if is_head(line) {
                break;
            }
            if !line.is_empty() {
                end = number;
            }
        }
    }
    lines.get(place..end).unwrap_or(lines)
}

/// Refuses lines that are neither blank nor a comment.
pub fn no_block(body: &[&str]) -> Result<(), Fault> {
    for line in body {
        if !line.starts_with('#') && !line.trim().is_empty() {
            return Err(Fault::Block);
        }
    }
    Ok(())
}

/// Refuses a head that stands twice.
pub fn stands_once(lines: &[&str], head: &str) -> Result<(), Fault> {
    let mut count = 0u64;
    for line in lines {
        count = count.saturating_add(u64::from(is_same(line.trim_end(), head)));
    }
    if count > 1 {
        return Err(Fault::SameName);
    }
    Ok(())
}

/// Whether two texts are the same.
pub fn is_same(text: &str, other: &str) -> bool {
    text == other
}

/// The first word of a text.
pub fn word_of(text: &str) -> &str {
    match text.split_once(' ') {
        Some((word, _)) => word,
        None => text,
    }
}

/// What stands behind the space after the first word of a text.
pub fn behind_word(text: &str) -> &str {
    match text.split_once(' ') {
        Some((_, behind)) => behind,
        None => "",
    }
}

/// The number that a text is.
pub fn number(text: &str) -> Option<u64> {
    text.parse::<u64>().ok()
}
