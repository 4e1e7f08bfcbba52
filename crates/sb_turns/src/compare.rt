//! What is wanted of a run, compared with what came.

use crate::report::{Front, Run};
use crate::stage::Turn;
use sb_cases::case::{Case, Kind};
use sb_cases::directive::Directive;
use sb_world::{InPort, MemWorld, Opened, OutPort};
use std::alloc::{AllocError, Global};

/// What came of a run is to be what is wanted of it.
pub fn compare(run: &mut Run, case: &Case, turn: &Turn, proof: &[u8], world: &MemWorld) {
    expect_answers(run, case, world.written(OutPort::Answers));
    expect_proof(run, case, proof, world.written(OutPort::Proof));
    expect_errors(run, case, world.written(OutPort::Faults));
    expect_calls(run, case, turn, world);
    expect_opened(run, case, opened(world));
}

/// What came is to be this text, and nothing is to stand on standard error.
pub fn compare_kept(run: &mut Run, wanted: &[u8], world: &MemWorld) {
    let answers = world.written(OutPort::Answers);
    run.expect("the text of the answers", wanted, answers);
    let errors = world.written(OutPort::Faults);
    run.expect("standard error", b"", errors);
}

/// A run is to end with this status.
pub fn expect_status(run: &mut Run, wanted: &str, came: &str) {
    run.expect("the status", wanted.as_bytes(), came.as_bytes());
}

/// Such an answer is to be written.
pub fn expect_answers(run: &mut Run, case: &Case, came: &[u8]) {
    let answers = case.block(Directive::Answers);
    run.expect_front("the text of the answers", front_of(case), answers, came);
}

/// Such a proof is to be written.
fn expect_proof(run: &mut Run, case: &Case, proof: &[u8], came: &[u8]) {
    if let Kind::Check = case.kind {
        return;
    }
    if case.has(Directive::Proof) {
        run.expect_front("the proof", front_of(case), proof, came);
    }
    for said in &case.lasting {
        if said.directive == Directive::Once {
            expect_once(run, case.alloc, said.words, came);
        }
    }
}

/// Of the lines of the proof that begin so there is one, and none stands twice.
fn expect_once(run: &mut Run, alloc: Global, begins: &str, proof: &[u8]) {
    match lines_of(alloc, proof) {
        Ok(lines) => expect_lines(run, begins.as_bytes(), &lines),
        Err(_) => run.expect("the lines of the proof", proof, b"no memory"),
    }
}

/// The lines of bytes.
fn lines_of(alloc: Global, bytes: &[u8]) -> Result<Vec<&[u8]>, AllocError> {
    bytes.split(|byte| *byte == b'\n').collect(alloc)
}

/// Of the lines that begin so there is one, and none stands twice.
fn expect_lines(run: &mut Run, begins: &[u8], lines: &[&[u8]]) {
    let mut number = 0usize;
    let mut found: &[u8] = b"";
    for line in lines {
        number = number.saturating_add(1);
        if line.starts_with(begins) {
            found = begins;
            if stands_from(lines, number, line) {
                run.expect("how often a line of the proof stands", b"once", line);
            }
        }
    }
    run.expect("the lines of the proof", begins, found);
}

/// Whether a line is among the lines from a place on.
fn stands_from(lines: &[&[u8]], place: usize, line: &[u8]) -> bool {
    match lines.get(place..) {
        Some(rest) => rest.contains(&line),
        None => false,
    }
}

/// Such a text is to stand on standard error.
fn expect_errors(run: &mut Run, case: &Case, came: &[u8]) {
    run.expect("standard error", errors_of(case, came), came);
}

/// There are to be so many calls, and as many faults as the status says.
fn expect_calls(run: &mut Run, case: &Case, turn: &Turn, world: &MemWorld) {
    let calls = world.calls();
    let wanted = calls_of(case, turn, calls);
    run.expect_count(case.alloc, "the count of calls", wanted, calls);
    let wanted = u64::from(matches!(status_of(case), "fault"));
    run.expect_count(case.alloc, "the count of faults", wanted, world.faults());
}

/// Such ports are to be opened and created.
fn expect_opened(run: &mut Run, case: &Case, came: &str) {
    let ports = case.words(Directive::Opened);
    if !ports.is_empty() {
        run.expect("what is opened", ports.as_bytes(), came.as_bytes());
    }
}

/// The status that is wanted.
pub fn status_of<'a>(case: &'a Case) -> &'a str {
    let status = case.words(Directive::Status);
    if status.is_empty() {
        return usual_status(case);
    }
    status
}

/// The status that is wanted where none is said.
fn usual_status(case: &Case) -> &'static str {
    if case.last(Directive::Fail) > 0 {
        return "fault";
    }
    match case.kind {
        Kind::Check => checked_status(case),
        _ => "done",
    }
}

/// The status of the checker that is wanted where none is said.
fn checked_status(case: &Case) -> &'static str {
    let answers = case.block(Directive::Answers);
    if answers.ends_with(b"accepted\n") && case.last(Directive::Fronts) == 0 {
        return "accepted";
    }
    "refused"
}

/// How much of the answers and of the proof is wanted.
fn front_of(case: &Case) -> Front {
    let more = case.first(Directive::Fail) < case.last(Directive::Fail);
    match case.kind {
        Kind::Check if case.last(Directive::Fronts) > 0 => Front::Refused,
        Kind::Check if more => Front::Less,
        _ if more => Front::Any,
        _ => Front::Whole,
    }
}

/// How many calls there are to be, where there were so many.
fn calls_of(case: &Case, turn: &Turn, came: u64) -> u64 {
    if turn.fails > 0 {
        return turn.fails;
    }
    if case.has(Directive::Calls) {
        return case.last(Directive::Calls);
    }
    came
}

/// What is to stand on standard error: what is said; without that nothing, but some text where the words are wrong.
fn errors_of<'a>(case: &'a Case, came: &'a [u8]) -> &'a [u8] {
    if case.has(Directive::Errors) {
        return case.block(Directive::Errors);
    }
    match status_of(case) {
        "usage" if came.is_empty() => b"some text",
        "usage" => came,
        _ => b"",
    }
}

/// Which ports of the script and of a proof are opened or created.
fn opened(world: &MemWorld) -> &'static str {
    let script = !matches!(world.opened(InPort::Script), Opened::Not);
    let read = !matches!(world.opened(InPort::Proof), Opened::Not);
    let written = !matches!(world.created(OutPort::Proof), Opened::Not);
    match (script, read || written) {
        (false, false) => "nothing",
        (true, false) => "script",
        (false, true) => "proof",
        (true, true) => "script proof",
    }
}
