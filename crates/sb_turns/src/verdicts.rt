//! What the checker is to say of a proof that was kept.

use sb_cases::buffer::Buffer;
use sb_cases::case::Case;
use sb_cases::directive::Directive;
use std::alloc::Global;

/// What the checker is to say of the proof that was kept.
pub fn verdicts_of(case: &Case) -> Buffer {
    let mut verdicts = Buffer::new(case.alloc);
    if case.has(Directive::Verdicts) {
        verdicts.add(case.block(Directive::Verdicts));
    } else {
        add_verdicts(case.alloc, case.block(Directive::Answers), &mut verdicts);
    }
    verdicts
}

/// Adds what the checker is to say of a proof along these answers.
fn add_verdicts(alloc: Global, answers: &[u8], said: &mut Buffer) {
    let mut number = 1u64;
    for line in str::from_utf8(answers).unwrap_or("").split('\n') {
        if is_verdict(line) {
            add_verdict(alloc, number, line, said);
            number = number.saturating_add(1);
        }
    }
    said.add(b"accepted\n");
}

/// Whether a line of answers is the verdict of a check.
fn is_verdict(line: &str) -> bool {
    matches!(line, "sat" | "unsat" | "unknown" | "unsupported")
}

/// Adds what the checker is to say of the verdict of a check.
fn add_verdict(alloc: Global, number: u64, verdict: &str, said: &mut Buffer) {
    said.add(b"check ");
    said.add_number(alloc, number);
    said.add(b": ");
    said.add(verdict.as_bytes());
    said.add(b"\n");
}
