//! Files of cases, gone through.

use crate::programs::Programs;
use crate::turns::Tally;
use sb_cases::case::Case;
use sb_cases::directive::Directive;
use sb_cases::fault::{Fault, text_of};
use sb_cases::reader::{body_from, is_head, lines_of, no_block, stands_once};
use std::alloc::AllocError;
use std::process::ExitCode;
use std::{env, fs};

/// Runs the cases of the files that the program's words name, and prints what differs. The exit status is 1 where a run
/// differs, or where a file can't be read or understood.
pub fn run<P: Programs>(rt: HostRuntime) -> ExitCode {
    let mut tally = Tally::new(rt);
    match words(rt) {
        Ok(words) => run_files::<P>(rt, &words, &mut tally),
        Err(_) => tally.whole = false,
    }
    print_end(rt, &mut tally);
    status_of(&tally)
}

/// The program's words.
fn words(rt: HostRuntime) -> Result<Vec<String>, AllocError> {
    match env::args(&rt) {
        Ok(words) => words.collect(rt.alloc()),
        Err(_) => Ok(Vec::new(rt.alloc())),
    }
}

/// The exit status of what was run.
fn status_of(tally: &Tally) -> ExitCode {
    if tally.whole && tally.differ == 0 {
        return ExitCode::from(0u8);
    }
    ExitCode::from(1u8)
}

/// Prints how many cases and runs there were, and how many runs differ.
fn print_end(rt: HostRuntime, tally: &mut Tally) {
    let (cases, runs, differ) = (tally.cases, tally.runs, tally.differ);
    match println!(rt; "{cases} cases, {runs} runs, {differ} differ") {
        Ok(()) => {}
        Err(_) => tally.whole = false,
    }
}

/// Prints what is wrong at a line of a file.
fn refuse(rt: HostRuntime, file: &str, line: usize, fault: Fault, tally: &mut Tally) {
    tally.whole = false;
    let _outcome = println!(rt; "{file}: line {line}: {}", text_of(fault));
}

/// Runs the cases of the files that are named behind the program.
fn run_files<P: Programs>(rt: HostRuntime, words: &[String], tally: &mut Tally) {
    if let [_, files @ ..] = words {
        for file in files {
            run_file::<P>(rt, file.as_str(), tally);
        }
    }
}

/// Runs the cases of a file.
fn run_file<P: Programs>(rt: HostRuntime, file: &str, tally: &mut Tally) {
    match fs::read_to_string(&rt, file) {
        Ok(text) => run_text::<P>(rt, file, text.as_str(), tally),
        Err(_) => refuse(rt, file, 0, Fault::Unread, tally),
    }
}

/// Runs the cases of the text of a file.
fn run_text<P: Programs>(rt: HostRuntime, file: &str, text: &str, tally: &mut Tally) {
    match lines_of(rt.alloc(), text) {
        Ok(lines) => run_lines::<P>(rt, &lines, &mut Case::none(rt.alloc(), file), tally),
        Err(_) => refuse(rt, file, 0, Fault::NoMemory, tally),
    }
}

/// Runs the cases of the lines of a file, up to the first fault.
fn run_lines<'a, P: Programs>(
    rt: HostRuntime,
    lines: &[&'a str],
    case: &mut Case<'a>,
    tally: &mut Tally,
) {
    let mut number = 0usize;
    for line in lines {
        number = number.saturating_add(1);
        if let Err(fault) = run_line::<P>(lines, number, line, case, tally) {
            return refuse(rt, case.file, number, fault, tally);
        }
    }
    if let Err(fault) = case.ended() {
        refuse(rt, case.file, number, fault, tally);
    }
}

/// Takes in the line of this number, if it is a head, or stands in front of all heads.
fn run_line<'a, P: Programs>(
    lines: &[&'a str],
    number: usize,
    line: &'a str,
    case: &mut Case<'a>,
    tally: &mut Tally,
) -> Result<(), Fault> {
    if is_head(line) {
        return run_head::<P>(line.trim_end(), lines, number, case, tally);
    }
    if number == 1 {
        return no_block(body_from(lines, 0));
    }
    Ok(())
}

/// Takes in the head of this number with the lines behind it, and runs the case where it holds the answers.
fn run_head<'a, P: Programs>(
    head: &'a str,
    lines: &[&'a str],
    number: usize,
    case: &mut Case<'a>,
    tally: &mut Tally,
) -> Result<(), Fault> {
    let body = body_from(lines, number);
    match head.strip_prefix("== ") {
        Some(names) => {
            tally.begin();
            no_block(body)?;
            stands_once(lines, head)?;
            case.ended()?;
            case.begin(names)
        }
        None => take_directive::<P>(head, body, case, tally),
    }
}

/// Takes in the head of a directive with the lines behind it, and runs the case where it holds the answers.
fn take_directive<'a, P: Programs>(
    head: &'a str,
    body: &[&str],
    case: &mut Case<'a>,
    tally: &mut Tally,
) -> Result<(), Fault> {
    let words = head.strip_prefix("-- ").unwrap_or("");
    match case.take(words, body)? {
        Directive::Answers => tally.run::<P>(case),
        _ => Ok(()),
    }
}
