//! What the words of a program ask for.

use crate::cases::go_through;
use crate::failure::Failure;
use crate::reading::read_input;
use crate::rounds::rounds;
use crate::theory::search_plain;
use sb_clauses::Engine;
use std::alloc::AllocError;
use std::env;
use std::process::ExitCode;

/// Does what the program's words ask for, and says the exit status: 1 where input, output or memory failed, and 2 where
/// the words are wrong.
///
/// `search FILE ..` searches the clauses of standard input, and prints whether some values make all of them true, and how
/// many steps were spent; then it goes through the cases of the files (cases.rt says how they are written). `rounds N`
/// keeps, propagates and drops ten clauses so often.
pub fn run(rt: HostRuntime) -> ExitCode {
    let mut engine = Engine::new(rt.alloc());
    let done = run_words(rt, &mut engine);
    drop(engine);
    match done {
        Ok(()) => ExitCode::from(0u8),
        Err(Failure::Words) => ExitCode::from(2u8),
        Err(_) => ExitCode::from(1u8),
    }
}

/// Does what the program's words ask for, over no clauses.
fn run_words(rt: HostRuntime, engine: &mut Engine) -> Result<(), Failure> {
    let words = words(rt)?;
    match words.as_slice() {
        [_, word, behind @ ..] => run_word(rt, word.as_str(), behind, engine),
        _ => Err(Failure::Words),
    }
}

/// The program's words.
fn words(rt: HostRuntime) -> Result<Vec<String>, AllocError> {
    match env::args(&rt) {
        Ok(words) => words.collect(rt.alloc()),
        Err(_) => Ok(Vec::new(rt.alloc())),
    }
}

/// Does what a word asks for, with the words behind it.
fn run_word(
    rt: HostRuntime,
    word: &str,
    behind: &[String],
    engine: &mut Engine,
) -> Result<(), Failure> {
    match word {
        "search" => search_all(rt, behind, engine),
        "rounds" => repeat(rt, behind, engine),
        _ => Err(Failure::Words),
    }
}

/// Searches the clauses of standard input, and goes through the files.
fn search_all(rt: HostRuntime, files: &[String], engine: &mut Engine) -> Result<(), Failure> {
    read_input(rt, engine)?;
    let (verdict, steps) = search_plain(rt.alloc(), engine)?;
    print(rt, verdict, steps)?;
    for file in files {
        go_through(rt, file.as_str())?;
    }
    Ok(())
}

/// Makes so many rounds as the one word says.
fn repeat(rt: HostRuntime, behind: &[String], engine: &mut Engine) -> Result<(), Failure> {
    let [count] = behind else {
        return Err(Failure::Words);
    };
    let Ok(count) = count.as_str().parse::<u64>() else {
        return Err(Failure::Words);
    };
    rounds(rt.alloc(), engine, count)?;
    print(rt, "DONE", count)
}

/// Prints a word and a number.
fn print(rt: HostRuntime, word: &str, number: u64) -> Result<(), Failure> {
    match println!(rt; "{word} {number}") {
        Ok(()) => Ok(()),
        Err(_) => Err(Failure::Outside),
    }
}
