//! The words of the solver.

ghost use Rattle.std.specs.Prelude.{◌≡◌, map, string_bytes, true, IfOk, IfErr, OnErr};
ghost use Rattle.std.specs.Option.{option_copied};
ghost use Rattle.clap.specs.Words.{app_of};
ghost use Rattle.sb_words.specs.SolverWords.{are_taken, script_of, proof_of};
ghost use Rattle.sb_words.specs.SolverWords as specs;

use crate::refusal::{NoRun, VERSION, told};
use clap::{Arg, Command};
use std::alloc::{AllocError, Global};

const ABOUT: &str =
    "Answers an SMT-LIB script over strings and regular expressions: the reply to each command\n\
    goes to standard output as soon as the command is read.";

const MORE: &str = "Exit status:\n\
    \x20 0  the script is answered, to its end or to (exit)\n\
    \x20 1  the script ended within a command\n\
    \x20 2  the words are wrong, or ask for this text or the version\n\
    \x20 3  a file could not be opened, created, read or written\n\
    \x20 4  memory ran out\n\
    \x20 5  the script has 2^32 bytes or more\n\n\
    Example:\n\
    \x20 strsolve examples/first.smt2";

/// What is asked of a run. Names are as they were given.
#[derive(Clone, Copy)]
pub struct Asked<'a> {
    /// The file that holds the script; without one standard input does.
    pub script: Option<&'a str>,
    /// The file that takes the proof, where one is asked for.
    pub proof: Option<&'a str>,
}

/// Reads the words of `strsolve`, the program's name first. The cost is linear in their length.
pub fn read_words<'a>(alloc: Global, words: &'a [String]) -> Result<Asked<'a>, NoRun>
    ensures taken { IfOk result (λ asked. are_taken (map string_bytes words.entry.now) ≡ true) }
    ensures script { IfOk result (λ asked. option_copied asked.script ≡ script_of (map string_bytes words.entry.now)) }
    ensures proof { IfOk result (λ asked. option_copied asked.proof ≡ proof_of (map string_bytes words.entry.now)) }
    ensures told { IfErr result (λ error. are_taken (map string_bytes words.entry.now) ≡ true
        → error ≡ NoRun.NoMemory) }
{
    match strsolve(alloc)?.try_get_matches_from(words) {
        Ok(matches) => {
            let asked = Asked {
                script: matches.get_str("script"),
                proof: matches.get_str("proof"),
            };
            drop(matches);
            Ok(asked)
        }
        Err(error) => {
            let refused = told(alloc, &error);
            drop(error);
            Err(refused)
        }
    }
}

/// The program's words, for `clap`.
fn strsolve<'a>(alloc: Global) -> Result<Command<'a>, AllocError>
    ensures { IfOk result (λ command. app_of command ≡ specs.strsolve) }
{
    let bare = Command::new(alloc, "strsolve")
        .version(VERSION)
        .about(ABOUT)
        .override_usage("strsolve [--proof FILE] [SCRIPT]")
        .after_help(MORE);
    let proof = Arg::new(alloc, "proof")
        .long("proof")
        .value_name("FILE")
        .help("The file that takes a proof of the answers; what it held is lost");
    let command = bare.arg(proof)?;
    let script = Arg::new(alloc, "script")
        .value_name("SCRIPT")
        .help("The file that holds the script [standard input]");
    command.arg(script)
}
