//! The words of the checker.

ghost use Rattle.std.specs.Prelude.{◌≡◌, Some, is_some, map, string_bytes, true, IfOk, IfErr};
ghost use Rattle.clap.specs.Words.{app_of, first_value, found_of};
ghost use Rattle.sb_words.specs.CheckerWords.{are_taken, script_of, proof_of};
ghost use Rattle.sb_words.specs.CheckerWords as specs;
ghost use Rattle.sb_words.specs.Required.{HasBoth, IsNeeded};

use crate::refusal::{NoRun, VERSION, told};
use clap::{Arg, ArgAction, ArgMatches, Command};
use std::alloc::{AllocError, Global};

const ABOUT: &str =
    "Checks a proof that strsolve wrote against its script: each verdict of a check that follows is\n\
    confirmed on standard output, and then the whole proof, or its first line that does not follow.";

const MORE: &str = "Exit status:\n\
    \x20 0  the proof is accepted\n\
    \x20 1  it is refused\n\
    \x20 2  the words are wrong, or ask for this text or the version\n\
    \x20 3  a file could not be opened or read, or output failed\n\
    \x20 4  memory ran out\n\
    \x20 5  the script or the proof has 2^32 bytes or more\n\n\
    Example:\n\
    \x20 strsolve --proof first.proof examples/first.smt2\n\
    \x20 strcheck examples/first.smt2 first.proof";

/// What is asked of a run. Names are as they were given.
#[derive(Clone, Copy)]
pub struct Asked<'a> {
    /// The file that holds the script.
    pub script: &'a str,
    /// The file that holds the proof of its answers.
    pub proof: &'a str,
}

/// Reads the words of `strcheck`, the program's name first. The cost is linear in their length.
pub fn read_words<'a>(alloc: Global, words: &'a [String]) -> Result<Asked<'a>, NoRun>
    ensures taken { IfOk result (λ asked. are_taken (map string_bytes words.entry.now) ≡ true) }
    ensures script { IfOk result (λ asked. Some asked.script.now ≡ script_of (map string_bytes words.entry.now)) }
    ensures proof { IfOk result (λ asked. Some asked.proof.now ≡ proof_of (map string_bytes words.entry.now)) }
    ensures told { IfErr result (λ error. are_taken (map string_bytes words.entry.now) ≡ true
        → error ≡ NoRun.NoMemory) }
{
    match strcheck(alloc)?.try_get_matches_from(words) {
        Ok(matches) => {
            let asked = Asked {
                script: given(&matches, "script"),
                proof: given(&matches, "proof"),
            };
            drop(matches);
            Ok(asked)
        }
        Err(error) => {
            let refused = told(alloc, &error);
            drop(error);
            Err(refused)
        }
    }
}

/// The program's words, for `clap`.
fn strcheck<'a>(alloc: Global) -> Result<Command<'a>, AllocError>
    ensures app { IfOk result (λ command. app_of command ≡ specs.strcheck) }
    ensures both { IfOk result HasBoth }
{
    let bare = Command::new(alloc, "strcheck")
        .version(VERSION)
        .about(ABOUT)
        .override_usage("strcheck SCRIPT PROOF")
        .after_help(MORE);
    let script = needed(alloc, "script", "SCRIPT", "The file that holds the script");
    let command = bare.arg(script)?;
    let proof = needed(
        alloc,
        "proof",
        "PROOF",
        "The file that holds the proof of its answers",
    );
    command.arg(proof)
}

/// A word that has to be there.
fn needed<'a>(alloc: Global, id: &'a str, shown: &'a str, help: &'a str) -> Arg<'a>
    ensures { IsNeeded id.entry.now result }
{
    Arg::new(alloc, id)
        .value_name(shown)
        .action(ArgAction::Set)
        .required(true)
        .help(help)
}

/// The value of an argument that has one.
fn given<'a>(matches: &ArgMatches<'a>, id: &str) -> &'a str
    requires { is_some (first_value (found_of matches.now) id.now) ≡ true }
    ensures { first_value (found_of matches.now) id.now ≡ Some result.now }
{
    match matches.get_str(id) {
        Some(text) => text,
        None => unreachable!(),
    }
}
