//! The words of a program that runs, and its lines on standard error.

use std::env;
use std::io::ErrorKind;

/// Why there are no words.
#[derive(Clone, Copy)]
pub enum NoWords {
    NoMemory,
    /// One of them is no text.
    NoText,
}

/// The words of a program of this name. Where one of them is no text that is said.
pub fn words(rt: HostRuntime, program: &str) -> Result<Vec<String>, NoWords> {
    match env::args(&rt) {
        Ok(args) => match args.collect(rt.alloc()) {
            Ok(words) => Ok(words),
            Err(_) => Err(NoWords::NoMemory),
        },
        Err(error) if error.kind() == ErrorKind::OutOfMemory => Err(NoWords::NoMemory),
        Err(_) => {
            say(rt, program, "a word is not UTF-8");
            Err(NoWords::NoText)
        }
    }
}

/// Writes a line of a program of this name to standard error; that it fails changes nothing.
pub fn say(rt: HostRuntime, program: &str, what: &str) {
    let _outcome = eprintln!(rt; "{program}: {what}");
}
