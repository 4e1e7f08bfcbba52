//! Why words ask for no run, of either program.

ghost use Rattle.std.specs.Prelude.{◌≡◌};
ghost use Rattle.clap.specs.Words.{kind_of};

use clap::Error;
use clap::error::ErrorKind;
use std::alloc::{AllocError, Global};

/// The programs' version.
pub(crate) const VERSION: &str = "0.1.0";

/// Why words ask for no run.
#[derive(Drop)]
pub enum NoRun {
    /// The text that says what is wrong with them, or that they ask for: the help or the version.
    Told(String),
    /// There was not enough memory.
    NoMemory,
}

impl From<AllocError> for NoRun {
    ghost use Rattle.sb_words.specs.declared.refusal.NoRun.TheVariants.{NoMemory};

    ghost from_gives = { λ _ error. error ≡ NoMemory };

    fn from(_error: AllocError) -> NoRun {
        NoRun::NoMemory
    }
}

/// What an error of `clap` says.
pub(crate) fn told(alloc: Global, error: &Error) -> NoRun
    ensures { kind_of error.now ≡ ErrorKind.OutOfMemory → result ≡ NoRun.NoMemory }
{
    if error.kind() == ErrorKind::OutOfMemory {
        return NoRun::NoMemory;
    }
    match format!(in alloc; "{error}") {
        Ok(text) => NoRun::Told(text),
        Err(_) => NoRun::NoMemory,
    }
}
