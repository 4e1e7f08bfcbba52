//! The programs that cases run.

use sb_world::{MemWorld, World};
use std::alloc::{AllocError, Global};

/// The solver and the checker of proofs, as cases run them. Each call says by a word how it ended.
pub trait Programs {
    /// Runs the solver with these words, which begin with its name, up to this limit on what it reads, or to its own.
    fn solve<W: World>(
        alloc: Global,
        words: &[String],
        world: &mut W,
        limit: Option<u64>,
    ) -> &'static str;

    /// Runs the checker with these words, which begin with its name, up to this limit on what it reads, or to its own.
    fn check<W: World>(
        alloc: Global,
        words: &[String],
        world: &mut W,
        limit: Option<u64>,
    ) -> &'static str;

    /// Hands the entries of a script to a session, also those behind `(exit)`, and says how the last one went.
    fn answer(
        alloc: Global,
        script: &[u8],
        world: &mut MemWorld,
    ) -> Result<&'static str, AllocError>;
}
