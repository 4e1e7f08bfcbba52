//! Rounds in which clauses come and go.

use crate::failure::Failure;
use crate::reading::keep;
use sb_clauses::Engine;
use sb_lit::Lit;
use std::alloc::{AllocError, Global};

/// So many clauses come in a round.
const CLAUSES: u64 = 10;

/// So many rounds, in each of which ten clauses of two literals are kept on level 1, propagated, and dropped.
pub fn rounds(alloc: Global, engine: &mut Engine, count: u64) -> Result<(), Failure> {
    engine.reserve(2 * CLAUSES as usize)?;
    for _ in 0..count {
        keep_all(alloc, engine)?;
        if !engine.has_room() {
            return Err(Failure::Lost);
        }
        engine.propagate();
        engine.leave_above(0);
    }
    Ok(())
}

/// Keeps the clauses of a round on level 1.
fn keep_all(alloc: Global, engine: &mut Engine) -> Result<(), AllocError> {
    for number in 0..CLAUSES {
        let literals = [literal(2 * number), literal(2 * number + 1)];
        keep(alloc, engine, &literals, 1)?;
    }
    Ok(())
}

/// The literal that an atom is true.
fn literal(atom: u64) -> Lit {
    Lit {
        atom,
        positive: true,
    }
}
