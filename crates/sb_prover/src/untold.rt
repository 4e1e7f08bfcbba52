//! A tape for checks whose proof is not written.

ghost use Rattle.std.specs.Prelude.{◌≡◌, None, Ok};

use sb_proof::{Line, Tape, TapeFault};

/// A tape that keeps nothing, and tells nothing of what was put. No line fails on it.
#[derive(Drop)]
pub struct NoTape;

impl Tape for NoTape {
    ghost told = { λ _. None };

    ghost faults = { λ _. 0 };

    fn put(&mut self, _line: &Line) -> Result<(), TapeFault>
        ensures { result ≡ Ok tt }
    {
        Ok(())
    }
}
