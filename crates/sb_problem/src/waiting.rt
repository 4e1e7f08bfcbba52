//! Terms that wait until it is known what they are.

ghost use Rattle.std.specs.Prelude.{◌≡◌, ◌++◌, ◌∷◌, map, OnOk};
ghost use Rattle.sb_problem.specs.Waiting.{enters, waits};

use sb_term::TermId;
use std::alloc::AllocError;

/// A term that waits until it is known what it is.
#[derive(Clone, Copy)]
pub(crate) struct Waiting {
    pub(crate) id: TermId,
    /// Its arguments were put behind it.
    pub(crate) entered: bool,
}

/// Puts a term behind those that wait, and its arguments behind it.
pub(crate) fn enter(
    waiting: &mut Vec<Waiting>,
    id: TermId,
    arguments: &[TermId],
) -> Result<(), AllocError>
    ensures { OnOk result (waiting.new.items ≡ waiting.old.items ++ enters id ∷ map waits arguments.now) }
{
    waiting.push(Waiting { id, entered: true })?;
    for argument in arguments {
        waiting.push(Waiting {
            id: *argument,
            entered: false,
        })?;
    }
    Ok(())
}
