//! Which of the constants that changed are left to a search.

ghost use Rattle.std.specs.Prelude.{◌≡◌, [], OnOk};
ghost use Rattle.sb_decide.specs.Parting.{IsParted};

use indexmap::IndexSet;
use sb_term::Serial;
use std::alloc::AllocError;

/// Parts constants: those that are spoken of are left, and the others stay.
pub(crate) fn part(
    all: &[Serial],
    spoken: &IndexSet<Serial>,
    changed: &mut Vec<Serial>,
    left: &mut Vec<Serial>,
) -> Result<(), AllocError>
    requires changed { changed.old.items ≡ [] }
    requires left { left.old.items ≡ [] }
    ensures { OnOk result (IsParted all.now spoken.now.keys changed.new.items left.new.items) }
{
    for serial in all {
        if spoken.contains(serial) {
            left.push(*serial)?;
            continue;
        }
        changed.push(*serial)?;
    }
    Ok(())
}
