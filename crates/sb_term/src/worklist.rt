//! Numbers of terms that are left to be gone into.

ghost use Rattle.std.specs.Prelude.{OnOk};
ghost use Rattle.sb_term.specs.Descending.{Puts};

use crate::term::TermId;
use std::alloc::AllocError;
use std::collections::BTreeSet;

/// Puts numbers among those that are left. `AllocError` for want of memory: some of them may be among these then.
pub fn put_all(left: &mut BTreeSet<TermId>, ids: &[TermId]) -> Result<(), AllocError>
    ensures { OnOk result (Puts left.old.keys ids.now left.new.keys) }
{
    for id in ids {
        left.insert(*id)?;
    }
    Ok(())
}
