//! How a clause is kept.

use sb_trail::CompactLit;
use smallvec::SmallVec;

/// A kept clause. Up to four literals stand in the record itself.
#[derive(Drop)]
pub struct Record {
    pub literals: SmallVec<CompactLit, 4>,
    pub level: u64,
}
