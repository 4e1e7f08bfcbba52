//! Live constants.

use sb_term::{Serial, Sort};

/// A live constant, by its serial, and its sort.
#[derive(Clone, Copy, PartialEq, Eq)]
pub struct LiveConstant {
    pub serial: Serial,
    pub sort: Sort,
}
