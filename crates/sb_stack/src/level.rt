//! Levels of a script.

/// Where a level above the first one began.
#[derive(Clone, Copy, PartialEq, Eq)]
pub struct Level {
    /// How many names were in force.
    pub names: usize,
    /// How many assertions were live.
    pub assertions: usize,
}
