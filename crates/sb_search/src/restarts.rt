//! When a search goes back to its beginning.

ghost use Rattle.std.specs.Prelude.{◌≡◌, ◌⊎◌};

/// So many conflicts has the shortest run.
const RUN: u64 = 100;

/// When a search goes back to level 0: the runs between have one, one, two, one, one, two, four and so on times as many
/// conflicts as the shortest one (Luby, Sinclair and Zuckerman, "Optimal speedup of Las Vegas algorithms").
#[derive(Drop)]
pub(crate) struct Restarts {
    /// The conflicts until then.
    left: u64,
    /// How many runs had the shortest length, this one included.
    shortest: u64,
    /// How many times the shortest run this one has.
    times: u64,
}

impl Restarts {
    pub fn new() -> Restarts {
        Restarts {
            left: RUN,
            shortest: 1,
            times: 1,
        }
    }

    /// Where a search goes back to behind a conflict: to the level that it has to, or to level 0.
    pub fn level(&mut self, backjump: usize) -> usize
        ensures { (result ≡ backjump) ⊎ (result ≡ 0) }
    {
        self.left = self.left.saturating_sub(1);
        if self.left > 0 {
            return backjump;
        }
        self.begin();
        0
    }

    /// The next run.
    fn begin(&mut self) {
        if self.shortest & self.shortest.wrapping_neg() == self.times {
            self.shortest = self.shortest.wrapping_add(1);
            self.times = 1;
        } else {
            self.times = self.times.wrapping_mul(2);
        }
        self.left = self.times.saturating_mul(RUN);
    }
}
