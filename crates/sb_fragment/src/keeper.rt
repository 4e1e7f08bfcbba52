//! Live assertions that are known to be inside the fragment.

ghost use Rattle.std.specs.Prelude.{◌≡◌, ◌≤◌, length, map, min, All, IfOk};
ghost use Rattle.sb_fragment.specs.Inside.{AreInside};
ghost use Rattle.sb_fragment.specs.Measures.{AreMeasures};
ghost use Rattle.sb_fragment.specs.Rules.{assertion_in, HasNumberBelow, IsStanding};

use crate::measures::Measures;
use crate::rules::{Problem, Standing, broken};
use sb_term::{Assertion, Table};
use std::alloc::AllocError;

/// What is known of live assertions from one check to the next.
#[derive(Drop)]
pub struct Fragment {
    /// So many of them, from the first on, are known to be inside the fragment.
    pub inside: usize,
}

impl Fragment {
    /// Nothing is known.
    pub fn new() -> Fragment
        ensures { result.inside ≡ 0 }
    {
        Fragment { inside: 0 }
    }

    /// Whether live assertions are inside the fragment, and where not, which rule the first of them outside breaks.
    /// Linear in the number of the assertions behind those that are known, up to that one, but that terms are measured
    /// which were not yet. `AllocError` only for want of memory.
    pub fn stand(
        &mut self,
        measures: &mut Measures,
        table: &Table,
        live: &[Assertion],
    ) -> Result<Standing, AllocError>
        requires known { AreInside self.old.inside table.now live.now }
        requires numbers { All (HasNumberBelow (length table.now)) live.now }
        requires right { AreMeasures table.now measures.old }
        ensures ok { IfOk result (λ standing. IsStanding (map (assertion_in table.now) live.now) standing) }
        ensures known { AreInside self.new.inside table.now live.now }
        ensures more { self.old.inside ≤ self.new.inside }
        ensures right { AreMeasures table.now measures.new }
    {
        while self.inside < live.len() {
            if let Some(reason) = broken(measures, table, live[self.inside])? {
                return Ok(Standing::Outside(reason));
            }
            self.inside += 1;
        }
        Ok(Standing::Inside(Problem))
    }

    /// Takes back what is known to so many assertions, those that are still there where levels were left. Constant
    /// time.
    pub fn leave(&mut self, count: usize)
        ensures { self.new.inside ≡ min self.old.inside count }
    {
        self.inside = self.inside.min(count);
    }
}
