//! How many steps may still be made.

ghost use Rattle.std.specs.Prelude.{◌≡◌, ◌+◌, ◌<◌, ◌≤◌, OnOk, OnErr};

use std::marker::Model;
use thiserror::Error;

/// A count of steps that were spent, and the limit that it never passes.
#[derive(Drop)]
pub struct Budget {
    spent: u64,
    limit: u64,
}

impl Model for Budget {
    ghost use Rattle.std.specs.Prelude.{◌≤◌};
    ghost use Rattle.sb_lit.specs.Budgets.{Spending};

    ghost Value = { Spending };

    ghost view = { λ budget. record { spent = budget.spent; limit = budget.limit } };

    ghost invariant = { λ budget. budget.spent ≤ budget.limit };
}

/// The budget is spent.
#[derive(Debug, Drop, Clone, Copy, PartialEq, Eq, Error)]
#[error("the budget is spent")]
pub struct Spent;

impl Budget {
    /// A budget of which nothing is spent.
    pub fn new(limit: u64) -> Budget
        ensures { result ≡ record { spent = 0; limit = limit } }
    {
        Budget { spent: 0, limit }
    }

    /// Spends one step. `Spent` exactly where all is spent, and then nothing changes. Takes no memory.
    pub fn tick(&mut self) -> Result<(), Spent>
        ensures room { OnOk result (self.old.spent < self.old.limit) }
        ensures ok { OnOk result (self.new ≡ record self.old { spent = self.old.spent + 1 }) }
        ensures spent { OnErr result (self.old.spent ≡ self.old.limit) }
        ensures same { OnErr result (self.new ≡ self.old) }
        ensures within { self.new.spent ≤ self.new.limit }
    {
        if self.spent == self.limit {
            return Err(Spent);
        }
        self.spent += 1;
        Ok(())
    }

    /// How many steps were spent.
    pub fn spent(&self) -> u64
        ensures { result ≡ self.now.spent }
    {
        self.spent
    }

    /// How many steps there are in all.
    pub fn limit(&self) -> u64
        ensures { result ≡ self.now.limit }
    {
        self.limit
    }
}
