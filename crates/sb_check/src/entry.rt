//! Entries of the script.

ghost use Rattle.std.specs.Prelude.{◌≡◌, List, length, IfOk, OnOk, OnErr};
ghost use Rattle.sb_meaning.specs.Terms.{Term};
ghost use Rattle.sb_script.specs.Replies.{step_of};
ghost use Rattle.sb_rulebook.specs.Kept.{AllKept};
ghost use Rattle.sb_rulebook.specs.Accepted.{events_of};
ghost use Rattle.sb_stack.specs.Stacked.{state_of};
ghost use Rattle.sb_stack.specs.Steps.{IsEntry, entry_of};
ghost use Rattle.sb_rules.specs.Kept.{IsOver, kept_in, left_in};
ghost use Rattle.sb_models.specs.Laws.{LeavesKnown};
ghost use Rattle.sb_check.specs.Standing.{IsStanding, IsSame};
ghost use Rattle.sb_check.specs.Entering.{Enters, Keeps};

use crate::judge::Judge;
use sb_models::models_stay;
use sb_problem::normals_stay;
use sb_reader::Next;
use sb_stack::Step;
use std::alloc::AllocError;

/// What becomes of an entry of the script.
#[derive(Clone, Copy)]
pub enum Entered {
    /// The next entry may come.
    Goes,
    /// Levels were left, and the next entry may come.
    Left,
    /// A check waits for the lines of the proof, under the assumptions of the stack.
    Waits,
    /// The script ends with it.
    Ends,
}

impl Judge {
    /// Takes the next entry of the script, where no check waits. Linear in the entry; where levels are left, linear in
    /// what they hold and in the clauses that go, each with a logarithm of the number that were kept. `AllocError` only
    /// for want of memory, and then nothing more may be judged.
    pub fn enter(&mut self, entry: &Next) -> Result<Entered, AllocError>
        requires entry { IsEntry entry.now }
        requires standing { IsStanding self.old }
        ensures ok { IfOk result (λ entered. Enters entered (step_of (entry_of entry.now) (state_of self.old.stack))
            (state_of self.old.stack) self.new.stack) }
        ensures kept { IfOk result (λ entered. Keeps entered
            (events_of (step_of (entry_of entry.now) (state_of self.old.stack)) (state_of self.old.stack))
            self.old self.new) }
        ensures err { OnErr result (self.new ≡ record self.old { stack = self.new.stack }) }
        ensures next { self.new.next ≡ self.old.next }
        ensures standing { OnOk result (IsStanding self.new) }
    {
        normals_stay();
        models_stay();
        match self.stack.apply(entry)? {
            Step::Answer(_) => Ok(Entered::Goes),
            Step::Left(_, level) => {
                self.leave(level);
                Ok(Entered::Left)
            }
            Step::Check => Ok(Entered::Waits),
            Step::Exit(_) => Ok(Entered::Ends),
        }
    }

    /// Forgets what was known of the levels above this one, or of all assertions. Takes no memory.
    fn leave(&mut self, level: Option<usize>)
        ensures same { IsSame self.old self.new }
        ensures kept { (others : AllKept)
            → kept_in self.new.kept others ≡ left_in level (kept_in self.old.kept others) }
        ensures over { (ts : List Term) → IsOver ts self.old.kept → IsOver ts self.new.kept }
        ensures models { LeavesKnown (length self.old.stack.assertions) self.old.models self.new.models }
    {
        self.kept.leave(level);
        self.models.leave(self.stack.assertions().len());
    }
}
