//! Values that are looked for as a hint.

ghost use Rattle.std.specs.Prelude.{◌≡◌, IfOk, OnOk};
ghost use Rattle.sb_theory.specs.Strings.{Holds, Keeps};

use super::Strings;
use crate::hint::{asked_now, values};
use crate::numbers::put_number;
use crate::place::put_word;
use sb_lit::Lit;
use sb_term::Serial;
use sb_trail::Trail;
use sb_word::Word;
use std::alloc::AllocError;

impl Strings {
    /// Looks for values that make the wanted memberships on the trail true, unless they were looked for already, and
    /// gives them to the constants, whose rows are to be looked at then.
    pub(super) fn suggest(&mut self, trail: &Trail) -> Result<(), AllocError>
        requires { Holds self.old }
        ensures holds { OnOk result (Holds self.new) }
        ensures taken { self.new.taken.items ≡ self.old.taken.items }
        ensures keeps { Keeps self.old self.new }
    {
        let literals = asked_now(self.alloc, &self.wanted, &self.atoms, trail)?;
        if is_same(&literals, &self.tried) {
            return Ok(());
        }
        let mut found = values(self.alloc, &mut self.store, &self.atoms, &literals)?;
        self.tried = literals;
        while let Some(pair) = found.pop() {
            self.give(pair.0, pair.1)?;
        }
        Ok(())
    }

    /// Gives a word to a constant, of which nothing is known then.
    fn give(&mut self, serial: Serial, word: Word) -> Result<(), AllocError>
        requires { Holds self.old }
        ensures holds { OnOk result (Holds self.new) }
        ensures taken { self.new.taken.items ≡ self.old.taken.items }
        ensures keeps { Keeps self.old self.new }
    {
        self.changed.add(serial)?;
        put_number(&mut self.fitting, serial, 0)?;
        put_word(&mut self.words, serial, word)
    }
}

/// Whether these are the same literals.
fn is_same(some: &[Lit], others: &[Lit]) -> bool {
    some == others
}
