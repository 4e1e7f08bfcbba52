//! The constants whose rows are to be looked at.

ghost use Rattle.std.specs.Prelude.{◌≡◌, ◌<◌, ◌||◌, ℕ, [], true, length, get_or, nat_eq, OnOk};
ghost use Rattle.sb_theory.specs.Fronts.{is_in};

use crate::numbers::{number_of, put_number};
use sb_term::Serial;
use std::alloc::{AllocError, Global};
use std::marker::Model;

/// Constants in the order in which they came, each once.
#[derive(Drop)]
pub(crate) struct Changed {
    serials: Vec<Serial>,
    /// By serial the place at which the constant stands, if it stands anywhere. What is left of constants that are gone
    /// does no harm, since the place is looked at.
    places: Vec<usize>,
}

impl Model for Changed {
    ghost use Rattle.std.specs.Prelude.{List};
    ghost use Rattle.sb_term.specs.declared.term.Serial.{Serial};

    ghost Value = { List Serial };

    ghost view = { λ changed. changed.serials.items };
}

impl Changed {
    /// No constants. Takes no memory.
    pub(crate) fn new(alloc: Global) -> Changed
        ensures { result ≡ [] }
    {
        Changed {
            serials: Vec::new(alloc),
            places: Vec::new(alloc),
        }
    }

    /// Adds a constant behind the others, unless it is there.
    pub(crate) fn add(&mut self, serial: Serial) -> Result<(), AllocError>
        ensures { OnOk result ((x : ℕ) → is_in self.new x ≡ (is_in self.old x || nat_eq serial.0 x)) }
    {
        if self.contains(serial) {
            return Ok(());
        }
        let place = self.serials.len();
        put_number(&mut self.places, serial, place)?;
        self.serials.push(serial)?;
        Ok(())
    }

    /// Whether a constant is there. Takes constant time.
    fn contains(&self, serial: Serial) -> bool
        ensures { result ≡ true → is_in self.now serial.0 ≡ true }
    {
        match self.serials.get(number_of(&self.places, serial)) {
            Some(other) => other.0 == serial.0,
            None => false,
        }
    }

    /// The number of constants.
    pub(crate) fn len(&self) -> usize
        ensures { result ≡ length self.now }
    {
        self.serials.len()
    }

    /// The constant at a place.
    pub(crate) fn at(&self, place: usize) -> Serial
        requires { place < length self.now }
        ensures { result ≡ get_or self.now place result }
    {
        self.serials[place]
    }

    /// Takes all constants off. Takes no memory.
    pub(crate) fn clear(&mut self)
        ensures { self.new ≡ [] }
    {
        self.serials.clear();
    }
}
