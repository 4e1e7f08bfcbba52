//! Text that grows.

use sb_hints::NotLearned;
use sb_lit::Lit;
use std::alloc::{AllocError, Global};

/// Text that grows. Where there was no memory for some of it, it is kept that it is not whole.
#[derive(Drop)]
pub struct Text {
    alloc: Global,
    bytes: Vec<u8>,
    whole: bool,
}

impl Text {
    /// No text.
    pub fn new(alloc: Global) -> Text {
        Text {
            alloc,
            bytes: Vec::new(alloc),
            whole: true,
        }
    }

    /// Adds a text.
    pub fn add(&mut self, text: &str) {
        match self.bytes.extend_from_slice(text.as_bytes()) {
            Ok(()) => {}
            Err(_) => self.whole = false,
        }
    }

    /// Adds a text that was made.
    fn add_made(&mut self, made: Result<String, AllocError>) {
        match made {
            Ok(text) => self.add(text.as_str()),
            Err(_) => self.whole = false,
        }
    }

    /// Adds a text, and a number in decimal.
    pub fn add_number(&mut self, front: &str, number: u64) {
        let made = format!(in self.alloc; "{front}{number}");
        self.add_made(made);
    }

    /// Adds a text, and a number or that there is none.
    pub fn add_option(&mut self, front: &str, number: Option<u64>) {
        self.add(front);
        match number {
            Some(number) => {
                self.add_number("Some(", number);
                self.add(")");
            }
            None => self.add("None"),
        }
    }

    /// Adds a text, and whether something is so.
    pub fn add_bool(&mut self, front: &str, value: bool) {
        self.add(front);
        match value {
            true => self.add("true"),
            false => self.add("false"),
        }
    }

    /// Adds a literal as a number, behind a space.
    pub fn add_literal(&mut self, literal: Lit) {
        let front = if literal.positive { " " } else { " -" };
        self.add_number(front, literal.atom);
    }

    /// Adds why a clause is not learned.
    pub fn add_reason(&mut self, why: NotLearned) {
        let made = format!(in self.alloc; "{why}");
        self.add_made(made);
    }

    /// The bytes.
    pub fn bytes(&self) -> &[u8] {
        &self.bytes
    }

    /// Whether there was memory for all that was ever added.
    pub fn is_whole(&self) -> bool {
        self.whole
    }
}
