//! What differs in a run.

use sb_cases::buffer::Buffer;
use sb_cases::case::Case;
use sb_cases::directive::Directive;
use std::alloc::Global;

/// How much of what is wanted is to be there.
#[derive(Clone, Copy)]
pub enum Front {
    /// All of it.
    Whole,
    /// All of it or less.
    Any,
    /// Less than all of it.
    Less,
    /// All of it or less, and a refusal behind it.
    Refused,
}

/// A run, and what differs in it.
#[derive(Drop)]
pub struct Run {
    /// Its number among those of the case.
    pub number: u64,
    /// The file, the case and the run.
    place: Buffer,
    pub text: Buffer,
}

impl Run {
    /// No run yet.
    pub fn none(alloc: Global) -> Run {
        Run {
            number: 0,
            place: Buffer::new(alloc),
            text: Buffer::new(alloc),
        }
    }

    /// Begins the next run.
    pub fn begin(&mut self, case: &Case) {
        self.number = self.number.saturating_add(1);
        self.text.clear();
        self.place.clear();
        add_place(&mut self.place, case, self.number);
    }

    /// What came is to be what is wanted.
    pub fn expect(&mut self, what: &str, wanted: &[u8], came: &[u8]) {
        self.expect_front(what, Front::Whole, wanted, came);
    }

    /// What came is to be so much of what is wanted.
    pub fn expect_front(&mut self, what: &str, front: Front, wanted: &[u8], came: &[u8]) {
        if !fits(front, wanted, came) {
            add_difference(&mut self.text, self.place.bytes(), what, wanted, came);
        }
    }

    /// So much is to be counted.
    pub fn expect_count(&mut self, alloc: Global, what: &str, wanted: u64, came: u64) {
        if wanted != came {
            add_counts(
                &mut self.text,
                alloc,
                self.place.bytes(),
                what,
                wanted,
                came,
            );
        }
    }
}

/// Adds the file, the case and the run.
fn add_place(place: &mut Buffer, case: &Case, number: u64) {
    let gap = b": ";
    place.add(case.file.as_bytes());
    place.add(gap);
    place.add(case.name.as_bytes());
    place.add(b": run ");
    place.add_number(case.alloc, number);
    place.add(gap);
    place.add(case.words(Directive::Note).as_bytes());
    place.add(gap);
}

/// Adds what differs, what is wanted and what came.
fn add_difference(text: &mut Buffer, place: &[u8], what: &str, wanted: &[u8], came: &[u8]) {
    text.add(place);
    text.add(what.as_bytes());
    text.add(b" differs\nwanted:\n");
    text.add(wanted);
    text.add(b"\ncame:\n");
    text.add(came);
    text.add(b"\n");
}

/// Adds what differs, how much is wanted and how much came.
fn add_counts(text: &mut Buffer, alloc: Global, place: &[u8], what: &str, wanted: u64, came: u64) {
    let mut digits = Buffer::new(alloc);
    digits.add_number(alloc, wanted);
    let mut others = Buffer::new(alloc);
    others.add_number(alloc, came);
    add_difference(text, place, what, digits.bytes(), others.bytes());
}

/// Whether what came is so much of what is wanted.
fn fits(front: Front, wanted: &[u8], came: &[u8]) -> bool {
    match front {
        Front::Whole => came.len() == wanted.len() && wanted.starts_with(came),
        Front::Any => wanted.starts_with(came),
        Front::Less => came.len() < wanted.len() && wanted.starts_with(came),
        Front::Refused => is_refused(wanted, came),
    }
}

/// Whether a front of what is wanted came, and a refusal behind it.
fn is_refused(wanted: &[u8], came: &[u8]) -> bool {
    let text = str::from_utf8(came).unwrap_or("");
    match text.split_once("refused at line ") {
        Some((front, _)) => wanted.starts_with(front.as_bytes()),
        None => false,
    }
}
