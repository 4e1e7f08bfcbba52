//! Fronts of a script: which entries are whole in them, and what is answered.

use sb_cases::buffer::Buffer;

/// Where the next byte of a script stands.
#[derive(Clone, Copy)]
enum Place {
    Plain,
    Text,
    Quoted,
    Comment,
}

/// What stands in front of a cut of a script of forms in parentheses.
#[derive(Clone, Copy)]
pub struct Cut {
    /// How many entries are whole.
    entries: u64,
    /// How many parentheses are open behind them.
    depth: u64,
    place: Place,
}

/// What stands in a front of a script.
pub fn cut_of(front: &[u8]) -> Cut {
    let mut cut = Cut {
        entries: 0,
        depth: 0,
        place: Place::Plain,
    };
    for byte in front {
        cut = cut.behind(*byte);
    }
    cut
}

impl Cut {
    /// What stands in front of the next cut.
    fn behind(self, byte: u8) -> Cut {
        match self.place {
            Place::Plain => self.behind_plain(byte),
            Place::Text => self.unless(byte, b'"'),
            Place::Quoted => self.unless(byte, b'|'),
            Place::Comment => self.unless(byte, b'\n'),
        }
    }

    /// What stands behind a byte that is in no text, quoted name or comment.
    fn behind_plain(self, byte: u8) -> Cut {
        match byte {
            b'(' => self.opened(),
            b')' => self.closed(),
            b'"' => self.at(Place::Text),
            b'|' => self.at(Place::Quoted),
            b';' => self.at(Place::Comment),
            _ => self,
        }
    }

    /// The same at another place.
    fn at(self, place: Place) -> Cut {
        Cut { place, ..self }
    }

    /// The same, and outside again behind this byte.
    fn unless(self, byte: u8, end: u8) -> Cut {
        if byte == end {
            return self.at(Place::Plain);
        }
        self
    }

    /// One parenthesis more is open.
    fn opened(self) -> Cut {
        Cut {
            depth: self.depth.saturating_add(1),
            ..self
        }
    }

    /// One parenthesis less is open, and behind the outermost one an entry is whole.
    fn closed(self) -> Cut {
        let whole = u64::from(self.depth == 1);
        Cut {
            depth: self.depth.saturating_sub(1),
            entries: self.entries.saturating_add(whole),
            ..self
        }
    }
}

/// The status that is wanted of a front.
pub fn cut_status(cut: &Cut) -> &'static str {
    if cut.depth > 0 {
        return "unfinished";
    }
    "done"
}

/// Adds the answers that are wanted of a front: a line for each whole entry, and one for the end within a form.
pub fn add_answers(cut: &Cut, answers: &[u8], wanted: &mut Buffer) {
    let mut lines = 0u64;
    for byte in answers {
        if lines < cut.entries {
            wanted.push(*byte);
        }
        lines = lines.saturating_add(u64::from(*byte == b'\n'));
    }
    if cut.depth > 0 {
        wanted.add(b"(error \"unexpected end of input\")\n");
    }
}
