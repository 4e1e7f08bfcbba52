//! The feed: bytes in, entries out.

ghost use Rattle.std.specs.Prelude.{◌≡◌, ◌++◌, [], true, false, IfOk, OnOk, OnErr};
ghost use Rattle.sb_reader.specs.Feeding.{IsNext};
ghost use Rattle.sb_reader.specs.Scanning.{EndsEntry};

use crate::parse::parse_entry;
use crate::scan::{Found, Scan, find_end, shorten};
use crate::sexpr::Sexpr;
use std::alloc::{AllocError, Global};
use std::marker::Model;

/// Why an entry is refused: its first fault in reading order.
#[derive(Clone, Copy, PartialEq, Eq)]
pub enum Refusal {
    /// A closing parenthesis outside a form.
    StrayClose = 1,
    /// A text, a quoted symbol or a run of bytes that is no token.
    BadToken = 2,
    /// Parentheses nested deeper than 512.
    TooDeep = 3,
    /// A token outside a form.
    BareToken = 4,
}

/// How a script ended.
#[derive(Clone, Copy, PartialEq, Eq)]
pub enum Ending {
    /// Outside a form.
    Clean,
    /// Within a form, a text or a quoted symbol.
    Unfinished,
}

/// What comes next in a script.
#[derive(Drop)]
pub enum Next {
    /// A form in parentheses without a fault.
    Command(Sexpr),
    /// An entry with a fault.
    Refused(Refusal),
    /// No whole entry is left, and more bytes may come.
    NotYet,
    /// No whole entry is left, and no more bytes come.
    Ended(Ending),
}

/// A script that comes in pieces. Memory is linear in the longest entry or piece, and time in the bytes that were
/// pushed. A comment outside a form takes no memory, however long it is; one within a form counts with the form.
#[derive(Drop)]
pub struct Feed {
    alloc: Global,
    /// The bytes, of which those in front of `start` are answered.
    kept: Vec<u8>,
    start: usize,
    /// The scan of the bytes from `start` on.
    scan: Scan,
    finished: bool,
}

impl Model for Feed {
    ghost use Rattle.std.specs.Prelude.{drop};
    ghost use Rattle.sb_reader.specs.Feeding.{Unanswered};
    ghost use Rattle.sb_reader.specs.Scanning.{IsStarted};

    ghost Value = { Unanswered };

    ghost view = { λ f. (drop f.start f.kept.items, f.finished) };

    ghost invariant = { λ f. IsStarted f.kept.items f.start f.scan };
}

impl Feed {
    /// An empty feed. It takes no memory.
    pub fn new(alloc: Global) -> Feed
        ensures { result ≡ ([], false) }
    {
        Feed {
            alloc,
            kept: Vec::new(alloc),
            start: 0,
            scan: Scan::new(),
            finished: false,
        }
    }

    /// Takes the next bytes of the script. Linear in their number, over all pushes.
    pub fn push(&mut self, piece: &[u8]) -> Result<(), AllocError>
        requires { self.old.1 ≡ false }
        ensures ok { OnOk result (self.new ≡ (self.old.0 ++ piece.now, false)) }
        ensures err { OnErr result (self.new ≡ self.old) }
    {
        self.drop_answered();
        self.kept.extend_from_slice(piece)
    }

    /// Drops the bytes that are answered, once they are more than half: so fewer bytes are moved than dropped.
    fn drop_answered(&mut self)
        ensures { self.new ≡ self.old }
    {
        if self.start > self.kept.len() / 2 {
            let rest = self.kept.len() - self.start;
            self.kept.copy_within(self.start.., 0);
            self.kept.truncate(rest);
            self.start = 0;
        }
    }

    /// Says that no more bytes come. It takes no memory.
    pub fn finish(&mut self)
        ensures { self.new ≡ (self.old.0, true) }
    {
        self.finished = true;
    }

    /// The next entry, or that none is whole. Linear in the bytes of the entry that were not scanned yet and in those
    /// of the entry. White space and comments in front of nothing else are dropped, but for a semicolon in place of a
    /// comment that goes on.
    pub fn next(&mut self) -> Result<Next, AllocError>
        ensures ok { IfOk result (λ next. IsNext next self.old self.new) }
        ensures err { OnErr result (self.new ≡ self.old) }
        ensures finished { self.new.1 ≡ self.old.1 }
    {
        match find_end(&self.kept[self.start..], &mut self.scan, self.finished) {
            Found::End(end) => self.take(end),
            _ if !self.finished => {
                self.start = shorten(&mut self.kept, self.start, &mut self.scan);
                Ok(Next::NotYet)
            }
            Found::Gap => Ok(Next::Ended(Ending::Clean)),
            Found::Part => Ok(Next::Ended(Ending::Unfinished)),
        }
    }

    /// Takes the bytes of an entry.
    fn take(&mut self, end: usize) -> Result<Next, AllocError>
        requires { EndsEntry self.old.1 self.old.0 end }
        ensures ok { IfOk result (λ next. IsNext next self.old self.new) }
        ensures err { OnErr result (self.new ≡ self.old) }
        ensures finished { self.new.1 ≡ self.old.1 }
    {
        let behind = self.start + end;
        let next = match parse_entry(self.alloc, &self.kept[self.start..behind])? {
            Ok(sexpr) => Next::Command(sexpr),
            Err(refusal) => Next::Refused(refusal),
        };
        self.start = behind;
        self.scan = Scan::new();
        Ok(next)
    }
}
