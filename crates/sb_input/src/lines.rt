//! Lines, taken one after another.

ghost use Rattle.std.specs.Prelude.{◌≡◌, ◌<◌, ◌≤◌, true, false, [], IfOk, OnOk, OnErr};
ghost use Rattle.sb_input.specs.TakingLines.{Advances, IsCutShort, CountsLinesFault};
ghost use Rattle.sb_input.specs.KeepingLines.{Takes, TakesRest, FindsKept, ReadsPiece, cleared};

use crate::piece::{make_room, read_proof};
use crate::search::find_feed;
use sb_world::{World, WorldError};
use std::alloc::{AllocError, Global};
use std::marker::Model;
use thiserror::Error;

/// What was found of a proof.
#[derive(Clone, Copy)]
pub enum Found {
    /// The next line, and whether a line feed ended it. The last line of a proof may lack one.
    Line { ended: bool },
    /// No line is left: the proof was read to its end.
    End,
    /// As many bytes as the limit were read, the proof's end was not met, and no whole line is left among them.
    Limit,
}

/// Why it is not known what comes next.
#[derive(Clone, Copy, Debug, Error)]
pub enum LinesFault {
    /// The outside failed.
    #[error("input or output failed")]
    Fault,
    #[error("out of memory")]
    NoMemory,
}

impl From<AllocError> for LinesFault {
    ghost use Rattle.sb_input.specs.declared.lines.LinesFault.TheVariants.{NoMemory};

    ghost from_gives = { λ _ fault. fault ≡ NoMemory };

    fn from(_error: AllocError) -> LinesFault {
        LinesFault::NoMemory
    }
}

impl From<WorldError> for LinesFault {
    ghost use Rattle.sb_input.specs.TakingLines.{fault_of};

    ghost from_gives = { λ error fault. fault ≡ fault_of error };

    fn from(error: WorldError) -> LinesFault {
        match error {
            WorldError::Failed => LinesFault::Fault,
            WorldError::NoMemory => LinesFault::NoMemory,
        }
    }
}

/// A proof that is read line by line. Memory is linear in the longest line and a piece, and time in the bytes that were
/// read: each is searched once for a line feed, and moved a constant number of times.
#[derive(Drop)]
pub struct Lines {
    /// What the world gives at a time.
    piece: Vec<u8>,
    /// The bytes that were read, of which those in front of `start` are taken.
    bytes: Vec<u8>,
    start: usize,
    /// The line that was found last is here.
    line_start: usize,
    line_end: usize,
    /// So many of the bytes from `start` on have no line feed among them.
    searched: usize,
    ended: bool,
    read: u64,
    limit: u64,
}

impl Model for Lines {
    ghost use Rattle.sb_input.specs.TakingLines.{LinesState, state_of};
    ghost use Rattle.sb_input.specs.KeepingLines.{IsSearched};

    ghost Value = { LinesState };

    ghost view = { λ l. state_of l.bytes.items l.start l.line_start l.line_end l.ended l.read l.limit };

    ghost invariant = { λ l.
        IsSearched l.bytes.items l.start l.line_start l.line_end l.searched l.ended l.read l.limit };
}

impl Lines {
    /// A proof of which nothing is read yet, and of which at most so many bytes will be. It takes no memory.
    pub fn new(alloc: Global, limit: u64) -> Lines
        ensures { result ≡ record { line = []; kept = []; ended = false; read = 0; limit = limit } }
    {
        Lines {
            piece: Vec::new(alloc),
            bytes: Vec::new(alloc),
            start: 0,
            line_start: 0,
            line_end: 0,
            searched: 0,
            ended: false,
            read: 0,
            limit,
        }
    }

    /// The line that was found last, without its line feed; empty where none was found.
    pub fn line(&self) -> &[u8]
        ensures { result.now ≡ self.now.line }
    {
        &self.bytes[self.line_start..self.line_end]
    }

    /// Finds the next line, reading on where none is whole, at most 64 KiB at a time. Behind the proof's end nothing is
    /// read. `Fault` comes only where the world's count of faults rose, and `NoMemory` where there is no room for the
    /// line and a piece; no byte is lost by either, so a further call goes on. Linear, over all calls, in the bytes
    /// that are read.
    pub fn advance<W: World>(&mut self, world: &mut W) -> Result<Found, LinesFault>
        ensures ok { IfOk result
            (λ found. Advances found self.old self.new (W.outside world.old) (W.outside world.new)) }
        ensures err { OnErr result (IsCutShort self.old self.new (W.outside world.old) (W.outside world.new)) }
        ensures faults { CountsLinesFault result (W.faults world.old) (W.faults world.new) }
    {
        loop {
            if let Some(found) = self.find() {
                return Ok(found);
            }
            self.read_on(world)?;
        }
    }

    /// What is found among the bytes that were read; `None` where more have to be read.
    fn find(&mut self) -> Option<Found>
        ensures found { FindsKept result self.old self.new }
        ensures within { self.new.read ≤ self.new.limit }
        ensures below { self.new.ended ≡ true → self.new.read < self.new.limit }
    {
        if self.take_line() {
            Some(Found::Line { ended: true })
        } else if self.ended {
            Some(self.take_rest())
        } else if self.read == self.limit {
            Some(Found::Limit)
        } else {
            None
        }
    }

    /// Takes the next line, where a line feed ends it, and says whether one does.
    fn take_line(&mut self) -> bool
        ensures taken { Takes result self.old self.new }
        ensures within { self.new.read ≤ self.new.limit }
        ensures below { self.new.ended ≡ true → self.new.read < self.new.limit }
    {
        match find_feed(&self.bytes, self.start + self.searched) {
            Some(place) => {
                let end = self.start + self.searched + place;
                self.line_start = self.start;
                self.line_end = end;
                self.start = end + 1;
                self.searched = 0;
                true
            }
            None => {
                self.line_start = 0;
                self.line_end = 0;
                self.searched = self.bytes.len() - self.start;
                false
            }
        }
    }

    /// Takes all that is left as the last line, where anything is.
    fn take_rest(&mut self) -> Found
        ensures { TakesRest result self.old self.new }
    {
        if self.start == self.bytes.len() {
            return Found::End;
        }
        self.line_start = self.start;
        self.line_end = self.bytes.len();
        self.start = self.line_end;
        self.searched = 0;
        Found::Line { ended: false }
    }

    /// Reads the next bytes of the proof. There is room for them before they are read, so none is lost.
    fn read_on<W: World>(&mut self, world: &mut W) -> Result<(), LinesFault>
        requires goes_on { self.old.ended ≡ false }
        requires room { self.old.read < self.old.limit }
        ensures ok { OnOk result (ReadsPiece self.old self.new (W.outside world.old) (W.outside world.new)) }
        ensures err { OnErr result ((self.new ≡ cleared self.old) × (W.outside world.new ≡ W.outside world.old)) }
        ensures faults { CountsLinesFault result (W.faults world.old) (W.faults world.new) }
    {
        self.drop_taken();
        make_room(&mut self.piece, self.limit - self.read)?;
        self.bytes.reserve(self.piece.len())?;
        let count = read_proof(&mut self.piece, world)?;
        self.bytes.extend_from_slice(&self.piece[..count])?;
        self.read += count as u64;
        self.ended = count == 0;
        Ok(())
    }

    /// Gives up the line that was found last, and drops the bytes that are taken, once they are more than half: so
    /// fewer bytes are moved than dropped.
    fn drop_taken(&mut self)
        ensures { self.new ≡ cleared self.old }
    {
        self.line_start = 0;
        self.line_end = 0;
        if self.start > self.bytes.len() / 2 {
            let rest = self.bytes.len() - self.start;
            self.bytes.copy_within(self.start.., 0);
            self.bytes.truncate(rest);
            self.start = 0;
        }
    }
}
