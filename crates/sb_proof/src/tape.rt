//! Where the lines of a proof are put.

ghost use Rattle.std.specs.Prelude.{◌≡◌, ◌≢◌, ◌++◌, ℕ, List, [], Option, Some, OnOk, OnErr, Err};
ghost use Rattle.sb_script.specs.Steps.{line as ended};
ghost use Rattle.sb_rulebook.specs.Lines.{text_of};
ghost use Rattle.sb_proof.specs.Lines.{line_in};
ghost use Rattle.sb_proof.specs.Tapes.{with_bytes, PutsFront, CountsFault};

use crate::line::Line;
use crate::print::put_line;
use std::alloc::{AllocError, Global};
use std::marker::Model;
use thiserror::Error;

/// Why a line was not put.
#[derive(Clone, Copy, Debug, Error)]
pub enum TapeFault {
    /// What is behind the tape failed.
    #[error("the proof can't be written")]
    Fault,
    /// The tape wanted memory.
    #[error("out of memory")]
    NoMemory,
}

impl From<AllocError> for TapeFault {
    ghost use Rattle.sb_proof.specs.declared.tape.TapeFault.TheVariants.{NoMemory};

    ghost from_gives = { λ _ error. error ≡ NoMemory };

    fn from(_error: AllocError) -> TapeFault {
        TapeFault::NoMemory
    }
}

/// Where the lines of a proof are put. `Fault` comes only where the count of faults rose.
pub trait Tape {
    /// The bytes put so far, where the tape tells them.
    ghost told: { Self → Option (List ℕ) };

    /// How often what is behind the tape has failed. The count never falls, and stands still at
    /// 2^64 - 1. Only a fault raises it.
    ghost faults: { Self → ℕ };

    /// Puts the text of the line, with its line feed. After an error some bytes of its front are put.
    fn put(&mut self, line: &Line) -> Result<(), TapeFault>
        ensures ok { OnOk result (told self.new ≡ with_bytes (ended (text_of (line_in line.now))) (told self.old)) }
        ensures err { OnErr result (PutsFront (ended (text_of (line_in line.now))) (told self.old) (told self.new)) }
        ensures counts { CountsFault result (faults self.old) (faults self.new) };
}

/// Room for most lines, so that a text does not grow byte by byte.
const ROOM: usize = 64;

/// A tape in memory, which keeps the bytes. It never answers `Fault`.
#[derive(Drop)]
pub struct MemTape {
    bytes: Vec<u8>,
    text: String,
}

impl Model for MemTape {
    ghost Value = { List ℕ };

    ghost view = { λ tape. tape.bytes.items };
}

impl MemTape {
    /// A tape with nothing on it. Takes no memory.
    pub fn new(alloc: Global) -> MemTape
        ensures { result ≡ [] }
    {
        MemTape {
            bytes: Vec::new(alloc),
            text: String::new(alloc),
        }
    }

    /// The bytes put so far.
    pub fn bytes(&self) -> &[u8]
        ensures { result.now ≡ self.now }
    {
        self.bytes.as_slice()
    }

    /// Appends the line's text, or leaves the bytes as they are.
    fn append(&mut self, line: &Line) -> Result<(), AllocError>
        ensures ok { OnOk result (self.new ≡ self.old ++ ended (text_of (line_in line.now))) }
        ensures err { OnErr result (self.new ≡ self.old) }
    {
        self.text.clear();
        self.text.reserve(ROOM)?;
        put_line(&mut self.text, line)?;
        self.bytes.extend_from_slice(self.text.as_bytes())
    }
}

/// After an error nothing of the line is put. Linear in the length of the line's text.
impl Tape for MemTape {
    ghost told = { λ tape. Some tape };

    ghost faults = { λ _. 0 };

    fn put(&mut self, line: &Line) -> Result<(), TapeFault>
        ensures ok { OnOk result (self.new ≡ self.old ++ ended (text_of (line_in line.now))) }
        ensures err { OnErr result (self.new ≡ self.old) }
        ensures takes_memory_alone { result ≢ Err TapeFault.Fault }
    {
        self.append(line)?;
        Ok(())
    }
}
