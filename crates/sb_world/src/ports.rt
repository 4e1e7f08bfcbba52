//! The ports of a world in memory.

ghost use Rattle.std.specs.Prelude.{◌≡◌, [], ◌++◌, length, min, take, drop, IfOk, OnOk, OnErr};
ghost use Rattle.std.specs.Option.{option_copied};
ghost use Rattle.sb_world.specs.Outside.{NotOpened, opening_by};
ghost use Rattle.sb_world.specs.Memory.{opening_of, Reading, Writing};
ghost use Rattle.sb_world.specs.Ports.{reading_at, writing_at, with_reading, with_writing, opened_by, created_by, after_read, after_write};

use crate::{InPort, OutPort};
use std::alloc::{AllocError, Global};
use std::marker::Model;

/// How a port was opened or created.
#[derive(PartialEq, Eq, Drop)]
pub enum Opened {
    /// Not yet.
    Not,
    /// Without a name.
    Nameless,
    /// By the name of a file.
    Named(String),
}

impl Opened {
    fn by(alloc: Global, name: Option<&str>) -> Result<Opened, AllocError>
        ensures { IfOk result (λ opened. opening_of opened ≡ opening_by (option_copied name.entry)) }
    {
        match name {
            None => Ok(Opened::Nameless),
            Some(name) => Ok(Opened::Named(String::from_str(alloc, name)?)),
        }
    }
}

/// An input port. What is before `at` was read.
#[derive(Drop)]
struct Source {
    opened: Opened,
    bytes: Vec<u8>,
    at: usize,
}

impl Model for Source {
    ghost use Rattle.std.specs.Prelude.{◌≡◌, ◌≤◌, [], drop, vec_len};
    ghost use Rattle.sb_world.specs.Outside.{NotOpened};
    ghost use Rattle.sb_world.specs.Memory.{opening_of, Reading};

    ghost Value = { Reading };

    ghost view = { λ s. record { opening = opening_of s.opened; left = drop s.at s.bytes.items } };

    ghost invariant = { λ s. (s.at ≤ vec_len s.bytes) × (opening_of s.opened ≡ NotOpened → s.bytes.items ≡ []) };
}

impl Source {
    fn new(alloc: Global) -> Self
        ensures { result ≡ record { opening = NotOpened; left = [] } }
    {
        Source {
            opened: Opened::Not,
            bytes: Vec::new(alloc),
            at: 0,
        }
    }

    fn open(alloc: Global, name: Option<&str>, bytes: &[u8]) -> Result<Self, AllocError>
        ensures { IfOk result (λ source. source ≡ opened_by (option_copied name.entry) bytes.now) }
    {
        let opened = Opened::by(alloc, name)?;
        let bytes = Vec::from_slice(alloc, bytes)?;
        Ok(Source {
            opened,
            bytes,
            at: 0,
        })
    }

    fn read(&mut self, buffer: &mut [u8]) -> usize
        ensures count { result ≡ min (length buffer.old) (length self.old.left) }
        ensures bytes { buffer.new ≡ take result self.old.left ++ drop result buffer.old }
        ensures moved { self.new ≡ after_read result self.old }
        ensures unopened { self.old.opening ≡ NotOpened → result ≡ 0 }
    {
        let left = &self.bytes[self.at..];
        let count = buffer.len().min(left.len());
        buffer[..count].copy_from_slice(&left[..count]);
        self.at += count;
        count
    }
}

/// An output port.
#[derive(Drop)]
struct Sink {
    created: Opened,
    written: Vec<u8>,
}

impl Model for Sink {
    ghost use Rattle.sb_world.specs.Memory.{opening_of, Writing};

    ghost Value = { Writing };

    ghost view = { λ s. record { opening = opening_of s.created; written = s.written.items } };
}

impl Sink {
    fn new(alloc: Global) -> Self
        ensures { result ≡ record { opening = NotOpened; written = [] } }
    {
        Sink {
            created: Opened::Not,
            written: Vec::new(alloc),
        }
    }

    fn create(alloc: Global, name: Option<&str>) -> Result<Self, AllocError>
        ensures { IfOk result (λ sink. sink ≡ created_by (option_copied name.entry)) }
    {
        Ok(Sink {
            created: Opened::by(alloc, name)?,
            written: Vec::new(alloc),
        })
    }

    fn write(&mut self, piece: &[u8]) -> Result<(), AllocError>
        ensures ok { OnOk result (self.new ≡ after_write piece.now self.old) }
        ensures err { OnErr result (self.new ≡ self.old) }
    {
        self.written.extend_from_slice(piece)
    }
}

/// Two input ports and three output ports.
#[derive(Drop)]
pub(crate) struct Ports {
    script_in: Source,
    proof_in: Source,
    answers: Sink,
    proof_out: Sink,
    faults: Sink,
}

impl Ports {
    pub(crate) fn new(alloc: Global) -> Self
        ensures inputs { (port : InPort) → reading_at port result ≡ record { opening = NotOpened; left = [] } }
        ensures outputs { (port : OutPort) → writing_at port result ≡ record { opening = NotOpened; written = [] } }
    {
        Ports {
            script_in: Source::new(alloc),
            proof_in: Source::new(alloc),
            answers: Sink::new(alloc),
            proof_out: Sink::new(alloc),
            faults: Sink::new(alloc),
        }
    }

    pub(crate) fn open(
        &mut self,
        alloc: Global,
        port: InPort,
        name: Option<&str>,
        bytes: &[u8],
    ) -> Result<(), AllocError>
        ensures ok { OnOk result
            (self.new ≡ with_reading port (opened_by (option_copied name.entry) bytes.now) self.old) }
        ensures err { OnErr result (self.new ≡ self.old) }
    {
        let source = Source::open(alloc, name, bytes)?;
        match port {
            InPort::Script => self.script_in = source,
            InPort::Proof => self.proof_in = source,
        }
        Ok(())
    }

    pub(crate) fn create(
        &mut self,
        alloc: Global,
        port: OutPort,
        name: Option<&str>,
    ) -> Result<(), AllocError>
        ensures ok { OnOk result (self.new ≡ with_writing port (created_by (option_copied name.entry)) self.old) }
        ensures err { OnErr result (self.new ≡ self.old) }
    {
        let sink = Sink::create(alloc, name)?;
        match port {
            OutPort::Answers => self.answers = sink,
            OutPort::Proof => self.proof_out = sink,
            OutPort::Faults => self.faults = sink,
        }
        Ok(())
    }

    pub(crate) fn read(&mut self, port: InPort, buffer: &mut [u8]) -> usize
        ensures count { result ≡ min (length buffer.old) (length (reading_at port self.old).left) }
        ensures bytes { buffer.new ≡ take result (reading_at port self.old).left ++ drop result buffer.old }
        ensures moved { self.new ≡ with_reading port (after_read result (reading_at port self.old)) self.old }
        ensures unopened { (reading_at port self.old).opening ≡ NotOpened → result ≡ 0 }
    {
        match port {
            InPort::Script => self.script_in.read(buffer),
            InPort::Proof => self.proof_in.read(buffer),
        }
    }

    pub(crate) fn write(&mut self, port: OutPort, piece: &[u8]) -> Result<(), AllocError>
        ensures ok { OnOk result
            (self.new ≡ with_writing port (after_write piece.now (writing_at port self.old)) self.old) }
        ensures err { OnErr result (self.new ≡ self.old) }
    {
        match port {
            OutPort::Answers => self.answers.write(piece),
            OutPort::Proof => self.proof_out.write(piece),
            OutPort::Faults => self.faults.write(piece),
        }
    }

    pub(crate) fn opened(&self, port: InPort) -> &Opened
        ensures { opening_of result.now ≡ (reading_at port self.now).opening }
    {
        match port {
            InPort::Script => &self.script_in.opened,
            InPort::Proof => &self.proof_in.opened,
        }
    }

    pub(crate) fn created(&self, port: OutPort) -> &Opened
        ensures { opening_of result.now ≡ (writing_at port self.now).opening }
    {
        &self.sink(port).created
    }

    pub(crate) fn written(&self, port: OutPort) -> &[u8]
        ensures { result.now ≡ (writing_at port self.now).written }
    {
        &self.sink(port).written
    }

    fn sink(&self, port: OutPort) -> &Sink
        ensures { result.now ≡ writing_at port self.now }
    {
        match port {
            OutPort::Answers => &self.answers,
            OutPort::Proof => &self.proof_out,
            OutPort::Faults => &self.faults,
        }
    }
}
