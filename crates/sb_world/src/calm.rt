//! A world in memory where nothing fails.

ghost use Rattle.std.specs.Prelude.{◌≡◌, ◌≢◌, ℕ, ◌<◌, ◌≤◌, [], List, length, min, Some, IsOk, IfOk, OnOk, OnErr, IfSome};
ghost use Rattle.sb_world.specs.Outside.{NotOpened, ReadsFront, input_at, output_at, read_at, write_at};
ghost use Rattle.sb_world.specs.Memory.{opening_of};
ghost use Rattle.sb_world.specs.Worlds.{calm_outside, never_opened, never_created, AddsFile};

use crate::ports::Ports;
use crate::store::Store;
use crate::{InPort, Opened, OutPort, World, WorldError};
use std::alloc::{AllocError, Global};

/// A world in memory where a call fails only for want of memory. A name that it lacks is an empty file.
#[derive(Drop)]
pub struct CalmWorld {
    alloc: Global,
    store: Store,
    ports: Ports,
}

impl CalmWorld {
    /// No files, an empty standard input, and no port opened. Takes no memory.
    pub fn new(alloc: Global) -> Self
        ensures files { (name : List ℕ) → (calm_outside result).file name ≡ Some [] }
        ensures standard_input { (calm_outside result).standard_input ≡ Some [] }
        ensures inputs { (port : InPort) → input_at port (calm_outside result) ≡ never_opened }
        ensures outputs { (port : OutPort) → output_at port (calm_outside result) ≡ never_created }
    {
        CalmWorld {
            alloc,
            store: Store::new(alloc),
            ports: Ports::new(alloc),
        }
    }

    /// Adds a file. It takes the place of an older one of its name.
    pub fn add_file(&mut self, name: &str, bytes: &[u8]) -> Result<(), AllocError>
        ensures ok { OnOk result (AddsFile (calm_outside self.old) (calm_outside self.new) name.now bytes.now) }
        ensures err { OnErr result (calm_outside self.new ≡ calm_outside self.old) }
    {
        self.store.add_file(self.alloc, name, bytes)
    }

    /// Sets what an input opened without a name holds from then on.
    pub fn set_standard_input(&mut self, bytes: &[u8]) -> Result<(), AllocError>
        ensures ok { OnOk result
            (calm_outside self.new ≡ record (calm_outside self.old) { standard_input = Some bytes.now }) }
        ensures err { OnErr result (calm_outside self.new ≡ calm_outside self.old) }
    {
        self.store.set_standard_input(self.alloc, bytes)
    }

    /// The bytes written to a port since it was last created.
    pub fn written(&self, port: OutPort) -> &[u8]
        ensures { (output_at port (calm_outside self.now)).written ≡ Some result.now }
    {
        self.ports.written(port)
    }

    /// How an input port was last opened.
    pub fn opened(&self, port: InPort) -> &Opened
        ensures { (input_at port (calm_outside self.now)).opening ≡ Some (opening_of result.now) }
    {
        self.ports.opened(port)
    }

    /// How an output port was last created.
    pub fn created(&self, port: OutPort) -> &Opened
        ensures { (output_at port (calm_outside self.now)).opening ≡ Some (opening_of result.now) }
    {
        self.ports.created(port)
    }
}

impl World for CalmWorld {
    ghost outside = { calm_outside };

    ghost faults = { λ _. 0 };

    fn open_input(&mut self, port: InPort, name: Option<&str>) -> Result<(), WorldError> {
        let bytes = self.store.source(name).unwrap_or(&[]);
        self.ports.open(self.alloc, port, name, bytes)?;
        Ok(())
    }

    fn create_output(&mut self, port: OutPort, name: Option<&str>) -> Result<(), WorldError> {
        self.ports.create(self.alloc, port, name)?;
        Ok(())
    }

    fn read(&mut self, port: InPort, buffer: &mut [u8]) -> Result<usize, WorldError>
        requires { 0 < length buffer.old }
        ensures within { IfOk result (λ count. count ≤ length buffer.old) }
        ensures moved { IfOk result (λ count. calm_outside self.new ≡ read_at port count (calm_outside self.old)) }
        ensures bytes { IfOk result
            (λ count. IfSome (input_at port (calm_outside self.old)).left (λ left. ReadsFront left buffer.new count)) }
        ensures unopened { IfOk result (λ count. (input_at port (calm_outside self.old)).opening ≡ Some NotOpened
            → count ≡ 0) }
        ensures ok { IsOk result }
        ensures longest { IfOk result
            (λ count. IfSome (input_at port (calm_outside self.old)).left
            (λ left. count ≡ min (length buffer.old) (length left))) }
    {
        Ok(self.ports.read(port, buffer))
    }

    fn write(&mut self, port: OutPort, piece: &[u8]) -> Result<usize, WorldError>
        ensures written { OnOk result (calm_outside self.new ≡ write_at port piece.now (calm_outside self.old)) }
        ensures whole { IfOk result (λ count. count ≡ length piece.now) }
        ensures err { OnErr result (calm_outside self.new ≡ calm_outside self.old) }
        ensures never_fails { result ≢ Err WorldError.Failed }
    {
        self.ports.write(port, piece)?;
        Ok(piece.len())
    }
}
