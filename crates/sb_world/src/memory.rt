//! A world in memory whose calls fail where a test asks for it.

ghost use Rattle.std.specs.Prelude.{◌≡◌, ◌≢◌, ℕ, ◌<◌, ◌≤◌, ◌⊎◌, ◌↔◌, [], ◌∷◌, ◌++◌, List, length, min, take, Some, None, IfOk, OnOk, OnErr, IfSome, IsNone, IsErrOf};
ghost use Rattle.std.specs.Option.{option_copied};
ghost use Rattle.sb_world.specs.Outside.{NotOpened, ReadsFront, CountsFault, Rose, input_at, output_at, source_of, open_at, create_at, read_at, write_at};
ghost use Rattle.sb_world.specs.Memory.{opening_of, after_call, one_more, NextFails};
ghost use Rattle.sb_world.specs.Worlds.{outside_of, faults_of, schedule_of, never_opened, never_created, AddsFile};

use crate::plan::Plan;
use crate::ports::Ports;
use crate::store::Store;
use crate::{InPort, Opened, OutPort, World, WorldError};
use std::alloc::{AllocError, Global};

/// A world in memory. Its calls are counted, and those whose numbers were listed fail; the first is
/// number 1. The count stands still at 2^64 - 1.
#[derive(Drop)]
pub struct MemWorld {
    alloc: Global,
    store: Store,
    ports: Ports,
    plan: Plan,
    faults: u64,
}

impl MemWorld {
    /// No files, an empty standard input, no port opened, reads of any length, and nothing that fails.
    /// Takes no memory.
    pub fn new(alloc: Global) -> Self
        ensures files { (name : List ℕ) → (outside_of result).file name ≡ None }
        ensures standard_input { (outside_of result).standard_input ≡ Some [] }
        ensures inputs { (port : InPort) → input_at port (outside_of result) ≡ never_opened }
        ensures outputs { (port : OutPort) → output_at port (outside_of result) ≡ never_created }
        ensures schedule { schedule_of result ≡ record { calls = 0; failing = []; longest_read = usize.MAX } }
        ensures faults { faults_of result ≡ 0 }
    {
        MemWorld {
            alloc,
            store: Store::new(alloc),
            ports: Ports::new(alloc),
            plan: Plan::new(alloc),
            faults: 0,
        }
    }

    /// Adds a file. It takes the place of an older one of its name.
    pub fn add_file(&mut self, name: &str, bytes: &[u8]) -> Result<(), AllocError>
        ensures ok { OnOk result (AddsFile (outside_of self.old) (outside_of self.new) name.now bytes.now) }
        ensures err { OnErr result (outside_of self.new ≡ outside_of self.old) }
        ensures schedule { schedule_of self.new ≡ schedule_of self.old }
        ensures faults { faults_of self.new ≡ faults_of self.old }
    {
        self.store.add_file(self.alloc, name, bytes)
    }

    /// Sets what an input opened without a name holds from then on.
    pub fn set_standard_input(&mut self, bytes: &[u8]) -> Result<(), AllocError>
        ensures ok { OnOk result
            (outside_of self.new ≡ record (outside_of self.old) { standard_input = Some bytes.now }) }
        ensures err { OnErr result (outside_of self.new ≡ outside_of self.old) }
        ensures schedule { schedule_of self.new ≡ schedule_of self.old }
        ensures faults { faults_of self.new ≡ faults_of self.old }
    {
        self.store.set_standard_input(self.alloc, bytes)
    }

    /// Lets a read give no more bytes than this.
    pub fn read_at_most(&mut self, length: usize)
        requires { 0 < length }
        ensures schedule { schedule_of self.new ≡ record (schedule_of self.old) { longest_read = length } }
        ensures outside { outside_of self.new ≡ outside_of self.old }
        ensures faults { faults_of self.new ≡ faults_of self.old }
    {
        self.plan.read_at_most(length);
    }

    /// Lets the call of this number fail.
    pub fn fail_at(&mut self, call: u64) -> Result<(), AllocError>
        ensures ok { OnOk result
            (schedule_of self.new
            ≡ record (schedule_of self.old) { failing = (schedule_of self.old).failing ++ call ∷ [] }) }
        ensures err { OnErr result (schedule_of self.new ≡ schedule_of self.old) }
        ensures outside { outside_of self.new ≡ outside_of self.old }
        ensures faults { faults_of self.new ≡ faults_of self.old }
    {
        self.plan.fail_at(call)
    }

    /// The bytes written to a port since it was last created.
    pub fn written(&self, port: OutPort) -> &[u8]
        ensures { (output_at port (outside_of self.now)).written ≡ Some result.now }
    {
        self.ports.written(port)
    }

    /// How an input port was last opened.
    pub fn opened(&self, port: InPort) -> &Opened
        ensures { (input_at port (outside_of self.now)).opening ≡ Some (opening_of result.now) }
    {
        self.ports.opened(port)
    }

    /// How an output port was last created.
    pub fn created(&self, port: OutPort) -> &Opened
        ensures { (output_at port (outside_of self.now)).opening ≡ Some (opening_of result.now) }
    {
        self.ports.created(port)
    }

    /// How many calls of `open_input`, `create_output`, `read` and `write` there were.
    pub fn calls(&self) -> u64
        ensures { result ≡ (schedule_of self.now).calls }
    {
        self.plan.calls()
    }

    /// How many calls failed.
    pub fn faults(&self) -> u64
        ensures { result ≡ faults_of self.now }
    {
        self.faults
    }

    /// Counts a call, and fails where its number is listed.
    fn begin_call(&mut self) -> Result<(), WorldError>
        ensures schedule { schedule_of self.new ≡ after_call (schedule_of self.old) }
        ensures rest { self.new ≡ record self.old { plan = self.new.plan; faults = self.new.faults } }
        ensures failed { IsErrOf result WorldError.Failed ↔ NextFails (schedule_of self.old) }
        ensures takes_no_memory { result ≢ Err WorldError.NoMemory }
        ensures counts { CountsFault result (faults_of self.old) (faults_of self.new) }
        ensures once { IsErrOf result WorldError.Failed → faults_of self.new ≡ one_more (faults_of self.old) }
    {
        if self.plan.count_call() {
            return Err(self.fault());
        }
        Ok(())
    }

    fn fault(&mut self) -> WorldError
        ensures failed { result ≡ WorldError.Failed }
        ensures rose { Rose (faults_of self.old) (faults_of self.new) }
        ensures once { self.new ≡ record self.old { faults = one_more self.old.faults } }
    {
        self.faults = self.faults.saturating_add(1);
        WorldError::Failed
    }
}

impl World for MemWorld {
    ghost outside = { outside_of };

    ghost faults = { faults_of };

    fn open_input(&mut self, port: InPort, name: Option<&str>) -> Result<(), WorldError>
        ensures opened { OnOk result
            (outside_of self.new ≡ open_at port (option_copied name.entry) (outside_of self.old)) }
        ensures err { OnErr result (outside_of self.new ≡ outside_of self.old) }
        ensures counts { CountsFault result (faults_of self.old) (faults_of self.new) }
        ensures once { IsErrOf result WorldError.Failed → faults_of self.new ≡ one_more (faults_of self.old) }
        ensures failed { IsErrOf result WorldError.Failed
            ↔ (NextFails (schedule_of self.old) ⊎ IsNone (source_of (option_copied name.entry) (outside_of self.old))) }
        ensures schedule { schedule_of self.new ≡ after_call (schedule_of self.old) }
    {
        self.begin_call()?;
        let Some(bytes) = self.store.source(name) else {
            return Err(self.fault());
        };
        self.ports.open(self.alloc, port, name, bytes)?;
        Ok(())
    }

    fn create_output(&mut self, port: OutPort, name: Option<&str>) -> Result<(), WorldError>
        ensures created { OnOk result
            (outside_of self.new ≡ create_at port (option_copied name.entry) (outside_of self.old)) }
        ensures err { OnErr result (outside_of self.new ≡ outside_of self.old) }
        ensures counts { CountsFault result (faults_of self.old) (faults_of self.new) }
        ensures once { IsErrOf result WorldError.Failed → faults_of self.new ≡ one_more (faults_of self.old) }
        ensures failed { IsErrOf result WorldError.Failed ↔ NextFails (schedule_of self.old) }
        ensures schedule { schedule_of self.new ≡ after_call (schedule_of self.old) }
    {
        self.begin_call()?;
        self.ports.create(self.alloc, port, name)?;
        Ok(())
    }

    fn read(&mut self, port: InPort, buffer: &mut [u8]) -> Result<usize, WorldError>
        requires { 0 < length buffer.old }
        ensures within { IfOk result (λ count. count ≤ length buffer.old) }
        ensures moved { IfOk result (λ count. outside_of self.new ≡ read_at port count (outside_of self.old)) }
        ensures bytes { IfOk result
            (λ count. IfSome (input_at port (outside_of self.old)).left (λ left. ReadsFront left buffer.new count)) }
        ensures unopened { IfOk result (λ count. (input_at port (outside_of self.old)).opening ≡ Some NotOpened
            → count ≡ 0) }
        ensures err { OnErr result (outside_of self.new ≡ outside_of self.old) }
        ensures counts { CountsFault result (faults_of self.old) (faults_of self.new) }
        ensures once { IsErrOf result WorldError.Failed → faults_of self.new ≡ one_more (faults_of self.old) }
        ensures takes_no_memory { result ≢ Err WorldError.NoMemory }
        ensures longest { IfOk result
            (λ count. IfSome (input_at port (outside_of self.old)).left
            (λ left. count ≡ min (min (length buffer.old) (schedule_of self.old).longest_read) (length left))) }
        ensures failed { IsErrOf result WorldError.Failed ↔ NextFails (schedule_of self.old) }
        ensures schedule { schedule_of self.new ≡ after_call (schedule_of self.old) }
    {
        self.begin_call()?;
        let length = buffer.len().min(self.plan.longest_read());
        Ok(self.ports.read(port, &mut buffer[..length]))
    }

    fn write(&mut self, port: OutPort, piece: &[u8]) -> Result<usize, WorldError>
        ensures within { IfOk result (λ count. count ≤ length piece.now) }
        ensures progress { IfOk result (λ count. 0 < length piece.now → 0 < count) }
        ensures written { IfOk result
            (λ count. outside_of self.new ≡ write_at port (take count piece.now) (outside_of self.old)) }
        ensures err { OnErr result (outside_of self.new ≡ outside_of self.old) }
        ensures counts { CountsFault result (faults_of self.old) (faults_of self.new) }
        ensures once { IsErrOf result WorldError.Failed → faults_of self.new ≡ one_more (faults_of self.old) }
        ensures whole { IfOk result (λ count. count ≡ length piece.now) }
        ensures failed { IsErrOf result WorldError.Failed ↔ NextFails (schedule_of self.old) }
        ensures schedule { schedule_of self.new ≡ after_call (schedule_of self.old) }
    {
        self.begin_call()?;
        self.ports.write(port, piece)?;
        Ok(piece.len())
    }
}
