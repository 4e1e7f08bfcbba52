//! The outside of the programs: their input and output ports, as a trait.
//!
//! A [`World`] opens inputs, creates outputs, reads and writes. Its ghost members say what it tells of
//! the outside, and count its faults, so a theorem over any world says which bytes were read and
//! written, and that a failure comes only from outside. The layers above take a world as a type
//! parameter; the programs hand in the real one, the tests one in memory.
#![tactic(auto)]

ghost use Rattle.std.specs.Prelude.{◌≡◌, ℕ, ◌<◌, ◌≤◌, length, take, Some, IfOk, OnOk, OnErr, IfSome};
ghost use Rattle.std.specs.Option.{option_copied};
ghost use Rattle.sb_world.specs.Outside.{Outside, NotOpened, input_at, open_at, create_at, read_at, write_at, CountsFault, ReadsFront};

use std::alloc::AllocError;
use thiserror::Error;

mod calm;
mod memory;
mod plan;
mod ports;
mod store;
mod write;

pub use calm::CalmWorld;
pub use memory::MemWorld;
pub use ports::Opened;
pub use write::write_all;

/// An input port.
#[derive(Clone, Copy, PartialEq, Eq)]
pub enum InPort {
    /// The script that is to be answered.
    Script,
    /// The proof that is to be checked.
    Proof,
}

/// An output port.
#[derive(Clone, Copy, PartialEq, Eq)]
pub enum OutPort {
    /// Standard output. It needs no creation.
    Answers,
    /// The proof that the solver writes. Without a name, or where it was never created, its bytes go nowhere.
    Proof,
    /// Standard error. It needs no creation.
    Faults,
}

/// Why a call of a world did not do what was asked.
#[derive(Clone, Copy, Debug, PartialEq, Eq, Error)]
pub enum WorldError {
    /// The outside failed: a file that isn't there, a disk that is full, a pipe that was closed.
    #[error("input or output failed")]
    Failed,
    /// The world wanted memory.
    #[error("out of memory")]
    NoMemory,
}

impl From<AllocError> for WorldError {
    ghost use Rattle.sb_world.specs.declared.WorldError.TheVariants.{NoMemory};

    ghost from_gives = { λ _ error. error ≡ NoMemory };

    fn from(_error: AllocError) -> WorldError {
        WorldError::NoMemory
    }
}

/// The outside of a program. A call that answers an error moves no bytes, and leaves what the ports
/// tell as it was; `Failed` comes only where the count of faults rose.
pub trait World {
    /// What the world tells of the outside.
    ghost outside: { Self → Outside };

    /// How often the outside has failed. The count never falls, and stands still at 2^64 - 1.
    ghost faults: { Self → ℕ };

    /// Opens an input by the name of its file, or without a name standard input.
    fn open_input(&mut self, port: InPort, name: Option<&str>) -> Result<(), WorldError>
        ensures opened { OnOk result (outside self.new ≡ open_at port (option_copied name.entry) (outside self.old)) }
        ensures err { OnErr result (outside self.new ≡ outside self.old) }
        ensures counts { CountsFault result (faults self.old) (faults self.new) };

    /// Creates an output by the name of its file, or without a name one whose bytes go nowhere.
    fn create_output(&mut self, port: OutPort, name: Option<&str>) -> Result<(), WorldError>
        ensures created { OnOk result
            (outside self.new ≡ create_at port (option_copied name.entry) (outside self.old)) }
        ensures err { OnErr result (outside self.new ≡ outside self.old) }
        ensures counts { CountsFault result (faults self.old) (faults self.new) };

    /// ReadsFront at most as many bytes as the buffer has, to its front, and says how many. 0 says that the
    /// input has ended. An input that was never opened is empty.
    fn read(&mut self, port: InPort, buffer: &mut [u8]) -> Result<usize, WorldError>
        requires { 0 < length buffer.old }
        ensures within { IfOk result (λ count. count ≤ length buffer.old) }
        ensures moved { IfOk result (λ count. outside self.new ≡ read_at port count (outside self.old)) }
        ensures bytes { IfOk result
            (λ count. IfSome (input_at port (outside self.old)).left (λ left. ReadsFront left buffer.new count)) }
        ensures unopened { IfOk result (λ count. (input_at port (outside self.old)).opening ≡ Some NotOpened
            → count ≡ 0) }
        ensures err { OnErr result (outside self.new ≡ outside self.old) }
        ensures counts { CountsFault result (faults self.old) (faults self.new) };

    /// Writes bytes from the front of the piece, and says how many: at least one, unless the piece is empty.
    fn write(&mut self, port: OutPort, piece: &[u8]) -> Result<usize, WorldError>
        ensures within { IfOk result (λ count. count ≤ length piece.now) }
        ensures progress { IfOk result (λ count. 0 < length piece.now → 0 < count) }
        ensures written { IfOk result
            (λ count. outside self.new ≡ write_at port (take count piece.now) (outside self.old)) }
        ensures err { OnErr result (outside self.new ≡ outside self.old) }
        ensures counts { CountsFault result (faults self.old) (faults self.new) };
}
