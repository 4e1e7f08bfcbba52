//! The loop that writes everything.

ghost use Rattle.std.specs.Prelude.{◌≡◌, ℕ, ◌<◌, length, take, OnOk, OnErr};
ghost use Rattle.sb_world.specs.Outside.{write_at, CountsFault};

use crate::{OutPort, World, WorldError};

/// Writes all the bytes, in as many pieces as the world takes. After an error the bytes that are out
/// are a prefix of them. Takes no memory of its own.
pub fn write_all<W: World>(world: &mut W, port: OutPort, bytes: &[u8]) -> Result<(), WorldError>
    ensures ok { OnOk result (W.outside world.new ≡ write_at port bytes.now (W.outside world.old)) }
    ensures err { OnErr result ((out : ℕ) × (out < length bytes.now)
        × (W.outside world.new ≡ write_at port (take out bytes.now) (W.outside world.old))) }
    ensures counts { CountsFault result (W.faults world.old) (W.faults world.new) }
{
    let mut rest = bytes;
    while !rest.is_empty() {
        let count = world.write(port, rest)?;
        rest = &rest[count..];
    }
    Ok(())
}
