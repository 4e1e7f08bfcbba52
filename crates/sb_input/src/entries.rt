//! Entries, taken one after another.

ghost use Rattle.std.specs.Prelude.{◌≡◌, ◌<◌, false, [], IfOk, OnOk, OnErr};
ghost use Rattle.sb_input.specs.TakingEntries.{Advances, IsCutShort, CountsEntriesFault};
ghost use Rattle.sb_input.specs.KeepingEntries.{FindsKept, IsWithin, ReadsPiece, is_waiting};

use crate::piece::{feed_piece, make_room, read_script};
use sb_reader::{Feed, Next, one_entry};
use sb_world::{World, WorldError};
use std::alloc::{AllocError, Global};
use std::marker::Model;
use thiserror::Error;

/// Why it is not known what comes next.
#[derive(Clone, Copy, Debug, Error)]
pub enum EntriesFault {
    /// The outside failed.
    #[error("input or output failed")]
    Fault,
    #[error("out of memory")]
    NoMemory,
}

impl From<AllocError> for EntriesFault {
    ghost use Rattle.sb_input.specs.declared.entries.EntriesFault.TheVariants.{NoMemory};

    ghost from_gives = { λ _ fault. fault ≡ NoMemory };

    fn from(_error: AllocError) -> EntriesFault {
        EntriesFault::NoMemory
    }
}

impl From<WorldError> for EntriesFault {
    ghost use Rattle.sb_input.specs.TakingEntries.{fault_of};

    ghost from_gives = { λ error fault. fault ≡ fault_of error };

    fn from(error: WorldError) -> EntriesFault {
        match error {
            WorldError::Failed => EntriesFault::Fault,
            WorldError::NoMemory => EntriesFault::NoMemory,
        }
    }
}

/// A script that is read entry by entry.
#[derive(Drop)]
pub struct Entries {
    /// What the world gives at a time.
    piece: Vec<u8>,
    feed: Feed,
    read: u64,
    limit: u64,
}

impl Model for Entries {
    ghost use Rattle.sb_input.specs.TakingEntries.{EntriesState};
    ghost use Rattle.sb_input.specs.KeepingEntries.{IsWithin};

    ghost Value = { EntriesState };

    ghost view = { λ e. record { kept = e.feed; read = e.read; limit = e.limit } };

    ghost invariant = { λ e. IsWithin (record { kept = e.feed; read = e.read; limit = e.limit }) };
}

impl Entries {
    /// A script of which nothing is read yet, and of which at most so many bytes will be. It takes no memory.
    pub fn new(alloc: Global, limit: u64) -> Entries
        ensures { result ≡ record { kept = ([], false); read = 0; limit = limit } }
    {
        Entries {
            piece: Vec::new(alloc),
            feed: Feed::new(alloc),
            read: 0,
            limit,
        }
    }

    /// Finds the next entry, reading on where none is whole, at most 64 KiB at a time. `NotYet` comes where as many
    /// bytes as the limit were read, the script's end was not met, and no whole entry is left among them. `Fault` comes
    /// only where the world's count of faults rose. After an error nothing more may be asked. Linear, over all calls,
    /// in the bytes that are read.
    pub fn advance<W: World>(&mut self, world: &mut W) -> Result<Next, EntriesFault>
        ensures ok { IfOk result
            (λ found. Advances found self.old self.new (W.outside world.old) (W.outside world.new)) }
        ensures err { OnErr result (IsCutShort self.old (W.outside world.old) (W.outside world.new)) }
        ensures faults { CountsEntriesFault result (W.faults world.old) (W.faults world.new) }
    {
        one_entry();
        loop {
            if let Some(next) = self.find()? {
                return Ok(next);
            }
            self.read_on(world)?;
        }
    }

    /// What is found among the bytes that were read; `None` where more have to be read.
    fn find(&mut self) -> Result<Option<Next>, AllocError>
        ensures ok { IfOk result (λ found. FindsKept found self.old self.new) }
        ensures err { OnErr result (self.new ≡ self.old) }
        ensures within { IsWithin self.new }
    {
        let next = self.feed.next()?;
        if is_not_yet(&next) && self.read < self.limit {
            return Ok(None);
        }
        Ok(Some(next))
    }

    /// Reads the next bytes of the script, or meets its end.
    fn read_on<W: World>(&mut self, world: &mut W) -> Result<(), EntriesFault>
        requires goes_on { self.old.kept.1 ≡ false }
        requires room { self.old.read < self.old.limit }
        ensures ok { OnOk result (ReadsPiece self.old self.new (W.outside world.old) (W.outside world.new)) }
        ensures err { OnErr result (IsCutShort self.old (W.outside world.old) (W.outside world.new)) }
        ensures faults { CountsEntriesFault result (W.faults world.old) (W.faults world.new) }
    {
        make_room(&mut self.piece, self.limit - self.read)?;
        let count = read_script(&mut self.piece, world)?;
        feed_piece(&mut self.feed, &self.piece[..count])?;
        self.read += count as u64;
        Ok(())
    }
}

fn is_not_yet(next: &Next) -> bool
    ensures { result ≡ is_waiting next.now }
{
    matches!(next, Next::NotYet)
}
