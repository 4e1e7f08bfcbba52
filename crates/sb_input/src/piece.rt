//! A piece of a script or a proof, as the world gives it, and as the feed takes it.

ghost use Rattle.std.specs.Prelude.{◌≡◌, ◌<◌, ◌≤◌, ◌++◌, ◌==◌, false, length, IfOk, OnOk, OnErr, IfSome};
ghost use Rattle.sb_world.specs.Outside.{read_at, ReadsFront, CountsFault};

use sb_reader::Feed;
use sb_world::{InPort, World, WorldError};
use std::alloc::AllocError;

/// How many bytes are asked of the world at a time.
const PIECE: usize = 0x1_0000;

/// Makes room for a piece, where there is none yet, and leaves room for no more bytes than so many.
pub(crate) fn make_room(piece: &mut Vec<u8>, most: u64) -> Result<(), AllocError>
    requires { 0 < most }
    ensures some { OnOk result (0 < length piece.new.items) }
    ensures most { OnOk result (length piece.new.items ≤ most) }
{
    if piece.is_empty() {
        piece.resize(PIECE, 0)?;
    }
    piece.truncate(most.min(PIECE as u64) as usize);
    Ok(())
}

/// Reads the next bytes of the script to the front of the piece, and says how many.
pub(crate) fn read_script<W: World>(piece: &mut Vec<u8>, world: &mut W) -> Result<usize, WorldError>
    requires { 0 < length piece.old.items }
    ensures within { IfOk result (λ count. count ≤ length piece.old.items) }
    ensures fits { IfOk result (λ count. count ≤ length piece.new.items) }
    ensures moved { IfOk result (λ count. W.outside world.new ≡ read_at InPort.Script count (W.outside world.old)) }
    ensures bytes { IfOk result
        (λ count. IfSome (W.outside world.old).script_in.left (λ left. ReadsFront left piece.new.items count)) }
    ensures err { OnErr result (W.outside world.new ≡ W.outside world.old) }
    ensures counts { CountsFault result (W.faults world.old) (W.faults world.new) }
{
    world.read(InPort::Script, piece)
}

/// Reads the next bytes of the proof to the front of the piece, and says how many.
pub(crate) fn read_proof<W: World>(piece: &mut Vec<u8>, world: &mut W) -> Result<usize, WorldError>
    requires { 0 < length piece.old.items }
    ensures within { IfOk result (λ count. count ≤ length piece.old.items) }
    ensures fits { IfOk result (λ count. count ≤ length piece.new.items) }
    ensures moved { IfOk result (λ count. W.outside world.new ≡ read_at InPort.Proof count (W.outside world.old)) }
    ensures bytes { IfOk result
        (λ count. IfSome (W.outside world.old).proof_in.left (λ left. ReadsFront left piece.new.items count)) }
    ensures err { OnErr result (W.outside world.new ≡ W.outside world.old) }
    ensures counts { CountsFault result (W.faults world.old) (W.faults world.new) }
{
    world.read(InPort::Proof, piece)
}

/// Hands the piece on to the feed. An empty one says that no more bytes come.
pub(crate) fn feed_piece(feed: &mut Feed, piece: &[u8]) -> Result<(), AllocError>
    requires { feed.old.1 ≡ false }
    ensures { OnOk result (feed.new ≡ (feed.old.0 ++ piece.now, length piece.now == 0)) }
{
    if piece.is_empty() {
        feed.finish();
        return Ok(());
    }
    feed.push(piece)
}
