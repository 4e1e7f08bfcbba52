//! The search for the end of a line.

ghost use Rattle.std.specs.Prelude.{◌≤◌, length, drop};
ghost use Rattle.sb_input.specs.KeepingLines.{FindsFeed};

use memchr::memchr;

/// Where the first line feed stands at this place or behind it, counted from there.
pub(crate) fn find_feed(bytes: &[u8], from: usize) -> Option<usize>
    requires { from ≤ length bytes.now }
    ensures { FindsFeed result (drop from bytes.now) }
{
    memchr(b'\n', &bytes[from..])
}
