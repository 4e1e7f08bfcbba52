//! Regexes of texts.

ghost use Rattle.std.specs.Prelude.{◌<◌, length, IfOk};

use sb_class::Class;
use sb_regex::{Arena, RegexId};
use std::alloc::{AllocError, Global};

/// The regex of a text: characters and sets, and behind their parts `.` for a concatenation, `|` for a union, `&` for an
/// intersection, `>` for the words along which the derivative takes the first to the second, `*` for a star, and a digit
/// for a repetition: `2` from none to twice, `3` from none to three times, `9` as often as may be, `8` once less. `N` is
/// no word, `Z` the empty word alone, `x` each of `a` to `c`, `F` each of `a` to `f`, `$` each of `a` to `z`, `L` each
/// character from `e` on, `W` the first character, `Y` the last one, `E` every character; another sign is itself. Where
/// a part lacks it is an error.
pub fn regex(alloc: Global, arena: &mut Arena, text: &[u8]) -> Result<RegexId, AllocError>
    ensures { IfOk result (λ id. id < length arena.new) }
{
    let mut parts = Vec::new(alloc);
    let made = match put(alloc, arena, &mut parts, text) {
        Ok(()) => whole(arena, &mut parts),
        Err(error) => Err(error),
    };
    drop(parts);
    made
}

/// Texts, and how often each stands there: none where it is as often as is told.
pub type Pieces = &'static [(&'static [u8], Option<usize>)];

/// Puts the parts of pieces, in which what has no number of times of its own stands as often as that.
pub fn put_all(
    alloc: Global,
    arena: &mut Arena,
    parts: &mut Vec<RegexId>,
    pieces: Pieces,
    often: usize,
) -> Result<(), AllocError> {
    for (text, times) in pieces {
        for _ in 0..times.unwrap_or(often) {
            put(alloc, arena, parts, text)?;
        }
    }
    Ok(())
}

/// Puts the parts of a text.
pub fn put(
    alloc: Global,
    arena: &mut Arena,
    parts: &mut Vec<RegexId>,
    text: &[u8],
) -> Result<(), AllocError> {
    for sign in text {
        let part = match *sign {
            b'.' | b'|' | b'&' | b'>' | b'*' | b'2' | b'3' | b'8' | b'9' => {
                join(arena, parts, *sign)?
            }
            _ => atom(alloc, arena, *sign)?,
        };
        parts.push(part)?;
    }
    Ok(())
}

/// The last part.
pub fn whole(arena: &Arena, parts: &mut Vec<RegexId>) -> Result<RegexId, AllocError>
    ensures { IfOk result (λ id. id < length arena.now) }
{
    match parts.pop() {
        Some(whole) if whole.number() < arena.len() => Ok(whole),
        _ => Err(AllocError),
    }
}

/// Joins the last parts.
fn join(arena: &mut Arena, parts: &mut Vec<RegexId>, sign: u8) -> Result<RegexId, AllocError> {
    let right = whole(arena, parts)?;
    let (least, most) = match sign {
        b'*' => return arena.star(right),
        b'2' => (0, 2),
        b'3' => (0, 3),
        b'8' => (u64::MAX - 1, u64::MAX - 1),
        b'9' => (u64::MAX, u64::MAX),
        _ => (1, 0),
    };
    if least <= most {
        return arena.rep(right, least, most);
    }
    let left = whole(arena, parts)?;
    match sign {
        b'.' => arena.cat(left, right),
        b'|' => arena.alt(&[left, right]),
        b'>' => arena.path(left, right),
        _ => arena.and(&[left, right]),
    }
}

/// The regex of a sign.
fn atom(alloc: Global, arena: &mut Arena, sign: u8) -> Result<RegexId, AllocError> {
    let ranges = match sign {
        b'N' => return arena.none(),
        b'Z' => return arena.eps(),
        b'x' => [(0x61, 0x63)],
        b'F' => [(0x61, 0x66)],
        b'$' => [(0x61, 0x7a)],
        b'L' => [(0x65, 0x2ffff)],
        b'W' => [(0, 0)],
        b'Y' => [(0x2ffff, 0x2ffff)],
        b'E' => [(0, 0x2ffff)],
        _ => [(u32::from(sign), u32::from(sign))],
    };
    match Class::from_ranges(alloc, &ranges)? {
        Some(class) => {
            let made = arena.set(&class);
            drop(class);
            made
        }
        None => Err(AllocError),
    }
}
