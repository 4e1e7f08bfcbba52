//! What derivatives lead to by which characters, and cut points.

ghost use Rattle.std.specs.Prelude.{◌<◌, length};
ghost use Rattle.sb_deriv.specs.Faithful.{IsFaithful};

use crate::regexes::{put, regex, whole};
use crate::sets::Ranges;
use sb_class::Class;
use sb_deriv::Deriver;
use sb_plain::Plain;
use sb_regex::{Arena, RegexId};
use std::alloc::{AllocError, Global};
use std::process::Abort;
use std::test::Fail;

/// What is expected of a regex.
enum Wanted {
    /// These targets, by the characters of their ranges.
    Targets(&'static [(Ranges, &'static [u8])]),
    /// These cut points.
    Points(&'static [u32]),
}

/// Targets: by the first and the last character `a`, and none by those between; up to two times by `a` where it was up to
/// three times; the greatest number of times has one less behind a character; and a path goes on from the derivative, is
/// every word where it came from none to none, and none where it came to none alone. Cut points: a set that ends where
/// another one begins, those with the last character, one with every character, and parts behind a front that is nullable
/// and one that is not.
static ROWS: [(&[u8], Wanted); 18] = [
    (
        b"Wa.Ya.|",
        Wanted::Targets(&[
            (&[(0, 0), (0x2ffff, 0x2ffff)], b"a"),
            (&[(1, 0x2fffe)], b"N"),
        ]),
    ),
    (
        b"a3",
        Wanted::Targets(&[
            (&[(0, 0x60), (0x62, 0x2ffff)], b"N"),
            (&[(0x61, 0x61)], b"a2"),
        ]),
    ),
    (
        b"a9",
        Wanted::Targets(&[
            (&[(0, 0x60), (0x62, 0x2ffff)], b"N"),
            (&[(0x61, 0x61)], b"a8"),
        ]),
    ),
    (
        b"a*a*>",
        Wanted::Targets(&[
            (&[(0, 0x60), (0x62, 0x2ffff)], b"N"),
            (&[(0x61, 0x61)], b"a*a*>"),
        ]),
    ),
    (
        b"ab.b>",
        Wanted::Targets(&[
            (&[(0, 0x60), (0x62, 0x2ffff)], b"N"),
            (&[(0x61, 0x61)], b"bb>"),
        ]),
    ),
    (
        b"a*N>",
        Wanted::Targets(&[
            (&[(0, 0x60), (0x62, 0x2ffff)], b"E*"),
            (&[(0x61, 0x61)], b"a*N>"),
        ]),
    ),
    (b"Na>", Wanted::Targets(&[(&[(0, 0x2ffff)], b"N")])),
    (b"E*E*>", Wanted::Targets(&[(&[(0, 0x2ffff)], b"E*")])),
    (b"N", Wanted::Points(&[0])),
    (b"Z", Wanted::Points(&[0])),
    (b"a", Wanted::Points(&[0, 0x61, 0x62])),
    (b"ab.bc.|", Wanted::Points(&[0, 0x61, 0x62, 0x63])),
    (b"L", Wanted::Points(&[0, 0x65])),
    (b"Y", Wanted::Points(&[0, 0x2ffff])),
    (b"E", Wanted::Points(&[0])),
    (b"aL.", Wanted::Points(&[0, 0x61, 0x62])),
    (b"a*L.", Wanted::Points(&[0, 0x61, 0x62, 0x65])),
    (b"xa.E*Fa..&", Wanted::Points(&[0, 0x61, 0x64, 0x67])),
];

/// The targets of a regex.
fn targets_of(
    alloc: Global,
    arena: &mut Arena,
    deriver: &mut Deriver,
    r: RegexId,
) -> Result<Vec<(Class, RegexId)>, AllocError>
    requires known { r < length arena.old }
    requires faithful { IsFaithful arena.old deriver.old }
{
    deriver.derive(arena, r)?;
    match deriver.derivative(r) {
        Some(derivative) => derivative.targets(alloc),
        None => Err(AllocError),
    }
}

/// Expects a target to be the regex of a text, by the characters of these ranges.
fn expect_target(
    rt: &impl Abort,
    alloc: Global,
    arena: &mut Arena,
    target: &(Class, RegexId),
    ranges: &[(u32, u32)],
    text: &[u8],
) -> Result<(), AllocError> {
    let r = regex(alloc, arena, text)?;
    assert!(rt; target.1 == r);
    assert!(rt; target.0.ranges() == ranges);
    Ok(())
}

/// Expects targets to be those.
fn expect_targets(
    rt: &impl Abort,
    alloc: Global,
    arena: &mut Arena,
    targets: &[(Class, RegexId)],
    wanted: &[(Ranges, &[u8])],
) -> Result<(), AllocError> {
    assert!(rt; targets.len() == wanted.len());
    for i in 0..targets.len() {
        let (ranges, text) = wanted[i];
        expect_target(rt, alloc, arena, &targets[i], ranges, text)?;
    }
    Ok(())
}

/// Expects targets to be none, and by each of forty characters any number of times that one.
fn lead_apart(
    rt: &impl Abort,
    alloc: Global,
    arena: &mut Arena,
    targets: &[(Class, RegexId)],
) -> Result<(), AllocError> {
    assert!(rt; targets.len() == 41);
    expect_target(
        rt,
        alloc,
        arena,
        &targets[0],
        &[(0, 0x7f), (0xa8, 0x2ffff)],
        b"N",
    )?;
    for i in 1..41 {
        let c = 0x7f + i as u8;
        let code = u32::from(c);
        expect_target(rt, alloc, arena, &targets[i], &[(code, code)], &[c, b'*'])?;
    }
    Ok(())
}

/// Expects a regex to have the targets of a row, or where there is none to lead to each letter apart.
fn expect_row(
    rt: &impl Abort,
    alloc: Global,
    arena: &mut Arena,
    r: RegexId,
    row: &[(Ranges, &[u8])],
) -> Result<(), AllocError>
    requires { r < length arena.old }
{
    let mut deriver = Deriver::new(alloc);
    let found = targets_of(alloc, arena, &mut deriver, r);
    drop(deriver);
    let targets = found?;
    let done = if row.is_empty() {
        lead_apart(rt, alloc, arena, &targets)
    } else {
        expect_targets(rt, alloc, arena, &targets, row)
    };
    drop(targets);
    done
}

/// Expects a regex to have these cut points.
fn expect_points(
    rt: &impl Abort,
    alloc: Global,
    arena: &mut Arena,
    r: RegexId,
    wanted: &[u32],
) -> Result<(), AllocError>
    requires { r < length arena.old }
{
    let mut plain = Plain::new(alloc);
    let found = plain.cut_points(arena, r);
    drop(plain);
    let points = found?;
    let same = points.as_slice() == wanted;
    drop(points);
    assert!(rt; same);
    Ok(())
}

/// Expects that of a regex.
fn expect(
    rt: &impl Abort,
    alloc: Global,
    arena: &mut Arena,
    r: RegexId,
    wanted: &Wanted,
) -> Result<(), AllocError>
    requires { r < length arena.old }
{
    match wanted {
        Wanted::Targets(row) => expect_row(rt, alloc, arena, r, row),
        Wanted::Points(points) => expect_points(rt, alloc, arena, r, points),
    }
}

/// Goes through the rows.
fn expect_rows(rt: &impl Abort, alloc: Global, arena: &mut Arena) -> Result<(), AllocError> {
    for row in &ROWS {
        let r = regex(alloc, arena, row.0)?;
        expect(rt, alloc, arena, r, &row.1)?;
    }
    Ok(())
}

/// Goes through forty letters, each behind itself any number of times.
fn expect_letters(
    rt: &impl Abort,
    alloc: Global,
    arena: &mut Arena,
    parts: &mut Vec<RegexId>,
) -> Result<(), AllocError> {
    put(alloc, arena, parts, b"N")?;
    for c in 0x80_u8..0xa8 {
        put(alloc, arena, parts, &[c, c, b'*', b'.', b'|'])?;
    }
    let r = whole(arena, parts)?;
    expect_row(rt, alloc, arena, r, &[])
}

/// Goes through all rows over one arena.
fn go_through(rt: &impl Abort, alloc: Global) -> Result<(), AllocError> {
    let mut arena = Arena::new(alloc);
    let mut parts = Vec::new(alloc);
    let done = match expect_letters(rt, alloc, &mut arena, &mut parts) {
        Ok(()) => expect_rows(rt, alloc, &mut arena),
        Err(error) => Err(error),
    };
    drop(parts);
    drop(arena);
    done
}

#[test]
fn derivatives_have_targets_and_regexes_cut_points(rt: HostRuntime) -> Result<(), Fail> {
    go_through(&rt, rt.alloc())?;
    Ok(())
}
