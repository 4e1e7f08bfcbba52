//! Sets of characters: their ranges, those outside them, their cuts and their members.

use sb_class::{Class, LAST_CHARACTER};
use std::alloc::{AllocError, Global};
use std::process::Abort;
use std::test::Fail;

pub type Ranges = &'static [(u32, u32)];

/// How a set is made.
enum Maker {
    Ranges,
    Empty,
    Full,
    Letters,
}

/// How a set is made, its ranges, and those outside it with its cuts, where they are told.
type Row = (Maker, Ranges, Option<(Ranges, &'static [u32])>);

/// Sets with letters, both ends of the characters, and several ranges.
static SETS: [Row; 16] = [
    (Maker::Ranges, &[], Some((&[(0, 0x2ffff)], &[]))),
    (Maker::Ranges, &[(0, 0x2ffff)], Some((&[], &[]))),
    (
        Maker::Ranges,
        &[(0x61, 0x7b)],
        Some((&[(0, 0x60), (0x7c, 0x2ffff)], &[0x61, 0x7c])),
    ),
    (Maker::Ranges, &[(0, 0)], Some((&[(1, 0x2ffff)], &[1]))),
    (
        Maker::Ranges,
        &[(0x2ffff, 0x2ffff)],
        Some((&[(0, 0x2fffe)], &[0x2ffff])),
    ),
    (
        Maker::Ranges,
        &[(0, 0), (0x2ffff, 0x2ffff)],
        Some((&[(1, 0x2fffe)], &[1, 0x2ffff])),
    ),
    (
        Maker::Ranges,
        &[(1, 2), (4, 4), (6, 0x2ffff)],
        Some((&[(0, 0), (3, 3), (5, 5)], &[1, 3, 4, 5, 6])),
    ),
    (
        Maker::Ranges,
        &[(0x30, 0x39), (0x41, 0x5a), (0x5f, 0x5f), (0x61, 0x7a)],
        None,
    ),
    (Maker::Ranges, &[(0, 0), (2, 2), (4, 4), (6, 6)], None),
    (
        Maker::Ranges,
        &[(1, 1), (3, 3), (5, 5), (0x2ffff, 0x2ffff)],
        None,
    ),
    (Maker::Ranges, &[(3, 9), (12, 20), (30, 0x2fffe)], None),
    (
        Maker::Ranges,
        &[(5, 13), (15, 15), (19, 31), (40, 41)],
        None,
    ),
    (Maker::Ranges, &[(10, 11), (21, 29)], None),
    (Maker::Empty, &[], Some((&[(0, 0x2ffff)], &[]))),
    (Maker::Full, &[(0, 0x2ffff)], Some((&[], &[]))),
    (
        Maker::Letters,
        &[(0x61, 0x7a)],
        Some((&[(0, 0x60), (0x7b, 0x2ffff)], &[0x61, 0x7b])),
    ),
];

/// Those at, between and beside the ends of the sets' ranges.
static CHARACTERS: [u32; 51] = [
    0, 1, 2, 3, 4, 5, 6, 7, 8, 9, 10, 11, 12, 13, 14, 15, 16, 18, 19, 20, 21, 22, 28, 29, 30, 31,
    32, 39, 40, 41, 42, 0x2f, 0x30, 0x35, 0x39, 0x3a, 0x40, 0x41, 0x5a, 0x5b, 0x5e, 0x5f, 0x60,
    0x61, 0x70, 0x7a, 0x7b, 0x2fffe, 0x2ffff, 0x30000, 0xffffffff,
];

/// The set of a row; of ranges that aren't in order there is none.
fn class(alloc: Global, row: &Row) -> Result<Class, AllocError> {
    match &row.0 {
        Maker::Ranges => match Class::from_ranges(alloc, row.1)? {
            Some(class) => Ok(class),
            None => Err(AllocError),
        },
        Maker::Empty => Ok(Class::empty(alloc)),
        Maker::Full => Class::full(alloc),
        Maker::Letters => Class::range(alloc, 0x61, 0x7a),
    }
}

/// Membership, computed range by range.
fn in_any(ranges: &[(u32, u32)], c: u32) -> bool {
    let mut found = false;
    for (low, high) in ranges {
        found |= *low <= c && c <= *high;
    }
    found
}

/// Expects a set to have the characters that its ranges have, and what is outside it the others.
fn expect_members(rt: &impl Abort, ranges: &[(u32, u32)], set: &Class, outside: &Class) {
    for c in &CHARACTERS {
        let within = in_any(ranges, *c);
        assert!(rt; set.contains(*c) == within);
        assert!(rt; outside.contains(*c) == (*c <= LAST_CHARACTER && !within));
    }
}

/// Expects a set to have these cuts.
fn expect_cuts(rt: &impl Abort, set: &Class, wanted: &[u32]) -> Result<(), AllocError> {
    let cuts = set.cuts()?;
    let same = cuts.as_slice() == wanted;
    drop(cuts);
    assert!(rt; same);
    Ok(())
}

/// Expects a set to have these ranges, and to be empty and to have a least member as they say.
fn expect_ranges(rt: &impl Abort, set: &Class, ranges: &[(u32, u32)]) {
    assert!(rt; set.ranges() == ranges);
    assert!(rt; set.is_empty() == ranges.is_empty());
    let least = match ranges {
        [] => None,
        [(first, _), ..] => Some(*first),
    };
    assert!(rt; set.least() == least);
}

/// Expects a set to have the ranges and the members of a row, and where the row tells them the others and the cuts.
fn expect_set(rt: &impl Abort, set: &Class, outside: &Class, row: &Row) -> Result<(), AllocError> {
    expect_ranges(rt, set, row.1);
    expect_members(rt, row.1, set, outside);
    match row.2 {
        Some((others, cuts)) => {
            assert!(rt; outside.ranges() == others);
            expect_cuts(rt, set, cuts)
        }
        None => Ok(()),
    }
}

/// Makes the set of a row, and expects it to be that.
fn expect_made(rt: &impl Abort, alloc: Global, row: &Row) -> Result<(), AllocError> {
    let set = class(alloc, row)?;
    match set.complement() {
        Ok(outside) => {
            let done = expect_set(rt, &set, &outside, row);
            drop(outside);
            drop(set);
            done
        }
        Err(error) => {
            drop(set);
            Err(error)
        }
    }
}

#[test]
fn sets_have_their_ranges_cuts_and_members(rt: HostRuntime) -> Result<(), Fail> {
    for row in &SETS {
        expect_made(&rt, rt.alloc(), row)?;
    }
    Ok(())
}
