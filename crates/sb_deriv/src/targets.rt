//! The classes of characters by their targets.

ghost use Rattle.std.specs.Prelude.{◌≡◌, ◌≢◌, ◌<◌, ◌+◌, ◌-◌, ◌++◌, ◌∷◌, [], length, map, drop, IfOk, OnOk};
ghost use Rattle.std.specs.List.{All, AllPairs};
ghost use Rattle.sb_class.specs.Ranges.{IsCanonical};
ghost use Rattle.sb_deriv.specs.Pieces.{IsIntervalMap, end_of_characters};
ghost use Rattle.sb_deriv.specs.Choices.{first_of, with_range};
ghost use Rattle.sb_deriv.specs.Targets.{AreTargets};

use indexmap::IndexSet;
use sb_class::{Class, LAST_CHARACTER};
use sb_regex::RegexId;
use std::alloc::{AllocError, Global};
use std::marker::Model;

/// A target with the ranges of characters that lead there.
#[derive(Drop)]
pub(crate) struct Gathered {
    ranges: Vec<(u32, u32)>,
    regex: RegexId,
}

impl Model for Gathered {
    ghost use Rattle.std.specs.Prelude.{ℕ, List};

    ghost Value = { List (ℕ × ℕ) × ℕ };

    ghost view = { λ gathered. (gathered.ranges.items, gathered.regex) };
}

impl Gathered {
    fn new(alloc: Global, range: (u32, u32), regex: RegexId) -> Result<Gathered, AllocError>
        ensures { IfOk result (λ gathered. gathered ≡ (range ∷ [], regex)) }
    {
        let ranges = Vec::from_slice(alloc, &[range])?;
        Ok(Gathered { ranges, regex })
    }

    fn push(&mut self, range: (u32, u32)) -> Result<(), AllocError>
        ensures { OnOk result (self.new ≡ (self.old.0 ++ range ∷ [], self.old.1)) }
    {
        self.ranges.push(range)?;
        Ok(())
    }

    fn target(&self, alloc: Global) -> Result<(Class, RegexId), AllocError>
        requires { IsCanonical self.now.0 }
        ensures { IfOk result (λ target. target ≡ self.now) }
    {
        let class = Class::from_ranges(alloc, &self.ranges)?.unwrap();
        Ok((class, self.regex))
    }
}

/// The targets in the order in which they first appear, each with its ranges. Linear.
pub(crate) fn gather(alloc: Global, pieces: &[(u32, RegexId)]) -> Result<Vec<Gathered>, AllocError>
    requires { IsIntervalMap pieces.now }
    ensures canonical { IfOk result (λ gathered. All (λ g. IsCanonical g.0) gathered.items) }
    ensures targets { IfOk result (λ gathered. AreTargets pieces.now gathered.items) }
{
    let mut seen = IndexSet::new(alloc);
    let mut gathered = Vec::new(alloc);
    for (i, piece) in pieces.iter().enumerate() {
        let range = (piece.0, last_of(pieces, i));
        put(alloc, &mut seen, &mut gathered, range, piece.1)?;
    }
    Ok(gathered)
}

/// The last character of a piece.
fn last_of(pieces: &[(u32, RegexId)], i: usize) -> u32
    requires within { i < length pieces.now }
    requires more { 0 < first_of end_of_characters (drop (i + 1) pieces.now) }
    ensures { result ≡ first_of end_of_characters (drop (i + 1) pieces.now) - 1 }
{
    match pieces.get(i + 1) {
        Some(next) => next.0 - 1,
        None => LAST_CHARACTER,
    }
}

/// Puts a range behind those of its target, or with the target at the end.
fn put(
    alloc: Global,
    seen: &mut IndexSet<RegexId>,
    gathered: &mut Vec<Gathered>,
    range: (u32, u32),
    target: RegexId,
) -> Result<(), AllocError>
    requires { seen.old.keys ≡ map (λ g. g.1) gathered.old.items }
    ensures keys { OnOk result (seen.new.keys ≡ map (λ g. g.1) gathered.new.items) }
    ensures once { OnOk result (AllPairs (λ t u. t ≢ u) seen.new.keys) }
    ensures put { OnOk result (gathered.new.items ≡ with_range target range gathered.old.items) }
{
    let (place, added) = seen.insert_full(target)?;
    if added {
        gathered.push(Gathered::new(alloc, range, target)?)?;
        return Ok(());
    }
    gathered[place].push(range)?;
    Ok(())
}

/// The ranges as classes.
pub(crate) fn classes(
    alloc: Global,
    gathered: &[Gathered],
) -> Result<Vec<(Class, RegexId)>, AllocError>
    requires { All (λ g. IsCanonical g.0) gathered.now }
    ensures { IfOk result (λ targets. targets.items ≡ gathered.now) }
{
    let mut targets = Vec::new(alloc);
    for target in gathered {
        targets.push(target.target(alloc)?)?;
    }
    Ok(targets)
}
