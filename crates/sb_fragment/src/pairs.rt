//! What is compared two by two.

ghost use Rattle.std.specs.Prelude.{◌≡◌, ◌++◌, map, IfOk, OnOk};
ghost use Rattle.sb_fragment.specs.Compared.{neighbours, pairs, compared};

use std::alloc::{AllocError, Global};

/// Each two neighbours.
fn neighbours<T: Copy>(alloc: Global, items: &[T]) -> Result<Vec<(T, T)>, AllocError>
    ensures { IfOk result (λ found. found.items ≡ neighbours items.now) }
{
    let mut found = Vec::new(alloc);
    let mut left = items;
    while let [one, other, ..] = left {
        found.push((*one, *other))?;
        left = &left[1..];
    }
    Ok(found)
}

/// Adds a first one with each of the others.
fn put_with_each<T: Copy>(found: &mut Vec<(T, T)>, first: T, others: &[T]) -> Result<(), AllocError>
    ensures { OnOk result (found.new.items ≡ found.old.items ++ map (λ other. (first, other)) others.now) }
{
    for other in others {
        found.push((first, *other))?;
    }
    Ok(())
}

/// Each two. Their number is quadratic.
fn pairs<T: Copy>(alloc: Global, items: &[T]) -> Result<Vec<(T, T)>, AllocError>
    ensures { IfOk result (λ found. found.items ≡ pairs items.now) }
{
    let mut found = Vec::new(alloc);
    let mut left = items;
    while let [first, others @ ..] = left {
        put_with_each(&mut found, *first, others)?;
        left = others;
    }
    Ok(found)
}

/// Those that are compared: each two where they are to be distinct, and then their number is quadratic; else each two
/// neighbours. `AllocError` only for want of memory.
pub fn compared<T: Copy>(
    alloc: Global,
    distinct: bool,
    items: &[T],
) -> Result<Vec<(T, T)>, AllocError>
    ensures { IfOk result (λ found. found.items ≡ compared distinct items.now) }
{
    if distinct {
        pairs(alloc, items)
    } else {
        neighbours(alloc, items)
    }
}
