//! So many fields, each of its shape.

ghost use Rattle.std.specs.Prelude.{◌≡◌, ◌∷◌, map, IfOk};
ghost use Rattle.sb_rulebook.specs.Reading.{bare, one, two, number, three, any_number, some};
ghost use Rattle.sb_proof.specs.Reading.{answered};
ghost use Rattle.sb_proof.specs.Views.{texts, on_both};

use crate::numbers::number;
use crate::read::LineFault;
use crate::shapes::{Shape, each};
use std::alloc::{AllocError, Global};

/// What is read, or why it is not, or that memory is out.
pub(crate) type Answer<T> = Result<Result<T, LineFault>, AllocError>;

/// No field.
pub(crate) fn bare<T: Drop>(made: T, fields: &[&[u8]]) -> Result<T, LineFault>
    ensures { answered (λ x. x) result ≡ bare made (texts fields.now) }
{
    if fields.is_empty() {
        Ok(made)
    } else {
        Err(LineFault::BadWord)
    }
}

/// One field.
pub(crate) fn one<T: Shape + Drop>(alloc: Global, fields: &[&[u8]]) -> Answer<T>
    ensures { IfOk result (λ r. answered T.meant r ≡ one T.shape (λ x. x) (texts fields.now)) }
{
    let [field] = fields else {
        return Ok(Err(LineFault::BadWord));
    };
    match T::read(alloc, field)? {
        Some(item) => Ok(Ok(item)),
        None => Ok(Err(LineFault::BadNumber)),
    }
}

/// Two fields.
pub(crate) fn two<T: Shape + Drop, U: Shape + Drop>(
    alloc: Global,
    fields: &[&[u8]],
) -> Answer<(T, U)>
    ensures { IfOk result
        (λ r. answered (on_both T.meant U.meant) r ≡ two T.shape U.shape (λ x y. (x, y)) (texts fields.now)) }
{
    let [first, second] = fields else {
        return Ok(Err(LineFault::BadWord));
    };
    let Some(first) = T::read(alloc, first)? else {
        return Ok(Err(LineFault::BadNumber));
    };
    match U::read(alloc, second)? {
        Some(second) => Ok(Ok((first, second))),
        None => Ok(Err(LineFault::BadNumber)),
    }
}

/// Three numbers.
pub(crate) fn three(fields: &[&[u8]]) -> Result<(u64, u64, u64), LineFault>
    ensures { answered (λ p. p) result ≡ three number (λ x y z. (x, y, z)) (texts fields.now) }
{
    let [first, second, third] = fields else {
        return Err(LineFault::BadWord);
    };
    match (number(first), number(second), number(third)) {
        (Some(first), Some(second), Some(third)) => Ok((first, second, third)),
        _ => Err(LineFault::BadNumber),
    }
}

/// One field, and any number of fields behind it.
pub(crate) fn some<T: Shape + Drop, U: Shape + Drop>(
    alloc: Global,
    fields: &[&[u8]],
) -> Answer<(T, Vec<U>)>
    ensures { IfOk result
        (λ r. answered (on_both T.meant (λ v. map U.meant v.items)) r
        ≡ some T.shape U.shape (λ x xs. (x, xs)) (texts fields.now)) }
{
    let [first, others @ ..] = fields else {
        return Ok(Err(LineFault::BadWord));
    };
    let Some(first) = T::read(alloc, first)? else {
        return Ok(Err(LineFault::BadNumber));
    };
    match each(alloc, others)? {
        Some(others) => Ok(Ok((first, others))),
        None => Ok(Err(LineFault::BadNumber)),
    }
}

/// Any number of fields.
pub(crate) fn any_number<T: Shape + Drop>(alloc: Global, fields: &[&[u8]]) -> Answer<Vec<T>>
    ensures { IfOk result
        (λ r. answered (λ v. map T.meant v.items) r ≡ any_number T.shape (λ xs. xs) (texts fields.now)) }
{
    match each(alloc, fields)? {
        Some(items) => Ok(Ok(items)),
        None => Ok(Err(LineFault::BadNumber)),
    }
}

/// At least one field.
pub(crate) fn at_least_one<T: Shape + Drop>(alloc: Global, fields: &[&[u8]]) -> Answer<Vec<T>>
    ensures { IfOk result
        (λ r. answered (λ v. map T.meant v.items) r ≡ some T.shape T.shape (λ x xs. x ∷ xs) (texts fields.now)) }
{
    if fields.is_empty() {
        return Ok(Err(LineFault::BadWord));
    }
    any_number(alloc, fields)
}
