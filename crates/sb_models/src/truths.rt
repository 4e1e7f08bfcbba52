//! The truth values of the live constants, by serial. A constant of another sort than Bool has false.

ghost use Rattle.std.specs.Prelude.{◌≡◌, ℕ, true, false, length, IfOk, OnOk};
ghost use Rattle.std.specs.List.{list_all};
ghost use Rattle.sb_proof.specs.Lines.{value_in};
ghost use Rattle.sb_models.specs.Knowing.{truth_at};
ghost use Rattle.sb_models.specs.Tried.{truth_in, truths_in, one_given, is_assumed, IsTruthPut, HasTruthAt};

use sb_proof::Value;
use sb_stack::{Assumption, LiveConstant};
use sb_term::Serial;
use std::alloc::{AllocError, Global};

/// The truth value of a value, false where it is none.
fn truth_of(value: &Value) -> bool
    ensures { result ≡ truth_in (value_in value.now) }
{
    match value {
        Value::Truth(truth) => *truth,
        Value::Int(_) | Value::Text(_) => false,
    }
}

/// Sees that there is a truth value at the place, where none is false.
fn make_room(truths: &mut Vec<bool>, place: usize) -> Result<(), AllocError>
    ensures { OnOk result (HasTruthAt place truths.old.items truths.new.items) }
{
    while truths.len() <= place {
        truths.push(false)?;
    }
    Ok(())
}

/// Puts a truth value at a place. Takes no memory for false past the last one.
fn put(truths: &mut Vec<bool>, place: usize, truth: bool) -> Result<(), AllocError>
    ensures { OnOk result (IsTruthPut place truth truths.old.items truths.new.items) }
{
    if !truth && truths.len() <= place {
        return Ok(());
    }
    make_room(truths, place)?;
    truths[place] = truth;
    Ok(())
}

/// The truth values of constants, by serial, of which the first of a serial counts. No memory is taken where none is
/// true; else as many are kept as the largest serial of one that is true says. Linear in these, and in the values.
pub(crate) fn truths_of(
    alloc: Global,
    constants: &[LiveConstant],
    values: &[Value],
) -> Result<Vec<bool>, AllocError>
    requires { length values.now ≡ length constants.now }
    ensures { IfOk result (λ truths. (serial : ℕ)
        → truth_at truths.items serial ≡ one_given constants.now (truths_in values.now) serial false) }
{
    let mut truths = Vec::new(alloc);
    let mut place = values.len();
    while place > 0 {
        place -= 1;
        put(
            &mut truths,
            constants[place].serial.0 as usize,
            truth_of(&values[place]),
        )?;
    }
    Ok(truths)
}

/// Whether these are the same truth values.
pub(crate) fn are_same(one: &[bool], other: &[bool]) -> bool
    ensures { result ≡ true → one.now ≡ other.now }
{
    if one.len() != other.len() {
        return false;
    }
    for (place, truth) in one.iter().enumerate() {
        if *truth != other[place] {
            return false;
        }
    }
    true
}

/// The truth value at a serial, false past the last one.
fn truth_at(truths: &[bool], serial: Serial) -> bool
    ensures { result ≡ truth_at truths.now serial.0 }
{
    match truths.get(serial.0 as usize) {
        Some(truth) => *truth,
        None => false,
    }
}

/// Whether the assumption is true where constants have these truth values.
fn is_assumed(truths: &[bool], assumption: Assumption) -> bool
    ensures { result ≡ is_assumed truths.now assumption }
{
    truth_at(truths, assumption.serial) == assumption.positive
}

/// Whether the assumptions are true where constants have these truth values, by serial. Linear in the assumptions.
pub(crate) fn are_assumed(truths: &[bool], assumptions: &[Assumption]) -> bool
    ensures { result ≡ list_all (is_assumed truths.now) assumptions.now }
{
    assumptions
        .iter()
        .all(|assumption| is_assumed(truths, *assumption))
}
