//! Numbers by the serials of their constants.

ghost use Rattle.std.specs.Prelude.{◌≡◌, OnOk};
ghost use Rattle.sb_theory.specs.Fronts.{number_at, IsSet};

use sb_term::Serial;
use std::alloc::AllocError;

/// The number of a constant, 0 where none was put. Takes constant time and no memory.
pub(crate) fn number_of(numbers: &[usize], serial: Serial) -> usize
    ensures { result ≡ number_at numbers.now serial.0 }
{
    numbers.get(serial.0 as usize).copied().unwrap_or(0)
}

/// Puts the number of a constant.
pub(crate) fn put_number(
    numbers: &mut Vec<usize>,
    serial: Serial,
    number: usize,
) -> Result<(), AllocError>
    ensures { OnOk result (IsSet numbers.old.items numbers.new.items serial.0 number) }
{
    let place = serial.0 as usize;
    while numbers.len() <= place {
        numbers.push(0)?;
    }
    numbers[place] = number;
    Ok(())
}
