//! Numbers by their digits (SMT-LIB 2.6, section 3.1).

ghost use Rattle.std.specs.Prelude.{◌≡◌, ℕ, ◌+◌, ◌-◌, ◌*◌, ◌<◌, ◌≤◌, MatchOption};
ghost use Rattle.sb_script.specs.Texts.{number_of};

/// The number that the digits spell, where it is at most the limit. Linear in the digits, and takes no memory.
pub fn number_up_to(digits: &[u8], limit: usize) -> Option<usize>
    ensures { MatchOption result (limit < number_of digits.now) (λ n. (number_of digits.now ≡ n) × (n ≤ limit)) }
{
    let mut number = 0;
    for digit in digits {
        let Some(next) = with_digit(number, *digit, limit) else {
            return None;
        };
        number = next;
    }
    Some(number)
}

/// A number with one more digit, where it is at most the limit.
fn with_digit(number: usize, digit: u8, limit: usize) -> Option<usize>
    ensures { MatchOption result (limit < 10 * number + (digit - 48))
        (λ n. (n ≡ 10 * number + (digit - 48)) × (n ≤ limit)) }
{
    let tens = number.checked_mul(10)?;
    let more = tens.checked_add(usize::from(digit.saturating_sub(b'0')))?;
    if more <= limit { Some(more) } else { None }
}
