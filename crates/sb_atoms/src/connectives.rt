//! What connectives make of truths.

ghost use Rattle.std.specs.Prelude.{◌≡◌};
ghost use Rattle.sb_meaning.specs.Truth as meaning;
ghost use Rattle.sb_atoms.specs.Truths as made;

use sb_fragment::Connective;

/// All are true.
fn all_true(truths: &[bool]) -> bool
    ensures { result ≡ meaning.all_true truths.now }
{
    let mut left = truths.len();
    let mut all = true;
    while left > 0 {
        left -= 1;
        all &= truths[left];
    }
    all
}

/// Some is true.
fn some_true(truths: &[bool]) -> bool
    ensures { result ≡ meaning.some_true truths.now }
{
    let mut left = truths.len();
    let mut some = false;
    while left > 0 {
        left -= 1;
        some |= truths[left];
    }
    some
}

/// Where one is true what is behind it is true, to the last one. It leans to the right.
fn implied(truths: &[bool]) -> bool
    ensures { result ≡ meaning.implied truths.now }
{
    if truths.is_empty() {
        return true;
    }
    let mut left = truths.len() - 1;
    let mut behind = truths[left];
    while left > 0 {
        left -= 1;
        behind |= !truths[left];
    }
    behind
}

/// An odd number of them is true.
fn exclusive(truths: &[bool]) -> bool
    ensures { result ≡ meaning.xor_of truths.now }
{
    let [first, others @ ..] = truths else {
        return false;
    };
    let mut odd = *first;
    for other in others {
        odd = odd != *other;
    }
    odd
}

/// The second where the first is true, else the third.
fn chosen(truths: &[bool]) -> bool
    ensures { result ≡ made.chosen_truth truths.now }
{
    let [condition, one, other] = truths else {
        return false;
    };
    if *condition { *one } else { *other }
}

/// All are equal.
fn are_equal(truths: &[bool]) -> bool
    ensures { result ≡ meaning.is_chain made.is_same truths.now }
{
    let mut left = truths;
    while let [one, other, ..] = left {
        if *one != *other {
            return false;
        }
        left = &left[1..];
    }
    true
}

/// Each two differ, so they are two at most.
fn are_distinct(truths: &[bool]) -> bool
    ensures { result ≡ meaning.are_pairs meaning.differs truths.now }
{
    match truths {
        [] | [_] => true,
        [one, other] => *one != *other,
        _ => false,
    }
}

/// What a connective makes of truths. Linear in their number.
pub(crate) fn connected(connective: Connective, truths: &[bool]) -> bool
    ensures { result ≡ made.connected_truth connective truths.now }
{
    match connective {
        Connective::Not => !all_true(truths),
        Connective::And => all_true(truths),
        Connective::Or => some_true(truths),
        Connective::Implies => implied(truths),
        Connective::Xor => exclusive(truths),
        Connective::Ite => chosen(truths),
        Connective::Compare(true) => are_distinct(truths),
        Connective::Compare(false) => are_equal(truths),
    }
}
