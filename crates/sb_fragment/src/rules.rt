//! Which rule of the fragment live assertions break.

ghost use Rattle.std.specs.Prelude.{◌≡◌, ◌<◌, true, false, length, IfOk};
ghost use Rattle.sb_term.specs.Numbered.{term_at};
ghost use Rattle.sb_script.specs.State.{asserted};
ghost use Rattle.sb_fragment.specs.Measures.{AreMeasures};
ghost use Rattle.sb_script.specs.Fragment.{is_decided};
ghost use Rattle.sb_fragment.specs.Rules.{assertion_in, HasNumberBelow, IsBrokenBy, is_broken, FragmentIsOfEach};

use crate::measures::Measures;
use crate::ruled::{Law, keeps};
use sb_term::{Assertion, Table, TermId};
use std::alloc::AllocError;

/// A rule of the fragment that an assertion breaks.
#[derive(Clone, Copy, PartialEq, Eq)]
pub enum Reason {
    /// An assertion was left out.
    Marked,
    /// A constant stands twice in the String term of a membership, on a side of an equality, or in an affix or the term
    /// of which it is to be one.
    RepeatedVariable,
    /// A constant stands in the regular expression of a membership, on both sides of an equality of String terms, or in
    /// both an affix and the term of which it is to be one.
    NotGround,
    /// The assertion is of another form than those that are decided so far: Boolean structure over memberships in
    /// regular expressions over words, comparisons of String terms, affixes, and Bool constants.
    NotBrought,
    /// The assertion is of that form, but a word or a regular expression in it is past the limits on sizes.
    TooLarge,
}

/// What live assertions that are inside the fragment ask: so far nothing but that each of them is Boolean structure.
#[derive(Clone, Copy, PartialEq, Eq)]
pub struct Problem;

/// Whether live assertions are inside the fragment.
#[derive(Clone, Copy, PartialEq, Eq)]
pub enum Standing {
    Inside(Problem),
    /// They are not, by the rule that the first one outside breaks.
    Outside(Reason),
}

/// The rule that an assertion outside the fragment breaks.
fn rule_of(measures: &mut Measures, table: &Table, id: TermId) -> Result<Reason, AllocError>
    requires number { id < length table.now }
    requires right { AreMeasures table.now measures.old }
    requires outside { is_decided (asserted (term_at table.now id)) ≡ false }
    ensures ok { IfOk result (λ reason. is_broken reason (asserted (term_at table.now id)) ≡ true) }
    ensures right { AreMeasures table.now measures.new }
{
    let once = keeps(measures, table, Law::EachOnce, id)?;
    if !once {
        return Ok(Reason::RepeatedVariable);
    }
    let one_side = keeps(measures, table, Law::OneGround, id)?;
    if !one_side {
        return Ok(Reason::NotGround);
    }
    let measure = measures.measure(table, id)?;
    if measure.is_structure {
        Ok(Reason::TooLarge)
    } else {
        Ok(Reason::NotBrought)
    }
}

/// The rule that an assertion breaks, if it breaks one.
pub(crate) fn broken(
    measures: &mut Measures,
    table: &Table,
    assertion: Assertion,
) -> Result<Option<Reason>, AllocError>
    requires number { HasNumberBelow (length table.now) assertion }
    requires right { AreMeasures table.now measures.old }
    ensures ok { IfOk result (λ found. IsBrokenBy (assertion_in table.now assertion) found) }
    ensures right { AreMeasures table.now measures.new }
{
    let Some(id) = assertion.term else {
        return Ok(Some(Reason::Marked));
    };
    if measures.fits_structure(table, id)? {
        Ok(None)
    } else {
        Ok(Some(rule_of(measures, table, id)?))
    }
}

/// A check is decided exactly where each of the live assertions is.
pub fn fragment_is_of_each()
    ensures { FragmentIsOfEach }
{}
