//! What a search is asked about, where not each assertion is a membership, and what refutes a check without one.
//!
//! A constant that occurs in no assertion of other structure has the word that its memberships give, whatever the
//! values of all others are. So the search is asked about the assertions that are no memberships, and about the
//! memberships of the constants that occur in these.

ghost use Rattle.std.specs.Prelude.{◌≡◌, ℕ, ◌<◌, Bool, length, All, IsSome, IfOk, OnOk};
ghost use Rattle.std.specs.List.{list_all};
ghost use Rattle.sb_fragment.specs.Measures.{AreMeasures};
ghost use Rattle.sb_stack.specs.Stacked.{Stacked, HasNumberBelow};
ghost use Rattle.sb_decide.specs.Knowing.{Knows, places_of};
ghost use Rattle.sb_decide.specs.Ready.{IsClash, IsQuestion, IsReady};
ghost use Rattle.sb_decide.specs.Speaking.{Hears, TakesApart, passes_at};

use crate::decide::Decider;
use indexmap::IndexSet;
use sb_fragment::{Measures, arguments_of};
use sb_term::{Assertion, Serial, Table, Term, TermId, put_all};
use std::alloc::{AllocError, Global};
use std::collections::BTreeSet;

impl Decider {
    /// The places of the live assertions that a search is to be asked about where a check is ready, ascending: those
    /// that are no memberships, and the memberships of each constant that occurs in one of them.
    ///
    /// Linear in these places, but that they are sorted. `AllocError` only for want of memory.
    pub fn question(&self, alloc: Global) -> Result<Vec<usize>, AllocError>
        ensures { IfOk result (λ places. (stack : Stacked) → IsReady self.now stack
            → IsQuestion self.now.others.items stack places.items) }
    {
        let mut places = Vec::from_slice(alloc, self.others.as_slice())?;
        let serials = self.spoken.as_slice();
        for serial in serials {
            places.extend_from_slice(self.places(*serial))?;
        }
        places.sort_unstable();
        Ok(places)
    }

    /// The places of live assertions that refute a check, where a constant is known to have no word, ascending: those
    /// of its memberships, its equalities with literals, and the denials of such. Constant time.
    pub fn clash(&self) -> &[usize]
        requires { IsSome self.now.dead }
        ensures { (stack : Stacked) → Knows self.now stack → IsClash stack result.now }
    {
        let serial = self.dead.unwrap();
        self.places(serial)
    }

    /// The places of a constant's memberships among the assertions that were taken in.
    fn places(&self, serial: Serial) -> &[usize]
        ensures { result.now ≡ places_of self.now serial.0 }
    {
        match self.constants.get(serial.0 as usize) {
            Some(conjuncts) => conjuncts.places(),
            None => &[],
        }
    }
}

/// Lists the constants too that occur in the assertions at these places, each once.
pub(crate) fn hear(
    alloc: Global,
    measures: &mut Measures,
    table: &Table,
    assertions: &[Assertion],
    places: &[usize],
    serials: &mut IndexSet<Serial>,
) -> Result<(), AllocError>
    requires numbers { All (HasNumberBelow (length table.now)) assertions.now }
    requires below { All (λ place. place < length assertions.now) places.now }
    requires measures { AreMeasures table.now measures.old }
    ensures hears { OnOk result (Hears table.now assertions.now places.now serials.old.keys serials.new.keys) }
    ensures measures { OnOk result (AreMeasures table.now measures.new) }
{
    let terms = terms_at(alloc, assertions, places)?;
    let mut left = BTreeSet::new(alloc);
    put_all(&mut left, terms.as_slice())?;
    while let Some(id) = left.pop_last() {
        take_apart(measures, table, &mut left, serials, id)?;
    }
    Ok(())
}

/// The terms of the assertions at these places.
fn terms_at(
    alloc: Global,
    assertions: &[Assertion],
    places: &[usize],
) -> Result<Vec<TermId>, AllocError>
    requires { All (λ place. place < length assertions.now) places.now }
    ensures { IfOk result (λ terms. (test : ℕ → Bool)
        → list_all test terms.items ≡ list_all (passes_at test assertions.now) places.now) }
{
    let mut terms = Vec::new(alloc);
    for place in places {
        let assertion = &assertions[*place];
        let Some(term) = assertion.term else {
            continue;
        };
        terms.push(term)?;
    }
    Ok(terms)
}

/// Lists a term that is a constant, and puts the arguments of another one in which a constant occurs among those that
/// are left.
fn take_apart(
    measures: &mut Measures,
    table: &Table,
    left: &mut BTreeSet<TermId>,
    serials: &mut IndexSet<Serial>,
    id: TermId,
) -> Result<(), AllocError>
    requires number { id < length table.now }
    requires measures { AreMeasures table.now measures.old }
    ensures apart { OnOk result
        (TakesApart table.now id left.old.keys left.new.keys serials.old.keys serials.new.keys) }
    ensures measures { OnOk result (AreMeasures table.now measures.new) }
{
    let measure = measures.measure(table, id)?;
    if measure.is_ground {
        return Ok(());
    }
    let Term::Constant(serial, _) = table.term(id) else {
        put_all(left, arguments_of(table, id))?;
        return Ok(());
    };
    serials.insert(*serial)?;
    Ok(())
}
