//! Terms that say of a String term that it is a prefix, a suffix or a factor of another.

ghost use Rattle.std.specs.Prelude.{◌≡◌, ◌<◌, false, length, MatchOption, IfSome};
ghost use Rattle.sb_script.specs.Fragment.{fits};
ghost use Rattle.sb_term.specs.Numbered.{term_at};
ghost use Rattle.sb_fragment.specs.Shapes.{IsShape, affix};
ghost use Rattle.sb_fragment.specs.declared.shape.Shape.TheVariants.{Affix};

use crate::shape::{AffixKind, arguments_of};
use sb_term::{Table, TermId};

/// The part and the whole of such a term, in this order, which is that of its two arguments, or for `str.contains` the
/// other one. There is none where the term has not two arguments, and so is outside the fragment. Takes constant time
/// and no memory.
pub fn part_and_whole(table: &Table, id: TermId, kind: AffixKind) -> Option<(TermId, TermId)>
    requires number { id < length table.now }
    requires affix { IsShape (term_at table.now id) (Affix kind) }
    ensures parts { MatchOption result (fits (term_at table.now id) ≡ false)
        (λ p. term_at table.now id ≡ affix kind (term_at table.now p.0) (term_at table.now p.1)) }
    ensures smaller { IfSome result (λ p. (p.0 < id) × (p.1 < id)) }
{
    let [first, second] = arguments_of(table, id) else {
        return None;
    };
    match kind {
        AffixKind::Prefix => Some((*first, *second)),
        AffixKind::Suffix => Some((*first, *second)),
        AffixKind::Factor => Some((*second, *first)),
    }
}
