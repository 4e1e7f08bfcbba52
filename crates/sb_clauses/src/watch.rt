//! Watched literals.

ghost use Rattle.std.specs.Prelude.{◌≡◌, ◌<◌, true, length, MatchOption};
ghost use Rattle.std.specs.List.{list_all};
ghost use Rattle.sb_lit.specs.Clauses.{is_among};
ghost use Rattle.sb_trail.specs.Assignments.{held};
ghost use Rattle.sb_clauses.specs.Looking.{is_or_false, IsReplacement, IsSeen};

use sb_lit::Lit;
use sb_trail::{CompactLit, Trail};

/// What a clause comes to, seen from one of its two watched literals.
#[derive(Clone, Copy)]
pub enum Seen {
    /// The other one is true.
    Holds,
    /// The literal at this place is not false, and not the other one.
    Moves(usize),
    /// All literals are false but the other one, which has no value.
    Forces(Lit),
    /// All literals are false.
    False,
}

/// Looks at a clause from one of its two watched literals; `partner` is the other one. Where that is true the literals
/// of the clause are not read; linear in their number otherwise.
pub fn look(trail: &Trail, literals: &[CompactLit], partner: Lit) -> Seen
    requires { 0 < length literals.now → is_among literals.now partner ≡ true }
    ensures { IsSeen trail.now.literals literals.now partner result }
{
    if literals.is_empty() {
        return Seen::False;
    }
    match trail.literal_value(partner) {
        Some(true) => Seen::Holds,
        Some(false) => match replacement(trail, literals, partner) {
            Some(place) => Seen::Moves(place),
            None => Seen::False,
        },
        None => match replacement(trail, literals, partner) {
            Some(place) => Seen::Moves(place),
            None => Seen::Forces(partner),
        },
    }
}

/// The place of a literal that is not false, and not the other watched one.
fn replacement(trail: &Trail, literals: &[CompactLit], partner: Lit) -> Option<usize>
    ensures { MatchOption result (list_all (is_or_false (held trail.now.literals) partner) literals.now ≡ true)
        (λ place. IsReplacement (held trail.now.literals) literals.now partner place) }
{
    for (place, literal) in literals.iter().enumerate() {
        if !is_or_false(trail, partner, literal.literal()) {
            return Some(place);
        }
    }
    None
}

/// Whether a literal is this one or false.
pub fn is_or_false(trail: &Trail, partner: Lit, literal: Lit) -> bool
    ensures { result ≡ is_or_false (held trail.now.literals) partner literal }
{
    match trail.literal_value(literal) {
        Some(false) => true,
        _ => literal == partner,
    }
}
