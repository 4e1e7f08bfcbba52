//! The shortest-least word of a regex's language, by a search for a word of one length after the other, depth first.
//!
//! A search breadth first meets all states that shorter words lead to before it comes to a word, and these may be many:
//! twice as many with each character where two characters lead apart. This search goes first where the least character
//! leads. What the arena knows of lengths keeps it from regexes that have no word as long as is wanted, and shows where
//! each word of characters is one; what it finds to be without such a word it remembers. A walk over members that comes
//! to its bound asks it.

ghost use Rattle.std.specs.Prelude.{◌≡◌, ℕ, ◌<◌, ◌++◌, true, [], List, length, slice_get, IfOk, IfSome, OnOk, Some, IsSome};
ghost use Rattle.sb_lang.specs.Language.{language};
ghost use Rattle.sb_lang.specs.Least.{IsShortestLeast};
ghost use Rattle.sb_regex.specs.Numbered.{regex_at, Extends};
ghost use Rattle.sb_deriv.specs.Faithful.{entry_of, IsFaithful, KeepsEntries};
ghost use Rattle.sb_graph.specs.Lengths.{IsTried, IsKnown, AreFailed, AreZeros};

use indexmap::IndexSet;
use sb_deriv::Deriver;
use sb_lang::derivative::{derivative_has_rests, nullable_has_empty_word};
use sb_regex::{Arena, RegexId};
use std::alloc::{AllocError, Global};

/// The lengths that are tried are below this one.
const MOST: usize = 64;

/// What a search for a word of one length finds.
pub(crate) enum Tried {
    /// The least word of this length.
    Found,
    /// There is none.
    Nothing,
    /// It expanded as many states as it may.
    Stopped,
}

/// What is known of the words of one length without a derivative.
pub(crate) enum Known {
    /// Each word of characters is one.
    Every,
    /// There is none.
    Nothing,
    /// Not enough; the length is not 0.
    Open,
}

/// The least of the shortest words of a regex's language, where it is shorter than 64 characters and the search finds
/// it before it has expanded `bound` states.
///
/// A state is expanded once at most for each length that is wanted of it, and takes time linear in the pieces of its
/// derivative then, beside the derivatives, which are kept.
pub fn find_by_length(
    alloc: Global,
    arena: &mut Arena,
    deriver: &mut Deriver,
    root: RegexId,
    bound: usize,
) -> Result<Option<Vec<u32>>, AllocError>
    requires known { root < length arena.old }
    requires faithful { IsFaithful arena.old deriver.old }
    ensures found { IfOk result (λ found. IfSome found
        (λ codes. IsShortestLeast (language (regex_at arena.old root)) codes.items)) }
    ensures extends { Extends arena.old arena.new }
    ensures faithful { IsFaithful arena.new deriver.new }
    ensures kept { KeepsEntries deriver.old deriver.new }
{
    let mut failed = IndexSet::new(alloc);
    let mut codes = Vec::new(alloc);
    if try_lengths(arena, deriver, &mut failed, root, bound, &mut codes)? {
        return Ok(Some(codes));
    }
    Ok(None)
}

/// Tries one length after the other. Whether the list has the word then.
fn try_lengths(
    arena: &mut Arena,
    deriver: &mut Deriver,
    failed: &mut IndexSet<(RegexId, usize)>,
    root: RegexId,
    bound: usize,
    codes: &mut Vec<u32>,
) -> Result<bool, AllocError>
    requires known { root < length arena.old }
    requires faithful { IsFaithful arena.old deriver.old }
    requires failed { failed.old.keys ≡ [] }
    requires codes { codes.old.items ≡ [] }
    ensures found { IfOk result (λ found. found ≡ true
        → IsShortestLeast (language (regex_at arena.old root)) codes.new.items) }
    ensures extends { Extends arena.old arena.new }
    ensures faithful { IsFaithful arena.new deriver.new }
    ensures kept { KeepsEntries deriver.old deriver.new }
{
    let mut left = bound;
    for wanted in 0..MOST {
        match try_length(arena, deriver, failed, &mut left, root, wanted, codes)? {
            Tried::Found => return Ok(true),
            Tried::Stopped => return Ok(false),
            Tried::Nothing => {}
        }
    }
    Ok(false)
}

/// Puts the least word of a length behind the others, if the state has one.
fn try_length(
    arena: &mut Arena,
    deriver: &mut Deriver,
    failed: &mut IndexSet<(RegexId, usize)>,
    left: &mut usize,
    state: RegexId,
    wanted: usize,
    codes: &mut Vec<u32>,
) -> Result<Tried, AllocError>
    requires known { state < length arena.old }
    requires faithful { IsFaithful arena.old deriver.old }
    requires failed { AreFailed arena.old failed.old.keys }
    ensures tried { IfOk result
        (λ tried. IsTried (language (regex_at arena.old state)) wanted codes.old.items codes.new.items tried) }
    ensures failed { OnOk result (AreFailed arena.new failed.new.keys) }
    ensures extends { Extends arena.old arena.new }
    ensures faithful { IsFaithful arena.new deriver.new }
    ensures kept { KeepsEntries deriver.old deriver.new }
{
    match look(arena, failed, state, wanted) {
        Known::Every => {
            put_zeros(codes, wanted)?;
            return Ok(Tried::Found);
        }
        Known::Nothing => return Ok(Tried::Nothing),
        Known::Open => {}
    }
    if *left == 0 {
        return Ok(Tried::Stopped);
    }
    *left -= 1;
    derivative_has_rests();
    deriver.derive(arena, state)?;
    let depth = codes.len();
    let count = count_of(deriver, state);
    for place in 0..count {
        let (character, target) = piece_at(deriver, state, place);
        codes.push(character)?;
        match try_length(arena, deriver, failed, left, target, wanted - 1, codes)? {
            Tried::Found => return Ok(Tried::Found),
            Tried::Stopped => return Ok(Tried::Stopped),
            Tried::Nothing => codes.truncate(depth),
        }
    }
    failed.insert((state, wanted))?;
    Ok(Tried::Nothing)
}

/// What is known of the words of a length that a state has. Constant time.
fn look(arena: &Arena, failed: &IndexSet<(RegexId, usize)>, state: RegexId, wanted: usize) -> Known
    requires known { state < length arena.now }
    requires failed { AreFailed arena.now failed.now.keys }
    ensures { IsKnown (language (regex_at arena.now state)) wanted result }
{
    nullable_has_empty_word();
    if wanted == 0 {
        if arena.nullable(state) {
            return Known::Every;
        }
        return Known::Nothing;
    }
    if arena.lengths(state).must(wanted) {
        return Known::Every;
    }
    if !arena.lengths(state).may(wanted) {
        return Known::Nothing;
    }
    if failed.contains(&(state, wanted)) {
        return Known::Nothing;
    }
    Known::Open
}

/// Puts the least word of a length behind the others.
fn put_zeros(codes: &mut Vec<u32>, count: usize) -> Result<(), AllocError>
    ensures { OnOk result (AreZeros count codes.old.items codes.new.items) }
{
    for _place in 0..count {
        codes.push(0)?;
    }
    Ok(())
}

/// The number of pieces of a derivative that is known.
fn count_of(deriver: &Deriver, state: RegexId) -> usize
    requires { IsSome (entry_of deriver.now state) }
    ensures { (pieces : List (ℕ × ℕ)) → entry_of deriver.now state ≡ Some pieces → result ≡ length pieces }
{
    match deriver.derivative(state) {
        Some(derivative) => derivative.pieces().len(),
        None => unreachable!(),
    }
}

/// A piece of a derivative that is known: its first character and its target.
fn piece_at(deriver: &Deriver, state: RegexId, place: usize) -> (u32, RegexId)
    requires { (pieces : List (ℕ × ℕ)) × (entry_of deriver.now state ≡ Some pieces) × (place < length pieces) }
    ensures { (pieces : List (ℕ × ℕ)) → entry_of deriver.now state ≡ Some pieces
        → slice_get pieces place ≡ Some result }
{
    match deriver.derivative(state) {
        Some(derivative) => derivative.pieces()[place],
        None => unreachable!(),
    }
}
