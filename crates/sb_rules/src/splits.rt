//! What steps say of memberships: of one of no pieces, of one of a word and more pieces, and of one of a constant and
//! more pieces. Atoms are looked at by the numbers of their regexes, and pieces one by one.

ghost use Rattle.std.specs.Prelude.{◌≡◌, ◌<◌, ◌≤◌, ◌&&◌, ◌∷◌, [], map, not, true, Some, length, if◌then◌else◌, IfOk};
ghost use Rattle.std.specs.Cmp.Lexicographic.{pointwise};
ghost use Rattle.sb_word.specs.Words.{are_characters};
ghost use Rattle.sb_lang.specs.Order.{regex_eq};
ghost use Rattle.sb_lang.specs.Constructors.{mkpath};
ghost use Rattle.sb_lang.specs.Derivative.{nullable, nd_along};
ghost use Rattle.sb_regex.specs.Numbered.{regex_at, Extends};
ghost use Rattle.sb_plain.specs.Memory.{IsRight};
ghost use Rattle.sb_script.specs.Pieces.{constant_piece, word_piece};
ghost use Rattle.sb_rulebook.specs.Atoms.{are_pieces, in_atom, is_same_atom, is_same_piece, is_well_formed};
ghost use Rattle.sb_rulebook.specs.Splits.{is_end, is_cut, is_split};
ghost use Rattle.sb_proof.specs.Lines.{atom_in, piece_in};
ghost use Rattle.sb_atoms.specs.Numbered.{over, HasRegexBelow};
ghost use Rattle.sb_rules.specs.Stepping.{is_this};

use sb_lang::order::order_tells_apart;
use sb_plain::Plain;
use sb_proof::{Atom, Piece};
use sb_regex::{Arena, RegexId};
use std::alloc::{AllocError, Global};

/// Whether the atom says that no pieces are in a regex, and is true or false as the literal is positive or negative.
/// Constant time.
pub(crate) fn is_end(arena: &Arena, positive: bool, atom: &Atom<RegexId>) -> bool
    requires { HasRegexBelow (length arena.now) (atom_in atom.now) }
    ensures { result ≡ is_end positive (Some (over arena.now (atom_in atom.now))) }
{
    match atom {
        Atom::In(pieces, regex) => is_end_of(arena, positive, pieces.as_slice(), *regex),
        Atom::Bool(_) | Atom::Le(..) | Atom::Sum(..) | Atom::And(_) | Atom::Iff(..) => false,
    }
}

/// The same of the membership of these pieces.
fn is_end_of(arena: &Arena, positive: bool, pieces: &[Piece], regex: RegexId) -> bool
    requires { regex < length arena.now }
    ensures { result ≡ is_end positive (Some (in_atom (map piece_in pieces.now) (regex_at arena.now regex))) }
{
    if !pieces.is_empty() {
        return false;
    }
    has_empty_word(arena, positive, regex)
}

/// Whether the regex is nullable, or not.
fn has_empty_word(arena: &Arena, positive: bool, regex: RegexId) -> bool
    requires { regex < length arena.now }
    ensures { result
        ≡ (if positive then nullable (regex_at arena.now regex) else not (nullable (regex_at arena.now regex))) }
{
    if positive {
        arena.nullable(regex)
    } else {
        !arena.nullable(regex)
    }
}

/// Whether the first atom is the membership of a word and more pieces, and the other one that of these in the
/// derivative along the word. Linear in the word and the pieces, with a derivative for each character.
pub(crate) fn is_cut(
    alloc: Global,
    arena: &mut Arena,
    plain: &mut Plain,
    one: &Atom<RegexId>,
    other: &Atom<RegexId>,
) -> Result<bool, AllocError>
    requires one { HasRegexBelow (length arena.old) (atom_in one.now) }
    requires other { HasRegexBelow (length arena.old) (atom_in other.now) }
    requires formed { is_well_formed (atom_in one.now) ≡ true }
    requires right { IsRight arena.old plain.old }
    ensures ok { IfOk result (λ b. b ≡ is_cut (Some (over arena.old (atom_in one.now)))
        (Some (over arena.old (atom_in other.now)))) }
    ensures extends { Extends arena.old arena.new }
    ensures right { IsRight arena.new plain.new }
{
    match one {
        Atom::In(pieces, regex) => {
            is_cut_from(alloc, arena, plain, pieces.as_slice(), *regex, other)
        }
        Atom::Bool(_) | Atom::Le(..) | Atom::Sum(..) | Atom::And(_) | Atom::Iff(..) => Ok(false),
    }
}

/// The same of the membership of these pieces.
fn is_cut_from(
    alloc: Global,
    arena: &mut Arena,
    plain: &mut Plain,
    pieces: &[Piece],
    regex: RegexId,
    other: &Atom<RegexId>,
) -> Result<bool, AllocError>
    requires regex { regex < length arena.old }
    requires other { HasRegexBelow (length arena.old) (atom_in other.now) }
    requires formed { are_pieces (map piece_in pieces.now) ≡ true }
    requires right { IsRight arena.old plain.old }
    ensures ok { IfOk result
        (λ b. b ≡ is_cut (Some (in_atom (map piece_in pieces.now) (regex_at arena.old regex)))
        (Some (over arena.old (atom_in other.now)))) }
    ensures extends { Extends arena.old arena.new }
    ensures right { IsRight arena.new plain.new }
{
    let [first, behind @ ..] = pieces else {
        return Ok(false);
    };
    is_cut_behind(alloc, arena, plain, first, behind, regex, other)
}

/// The same, where the first piece is apart.
fn is_cut_behind(
    alloc: Global,
    arena: &mut Arena,
    plain: &mut Plain,
    first: &Piece,
    behind: &[Piece],
    regex: RegexId,
    other: &Atom<RegexId>,
) -> Result<bool, AllocError>
    requires regex { regex < length arena.old }
    requires other { HasRegexBelow (length arena.old) (atom_in other.now) }
    requires formed { are_pieces (piece_in first.now ∷ map piece_in behind.now) ≡ true }
    requires right { IsRight arena.old plain.old }
    ensures ok { IfOk result
        (λ b. b ≡ is_cut (Some (in_atom (piece_in first.now ∷ map piece_in behind.now) (regex_at arena.old regex)))
        (Some (over arena.old (atom_in other.now)))) }
    ensures extends { Extends arena.old arena.new }
    ensures right { IsRight arena.new plain.new }
{
    match first {
        Piece::Word(word) => {
            is_cut_to(alloc, arena, plain, word.as_slice(), behind, regex, other)
        }
        Piece::Constant(_) => Ok(false),
    }
}

/// The same, where the first piece is this word.
fn is_cut_to(
    alloc: Global,
    arena: &mut Arena,
    plain: &mut Plain,
    word: &[u64],
    behind: &[Piece],
    regex: RegexId,
    other: &Atom<RegexId>,
) -> Result<bool, AllocError>
    requires regex { regex < length arena.old }
    requires other { HasRegexBelow (length arena.old) (atom_in other.now) }
    requires word { are_characters word.now ≡ true }
    requires right { IsRight arena.old plain.old }
    ensures ok { IfOk result
        (λ b. b ≡ is_cut (Some (in_atom (word_piece word.now ∷ map piece_in behind.now) (regex_at arena.old regex)))
        (Some (over arena.old (atom_in other.now)))) }
    ensures extends { Extends arena.old arena.new }
    ensures right { IsRight arena.new plain.new }
{
    match other {
        Atom::In(rest, target) => {
            is_cut_at(
                alloc,
                arena,
                plain,
                word,
                behind,
                regex,
                rest.as_slice(),
                *target,
            )
        }
        Atom::Bool(_) | Atom::Le(..) | Atom::Sum(..) | Atom::And(_) | Atom::Iff(..) => Ok(false),
    }
}

/// The same, where the other atom is the membership of these pieces.
fn is_cut_at(
    alloc: Global,
    arena: &mut Arena,
    plain: &mut Plain,
    word: &[u64],
    behind: &[Piece],
    regex: RegexId,
    rest: &[Piece],
    target: RegexId,
) -> Result<bool, AllocError>
    requires regex { regex < length arena.old }
    requires target { target < length arena.old }
    requires word { are_characters word.now ≡ true }
    requires right { IsRight arena.old plain.old }
    ensures ok { IfOk result (λ b. b ≡ (pointwise is_same_piece (map piece_in behind.now) (map piece_in rest.now)
        && regex_eq (nd_along (regex_at arena.old regex) word.now) (regex_at arena.old target))) }
    ensures extends { Extends arena.old arena.new }
    ensures right { IsRight arena.new plain.new }
{
    if !are_same(behind, rest) {
        return Ok(false);
    }
    is_along(alloc, arena, plain, word, regex, target)
}

/// Whether the derivative along a word is the target.
fn is_along(
    alloc: Global,
    arena: &mut Arena,
    plain: &mut Plain,
    word: &[u64],
    regex: RegexId,
    target: RegexId,
) -> Result<bool, AllocError>
    requires regex { regex < length arena.old }
    requires target { target < length arena.old }
    requires word { are_characters word.now ≡ true }
    requires right { IsRight arena.old plain.old }
    ensures ok { IfOk result
        (λ b. b ≡ regex_eq (nd_along (regex_at arena.old regex) word.now) (regex_at arena.old target)) }
    ensures extends { Extends arena.old arena.new }
    ensures right { IsRight arena.new plain.new }
{
    order_tells_apart();
    let codes = codes_of(alloc, word)?;
    let rest = plain.along(arena, &codes, regex)?;
    arena.normal_regexes_each_once();
    Ok(rest == target)
}

/// The characters of a word.
fn codes_of(alloc: Global, word: &[u64]) -> Result<Vec<u32>, AllocError>
    requires { are_characters word.now ≡ true }
    ensures { IfOk result (λ codes. codes.items ≡ word.now) }
{
    let mut codes = Vec::with_capacity(alloc, word.len())?;
    for number in word {
        codes.push(character(*number))?;
    }
    Ok(codes)
}

fn character(number: u64) -> u32
    requires { number ≤ 0x2ffff }
    ensures { result ≡ number }
{
    number as u32
}

/// Whether the first atom is the membership of a constant and more pieces, the last one that of these pieces, and the
/// one between them says that the constant leads from the regex of the first to that of the last. Linear in the pieces.
pub(crate) fn is_split(
    arena: &mut Arena,
    one: &Atom<RegexId>,
    between: &Atom<RegexId>,
    other: &Atom<RegexId>,
) -> Result<bool, AllocError>
    requires one { HasRegexBelow (length arena.old) (atom_in one.now) }
    requires between { HasRegexBelow (length arena.old) (atom_in between.now) }
    requires other { HasRegexBelow (length arena.old) (atom_in other.now) }
    ensures ok { IfOk result (λ b. b ≡ is_split (Some (over arena.old (atom_in one.now)))
        (Some (over arena.old (atom_in between.now))) (Some (over arena.old (atom_in other.now)))) }
    ensures extends { Extends arena.old arena.new }
{
    match one {
        Atom::In(pieces, regex) => {
            is_split_from(arena, pieces.as_slice(), *regex, between, other)
        }
        Atom::Bool(_) | Atom::Le(..) | Atom::Sum(..) | Atom::And(_) | Atom::Iff(..) => Ok(false),
    }
}

/// The same of the membership of these pieces.
fn is_split_from(
    arena: &mut Arena,
    pieces: &[Piece],
    regex: RegexId,
    between: &Atom<RegexId>,
    other: &Atom<RegexId>,
) -> Result<bool, AllocError>
    requires regex { regex < length arena.old }
    requires between { HasRegexBelow (length arena.old) (atom_in between.now) }
    requires other { HasRegexBelow (length arena.old) (atom_in other.now) }
    ensures ok { IfOk result
        (λ b. b ≡ is_split (Some (in_atom (map piece_in pieces.now) (regex_at arena.old regex)))
        (Some (over arena.old (atom_in between.now))) (Some (over arena.old (atom_in other.now)))) }
    ensures extends { Extends arena.old arena.new }
{
    let [first, behind @ ..] = pieces else {
        return Ok(false);
    };
    is_split_behind(arena, first, behind, regex, between, other)
}

/// The same, where the first piece is apart.
fn is_split_behind(
    arena: &mut Arena,
    first: &Piece,
    behind: &[Piece],
    regex: RegexId,
    between: &Atom<RegexId>,
    other: &Atom<RegexId>,
) -> Result<bool, AllocError>
    requires regex { regex < length arena.old }
    requires between { HasRegexBelow (length arena.old) (atom_in between.now) }
    requires other { HasRegexBelow (length arena.old) (atom_in other.now) }
    ensures ok { IfOk result
        (λ b. b ≡ is_split (Some (in_atom (piece_in first.now ∷ map piece_in behind.now) (regex_at arena.old regex)))
        (Some (over arena.old (atom_in between.now))) (Some (over arena.old (atom_in other.now)))) }
    ensures extends { Extends arena.old arena.new }
{
    match first {
        Piece::Constant(serial) => is_split_to(arena, *serial, behind, regex, between, other),
        Piece::Word(_) => Ok(false),
    }
}

/// The same, where the first piece is this constant.
fn is_split_to(
    arena: &mut Arena,
    serial: u64,
    behind: &[Piece],
    regex: RegexId,
    between: &Atom<RegexId>,
    other: &Atom<RegexId>,
) -> Result<bool, AllocError>
    requires regex { regex < length arena.old }
    requires between { HasRegexBelow (length arena.old) (atom_in between.now) }
    requires other { HasRegexBelow (length arena.old) (atom_in other.now) }
    ensures ok { IfOk result
        (λ b. b ≡ is_split (Some (in_atom (constant_piece serial ∷ map piece_in behind.now) (regex_at arena.old regex)))
        (Some (over arena.old (atom_in between.now))) (Some (over arena.old (atom_in other.now)))) }
    ensures extends { Extends arena.old arena.new }
{
    match other {
        Atom::In(rest, target) => {
            is_split_at(
                arena,
                serial,
                behind,
                regex,
                between,
                rest.as_slice(),
                *target,
            )
        }
        Atom::Bool(_) | Atom::Le(..) | Atom::Sum(..) | Atom::And(_) | Atom::Iff(..) => Ok(false),
    }
}

/// The same, where the last atom is the membership of these pieces.
fn is_split_at(
    arena: &mut Arena,
    serial: u64,
    behind: &[Piece],
    regex: RegexId,
    between: &Atom<RegexId>,
    rest: &[Piece],
    target: RegexId,
) -> Result<bool, AllocError>
    requires regex { regex < length arena.old }
    requires target { target < length arena.old }
    requires between { HasRegexBelow (length arena.old) (atom_in between.now) }
    ensures ok { IfOk result (λ b. b ≡ (pointwise is_same_piece (map piece_in behind.now) (map piece_in rest.now)
        && is_same_atom (in_atom (constant_piece serial ∷ [])
        (mkpath (regex_at arena.old regex) (regex_at arena.old target))) (over arena.old (atom_in between.now)))) }
    ensures extends { Extends arena.old arena.new }
{
    if !are_same(behind, rest) {
        return Ok(false);
    }
    leads(arena, serial, regex, between, target)
}

/// Whether an atom says that a constant leads from a regex to another one.
fn leads(
    arena: &mut Arena,
    serial: u64,
    regex: RegexId,
    between: &Atom<RegexId>,
    target: RegexId,
) -> Result<bool, AllocError>
    requires regex { regex < length arena.old }
    requires target { target < length arena.old }
    requires between { HasRegexBelow (length arena.old) (atom_in between.now) }
    ensures ok { IfOk result (λ b. b ≡ is_same_atom (in_atom (constant_piece serial ∷ [])
        (mkpath (regex_at arena.old regex) (regex_at arena.old target))) (over arena.old (atom_in between.now))) }
    ensures extends { Extends arena.old arena.new }
{
    order_tells_apart();
    let path = arena.path(regex, target)?;
    arena.normal_regexes_each_once();
    Ok(is_this(between.member(), serial, path))
}

/// Whether a membership is of this constant alone, in this regex.
fn is_this(member: Option<(u64, RegexId)>, serial: u64, regex: RegexId) -> bool
    ensures { result ≡ is_this serial regex member }
{
    match member {
        Some(member) => member.0 == serial && member.1 == regex,
        None => false,
    }
}

/// Whether the pieces are the same.
fn are_same(one: &[Piece], other: &[Piece]) -> bool
    ensures { result ≡ pointwise is_same_piece (map piece_in one.now) (map piece_in other.now) }
{
    one == other
}
