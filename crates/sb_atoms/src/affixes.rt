//! Terms that say of a String term that it is a prefix, a suffix or a factor of another, as memberships.

ghost use Rattle.std.specs.Prelude.{◌≡◌, ◌<◌, ◌∷◌, [], true, length, None, option_map, IfOk};
ghost use Rattle.sb_affix.specs.AffixRegex.{affix_regex};
ghost use Rattle.sb_regex.specs.Numbered.{Extends};
ghost use Rattle.sb_script.specs.Pieces.{ground_word, whole_word, word_of};
ghost use Rattle.sb_term.specs.Numbered.{term_at};
ghost use Rattle.sb_problem.specs.Known.{AreNormals};
ghost use Rattle.sb_problem.specs.Parts.{is_written, are_written, piece_in, parts_in};
ghost use Rattle.sb_fragment.specs.Shapes.{IsShape};
ghost use Rattle.sb_fragment.specs.declared.shape.Shape.TheVariants as shape;
ghost use Rattle.sb_atoms.specs.Affixes.{holders, parts, IsItsWord, AreSides, IsMember};

use sb_affix::{Affix, affix_regex};
use sb_fragment::{AffixKind, part_and_whole};
use sb_problem::{Normals, Part, normals_stay};
use sb_regex::{Arena, RegexId};
use sb_term::{Table, TermId};
use std::alloc::{AllocError, Global};

/// How words stand to a word that is such a part of them.
fn holders(kind: AffixKind) -> Affix
    ensures { affix_regex result ≡ holders kind }
{
    match kind {
        AffixKind::Prefix => Affix::Beginning,
        AffixKind::Suffix => Affix::Ending,
        AffixKind::Factor => Affix::Holder,
    }
}

/// How such parts of a word stand to it.
fn parts(kind: AffixKind) -> Affix
    ensures { affix_regex result ≡ parts kind }
{
    match kind {
        AffixKind::Prefix => Affix::Prefixes,
        AffixKind::Suffix => Affix::Suffixes,
        AffixKind::Factor => Affix::Factors,
    }
}

/// The word of one part of a String term.
fn word_of_part(alloc: Global, part: &Part) -> Result<Option<Vec<u32>>, AllocError>
    requires { is_written (piece_in part.now) ≡ true }
    ensures { IfOk result
        (λ found. IsItsWord (word_of (piece_in part.now ∷ [])) (option_map (λ w. w.items) found)) }
{
    match part {
        Part::Constant(_) => Ok(None),
        Part::Word(codes) => Ok(Some(Vec::from_slice(alloc, codes)?)),
    }
}

/// The word of the parts of a String term without constants.
fn word_of(alloc: Global, parts: &[Part]) -> Result<Option<Vec<u32>>, AllocError>
    requires { are_written (parts_in parts.now) ≡ true }
    ensures { IfOk result (λ found. IsItsWord (word_of (parts_in parts.now)) (option_map (λ w. w.items) found)) }
{
    match parts {
        [] => Ok(Some(Vec::new(alloc))),
        [part] => word_of_part(alloc, part),
        _ => Ok(None),
    }
}

/// The word of a String term without constants, of the length that is the limit at most.
fn ground_word(
    normals: &mut Normals,
    table: &Table,
    arena: &mut Arena,
    id: TermId,
) -> Result<Option<Vec<u32>>, AllocError>
    requires number { id < length table.now }
    requires normals { AreNormals table.now arena.old normals.old }
    ensures ok { IfOk result
        (λ found. IsItsWord (ground_word (term_at table.now id)) (option_map (λ w. w.items) found)) }
    ensures extends { Extends arena.old arena.new }
    ensures normals { AreNormals table.now arena.new normals.new }
{
    let Some(parts) = normals.single_pieces(table, arena, id)? else {
        return Ok(None);
    };
    let word = word_of(normals.allocator(), &parts)?;
    Ok(word)
}

/// The same, of 1,000 characters at most.
fn whole_word(
    normals: &mut Normals,
    table: &Table,
    arena: &mut Arena,
    id: TermId,
) -> Result<Option<Vec<u32>>, AllocError>
    requires number { id < length table.now }
    requires normals { AreNormals table.now arena.old normals.old }
    ensures ok { IfOk result
        (λ found. IsItsWord (whole_word (term_at table.now id)) (option_map (λ w. w.items) found)) }
    ensures extends { Extends arena.old arena.new }
    ensures normals { AreNormals table.now arena.new normals.new }
{
    let Some(word) = ground_word(normals, table, arena, id)? else {
        return Ok(None);
    };
    let past = word.len() > 1000;
    if past {
        return Ok(None);
    }
    Ok(Some(word))
}

/// The String term and the regex of the membership that it is that a term which is no word is such a part of another:
/// the other one is a word, and the part is in the regex of such parts of it.
fn sides_of_whole(
    normals: &mut Normals,
    table: &Table,
    arena: &mut Arena,
    kind: AffixKind,
    part: TermId,
    whole: TermId,
) -> Result<Option<(TermId, RegexId)>, AllocError>
    requires part { part < length table.now }
    requires whole { whole < length table.now }
    requires none { ground_word (term_at table.now part) ≡ None }
    requires normals { AreNormals table.now arena.old normals.old }
    ensures ok { IfOk result (AreSides table.now arena.new kind (term_at table.now part) (term_at table.now whole)) }
    ensures extends { Extends arena.old arena.new }
    ensures normals { AreNormals table.now arena.new normals.new }
{
    normals_stay();
    let Some(word) = whole_word(normals, table, arena, whole)? else {
        return Ok(None);
    };
    let regex = affix_regex(normals.allocator(), arena, parts(kind), &word)?;
    Ok(Some((part, regex)))
}

/// The String term and the regex of the membership that it is that one term is such a part of another. Where the part
/// is a word, the whole is in the regex of what it is such a part of.
fn sides(
    normals: &mut Normals,
    table: &Table,
    arena: &mut Arena,
    kind: AffixKind,
    part: TermId,
    whole: TermId,
) -> Result<Option<(TermId, RegexId)>, AllocError>
    requires part { part < length table.now }
    requires whole { whole < length table.now }
    requires normals { AreNormals table.now arena.old normals.old }
    ensures ok { IfOk result (AreSides table.now arena.new kind (term_at table.now part) (term_at table.now whole)) }
    ensures extends { Extends arena.old arena.new }
    ensures normals { AreNormals table.now arena.new normals.new }
{
    normals_stay();
    let Some(word) = ground_word(normals, table, arena, part)? else {
        return sides_of_whole(normals, table, arena, kind, part, whole);
    };
    let regex = affix_regex(normals.allocator(), arena, holders(kind), &word)?;
    Ok(Some((whole, regex)))
}

/// The String term and the regex of the membership that a term is which says of a String term that it is a prefix, a
/// suffix or a factor of another. There is none where the term is outside the fragment. The regex is made anew by each
/// call: nothing is kept of it but what the arena holds. Takes what [`Normals::single_pieces`] takes and
/// [`affix_regex`].
pub(crate) fn affix_sides(
    normals: &mut Normals,
    table: &Table,
    arena: &mut Arena,
    kind: AffixKind,
    id: TermId,
) -> Result<Option<(TermId, RegexId)>, AllocError>
    requires number { id < length table.now }
    requires affix { IsShape (term_at table.now id) (shape.Affix kind) }
    requires normals { AreNormals table.now arena.old normals.old }
    ensures ok { IfOk result (IsMember table.now arena.new kind (term_at table.now id)) }
    ensures extends { Extends arena.old arena.new }
    ensures normals { AreNormals table.now arena.new normals.new }
{
    let Some(pair) = part_and_whole(table, id, kind) else {
        return Ok(None);
    };
    sides(normals, table, arena, kind, pair.0, pair.1)
}
