//! The truth of a term.

ghost use Rattle.std.specs.Prelude.{◌≡◌, ◌<◌, true, false, nat_lt, [], length, map, Some, is_some, slice_get, unwrap_or, IfOk, OnOk};
ghost use Rattle.std.specs.List.{list_all};
ghost use Rattle.sb_meaning.specs.Terms.{Term};
ghost use Rattle.sb_meaning.specs.Values.{Valuation};
ghost use Rattle.sb_meaning.specs.Truth.{holds};
ghost use Rattle.sb_script.specs.Brought.{asked, is_regex, is_structure, is_text};
ghost use Rattle.sb_script.specs.Fragment.{fits, is_word_pair};
ghost use Rattle.sb_script.specs.Pieces.{single_pieces};
ghost use Rattle.sb_regex.specs.Numbered.{regex_at, Extends};
ghost use Rattle.sb_term.specs.Descending.{HaveParts, PartsAre, known_at, AreKnown};
ghost use Rattle.sb_term.specs.Numbered.{term_at};
ghost use Rattle.sb_problem.specs.Known.{AreNormals};
ghost use Rattle.sb_problem.specs.Patterns.{number_of, pattern_in};
ghost use Rattle.sb_problem.specs.Parts.{is_written, are_written, piece_in, parts_in};
ghost use Rattle.sb_plain.specs.Memory.{IsRight};
ghost use Rattle.sb_fragment.specs.Compared.{compared};
ghost use Rattle.sb_fragment.specs.Memberships.{equality, is_in_re};
ghost use Rattle.sb_fragment.specs.Shapes.{IsShape, are_numbers, parts_of, terms_of_pairs};
ghost use Rattle.sb_fragment.specs.declared.shape.Shape.TheVariants as shape;
ghost use Rattle.sb_atoms.specs.Given.{GivesValues};
ghost use Rattle.sb_atoms.specs.Truths.{word_at, piece_word, joined_word, AreReady, IsIn, IsBehind, IsWithin, IsTruthUnder, IsTruthOf, AreEqualUnder, AreAsWanted};
ghost use Rattle.sb_atoms.specs.Reaching.{connected_parts};

use crate::affixes::affix_sides;
use crate::connectives::connected;
use crate::pieces::sides_of;
use crate::reached::terms_reached;
use sb_fragment::{AffixKind, Shape, arguments_of, compared, membership, shape_of};
use sb_lang::affixes::affixes_have_their_words;
use sb_lang::derivative::{derivative_along_has_rests, nullable_has_empty_word};
use sb_lang::normal::normal_has_terms_words;
use sb_plain::{Plain, right_stays};
use sb_problem::{Normals, Part, Pattern, constant_of, normals_stay};
use sb_regex::{Arena, RegexId};
use sb_term::{Serial, Table, TermId};
use sb_word::Word;
use std::alloc::{AllocError, Global};
use std::collections::BTreeMap;

/// Whether the word of a constant is in the language of a regex.
fn matched(
    plain: &mut Plain,
    arena: &mut Arena,
    serial: Serial,
    regex: RegexId,
    values: &[Word],
) -> Result<bool, AllocError>
    requires known { regex < length arena.old }
    requires right { IsRight arena.old plain.old }
    ensures ok { IfOk result (IsIn (word_at values.now serial.0) (regex_at arena.old regex)) }
    ensures extends { Extends arena.old arena.new }
    ensures right { IsRight arena.new plain.new }
{
    nullable_has_empty_word();
    match values.get(serial.0 as usize) {
        Some(word) => {
            let _codes = word.codes();
            plain.matches(arena, word, regex)
        }
        None => Ok(arena.nullable(regex)),
    }
}

/// The regex that is left of one behind the word of a constant.
fn behind_constant(
    plain: &mut Plain,
    arena: &mut Arena,
    serial: Serial,
    regex: RegexId,
    values: &[Word],
) -> Result<RegexId, AllocError>
    requires known { regex < length arena.old }
    requires right { IsRight arena.old plain.old }
    ensures ok { IfOk result (IsBehind arena.new (regex_at arena.old regex) (word_at values.now serial.0)) }
    ensures extends { Extends arena.old arena.new }
    ensures right { IsRight arena.new plain.new }
{
    match values.get(serial.0 as usize) {
        Some(word) => {
            let codes = word.codes();
            plain.along(arena, codes, regex)
        }
        None => Ok(regex),
    }
}

/// The regex that is left of one behind a part of a String term.
fn behind_part(
    plain: &mut Plain,
    arena: &mut Arena,
    part: &Part,
    regex: RegexId,
    values: &[Word],
) -> Result<RegexId, AllocError>
    requires written { is_written (piece_in part.now) ≡ true }
    requires known { regex < length arena.old }
    requires right { IsRight arena.old plain.old }
    ensures ok { IfOk result
        (IsBehind arena.new (regex_at arena.old regex) (piece_word values.now (piece_in part.now))) }
    ensures extends { Extends arena.old arena.new }
    ensures right { IsRight arena.new plain.new }
{
    match part {
        Part::Constant(serial) => behind_constant(plain, arena, *serial, regex, values),
        Part::Word(codes) => plain.along(arena, codes, regex),
    }
}

/// The regex that is left of one behind the parts of a String term.
fn behind_parts(
    plain: &mut Plain,
    arena: &mut Arena,
    parts: &[Part],
    regex: RegexId,
    values: &[Word],
) -> Result<RegexId, AllocError>
    requires written { are_written (parts_in parts.now) ≡ true }
    requires known { regex < length arena.old }
    requires right { IsRight arena.old plain.old }
    ensures ok { IfOk result
        (IsBehind arena.new (regex_at arena.old regex) (joined_word values.now (parts_in parts.now))) }
    ensures extends { Extends arena.old arena.new }
    ensures right { IsRight arena.new plain.new }
{
    let mut rest = regex;
    for part in parts {
        rest = behind_part(plain, arena, part, rest, values)?;
    }
    Ok(rest)
}

/// Whether the word of a String term, in which each constant stands once at most, is in the language of a regex. The
/// word is not made: the regex is followed along one piece after the other.
fn joined(
    plain: &mut Plain,
    normals: &mut Normals,
    arena: &mut Arena,
    table: &Table,
    id: TermId,
    regex: RegexId,
    values: &[Word],
) -> Result<bool, AllocError>
    requires number { id < length table.now }
    requires known { regex < length arena.old }
    requires single { is_some (single_pieces (term_at table.now id)) ≡ true }
    requires ready { AreReady table.now arena.old normals.old plain.old }
    ensures ok { IfOk result (IsWithin values.now (term_at table.now id) (regex_at arena.old regex)) }
    ensures extends { Extends arena.old arena.new }
    ensures ready { AreReady table.now arena.new normals.new plain.new }
{
    derivative_along_has_rests();
    nullable_has_empty_word();
    right_stays();
    normals_stay();
    let Some(parts) = normals.single_pieces(table, arena, id)? else {
        return Ok(false);
    };
    let rest = behind_parts(plain, arena, &parts, regex, values)?;
    Ok(arena.nullable(rest))
}

/// Whether the word of a String term, in which each constant stands once at most, is in the language of a regex. The
/// walk along the word of a constant alone is remembered.
fn is_within(
    plain: &mut Plain,
    normals: &mut Normals,
    arena: &mut Arena,
    table: &Table,
    id: TermId,
    regex: RegexId,
    values: &[Word],
) -> Result<bool, AllocError>
    requires number { id < length table.now }
    requires known { regex < length arena.old }
    requires single { is_some (single_pieces (term_at table.now id)) ≡ true }
    requires ready { AreReady table.now arena.old normals.old plain.old }
    ensures ok { IfOk result (IsWithin values.now (term_at table.now id) (regex_at arena.old regex)) }
    ensures extends { Extends arena.old arena.new }
    ensures ready { AreReady table.now arena.new normals.new plain.new }
{
    normals_stay();
    match constant_of(table, id) {
        Some(serial) => matched(plain, arena, serial, regex, values),
        None => joined(plain, normals, arena, table, id, regex, values),
    }
}

/// Whether the word of a constant is what a pattern asks for.
fn member(
    plain: &mut Plain,
    normals: &mut Normals,
    arena: &mut Arena,
    table: &Table,
    serial: Serial,
    pattern: Pattern,
    values: &[Word],
) -> Result<bool, AllocError>
    requires number { number_of pattern < length table.now }
    requires kind { is_regex (pattern_in table.now pattern) ≡ true }
    requires ready { AreReady table.now arena.old normals.old plain.old }
    ensures ok { IfOk result (λ truth. (t : Term) → asked t ≡ Some (serial.0, pattern_in table.now pattern)
        → IsTruthUnder values.now t truth) }
    ensures extends { Extends arena.old arena.new }
    ensures ready { AreReady table.now arena.new normals.new plain.new }
{
    normal_has_terms_words();
    right_stays();
    normals_stay();
    let Some(regex) = normals.pattern(table, arena, pattern)? else {
        return Ok(false);
    };
    matched(plain, arena, serial, regex, values)
}

/// Whether a term that is the membership of a String term in a regular expression is true.
fn membership_holds(
    plain: &mut Plain,
    normals: &mut Normals,
    arena: &mut Arena,
    table: &Table,
    id: TermId,
    values: &[Word],
) -> Result<bool, AllocError>
    requires number { id < length table.now }
    requires member { is_in_re (term_at table.now id) ≡ true }
    requires structure { is_structure (term_at table.now id) ≡ true }
    requires fits { fits (term_at table.now id) ≡ true }
    requires ready { AreReady table.now arena.old normals.old plain.old }
    ensures ok { IfOk result (IsTruthUnder values.now (term_at table.now id)) }
    ensures extends { Extends arena.old arena.new }
    ensures ready { AreReady table.now arena.new normals.new plain.new }
{
    normal_has_terms_words();
    right_stays();
    let sides = sides_of(table, id);
    let Some(regex) = normals.normal(table, arena, sides.1)? else {
        return Ok(false);
    };
    is_within(plain, normals, arena, table, sides.0, regex, values)
}

/// Whether a String term, in which each constant stands once at most, is equal to a word.
fn equals_word(
    plain: &mut Plain,
    normals: &mut Normals,
    arena: &mut Arena,
    table: &Table,
    text: TermId,
    word: TermId,
    values: &[Word],
) -> Result<bool, AllocError>
    requires text { text < length table.now }
    requires word { word < length table.now }
    requires kind { is_text (term_at table.now word) ≡ true }
    requires single { is_some (single_pieces (term_at table.now text)) ≡ true }
    requires ready { AreReady table.now arena.old normals.old plain.old }
    ensures ok { IfOk result (AreEqualUnder values.now (term_at table.now text) (term_at table.now word)) }
    ensures extends { Extends arena.old arena.new }
    ensures ready { AreReady table.now arena.new normals.new plain.new }
{
    normal_has_terms_words();
    right_stays();
    let pattern = Pattern::Word(word);
    let Some(regex) = normals.pattern(table, arena, pattern)? else {
        return Ok(false);
    };
    is_within(plain, normals, arena, table, text, regex, values)
}

/// Whether two String terms are equal, of which one is a word.
fn word_equality(
    plain: &mut Plain,
    normals: &mut Normals,
    arena: &mut Arena,
    table: &Table,
    one: TermId,
    other: TermId,
    values: &[Word],
) -> Result<bool, AllocError>
    requires one { one < length table.now }
    requires other { other < length table.now }
    requires pair { is_word_pair (term_at table.now one) (term_at table.now other) ≡ true }
    requires ready { AreReady table.now arena.old normals.old plain.old }
    ensures ok { IfOk result
        (IsTruthUnder values.now (equality (term_at table.now one) (term_at table.now other))) }
    ensures extends { Extends arena.old arena.new }
    ensures ready { AreReady table.now arena.new normals.new plain.new }
{
    right_stays();
    let pattern = Pattern::Word(other);
    let found = normals.pattern(table, arena, pattern)?;
    match found {
        Some(_) => equals_word(plain, normals, arena, table, one, other, values),
        None => equals_word(plain, normals, arena, table, other, one, values),
    }
}

/// Whether String terms are equal two by two, or where they are to be distinct, are not.
fn word_pairs(
    plain: &mut Plain,
    normals: &mut Normals,
    arena: &mut Arena,
    table: &Table,
    distinct: bool,
    pairs: &[(TermId, TermId)],
    values: &[Word],
) -> Result<bool, AllocError>
    requires numbers { are_numbers (length table.now) pairs.now ≡ true }
    requires pairs { list_all (λ p. is_word_pair p.0 p.1) (terms_of_pairs table.now pairs.now) ≡ true }
    requires ready { AreReady table.now arena.old normals.old plain.old }
    ensures ok { IfOk result (AreAsWanted values.now distinct (terms_of_pairs table.now pairs.now)
        (terms_of_pairs table.now pairs.now)) }
    ensures extends { Extends arena.old arena.new }
    ensures ready { AreReady table.now arena.new normals.new plain.new }
{
    for (one, other) in pairs {
        let equal = word_equality(plain, normals, arena, table, *one, *other, values)?;
        if equal == distinct {
            return Ok(false);
        }
    }
    Ok(true)
}

/// Whether a comparison of String terms is true.
fn words(
    plain: &mut Plain,
    normals: &mut Normals,
    arena: &mut Arena,
    table: &Table,
    distinct: bool,
    id: TermId,
    values: &[Word],
) -> Result<bool, AllocError>
    requires number { id < length table.now }
    requires pairs { list_all (λ p. is_word_pair p.0 p.1)
        (compared distinct (parts_of (term_at table.now id))) ≡ true }
    requires ready { AreReady table.now arena.old normals.old plain.old }
    ensures ok { IfOk result
        (AreAsWanted values.now distinct (compared distinct (parts_of (term_at table.now id)))
        (compared distinct (parts_of (term_at table.now id)))) }
    ensures extends { Extends arena.old arena.new }
    ensures ready { AreReady table.now arena.new normals.new plain.new }
{
    let pairs = compared(normals.allocator(), distinct, arguments_of(table, id))?;
    word_pairs(plain, normals, arena, table, distinct, &pairs, values)
}

/// Whether a term is true that says of a String term that it is a prefix, a suffix or a factor of another.
fn affix_holds(
    plain: &mut Plain,
    normals: &mut Normals,
    arena: &mut Arena,
    table: &Table,
    kind: AffixKind,
    id: TermId,
    values: &[Word],
) -> Result<bool, AllocError>
    requires number { id < length table.now }
    requires affix { IsShape (term_at table.now id) (shape.Affix kind) }
    requires fits { fits (term_at table.now id) ≡ true }
    requires ready { AreReady table.now arena.old normals.old plain.old }
    ensures ok { IfOk result (IsTruthUnder values.now (term_at table.now id)) }
    ensures extends { Extends arena.old arena.new }
    ensures ready { AreReady table.now arena.new normals.new plain.new }
{
    affixes_have_their_words();
    right_stays();
    let Some(sides) = affix_sides(normals, table, arena, kind, id)? else {
        return Ok(false);
    };
    is_within(plain, normals, arena, table, sides.0, sides.1, values)
}

/// The truth at a serial.
fn truth_at(truths: &[bool], serial: Serial) -> bool
    ensures { result ≡ unwrap_or (slice_get truths.now serial.0) false }
{
    match truths.get(serial.0 as usize) {
        Some(truth) => *truth,
        None => false,
    }
}

/// The truth that is known of a term, false where none is.
fn truth_known(known: &BTreeMap<TermId, bool>, id: TermId) -> bool
    ensures { result ≡ known_at false known.now.entries id }
{
    match known.get(&id) {
        Some(truth) => *truth,
        None => false,
    }
}

/// The truths that are known of terms.
fn truths_known(
    alloc: Global,
    known: &BTreeMap<TermId, bool>,
    ids: &[TermId],
) -> Result<Vec<bool>, AllocError>
    ensures { IfOk result (λ found. found.items ≡ map (known_at false known.now.entries) ids.now) }
{
    let mut found = Vec::new(alloc);
    for id in ids {
        found.push(truth_known(known, *id))?;
    }
    Ok(found)
}

/// Whether a term of Boolean structure is true, where it is known which arguments of a connective are.
fn truth_of(
    plain: &mut Plain,
    normals: &mut Normals,
    arena: &mut Arena,
    table: &Table,
    id: TermId,
    values: &[Word],
    truths: &[bool],
    known: &BTreeMap<TermId, bool>,
) -> Result<bool, AllocError>
    requires number { id < length table.now }
    requires structure { is_structure (term_at table.now id) ≡ true }
    requires fits { fits (term_at table.now id) ≡ true }
    requires ready { AreReady table.now arena.old normals.old plain.old }
    requires parts { PartsAre connected_parts table.now (λ i. IsTruthOf values.now truths.now (term_at table.now i)
        (known_at false known.now.entries i)) id }
    ensures ok { IfOk result (IsTruthOf values.now truths.now (term_at table.now id)) }
    ensures extends { Extends arena.old arena.new }
    ensures ready { AreReady table.now arena.new normals.new plain.new }
{
    if let Some((serial, pattern)) = membership(table, id) {
        return member(plain, normals, arena, table, serial, pattern, values);
    }
    match shape_of(table, id) {
        Shape::Constant(serial) => Ok(truth_at(truths, serial)),
        Shape::Always(truth) => Ok(truth),
        Shape::Alone => Ok(true),
        Shape::Connected(connective) => {
            let parts = truths_known(normals.allocator(), known, arguments_of(table, id))?;
            Ok(connected(connective, &parts))
        }
        Shape::Member => membership_holds(plain, normals, arena, table, id, values),
        Shape::Words(distinct) => words(plain, normals, arena, table, distinct, id, values),
        Shape::Affix(kind) => affix_holds(plain, normals, arena, table, kind, id, values),
        Shape::Other => unreachable!(),
    }
}

/// Finds which terms are true, from the last one on, where the arguments of each connective stand behind it.
fn find_truths(
    plain: &mut Plain,
    normals: &mut Normals,
    arena: &mut Arena,
    table: &Table,
    ids: &[TermId],
    values: &[Word],
    truths: &[bool],
    known: &mut BTreeMap<TermId, bool>,
) -> Result<(), AllocError>
    requires numbers { list_all (λ i. nat_lt i (length table.now)) ids.now ≡ true }
    requires structure { list_all (λ i. is_structure (term_at table.now i)) ids.now ≡ true }
    requires fits { list_all (λ i. fits (term_at table.now i)) ids.now ≡ true }
    requires parts { HaveParts connected_parts table.now ids.now [] }
    requires ready { AreReady table.now arena.old normals.old plain.old }
    ensures ok { OnOk result (AreKnown false (λ i. IsTruthOf values.now truths.now (term_at table.now i))
        known.new.entries ids.now) }
    ensures extends { Extends arena.old arena.new }
    ensures ready { AreReady table.now arena.new normals.new plain.new }
{
    let mut place = ids.len();
    while place > 0 {
        place -= 1;
        let id = ids[place];
        let truth = truth_of(plain, normals, arena, table, id, values, truths, known)?;
        known.insert(id, truth)?;
    }
    Ok(())
}

/// Whether a term of Boolean structure that keeps the rules of the fragment is true, where each String constant has the
/// word at its serial, the empty word past the last one, and each Bool constant the truth at its serial, and is false
/// past the last one.
///
/// Each term that it is made of by connectives is looked at once, however often it is an argument, with no recursion.
/// So its cost is linear in these terms and their arguments, times a logarithm, but for that of each membership and
/// each comparison of Strings, and that of [`Normals::pattern`] where the regular expression, or the word, was not
/// asked for yet. Of a term that says of a String that it is a part of another the regex is made anew by each call, by
/// [`sb_affix::affix_regex`]. A constant alone costs what [`Plain::matches`] does. Of another String term its pieces are
/// gone over, with a derivative for each character of its word, and no word is made. `AllocError` only for want of
/// memory; the arena may hold more regexes then.
pub fn eval(
    plain: &mut Plain,
    normals: &mut Normals,
    arena: &mut Arena,
    table: &Table,
    id: TermId,
    values: &[Word],
    truths: &[bool],
) -> Result<bool, AllocError>
    requires number { id < length table.now }
    requires structure { is_structure (term_at table.now id) ≡ true }
    requires fits { fits (term_at table.now id) ≡ true }
    requires normals { AreNormals table.now arena.old normals.old }
    requires right { IsRight arena.old plain.old }
    ensures ok { IfOk result (λ truth. (v : Valuation) → GivesValues values.now truths.now v (term_at table.now id)
        → truth ≡ holds (term_at table.now id) v) }
    ensures extends { Extends arena.old arena.new }
    ensures normals { AreNormals table.now arena.new normals.new }
    ensures right { IsRight arena.new plain.new }
{
    let ids = terms_reached(normals.allocator(), table, id)?;
    let mut known = BTreeMap::new(normals.allocator());
    find_truths(
        plain, normals, arena, table, &ids, values, truths, &mut known,
    )?;
    Ok(truth_known(&known, id))
}
