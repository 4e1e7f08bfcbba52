//! The literals of terms.

ghost use Rattle.std.specs.Prelude.{◌≡◌, ◌<◌, ◌&&◌, ◌∷◌, true, nat_lt, [], length, map, Some, None, option_map, IfOk, OnOk, IfSome, MatchOption};
ghost use Rattle.std.specs.List.{list_all};
ghost use Rattle.sb_regex.specs.Numbered as regex;
ghost use Rattle.sb_regex.specs.Numbered.{regex_at};
ghost use Rattle.sb_term.specs.Descending.{HaveParts, PartsAre, known_at, AreKnown};
ghost use Rattle.sb_term.specs.Numbered.{term_at};
ghost use Rattle.sb_script.specs.Pieces.{constant_piece};
ghost use Rattle.sb_script.specs.Brought.{is_regex, is_structure};
ghost use Rattle.sb_problem.specs.Known.{AreNormals};
ghost use Rattle.sb_problem.specs.Patterns.{number_of, pattern_in};
ghost use Rattle.sb_fragment.specs.Measures.{AreMeasures};
ghost use Rattle.sb_fragment.specs.Memberships.{is_in_re};
ghost use Rattle.sb_fragment.specs.Shapes.{IsShape, are_numbers, parts_of, terms_of_pairs};
ghost use Rattle.sb_fragment.specs.declared.shape.Shape.TheVariants as shape;
ghost use Rattle.sb_rulebook.specs.Atoms.{are_pieces};
ghost use Rattle.sb_rulebook.specs.Parts.{together, regex_of};
ghost use Rattle.sb_rulebook.specs.Translation as rules;
ghost use Rattle.sb_atoms.specs.Connecting as connecting;
ghost use Rattle.sb_proof.specs.Lines.{atom_in, piece_in};
ghost use Rattle.sb_atoms.specs.Numbered.{atoms_in, HaveRegexesBelow, Extends, NameEarlier};
ghost use Rattle.sb_atoms.specs.Translated.{brought_translation, has_declared, AreDefined, HasNoLiteral};
ghost use Rattle.sb_atoms.specs.Growing.{is_below, are_below, are_declared_pieces, GivesLike, GrownByGates, Finds, AreReady, Moves};
ghost use Rattle.sb_atoms.specs.Reaching.{connected_parts};
ghost use Rattle.sb_atoms.specs.Shapes.{IsAtomOf, have_declared_pairs, member_literal, word_literals, words_literal};

use crate::affixes::affix_sides;
use crate::connect::signed;
use crate::pieces::{sides_of, single_pieces};
use crate::reached::terms_reached;
use crate::table::Atoms;
use sb_fragment::{
    AffixKind, Connective, Measures, Shape, arguments_of, compared, membership, shape_of,
};
use sb_lit::Lit;
use sb_problem::{Normals, Pattern};
use sb_proof::{Atom, Piece};
use sb_regex::{Arena, RegexId};
use sb_rulebook::laws::translation_stays;
use sb_term::{Serial, Table, TermId};
use smallvec::SmallVec;
use std::alloc::{AllocError, Global};
use std::collections::BTreeMap;

/// The atom that the word of pieces is in a pattern, if the pattern is within the limits on sizes. Of another one no
/// normal regex is asked for.
fn atom_of(
    measures: &mut Measures,
    normals: &mut Normals,
    table: &Table,
    arena: &mut Arena,
    pieces: SmallVec<Piece, 1>,
    pattern: Pattern,
) -> Result<Option<Atom<RegexId>>, AllocError>
    requires number { number_of pattern < length table.now }
    requires kind { is_regex (pattern_in table.now pattern) ≡ true }
    requires right { AreMeasures table.now measures.old }
    requires normals { AreNormals table.now arena.old normals.old }
    ensures ok { IfOk result (λ found. IsAtomOf arena.new (map piece_in pieces.items) (pattern_in table.now pattern)
        (option_map atom_in found)) }
    ensures right { AreMeasures table.now measures.new }
    ensures normals { AreNormals table.now arena.new normals.new }
    ensures arena { regex.Extends arena.old arena.new }
{
    if !measures.is_regular(table, pattern)? {
        return Ok(None);
    }
    match normals.pattern(table, arena, pattern)? {
        Some(regex) => Ok(Some(Atom::In(pieces, regex))),
        None => Ok(None),
    }
}

/// The piece of a constant alone.
fn constant_alone(alloc: Global, serial: Serial) -> SmallVec<Piece, 1>
    ensures { map piece_in result.items ≡ constant_piece serial.0 ∷ [] }
{
    SmallVec::from_buf(alloc, [Piece::Constant(serial.0)])
}

/// The literal that is known of a term, none where none is.
fn literal_known(known: &BTreeMap<TermId, Option<Lit>>, id: TermId) -> Option<Lit>
    ensures { result ≡ known_at None known.now.entries id }
{
    match known.get(&id) {
        Some(found) => *found,
        None => None,
    }
}

/// The literals that are known of terms, if each of them has one.
fn literals_known(
    alloc: Global,
    known: &BTreeMap<TermId, Option<Lit>>,
    ids: &[TermId],
) -> Result<Option<Vec<Lit>>, AllocError>
    ensures { IfOk result (λ found. option_map (λ v. v.items) found
        ≡ together (map (known_at None known.now.entries) ids.now)) }
{
    let mut literals = Vec::new(alloc);
    for id in ids {
        let Some(literal) = literal_known(known, *id) else {
            return Ok(None);
        };
        literals.push(literal)?;
    }
    Ok(Some(literals))
}

impl Atoms {
    /// The literal that the word of pieces is in a pattern.
    fn member(
        &mut self,
        adds: bool,
        measures: &mut Measures,
        normals: &mut Normals,
        table: &Table,
        arena: &mut Arena,
        pieces: SmallVec<Piece, 1>,
        pattern: Pattern,
    ) -> Result<Option<Lit>, AllocError>
        requires number { number_of pattern < length table.now }
        requires kind { is_regex (pattern_in table.now pattern) ≡ true }
        requires formed { are_pieces (map piece_in pieces.items) ≡ true }
        requires ready { AreReady table.now measures.old normals.old arena.old self.old }
        ensures ok { IfOk result (λ found. Finds is_below adds arena.new self.new
            (λ atoms. member_literal atoms (map piece_in pieces.items) (pattern_in table.now pattern)) found) }
        ensures moves { Moves adds (λ sorts. are_declared_pieces sorts (map piece_in pieces.items))
            arena.old arena.new self.old self.new }
        ensures ready { AreReady table.now measures.new normals.new arena.new self.new }
    {
        let Some(atom) = atom_of(measures, normals, table, arena, pieces, pattern)? else {
            return Ok(None);
        };
        arena.normal_regexes_each_once();
        self.literal(adds, atom)
    }

    /// The literal that the word of a String term is in a pattern.
    fn joined(
        &mut self,
        adds: bool,
        measures: &mut Measures,
        normals: &mut Normals,
        table: &Table,
        arena: &mut Arena,
        text: TermId,
        pattern: Pattern,
    ) -> Result<Option<Lit>, AllocError>
        requires text { text < length table.now }
        requires number { number_of pattern < length table.now }
        requires kind { is_regex (pattern_in table.now pattern) ≡ true }
        requires ready { AreReady table.now measures.old normals.old arena.old self.old }
        ensures ok { IfOk result (λ found. Finds is_below adds arena.new self.new
            (λ atoms. rules.membership atoms (term_at table.now text) (regex_of (pattern_in table.now pattern)))
            found) }
        ensures moves { Moves adds (λ sorts. has_declared sorts (term_at table.now text))
            arena.old arena.new self.old self.new }
        ensures ready { AreReady table.now measures.new normals.new arena.new self.new }
    {
        let Some(pieces) = single_pieces(self.allocator(), normals, table, arena, text)? else {
            return Ok(None);
        };
        self.member(adds, measures, normals, table, arena, pieces, pattern)
    }

    /// The literal of the membership of a String term in a regular expression.
    fn membership(
        &mut self,
        adds: bool,
        measures: &mut Measures,
        normals: &mut Normals,
        table: &Table,
        arena: &mut Arena,
        id: TermId,
    ) -> Result<Option<Lit>, AllocError>
        requires number { id < length table.now }
        requires member { is_in_re (term_at table.now id) ≡ true }
        requires structure { is_structure (term_at table.now id) ≡ true }
        requires ready { AreReady table.now measures.old normals.old arena.old self.old }
        ensures ok { IfOk result (λ found. Finds is_below adds arena.new self.new
            (λ atoms. rules.translation atoms (term_at table.now id)) found) }
        ensures moves { Moves adds (λ sorts. has_declared sorts (term_at table.now id))
            arena.old arena.new self.old self.new }
        ensures ready { AreReady table.now measures.new normals.new arena.new self.new }
    {
        let sides = sides_of(table, id);
        let pattern = Pattern::Expression(sides.1);
        self.joined(adds, measures, normals, table, arena, sides.0, pattern)
    }

    /// The literal of an equality of two String terms. There is none where neither is a word.
    fn word_equality(
        &mut self,
        adds: bool,
        measures: &mut Measures,
        normals: &mut Normals,
        table: &Table,
        arena: &mut Arena,
        one: TermId,
        other: TermId,
    ) -> Result<Option<Lit>, AllocError>
        requires one { one < length table.now }
        requires other { other < length table.now }
        requires ready { AreReady table.now measures.old normals.old arena.old self.old }
        ensures ok { IfOk result (λ found. Finds is_below adds arena.new self.new
            (λ atoms. rules.word_equality atoms (term_at table.now one) (term_at table.now other)) found) }
        ensures moves { Moves adds
            (λ sorts. has_declared sorts (term_at table.now one) && has_declared sorts (term_at table.now other))
            arena.old arena.new self.old self.new }
        ensures ready { AreReady table.now measures.new normals.new arena.new self.new }
    {
        let sides = measures.sides_of_pair(table, one, other)?;
        let measure = measures.measure(table, sides.word)?;
        let is_word = measure.is_text;
        if !is_word {
            return Ok(None);
        }
        let pattern = Pattern::Word(sides.word);
        self.joined(adds, measures, normals, table, arena, sides.other, pattern)
    }

    /// The literals of equalities of String terms, or of their negations.
    fn word_literals(
        &mut self,
        adds: bool,
        measures: &mut Measures,
        normals: &mut Normals,
        table: &Table,
        arena: &mut Arena,
        distinct: bool,
        pairs: &[(TermId, TermId)],
    ) -> Result<Option<Vec<Lit>>, AllocError>
        requires numbers { are_numbers (length table.now) pairs.now ≡ true }
        requires ready { AreReady table.now measures.old normals.old arena.old self.old }
        ensures ok { IfOk result (λ found. Finds are_below adds arena.new self.new
            (λ atoms. word_literals atoms distinct (terms_of_pairs table.now pairs.now)) (option_map (λ v. v.items) found)) }
        ensures moves { Moves adds (λ sorts. have_declared_pairs sorts (terms_of_pairs table.now pairs.now))
            arena.old arena.new self.old self.new }
        ensures ready { AreReady table.now measures.new normals.new arena.new self.new }
    {
        let mut literals = Vec::new(self.allocator());
        for (one, other) in pairs {
            let found = self.word_equality(adds, measures, normals, table, arena, *one, *other)?;
            let Some(literal) = found else {
                return Ok(None);
            };
            literals.push(signed(distinct, literal))?;
        }
        Ok(Some(literals))
    }

    /// The literal of a comparison of String terms.
    fn words(
        &mut self,
        adds: bool,
        measures: &mut Measures,
        normals: &mut Normals,
        table: &Table,
        arena: &mut Arena,
        distinct: bool,
        id: TermId,
    ) -> Result<Option<Lit>, AllocError>
        requires number { id < length table.now }
        requires ready { AreReady table.now measures.old normals.old arena.old self.old }
        ensures ok { IfOk result (λ found. Finds is_below adds arena.new self.new
            (λ atoms. words_literal atoms distinct (parts_of (term_at table.now id))) found) }
        ensures moves { Moves adds (λ sorts. has_declared sorts (term_at table.now id))
            arena.old arena.new self.old self.new }
        ensures ready { AreReady table.now measures.new normals.new arena.new self.new }
    {
        let pairs = compared(self.allocator(), distinct, arguments_of(table, id))?;
        match self.word_literals(adds, measures, normals, table, arena, distinct, &pairs)? {
            Some(literals) => self.conjunction(adds, literals),
            None => Ok(None),
        }
    }

    /// The literal that the word of a String term is in the language of a regex.
    fn text_in(
        &mut self,
        adds: bool,
        normals: &mut Normals,
        table: &Table,
        arena: &mut Arena,
        text: TermId,
        regex: RegexId,
    ) -> Result<Option<Lit>, AllocError>
        requires text { text < length table.now }
        requires regex { regex < length arena.old }
        requires normals { AreNormals table.now arena.old normals.old }
        requires below { HaveRegexesBelow (length arena.old) self.old }
        ensures ok { IfOk result (λ found. Finds is_below adds arena.new self.new
            (λ atoms. rules.membership atoms (term_at table.now text) (Some (regex_at arena.old regex))) found) }
        ensures moves { Moves adds (λ sorts. has_declared sorts (term_at table.now text))
            arena.old arena.new self.old self.new }
        ensures normals { AreNormals table.now arena.new normals.new }
    {
        let Some(pieces) = single_pieces(self.allocator(), normals, table, arena, text)? else {
            return Ok(None);
        };
        arena.normal_regexes_each_once();
        self.literal(adds, Atom::In(pieces, regex))
    }

    /// The literal of a term that says of a String term that it is a prefix, a suffix or a factor of another.
    fn affix(
        &mut self,
        adds: bool,
        normals: &mut Normals,
        table: &Table,
        arena: &mut Arena,
        kind: AffixKind,
        id: TermId,
    ) -> Result<Option<Lit>, AllocError>
        requires number { id < length table.now }
        requires affix { IsShape (term_at table.now id) (shape.Affix kind) }
        requires normals { AreNormals table.now arena.old normals.old }
        requires below { HaveRegexesBelow (length arena.old) self.old }
        ensures ok { IfOk result (λ found. Finds is_below adds arena.new self.new
            (λ atoms. rules.translation atoms (term_at table.now id)) found) }
        ensures moves { Moves adds (λ sorts. has_declared sorts (term_at table.now id))
            arena.old arena.new self.old self.new }
        ensures normals { AreNormals table.now arena.new normals.new }
    {
        let Some(sides) = affix_sides(normals, table, arena, kind, id)? else {
            return Ok(None);
        };
        self.text_in(adds, normals, table, arena, sides.0, sides.1)
    }

    /// The literal of a connective of these literals, if they are there.
    fn connection(
        &mut self,
        adds: bool,
        connective: Connective,
        literals: Option<Vec<Lit>>,
    ) -> Result<Option<Lit>, AllocError>
        requires { IfSome literals (λ v. are_below (length self.old) v.items ≡ true) }
        ensures ok { IfOk result (λ found. MatchOption literals ((found ≡ None) × (self.new ≡ self.old))
            (λ v. GivesLike adds self.new (connecting.connected connective) v.items found)) }
        ensures grows { GrownByGates adds self.old self.new }
    {
        match literals {
            Some(literals) => self.connected(adds, connective, literals),
            None => Ok(None),
        }
    }

    /// The literal of a term of Boolean structure, where those of the arguments of a connective are known.
    fn literal_of(
        &mut self,
        adds: bool,
        measures: &mut Measures,
        normals: &mut Normals,
        table: &Table,
        arena: &mut Arena,
        known: &BTreeMap<TermId, Option<Lit>>,
        id: TermId,
    ) -> Result<Option<Lit>, AllocError>
        requires number { id < length table.now }
        requires structure { is_structure (term_at table.now id) ≡ true }
        requires ready { AreReady table.now measures.old normals.old arena.old self.old }
        requires parts { PartsAre connected_parts table.now (λ i. Finds is_below adds arena.old self.old
            (λ atoms. rules.translation atoms (term_at table.now i)) (known_at None known.now.entries i)) id }
        ensures ok { IfOk result (λ found. Finds is_below adds arena.new self.new
            (λ atoms. rules.translation atoms (term_at table.now id)) found) }
        ensures moves { Moves adds (λ sorts. has_declared sorts (term_at table.now id))
            arena.old arena.new self.old self.new }
        ensures ready { AreReady table.now measures.new normals.new arena.new self.new }
    {
        if let Some((serial, pattern)) = membership(table, id) {
            let pieces = constant_alone(self.allocator(), serial);
            return self.member(adds, measures, normals, table, arena, pieces, pattern);
        }
        match shape_of(table, id) {
            Shape::Constant(serial) => self.literal(adds, Atom::Bool(serial.0)),
            Shape::Always(truth) => self.always(adds, truth),
            Shape::Alone => self.always(adds, true),
            Shape::Connected(connective) => {
                let parts = literals_known(self.allocator(), known, arguments_of(table, id))?;
                self.connection(adds, connective, parts)
            }
            Shape::Member => self.membership(adds, measures, normals, table, arena, id),
            Shape::Words(distinct) => {
                self.words(adds, measures, normals, table, arena, distinct, id)
            }
            Shape::Affix(kind) => self.affix(adds, normals, table, arena, kind, id),
            Shape::Other => unreachable!(),
        }
    }

    /// Finds the literals of terms, from the last one on, where the arguments of each connective stand behind it.
    fn find_literals(
        &mut self,
        adds: bool,
        measures: &mut Measures,
        normals: &mut Normals,
        table: &Table,
        arena: &mut Arena,
        ids: &[TermId],
        known: &mut BTreeMap<TermId, Option<Lit>>,
    ) -> Result<(), AllocError>
        requires numbers { list_all (λ i. nat_lt i (length table.now)) ids.now ≡ true }
        requires structure { list_all (λ i. is_structure (term_at table.now i)) ids.now ≡ true }
        requires parts { HaveParts connected_parts table.now ids.now [] }
        requires ready { AreReady table.now measures.old normals.old arena.old self.old }
        ensures ok { OnOk result (AreKnown None (λ i found. Finds is_below adds arena.new self.new
            (λ atoms. rules.translation atoms (term_at table.now i)) found) known.new.entries ids.now) }
        ensures moves { Moves adds (λ sorts. list_all (λ i. has_declared sorts (term_at table.now i)) ids.now)
            arena.old arena.new self.old self.new }
        ensures ready { AreReady table.now measures.new normals.new arena.new self.new }
    {
        let mut place = ids.len();
        while place > 0 {
            place -= 1;
            let id = ids[place];
            let found = self.literal_of(adds, measures, normals, table, arena, known, id)?;
            known.insert(id, found)?;
        }
        Ok(())
    }

    /// The literal of a term of Boolean structure.
    fn structure(
        &mut self,
        adds: bool,
        measures: &mut Measures,
        normals: &mut Normals,
        table: &Table,
        arena: &mut Arena,
        id: TermId,
    ) -> Result<Option<Lit>, AllocError>
        requires number { id < length table.now }
        requires structure { is_structure (term_at table.now id) ≡ true }
        requires ready { AreReady table.now measures.old normals.old arena.old self.old }
        ensures ok { IfOk result (λ found. Finds is_below adds arena.new self.new
            (λ atoms. rules.translation atoms (term_at table.now id)) found) }
        ensures moves { Moves adds (λ sorts. has_declared sorts (term_at table.now id))
            arena.old arena.new self.old self.new }
        ensures ready { AreReady table.now measures.new normals.new arena.new self.new }
    {
        let ids = terms_reached(self.allocator(), table, id)?;
        let mut known = BTreeMap::new(self.allocator());
        self.find_literals(adds, measures, normals, table, arena, &ids, &mut known)?;
        Ok(literal_known(&known, id))
    }

    /// The literal of a term, if it has one.
    fn find_or_add(
        &mut self,
        adds: bool,
        measures: &mut Measures,
        normals: &mut Normals,
        table: &Table,
        arena: &mut Arena,
        id: TermId,
    ) -> Result<Option<Lit>, AllocError>
        requires number { id < length table.now }
        requires ready { AreReady table.now measures.old normals.old arena.old self.old }
        ensures ok { IfOk result (λ found. Finds is_below adds arena.new self.new
            (λ atoms. brought_translation atoms (term_at table.now id)) found) }
        ensures moves { Moves adds (λ sorts. has_declared sorts (term_at table.now id))
            arena.old arena.new self.old self.new }
        ensures ready { AreReady table.now measures.new normals.new arena.new self.new }
    {
        if measures.is_structure(table, id)? {
            self.structure(adds, measures, normals, table, arena, id)
        } else {
            Ok(None)
        }
    }

    /// The literal of a term, of which the atoms are added where they are missing. Terms are translated that are
    /// Boolean structure over Bool constants, memberships of String terms, comparisons of such terms, and what says of
    /// one that it is a prefix, a suffix or a factor of another. There is no literal of others, and none of one in
    /// which a regular expression or a word is past the limits on sizes, a constant stands twice in one String term, or
    /// of two String terms that are compared, or of which one is said to be a part of the other, neither is a word; some
    /// of its atoms may be added then.
    ///
    /// Linear in the terms that it is made of by connectives, each once however often it is an argument, and in their
    /// arguments, times a logarithm, but that each two of what is distinct are compared, that the pieces of a String
    /// term are gone over, and that a regular expression, or a word, is measured, and its normal regex made, where they
    /// were not yet. The regex of a word's prefixes, suffixes or factors, or of the words of which it is one, is made
    /// anew by each translation, by [`sb_affix::affix_regex`]. The literals are found with no recursion. `AllocError`
    /// only for want of memory; the arena may hold more regexes then, and the table more atoms.
    pub fn translate(
        &mut self,
        measures: &mut Measures,
        normals: &mut Normals,
        table: &Table,
        arena: &mut Arena,
        id: TermId,
    ) -> Result<Option<Lit>, AllocError>
        requires number { id < length table.now }
        requires right { AreMeasures table.now measures.old }
        requires normals { AreNormals table.now arena.old normals.old }
        requires regexes { HaveRegexesBelow (length arena.old) self.old }
        ensures ok { IfOk result
            (λ found. found ≡ brought_translation (atoms_in arena.new self.new) (term_at table.now id)) }
        ensures known { IfOk result (λ found. IfSome found (λ l. l.atom < length self.new)) }
        ensures none { IfOk result (λ found. found ≡ None → HasNoLiteral (term_at table.now id)) }
        ensures extends { Extends self.old self.new }
        ensures defined { AreDefined self.old self.new (term_at table.now id) }
        ensures earlier { NameEarlier (length self.old) self.new }
        ensures regexes { HaveRegexesBelow (length arena.new) self.new }
        ensures right { AreMeasures table.now measures.new }
        ensures normals { AreNormals table.now arena.new normals.new }
        ensures arena { regex.Extends arena.old arena.new }
    {
        self.find_or_add(true, measures, normals, table, arena, id)
    }

    /// The literal of a term, as [`Atoms::translate`] gives it, where the atoms that it needs are there; none where one
    /// is missing. Adds no atom; the arena may hold more regexes. Its cost and its error are those of
    /// [`Atoms::translate`].
    pub fn find_translation(
        &mut self,
        measures: &mut Measures,
        normals: &mut Normals,
        table: &Table,
        arena: &mut Arena,
        id: TermId,
    ) -> Result<Option<Lit>, AllocError>
        requires number { id < length table.now }
        requires right { AreMeasures table.now measures.old }
        requires normals { AreNormals table.now arena.old normals.old }
        requires regexes { HaveRegexesBelow (length arena.old) self.old }
        ensures ok { IfOk result
            (λ found. found ≡ brought_translation (atoms_in arena.new self.new) (term_at table.now id)) }
        ensures stays { self.new ≡ self.old }
        ensures regexes { HaveRegexesBelow (length arena.new) self.new }
        ensures right { AreMeasures table.now measures.new }
        ensures normals { AreNormals table.now arena.new normals.new }
        ensures arena { regex.Extends arena.old arena.new }
    {
        self.find_or_add(false, measures, normals, table, arena, id)
    }
}
