//! Lines from their texts.

ghost use Rattle.std.specs.Prelude.{◌≡◌, [], ◌∷◌, map, true, Ok, IfOk, option_map};
ghost use Rattle.sb_rulebook.specs.Lines as lines;
ghost use Rattle.sb_rulebook.specs.LineLaws.{has_text};
ghost use Rattle.sb_rulebook.specs.Reading.{summands, around_colon, before_last_colon, has_pairs, both, integer, variable, literal, any_number, membership, learned, refutation, sum, nodes, atoms, clauses, verdicts, line_of_fields, line_of, read};
ghost use Rattle.sb_proof.specs.Lines.{node_in, summand_in, atom_in, rule_in, said_in, line_in};
ghost use Rattle.sb_proof.specs.Kinds.{behind_word, node_reader, atom_reader, clause_reader, verdict_reader, line_reader};
ghost use Rattle.sb_proof.specs.Reading.{answered};
ghost use Rattle.sb_proof.specs.Views.{texts};

use crate::arity::{Answer, any_number, at_least_one, bare, one, some, three, two};
use crate::atom::{Atom, Variable};
use crate::kinds::{
    AtomKind, ClauseKind, LineKind, NodeKind, VerdictKind, atom_kind, clause_kind, line_kind,
    node_kind, verdict_kind,
};
use crate::line::{Line, Node, Rule, Said};
use crate::numbers::{integer, number, variable};
use crate::shapes::{each, is_word, split};
use sb_rulebook::laws::{line_has_one_text, text_is_read};
use smallvec::SmallVec;
use std::alloc::{AllocError, Global};
use thiserror::Error;

/// Why a text is no line: the first of these that fits.
#[derive(Clone, Copy, Debug, Error)]
pub enum LineFault {
    /// The words or the number of the fields are those of no line.
    #[error("bad word")]
    BadWord,
    /// A field that is no word of the format is not of its shape.
    #[error("bad number")]
    BadNumber,
    /// The proof ends before the line does.
    #[error("unended line")]
    Unended,
}

/// What is made of what is read, or why it is not.
macro_rules! made {
    ($read:expr, $said:pat => $made:expr) => {
        match $read {
            Ok($said) => Ok(Ok($made)),
            Err(fault) => Ok(Err(fault)),
        }
    };
}

/// The line of a text, or why it is none, as docs/PROOF-FORMAT.md has it. The text is what stands before a line feed;
/// or, where the proof ends without one, what stands behind the last line feed, and `ended` is false. Linear in the
/// length of the text.
pub fn read_line(
    alloc: Global,
    text: &[u8],
    ended: bool,
) -> Result<Result<Line, LineFault>, AllocError>
    ensures read { IfOk result (λ answer. answered line_in answer ≡ read (text.now, ended)) }
    ensures printed { IfOk result
        (λ answer. (line : lines.Line) → ended ≡ true → has_text line ≡ true → text.now ≡ lines.text_of line
        → answered line_in answer ≡ Ok line) }
    ensures text { IfOk result
        (λ answer. (line : lines.Line) → answered line_in answer ≡ Ok line → lines.text_of line ≡ text.now) }
{
    text_is_read();
    line_has_one_text();
    let answer = read_text(alloc, text)?;
    if ended {
        return Ok(answer);
    }
    Ok(Err(match answer {
        Ok(_) => LineFault::Unended,
        Err(fault) => fault,
    }))
}

fn read_text(alloc: Global, text: &[u8]) -> Answer<Line>
    ensures { IfOk result (λ answer. answered line_in answer ≡ line_of text.now) }
{
    let fields = split(alloc, text, b' ')?;
    read_fields(alloc, fields.as_slice())
}

fn read_fields(alloc: Global, fields: &[&[u8]]) -> Answer<Line>
    ensures { IfOk result (λ answer. answered line_in answer ≡ line_of_fields (texts fields.now)) }
{
    let Some((word, fields)) = fields.split_first() else {
        return Ok(Err(LineFault::BadWord));
    };
    match line_kind(word) {
        Some(kind) => read_line_of(alloc, kind, fields),
        None => Ok(Err(LineFault::BadWord)),
    }
}

fn read_line_of(alloc: Global, kind: LineKind, fields: &[&[u8]]) -> Answer<Line>
    ensures { IfOk result (λ answer. answered line_in answer ≡ line_reader kind (texts fields.now)) }
{
    match kind {
        LineKind::Header => made!(one(alloc, fields)?, format => Line::Header(format)),
        LineKind::Regex => made!(read_node(alloc, fields)?, node => Line::Regex(node)),
        LineKind::Atom => made!(read_atom(alloc, fields)?, atom => Line::Atom(atom)),
        LineKind::Expansion => {
            made!(some(alloc, fields)?, (regex, classes) => Line::Expansion(regex, classes))
        }
        LineKind::Dead => made!(any_number(alloc, fields)?, regexes => Line::Dead(regexes)),
        LineKind::Clause => read_clause(alloc, fields),
        LineKind::Verdict => made!(read_said(alloc, fields)?, said => Line::Verdict(said)),
        LineKind::End => Ok(bare(Line::End, fields)),
    }
}

fn read_node(alloc: Global, fields: &[&[u8]]) -> Answer<Node>
    ensures { IfOk result (λ answer. answered node_in answer ≡ behind_word nodes (texts fields.now)) }
{
    let Some((word, fields)) = fields.split_first() else {
        return Ok(Err(LineFault::BadWord));
    };
    match node_kind(word) {
        Some(kind) => read_node_of(alloc, kind, fields),
        None => Ok(Err(LineFault::BadWord)),
    }
}

fn read_node_of(alloc: Global, kind: NodeKind, fields: &[&[u8]]) -> Answer<Node>
    ensures { IfOk result (λ answer. answered node_in answer ≡ node_reader kind (texts fields.now)) }
{
    match kind {
        NodeKind::None => Ok(bare(Node::None, fields)),
        NodeKind::Eps => Ok(bare(Node::Eps, fields)),
        NodeKind::Set => made!(one(alloc, fields)?, ranges => Node::Set(ranges)),
        NodeKind::Cat => made!(two(alloc, fields)?, (first, second) => Node::Cat(first, second)),
        NodeKind::Alt => made!(at_least_one(alloc, fields)?, parts => Node::Alt(parts)),
        NodeKind::And => made!(at_least_one(alloc, fields)?, parts => Node::And(parts)),
        NodeKind::Not => made!(one(alloc, fields)?, part => Node::Not(part)),
        NodeKind::Star => made!(one(alloc, fields)?, part => Node::Star(part)),
        NodeKind::Rep => made!(three(fields), (part, least, most) => Node::Rep(part, least, most)),
        NodeKind::Path => made!(two(alloc, fields)?, (first, second) => Node::Path(first, second)),
    }
}

fn read_atom(alloc: Global, fields: &[&[u8]]) -> Answer<Atom<u64>>
    ensures { IfOk result (λ answer. answered atom_in answer ≡ behind_word atoms (texts fields.now)) }
{
    let Some((word, fields)) = fields.split_first() else {
        return Ok(Err(LineFault::BadWord));
    };
    match atom_kind(word) {
        Some(kind) => read_atom_of(alloc, kind, fields),
        None => Ok(Err(LineFault::BadWord)),
    }
}

fn read_atom_of(alloc: Global, kind: AtomKind, fields: &[&[u8]]) -> Answer<Atom<u64>>
    ensures { IfOk result (λ answer. answered atom_in answer ≡ atom_reader kind (texts fields.now)) }
{
    match kind {
        AtomKind::Bool => made!(one(alloc, fields)?, serial => Atom::Bool(serial)),
        AtomKind::In => read_membership(alloc, fields),
        AtomKind::Le => made!(two(alloc, fields)?, (variable, bound) => Atom::Le(variable, bound)),
        AtomKind::Sum => read_sum(alloc, fields),
        AtomKind::And =>
            made!(any_number(alloc, fields)?, literals => Atom::And(SmallVec::from_vec(literals))),
        AtomKind::Iff => made!(two(alloc, fields)?, (first, second) => Atom::Iff(first, second)),
    }
}

fn read_clause(alloc: Global, fields: &[&[u8]]) -> Answer<Line>
    ensures { IfOk result (λ answer. answered line_in answer ≡ behind_word clauses (texts fields.now)) }
{
    let Some((word, fields)) = fields.split_first() else {
        return Ok(Err(LineFault::BadWord));
    };
    match clause_kind(word) {
        Some(kind) => read_clause_of(alloc, kind, fields),
        None => Ok(Err(LineFault::BadWord)),
    }
}

fn read_clause_of(alloc: Global, kind: ClauseKind, fields: &[&[u8]]) -> Answer<Line>
    ensures { IfOk result (λ answer. answered line_in answer ≡ clause_reader kind (texts fields.now)) }
{
    match kind {
        ClauseKind::Assertion => {
            made!(two(alloc, fields)?, (place, literal) => Line::Assertion(place, literal))
        }
        ClauseKind::Gate => read_rule(alloc, Rule::Gate, fields),
        ClauseKind::Order => read_rule(alloc, Rule::Order, fields),
        ClauseKind::Linear => read_rule(alloc, Rule::Linear, fields),
        ClauseKind::Step => read_rule(alloc, Rule::Step, fields),
        ClauseKind::Empty => read_rule(alloc, Rule::Empty, fields),
        ClauseKind::Learned => read_learned(alloc, fields),
    }
}

fn read_rule(alloc: Global, rule: Rule, fields: &[&[u8]]) -> Answer<Line>
    ensures { IfOk result
        (λ answer. answered line_in answer
        ≡ any_number literal (lines.rule_line (rule_in rule)) (texts fields.now)) }
{
    made!(any_number(alloc, fields)?, literals => Line::Rule(rule, literals))
}

fn read_said(alloc: Global, fields: &[&[u8]]) -> Answer<Said>
    ensures { IfOk result (λ answer. answered said_in answer ≡ behind_word verdicts (texts fields.now)) }
{
    let Some((word, fields)) = fields.split_first() else {
        return Ok(Err(LineFault::BadWord));
    };
    match verdict_kind(word) {
        Some(kind) => read_said_of(alloc, kind, fields),
        None => Ok(Err(LineFault::BadWord)),
    }
}

fn read_said_of(alloc: Global, kind: VerdictKind, fields: &[&[u8]]) -> Answer<Said>
    ensures { IfOk result (λ answer. answered said_in answer ≡ verdict_reader kind (texts fields.now)) }
{
    match kind {
        VerdictKind::Sat => made!(any_number(alloc, fields)?, values => Said::Sat(values)),
        VerdictKind::Unsat => read_refutation(alloc, fields),
        VerdictKind::Unknown => made!(one(alloc, fields)?, limit => Said::Unknown(limit)),
        VerdictKind::Unsupported => Ok(bare(Said::Unsupported, fields)),
    }
}

/// The number of a clause: the format has no places behind it yet.
fn read_refutation(alloc: Global, fields: &[&[u8]]) -> Answer<Said>
    ensures { IfOk result (λ answer. answered said_in answer ≡ refutation (texts fields.now)) }
{
    made!(one(alloc, fields)?, clause => Said::Unsat(clause))
}

/// Pieces, a colon, and the number of a regex.
fn read_membership(alloc: Global, fields: &[&[u8]]) -> Answer<Atom<u64>>
    ensures { IfOk result (λ answer. answered atom_in answer ≡ membership (texts fields.now)) }
{
    let Some((pieces, regex)) = before_last_colon(fields) else {
        return Ok(Err(LineFault::BadWord));
    };
    let Some(pieces) = each(alloc, pieces)? else {
        return Ok(Err(LineFault::BadNumber));
    };
    match number(regex) {
        Some(regex) => Ok(Ok(Atom::In(SmallVec::from_vec(pieces), regex))),
        None => Ok(Err(LineFault::BadNumber)),
    }
}

/// Literals, a colon, and hints.
fn read_learned(alloc: Global, fields: &[&[u8]]) -> Answer<Line>
    ensures { IfOk result (λ answer. answered line_in answer ≡ learned (texts fields.now)) }
{
    let Some((literals, hints)) = around_colon(fields) else {
        return Ok(Err(LineFault::BadWord));
    };
    let Some(literals) = each(alloc, literals)? else {
        return Ok(Err(LineFault::BadNumber));
    };
    match each(alloc, hints)? {
        Some(hints) => Ok(Ok(Line::Learned(literals, hints))),
        None => Ok(Err(LineFault::BadNumber)),
    }
}

/// A bound, and pairs of a factor and a variable.
fn read_sum(alloc: Global, fields: &[&[u8]]) -> Answer<Atom<u64>>
    ensures { IfOk result (λ answer. answered atom_in answer ≡ sum (texts fields.now)) }
{
    let [bound, fields @ ..] = fields else {
        return Ok(Err(LineFault::BadWord));
    };
    if !has_pairs(fields) {
        return Ok(Err(LineFault::BadWord));
    }
    let Some(bound) = integer(bound) else {
        return Ok(Err(LineFault::BadNumber));
    };
    match read_summands(alloc, fields)? {
        Some(summands) => Ok(Ok(Atom::Sum(bound, summands))),
        None => Ok(Err(LineFault::BadNumber)),
    }
}

fn has_pairs(fields: &[&[u8]]) -> bool
    ensures { result ≡ has_pairs (texts fields.now) }
{
    !fields.is_empty() && fields.len() % 2 == 0
}

fn read_summands(
    alloc: Global,
    fields: &[&[u8]],
) -> Result<Option<Vec<(i128, Variable)>>, AllocError>
    ensures { IfOk result (λ o. option_map (λ v. map summand_in v.items) o ≡ summands (texts fields.now)) }
{
    let mut summands = Vec::new(alloc);
    let mut left = fields;
    while let [factor, of, others @ ..] = left {
        let Some(summand) = read_summand(factor, of) else {
            return Ok(None);
        };
        summands.push(summand)?;
        left = others;
    }
    if left.is_empty() {
        return Ok(Some(summands));
    }
    Ok(None)
}

fn read_summand(factor: &[u8], of: &[u8]) -> Option<(i128, Variable)>
    ensures { option_map summand_in result ≡ both integer variable (factor.now ∷ of.now ∷ []) }
{
    let Some(factor) = integer(factor) else {
        return None;
    };
    let Some(of) = variable(of) else {
        return None;
    };
    Some((factor, of))
}

/// What stands before the first colon, and behind it.
fn around_colon<'a>(fields: &'a [&'a [u8]]) -> Option<(&'a [&'a [u8]], &'a [&'a [u8]])>
    ensures { option_map (λ p. (texts p.0.now, texts p.1.now)) result ≡ around_colon (texts fields.now) }
{
    for (at, field) in fields.iter().enumerate() {
        if is_word(field, ":") {
            return Some((&fields[..at], &fields[at + 1..]));
        }
    }
    None
}

/// What stands before the colon that is the last field but one, and the last field.
fn before_last_colon<'a>(fields: &'a [&'a [u8]]) -> Option<(&'a [&'a [u8]], &'a [u8])>
    ensures { option_map (λ p. (texts p.0.now, p.1.now)) result ≡ before_last_colon (texts fields.now) }
{
    let [front @ .., colon, last] = fields else {
        return None;
    };
    if is_word(colon, ":") {
        Some((front, last))
    } else {
        None
    }
}
