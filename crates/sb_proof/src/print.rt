//! The text of a line.

ghost use Rattle.std.specs.Prelude.{◌≡◌, ◌++◌, codes, IfOk, OnOk};
ghost use Rattle.std.specs.String.{string_bytes};
ghost use Rattle.sb_script.specs.Steps.{line as ended};
ghost use Rattle.sb_rulebook.specs.Lines.{regex_line, atom_line, verdict_line, rule_text, text_of};
ghost use Rattle.sb_proof.specs.Lines.{node_in, atom_in, rule_in, said_in, line_in};

use crate::atom::Atom;
use crate::fields::{put_fields, put_named, put_next, put_ranges};
use crate::line::{Line, Node, Rule, Said};
use std::alloc::{AllocError, Global};

/// The text of the line, with its line feed. Linear in the length of the text.
pub fn print_line(alloc: Global, line: &Line) -> Result<String, AllocError>
    ensures text { IfOk result (λ text. string_bytes text ≡ ended (text_of (line_in line.now))) }
{
    let mut text = String::new(alloc);
    put_line(&mut text, line)?;
    Ok(text)
}

/// Appends the text of the line, with its line feed. After an error some of it may be appended. Linear in the
/// length of the line's text.
pub fn put_line(text: &mut String, line: &Line) -> Result<(), AllocError>
    ensures text { OnOk result
        (string_bytes text.new ≡ string_bytes text.old ++ ended (text_of (line_in line.now))) }
{
    put_text(text, line)?;
    text.push('\n')
}

fn put_text(text: &mut String, line: &Line) -> Result<(), AllocError>
    ensures { OnOk result (string_bytes text.new ≡ string_bytes text.old ++ text_of (line_in line.now)) }
{
    match line {
        Line::Header(format) => put_named(text, "strproof", &[*format]),
        Line::Regex(node) => put_node(text, node),
        Line::Atom(atom) => put_atom(text, atom),
        Line::Expansion(regex, classes) => {
            put_named(text, "x", &[*regex])?;
            put_fields(text, classes.as_slice())
        }
        Line::Dead(regexes) => put_named(text, "d", regexes.as_slice()),
        Line::Assertion(place, literal) => {
            put_named(text, "c assert", &[*place])?;
            put_fields(text, &[*literal])
        }
        Line::Rule(rule, literals) => put_named(text, words_of(*rule), literals.as_slice()),
        Line::Learned(literals, hints) => {
            put_named(text, "c learn", literals.as_slice())?;
            put_named(text, " :", hints.as_slice())
        }
        Line::Verdict(said) => put_said(text, said),
        Line::End => text.push_str("end"),
    }
}

/// The words of a rule's line.
fn words_of(rule: Rule) -> &'static str
    ensures { result.now ≡ codes "c " ++ rule_text (rule_in rule) }
{
    match rule {
        Rule::Gate => "c gate",
        Rule::Order => "c order",
        Rule::Linear => "c linear",
        Rule::Step => "c step",
        Rule::Empty => "c empty",
    }
}

/// Appends the line of a regex.
fn put_node(text: &mut String, node: &Node) -> Result<(), AllocError>
    ensures { OnOk result
        (string_bytes text.new ≡ string_bytes text.old ++ text_of (regex_line (node_in node.now))) }
{
    match node {
        Node::None => text.push_str("r none"),
        Node::Eps => text.push_str("r eps"),
        Node::Set(ranges) => {
            text.push_str("r set ")?;
            put_ranges(text, ranges.as_slice())
        }
        Node::Cat(first, second) => put_named(text, "r cat", &[*first, *second]),
        Node::Alt(parts) => put_named(text, "r alt", parts.as_slice()),
        Node::And(parts) => put_named(text, "r and", parts.as_slice()),
        Node::Not(part) => put_named(text, "r not", &[*part]),
        Node::Star(part) => put_named(text, "r star", &[*part]),
        Node::Rep(part, least, most) => put_named(text, "r rep", &[*part, *least, *most]),
        Node::Path(first, second) => put_named(text, "r path", &[*first, *second]),
    }
}

/// Appends the line of an atom.
fn put_atom(text: &mut String, atom: &Atom<u64>) -> Result<(), AllocError>
    ensures { OnOk result
        (string_bytes text.new ≡ string_bytes text.old ++ text_of (atom_line (atom_in atom.now))) }
{
    match atom {
        Atom::Bool(serial) => put_named(text, "a bool", &[*serial]),
        Atom::In(pieces, regex) => {
            put_named(text, "a in", pieces.as_slice())?;
            put_named(text, " :", &[*regex])
        }
        Atom::Le(variable, bound) => {
            put_named(text, "a le", &[*variable])?;
            put_next(text, bound)
        }
        Atom::Sum(bound, summands) => {
            text.push_str("a sum")?;
            put_next(text, bound)?;
            put_fields(text, summands.as_slice())
        }
        Atom::And(literals) => put_named(text, "a and", literals.as_slice()),
        Atom::Iff(first, second) => put_named(text, "a iff", &[*first, *second]),
    }
}

/// Appends the line of a verdict.
fn put_said(text: &mut String, said: &Said) -> Result<(), AllocError>
    ensures { OnOk result
        (string_bytes text.new ≡ string_bytes text.old ++ text_of (verdict_line (said_in said.now))) }
{
    match said {
        Said::Sat(values) => put_named(text, "v sat", values.as_slice()),
        Said::Unsat(clause) => put_named(text, "v unsat", &[*clause]),
        Said::Unknown(limit) => put_named(text, "v unknown", &[*limit]),
        Said::Unsupported => text.push_str("v unsupported"),
    }
}
