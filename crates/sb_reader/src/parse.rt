//! From the bytes of one entry to its form, or to its first fault.

ghost use Rattle.std.specs.Prelude.{◌≡◌, ◌==◌, ◌&&◌, not, nat_le, true, false, List, [], ◌∷◌, length, IfOk, OnOk, MatchResult, IsSomeAnd};
ghost use Rattle.sb_reader.specs.Tokens.{Token, Open, Close, Text, Quoted, Run, all_pass, is_bad_byte};
ghost use Rattle.sb_reader.specs.Forms.{Forms, none, atom_of, form_of};
ghost use Rattle.sb_reader.specs.Entries.{Spells, IsCommand, IsEntry, Refused, is_parenthesis, depth_limit};
ghost use Rattle.sb_reader.specs.OneEntry.{IsOneEntry, is_one_entry};
ghost use Rattle.sb_reader.specs.Lexing.{token_of};
ghost use Rattle.sb_reader.specs.Parsing.{pushed, IsLaid, IsOpen, AfterClose, IsAtom, IsTail, IsParsed};

use crate::feed::Refusal;
use crate::kind::{is_decimal, is_hexadecimal_or_binary, is_keyword, is_numeral, is_simple_symbol};
use crate::sexpr::{Kind, Node, Sexpr};
use crate::token::{Lexeme, is_bad_byte, next_token};
use std::alloc::{AllocError, Global};

/// How deep parentheses may be nested.
const DEPTH_LIMIT: usize = 512;

/// An atom by its kind and its bytes.
#[derive(Clone, Copy)]
struct Atom<'a> {
    kind: Kind,
    bytes: &'a [u8],
}

/// Where a list that is open begins: the place of its node, and how many bytes are kept before it.
#[derive(Clone, Copy)]
struct Mark {
    node: usize,
    byte: usize,
}

/// A form that is read in part, with the places where the lists that are open begin, the innermost last.
#[derive(Drop)]
struct OpenLists {
    nodes: Vec<Node>,
    bytes: Vec<u8>,
    marks: Vec<Mark>,
}

/// The number, where it fits. A form of four billion bytes or parts is answered as one that memory has no room for.
fn narrow(number: usize) -> Result<u32, AllocError>
    ensures { IfOk result (λ n. n ≡ number) }
{
    match u32::try_from(number) {
        Ok(number) => Ok(number),
        Err(_) => Err(AllocError),
    }
}

impl OpenLists {
    /// One list, without a form.
    fn new(alloc: Global) -> Result<OpenLists, AllocError>
        ensures { IfOk result (λ lists. IsLaid lists (none ∷ [])) }
    {
        let mut lists = OpenLists {
            nodes: Vec::new(alloc),
            bytes: Vec::new(alloc),
            marks: Vec::new(alloc),
        };
        lists.open()?;
        Ok(lists)
    }

    /// As many lists are open as may be.
    fn is_full(&self) -> bool
        ensures { (levels : List Forms) → IsLaid self.now levels → result ≡ nat_le depth_limit (length levels) }
    {
        self.marks.len() >= DEPTH_LIMIT
    }

    /// Adds an atom to the innermost list.
    fn push(&mut self, atom: Atom) -> Result<(), AllocError>
        ensures { (forms : Forms) (outer : List Forms) → IsLaid self.old (forms ∷ outer)
            → OnOk result (IsLaid self.new (pushed forms (atom_of atom.entry.kind atom.entry.bytes.now) ∷ outer)) }
    {
        let length = narrow(atom.bytes.len())?;
        self.nodes.push(Node::Atom(atom.kind, length))?;
        self.bytes.extend_from_slice(atom.bytes)?;
        Ok(())
    }

    /// Opens a list in the innermost one.
    fn open(&mut self) -> Result<(), AllocError>
        ensures { (levels : List Forms) → IsLaid self.old levels → OnOk result (IsLaid self.new (none ∷ levels)) }
    {
        let mark = Mark {
            node: self.nodes.len(),
            byte: self.bytes.len(),
        };
        self.marks.push(mark)?;
        self.nodes.push(Node::List(0, 0))?;
        Ok(())
    }

    /// Closes the innermost list, and tells whether it is the last that was open.
    fn close(&mut self) -> Result<bool, AllocError>
        requires { IsOpen self.old }
        ensures { (forms : Forms) (outer : List Forms) → IsLaid self.old (forms ∷ outer)
            → IfOk result (λ last. AfterClose last forms outer self.new) }
    {
        let Some(mark) = self.marks.pop() else {
            unreachable!();
        };
        let count = narrow(self.nodes.len() - mark.node - 1)?;
        let length = narrow(self.bytes.len() - mark.byte)?;
        self.nodes[mark.node] = Node::List(count, length);
        Ok(self.marks.is_empty())
    }

    /// The form, where no list is open.
    fn into_form(self) -> Sexpr
        ensures nodes { result.nodes ≡ self.nodes }
        ensures bytes { result.bytes ≡ self.bytes }
    {
        Sexpr {
            nodes: self.nodes,
            bytes: self.bytes,
        }
    }
}

fn all_good(bytes: &[u8]) -> bool
    ensures { result ≡ all_pass (λ b. not (is_bad_byte b)) bytes.now }
{
    bytes.iter().all(|b| !is_bad_byte(*b))
}

fn all_good_unescaped(bytes: &[u8]) -> bool
    ensures { result ≡ all_pass (λ b. not (is_bad_byte b) && not (b == 92)) bytes.now }
{
    bytes.iter().all(|b| !is_bad_byte(*b) && *b != b'\\')
}

fn text_atom(bytes: &[u8]) -> Option<Atom<'_>>
    ensures { IsAtom result (Text bytes.now) }
{
    if !all_good(bytes) {
        return None;
    }
    let kind = Kind::Text;
    Some(Atom { kind, bytes })
}

fn quoted_atom(bytes: &[u8]) -> Option<Atom<'_>>
    ensures { IsAtom result (Quoted bytes.now) }
{
    if !all_good_unescaped(bytes) {
        return None;
    }
    let kind = Kind::QuotedSymbol;
    Some(Atom { kind, bytes })
}

fn run_atom(bytes: &[u8]) -> Option<Atom<'_>>
    ensures { IsAtom result (Run bytes.now) }
{
    if is_numeral(bytes) {
        let kind = Kind::Numeral;
        Some(Atom { kind, bytes })
    } else if is_decimal(bytes) || is_hexadecimal_or_binary(bytes) {
        let kind = Kind::OtherNumber;
        Some(Atom { kind, bytes })
    } else if is_simple_symbol(bytes) {
        let kind = Kind::Symbol;
        Some(Atom { kind, bytes })
    } else if is_keyword(bytes) {
        let kind = Kind::Keyword;
        Some(Atom { kind, bytes })
    } else {
        None
    }
}

/// The atom of a token that is no parenthesis, or `None` where the token is bad.
fn read_atom(lexeme: Lexeme) -> Option<Atom>
    requires { is_parenthesis (token_of lexeme) ≡ false }
    ensures { IsAtom result (token_of lexeme.entry) }
{
    match lexeme {
        Lexeme::Open | Lexeme::Close => unreachable!(),
        Lexeme::Text(text) => text_atom(text),
        Lexeme::Quoted(name) => quoted_atom(name),
        Lexeme::Run(run) => run_atom(run),
    }
}

/// Reads the rest of a form, of which the first parenthesis is read, up to its end or its first fault.
/// `None` where the bytes end before.
fn parse_list(alloc: Global, bytes: &[u8]) -> Result<Option<Result<Sexpr, Refusal>>, AllocError>
    ensures { IfOk result (λ parsed. (tokens : List Token) → IsTail tokens bytes.now
        → IsSomeAnd parsed (λ p. IsParsed p (Open ∷ tokens))) }
{
    let mut lists = OpenLists::new(alloc)?;
    let mut rest = bytes;
    while let Some((lexeme, behind)) = next_token(rest) {
        match lexeme {
            Lexeme::Open => {
                if lists.is_full() {
                    return Ok(Some(Err(Refusal::TooDeep)));
                }
                lists.open()?;
            }
            Lexeme::Close => {
                if lists.close()? {
                    return Ok(Some(Ok(lists.into_form())));
                }
            }
            _ => {
                let Some(atom) = read_atom(lexeme) else {
                    return Ok(Some(Err(Refusal::BadToken)));
                };
                lists.push(atom)?;
            }
        }
        rest = behind;
    }
    Ok(None)
}

/// The form of the entry in front, or its first fault in reading order. `None` where the bytes end before.
fn parse_first(alloc: Global, bytes: &[u8]) -> Result<Option<Result<Sexpr, Refusal>>, AllocError>
    ensures { IfOk result (λ parsed. (tokens : List Token) → Spells true tokens bytes.now []
        → is_one_entry tokens ≡ true → IsSomeAnd parsed (λ p. IsParsed p tokens)) }
{
    let Some((lexeme, rest)) = next_token(bytes) else {
        return Ok(None);
    };
    match lexeme {
        Lexeme::Open => parse_list(alloc, rest),
        Lexeme::Close => Ok(Some(Err(Refusal::StrayClose))),
        _ => match read_atom(lexeme) {
            Some(_) => Ok(Some(Err(Refusal::BareToken))),
            None => Ok(Some(Err(Refusal::BadToken))),
        },
    }
}

/// The form of an entry, or its first fault in reading order. The bytes are the tokens of one entry, with
/// white space and comments before each. Linear in the bytes.
pub(crate) fn parse_entry(alloc: Global, front: &[u8]) -> Result<Result<Sexpr, Refusal>, AllocError>
    requires { IsOneEntry front.now }
    ensures { IfOk result (λ parsed. (tokens : List Token) → Spells true tokens front.now []
        → is_one_entry tokens ≡ true
        → MatchResult parsed (λ sexpr. IsCommand (form_of sexpr) tokens)
        (λ refusal. IsEntry (Refused refusal) tokens)) }
{
    match parse_first(alloc, front)? {
        Some(parsed) => Ok(parsed),
        None => unreachable!(),
    }
}
