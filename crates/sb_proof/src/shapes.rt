//! What fields say, where they are of their shapes.

ghost use Rattle.std.specs.Prelude.{◌≡◌, ℕ, ℤ, List, Option, map, option_map, IfOk};
ghost use Rattle.sb_lit.specs.declared.clause.Lit.{Lit};
ghost use Rattle.sb_class.specs.Ranges.{Range};
ghost use Rattle.sb_meaning.specs.Values as values;
ghost use Rattle.sb_script.specs.Pieces as pieces;
ghost use Rattle.sb_script.specs.Sums as sums;
ghost use Rattle.sb_rulebook.specs.Lines as lines;
ghost use Rattle.sb_rulebook.specs.Reading.{is_text, split_at, each, number, hexadecimal_number, integer, literal, characters, piece, variable, value, range, ranges, class};
ghost use Rattle.sb_proof.specs.Lines.{piece_in, variable_in, class_in, value_in};
ghost use Rattle.sb_proof.specs.Views.{texts};

use crate::atom::{Piece, Variable};
use crate::line::{Class, Value};
use crate::numbers::{hexadecimal_number, integer, literal, number, variable};
use sb_lit::Lit;
use std::alloc::{AllocError, Global};

/// What a field may say.
pub(crate) trait Shape {
    ghost Meant: { Type 0 };

    ghost meant: { Self → Meant };

    ghost shape: { List ℕ → Option Meant };

    /// What the field says, where it is of the shape.
    fn read(alloc: Global, field: &[u8]) -> Result<Option<Self>, AllocError>
        ensures { IfOk result (λ o. option_map meant o ≡ shape field.now) };
}

/// What each field says, where all are of the shape.
pub(crate) fn each<T: Shape + Drop>(
    alloc: Global,
    fields: &[&[u8]],
) -> Result<Option<Vec<T>>, AllocError>
    ensures { IfOk result (λ o. option_map (λ v. map T.meant v.items) o ≡ each T.shape (texts fields.now)) }
{
    let mut items = Vec::new(alloc);
    for field in fields {
        let Some(item) = T::read(alloc, field)? else {
            return Ok(None);
        };
        items.push(item)?;
    }
    Ok(Some(items))
}

pub(crate) fn is_word(field: &[u8], word: &str) -> bool
    ensures { result ≡ is_text field.now word.now }
{
    field == word.as_bytes()
}

/// What stands between separators.
pub(crate) fn split(alloc: Global, text: &[u8], separator: u8) -> Result<Vec<&[u8]>, AllocError>
    ensures { IfOk result (λ v. texts v.items ≡ split_at separator text.now) }
{
    text.split(|byte| *byte == separator).collect(alloc)
}

/// The characters of a word, between full stops.
fn characters(alloc: Global, text: &[u8]) -> Result<Option<Vec<u64>>, AllocError>
    ensures { IfOk result (λ o. option_map (λ v. v.items) o ≡ characters text.now) }
{
    if text.is_empty() {
        return Ok(Some(Vec::new(alloc)));
    }
    let fields = split(alloc, text, b'.')?;
    each_character(alloc, fields.as_slice())
}

fn each_character(alloc: Global, fields: &[&[u8]]) -> Result<Option<Vec<u64>>, AllocError>
    ensures { IfOk result (λ o. option_map (λ v. v.items) o ≡ each hexadecimal_number (texts fields.now)) }
{
    let mut characters = Vec::new(alloc);
    for field in fields {
        let Some(character) = hexadecimal_number(field) else {
            return Ok(None);
        };
        characters.push(character)?;
    }
    Ok(Some(characters))
}

impl Shape for u64 {
    ghost Meant = { ℕ };

    ghost meant = { λ n. n };

    ghost shape = { number };

    fn read(_alloc: Global, field: &[u8]) -> Result<Option<u64>, AllocError> {
        Ok(number(field))
    }
}

impl Shape for i128 {
    ghost Meant = { ℤ };

    ghost meant = { λ n. n };

    ghost shape = { integer };

    fn read(_alloc: Global, field: &[u8]) -> Result<Option<i128>, AllocError> {
        Ok(integer(field))
    }
}

impl Shape for Lit {
    ghost Meant = { Lit };

    ghost meant = { λ l. l };

    ghost shape = { literal };

    fn read(_alloc: Global, field: &[u8]) -> Result<Option<Lit>, AllocError> {
        Ok(literal(field))
    }
}

impl Shape for Variable {
    ghost Meant = { sums.Variable };

    ghost meant = { variable_in };

    ghost shape = { variable };

    fn read(_alloc: Global, field: &[u8]) -> Result<Option<Variable>, AllocError> {
        Ok(variable(field))
    }
}

impl Shape for Piece {
    ghost Meant = { pieces.Piece };

    ghost meant = { piece_in };

    ghost shape = { piece };

    fn read(alloc: Global, field: &[u8]) -> Result<Option<Piece>, AllocError> {
        let Some((first, rest)) = field.split_first() else {
            return Ok(None);
        };
        match *first {
            b'v' => match number(rest) {
                Some(serial) => Ok(Some(Piece::Constant(serial))),
                None => Ok(None),
            },
            b'w' => match characters(alloc, rest)? {
                Some(word) => Ok(Some(Piece::Word(word))),
                None => Ok(None),
            },
            _ => Ok(None),
        }
    }
}

impl Shape for Value {
    ghost Meant = { values.Value };

    ghost meant = { value_in };

    ghost shape = { value };

    fn read(alloc: Global, field: &[u8]) -> Result<Option<Value>, AllocError> {
        let Some((first, rest)) = field.split_first() else {
            return Ok(None);
        };
        if is_word(field, "t") {
            return Ok(Some(Value::Truth(true)));
        }
        if is_word(field, "f") {
            return Ok(Some(Value::Truth(false)));
        }
        if *first == b'w' {
            return match characters(alloc, rest)? {
                Some(word) => Ok(Some(Value::Text(word))),
                None => Ok(None),
            };
        }
        match integer(field) {
            Some(n) => Ok(Some(Value::Int(n))),
            None => Ok(None),
        }
    }
}

impl Shape for (u64, u64) {
    ghost Meant = { Range };

    ghost meant = { λ r. r };

    ghost shape = { range };

    fn read(alloc: Global, field: &[u8]) -> Result<Option<(u64, u64)>, AllocError> {
        let parts = split(alloc, field, b'-')?;
        let [first, last] = parts.as_slice() else {
            return Ok(None);
        };
        let Some(first) = hexadecimal_number(first) else {
            return Ok(None);
        };
        let Some(last) = hexadecimal_number(last) else {
            return Ok(None);
        };
        Ok(Some((first, last)))
    }
}

impl Shape for Vec<(u64, u64)> {
    ghost Meant = { List Range };

    ghost meant = { λ v. v.items };

    ghost shape = { ranges };

    fn read(alloc: Global, field: &[u8]) -> Result<Option<Vec<(u64, u64)>>, AllocError> {
        let fields = split(alloc, field, b',')?;
        each(alloc, fields.as_slice())
    }
}

impl Shape for Class {
    ghost Meant = { lines.Class };

    ghost meant = { class_in };

    ghost shape = { class };

    fn read(alloc: Global, field: &[u8]) -> Result<Option<Class>, AllocError> {
        let parts = split(alloc, field, b'>')?;
        let [ranges, target] = parts.as_slice() else {
            return Ok(None);
        };
        let Some(ranges) = Shape::read(alloc, ranges)? else {
            return Ok(None);
        };
        let Some(target) = number(target) else {
            return Ok(None);
        };
        Ok(Some(Class { ranges, target }))
    }
}
