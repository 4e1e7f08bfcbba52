//! Constants with their values, and what is asked for (SMT-LIB 2.6, section 4.2.6).

ghost use Rattle.std.specs.Prelude.{◌≡◌, ◌++◌, pos, List, [], false, map, option_map, option_copied, get_or, IfOk, OnOk};
ghost use Rattle.sb_reader.specs.Forms.{shape_of, Symbol};
ghost use Rattle.sb_word.specs.Literals.{literal_text};
ghost use Rattle.sb_script.specs.Scopes.{constants_in};
ghost use Rattle.sb_script.specs.Replies as meaning;
ghost use Rattle.sb_script.specs.Steps.{line, list_text};
ghost use Rattle.sb_sorts.specs.Scopes.{names_in, constants_among};
ghost use Rattle.sb_meaning.specs.Printed.{printed};
ghost use Rattle.sb_meaning.specs.Terms as terms;
ghost use Rattle.sb_meaning.specs.Terms.{Term};
ghost use Rattle.sb_meaning.specs.Values.{Int, Truth};
ghost use Rattle.sb_term.specs.Symbols.{sort_in};
ghost use Rattle.sb_stack.specs.Stacked.{live_in};
ghost use Rattle.sb_stack.specs.Commands.{forms_in};
ghost use Rattle.sb_stack.specs.Values.{constant_in, asked_in, item_in, with_names, gap_at, value_printed, definition_by, value_by};

use crate::constant::LiveConstant;
use crate::name::push_name;
use sb_reader::{Shape, Shapes};
use sb_sorts::{Named, Scope, begins_term, is_reserved, is_theory_name};
use sb_term::{Serial, Sort};
use sb_word::{Word, print_literal};
use std::alloc::{AllocError, Global};

/// A declared constant.
#[derive(Clone, Copy)]
pub(crate) struct Constant<'a> {
    pub(crate) name: &'a [u8],
    pub(crate) serial: Serial,
    pub(crate) sort: Sort,
}

/// What an item of a list of asked values is.
#[derive(Clone, Copy)]
pub(crate) enum Item<'a> {
    Constant(Constant<'a>),
    /// A name that stands for nothing.
    Unknown(&'a [u8]),
    /// A reserved word.
    Malformed,
    /// Known or composite, and no declared constant.
    Other,
}

/// The constants of a scope, in the order of declaration. Linear in the names.
pub(crate) fn constants(alloc: Global, scope: &Scope) -> Result<Vec<Constant<'_>>, AllocError>
    ensures { IfOk result
        (λ found. (ts : List Term) → map constant_in found.items ≡ constants_in (names_in ts scope.now)) }
{
    let mut found = Vec::new(alloc);
    for place in 0..scope.len() {
        let Some((name, named)) = scope.at(place) else {
            unreachable!();
        };
        if let Named::Constant(serial, sort) = named {
            found.push(Constant {
                name,
                serial: *serial,
                sort: *sort,
            })?;
        }
    }
    Ok(found)
}

/// The constants of a scope without their names, in the order of declaration. Linear in the names.
pub(crate) fn live_constants(alloc: Global, scope: &Scope) -> Result<Vec<LiveConstant>, AllocError>
    ensures { IfOk result (λ found. map live_in found.items ≡ constants_among scope.now.names) }
{
    let mut found = Vec::new(alloc);
    for place in 0..scope.len() {
        let Some((_, named)) = scope.at(place) else {
            unreachable!();
        };
        if let Named::Constant(serial, sort) = named {
            found.push(LiveConstant {
                serial: *serial,
                sort: *sort,
            })?;
        }
    }
    Ok(found)
}

/// What a name is among asked items.
fn item_named<'a>(scope: &Scope, name: &'a [u8]) -> Item<'a>
    ensures { (ts : List Term) → item_in result ≡ meaning.item_named (with_names (names_in ts scope.now)) name.now }
{
    match scope.named(name) {
        Some(Named::Constant(serial, sort)) => Item::Constant(Constant {
            name,
            serial: *serial,
            sort: *sort,
        }),
        Some(Named::Definition(_)) => Item::Other,
        Some(Named::Marked) => Item::Other,
        None if is_theory_name(name) => Item::Other,
        None => Item::Unknown(name),
    }
}

/// What a symbol that was not written between bars is among asked items.
fn item_bare<'a>(scope: &Scope, name: &'a [u8]) -> Item<'a>
    ensures { (ts : List Term)
        → item_in result ≡ meaning.item_of (with_names (names_in ts scope.now)) (Symbol name.now) }
{
    if begins_term(name) {
        Item::Other
    } else if is_reserved(name) {
        Item::Malformed
    } else {
        item_named(scope, name)
    }
}

fn item_of<'a>(scope: &Scope, form: Shape<'a>) -> Item<'a>
    ensures { (ts : List Term)
        → item_in result ≡ meaning.item_of (with_names (names_in ts scope.now)) (shape_of form.entry) }
{
    match form {
        Shape::Symbol(name) => item_bare(scope, name),
        Shape::QuotedSymbol(name) => item_named(scope, name),
        _ => Item::Other,
    }
}

/// What is asked for. Linear in the number of items, but for the look-ups of names.
pub(crate) fn items<'a>(
    alloc: Global,
    scope: &Scope,
    forms: Shapes<'a>,
) -> Result<Vec<Item<'a>>, AllocError>
    ensures { IfOk result
        (λ found. (ts : List Term) → map item_in found.items
        ≡ map (meaning.item_of (with_names (names_in ts scope.now))) (forms_in forms.entry)) }
{
    let mut found = Vec::new(alloc);
    let mut left = forms;
    while let Some((form, behind)) = left.split_first() {
        found.push(item_of(scope, form))?;
        left = behind;
    }
    Ok(found)
}

pub(crate) fn some_malformed(items: &[Item]) -> bool
    ensures { result ≡ meaning.some_malformed (map item_in items.now) }
{
    for item in items {
        if let Item::Malformed = item {
            return true;
        }
    }
    false
}

/// The first name that stands for nothing.
pub(crate) fn first_unknown<'a>(items: &[Item<'a>]) -> Option<&'a [u8]>
    ensures { option_copied result ≡ meaning.first_unknown (map item_in items.now) }
{
    for item in items {
        if let Item::Unknown(name) = item {
            return Some(name);
        }
    }
    None
}

/// The constants, where there is nothing else. Linear.
pub(crate) fn all_constants<'a>(
    alloc: Global,
    items: &[Item<'a>],
) -> Result<Option<Vec<Constant<'a>>>, AllocError>
    ensures { IfOk result
        (λ found. option_map (λ cs. map asked_in cs.items) found ≡ meaning.all_constants (map item_in items.now)) }
{
    let mut found = Vec::new(alloc);
    for item in items {
        let Item::Constant(constant) = item else {
            return Ok(None);
        };
        found.push(*constant)?;
    }
    Ok(Some(found))
}

/// Appends the literal of a word, without its quotes.
fn push_literal(alloc: Global, text: &mut Vec<u8>, word: &Word) -> Result<(), AllocError>
    ensures { OnOk result (text.new.items ≡ text.old.items ++ literal_text word.now) }
{
    let literal = print_literal(alloc, word)?;
    text.extend_from_slice(literal.as_bytes())
}

/// Appends the literal of the word at a place, which is the empty one where there is none.
fn push_literal_at(
    alloc: Global,
    text: &mut Vec<u8>,
    words: &[Word],
    place: usize,
) -> Result<(), AllocError>
    ensures { OnOk result (text.new.items ≡ text.old.items ++ literal_text (get_or words.now place [])) }
{
    match words.get(place) {
        Some(word) => push_literal(alloc, text, word),
        None => Ok(()),
    }
}

/// Appends a word as a literal between quotes: the one at a place, which is the empty one where there is none.
fn push_word(
    alloc: Global,
    text: &mut Vec<u8>,
    words: &[Word],
    place: usize,
) -> Result<(), AllocError>
    ensures { OnOk result (text.new.items ≡ text.old.items ++ value_printed words.now [] place terms.text) }
{
    text.push(b'"')?;
    push_literal_at(alloc, text, words, place)?;
    text.push(b'"')?;
    Ok(())
}

/// The truth value at a place, which is false where there is none.
fn truth_at(truths: &[bool], place: usize) -> bool
    ensures { result ≡ get_or truths.now place false }
{
    match truths.get(place) {
        Some(truth) => *truth,
        None => false,
    }
}

/// The name of a truth value.
fn truth_name(truth: bool) -> &'static [u8]
    ensures { result.now ≡ printed (Truth truth) }
{
    if truth { b"true" } else { b"false" }
}

/// The number that a constant of sort Int has, of which none is declared.
fn zero_text() -> &'static [u8]
    ensures { result.now ≡ printed (Int (pos 0)) }
{
    b"0"
}

/// Appends the value of a constant by its sort. A constant without a word has the empty one, and one without a truth
/// value is false.
fn push_value(
    alloc: Global,
    text: &mut Vec<u8>,
    words: &[Word],
    truths: &[bool],
    constant: &Constant,
) -> Result<(), AllocError>
    ensures { OnOk result (text.new.items ≡ text.old.items
        ++ value_printed words.now truths.now constant.now.serial.0 (sort_in constant.now.sort)) }
{
    let place = constant.serial.0 as usize;
    match constant.sort {
        Sort::Bool => text.extend_from_slice(truth_name(truth_at(truths, place))),
        Sort::String | Sort::RegLan => push_word(alloc, text, words, place),
        Sort::Int => text.extend_from_slice(zero_text()),
    }
}

/// The name of a sort.
fn sort_name(sort: Sort) -> &'static [u8]
    ensures { result.now ≡ meaning.sort_text (sort_in sort) }
{
    match sort {
        Sort::Bool => b"Bool",
        Sort::Int => b"Int",
        Sort::String => b"String",
        Sort::RegLan => b"RegLan",
    }
}

/// Appends `(define-fun c () String "word")`.
fn push_definition(
    alloc: Global,
    text: &mut Vec<u8>,
    words: &[Word],
    truths: &[bool],
    constant: &Constant,
) -> Result<(), AllocError>
    ensures { OnOk result
        (text.new.items ≡ text.old.items ++ definition_by words.now truths.now (constant_in constant.now)) }
{
    text.extend_from_slice(b"(define-fun ")?;
    push_name(text, constant.name)?;
    text.extend_from_slice(b" () ")?;
    text.extend_from_slice(sort_name(constant.sort))?;
    text.push(b' ')?;
    push_value(alloc, text, words, truths, constant)?;
    text.push(b')')?;
    Ok(())
}

/// Appends `(c "word")`.
fn push_answer(
    alloc: Global,
    text: &mut Vec<u8>,
    words: &[Word],
    truths: &[bool],
    constant: &Constant,
) -> Result<(), AllocError>
    ensures { OnOk result
        (text.new.items ≡ text.old.items ++ value_by words.now truths.now (asked_in constant.now)) }
{
    text.push(b'(')?;
    push_name(text, constant.name)?;
    text.push(b' ')?;
    push_value(alloc, text, words, truths, constant)?;
    text.push(b')')?;
    Ok(())
}

/// Appends the space in front of the entry at a place of a list, which the first has not.
pub(crate) fn push_gap(text: &mut Vec<u8>, place: usize) -> Result<(), AllocError>
    ensures { OnOk result (text.new.items ≡ text.old.items ++ gap_at place) }
{
    if place > 0 {
        text.push(b' ')?;
    }
    Ok(())
}

/// The line of a model: a definition for each constant. Linear in the line.
pub(crate) fn model_line(
    alloc: Global,
    words: &[Word],
    truths: &[bool],
    constants: &[Constant],
) -> Result<Vec<u8>, AllocError>
    ensures { IfOk result
        (λ text. text.items
        ≡ line
        (list_text (map (definition_by words.now truths.now) (map constant_in constants.now)))) }
{
    let mut text = Vec::from_slice(alloc, b"(")?;
    for (place, constant) in constants.iter().enumerate() {
        push_gap(&mut text, place)?;
        push_definition(alloc, &mut text, words, truths, constant)?;
    }
    text.extend_from_slice(b")\n")?;
    Ok(text)
}

/// The line of the values that were asked for. Linear in the line.
pub(crate) fn values_line(
    alloc: Global,
    words: &[Word],
    truths: &[bool],
    constants: &[Constant],
) -> Result<Vec<u8>, AllocError>
    ensures { IfOk result
        (λ text. text.items
        ≡ line
        (list_text (map (value_by words.now truths.now) (map asked_in constants.now)))) }
{
    let mut text = Vec::from_slice(alloc, b"(")?;
    for (place, constant) in constants.iter().enumerate() {
        push_gap(&mut text, place)?;
        push_answer(alloc, &mut text, words, truths, constant)?;
    }
    text.extend_from_slice(b")\n")?;
    Ok(text)
}
