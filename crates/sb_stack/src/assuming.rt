//! Assumptions of a check (SMT-LIB 2.6, section 4.2.5).

ghost use Rattle.std.specs.Prelude.{◌≡◌, ◌==◌, List, [], ◌++◌, true, map, if◌then◌else◌, option_map, option_copied, IfOk, OnOk};
ghost use Rattle.sb_reader.specs.Forms.{Symbol, QuotedSymbol, Group, more, none, shape_of, shapes_in};
ghost use Rattle.sb_meaning.specs.Sorts.{is_same_sort};
ghost use Rattle.sb_meaning.specs.Terms.{Term, boolean};
ghost use Rattle.sb_script.specs.Errors as error;
ghost use Rattle.sb_script.specs.Replies as meaning;
ghost use Rattle.sb_script.specs.Steps.{line, list_text};
ghost use Rattle.sb_sorts.specs.Scopes.{names_in};
ghost use Rattle.sb_term.specs.Symbols.{sort_in};
ghost use Rattle.sb_stack.specs.Assumptions.{assumed_in, first_unknown_in, some_wrong_sort, all_literals, rise, named_by, assumption_said};
ghost use Rattle.sb_stack.specs.Commands.{forms_in};
ghost use Rattle.sb_stack.specs.Values.{constant_in, with_names};

use crate::command::symbol_in;
use crate::name::push_name;
use crate::value::{Constant, push_gap};
use sb_reader::{Shape, Shapes};
use sb_sorts::{Named, Scope, begins_term, is_theory_name};
use sb_term::{Serial, Sort};
use std::alloc::{AllocError, Global};
use std::marker::Model;

/// An assumption of a check: a declared constant of sort Bool, or its negation.
#[derive(Clone, Copy, PartialEq, Eq, Hash)]
pub struct Assumption {
    pub serial: Serial,
    /// Whether the constant itself is assumed, and not its negation.
    pub positive: bool,
}

impl Model for Assumption {
    ghost use Rattle.std.specs.Prelude.{ℕ, Bool};

    ghost Value = { ℕ × Bool };

    ghost view = { λ a. (a.serial.0, a.positive) };

    ghost inverse = { λ a. record { serial = record { 0 = a.0 }; positive = a.1 } };
}

impl Assumption {
    /// The constant's serial.
    pub fn serial(self) -> Serial
        ensures { result.0 ≡ self.0 }
    {
        self.serial
    }

    /// Whether the constant itself is assumed, and not its negation.
    pub fn is_positive(self) -> bool
        ensures { result ≡ self.1 }
    {
        self.positive
    }
}

/// What an item of a list of assumptions is.
#[derive(Clone, Copy)]
pub(crate) enum Assumed<'a> {
    /// A declared constant of sort Bool, and whether it is assumed itself, or its negation.
    Literal(Serial, bool),
    /// A name that stands for nothing.
    Unknown(&'a [u8]),
    /// A constant of another sort, or its negation.
    WrongSort,
    /// Known or composite, and no declared constant.
    NotALiteral,
}

/// What a constant is as an assumption, or its negation.
fn assumed_constant<'a>(serial: Serial, sort: Sort, positive: bool) -> Assumed<'a>
    ensures { assumed_in result
        ≡ (if is_same_sort boolean (sort_in sort) then meaning.an_assumption (serial.0, positive)
        else meaning.an_error error.wrong_sort) }
{
    match sort {
        Sort::Bool => Assumed::Literal(serial, positive),
        Sort::Int | Sort::String | Sort::RegLan => Assumed::WrongSort,
    }
}

/// What a name is as an assumption, or its negation.
fn assumed_name<'a>(scope: &Scope, positive: bool, name: &'a [u8]) -> Assumed<'a>
    ensures { (ts : List Term)
        → assumed_in result ≡ meaning.assumed_name (with_names (names_in ts scope.now)) positive name.now }
{
    match scope.named(name) {
        Some(Named::Constant(serial, sort)) => assumed_constant(*serial, *sort, positive),
        Some(Named::Definition(_)) => Assumed::NotALiteral,
        Some(Named::Marked) => Assumed::NotALiteral,
        None if is_theory_name(name) => Assumed::NotALiteral,
        None => Assumed::Unknown(name),
    }
}

/// What a symbol that was not written between bars is as an assumption, or its negation.
fn assumed_bare<'a>(scope: &Scope, positive: bool, name: &'a [u8]) -> Assumed<'a>
    ensures { (ts : List Term)
        → assumed_in result ≡ meaning.assumed_bare (with_names (names_in ts scope.now)) positive name.now }
{
    if begins_term(name) {
        Assumed::NotALiteral
    } else {
        assumed_name(scope, positive, name)
    }
}

/// Whether the form is the symbol `not`, written between bars or not.
fn is_not(form: Shape<'_>) -> bool
    ensures { result ≡ meaning.is_not (shape_of form.entry) }
{
    match symbol_in(form) {
        Some(name) => name == b"not".as_slice(),
        None => false,
    }
}

/// What a symbol without bars is as an assumption behind a head.
fn denied_bare<'a>(scope: &Scope, head: Shape<'_>, name: &'a [u8]) -> Assumed<'a>
    ensures { (ts : List Term) → assumed_in result
        ≡ meaning.assumed_form (with_names (names_in ts scope.now))
        (Group (more (shape_of head.entry) (more (Symbol name.now) none))) }
{
    if is_not(head) {
        assumed_bare(scope, false, name)
    } else {
        Assumed::NotALiteral
    }
}

/// What a symbol between bars is as an assumption behind a head.
fn denied_name<'a>(scope: &Scope, head: Shape<'_>, name: &'a [u8]) -> Assumed<'a>
    ensures { (ts : List Term) → assumed_in result
        ≡ meaning.assumed_form (with_names (names_in ts scope.now))
        (Group (more (shape_of head.entry) (more (QuotedSymbol name.now) none))) }
{
    if is_not(head) {
        assumed_name(scope, false, name)
    } else {
        Assumed::NotALiteral
    }
}

/// What a list of two forms is as an assumption: the first one is to be `not`.
fn assumed_behind<'a>(scope: &Scope, head: Shape<'_>, form: Shape<'a>) -> Assumed<'a>
    ensures { (ts : List Term) → assumed_in result
        ≡ meaning.assumed_form (with_names (names_in ts scope.now))
        (Group (more (shape_of head.entry) (more (shape_of form.entry) none))) }
{
    match form {
        Shape::Symbol(name) => denied_bare(scope, head, name),
        Shape::QuotedSymbol(name) => denied_name(scope, head, name),
        _ => Assumed::NotALiteral,
    }
}

fn assumed_list<'a>(scope: &Scope, forms: Shapes<'a>) -> Assumed<'a>
    ensures { (ts : List Term) → assumed_in result
        ≡ meaning.assumed_form (with_names (names_in ts scope.now)) (Group (shapes_in forms.entry)) }
{
    match forms.pair() {
        Some((head, form)) => assumed_behind(scope, head, form),
        None => Assumed::NotALiteral,
    }
}

fn assumed_form<'a>(scope: &Scope, form: Shape<'a>) -> Assumed<'a>
    ensures { (ts : List Term)
        → assumed_in result ≡ meaning.assumed_form (with_names (names_in ts scope.now)) (shape_of form.entry) }
{
    match form {
        Shape::Symbol(name) => assumed_bare(scope, true, name),
        Shape::QuotedSymbol(name) => assumed_name(scope, true, name),
        Shape::List(forms) => assumed_list(scope, forms),
        _ => Assumed::NotALiteral,
    }
}

/// What is assumed. Linear in the number of items, but for the look-ups of names.
pub(crate) fn assumed_forms<'a>(
    alloc: Global,
    scope: &Scope,
    forms: Shapes<'a>,
) -> Result<Vec<Assumed<'a>>, AllocError>
    ensures { IfOk result
        (λ found. (ts : List Term) → map assumed_in found.items
        ≡ map (meaning.assumed_form (with_names (names_in ts scope.now))) (forms_in forms.entry)) }
{
    let mut found = Vec::new(alloc);
    let mut left = forms;
    while let Some((form, behind)) = left.split_first() {
        found.push(assumed_form(scope, form))?;
        left = behind;
    }
    Ok(found)
}

/// The first name that stands for nothing.
pub(crate) fn first_unknown<'a>(items: &[Assumed<'a>]) -> Option<&'a [u8]>
    ensures { option_copied result ≡ first_unknown_in items.now }
{
    for item in items {
        if let Assumed::Unknown(name) = item {
            return Some(name);
        }
    }
    None
}

/// Whether a constant of another sort is among the items.
pub(crate) fn some_wrong_sort(items: &[Assumed]) -> bool
    ensures { result ≡ some_wrong_sort items.now }
{
    for item in items {
        if let Assumed::WrongSort = item {
            return true;
        }
    }
    false
}

/// The assumptions, where there is nothing else. Linear.
pub(crate) fn all_literals(
    alloc: Global,
    items: &[Assumed],
) -> Result<Option<Vec<Assumption>>, AllocError>
    ensures { IfOk result (λ found. option_map (λ all. all.items) found ≡ all_literals items.now) }
{
    let mut found = Vec::new(alloc);
    for item in items {
        let Assumed::Literal(serial, positive) = item else {
            return Ok(None);
        };
        found.push(Assumption {
            serial: *serial,
            positive: *positive,
        })?;
    }
    Ok(Some(found))
}

/// The name of a constant, where it is the one of the serial, else the empty one.
fn name_where<'a>(constant: &Constant<'a>, serial: Serial) -> &'a [u8]
    ensures { result.now ≡ (if constant.now.serial.0 == serial.0 then constant.now.name.now else []) }
{
    if constant.serial.0 == serial.0 {
        constant.name
    } else {
        b""
    }
}

/// The name of the constant of a serial, empty where there is none. The constants stand by rising serials. Logarithmic
/// in their number.
fn name_of<'a>(constants: &[Constant<'a>], serial: Serial) -> &'a [u8]
    requires { rise 0 (map (λ c. c.serial.0) constants.now) ≡ true }
    ensures { result.now ≡ meaning.name_of (map constant_in constants.now) serial.0 }
{
    let place = constants.partition_point(|constant| constant.serial.0 < serial.0);
    match constants.get(place) {
        Some(constant) => name_where(constant, serial),
        None => b"",
    }
}

/// Appends a name as a literal: the name, or `(not c)`.
fn push_signed(text: &mut Vec<u8>, name: &[u8], positive: bool) -> Result<(), AllocError>
    ensures { OnOk result (text.new.items ≡ text.old.items ++ assumption_said (name.now, positive)) }
{
    if positive {
        return push_name(text, name);
    }
    text.extend_from_slice(b"(not ")?;
    push_name(text, name)?;
    text.push(b')')?;
    Ok(())
}

/// Appends an assumption.
fn push_assumption(
    text: &mut Vec<u8>,
    constants: &[Constant],
    given: &Assumption,
) -> Result<(), AllocError>
    requires { rise 0 (map (λ c. c.serial.0) constants.now) ≡ true }
    ensures { OnOk result (text.new.items ≡ text.old.items
        ++ assumption_said (named_by (map constant_in constants.now) given.now)) }
{
    let name = name_of(constants, given.serial());
    push_signed(text, name, given.is_positive())
}

/// The line of assumptions. Linear in the line, but for a logarithm of the number of constants for each of them.
pub(crate) fn assumptions_line(
    alloc: Global,
    assumptions: &[Assumption],
    constants: &[Constant],
) -> Result<Vec<u8>, AllocError>
    requires { rise 0 (map (λ c. c.serial.0) constants.now) ≡ true }
    ensures { IfOk result
        (λ text. text.items
        ≡ line
        (list_text (map assumption_said (map (named_by (map constant_in constants.now)) assumptions.now)))) }
{
    let mut text = Vec::from_slice(alloc, b"(")?;
    for (place, assumption) in assumptions.iter().enumerate() {
        push_gap(&mut text, place)?;
        push_assumption(&mut text, constants, assumption)?;
    }
    text.extend_from_slice(b")\n")?;
    Ok(text)
}
