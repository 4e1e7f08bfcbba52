//! The heads of terms: names, names with indices, and what a list begins with.

ghost use Rattle.std.specs.Prelude.{◌≡◌, ℕ, true, ◌&&◌, List, length, codes, Result, Err, Some, IfOk, option_map, is_none};
ghost use Rattle.sb_script.specs.Symbols as theory_names;
ghost use Rattle.sb_script.specs.Names.{is_name};
ghost use Rattle.sb_script.specs.Scopes.{named};
ghost use Rattle.sb_script.specs.Commands.{declarable};
ghost use Rattle.sb_sorts.specs.Scopes.{named_in, is_body_below};
ghost use Rattle.sb_sorts.specs.NameTable.{named_below};
ghost use Rattle.sb_sorts.specs.Indices.{numeral_in, by_loop};
ghost use Rattle.sb_reader.specs.Forms.{shape_of, shapes_in};
ghost use Rattle.sb_script.specs.Reading as meaning;
ghost use Rattle.sb_script.specs.Heads as theory;
ghost use Rattle.sb_script.specs.Faults.{Fault};
ghost use Rattle.sb_meaning.specs.Terms.{Term};
ghost use Rattle.sb_sorts.specs.Locals.{names_at, AreAt};
ghost use Rattle.sb_sorts.specs.Heads.{head_in, head_below, has_number_below, is_of_theories, beginning_in, beginning_below, beginning_number_below, beginning_of, some_beginning, symbol_beginning, with_arguments, has_bindings, Beginning, Gives};
ghost use Rattle.sb_sorts.specs.Reads.{Faults};

use crate::annotation::is_annotation;
use crate::character::{Character, character_of};
use crate::locals::Locals;
use crate::names::{begins_term, is_indexed, is_left_out, is_reserved, symbol_named};
use crate::numeral::number_up_to;
use crate::read::ReadFault;
use crate::scope::{Definition, Named, Scope};
use sb_reader::{Shape, Shapes};
use sb_term::{Serial, Sort, Symbol, TermId};
use std::alloc::Global;

/// A head: a constant, the word of a character or a name that is bound, which take no arguments, a symbol of the
/// theories, or a definition.
#[derive(Clone, Copy)]
pub(crate) enum Head<'a> {
    Constant(Serial, Sort),
    Character(Character),
    Bound(TermId),
    Symbol(Symbol),
    Definition(&'a Definition),
}

/// The largest index.
const LAST_INDEX: usize = 65_535;

/// What a list begins with.
#[derive(Clone, Copy)]
pub(crate) enum Front<'a> {
    /// A name with indices, which ends the list.
    Whole(Head<'a>),
    /// A head, behind which its arguments follow.
    Takes(Head<'a>),
}

/// What a name is as a head: what is bound hides all else.
pub(crate) fn read_head<'a>(
    alloc: Global,
    locals: &Locals,
    scope: &'a Scope,
    name: &[u8],
) -> Result<Head<'a>, ReadFault>
    ensures reads { (ts : List Term) → Gives (head_in ts) (theory.read_head (names_at ts locals.now scope.now) name.now)
        result }
    ensures declared { IfOk result (λ head. head_below (length scope.now.sorts) head ≡ true) }
    ensures numbers { (ts : List Term) → AreAt ts locals.now scope.now → IfOk result
        (λ head. has_number_below (length ts) head ≡ true) }
{
    if let Some(id) = locals.get(name) {
        return Ok(Head::Bound(id));
    }
    match scope.look_up(name) {
        Some(named) => head_of(named),
        None => read_symbol(alloc, name),
    }
}

/// What a name of a scope is as a head, by what it stands for.
fn head_of(named: &Named) -> Result<Head<'_>, ReadFault>
    ensures reads { (ts : List Term) → Gives (head_in ts) (theory.head_of (named_in ts named.now)) result }
    ensures declared { (n : ℕ) → named_below n named.now ≡ true → IfOk result (λ head. head_below n head ≡ true) }
    ensures numbers { (n : ℕ) → is_body_below n named.now ≡ true
        → IfOk result (λ head. has_number_below n head ≡ true) }
{
    match named {
        Named::Constant(serial, sort) => Ok(Head::Constant(*serial, *sort)),
        Named::Definition(definition) => Ok(Head::Definition(definition)),
        Named::Marked => Err(ReadFault::Unsupported),
    }
}

/// What a name that is not declared is as a head.
fn read_symbol(alloc: Global, name: &[u8]) -> Result<Head<'static>, ReadFault>
    ensures reads { (ts : List Term) → Gives (head_in ts) (theory.head_of_theory name.now) result }
    ensures declared { IfOk result (λ head. is_of_theories head ≡ true) }
{
    match symbol_named(name) {
        Some(symbol) => Ok(Head::Symbol(symbol)),
        None if is_indexed(name) => Err(ReadFault::BadIndex),
        None if is_left_out(name) => Err(ReadFault::Unsupported),
        None => Err(ReadFault::UnknownSymbol(name.to_vec(alloc)?)),
    }
}

/// What `(_ char #xH)` is as a head, by its indices.
fn read_char(indices: Shapes<'_>) -> Result<Head<'static>, ReadFault>
    ensures reads { (ts : List Term) → Gives (head_in ts) (theory.character_word (shapes_in indices.entry)) result }
    ensures declared { IfOk result (λ head. is_of_theories head ≡ true) }
{
    let Some(index) = indices.only() else {
        return Err(ReadFault::BadIndex);
    };
    match character_of(index) {
        Some(character) => Ok(Head::Character(character)),
        None => Err(ReadFault::BadIndex),
    }
}

/// The digits of a form that is a numeral.
fn digits_of(form: Shape<'_>) -> Option<&[u8]>
    ensures { option_map (λ digits. digits.now) result ≡ numeral_in (shape_of form.entry) }
{
    match form {
        Shape::Numeral(digits) => Some(digits),
        _ => None,
    }
}

/// What `(_ re.^ n)` is as a head, by its indices.
fn read_power(indices: Shapes<'_>) -> Result<Head<'static>, ReadFault>
    ensures reads { (ts : List Term) → Gives (head_in ts)
        (theory.with_indices (codes "re.^") (theory.indices_of (shapes_in indices.entry)))
        result }
    ensures declared { IfOk result (λ head. is_of_theories head ≡ true) }
{
    let Some(index) = indices.only() else {
        return Err(ReadFault::BadIndex);
    };
    let Some(digits) = digits_of(index) else {
        return Err(ReadFault::BadIndex);
    };
    match number_up_to(digits, LAST_INDEX) {
        Some(count) => Ok(Head::Symbol(Symbol::RePower(count as u32))),
        None => Err(ReadFault::NumeralTooLarge),
    }
}

/// What `(_ re.loop n m)` is as a head, by its indices.
fn read_loop(indices: Shapes<'_>) -> Result<Head<'static>, ReadFault>
    ensures reads { (ts : List Term) → Gives (head_in ts)
        (theory.with_indices (codes "re.loop") (theory.indices_of (shapes_in indices.entry)))
        result }
    ensures declared { IfOk result (λ head. is_of_theories head ≡ true) }
{
    let Some((first, second)) = indices.pair() else {
        return Err(ReadFault::BadIndex);
    };
    let Some(first) = digits_of(first) else {
        return Err(ReadFault::BadIndex);
    };
    match digits_of(second) {
        Some(second) => loop_of(first, second),
        None => Err(ReadFault::BadIndex),
    }
}

/// What `(_ re.loop n m)` is as a head, by the digits of n and m.
fn loop_of(first: &[u8], second: &[u8]) -> Result<Head<'static>, ReadFault>
    ensures reads { (ts : List Term) → Gives (head_in ts) (by_loop (Some first.now) (Some second.now)) result }
    ensures declared { IfOk result (λ head. is_of_theories head ≡ true) }
{
    let Some(least) = number_up_to(first, LAST_INDEX) else {
        return Err(ReadFault::NumeralTooLarge);
    };
    match number_up_to(second, LAST_INDEX) {
        Some(most) => Ok(Head::Symbol(Symbol::ReLoop(least as u32, most as u32))),
        None => Err(ReadFault::NumeralTooLarge),
    }
}

/// What a symbol that takes indices is as a head, by its name and them.
fn read_with_indices(name: &[u8], indices: Shapes<'_>) -> Result<Head<'static>, ReadFault>
    ensures reads { (ts : List Term) → Gives (head_in ts)
        (theory.with_indices name.now (theory.indices_of (shapes_in indices.entry))) result }
    ensures declared { IfOk result (λ head. is_of_theories head ≡ true) }
{
    if name == b"re.^".as_slice() {
        read_power(indices)
    } else if name == b"re.loop".as_slice() {
        read_loop(indices)
    } else {
        Err(ReadFault::BadIndex)
    }
}

/// Whether the name stands for nothing that is bound or that the scope has.
fn is_free(locals: &Locals, scope: &Scope, name: &[u8]) -> bool
    ensures { (ts : List Term) → result ≡ is_none (named (names_at ts locals.now scope.now) name.now) }
{
    locals.get(name).is_none() && scope.look_up(name).is_none()
}

/// Whether the name is of a symbol that takes indices, and stands for nothing else.
fn takes_indices(locals: &Locals, scope: &Scope, name: &[u8]) -> bool
    ensures { (ts : List Term) → result ≡ theory_names.is_indexed name.now
        && is_none (named (names_at ts locals.now scope.now) name.now) }
{
    is_indexed(name) && is_free(locals, scope, name)
}

/// Whether the name is `char`, and stands for nothing else.
fn takes_character(locals: &Locals, scope: &Scope, name: &[u8]) -> bool
    ensures { (ts : List Term) → result ≡ is_name name.now (codes "char")
        && is_none (named (names_at ts locals.now scope.now) name.now) }
{
    name == b"char".as_slice() && is_free(locals, scope, name)
}

/// What a name with indices is as a head: `re.^` and `re.loop` take some, and `char` takes one, where they stand for
/// nothing else.
fn read_indexed(
    alloc: Global,
    locals: &Locals,
    scope: &Scope,
    name: &[u8],
    indices: Shapes<'_>,
) -> Result<Head<'static>, ReadFault>
    ensures reads { (ts : List Term) → Gives (head_in ts)
        (theory.read_indexed (names_at ts locals.now scope.now) name.now (shapes_in indices.entry)) result }
    ensures declared { IfOk result (λ head. is_of_theories head ≡ true) }
{
    if takes_indices(locals, scope, name) {
        return read_with_indices(name, indices);
    }
    if takes_character(locals, scope, name) {
        return read_char(indices);
    }
    match read_head(alloc, locals, scope, name) {
        Ok(_) => Err(ReadFault::BadIndex),
        Err(fault) => Err(fault),
    }
}

/// The name that a form is: a symbol, but no reserved word.
pub(crate) fn name_of(form: Shape<'_>) -> Option<&[u8]>
    ensures { option_map (λ name. name.now) result ≡ declarable (shape_of form.entry) }
{
    match form {
        Shape::Symbol(name) if !is_reserved(name) => Some(name),
        Shape::QuotedSymbol(name) => Some(name),
        _ => None,
    }
}

/// What `(_ name index ..)` is as a head, without the underscore.
fn read_index_list(
    alloc: Global,
    locals: &Locals,
    scope: &Scope,
    forms: Shapes<'_>,
) -> Result<Head<'static>, ReadFault>
    ensures reads { (ts : List Term) → Gives (head_in ts)
        (meaning.read_index_list (names_at ts locals.now scope.now) (shapes_in forms.entry)) result }
    ensures declared { IfOk result (λ head. is_of_theories head ≡ true) }
{
    let Some((first, indices)) = forms.split_first() else {
        return Err(ReadFault::Malformed);
    };
    if indices.is_empty() {
        return Err(ReadFault::Malformed);
    }
    match name_of(first) {
        Some(name) => read_indexed(alloc, locals, scope, name, indices),
        None => Err(ReadFault::Malformed),
    }
}

/// What a list is as the head of a list.
fn read_list_head(
    alloc: Global,
    locals: &Locals,
    scope: &Scope,
    forms: Shapes<'_>,
) -> Result<Head<'static>, ReadFault>
    ensures reads { (ts : List Term) → Gives (head_in ts)
        (meaning.read_list_head (names_at ts locals.now scope.now) (shapes_in forms.entry)) result }
    ensures declared { IfOk result (λ head. is_of_theories head ≡ true) }
{
    let Some((first, rest)) = forms.split_first() else {
        return Err(ReadFault::Malformed);
    };
    let Shape::Symbol(name) = first else {
        return Err(ReadFault::Malformed);
    };
    if name == b"_".as_slice() {
        read_index_list(alloc, locals, scope, rest)
    } else if name == b"as".as_slice() {
        Err(ReadFault::Unsupported)
    } else {
        Err(ReadFault::Malformed)
    }
}

/// Whether the form is `(name term)`, as in a `let`.
fn is_binding(form: Shape<'_>) -> bool
    ensures { result ≡ meaning.is_binding (shape_of form.entry) }
{
    let Shape::List(parts) = form else {
        return false;
    };
    match parts.pair() {
        Some((first, _)) => name_of(first).is_some(),
        None => false,
    }
}

/// Whether each form is `(name term)`.
fn are_bindings(forms: Shapes<'_>) -> bool
    ensures { result ≡ meaning.are_bindings (shapes_in forms.entry) }
{
    let mut left = forms;
    while let Some((form, behind)) = left.split_first() {
        if !is_binding(form) {
            return false;
        }
        left = behind;
    }
    true
}

/// Whether the form is `((name term) ..)`.
fn has_bindings(form: Shape<'_>) -> bool
    ensures { result ≡ has_bindings (shape_of form.entry) }
{
    match form {
        Shape::List(bindings) => !bindings.is_empty() && are_bindings(bindings),
        _ => false,
    }
}

/// Whether the forms are `((name term) ..) term`.
pub(crate) fn is_let(forms: Shapes<'_>) -> bool
    ensures { result ≡ meaning.is_let (shapes_in forms.entry) }
{
    match forms.pair() {
        Some((bindings, _)) => has_bindings(bindings),
        None => false,
    }
}

/// Whether a list has the shape that its head, a reserved word, asks for.
fn has_shape_of(name: &[u8], arguments: Shapes<'_>) -> bool
    ensures { result ≡ meaning.has_shape_of name.now (shapes_in arguments.entry) }
{
    if name == b"!".as_slice() {
        is_annotation(arguments)
    } else if name == b"let".as_slice() {
        is_let(arguments)
    } else {
        begins_term(name)
    }
}

/// The fault of a list whose head is a reserved word; a `let` of its shape is read elsewhere.
fn read_reserved(name: &[u8], arguments: Shapes<'_>) -> ReadFault
    ensures { Faults {A = Beginning} (Err (meaning.read_reserved name.now (shapes_in arguments.entry))) result }
{
    if has_shape_of(name, arguments) {
        ReadFault::Unsupported
    } else {
        ReadFault::Malformed
    }
}

/// The head, behind which its arguments follow.
fn takes_arguments<'a>(head: Result<Head<'a>, ReadFault>) -> Result<Front<'a>, ReadFault>
    ensures reads { (ts : List Term) (reading : Result theory.Head Fault) → Gives (head_in ts) reading head.entry
        → Gives (beginning_in ts) (with_arguments reading) result }
    ensures declared { (n : ℕ) → IfOk head.entry (λ h. head_below n h ≡ true)
        → IfOk result (λ front. beginning_below n front ≡ true) }
    ensures numbers { (n : ℕ) → IfOk head.entry (λ h. has_number_below n h ≡ true)
        → IfOk result (λ front. beginning_number_below n front ≡ true) }
{
    Ok(Front::Takes(head?))
}

/// What a list begins with whose first form is a symbol.
fn read_symbol_front<'a>(
    alloc: Global,
    locals: &Locals,
    scope: &'a Scope,
    name: &[u8],
    others: Shapes<'_>,
) -> Result<Front<'a>, ReadFault>
    ensures reads { (ts : List Term) → Gives (beginning_in ts)
        (symbol_beginning (names_at ts locals.now scope.now) name.now (shapes_in others.entry)) result }
    ensures declared { IfOk result (λ front. beginning_below (length scope.now.sorts) front ≡ true) }
    ensures numbers { (ts : List Term) → AreAt ts locals.now scope.now
        → IfOk result (λ front. beginning_number_below (length ts) front ≡ true) }
{
    if name == b"_".as_slice() {
        Ok(Front::Whole(read_index_list(alloc, locals, scope, others)?))
    } else if is_reserved(name) {
        Err(read_reserved(name, others))
    } else {
        takes_arguments(read_head(alloc, locals, scope, name))
    }
}

/// What a list begins with that has more forms than its first.
fn read_some_front<'a>(
    alloc: Global,
    locals: &Locals,
    scope: &'a Scope,
    first: Shape<'_>,
    others: Shapes<'_>,
) -> Result<Front<'a>, ReadFault>
    ensures reads { (ts : List Term) → Gives (beginning_in ts)
        (some_beginning (names_at ts locals.now scope.now) (shape_of first.entry) (shapes_in others.entry))
        result }
    ensures declared { IfOk result (λ front. beginning_below (length scope.now.sorts) front ≡ true) }
    ensures numbers { (ts : List Term) → AreAt ts locals.now scope.now
        → IfOk result (λ front. beginning_number_below (length ts) front ≡ true) }
{
    match first {
        Shape::Symbol(name) => read_symbol_front(alloc, locals, scope, name, others),
        Shape::QuotedSymbol(name) => takes_arguments(read_head(alloc, locals, scope, name)),
        Shape::List(forms) => takes_arguments(read_list_head(alloc, locals, scope, forms)),
        _ => Err(ReadFault::Malformed),
    }
}

/// What a list begins with, by its first form and the others.
pub(crate) fn read_front<'a>(
    alloc: Global,
    locals: &Locals,
    scope: &'a Scope,
    first: Shape<'_>,
    others: Shapes<'_>,
) -> Result<Front<'a>, ReadFault>
    ensures reads { (ts : List Term) → Gives (beginning_in ts)
        (beginning_of (names_at ts locals.now scope.now) (shape_of first.entry) (shapes_in others.entry))
        result }
    ensures declared { IfOk result (λ front. beginning_below (length scope.now.sorts) front ≡ true) }
    ensures numbers { (ts : List Term) → AreAt ts locals.now scope.now
        → IfOk result (λ front. beginning_number_below (length ts) front ≡ true) }
{
    if others.is_empty() {
        return Err(ReadFault::Malformed);
    }
    read_some_front(alloc, locals, scope, first, others)
}
