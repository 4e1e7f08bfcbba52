//! The reading of terms.

ghost use Rattle.std.specs.Prelude.{◌≡◌, ℕ, ◌<◌, ◌++◌, true, List, [], ◌∷◌, length, not, None, Result, IfOk, OnOk, MatchResult, option_map, option_copied};
ghost use Rattle.sb_reader.specs.Forms.{Symbol, Group, none, more, shape_of, shapes_in};
ghost use Rattle.sb_script.specs.Names.{is_among};
ghost use Rattle.sb_script.specs.Reading.{read};
ghost use Rattle.sb_script.specs.Reading as meaning;
ghost use Rattle.sb_meaning.specs.Terms as terms;
ghost use Rattle.sb_term.specs.Numbered.{Extends};
ghost use Rattle.sb_term.specs.Serials.{all_below};
ghost use Rattle.sb_sorts.specs.Growth.{Grows, AreRead};
ghost use Rattle.sb_sorts.specs.Reads.{ReadsAs, Faults};
ghost use Rattle.sb_sorts.specs.Scopes.{names_in, AreBodies};
ghost use Rattle.sb_sorts.specs.Locals.{names_at, AreAt};
ghost use Rattle.sb_sorts.specs.Bodies.{bound_in};
ghost use Rattle.sb_sorts.specs.Binding.{pairs_of, locals_at, first_again_in, items_of, HasBound, HasParameters, symbol_of, list_of, is_let_word, binding_of, LetParts, LetIn};

use crate::apply::applied_to;
use crate::head::{Front, is_let, read_front, read_head};
use crate::locals::Locals;
use crate::names::{begins_term, is_reserved};
use crate::scope::Scope;
use crate::text::read_text;
use indexmap::IndexSet;
use sb_reader::{Shape, Shapes};
use sb_term::{Sort, Table, Term, TermId};
use smallvec::SmallVec;
use std::alloc::{AllocError, AllocFailed, Global};

/// Why a form is no term.
#[derive(Drop)]
pub enum ReadFault {
    /// A name that stands for nothing.
    UnknownSymbol(Vec<u8>),
    /// An argument of another sort than the symbol takes.
    WrongSort,
    /// Another number of arguments than the symbol takes.
    WrongCount,
    /// An index behind a symbol that takes none, indices of another number or kind than the symbol takes, or none.
    BadIndex,
    /// An index above 65,535.
    NumeralTooLarge,
    /// A term that is left out, or uses a marked name.
    Unsupported,
    /// A text with a byte that no literal has.
    BadLiteral,
    /// A list of wrong shape, or a reserved word.
    Malformed,
    /// A name that stands twice in one `let`.
    AlreadyBound(Vec<u8>),
    /// Want of memory.
    NoMemory,
}

impl From<AllocError> for ReadFault {
    ghost use Rattle.sb_sorts.specs.declared.read.ReadFault.TheVariants.{NoMemory};

    ghost from_gives = { λ _ error. error ≡ NoMemory };

    fn from(_error: AllocError) -> ReadFault {
        ReadFault::NoMemory
    }
}

impl From<AllocFailed<TermId>> for ReadFault {
    ghost use Rattle.sb_sorts.specs.declared.read.ReadFault.TheVariants.{NoMemory};

    ghost from_gives = { λ _ error. error ≡ NoMemory };

    fn from(_failed: AllocFailed<TermId>) -> ReadFault {
        ReadFault::NoMemory
    }
}

/// A parameter of a definition.
#[derive(Clone, Copy)]
pub struct Parameter<'a> {
    pub name: &'a [u8],
    pub sort: Sort,
}

/// A name that a `let` binds, with its value's term.
#[derive(Clone, Copy)]
struct Bound<'a> {
    name: &'a [u8],
    id: TermId,
}

/// Puts the term of a form into the table, and gives its number, or the first fault in reading order. The terms that
/// were there keep their numbers, whatever the answer; behind a fault the table may hold parts of the form. Linear in
/// the form, and for each use of a definition in the terms of its body in which parameters stand: each list's arguments are
/// collected once, and names and terms are looked up by hash.
pub fn read_term(
    alloc: Global,
    table: &mut Table,
    scope: &Scope,
    form: Shape<'_>,
) -> Result<TermId, ReadFault>
    requires bodies { AreBodies table.old scope.now }
    ensures reads { ReadsAs table.new (read (names_in table.old scope.now) (shape_of form.entry)) result }
    ensures extends { Extends table.old table.new }
    ensures declared { all_below (length scope.now.sorts) table.old ≡ true → all_below (length scope.now.sorts) table.new ≡ true }
{
    let mut locals = Locals::new(alloc);
    read_form(alloc, table, &mut locals, scope, form)
}

/// Puts the term of a definition's body into the table, in which each parameter stands for the argument at its place. As
/// [`read_term`].
pub fn read_body(
    alloc: Global,
    table: &mut Table,
    scope: &Scope,
    parameters: &[Parameter<'_>],
    form: Shape<'_>,
) -> Result<TermId, ReadFault>
    requires bodies { AreBodies table.old scope.now }
    ensures reads { ReadsAs table.new (read (bound_in 0 parameters.now ++ names_in table.old scope.now)
        (shape_of form.entry)) result }
    ensures extends { Extends table.old table.new }
    ensures declared { all_below (length scope.now.sorts) table.old ≡ true → all_below (length scope.now.sorts) table.new ≡ true }
{
    let mut locals = Locals::new(alloc);
    push_parameters(table, &mut locals, parameters)?;
    read_form(alloc, table, &mut locals, scope, form)
}

/// The number, where a term has room for it.
fn narrow(place: usize) -> Result<u32, AllocError>
    ensures { IfOk result (λ n. n ≡ place) }
{
    match u32::try_from(place) {
        Ok(place) => Ok(place),
        Err(_) => Err(AllocError),
    }
}

/// Binds parameters, from the last one, so that the first is the innermost.
fn push_parameters(
    table: &mut Table,
    locals: &mut Locals,
    parameters: &[Parameter<'_>],
) -> Result<(), AllocError>
    requires { locals.old ≡ [] }
    ensures ok { OnOk result (HasParameters table.new 0 parameters.now locals.new) }
    ensures grows { (n : ℕ) → Grows n table.old table.new }
{
    let mut place = parameters.len();
    while place > 0 {
        place -= 1;
        let Some(parameter) = parameters.get(place) else {
            unreachable!();
        };
        let number = narrow(place)?;
        let id = table.add(Term::Parameter(number, parameter.sort))?;
        locals.push(parameter.name, id)?;
    }
    Ok(())
}

/// The term of a form.
#[cycle(read)]
fn read_form(
    alloc: Global,
    table: &mut Table,
    locals: &mut Locals,
    scope: &Scope,
    form: Shape<'_>,
) -> Result<TermId, ReadFault>
    requires at { AreAt table.old locals.old scope.now }
    ensures reads { ReadsAs table.new (read (names_at table.old locals.old scope.now) (shape_of form.entry)) result }
    ensures grows { Grows (length scope.now.sorts) table.old table.new }
    ensures locals { OnOk result (locals.new ≡ locals.old) }
{
    match form {
        Shape::Symbol(name) => read_bare_name(alloc, table, locals, scope, name),
        Shape::QuotedSymbol(name) => read_name(alloc, table, locals, scope, name),
        Shape::Keyword(_) => Err(ReadFault::Malformed),
        Shape::Numeral(_) | Shape::OtherNumber(_) => Err(ReadFault::Unsupported),
        Shape::Text(bytes) => read_text(alloc, table, bytes),
        Shape::List(forms) => read_list(alloc, table, locals, scope, forms),
    }
}

/// The name that a symbol is, also where it is a reserved word.
fn symbol_in(form: Shape<'_>) -> Option<&[u8]>
    ensures { option_map (λ name. name.now) result ≡ symbol_of (shape_of form.entry) }
{
    match form {
        Shape::Symbol(name) => Some(name),
        Shape::QuotedSymbol(name) => Some(name),
        _ => None,
    }
}

/// The forms of a list.
fn list_in(form: Shape<'_>) -> Option<Shapes<'_>>
    ensures { option_map shapes_in result ≡ list_of (shape_of form.entry) }
{
    match form {
        Shape::List(forms) => Some(forms),
        _ => None,
    }
}

/// Whether the form is a bare `let`.
fn is_let_word(form: Shape<'_>) -> bool
    ensures { result ≡ is_let_word (shape_of form.entry) }
{
    match form {
        Shape::Symbol(name) => name == b"let".as_slice(),
        _ => false,
    }
}

/// The bindings and the body of forms that are `((name term) ..) term`.
fn let_parts(forms: Shapes<'_>) -> Option<(Shapes<'_>, Shape<'_>)>
    ensures { LetParts result (shapes_in forms.entry) }
{
    let Some((first, body)) = forms.pair() else {
        return None;
    };
    let Some(bindings) = list_in(first) else {
        return None;
    };
    if is_let(forms) {
        Some((bindings, body))
    } else {
        None
    }
}

/// What a list has behind a bare `let`, where it is one: its bindings and its body.
fn let_in(forms: Shapes<'_>) -> Option<(Shapes<'_>, Shape<'_>)>
    ensures { LetIn result (shapes_in forms.entry) }
{
    let Some((first, others)) = forms.split_first() else {
        return None;
    };
    if is_let_word(first) {
        let_parts(others)
    } else {
        None
    }
}

/// The term of a list.
#[cycle(read)]
fn read_list(
    alloc: Global,
    table: &mut Table,
    locals: &mut Locals,
    scope: &Scope,
    forms: Shapes<'_>,
) -> Result<TermId, ReadFault>
    requires at { AreAt table.old locals.old scope.now }
    ensures reads { ReadsAs table.new (meaning.read_list (names_at table.old locals.old scope.now) (shapes_in forms.entry)) result }
    ensures grows { Grows (length scope.now.sorts) table.old table.new }
    ensures locals { OnOk result (locals.new ≡ locals.old) }
{
    if let Some((bindings, body)) = let_in(forms) {
        return read_let(alloc, table, locals, scope, bindings, body);
    }
    let Some((first, others)) = forms.split_first() else {
        return Err(ReadFault::Malformed);
    };
    let front = read_front(alloc, locals, scope, first, others)?;
    match front {
        Front::Whole(head) => applied_to(alloc, table, head, SmallVec::new(alloc)),
        Front::Takes(head) => {
            let ids = read_all(alloc, table, locals, scope, others)?;
            applied_to(alloc, table, head, ids)
        }
    }
}

/// The terms of forms, from left to right.
#[cycle(read)]
fn read_all(
    alloc: Global,
    table: &mut Table,
    locals: &mut Locals,
    scope: &Scope,
    forms: Shapes<'_>,
) -> Result<SmallVec<TermId, 4>, ReadFault>
    requires at { AreAt table.old locals.old scope.now }
    ensures reads { MatchResult result
        (λ ids. AreRead table.new (meaning.read_all (names_at table.old locals.old scope.now) (shapes_in forms.entry)) ids.items)
        (λ fault. Faults (meaning.read_all (names_at table.old locals.old scope.now) (shapes_in forms.entry)) fault) }
    ensures grows { Grows (length scope.now.sorts) table.old table.new }
    ensures locals { OnOk result (locals.new ≡ locals.old) }
{
    let mut ids = SmallVec::new(alloc);
    let mut left = forms;
    while let Some((form, behind)) = left.split_first() {
        ids.push(read_form(alloc, table, locals, scope, form)?)?;
        left = behind;
    }
    Ok(ids)
}

/// The term of a `let`: the values are read in the outer scope, and bound at once.
#[cycle(read)]
fn read_let(
    alloc: Global,
    table: &mut Table,
    locals: &mut Locals,
    scope: &Scope,
    bindings: Shapes<'_>,
    body: Shape<'_>,
) -> Result<TermId, ReadFault>
    requires at { AreAt table.old locals.old scope.now }
    ensures reads { ReadsAs table.new (meaning.read_let (names_at table.old locals.old scope.now)
        (more (Group (shapes_in bindings.entry)) (more (shape_of body.entry) none))) result }
    ensures grows { Grows (length scope.now.sorts) table.old table.new }
    ensures locals { OnOk result (locals.new ≡ locals.old) }
{
    let outer = locals.len();
    let bound = read_bindings(alloc, table, locals, scope, bindings)?;
    bind_once(alloc, locals, bound)?;
    let term = read_form(alloc, table, locals, scope, body)?;
    locals.leave(outer);
    Ok(term)
}

/// The names of bindings and their values' terms, from left to right.
#[cycle(read)]
fn read_bindings<'a>(
    alloc: Global,
    table: &mut Table,
    locals: &mut Locals,
    scope: &Scope,
    bindings: Shapes<'a>,
) -> Result<Vec<Bound<'a>>, ReadFault>
    requires at { AreAt table.old locals.old scope.now }
    ensures reads { MatchResult result
        (λ bound. HasBound table.new (meaning.read_bindings (names_at table.old locals.old scope.now)
        (shapes_in bindings.entry)) (pairs_of bound.items))
        (λ fault. Faults (meaning.read_bindings (names_at table.old locals.old scope.now) (shapes_in bindings.entry)) fault) }
    ensures grows { Grows (length scope.now.sorts) table.old table.new }
    ensures locals { OnOk result (locals.new ≡ locals.old) }
{
    let mut bound = Vec::new(alloc);
    let mut left = bindings;
    while let Some((binding, behind)) = left.split_first() {
        let Some((name, value)) = binding_in(binding) else {
            return Err(ReadFault::Malformed);
        };
        let id = read_form(alloc, table, locals, scope, value)?;
        let Ok(()) = bound.push(Bound { name, id }) else {
            return Err(ReadFault::NoMemory);
        };
        left = behind;
    }
    Ok(bound)
}

/// The name and the value of a form that is `(name value)`.
fn binding_in(form: Shape<'_>) -> Option<(&[u8], Shape<'_>)>
    ensures { option_map (λ b. (b.0.now, shape_of b.1)) result ≡ binding_of (shape_of form.entry) }
{
    let Some(parts) = list_in(form) else {
        return None;
    };
    let Some((first, value)) = parts.pair() else {
        return None;
    };
    match symbol_in(first) {
        Some(name) => Some((name, value)),
        None => None,
    }
}

/// Binds names to their values' terms at once, unless two have one name: then the first name that stands again is the
/// fault. The first binding is the innermost.
fn bind_once(alloc: Global, locals: &mut Locals, bound: Vec<Bound<'_>>) -> Result<(), ReadFault>
    ensures { MatchResult result
        (λ _. (first_again_in (pairs_of bound.entry.items) ≡ None)
        × (locals.new ≡ pairs_of bound.entry.items ++ locals.old))
        (λ fault. (ts : List terms.Term) → Faults (meaning.once (locals_at ts (pairs_of bound.entry.items))) fault) }
{
    refuse_again(alloc, &bound)?;
    bind_all(locals, &bound)?;
    Ok(())
}

/// Refuses bindings of which two have one name: the first name that stands again counts.
fn refuse_again(alloc: Global, bound: &[Bound<'_>]) -> Result<(), ReadFault>
    ensures { MatchResult result (λ _. first_again_in (pairs_of bound.now) ≡ None)
        (λ fault. (ts : List terms.Term) → Faults (meaning.once (locals_at ts (pairs_of bound.now))) fault) }
{
    match first_again(alloc, bound)? {
        Some(name) => Err(ReadFault::AlreadyBound(Vec::from_slice(alloc, name)?)),
        None => Ok(()),
    }
}

/// The first name that stands again. By hash, linear.
fn first_again<'a>(alloc: Global, bound: &[Bound<'a>]) -> Result<Option<&'a [u8]>, AllocError>
    ensures { IfOk result (λ found. option_copied found ≡ first_again_in (pairs_of bound.now)) }
{
    let mut seen = IndexSet::new(alloc);
    for one in bound {
        if !is_new(alloc, &mut seen, one.name)? {
            return Ok(Some(one.name));
        }
    }
    Ok(None)
}

/// Puts a name among others, and whether it was not there.
fn is_new(alloc: Global, seen: &mut IndexSet<Vec<u8>>, name: &[u8]) -> Result<bool, AllocError>
    ensures new { IfOk result (λ new. new ≡ not (is_among (items_of seen.old.keys) name.now)) }
    ensures put { IfOk result (λ new. new ≡ true → items_of seen.new.keys ≡ items_of seen.old.keys ++ name.now ∷ []) }
{
    let key = Vec::from_slice(alloc, name)?;
    Ok(seen.insert(key)?)
}

/// Binds names, from the last one, so that the first is the innermost.
fn bind_all(locals: &mut Locals, bound: &[Bound<'_>]) -> Result<(), AllocError>
    ensures { OnOk result (locals.new ≡ pairs_of bound.now ++ locals.old) }
{
    let mut place = bound.len();
    while place > 0 {
        place -= 1;
        let Some(one) = bound.get(place) else {
            unreachable!();
        };
        locals.push(one.name, one.id)?;
    }
    Ok(())
}

/// The term of a name that stands alone.
fn read_name(
    alloc: Global,
    table: &mut Table,
    locals: &Locals,
    scope: &Scope,
    name: &[u8],
) -> Result<TermId, ReadFault>
    requires at { AreAt table.old locals.now scope.now }
    ensures reads { ReadsAs table.new (meaning.read_name (names_at table.old locals.now scope.now) name.now) result }
    ensures grows { Grows (length scope.now.sorts) table.old table.new }
{
    let head = read_head(alloc, locals, scope, name)?;
    applied_to(alloc, table, head, SmallVec::new(alloc))
}

/// The term of a symbol that stands alone and was not written between bars.
fn read_bare_name(
    alloc: Global,
    table: &mut Table,
    locals: &Locals,
    scope: &Scope,
    name: &[u8],
) -> Result<TermId, ReadFault>
    requires at { AreAt table.old locals.now scope.now }
    ensures reads { ReadsAs table.new (meaning.read (names_at table.old locals.now scope.now) (Symbol name.now)) result }
    ensures grows { Grows (length scope.now.sorts) table.old table.new }
{
    if begins_term(name) {
        Err(ReadFault::Unsupported)
    } else if is_reserved(name) {
        Err(ReadFault::Malformed)
    } else {
        read_name(alloc, table, locals, scope, name)
    }
}
