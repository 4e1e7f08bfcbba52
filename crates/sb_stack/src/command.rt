//! Commands: what a form asks for, by its shape alone (SMT-LIB 2.6, section 3.9).

ghost use Rattle.std.specs.Prelude.{◌≡◌, [], ◌∷◌, option_map, option_copied};
ghost use Rattle.std.specs.List.{list_all};
ghost use Rattle.sb_reader.specs.Forms.{Symbol, Group, none, more, form_of, shape_of, shapes_in};
ghost use Rattle.sb_script.specs.Commands as meaning;
ghost use Rattle.sb_script.specs.Names.{found_in};
ghost use Rattle.sb_script.specs.Options as option;
ghost use Rattle.sb_script.specs.Replies as reply;
ghost use Rattle.sb_script.specs.Steps.{succeeds};
ghost use Rattle.sb_stack.specs.Commands.{effect_of, shape_in, forms_in, keyword_in, numeral_in, levels_in};

use sb_reader::{Sexpr, Shape, Shapes};
use sb_sorts::{begins_term, is_reserved, look_up};

/// A command, which borrows from its form.
#[derive(Clone, Copy)]
pub(crate) enum Command<'a> {
    SetLogic(&'a [u8]),
    /// The option's keyword, and its value.
    SetOption(&'a [u8], Shape<'a>),
    /// The keyword of the option that is asked for.
    GetOption(&'a [u8]),
    /// Information, which is not kept.
    SetInfo,
    /// The keyword of the information that is asked for.
    GetInfo(&'a [u8]),
    /// The constant's name, and its sort.
    DeclareConstant(&'a [u8], Shape<'a>),
    /// A declaration of a function, which is left out.
    DeclareFunction(&'a [u8]),
    /// The name that is defined, the parameters with their sorts, the sort of what is made of arguments, and the body.
    DefineFunction {
        name: &'a [u8],
        parameters: Shapes<'a>,
        sort: Shape<'a>,
        body: Shape<'a>,
    },
    Assert(Shape<'a>),
    /// So many levels, by the digits of their number.
    Push(&'a [u8]),
    Pop(&'a [u8]),
    CheckSat,
    /// The assumptions under which a check is asked for.
    CheckSatAssuming(Shapes<'a>),
    GetModel,
    /// The terms whose values are asked for.
    GetValue(Shapes<'a>),
    GetUnsatAssumptions,
    /// The text, as it was written between its quotes.
    Echo(&'a [u8]),
    ResetAssertions,
    Reset,
    Exit,
    /// A command that is left out.
    Another,
}

/// The commands whose shapes are looked at, by what follows their names.
#[derive(Clone, Copy)]
pub(crate) enum Kind {
    Assert,
    DeclareConst,
    DeclareFun,
    DefineFun,
    Push,
    Pop,
    CheckSat,
    CheckSatAssuming,
    GetModel,
    GetValue,
    GetUnsatAssumptions,
    GetUnsatCore,
    SetLogic,
    SetOption,
    GetOption,
    SetInfo,
    GetInfo,
    Echo,
    ResetAssertions,
    Reset,
    Exit,
}

/// The commands whose shapes are looked at, by their names.
const KINDS: &[(&[u8], Kind)] = &[
    (b"assert", Kind::Assert),
    (b"declare-const", Kind::DeclareConst),
    (b"declare-fun", Kind::DeclareFun),
    (b"define-fun", Kind::DefineFun),
    (b"push", Kind::Push),
    (b"pop", Kind::Pop),
    (b"check-sat", Kind::CheckSat),
    (b"check-sat-assuming", Kind::CheckSatAssuming),
    (b"get-model", Kind::GetModel),
    (b"get-value", Kind::GetValue),
    (b"get-unsat-assumptions", Kind::GetUnsatAssumptions),
    (b"get-unsat-core", Kind::GetUnsatCore),
    (b"set-logic", Kind::SetLogic),
    (b"set-option", Kind::SetOption),
    (b"get-option", Kind::GetOption),
    (b"set-info", Kind::SetInfo),
    (b"get-info", Kind::GetInfo),
    (b"echo", Kind::Echo),
    (b"reset-assertions", Kind::ResetAssertions),
    (b"reset", Kind::Reset),
    (b"exit", Kind::Exit),
];

/// The command of a form, or `None` where the form is malformed. Linear in the form.
pub(crate) fn command_of(form: &Sexpr) -> Option<Command<'_>>
    ensures { option_map effect_of result ≡ reply.command_of (form_of form.now) }
{
    match form.shape() {
        Shape::List(forms) => command_in(forms),
        _ => None,
    }
}

/// The command of a list.
fn command_in(forms: Shapes<'_>) -> Option<Command<'_>>
    ensures { option_map effect_of result ≡ reply.command_of (Group (shapes_in forms.entry)) }
{
    let Some((head, arguments)) = forms.split_first() else {
        return None;
    };
    match head {
        Shape::Symbol(name) => shaped(name, arguments),
        _ => None,
    }
}

/// A command by its name, with what follows the name.
fn shaped<'a>(name: &[u8], arguments: Shapes<'a>) -> Option<Command<'a>>
    ensures { option_map effect_of result ≡ reply.shaped name.now (forms_in arguments.entry) }
{
    match kind_named(name) {
        Some(kind) => shaped_as(kind, arguments),
        None => Some(Command::Another),
    }
}

/// The kind of the commands of this name, where their shapes are looked at.
fn kind_named(name: &[u8]) -> Option<Kind>
    ensures { option_map shape_in result ≡ found_in reply.commands name.now }
{
    look_up(KINDS, name)
}

/// A command of this kind, with what follows its name.
fn shaped_as<'a>(kind: Kind, arguments: Shapes<'a>) -> Option<Command<'a>>
    ensures { option_map effect_of result ≡ shape_in kind (forms_in arguments.entry) }
{
    match kind {
        Kind::Assert => assert_shape(arguments),
        Kind::DeclareConst => constant_shape(arguments),
        Kind::DeclareFun => function_shape(arguments),
        Kind::DefineFun => definition_shape(arguments),
        Kind::Push => push_shape(arguments),
        Kind::Pop => pop_shape(arguments),
        Kind::CheckSat => bare(Command::CheckSat, arguments),
        Kind::CheckSatAssuming => assuming_shape(arguments),
        Kind::GetModel => bare(Command::GetModel, arguments),
        Kind::GetValue => value_shape(arguments),
        Kind::GetUnsatAssumptions => bare(Command::GetUnsatAssumptions, arguments),
        Kind::GetUnsatCore => bare(Command::Another, arguments),
        Kind::SetLogic => logic_shape(arguments),
        Kind::SetOption => option_shape(arguments),
        Kind::GetOption => asked_option_shape(arguments),
        Kind::SetInfo => info_shape(arguments),
        Kind::GetInfo => asked_info_shape(arguments),
        Kind::Echo => echo_shape(arguments),
        Kind::ResetAssertions => bare(Command::ResetAssertions, arguments),
        Kind::Reset => bare(Command::Reset, arguments),
        Kind::Exit => bare(Command::Exit, arguments),
    }
}

/// The name of a symbol, written between bars or not.
pub(crate) fn symbol_in(form: Shape<'_>) -> Option<&[u8]>
    ensures { option_copied result ≡ meaning.symbol_in (shape_of form.entry) }
{
    match form {
        Shape::Symbol(name) | Shape::QuotedSymbol(name) => Some(name),
        _ => None,
    }
}

/// The name, where it may be declared: no reserved word, unless it is written between bars.
pub(crate) fn declarable(form: Shape<'_>) -> Option<&[u8]>
    ensures { option_copied result ≡ meaning.declarable (shape_of form.entry) }
{
    match form {
        Shape::Symbol(name) if !is_reserved(name) => Some(name),
        Shape::QuotedSymbol(name) => Some(name),
        _ => None,
    }
}

/// A sort by its shape: a symbol, or a list that begins with one.
fn is_sort(form: Shape<'_>) -> bool
    ensures { result ≡ meaning.is_sort_form (shape_of form.entry) }
{
    match form {
        Shape::Symbol(_) | Shape::QuotedSymbol(_) => true,
        Shape::List(forms) => begins_with_symbol(forms),
        _ => false,
    }
}

/// Whether the first form is a symbol.
fn begins_with_symbol(forms: Shapes<'_>) -> bool
    ensures { result ≡ meaning.is_sort_form (Group (shapes_in forms.entry)) }
{
    match forms.split_first() {
        Some((first, _)) => symbol_in(first).is_some(),
        None => false,
    }
}

/// `(name sort)`, a parameter of a definition.
fn is_parameter(form: Shape<'_>) -> bool
    ensures { result ≡ meaning.is_parameter (shape_of form.entry) }
{
    match form {
        Shape::List(forms) => are_name_and_sort(forms),
        _ => false,
    }
}

fn are_name_and_sort(forms: Shapes<'_>) -> bool
    ensures { result ≡ meaning.is_parameter (Group (shapes_in forms.entry)) }
{
    match forms.pair() {
        Some((name, sort)) => declarable(name).is_some() && is_sort(sort),
        None => false,
    }
}

/// What may stand in a list of terms whose values are asked for.
fn is_item(form: Shape<'_>) -> bool
    ensures { result ≡ meaning.is_item (shape_of form.entry) }
{
    !matches!(form, Shape::Keyword(_))
}

fn are_sorts(forms: Shapes<'_>) -> bool
    ensures { result ≡ list_all meaning.is_sort_form (forms_in forms.entry) }
{
    let mut left = forms;
    while let Some((form, behind)) = left.split_first() {
        if !is_sort(form) {
            return false;
        }
        left = behind;
    }
    true
}

fn are_parameters(forms: Shapes<'_>) -> bool
    ensures { result ≡ list_all meaning.is_parameter (forms_in forms.entry) }
{
    let mut left = forms;
    while let Some((form, behind)) = left.split_first() {
        if !is_parameter(form) {
            return false;
        }
        left = behind;
    }
    true
}

fn are_items(forms: Shapes<'_>) -> bool
    ensures { result ≡ list_all meaning.is_item (forms_in forms.entry) }
{
    let mut left = forms;
    while let Some((form, behind)) = left.split_first() {
        if !is_item(form) {
            return false;
        }
        left = behind;
    }
    true
}

fn logic_shape(arguments: Shapes<'_>) -> Option<Command<'_>>
    ensures { option_map effect_of result ≡ meaning.logic_shape option.set_logic (forms_in arguments.entry) }
{
    match arguments.only() {
        Some(logic) => match symbol_in(logic) {
            Some(name) => Some(Command::SetLogic(name)),
            None => None,
        },
        None => None,
    }
}

fn option_shape(arguments: Shapes<'_>) -> Option<Command<'_>>
    ensures { option_map effect_of result ≡ meaning.option_shape option.set_option (forms_in arguments.entry) }
{
    match arguments.pair() {
        Some((key, value)) => option_of(key, value),
        None => None,
    }
}

/// An option by its keyword and its value.
fn option_of<'a>(key: Shape<'a>, value: Shape<'a>) -> Option<Command<'a>>
    ensures { option_map effect_of result
        ≡ meaning.option_shape option.set_option (shape_of key.entry ∷ shape_of value.entry ∷ []) }
{
    match key {
        Shape::Keyword(key) => Some(Command::SetOption(key, value)),
        _ => None,
    }
}

/// The keyword that a form is.
fn keyword_in(form: Shape<'_>) -> Option<&[u8]>
    ensures { option_copied result ≡ keyword_in (shape_of form.entry) }
{
    match form {
        Shape::Keyword(key) => Some(key),
        _ => None,
    }
}

fn asked_option_shape(arguments: Shapes<'_>) -> Option<Command<'_>>
    ensures { option_map effect_of result ≡ meaning.keyword_shape option.get_option (forms_in arguments.entry) }
{
    match arguments.only() {
        Some(form) => match keyword_in(form) {
            Some(key) => Some(Command::GetOption(key)),
            None => None,
        },
        None => None,
    }
}

fn asked_info_shape(arguments: Shapes<'_>) -> Option<Command<'_>>
    ensures { option_map effect_of result ≡ meaning.keyword_shape option.get_info (forms_in arguments.entry) }
{
    match arguments.only() {
        Some(form) => match keyword_in(form) {
            Some(key) => Some(Command::GetInfo(key)),
            None => None,
        },
        None => None,
    }
}

/// A keyword, and anything behind it.
fn info_shape(arguments: Shapes<'_>) -> Option<Command<'_>>
    ensures { option_map effect_of result ≡ meaning.info_shape succeeds (forms_in arguments.entry) }
{
    let Some((first, _)) = arguments.split_first() else {
        return None;
    };
    match keyword_in(first) {
        Some(_) => Some(Command::SetInfo),
        None => None,
    }
}

fn echo_shape(arguments: Shapes<'_>) -> Option<Command<'_>>
    ensures { option_map effect_of result ≡ meaning.echo_shape reply.echo (forms_in arguments.entry) }
{
    match arguments.only() {
        Some(text) => echo_of(text),
        None => None,
    }
}

/// The echo of a text.
fn echo_of(text: Shape<'_>) -> Option<Command<'_>>
    ensures { option_map effect_of result ≡ meaning.echo_shape reply.echo (shape_of text.entry ∷ []) }
{
    match text {
        Shape::Text(bytes) => Some(Command::Echo(bytes)),
        _ => None,
    }
}

fn constant_shape(arguments: Shapes<'_>) -> Option<Command<'_>>
    ensures { option_map effect_of result ≡ meaning.constant_shape reply.declare_constant (forms_in arguments.entry) }
{
    match arguments.pair() {
        Some((name, sort)) => constant_of(name, sort),
        None => None,
    }
}

/// A constant by its name and its sort.
fn constant_of<'a>(name: Shape<'a>, sort: Shape<'a>) -> Option<Command<'a>>
    ensures { option_map effect_of result
        ≡ meaning.constant_shape reply.declare_constant (shape_of name.entry ∷ shape_of sort.entry ∷ []) }
{
    if !is_sort(sort) {
        return None;
    }
    match declarable(name) {
        Some(name) => Some(Command::DeclareConstant(name, sort)),
        None => None,
    }
}

fn function_shape(arguments: Shapes<'_>) -> Option<Command<'_>>
    ensures { option_map effect_of result ≡ meaning.function_shape reply.function_of (forms_in arguments.entry) }
{
    let Some((name, rest)) = arguments.split_first() else {
        return None;
    };
    match rest.pair() {
        Some((sorts, sort)) => function_of(name, sorts, sort),
        None => None,
    }
}

/// A function by its name, the sorts of its arguments and its own.
fn function_of<'a>(name: Shape<'a>, sorts: Shape<'_>, sort: Shape<'a>) -> Option<Command<'a>>
    ensures { option_map effect_of result
        ≡ meaning.function_shape reply.function_of
        (shape_of name.entry ∷ shape_of sorts.entry ∷ shape_of sort.entry ∷ []) }
{
    match sorts {
        Shape::List(sorts) => function_from(name, sorts, sort),
        _ => None,
    }
}

/// A function from arguments of these sorts. One without arguments is a constant.
fn function_from<'a>(name: Shape<'a>, sorts: Shapes<'_>, sort: Shape<'a>) -> Option<Command<'a>>
    ensures { option_map effect_of result
        ≡ meaning.function_shape reply.function_of
        (shape_of name.entry ∷ Group (shapes_in sorts.entry) ∷ shape_of sort.entry ∷ []) }
{
    if !are_sorts(sorts) || !is_sort(sort) {
        return None;
    }
    let Some(name) = declarable(name) else {
        return None;
    };
    if sorts.is_empty() {
        return Some(Command::DeclareConstant(name, sort));
    }
    Some(Command::DeclareFunction(name))
}

fn definition_shape(arguments: Shapes<'_>) -> Option<Command<'_>>
    ensures { option_map effect_of result ≡ meaning.definition_shape reply.definition_of (forms_in arguments.entry) }
{
    let Some((name, behind)) = arguments.split_first() else {
        return None;
    };
    let Some((parameters, rest)) = behind.split_first() else {
        return None;
    };
    match rest.pair() {
        Some((sort, body)) => definition_of(name, parameters, sort, body),
        None => None,
    }
}

/// A definition by its name, its parameters, its sort and its body.
fn definition_of<'a>(
    name: Shape<'a>,
    parameters: Shape<'a>,
    sort: Shape<'a>,
    body: Shape<'a>,
) -> Option<Command<'a>>
    ensures { option_map effect_of result
        ≡ meaning.definition_shape reply.definition_of
        (shape_of name.entry ∷ shape_of parameters.entry ∷ shape_of sort.entry ∷ shape_of body.entry ∷ []) }
{
    match parameters {
        Shape::List(parameters) => definition_from(name, parameters, sort, body),
        _ => None,
    }
}

/// A definition over a list of parameters.
fn definition_from<'a>(
    name: Shape<'a>,
    parameters: Shapes<'a>,
    sort: Shape<'a>,
    body: Shape<'a>,
) -> Option<Command<'a>>
    ensures { option_map effect_of result
        ≡ meaning.definition_shape reply.definition_of
        (shape_of name.entry ∷ Group (shapes_in parameters.entry) ∷ shape_of sort.entry ∷ shape_of body.entry ∷ []) }
{
    if !are_parameters(parameters) || !is_sort(sort) {
        return None;
    }
    match declarable(name) {
        Some(name) => Some(Command::DefineFunction {
            name,
            parameters,
            sort,
            body,
        }),
        None => None,
    }
}

fn assert_shape(arguments: Shapes<'_>) -> Option<Command<'_>>
    ensures { option_map effect_of result ≡ meaning.assert_shape reply.assert (forms_in arguments.entry) }
{
    match arguments.only() {
        Some(term) => Some(Command::Assert(term)),
        None => None,
    }
}

fn push_shape(arguments: Shapes<'_>) -> Option<Command<'_>>
    ensures { option_map effect_of result ≡ meaning.levels_shape reply.push (forms_in arguments.entry) }
{
    match levels_in(arguments) {
        Some(digits) => Some(Command::Push(digits)),
        None => None,
    }
}

fn pop_shape(arguments: Shapes<'_>) -> Option<Command<'_>>
    ensures { option_map effect_of result ≡ meaning.levels_shape reply.pop (forms_in arguments.entry) }
{
    match levels_in(arguments) {
        Some(digits) => Some(Command::Pop(digits)),
        None => None,
    }
}

/// The digits of a number of levels: one level where no number stands.
fn levels_in(arguments: Shapes<'_>) -> Option<&[u8]>
    ensures { option_copied result ≡ levels_in (shapes_in arguments.entry) }
{
    if arguments.is_empty() {
        return Some(b"1");
    }
    match arguments.only() {
        Some(form) => numeral_in(form),
        None => None,
    }
}

/// The digits of the numeral that a form is.
fn numeral_in(form: Shape<'_>) -> Option<&[u8]>
    ensures { option_copied result ≡ numeral_in (shape_of form.entry) }
{
    match form {
        Shape::Numeral(digits) => Some(digits),
        _ => None,
    }
}

fn value_shape(arguments: Shapes<'_>) -> Option<Command<'_>>
    ensures { option_map effect_of result ≡ meaning.value_shape reply.get_value (forms_in arguments.entry) }
{
    match arguments.only() {
        Some(terms) => asked(terms),
        None => None,
    }
}

/// The question for the values of a list of terms.
fn asked(terms: Shape<'_>) -> Option<Command<'_>>
    ensures { option_map effect_of result ≡ meaning.value_shape reply.get_value (shape_of terms.entry ∷ []) }
{
    match terms {
        Shape::List(items) => asked_items(items),
        _ => None,
    }
}

fn asked_items(items: Shapes<'_>) -> Option<Command<'_>>
    ensures { option_map effect_of result ≡ meaning.value_shape reply.get_value (Group (shapes_in items.entry) ∷ []) }
{
    if items.is_empty() {
        return None;
    }
    if !are_items(items) {
        return None;
    }
    Some(Command::GetValue(items))
}

fn assuming_shape(arguments: Shapes<'_>) -> Option<Command<'_>>
    ensures { option_map effect_of result
        ≡ meaning.assuming_shape reply.check_sat_assuming (forms_in arguments.entry) }
{
    match arguments.only() {
        Some(terms) => assuming(terms),
        None => None,
    }
}

/// The check under a list of assumptions.
fn assuming(terms: Shape<'_>) -> Option<Command<'_>>
    ensures { option_map effect_of result
        ≡ meaning.assuming_shape reply.check_sat_assuming (shape_of terms.entry ∷ []) }
{
    match terms {
        Shape::List(terms) => assuming_all(terms),
        _ => None,
    }
}

fn assuming_all(terms: Shapes<'_>) -> Option<Command<'_>>
    ensures { option_map effect_of result
        ≡ meaning.assuming_shape reply.check_sat_assuming (Group (shapes_in terms.entry) ∷ []) }
{
    if !are_assumptions(terms) {
        return None;
    }
    Some(Command::CheckSatAssuming(terms))
}

fn are_assumptions(forms: Shapes<'_>) -> bool
    ensures { result ≡ list_all meaning.is_assumption_form (forms_in forms.entry) }
{
    let mut left = forms;
    while let Some((form, behind)) = left.split_first() {
        if !is_assumption(form) {
            return false;
        }
        left = behind;
    }
    true
}

/// What may stand in a list of assumptions: no keyword, and no bare reserved word, alone or behind `not`.
fn is_assumption(form: Shape<'_>) -> bool
    ensures { result ≡ meaning.is_assumption_form (shape_of form.entry) }
{
    match form {
        Shape::Keyword(_) => false,
        Shape::Symbol(name) => is_assumed_name(name),
        Shape::List(forms) => is_assumed_list(forms),
        _ => true,
    }
}

/// A symbol without bars as an assumption, be it the name of a term or a word that begins one.
fn is_assumed_name(name: &[u8]) -> bool
    ensures { result ≡ meaning.is_assumption_form (Symbol name.now) }
{
    begins_term(name) || !is_reserved(name)
}

fn is_assumed_list(forms: Shapes<'_>) -> bool
    ensures { result ≡ meaning.is_assumption_form (Group (shapes_in forms.entry)) }
{
    match forms.pair() {
        Some((head, form)) => is_assumed_pair(head, form),
        None => true,
    }
}

/// A list of two forms as an assumption.
fn is_assumed_pair(head: Shape<'_>, form: Shape<'_>) -> bool
    ensures { result
        ≡ meaning.is_assumption_form (Group (more (shape_of head.entry) (more (shape_of form.entry) none))) }
{
    match head {
        Shape::Symbol(head) => is_assumed_behind(head, form),
        _ => true,
    }
}

/// A form behind a symbol: behind `not` a symbol stands as it does alone.
fn is_assumed_behind(head: &[u8], form: Shape<'_>) -> bool
    ensures { result ≡ meaning.is_assumption_form (Group (more (Symbol head.now) (more (shape_of form.entry) none))) }
{
    match form {
        Shape::Symbol(name) => head != b"not".as_slice() || is_assumed_name(name),
        _ => true,
    }
}

/// A command without arguments.
fn bare<'a>(command: Command<'a>, arguments: Shapes<'_>) -> Option<Command<'a>>
    ensures { option_map effect_of result ≡ meaning.bare (effect_of command.entry) (forms_in arguments.entry) }
{
    arguments.is_empty().then_some(command)
}
