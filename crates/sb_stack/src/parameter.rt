//! The parameters of definitions (SMT-LIB 2.6, section 4.2.3).

ghost use Rattle.std.specs.Prelude.{◌≡◌, [], map, option_map, option_copied, IfOk};
ghost use Rattle.sb_reader.specs.Forms.{Group, shape_of, shapes_in};
ghost use Rattle.sb_script.specs.Commands.{parameters_of};
ghost use Rattle.sb_script.specs.Reading.{first_again};
ghost use Rattle.sb_script.specs.Replies.{names_of_parameters};
ghost use Rattle.sb_stack.specs.Commands.{forms_in};
ghost use Rattle.sb_stack.specs.Defining.{AreParameters, HasPut, names_in, parameter_in, pair_in};
ghost use Rattle.sb_term.specs.Symbols.{sort_in};

use crate::command::symbol_in;
use crate::option::sort_in_definition;
use indexmap::IndexSet;
use sb_reader::{Shape, Shapes};
use sb_sorts::Parameter;
use sb_term::Sort;
use std::alloc::{AllocError, Global};

/// The name of a parameter, and the form of its sort.
fn parameter_in(form: Shape<'_>) -> Option<(&[u8], Shape<'_>)>
    ensures { option_map pair_in result ≡ parameter_in (shape_of form.entry) }
{
    match form {
        Shape::List(parts) => named_sort(parts),
        _ => None,
    }
}

/// The name that a form is, and the form behind it, where there are two.
fn named_sort(parts: Shapes<'_>) -> Option<(&[u8], Shape<'_>)>
    ensures { option_map pair_in result ≡ parameter_in (Group (shapes_in parts.entry)) }
{
    let Some((name, sort)) = parts.pair() else {
        return None;
    };
    match symbol_in(name) {
        Some(name) => Some((name, sort)),
        None => None,
    }
}

/// The parameters of a list, or `None` where the sort of one is left out. Linear in the list.
pub(crate) fn parameters_in<'a>(
    alloc: Global,
    forms: Shapes<'a>,
) -> Result<Option<Vec<Parameter<'a>>>, AllocError>
    ensures { IfOk result (AreParameters (parameters_of (forms_in forms.entry))) }
{
    let mut found = Vec::new(alloc);
    let mut left = forms;
    while let Some((form, behind)) = left.split_first() {
        left = behind;
        let Some((name, sort)) = parameter_in(form) else {
            continue;
        };
        let Some(sort) = sort_in_definition(sort) else {
            return Ok(None);
        };
        found.push(Parameter { name, sort })?;
    }
    Ok(Some(found))
}

/// The first name that stands again among the parameters of a list. By hash, and linear in the list.
pub(crate) fn first_again<'a>(
    alloc: Global,
    forms: Shapes<'a>,
) -> Result<Option<&'a [u8]>, AllocError>
    ensures { IfOk result (λ found. option_copied found
        ≡ first_again [] (names_of_parameters (parameters_of (forms_in forms.entry)))) }
{
    let mut seen = IndexSet::new(alloc);
    let mut left = forms;
    while let Some((form, behind)) = left.split_first() {
        left = behind;
        let Some((name, _)) = parameter_in(form) else {
            continue;
        };
        if !put_name(alloc, &mut seen, name)? {
            return Ok(Some(name));
        }
    }
    Ok(None)
}

/// Puts a name among others, and says whether it was not there.
fn put_name(alloc: Global, seen: &mut IndexSet<Vec<u8>>, name: &[u8]) -> Result<bool, AllocError>
    ensures { IfOk result (HasPut (names_in seen.old.keys) name.now (names_in seen.new.keys)) }
{
    let key = Vec::from_slice(alloc, name)?;
    Ok(seen.insert(key)?)
}

/// The sorts of parameters.
pub(crate) fn sorts_of(alloc: Global, parameters: &[Parameter<'_>]) -> Result<Vec<Sort>, AllocError>
    ensures { IfOk result (λ sorts. sorts.items ≡ map (λ p. p.sort) parameters.now) }
{
    let mut sorts = Vec::new(alloc);
    for parameter in parameters {
        sorts.push(parameter.sort)?;
    }
    Ok(sorts)
}
