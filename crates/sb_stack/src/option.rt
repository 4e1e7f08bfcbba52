//! What the arguments of commands name: logics, truth values, sorts, and what the solver says of itself.

ghost use Rattle.std.specs.Prelude.{◌≡◌, true, option_map, option_copied, IfSome};
ghost use Rattle.sb_reader.specs.Forms.{shape_of};
ghost use Rattle.sb_script.specs.Brought.{is_brought_sort};
ghost use Rattle.sb_script.specs.Options as meaning;
ghost use Rattle.sb_script.specs.Steps.{line};
ghost use Rattle.sb_script.specs.Names.{found_in};
ghost use Rattle.sb_script.specs.Replies.{sort_of_form, sort_in_definition};
ghost use Rattle.sb_term.specs.Symbols.{sort_in};
ghost use Rattle.sb_stack.specs.Settings.{set_in, text_in, kept_settings, kept_texts};

use crate::command::symbol_in;
use sb_reader::Shape;
use sb_sorts::{look_up, sort_named};
use sb_term::Sort;

/// The options that are kept.
#[derive(Clone, Copy)]
pub(crate) enum Setting {
    PrintSuccess,
    ProduceModels,
    ProduceAssumptions,
    GlobalDeclarations,
}

/// The options that are kept, by their keywords.
const SETTINGS: &[(&[u8], Setting)] = &[
    (b":print-success", Setting::PrintSuccess),
    (b":produce-models", Setting::ProduceModels),
    (b":produce-unsat-assumptions", Setting::ProduceAssumptions),
    (b":global-declarations", Setting::GlobalDeclarations),
];

/// The option of this keyword, where it is kept.
pub(crate) fn setting_named(key: &[u8]) -> Option<Setting>
    ensures set { option_map set_in result ≡ found_in kept_settings key.now }
    ensures read { option_map text_in result ≡ found_in kept_texts key.now }
{
    look_up(SETTINGS, key)
}

/// Whether the logic is one of those that scripts may be in.
pub(crate) fn is_logic(name: &[u8]) -> bool
    ensures { result ≡ meaning.is_logic name.now }
{
    name == b"ALL".as_slice() || name == b"QF_S".as_slice() || name == b"QF_SLIA".as_slice()
}

fn truth_named(name: &[u8]) -> Option<bool>
    ensures { result ≡ meaning.truth_named name.now }
{
    if name == b"true".as_slice() {
        Some(true)
    } else if name == b"false".as_slice() {
        Some(false)
    } else {
        None
    }
}

/// The truth value of an option.
pub(crate) fn truth_in(value: Shape<'_>) -> Option<bool>
    ensures { result ≡ meaning.truth_in (shape_of value.entry) }
{
    truth_named(symbol_in(value)?)
}

/// What the solver says of itself under a keyword, as a line.
pub(crate) fn info_line(key: &[u8]) -> Option<&'static [u8]>
    ensures { option_copied result ≡ option_map line (found_in meaning.info_texts key.now) }
{
    if key == b":name".as_slice() {
        Some(b"(:name \"strsolve\")\n")
    } else if key == b":version".as_slice() {
        Some(b"(:version \"1\")\n")
    } else if key == b":authors".as_slice() {
        Some(b"(:authors \"the strsolve authors\")\n")
    } else if key == b":error-behavior".as_slice() {
        Some(b"(:error-behavior continued-execution)\n")
    } else {
        None
    }
}

/// The sort that a form names, where constants may have it.
pub(crate) fn sort_of(sort: Shape<'_>) -> Option<Sort>
    ensures value { option_map sort_in result ≡ sort_of_form (shape_of sort.entry) }
    ensures read { IfSome result (λ sort. is_brought_sort (sort_in sort) ≡ true) }
{
    sort_named(symbol_in(sort)?)
}

/// The sort that a form names, where parameters, and what definitions make, may have it.
pub(crate) fn sort_in_definition(sort: Shape<'_>) -> Option<Sort>
    ensures { option_map sort_in result ≡ sort_in_definition (shape_of sort.entry) }
{
    let name = symbol_in(sort)?;
    if name == b"RegLan".as_slice() {
        Some(Sort::RegLan)
    } else {
        sort_named(name)
    }
}
