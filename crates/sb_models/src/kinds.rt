//! Values by the sorts of constants.

ghost use Rattle.std.specs.Prelude.{◌≡◌, length, map};
ghost use Rattle.sb_proof.specs.Lines.{value_in};
ghost use Rattle.sb_stack.specs.Stacked.{live_in};
ghost use Rattle.sb_term.specs.Symbols.{sort_in};
ghost use Rattle.sb_models.specs.Tried.{is_kind, are_kinds};

use sb_proof::Value;
use sb_stack::LiveConstant;
use sb_term::Sort;

/// Whether the value is of the kind that constants of the sort have: a truth value, a number or a text.
fn is_kind(sort: Sort, value: &Value) -> bool
    ensures { result ≡ is_kind (sort_in sort) (value_in value.now) }
{
    match sort {
        Sort::Bool => matches!(value, Value::Truth(_)),
        Sort::Int => matches!(value, Value::Int(_)),
        Sort::String | Sort::RegLan => matches!(value, Value::Text(_)),
    }
}

/// Whether the values are of the kinds that the constants have, one of each.
pub(crate) fn are_kinds(constants: &[LiveConstant], values: &[Value]) -> bool
    requires { length values.now ≡ length constants.now }
    ensures { result ≡ are_kinds (map live_in constants.now) (map value_in values.now) }
{
    for (place, constant) in constants.iter().enumerate() {
        if !is_kind(constant.sort, &values[place]) {
            return false;
        }
    }
    true
}
