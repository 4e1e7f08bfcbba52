//! Annotations: a term with keywords behind it, each with one value at most (SMT-LIB 2.6, section 3.6).

ghost use Rattle.std.specs.Prelude.{◌≡◌, not, codes, option_map};
ghost use Rattle.sb_reader.specs.Forms.{shape_of, shapes_in, none};
ghost use Rattle.sb_script.specs.Names.{is_name};
ghost use Rattle.sb_script.specs.Reading as meaning;
ghost use Rattle.sb_sorts.specs.Annotations.{keyword_in, may_follow, goes_on};

use crate::head::name_of;
use sb_reader::{Shape, Shapes};

/// The keyword that a form is.
fn keyword_of(form: Shape<'_>) -> Option<&[u8]>
    ensures { option_map (λ key. key.now) result ≡ keyword_in (shape_of form.entry) }
{
    match form {
        Shape::Keyword(key) => Some(key),
        _ => None,
    }
}

/// Whether the value of the keyword is a name.
fn wants_name(key: &[u8]) -> bool
    ensures { result ≡ is_name key.now (codes ":named") }
{
    key == b":named".as_slice()
}

/// Whether the form may stand behind the last one, which is this keyword or none.
fn may_follow(last: Option<&[u8]>, form: Shape<'_>) -> bool
    ensures { result ≡ may_follow (option_map (λ key. key.now) last.entry) (shape_of form.entry) }
{
    match last {
        Some(key) => !wants_name(key) || name_of(form).is_some(),
        None => keyword_of(form).is_some(),
    }
}

/// Whether the last form, which is this keyword or none, may end the annotation.
fn may_end(last: Option<&[u8]>) -> bool
    ensures { result ≡ goes_on (option_map (λ key. key.now) last.entry) none }
{
    match last {
        Some(key) => !wants_name(key),
        None => true,
    }
}

/// Whether the forms are keywords, each with one value at most, that of `:named` a name.
fn are_annotations(forms: Shapes<'_>) -> bool
    ensures { result ≡ meaning.are_annotations (shapes_in forms.entry) }
{
    let mut last = None;
    let mut left = forms;
    while let Some((form, behind)) = left.split_first() {
        if !may_follow(last, form) {
            return false;
        }
        last = keyword_of(form);
        left = behind;
    }
    may_end(last)
}

/// Whether the forms are `term :keyword value ..`, with one keyword or more.
pub(crate) fn is_annotation(forms: Shapes<'_>) -> bool
    ensures { result ≡ meaning.is_annotation (shapes_in forms.entry) }
{
    match forms.split_first() {
        Some((_, annotations)) => !annotations.is_empty() && are_annotations(annotations),
        None => false,
    }
}
