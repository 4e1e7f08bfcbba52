//! The lines that answer a command (SMT-LIB 2.6, section 4.2), each with its line feed.

ghost use Rattle.std.specs.Prelude.{◌≡◌, ◌++◌, [], codes, if◌then◌else◌, Some, option_map, IfOk};
ghost use Rattle.sb_script.specs.Names.{name_in_text};
ghost use Rattle.sb_script.specs.Options.{truth_text};
ghost use Rattle.sb_script.specs.Steps as meaning;
ghost use Rattle.sb_stack.specs.Refusing.{fault_in, fault_text};

use crate::name::push_name_in_text;
use sb_reader::Refusal;
use sb_sorts::ReadFault;
use std::alloc::{AllocError, Global};

/// `(error "message")`. Linear in the message.
pub(crate) fn error_line(alloc: Global, message: &[u8]) -> Result<Vec<u8>, AllocError>
    ensures { IfOk result (λ text. text.items ≡ meaning.error_line message.now) }
{
    let mut text = Vec::from_slice(alloc, b"(error \"")?;
    text.extend_from_slice(message)?;
    text.extend_from_slice(b"\")\n")?;
    Ok(text)
}

/// `(error "message name")`, where the message ends with its space. Linear in the message and the name.
pub(crate) fn error_line_with_name(
    alloc: Global,
    message: &[u8],
    name: &[u8],
) -> Result<Vec<u8>, AllocError>
    ensures { IfOk result (λ text. text.items ≡ meaning.error_line (message.now ++ name_in_text name.now)) }
{
    let mut text = Vec::from_slice(alloc, b"(error \"")?;
    text.extend_from_slice(message)?;
    push_name_in_text(&mut text, name)?;
    text.extend_from_slice(b"\")\n")?;
    Ok(text)
}

/// What is said of a refused entry.
pub(crate) fn refusal_text(refusal: Refusal) -> &'static [u8]
    ensures { result.now ≡ meaning.refusal_text refusal }
{
    match refusal {
        Refusal::StrayClose => b"unexpected )",
        Refusal::BadToken => b"bad token",
        Refusal::TooDeep => b"nesting deeper than 512",
        Refusal::BareToken => b"malformed command",
    }
}

/// What is said of a form that is no term. Linear in the name that it tells.
pub(crate) fn fault_line(alloc: Global, fault: &ReadFault) -> Result<Vec<u8>, AllocError>
    ensures { IfOk result (λ text. Some text.items ≡ option_map fault_text (fault_in fault.now)) }
{
    match fault {
        ReadFault::UnknownSymbol(name) => error_line_with_name(alloc, b"unknown symbol ", name),
        ReadFault::AlreadyBound(name) => error_line_with_name(alloc, b"already declared ", name),
        ReadFault::WrongSort => error_line(alloc, b"wrong sort"),
        ReadFault::WrongCount => error_line(alloc, b"wrong number of arguments"),
        ReadFault::BadIndex => error_line(alloc, b"bad index"),
        ReadFault::NumeralTooLarge => error_line(alloc, b"numeral too large"),
        ReadFault::BadLiteral => error_line(alloc, b"bad token"),
        ReadFault::Malformed => error_line(alloc, b"malformed command"),
        ReadFault::Unsupported => unsupported_line(alloc),
        ReadFault::NoMemory => Err(AllocError),
    }
}

/// A text between its quotes, as it was written. Linear in the text.
pub(crate) fn quoted_line(alloc: Global, bytes: &[u8]) -> Result<Vec<u8>, AllocError>
    ensures { IfOk result (λ text. text.items ≡ meaning.line (meaning.quoted bytes.now)) }
{
    let mut text = Vec::from_slice(alloc, b"\"")?;
    text.extend_from_slice(bytes)?;
    text.extend_from_slice(b"\"\n")?;
    Ok(text)
}

/// The answer to what is left out.
pub(crate) fn unsupported_line(alloc: Global) -> Result<Vec<u8>, AllocError>
    ensures { IfOk result (λ text. text.items ≡ meaning.unsupported_line) }
{
    Vec::from_slice(alloc, b"unsupported\n")
}

/// The value of an option.
pub(crate) fn truth_line(alloc: Global, value: bool) -> Result<Vec<u8>, AllocError>
    ensures { IfOk result (λ text. text.items ≡ meaning.line (truth_text value)) }
{
    if value {
        Vec::from_slice(alloc, b"true\n")
    } else {
        Vec::from_slice(alloc, b"false\n")
    }
}

/// The answer to a command that succeeds, which is empty where `:print-success` is false.
pub(crate) fn success_line(alloc: Global, printed: bool) -> Result<Vec<u8>, AllocError>
    ensures { IfOk result (λ text. text.items ≡ (if printed then meaning.line (codes "success") else [])) }
{
    if printed {
        Vec::from_slice(alloc, b"success\n")
    } else {
        Ok(Vec::new(alloc))
    }
}
