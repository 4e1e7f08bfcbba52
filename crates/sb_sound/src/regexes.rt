//! Lines that define a regex.

ghost use Rattle.sb_sound.specs.RegexLaws.{RegexLinesAreExact};

/// A regex is accepted exactly where its parts are defined, it is not defined before, and it is normal.
pub fn regex_lines_are_exact()
    ensures { RegexLinesAreExact }
{
    sb_lang::order::order_tells_apart();
}
