//! The lines that are written.

ghost use Rattle.std.specs.Prelude.{◌≡◌, ◌++◌, codes, decimal, IfOk};
ghost use Rattle.std.specs.String.{string_bytes};
ghost use Rattle.sb_script.specs.Steps.{line};
ghost use Rattle.sb_rulebook.specs.Refusals as rules;
ghost use Rattle.sb_rulebook.specs.Accepted as rulebook;
ghost use Rattle.sb_proof.specs.Lines.{said_in};
ghost use Rattle.sb_check.specs.Reasons.{reason_in};
ghost use Rattle.sb_check.specs.Texts as texts;

use crate::reason::Reason;
use itoa::Buffer;
use sb_proof::Said;
use std::alloc::{AllocError, Global};

/// The line for the verdict of the check of this number.
pub(crate) fn verdict_line(alloc: Global, n: u64, said: &Said) -> Result<String, AllocError>
    ensures { IfOk result (λ text. string_bytes text ≡ texts.verdict_line n (said_in said.now)) }
{
    numbered(alloc, "check ", n, verdict_text(said))
}

/// The line that says which line is refused, and why.
pub(crate) fn refusal_line(alloc: Global, n: u64, reason: Reason) -> Result<String, AllocError>
    ensures { IfOk result (λ text. string_bytes text ≡ texts.refusal_line n (reason_in reason)) }
{
    numbered(alloc, "refused at line ", n, reason_text(reason))
}

/// A line of a number, with a text in front of it and one behind it.
fn numbered(alloc: Global, front: &str, n: u64, behind: &str) -> Result<String, AllocError>
    ensures { IfOk result
        (λ text. string_bytes text ≡ line (front.now ++ (decimal n ++ (codes ": " ++ behind.now)))) }
{
    let mut digits = Buffer::new();
    let mut text = String::new(alloc);
    text.push_str(front)?;
    text.push_str(digits.format(n))?;
    text.push_str(": ")?;
    text.push_str(behind)?;
    text.push('\n')?;
    Ok(text)
}

fn verdict_text(said: &Said) -> &'static str
    ensures { result.now ≡ rulebook.said_text (said_in said.now) }
{
    match said {
        Said::Sat(_) => "sat",
        Said::Unsat(_) => "unsat",
        Said::Unknown(_) => "unknown",
        Said::Unsupported => "unsupported",
    }
}

fn reason_text(reason: Reason) -> &'static str
    ensures { result.now ≡ rules.reason (reason_in reason) }
{
    match reason {
        Reason::BadWord => "bad word",
        Reason::BadNumber => "bad number",
        Reason::Unended => "unended line",
        Reason::Misplaced => "misplaced line",
        Reason::UnknownId => "unknown id",
        Reason::Repeated => "repeated",
        Reason::NotNormal => "not normal",
        Reason::WrongTarget => "wrong target",
        Reason::HoldsEmptyWord => "holds the empty word",
        Reason::NotClosed => "not closed",
        Reason::HintIdle => "idle hint",
        Reason::RuleBroken => "rule broken",
        Reason::WrongVerdict => "wrong verdict",
        Reason::MissingLine => "missing line",
    }
}
