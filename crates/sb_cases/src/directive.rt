//! The directives of a case, and what their words are.

use crate::reader::{behind_word, is_same, number, word_of};

/// What a head sets.
#[derive(Clone, Copy, PartialEq, Eq)]
pub enum Directive {
    Script,
    Proof,
    Errors,
    Verdicts,
    Answers,
    File,
    Change,
    Words,
    Pieces,
    Fail,
    Fronts,
    Cuts,
    Limit,
    Calls,
    Status,
    Opened,
    Once,
    Note,
}

/// The words of directives.
const DIRECTIVES: [(&str, Directive); 18] = [
    ("script", Directive::Script),
    ("proof", Directive::Proof),
    ("errors", Directive::Errors),
    ("verdicts", Directive::Verdicts),
    ("answers", Directive::Answers),
    ("file", Directive::File),
    ("change", Directive::Change),
    ("words", Directive::Words),
    ("pieces", Directive::Pieces),
    ("fail", Directive::Fail),
    ("fronts", Directive::Fronts),
    ("cuts", Directive::Cuts),
    ("limit", Directive::Limit),
    ("calls", Directive::Calls),
    ("status", Directive::Status),
    ("opened", Directive::Opened),
    ("once", Directive::Once),
    ("note", Directive::Note),
];

/// The directive of a word.
pub fn directive_of(word: &str) -> Option<Directive> {
    for (name, directive) in &DIRECTIVES {
        if is_same(name, word) {
            return Some(*directive);
        }
    }
    None
}

/// Whether a directive is for one run.
pub fn is_for_one_run(directive: Directive) -> bool {
    match directive {
        Directive::Verdicts
        | Directive::Answers
        | Directive::Change
        | Directive::Calls
        | Directive::Note => true,
        _ => false,
    }
}

/// The words of options behind a directive with a block; none of a directive without one.
pub fn options_of(directive: Directive, words: &str) -> Option<&str> {
    match directive {
        Directive::Script
        | Directive::Proof
        | Directive::Errors
        | Directive::Verdicts
        | Directive::Answers => Some(words),
        Directive::File => Some(behind_word(words)),
        Directive::Change => Some(behind_numbers(words)),
        _ => None,
    }
}

/// What stands behind the number of a line, or behind two of them.
fn behind_numbers(words: &str) -> &str {
    let behind = behind_word(words);
    match number(word_of(behind)) {
        Some(_) => behind_word(behind),
        None => behind,
    }
}

/// The first and the last number of a directive that has numbers, or 1 where it is of all.
pub fn numbers_of(directive: Directive, words: &str) -> Option<(u64, u64)> {
    match directive {
        Directive::Change => lines_of(words),
        Directive::Fail => fails_of(words),
        Directive::Calls => range_of("1", words),
        Directive::Fronts | Directive::Cuts | Directive::Pieces => Some(all_of(words)),
        Directive::Limit => limit_of(words),
        _ => Some((0, 0)),
    }
}

/// 1 where the word is all.
fn all_of(words: &str) -> (u64, u64) {
    match words {
        "all" => (1, 1),
        _ => (0, 0),
    }
}

/// The numbers of the lines of a change.
fn lines_of(words: &str) -> Option<(u64, u64)> {
    let first = word_of(words);
    let last = word_of(behind_word(words));
    match number(last) {
        Some(_) => range_of(first, last),
        None => range_of(first, first),
    }
}

/// 1 and the limit, or 0 twice for that of the program.
fn limit_of(words: &str) -> Option<(u64, u64)> {
    match words {
        "none" => Some((0, 0)),
        _ => match number(words) {
            Some(limit) => Some((1, limit)),
            None => None,
        },
    }
}

/// The numbers of the calls that fail, or 0 for no call.
fn fails_of(words: &str) -> Option<(u64, u64)> {
    match words {
        "none" => Some((0, 0)),
        _ => match words.split_once("..") {
            Some((first, last)) => range_of(first, last),
            None => range_of(words, words),
        },
    }
}

/// Two numbers from 1 on, of which the first one is not above the last one.
fn range_of(first: &str, last: &str) -> Option<(u64, u64)> {
    match (number(first), number(last)) {
        (Some(first), Some(last)) if 0 < first && first <= last => Some((first, last)),
        _ => None,
    }
}
