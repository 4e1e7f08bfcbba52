//! Lines of proofs.

use crate::atom::Atom;
use sb_lit::Lit;

/// A regex whose parts are numbers of regexes.
#[derive(Drop)]
pub enum Node {
    /// No word.
    None,
    /// The empty word alone.
    Eps,
    /// The words of one character of a set: its ranges, with both ends of each.
    Set(Vec<(u64, u64)>),
    /// Concatenation.
    Cat(u64, u64),
    /// Union.
    Alt(Vec<u64>),
    /// Intersection.
    And(Vec<u64>),
    /// Complement.
    Not(u64),
    /// Star.
    Star(u64),
    /// A regex from so many to so many times.
    Rep(u64, u64, u64),
    /// The words along which the derivative takes the first regex to the second.
    Path(u64, u64),
}

/// The characters of some ranges, and the number of the regex to which they lead.
#[derive(Drop)]
pub struct Class {
    pub ranges: Vec<(u64, u64)>,
    pub target: u64,
}

/// The rules whose clauses are true under all values.
#[derive(Clone, Copy)]
pub enum Rule {
    Gate,
    Order,
    Linear,
    Step,
    Empty,
}

/// The value of a constant.
#[derive(Drop)]
pub enum Value {
    Text(Vec<u64>),
    Int(i128),
    Truth(bool),
}

/// What a verdict line says.
#[derive(Drop)]
pub enum Said {
    /// The values of the live constants, by serial.
    Sat(Vec<Value>),
    /// The number of the clause that refutes the assumptions.
    Unsat(u64),
    /// The limit that is used up.
    Unknown(u64),
    /// The check is outside the fragment.
    Unsupported,
}

/// A line of a proof. Regexes, atoms and clauses are numbered from 0, each kind by its own lines.
#[derive(Drop)]
pub enum Line {
    /// The first line, with the number of the format.
    Header(u64),
    /// The next regex.
    Regex(Node),
    /// The next atom.
    Atom(Atom<u64>),
    /// The expansion of a regex.
    Expansion(u64, Vec<Class>),
    /// Regexes without a word.
    Dead(Vec<u64>),
    /// The next clause: the literal of the live assertion at this place, counted from 0.
    Assertion(u64, Lit),
    /// The next clause, by a rule.
    Rule(Rule, Vec<Lit>),
    /// The next clause, learned by hints, which are numbers of clauses.
    Learned(Vec<Lit>, Vec<u64>),
    /// The verdict of a check.
    Verdict(Said),
    /// The last line.
    End,
}
