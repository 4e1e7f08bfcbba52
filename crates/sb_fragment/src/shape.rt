//! The shapes of terms of Boolean structure.

ghost use Rattle.std.specs.Prelude.{◌≡◌, ◌<◌, None, List, length, All};
ghost use Rattle.sb_meaning.specs.Terms.{apply, str_in_re, terms_of};
ghost use Rattle.sb_meaning.specs.Terms as meaning;
ghost use Rattle.sb_script.specs.Brought.{asked};
ghost use Rattle.sb_term.specs.Numbered.{term_at, terms_at, AllNumbers};
ghost use Rattle.sb_term.specs.Symbols.{sort_in, symbol_in};
ghost use Rattle.sb_fragment.specs.Shapes.{IsShape, comparison_of, parts_of};

use sb_term::{Serial, Sort, Symbol, Table, Term, TermId};

/// A symbol that makes a truth value of truth values.
#[derive(Clone, Copy, PartialEq, Eq)]
pub enum Connective {
    Not,
    And,
    Or,
    Implies,
    Xor,
    Ite,
    /// All are equal, or where they are to be distinct, each two differ.
    Compare(bool),
}

/// Which part of another word a word is said to be.
#[derive(Clone, Copy, PartialEq, Eq)]
pub enum AffixKind {
    /// The other one begins with it.
    Prefix,
    /// The other one ends with it.
    Suffix,
    /// It stands somewhere in the other one.
    Factor,
}

/// What a Bool term is by its symbol, where it asks nothing of one constant's word alone.
#[derive(Clone, Copy, PartialEq, Eq)]
pub enum Shape {
    /// A Bool constant.
    Constant(Serial),
    /// It is true, or false, whatever its arguments are.
    Always(bool),
    /// A comparison of one term alone, which is of sort Bool, or of none: it is true.
    Alone,
    /// A connective of its arguments. What is compared are two terms or more, of which the first is of sort Bool.
    Connected(Connective),
    /// It is the membership of its first argument in its second one, of two.
    Member,
    /// Its arguments, of which the first is of sort String, are all equal, or where they are to be distinct, each two
    /// differ.
    Words(bool),
    /// It says of one of its arguments that it is such a part of the other one.
    Affix(AffixKind),
    /// None of these.
    Other,
}

/// The shape of a term. A term of which [`membership`](crate::membership) finds what it asks for has none. Takes
/// constant time and no memory.
pub fn shape_of(table: &Table, id: TermId) -> Shape
    requires number { id < length table.now }
    requires other { asked (term_at table.now id) ≡ None }
    ensures { IsShape (term_at table.now id) result }
{
    match table.term(id) {
        Term::Constant(serial, sort) => constant(*serial, *sort),
        Term::Apply(symbol, arguments) => applied(table, *symbol, arguments.as_slice()),
        _ => Shape::Other,
    }
}

/// The shape of a constant.
fn constant(serial: Serial, sort: Sort) -> Shape
    ensures { IsShape (meaning.constant serial.0 (sort_in sort)) result }
{
    match sort {
        Sort::Bool => Shape::Constant(serial),
        Sort::Int | Sort::String | Sort::RegLan => Shape::Other,
    }
}

/// The shape of a symbol with its arguments.
fn applied(table: &Table, symbol: Symbol, arguments: &[TermId]) -> Shape
    requires numbers { AllNumbers table.now arguments.now }
    requires other { asked (apply (symbol_in symbol) (terms_of (terms_at table.now arguments.now))) ≡ None }
    ensures { IsShape (apply (symbol_in symbol) (terms_of (terms_at table.now arguments.now))) result }
{
    match symbol {
        Symbol::True => Shape::Always(true),
        Symbol::False => Shape::Always(false),
        Symbol::Not => Shape::Connected(Connective::Not),
        Symbol::And => Shape::Connected(Connective::And),
        Symbol::Or => Shape::Connected(Connective::Or),
        Symbol::Implies => Shape::Connected(Connective::Implies),
        Symbol::Xor => Shape::Connected(Connective::Xor),
        Symbol::Ite => Shape::Connected(Connective::Ite),
        Symbol::Equal => comparison(table, false, arguments),
        Symbol::Distinct => comparison(table, true, arguments),
        Symbol::StrInRe => member(arguments),
        Symbol::StrPrefixOf => Shape::Affix(AffixKind::Prefix),
        Symbol::StrSuffixOf => Shape::Affix(AffixKind::Suffix),
        Symbol::StrContains => Shape::Affix(AffixKind::Factor),
        _ => Shape::Other,
    }
}

/// The shape of `str.in_re` with its arguments.
fn member(arguments: &[TermId]) -> Shape
    ensures { (terms : List meaning.Term)
        → IsShape (apply str_in_re (terms_of (terms_at terms arguments.now))) result }
{
    if arguments.len() == 2 {
        Shape::Member
    } else {
        Shape::Other
    }
}

/// The shape of a comparison, by the sort of the first of what is compared. One Bool alone is not compared, and none
/// neither.
fn comparison(table: &Table, distinct: bool, arguments: &[TermId]) -> Shape
    requires { AllNumbers table.now arguments.now }
    ensures { IsShape (apply (comparison_of distinct) (terms_of (terms_at table.now arguments.now))) result }
{
    let [first, others @ ..] = arguments else {
        return Shape::Alone;
    };
    match table.sort(*first) {
        Sort::Bool if others.is_empty() => Shape::Alone,
        Sort::Bool => Shape::Connected(Connective::Compare(distinct)),
        Sort::String => Shape::Words(distinct),
        Sort::Int | Sort::RegLan => Shape::Other,
    }
}

/// The arguments of a term, none where it is no symbol with arguments. Takes constant time and no memory.
pub fn arguments_of(table: &Table, id: TermId) -> &[TermId]
    requires { id < length table.now }
    ensures terms { terms_at table.now result.now ≡ parts_of (term_at table.now id) }
    ensures below { All (λ i. i < id) result.now }
{
    match table.term(id) {
        Term::Apply(_, arguments) => arguments.as_slice(),
        _ => &[],
    }
}
