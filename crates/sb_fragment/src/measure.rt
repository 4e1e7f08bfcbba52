//! What is known of a term by its arguments.

ghost use Rattle.std.specs.Prelude.{◌≡◌, ◌<◌, ◌+◌, ◌&&◌, length, All};
ghost use Rattle.sb_meaning.specs.Terms.{str_to_re, text};
ghost use Rattle.sb_meaning.specs.Sorts.{is_same_sort};
ghost use Rattle.sb_term.specs.Symbols.{sort_in, symbol_in};
ghost use Rattle.sb_fragment.specs.Measures.{within_limit};
ghost use Rattle.sb_fragment.specs.Measured.{is_text_by, has_pieces_by, is_regex_by, is_short_by, size_by, joined, no_measure, total, within, is_short_word, is_whole_word, node_measure};
ghost use Rattle.sb_fragment.specs.Measured.{applied_measure};

use sb_term::{Sort, Symbol, Term, TermId};

/// What the rules of the fragment ask of a term.
#[derive(Clone, Copy, PartialEq, Eq)]
pub struct Measure {
    /// The term is a word: a literal, or a concatenation of such.
    pub is_text: bool,
    /// The term is made of String constants and of words, each of which, and the whole where it is a word, has at most
    /// 65,535 characters.
    pub has_pieces: bool,
    /// No constant stands in the term.
    pub is_ground: bool,
    /// The term is a regular expression over words: made by every symbol of that sort, with words as strings.
    pub is_regex: bool,
    /// No String term within, as a word, has more than 65,535 characters.
    pub is_short: bool,
    /// One for each application of sort RegLan in it and one for each character of its words, up to 1,000,001.
    pub size: u32,
    /// The term is Boolean structure, whatever the sizes are: made of Bool constants, of memberships in regular
    /// expressions over words, and of String terms that are compared, or of which one is said to be a prefix, a suffix
    /// or a factor of the other.
    pub is_structure: bool,
    /// The term is Boolean structure that keeps all rules of memberships, of equalities and of affixes, within the
    /// limits on sizes.
    pub fits: bool,
}

/// The largest size within the limit.
const SIZE_LIMIT: u32 = 1_000_000;

/// What is known of no terms together.
const NOTHING: Measure = Measure {
    is_text: true,
    has_pieces: true,
    is_ground: true,
    is_regex: true,
    is_short: true,
    size: 0,
    is_structure: true,
    fits: true,
};

/// The size up to the least one past the limit.
fn capped(size: usize) -> u32
    ensures { result ≡ within_limit size }
{
    if size <= SIZE_LIMIT as usize {
        size as u32
    } else {
        SIZE_LIMIT + 1
    }
}

/// The sum of two sizes, up to the least one past the limit.
fn sum(a: u32, b: u32) -> u32
    ensures { result ≡ within_limit (a + b) }
{
    let sum = a as u64 + b as u64;
    if sum <= SIZE_LIMIT as u64 {
        sum as u32
    } else {
        SIZE_LIMIT + 1
    }
}

/// What is known of an argument and of those behind it, together.
fn join(first: Measure, rest: Measure) -> Measure
    ensures { result ≡ joined first rest }
{
    Measure {
        is_text: first.is_text && rest.is_text,
        has_pieces: first.has_pieces && rest.has_pieces,
        is_ground: first.is_ground && rest.is_ground,
        is_regex: first.is_regex && rest.is_regex,
        is_short: first.is_short && rest.is_short,
        size: sum(first.size, rest.size),
        is_structure: first.is_structure && rest.is_structure,
        fits: first.fits && rest.fits,
    }
}

/// What is known of all arguments together.
pub(crate) fn total_of(measures: &[Measure], arguments: &[TermId]) -> Measure
    requires { All (λ i. i < length measures.now) arguments.now }
    ensures { result ≡ total measures.now arguments.now }
{
    let mut left = arguments.len();
    let mut all = NOTHING;
    while left > 0 {
        left -= 1;
        all = join(measures[arguments[left].number()], all);
    }
    all
}

/// Whether a symbol makes a word of arguments that are words, or are not.
fn makes_text(symbol: Symbol, texts: bool) -> bool
    ensures { result ≡ is_text_by (symbol_in symbol) texts }
{
    match symbol {
        Symbol::StrConcat => texts,
        _ => false,
    }
}

/// Whether a symbol makes a term of pieces of arguments that are words, or are not, have this size, and are of pieces.
fn pieces_with(symbol: Symbol, texts: bool, size: u32, pieces: bool) -> bool
    ensures { result ≡ has_pieces_by (symbol_in symbol) texts size pieces }
{
    match symbol {
        Symbol::StrConcat => { if texts { size <= 65_535 } else { pieces } }
        _ => false,
    }
}

/// Whether constants of a sort are pieces.
fn is_string(sort: Sort) -> bool
    ensures { result ≡ is_same_sort text (sort_in sort) }
{
    matches!(sort, Sort::String)
}

/// Whether a symbol makes a regular expression over words of so many arguments.
fn makes_regex(symbol: Symbol, count: usize, texts: bool, regexes: bool) -> bool
    ensures { result ≡ is_regex_by (symbol_in symbol) count texts regexes }
{
    match symbol {
        Symbol::StrToRe => count == 1 && texts,
        Symbol::ReRange => count == 2 && texts,
        Symbol::ReNone | Symbol::ReAll | Symbol::ReAllChar => count == 0,
        Symbol::ReConcat | Symbol::ReUnion | Symbol::ReInter | Symbol::ReDiff => {
            count != 0 && regexes
        }
        Symbol::ReStar | Symbol::RePlus | Symbol::ReOpt | Symbol::ReComp => count == 1 && regexes,
        Symbol::RePower(_) | Symbol::ReLoop(..) => count == 1 && regexes,
        _ => false,
    }
}

/// Whether String terms within are short, where those of the arguments are, or are not, and have this size.
fn short_with(symbol: Symbol, short: bool, size: u32) -> bool
    ensures { result ≡ is_short_by (symbol_in symbol) short size }
{
    match symbol {
        Symbol::StrConcat => size <= 65_535,
        _ => short,
    }
}

/// The size, where that of the arguments is this.
fn size_with(symbol: Symbol, size: u32) -> u32
    ensures { result ≡ size_by (symbol_in symbol) size }
{
    match symbol {
        Symbol::StrConcat => size,
        _ => sum(1, size),
    }
}

/// What is known of a symbol with so many arguments, but for Boolean structure.
fn applied(symbol: Symbol, count: usize, all: Measure) -> Measure
    ensures { result ≡ applied_measure (symbol_in symbol) count all }
{
    Measure {
        is_text: makes_text(symbol, all.is_text),
        has_pieces: pieces_with(symbol, all.is_text, all.size, all.has_pieces),
        is_ground: all.is_ground,
        is_regex: makes_regex(symbol, count, all.is_text, all.is_regex),
        is_short: short_with(symbol, all.is_short, all.size),
        size: size_with(symbol, all.size),
        is_structure: false,
        fits: false,
    }
}

/// What is known of the regular expression of a word, where what is known of the word is this.
pub(crate) fn literal_of(measure: Measure) -> Measure
    ensures { result ≡ applied_measure str_to_re 1 (joined measure no_measure) }
{
    applied(Symbol::StrToRe, 1, join(measure, NOTHING))
}

/// What is known of a term but for Boolean structure, where this is known of its arguments together.
pub(crate) fn plain_of(node: &Term, all: Measure) -> Measure
    ensures { result ≡ node_measure all node.now }
{
    match node {
        Term::Constant(_, sort) => Measure {
            is_text: false,
            has_pieces: is_string(*sort),
            is_ground: false,
            is_regex: false,
            is_short: true,
            size: 0,
            is_structure: false,
            fits: false,
        },
        Term::Parameter(..) => Measure {
            is_text: false,
            has_pieces: false,
            is_ground: false,
            is_regex: false,
            is_short: true,
            size: 0,
            is_structure: false,
            fits: false,
        },
        Term::Word(codes) => Measure {
            is_text: true,
            has_pieces: codes.len() <= 65_535,
            is_ground: true,
            is_regex: false,
            is_short: codes.len() <= 65_535,
            size: capped(codes.len()),
            is_structure: false,
            fits: false,
        },
        Term::Numeral(_) => Measure {
            is_text: false,
            has_pieces: false,
            is_ground: true,
            is_regex: false,
            is_short: true,
            size: 0,
            is_structure: false,
            fits: false,
        },
        Term::Apply(symbol, arguments) => applied(*symbol, arguments.len(), all),
    }
}

/// Whether the term has no constants, and its words and itself are within the limits on sizes.
pub(crate) fn is_within(measure: Measure) -> bool
    ensures { result ≡ within measure }
{
    measure.is_ground && measure.is_short && measure.size <= SIZE_LIMIT
}

/// Whether the term is a word within the limit on sizes.
pub(crate) fn is_short_word(measure: Measure) -> bool
    ensures { result ≡ is_short_word measure }
{
    measure.is_text && measure.has_pieces
}

/// Whether the term is a word of 1,000 characters at most: of such a one the prefixes, the suffixes and the factors may
/// be asked for.
pub(crate) fn is_whole_word(measure: Measure) -> bool
    ensures { result ≡ is_whole_word measure }
{
    measure.is_text && measure.size <= 1_000
}
