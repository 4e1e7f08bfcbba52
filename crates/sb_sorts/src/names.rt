//! The names of the theories and the reserved words.

ghost use Rattle.std.specs.Prelude.{◌≡◌, true, option_map, IfSome};
ghost use Rattle.std.specs.List.{list_any};
ghost use Rattle.sb_script.specs.Brought.{is_brought_sort};
ghost use Rattle.sb_script.specs.Names as meaning;
ghost use Rattle.sb_script.specs.Symbols as theory;
ghost use Rattle.sb_sorts.specs.NamedRows.{look_up};
ghost use Rattle.sb_term.specs.Symbols.{symbol_in, sort_in};

use sb_term::{Sort, Symbol};

/// What begins a term of its own shape.
const WORDS_OF_TERMS: [&[u8]; 5] = [b"forall", b"exists", b"match", b"as", b"!"];

/// The other reserved words.
const WORDS_OF_SCRIPTS: [&[u8]; 38] = [
    b"_",
    b"let",
    b"par",
    b"BINARY",
    b"DECIMAL",
    b"HEXADECIMAL",
    b"NUMERAL",
    b"STRING",
    b"assert",
    b"check-sat",
    b"check-sat-assuming",
    b"declare-const",
    b"declare-datatype",
    b"declare-datatypes",
    b"declare-fun",
    b"declare-sort",
    b"define-fun",
    b"define-fun-rec",
    b"define-funs-rec",
    b"define-sort",
    b"echo",
    b"exit",
    b"get-assertions",
    b"get-assignment",
    b"get-info",
    b"get-model",
    b"get-option",
    b"get-proof",
    b"get-unsat-assumptions",
    b"get-unsat-core",
    b"get-value",
    b"pop",
    b"push",
    b"reset",
    b"reset-assertions",
    b"set-info",
    b"set-logic",
    b"set-option",
];

/// The names of the theories that are not read.
const LEFT_OUT: [&[u8]; 28] = [
    b"<=",
    b"<",
    b">=",
    b">",
    b"+",
    b"*",
    b"-",
    b"str.len",
    b"div",
    b"mod",
    b"abs",
    b"str.<",
    b"str.<=",
    b"str.at",
    b"str.substr",
    b"str.indexof",
    b"str.replace",
    b"str.replace_all",
    b"str.replace_re",
    b"str.replace_re_all",
    b"str.is_digit",
    b"str.to_code",
    b"str.from_code",
    b"str.to_int",
    b"str.from_int",
    b"str.in.re",
    b"str.to.re",
    b"re.nostr",
];

/// The symbols that are read, but for those that take indices.
const SYMBOLS: &[(&[u8], Symbol)] = &[
    (b"true", Symbol::True),
    (b"false", Symbol::False),
    (b"not", Symbol::Not),
    (b"and", Symbol::And),
    (b"or", Symbol::Or),
    (b"=>", Symbol::Implies),
    (b"xor", Symbol::Xor),
    (b"ite", Symbol::Ite),
    (b"=", Symbol::Equal),
    (b"distinct", Symbol::Distinct),
    (b"str.++", Symbol::StrConcat),
    (b"str.in_re", Symbol::StrInRe),
    (b"str.prefixof", Symbol::StrPrefixOf),
    (b"str.suffixof", Symbol::StrSuffixOf),
    (b"str.contains", Symbol::StrContains),
    (b"str.to_re", Symbol::StrToRe),
    (b"re.none", Symbol::ReNone),
    (b"re.all", Symbol::ReAll),
    (b"re.allchar", Symbol::ReAllChar),
    (b"re.++", Symbol::ReConcat),
    (b"re.union", Symbol::ReUnion),
    (b"re.inter", Symbol::ReInter),
    (b"re.diff", Symbol::ReDiff),
    (b"re.*", Symbol::ReStar),
    (b"re.+", Symbol::RePlus),
    (b"re.opt", Symbol::ReOpt),
    (b"re.comp", Symbol::ReComp),
    (b"re.range", Symbol::ReRange),
];

/// The symbols that take indices.
const INDEXED: &[(&[u8], ())] = &[(b"re.^", ()), (b"re.loop", ())];

/// The sorts that constants may have.
const SORTS: &[(&[u8], Sort)] = &[(b"Bool", Sort::Bool), (b"String", Sort::String)];

/// Whether the name is one of these.
fn is_among(names: &[&[u8]], name: &[u8]) -> bool
    ensures { result ≡ list_any (λ other. meaning.is_name name.now other.now) names.now }
{
    names.iter().any(|other| name == *other)
}

/// Whether the word begins a term of its own shape (`forall`, `match`).
pub fn begins_term(name: &[u8]) -> bool
    ensures { result ≡ meaning.begins_term name.now }
{
    is_among(&WORDS_OF_TERMS, name)
}

/// Whether the symbol is a reserved word where it is not written between bars. Takes no memory.
pub fn is_reserved(name: &[u8]) -> bool
    ensures { result ≡ meaning.is_reserved name.now }
{
    is_among(&WORDS_OF_TERMS, name) || is_among(&WORDS_OF_SCRIPTS, name)
}

/// What stands in a table by this name. Linear in the table, and takes no memory.
#[tactic(auto, unfolding(crate::specs::NamedRows::look_up))]
pub fn look_up<T: Copy>(table: &[(&[u8], T)], name: &[u8]) -> Option<T>
    ensures { result ≡ look_up table.now name.now }
{
    for (other, meant) in table {
        if name == *other {
            return Some(*meant);
        }
    }
    None
}

/// The symbol of this name, where it is read.
pub(crate) fn symbol_named(name: &[u8]) -> Option<Symbol>
    ensures { option_map symbol_in result ≡ theory.symbol_named name.now }
{
    look_up(SYMBOLS, name)
}

/// Whether the name is of a symbol that takes indices.
#[tactic(auto, unfolding(crate::specs::NamedRows::look_up))]
pub(crate) fn is_indexed(name: &[u8]) -> bool
    ensures { result ≡ theory.is_indexed name.now }
{
    look_up(INDEXED, name).is_some()
}

/// Whether the name is one of the theories that is not read.
pub(crate) fn is_left_out(name: &[u8]) -> bool
    ensures { result ≡ theory.is_left_out name.now }
{
    is_among(&LEFT_OUT, name)
}

/// Whether the name is one of the theories, which can't be declared. Takes no memory.
pub fn is_theory_name(name: &[u8]) -> bool
    ensures { result ≡ theory.is_theory_name name.now }
{
    symbol_named(name).is_some() || is_indexed(name) || is_left_out(name)
}

/// The sort of this name, where constants may have it. Takes no memory.
#[tactic(auto, unfolding(crate::specs::NamedRows::look_up))]
pub fn sort_named(name: &[u8]) -> Option<Sort>
    ensures value { option_map sort_in result ≡ theory.sort_named name.now }
    ensures read { IfSome result (λ sort. is_brought_sort (sort_in sort) ≡ true) }
{
    look_up(SORTS, name)
}
