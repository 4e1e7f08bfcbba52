//! Sorts and symbols.

/// A sort of the theories.
#[derive(Clone, Copy, PartialEq, Eq, Hash)]
pub enum Sort {
    Bool,
    Int,
    String,
    RegLan,
}

/// A symbol of the theories Core, Ints and Unicode Strings.
#[derive(Clone, Copy, PartialEq, Eq, Hash)]
pub enum Symbol {
    /// `true`
    True,
    /// `false`
    False,
    /// `not`
    Not,
    /// `and`
    And,
    /// `or`
    Or,
    /// `=>`
    Implies,
    /// `xor`
    Xor,
    /// `ite`
    Ite,
    /// `=`
    Equal,
    /// `distinct`
    Distinct,
    /// `<=`
    AtMost,
    /// `<`
    Less,
    /// `>=`
    AtLeast,
    /// `>`
    Greater,
    /// `+`
    Plus,
    /// `*`
    Times,
    /// `-`
    Minus,
    /// `str.++`
    StrConcat,
    /// `str.len`
    StrLen,
    /// `str.in_re`
    StrInRe,
    /// `str.prefixof`
    StrPrefixOf,
    /// `str.suffixof`
    StrSuffixOf,
    /// `str.contains`
    StrContains,
    /// `str.to_re`
    StrToRe,
    /// `re.none`
    ReNone,
    /// `re.all`
    ReAll,
    /// `re.allchar`
    ReAllChar,
    /// `re.++`
    ReConcat,
    /// `re.union`
    ReUnion,
    /// `re.inter`
    ReInter,
    /// `re.diff`
    ReDiff,
    /// `re.*`
    ReStar,
    /// `re.+`
    RePlus,
    /// `re.opt`
    ReOpt,
    /// `re.comp`
    ReComp,
    /// `re.range`
    ReRange,
    /// `(_ re.^ n)`
    RePower(u32),
    /// `(_ re.loop n m)`
    ReLoop(u32, u32),
}
