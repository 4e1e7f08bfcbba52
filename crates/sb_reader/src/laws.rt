//! Laws of the definitions, each the contract of a function without a body.

ghost use Rattle.sb_reader.specs.Laws.{TokensStay, EntryStays, OneFirstToken, OneReading, OneScript, OneEntry, EntryHasBytes, NoEntry, ShortensToItself, ShortensTwice, ShortensBefore, SameEntry, SameNone, SameEnd, BeginningStays, BeginningGrows, BeginningIsFirst};

/// Tokens that are whole stay whole, whether more bytes come or none.
pub fn tokens_stay()
    ensures { TokensStay }
{}

/// An entry that is whole stays whole, so an answer that was given before more bytes came stands.
pub fn entry_stays()
    ensures { EntryStays }
{}

/// The first token of bytes, the gap before it and what is behind it are determined.
pub fn one_first_token()
    ensures { OneFirstToken }
{}

/// As many tokens in the same bytes are the same tokens.
pub fn one_reading()
    ensures { OneReading }
{}

/// Bytes are read as one list of entries, in whatever way it is found.
pub fn one_script()
    ensures { OneScript }
{}

/// The first entry of bytes is determined, and has a byte.
pub fn one_entry()
    ensures one { OneEntry }
    ensures bytes { EntryHasBytes }
{}

/// Bytes that hold no whole entry begin with none.
pub fn no_entry()
    ensures { NoEntry }
{}

/// Bytes without white space and comments in front, or without part of a comment there, hold the same entries.
pub fn shortened()
    ensures itself { ShortensToItself }
    ensures twice { ShortensTwice }
    ensures more { ShortensBefore }
    ensures entry { SameEntry }
    ensures none { SameNone }
    ensures end { SameEnd }
{}

/// Entries that bytes begin with stay whatever comes behind, and are the first of all entries.
pub fn beginning()
    ensures stays { BeginningStays }
    ensures grows { BeginningGrows }
    ensures first { BeginningIsFirst }
{}
