//! Reading a script: tokens and forms, from bytes that come in any pieces (SMT-LIB 2.6, sections 3.1
//! and 3.2).
//!
//! A [`Feed`] takes the bytes as they come, and gives one entry of the script after another: a form, or a
//! refusal with the first fault. It keeps the bytes of the entry that is not whole yet and where it
//! stopped scanning them, so each byte is scanned once and parsed once, whatever the pieces; of white space
//! and comments in front of an entry it keeps no more than a semicolon. The session above answers each
//! entry before it reads on.
#![tactic(auto)]

mod feed;
mod kind;
mod laws;
mod parse;
mod scan;
mod sexpr;
mod token;

pub use feed::{Ending, Feed, Next, Refusal};
pub use laws::{
    beginning, entry_stays, no_entry, one_entry, one_first_token, one_reading, one_script,
    shortened, tokens_stay,
};
pub use sexpr::{Sexpr, Shape, Shapes};
