//! The lines of proofs, as bytes.
//!
//! A [`Line`] is one line of the proof format. The one idea is that each line has one text: [`put_line`] appends
//! exactly the text that the rules of proofs give it, and [`read_line`] answers the line of a text, or why it is none.
//! The layers above put lines on a [`Tape`], or read them.
#![tactic(auto)]

mod arity;
mod atom;
mod fields;
mod kinds;
mod line;
mod numbers;
mod print;
mod read;
mod shapes;
mod tape;

pub use atom::{Atom, Piece, Variable};
pub use line::{Class, Line, Node, Rule, Said, Value};
pub use print::{print_line, put_line};
pub use read::{LineFault, read_line};
pub use tape::{MemTape, Tape, TapeFault};
