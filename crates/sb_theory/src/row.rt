//! Literals of memberships by the serials of their constants.

ghost use Rattle.std.specs.Prelude.{◌≡◌, ◌<◌, ◌≤◌, ◌∷◌, ◌++◌, [], List, length, take, get_or, OnOk};
ghost use Rattle.sb_theory.specs.Words.{Lit as TheLit};
ghost use Rattle.sb_theory.specs.Memberships.{row_at};
ghost use Rattle.sb_theory.specs.Places.{IsAdded, IsDropped};

use sb_lit::Lit;
use sb_term::Serial;
use std::alloc::{AllocError, Global};
use std::marker::Model;

/// Literals of one constant, oldest first.
#[derive(Drop)]
pub(crate) struct Row {
    literals: Vec<Lit>,
}

impl Model for Row {
    ghost use Rattle.std.specs.Prelude.{List};
    ghost use Rattle.sb_lit.specs.declared.clause.Lit.{Lit};

    ghost Value = { List Lit };

    ghost view = { λ row. row.literals.items };
}

impl Row {
    /// No literals. Takes no memory.
    fn new(alloc: Global) -> Row
        ensures { result ≡ [] }
    {
        Row {
            literals: Vec::new(alloc),
        }
    }

    /// Adds a literal.
    fn push(&mut self, literal: Lit) -> Result<(), AllocError>
        ensures { OnOk result (self.new ≡ self.old ++ literal ∷ []) }
    {
        self.literals.push(literal)?;
        Ok(())
    }

    /// Takes the last literal off. Takes no memory.
    fn pop(&mut self)
        ensures { (ls : List TheLit) (l : TheLit) → self.old ≡ ls ++ l ∷ [] → self.new ≡ ls }
    {
        self.literals.pop();
    }

    /// The literals. Takes no memory.
    pub fn literals(&self) -> &[Lit]
        ensures { result.now ≡ self.now }
    {
        self.literals.as_slice()
    }
}

/// Adds a literal to the row of a constant.
pub(crate) fn put_member(
    alloc: Global,
    rows: &mut Vec<Row>,
    serial: Serial,
    literal: Lit,
) -> Result<(), AllocError>
    ensures { OnOk result (IsAdded rows.old.items rows.new.items serial.0 literal) }
{
    let place = serial.0 as usize;
    while rows.len() <= place {
        rows.push(Row::new(alloc))?;
    }
    rows[place].push(literal)
}

/// The literals in the row of a constant, none past the last row. Takes constant time and no memory.
pub(crate) fn row_of(rows: &[Row], serial: Serial) -> &[Lit]
    ensures { result.now ≡ row_at rows.now serial.0 }
{
    match rows.get(serial.0 as usize) {
        Some(row) => row.literals(),
        None => &[],
    }
}

/// Takes the last literal off the row of a constant. Takes no memory.
pub(crate) fn drop_member(rows: &mut Vec<Row>, serial: Serial)
    ensures { IsDropped rows.old.items rows.new.items serial.0 }
{
    let place = serial.0 as usize;
    if place < rows.len() {
        rows[place].pop();
    }
}

/// So many first literals in the row of a constant. Takes constant time and no memory.
pub(crate) fn front_of(rows: &[Row], serial: Serial, long: usize) -> &[Lit]
    requires { long ≤ length (row_at rows.now serial.0) }
    ensures { result.now ≡ take long (row_at rows.now serial.0) }
{
    let row = row_of(rows, serial);
    &row[..long]
}

/// The literal at a place in the row of a constant. Takes constant time and no memory.
pub(crate) fn literal_at(rows: &[Row], serial: Serial, place: usize) -> Lit
    requires { place < length (row_at rows.now serial.0) }
    ensures { result ≡ get_or (row_at rows.now serial.0) place result }
{
    let row = row_of(rows, serial);
    row[place]
}
