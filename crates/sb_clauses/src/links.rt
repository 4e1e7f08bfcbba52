//! Tables of numbers in which a place may have none.

ghost use Rattle.std.specs.Prelude.{◌≡◌, ◌-◌, ◌^◌, ◌<◌, [], ◌++◌, length, replicate, slice_index_or, slice_set, None, IfSome, OnOk, OnErr};
ghost use Rattle.sb_clauses.specs.Links.{link};

use std::alloc::{AllocError, Global};
use std::marker::Model;

/// So many numbers fit.
pub const NUMBERS: usize = (1 << 32) - 1;

/// A number or none, in 32 bits.
#[derive(Clone, Copy)]
pub struct Link {
    /// 0 is none, and each number stands as the one above it.
    code: u32,
}

impl Model for Link {
    ghost use Rattle.std.specs.Prelude.{ℕ, Option};
    ghost use Rattle.std.proofs.Common.{ap};
    ghost use Rattle.sb_clauses.specs.Links.{link, code_of_link, code_of_link_of};

    ghost Value = { Option ℕ };

    ghost view = { λ l. link l.code };

    ghost inverse = { λ number. record { code = code_of_link number } };

    ghost inverse_ok = { λ l _. ap (λ code. record { code = code }) (code_of_link_of l.code) };
}

impl Link {
    /// The number or none, to be kept.
    pub fn new(number: Option<usize>) -> Link
        requires { IfSome number (λ number. number < 2 ^ 32 - 1) }
        ensures { result ≡ number }
    {
        Link {
            code: code_of(number),
        }
    }

    /// The number, if there is one.
    pub fn number(self) -> Option<usize>
        ensures { result ≡ self }
    {
        number_of(self.code)
    }
}

/// By place a number or none, in 32 bits: 0 is none, and each number stands as the one above it.
#[derive(Drop)]
pub struct Links {
    codes: Vec<u32>,
}

impl Model for Links {
    ghost use Rattle.std.specs.Prelude.{ℕ, List, Option, map};
    ghost use Rattle.sb_clauses.specs.Links.{link};

    ghost Value = { List (Option ℕ) };

    ghost view = { λ links. map link links.codes.items };
}

impl Links {
    /// No places. Takes no memory.
    pub fn new(alloc: Global) -> Links
        ensures { result ≡ [] }
    {
        Links {
            codes: Vec::new(alloc),
        }
    }

    /// How many places there are.
    pub fn len(&self) -> usize
        ensures { result ≡ length self.now }
    {
        self.codes.len()
    }

    /// The number at the place.
    pub fn get(&self, at: usize) -> Option<usize>
        requires { at < length self.now }
        ensures value { result ≡ slice_index_or self.now at None }
        ensures small { IfSome result (λ number. number < 2 ^ 32 - 1) }
    {
        number_of(self.codes[at])
    }

    /// Puts a number or none at the place. Takes no memory.
    pub fn set(&mut self, at: usize, number: Option<usize>)
        requires inside { at < length self.old }
        requires small { IfSome number (λ number. number < 2 ^ 32 - 1) }
        ensures { self.new ≡ slice_set self.old at number }
    {
        self.codes[at] = code_of(number);
    }

    /// Fills up with places without a number, to so many.
    pub fn grow(&mut self, len: usize) -> Result<(), AllocError>
        ensures ok { OnOk result (self.new ≡ self.old ++ replicate (len - length self.old) None) }
        ensures err { OnErr result (self.new ≡ self.old) }
    {
        if len <= self.codes.len() {
            return Ok(());
        }
        self.codes.resize(len, 0)?;
        Ok(())
    }
}

/// The number that stands as this one, if one does.
fn number_of(code: u32) -> Option<usize>
    ensures value { result ≡ link code }
    ensures small { IfSome result (λ number. number < 2 ^ 32 - 1) }
{
    if code == 0 {
        return None;
    }
    Some((code - 1) as usize)
}

/// What the number stands as.
fn code_of(number: Option<usize>) -> u32
    requires { IfSome number (λ number. number < 2 ^ 32 - 1) }
    ensures { link result ≡ number }
{
    match number {
        Some(number) => number as u32 + 1,
        None => 0,
    }
}
