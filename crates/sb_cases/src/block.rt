//! The bytes of blocks.

use crate::buffer::Buffer;
use crate::fault::Fault;
use std::alloc::Global;

/// What the next byte of a block is.
#[derive(Clone, Copy)]
enum Next {
    /// A byte of a block without escapes.
    Raw,
    /// A byte, or the backslash of an escape.
    Plain,
    /// The byte behind a backslash.
    Escape,
    /// The first digit of a byte.
    High,
    /// The second digit of a byte, behind this one.
    Low(u8),
    /// A digit of how often a text stands, or the brace behind these.
    Count(u64),
    /// A byte of a text that stands so often, or the brace behind it.
    Text(u64),
    /// What no escape has.
    Wrong,
}

/// The bytes of blocks, one behind the other.
#[derive(Drop)]
pub struct Blocks {
    pub bytes: Buffer,
    /// The text that is to be repeated.
    text: Buffer,
    next: Next,
}

impl Blocks {
    /// No blocks.
    pub fn new(alloc: Global) -> Blocks {
        Blocks {
            bytes: Buffer::new(alloc),
            text: Buffer::new(alloc),
            next: Next::Raw,
        }
    }

    /// Adds a block, by the words of its head's options.
    pub fn add(&mut self, options: &str, body: &[&str]) -> Result<(), Fault> {
        self.next = first_of(options);
        self.take_lines(body, options.starts_with("cut") || options.ends_with("cut"));
        match self.next {
            Next::Raw | Next::Plain => Ok(()),
            _ => Err(Fault::Escape),
        }
    }

    /// Takes lines, with the last line feed or without.
    fn take_lines(&mut self, lines: &[&str], cut: bool) {
        let mut left = lines.len();
        for line in lines {
            left = left.saturating_sub(1);
            self.take_line(line.as_bytes(), cut && left == 0);
        }
    }

    /// Takes the bytes of a line, and its line feed.
    fn take_line(&mut self, line: &[u8], cut: bool) {
        for byte in line {
            self.take(*byte);
        }
        if !cut {
            self.take(b'\n');
        }
    }

    /// Takes a byte of the block.
    fn take(&mut self, byte: u8) {
        self.next = match self.next {
            Next::Raw => self.keep(byte, Next::Raw),
            Next::Plain if byte != b'\\' => self.keep(byte, Next::Plain),
            Next::Plain => Next::Escape,
            Next::Escape => self.escape(byte),
            Next::High => high(byte),
            Next::Low(high) => self.low(high, byte),
            Next::Count(count) => more(count, byte),
            Next::Text(count) => self.repeat(count, byte),
            Next::Wrong => Next::Wrong,
        };
    }

    /// Adds a byte.
    fn keep(&mut self, byte: u8, next: Next) -> Next {
        self.bytes.push(byte);
        next
    }

    /// Takes the byte behind a backslash.
    fn escape(&mut self, byte: u8) -> Next {
        self.text.clear();
        match byte {
            b'\n' => Next::Plain,
            b'\\' => self.keep(byte, Next::Plain),
            b'x' => Next::High,
            b'*' => Next::Count(0),
            _ => Next::Wrong,
        }
    }

    /// Takes the second digit of a byte.
    fn low(&mut self, high: u8, byte: u8) -> Next {
        match digit(byte) {
            Some(low) => self.keep(high.wrapping_mul(16).wrapping_add(low), Next::Plain),
            None => Next::Wrong,
        }
    }

    /// Takes a byte of a text that stands so often, or the brace behind it.
    fn repeat(&mut self, count: u64, byte: u8) -> Next {
        if byte != b'}' {
            self.text.push(byte);
            return Next::Text(count);
        }
        for _ in 0..count {
            self.bytes.add(self.text.bytes());
        }
        Next::Plain
    }
}

/// What the first byte of a block with these options is.
fn first_of(options: &str) -> Next {
    match options {
        "" | "cut" => Next::Raw,
        "escaped" | "cut escaped" | "escaped cut" => Next::Plain,
        _ => Next::Wrong,
    }
}

/// Takes the first digit of a byte.
fn high(byte: u8) -> Next {
    match digit(byte) {
        Some(high) => Next::Low(high),
        None => Next::Wrong,
    }
}

/// Takes a digit of how often a text stands, or the brace behind these.
fn more(count: u64, byte: u8) -> Next {
    match digit(byte) {
        Some(digit) => Next::Count(count.saturating_mul(10).saturating_add(u64::from(digit))),
        None if byte == b'{' => Next::Text(count),
        None => Next::Wrong,
    }
}

/// The value of a digit in hexadecimal.
fn digit(byte: u8) -> Option<u8> {
    match byte {
        b'0'..=b'9' => Some(byte.wrapping_sub(b'0')),
        b'a'..=b'f' => Some(byte.wrapping_sub(b'a').wrapping_add(10)),
        _ => None,
    }
}
