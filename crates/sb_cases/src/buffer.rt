//! Bytes that grow.

use std::alloc::Global;

/// Bytes that grow. Where there was no memory for some of them, it is kept that they are not whole.
#[derive(Drop)]
pub struct Buffer {
    bytes: Vec<u8>,
    whole: bool,
}

impl Buffer {
    /// No bytes.
    pub fn new(alloc: Global) -> Buffer {
        Buffer {
            bytes: Vec::new(alloc),
            whole: true,
        }
    }

    /// Drops the bytes.
    pub fn clear(&mut self) {
        self.bytes.clear();
    }

    /// Adds bytes.
    pub fn add(&mut self, bytes: &[u8]) {
        match self.bytes.extend_from_slice(bytes) {
            Ok(()) => {}
            Err(_) => self.whole = false,
        }
    }

    /// Adds a byte.
    pub fn push(&mut self, byte: u8) {
        match self.bytes.push(byte) {
            Ok(()) => {}
            Err(_) => self.whole = false,
        }
    }

    /// Adds a number in decimal.
    pub fn add_number(&mut self, alloc: Global, number: u64) {
        match format!(in alloc; "{number}") {
            Ok(digits) => self.add(digits.as_bytes()),
            Err(_) => self.whole = false,
        }
    }

    /// The bytes.
    pub fn bytes(&self) -> &[u8] {
        &self.bytes
    }

    /// Whether there was memory for all bytes that were ever added.
    pub fn is_whole(&self) -> bool {
        self.whole
    }
}
