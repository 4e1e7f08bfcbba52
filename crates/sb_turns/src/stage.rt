//! What a program is called with, and what comes of it.

use crate::compare::compare;
use crate::report::Run;
use sb_cases::buffer::Buffer;
use sb_cases::case::Case;
use sb_cases::directive::Directive;
use sb_cases::reader::word_of;
use sb_world::MemWorld;
use std::alloc::{AllocError, Global};

/// What differs from one run of a case to the next.
#[derive(Clone, Copy)]
pub struct Turn {
    /// How many bytes a read gives at most.
    pub length: usize,
    /// The number of the call that fails, or 0.
    pub fails: u64,
    /// How many bytes there are of the script.
    pub script: usize,
    /// How many bytes there are of the proof that is checked, or that is to be written.
    pub end: usize,
}

/// What a program is called with, and what comes of it.
#[derive(Drop)]
pub struct Stage {
    pub turn: Turn,
    /// The program's name, and the words behind it.
    pub words: Vec<String>,
    /// The proof with its changes.
    pub proof: Buffer,
    /// The proof that the solver wrote, where the checker is behind it.
    pub written: Buffer,
    /// There was memory for the words and the files.
    pub whole: bool,
    pub run: Run,
}

impl Stage {
    /// Nothing was called.
    pub fn new(alloc: Global) -> Stage {
        Stage {
            turn: Turn {
                length: 0,
                fails: 0,
                script: 0,
                end: 0,
            },
            words: Vec::new(alloc),
            proof: Buffer::new(alloc),
            written: Buffer::new(alloc),
            whole: true,
            run: Run::none(alloc),
        }
    }

    /// Whether there was memory for all that was asked for.
    pub fn is_whole(&self) -> bool {
        self.whole && self.proof.is_whole() && self.written.is_whole() && self.run.text.is_whole()
    }

    /// Keeps whether there was memory.
    pub fn note(&mut self, done: Result<(), AllocError>) {
        match done {
            Ok(()) => {}
            Err(_) => self.whole = false,
        }
    }

    /// Sets the program's name, and the words behind it, of which `""` is the empty one.
    pub fn set_words(&mut self, alloc: Global, program: &str, behind: &str) {
        self.words.clear();
        self.add_word(alloc, program);
        for word in behind.split_whitespace() {
            match word {
                "\"\"" => self.add_word(alloc, ""),
                _ => self.add_word(alloc, word),
            }
        }
    }

    /// Adds a word.
    fn add_word(&mut self, alloc: Global, word: &str) {
        let added = push_word(alloc, word, &mut self.words);
        self.note(added);
    }

    /// So much of the proof.
    pub fn front(&self) -> &[u8] {
        front_of(self.proof.bytes(), self.turn.end)
    }

    /// Compares what came of a run with what is wanted of it.
    pub fn compare(&mut self, case: &Case, world: &MemWorld) {
        let proof = front_of(self.proof.bytes(), self.turn.end);
        compare(&mut self.run, case, &self.turn, proof, world);
    }

    /// Keeps the proof that was written.
    pub fn keep(&mut self, proof: &[u8]) {
        self.written.clear();
        self.written.add(proof);
    }
}

/// Adds a word.
fn push_word(alloc: Global, word: &str, words: &mut Vec<String>) -> Result<(), AllocError> {
    words.push(String::from_str(alloc, word)?)?;
    Ok(())
}

/// So many of the bytes.
pub fn front_of(bytes: &[u8], end: usize) -> &[u8] {
    match bytes.get(..end) {
        Some(front) => front,
        None => bytes,
    }
}

/// Sets how a world reads and fails, and adds the files of the case.
pub fn prepare(case: &Case, stage: &mut Stage, world: &mut MemWorld) {
    world.read_at_most(stage.turn.length.max(1));
    if stage.turn.fails > 0 {
        let set = world.fail_at(stage.turn.fails);
        stage.note(set);
    }
    for said in &case.lasting {
        if said.directive == Directive::File {
            add_file(stage, world, word_of(said.words), case.bytes_of(said));
        }
    }
}

/// Adds a file to a world.
pub fn add_file(stage: &mut Stage, world: &mut MemWorld, name: &str, bytes: &[u8]) {
    let added = world.add_file(name, bytes);
    stage.note(added);
}
