//! A case: what its directives have set so far.

use crate::block::Blocks;
use crate::buffer::Buffer;
use crate::directive::{Directive, directive_of, is_for_one_run, numbers_of, options_of};
use crate::fault::Fault;
use crate::reader::{behind_word, no_block, word_of};
use std::alloc::Global;

/// What is run.
#[derive(Clone, Copy)]
pub enum Kind {
    /// The solver.
    Solve,
    /// The checker.
    Check,
    /// The solver, and the checker behind it over the proof that came.
    Both,
    /// The solver, over a world where nothing fails.
    Calm,
    /// The solver, and the checker behind it over the proof that came, each over a world where nothing fails.
    Confirmed,
    /// A session, entry by entry, without the solver's loop over the bytes of a world.
    Session,
    /// The checker, over the proof that came.
    Kept,
}

/// What a head set, with the words behind it, its numbers, and where the bytes of its block stand among those of the
/// case.
#[derive(Clone, Copy)]
pub struct Said<'a> {
    pub directive: Directive,
    pub words: &'a str,
    pub first: u64,
    pub last: u64,
    begin: usize,
    end: usize,
}

/// A case, with what its directives have set so far.
#[derive(Drop)]
pub struct Case<'a> {
    pub alloc: Global,
    pub file: &'a str,
    pub kind: Kind,
    /// Empty where no case has begun.
    pub name: &'a str,
    /// It has run.
    pub has_run: bool,
    /// What was said for all runs from then on.
    pub lasting: Vec<Said<'a>>,
    /// What was said for one run.
    passing: Vec<Said<'a>>,
    blocks: Blocks,
}

impl<'a> Case<'a> {
    /// No case of a file yet.
    pub fn none(alloc: Global, file: &'a str) -> Case<'a> {
        Case {
            alloc,
            file,
            kind: Kind::Solve,
            name: "",
            has_run: false,
            lasting: Vec::new(alloc),
            passing: Vec::new(alloc),
            blocks: Blocks::new(alloc),
        }
    }

    /// Begins the case of a head, by its kind and its name.
    pub fn begin(&mut self, names: &'a str) -> Result<(), Fault> {
        self.name = behind_word(names);
        self.has_run = false;
        self.forget();
        match kind_of(word_of(names)) {
            Some(kind) if !self.name.is_empty() => {
                self.kind = kind;
                Ok(())
            }
            _ => Err(Fault::Kind),
        }
    }

    /// Forgets all that was said.
    fn forget(&mut self) {
        self.lasting.clear();
        self.passing.clear();
        self.blocks.bytes.clear();
    }

    /// Forgets what was said for one run.
    pub fn pass(&mut self) {
        self.has_run = true;
        self.passing.clear();
    }

    /// Refuses a case without a run.
    pub fn ended(&self) -> Result<(), Fault> {
        if self.has_run || self.name.is_empty() {
            return Ok(());
        }
        Err(Fault::NoAnswers)
    }

    /// Takes in the words of a head with the lines behind it, and says what they set.
    pub fn take(&mut self, words: &'a str, body: &[&str]) -> Result<Directive, Fault> {
        if self.name.is_empty() {
            return Err(Fault::NoCase);
        }
        match directive_of(word_of(words)) {
            Some(directive) => self.take_directive(directive, behind_word(words), body),
            None => Err(Fault::Directive),
        }
    }

    /// Takes in the words of a directive with the lines behind it.
    fn take_directive(
        &mut self,
        directive: Directive,
        words: &'a str,
        body: &[&str],
    ) -> Result<Directive, Fault> {
        let begin = self.blocks.bytes.bytes().len();
        match options_of(directive, words) {
            Some(options) => self.blocks.add(options, body)?,
            None => no_block(body)?,
        }
        let end = self.blocks.bytes.bytes().len();
        match numbers_of(directive, words) {
            Some((first, last)) => self.keep(Said {
                directive,
                words,
                first,
                last,
                begin,
                end,
            }),
            None => Err(Fault::Numbers),
        }
    }

    /// Keeps what a head set.
    fn keep(&mut self, said: Said<'a>) -> Result<Directive, Fault> {
        if is_for_one_run(said.directive) {
            return add_said(said, &mut self.passing);
        }
        add_said(said, &mut self.lasting)
    }

    /// What a directive said last.
    pub fn said(&self, directive: Directive) -> Option<Said<'a>> {
        if is_for_one_run(directive) {
            return last_of(&self.passing, directive);
        }
        last_of(&self.lasting, directive)
    }

    /// Whether a directive said something.
    pub fn has(&self, directive: Directive) -> bool {
        self.said(directive).is_some()
    }

    /// The words of a directive; none where it said nothing.
    pub fn words(&self, directive: Directive) -> &'a str {
        match self.said(directive) {
            Some(said) => said.words,
            None => "",
        }
    }

    /// The first number of a directive; 0 where it said nothing.
    pub fn first(&self, directive: Directive) -> u64 {
        match self.said(directive) {
            Some(said) => said.first,
            None => 0,
        }
    }

    /// The last number of a directive; 0 where it said nothing.
    pub fn last(&self, directive: Directive) -> u64 {
        match self.said(directive) {
            Some(said) => said.last,
            None => 0,
        }
    }

    /// The bytes of the block of a directive; none where there is no block.
    pub fn block(&self, directive: Directive) -> &[u8] {
        match self.said(directive) {
            Some(said) => self.bytes_of(&said),
            None => &[],
        }
    }

    /// The bytes of a block.
    pub fn bytes_of(&self, said: &Said) -> &[u8] {
        bytes_in(self.blocks.bytes.bytes(), said)
    }

    /// Whether there was memory for all blocks.
    pub fn is_whole(&self) -> bool {
        self.blocks.bytes.is_whole()
    }

    /// Adds the proof with its changes, and says whether it has their lines.
    pub fn add_proof(&self, changed: &mut Buffer) -> bool {
        let lines = add_changed(
            self.blocks.bytes.bytes(),
            self.block(Directive::Proof),
            &self.passing,
            changed,
        );
        have_lines(&self.passing, lines)
    }
}

/// The kind of a word.
fn kind_of(word: &str) -> Option<Kind> {
    match word {
        "solve" => Some(Kind::Solve),
        "check" => Some(Kind::Check),
        "both" => Some(Kind::Both),
        "calm" => Some(Kind::Calm),
        "confirmed" => Some(Kind::Confirmed),
        "session" => Some(Kind::Session),
        _ => None,
    }
}

/// Adds what a head set.
fn add_said<'a>(said: Said<'a>, list: &mut Vec<Said<'a>>) -> Result<Directive, Fault> {
    match list.push(said) {
        Ok(()) => Ok(said.directive),
        Err(_) => Err(Fault::NoMemory),
    }
}

/// What a directive said last.
fn last_of<'a>(list: &[Said<'a>], directive: Directive) -> Option<Said<'a>> {
    let mut last = None;
    for said in list {
        if said.directive == directive {
            last = Some(*said);
        }
    }
    last
}

/// The bytes of a block.
fn bytes_in<'a>(bytes: &'a [u8], said: &Said) -> &'a [u8] {
    bytes.get(said.begin..said.end).unwrap_or(&[])
}

/// Adds the lines of a proof with its changes, and says how many lines it has without them.
fn add_changed(bytes: &[u8], proof: &[u8], list: &[Said], changed: &mut Buffer) -> u64 {
    let mut number = 0u64;
    let mut begins = true;
    let mut stays = true;
    for byte in proof {
        if begins {
            number = number.saturating_add(1);
            stays = begin_line(bytes, list, number, changed);
        }
        if stays {
            changed.push(*byte);
        }
        begins = *byte == b'\n';
    }
    number
}

/// Adds the text of the change that begins at a line, and says whether no change is of the line.
fn begin_line(bytes: &[u8], list: &[Said], number: u64, changed: &mut Buffer) -> bool {
    for said in list {
        if said.directive == Directive::Change && said.first <= number && number <= said.last {
            if said.first == number {
                changed.add(bytes_in(bytes, said));
            }
            return false;
        }
    }
    true
}

/// Whether there are so many lines as each change speaks of.
fn have_lines(list: &[Said], lines: u64) -> bool {
    for said in list {
        if said.directive == Directive::Change && lines < said.last {
            return false;
        }
    }
    true
}
