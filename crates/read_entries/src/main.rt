//! `read_entries`: reads the script of standard input, and counts its entries. It times the reader alone.
//!
//! `read_entries whole` pushes the script in one piece; `read_entries N` reads it a part at a time, and pushes each
//! part in pieces of `N` bytes, with the entries taken after each piece. It prints how many commands there are, how
//! many refused entries, and whether the script ended within a form. The exit status is 1 where input, output or
//! memory failed, and 2 where the word is wrong.
#![tactic(auto)]

ghost use Rattle.std.specs.Prelude.{◌≡◌, ◌<◌, true, false, length, is_some, IfOk};

use sb_reader::{Ending, Feed, Next};
use std::alloc::AllocError;
use std::env;
use std::io::{Read, Write};
use std::process::ExitCode;

/// How many bytes are read of standard input at a time.
const PART: usize = 0x1_0000;

/// How many parts are read at most.
const MOST_PARTS: u64 = 0x1_0000_0000;

/// What was read so far.
#[derive(Drop)]
struct Counts {
    commands: u64,
    refused: u64,
    ended: Option<Ending>,
}

/// An entry of a script.
#[derive(Clone, Copy)]
enum Entry {
    Command,
    Refused,
}

impl Counts {
    fn count(&mut self, entry: Entry) {
        match entry {
            Entry::Command => self.commands = self.commands.wrapping_add(1),
            Entry::Refused => self.refused = self.refused.wrapping_add(1),
        }
    }
}

/// Why a run failed.
#[derive(Clone, Copy, Drop)]
enum Failure {
    Outside,
    NoMemory,
}

impl From<AllocError> for Failure {
    fn from(_error: AllocError) -> Failure {
        Failure::NoMemory
    }
}

fn main(rt: HostRuntime) -> ExitCode {
    match piece(rt) {
        Some(piece) => match run(rt, piece) {
            Ok(()) => ExitCode::from(0u8),
            Err(_) => ExitCode::from(1u8),
        },
        None => ExitCode::from(2u8),
    }
}

/// How long a piece is: 0 for the whole script.
fn piece(rt: HostRuntime) -> Option<usize> {
    let words: Vec<String> = env::args(&rt).ok()?.collect(rt.alloc()).ok()?;
    match words.as_slice() {
        [_, word] if word.as_str() == "whole" => Some(0),
        [_, word] => match word.parse::<usize>() {
            Ok(piece) if piece > 0 => Some(piece),
            _ => None,
        },
        _ => None,
    }
}

fn run(rt: HostRuntime, piece: usize) -> Result<(), Failure> {
    let mut feed = Feed::new(rt.alloc());
    let mut counts = Counts {
        commands: 0,
        refused: 0,
        ended: None,
    };
    if piece == 0 {
        read_whole(rt, &mut feed)?;
    } else {
        read_in_pieces(rt, piece, &mut feed, &mut counts)?;
    }
    feed.finish();
    take_entries(&mut feed, &mut counts)?;
    let ended = match counts.ended {
        Some(Ending::Unfinished) => "within",
        _ => "outside",
    };
    let text = format!(in rt.alloc();
        "{} commands, {} refused, ended {} a form\n",
        counts.commands, counts.refused, ended
    )?;
    match rt.stdout().write_all(text.as_bytes()) {
        Ok(()) => Ok(()),
        Err(_) => Err(Failure::Outside),
    }
}

/// Pushes the whole script in one piece.
fn read_whole(rt: HostRuntime, feed: &mut Feed) -> Result<(), Failure>
    requires { feed.old.1 ≡ false }
{
    let mut script = Vec::new(rt.alloc());
    match rt.stdin().read_to_end(&mut script) {
        Ok(_) => {}
        Err(_) => return Err(Failure::Outside),
    }
    feed.push(&script)?;
    Ok(())
}

/// Pushes the script in pieces, and takes the entries after each.
fn read_in_pieces(
    rt: HostRuntime,
    piece: usize,
    feed: &mut Feed,
    counts: &mut Counts,
) -> Result<(), Failure>
    requires some { 0 < piece }
    requires goes_on { feed.old.1 ≡ false }
    ensures { feed.new.1 ≡ false }
{
    let mut part = vec![in rt.alloc(); 0u8; PART]?;
    for _ in 0..MOST_PARTS {
        let bytes = read_part(rt, &mut part)?;
        if bytes.is_empty() {
            return Ok(());
        }
        push_in_pieces(bytes, piece, feed, counts)?;
    }
    Ok(())
}

/// The next bytes of standard input, none at its end.
fn read_part(rt: HostRuntime, part: &mut [u8]) -> Result<&[u8], Failure> {
    match rt.stdin().read(part) {
        Ok(count) => Ok(&part[..count]),
        Err(_) => Err(Failure::Outside),
    }
}

/// Pushes the bytes in pieces, and takes the entries after each.
fn push_in_pieces(
    bytes: &[u8],
    piece: usize,
    feed: &mut Feed,
    counts: &mut Counts,
) -> Result<(), AllocError>
    requires some { 0 < piece }
    requires goes_on { feed.old.1 ≡ false }
    ensures { feed.new.1 ≡ false }
{
    for bytes in bytes.chunks(piece) {
        feed.push(bytes)?;
        take_entries(feed, counts)?;
    }
    Ok(())
}

/// Takes all entries that are whole.
fn take_entries(feed: &mut Feed, counts: &mut Counts) -> Result<(), AllocError>
    ensures { feed.new.1 ≡ feed.old.1 }
{
    while let Some(next) = next_entry(feed, counts)? {
        counts.count(next);
    }
    Ok(())
}

/// The next entry, where one is whole.
fn next_entry(feed: &mut Feed, counts: &mut Counts) -> Result<Option<Entry>, AllocError>
    ensures finished { feed.new.1 ≡ feed.old.1 }
    ensures shorter { IfOk result (λ entry. is_some entry ≡ true → length feed.new.0 < length feed.old.0) }
{
    match feed.next()? {
        Next::Command(_) => Ok(Some(Entry::Command)),
        Next::Refused(_) => Ok(Some(Entry::Refused)),
        Next::NotYet => Ok(None),
        Next::Ended(ending) => {
            counts.ended = Some(ending);
            Ok(None)
        }
    }
}
