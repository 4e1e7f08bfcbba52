//! The entries of a script, handed to a session one by one.

use sb_reader::{Feed, Next};
use sb_session::{Session, SessionFault, Went};
use sb_world::MemWorld;
use std::alloc::{AllocError, Global};

/// Hands the entries of a script to a session, also those behind `(exit)`, and says how the last one went.
pub fn answer_script(
    alloc: Global,
    script: &[u8],
    world: &mut MemWorld,
) -> Result<&'static str, AllocError> {
    let mut feed = Feed::new(alloc);
    let pushed = feed.push(script);
    let status = answer_in_session(alloc, script.len(), &mut feed, world);
    drop(feed);
    match pushed {
        Ok(()) => status,
        Err(error) => Err(error),
    }
}

/// Hands so many entries at most to a new session, and says how the last one went.
fn answer_in_session(
    alloc: Global,
    most: usize,
    feed: &mut Feed,
    world: &mut MemWorld,
) -> Result<&'static str, AllocError> {
    let mut session = Session::new(alloc, false);
    let status = answer_entries(most, feed, &mut session, world);
    session.close();
    status
}

/// Hands so many entries at most to a session, and says how the last one went.
fn answer_entries(
    most: usize,
    feed: &mut Feed,
    session: &mut Session,
    world: &mut MemWorld,
) -> Result<&'static str, AllocError> {
    let mut status = "done";
    for _ in 0..=most {
        match answer_next(feed, session, world)? {
            Some(went) => status = went,
            None => break,
        }
    }
    Ok(status)
}

/// Hands the next entry to a session, where there is one, and says how it went.
fn answer_next(
    feed: &mut Feed,
    session: &mut Session,
    world: &mut MemWorld,
) -> Result<Option<&'static str>, AllocError> {
    let next = feed.next()?;
    let went = answer(&next, session, world);
    drop(next);
    Ok(went)
}

/// Hands an entry to a session, and says how it went.
fn answer(next: &Next, session: &mut Session, world: &mut MemWorld) -> Option<&'static str> {
    match next {
        Next::Command(_) | Next::Refused(_) => Some(word_of(session.command(next, world))),
        Next::NotYet | Next::Ended(_) => None,
    }
}

/// The word for how an entry went.
fn word_of(went: Result<Went, SessionFault>) -> &'static str {
    match went {
        Ok(Went::Go) => "done",
        Ok(Went::Exited) => "exited",
        Err(SessionFault::Ended) => "ended",
        Err(SessionFault::Fault) => "fault",
        Err(SessionFault::NoMemory) => "no-memory",
        Err(SessionFault::Spent) => "spent",
    }
}
