//! The real outside of the programs: files, standard input, standard output and standard error.
//!
//! A [`StdWorld`] is a world that tells nothing of its bytes: it counts its faults, and keeps in one line what the
//! first of them was. A program hands it to the call that does its work, and says that line where the call failed. The
//! words of a program that runs are read here too, once for each program.
#![tactic(auto)]

ghost use Rattle.std.specs.Prelude.{◌≡◌, ℕ, ◌≤◌, length, Err, IfOk};
ghost use Rattle.sb_world.specs.Outside.{untold, CountsFault};
ghost use Rattle.sb_std_world.specs.Faults.{faults_of};

mod process;

pub use process::{NoWords, say, words};
use sb_world::{InPort, OutPort, World, WorldError};
use std::fs::{File, Metadata};
use std::io::{ErrorKind, Read, Write};
use std::os::unix::fs::MetadataExt;
use std::{fs, io};

/// Where the system says what it limits this program to.
const LIMITS: &str = "/proc/self/limits";

/// The system's error of a file that would become too large.
const TOO_LARGE: i32 = 27;

/// A file, with the name that it was opened by.
#[derive(Drop)]
struct Named {
    name: String,
    file: File,
}

/// Where an input port reads from.
#[derive(Drop)]
enum Source {
    Closed,
    StandardInput,
    Named(Named),
}

impl Source {
    fn read(
        &mut self,
        rt: HostRuntime,
        buffer: &mut [u8],
        failures: &mut Failures,
    ) -> Result<usize, WorldError>
        ensures within { IfOk result (λ count. count ≤ length buffer.old) }
        ensures counts { CountsFault result failures.old.count failures.new.count }
    {
        let outcome = match self {
            Source::Closed => Ok(0),
            Source::StandardInput => rt.stdin().read(buffer),
            Source::Named(named) => named.file.read(buffer),
        };
        match outcome {
            Ok(count) => Ok(count),
            Err(error) => Err(failures.error(rt, self.shown(), &error)),
        }
    }

    /// Whether it is the file that this was said of.
    fn is_of(&self, there: &Metadata) -> bool {
        match self {
            Source::Named(named) => match named.file.metadata() {
                Ok(own) => own.dev() == there.dev() && own.ino() == there.ino(),
                Err(_) => false,
            },
            _ => false,
        }
    }

    /// How a user knows it.
    fn shown(&self) -> &str {
        match self {
            Source::Closed => "no input",
            Source::StandardInput => "standard input",
            Source::Named(named) => named.name.as_str(),
        }
    }
}

/// How often the outside has failed, and what was said of the first time.
#[derive(Drop)]
struct Failures {
    count: u64,
    /// What failed and why, unless memory was wanting to say it.
    first: Option<String>,
}

impl Failures {
    /// The error of a world for an error of the system, counted where it is a fault.
    fn error(&mut self, rt: HostRuntime, place: &str, error: &io::Error) -> WorldError
        ensures { CountsFault {T = ℕ} (Err result) self.old.count self.new.count }
    {
        if error.kind() == ErrorKind::OutOfMemory {
            return WorldError::NoMemory;
        }
        if self.count == 0 {
            self.first = format!(in rt.alloc(); "{place}: {error}").ok();
        }
        self.count = self.count.saturating_add(1);
        WorldError::Failed
    }
}

/// Whether a file may be overwritten by a proof: it is empty, or begins as a proof does. A word that was forgotten in the
/// program's words must not cost a script.
fn may_be_lost(rt: HostRuntime, name: &str) -> io::Result<bool> {
    let mut front = [0; 8];
    let count = File::open(&rt, name)?.read(&mut front)?;
    Ok(count == 0 || front.starts_with(b"strproof") || front.starts_with(b"strcert"))
}

/// The file that takes a proof, made anew or emptied. A file that is the script, or that holds anything but a proof, is left
/// as it is, with the error that says so.
fn create_proof(rt: HostRuntime, script: &Source, name: &str) -> io::Result<File> {
    if let Ok(there) = fs::metadata(&rt, name) {
        if script.is_of(&there) {
            return Err(io::Error::new(
                ErrorKind::AlreadyExists,
                "this is the script, and no file for its proof",
            ));
        }
        if there.is_file() && !may_be_lost(rt, name)? {
            return Err(io::Error::new(
                ErrorKind::AlreadyExists,
                "this file holds no proof, so it is not overwritten",
            ));
        }
    }
    File::create(&rt, name)
}

/// How many bytes a file may have, where the system says that it limits that.
fn size_limit(rt: HostRuntime) -> Option<u64> {
    let mut text = [0; 4096];
    let count = File::open(&rt, LIMITS).ok()?.read(&mut text).ok()?;
    let text = str::from_utf8(&text[..count]).ok()?;
    let (_, line) = text.split_once("Max file size")?;
    line.split_whitespace().next()?.parse().ok()
}

/// The outside of a program of this system. It tells nothing of its bytes, counts its faults, and keeps what the first
/// of them was.
#[derive(Drop)]
pub struct StdWorld {
    rt: HostRuntime,
    script: Source,
    proof_in: Source,
    proof_out: Option<Named>,
    size_limit: Option<u64>,
    failures: Failures,
}

impl StdWorld {
    /// No port is opened, and nothing has failed. Takes no memory.
    pub fn new(rt: HostRuntime) -> StdWorld
        ensures { faults_of result ≡ 0 }
    {
        StdWorld {
            rt,
            script: Source::Closed,
            proof_in: Source::Closed,
            proof_out: None,
            size_limit: size_limit(rt),
            failures: Failures {
                count: 0,
                first: None,
            },
        }
    }

    /// What failed first and why, as `a.smt2: No such file or directory (os error 2)`.
    pub fn first_failure(&self) -> Option<&str> {
        self.failures.first.as_deref()
    }

    /// What of a piece fits into the file behind a port. The system would end the program for a byte more than a file may
    /// have.
    fn fitting<'p>(&self, port: OutPort, piece: &'p [u8]) -> &'p [u8]
        ensures { length result.now ≤ length piece.now }
    {
        let Some(limit) = self.size_limit else {
            return piece;
        };
        let there = match (port, &self.proof_out) {
            (OutPort::Answers, _) => fs::metadata(&self.rt, "/dev/stdout"),
            (OutPort::Faults, _) => fs::metadata(&self.rt, "/dev/stderr"),
            (OutPort::Proof, Some(named)) => named.file.metadata(),
            (OutPort::Proof, None) => return piece,
        };
        match there {
            Ok(there) if there.is_file() => {
                let room = usize::try_from(limit.saturating_sub(there.len())).unwrap_or(usize::MAX);
                &piece[..room.min(piece.len())]
            }
            _ => piece,
        }
    }
}

impl World for StdWorld {
    ghost outside = { λ _. untold };

    ghost faults = { faults_of };

    fn open_input(&mut self, port: InPort, name: Option<&str>) -> Result<(), WorldError> {
        let source = match name {
            None => Source::StandardInput,
            Some(name) => match File::open(&self.rt, name) {
                Ok(file) => Source::Named(Named {
                    name: String::from_str(self.rt.alloc(), name)?,
                    file,
                }),
                Err(error) => return Err(self.failures.error(self.rt, name, &error)),
            },
        };
        match port {
            InPort::Script => self.script = source,
            InPort::Proof => self.proof_in = source,
        }
        Ok(())
    }

    /// Standard output and standard error need no creation, and have none. A file that is there is emptied for a proof only
    /// where it is empty or begins as a proof does, and is not the script: else it is a fault, and stays.
    fn create_output(&mut self, port: OutPort, name: Option<&str>) -> Result<(), WorldError> {
        let file = match (port, name) {
            (OutPort::Proof, Some(name)) => match create_proof(self.rt, &self.script, name) {
                Ok(file) => Some(Named {
                    name: String::from_str(self.rt.alloc(), name)?,
                    file,
                }),
                Err(error) => return Err(self.failures.error(self.rt, name, &error)),
            },
            _ => None,
        };
        if port == OutPort::Proof {
            self.proof_out = file;
        }
        Ok(())
    }

    fn read(&mut self, port: InPort, buffer: &mut [u8]) -> Result<usize, WorldError> {
        let rt = self.rt;
        match port {
            InPort::Script => self.script.read(rt, buffer, &mut self.failures),
            InPort::Proof => self.proof_in.read(rt, buffer, &mut self.failures),
        }
    }

    fn write(&mut self, port: OutPort, piece: &[u8]) -> Result<usize, WorldError> {
        let fitting = self.fitting(port, piece);
        let outcome = match port {
            _ if fitting.is_empty() && !piece.is_empty() => Err(io::Error::from_raw_os_error(
                TOO_LARGE,
            )),
            OutPort::Answers => self.rt.stdout().write(fitting),
            OutPort::Faults => self.rt.stderr().write(fitting),
            OutPort::Proof => match &mut self.proof_out {
                Some(named) => named.file.write(fitting),
                None => Ok(fitting.len()),
            },
        };
        let error = match outcome {
            Ok(0) if !piece.is_empty() => io::Error::from(ErrorKind::WriteZero),
            Ok(count) => return Ok(count),
            Err(error) => error,
        };
        let place = match (port, &self.proof_out) {
            (OutPort::Answers, _) => "standard output",
            (OutPort::Faults, _) => "standard error",
            (OutPort::Proof, Some(named)) => named.name.as_str(),
            (OutPort::Proof, None) => "no output",
        };
        Err(self.failures.error(self.rt, place, &error))
    }
}
