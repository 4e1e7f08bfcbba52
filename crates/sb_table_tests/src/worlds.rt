//! Worlds in memory, gone through call by call.

ghost use Rattle.std.specs.Prelude.{◌<◌, length};
ghost use Rattle.sb_world.specs.Worlds.{outside_of, faults_of};

use sb_world::{CalmWorld, InPort, MemWorld, Opened, OutPort, World, WorldError, write_all};
use std::alloc::{AllocError, Global};
use std::process::Abort;
use std::test::Fail;

/// A call, and what it is to answer.
enum Call {
    Open(InPort, Option<&'static str>, Result<(), WorldError>),
    Create(OutPort, Option<&'static str>, Result<(), WorldError>),
    /// A read of up to five bytes, and what the buffer holds behind it. It begins as zeros, and each read of a row
    /// gets the buffer as the one before it left it.
    Read(InPort, Result<usize, WorldError>, [u8; 5]),
    /// Reads of up to so many bytes, at most 16, until the end, and all of their bytes.
    ReadAll(InPort, usize, &'static [u8]),
    Write(OutPort, &'static [u8], Result<usize, WorldError>),
    WriteAll(OutPort, &'static [u8], Result<(), WorldError>),
}

/// What a port holds, or by which name it was opened or created: none where it was not, and the empty one where it was
/// without a name.
enum Held {
    Opened(InPort, Option<&'static str>),
    Created(OutPort, Option<&'static str>),
    Written(OutPort, &'static [u8]),
}

/// Some calls, then what the ports hold, and how many calls and faults a `MemWorld` has counted.
struct Stage {
    calls: &'static [Call],
    held: &'static [Held],
    counts: (u64, u64),
}

/// A world in memory, of which a write takes one byte at a time where it is slow.
#[derive(Drop)]
struct PacedWorld {
    memory: MemWorld,
    slow: bool,
}

impl World for PacedWorld {
    ghost outside = { λ w. outside_of w.memory };

    ghost faults = { λ w. faults_of w.memory };

    fn open_input(&mut self, port: InPort, name: Option<&str>) -> Result<(), WorldError> {
        self.memory.open_input(port, name)
    }

    fn create_output(&mut self, port: OutPort, name: Option<&str>) -> Result<(), WorldError> {
        self.memory.create_output(port, name)
    }

    fn read(&mut self, port: InPort, buffer: &mut [u8]) -> Result<usize, WorldError> {
        self.memory.read(port, buffer)
    }

    fn write(&mut self, port: OutPort, piece: &[u8]) -> Result<usize, WorldError> {
        if self.slow {
            return self.memory.write(port, &piece[..piece.len().min(1)]);
        }
        self.memory.write(port, piece)
    }
}

/// Whether a call is answered as it is to be. The buffer is that of the reads.
fn answers<W: World>(
    world: &mut W,
    alloc: Global,
    buffer: &mut [u8; 5],
    call: &Call,
) -> Result<bool, WorldError> {
    match call {
        Call::Open(port, name, wanted) => Ok(world.open_input(*port, *name) == *wanted),
        Call::Create(port, name, wanted) => Ok(world.create_output(*port, *name) == *wanted),
        Call::Read(port, wanted, bytes) => {
            Ok(world.read(*port, buffer) == *wanted && *buffer == *bytes)
        }
        Call::ReadAll(port, most, bytes) => gives(world, alloc, *port, *most, bytes),
        Call::Write(port, bytes, wanted) => Ok(world.write(*port, bytes) == *wanted),
        Call::WriteAll(port, bytes, wanted) => Ok(write_all(world, *port, bytes) == *wanted),
    }
}

/// Whether an input gives these bytes until its end, by reads of up to so many, at most 16.
fn gives<W: World>(
    world: &mut W,
    alloc: Global,
    port: InPort,
    most: usize,
    bytes: &[u8],
) -> Result<bool, WorldError> {
    let mut part = [0; 16];
    let mut all = Vec::new(alloc);
    let done = read_all(world, port, &mut part[..most.clamp(1, 16)], &mut all);
    let same = all.as_slice() == bytes;
    drop(all);
    done?;
    Ok(same)
}

/// What is left of an input, read as many bytes at a time as the buffer has.
fn read_all<W: World>(
    world: &mut W,
    port: InPort,
    buffer: &mut [u8],
    all: &mut Vec<u8>,
) -> Result<(), WorldError>
    requires { 0 < length buffer.old }
{
    for _ in 0..100 {
        let count = world.read(port, buffer)?;
        if count == 0 {
            break;
        }
        all.extend_from_slice(&buffer[..count])?;
    }
    Ok(())
}

/// Makes the calls in order.
fn make<W: World>(
    world: &mut W,
    rt: &impl Abort,
    alloc: Global,
    calls: &[Call],
) -> Result<(), WorldError> {
    let mut buffer = [0; 5];
    for call in calls {
        let same = answers(world, alloc, &mut buffer, call)?;
        assert!(rt; same);
    }
    Ok(())
}

/// Whether a port is opened by this name, the empty one where it has none, or is not opened.
fn is_opened(opened: &Opened, name: Option<&str>) -> bool {
    match opened {
        Opened::Not => name.is_none(),
        Opened::Nameless => name == Some(""),
        Opened::Named(opened) => name == Some(opened.as_str()),
    }
}

/// Expects the ports of a world to hold this.
macro_rules! look {
    ($rt:expr, $world:expr, $held:expr) => {
        for one in $held {
            let same = match one {
                Held::Opened(port, name) => is_opened($world.opened(*port), *name),
                Held::Created(port, name) => is_opened($world.created(*port), *name),
                Held::Written(port, bytes) => $world.written(*port) == *bytes,
            };
            assert!($rt; same);
        }
    };
}

/// Expects a world in memory to hold what a stage says, and to have counted so many calls and faults.
fn look_at_memory(rt: &impl Abort, world: &MemWorld, stage: &Stage) {
    look!(rt, world, stage.held);
    assert!(rt; world.calls() == stage.counts.0);
    assert!(rt; world.faults() == stage.counts.1);
}

fn look_calmly(rt: &impl Abort, world: &CalmWorld, held: &[Held]) {
    look!(rt, world, held);
}

const SCRIPT: &[u8] = b"(check-sat)\n";

/// Two files, of which the first takes the place of an older one.
static FILES: [(&str, &[u8]); 3] = [
    ("script.smt2", b"an older file"),
    ("script.smt2", SCRIPT),
    ("proof", b"qed"),
];

/// Gives a world in memory its files and its standard input, and makes the calls of these numbers fail.
fn prepare(memory: &mut MemWorld, failing: &[u64]) -> Result<(), AllocError> {
    for file in &FILES {
        memory.add_file(file.0, file.1)?;
    }
    memory.set_standard_input(b"(exit)")?;
    for call in failing {
        memory.fail_at(*call)?;
    }
    Ok(())
}

fn over_memory(
    world: &mut PacedWorld,
    rt: &impl Abort,
    alloc: Global,
    row: &Row,
) -> Result<(), WorldError> {
    prepare(&mut world.memory, row.2)?;
    for stage in row.3 {
        make(world, rt, alloc, stage.calls)?;
        look_at_memory(rt, &world.memory, stage);
    }
    Ok(())
}

/// Goes through the stages of a row over a world in memory.
fn expect_in_memory(rt: &impl Abort, alloc: Global, row: &Row) -> Result<(), WorldError> {
    let mut memory = MemWorld::new(alloc);
    memory.read_at_most(row.1.max(1));
    let mut world = PacedWorld {
        memory,
        slow: row.0,
    };
    let done = over_memory(&mut world, rt, alloc, row);
    drop(world);
    done
}

fn over_calm(
    world: &mut CalmWorld,
    rt: &impl Abort,
    alloc: Global,
    stages: &[Stage],
) -> Result<(), WorldError> {
    for file in &FILES {
        world.add_file(file.0, file.1)?;
    }
    world.set_standard_input(b"(exit)")?;
    for stage in stages {
        make(world, rt, alloc, stage.calls)?;
        look_calmly(rt, world, stage.held);
    }
    Ok(())
}

/// Goes through the stages over a `CalmWorld`, which counts nothing.
fn expect_calmly(rt: &impl Abort, alloc: Global, stages: &[Stage]) -> Result<(), WorldError> {
    let mut world = CalmWorld::new(alloc);
    let done = over_calm(&mut world, rt, alloc, stages);
    drop(world);
    done
}

/// Opens each input anew, and reads it to its end.
const EACH: Stage = Stage {
    calls: &[
        Call::Open(InPort::Script, Some("script.smt2"), Ok(())),
        Call::ReadAll(InPort::Script, 5, SCRIPT),
        Call::Open(InPort::Proof, Some("proof"), Ok(())),
        Call::ReadAll(InPort::Proof, 5, b"qed"),
        Call::Open(InPort::Script, None, Ok(())),
        Call::ReadAll(InPort::Script, 5, b"(exit)"),
        Call::Open(InPort::Script, Some("script.smt2"), Ok(())),
        Call::ReadAll(InPort::Script, 5, SCRIPT),
    ],
    held: &[],
    counts: (17, 0),
};

/// Reads the first bytes of one input and then of the other, and goes on with the first.
const IN_TURN: &[Call] = &[
    Call::Open(InPort::Script, Some("script.smt2"), Ok(())),
    Call::Open(InPort::Proof, Some("proof"), Ok(())),
    Call::Read(InPort::Script, Ok(5), *b"(chec"),
    Call::Read(InPort::Proof, Ok(3), *b"qedec"),
    Call::Read(InPort::Script, Ok(5), *b"k-sat"),
    Call::Read(InPort::Proof, Ok(0), *b"k-sat"),
    Call::Read(InPort::Script, Ok(2), *b")\nsat"),
    Call::Read(InPort::Script, Ok(0), *b")\nsat"),
];

const BY_NAME: &[Held] = &[
    Held::Opened(InPort::Script, Some("script.smt2")),
    Held::Opened(InPort::Proof, Some("proof")),
];

const INPUTS: [Stage; 2] = [
    EACH,
    Stage {
        calls: IN_TURN,
        held: BY_NAME,
        counts: (25, 0),
    },
];

const WHOLE: &[Call] = &[
    Call::Open(InPort::Script, Some("script.smt2"), Ok(())),
    Call::ReadAll(InPort::Script, 16, SCRIPT),
];

/// The file's twelve bytes, read one, two and seven at a time, and the read of its end.
const BY_ONE: [Stage; 1] = [Stage {
    calls: WHOLE,
    held: &[],
    counts: (14, 0),
}];

const BY_TWO: [Stage; 1] = [Stage {
    calls: WHOLE,
    held: &[],
    counts: (8, 0),
}];

const BY_SEVEN: [Stage; 1] = [Stage {
    calls: WHOLE,
    held: &[],
    counts: (4, 0),
}];

/// An unknown name fails, and leaves the input as it was.
const UNKNOWN_FAILS: [Stage; 1] = [Stage {
    calls: &[
        Call::Open(InPort::Proof, Some("proof"), Ok(())),
        Call::Open(InPort::Proof, Some("absent"), Err(WorldError::Failed)),
        Call::ReadAll(InPort::Proof, 16, b"qed"),
    ],
    held: &[Held::Opened(InPort::Proof, Some("proof"))],
    counts: (4, 1),
}];

/// An unknown name is an empty file.
const UNKNOWN_IS_EMPTY: [Stage; 1] = [Stage {
    calls: &[
        Call::Open(InPort::Proof, Some("proof"), Ok(())),
        Call::Open(InPort::Proof, Some("absent"), Ok(())),
        Call::ReadAll(InPort::Proof, 16, b""),
    ],
    held: &[Held::Opened(InPort::Proof, Some("absent"))],
    counts: (3, 0),
}];

/// Writes to two outputs that were never created, and to one that is created twice.
const WRITES: &[Call] = &[
    Call::WriteAll(OutPort::Answers, b"un", Ok(())),
    Call::WriteAll(OutPort::Answers, b"sat\n", Ok(())),
    Call::WriteAll(OutPort::Faults, b"odd", Ok(())),
    Call::Create(OutPort::Proof, None, Ok(())),
    Call::WriteAll(OutPort::Proof, b"lost", Ok(())),
    Call::Create(OutPort::Proof, Some("proof"), Ok(())),
    Call::WriteAll(OutPort::Proof, b"p1\n", Ok(())),
    Call::WriteAll(OutPort::Proof, b"p2\n", Ok(())),
];

const WRITTEN: &[Held] = &[
    Held::Written(OutPort::Answers, b"unsat\n"),
    Held::Written(OutPort::Faults, b"odd"),
    Held::Written(OutPort::Proof, b"p1\np2\n"),
    Held::Created(OutPort::Proof, Some("proof")),
    Held::Created(OutPort::Answers, None),
];

const OUTPUTS: [Stage; 1] = [Stage {
    calls: WRITES,
    held: WRITTEN,
    counts: (8, 0),
}];

/// A call for each of 19 bytes, and for each creation.
const BYTES: [Stage; 1] = [Stage {
    calls: WRITES,
    held: WRITTEN,
    counts: (21, 0),
}];

const FAILING: [Stage; 2] = [
    // an opening, and then each call once, which fails
    Stage {
        calls: &[
            Call::Open(InPort::Proof, Some("proof"), Ok(())),
            Call::Open(InPort::Script, None, Err(WorldError::Failed)),
            Call::Create(OutPort::Proof, None, Err(WorldError::Failed)),
            Call::Read(InPort::Proof, Err(WorldError::Failed), [0; 5]),
            Call::Write(OutPort::Answers, b"unsat\n", Err(WorldError::Failed)),
        ],
        held: &[
            Held::Opened(InPort::Script, None),
            Held::Created(OutPort::Proof, None),
            Held::Written(OutPort::Answers, b""),
        ],
        counts: (5, 4),
    },
    // and no call behind them
    Stage {
        calls: IN_TURN,
        held: BY_NAME,
        counts: (13, 4),
    },
];

const CUT: [Stage; 1] = [Stage {
    calls: &[Call::WriteAll(OutPort::Answers, b"unsat\n", Err(WorldError::Failed))],
    held: &[Held::Written(OutPort::Answers, b"uns")],
    counts: (4, 1),
}];

/// Whether writes are slow, how many bytes a read gives at most, which calls fail, and the stages.
type Row = (bool, usize, &'static [u64], &'static [Stage]);

/// Inputs give their files and standard input, and reads of any length give the bytes in order; an unknown name fails;
/// outputs collect their bytes; a listed call fails once and changes nothing; a write that fails in mid-stream leaves the
/// front.
static IN_MEMORY: [Row; 9] = [
    (false, usize::MAX, &[], &INPUTS),
    (false, 1, &[], &BY_ONE),
    (false, 2, &[], &BY_TWO),
    (false, 7, &[], &BY_SEVEN),
    (false, usize::MAX, &[], &UNKNOWN_FAILS),
    (false, usize::MAX, &[], &OUTPUTS),
    (true, usize::MAX, &[], &BYTES),
    (false, usize::MAX, &[2, 3, 4, 5], &FAILING),
    (true, usize::MAX, &[4], &CUT),
];

/// In a calm world an unknown name is empty, and nothing fails.
static CALM: [&[Stage]; 3] = [&INPUTS, &UNKNOWN_IS_EMPTY, &OUTPUTS];

/// Goes through the rows of both.
fn expect_answers(rt: &impl Abort, alloc: Global) -> Result<(), WorldError> {
    for row in &IN_MEMORY {
        expect_in_memory(rt, alloc, row)?;
    }
    for stages in &CALM {
        expect_calmly(rt, alloc, stages)?;
    }
    Ok(())
}

#[test]
fn worlds_answer_each_call(rt: HostRuntime) -> Result<(), Fail> {
    expect_answers(&rt, rt.alloc())?;
    Ok(())
}
