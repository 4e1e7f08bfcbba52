//! The end of the first entry, found as the bytes come.

ghost use Rattle.std.specs.Prelude.{◌≡◌, ℕ, ◌+◌, ◌^◌, ◌<◌, ◌≤◌, true, List, [], ◌∷◌, length, drop};
ghost use Rattle.sb_reader.specs.Tokens.{is_open_gap};
ghost use Rattle.sb_reader.specs.Feeding.{ShortensTo};
ghost use Rattle.sb_reader.specs.Scanning.{IsScan, IsStarted, FindsEnd, ScansAll, scan_to, step_in_gap, step_behind_token, step_at, found_at_end};

use crate::token::{is_line_end, is_run_byte};

/// Where a scan stands.
#[derive(Clone, Copy)]
pub(crate) enum Place {
    /// Outside a token and a comment.
    InGap,
    InComment,
    InText,
    /// Behind a quote in a text, which ends the text or is the first of a pair.
    BehindQuote,
    InQuoted,
    InRun,
}

/// What one more byte does to a scan.
#[derive(Clone, Copy)]
pub(crate) enum Step {
    /// The scan stands there, with so many parentheses open.
    To(Place, usize),
    /// The entry ends in front of the byte.
    EndsBefore,
    /// The entry ends with the byte.
    EndsBehind,
}

/// What a scan has found.
#[derive(Clone, Copy)]
pub(crate) enum Found {
    /// The entry ends behind so many bytes.
    End(usize),
    /// White space and comments alone, the last of which may go on.
    Gap,
    /// The beginning of an entry.
    Part,
}

/// How far the bytes of an entry were scanned.
#[derive(Clone, Copy)]
pub(crate) struct Scan {
    /// How many bytes were scanned.
    scanned: usize,
    /// How many parentheses are open behind them.
    depth: usize,
    place: Place,
}

impl Scan {
    /// No byte was scanned.
    pub(crate) fn new() -> Scan
        ensures scan { (bytes : List ℕ) → IsScan result bytes }
        ensures none { result.scanned ≡ 0 }
    {
        Scan {
            scanned: 0,
            depth: 0,
            place: Place::InGap,
        }
    }

    /// The semicolon of a comment was scanned.
    fn in_comment() -> Scan
        ensures scan { IsScan result (59 ∷ []) }
        ensures one { result.scanned ≡ 1 }
    {
        Scan {
            scanned: 1,
            depth: 0,
            place: Place::InComment,
        }
    }

    /// The scan with one more byte, which leads to that place.
    fn to(self, place: Place, depth: usize) -> Scan
        requires { self.scanned + 1 < 2 ^ 64 }
        ensures { result ≡ scan_to self place depth }
    {
        Scan {
            scanned: self.scanned + 1,
            depth,
            place,
        }
    }
}

/// What a byte outside a token and a comment does.
fn step_in_gap(depth: usize, byte: u8) -> Step
    requires { depth + 1 < 2 ^ 64 }
    ensures { result ≡ step_in_gap depth byte }
{
    match byte {
        b'(' => Step::To(Place::InGap, depth + 1),
        b')' if depth <= 1 => Step::EndsBehind,
        b')' => Step::To(Place::InGap, depth - 1),
        b'"' => Step::To(Place::InText, depth),
        b'|' => Step::To(Place::InQuoted, depth),
        b';' => Step::To(Place::InComment, depth),
        b'\t' | b'\n' | b'\r' | b' ' => Step::To(Place::InGap, depth),
        _ => Step::To(Place::InRun, depth),
    }
}

/// What a byte behind a token does that ends in front of it.
fn step_behind_token(depth: usize, byte: u8) -> Step
    requires { depth + 1 < 2 ^ 64 }
    ensures { result ≡ step_behind_token depth byte }
{
    if depth == 0 {
        Step::EndsBefore
    } else {
        step_in_gap(depth, byte)
    }
}

/// What a byte does where a scan stands.
fn step_at(place: Place, depth: usize, byte: u8) -> Step
    requires { depth + 1 < 2 ^ 64 }
    ensures { result ≡ step_at place depth byte }
{
    match place {
        Place::InGap => step_in_gap(depth, byte),
        Place::InComment if is_line_end(byte) => Step::To(Place::InGap, depth),
        Place::InComment => Step::To(Place::InComment, depth),
        Place::InText if byte == b'"' => Step::To(Place::BehindQuote, depth),
        Place::InText => Step::To(Place::InText, depth),
        Place::BehindQuote if byte == b'"' => Step::To(Place::InText, depth),
        Place::BehindQuote => step_behind_token(depth, byte),
        Place::InQuoted if byte != b'|' => Step::To(Place::InQuoted, depth),
        Place::InQuoted if depth == 0 => Step::EndsBehind,
        Place::InQuoted => Step::To(Place::InGap, depth),
        Place::InRun if is_run_byte(byte) => Step::To(Place::InRun, depth),
        Place::InRun => step_behind_token(depth, byte),
    }
}

/// What has been found where all bytes are scanned.
fn found_at_end(scan: Scan, ended: bool) -> Found
    ensures { result ≡ found_at_end ended scan.place scan.depth scan.scanned }
{
    match scan.place {
        Place::InGap | Place::InComment if scan.depth == 0 => Found::Gap,
        Place::BehindQuote | Place::InRun if ended && scan.depth == 0 => Found::End(scan.scanned),
        _ => Found::Part,
    }
}

/// Finds the end of the first entry, from where the scan stopped. A scan that has found the end stops in front
/// of the byte that told it, so that a second call finds it again at once. Linear in the bytes that are new.
pub(crate) fn find_end(bytes: &[u8], scan: &mut Scan, ended: bool) -> Found
    requires { IsScan scan.old bytes.now }
    ensures scan { IsScan scan.new bytes.now }
    ensures goes_on { scan.old.scanned ≤ scan.new.scanned }
    ensures all_scanned { ScansAll result scan.new bytes.now }
    ensures found { FindsEnd ended bytes.now result }
{
    for i in scan.scanned..bytes.len() {
        match step_at(scan.place, scan.depth, bytes[i]) {
            Step::To(place, depth) => *scan = scan.to(place, depth),
            Step::EndsBefore => return Found::End(i),
            Step::EndsBehind => return Found::End(i + 1),
        }
    }
    found_at_end(*scan, ended)
}

/// Leaves out white space and comments where nothing else was scanned of the bytes from `start` on: all of them, but
/// for a semicolon where the last comment goes on. Returns where what is kept starts. It takes constant time.
pub(crate) fn shorten(bytes: &mut [u8], start: usize, scan: &mut Scan) -> usize
    requires started { IsStarted bytes.old start scan.old }
    requires all { scan.old.scanned ≡ length (drop start bytes.old) }
    ensures shorter { ShortensTo (drop start bytes.old) (drop result bytes.new) }
    ensures short { is_open_gap (drop start bytes.old) ≡ true → length (drop result bytes.new) ≤ 1 }
    ensures started { IsStarted bytes.new result scan.new }
    ensures all { scan.new.scanned ≡ length (drop result bytes.new) }
{
    match scan.place {
        Place::InGap if scan.depth == 0 => {
            *scan = Scan::new();
            bytes.len()
        }
        Place::InComment if scan.depth == 0 => {
            let last = bytes.len() - 1;
            bytes[last] = b';';
            *scan = Scan::in_comment();
            last
        }
        Place::InGap | Place::InComment => start,
        Place::InText | Place::BehindQuote | Place::InQuoted | Place::InRun => start,
    }
}
