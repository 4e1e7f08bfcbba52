//! What is wrong with a file of cases.

/// What is wrong with a file of cases, or what failed.
#[derive(Clone, Copy, Drop)]
pub enum Fault {
    NoMemory,
    Unread,
    Block,
    Escape,
    Numbers,
    Pieces,
    Kind,
    SameName,
    NoCase,
    NoAnswers,
    Directive,
    Line,
    Fail,
}

/// What is wrong, or what failed.
pub fn text_of(fault: Fault) -> &'static str {
    match fault {
        Fault::NoMemory => "out of memory",
        Fault::Unread => "the file can't be read",
        Fault::Block => "no block is here",
        Fault::Escape => "no option or no escape of a block",
        Fault::Numbers => "no numbers from 1 on, the lesser one first",
        Fault::Pieces => "the pieces are no numbers from 1 on",
        Fault::Kind => "no kind and name of a case",
        Fault::SameName => "another case has this name",
        Fault::NoCase => "no case has begun",
        Fault::NoAnswers => "the case in front has no answers",
        Fault::Directive => "no directive",
        Fault::Line => "the proof has no line of the number of a change",
        Fault::Fail => "no call fails in this kind of case",
    }
}
