//! The nodes of regexes.

ghost use Rattle.std.specs.Prelude.{◌≡◌, IfOk};

use smallvec::SmallVec;
use std::alloc::AllocError;
use std::marker::Model;

/// The number of a regex in its arena.
#[derive(Clone, Copy, Default, PartialEq, Eq, PartialOrd, Ord, Hash)]
pub struct RegexId {
    number: u32,
}

impl Model for RegexId {
    ghost use Rattle.std.specs.Prelude.{ℕ};

    ghost Value = { ℕ };

    ghost view = { λ id. id.number };

    ghost inverse = { λ n. record { number = n } };
}

impl RegexId {
    /// The regex of a number. Want of memory where that is 2^32 or more.
    pub(crate) fn new(number: usize) -> Result<RegexId, AllocError>
        ensures { IfOk result (λ id. id ≡ number) }
    {
        match u32::try_from(number) {
            Ok(number) => Ok(RegexId { number }),
            Err(_) => Err(AllocError),
        }
    }

    /// The number itself.
    pub fn number(self) -> usize
        ensures { result ≡ self }
    {
        self.number as usize
    }
}

/// A regex whose parts are numbers.
#[derive(PartialEq, Eq, Hash, Drop)]
pub enum Node {
    /// No word.
    None,
    /// The empty word alone.
    Eps,
    /// The words of one character of a set: its ranges, with both ends of each.
    Set(Vec<(u32, u32)>),
    /// Concatenation.
    Cat(RegexId, RegexId),
    /// Union.
    Alt(SmallVec<RegexId, 4>),
    /// Intersection.
    And(SmallVec<RegexId, 4>),
    /// Complement.
    Not(RegexId),
    /// Star.
    Star(RegexId),
    /// Repetition: the body, from the first number of times to the second.
    Rep(RegexId, u64, u64),
    /// The words along which the derivative takes the first to the second.
    Path(RegexId, RegexId),
}

impl Node {
    ghost use Rattle.sb_regex.specs.Interning.{node_kind};

    /// The kind's place in the order of regexes.
    pub(crate) fn kind(&self) -> u8
        ensures { result ≡ node_kind self.now }
    {
        match self {
            Node::None => 0,
            Node::Eps => 1,
            Node::Set(_) => 2,
            Node::Cat(..) => 3,
            Node::Alt(_) => 4,
            Node::And(_) => 5,
            Node::Not(_) => 6,
            Node::Star(_) => 7,
            Node::Rep(..) => 8,
            Node::Path(..) => 9,
        }
    }
}
