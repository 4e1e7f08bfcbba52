//! The words of the format.

ghost use Rattle.std.specs.Prelude.{◌≡◌, List};
ghost use Rattle.sb_rulebook.specs.Lines.{Field};
ghost use Rattle.sb_rulebook.specs.Reading.{by_table, nodes, atoms, clauses, verdicts, lines};
ghost use Rattle.sb_proof.specs.Kinds.{look_up, by_kind, node_reader, atom_reader, clause_reader, verdict_reader, line_reader};

use crate::shapes::is_word;

#[derive(Clone, Copy)]
pub(crate) enum NodeKind {
    None,
    Eps,
    Set,
    Cat,
    Alt,
    And,
    Not,
    Star,
    Rep,
    Path,
}

#[derive(Clone, Copy)]
pub(crate) enum AtomKind {
    Bool,
    In,
    Le,
    Sum,
    And,
    Iff,
}

#[derive(Clone, Copy)]
pub(crate) enum ClauseKind {
    Assertion,
    Gate,
    Order,
    Linear,
    Step,
    Empty,
    Learned,
}

#[derive(Clone, Copy)]
pub(crate) enum VerdictKind {
    Sat,
    Unsat,
    Unknown,
    Unsupported,
}

#[derive(Clone, Copy)]
pub(crate) enum LineKind {
    Header,
    Regex,
    Atom,
    Expansion,
    Dead,
    Clause,
    Verdict,
    End,
}

const NODES: &[(&str, NodeKind)] = &[
    ("none", NodeKind::None),
    ("eps", NodeKind::Eps),
    ("set", NodeKind::Set),
    ("cat", NodeKind::Cat),
    ("alt", NodeKind::Alt),
    ("and", NodeKind::And),
    ("not", NodeKind::Not),
    ("star", NodeKind::Star),
    ("rep", NodeKind::Rep),
    ("path", NodeKind::Path),
];

const ATOMS: &[(&str, AtomKind)] = &[
    ("bool", AtomKind::Bool),
    ("in", AtomKind::In),
    ("le", AtomKind::Le),
    ("sum", AtomKind::Sum),
    ("and", AtomKind::And),
    ("iff", AtomKind::Iff),
];

const CLAUSES: &[(&str, ClauseKind)] = &[
    ("assert", ClauseKind::Assertion),
    ("gate", ClauseKind::Gate),
    ("order", ClauseKind::Order),
    ("linear", ClauseKind::Linear),
    ("step", ClauseKind::Step),
    ("empty", ClauseKind::Empty),
    ("learn", ClauseKind::Learned),
];

const VERDICTS: &[(&str, VerdictKind)] = &[
    ("sat", VerdictKind::Sat),
    ("unsat", VerdictKind::Unsat),
    ("unknown", VerdictKind::Unknown),
    ("unsupported", VerdictKind::Unsupported),
];

const LINES: &[(&str, LineKind)] = &[
    ("strproof", LineKind::Header),
    ("r", LineKind::Regex),
    ("a", LineKind::Atom),
    ("x", LineKind::Expansion),
    ("d", LineKind::Dead),
    ("c", LineKind::Clause),
    ("v", LineKind::Verdict),
    ("end", LineKind::End),
];

fn kind_of<T: Copy>(table: &[(&str, T)], word: &[u8]) -> Option<T>
    ensures { result ≡ look_up table.now word.now }
{
    for (text, kind) in table {
        if is_word(word, text) {
            return Some(*kind);
        }
    }
    None
}

pub(crate) fn node_kind(word: &[u8]) -> Option<NodeKind>
    ensures { (fs : List Field) → by_table nodes word.now fs ≡ by_kind node_reader result fs }
{
    kind_of(NODES, word)
}

pub(crate) fn atom_kind(word: &[u8]) -> Option<AtomKind>
    ensures { (fs : List Field) → by_table atoms word.now fs ≡ by_kind atom_reader result fs }
{
    kind_of(ATOMS, word)
}

pub(crate) fn clause_kind(word: &[u8]) -> Option<ClauseKind>
    ensures { (fs : List Field) → by_table clauses word.now fs ≡ by_kind clause_reader result fs }
{
    kind_of(CLAUSES, word)
}

pub(crate) fn verdict_kind(word: &[u8]) -> Option<VerdictKind>
    ensures { (fs : List Field) → by_table verdicts word.now fs ≡ by_kind verdict_reader result fs }
{
    kind_of(VERDICTS, word)
}

pub(crate) fn line_kind(word: &[u8]) -> Option<LineKind>
    ensures { (fs : List Field) → by_table lines word.now fs ≡ by_kind line_reader result fs }
{
    kind_of(LINES, word)
}
