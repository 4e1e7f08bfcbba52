//! What is known of a regex from when it is made, by its node.

ghost use Rattle.std.specs.Prelude.{◌≡◌, true, length};
ghost use Rattle.sb_lang.specs.Regex.{regexes};
ghost use Rattle.sb_lang.specs.Derivative.{nullable, some_nullable, all_nullable};
ghost use Rattle.sb_lang.specs.Language.{language, some_language, all_languages};
ghost use Rattle.sb_lengths.specs.Lengths.{AreLengths};
ghost use Rattle.sb_regex.specs.Numbered.{regexes_at, AllNumbers};
ghost use Rattle.sb_regex.specs.Nodes.{node_regex, PartsBelow};

use crate::arena::Arena;
use crate::build::is_full;
use crate::node::{Node, RegexId};
use sb_lang::order::order_tells_apart;
use sb_lengths::Lengths;

impl Arena {
    /// Whether the node's regex has the empty word.
    #[tactic(auto, unfolding(sb_lang::specs::Derivative::nullable))]
    pub(crate) fn node_nullable(&self, node: &Node) -> bool
        requires { PartsBelow (length self.now) node.now }
        ensures { result ≡ nullable (node_regex self.now node.now) }
    {
        order_tells_apart();
        self.normal_regexes_each_once();
        match node {
            Node::None | Node::Set(_) => false,
            Node::Eps | Node::Star(_) => true,
            Node::Cat(a, b) => self.nullable(*a) && self.nullable(*b),
            Node::Alt(parts) => self.some_nullable(parts.as_slice()),
            Node::And(parts) => self.all_nullable(parts.as_slice()),
            Node::Not(a) => !self.nullable(*a),
            Node::Rep(a, least, most) => *least <= *most && (*least == 0 || self.nullable(*a)),
            Node::Path(a, b) => *a == *b,
        }
    }

    fn some_nullable(&self, ids: &[RegexId]) -> bool
        requires { AllNumbers self.now ids.now }
        ensures { result ≡ some_nullable (regexes (regexes_at self.now ids.now)) }
    {
        for id in ids {
            if self.nullable(*id) {
                return true;
            }
        }
        false
    }

    fn all_nullable(&self, ids: &[RegexId]) -> bool
        requires { AllNumbers self.now ids.now }
        ensures { result ≡ all_nullable (regexes (regexes_at self.now ids.now)) }
    {
        for id in ids {
            if !self.nullable(*id) {
                return false;
            }
        }
        true
    }

    /// Which lengths the words of the node's regex have. Linear in the number of parts.
    #[tactic(auto, unfolding(sb_lang::specs::Language::language))]
    pub(crate) fn node_lengths(&self, node: &Node) -> Lengths
        requires { PartsBelow (length self.now) node.now }
        ensures { AreLengths result (language (node_regex self.now node.now)) }
    {
        order_tells_apart();
        match node {
            Node::None => Lengths::none(),
            Node::Eps => Lengths::empty_word(),
            Node::Set(ranges) => Lengths::character(is_full(ranges.as_slice())),
            Node::Cat(a, b) => self.lengths(*a).cat(self.lengths(*b)),
            Node::Alt(parts) => self.some_lengths(parts.as_slice()),
            Node::And(parts) => self.all_lengths(parts.as_slice()),
            Node::Not(a) => self.lengths(*a).complement(),
            Node::Star(a) => self.lengths(*a).star(),
            Node::Rep(a, least, most) => self.lengths(*a).repeat(*least, *most),
            Node::Path(..) => Lengths::unknown(),
        }
    }

    fn some_lengths(&self, ids: &[RegexId]) -> Lengths
        requires { AllNumbers self.now ids.now }
        ensures { AreLengths result (some_language (regexes (regexes_at self.now ids.now))) }
    {
        let mut lengths = Lengths::none();
        for id in ids {
            lengths = lengths.union(self.lengths(*id));
        }
        lengths
    }

    fn all_lengths(&self, ids: &[RegexId]) -> Lengths
        requires { AllNumbers self.now ids.now }
        ensures { AreLengths result (all_languages (regexes (regexes_at self.now ids.now))) }
    {
        let mut lengths = Lengths::every();
        for id in ids {
            lengths = lengths.intersection(self.lengths(*id));
        }
        lengths
    }
}
