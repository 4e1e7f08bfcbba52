//! Forms, as they lie in memory: one row of nodes and one row of bytes for a whole entry.

ghost use Rattle.std.specs.Prelude.{◌≡◌, take, drop, option_map};
ghost use Rattle.sb_reader.specs.Forms.{atom_of, form_of, is_none, only_of, pair_in, pair_of, shape_of, shapes_in, Splits};

use std::mem::size_of;

/// What an atom is.
#[derive(Clone, Copy)]
pub(crate) enum Kind {
    Symbol,
    QuotedSymbol,
    Keyword,
    Numeral,
    OtherNumber,
    Text,
}

/// A part of a form. Nodes stand in the order in which a form is written.
#[derive(Clone, Copy)]
pub(crate) enum Node {
    /// An atom of so many bytes.
    Atom(Kind, u32),
    /// A list: so many of the nodes behind it are its forms, and so many bytes are theirs.
    List(u32, u32),
}

const _: () = prove!(size_of::<Node>() == 12);

/// A form of a script. Its nodes and the bytes of its atoms lie in two blocks: it takes twelve bytes for each atom and
/// each list, and the bytes of the atoms.
#[derive(Drop)]
pub struct Sexpr {
    pub(crate) nodes: Vec<Node>,
    pub(crate) bytes: Vec<u8>,
}

/// The forms of a list, in order.
#[derive(Clone, Copy)]
pub struct Shapes<'a> {
    nodes: &'a [Node],
    bytes: &'a [u8],
}

/// What a form is: an atom, or a list of forms. Bytes are as they were written, without the quotes or bars around
/// them.
#[derive(Clone, Copy)]
pub enum Shape<'a> {
    /// A symbol that was not written between bars.
    Symbol(&'a [u8]),
    /// A symbol that was written between bars.
    QuotedSymbol(&'a [u8]),
    /// A keyword, its colon included.
    Keyword(&'a [u8]),
    /// `0`, or digits without a leading zero.
    Numeral(&'a [u8]),
    /// A decimal, a hexadecimal or a binary.
    OtherNumber(&'a [u8]),
    /// A text, a quote inside it as the pair that was written.
    Text(&'a [u8]),
    List(Shapes<'a>),
}

impl Sexpr {
    /// What the form is. Takes constant time.
    pub fn shape(&self) -> Shape<'_>
        ensures { shape_of result ≡ form_of self.now }
    {
        let shapes = Shapes {
            nodes: &self.nodes,
            bytes: &self.bytes,
        };
        match shapes.split_first() {
            Some((shape, _)) => shape,
            None => Shape::List(shapes),
        }
    }
}

impl<'a> Shapes<'a> {
    /// Takes constant time.
    pub fn is_empty(self) -> bool
        ensures { result ≡ is_none (shapes_in self.entry) }
    {
        self.nodes.is_empty()
    }

    /// The first form, and the others. Takes constant time.
    pub fn split_first(self) -> Option<(Shape<'a>, Shapes<'a>)>
        ensures { Splits result (shapes_in self.entry) }
    {
        let [node, behind @ ..] = self.nodes else {
            return None;
        };
        match *node {
            Node::Atom(kind, length) => {
                let (front, bytes) = cut(self.bytes, length);
                Some((
                    atom_shape(kind, front),
                    Shapes {
                        nodes: behind,
                        bytes,
                    },
                ))
            }
            Node::List(count, length) => {
                let (inside, nodes) = cut(behind, count);
                let (front, bytes) = cut(self.bytes, length);
                let list = Shapes {
                    nodes: inside,
                    bytes: front,
                };
                Some((Shape::List(list), Shapes { nodes, bytes }))
            }
        }
    }

    /// The form, where there is one alone. Takes constant time.
    pub fn only(self) -> Option<Shape<'a>>
        ensures { option_map shape_of result ≡ only_of (shapes_in self.entry) }
    {
        let (first, others) = self.split_first()?;
        if others.is_empty() { Some(first) } else { None }
    }

    /// The two forms, where there are two. Takes constant time.
    pub fn pair(self) -> Option<(Shape<'a>, Shape<'a>)>
        ensures { option_map pair_in result ≡ pair_of (shapes_in self.entry) }
    {
        let (first, others) = self.split_first()?;
        match others.only() {
            Some(second) => Some((first, second)),
            None => None,
        }
    }
}

fn atom_shape(kind: Kind, bytes: &[u8]) -> Shape<'_>
    ensures { shape_of result ≡ atom_of kind bytes.now }
{
    match kind {
        Kind::Symbol => Shape::Symbol(bytes),
        Kind::QuotedSymbol => Shape::QuotedSymbol(bytes),
        Kind::Keyword => Shape::Keyword(bytes),
        Kind::Numeral => Shape::Numeral(bytes),
        Kind::OtherNumber => Shape::OtherNumber(bytes),
        Kind::Text => Shape::Text(bytes),
    }
}

/// The first items, and the others.
fn cut<T>(items: &[T], count: u32) -> (&[T], &[T])
    ensures first { result.0.now ≡ take count items.now }
    ensures second { result.1.now ≡ drop count items.now }
{
    items.split_at(items.len().min(count as usize))
}
