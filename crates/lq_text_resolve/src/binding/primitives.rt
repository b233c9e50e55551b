// Primitives, by their names, and with a part of their arguments.
ghost use Rattle.std.specs.Prelude.{◌≡◌};
ghost use Rattle.std.specs.Option.{option_map};
ghost use Rattle.lq_text_tree.specs.TreeView.{scoped_view};
ghost use Rattle.lq_text_resolve.specs.Binding.Heads.{given, primitive_named, array_primitive, map_primitive, primitive_in};
ghost use Rattle.lq_text_resolve.specs.Binding.Views.{given_view, head_view};

use lq_base_names::Binder;
use lq_text_tree::{Expr, Node};

type Part = Box<Expr<Binder>>;

/// A primitive that lacks arguments, with those that it has.
#[derive(Drop)]
pub(crate) enum Head {
    Read,
    Print,
    Length,
    Make,
    MakeOf(Part),
    Find,
    FindOf(Part),
    Add,
    AddOf(Part),
    AddTo(Part, Part),
}

/// A primitive with one argument more: a node, once it has all.
#[derive(Drop)]
pub(crate) enum Given {
    Done(Node<Binder>),
    Lacking(Head),
}

impl Head {
    /// The primitive with one argument more.
    pub(crate) fn given(self, argument: Part) -> Given
        ensures { given_view result ≡ given (head_view self) (scoped_view argument.value) }
    {
        match self {
            Head::Read => Given::Done(Node::Read(argument)),
            Head::Print => Given::Done(Node::Print(argument)),
            Head::Length => Given::Done(Node::Length(argument)),
            Head::Make => Given::Lacking(Head::MakeOf(argument)),
            Head::MakeOf(length) => Given::Done(Node::Make(length, argument)),
            Head::Find => Given::Lacking(Head::FindOf(argument)),
            Head::FindOf(key) => Given::Done(Node::MapFind(key, argument)),
            Head::Add => Given::Lacking(Head::AddOf(argument)),
            Head::AddOf(key) => Given::Lacking(Head::AddTo(key, argument)),
            Head::AddTo(key, item) => Given::Done(Node::MapAdd(key, item, argument)),
        }
    }
}

/// The primitive of this name.
pub(crate) fn primitive_named(text: &[u8]) -> Option<Given>
    ensures { option_map given_view result ≡ primitive_named text.now }
{
    if text == b"read_int".as_slice() {
        Some(Given::Lacking(Head::Read))
    } else if text == b"print_int".as_slice() {
        Some(Given::Lacking(Head::Print))
    } else {
        None
    }
}

fn array_primitive(text: &[u8]) -> Option<Given>
    ensures { option_map given_view result ≡ array_primitive text.now }
{
    if text == b"make".as_slice() {
        Some(Given::Lacking(Head::Make))
    } else if text == b"length".as_slice() {
        Some(Given::Lacking(Head::Length))
    } else {
        None
    }
}

fn map_primitive(text: &[u8]) -> Option<Given>
    ensures { option_map given_view result ≡ map_primitive text.now }
{
    if text == b"empty".as_slice() {
        Some(Given::Done(Node::MapEmpty))
    } else if text == b"add".as_slice() {
        Some(Given::Lacking(Head::Add))
    } else if text == b"find".as_slice() {
        Some(Given::Lacking(Head::Find))
    } else {
        None
    }
}

/// The primitive of this name behind an upper name and a dot.
pub(crate) fn primitive_in(front: &[u8], text: &[u8]) -> Option<Given>
    ensures { option_map given_view result ≡ primitive_in front.now text.now }
{
    if front == b"Array".as_slice() {
        array_primitive(text)
    } else if front == b"Map".as_slice() {
        map_primitive(text)
    } else {
        None
    }
}
