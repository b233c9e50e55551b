// Types while they are inferred: nodes whose parts are nodes.
ghost use Rattle.std.specs.Prelude.{◌≡◌, ◌≢◌, ◌<◌, ◌+◌, ◌^◌, All, IfOk, OnOk, OnErr, None, Some, length, true, false};

use std::alloc::{AllocError, Global};

/// What a type is at its top.
#[derive(Clone, Copy, PartialEq, Eq)]
pub enum Head {
    Whole,
    Flag,
    Unit,
    Arrow,
    Tuple,
    Array,
    Map,
    Named(u32),
}

/// A type that isn't known yet, or one with this head and so many parts, from this place of the arena's parts on.
#[derive(Clone, Copy)]
pub enum Node {
    Open,
    Made(Head, u32, u32),
}

/// The nodes, and the parts of all of them.
#[derive(Drop)]
pub struct Arena {
    pub nodes: Vec<Node>,
    pub parts: Vec<u32>,
}

/// As many nodes as an arena can have; past them no memory is found.
pub const MOST_NODES: usize = 16_777_216;

impl Arena {
    ghost use Rattle.std.specs.Prelude.{◌++◌};
    ghost use Rattle.lq_types_unify.specs.Nodes.{form_of, FitsIn, IsArena, HasAdded, HasKept, HasFilled};

    /// No nodes.
    pub fn new(alloc: Global) -> Self
        ensures arena { IsArena result }
        ensures none { length result.nodes.items ≡ 0 }
    {
        Arena {
            nodes: Vec::new(alloc),
            parts: Vec::new(alloc),
        }
    }

    /// A new node, whose type isn't known yet, under the next number.
    pub fn open(&mut self) -> Result<u32, AllocError>
        requires { IsArena self.old }
        ensures added { IfOk result (λ node. HasAdded self.old self.new node None) }
        ensures kept { OnErr result (HasKept self.old self.new) }
    {
        self.made_of(Node::Open, &[])
    }

    /// A new node with this head over these nodes, under the next number.
    pub fn made(&mut self, head: Head, parts: &[u32]) -> Result<u32, AllocError>
        requires arena { IsArena self.old }
        requires parts { All (λ p. p < length self.old.nodes.items) parts.now }
        ensures added { IfOk result (λ node. HasAdded self.old self.new node
            (Some (record { head = head; parts = parts.now }))) }
        ensures kept { OnErr result (HasKept self.old self.new) }
    {
        if self.parts.len() > u32::MAX as usize || parts.len() > u32::MAX as usize {
            return Err(AllocError);
        }
        let node = Node::Made(head, self.parts.len() as u32, parts.len() as u32);
        self.made_of(node, parts)
    }

    // A node gets this head over these nodes.
    pub(crate) fn fill(&mut self, node: u32, head: Head, parts: &[u32]) -> Result<(), AllocError>
        requires arena { IsArena self.old }
        requires node { node < length self.old.nodes.items }
        requires parts { All (λ p. p < length self.old.nodes.items) parts.now }
        ensures filled { OnOk result (HasFilled self.old self.new node
            (Some (record { head = head; parts = parts.now }))) }
        ensures kept { OnErr result (HasKept self.old self.new) }
    {
        if self.parts.len() > u32::MAX as usize || parts.len() > u32::MAX as usize {
            return Err(AllocError);
        }
        let first = self.parts.len() as u32;
        self.parts.extend_from_slice(parts)?;
        self.nodes[node as usize] = Node::Made(head, first, parts.len() as u32);
        Ok(())
    }

    // The node behind the others, and its parts behind theirs.
    fn made_of(&mut self, node: Node, parts: &[u32]) -> Result<u32, AllocError>
        requires arena { IsArena self.old }
        requires parts { All (λ p. p < length self.old.nodes.items) parts.now }
        requires fits { FitsIn (self.old.parts.items ++ parts.now) node }
        ensures added { IfOk result (λ at. HasAdded self.old self.new at (form_of (self.old.parts.items ++
            parts.now) node)) }
        ensures kept { OnErr result (HasKept self.old self.new) }
    {
        let at = self.nodes.len();
        if at >= MOST_NODES {
            return Err(AllocError);
        }
        self.parts.extend_from_slice(parts)?;
        self.nodes.push(node)?;
        Ok(at as u32)
    }
}

/// Two nodes that are to have one type.
#[derive(Clone, Copy)]
pub struct Equation {
    pub left: u32,
    pub right: u32,
}

/// Whether two heads are the same.
pub(crate) fn is_same(head: Head, other: Head) -> bool
    ensures yes { result ≡ true → head ≡ other }
    ensures no { result ≡ false → head ≢ other }
{
    head == other
}
