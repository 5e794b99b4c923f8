//! Nodes of paths, by the numbers of places.
ghost use Rattle.std.specs.Prelude.{◌≡◌};
ghost use Rattle.loom_sites.specs.Nodes.{node_number};

/// A node of a path, and its place.
#[derive(Clone, Copy, Debug, Drop, PartialEq, Eq)]
pub enum TableNode {
    /// A statement begins at its place, a loop turns at its back edge, or a function is left at its out place.
    Start(u16),
    /// The statement of this place is complete.
    Complete(u16),
}

/// The place of a node.
pub fn node_number(n: TableNode) -> u16
    ensures { result ≡ node_number n }
{
    match n {
        TableNode::Start(k) => k,
        TableNode::Complete(k) => k,
    }
}
