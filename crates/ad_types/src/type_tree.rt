//! A tree of object types as a value: each node names the one above it.

ghost use Rattle.std.specs.Prelude.{◌≡◌, true, Option, Some, None, if◌then◌else◌};
ghost use Rattle.ad_types.specs.Tree.{is_above, are_below, is_tree};

use ad_ids::Guid;
use std::marker::Model;

/// A node of a type tree.
#[derive(Clone, Copy, Debug, PartialEq, Eq)]
pub struct Node {
    pub guid: Guid,
    /// The index of the node above it, which is none for the root.
    pub above: Option<usize>,
}

/// A tree of GUIDs ([MS-DTYP] 2.5.3.2): classes, property sets and attributes, for each of which rights are asked. A
/// contract sees it as its nodes in order. The first node is the root, and each other names an earlier one.
#[derive(Debug, Drop)]
pub struct TypeTree {
    nodes: Vec<Node>,
}

impl Model for TypeTree {
    ghost use Rattle.std.specs.Prelude.{◌≡◌, true, List};
    ghost use Rattle.ad_types.specs.declared.type_tree.Node.{Node};
    ghost use Rattle.ad_types.specs.Tree.{is_tree};

    ghost Value = { List Node };

    ghost view = { λ tree. tree.nodes.items };

    ghost invariant = { λ tree. is_tree tree.nodes.items ≡ true };
}

// Whether this may stand above the node at a place.
fn is_above(above: Option<usize>, place: usize) -> bool
    ensures { result ≡ is_above above place }
{
    match above {
        Some(above) => above < place,
        None => place == 0,
    }
}

fn are_below(nodes: &[Node]) -> bool
    ensures { result ≡ are_below 0 nodes.now }
{
    for i in 0..nodes.len() {
        if !is_above(nodes[i].above, i) {
            return false;
        }
    }
    true
}

impl TypeTree {
    /// The tree of these nodes, in the memory that they have. It is none exactly where they make no tree: where
    /// there is no node, where one after the first has none above it, or where one doesn't name an earlier one.
    pub fn new(nodes: Vec<Node>) -> Option<TypeTree>
        ensures { result ≡ (if is_tree nodes.items then Some nodes.items else None) }
    {
        if nodes.is_empty() || !are_below(&nodes) {
            return None;
        }
        Some(TypeTree { nodes })
    }

    /// The nodes in order.
    pub fn nodes(&self) -> &[Node]
        ensures nodes { result.now ≡ self.now }
        ensures tree { is_tree self.now ≡ true }
    {
        self.nodes.as_slice()
    }
}
