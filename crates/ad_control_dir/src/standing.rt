//! Where a node stands.

ghost use Rattle.std.specs.Prelude.{◌≡◌, ◌≢◌, ◌↔◌, ◌<◌, ℕ, true, Some, IsTrue, IfSome, IfNone, length, slice_get};
ghost use Rattle.ad_control_graph.specs.declared.node.Node.TheVariants.{Identifier};
ghost use Rattle.ad_control.specs.Edges.{is_node};
ghost use Rattle.ad_control_nodes.specs.Ground.{IsGround};

use ad_control_graph::Node;
use ad_control_nodes::Ground;
use ad_dir::Dir;
use ad_ids::Sid;

fn is_sid(node: &Node, sid: &Sid) -> bool
    ensures { IsTrue result ↔ (node.now ≡ Identifier sid.now) }
{
    match node {
        Node::Object(_) => false,
        Node::Identifier(other) => *other == *sid,
    }
}

// The place of an identifier.
fn sid_place(nodes: &[Node], sid: &Sid) -> Option<usize>
    ensures found { IfSome result (λ place. slice_get nodes.now place ≡ Some (Identifier sid.now)) }
    ensures none { IfNone result ((place : ℕ) → slice_get nodes.now place ≢ Some (Identifier sid.now)) }
{
    for place in 0..nodes.len() {
        if is_sid(&nodes[place], sid) {
            return Some(place);
        }
    }
    None
}

/// The place of a node of the directory.
pub(crate) fn place_of(dir: &Dir, ground: &Ground, nodes: &[Node], node: Node) -> usize
    requires ground { IsGround dir.now nodes.now ground.now }
    requires node { is_node dir.now node ≡ true }
    ensures { slice_get nodes.now result ≡ Some node }
{
    let found = match node {
        Node::Object(number) => ground.objects.get(&number).copied(),
        Node::Identifier(sid) => sid_place(nodes, &sid),
    };
    match found {
        Some(place) => place,
        None => unreachable!(),
    }
}
