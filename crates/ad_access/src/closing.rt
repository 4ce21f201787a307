//! How the rights at the leaves of a type tree give those at the nodes above them.

ghost use Rattle.std.specs.Prelude.{◌≡◌, ℕ, ◌<◌, ◌&&◌, true, length, slice_index_or, if◌then◌else◌};
ghost use Rattle.std.specs.List.{list_all};
ghost use Rattle.ad_acl.specs.Mask.{has_bit};
ghost use Rattle.ad_types.specs.Tree.{is_tree, children, is_leaf};
ghost use Rattle.ad_access.specs.Rights.{right_at};

use ad_types::Node;

// Every wanted right at the nodes that others stand below, so that these alone decide.
fn open_inner(nodes: &[Node], want: u32, rights: &mut [u32])
    requires tree { is_tree nodes.now ≡ true }
    requires each { length rights.old ≡ length nodes.now }
    ensures len { length rights.new ≡ length nodes.now }
    ensures opened { (place : ℕ) → place < length nodes.now
        → slice_index_or rights.new place 0
        ≡ (if is_leaf nodes.now place then slice_index_or rights.old place 0 else want) }
{
    for node in nodes {
        let Some(above) = node.above else {
            continue;
        };
        rights[above] = want;
    }
}

// Takes from each node what one of its children doesn't have, from the last node up, so that a node is judged after
// all that stand below it.
fn close_upwards(nodes: &[Node], rights: &mut [u32])
    requires tree { is_tree nodes.now ≡ true }
    requires each { length rights.old ≡ length nodes.now }
    ensures len { length rights.new ≡ length nodes.now }
    ensures closed { (place bit : ℕ) → place < length nodes.now
        → right_at rights.new bit place
        ≡ (right_at rights.old bit place && list_all (right_at rights.new bit)
        (children nodes.now place)) }
{
    let mut i = nodes.len();
    while i > 0 {
        i -= 1;
        let Some(above) = nodes[i].above else {
            continue;
        };
        rights[above] &= rights[i];
    }
}

/// From the wanted rights that are granted on each node's path, those at each node: a leaf keeps them, and any
/// other has those that all its children have.
pub fn close(nodes: &[Node], want: u32, rights: &mut [u32])
    requires tree { is_tree nodes.now ≡ true }
    requires each { length rights.old ≡ length nodes.now }
    ensures len { length rights.new ≡ length nodes.now }
    ensures closed { (place bit : ℕ) → place < length nodes.now
        → right_at rights.new bit place
        ≡ (if is_leaf nodes.now place then right_at rights.old bit place
        else has_bit want bit && list_all (right_at rights.new bit) (children nodes.now place)) }
{
    open_inner(nodes, want, rights);
    close_upwards(nodes, rights);
}
