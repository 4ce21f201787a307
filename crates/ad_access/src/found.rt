//! What a sweep has found of each node of a type tree.

ghost use Rattle.std.specs.Prelude.{◌≡◌, ℕ, ◌<◌, true, false, length, replicate, IfSome, IfOk, map, bit_or};
ghost use Rattle.ad_types.specs.Tree.{is_tree, path_at};
ghost use Rattle.ad_access.specs.Matching.{is_about};
ghost use Rattle.ad_access.specs.Found.{undecided, found_at, about_above, is_about_below, Decides, AreOpen};

use crate::rights::rights_if;
use ad_ids::Guid;
use ad_types::Node;
use std::alloc::{AllocError, Global};

/// What a sweep over the entries has found of a node so far.
#[derive(Clone, Copy)]
pub struct Found {
    /// Whether the entry that was taken last is about the node's path.
    about: bool,
    /// The wanted rights that no entry decided.
    undecided: u32,
    /// The wanted rights that an entry allowed.
    allowed: u32,
}

/// Nothing is decided of so many nodes, for each of which these rights are wanted.
pub fn undecided(alloc: Global, count: usize, want: u32) -> Result<Vec<Found>, AllocError>
    ensures { IfOk result (λ found. found.items ≡ replicate count (undecided want)) }
{
    let found = Found {
        about: false,
        undecided: want,
        allowed: 0,
    };
    vec![in alloc; found; count]
}

// Whether the entry at hand, which has been taken at all nodes before this one, is about it.
fn is_about_node(node: &Node, object: Option<Guid>, found: &[Found]) -> bool
    requires { IfSome node.now.above (λ above. above < length found.now) }
    ensures { result ≡ is_about_below object (about_above found.now node.now.above) node.now.guid }
{
    let Some(object) = object else {
        return true;
    };
    is_about_above(node.above, found) || node.guid == object
}

fn is_about_above(above: Option<usize>, found: &[Found]) -> bool
    requires { IfSome above (λ above. above < length found.now) }
    ensures { result ≡ about_above found.now above }
{
    match above {
        Some(above) => found[above].about,
        None => false,
    }
}

// What is found of a node after an entry that decides these rights.
fn decided(found: &Found, about: bool, rights: u32, allows: bool) -> Found
    ensures { Decides about rights allows found.now result }
{
    let decided = rights_if(about, found.undecided & rights);
    Found {
        about,
        undecided: found.undecided & !decided,
        allowed: found.allowed | rights_if(allows, decided),
    }
}

/// Takes an entry with this object type, which decides these rights at the nodes that it is about. Answers the
/// rights that are still undecided at some node.
pub fn take(
    nodes: &[Node],
    object: Option<Guid>,
    rights: u32,
    allows: bool,
    found: &mut [Found],
) -> u32
    requires tree { is_tree nodes.now ≡ true }
    requires each { length found.old ≡ length nodes.now }
    ensures len { length found.new ≡ length nodes.now }
    ensures decided { (place : ℕ) → place < length nodes.now
        → Decides (is_about object (path_at nodes.now place)) rights allows
        (found_at found.old place) (found_at found.new place) }
    ensures still { AreOpen (length nodes.now) found.new result }
{
    let mut open = 0;
    for i in 0..nodes.len() {
        let about = is_about_node(&nodes[i], object, found);
        let next = decided(&found[i], about, rights, allows);
        open |= next.undecided;
        found[i] = next;
    }
    open
}

/// The rights that are allowed at each node, and these others.
pub fn allowed_or(alloc: Global, found: &[Found], others: u32) -> Result<Vec<u32>, AllocError>
    ensures { IfOk result (λ rights. rights.items ≡ map (λ f. bit_or f.allowed others) found.now) }
{
    found
        .iter()
        .map(|found| found.allowed | others)
        .collect(alloc)
}
