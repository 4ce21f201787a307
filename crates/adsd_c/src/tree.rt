//! Trees of object types that are given by levels.

ghost use Rattle.std.specs.Prelude.{◌≡◌, ◌++◌, ◌∷◌, [], length, OnOk, OnErr, IfErr, Err, false, Ok};
ghost use Rattle.ad_bytes.specs.Reading.{GivesUnless};
ghost use Rattle.adsd_c.specs.Refusal.{is_memory};
ghost use Rattle.adsd_c.specs.Tree.{above_at, node_below, chain_to, placed, nodes_of};

use crate::refusal::Refusal;
use ad_ids::Guid;
use ad_types::{Node, TypeTree};
use std::alloc::{AllocError, Global};

/// A node of a tree of object types: how far it stands below the root, and what it is about. The first one alone has
/// level 0, and a level is at most one more than that of the node before it.
#[repr(C)]
#[derive(Clone, Copy)]
pub struct TypeNode {
    pub level: u32,
    pub guid: [u8; 16],
}

// What stands above a node of the level, after the chain.
fn above_at(chain: &[usize], level: u32) -> Result<Option<usize>, Refusal>
    ensures { result ≡ above_at chain.now level }
{
    let level = level as usize;
    if level == 0 {
        return if chain.is_empty() {
            Ok(None)
        } else {
            Err(Refusal::Tree)
        };
    }
    if level > chain.len() {
        return Err(Refusal::Tree);
    }
    Ok(Some(chain[level - 1]))
}

// Fills the node after the others.
fn put_node(nodes: &mut Vec<Node>, next: &TypeNode, above: Option<usize>) -> Result<(), AllocError>
    ensures { OnOk result (nodes.new.items ≡ nodes.old.items ++ node_below next.now above ∷ []) }
{
    nodes.push(Node {
        guid: Guid { bytes: next.guid },
        above,
    })?;
    Ok(())
}

// Makes the chain the one down to this place.
fn put_place(chain: &mut Vec<usize>, level: u32, place: usize) -> Result<(), AllocError>
    ensures { OnOk result (chain.new.items ≡ chain_to chain.old.items level place) }
{
    chain.truncate(level as usize);
    chain.push(place)?;
    Ok(())
}

// The nodes that are given.
fn placed(alloc: Global, given: &[TypeNode]) -> Result<Vec<Node>, Refusal>
    ensures { GivesUnless is_memory (λ v. v.items) result (placed [] [] given.now) }
{
    let mut chain = Vec::new(alloc);
    let mut nodes = Vec::new(alloc);
    for next in given {
        let above = above_at(&chain, next.level)?;
        put_place(&mut chain, next.level, nodes.len())?;
        put_node(&mut nodes, next, above)?;
    }
    Ok(nodes)
}

/// The tree of the nodes that are given.
#[tactic(auto, unfolding(crate::specs::Tree::nodes_of))]
pub(crate) fn tree_of(alloc: Global, given: &[TypeNode]) -> Result<TypeTree, Refusal>
    ensures { GivesUnless is_memory (λ tree. tree) result (nodes_of given.now) }
{
    let nodes = placed(alloc, given)?;
    match TypeTree::new(nodes) {
        Some(tree) => Ok(tree),
        None => Err(Refusal::Tree),
    }
}
