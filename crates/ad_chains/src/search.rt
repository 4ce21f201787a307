//! The search, level by level.

ghost use Rattle.std.specs.Prelude.{◌≡◌, ◌<◌, ℕ, None, length, map, IfOk, OnOk};
ghost use Rattle.ad_chains.specs.Chain.{link_at, AreChainsTo, AreChainsFrom};
ghost use Rattle.ad_chains.specs.Work.{IsWithin, IsIndexOf};

use crate::edge::{Edge, all_turned};
use crate::index::index_of;
use crate::level::next_frontier;
use crate::link::{Link, blank};
use crate::marking::mark;
use std::alloc::{AllocError, Global};

// Marks each node from which a chain leads to the end.
fn mark_all(
    alloc: Global,
    links: &mut [Option<Link>],
    edges: &[Edge],
    index: &[Vec<usize>],
    end: usize,
) -> Result<(), AllocError>
    requires within { IsWithin (length links.old) edges.now }
    requires index { IsIndexOf edges.now index.now }
    requires end { end < length links.old }
    requires blank { (x : ℕ) → link_at links.old x ≡ None }
    ensures long { OnOk result (length links.new ≡ length links.old) }
    ensures chains { OnOk result (AreChainsTo edges.now end links.new) }
{
    let mut frontier = Vec::new(alloc);
    let last = Link {
        length: 0,
        step: None,
    };
    mark(links, &mut frontier, end, last)?;
    let mut level = 0;
    'levels: while !frontier.is_empty() {
        frontier = next_frontier(alloc, links, edges, index, frontier, level)?;
        level += 1;
    }
    Ok(())
}

/// Of each of so many nodes, the shortest chain that leads to a node.
///
/// # Errors
///
/// Out of memory.
pub fn chains_to(
    alloc: Global,
    count: usize,
    edges: &[Edge],
    end: usize,
) -> Result<Vec<Option<Link>>, AllocError>
    requires within { IsWithin count edges.now }
    requires end { end < count }
    ensures long { IfOk result (λ links. length links.items ≡ count) }
    ensures chains { IfOk result (λ links. AreChainsTo edges.now end links.items) }
{
    let index = index_of(alloc, count, edges)?;
    let mut links = blank(alloc, count)?;
    mark_all(alloc, &mut links, edges, &index, end)?;
    Ok(links)
}

/// Of each of so many nodes, the shortest chain that leads to it from a node. The step of a link is the last edge of
/// the chain.
///
/// # Errors
///
/// Out of memory.
pub fn chains_from(
    alloc: Global,
    count: usize,
    edges: &[Edge],
    start: usize,
) -> Result<Vec<Option<Link>>, AllocError>
    requires within { IsWithin count edges.now }
    requires start { start < count }
    ensures long { IfOk result (λ links. length links.items ≡ count) }
    ensures chains { IfOk result (λ links. AreChainsFrom edges.now start links.items) }
{
    let turned = all_turned(alloc, edges)?;
    let links = chains_to(alloc, count, turned.as_slice(), start)?;
    Ok(links)
}
