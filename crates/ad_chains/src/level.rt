//! One level of the search: from the nodes of one length to those of the next.

ghost use Rattle.std.specs.Prelude.{◌≡◌, ◌+◌, ◌<◌, ◌≤◌, ◌^◌, ℕ, length, IfOk, OnOk};
ghost use Rattle.ad_chains.specs.Work.{IsWithin, AreWithin, IsIndexOf, free_count};
ghost use Rattle.ad_chains.specs.Levels.{IsLevel, IsClosed};

use crate::edge::Edge;
use crate::link::Link;
use crate::marking::mark_into;
use std::alloc::{AllocError, Global};

// Marks the nodes from which edges that don't count lead to those of the frontier, which join it.
fn close(
    links: &mut [Option<Link>],
    frontier: &mut Vec<usize>,
    edges: &[Edge],
    index: &[Vec<usize>],
    level: usize,
) -> Result<(), AllocError>
    requires within { IsWithin (length links.old) edges.now }
    requires index { IsIndexOf edges.now index.now }
    ensures long { OnOk result (length links.new ≡ length links.old) }
    ensures as_many { OnOk result (free_count links.new + length frontier.new.items ≡ free_count links.old
        + length frontier.old.items) }
    ensures grows { OnOk result (length frontier.old.items ≤ length frontier.new.items) }
    ensures levels { OnOk result ((end : ℕ) → IsLevel edges.now end links.old frontier.old.items level → IsClosed
        edges.now end links.new frontier.new.items level) }
{
    let mut at = 0;
    while at < frontier.len() {
        let node = frontier[at];
        mark_into(links, frontier, edges, index, node, false, level)?;
        at += 1;
    }
    Ok(())
}

// Marks the nodes from which edges that count lead to those of the frontier: they are the next frontier.
fn go_on(
    alloc: Global,
    links: &mut [Option<Link>],
    edges: &[Edge],
    index: &[Vec<usize>],
    frontier: &[usize],
    level: usize,
) -> Result<Vec<usize>, AllocError>
    requires within { IsWithin (length links.old) edges.now }
    requires index { IsIndexOf edges.now index.now }
    ensures long { OnOk result (length links.new ≡ length links.old) }
    ensures as_many { IfOk result (λ next. free_count links.new + length next.items ≡ free_count links.old) }
    ensures levels { IfOk result (λ next. (end : ℕ) (before : ℕ) → before + 1 ≡ level → IsClosed edges.now end
        links.old frontier.now before → IsLevel edges.now end links.new next.items level) }
{
    let mut next = Vec::new(alloc);
    for node in frontier {
        mark_into(links, &mut next, edges, index, *node, true, level)?;
    }
    Ok(next)
}

/// The next frontier: the nodes whose chains are one longer than those of this frontier.
pub(crate) fn next_frontier(
    alloc: Global,
    links: &mut [Option<Link>],
    edges: &[Edge],
    index: &[Vec<usize>],
    mut frontier: Vec<usize>,
    level: usize,
) -> Result<Vec<usize>, AllocError>
    requires within { IsWithin (length links.old) edges.now }
    requires index { IsIndexOf edges.now index.now }
    requires fits { level + 1 < 2 ^ 64 }
    ensures long { OnOk result (length links.new ≡ length links.old) }
    ensures as_many { IfOk result (λ next. free_count links.new + length next.items ≤ free_count links.old) }
    ensures levels { IfOk result (λ next. (end : ℕ) → IsLevel edges.now end links.old frontier.items level → IsLevel
        edges.now end links.new next.items (level + 1)) }
{
    close(links, &mut frontier, edges, index, level)?;
    let next = go_on(alloc, links, edges, index, frontier.as_slice(), level + 1)?;
    Ok(next)
}
