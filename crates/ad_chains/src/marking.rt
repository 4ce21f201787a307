//! Nodes are marked, each once, and noted in a list.

ghost use Rattle.std.specs.Prelude.{◌≡◌, ◌<◌, ℕ, Some, length, get_or, OnOk};
ghost use Rattle.ad_chains.specs.declared.edge.Edge.{Edge as EdgeValue};
ghost use Rattle.ad_chains.specs.Work.{IsWithin, AreWithin, IsIndexOf, IsThis, IsListed, IsInto, Marks};

use crate::edge::Edge;
use crate::index::listed;
use crate::link::Link;
use std::alloc::AllocError;

/// Marks a node and puts it at the end of a list, where it isn't marked.
pub(crate) fn mark(
    links: &mut [Option<Link>],
    list: &mut Vec<usize>,
    node: usize,
    link: Link,
) -> Result<(), AllocError>
    requires { node < length links.old }
    ensures { OnOk result (Marks (IsThis node link) links.old list.old.items links.new list.new.items) }
{
    if links[node].is_some() {
        return Ok(());
    }
    list.push(node)?;
    links[node] = Some(link);
    Ok(())
}

// Marks the nodes where these edges begin: of those that count, or of those that don't.
fn mark_edges(
    links: &mut [Option<Link>],
    list: &mut Vec<usize>,
    edges: &[Edge],
    places: &[usize],
    counts: bool,
    level: usize,
) -> Result<(), AllocError>
    requires within { IsWithin (length links.old) edges.now }
    requires places { AreWithin (length edges.now) places.now }
    ensures { OnOk result (Marks (IsListed edges.now places.now (length places.now) counts level) links.old
        list.old.items links.new list.new.items) }
{
    for place in places {
        let edge = edges[*place];
        if edge.counts == counts {
            let link = Link {
                length: level,
                step: Some(*place),
            };
            mark(links, list, edge.from, link)?;
        }
    }
    Ok(())
}

/// Marks the nodes from which such an edge leads to a node.
pub(crate) fn mark_into(
    links: &mut [Option<Link>],
    list: &mut Vec<usize>,
    edges: &[Edge],
    index: &[Vec<usize>],
    node: usize,
    counts: bool,
    level: usize,
) -> Result<(), AllocError>
    requires within { IsWithin (length links.old) edges.now }
    requires index { IsIndexOf edges.now index.now }
    ensures { OnOk result (Marks (IsInto edges.now node counts level) links.old list.old.items links.new
        list.new.items) }
{
    mark_edges(links, list, edges, listed(index, node), counts, level)?;
    Ok(())
}
