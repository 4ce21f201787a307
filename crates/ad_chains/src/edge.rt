//! The edges of a graph.

ghost use Rattle.std.specs.Prelude.{◌≡◌, map, IfOk};
ghost use Rattle.ad_chains.specs.Chain.{turned};

use std::alloc::{AllocError, Global};

/// An edge: from a node to a node, and whether it counts in the length of a chain.
#[derive(Clone, Copy, Debug, PartialEq, Eq)]
pub struct Edge {
    pub from: usize,
    pub to: usize,
    pub counts: bool,
}

fn turned(edge: Edge) -> Edge
    ensures { result ≡ turned edge }
{
    Edge {
        from: edge.to,
        to: edge.from,
        counts: edge.counts,
    }
}

/// Each edge turned round.
pub(crate) fn all_turned(alloc: Global, edges: &[Edge]) -> Result<Vec<Edge>, AllocError>
    ensures { IfOk result (λ found. found.items ≡ map turned edges.now) }
{
    let mut found = Vec::with_capacity(alloc, edges.len())?;
    for edge in edges {
        found.push(turned(*edge))?;
    }
    Ok(found)
}
