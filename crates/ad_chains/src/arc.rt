//! Arcs: edges from all members of a set at once.

ghost use Rattle.std.specs.Prelude.{◌≡◌, ◌+◌, ◌<◌, ◌^◌, ◌++◌, map, length, OnOk, IfOk};
ghost use Rattle.ad_chains.specs.Joining.{arc_edge, member_edge, edges_for, AreSetsWithin};

use crate::edge::Edge;
use std::alloc::{AllocError, Global};

/// An arc: from each member of a set, which is told by its place, to a node; and whether it counts in the length.
#[derive(Clone, Copy, Debug, PartialEq, Eq)]
pub struct Arc {
    pub set: usize,
    pub to: usize,
    pub counts: bool,
}

// The edge from the set of an arc, whose node stands after all others.
fn arc_edge(count: usize, arc: Arc) -> Edge
    requires { count + arc.set < 2 ^ 64 }
    ensures { result ≡ arc_edge count arc }
{
    Edge {
        from: count + arc.set,
        to: arc.to,
        counts: arc.counts,
    }
}

// Puts the edges from members to their set after the others.
fn push_members(edges: &mut Vec<Edge>, set: usize, members: &[usize]) -> Result<(), AllocError>
    ensures { OnOk result (edges.new.items ≡ edges.old.items ++ map (member_edge set) members.now) }
{
    for member in members {
        edges.push(Edge {
            from: *member,
            to: set,
            counts: false,
        })?;
    }
    Ok(())
}

// The edges of all arcs.
fn arc_edges(
    alloc: Global,
    count: usize,
    sets: usize,
    arcs: &[Arc],
) -> Result<Vec<Edge>, AllocError>
    requires sets { AreSetsWithin sets arcs.now }
    requires fits { count + sets < 2 ^ 64 }
    ensures { IfOk result (λ edges. edges.items ≡ map (arc_edge count) arcs.now) }
{
    let mut edges = Vec::new(alloc);
    for arc in arcs {
        edges.push(arc_edge(count, *arc))?;
    }
    Ok(edges)
}

/// The edges of arcs, each at the place of its arc, and then those from the members of each set to it.
pub(crate) fn edges_for(
    alloc: Global,
    count: usize,
    sets: &[Vec<usize>],
    arcs: &[Arc],
) -> Result<Vec<Edge>, AllocError>
    requires sets { AreSetsWithin (length sets.now) arcs.now }
    requires fits { count + length sets.now < 2 ^ 64 }
    ensures { IfOk result (λ edges. edges.items ≡ edges_for count sets.now arcs.now) }
{
    let mut edges = arc_edges(alloc, count, sets.len(), arcs)?;
    for (set, members) in sets.iter().enumerate() {
        push_members(&mut edges, count + set, members.as_slice())?;
    }
    Ok(edges)
}
