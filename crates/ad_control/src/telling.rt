//! Who comes to control a node, and what it comes to control.

ghost use Rattle.std.specs.Prelude.{◌<◌, length, IfOk};
ghost use Rattle.ad_dir_model.specs.Directory.{Directory};
ghost use Rattle.ad_control.specs.Chains.{AreControlling, AreReached};
ghost use Rattle.ad_control.specs.Graph.{IsGraphOf, IsWhole};

use ad_chains::{Way, ways_from, ways_to};
use ad_control_graph::Graph;
use std::alloc::{AllocError, Global};

/// Of each node of a graph of the directory, its shortest chain to the node at a place.
///
/// # Errors
///
/// Out of memory.
pub fn controlling(alloc: Global, graph: &Graph, end: usize) -> Result<Vec<Option<Way>>, AllocError>
    requires whole { IsWhole graph.now }
    requires end { end < length graph.now.nodes.items }
    ensures { IfOk result (λ ways. (dir : Directory) → IsGraphOf dir graph.now → AreControlling dir
        graph.now.nodes.items graph.now.kinds.items end ways.items) }
{
    let ways = ways_to(
        alloc,
        graph.nodes.len(),
        graph.sets.as_slice(),
        graph.arcs.as_slice(),
        end,
    )?;
    Ok(ways)
}

/// Of each node of a graph of the directory, the shortest chain to it from the node at a place.
///
/// # Errors
///
/// Out of memory.
pub fn reached(alloc: Global, graph: &Graph, start: usize) -> Result<Vec<Option<Way>>, AllocError>
    requires whole { IsWhole graph.now }
    requires start { start < length graph.now.nodes.items }
    ensures { IfOk result (λ ways. (dir : Directory) → IsGraphOf dir graph.now → AreReached dir
        graph.now.nodes.items graph.now.kinds.items start ways.items) }
{
    let ways = ways_from(
        alloc,
        graph.nodes.len(),
        graph.sets.as_slice(),
        graph.arcs.as_slice(),
        start,
    )?;
    Ok(ways)
}
