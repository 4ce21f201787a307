//! The graph of a directory.

ghost use Rattle.std.specs.Prelude.{IfOk};
ghost use Rattle.ad_dir_model.specs.Soundness.{IsSound};
ghost use Rattle.ad_control.specs.Graph.{IsGraphOf, IsWhole};
ghost use Rattle.ad_control_nodes.specs.Ground.{AreInOrder, IsGround};

use crate::drawing::draw_all;
use ad_control::a_graph_that_is_drawn_is_whole;
use ad_control_graph::Graph;
use ad_control_nodes::{Ground, ground_of};
use ad_dir::Dir;
use std::alloc::{AllocError, Global};

/// The graph of a directory, with all edges, and what is kept of its nodes.
///
/// # Errors
///
/// Out of memory.
pub fn graph_of(alloc: Global, dir: &Dir) -> Result<(Graph, Ground), AllocError>
    requires { IsSound dir.now }
    ensures order { IfOk result (λ made. AreInOrder dir.now made.0.nodes.items) }
    ensures ground { IfOk result (λ made. IsGround dir.now made.0.nodes.items made.1) }
    ensures graph { IfOk result (λ made. IsGraphOf dir.now made.0) }
    ensures whole { IfOk result (λ made. IsWhole made.0) }
{
    let (nodes, ground) = ground_of(alloc, dir)?;
    let mut graph = Graph::over(alloc, nodes)?;
    draw_all(alloc, dir, &ground, &mut graph)?;
    a_graph_that_is_drawn_is_whole(&graph);
    Ok((graph, ground))
}
