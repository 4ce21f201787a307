//! An arc from the node of an object.

ghost use Rattle.std.specs.Prelude.{◌≡◌, ◌<◌, List, nat_eq, length, OnOk};
ghost use Rattle.std.specs.Option.{option_and_then, option_to_list};
ghost use Rattle.indexmap.specs.IndexMap.{get};
ghost use Rattle.ad_control_graph.specs.declared.node.Node.{Node as NodeValue};
ghost use Rattle.ad_control_graph.specs.Drawing.{IsOver, IsSteady, Adds, KeepsSets};
ghost use Rattle.ad_control_nodes.specs.Ground.{IsGround};
ghost use Rattle.ad_control_linked.specs.Links.{IsOneOf};

use ad_control_graph::{Graph, Kind};
use ad_control_nodes::Ground;
use ad_dir::Dir;
use std::alloc::AllocError;

// The node of an object, if there is one and it is live.
fn node_of(ground: &Ground, number: Option<u32>) -> Option<usize>
    ensures { result ≡ option_and_then (λ n. get nat_eq ground.now.objects n) number }
{
    match number {
        Some(number) => ground.objects.get(&number).copied(),
        None => None,
    }
}

/// Draws an arc of a kind to a node from that of an object, if there is one and it is live.
///
/// # Errors
///
/// Out of memory. What is left then is of no use.
pub(crate) fn draw_object(
    dir: &Dir,
    ground: &Ground,
    graph: &mut Graph,
    kind: Kind,
    number: Option<u32>,
    to: usize,
) -> Result<(), AllocError>
    requires steady { IsSteady graph.now }
    requires ground { IsGround dir.now graph.now.nodes.items ground.now }
    requires to { to < length graph.now.nodes.items }
    ensures over { OnOk result ((nodes : List NodeValue) → IsOver nodes graph.old → IsOver nodes graph.new) }
    ensures sets { OnOk result (KeepsSets graph.old graph.new) }
    ensures adds { OnOk result (Adds graph.old graph.new kind to (IsOneOf graph.old.nodes.items
        (option_to_list number))) }
{
    match node_of(ground, number) {
        Some(from) => graph.draw_from(kind, from, to),
        None => Ok(()),
    }
}
