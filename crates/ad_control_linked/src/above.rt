//! Arcs from who is told yes to a question at a container above an account.

ghost use Rattle.std.specs.Prelude.{◌≡◌, ◌<◌, List, Some, true, length, OnOk};
ghost use Rattle.std.specs.List.{list_any};
ghost use Rattle.ad_dir_model.specs.Objects.{is_live};
ghost use Rattle.ad_policies.specs.Policies.{above};
ghost use Rattle.ad_control_graph.specs.declared.node.Node.{Node as NodeValue};
ghost use Rattle.ad_control_graph.specs.Drawing.{IsOver, IsSteady, Adds, KeepsSets, IsBy};
ghost use Rattle.ad_control.specs.Edges.{asks_there};
ghost use Rattle.ad_control_nodes.specs.Ground.{IsGround};
ghost use Rattle.ad_control_asked.specs.Asked.{IsJudging};

use ad_control_asked::{Judging, draw_asked};
use ad_control_graph::{Graph, Kind};
use ad_control_nodes::Ground;
use ad_dir::Dir;
use ad_policies::above;
use ad_questions::question_of;
use std::alloc::{AllocError, Global};

/// Draws arcs of a kind to the node of a live object, from the tokens that are told yes to the question of a text at a
/// container above the object; none, where no question has the text.
///
/// # Errors
///
/// Out of memory. What is left then is of no use.
pub fn draw_above(
    alloc: Global,
    dir: &Dir,
    ground: &Ground,
    judging: &mut Judging,
    graph: &mut Graph,
    kind: Kind,
    number: u32,
    text: &[u8],
    to: usize,
) -> Result<(), AllocError>
    requires live { is_live dir.now.objects number ≡ true }
    requires steady { IsSteady graph.now }
    requires ground { IsGround dir.now graph.now.nodes.items ground.now }
    requires judging { IsJudging dir.now ground.now graph.now judging.now }
    requires to { to < length graph.now.nodes.items }
    ensures over { OnOk result ((nodes : List NodeValue) → IsOver nodes graph.old → IsOver nodes graph.new) }
    ensures sets { OnOk result (KeepsSets graph.old graph.new) }
    ensures judging { OnOk result (IsJudging dir.now ground.now graph.new judging.new) }
    ensures adds { OnOk result (Adds graph.old graph.new kind to (IsBy ground.now.parties.tokens.all.items
        ground.now.at.items (λ token. list_any (asks_there dir.now (Some token) text.now)
        (above dir.now number)))) }
{
    let question = question_of(dir.schema(), text);
    let containers = above(alloc, dir, number)?;
    let all = containers.as_slice();
    for container in all {
        draw_asked(
            alloc, dir, ground, judging, graph, kind, *container, question, to,
        )?;
    }
    Ok(())
}
