//! Arcs by where objects stand, place by place of a row.

ghost use Rattle.std.specs.Prelude.{◌≡◌, ◌<◌, ◌∷◌, [], List, true, length, OnOk};
ghost use Rattle.ad_dir_model.specs.Objects.{is_live};
ghost use Rattle.ad_control_graph.specs.declared.node.Node.{Node as NodeValue};
ghost use Rattle.ad_control_graph.specs.Drawing.{IsOver, IsSteady, Adds, KeepsSets};
ghost use Rattle.ad_control_graph.specs.Texts.{stand_seen};
ghost use Rattle.ad_control_nodes.specs.Ground.{IsGround};
ghost use Rattle.ad_control_nodes.specs.Parts.{ByPlace};
ghost use Rattle.ad_control_asked.specs.Asked.{IsJudging};
ghost use Rattle.ad_control_placed.specs.Places.{ArePlaces};
ghost use Rattle.ad_control_placed.specs.Standing.{IsStanding};

use crate::members::draw_members;
use crate::objects::draw_object;
use crate::places::{Places, giver_of, holder_of};
use ad_control_asked::Judging;
use ad_control_graph::{Graph, Kind, Stand};
use ad_control_linked::{draw_above, draw_policies};
use ad_control_nodes::Ground;
use ad_dir::{Dir, ROOT};
use std::alloc::{AllocError, Global};

// Draws by one place of a row.
fn draw_stand(
    alloc: Global,
    dir: &Dir,
    ground: &Ground,
    judging: &mut Judging,
    graph: &mut Graph,
    places: &mut Places,
    kind: Kind,
    stand: Stand,
    number: u32,
    to: usize,
) -> Result<(), AllocError>
    requires live { is_live dir.now.objects number ≡ true }
    requires steady { IsSteady graph.now }
    requires ground { IsGround dir.now graph.now.nodes.items ground.now }
    requires judging { IsJudging dir.now ground.now graph.now judging.now }
    requires places { ArePlaces dir.now graph.now.nodes.items graph.now places.now }
    requires to { to < length graph.now.nodes.items }
    ensures over { OnOk result ((nodes : List NodeValue) → IsOver nodes graph.old → IsOver nodes graph.new) }
    ensures sets { OnOk result (KeepsSets graph.old graph.new) }
    ensures judging { OnOk result (IsJudging dir.now ground.now graph.new judging.new) }
    ensures places { OnOk result (ArePlaces dir.now graph.old.nodes.items graph.new places.new) }
    ensures adds { OnOk result (Adds graph.old graph.new kind to (IsStanding dir.now graph.old.nodes.items
        (stand_seen stand ∷ []) number)) }
{
    match stand {
        Stand::TheRootItself => draw_object(dir, ground, graph, kind, Some(ROOT), to),
        Stand::ItsParent => draw_object(dir, ground, graph, kind, giver_of(dir, number), to),
        Stand::ItsHolder => draw_object(dir, ground, graph, kind, holder_of(places, number), to),
        Stand::ItsPolicies => draw_policies(
            alloc,
            dir,
            ground,
            graph,
            &mut places.links,
            kind,
            number,
            to,
        ),
        Stand::Above(question) => draw_above(
            alloc, dir, ground, judging, graph, kind, number, question, to,
        ),
        Stand::ItsMembers => draw_members(alloc, dir, ground, graph, kind, number, to),
    }
}

/// Draws arcs of a kind to the node of a live object, from the nodes that the table names for the kind by where they
/// stand.
///
/// # Errors
///
/// Out of memory. What is left then is of no use.
pub fn draw_placed(
    alloc: Global,
    dir: &Dir,
    ground: &Ground,
    judging: &mut Judging,
    graph: &mut Graph,
    places: &mut Places,
    kind: Kind,
    number: u32,
    to: usize,
) -> Result<(), AllocError>
    requires live { is_live dir.now.objects number ≡ true }
    requires steady { IsSteady graph.now }
    requires ground { IsGround dir.now graph.now.nodes.items ground.now }
    requires judging { IsJudging dir.now ground.now graph.now judging.now }
    requires places { ArePlaces dir.now graph.now.nodes.items graph.now places.now }
    requires to { to < length graph.now.nodes.items }
    ensures over { OnOk result ((nodes : List NodeValue) → IsOver nodes graph.old → IsOver nodes graph.new) }
    ensures sets { OnOk result (KeepsSets graph.old graph.new) }
    ensures judging { OnOk result (IsJudging dir.now ground.now graph.new judging.new) }
    ensures places { OnOk result (ArePlaces dir.now graph.old.nodes.items graph.new places.new) }
    ensures adds { OnOk result (Adds graph.old graph.new kind to (ByPlace dir.now graph.old.nodes.items kind
        number)) }
{
    let stands = kind.stands();
    for stand in stands {
        draw_stand(
            alloc, dir, ground, judging, graph, places, kind, *stand, number, to,
        )?;
    }
    Ok(())
}
