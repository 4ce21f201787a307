//! Arcs from those to whom a way of a kind goes.

ghost use Rattle.std.specs.Prelude.{◌≡◌, ◌<◌, List, true, length, map, All, OnOk};
ghost use Rattle.std.specs.List.{list_any};
ghost use Rattle.ad_dir_model.specs.Objects.{is_live};
ghost use Rattle.ad_control_graph.specs.declared.node.Node.{Node as NodeValue};
ghost use Rattle.ad_control_graph.specs.Drawing.{IsSteady, IsOver, Adds, KeepsSets, IsBy};
ghost use Rattle.ad_control_nodes.specs.Ground.{IsGround};
ghost use Rattle.ad_control_nodes.specs.Parts.{ByWays};
ghost use Rattle.ad_control_asked.specs.Asked.{IsJudging, AreQuestions, known_seen, AreWays};
ghost use Rattle.ad_control_asked.specs.Asked.{is_stored, is_one_stored, goes_by};

use crate::asking::draw_all;
use crate::judging::Judging;
use crate::ways::{Known, Ways};
use ad_control_graph::{Graph, Kind};
use ad_control_nodes::Ground;
use ad_dir::Dir;
use ad_policies::first_value;
use ad_schema::AttrId;
use std::alloc::{AllocError, Global};

// ---- stored values

fn is_stored(dir: &Dir, number: u32, attr: Option<AttrId>) -> bool
    ensures { result ≡ is_stored dir.now number attr }
{
    first_value(dir, number, attr).is_some()
}

fn is_any_stored(dir: &Dir, number: u32, attrs: &[Option<AttrId>]) -> bool
    ensures { result ≡ list_any (is_stored dir.now number) attrs.now }
{
    for attr in attrs {
        if is_stored(dir, number, *attr) {
            return true;
        }
    }
    false
}

// Whether the object has a value of one of these, or none is named.
fn is_one_stored(dir: &Dir, number: u32, attrs: &[Option<AttrId>]) -> bool
    ensures { result ≡ is_one_stored dir.now number attrs.now }
{
    if attrs.is_empty() {
        return true;
    }
    is_any_stored(dir, number, attrs)
}

// ---- ways

// Draws arcs to a node from those to whom a way goes.
fn draw_way(
    alloc: Global,
    dir: &Dir,
    ground: &Ground,
    judging: &mut Judging,
    graph: &mut Graph,
    kind: Kind,
    way: &Known,
    number: u32,
    to: usize,
) -> Result<(), AllocError>
    requires live { is_live dir.now.objects number ≡ true }
    requires questions { AreQuestions dir.now.schema way.now.asks.items }
    requires ground { IsGround dir.now graph.now.nodes.items ground.now }
    requires steady { IsSteady graph.now }
    requires judging { IsJudging dir.now ground.now graph.now judging.now }
    requires to { to < length graph.now.nodes.items }
    ensures over { OnOk result ((nodes : List NodeValue) → IsOver nodes graph.old → IsOver nodes graph.new) }
    ensures judging { OnOk result (IsJudging dir.now ground.now graph.new judging.new) }
    ensures sets { OnOk result (KeepsSets graph.old graph.new) }
    ensures adds { OnOk result (Adds graph.old graph.new kind to (IsBy
        ground.now.parties.tokens.all.items ground.now.at.items
        (λ token. goes_by dir.now number token (known_seen way.now)))) }
{
    if !is_one_stored(dir, number, way.stored.as_slice()) {
        return Ok(());
    }
    draw_all(
        alloc,
        dir,
        ground,
        judging,
        graph,
        kind,
        number,
        way.asks.as_slice(),
        to,
    )
}

// Draws arcs to a node from those to whom one of some ways goes.
fn draw_each(
    alloc: Global,
    dir: &Dir,
    ground: &Ground,
    judging: &mut Judging,
    graph: &mut Graph,
    kind: Kind,
    ways: &[Known],
    number: u32,
    to: usize,
) -> Result<(), AllocError>
    requires live { is_live dir.now.objects number ≡ true }
    requires questions { All (λ way. AreQuestions dir.now.schema way.asks.items) ways.now }
    requires ground { IsGround dir.now graph.now.nodes.items ground.now }
    requires steady { IsSteady graph.now }
    requires judging { IsJudging dir.now ground.now graph.now judging.now }
    requires to { to < length graph.now.nodes.items }
    ensures over { OnOk result ((nodes : List NodeValue) → IsOver nodes graph.old → IsOver nodes graph.new) }
    ensures judging { OnOk result (IsJudging dir.now ground.now graph.new judging.new) }
    ensures sets { OnOk result (KeepsSets graph.old graph.new) }
    ensures adds { OnOk result (Adds graph.old graph.new kind to (IsBy
        ground.now.parties.tokens.all.items ground.now.at.items
        (λ token. list_any (goes_by dir.now number token) (map known_seen ways.now)))) }
{
    for way in ways {
        draw_way(alloc, dir, ground, judging, graph, kind, way, number, to)?;
    }
    Ok(())
}

/// Draws arcs of a kind to the node of a live object from those to whom one of the kind's ways goes there.
///
/// # Errors
///
/// Out of memory.
pub fn draw_ways(
    alloc: Global,
    dir: &Dir,
    ground: &Ground,
    judging: &mut Judging,
    graph: &mut Graph,
    ways: &Ways,
    kind: Kind,
    number: u32,
    to: usize,
) -> Result<(), AllocError>
    requires live { is_live dir.now.objects number ≡ true }
    requires ways { AreWays dir.now.schema ways.now }
    requires ground { IsGround dir.now graph.now.nodes.items ground.now }
    requires steady { IsSteady graph.now }
    requires judging { IsJudging dir.now ground.now graph.now judging.now }
    requires to { to < length graph.now.nodes.items }
    ensures over { OnOk result ((nodes : List NodeValue) → IsOver nodes graph.old → IsOver nodes graph.new) }
    ensures judging { OnOk result (IsJudging dir.now ground.now graph.new judging.new) }
    ensures sets { OnOk result (KeepsSets graph.old graph.new) }
    ensures adds { OnOk result (Adds graph.old graph.new kind to (ByWays dir.now
        ground.now.parties.tokens.all.items ground.now.at.items kind number)) }
{
    let known = ways.at(dir, kind);
    draw_each(alloc, dir, ground, judging, graph, kind, known, number, to)
}
