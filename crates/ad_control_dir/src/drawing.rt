//! All edges, drawn one after the other.

ghost use Rattle.std.specs.Prelude.{◌≡◌, ◌<◌, Some, true, All, length, slice_get, OnOk, IfOk};
ghost use Rattle.ad_dir_model.specs.Objects.{is_live, numbers};
ghost use Rattle.ad_dir_model.specs.Soundness.{IsSound};
ghost use Rattle.ad_control_graph.specs.Kinds.{row, kinds};
ghost use Rattle.ad_control_graph.specs.declared.node.Node.TheVariants as node;
ghost use Rattle.ad_control.specs.Edges.{is_of};
ghost use Rattle.ad_control_nodes.specs.Ground.{IsGround};
ghost use Rattle.ad_control_asked.specs.Asked.{IsJudging, AreWays};
ghost use Rattle.ad_control_placed.specs.Places.{ArePlaces};
ghost use Rattle.ad_control_dir.specs.Drawn.{IsDrawing, IsDrawn, Grows};

use ad_control_asked::{Judging, Ways, draw_ways};
use ad_control_graph::{Graph, Kind};
use ad_control_held::draw_held;
use ad_control_nodes::{Ground, is_of};
use ad_control_placed::{Places, draw_placed};
use ad_dir::Dir;
use std::alloc::{AllocError, Global};

// Draws the edges of a kind to an object to which the kind leads, and which stands at a place among the nodes.
fn draw_parts(
    alloc: Global,
    dir: &Dir,
    ground: &Ground,
    judging: &mut Judging,
    graph: &mut Graph,
    ways: &Ways,
    places: &mut Places,
    kind: Kind,
    number: u32,
    to: usize,
) -> Result<(), AllocError>
    requires live { is_live dir.now.objects number ≡ true }
    requires of { is_of dir.now (row kind).of number ≡ true }
    requires drawing { IsDrawing dir.now ground.now graph.now }
    requires judging { IsJudging dir.now ground.now graph.now judging.now }
    requires ways { AreWays dir.now.schema ways.now }
    requires places { ArePlaces dir.now graph.now.nodes.items graph.now places.now }
    requires to { slice_get graph.now.nodes.items to ≡ Some (node.Object number) }
    ensures drawing { OnOk result (IsDrawing dir.now ground.now graph.new) }
    ensures judging { OnOk result (IsJudging dir.now ground.now graph.new judging.new) }
    ensures places { OnOk result (ArePlaces dir.now graph.new.nodes.items graph.new places.new) }
    ensures grows { OnOk result (Grows dir.now graph.old graph.new) }
    ensures drawn { OnOk result (IsDrawn dir.now graph.new kind number) }
{
    draw_ways(alloc, dir, ground, judging, graph, ways, kind, number, to)?;
    draw_held(alloc, dir, ground, graph, kind, number, to)?;
    draw_placed(alloc, dir, ground, judging, graph, places, kind, number, to)?;
    Ok(())
}

// The place of a live object among the nodes.
fn place_of(dir: &Dir, ground: &Ground, graph: &Graph, number: u32) -> usize
    requires live { is_live dir.now.objects number ≡ true }
    requires drawing { IsDrawing dir.now ground.now graph.now }
    ensures { slice_get graph.now.nodes.items result ≡ Some (node.Object number) }
{
    match ground.objects.get(&number) {
        Some(place) => *place,
        None => unreachable!(),
    }
}

// Draws those of a kind to a live object.
fn draw_to(
    alloc: Global,
    dir: &Dir,
    ground: &Ground,
    judging: &mut Judging,
    graph: &mut Graph,
    ways: &Ways,
    places: &mut Places,
    kind: Kind,
    number: u32,
) -> Result<(), AllocError>
    requires live { is_live dir.now.objects number ≡ true }
    requires drawing { IsDrawing dir.now ground.now graph.now }
    requires judging { IsJudging dir.now ground.now graph.now judging.now }
    requires ways { AreWays dir.now.schema ways.now }
    requires places { ArePlaces dir.now graph.now.nodes.items graph.now places.now }
    ensures drawing { OnOk result (IsDrawing dir.now ground.now graph.new) }
    ensures judging { OnOk result (IsJudging dir.now ground.now graph.new judging.new) }
    ensures places { OnOk result (ArePlaces dir.now graph.new.nodes.items graph.new places.new) }
    ensures grows { OnOk result (Grows dir.now graph.old graph.new) }
    ensures drawn { OnOk result (IsDrawn dir.now graph.new kind number) }
{
    if !is_of(dir, kind, number) {
        return Ok(());
    }
    let to = place_of(dir, ground, graph, number);
    draw_parts(
        alloc, dir, ground, judging, graph, ways, places, kind, number, to,
    )
}

// Draws those of a kind to live objects.
fn draw_kind(
    alloc: Global,
    dir: &Dir,
    ground: &Ground,
    judging: &mut Judging,
    graph: &mut Graph,
    ways: &Ways,
    places: &mut Places,
    kind: Kind,
    numbers: &[u32],
) -> Result<(), AllocError>
    requires live { All (λ number. is_live dir.now.objects number ≡ true) numbers.now }
    requires drawing { IsDrawing dir.now ground.now graph.now }
    requires judging { IsJudging dir.now ground.now graph.now judging.now }
    requires ways { AreWays dir.now.schema ways.now }
    requires places { ArePlaces dir.now graph.now.nodes.items graph.now places.now }
    ensures drawing { OnOk result (IsDrawing dir.now ground.now graph.new) }
    ensures judging { OnOk result (IsJudging dir.now ground.now graph.new judging.new) }
    ensures places { OnOk result (ArePlaces dir.now graph.new.nodes.items graph.new places.new) }
    ensures grows { OnOk result (Grows dir.now graph.old graph.new) }
    ensures drawn { OnOk result (All (IsDrawn dir.now graph.new kind) numbers.now) }
{
    for number in numbers {
        draw_to(
            alloc, dir, ground, judging, graph, ways, places, kind, *number,
        )?;
    }
    Ok(())
}

// Draws those of kinds.
fn draw_kinds(
    alloc: Global,
    dir: &Dir,
    ground: &Ground,
    judging: &mut Judging,
    graph: &mut Graph,
    ways: &Ways,
    places: &mut Places,
    kinds: &[Kind],
    numbers: &[u32],
) -> Result<(), AllocError>
    requires live { All (λ number. is_live dir.now.objects number ≡ true) numbers.now }
    requires drawing { IsDrawing dir.now ground.now graph.now }
    requires judging { IsJudging dir.now ground.now graph.now judging.now }
    requires ways { AreWays dir.now.schema ways.now }
    requires places { ArePlaces dir.now graph.now.nodes.items graph.now places.now }
    ensures drawing { OnOk result (IsDrawing dir.now ground.now graph.new) }
    ensures nodes { OnOk result (graph.new.nodes.items ≡ graph.old.nodes.items) }
    ensures drawn { OnOk result (All (λ kind. All (IsDrawn dir.now graph.new kind) numbers.now)
        kinds.now) }
{
    for kind in kinds {
        draw_kind(
            alloc, dir, ground, judging, graph, ways, places, *kind, numbers,
        )?;
    }
    Ok(())
}

/// Draws all edges into a graph without arcs.
///
/// # Errors
///
/// Out of memory. What is left then is of no use.
pub(crate) fn draw_all(
    alloc: Global,
    dir: &Dir,
    ground: &Ground,
    graph: &mut Graph,
) -> Result<(), AllocError>
    requires sound { IsSound dir.now }
    requires drawing { IsDrawing dir.now ground.now graph.now }
    ensures drawing { OnOk result (IsDrawing dir.now ground.now graph.new) }
    ensures nodes { OnOk result (graph.new.nodes.items ≡ graph.old.nodes.items) }
    ensures drawn { OnOk result (All (λ kind. All (IsDrawn dir.now graph.new kind)
        (numbers dir.now.objects)) kinds) }
{
    let numbers = dir.numbers(alloc)?;
    let mut judging = Judging::new(alloc, dir, ground)?;
    let ways = Ways::of(alloc, dir)?;
    let mut places = Places::of(alloc, dir)?;
    draw_kinds(
        alloc,
        dir,
        ground,
        &mut judging,
        graph,
        &ways,
        &mut places,
        &Kind::all(),
        numbers.as_slice(),
    )?;
    Ok(())
}
