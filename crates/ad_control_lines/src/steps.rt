//! The lines of steps.

ghost use Rattle.std.specs.Prelude.{◌≡◌, ◌++◌, ◌<◌, ℕ, List, Some, [], true, codes, decimal, length, slice_get};
ghost use Rattle.std.specs.Prelude.{OnOk, IfSome};
ghost use Rattle.std.specs.Option.{option_copied};
ghost use Rattle.ad_bytes.specs.Puts.{spaced, ended};
ghost use Rattle.ad_dir_model.specs.Objects.{is_live};
ghost use Rattle.ad_chains.specs.Ways.{way_at};
ghost use Rattle.ad_chains.specs.declared.ways.Pass.{Pass as PassValue};
ghost use Rattle.ad_control_graph.specs.Kinds.{row};
ghost use Rattle.ad_control_graph.specs.declared.node.Node.TheVariants as node;
ghost use Rattle.ad_control.specs.Chains.{IsArcFrom};
ghost use Rattle.ad_control.specs.Lines.{what, IsStepLine, IsFirstLine, IsWayLine, AreTexts};
ghost use Rattle.ad_control_nodes.specs.Ground.{IsGround};
ghost use Rattle.ad_control_lines.specs.Steps.{AreSteps, IsStepOf};
ghost use Rattle.ad_control_lines.specs.Tables.{AreTables, IsAtObject};

use crate::deciding::put_what;
use crate::nodes::put_number;
use crate::numbers::way_at;
use crate::tokens::token_at;
use ad_chains::{Pass, Way};
use ad_control_graph::{Graph, Kind, Node};
use ad_control_nodes::Ground;
use ad_dir::Dir;
use ad_ids::Token;
use ad_principals::{put, put_ended, put_spaced};
use std::alloc::{AllocError, Global};

/// What is looked up once: of each node its number, and the place of its token, if it has one.
#[derive(Drop)]
pub(crate) struct Tables {
    pub(crate) numbers: Vec<usize>,
    pub(crate) owners: Vec<Option<usize>>,
}

// The number of the object that is the node at a place.
fn object_at(nodes: &[Node], x: usize) -> u32
    requires { IsAtObject nodes.now x }
    ensures { slice_get nodes.now x ≡ Some (node.Object result) }
{
    match nodes.get(x) {
        Some(Node::Object(number)) => *number,
        _ => unreachable!(),
    }
}

// A number and a line end.
fn put_last(into: &mut Vec<u8>, number: usize) -> Result<(), AllocError>
    ensures { OnOk result (into.new.items ≡ into.old.items ++ ended (decimal number)) }
{
    put_ended(into, itoa::Buffer::new().format(number).as_bytes())
}

// The line of a step of a kind between nodes with these numbers, to the object of this one.
fn put_step(
    alloc: Global,
    into: &mut Vec<u8>,
    dir: &Dir,
    length: usize,
    from: usize,
    to: usize,
    token: Option<&Token>,
    kind: Kind,
    object: u32,
) -> Result<(), AllocError>
    requires live { is_live dir.now.objects object ≡ true }
    requires alone { IfSome (option_copied token) (λ own. own.restricting ≡ []) }
    ensures { OnOk result (into.new.items ≡ into.old.items ++ (codes "step " ++ (spaced (decimal length)
        ++ (spaced (decimal from) ++ (spaced (row kind).name ++ (spaced (what dir.now (option_copied token.entry) kind
        object) ++ ended (decimal to))))))) }
{
    put(into, b"step ")?;
    put_number(into, length)?;
    put_number(into, from)?;
    put_spaced(into, kind.name())?;
    put_what(alloc, into, dir, token, kind, object)?;
    put_last(into, to)
}

// The line of an arc between the nodes at two places.
fn put_arc(
    alloc: Global,
    into: &mut Vec<u8>,
    dir: &Dir,
    graph: &Graph,
    ground: &Ground,
    tables: &Tables,
    ways: &[Option<Way>],
    length: usize,
    from: usize,
    place: usize,
    to: usize,
) -> Result<(), AllocError>
    requires ground { IsGround dir.now graph.now.nodes.items ground.now }
    requires tables { AreTables ways.now graph.now.nodes.items ground.now.at.items tables.now }
    requires arc { IsArcFrom dir.now graph.now.nodes.items graph.now.kinds.items from place to }
    ensures { OnOk result ((line : List ℕ) × (into.new.items ≡ into.old.items ++ line) × IsStepLine dir.now
        graph.now.nodes.items graph.now.kinds.items ways.now length from place to line) }
{
    let object = object_at(graph.nodes.as_slice(), to);
    let token = token_at(dir, ground, tables.owners.as_slice(), from);
    put_step(
        alloc,
        into,
        dir,
        length,
        tables.numbers[from],
        tables.numbers[to],
        token,
        graph.kinds[place],
        object,
    )
}

// That of the first step of the node at a place, or of the last one to it.
fn put_pass(
    alloc: Global,
    into: &mut Vec<u8>,
    dir: &Dir,
    back: bool,
    graph: &Graph,
    ground: &Ground,
    tables: &Tables,
    ways: &[Option<Way>],
    length: usize,
    x: usize,
    pass: Pass,
) -> Result<(), AllocError>
    requires ground { IsGround dir.now graph.now.nodes.items ground.now }
    requires tables { AreTables ways.now graph.now.nodes.items ground.now.at.items tables.now }
    requires step { IsStepOf back dir.now graph.now.nodes.items graph.now.kinds.items x pass }
    ensures { OnOk result ((line : List ℕ) × (into.new.items ≡ into.old.items ++ line) × IsFirstLine back dir.now
        graph.now.nodes.items graph.now.kinds.items ways.now length x (Some pass) line) }
{
    if back {
        return put_arc(
            alloc, into, dir, graph, ground, tables, ways, length, pass.next, pass.arc, x,
        );
    }
    put_arc(
        alloc, into, dir, graph, ground, tables, ways, length, x, pass.arc, pass.next,
    )
}

// The line of a way, where it has a step.
fn put_way(
    alloc: Global,
    into: &mut Vec<u8>,
    dir: &Dir,
    back: bool,
    graph: &Graph,
    ground: &Ground,
    tables: &Tables,
    ways: &[Option<Way>],
    x: usize,
    way: Way,
) -> Result<(), AllocError>
    requires ground { IsGround dir.now graph.now.nodes.items ground.now }
    requires tables { AreTables ways.now graph.now.nodes.items ground.now.at.items tables.now }
    requires step { (pass : PassValue) → way.first ≡ Some pass → IsStepOf back dir.now graph.now.nodes.items
        graph.now.kinds.items x pass }
    ensures { OnOk result ((line : List ℕ) × (into.new.items ≡ into.old.items ++ line) × IsFirstLine back dir.now
        graph.now.nodes.items graph.now.kinds.items ways.now way.length x way.first line) }
{
    match way.first {
        Some(pass) => put_pass(
            alloc, into, dir, back, graph, ground, tables, ways, way.length, x, pass,
        ),
        None => Ok(()),
    }
}

// The line of the node at a place, where it is told.
fn put_way_if(
    alloc: Global,
    into: &mut Vec<u8>,
    dir: &Dir,
    back: bool,
    graph: &Graph,
    ground: &Ground,
    tables: &Tables,
    ways: &[Option<Way>],
    x: usize,
) -> Result<(), AllocError>
    requires ground { IsGround dir.now graph.now.nodes.items ground.now }
    requires tables { AreTables ways.now graph.now.nodes.items ground.now.at.items tables.now }
    requires steps { AreSteps back dir.now graph.now.nodes.items graph.now.kinds.items ways.now }
    ensures { OnOk result ((line : List ℕ) × (into.new.items ≡ into.old.items ++ line) × IsWayLine back dir.now
        graph.now.nodes.items graph.now.kinds.items ways.now x (way_at ways.now x) line) }
{
    match way_at(ways, x) {
        Some(way) => put_way(alloc, into, dir, back, graph, ground, tables, ways, x, way),
        None => Ok(()),
    }
}

/// The lines of steps.
///
/// # Errors
///
/// Out of memory.
pub(crate) fn put_steps(
    alloc: Global,
    into: &mut Vec<u8>,
    dir: &Dir,
    back: bool,
    graph: &Graph,
    ground: &Ground,
    tables: &Tables,
    ways: &[Option<Way>],
) -> Result<(), AllocError>
    requires ground { IsGround dir.now graph.now.nodes.items ground.now }
    requires tables { AreTables ways.now graph.now.nodes.items ground.now.at.items tables.now }
    requires steps { AreSteps back dir.now graph.now.nodes.items graph.now.kinds.items ways.now }
    ensures { OnOk result ((text : List ℕ) × (into.new.items ≡ into.old.items ++ text)
        × AreTexts (λ x line. IsWayLine back dir.now graph.now.nodes.items graph.now.kinds.items ways.now x
        (way_at ways.now x) line) 0 (length graph.now.nodes.items) text) }
{
    for x in 0..graph.nodes.len() {
        put_way_if(alloc, into, dir, back, graph, ground, tables, ways, x)?;
    }
    Ok(())
}
