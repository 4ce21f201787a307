//! The whole text.

ghost use Rattle.std.specs.Prelude.{IfOk};
ghost use Rattle.ad_control.specs.Lines.{AreLines};
ghost use Rattle.ad_control_nodes.specs.Ground.{IsGround};
ghost use Rattle.ad_control_lines.specs.Steps.{AreSteps};
ghost use Rattle.ad_control_lines.specs.Tables.{AreTables};

use crate::nodes::put_objects;
use crate::numbers::numbers_of;
use crate::steps::{Tables, put_steps};
use crate::tokens::owners_of;
use ad_chains::Way;
use ad_control_graph::Graph;
use ad_control_nodes::Ground;
use ad_dir::Dir;
use std::alloc::{AllocError, Global};

// What is looked up once.
fn tables_of(
    alloc: Global,
    dir: &Dir,
    graph: &Graph,
    ground: &Ground,
    ways: &[Option<Way>],
) -> Result<Tables, AllocError>
    requires { IsGround dir.now graph.now.nodes.items ground.now }
    ensures { IfOk result (AreTables ways.now graph.now.nodes.items ground.now.at.items) }
{
    let numbers = numbers_of(alloc, graph.nodes.len(), ways)?;
    let owners = owners_of(alloc, graph.nodes.len(), ground.at.as_slice())?;
    Ok(Tables { numbers, owners })
}

/// The lines of what is told of nodes: one for each node that is told, and then one for the first step of each, by a
/// token of the node where it begins; or, backwards, for the last step to each.
///
/// # Errors
///
/// Out of memory.
pub fn lines(
    alloc: Global,
    dir: &Dir,
    back: bool,
    graph: &Graph,
    ground: &Ground,
    ways: &[Option<Way>],
) -> Result<Vec<u8>, AllocError>
    requires ground { IsGround dir.now graph.now.nodes.items ground.now }
    requires steps { AreSteps back dir.now graph.now.nodes.items graph.now.kinds.items ways.now }
    ensures { IfOk result (λ text. AreLines back dir.now graph.now.nodes.items graph.now.kinds.items ways.now
        text.items) }
{
    let tables = tables_of(alloc, dir, graph, ground, ways)?;
    let mut text = Vec::new(alloc);
    put_objects(
        alloc,
        &mut text,
        dir,
        graph.nodes.as_slice(),
        tables.numbers.as_slice(),
        ways,
    )?;
    put_steps(alloc, &mut text, dir, back, graph, ground, &tables, ways)?;
    Ok(text)
}
