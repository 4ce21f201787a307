//! What is told: an answer, or the line that says why there is none.

ghost use Rattle.std.specs.Prelude.{◌≡◌, ◌<◌, true, false, Some, length, slice_get, IfOk};
ghost use Rattle.ad_dir_model.specs.Directory.{Directory};
ghost use Rattle.ad_dir_model.specs.Soundness.{IsSound};
ghost use Rattle.ad_control.specs.Edges.{is_node};
ghost use Rattle.ad_control.specs.Graph.{IsGraphOf, IsWhole};
ghost use Rattle.ad_control_nodes.specs.Ground.{IsGround};
ghost use Rattle.ad_control_dir.specs.Control.{AreChains, IsChainsText, ChainsTold, ControlTold, ReachTold};

use crate::graph::graph_of;
use crate::named::node_named;
use crate::standing::place_of;
use ad_chains::Way;
use ad_control::{controlling, reached};
use ad_control_graph::{Graph, Node};
use ad_control_lines::lines;
use ad_dir::Dir;
use ad_principals::NameFault;
use std::alloc::{AllocError, Global};

/// A text, and whether it is an answer; else it is the line that says why there is none.
#[derive(Drop)]
pub struct Answer {
    pub answered: bool,
    pub text: Vec<u8>,
}

fn refusal(alloc: Global, line: &[u8]) -> Result<Answer, AllocError>
    ensures { IfOk result (λ told. (told.answered ≡ false) × (told.text.items ≡ line.now)) }
{
    let text = line.to_vec(alloc)?;
    Ok(Answer {
        answered: false,
        text,
    })
}

// Of each node its shortest chain to a node, or, backwards, from it.
fn chains(
    alloc: Global,
    back: bool,
    graph: &Graph,
    place: usize,
) -> Result<Vec<Option<Way>>, AllocError>
    requires whole { IsWhole graph.now }
    requires place { place < length graph.now.nodes.items }
    ensures { IfOk result (λ ways. (dir : Directory) → IsGraphOf dir graph.now → AreChains back dir
        graph.now.nodes.items graph.now.kinds.items place ways.items) }
{
    if back {
        return reached(alloc, graph, place);
    }
    controlling(alloc, graph, place)
}

// The lines for a node.
fn text_of(alloc: Global, dir: &Dir, back: bool, node: Node) -> Result<Vec<u8>, AllocError>
    requires sound { IsSound dir.now }
    requires node { is_node dir.now node ≡ true }
    ensures { IfOk result (λ text. IsChainsText back dir.now node text.items) }
{
    let (graph, ground) = graph_of(alloc, dir)?;
    let place = place_of(dir, &ground, graph.nodes.as_slice(), node);
    let ways = chains(alloc, back, &graph, place)?;
    let text = lines(alloc, dir, back, &graph, &ground, ways.as_slice())?;
    Ok(text)
}

fn told(alloc: Global, dir: &Dir, back: bool, name: &[u8]) -> Result<Answer, AllocError>
    requires { IsSound dir.now }
    ensures { IfOk result (λ told. ChainsTold back dir.now name.now told.answered told.text.items) }
{
    match node_named(alloc, dir, name) {
        Ok(node) => {
            let text = text_of(alloc, dir, back, node)?;
            Ok(Answer {
                answered: true,
                text,
            })
        }
        Err(NameFault::NoObject) => refusal(alloc, b"no object\n"),
        Err(NameFault::Several) => refusal(alloc, b"several objects\n"),
        Err(NameFault::Memory) => Err(AllocError),
    }
}

/// Who can come to control the node of a name: a line for each node that has a chain to it, in their order, and then
/// for each of them a line with the length of its shortest chain, its first edge and what decides that. Or the line
/// that says that the name is nobody's, or several accounts'.
///
/// # Errors
///
/// Memory ran out.
pub fn control(alloc: Global, dir: &Dir, name: &str) -> Result<Answer, AllocError>
    requires { IsSound dir.now }
    ensures { IfOk result (λ told. ControlTold dir.now name.now told.answered told.text.items) }
{
    told(alloc, dir, false, name.as_bytes())
}

/// What the node of a name can come to control: a line for each node to which a chain leads from it, in their order,
/// and then for each of them a line with the length of the shortest, its last edge and what decides that. Or the line
/// that says that the name is nobody's, or several accounts'.
///
/// # Errors
///
/// Memory ran out.
pub fn reach(alloc: Global, dir: &Dir, name: &str) -> Result<Answer, AllocError>
    requires { IsSound dir.now }
    ensures { IfOk result (λ told. ReachTold dir.now name.now told.answered told.text.items) }
{
    told(alloc, dir, true, name.as_bytes())
}
