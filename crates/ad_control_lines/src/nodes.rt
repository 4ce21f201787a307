//! The lines of nodes.

ghost use Rattle.std.specs.Prelude.{◌≡◌, ◌++◌, ◌<◌, ℕ, List, true, codes, decimal, length, OnOk};
ghost use Rattle.std.specs.Option.{option_map_or};
ghost use Rattle.ad_bytes.specs.Puts.{spaced, ended};
ghost use Rattle.ad_ids.specs.SidText.{sid_text};
ghost use Rattle.ad_dir_model.specs.Identity.{self_sid};
ghost use Rattle.ad_chains.specs.Ways.{way_at};
ghost use Rattle.ad_control.specs.Edges.{is_node};
ghost use Rattle.ad_control.specs.Lines.{nothing, sid_word, name_word, object_line, IsObjectLine, AreTexts};
ghost use Rattle.ad_control_lines.specs.Tables.{AreLiving, AreNumbers};

use crate::numbers::way_at;
use ad_chains::Way;
use ad_control_graph::Node;
use ad_dir::Dir;
use ad_principals::{put, put_ended, put_name, put_sid, put_spaced};
use std::alloc::{AllocError, Global};

/// A number and a blank.
pub(crate) fn put_number(into: &mut Vec<u8>, number: usize) -> Result<(), AllocError>
    ensures { OnOk result (into.new.items ≡ into.old.items ++ spaced (decimal number)) }
{
    put_spaced(into, itoa::Buffer::new().format(number).as_bytes())
}

// The identifier of an object, or that it has none.
fn put_own_sid(alloc: Global, into: &mut Vec<u8>, dir: &Dir, number: u32) -> Result<(), AllocError>
    ensures { OnOk result (into.new.items ≡ into.old.items
        ++ spaced (option_map_or sid_text (self_sid dir.now number) nothing)) }
{
    match dir.self_sid(number) {
        Some(sid) => put_sid(alloc, into, sid),
        None => put_spaced(into, b"-"),
    }
}

// The identifier of a node.
fn put_node_sid(alloc: Global, into: &mut Vec<u8>, dir: &Dir, node: &Node) -> Result<(), AllocError>
    ensures { OnOk result (into.new.items ≡ into.old.items ++ spaced (sid_word dir.now node.now)) }
{
    match node {
        Node::Object(number) => put_own_sid(alloc, into, dir, *number),
        Node::Identifier(sid) => put_sid(alloc, into, sid),
    }
}

// The name of a node.
fn put_node_name(
    alloc: Global,
    into: &mut Vec<u8>,
    dir: &Dir,
    node: &Node,
) -> Result<(), AllocError>
    requires { is_node dir.now node.now ≡ true }
    ensures { OnOk result (into.new.items ≡ into.old.items ++ ended (name_word dir.now node.now)) }
{
    match node {
        Node::Object(number) => put_name(alloc, into, dir, *number),
        Node::Identifier(_) => put_ended(into, b"-"),
    }
}

// The line of a node with its number.
fn put_object(
    alloc: Global,
    into: &mut Vec<u8>,
    dir: &Dir,
    number: usize,
    node: &Node,
) -> Result<(), AllocError>
    requires { is_node dir.now node.now ≡ true }
    ensures { OnOk result (into.new.items ≡ into.old.items ++ (codes "object " ++ (spaced (decimal number)
        ++ (spaced (sid_word dir.now node.now) ++ ended (name_word dir.now node.now))))) }
{
    put(into, b"object ")?;
    put_number(into, number)?;
    put_node_sid(alloc, into, dir, node)?;
    put_node_name(alloc, into, dir, node)
}

// The line of the node at a place, where it is told.
fn put_object_if(
    alloc: Global,
    into: &mut Vec<u8>,
    dir: &Dir,
    nodes: &[Node],
    numbers: &[usize],
    ways: &[Option<Way>],
    x: usize,
) -> Result<(), AllocError>
    requires living { AreLiving dir.now nodes.now }
    requires numbers { AreNumbers ways.now (length nodes.now) numbers.now }
    requires x { x < length nodes.now }
    ensures { OnOk result ((line : List ℕ) × (into.new.items ≡ into.old.items ++ line)
        × IsObjectLine dir.now nodes.now ways.now x (way_at ways.now x) line) }
{
    match way_at(ways, x) {
        Some(_) => put_object(alloc, into, dir, numbers[x], &nodes[x]),
        None => Ok(()),
    }
}

/// The lines of the nodes that are told.
///
/// # Errors
///
/// Out of memory.
pub(crate) fn put_objects(
    alloc: Global,
    into: &mut Vec<u8>,
    dir: &Dir,
    nodes: &[Node],
    numbers: &[usize],
    ways: &[Option<Way>],
) -> Result<(), AllocError>
    requires living { AreLiving dir.now nodes.now }
    requires numbers { AreNumbers ways.now (length nodes.now) numbers.now }
    ensures { OnOk result ((text : List ℕ) × (into.new.items ≡ into.old.items ++ text)
        × AreTexts (λ x line. IsObjectLine dir.now nodes.now ways.now x (way_at ways.now x) line) 0
        (length nodes.now) text) }
{
    for x in 0..nodes.len() {
        put_object_if(alloc, into, dir, nodes, numbers, ways, x)?;
    }
    Ok(())
}
