//! Ways: chains over arcs.

ghost use Rattle.std.specs.Prelude.{◌≡◌, ◌+◌, ◌<◌, ◌≤◌, ◌^◌, ℕ, Some, length, IfOk};
ghost use Rattle.std.specs.Option.{option_map};
ghost use Rattle.ad_chains.specs.declared.link.Link.{Link as LinkValue};
ghost use Rattle.ad_chains.specs.Chain.{link_at};
ghost use Rattle.ad_chains.specs.Ways.{AreMembersWithin, AreArcsWithin, AreWaysTo, AreWaysFrom, way_at};
ghost use Rattle.ad_chains.specs.Joining.{HasStep, step_in, far, IsReadable, CanRead};
ghost use Rattle.ad_chains.specs.Joining.{AreReadable, pass_seen, way_seen};

use crate::arc::{Arc, edges_for};
use crate::edge::Edge;
use crate::link::Link;
use crate::search::{chains_from, chains_to};
use std::alloc::{AllocError, Global};

/// The first arc of a way, by its place, and the node that it leads to; or the last one, and the node from which it
/// leads.
#[derive(Clone, Copy, Debug, PartialEq, Eq)]
pub struct Pass {
    pub arc: usize,
    pub next: usize,
}

/// What is told of a node from which a way leads, or to which: how many arcs of the shortest count, and its first arc,
/// or its last, or none at the end itself.
#[derive(Clone, Copy, Debug, PartialEq, Eq)]
pub struct Way {
    pub length: usize,
    pub first: Option<Pass>,
}

// The place that a link says.
fn step_of(link: Option<Link>) -> usize
    requires { HasStep link }
    ensures { result ≡ step_in link }
{
    match link {
        Some(found) => match found.step {
            Some(place) => place,
            None => unreachable!(),
        },
        None => unreachable!(),
    }
}

// Where an edge goes on: to its end, or back to where it begins.
fn far(back: bool, edge: Edge) -> usize
    ensures { result ≡ far back edge }
{
    if back { edge.from } else { edge.to }
}

// The arc of an edge and of the one after it.
fn pass_of(back: bool, links: &[Option<Link>], edges: &[Edge], place: usize) -> Pass
    requires { IsReadable back links.now edges.now place }
    ensures { result ≡ pass_seen back links.now edges.now place }
{
    let set = far(back, edges[place]);
    let after = step_of(links[set]);
    Pass {
        arc: if back { place } else { after },
        next: far(back, edges[after]),
    }
}

// The way that a link says.
fn way_of(back: bool, links: &[Option<Link>], edges: &[Edge], link: Link) -> Way
    requires { CanRead back links.now edges.now link.step }
    ensures { result ≡ way_seen back links.now edges.now link }
{
    let first = match link.step {
        Some(place) => Some(pass_of(back, links, edges, place)),
        None => None,
    };
    Way {
        length: link.length,
        first,
    }
}

// The same, where there is a link.
fn way_if(back: bool, links: &[Option<Link>], edges: &[Edge], x: usize) -> Option<Way>
    requires low { x < length links.now }
    requires readable { (link : LinkValue) → link_at links.now x ≡ Some link → CanRead back links.now
        edges.now link.step }
    ensures { result ≡ option_map (way_seen back links.now edges.now) (link_at links.now x) }
{
    match links[x] {
        Some(link) => Some(way_of(back, links, edges, link)),
        None => None,
    }
}

// Those of the first nodes.
fn ways_of(
    alloc: Global,
    back: bool,
    count: usize,
    links: &[Option<Link>],
    edges: &[Edge],
) -> Result<Vec<Option<Way>>, AllocError>
    requires few { count ≤ length links.now }
    requires readable { AreReadable back links.now edges.now count }
    ensures long { IfOk result (λ ways. length ways.items ≡ count) }
    ensures each { IfOk result (λ ways. (x : ℕ) → x < count → way_at ways.items x
        ≡ option_map (way_seen back links.now edges.now) (link_at links.now x)) }
{
    let mut ways = Vec::with_capacity(alloc, count)?;
    for x in 0..count {
        ways.push(way_if(back, links, edges, x))?;
    }
    Ok(ways)
}

/// Of each of so many nodes, the shortest way that leads to a node.
///
/// # Errors
///
/// Out of memory.
pub fn ways_to(
    alloc: Global,
    count: usize,
    sets: &[Vec<usize>],
    arcs: &[Arc],
    end: usize,
) -> Result<Vec<Option<Way>>, AllocError>
    requires members { AreMembersWithin count sets.now }
    requires arcs { AreArcsWithin count (length sets.now) arcs.now }
    requires end { end < count }
    requires fits { count + length sets.now < 2 ^ 64 }
    ensures long { IfOk result (λ ways. length ways.items ≡ count) }
    ensures ways { IfOk result (λ ways. AreWaysTo sets.now arcs.now end ways.items) }
{
    let edges = edges_for(alloc, count, sets, arcs)?;
    let links = chains_to(alloc, count + sets.len(), edges.as_slice(), end)?;
    let ways = ways_of(alloc, false, count, links.as_slice(), edges.as_slice())?;
    Ok(ways)
}

/// Of each of so many nodes, the shortest way that leads to it from a node.
///
/// # Errors
///
/// Out of memory.
pub fn ways_from(
    alloc: Global,
    count: usize,
    sets: &[Vec<usize>],
    arcs: &[Arc],
    start: usize,
) -> Result<Vec<Option<Way>>, AllocError>
    requires members { AreMembersWithin count sets.now }
    requires arcs { AreArcsWithin count (length sets.now) arcs.now }
    requires start { start < count }
    requires fits { count + length sets.now < 2 ^ 64 }
    ensures long { IfOk result (λ ways. length ways.items ≡ count) }
    ensures ways { IfOk result (λ ways. AreWaysFrom sets.now arcs.now start ways.items) }
{
    let edges = edges_for(alloc, count, sets, arcs)?;
    let links = chains_from(alloc, count + sets.len(), edges.as_slice(), start)?;
    let ways = ways_of(alloc, true, count, links.as_slice(), edges.as_slice())?;
    Ok(ways)
}
