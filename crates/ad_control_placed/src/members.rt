//! Arcs from the members of a group: who has its identifier among the groups of its token.

ghost use Rattle.std.specs.Prelude.{◌≡◌, ◌<◌, ◌++◌, ◌∷◌, [], List, Some, false, filter_map, slice_get, length, IfOk, OnOk};
ghost use Rattle.std.specs.Option.{option_map_or};
ghost use Rattle.ad_rights.specs.Holding.{listed};
ghost use Rattle.ad_dir_model.specs.Identity.{self_sid};
ghost use Rattle.ad_control_graph.specs.declared.node.Node.{Node as NodeValue};
ghost use Rattle.ad_control_graph.specs.Drawing.{IsOver, IsSteady, Adds, KeepsSets, IsBy};
ghost use Rattle.ad_control.specs.Edges.{is_in};
ghost use Rattle.ad_control_nodes.specs.Ground.{IsGround};
ghost use Rattle.ad_control_placed.specs.Standing.{has_group, member_at};

use ad_control_graph::{Graph, Kind};
use ad_control_nodes::Ground;
use ad_dir::Dir;
use ad_ids::Sid;
use std::alloc::{AllocError, Global};

// Whether the token at a place has the identifier among its groups.
fn is_member(ground: &Ground, sid: &Sid, place: usize) -> bool
    ensures { result ≡ option_map_or (has_group sid.now) (slice_get ground.now.parties.tokens.all.items place) false }
{
    match ground.parties.tokens.get(place) {
        Some(token) => token.groups.contains(sid),
        None => false,
    }
}

// The node of the token at a place, where it has the identifier among its groups.
fn member_at(ground: &Ground, sid: &Sid, place: usize) -> Option<usize>
    ensures { result ≡ member_at ground.now.parties.tokens.all.items ground.now.at.items sid.now place }
{
    if !is_member(ground, sid, place) {
        return None;
    }
    ground.at.get(place).copied()
}

fn put_member(
    into: &mut Vec<usize>,
    ground: &Ground,
    sid: &Sid,
    place: usize,
) -> Result<(), AllocError>
    ensures { OnOk result (into.new.items ≡ into.old.items ++ filter_map (member_at
        ground.now.parties.tokens.all.items ground.now.at.items sid.now) (place ∷ [])) }
{
    match member_at(ground, sid, place) {
        Some(node) => {
            into.push(node)?;
            Ok(())
        }
        None => Ok(()),
    }
}

// The nodes of those who have the identifier among their groups, of all who hold it.
fn members(alloc: Global, ground: &Ground, sid: &Sid) -> Result<Vec<usize>, AllocError>
    ensures { IfOk result (λ found. found.items ≡ filter_map (member_at
        ground.now.parties.tokens.all.items ground.now.at.items sid.now)
        (listed ground.now.parties.tokens.holding.holders sid.now)) }
{
    let mut found = Vec::new(alloc);
    let holders = ground.parties.tokens.holding().holders_of(sid);
    for place in holders {
        put_member(&mut found, ground, sid, *place)?;
    }
    Ok(found)
}

// Draws from who has an identifier among its groups.
fn draw_holders(
    alloc: Global,
    dir: &Dir,
    ground: &Ground,
    graph: &mut Graph,
    kind: Kind,
    sid: &Sid,
    to: usize,
) -> Result<(), AllocError>
    requires steady { IsSteady graph.now }
    requires ground { IsGround dir.now graph.now.nodes.items ground.now }
    requires to { to < length graph.now.nodes.items }
    ensures over { OnOk result ((nodes : List NodeValue) → IsOver nodes graph.old → IsOver nodes graph.new) }
    ensures sets { OnOk result (KeepsSets graph.old graph.new) }
    ensures adds { OnOk result (Adds graph.old graph.new kind to (IsBy ground.now.parties.tokens.all.items
        ground.now.at.items (has_group sid.now))) }
{
    let members = members(alloc, ground, sid)?;
    let set = graph.put_set(members)?;
    graph.draw(kind, set, to)
}

/// Draws an arc of a kind to a node from the members of a group, an object.
///
/// # Errors
///
/// Out of memory. What is left then is of no use.
pub(crate) fn draw_members(
    alloc: Global,
    dir: &Dir,
    ground: &Ground,
    graph: &mut Graph,
    kind: Kind,
    number: u32,
    to: usize,
) -> Result<(), AllocError>
    requires steady { IsSteady graph.now }
    requires ground { IsGround dir.now graph.now.nodes.items ground.now }
    requires to { to < length graph.now.nodes.items }
    ensures over { OnOk result ((nodes : List NodeValue) → IsOver nodes graph.old → IsOver nodes graph.new) }
    ensures sets { OnOk result (KeepsSets graph.old graph.new) }
    ensures adds { OnOk result (Adds graph.old graph.new kind to (IsBy ground.now.parties.tokens.all.items
        ground.now.at.items (λ token. is_in (Some token) (self_sid dir.now number)))) }
{
    match dir.self_sid(number) {
        Some(sid) => draw_holders(alloc, dir, ground, graph, kind, sid, to),
        None => Ok(()),
    }
}
