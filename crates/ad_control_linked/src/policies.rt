//! Arcs from the policies that count for an account.

ghost use Rattle.std.specs.Prelude.{◌≡◌, ◌≢◌, ◌<◌, ◌++◌, ◌∷◌, [], ℕ, List, Some, true, nat_eq, length, filter_map, IfOk, OnOk};
ghost use Rattle.indexmap.specs.IndexMap.{get};
ghost use Rattle.ad_dir_model.specs.Objects.{is_live, parent_at};
ghost use Rattle.ad_dir_model.specs.Tree.{root};
ghost use Rattle.ad_policies.specs.Policies.{policies_of};
ghost use Rattle.ad_control_graph.specs.declared.node.Node.{Node as NodeValue};
ghost use Rattle.ad_control_graph.specs.Drawing.{IsOver, IsSteady, Adds, KeepsSets, Readies, IsSetOf};
ghost use Rattle.ad_control_nodes.specs.Ground.{IsGround};
ghost use Rattle.ad_control_linked.specs.Links.{IsOneOf, AreLinks};

use crate::links::Links;
use ad_control_graph::{Graph, Kind};
use ad_control_nodes::Ground;
use ad_dir::{Dir, ROOT, parent_of};
use ad_policies::policies_of;
use std::alloc::{AllocError, Global};

// ---- the set of those that count

// Puts the node of an object, if it is live.
fn put_node(into: &mut Vec<usize>, ground: &Ground, number: u32) -> Result<(), AllocError>
    ensures { OnOk result (into.new.items ≡ into.old.items
        ++ filter_map (λ n. get nat_eq ground.now.objects n) (number ∷ [])) }
{
    match ground.objects.get(&number) {
        Some(place) => {
            into.push(*place)?;
            Ok(())
        }
        None => Ok(()),
    }
}

// The nodes of these objects.
fn nodes_of(alloc: Global, ground: &Ground, numbers: &[u32]) -> Result<Vec<usize>, AllocError>
    ensures { IfOk result (λ found. found.items
        ≡ filter_map (λ n. get nat_eq ground.now.objects n) numbers.now) }
{
    let mut found = Vec::new(alloc);
    for number in numbers {
        put_node(&mut found, ground, *number)?;
    }
    Ok(found)
}

// Puts the set of the policies that count for a live object.
fn put_policies(
    alloc: Global,
    dir: &Dir,
    ground: &Ground,
    graph: &mut Graph,
    number: u32,
) -> Result<usize, AllocError>
    requires live { is_live dir.now.objects number ≡ true }
    requires ground { IsGround dir.now graph.now.nodes.items ground.now }
    ensures over { OnOk result ((nodes : List NodeValue) → IsOver nodes graph.old → IsOver nodes graph.new) }
    ensures sets { OnOk result (KeepsSets graph.old graph.new) }
    ensures readies { OnOk result (Readies graph.old graph.new) }
    ensures set { IfOk result (λ set. IsSetOf graph.new set (IsOneOf graph.old.nodes.items
        (policies_of dir.now number))) }
{
    let policies = policies_of(alloc, dir, number)?;
    let members = nodes_of(alloc, ground, policies.as_slice())?;
    graph.put_set(members)
}

// Puts that of a parent, whose policies weren't asked for before.
fn put_below(
    alloc: Global,
    dir: &Dir,
    ground: &Ground,
    graph: &mut Graph,
    links: &mut Links,
    parent: u32,
    number: u32,
) -> Result<usize, AllocError>
    requires live { is_live dir.now.objects number ≡ true }
    requires below { number ≢ root }
    requires parent { parent ≡ parent_at dir.now.objects number }
    requires ground { IsGround dir.now graph.now.nodes.items ground.now }
    requires links { AreLinks dir.now graph.now.nodes.items graph.now links.now }
    ensures over { OnOk result ((nodes : List NodeValue) → IsOver nodes graph.old → IsOver nodes graph.new) }
    ensures sets { OnOk result (KeepsSets graph.old graph.new) }
    ensures readies { OnOk result (Readies graph.old graph.new) }
    ensures links { OnOk result (AreLinks dir.now graph.old.nodes.items graph.new links.new) }
    ensures set { IfOk result (λ set. IsSetOf graph.new set (IsOneOf graph.old.nodes.items
        (policies_of dir.now number))) }
{
    ad_policies::a_container_s_objects_have_the_same_policies();
    let set = put_policies(alloc, dir, ground, graph, number)?;
    links.sets.insert(parent, set)?;
    Ok(set)
}

// The place of the set of the policies that count for a live object that isn't the root.
fn policies_set(
    alloc: Global,
    dir: &Dir,
    ground: &Ground,
    graph: &mut Graph,
    links: &mut Links,
    number: u32,
) -> Result<usize, AllocError>
    requires live { is_live dir.now.objects number ≡ true }
    requires below { number ≢ root }
    requires ground { IsGround dir.now graph.now.nodes.items ground.now }
    requires links { AreLinks dir.now graph.now.nodes.items graph.now links.now }
    ensures over { OnOk result ((nodes : List NodeValue) → IsOver nodes graph.old → IsOver nodes graph.new) }
    ensures sets { OnOk result (KeepsSets graph.old graph.new) }
    ensures readies { OnOk result (Readies graph.old graph.new) }
    ensures links { OnOk result (AreLinks dir.now graph.old.nodes.items graph.new links.new) }
    ensures set { IfOk result (λ set. IsSetOf graph.new set (IsOneOf graph.old.nodes.items
        (policies_of dir.now number))) }
{
    let parent = parent_of(dir, number);
    match known(links, parent) {
        Some(set) => Ok(set),
        None => put_below(alloc, dir, ground, graph, links, parent, number),
    }
}

fn known(links: &Links, parent: u32) -> Option<usize>
    ensures { result ≡ get nat_eq links.now.sets parent }
{
    links.sets.get(&parent).copied()
}

// ---- arcs

/// Draws an arc of a kind to the node of a live object, from the policies that count for it.
///
/// # Errors
///
/// Out of memory. What is left then is of no use.
pub fn draw_policies(
    alloc: Global,
    dir: &Dir,
    ground: &Ground,
    graph: &mut Graph,
    links: &mut Links,
    kind: Kind,
    number: u32,
    to: usize,
) -> Result<(), AllocError>
    requires live { is_live dir.now.objects number ≡ true }
    requires steady { IsSteady graph.now }
    requires ground { IsGround dir.now graph.now.nodes.items ground.now }
    requires links { AreLinks dir.now graph.now.nodes.items graph.now links.now }
    requires to { to < length graph.now.nodes.items }
    ensures over { OnOk result ((nodes : List NodeValue) → IsOver nodes graph.old → IsOver nodes graph.new) }
    ensures sets { OnOk result (KeepsSets graph.old graph.new) }
    ensures links { OnOk result (AreLinks dir.now graph.old.nodes.items graph.new links.new) }
    ensures adds { OnOk result (Adds graph.old graph.new kind to (IsOneOf graph.old.nodes.items
        (policies_of dir.now number))) }
{
    if number == ROOT {
        return Ok(());
    }
    let set = policies_set(alloc, dir, ground, graph, links, number)?;
    graph.draw(kind, set, to)
}
