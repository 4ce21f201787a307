//! Where nodes stand.

ghost use Rattle.std.specs.Prelude.{◌≡◌, ◌++◌, ◌∷◌, [], Some, List, All, nat_eq, length, map, IfOk, OnOk};
ghost use Rattle.indexmap.specs.IndexMap.{get};
ghost use Rattle.ad_ids.specs.SidValue.{same_sid};
ghost use Rattle.ad_control_graph.specs.declared.node.Node.{Node as NodeValue};
ghost use Rattle.ad_control_nodes.specs.Steps.{AreAt, place_for, IsFound};

use ad_control_graph::Node;
use ad_identities::Identity;
use ad_ids::Sid;
use indexmap::IndexMap;
use std::alloc::{AllocError, Global};

/// The places of objects by their numbers, and of identifiers.
#[derive(Drop)]
pub(crate) struct Places {
    pub objects: IndexMap<u32, usize>,
    pub sids: IndexMap<Sid, usize>,
}

// Takes the place of one node more.
fn enter(places: &mut Places, node: Node, place: usize) -> Result<(), AllocError>
    ensures { OnOk result ((done : List NodeValue) → length done ≡ place
        → AreAt done (get nat_eq places.old.objects) (get same_sid places.old.sids)
        → AreAt (done ++ node ∷ []) (get nat_eq places.new.objects) (get same_sid places.new.sids)) }
{
    match node {
        Node::Object(number) => {
            places.objects.insert(number, place)?;
            Ok(())
        }
        Node::Identifier(sid) => {
            places.sids.insert(sid, place)?;
            Ok(())
        }
    }
}

fn none(alloc: Global) -> Places
    ensures { AreAt [] (get nat_eq result.objects) (get same_sid result.sids) }
{
    Places {
        objects: IndexMap::new(alloc),
        sids: IndexMap::new(alloc),
    }
}

/// Where each of these nodes stands.
///
/// # Errors
///
/// Out of memory.
pub(crate) fn places_of(alloc: Global, nodes: &[Node]) -> Result<Places, AllocError>
    ensures { IfOk result (λ places. AreAt nodes.now (get nat_eq places.objects)
        (get same_sid places.sids)) }
{
    let mut places = none(alloc);
    for place in 0..nodes.len() {
        enter(&mut places, nodes[place], place)?;
    }
    Ok(places)
}

// That of an identity.
fn place_for(places: &Places, identity: &Identity) -> usize
    requires { IsFound (get nat_eq places.now.objects) (get same_sid places.now.sids) identity.now }
    ensures { place_for (get nat_eq places.now.objects) (get same_sid places.now.sids) identity.now
        ≡ Some result }
{
    let found = match identity.number {
        Some(number) => places.objects.get(&number),
        None => places.sids.get(&identity.sid),
    };
    match found {
        Some(place) => *place,
        None => unreachable!(),
    }
}

/// Those of identities whose nodes are there.
///
/// # Errors
///
/// Out of memory.
pub(crate) fn places_for(
    alloc: Global,
    places: &Places,
    all: &[Identity],
) -> Result<Vec<usize>, AllocError>
    requires { All (IsFound (get nat_eq places.now.objects) (get same_sid places.now.sids)) all.now }
    ensures { IfOk result (λ at. map (λ place. Some place) at.items
        ≡ map (place_for (get nat_eq places.now.objects) (get same_sid places.now.sids)) all.now) }
{
    let mut at = Vec::new(alloc);
    for identity in all {
        at.push(place_for(places, identity))?;
    }
    Ok(at)
}
