//! What is kept of a directory whose nodes stand.

ghost use Rattle.std.specs.Prelude.{◌≡◌, ℕ, Some, true, nat_eq, slice_get, IfOk};
ghost use Rattle.indexmap.specs.IndexMap.{get};
ghost use Rattle.ad_dir_model.specs.Objects.{is_live};
ghost use Rattle.ad_rights_rows.specs.Rows.{own_at};
ghost use Rattle.ad_rights_rows.specs.Kept.{AreKept};
ghost use Rattle.ad_control_graph.specs.declared.node.Node.TheVariants as node;
ghost use Rattle.ad_control_nodes.specs.Ground.{AreNodes, AreInOrder, AreTokensOf, IsGround};
ghost use Rattle.ad_control_nodes.specs.Steps.{AreAll};

use crate::nodes::nodes_of;
use crate::places::{Places, places_for, places_of};
use ad_control_graph::Node;
use ad_dir::Dir;
use ad_rights_rows::{Parties, all_parties, places};
use indexmap::IndexMap;
use std::alloc::{AllocError, Global};

/// Everybody with a token, and of each token the place of its node; of each live object its place among the nodes, and
/// the place of its token, where it has one.
#[derive(Drop)]
pub struct Ground {
    pub parties: Parties,
    pub at: Vec<usize>,
    pub objects: IndexMap<u32, usize>,
    pub own: IndexMap<u32, usize>,
}

// The same without who has a token.
#[derive(Drop)]
struct Seats {
    at: Vec<usize>,
    objects: IndexMap<u32, usize>,
    own: IndexMap<u32, usize>,
}

// Nodes in that order are all nodes.
fn are_nodes(dir: &Dir, nodes: &[Node])
    requires { AreInOrder dir.now nodes.now }
    ensures { AreNodes dir.now nodes.now }
{
    dir.invariants();
}

fn seats_of(
    alloc: Global,
    dir: &Dir,
    nodes: &[Node],
    parties: &Parties,
) -> Result<Seats, AllocError>
    requires nodes { AreNodes dir.now nodes.now }
    requires all { AreAll dir.now parties.now }
    requires kept { AreKept dir.now parties.now }
    ensures tokens { IfOk result (λ seats. AreTokensOf dir.now nodes.now parties.now.tokens.all.items
        seats.at.items) }
    ensures objects { IfOk result (λ seats. (number place : ℕ) → get nat_eq seats.objects number
        ≡ Some place → slice_get nodes.now place ≡ Some (node.Object number)) }
    ensures each { IfOk result (λ seats. (number : ℕ) → is_live dir.now.objects number ≡ true
        → (place : ℕ) × (get nat_eq seats.objects number ≡ Some place)) }
    ensures own { IfOk result (λ seats. (number : ℕ) → get nat_eq seats.own number
        ≡ own_at parties.now.members.items number) }
{
    let own = places(alloc, parties.members.as_slice())?;
    let stand = places_of(alloc, nodes)?;
    let at = places_for(alloc, &stand, parties.members.as_slice())?;
    let Places { objects, sids: _ } = stand;
    Ok(Seats { at, objects, own })
}

/// The nodes of a directory in their order, and what is kept of it.
///
/// # Errors
///
/// Out of memory.
pub fn ground_of(alloc: Global, dir: &Dir) -> Result<(Vec<Node>, Ground), AllocError>
    ensures order { IfOk result (λ made. AreInOrder dir.now made.0.items) }
    ensures ground { IfOk result (λ made. IsGround dir.now made.0.items made.1) }
{
    let parties = all_parties(alloc, dir)?;
    let nodes = nodes_of(alloc, dir, &parties)?;
    are_nodes(dir, nodes.as_slice());
    let seats = seats_of(alloc, dir, nodes.as_slice(), &parties)?;
    let Seats { at, objects, own } = seats;
    Ok((
        nodes,
        Ground {
            parties,
            at,
            objects,
            own,
        },
    ))
}
