//! What is found once in a directory: AdminSDHolder, and which objects are protected.

ghost use Rattle.std.specs.Prelude.{◌≡◌, List, [], None, true, if◌then◌else◌, nat_eq, IfOk, OnOk};
ghost use Rattle.ad_dir_model.specs.Objects.{is_live};
ghost use Rattle.ad_dir_model.specs.Protection.{has};
ghost use Rattle.ad_dir_model.specs.Soundness.{IsSound};
ghost use Rattle.ad_protect.specs.Spreading.{Takes};
ghost use Rattle.ad_control_graph.specs.declared.graph.Graph.{Graph as GraphValue};
ghost use Rattle.ad_control_graph.specs.declared.node.Node.{Node as NodeValue};
ghost use Rattle.ad_control.specs.Edges.{giver};
ghost use Rattle.ad_control_placed.specs.Places.{ArePlaces};

use ad_control_linked::Links;
use ad_dir::{Dir, ROOT, live_sd, parent_number};
use ad_protect::protected;
use indexmap::IndexSet;
use std::alloc::{AllocError, Global};

/// AdminSDHolder, the protected objects, and the sets of policies that stand already in a graph.
#[derive(Drop)]
pub struct Places {
    pub(crate) holder: Option<u32>,
    pub(crate) protected: IndexSet<u32>,
    pub(crate) links: Links,
}

// Takes a number into a set.
fn take(into: &mut IndexSet<u32>, number: u32) -> Result<(), AllocError>
    ensures { OnOk result (Takes (nat_eq number) into.old.keys into.new.keys) }
{
    into.insert(number)?;
    Ok(())
}

// These numbers as a set.
fn set_of(alloc: Global, numbers: &[u32]) -> Result<IndexSet<u32>, AllocError>
    ensures { IfOk result (λ set. Takes (has numbers.now) [] set.keys) }
{
    let mut set = IndexSet::new(alloc);
    for number in numbers {
        take(&mut set, *number)?;
    }
    Ok(set)
}

impl Places {
    /// Those of a directory, before anything is drawn.
    ///
    /// # Errors
    ///
    /// Out of memory.
    pub fn of(alloc: Global, dir: &Dir) -> Result<Places, AllocError>
        requires { IsSound dir.now }
        ensures { IfOk result (λ places. (nodes : List NodeValue) (graph : GraphValue) → ArePlaces
            dir.now nodes graph places) }
    {
        let all = protected(alloc, dir)?;
        let protected = set_of(alloc, all.as_slice())?;
        Ok(Places {
            holder: dir.admin_sd_holder(),
            protected,
            links: Links::new(alloc),
        })
    }
}

/// AdminSDHolder, where the object is protected.
pub(crate) fn holder_of(places: &Places, number: u32) -> Option<u32>
    ensures { result ≡ (if has places.now.protected.keys number then places.now.holder else None) }
{
    if places.protected.contains(&number) {
        places.holder
    } else {
        None
    }
}

/// The parent of a live object whose DACL isn't protected.
pub(crate) fn giver_of(dir: &Dir, number: u32) -> Option<u32>
    requires { is_live dir.now.objects number ≡ true }
    ensures { result ≡ giver dir.now number }
{
    if number == ROOT || live_sd(dir, number).dacl_protected() {
        return None;
    }
    Some(parent_number(dir, number))
}
