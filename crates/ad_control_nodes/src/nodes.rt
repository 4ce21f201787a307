//! The nodes, in their order.

ghost use Rattle.std.specs.Prelude.{◌≡◌, ◌++◌, ◌∷◌, [], map, filter_map, IfOk, OnOk};
ghost use Rattle.std.specs.List.{AllByRecursion};
ghost use Rattle.ad_ids.specs.Sid.{IsSid};
ghost use Rattle.ad_ids.specs.SidValue.{SidValue, contains_sid};
ghost use Rattle.ad_principals.specs.Tokens.{SidsRise};
ghost use Rattle.ad_identities.specs.Identities.{is_without_principal};
ghost use Rattle.ad_control_graph.specs.declared.node.Node.TheVariants as node;
ghost use Rattle.ad_control_nodes.specs.Ground.{AreInOrder};
ghost use Rattle.ad_control_nodes.specs.Steps.{lone_sid, AreAll};

use ad_control_graph::Node;
use ad_dir::Dir;
use ad_identities::Identity;
use ad_ids::Sid;
use ad_principals::in_order;
use ad_rights_rows::Parties;
use std::alloc::{AllocError, Global};

// ---- identifiers without a principal

// Puts the identifier of an identity that has no object.
fn put_if_lone(into: &mut Vec<Sid>, identity: &Identity) -> Result<(), AllocError>
    ensures are { OnOk result (into.new.items
        ≡ into.old.items ++ filter_map lone_sid (identity.now ∷ [])) }
    ensures ranges { OnOk result (AllByRecursion IsSid into.old.items
        → AllByRecursion IsSid into.new.items) }
{
    match identity.number {
        Some(_) => Ok(()),
        None => {
            identity.sid.has_its_ranges();
            into.push(identity.sid)?;
            Ok(())
        }
    }
}

// Puts those of all that have none.
fn put_lone(into: &mut Vec<Sid>, all: &[Identity]) -> Result<(), AllocError>
    ensures are { OnOk result (into.new.items ≡ into.old.items ++ filter_map lone_sid all.now) }
    ensures ranges { OnOk result (AllByRecursion IsSid into.old.items
        → AllByRecursion IsSid into.new.items) }
{
    for identity in all {
        put_if_lone(into, identity)?;
    }
    Ok(())
}

fn lone_sids(alloc: Global, parties: &Parties) -> Result<Vec<Sid>, AllocError>
    ensures are { IfOk result (λ sids. sids.items ≡ filter_map lone_sid parties.now.members.items
        ++ filter_map lone_sid parties.now.without.items) }
    ensures ranges { IfOk result (λ sids. AllByRecursion IsSid sids.items) }
{
    let mut sids = Vec::new(alloc);
    put_lone(&mut sids, parties.members.as_slice())?;
    put_lone(&mut sids, parties.without.as_slice())?;
    Ok(sids)
}

// All of them, in rising order of their bytes.
fn others(alloc: Global, dir: &Dir, parties: &Parties) -> Result<Vec<Sid>, AllocError>
    requires { AreAll dir.now parties.now }
    ensures rise { IfOk result (λ sids. SidsRise sids.items) }
    ensures each { IfOk result (λ sids. (sid : SidValue) → contains_sid sids.items sid
        ≡ is_without_principal dir.now sid) }
{
    let sids = lone_sids(alloc, parties)?;
    Ok(in_order(sids))
}

// ---- nodes

fn put_objects(into: &mut Vec<Node>, numbers: &[u32]) -> Result<(), AllocError>
    ensures { OnOk result (into.new.items ≡ into.old.items
        ++ map (λ number. node.Object number) numbers.now) }
{
    for number in numbers {
        into.push(Node::Object(*number))?;
    }
    Ok(())
}

fn put_identifiers(into: &mut Vec<Node>, sids: &[Sid]) -> Result<(), AllocError>
    ensures { OnOk result (into.new.items ≡ into.old.items
        ++ map (λ sid. node.Identifier sid) sids.now) }
{
    for sid in sids {
        into.push(Node::Identifier(*sid))?;
    }
    Ok(())
}

/// The live objects by rising number, and then the identifiers without a principal in rising order of their bytes.
///
/// # Errors
///
/// Out of memory.
pub(crate) fn nodes_of(alloc: Global, dir: &Dir, parties: &Parties) -> Result<Vec<Node>, AllocError>
    requires { AreAll dir.now parties.now }
    ensures { IfOk result (λ nodes. AreInOrder dir.now nodes.items) }
{
    let sids = others(alloc, dir, parties)?;
    let numbers = dir.numbers(alloc)?;
    let mut nodes = Vec::new(alloc);
    put_objects(&mut nodes, numbers.as_slice())?;
    put_identifiers(&mut nodes, sids.as_slice())?;
    Ok(nodes)
}
