//! The policies that count for an object.

ghost use Rattle.std.specs.Prelude.{◌≡◌, ◌++◌, ◌∷◌, [], true, false, All, filter_map, IfOk, OnOk};
ghost use Rattle.std.specs.Option.{option_and_then};
ghost use Rattle.ad_dn.specs.Reading.{dn_of};
ghost use Rattle.ad_dir_model.specs.Objects.{is_live};
ghost use Rattle.ad_dir_model.specs.Names.{found};
ghost use Rattle.ad_policies.specs.Policies.{policy_if, links_of, linked_at, policies_over, policies_of};
ghost use Rattle.ad_policies.specs.Seen.{link_seen};

use crate::containers::{above, blocks_or};
use crate::links::{LinkIn, next_link};
use crate::values::first_value;
use ad_dir::Dir;
use ad_dn::DnFault;
use std::alloc::{AllocError, Global};

// The object of a name: none where no object has it, and where the text is no name's.
fn named(alloc: Global, dir: &Dir, text: &[u8]) -> Result<Option<u32>, AllocError>
    ensures { IfOk result (λ number. number
        ≡ option_and_then (λ dn. found dir.now dn.rdns) (dn_of text.now)) }
{
    match ad_dn::read(alloc, text) {
        Ok(dn) => dir.find(alloc, &dn),
        Err(DnFault::Bad { .. }) => Ok(None),
        Err(DnFault::Memory) => Err(AllocError),
    }
}

// The policy of a link, where the link is in force.
fn policy_if(
    alloc: Global,
    dir: &Dir,
    blocked: bool,
    link: LinkIn<'_>,
) -> Result<Option<u32>, AllocError>
    ensures { IfOk result (λ policy. policy ≡ policy_if dir.now blocked (link_seen link.entry).0) }
{
    if link.disabled {
        return Ok(None);
    }
    if blocked && !link.enforced {
        return Ok(None);
    }
    named(alloc, dir, link.name)
}

// Puts the policy of a link, where the link is in force.
fn put_link(
    alloc: Global,
    into: &mut Vec<u32>,
    dir: &Dir,
    blocked: bool,
    link: LinkIn<'_>,
) -> Result<(), AllocError>
    ensures { OnOk result (into.new.items ≡ into.old.items
        ++ filter_map (policy_if dir.now blocked) ((link_seen link.entry).0 ∷ [])) }
{
    match policy_if(alloc, dir, blocked, link)? {
        Some(number) => {
            into.push(number)?;
            Ok(())
        }
        None => Ok(()),
    }
}

// Puts those of the links of a text.
fn put_links(
    alloc: Global,
    into: &mut Vec<u32>,
    dir: &Dir,
    blocked: bool,
    text: &[u8],
) -> Result<(), AllocError>
    ensures { OnOk result (into.new.items ≡ into.old.items
        ++ filter_map (policy_if dir.now blocked) (links_of text.entry.now)) }
{
    let mut rest = text;
    'each: while let Some(link) = next_link(rest) {
        put_link(alloc, into, dir, blocked, link)?;
        rest = link.rest;
    }
    Ok(())
}

// Puts those of the links of a container.
#[tactic(auto, unfolding(crate::specs::Policies::linked_at))]
fn put_linked(
    alloc: Global,
    into: &mut Vec<u32>,
    dir: &Dir,
    blocked: bool,
    container: u32,
) -> Result<(), AllocError>
    ensures { OnOk result (into.new.items ≡ into.old.items
        ++ filter_map (policy_if dir.now blocked) (linked_at dir.now container)) }
{
    match first_value(dir, container, dir.schema().attr(b"gPLink")) {
        Some(value) => put_links(alloc, into, dir, blocked, value.shown()),
        None => Ok(()),
    }
}

// Those of the links of containers, the nearest first.
fn put_all(
    alloc: Global,
    into: &mut Vec<u32>,
    dir: &Dir,
    containers: &[u32],
) -> Result<(), AllocError>
    ensures { OnOk result (into.new.items ≡ into.old.items
        ++ policies_over dir.now false containers.now) }
{
    let mut blocked = false;
    'up: for container in containers {
        put_linked(alloc, into, dir, blocked, *container)?;
        blocked = blocks_or(dir, blocked, *container);
    }
    Ok(())
}

/// The policies that count for a live object, those of the nearest container first. They are live. One that several
/// links name stands there as often.
///
/// # Errors
///
/// Out of memory.
#[tactic(auto, unfolding(crate::specs::Policies::policies_of))]
pub fn policies_of(alloc: Global, dir: &Dir, number: u32) -> Result<Vec<u32>, AllocError>
    requires { is_live dir.now.objects number ≡ true }
    ensures policies { IfOk result (λ policies. policies.items ≡ policies_of dir.now number) }
    ensures live { IfOk result (λ policies. All (λ n. is_live dir.now.objects n ≡ true)
        policies.items) }
{
    dir.invariants();
    let containers = above(alloc, dir, number)?;
    let mut policies = Vec::new(alloc);
    put_all(alloc, &mut policies, dir, containers.as_slice())?;
    Ok(policies)
}
