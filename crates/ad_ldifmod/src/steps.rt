//! What a line asks for, and the message that it gives.

ghost use Rattle.std.specs.Prelude.{◌≡◌, ◌≤◌, ◌<◌, ◌^◌, ℕ, true, List, OnOk, IfOk, Option};
ghost use Rattle.std.specs.Option.{option_map, option_copied};
ghost use Rattle.ad_bytes.specs.Reading.{GivesUnless};
ghost use Rattle.ad_dir_model.specs.Objects.{is_live};
ghost use Rattle.ad_dir_model.specs.Identity.{domain_sid};
ghost use Rattle.ad_ldifmod.specs.declared.fault.GrantKind.TheVariants as kind;
ghost use Rattle.ad_ldifmod.specs.Lines.{parts_of};
ghost use Rattle.ad_ldifmod.specs.Changes.{change_of};
ghost use Rattle.ad_ldifmod.specs.Lists.{or_bad, number_named, step_of, changed_list, after_if};
ghost use Rattle.ad_ldifmod.specs.Messages.{message_of};
ghost use Rattle.ad_ldifmod.specs.Grants.{message_by};
ghost use Rattle.ad_ldifmod.specs.Steps.{is_memory_refusal, parts_seen, IsChanged};
ghost use Rattle.ad_ldifmod.specs.Taken.{lists_in};

use crate::change::Change;
use crate::fault::{GrantKind, Refusal};
use crate::lines::{PartsIn, Verb, parts_of};
use crate::list_cache::{ListCache, cached_list, change_list};
use crate::messages::message_of;
use crate::texts::change_of;
use ad_dir::{Dir, ROOT};
use ad_ids::Sid;
use ad_ldap::Message;
use ad_needs_rules::number_of_name;
use std::alloc::Global;

// The identifier of the domain: that of the root.
#[tactic(auto, unfolding(ad_dir_model::specs::Identity::domain_sid))]
fn domain_sid(dir: &Dir) -> Option<&Sid>
    ensures { option_copied result ≡ domain_sid dir.entry.now }
{
    dir.self_sid(ROOT)
}

fn parts_in(line: &[u8]) -> Result<PartsIn<'_>, Refusal>
    ensures { GivesUnless is_memory_refusal parts_seen result (or_bad kind.Form (parts_of line.now)) }
{
    match parts_of(line) {
        Some(parts) => Ok(parts),
        None => Err(Refusal::Bad(GrantKind::Form)),
    }
}

fn wanted(alloc: Global, dir: &Dir, verb: Verb, text: &[u8]) -> Result<Change, Refusal>
    ensures { GivesUnless is_memory_refusal (λ change. change) result
        (or_bad kind.Entry (change_of (domain_sid dir.now) verb text.now)) }
{
    match change_of(alloc, verb, text, domain_sid(dir))? {
        Some(change) => Ok(change),
        None => Err(Refusal::Bad(GrantKind::Entry)),
    }
}

#[tactic(auto, unfolding(crate::specs::Lists::number_named))]
fn named(alloc: Global, dir: &Dir, text: &[u8]) -> Result<u32, Refusal>
    ensures named { GivesUnless is_memory_refusal (λ number. number) result
        (or_bad kind.Name (number_named dir.now text.now)) }
    ensures live { IfOk result (λ number. is_live dir.now.objects number ≡ true) }
{
    match number_of_name(alloc, dir, text)? {
        Some(number) => Ok(number),
        None => Err(Refusal::Bad(GrantKind::Name)),
    }
}

// Changes the list of an object, and gives the message of the new one.
fn renewed(
    alloc: Global,
    cache: &mut ListCache,
    dir: &Dir,
    number: u32,
    change: &Change,
    id: u32,
    name: &[u8],
) -> Result<Message, Refusal>
    requires live { is_live dir.now.objects number ≡ true }
    requires from { 1 ≤ id }
    requires to { id < 2 ^ 31 }
    ensures message { GivesUnless is_memory_refusal (λ m. m) result
        (message_of id name.now (changed_list change.now (lists_in dir.now cache.old number))) }
    ensures lists { OnOk result (IsChanged dir.now cache.old cache.new number change.now) }
{
    change_list(alloc, cache, dir, number, change)?;
    message_of(alloc, id, name, cached_list(cache, number))
}

/// The message of a line that says something, and what the line makes of the lists.
#[tactic(auto, unfolding(crate::specs::Grants::message_by, crate::specs::Lists::step_of))]
pub(crate) fn message_by(
    alloc: Global,
    cache: &mut ListCache,
    dir: &Dir,
    id: u32,
    line: &[u8],
) -> Result<Message, Refusal>
    requires from { 1 ≤ id }
    requires to { id < 2 ^ 31 }
    ensures message { GivesUnless is_memory_refusal (λ m. m) result
        (message_by dir.now (lists_in dir.now cache.old) id line.now) }
    ensures lists { OnOk result (lists_in dir.now cache.new ≡ after_if (step_of dir.now line.now)
        (lists_in dir.now cache.old)) }
{
    let parts = parts_in(line)?;
    let change = wanted(alloc, dir, parts.verb, parts.what)?;
    let number = named(alloc, dir, parts.name)?;
    renewed(alloc, cache, dir, number, &change, id, parts.name)
}
