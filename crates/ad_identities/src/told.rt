//! Which identifiers descriptors tell.

ghost use Rattle.std.specs.Prelude.{◌≡◌, true, IfOk, OnOk};
ghost use Rattle.std.specs.List.{list_any, AllByRecursion};
ghost use Rattle.ad_acl.specs.EntrySeen.{entry_seen};
ghost use Rattle.ad_sd.specs.Seen.{seen};
ghost use Rattle.ad_dir_model.specs.Objects.{is_live, sd_at};
ghost use Rattle.ad_ids.specs.SidValue.{same_sid};
ghost use Rattle.ad_identities.specs.Identities.{allows_or_denies, is_for, is_told_in, always};
ghost use Rattle.ad_identities.specs.Told.{Adds};

use ad_acl::{AceIn, AceKind};
use ad_dir::{Dir, live_sd};
use ad_ids::Sid;
use ad_sd::SdView;
use indexmap::IndexSet;
use std::alloc::{AllocError, Global};

fn allows_or_denies(kind: AceKind) -> bool
    ensures { result ≡ allows_or_denies kind }
{
    match kind {
        AceKind::Allow => true,
        AceKind::Deny => true,
        AceKind::Audit => false,
    }
}

// ---- all that are told

// Takes an identifier, where it wasn't taken before.
fn take(taken: &mut IndexSet<Sid>, sid: Sid) -> Result<(), AllocError>
    ensures { OnOk result (Adds (same_sid sid) taken.old.keys taken.new.keys) }
{
    taken.insert(sid)?;
    Ok(())
}

// Takes the identifier of an entry that allows or denies.
fn take_entry(taken: &mut IndexSet<Sid>, ace: &AceIn<'_>) -> Result<(), AllocError>
    ensures { OnOk result (Adds (λ s. is_for s (entry_seen ace.now)) taken.old.keys
        taken.new.keys) }
{
    if allows_or_denies(ace.kind()) {
        return take(taken, ace.sid());
    }
    Ok(())
}

// Takes those of all such entries.
fn take_entries(taken: &mut IndexSet<Sid>, view: SdView<'_>) -> Result<(), AllocError>
    ensures { OnOk result (Adds (λ s. list_any (is_for s) (seen view.entry).dacl.entries)
        taken.old.keys taken.new.keys) }
{
    for ace in view.dacl_in() {
        take_entry(taken, &ace)?;
    }
    Ok(())
}

// Takes what a descriptor tells.
#[tactic(auto, unfolding(crate::specs::Identities::is_told_in))]
fn take_told(taken: &mut IndexSet<Sid>, view: SdView<'_>) -> Result<(), AllocError>
    ensures { OnOk result (Adds (is_told_in (seen view.entry)) taken.old.keys taken.new.keys) }
{
    take(taken, view.owner())?;
    take_entries(taken, view)
}

// Takes what the descriptors of these live objects tell.
fn take_all_told(taken: &mut IndexSet<Sid>, dir: &Dir, numbers: &[u32]) -> Result<(), AllocError>
    requires { AllByRecursion (λ number. is_live dir.now.objects number ≡ true) numbers.now }
    ensures { OnOk result (Adds (λ s. list_any (λ number. is_told_in
        (sd_at dir.now.objects number) s) numbers.now) taken.old.keys taken.new.keys) }
{
    for number in numbers {
        take_told(taken, live_sd(dir, *number))?;
    }
    Ok(())
}

/// The three that are always there, and what the descriptors of these live objects tell.
///
/// # Errors
///
/// Out of memory.
pub(crate) fn candidates(
    alloc: Global,
    dir: &Dir,
    numbers: &[u32],
) -> Result<IndexSet<Sid>, AllocError>
    requires { AllByRecursion (λ number. is_live dir.now.objects number ≡ true) numbers.now }
    ensures { IfOk result (λ set. Adds (λ s. list_any (λ number. is_told_in
        (sd_at dir.now.objects number) s) numbers.now) always set.keys) }
{
    let mut set = IndexSet::with_capacity(alloc, 64)?;
    take(&mut set, Sid::well_known(5, 7))?;
    take(&mut set, Sid::well_known(1, 0))?;
    take(&mut set, Sid::well_known(5, 11))?;
    take_all_told(&mut set, dir, numbers)?;
    Ok(set)
}

// ---- whether one is told

fn is_for(sid: &Sid, ace: &AceIn<'_>) -> bool
    ensures { result ≡ is_for sid.now (entry_seen ace.now) }
{
    allows_or_denies(ace.kind()) && ace.sid() == *sid
}

// Whether an entry has it.
fn is_in_entries(sid: &Sid, view: SdView<'_>) -> bool
    ensures { result ≡ list_any (is_for sid.now) (seen view.entry).dacl.entries }
{
    for ace in view.dacl_in() {
        if is_for(sid, &ace) {
            return true;
        }
    }
    false
}

// Whether a descriptor tells it.
#[tactic(auto, unfolding(crate::specs::Identities::is_told_in))]
fn is_told_in(sid: &Sid, view: SdView<'_>) -> bool
    ensures { result ≡ is_told_in (seen view.entry) sid.now }
{
    view.owner() == *sid || is_in_entries(sid, view)
}

/// Whether the descriptor of one of these live objects tells the identifier.
pub(crate) fn is_told(dir: &Dir, sid: &Sid, numbers: &[u32]) -> bool
    requires { AllByRecursion (λ number. is_live dir.now.objects number ≡ true) numbers.now }
    ensures { result ≡ list_any (λ number. is_told_in (sd_at dir.now.objects number) sid.now)
        numbers.now }
{
    for number in numbers {
        if is_told_in(sid, live_sd(dir, *number)) {
            return true;
        }
    }
    false
}
