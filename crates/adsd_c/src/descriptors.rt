//! Descriptors that are made of descriptors.

ghost use Rattle.std.specs.Prelude.{◌≡◌};
ghost use Rattle.ad_bytes.specs.Reading.{GivesUnless, fault_as};
ghost use Rattle.ad_sd.specs.Seen.{seen};
ghost use Rattle.ad_sd.specs.Shown.{parts_shown};
ghost use Rattle.ad_sd.specs.Writing.{written};
ghost use Rattle.ad_inherit.specs.Whole.{whole, explicit_part};
ghost use Rattle.adsd_c.specs.Refusal.{is_memory, of_list};
ghost use Rattle.adsd_c.specs.Delivery.{Delivers};
ghost use Rattle.adsd_c.specs.Descriptors.{normal_sd, sd_bytes, normal_from_sd, sd_from_normal};
ghost use Rattle.adsd_c.specs.Descriptors.{inherited, without_inherited};

use crate::delivery::deliver;
use crate::reading::{kept_sd, whole_guid};
use crate::refusal::Refusal;
use ad_ids::Guid;
use ad_inherit::{explicit, whole};
use ad_sd::{NormalSd, Sd, SdParts, SdView, write_parts, write_view};
use std::alloc::Global;

/// The view over normal bytes.
pub(crate) fn normal_view(bytes: &[u8]) -> Result<SdView<'_>, Refusal>
    ensures { GivesUnless is_memory seen result (normal_sd bytes.now) }
{
    match SdView::over(bytes) {
        Some(view) => Ok(view),
        None => Err(Refusal::Normal),
    }
}

// The self-relative bytes of the descriptor.
fn bytes_of(alloc: Global, sd: Sd) -> Result<Vec<u8>, Refusal>
    ensures { GivesUnless is_memory (λ v. v.items) result (sd_bytes sd) }
{
    let parts = SdParts {
        owner: Some(sd.owner),
        group: Some(sd.group),
        dacl: Some(sd.dacl),
        sacl: Some(sd.sacl),
    };
    Ok(write_parts(alloc, &parts)?)
}

#[tactic(auto, unfolding(crate::specs::Descriptors::normal_from_sd))]
fn normal_from_sd(alloc: Global, bytes: &[u8]) -> Result<Vec<u8>, Refusal>
    ensures { GivesUnless is_memory (λ v. v.items) result (normal_from_sd bytes.now) }
{
    let kept = kept_sd(alloc, bytes, Refusal::Sd)?;
    Ok(Vec::from_slice(alloc, kept.as_bytes())?)
}

fn shown(alloc: Global, view: SdView<'_>, parts: u8) -> Result<Vec<u8>, Refusal>
    ensures { GivesUnless is_memory (λ v. v.items) result
        (fault_as of_list (written (parts_shown (seen view.entry) parts))) }
{
    Ok(write_view(alloc, view, parts)?)
}

#[tactic(auto, unfolding(crate::specs::Descriptors::sd_from_normal))]
fn sd_from_normal(alloc: Global, bytes: &[u8], parts: u8) -> Result<Vec<u8>, Refusal>
    ensures { GivesUnless is_memory (λ v. v.items) result (sd_from_normal bytes.now parts) }
{
    let view = normal_view(bytes)?;
    shown(alloc, view, parts)
}

fn whole_of(
    alloc: Global,
    parent: &NormalSd,
    own: &NormalSd,
    class: Guid,
) -> Result<Vec<u8>, Refusal>
    ensures { GivesUnless is_memory (λ v. v.items) result
        (sd_bytes (whole parent.now own.now class)) }
{
    let sd = whole(alloc, parent.view(), own.view(), class)?;
    bytes_of(alloc, sd)
}

#[tactic(auto, unfolding(crate::specs::Descriptors::inherited))]
fn inherited(alloc: Global, parent: &[u8], own: &[u8], class: &[u8]) -> Result<Vec<u8>, Refusal>
    ensures { GivesUnless is_memory (λ v. v.items) result (inherited parent.now own.now class.now) }
{
    let parent = kept_sd(alloc, parent, Refusal::Parent)?;
    let own = kept_sd(alloc, own, Refusal::Sd)?;
    let class = whole_guid(class)?;
    whole_of(alloc, &parent, &own, class)
}

fn explicit_of(alloc: Global, own: &NormalSd) -> Result<Vec<u8>, Refusal>
    ensures { GivesUnless is_memory (λ v. v.items) result (sd_bytes (explicit_part own.now)) }
{
    let sd = explicit(alloc, own.view())?;
    bytes_of(alloc, sd)
}

#[tactic(auto, unfolding(crate::specs::Descriptors::without_inherited))]
fn without_inherited(alloc: Global, own: &[u8]) -> Result<Vec<u8>, Refusal>
    ensures { GivesUnless is_memory (λ v. v.items) result (without_inherited own.now) }
{
    let own = kept_sd(alloc, own, Refusal::Sd)?;
    explicit_of(alloc, &own)
}

/// The normal bytes of a self-relative descriptor whose owner, group and DACL are there: the form that
/// `adsd_granted_normal` takes, over which a check needs no memory for it. A descriptor has one such form.
///
/// # Errors
///
/// `ADSD_SD` where the bytes are no such descriptor.
#[unsafe(no_mangle)]
pub extern "C" fn adsd_normal_from_sd(
    alloc: Global,
    sd: &[u8],
    out: &mut [u8],
    size: &mut usize,
) -> u32
    ensures { Delivers (normal_from_sd sd.now) result out.old out.new size.new }
{
    deliver(normal_from_sd(alloc, sd), out, size)
}

/// The parts that are asked for of the descriptor whose normal bytes are given, as a self-relative one: 1 the owner,
/// 2 the group, 4 the DACL, 8 the SACL, 15 all.
///
/// # Errors
///
/// `ADSD_NORMAL` where the bytes are the normal bytes of no descriptor; then `ADSD_TOO_LONG` where a list that is
/// asked for takes more than 65,535 bytes.
#[unsafe(no_mangle)]
pub extern "C" fn adsd_sd_from_normal(
    alloc: Global,
    normal: &[u8],
    parts: u8,
    out: &mut [u8],
    size: &mut usize,
) -> u32
    ensures { Delivers (sd_from_normal normal.now parts) result out.old out.new size.new }
{
    deliver(sd_from_normal(alloc, normal, parts), out, size)
}

/// The self-relative descriptor of an object of the class, from its own one and its parent's ([MS-DTYP] 2.5.3.4): its
/// own entries without those that were inherited before, and after them in each list that isn't protected what the
/// parent's pass down. The class is a GUID in 16 bytes.
///
/// # Errors
///
/// The first in this order: `ADSD_PARENT` and `ADSD_SD` where these bytes are no descriptor with owner, group and
/// DACL, `ADSD_GUID` where the class isn't 16 bytes, `ADSD_TOO_LONG` where a list of the answer would
/// take more than 65,535 bytes.
#[unsafe(no_mangle)]
pub extern "C" fn adsd_inherit(
    alloc: Global,
    parent: &[u8],
    sd: &[u8],
    object_class: &[u8],
    out: &mut [u8],
    size: &mut usize,
) -> u32
    ensures { Delivers (inherited parent.now sd.now object_class.now) result out.old out.new
        size.new }
{
    deliver(inherited(alloc, parent, sd, object_class), out, size)
}

/// The self-relative descriptor without the entries that were inherited.
///
/// # Errors
///
/// `ADSD_SD` where the bytes are no descriptor with owner, group and DACL; then `ADSD_TOO_LONG` where a
/// list of the answer would take more than 65,535 bytes.
#[unsafe(no_mangle)]
pub extern "C" fn adsd_explicit(alloc: Global, sd: &[u8], out: &mut [u8], size: &mut usize) -> u32
    ensures { Delivers (without_inherited sd.now) result out.old out.new size.new }
{
    deliver(without_inherited(alloc, sd), out, size)
}
