//! The text of a required right that is missing.

ghost use Rattle.std.specs.Prelude.{◌≡◌, ◌++◌, All, OnOk, IfOk, true};
ghost use Rattle.std.specs.Option.{option_copied};
ghost use Rattle.ad_dir_model.specs.Objects.{is_live};
ghost use Rattle.ad_dir_model.specs.Names.{name_text};
ghost use Rattle.ad_needs_rules.specs.Needs.{want_text, other_text, others_text, wants_text};
ghost use Rattle.ad_ids.specs.GuidText.{guid_or_hyphen};
ghost use Rattle.ad_acl.specs.Codes.{letters_of};
ghost use Rattle.ad_needs_rules.specs.Needs.{need_text};
ghost use Rattle.ad_bytes.specs.Puts.{Puts};

use crate::need::{Need, Want};
use ad_acl::letters_of;
use ad_dir::Dir;
use ad_ids::Guid;
use std::alloc::{AllocError, Global};

/// Puts a piece at the end.
fn push(into: &mut Vec<u8>, piece: &[u8]) -> Result<(), AllocError>
    ensures { OnOk result (Puts into.old.items into.new.items piece.now) }
{
    into.extend_from_slice(piece)?;
    Ok(())
}

/// The text of a GUID, or a hyphen.
fn push_guid(alloc: Global, into: &mut Vec<u8>, guid: Option<&Guid>) -> Result<(), AllocError>
    ensures { OnOk result (Puts into.old.items into.new.items
        (guid_or_hyphen (option_copied guid.entry))) }
{
    match guid {
        Some(guid) => {
            let text = guid.text(alloc)?;
            push(into, text.as_bytes())
        }
        None => push(into, b"-"),
    }
}

/// The name of an object.
fn push_name(alloc: Global, dir: &Dir, into: &mut Vec<u8>, number: u32) -> Result<(), AllocError>
    requires { is_live dir.now.objects number ≡ true }
    ensures { OnOk result (Puts into.old.items into.new.items (name_text dir.now number)) }
{
    let dn = dir.dn(alloc, number)?;
    let text = dn.text(alloc)?;
    push(into, text.as_slice())
}

/// An alternative: the code, the GUID and the name of the object.
fn push_want(alloc: Global, dir: &Dir, into: &mut Vec<u8>, want: &Want) -> Result<(), AllocError>
    requires { is_live dir.now.objects want.now.object ≡ true }
    ensures { OnOk result (into.new.items ≡ into.old.items ++ want_text dir.now want.now) }
{
    push(into, letters_of(want.right))?;
    push(into, b" ")?;
    push_guid(alloc, into, want.guid.as_ref())?;
    push(into, b" at ")?;
    push_name(alloc, dir, into, want.object)
}

/// A further alternative after ` or `.
fn push_other(alloc: Global, dir: &Dir, into: &mut Vec<u8>, want: &Want) -> Result<(), AllocError>
    requires { is_live dir.now.objects want.now.object ≡ true }
    ensures { OnOk result (into.new.items ≡ into.old.items ++ other_text dir.now want.now) }
{
    push(into, b" or ")?;
    push_want(alloc, dir, into, want)
}

fn push_others(
    alloc: Global,
    dir: &Dir,
    into: &mut Vec<u8>,
    wants: &[Want],
) -> Result<(), AllocError>
    requires { All (λ want. is_live dir.now.objects want.object ≡ true) wants.now }
    ensures { OnOk result (into.new.items ≡ into.old.items ++ others_text dir.now wants.now) }
{
    for want in wants {
        push_other(alloc, dir, into, want)?;
    }
    Ok(())
}

#[tactic(auto, unfolding(crate::specs::Needs::wants_text))]
fn push_wants(
    alloc: Global,
    dir: &Dir,
    into: &mut Vec<u8>,
    wants: &[Want],
) -> Result<(), AllocError>
    requires { All (λ want. is_live dir.now.objects want.object ≡ true) wants.now }
    ensures { OnOk result (into.new.items ≡ into.old.items ++ wants_text dir.now wants.now) }
{
    match wants {
        [] => Ok(()),
        [first, others @ ..] => {
            push_want(alloc, dir, into, first)?;
            push_others(alloc, dir, into, others)
        }
    }
}

/// The text of a required right that is missing: `missing` and the alternatives, joined by ` or `, each as `<code>
/// <guid or -> at <dn>`. The objects are live.
///
/// # Errors
///
/// Memory ran out.
#[tactic(auto, unfolding(crate::specs::Needs::need_text))]
pub fn text(alloc: Global, dir: &Dir, need: &Need) -> Result<Vec<u8>, AllocError>
    requires { All (λ want. is_live dir.now.objects want.object ≡ true) need.now.alternatives }
    ensures { IfOk result (λ text. text.items ≡ need_text dir.now need.now) }
{
    let mut text = Vec::new(alloc);
    push(&mut text, b"missing ")?;
    push_wants(alloc, dir, &mut text, need.alternatives.as_slice())?;
    Ok(text)
}
