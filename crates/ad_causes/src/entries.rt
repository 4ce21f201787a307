//! The explicit entries of a descriptor as texts.

ghost use Rattle.std.specs.Prelude.{◌≡◌, drop, IfOk};
ghost use Rattle.ad_sd.specs.Seen.{seen};
ghost use Rattle.ad_sddl.specs.Canonical.{entry_text};
ghost use Rattle.ad_inherit.specs.Whole.{is_explicit};
ghost use Rattle.ad_causes.specs.Extra.{texts};
ghost use Rattle.ad_causes.specs.Descriptors.{entry_texts, joined};

use crate::pieces::put;
use ad_acl::{Ace, Aces, INHERITED};
use ad_sd::{AceList, SdParts, SdView};
use std::alloc::{AllocError, Global};

// All but the first two bytes.
fn after_two(bytes: &[u8]) -> &[u8]
    ensures { result.now ≡ drop 2 bytes.entry.now }
{
    match bytes.get(2..) {
        Some(rest) => rest,
        None => &[],
    }
}

// The entry as SDDL writes it: the text of a list that has it alone, without the two letters before the list.
#[tactic(auto, using(crate::proofs::EntryLemmas::alone_text))]
fn entry_text(alloc: Global, ace: Ace) -> Result<Vec<u8>, AllocError>
    ensures { IfOk result (λ text. text.items ≡ entry_text ace) }
{
    let mut entries = Aces::new(alloc);
    entries.push(ace)?;
    let parts = SdParts {
        owner: None,
        group: None,
        dacl: Some(AceList {
            protected: false,
            entries,
        }),
        sacl: None,
    };
    let text = ad_sddl::print_parts(alloc, &parts)?;
    Vec::from_slice(alloc, after_two(text.as_bytes()))
}

fn is_explicit(ace: &Ace) -> bool
    ensures { result ≡ is_explicit ace.now }
{
    ace.flags & INHERITED == 0
}

/// The explicit entries of the DACL, each as SDDL writes it, in their order.
///
/// # Errors
///
/// Out of memory.
pub(crate) fn entry_texts(alloc: Global, view: SdView<'_>) -> Result<Vec<Vec<u8>>, AllocError>
    ensures { IfOk result (λ all. texts all.items ≡ entry_texts (seen view.entry)) }
{
    let mut all = Vec::new(alloc);
    for ace in view.dacl() {
        if is_explicit(&ace) {
            let text = entry_text(alloc, ace)?;
            all.push(text)?;
        }
    }
    Ok(all)
}

/// All of them, one after the other.
///
/// # Errors
///
/// Out of memory.
pub(crate) fn joined(alloc: Global, all: &[Vec<u8>]) -> Result<Vec<u8>, AllocError>
    ensures { IfOk result (λ text. text.items ≡ joined (texts all.now)) }
{
    let mut text = Vec::new(alloc);
    for one in all {
        put(&mut text, one.as_slice())?;
    }
    Ok(text)
}
