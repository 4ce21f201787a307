//! The access check, asked for with bytes.

ghost use Rattle.std.specs.Prelude.{◌≡◌, ℕ, length, Result};
ghost use Rattle.ad_bytes.specs.Reading.{GivesUnless};
ghost use Rattle.adsd_c.specs.declared.refusal.Refusal.{Refusal as RefusalValue};
ghost use Rattle.adsd_c.specs.Refusal.{is_memory};
ghost use Rattle.adsd_c.specs.Delivery.{TellsUnless};
ghost use Rattle.adsd_c.specs.Access.{Question, TreeQuestion, asker_of, question_of, normal_question, tree_question};
ghost use Rattle.adsd_c.specs.Access.{IsMask, Judges, JudgesEach, AreNone, PutsEach, TellsEachUnless};
ghost use Rattle.adsd_c.specs.CallerSeen.{asker_seen};

use crate::delivery::NO_ROOM;
use crate::descriptors::normal_view;
use crate::reading::{kept_sd, path_of, sid_if, token};
use crate::refusal::{Refusal, code_of};
use crate::tree::{TypeNode, tree_of};
use ad_access::{check_tree, granted};
use ad_ids::{Sid, Token};
use ad_sd::SdView;
use std::alloc::Global;

// Who asks, and the identifier that the object has of its own.
#[derive(Drop)]
struct Caller {
    token: Token,
    own: Option<Sid>,
}

#[tactic(auto, unfolding(crate::specs::Access::asker_of))]
fn caller_of(alloc: Global, bytes: &[u8], own: &[u8]) -> Result<Caller, Refusal>
    ensures { GivesUnless is_memory asker_seen result (asker_of bytes.now own.now) }
{
    let token = token(alloc, bytes)?;
    let own = sid_if(own, Refusal::OwnSid)?;
    Ok(Caller { token, own })
}

// ---- on a path

#[tactic(auto, unfolding(crate::specs::Access::question_of))]
fn granted_of(
    alloc: Global,
    sd: &[u8],
    token: &[u8],
    own: &[u8],
    path: &[u8],
    want: u32,
) -> Result<u32, Refusal>
    ensures { Judges want result (question_of sd.now token.now own.now path.now) }
{
    let kept = kept_sd(alloc, sd, Refusal::Sd)?;
    let caller = caller_of(alloc, token, own)?;
    let path = path_of(path)?;
    Ok(granted(kept.view(), &caller.token, caller.own.as_ref(), &path, want))
}

#[tactic(auto, unfolding(crate::specs::Access::normal_question))]
fn granted_of_normal(
    alloc: Global,
    normal: &[u8],
    token: &[u8],
    own: &[u8],
    path: &[u8],
    want: u32,
) -> Result<u32, Refusal>
    ensures { Judges want result (normal_question normal.now token.now own.now path.now) }
{
    let view = normal_view(normal)?;
    let caller = caller_of(alloc, token, own)?;
    let path = path_of(path)?;
    Ok(granted(view, &caller.token, caller.own.as_ref(), &path, want))
}

// Gives the mask to the caller, which is 0 where there is none.
fn tell(answer: Result<u32, Refusal>, mask: &mut u32) -> u32
    ensures { (want : ℕ) (question : Result Question RefusalValue) → Judges want answer question
        → TellsUnless (IsMask want) question result mask.new }
{
    match answer {
        Ok(found) => {
            *mask = found;
            0
        }
        Err(fault) => {
            *mask = 0;
            code_of(fault)
        }
    }
}

/// The rights of the wanted mask, after generic mapping, that the self-relative descriptor grants to the token
/// ([MS-DTYP] 2.5.3.2, [MS-ADTS] 5.1.3.3). The path is none to three GUIDs of 16 bytes, from the object's class down:
/// for an attribute its object's class, its property set where it is in one, and itself. `own` is the identifier that
/// the object has of its own; no bytes say that it has none. With any code but `ADSD_OK` no right is given.
///
/// # Errors
///
/// The first in this order: `ADSD_SD` where the bytes are no descriptor with owner, group and DACL,
/// `ADSD_TOKEN` where they are no token, `ADSD_OWN_SID` where they are neither an identifier nor absent, `ADSD_PATH`
/// where they aren't none to three GUIDs.
#[unsafe(no_mangle)]
pub extern "C" fn adsd_granted(
    alloc: Global,
    sd: &[u8],
    token: &[u8],
    own: &[u8],
    path: &[u8],
    want: u32,
    mask: &mut u32,
) -> u32
    ensures { TellsUnless (IsMask want) (question_of sd.now token.now own.now path.now) result
        mask.new }
{
    tell(granted_of(alloc, sd, token, own, path, want), mask)
}

/// The same of a descriptor in its normal bytes, as `adsd_normal_from_sd` gives them: nothing is made of it, and no
/// memory taken for it.
///
/// # Errors
///
/// The first in this order: `ADSD_NORMAL` where the bytes are the normal bytes of no descriptor, and then as
/// `adsd_granted`.
#[unsafe(no_mangle)]
pub extern "C" fn adsd_granted_normal(
    alloc: Global,
    normal: &[u8],
    token: &[u8],
    own: &[u8],
    path: &[u8],
    want: u32,
    mask: &mut u32,
) -> u32
    ensures { TellsUnless (IsMask want) (normal_question normal.now token.now own.now path.now)
        result mask.new }
{
    tell(
        granted_of_normal(alloc, normal, token, own, path, want),
        mask,
    )
}

// ---- at the nodes of a tree

#[tactic(auto, unfolding(crate::specs::Access::tree_question))]
fn granted_at(
    alloc: Global,
    sd: &[u8],
    token: &[u8],
    own: &[u8],
    given: &[TypeNode],
    want: u32,
) -> Result<Vec<u32>, Refusal>
    ensures { JudgesEach (λ v. v.items) want result
        (tree_question sd.now token.now own.now given.now) }
{
    let kept = kept_sd(alloc, sd, Refusal::Sd)?;
    let caller = caller_of(alloc, token, own)?;
    let tree = tree_of(alloc, given)?;
    Ok(check_tree(
        alloc,
        kept.view(),
        &caller.token,
        caller.own.as_ref(),
        &tree,
        want,
    )?)
}

// No right at any place.
fn clear(masks: &mut [u32])
    ensures len { length masks.new ≡ length masks.old }
    ensures none { AreNone masks.new }
{
    masks.fill(0);
}

// Fills the masks at the start of those of the caller, where there is room for them.
fn put_masks(found: &[u32], masks: &mut [u32]) -> u32
    requires { AreNone masks.old }
    ensures { PutsEach found.now result masks.new }
{
    if masks.len() < found.len() {
        return NO_ROOM;
    }
    masks[..found.len()].copy_from_slice(found);
    0
}

// Gives the masks to the caller, of which there are none where there is no answer.
fn tell_each(answer: Result<Vec<u32>, Refusal>, masks: &mut [u32]) -> u32
    ensures { (want : ℕ) (question : Result TreeQuestion RefusalValue) → JudgesEach (λ v. v.items)
        want answer question
        → TellsEachUnless want question result masks.new }
{
    clear(masks);
    match answer {
        Ok(found) => put_masks(&found, masks),
        Err(fault) => code_of(fault),
    }
}

/// The rights of the wanted mask, after generic mapping, that the self-relative descriptor grants to the token at
/// each node of a tree of object types ([MS-DTYP] 2.5.3.2), in the order of the nodes: a leaf has what
/// `adsd_granted` answers for the GUIDs from the root down to it, and any other node what all its children have.
/// `own` is the identifier that the object has of its own; no bytes say that it has none. Masks after those of the
/// nodes become 0. With any code but `ADSD_OK` no right is given at any node.
///
/// # Errors
///
/// The first in this order: `ADSD_SD` where the bytes are no descriptor with owner, group and DACL,
/// `ADSD_TOKEN` where they are no token, `ADSD_OWN_SID` where they are neither an identifier nor absent, `ADSD_TREE`
/// where the levels make no tree, `ADSD_ROOM` where there is room for fewer masks than there are nodes.
#[unsafe(no_mangle)]
pub extern "C" fn adsd_check_tree(
    alloc: Global,
    sd: &[u8],
    token: &[u8],
    own: &[u8],
    nodes: &[TypeNode],
    want: u32,
    masks: &mut [u32],
) -> u32
    ensures { TellsEachUnless want (tree_question sd.now token.now own.now nodes.now) result
        masks.new }
{
    tell_each(granted_at(alloc, sd, token, own, nodes, want), masks)
}
