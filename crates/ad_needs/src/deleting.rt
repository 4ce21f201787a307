//! Delete: its checks up to the required rights.

ghost use Rattle.std.specs.Prelude.{◌≡◌, ◌≢◌, [], ◌∷◌, true, IfOk};
ghost use Rattle.ad_ldap.specs.MessageValue.{DeleteOf};
ghost use Rattle.ad_dir_model.specs.Objects.{is_live};
ghost use Rattle.ad_dir_model.specs.Tree.{root};
ghost use Rattle.ad_needs_rules.specs.Checks.{all_met};
ghost use Rattle.ad_needs_rules.specs.Deleting.{to_leave, delete_needs};
ghost use Rattle.ad_needs_rules.specs.Judged.{refusal_of};
ghost use Rattle.ad_needs.specs.Steps.{Steps};
ghost use Rattle.ad_needs_rules.specs.Verdicts.{verdict_of};

use crate::trying::{Trace, no_trace, require, require_either};
use ad_dir::{Act, Dir, ROOT, class_of, parent_of};
use ad_ids::Token;
use ad_ldap::{Settings, result_code};
use ad_needs_rules::{Right, Verdict, matched, on_children, on_object, read_name, visible};
use std::alloc::{AllocError, Global};

/// The refusal where a live object, which isn't the root, may not go alone: it needs to be deleted, or its parent
/// to lose a child of its class.
///
/// # Errors
///
/// Memory ran out.
pub(crate) fn unless_leaves(
    alloc: Global,
    dir: &Dir,
    token: &Token,
    number: u32,
    trace: &mut Trace,
) -> Result<Option<Verdict>, AllocError>
    requires live { is_live dir.now.objects number ≡ true }
    requires below { number ≢ root }
    ensures refusal { IfOk result (λ refusal. refusal
        ≡ refusal_of (all_met dir.now token.now (to_leave dir.now number ∷ []))) }
    ensures steps { IfOk result (λ refusal. Steps dir.now token.now trace.old
        (to_leave dir.now number ∷ []) trace.new refusal) }
{
    let parent = parent_of(dir, number);
    let alone = on_object(number, Right::Delete);
    let above = on_children(dir, parent, Right::DeleteChild, class_of(dir, number));
    require_either(alloc, dir, token, &alone, &above, trace)
}

// The refusal where it may not go with all that is below it.
fn unless_all_go(
    alloc: Global,
    dir: &Dir,
    token: &Token,
    number: u32,
    trace: &mut Trace,
) -> Result<Option<Verdict>, AllocError>
    requires { is_live dir.now.objects number ≡ true }
    ensures refusal { IfOk result (λ refusal. refusal
        ≡ refusal_of (all_met dir.now token.now (delete_needs dir.now number true))) }
    ensures steps { IfOk result (λ refusal. Steps dir.now token.now trace.old
        (delete_needs dir.now number true) trace.new refusal) }
{
    require(
        alloc,
        dir,
        token,
        &on_object(number, Right::DeleteTree),
        trace,
    )
}

/// The refusal where what a Delete needs is missing.
///
/// # Errors
///
/// Memory ran out.
pub(crate) fn unless_deletes(
    alloc: Global,
    dir: &Dir,
    token: &Token,
    number: u32,
    tree: bool,
    trace: &mut Trace,
) -> Result<Option<Verdict>, AllocError>
    requires live { is_live dir.now.objects number ≡ true }
    requires below { number ≢ root }
    ensures refusal { IfOk result (λ refusal. refusal
        ≡ refusal_of (all_met dir.now token.now (delete_needs dir.now number tree))) }
    ensures steps { IfOk result (λ refusal. Steps dir.now token.now trace.old
        (delete_needs dir.now number tree) trace.new refusal) }
{
    if tree {
        unless_all_go(alloc, dir, token, number, trace)
    } else {
        unless_leaves(alloc, dir, token, number, trace)
    }
}

/// The first check that fails of a Delete, up to what it needs; or what it asks for. `text` is the name that was
/// sent.
///
/// # Errors
///
/// Memory ran out.
pub(crate) fn delete_verdict(
    alloc: Global,
    dir: &Dir,
    token: &Token,
    text: &[u8],
    settings: &Settings,
) -> Result<Verdict, AllocError>
    ensures { IfOk result (λ verdict. verdict ≡ verdict_of dir.now token.now (DeleteOf text.now)
        settings.now) }
{
    let Some(dn) = read_name(alloc, text)? else {
        return Ok(Verdict::Refused(result_code::INVALID_DN_SYNTAX));
    };
    let Some(number) = visible(alloc, dir, token, &dn)? else {
        let above = matched(alloc, dir, token, &dn)?;
        return Ok(Verdict::Hidden(above));
    };
    if number == ROOT {
        return Ok(Verdict::Refused(result_code::UNWILLING_TO_PERFORM));
    }
    let mut trace = no_trace(alloc);
    match unless_deletes(alloc, dir, token, number, settings.tree, &mut trace)? {
        Some(refusal) => Ok(refusal),
        None => Ok(Verdict::Granted(Act::Delete {
            target: number,
            tree: settings.tree,
        })),
    }
}
