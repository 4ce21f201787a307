//! Required rights, one after the other: the refusal of the first that is missing, and what was tried of them.

ghost use Rattle.std.specs.Prelude.{◌≡◌, ◌^◌, ◌∷◌, [], true, Some, None, if◌then◌else◌, IfOk, OnOk};
ghost use Rattle.ad_types.specs.Tried.{tried_value, failure_on};
ghost use Rattle.ad_dir_model.specs.Objects.{is_live};
ghost use Rattle.ad_access_dir.specs.Sight.{is_granted};
ghost use Rattle.ad_needs_rules.specs.Checks.{all_met};
ghost use Rattle.ad_needs_rules.specs.Judged.{asked, refusal_of};
ghost use Rattle.ad_needs.specs.Tries.{success_of};
ghost use Rattle.ad_needs.specs.Steps.{kept, and_then, Steps};

use ad_dir::Dir;
use ad_ids::Token;
use ad_needs_rules::{Ask, Verdict, is_granted, mask_of, unless_either, unless_granted};
use ad_types::{Tried, failed, succeeded};
use std::alloc::{AllocError, Global};

/// What was tried so far, where that is kept: a verdict drops it, and a trace keeps it.
#[derive(Drop)]
pub(crate) struct Trace {
    pub is_kept: bool,
    pub tried: Vec<Tried>,
}

/// Nothing is kept.
pub(crate) fn no_trace(alloc: Global) -> Trace
    ensures { kept result ≡ None }
{
    Trace {
        is_kept: false,
        tried: Vec::new(alloc),
    }
}

/// All is kept.
pub(crate) fn new_trace(alloc: Global) -> Trace
    ensures { kept result ≡ Some [] }
{
    Trace {
        is_kept: true,
        tried: Vec::new(alloc),
    }
}

// ---- one right

fn success(ask: &Ask) -> Tried
    ensures { tried_value result ≡ success_of (asked ask.now) }
{
    succeeded(ask.object, mask_of(ask.right), ask.path)
}

fn failure(ask: &Ask) -> Tried
    ensures { tried_value result ≡ failure_on (asked ask.now).object (2 ^ (asked ask.now).bit)
        (asked ask.now).path }
{
    failed(ask.object, mask_of(ask.right), ask.path)
}

/// Keeps a right that is granted.
///
/// # Errors
///
/// Memory ran out.
pub(crate) fn keep_success(trace: &mut Trace, ask: &Ask) -> Result<(), AllocError>
    ensures { OnOk result (kept trace.new ≡ and_then (kept trace.old)
        (success_of (asked ask.now) ∷ [])) }
{
    if !trace.is_kept {
        return Ok(());
    }
    trace.tried.push(success(ask))?;
    Ok(())
}

// Keeps one that isn't.
fn keep_failure(trace: &mut Trace, ask: &Ask) -> Result<(), AllocError>
    ensures { OnOk result (kept trace.new ≡ and_then (kept trace.old)
        (failure_on (asked ask.now).object (2 ^ (asked ask.now).bit) (asked ask.now).path ∷ [])) }
{
    if !trace.is_kept {
        return Ok(());
    }
    trace.tried.push(failure(ask))?;
    Ok(())
}

// The first of the two that is granted, where one is.
fn granted_of<'a>(dir: &Dir, token: &Token, first: &'a Ask, second: &'a Ask) -> &'a Ask
    requires { is_live dir.now.objects first.now.object ≡ true }
    ensures { asked result.now ≡ (if is_granted dir.now token.now (asked first.entry.now).object
        (asked first.entry.now).path (asked first.entry.now).bit then asked first.entry.now
        else asked second.entry.now) }
{
    if is_granted(dir, token, first) {
        first
    } else {
        second
    }
}

// Keeps the first of the two that is granted, of which one is.
fn keep_either(
    dir: &Dir,
    token: &Token,
    first: &Ask,
    second: &Ask,
    trace: &mut Trace,
) -> Result<(), AllocError>
    requires { is_live dir.now.objects first.now.object ≡ true }
    ensures { OnOk result (kept trace.new ≡ and_then (kept trace.old)
        (success_of (if is_granted dir.now token.now (asked first.now).object
        (asked first.now).path (asked first.now).bit then asked first.now else asked second.now)
        ∷ [])) }
{
    if !trace.is_kept {
        return Ok(());
    }
    let granted = granted_of(dir, token, first, second);
    trace.tried.push(success(granted))?;
    Ok(())
}

// ---- one requirement

/// The refusal where what is asked for isn't granted. Its object is live.
///
/// # Errors
///
/// Memory ran out.
pub(crate) fn require(
    alloc: Global,
    dir: &Dir,
    token: &Token,
    ask: &Ask,
    trace: &mut Trace,
) -> Result<Option<Verdict>, AllocError>
    requires { is_live dir.now.objects ask.now.object ≡ true }
    ensures refusal { IfOk result (λ refusal. refusal
        ≡ refusal_of (all_met dir.now token.now ((asked ask.now ∷ []) ∷ []))) }
    ensures steps { IfOk result (λ refusal. Steps dir.now token.now trace.old
        ((asked ask.now ∷ []) ∷ []) trace.new refusal) }
{
    if let Some(refusal) = unless_granted(alloc, dir, token, ask)? {
        keep_failure(trace, ask)?;
        return Ok(Some(refusal));
    }
    keep_success(trace, ask)?;
    Ok(None)
}

/// The refusal where neither of the two is granted. Their objects are live.
///
/// # Errors
///
/// Memory ran out.
pub(crate) fn require_either(
    alloc: Global,
    dir: &Dir,
    token: &Token,
    first: &Ask,
    second: &Ask,
    trace: &mut Trace,
) -> Result<Option<Verdict>, AllocError>
    requires first { is_live dir.now.objects first.now.object ≡ true }
    requires second { is_live dir.now.objects second.now.object ≡ true }
    ensures refusal { IfOk result (λ refusal. refusal
        ≡ refusal_of (all_met dir.now token.now ((asked first.now ∷ asked second.now ∷ []) ∷ []))) }
    ensures steps { IfOk result (λ refusal. Steps dir.now token.now trace.old
        ((asked first.now ∷ asked second.now ∷ []) ∷ []) trace.new refusal) }
{
    if let Some(refusal) = unless_either(alloc, dir, token, first, second)? {
        keep_failure(trace, first)?;
        return Ok(Some(refusal));
    }
    keep_either(dir, token, first, second, trace)?;
    Ok(None)
}
