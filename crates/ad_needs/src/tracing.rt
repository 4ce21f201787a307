//! What an operation tries, requirement by requirement.

ghost use Rattle.std.specs.Prelude.{◌≡◌, true, IfOk};
ghost use Rattle.ad_ldap.specs.declared.controls.Settings.{Settings};
ghost use Rattle.ad_ldap.specs.MessageValue.{op_seen, ModifyOf, AddOf, DeleteOf, RenameOf};
ghost use Rattle.ad_types.specs.Tried.{tried_values};
ghost use Rattle.ad_needs_rules.specs.Verdicts.{verdict_of};
ghost use Rattle.ad_needs.specs.Tries.{tries};
ghost use Rattle.ad_needs.specs.Traces.{requirements, reaches, trace_of};

use crate::adding::{new_sd, unless_creates};
use crate::decoding::decode;
use crate::deleting::unless_deletes;
use crate::judging::verdict;
use crate::modify_needs::needs_refusal;
use crate::renaming::unless_renames;
use crate::resolving::{class_of_new, found, new_parent, parent_of_new};
use crate::trying::new_trace;
use ad_dir::Dir;
use ad_ids::Token;
use ad_ldap::{Add, Modify, Op, Rename, Settings};
use ad_needs_rules::Verdict;
use ad_types::Tried;
use std::alloc::{AllocError, Global};

// ---- operations whose checks before their requirements pass

fn tried_deleting(
    alloc: Global,
    dir: &Dir,
    token: &Token,
    text: &[u8],
    settings: &Settings,
) -> Result<Vec<Tried>, AllocError>
    requires { reaches (verdict_of dir.now token.now (DeleteOf text.now) settings.now) ≡ true }
    ensures { IfOk result (λ tried. tried_values tried.items
        ≡ tries dir.now token.now (requirements dir.now token.now (DeleteOf text.now)
        settings.now)) }
{
    let number = found(alloc, dir, token, text)?;
    let mut trace = new_trace(alloc);
    unless_deletes(alloc, dir, token, number, settings.tree, &mut trace)?;
    Ok(trace.tried)
}

// No control is for a Rename.
fn tried_renaming(
    alloc: Global,
    dir: &Dir,
    token: &Token,
    rename: &Rename,
) -> Result<Vec<Tried>, AllocError>
    requires { (s : Settings) × (reaches (verdict_of dir.now token.now (RenameOf rename.now) s)
        ≡ true) }
    ensures { (s : Settings) → IfOk result (λ tried. tried_values tried.items
        ≡ tries dir.now token.now (requirements dir.now token.now (RenameOf rename.now) s)) }
{
    let number = found(alloc, dir, token, rename.dn.as_slice())?;
    let parent = new_parent(alloc, dir, token, number, rename)?;
    let mut trace = new_trace(alloc);
    unless_renames(alloc, dir, token, number, parent, &mut trace)?;
    Ok(trace.tried)
}

fn tried_adding(
    alloc: Global,
    dir: &Dir,
    token: &Token,
    add: &Add,
    settings: &Settings,
) -> Result<Vec<Tried>, AllocError>
    requires { reaches (verdict_of dir.now token.now (AddOf add.now) settings.now) ≡ true }
    ensures { IfOk result (λ tried. tried_values tried.items
        ≡ tries dir.now token.now (requirements dir.now token.now (AddOf add.now) settings.now)) }
{
    let parent = parent_of_new(alloc, dir, token, add)?;
    let class = class_of_new(alloc, dir, add)?;
    let sd = new_sd(alloc, add, settings.sd_flags)?;
    let mut trace = new_trace(alloc);
    unless_creates(alloc, dir, token, parent, class, &sd, &mut trace)?;
    Ok(trace.tried)
}

fn tried_modifying(
    alloc: Global,
    dir: &Dir,
    token: &Token,
    modify: &Modify,
    settings: &Settings,
) -> Result<Vec<Tried>, AllocError>
    requires { reaches (verdict_of dir.now token.now (ModifyOf modify.now) settings.now) ≡ true }
    ensures { IfOk result (λ tried. tried_values tried.items
        ≡ tries dir.now token.now (requirements dir.now token.now (ModifyOf modify.now)
        settings.now)) }
{
    let number = found(alloc, dir, token, modify.dn.as_slice())?;
    let items = modify.items.as_slice();
    let decoded = decode(alloc, dir.schema(), items, settings.sd_flags)?;
    let mut trace = new_trace(alloc);
    needs_refusal(alloc, dir, token, number, &decoded, &mut trace)?;
    Ok(trace.tried)
}

#[tactic(auto, unfolding(crate::specs::Traces::requirements, crate::specs::Tries::tries))]
fn tried_by(
    alloc: Global,
    dir: &Dir,
    token: &Token,
    op: &Op,
    settings: &Settings,
) -> Result<Vec<Tried>, AllocError>
    requires { reaches (verdict_of dir.now token.now (op_seen op.now) settings.now) ≡ true }
    ensures { IfOk result (λ tried. tried_values tried.items
        ≡ tries dir.now token.now (requirements dir.now token.now (op_seen op.now) settings.now)) }
{
    match op {
        Op::Add(add) => tried_adding(alloc, dir, token, add, settings),
        Op::Delete(dn) => tried_deleting(alloc, dir, token, dn.as_slice(), settings),
        Op::Rename(rename) => tried_renaming(alloc, dir, token, rename),
        Op::Modify(modify) => tried_modifying(alloc, dir, token, modify, settings),
        Op::Bind | Op::Unbind | Op::Search(_) | Op::Compare(_) | Op::Abandon | Op::Extended => {
            Ok(Vec::new(alloc))
        }
    }
}

// ---- the trace

// Whether each check before the requirements passes.
fn reaches(verdict: &Verdict) -> bool
    ensures { result ≡ reaches verdict.now }
{
    match verdict {
        Verdict::Granted(_) => true,
        Verdict::Missing(_) => true,
        Verdict::Refused(_) => false,
        Verdict::Hidden(_) => false,
    }
}

/// What an Add, a Delete, a Rename or a Modify tries, in order.
///
/// Where each check before its requirements passes these are the requirements, up to the first that is missing: of
/// one that is met its first granted alternative, as a success, and of the one that is missing its first, as a
/// failure. Else nothing is tried, and neither by an operation that changes nothing.
///
/// # Errors
///
/// Memory ran out.
#[tactic(auto, unfolding(crate::specs::Traces::trace_of))]
pub fn trace(
    alloc: Global,
    dir: &Dir,
    token: &Token,
    op: &Op,
    settings: &Settings,
) -> Result<Vec<Tried>, AllocError>
    ensures { IfOk result (λ tried. tried_values tried.items ≡ trace_of dir.now token.now
        (op_seen op.now) settings.now) }
{
    let said = verdict(alloc, dir, token, op, settings)?;
    if !reaches(&said) {
        return Ok(Vec::new(alloc));
    }
    tried_by(alloc, dir, token, op, settings)
}
