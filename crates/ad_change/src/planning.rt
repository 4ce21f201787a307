//! The plan of an act: the first check that fails, or the edits that make it.

ghost use Rattle.std.specs.Prelude.{IfOk};
ghost use Rattle.ad_dir_model.specs.Soundness.{IsSound};
ghost use Rattle.ad_needs_rules.specs.Verdicts.{Resolves};
ghost use Rattle.ad_change.specs.Plans.{IsPlan};

use crate::adding::{Adding, add_plan};
use crate::deleting::delete_plan;
use crate::modifying::modify_plan;
use crate::outcome::Plan;
use crate::renaming::rename_plan;
use ad_dir::{Act, Dir};
use ad_ids::Token;
use std::alloc::{AllocError, Global};

/// The first check that fails of an act, after what it needs; or the edits that make it. The directory is sound,
/// and the checks up to the required rights resolve some operation to the act on it.
///
/// # Errors
///
/// Memory ran out.
pub fn plan(alloc: Global, dir: &Dir, token: &Token, act: &Act) -> Result<Plan, AllocError>
    requires sound { IsSound dir.now }
    requires resolved { Resolves dir.now token.now act.now }
    ensures { IfOk result (IsPlan dir.now token.now act.now) }
{
    match act {
        Act::Add {
            parent,
            class,
            name,
            values,
            sd,
        } => {
            let added = Adding {
                parent: *parent,
                class: *class,
                name,
                values: values.as_slice(),
                sd,
            };
            add_plan(alloc, dir, token, &added)
        }
        Act::Delete { target, tree } => delete_plan(alloc, dir, *target, *tree),
        Act::Rename {
            target,
            parent,
            name,
        } => rename_plan(alloc, dir, *target, *parent, name),
        Act::Modify { target, items, sd } => modify_plan(alloc, dir, token, *target, items, sd),
    }
}
