//! The verdict of each operation: the first check that fails up to what it needs, or what is asked for.

ghost use Rattle.std.specs.Prelude.{◌≡◌, IfOk};
ghost use Rattle.ad_ldap.specs.MessageValue.{op_seen};
ghost use Rattle.ad_needs_rules.specs.Verdicts.{verdict_of};

use crate::adding::add_verdict;
use crate::deleting::delete_verdict;
use crate::modifying::modify_verdict;
use crate::renaming::rename_verdict;
use ad_dir::Dir;
use ad_ids::Token;
use ad_ldap::{Op, Settings, result_code};
use ad_needs_rules::Verdict;
use std::alloc::{AllocError, Global};

/// The first check that fails of an Add, a Delete, a Rename or a Modify, after the controls and up to what it
/// needs; or what it asks for. No other operation changes a directory: it is refused.
///
/// # Errors
///
/// Memory ran out.
#[tactic(auto, unfolding(ad_needs_rules::specs::Verdicts::verdict_of))]
pub fn verdict(
    alloc: Global,
    dir: &Dir,
    token: &Token,
    op: &Op,
    settings: &Settings,
) -> Result<Verdict, AllocError>
    ensures { IfOk result (λ verdict. verdict ≡ verdict_of dir.now token.now (op_seen op.now)
        settings.now) }
{
    match op {
        Op::Add(add) => add_verdict(alloc, dir, token, add, settings),
        Op::Delete(dn) => delete_verdict(alloc, dir, token, dn.as_slice(), settings),
        Op::Rename(rename) => rename_verdict(alloc, dir, token, rename),
        Op::Modify(modify) => modify_verdict(alloc, dir, token, modify, settings),
        Op::Bind | Op::Unbind | Op::Search(_) | Op::Compare(_) | Op::Abandon | Op::Extended => {
            Ok(Verdict::Refused(result_code::UNWILLING_TO_PERFORM))
        }
    }
}
