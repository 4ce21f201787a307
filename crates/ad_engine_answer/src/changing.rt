//! Changes: what Add, Delete, Rename and Modify are answered, and the edits that make them.

ghost use Rattle.std.specs.Prelude.{◌≡◌, All, [], true, IfOk};
ghost use Rattle.ad_dir_model.specs.Objects.{is_live};
ghost use Rattle.ad_dir_model.specs.Directory.{Directory};
ghost use Rattle.ad_dir_model.specs.Soundness.{IsSound};
ghost use Rattle.ad_dn.specs.Text.{dn_text};
ghost use Rattle.ad_ldap.specs.MessageValue.{op_seen, message_seen};
ghost use Rattle.ad_ldap.specs.Settings.{settings_of};
ghost use Rattle.ad_ldap.specs.ResultCodes.{no_such_object, insufficient_access_rights};
ghost use Rattle.ad_needs_rules.specs.Needs.{need_text};
ghost use Rattle.ad_needs_rules.specs.Verdicts.{IsChange, verdict_of};
ghost use Rattle.ad_needs_rules.specs.declared.outcome.Verdict.TheVariants.{Granted as IsGranted};
ghost use Rattle.ad_change.specs.Effects.{changes_to, effect};
ghost use Rattle.ad_engine_answer.specs.Decided.{IsDecided, AreEditsTo};
ghost use Rattle.ad_engine_answer.specs.Messages.{replies, done, by_effect, changed};

use crate::decided::Decided;
use crate::ranges::stays_sound;
use crate::replies::{done, refused, replying};
use ad_bytes::{Bytes, List};
use ad_change::{Plan, plan};
use ad_dir::{Act, Dir, Edit};
use ad_dn::Dn;
use ad_ids::Token;
use ad_ldap::{Message, Op, Settings, result_code, settings};
use ad_needs::{Need, Verdict, a_missing_need_names_live_objects, text, verdict};
use std::alloc::{AllocError, Global};

// The object isn't there, or isn't visible: the name above it that is told.
fn hidden(alloc: Global, id: u32, tag: u8, dn: &Dn) -> Result<Decided, AllocError>
    ensures { IfOk result (λ decided. (dir : Directory)
        → IsDecided dir (replies (done id tag no_such_object (dn_text dn.now) [])) decided) }
{
    let name = dn.text(alloc)?;
    let bytes = done(
        alloc,
        id,
        tag,
        result_code::NO_SUCH_OBJECT,
        name,
        Vec::new(alloc),
    )?;
    Ok(replying(alloc, bytes))
}

// A need is missing.
fn missing(alloc: Global, dir: &Dir, id: u32, tag: u8, need: &Need) -> Result<Decided, AllocError>
    requires { All (λ want. is_live dir.now.objects want.object ≡ true) need.now.alternatives }
    ensures { IfOk result (IsDecided dir.now
        (replies (done id tag insufficient_access_rights [] (need_text dir.now need.now)))) }
{
    let diagnostic = text(alloc, dir, need)?;
    let bytes = done(
        alloc,
        id,
        tag,
        result_code::INSUFFICIENT_ACCESS_RIGHTS,
        Vec::new(alloc),
        diagnostic,
    )?;
    Ok(replying(alloc, bytes))
}

// The change is made by these edits.
fn success_of(alloc: Global, id: u32, tag: u8, edits: List<Edit>) -> Result<Decided, AllocError>
    ensures { IfOk result (λ decided. (dir after : Directory) → AreEditsTo dir edits after
        → IsDecided dir (by_effect id tag (changes_to after)) decided) }
{
    let bytes = done(
        alloc,
        id,
        tag,
        result_code::SUCCESS,
        Vec::new(alloc),
        Vec::new(alloc),
    )?;
    Ok(Decided {
        reply: Bytes::from_vec(bytes),
        edits,
        drops: false,
    })
}

// The checks up to the required rights hold: the first after them that fails, or the change.
fn planned(
    alloc: Global,
    dir: &Dir,
    token: &Token,
    message: &Message,
    tag: u8,
    settings: &Settings,
    act: &Act,
) -> Result<Decided, AllocError>
    requires sound { IsSound dir.now }
    requires change { IsChange (op_seen message.now.op) }
    requires granted { verdict_of dir.now token.now (op_seen message.now.op) settings.now
        ≡ IsGranted act.now }
    ensures { IfOk result (IsDecided dir.now
        (by_effect message.now.id tag
        (effect dir.now token.now (op_seen message.now.op) settings.now))) }
{
    stays_sound(dir, &message.op);
    match plan(alloc, dir, token, act)? {
        Plan::Refused(code) => refused(alloc, message.id, tag, code),
        Plan::Edits(edits) => success_of(alloc, message.id, tag, edits),
    }
}

// A change whose controls are as they should be.
fn decision_of(
    alloc: Global,
    dir: &Dir,
    token: &Token,
    message: &Message,
    tag: u8,
    settings: &Settings,
) -> Result<Decided, AllocError>
    requires sound { IsSound dir.now }
    requires change { IsChange (op_seen message.now.op) }
    ensures { IfOk result (IsDecided dir.now
        (by_effect message.now.id tag
        (effect dir.now token.now (op_seen message.now.op) settings.now))) }
{
    dir.invariants();
    a_missing_need_names_live_objects();
    match verdict(alloc, dir, token, &message.op, settings)? {
        Verdict::Granted(act) => planned(alloc, dir, token, message, tag, settings, &act),
        Verdict::Refused(code) => refused(alloc, message.id, tag, code),
        Verdict::Hidden(dn) => hidden(alloc, message.id, tag, &dn),
        Verdict::Missing(need) => missing(alloc, dir, message.id, tag, &need),
    }
}

/// A change, with the tag of its response.
pub(crate) fn change(
    alloc: Global,
    dir: &Dir,
    token: &Token,
    message: &Message,
    tag: u8,
) -> Result<Decided, AllocError>
    requires sound { IsSound dir.now }
    requires change { IsChange (op_seen message.now.op) }
    ensures { IfOk result (IsDecided dir.now
        (changed dir.now token.now (message_seen message.now) tag
        (settings_of (message_seen message.now)))) }
{
    match settings(message) {
        Ok(settings) => decision_of(alloc, dir, token, message, tag, &settings),
        Err(code) => refused(alloc, message.id, tag, code),
    }
}
