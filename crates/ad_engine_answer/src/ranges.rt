//! What is known of requests that were read: their values are bytes. These functions do nothing.

ghost use Rattle.std.specs.Prelude.{◌≡◌, Some};
ghost use Rattle.std.specs.List.{AllByRecursion};
ghost use Rattle.ad_bytes.specs.Reading.{IsBytes};
ghost use Rattle.ad_ids.specs.SidValue.{SidValue};
ghost use Rattle.ad_ids.specs.Sid.{IsSid};
ghost use Rattle.ad_ids.specs.declared.token.Token.{Token};
ghost use Rattle.ad_ldap.specs.declared.controls.Settings.{Settings};
ghost use Rattle.ad_ldap.specs.MessageValue.{op_seen};
ghost use Rattle.ad_dir_model.specs.Directory.{Directory};
ghost use Rattle.ad_dir_model.specs.Identity.{domain_sid};
ghost use Rattle.ad_dir_model.specs.Soundness.{IsSound};
ghost use Rattle.ad_needs_rules.specs.Verdicts.{IsChange};
ghost use Rattle.ad_change.specs.Effects.{changes_to, effect};

use ad_bytes::{Bytes, List, are_bytes};
use ad_change::{
    a_delete_keeps_a_directory_sound, a_modify_keeps_a_directory_sound,
    a_rename_keeps_a_directory_sound, an_add_keeps_a_directory_sound,
};
use ad_dir::Dir;
use ad_ldap::{Item, Op};

fn items_are_bytes(items: &[Item])
    ensures { AllByRecursion (λ item. AllByRecursion IsBytes item.values) items.now }
{
    for item in items {
        are_bytes(item.values.as_slice());
    }
}

fn attrs_are_bytes(attrs: &[(Bytes, List<Bytes>)])
    ensures { AllByRecursion (λ attr. AllByRecursion IsBytes attr.1) attrs.now }
{
    for attr in attrs {
        are_bytes(attr.1.as_slice());
    }
}

// The domain's identifier, where it has one, has the form of one.
fn domain_has_form(dir: &Dir)
    ensures { (sid : SidValue) → domain_sid dir.now ≡ Some sid → IsSid sid }
{
    match dir.self_sid(1) {
        Some(sid) => sid.has_its_ranges(),
        None => {}
    }
}

/// Whatever a change that was read makes of a sound directory is sound.
pub(crate) fn stays_sound(dir: &Dir, op: &Op)
    requires { IsSound dir.now }
    ensures { (token : Token) (s : Settings) (after : Directory) → IsChange (op_seen op.now)
        → effect dir.now token (op_seen op.now) s ≡ changes_to after → IsSound after }
{
    match op {
        Op::Modify(modify) => {
            items_are_bytes(modify.items.as_slice());
            a_modify_keeps_a_directory_sound();
        }
        Op::Add(add) => {
            attrs_are_bytes(add.attrs.as_slice());
            domain_has_form(dir);
            an_add_keeps_a_directory_sound();
        }
        Op::Delete(_) => a_delete_keeps_a_directory_sound(),
        Op::Rename(_) => a_rename_keeps_a_directory_sound(),
        Op::Bind | Op::Unbind | Op::Search(_) | Op::Compare(_) | Op::Abandon | Op::Extended => {}
    }
}
