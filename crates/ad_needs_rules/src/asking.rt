//! The rights that operations ask for.

ghost use Rattle.std.specs.Prelude.{◌≡◌, ◌<◌, ◌^◌, ◌∷◌, [], true, length};
ghost use Rattle.ad_acl.specs.Mask.{self_write, write_property};
ghost use Rattle.ad_schema.specs.Attributes.{attrs_of};
ghost use Rattle.ad_schema.specs.Classes.{classes_of};
ghost use Rattle.ad_types.specs.Path.{guids_of};
ghost use Rattle.ad_dir_model.specs.Objects.{is_live};
ghost use Rattle.ad_access_dir.specs.Sight.{is_granted};
ghost use Rattle.ad_needs_rules.specs.Needs.{needs, want_of};
ghost use Rattle.ad_needs_rules.specs.Requests.{class_at, class_path, attr_path};
ghost use Rattle.ad_needs_rules.specs.Judged.{bit_of, asked};

use crate::naming::{attr_path, class_path};
use crate::need::Want;
use ad_access_dir::grants;
use ad_acl::{
    ACCESS_SYSTEM_SECURITY, CONTROL_ACCESS, CREATE_CHILD, DELETE, DELETE_CHILD, DELETE_TREE,
    SELF_WRITE, WRITE_DAC, WRITE_OWNER, WRITE_PROPERTY,
};
use ad_dir::{Dir, class_of};
use ad_ids::{Guid, Token};
use ad_schema::{AttrId, ClassId};
use ad_types::{Path, last_of};

/// A right that an operation can ask for ([MS-ADTS] 5.1.3.2).
#[derive(Clone, Copy)]
pub enum Right {
    CreateChild,
    DeleteChild,
    SelfWrite,
    WriteProperty,
    DeleteTree,
    ControlAccess,
    Delete,
    WriteDac,
    WriteOwner,
    SystemSecurity,
}

/// A right on an object, on a path.
#[derive(Drop)]
pub struct Ask {
    pub object: u32,
    pub right: Right,
    pub path: Path,
}

/// The right as a mask.
pub fn mask_of(right: Right) -> u32
    ensures mask { result ≡ 2 ^ bit_of right }
    ensures below_generic { bit_of right < 28 }
{
    match right {
        Right::CreateChild => CREATE_CHILD,
        Right::DeleteChild => DELETE_CHILD,
        Right::SelfWrite => SELF_WRITE,
        Right::WriteProperty => WRITE_PROPERTY,
        Right::DeleteTree => DELETE_TREE,
        Right::ControlAccess => CONTROL_ACCESS,
        Right::Delete => DELETE,
        Right::WriteDac => WRITE_DAC,
        Right::WriteOwner => WRITE_OWNER,
        Right::SystemSecurity => ACCESS_SYSTEM_SECURITY,
    }
}

/// A right on an object as a whole.
pub fn on_object(number: u32, right: Right) -> Ask
    ensures object { result.object ≡ number }
    ensures asked { asked result ≡ needs number (bit_of right) [] }
{
    Ask {
        object: number,
        right,
        path: Path::empty(),
    }
}

/// A right to the children of a class below an object.
pub fn on_children(dir: &Dir, number: u32, right: Right, class: ClassId) -> Ask
    requires { class.0 < length (classes_of dir.now.schema) }
    ensures object { result.object ≡ number }
    ensures asked { asked result ≡ needs number (bit_of right) (class_path dir.now.schema class.0) }
{
    Ask {
        object: number,
        right,
        path: class_path(dir.schema(), class),
    }
}

/// The right to write an attribute of a live object.
pub fn to_write(dir: &Dir, number: u32, attr: AttrId) -> Ask
    requires live { is_live dir.now.objects number ≡ true }
    requires attr { attr.0 < length (attrs_of dir.now.schema) }
    ensures object { result.object ≡ number }
    ensures asked { asked result ≡ needs number write_property
        (attr_path dir.now.schema (class_at dir.now number) attr.0) }
{
    Ask {
        object: number,
        right: Right::WriteProperty,
        path: attr_path(dir.schema(), class_of(dir, number), attr),
    }
}

/// The right to do a validated write.
pub fn to_do(number: u32, guid: Guid) -> Ask
    ensures object { result.object ≡ number }
    ensures asked { asked result ≡ needs number self_write (guid ∷ []) }
{
    Ask {
        object: number,
        right: Right::SelfWrite,
        path: Path::one(guid),
    }
}

/// Whether what is asked for is granted on a live object.
pub fn is_granted(dir: &Dir, token: &Token, ask: &Ask) -> bool
    requires { is_live dir.now.objects ask.now.object ≡ true }
    ensures { result ≡ is_granted dir.now token.now ask.now.object (guids_of ask.now.path)
        (bit_of ask.now.right) }
{
    grants(dir, token, ask.object, &ask.path, mask_of(ask.right))
}

/// What is told of it where it isn't granted.
pub(crate) fn want_of(ask: &Ask) -> Want
    ensures { result ≡ want_of (asked ask.now) }
{
    Want {
        object: ask.object,
        right: mask_of(ask.right),
        guid: last_of(ask.path.guids()),
    }
}
