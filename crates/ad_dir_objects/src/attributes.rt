//! Which attribute a name means, and what the schema says of attributes and classes that rules name.

ghost use Rattle.std.specs.Prelude.{◌≡◌, ◌<◌, true, slice_get, length, IfOk};
ghost use Rattle.std.specs.Option.{option_copied};
ghost use Rattle.sha2.specs.Sha256.{sha256};
ghost use Rattle.ad_value.specs.Value.{as_shown};
ghost use Rattle.ad_schema.specs.Attributes.{attrs_of};
ghost use Rattle.ad_schema.specs.Classes.{classes_of, naming_of};
ghost use Rattle.ad_dir_model.specs.Attributes.{attr_name, is_named, is_password, is_single};
ghost use Rattle.ad_dir_model.specs.Inheritance.{guid_at};

use ad_ids::Guid;
use ad_schema::{AttrId, AttrInfo, ClassId, ClassInfo, Schema};
use ad_schema_classes::same_name;
use ad_value::{Value, digest};
use std::alloc::{AllocError, Global};

fn attr_at(attrs: &[AttrInfo], place: usize) -> Option<&AttrInfo>
    ensures { option_copied result ≡ slice_get attrs.now place }
{
    attrs.get(place)
}

fn class_at(classes: &[ClassInfo], place: usize) -> Option<&ClassInfo>
    ensures { option_copied result ≡ slice_get classes.now place }
{
    classes.get(place)
}

// Whether the attribute has this name, without regard to case. Only then can the name lead to it.
fn may_be_named(schema: &Schema, name: &[u8], attr: AttrId) -> bool
    ensures { is_named schema.now name.now attr.0 ≡ true → result ≡ true }
{
    match attr_at(schema.attrs(), attr.0 as usize) {
        Some(info) => same_name(info.name.as_slice(), name),
        None => true,
    }
}

/// Whether the attribute is the one that a name leads to. Its own name is looked at first, since to look a name up
/// takes longer.
pub fn is_named(schema: &Schema, name: &[u8], attr: AttrId) -> bool
    ensures { result ≡ is_named schema.now name.now attr.0 }
{
    if !may_be_named(schema, name, attr) {
        return false;
    }
    match schema.attr(name) {
        Some(id) => id.0 == attr.0,
        None => false,
    }
}

/// Whether values of the attribute are kept as their digests.
pub fn is_password(schema: &Schema, attr: AttrId) -> bool
    ensures { result ≡ is_password schema.now attr.0 }
{
    is_named(schema, b"unicodePwd", attr)
}

/// The value that is kept of a password: it is shown and compared by the SHA-256 digest of these bytes.
///
/// # Errors
///
/// Out of memory.
pub fn digest_value(alloc: Global, bytes: &[u8]) -> Result<Value, AllocError>
    ensures { IfOk result (λ value. value ≡ as_shown (sha256 bytes.now)) }
{
    let hash = digest(bytes);
    Value::as_shown(alloc, &hash)
}

/// Whether an object has one value of the attribute at most.
#[tactic(auto, unfolding(ad_dir_model::specs::Attributes::is_single))]
pub fn is_single(schema: &Schema, attr: AttrId) -> bool
    requires { attr.0 < length (attrs_of schema.now) }
    ensures { result ≡ is_single schema.now attr.0 }
{
    schema.attr_info(attr).single
}

/// The name of the attribute that names the objects of a class.
pub fn naming_name(schema: &Schema, class: ClassId) -> &[u8]
    requires { class.0 < length (classes_of schema.now) }
    ensures { result.now ≡ attr_name schema.entry.now (naming_of schema.entry.now class.0) }
{
    let naming = schema.class_info(class).naming;
    schema.attr_info(naming).name.as_slice()
}

/// The GUID of a class; where the schema has no class at the place, one of zeros.
pub fn guid_of(schema: &Schema, class: ClassId) -> Guid
    ensures { result ≡ guid_at schema.now class.0 }
{
    match class_at(schema.classes(), class.0 as usize) {
        Some(info) => info.guid,
        None => Guid { bytes: [0; 16] },
    }
}
