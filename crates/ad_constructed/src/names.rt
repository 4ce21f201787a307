//! Whether an attribute or a class is listed, one at a time.

ghost use Rattle.std.specs.Prelude.{◌≡◌, ◌<◌, ◌==◌, ◌++◌, length, OnOk};
ghost use Rattle.ad_schema.specs.Attributes.{attrs_of};
ghost use Rattle.ad_schema.specs.Classes.{classes_of, naming_of};
ghost use Rattle.ad_schema.specs.Meaning.{is_computed};
ghost use Rattle.ad_constructed.specs.Listed.{name_if, is_object_sid, is_replaceable, is_listed, is_child_listed};
ghost use Rattle.ad_constructed.specs.Names.{all_items};

use crate::rights::Rights;
use ad_schema::{AttrId, AttrInfo, ClassId, RuleAttr, Schema, is_computed};
use ad_schema_defaults::{is_schema_class, is_structural};
use std::alloc::{AllocError, Global};

// ---- attributes

fn is_naming(schema: &Schema, class: ClassId, attr: AttrId) -> bool
    requires { class.0 < length (classes_of schema.now) }
    ensures { result ≡ (naming_of schema.now class.0 == attr.0) }
{
    schema.class_info(class).naming.0 == attr.0
}

fn is_object_sid(schema: &Schema, attr: AttrId) -> bool
    ensures { result ≡ is_object_sid schema.now attr.0 }
{
    match schema.attr_of_rule(RuleAttr::ObjectSid) {
        Some(sid) => sid.0 == attr.0,
        None => false,
    }
}

// Whether its values can be replaced by one value.
#[tactic(auto, unfolding(crate::specs::Listed::is_replaceable))]
fn is_replaceable(schema: &Schema, class: ClassId, attr: AttrId, info: &AttrInfo) -> bool
    requires class { class.0 < length (classes_of schema.now) }
    requires attr { attr.0 < length (attrs_of schema.now) }
    ensures { result ≡ is_replaceable schema.now class.0 attr.0 info.now }
{
    !is_computed(info.name.as_slice())
        && !is_naming(schema, class, attr)
        && !is_object_sid(schema, attr)
        && !schema.is_back_link(attr)
}

/// Whether an attribute is listed.
pub(crate) fn is_listed<R: Rights>(
    schema: &Schema,
    class: ClassId,
    rights: &R,
    attr: AttrId,
    info: &AttrInfo,
) -> bool
    requires class { class.0 < length (classes_of schema.now) }
    requires attr { attr.0 < length (attrs_of schema.now) }
    ensures { result ≡ is_listed schema.now class.0 (R.view rights.now) attr.0 info.now }
{
    schema.allowed(class, attr)
        && is_replaceable(schema, class, attr, info)
        && rights.may_write(attr)
}

// ---- classes

/// Whether a class of children is listed.
pub(crate) fn is_child_listed<R: Rights>(
    schema: &Schema,
    class: ClassId,
    rights: &R,
    child: ClassId,
) -> bool
    ensures { result ≡ is_child_listed schema.now class.0 (R.view rights.now) child.0 }
{
    is_structural(schema, child)
        && !is_schema_class(schema, child)
        && schema.under(child, class)
        && rights.may_create(child)
}

// ---- names

/// Puts a copy of a name at the end, where it is listed.
pub(crate) fn push_if(
    alloc: Global,
    names: &mut Vec<Vec<u8>>,
    listed: bool,
    name: &[u8],
) -> Result<(), AllocError>
    ensures { OnOk result (all_items names.new.items ≡ all_items names.old.items
        ++ name_if listed name.now) }
{
    if listed {
        names.push(Vec::from_slice(alloc, name)?)?;
    }
    Ok(())
}
