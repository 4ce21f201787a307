//! What a token is granted on an object, a label for each right.

ghost use Rattle.std.specs.Prelude.{◌≡◌, ◌++◌, ◌∷◌, [], ◌<◌, true, All, length, if◌then◌else◌, IfOk, OnOk};
ghost use Rattle.std.specs.List.{flat_map, list_any};
ghost use Rattle.ad_schema.specs.Attributes.{attrs_of, rights_of};
ghost use Rattle.ad_schema.specs.Classes.{classes_of};
ghost use Rattle.ad_dir_model.specs.Objects.{is_live};
ghost use Rattle.ad_access_dir.specs.Allowed.{allowed_attrs, applies, is_child_class};
ghost use Rattle.ad_access_dir.specs.Labels.{label_of, right_title};
ghost use Rattle.ad_diff_rights.specs.Rights.{labels, object_labels, attribute_labels, kind_labels};
ghost use Rattle.ad_diff_rights.specs.Rights.{right_labels, child_labels, children_labels, rights_by};
ghost use Rattle.ad_diff_rights.specs.Own.{rights_in};
ghost use Rattle.ad_diff_rights.specs.Asked.{IsLiveAsked, grants_of};
ghost use Rattle.ad_diff_rights.specs.Steps.{texts, masked_attribute, AreWanted};

use crate::asked::{Asked, mask_on};
use crate::codes::{attribute_codes, child_codes, extended_codes, object_codes, validated_codes};
use crate::labelling::{label_of, label_of_right, push_labels};
use crate::leaf_masks::attr_masks;
use ad_access_dir::{allowed_attrs, class_count};
use ad_acl::Code;
use ad_dir::{Dir, class_of};
use ad_ids::{Guid, Token};
use ad_schema::{AttrId, ClassId, ClassInfo, RightInfo, Schema};
use ad_types::Path;
use std::alloc::{AllocError, Global};

/// The rights that are asked for of an object: all of objects and of descriptors.
const OBJECT_RIGHTS: u32 = 0xf_01ff;

/// Those of an attribute: to read it, to write it, and to read it where it is confidential.
const ATTRIBUTE_RIGHTS: u32 = 0x130;

/// That of an extended right.
const EXTENDED_RIGHT: u32 = 0x100;

/// That of a validated write.
const VALIDATED_WRITE: u32 = 0x8;

/// Those of the children of a class: to create them and to delete them.
const CHILD_RIGHTS: u32 = 0x3;

// ---- the object as a whole

fn push_object(alloc: Global, into: &mut Vec<Vec<u8>>, asked: &Asked<'_>) -> Result<(), AllocError>
    requires { IsLiveAsked asked.now }
    ensures { OnOk result (texts into.new.items ≡ texts into.old.items
        ++ object_labels (grants_of asked.now)) }
{
    let mask = mask_on(asked, &Path::empty(), OBJECT_RIGHTS);
    push_labels(alloc, into, b"object ", object_codes(), mask)
}

// ---- attributes

#[tactic(auto, unfolding(crate::specs::Steps::masked_attribute))]
fn push_attribute(
    alloc: Global,
    into: &mut Vec<Vec<u8>>,
    schema: &Schema,
    attr: AttrId,
    mask: u32,
) -> Result<(), AllocError>
    requires { attr.0 < length (attrs_of schema.now) }
    ensures { OnOk result (texts into.new.items ≡ texts into.old.items
        ++ masked_attribute schema.now attr mask) }
{
    let info = schema.attr_info(attr);
    let kind = label_of(alloc, b"attribute ", info.name.as_slice())?;
    push_labels(alloc, into, kind.as_slice(), attribute_codes(), mask)
}

fn push_attributes(
    alloc: Global,
    into: &mut Vec<Vec<u8>>,
    asked: &Asked<'_>,
    class: ClassId,
    attrs: &[AttrId],
) -> Result<(), AllocError>
    requires live { IsLiveAsked asked.now }
    requires class { class.0 < length (classes_of asked.now.dir.now.schema) }
    requires allowed { attrs.now ≡ allowed_attrs asked.now.dir.now.schema class.0 }
    ensures { OnOk result (texts into.new.items ≡ texts into.old.items
        ++ flat_map (attribute_labels asked.now.dir.now.schema (grants_of asked.now) class) attrs.now) }
{
    let masks = attr_masks(alloc, asked, class, attrs, ATTRIBUTE_RIGHTS)?;
    let masks = masks.as_slice();
    let first = masks.len() - attrs.len();
    'each: for i in 0..attrs.len() {
        push_attribute(alloc, into, asked.dir.schema(), attrs[i], masks[first + i])?;
    }
    Ok(())
}

// ---- rights

fn push_kind(
    alloc: Global,
    into: &mut Vec<Vec<u8>>,
    asked: &Asked<'_>,
    right: &RightInfo,
    kind: &[u8],
    codes: &[Code],
    want: u32,
) -> Result<(), AllocError>
    requires live { IsLiveAsked asked.now }
    requires codes { AreWanted want codes.now }
    ensures { OnOk result (texts into.new.items ≡ texts into.old.items
        ++ labels (grants_of asked.now (right.now.guid ∷ []))
        (label_of kind.now (right_title right.now)) codes.now) }
{
    let mask = mask_on(asked, &Path::one(right.guid), want);
    let label = label_of_right(alloc, kind, right)?;
    push_labels(alloc, into, label.as_slice(), codes, mask)
}

// By what the right is.
#[tactic(auto, unfolding(crate::specs::Rights::kind_labels))]
fn push_right_of_kind(
    alloc: Global,
    into: &mut Vec<Vec<u8>>,
    asked: &Asked<'_>,
    right: &RightInfo,
) -> Result<(), AllocError>
    requires { IsLiveAsked asked.now }
    ensures { OnOk result (texts into.new.items ≡ texts into.old.items
        ++ kind_labels (grants_of asked.now) right.now) }
{
    if right.accesses == 256 {
        let codes = extended_codes();
        return push_kind(alloc, into, asked, right, b"right ", codes, EXTENDED_RIGHT);
    }
    if right.accesses == 8 {
        let codes = validated_codes();
        return push_kind(
            alloc,
            into,
            asked,
            right,
            b"validated ",
            codes,
            VALIDATED_WRITE,
        );
    }
    Ok(())
}

// Whether one of the GUIDs is that of the class or one above it.
fn applies(schema: &Schema, class: ClassId, guids: &[Guid]) -> bool
    ensures { result ≡ applies schema.now class.0 guids.now }
{
    for guid in guids {
        if schema.is_a(class, guid) {
            return true;
        }
    }
    false
}

#[tactic(auto, unfolding(crate::specs::Rights::right_labels))]
fn push_right(
    alloc: Global,
    into: &mut Vec<Vec<u8>>,
    asked: &Asked<'_>,
    class: ClassId,
    right: &RightInfo,
) -> Result<(), AllocError>
    requires { IsLiveAsked asked.now }
    ensures { OnOk result (texts into.new.items ≡ texts into.old.items
        ++ right_labels asked.now.dir.now.schema (grants_of asked.now) class right.now) }
{
    if !applies(asked.dir.schema(), class, right.applies.as_slice()) {
        return Ok(());
    }
    push_right_of_kind(alloc, into, asked, right)
}

fn push_rights(
    alloc: Global,
    into: &mut Vec<Vec<u8>>,
    asked: &Asked<'_>,
    class: ClassId,
    rights: &[RightInfo],
) -> Result<(), AllocError>
    requires { IsLiveAsked asked.now }
    ensures { OnOk result (texts into.new.items ≡ texts into.old.items
        ++ flat_map (right_labels asked.now.dir.now.schema (grants_of asked.now) class) rights.now) }
{
    for right in rights {
        push_right(alloc, into, asked, class, right)?;
    }
    Ok(())
}

// ---- children

fn is_child_class(schema: &Schema, class: ClassId, child: ClassId, info: &ClassInfo) -> bool
    ensures { result ≡ is_child_class schema.now class.0 child.0 info.now }
{
    info.category != 2 && info.category != 3 && schema.under(child, class)
}

fn push_child(
    alloc: Global,
    into: &mut Vec<Vec<u8>>,
    asked: &Asked<'_>,
    class: ClassId,
    child: ClassId,
) -> Result<(), AllocError>
    requires live { IsLiveAsked asked.now }
    requires child { child.0 < length (classes_of asked.now.dir.now.schema) }
    ensures { OnOk result (texts into.new.items ≡ texts into.old.items
        ++ child_labels asked.now.dir.now.schema (grants_of asked.now) class child.0) }
{
    let info = asked.dir.schema().class_info(child);
    if !is_child_class(asked.dir.schema(), class, child, info) {
        return Ok(());
    }
    let mask = mask_on(asked, &Path::one(info.guid), CHILD_RIGHTS);
    let kind = label_of(alloc, b"child ", info.name.as_slice())?;
    push_labels(alloc, into, kind.as_slice(), child_codes(), mask)
}

#[tactic(auto, unfolding(crate::specs::Rights::children_labels))]
fn push_children(
    alloc: Global,
    into: &mut Vec<Vec<u8>>,
    asked: &Asked<'_>,
    class: ClassId,
) -> Result<(), AllocError>
    requires { IsLiveAsked asked.now }
    ensures { OnOk result (texts into.new.items ≡ texts into.old.items
        ++ children_labels asked.now.dir.now.schema (grants_of asked.now) class
        (length (classes_of asked.now.dir.now.schema))) }
{
    'each: for place in 0..class_count(asked.dir) {
        push_child(alloc, into, asked, class, ClassId(place))?;
    }
    Ok(())
}

// ---- all

#[tactic(auto, unfolding(crate::specs::Rights::rights_by))]
fn push_all(
    alloc: Global,
    into: &mut Vec<Vec<u8>>,
    asked: &Asked<'_>,
    class: ClassId,
) -> Result<(), AllocError>
    requires live { IsLiveAsked asked.now }
    requires class { class.0 < length (classes_of asked.now.dir.now.schema) }
    ensures { OnOk result (texts into.new.items ≡ texts into.old.items
        ++ rights_by asked.now.dir.now.schema (grants_of asked.now) class) }
{
    let allowed = allowed_attrs(alloc, asked.dir, class)?;
    push_object(alloc, into, asked)?;
    push_attributes(alloc, into, asked, class, allowed.as_slice())?;
    push_rights(alloc, into, asked, class, asked.dir.schema().rights())?;
    push_children(alloc, into, asked, class)
}

/// The labels of the rights that are granted to a token on a live object, in the order of the definition: with the
/// object's own identifier, or as if it had none.
///
/// # Errors
///
/// Out of memory.
#[tactic(auto, unfolding(crate::specs::Own::rights_in))]
pub(crate) fn rights(
    alloc: Global,
    dir: &Dir,
    token: &Token,
    number: u32,
    own: bool,
) -> Result<Vec<Vec<u8>>, AllocError>
    requires { is_live dir.now.objects number ≡ true }
    ensures { IfOk result (λ labels. texts labels.items ≡ rights_in dir.now token.now own number) }
{
    let asked = Asked {
        dir,
        token,
        number,
        own,
    };
    let mut labels = Vec::new(alloc);
    push_all(alloc, &mut labels, &asked, class_of(dir, number))?;
    Ok(labels)
}
