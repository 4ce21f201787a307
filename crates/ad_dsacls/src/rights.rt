//! What a token may do at an object, line by line.

ghost use Rattle.std.specs.Prelude.{◌≡◌, ◌<◌, true, length, OnOk, IfOk};
ghost use Rattle.std.specs.List.{flat_map, list_any};
ghost use Rattle.ad_schema.specs.Attributes.{attrs_of, rights_of};
ghost use Rattle.ad_schema.specs.Classes.{classes_of, is_a};
ghost use Rattle.ad_dir_model.specs.Objects.{is_live};
ghost use Rattle.ad_access_dir.specs.Allowed.{allowed_attrs, applies, is_child_class};
ghost use Rattle.ad_bytes.specs.Puts.{Puts};
ghost use Rattle.ad_dsacls.specs.Effective.{object_line, attribute_line, set_line, extended_line, validated_line};
ghost use Rattle.ad_dsacls.specs.Effective.{kind_line, right_line, child_line, child_lines};
ghost use Rattle.ad_dsacls.specs.Effective.{effective_of, effective_text};
ghost use Rattle.ad_dsacls.specs.Masks.{masked_line};

use crate::asking::{attrs_of_set, mask_on, set_mask};
use crate::lines::{put_mask, put_named, put_right};
use ad_access_dir::{allowed_attrs, attr_masks, class_count};
use ad_dir::{Dir, class_of};
use ad_ids::{Guid, Token};
use ad_schema::{AttrId, ClassId, ClassInfo, RightInfo, Schema};
use ad_types::Path;
use std::alloc::{AllocError, Global};

/// The rights that are asked for of an object: all of objects and of descriptors.
const OBJECT_RIGHTS: u32 = 0xf_01ff;

/// Those of an attribute: to read it, to write it, and to read it where it is confidential.
const ATTRIBUTE_RIGHTS: u32 = 0x130;

/// That of an extended right.
const EXTENDED_RIGHT: u32 = 0x100;

/// That of a validated write.
const VALIDATED_WRITE: u32 = 0x8;

/// Those of the children of a class: to create them and to delete them.
const CHILD_RIGHTS: u32 = 0x3;

fn put_object_line(
    alloc: Global,
    out: &mut Vec<u8>,
    dir: &Dir,
    token: &Token,
    number: u32,
) -> Result<(), AllocError>
    requires { is_live dir.now.objects number ≡ true }
    ensures { OnOk result (Puts out.old.items out.new.items
        (object_line dir.now token.now number)) }
{
    let mask = mask_on(dir, token, number, &Path::empty(), OBJECT_RIGHTS);
    put_mask(alloc, out, b"object ", mask)
}

// ---- attributes

#[tactic(auto, unfolding(crate::specs::Masks::masked_line))]
fn put_attr_line(
    alloc: Global,
    out: &mut Vec<u8>,
    schema: &Schema,
    attr: AttrId,
    mask: u32,
) -> Result<(), AllocError>
    requires { attr.0 < length (attrs_of schema.now) }
    ensures { OnOk result (Puts out.old.items out.new.items (masked_line schema.now attr mask)) }
{
    let info = schema.attr_info(attr);
    put_named(alloc, out, b"attribute ", info.name.as_slice(), mask)
}

fn put_attr_lines(
    alloc: Global,
    out: &mut Vec<u8>,
    dir: &Dir,
    token: &Token,
    number: u32,
    class: ClassId,
    attrs: &[AttrId],
) -> Result<(), AllocError>
    requires live { is_live dir.now.objects number ≡ true }
    requires class { class.0 < length (classes_of dir.now.schema) }
    requires allowed { attrs.now ≡ allowed_attrs dir.now.schema class.0 }
    ensures { OnOk result (Puts out.old.items out.new.items
        (flat_map (attribute_line dir.now token.now number class) attrs.now)) }
{
    let masks = attr_masks(alloc, dir, token, number, class, attrs, ATTRIBUTE_RIGHTS)?;
    let masks = masks.as_slice();
    let first = masks.len() - attrs.len();
    'each: for i in 0..attrs.len() {
        put_attr_line(alloc, out, dir.schema(), attrs[i], masks[first + i])?;
    }
    Ok(())
}

// ---- rights

fn put_set_line(
    alloc: Global,
    out: &mut Vec<u8>,
    dir: &Dir,
    token: &Token,
    number: u32,
    class: ClassId,
    attrs: &[AttrId],
    right: &RightInfo,
) -> Result<(), AllocError>
    requires live { is_live dir.now.objects number ≡ true }
    requires class { class.0 < length (classes_of dir.now.schema) }
    requires allowed { attrs.now ≡ allowed_attrs dir.now.schema class.0 }
    ensures { OnOk result (Puts out.old.items out.new.items
        (set_line dir.now token.now number class right.now)) }
{
    let own = attrs_of_set(alloc, dir, attrs, right.guid)?;
    let mask = set_mask(alloc, dir, token, number, class, right.guid, own.as_slice())?;
    put_right(alloc, out, b"set ", right, mask)
}

fn put_extended_line(
    alloc: Global,
    out: &mut Vec<u8>,
    dir: &Dir,
    token: &Token,
    number: u32,
    right: &RightInfo,
) -> Result<(), AllocError>
    requires { is_live dir.now.objects number ≡ true }
    ensures { OnOk result (Puts out.old.items out.new.items
        (extended_line dir.now token.now number right.now)) }
{
    let mask = mask_on(dir, token, number, &Path::one(right.guid), EXTENDED_RIGHT);
    put_right(alloc, out, b"right ", right, mask)
}

fn put_validated_line(
    alloc: Global,
    out: &mut Vec<u8>,
    dir: &Dir,
    token: &Token,
    number: u32,
    right: &RightInfo,
) -> Result<(), AllocError>
    requires { is_live dir.now.objects number ≡ true }
    ensures { OnOk result (Puts out.old.items out.new.items
        (validated_line dir.now token.now number right.now)) }
{
    let mask = mask_on(dir, token, number, &Path::one(right.guid), VALIDATED_WRITE);
    put_right(alloc, out, b"validated ", right, mask)
}

// By what the right is.
#[tactic(auto, unfolding(crate::specs::Effective::kind_line))]
fn put_kind_line(
    alloc: Global,
    out: &mut Vec<u8>,
    dir: &Dir,
    token: &Token,
    number: u32,
    class: ClassId,
    attrs: &[AttrId],
    right: &RightInfo,
) -> Result<(), AllocError>
    requires live { is_live dir.now.objects number ≡ true }
    requires class { class.0 < length (classes_of dir.now.schema) }
    requires allowed { attrs.now ≡ allowed_attrs dir.now.schema class.0 }
    ensures { OnOk result (Puts out.old.items out.new.items
        (kind_line dir.now token.now number class right.now)) }
{
    if right.accesses == 48 {
        return put_set_line(alloc, out, dir, token, number, class, attrs, right);
    }
    if right.accesses == 256 {
        return put_extended_line(alloc, out, dir, token, number, right);
    }
    if right.accesses == 8 {
        return put_validated_line(alloc, out, dir, token, number, right);
    }
    Ok(())
}

// Whether one of the GUIDs is that of the class or one above it.
fn applies(schema: &Schema, class: ClassId, guids: &[Guid]) -> bool
    ensures { result ≡ applies schema.now class.0 guids.now }
{
    for guid in guids {
        if schema.is_a(class, guid) {
            return true;
        }
    }
    false
}

#[tactic(auto, unfolding(crate::specs::Effective::right_line))]
fn put_right_line(
    alloc: Global,
    out: &mut Vec<u8>,
    dir: &Dir,
    token: &Token,
    number: u32,
    class: ClassId,
    attrs: &[AttrId],
    right: &RightInfo,
) -> Result<(), AllocError>
    requires live { is_live dir.now.objects number ≡ true }
    requires class { class.0 < length (classes_of dir.now.schema) }
    requires allowed { attrs.now ≡ allowed_attrs dir.now.schema class.0 }
    ensures { OnOk result (Puts out.old.items out.new.items
        (right_line dir.now token.now number class right.now)) }
{
    if !applies(dir.schema(), class, right.applies.as_slice()) {
        return Ok(());
    }
    put_kind_line(alloc, out, dir, token, number, class, attrs, right)
}

fn put_right_lines(
    alloc: Global,
    out: &mut Vec<u8>,
    dir: &Dir,
    token: &Token,
    number: u32,
    class: ClassId,
    attrs: &[AttrId],
    rights: &[RightInfo],
) -> Result<(), AllocError>
    requires live { is_live dir.now.objects number ≡ true }
    requires class { class.0 < length (classes_of dir.now.schema) }
    requires allowed { attrs.now ≡ allowed_attrs dir.now.schema class.0 }
    ensures { OnOk result (Puts out.old.items out.new.items
        (flat_map (right_line dir.now token.now number class) rights.now)) }
{
    for right in rights {
        put_right_line(alloc, out, dir, token, number, class, attrs, right)?;
    }
    Ok(())
}

// ---- children

fn is_child_class(schema: &Schema, class: ClassId, child: ClassId, info: &ClassInfo) -> bool
    ensures { result ≡ is_child_class schema.now class.0 child.0 info.now }
{
    info.category != 2 && info.category != 3 && schema.under(child, class)
}

fn put_child_line(
    alloc: Global,
    out: &mut Vec<u8>,
    dir: &Dir,
    token: &Token,
    number: u32,
    class: ClassId,
    child: ClassId,
) -> Result<(), AllocError>
    requires live { is_live dir.now.objects number ≡ true }
    requires child { child.0 < length (classes_of dir.now.schema) }
    ensures { OnOk result (Puts out.old.items out.new.items
        (child_line dir.now token.now number class child.0)) }
{
    let info = dir.schema().class_info(child);
    if !is_child_class(dir.schema(), class, child, info) {
        return Ok(());
    }
    let mask = mask_on(dir, token, number, &Path::one(info.guid), CHILD_RIGHTS);
    put_named(alloc, out, b"child ", info.name.as_slice(), mask)
}

#[tactic(auto, unfolding(crate::specs::Effective::child_lines))]
fn put_child_lines(
    alloc: Global,
    out: &mut Vec<u8>,
    dir: &Dir,
    token: &Token,
    number: u32,
    class: ClassId,
) -> Result<(), AllocError>
    requires { is_live dir.now.objects number ≡ true }
    ensures { OnOk result (Puts out.old.items out.new.items
        (child_lines dir.now token.now number class (length (classes_of dir.now.schema)))) }
{
    'each: for place in 0..class_count(dir) {
        put_child_line(alloc, out, dir, token, number, class, ClassId(place))?;
    }
    Ok(())
}

// ---- all

#[tactic(auto, unfolding(crate::specs::Effective::effective_of))]
fn put_all(
    alloc: Global,
    out: &mut Vec<u8>,
    dir: &Dir,
    token: &Token,
    number: u32,
    class: ClassId,
) -> Result<(), AllocError>
    requires live { is_live dir.now.objects number ≡ true }
    requires class { class.0 < length (classes_of dir.now.schema) }
    ensures { OnOk result (Puts out.old.items out.new.items
        (effective_of dir.now token.now number class)) }
{
    let allowed = allowed_attrs(alloc, dir, class)?;
    let attrs = allowed.as_slice();
    put_object_line(alloc, out, dir, token, number)?;
    put_attr_lines(alloc, out, dir, token, number, class, attrs)?;
    put_right_lines(
        alloc,
        out,
        dir,
        token,
        number,
        class,
        attrs,
        dir.schema().rights(),
    )?;
    put_child_lines(alloc, out, dir, token, number, class)
}

/// What a token may do at a live object, in lines that end with LF. A code stands in a line exactly where its right
/// is granted, spelled and ordered as in the canonical text of a descriptor, and a line stands only where one of
/// its codes does. The lines, in this order:
///
/// - `object` with the rights on the object as a whole, all but that to its SACL;
/// - for each attribute that the class allows, in schema order, `attribute`, its name, and RP, WP and CR;
/// - for each right that applies to the class or one above, in schema order, `set`, its name, and RP and WP where
///   it is a property set, which are those at its node in the tree of its allowed attributes; `right`, its name,
///   and CR where it is an extended right; or `validated`, its name, and SW where it is a validated write;
/// - for each structural class whose objects may stand below this one, in schema order, `child`, its name, and CC
///   and DC.
///
/// # Errors
///
/// Out of memory.
pub fn effective(
    alloc: Global,
    dir: &Dir,
    token: &Token,
    number: u32,
) -> Result<Vec<u8>, AllocError>
    requires { is_live dir.now.objects number ≡ true }
    ensures { IfOk result (λ text. text.items ≡ effective_text dir.now token.now number) }
{
    let mut out = Vec::new(alloc);
    put_all(alloc, &mut out, dir, token, number, class_of(dir, number))?;
    Ok(out)
}
