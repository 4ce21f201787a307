//! Which rights a token is granted at an object: on a path, and at a property set.

ghost use Rattle.std.specs.Prelude.{◌≡◌, ◌<◌, true, All, length, filter, IfOk};
ghost use Rattle.ad_schema.specs.Attributes.{attrs_of};
ghost use Rattle.ad_schema.specs.Classes.{classes_of};
ghost use Rattle.ad_types.specs.Path.{guids_of};
ghost use Rattle.ad_types.specs.TypesOf.{tree_of};
ghost use Rattle.ad_access.specs.Tree.{node_granted};
ghost use Rattle.ad_dir_model.specs.Objects.{is_live, sd_at};
ghost use Rattle.ad_dir_model.specs.Identity.{self_sid};
ghost use Rattle.ad_access_dir.specs.Sight.{is_granted};
ghost use Rattle.ad_access_dir.specs.Masks.{IsMask};
ghost use Rattle.ad_dsacls.specs.Effective.{has_set, is_of_set, set_path, set_grants};

use ad_access_dir::{granted, push_if, tree_masks};
use ad_dir::Dir;
use ad_ids::{Guid, Token};
use ad_schema::{AttrId, AttrInfo, ClassId};
use ad_types::{Path, attributes_are_leaves};
use std::alloc::{AllocError, Global};

/// The rights that are asked for of a property set: to read and to write properties.
pub(crate) const SET_RIGHTS: u32 = 0x30;

// The path of a class and a property set.
fn set_path(dir: &Dir, class: ClassId, set: Guid) -> Path
    requires { class.0 < length (classes_of dir.now.schema) }
    ensures { guids_of result ≡ set_path dir.now.schema class set }
{
    Path::two(dir.schema().class_info(class).guid, set)
}

/// The wanted rights that are granted on a path.
pub(crate) fn mask_on(dir: &Dir, token: &Token, number: u32, path: &Path, want: u32) -> u32
    requires { is_live dir.now.objects number ≡ true }
    ensures { IsMask want (is_granted dir.now token.now number (guids_of path.now)) result }
{
    granted(dir, token, number, path, want)
}

// ---- attributes of a class

fn has_set(info: &AttrInfo, set: Guid) -> bool
    ensures { result ≡ has_set set info.now }
{
    match info.set {
        Some(own) => own == set,
        None => false,
    }
}

fn is_of_set(dir: &Dir, set: Guid, attr: AttrId) -> bool
    requires { attr.0 < length (attrs_of dir.now.schema) }
    ensures { result ≡ is_of_set dir.now.schema set attr }
{
    has_set(dir.schema().attr_info(attr), set)
}

/// Those of these attributes that belong to a property set.
pub(crate) fn attrs_of_set(
    alloc: Global,
    dir: &Dir,
    attrs: &[AttrId],
    set: Guid,
) -> Result<Vec<AttrId>, AllocError>
    requires { All (λ attr. attr.0 < length (attrs_of dir.now.schema)) attrs.now }
    ensures { IfOk result (λ found. found.items ≡ filter (is_of_set dir.now.schema set) attrs.now) }
{
    let mut found = Vec::new(alloc);
    for attr in attrs {
        push_if(&mut found, is_of_set(dir, set, *attr), *attr)?;
    }
    Ok(found)
}

// ---- property sets

// The rights on a property set that has attributes: those at its node, the second one.
fn node_mask(
    alloc: Global,
    dir: &Dir,
    token: &Token,
    number: u32,
    class: ClassId,
    attrs: &[AttrId],
) -> Result<u32, AllocError>
    requires live { is_live dir.now.objects number ≡ true }
    requires class { class.0 < length (classes_of dir.now.schema) }
    requires attrs { All (λ attr. attr.0 < length (attrs_of dir.now.schema)) attrs.now }
    requires some { 0 < length attrs.now }
    ensures { IfOk result (λ mask. IsMask 48
        (node_granted (sd_at dir.now.objects number) token.now (self_sid dir.now number)
        (tree_of dir.now.schema class attrs.now) 1) mask) }
{
    attributes_are_leaves();
    let masks = tree_masks(alloc, dir, token, number, class, attrs, SET_RIGHTS)?;
    Ok(masks[1])
}

/// The rights on a property set, of which an object of the class may have these attributes.
pub(crate) fn set_mask(
    alloc: Global,
    dir: &Dir,
    token: &Token,
    number: u32,
    class: ClassId,
    set: Guid,
    attrs: &[AttrId],
) -> Result<u32, AllocError>
    requires live { is_live dir.now.objects number ≡ true }
    requires class { class.0 < length (classes_of dir.now.schema) }
    requires attrs { All (λ attr. attr.0 < length (attrs_of dir.now.schema)) attrs.now }
    ensures { IfOk result (λ mask. IsMask 48
        (set_grants dir.now token.now number class set attrs.now) mask) }
{
    if attrs.is_empty() {
        let path = set_path(dir, class, set);
        return Ok(mask_on(dir, token, number, &path, SET_RIGHTS));
    }
    node_mask(alloc, dir, token, number, class, attrs)
}
