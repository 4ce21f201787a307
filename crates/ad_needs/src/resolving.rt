//! What the names in an operation represent, whose checks before its requirements pass.

ghost use Rattle.std.specs.Prelude.{◌≡◌, ◌≢◌, ◌<◌, true, length, is_some, IfOk, IfSome};
ghost use Rattle.ad_schema.specs.Classes.{classes_of};
ghost use Rattle.ad_dir_model.specs.Objects.{is_live};
ghost use Rattle.ad_dir_model.specs.Tree.{root};
ghost use Rattle.ad_needs_rules.specs.Requests.{is_name, object_named, number_named};
ghost use Rattle.ad_needs_rules.specs.Adding.{has_parts, parent_named, parent_number, new_class, class_number};
ghost use Rattle.ad_needs_rules.specs.Renaming.{new_parent};

use crate::adding::{new_class, parent_named};
use ad_dir::{Dir, parent_of};
use ad_ids::Token;
use ad_ldap::{Add, Rename};
use ad_needs_rules::{read_name, visible};
use ad_schema::ClassId;
use std::alloc::{AllocError, Global};

/// The object that a name leads to, which is visible.
///
/// # Errors
///
/// Memory ran out.
pub(crate) fn found(alloc: Global, dir: &Dir, token: &Token, text: &[u8]) -> Result<u32, AllocError>
    requires name { is_name text.now ≡ true }
    requires seen { is_some (object_named dir.now token.now text.now) ≡ true }
    ensures number { IfOk result (λ number. number ≡ number_named dir.now token.now text.now) }
    ensures live { IfOk result (λ number. is_live dir.now.objects number ≡ true) }
{
    let read = read_name(alloc, text)?;
    let dn = read.unwrap();
    let number = visible(alloc, dir, token, &dn)?;
    Ok(number.unwrap())
}

// ---- Rename

/// The new parent of an object of this number: the superior, or else the parent that it has.
///
/// # Errors
///
/// Memory ran out.
#[tactic(auto, unfolding(ad_needs_rules::specs::Renaming::new_parent))]
pub(crate) fn new_parent(
    alloc: Global,
    dir: &Dir,
    token: &Token,
    number: u32,
    rename: &Rename,
) -> Result<u32, AllocError>
    requires number { number ≡ number_named dir.now token.now rename.now.dn }
    requires live { is_live dir.now.objects number ≡ true }
    requires below { number ≢ root }
    requires superior { IfSome rename.now.superior
        (λ text. (is_name text ≡ true) × (is_some (object_named dir.now token.now text) ≡ true)) }
    ensures number { IfOk result (λ parent. parent ≡ new_parent dir.now token.now rename.now) }
    ensures live { IfOk result (λ parent. is_live dir.now.objects parent ≡ true) }
{
    match &rename.superior {
        Some(superior) => found(alloc, dir, token, superior.as_slice()),
        None => Ok(parent_of(dir, number)),
    }
}

// ---- Add

/// The object below which an Add is, which is visible.
///
/// # Errors
///
/// Memory ran out.
pub(crate) fn parent_of_new(
    alloc: Global,
    dir: &Dir,
    token: &Token,
    add: &Add,
) -> Result<u32, AllocError>
    requires name { has_parts add.now ≡ true }
    requires seen { is_some (parent_named dir.now token.now add.now) ≡ true }
    ensures number { IfOk result (λ number. number ≡ parent_number dir.now token.now add.now) }
    ensures live { IfOk result (λ number. is_live dir.now.objects number ≡ true) }
{
    let read = read_name(alloc, add.dn.as_slice())?;
    let dn = read.unwrap();
    let number = parent_named(alloc, dir, token, &dn)?;
    Ok(number.unwrap())
}

/// The class of the object, which is one of the schema.
///
/// # Errors
///
/// Memory ran out.
pub(crate) fn class_of_new(alloc: Global, dir: &Dir, add: &Add) -> Result<ClassId, AllocError>
    requires { is_some (new_class dir.now add.now) ≡ true }
    ensures class { IfOk result (λ class. class.0 ≡ class_number dir.now add.now) }
    ensures in_range { IfOk result (λ class. class.0 < length (classes_of dir.now.schema)) }
{
    let class = new_class(alloc, dir, add)?;
    Ok(class.unwrap())
}
