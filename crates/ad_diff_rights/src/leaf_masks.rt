//! The rights that are granted at the attributes of an object, by one sweep over its descriptor: with the object's own
//! identifier, or as if it had none.

ghost use Rattle.std.specs.Prelude.{◌≡◌, ◌<◌, ◌≤◌, ◌+◌, ◌-◌, ℕ, true, All, Some, length, slice_get, slice_index, IfOk};
ghost use Rattle.ad_schema.specs.Attributes.{attrs_of};
ghost use Rattle.ad_schema.specs.Classes.{classes_of};
ghost use Rattle.ad_schema.specs.declared.info.AttrId.{AttrId as Attr};
ghost use Rattle.ad_types.specs.TypesOf.{path_of, tree_of};
ghost use Rattle.ad_access.specs.Tree.{node_granted};
ghost use Rattle.ad_dir_model.specs.Objects.{sd_at};
ghost use Rattle.ad_access_dir.specs.Masks.{IsMask};
ghost use Rattle.ad_diff_rights.specs.Own.{own_sid};
ghost use Rattle.ad_diff_rights.specs.Asked.{IsLiveAsked, grants_of};

use crate::asked::Asked;
use crate::own::own_sid;
use ad_access::{a_leaf_is_granted_where_its_path_is, check_tree};
use ad_dir::live_sd;
use ad_schema::{AttrId, ClassId};
use ad_types::{TypeTree, attributes_are_leaves};
use std::alloc::{AllocError, Global};

// The wanted rights that are granted at each node of the tree of attributes of a class.
fn tree_masks(
    alloc: Global,
    asked: &Asked<'_>,
    class: ClassId,
    attrs: &[AttrId],
    want: u32,
) -> Result<Vec<u32>, AllocError>
    requires live { IsLiveAsked asked.now }
    requires class { class.0 < length (classes_of asked.now.dir.now.schema) }
    requires attrs { All (λ attr. attr.0 < length (attrs_of asked.now.dir.now.schema)) attrs.now }
    ensures nodes { IfOk result (λ masks. length masks.items
        ≡ length (tree_of asked.now.dir.now.schema class attrs.now)) }
    ensures granted { IfOk result (λ masks. (place : ℕ) → place
        < length (tree_of asked.now.dir.now.schema class attrs.now)
        → IsMask want (node_granted (sd_at asked.now.dir.now.objects asked.now.number)
        asked.now.token.now (own_sid asked.now.dir.now asked.now.own asked.now.number)
        (tree_of asked.now.dir.now.schema class attrs.now) place)
        (slice_index masks.items place)) }
{
    let tree = TypeTree::build(alloc, asked.dir.schema(), class, attrs)?;
    check_tree(
        alloc,
        live_sd(asked.dir, asked.number),
        asked.token,
        own_sid(asked.dir, asked.own, asked.number),
        &tree,
        want,
    )
}

/// The wanted rights that are granted at the nodes of the tree of attributes. Those of the attributes are the last
/// ones, in the attributes' order.
///
/// # Errors
///
/// Out of memory.
pub(crate) fn attr_masks(
    alloc: Global,
    asked: &Asked<'_>,
    class: ClassId,
    attrs: &[AttrId],
    want: u32,
) -> Result<Vec<u32>, AllocError>
    requires live { IsLiveAsked asked.now }
    requires class { class.0 < length (classes_of asked.now.dir.now.schema) }
    requires attrs { All (λ attr. attr.0 < length (attrs_of asked.now.dir.now.schema)) attrs.now }
    ensures long { IfOk result (λ masks. length attrs.now ≤ length masks.items) }
    ensures granted { IfOk result (λ masks. (i : ℕ) (id : Attr) → slice_get attrs.now i ≡ Some id
        → IsMask want (grants_of asked.now (path_of asked.now.dir.now.schema class id))
        (slice_index masks.items ((length masks.items - length attrs.now) + i))) }
{
    attributes_are_leaves();
    a_leaf_is_granted_where_its_path_is();
    tree_masks(alloc, asked, class, attrs, want)
}
