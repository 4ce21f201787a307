//! The attributes that objects of a class may have.

ghost use Rattle.std.specs.Prelude.{◌≡◌, ◌<◌, ◌++◌, ◌∷◌, [], length, if◌then◌else◌, IfOk, OnOk};
ghost use Rattle.ad_schema.specs.Attributes.{attrs_of};
ghost use Rattle.ad_schema.specs.Classes.{classes_of};
ghost use Rattle.ad_access_dir.specs.Allowed.{allowed_below, allowed_attrs};

use ad_dir::Dir;
use ad_schema::{AttrId, ClassId};
use std::alloc::{AllocError, Global};

/// The number of the schema's attributes.
pub fn attr_count(dir: &Dir) -> u32
    ensures { result ≡ length (attrs_of dir.now.schema) }
{
    ad_schema::attr_count(dir.schema())
}

/// The number of the schema's classes.
pub fn class_count(dir: &Dir) -> u32
    ensures { result ≡ length (classes_of dir.now.schema) }
{
    ad_schema::class_count(dir.schema())
}

/// Puts the attribute after the others where it is wanted.
///
/// # Errors
///
/// Out of memory.
pub fn push_if(attrs: &mut Vec<AttrId>, wanted: bool, attr: AttrId) -> Result<(), AllocError>
    ensures { OnOk result (attrs.new.items ≡ attrs.old.items
        ++ (if wanted then attr ∷ [] else [])) }
{
    if wanted {
        attrs.push(attr)?;
    }
    Ok(())
}

/// The attributes that objects of a class may have, in schema order.
///
/// # Errors
///
/// Out of memory.
#[tactic(auto, unfolding(crate::specs::Allowed::allowed_below))]
pub fn allowed_attrs(alloc: Global, dir: &Dir, class: ClassId) -> Result<Vec<AttrId>, AllocError>
    requires { class.0 < length (classes_of dir.now.schema) }
    ensures { IfOk result (λ attrs. attrs.items ≡ allowed_attrs dir.now.schema class.0) }
{
    let mut attrs = Vec::new(alloc);
    'each: for place in 0..attr_count(dir) {
        let attr = AttrId(place);
        push_if(&mut attrs, dir.schema().allowed(class, attr), attr)?;
    }
    Ok(attrs)
}
