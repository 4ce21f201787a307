//! What one may change at an object.

ghost use Rattle.std.specs.Prelude.{◌≡◌, ◌<◌, ◌++◌, length, IfOk, OnOk};
ghost use Rattle.ad_schema.specs.Attributes.{attrs_of};
ghost use Rattle.ad_schema.specs.Classes.{classes_of};
ghost use Rattle.ad_constructed.specs.Rights.{parts_of};
ghost use Rattle.ad_constructed.specs.Listed.{attribute_at, attributes, child_at, children};
ghost use Rattle.ad_constructed.specs.Names.{all_items};

use crate::names::{is_child_listed, is_listed, push_if};
use crate::rights::Rights;
use ad_schema::{AttrId, ClassId, Schema, attr_count, class_count};
use std::alloc::{AllocError, Global};

fn push_attribute<R: Rights>(
    alloc: Global,
    names: &mut Vec<Vec<u8>>,
    schema: &Schema,
    class: ClassId,
    rights: &R,
    attr: AttrId,
) -> Result<(), AllocError>
    requires class { class.0 < length (classes_of schema.now) }
    requires attr { attr.0 < length (attrs_of schema.now) }
    ensures { OnOk result (all_items names.new.items ≡ all_items names.old.items
        ++ attribute_at schema.now class.0 (R.view rights.now) attr.0) }
{
    let info = schema.attr_info(attr);
    let listed = is_listed(schema, class, rights, attr, info);
    push_if(alloc, names, listed, info.name.as_slice())
}

fn push_child<R: Rights>(
    alloc: Global,
    names: &mut Vec<Vec<u8>>,
    schema: &Schema,
    class: ClassId,
    rights: &R,
    child: ClassId,
) -> Result<(), AllocError>
    requires { child.0 < length (classes_of schema.now) }
    ensures { OnOk result (all_items names.new.items ≡ all_items names.old.items
        ++ child_at schema.now class.0 (R.view rights.now) child.0) }
{
    let info = schema.class_info(child);
    let listed = is_child_listed(schema, class, rights, child);
    push_if(alloc, names, listed, info.name.as_slice())
}

/// The names of the attributes that one may write at an object of this class, in schema order, as the schema spells
/// them: those that its objects may have, whose values can be replaced by one value, and that one has the right to
/// write. objectClass, distinguishedName, name, nTSecurityDescriptor, the class's naming attribute, objectSid and
/// back links are never among them. Each attribute is asked for by itself, once at most. The class is of this
/// schema.
///
/// # Errors
///
/// Out of memory.
#[tactic(auto, unfolding(crate::specs::Listed::attributes_below))]
pub fn attributes<R: Rights>(
    alloc: Global,
    schema: &Schema,
    class: ClassId,
    rights: &R,
) -> Result<Vec<Vec<u8>>, AllocError>
    requires { class.0 < length (classes_of schema.now) }
    ensures { IfOk result (λ names. all_items names.items ≡ attributes schema.now class.0
        (R.view rights.now)) }
{
    let mut names = Vec::new(alloc);
    'each: for place in 0..attr_count(schema) {
        push_attribute(alloc, &mut names, schema, class, rights, AttrId(place))?;
    }
    Ok(names)
}

/// The names of the classes of which one may create children below an object of this class, in schema order, as the
/// schema spells them: those that are neither abstract nor auxiliary and don't describe a schema (attributeSchema,
/// classSchema, controlAccessRight), whose objects may stand below one of this class, and that one has the right to
/// create. Each class is asked for once at most.
///
/// # Errors
///
/// Out of memory.
#[tactic(auto, unfolding(crate::specs::Listed::children_below))]
pub fn children<R: Rights>(
    alloc: Global,
    schema: &Schema,
    class: ClassId,
    rights: &R,
) -> Result<Vec<Vec<u8>>, AllocError>
    ensures { IfOk result (λ names. all_items names.items ≡ children schema.now class.0
        (R.view rights.now)) }
{
    let mut names = Vec::new(alloc);
    'each: for place in 0..class_count(schema) {
        push_child(alloc, &mut names, schema, class, rights, ClassId(place))?;
    }
    Ok(names)
}

/// The parts of the descriptor that one may write, as the sum of 3 for the owner and the group, 4 for the DACL and 8
/// for the SACL. It takes no memory.
pub fn parts<R: Rights>(rights: &R) -> u8
    ensures { result ≡ parts_of (R.view rights.now) }
{
    rights.sd_parts()
}
