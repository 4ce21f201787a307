//! Modify: what its items name, found once for the checks, for what is needed and for what is asked for.

ghost use Rattle.std.specs.Prelude.{◌≡◌, ◌<◌, length, map, slice_index_or, None, IfOk};
ghost use Rattle.ad_needs.specs.Decoding.{AreDecoded, attr_of};

use crate::modify_needs::written_sd;
use ad_ldap::Item;
use ad_schema::{AttrId, Schema};
use ad_sd::SdParts;
use std::alloc::{AllocError, Global};

/// The items of a Modify, with what they name.
#[derive(Drop)]
pub(crate) struct Decoded<'a> {
    pub items: &'a [Item],
    /// Of each item the attribute of its name, where the schema has it.
    pub attrs: Vec<Option<AttrId>>,
    /// Which parts of a descriptor are asked for: by 1 the owner, by 2 the group, by 4 the DACL, by 8 the SACL.
    pub flags: u8,
    /// Those parts of the descriptor, in the first item of it.
    pub sd: Option<SdParts>,
}

// Of each item the attribute of its name.
fn attrs_of(
    alloc: Global,
    schema: &Schema,
    items: &[Item],
) -> Result<Vec<Option<AttrId>>, AllocError>
    ensures { IfOk result (λ attrs. attrs.items ≡ map (attr_of schema.now) items.now) }
{
    let mut attrs = Vec::new(alloc);
    'each: for item in items {
        let attr = schema.attr(item.attr.as_slice());
        attrs.push(attr)?;
    }
    Ok(attrs)
}

/// The items with what they name.
///
/// # Errors
///
/// Memory ran out.
pub(crate) fn decode<'a>(
    alloc: Global,
    schema: &Schema,
    items: &'a [Item],
    flags: u8,
) -> Result<Decoded<'a>, AllocError>
    ensures items { IfOk result (λ decoded. decoded.items.now ≡ items.entry.now) }
    ensures flags { IfOk result (λ decoded. decoded.flags ≡ flags) }
    ensures decoded { IfOk result (λ decoded. AreDecoded schema.now items.entry.now flags decoded.attrs.items decoded.sd) }
{
    let attrs = attrs_of(alloc, schema, items)?;
    let sd = written_sd(alloc, items, flags)?;
    Ok(Decoded {
        items,
        attrs,
        flags,
        sd,
    })
}

/// The attribute of the item at a place.
pub(crate) fn attr_at(decoded: &Decoded<'_>, place: usize) -> Option<AttrId>
    requires { place < length decoded.now.attrs.items }
    ensures { result ≡ slice_index_or decoded.now.attrs.items place None }
{
    decoded.attrs[place]
}
