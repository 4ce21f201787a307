//! What a compare tried.

ghost use Rattle.std.specs.Prelude.{◌≡◌, ◌<◌, true, length, IfOk, IfSome};
ghost use Rattle.ad_schema.specs.Attributes.{attrs_of};
ghost use Rattle.ad_dir_model.specs.Objects.{is_live};
ghost use Rattle.ad_types.specs.Tried.{tried_value, tried_values};
ghost use Rattle.ad_search.specs.Compared.{number_compared, may_read, compared_on, compared_of};

use ad_acl::READ_PROPERTY;
use ad_dir::{Dir, class_of};
use ad_entries::is_readable;
use ad_ids::Token;
use ad_ldap::Compare;
use ad_needs_rules::{is_descriptor, read_name, visible};
use ad_schema::AttrId;
use ad_types::{Tried, path};
use std::alloc::{AllocError, Global};

// The object that is visible and has the name.
#[tactic(auto, unfolding(crate::specs::Compared::number_compared))]
fn number_compared(
    alloc: Global,
    dir: &Dir,
    token: &Token,
    request: &Compare,
) -> Result<Option<u32>, AllocError>
    ensures found { IfOk result (λ found. found ≡ number_compared dir.now token.now request.now) }
    ensures live { IfOk result (λ found.
        IfSome found (λ number. is_live dir.now.objects number ≡ true)) }
{
    match read_name(alloc, request.dn.as_slice())? {
        Some(dn) => visible(alloc, dir, token, &dn),
        None => Ok(None),
    }
}

// Whether an attribute of the schema may be read.
fn may_read(dir: &Dir, token: &Token, number: u32, attr: AttrId) -> bool
    requires live { is_live dir.now.objects number ≡ true }
    requires attr { attr.0 < length (attrs_of dir.now.schema) }
    ensures { result ≡ may_read dir.now token.now number attr }
{
    is_readable(dir, token, number, attr, dir.schema().attr_info(attr))
}

// The right to read it.
fn compared_on(dir: &Dir, token: &Token, number: u32, attr: AttrId) -> Tried
    requires live { is_live dir.now.objects number ≡ true }
    requires attr { attr.0 < length (attrs_of dir.now.schema) }
    ensures { tried_value result ≡ compared_on dir.now token.now number attr }
{
    Tried {
        object: number,
        right: READ_PROPERTY,
        path: path(dir.schema(), class_of(dir, number), attr),
        success: may_read(dir, token, number, attr),
    }
}

/// What a compare tried: the right to read its attribute, which is a success where the attribute may be read. It is
/// nothing where the name can't be read, where no object of the name is visible, or where the attribute is unknown or
/// nTSecurityDescriptor.
///
/// # Errors
///
/// Out of memory.
#[tactic(auto, unfolding(crate::specs::Compared::compared_of))]
pub fn compared(
    alloc: Global,
    dir: &Dir,
    token: &Token,
    request: &Compare,
) -> Result<Vec<Tried>, AllocError>
    ensures { IfOk result (λ tried. tried_values tried.items ≡ compared_of dir.now token.now
        request.now) }
{
    let mut tried = Vec::new(alloc);
    if is_descriptor(request.attr.as_slice()) {
        return Ok(tried);
    }
    let Some(number) = number_compared(alloc, dir, token, request)? else {
        return Ok(tried);
    };
    if let Some(attr) = dir.schema().attr(request.attr.as_slice()) {
        tried.push(compared_on(dir, token, number, attr))?;
    }
    Ok(tried)
}
