//! The three attributes that tell what a token may change at an object.

ghost use Rattle.std.specs.Prelude.{◌≡◌, ◌∷◌, ◌++◌, [], true, decimal, option_to_list, IfOk, OnOk};
ghost use Rattle.ad_constructed.specs.Names.{all_items};
ghost use Rattle.ad_ldap.specs.MessageValue.{search_seen};
ghost use Rattle.ad_dir_model.specs.Objects.{is_live};
ghost use Rattle.ad_constructed_dir.specs.Changing.{changing_of};
ghost use Rattle.ad_entries.specs.Given.{given_values};
ghost use Rattle.ad_entries.specs.Entry.{values_if, attributes_name, children_name, parts_name, is_sent};
ghost use Rattle.ad_entries.specs.Entry.{changing_attr, changing_attrs};
ghost use Rattle.ad_entries.specs.Asked.{AreApart};

use crate::asking::{Asking, RequestedExtras};
use crate::entry::push_if;
use ad_bytes::{Bytes, List};
use ad_constructed_dir::{attributes_written, children_created, parts_written};
use ad_schema_classes::same_name;
use itoa::Buffer;
use std::alloc::{AllocError, Global};

pub(crate) const ATTRIBUTES: &[u8] = b"allowedAttributesEffective";

pub(crate) const CHILDREN: &[u8] = b"allowedChildClassesEffective";

pub(crate) const PARTS: &[u8] = b"sDRightsEffective";

/// Whether some name that was sent is this one.
#[tactic(auto, unfolding(crate::specs::Entry::is_sent))]
pub(crate) fn is_sent(sent: &[Bytes], name: &[u8]) -> bool
    ensures { result ≡ is_sent sent.now name.now }
{
    for asked in sent {
        if same_name(name, asked.as_slice()) {
            return true;
        }
    }
    false
}

// ---- values

fn all_bytes(alloc: Global, values: Vec<Vec<u8>>) -> Result<List<Bytes>, AllocError>
    ensures { IfOk result (λ bytes. bytes ≡ all_items values.items) }
{
    let mut bytes = List::new(alloc);
    for value in values {
        bytes.push(Bytes::from_vec(value))?;
    }
    Ok(bytes)
}

// The values, or none where they are left out.
fn values_if(
    alloc: Global,
    types_only: bool,
    values: Vec<Vec<u8>>,
) -> Result<List<Bytes>, AllocError>
    ensures { IfOk result (λ bytes. bytes ≡ values_if types_only (all_items values.items)) }
{
    if types_only {
        return Ok(List::new(alloc));
    }
    all_bytes(alloc, values)
}

// An attribute that is asked for, where it has values.
fn given_values(
    alloc: Global,
    types_only: bool,
    name: &[u8],
    values: Vec<Vec<u8>>,
) -> Result<Option<(Bytes, List<Bytes>)>, AllocError>
    ensures { IfOk result (λ given. given ≡ given_values types_only name.now
        (all_items values.items)) }
{
    if values.is_empty() {
        return Ok(None);
    }
    let name = Bytes::from_slice(alloc, name)?;
    let values = values_if(alloc, types_only, values)?;
    Ok(Some((name, values)))
}

// A number in decimal, as the one value.
fn number_value(alloc: Global, number: u8) -> Result<Vec<Vec<u8>>, AllocError>
    ensures { IfOk result (λ values. all_items values.items ≡ decimal number ∷ []) }
{
    let mut values = Vec::new(alloc);
    let text = Vec::from_slice(alloc, Buffer::new().format(number).as_bytes())?;
    values.push(text)?;
    Ok(values)
}

// ---- the three

fn attributes_given(
    alloc: Global,
    asking: &Asking<'_>,
    number: u32,
    asked: bool,
) -> Result<Option<(Bytes, List<Bytes>)>, AllocError>
    requires live { is_live asking.now.dir.now.objects number ≡ true }
    requires asked { asked ≡ is_sent (search_seen asking.now.search.now).attrs attributes_name }
    ensures { IfOk result (λ given. option_to_list given
        ≡ changing_attr (search_seen asking.now.search.now) attributes_name
        (changing_of asking.now.dir.now asking.now.token.now number).attributes) }
{
    if !asked {
        return Ok(None);
    }
    let names = attributes_written(alloc, asking.dir, asking.token, number)?;
    given_values(alloc, asking.search.types_only, ATTRIBUTES, names)
}

fn children_given(
    alloc: Global,
    asking: &Asking<'_>,
    number: u32,
    asked: bool,
) -> Result<Option<(Bytes, List<Bytes>)>, AllocError>
    requires live { is_live asking.now.dir.now.objects number ≡ true }
    requires asked { asked ≡ is_sent (search_seen asking.now.search.now).attrs children_name }
    ensures { IfOk result (λ given. option_to_list given
        ≡ changing_attr (search_seen asking.now.search.now) children_name
        (changing_of asking.now.dir.now asking.now.token.now number).children) }
{
    if !asked {
        return Ok(None);
    }
    let names = children_created(alloc, asking.dir, asking.token, number)?;
    given_values(alloc, asking.search.types_only, CHILDREN, names)
}

#[tactic(auto, unfolding(ad_constructed_dir::specs::Changing::changing_of))]
fn parts_given(
    alloc: Global,
    asking: &Asking<'_>,
    number: u32,
    asked: bool,
) -> Result<Option<(Bytes, List<Bytes>)>, AllocError>
    requires live { is_live asking.now.dir.now.objects number ≡ true }
    requires asked { asked ≡ is_sent (search_seen asking.now.search.now).attrs parts_name }
    ensures { IfOk result (λ given. option_to_list given ≡ changing_attr (search_seen asking.now.search.now)
        parts_name (changing_of asking.now.dir.now asking.now.token.now number).parts) }
{
    if !asked {
        return Ok(None);
    }
    let values = number_value(alloc, parts_written(asking.dir, asking.token, number))?;
    given_values(alloc, asking.search.types_only, PARTS, values)
}

/// What an entry has of the three. Each is judged only where it is asked for.
#[tactic(auto, unfolding(crate::specs::Entry::changing_attrs))]
pub(crate) fn changing_attrs(
    alloc: Global,
    asking: &Asking<'_>,
    number: u32,
    apart: RequestedExtras,
) -> Result<List<(Bytes, List<Bytes>)>, AllocError>
    requires live { is_live asking.now.dir.now.objects number ≡ true }
    requires apart { AreApart (search_seen asking.now.search.now).attrs apart }
    ensures { IfOk result (λ attrs. attrs ≡ changing_attrs (search_seen asking.now.search.now)
        (changing_of asking.now.dir.now asking.now.token.now number)) }
{
    let mut attrs = List::new(alloc);
    let attributes = attributes_given(alloc, asking, number, apart.attributes)?;
    push_if(&mut attrs, attributes)?;
    let children = children_given(alloc, asking, number, apart.children)?;
    push_if(&mut attrs, children)?;
    let parts = parts_given(alloc, asking, number, apart.parts)?;
    push_if(&mut attrs, parts)?;
    Ok(attrs)
}

// ---- copies

fn copy_values(alloc: Global, values: &[Bytes]) -> Result<List<Bytes>, AllocError>
    ensures { IfOk result (λ copy. copy ≡ values.now) }
{
    let mut copy = List::new(alloc);
    for value in values {
        copy.push(value.copy(alloc)?)?;
    }
    Ok(copy)
}

fn copy_attr(alloc: Global, attr: &(Bytes, List<Bytes>)) -> Result<(Bytes, List<Bytes>), AllocError>
    ensures { IfOk result (λ copy. copy ≡ attr.now) }
{
    let name = attr.0.copy(alloc)?;
    let values = copy_values(alloc, attr.1.as_slice())?;
    Ok((name, values))
}

/// Puts copies of attributes after others.
pub(crate) fn push_copies(
    alloc: Global,
    attrs: &mut List<(Bytes, List<Bytes>)>,
    others: &[(Bytes, List<Bytes>)],
) -> Result<(), AllocError>
    ensures { OnOk result (attrs.new ≡ attrs.old ++ others.now) }
{
    for other in others {
        attrs.push(copy_attr(alloc, other)?)?;
    }
    Ok(())
}
