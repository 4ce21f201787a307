//! An entry of a search.

ghost use Rattle.std.specs.Prelude.{◌≡◌, ◌++◌, [], ◌∷◌, true, map, option_to_list, IfOk, OnOk};
ghost use Rattle.ad_schema.specs.Attributes.{attrs_of};
ghost use Rattle.ad_ldap.specs.MessageValue.{search_seen};
ghost use Rattle.ad_dir_model.specs.Objects.{is_live};
ghost use Rattle.ad_dir_model.specs.Names.{rdns_of};
ghost use Rattle.ad_entries.specs.Seen.{reads_from, seen_of};
ghost use Rattle.ad_constructed_dir.specs.Changing.{changing_of};
ghost use Rattle.ad_entries.specs.Entry.{values_if, attrs_given, changing_attrs, descriptor_attr};
ghost use Rattle.ad_entries.specs.Entry.{is_descriptor_asked, entry_of};
ghost use Rattle.ad_entries.specs.Given.{descriptor_seen, given_if, made_seen};
ghost use Rattle.ad_entries.specs.Places.{shown_at, shown_at_each, HasPlaces};

use crate::asking::Asking;
use crate::changing::push_copies;
use crate::descriptor::{self, Descriptor, descriptor_given, is_left_out};
use ad_bytes::{Bytes, List};
use ad_dir::Dir;
use ad_dn::Dn;
use ad_ldap::{Reply, Search, write_reply};
use ad_schema::{AttrId, AttrInfo};
use ad_value::Value;
use std::alloc::{AllocError, Global};

/// An entry's message, and whether its descriptor is left out.
#[derive(Drop)]
pub struct Made {
    pub message: Vec<u8>,
    pub is_short: bool,
}

// ---- values

fn all_shown(alloc: Global, values: Vec<Value>) -> Result<List<Bytes>, AllocError>
    ensures { IfOk result (λ bytes. bytes ≡ map (λ value. value.shown) values.items) }
{
    let mut bytes = List::new(alloc);
    for value in values {
        bytes.push(value.into_shown())?;
    }
    Ok(bytes)
}

// The values, or none where they are left out.
fn values_if(alloc: Global, types_only: bool, values: Vec<Value>) -> Result<List<Bytes>, AllocError>
    ensures { IfOk result (λ bytes. bytes
        ≡ values_if types_only (map (λ value. value.shown) values.items)) }
{
    if types_only {
        return Ok(List::new(alloc));
    }
    all_shown(alloc, values)
}

// ---- attributes

// What an entry has of an attribute that is asked for and may be read.
fn with_values(
    alloc: Global,
    types_only: bool,
    info: &AttrInfo,
    values: Vec<Value>,
) -> Result<Option<(Bytes, List<Bytes>)>, AllocError>
    ensures { IfOk result (λ given. given ≡ given_if types_only info.now.name values.items) }
{
    if values.is_empty() {
        return Ok(None);
    }
    let name = info.name.copy(alloc)?;
    let values = values_if(alloc, types_only, values)?;
    Ok(Some((name, values)))
}

// What an entry has of the attribute at a place.
#[tactic(auto, unfolding(crate::specs::Places::shown_at))]
fn attr_shown(
    alloc: Global,
    dir: &Dir,
    number: u32,
    types_only: bool,
    place: u32,
) -> Result<Option<(Bytes, List<Bytes>)>, AllocError>
    requires { is_live dir.now.objects number ≡ true }
    ensures { IfOk result (λ given. given ≡ shown_at dir.now number types_only place) }
{
    match dir.schema().attrs().get(place as usize) {
        Some(info) => {
            let values = dir.shown(alloc, number, AttrId(place))?;
            with_values(alloc, types_only, info, values)
        }
        None => Ok(None),
    }
}

/// Puts an attribute after others, if there is one.
pub(crate) fn push_if(
    attrs: &mut List<(Bytes, List<Bytes>)>,
    given: Option<(Bytes, List<Bytes>)>,
) -> Result<(), AllocError>
    ensures { OnOk result (attrs.new ≡ attrs.old ++ option_to_list given) }
{
    match given {
        Some(given) => attrs.push(given),
        None => Ok(()),
    }
}

// What an entry has of the attributes at these places.
fn attrs_shown(
    alloc: Global,
    dir: &Dir,
    number: u32,
    types_only: bool,
    places: &[u32],
) -> Result<List<(Bytes, List<Bytes>)>, AllocError>
    requires { is_live dir.now.objects number ≡ true }
    ensures { IfOk result (λ attrs. attrs ≡ shown_at_each dir.now number types_only places.now) }
{
    let mut attrs = List::new(alloc);
    'each: for place in places {
        let given = attr_shown(alloc, dir, number, types_only, *place)?;
        push_if(&mut attrs, given)?;
    }
    Ok(attrs)
}

// The attributes of an entry, where the places are those that it has.
fn attrs_given(
    alloc: Global,
    asking: &Asking<'_>,
    number: u32,
    places: &[u32],
) -> Result<List<(Bytes, List<Bytes>)>, AllocError>
    requires live { is_live asking.now.dir.now.objects number ≡ true }
    requires places { HasPlaces asking.now.dir.now asking.now.token.now number
        (search_seen asking.now.search.now) places.now }
    ensures { IfOk result (λ attrs. attrs
        ≡ attrs_given (search_seen asking.now.search.now) (attrs_of asking.now.dir.now.schema)
        (reads_from asking.now.dir.now asking.now.token.now number 0
        (attrs_of asking.now.dir.now.schema))) }
{
    attrs_shown(alloc, asking.dir, number, asking.search.types_only, places)
}

// ---- the descriptor

fn one_if(alloc: Global, types_only: bool, bytes: Vec<u8>) -> Result<List<Bytes>, AllocError>
    ensures { IfOk result (λ values. values ≡ values_if types_only (bytes.items ∷ [])) }
{
    let mut values = List::new(alloc);
    if types_only {
        return Ok(values);
    }
    values.push(Bytes::from_vec(bytes))?;
    Ok(values)
}

// The descriptor as an attribute, where it is given.
fn descriptor_attr(
    alloc: Global,
    search: &Search,
    descriptor: Descriptor,
) -> Result<Option<(Bytes, List<Bytes>)>, AllocError>
    ensures { IfOk result (λ given. option_to_list given ≡ descriptor_attr (search_seen search.now)
        (descriptor_seen descriptor)) }
{
    match descriptor {
        Descriptor::Written(bytes) => {
            let values = one_if(alloc, search.types_only, bytes)?;
            let name = descriptor::name(alloc)?;
            Ok(Some((name, values)))
        }
        Descriptor::Absent => Ok(None),
        Descriptor::TooLong => Ok(None),
    }
}

// ---- the entry

/// The entry of an object of this name, which has the attributes at these places, and of which the token may change so
/// much. It has the descriptor where that is asked for.
#[tactic(auto, unfolding(crate::specs::Entry::entry_of, crate::specs::Seen::seen_of))]
pub(crate) fn entry_of(
    alloc: Global,
    asking: &Asking<'_>,
    number: u32,
    name: &Dn,
    places: &[u32],
    changing: &[(Bytes, List<Bytes>)],
    asked: bool,
) -> Result<Made, AllocError>
    requires live { is_live asking.now.dir.now.objects number ≡ true }
    requires name { name.now.rdns ≡ rdns_of asking.now.dir.now number }
    requires places { HasPlaces asking.now.dir.now asking.now.token.now number
        (search_seen asking.now.search.now) places.now }
    requires changing { changing.now ≡ changing_attrs (search_seen asking.now.search.now)
        (changing_of asking.now.dir.now asking.now.token.now number) }
    requires asked { asked ≡ is_descriptor_asked (search_seen asking.now.search.now).attrs }
    ensures { IfOk result (λ made. made_seen made
        ≡ entry_of asking.now.dir.now.schema asking.now.id (search_seen asking.now.search.now)
        asking.now.flags (seen_of asking.now.dir.now asking.now.token.now number)) }
{
    let name = name.text(alloc)?;
    let mut attrs = attrs_given(alloc, asking, number, places)?;
    push_copies(alloc, &mut attrs, changing)?;
    let descriptor = descriptor_given(alloc, asking, number, asked)?;
    let is_short = is_left_out(&descriptor);
    let last = descriptor_attr(alloc, asking.search, descriptor)?;
    push_if(&mut attrs, last)?;
    let reply = Reply::Entry {
        id: asking.id,
        dn: Bytes::from_vec(name),
        attrs,
    };
    let message = write_reply(alloc, &reply)?;
    Ok(Made { message, is_short })
}
