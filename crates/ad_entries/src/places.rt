//! Of which attributes an entry has something: told from what its object stores and shows beside, so that of the
//! others nothing is judged.

ghost use Rattle.std.specs.Prelude.{◌≡◌, ◌+◌, ◌++◌, true, nat_le, length, filter, map, IfOk, OnOk};
ghost use Rattle.ad_ldap.specs.MessageValue.{search_seen};
ghost use Rattle.ad_dir_objects.specs.Seen.{held_seen};
ghost use Rattle.ad_dir_model.specs.Objects.{is_live, object_at};
ghost use Rattle.ad_entries.specs.Asked.{LeavesUnasked, AreAsked};
ghost use Rattle.ad_entries.specs.Places.{place_if, is_given_at, HasPlaces};
ghost use Rattle.ad_entries.specs.Judged.{IsJudgedOf};

use crate::asking::{Asked, Asking};
use crate::judged::Judged;
use crate::rising::rise;
use crate::verdicts::is_given;
use ad_bytes::OneOrMany;
use ad_dir::{Dir, Stored, live_object};
use ad_schema::AttrId;
use std::alloc::{AllocError, Global};

fn push_place(places: &mut Vec<u32>, so: bool, place: u32) -> Result<(), AllocError>
    ensures { OnOk result (places.new.items ≡ places.old.items ++ place_if so place) }
{
    if so {
        places.push(place)?;
    }
    Ok(())
}

// Puts the place of an attribute at the end, where it is asked for and may be read.
fn push_given(
    asking: &Asking<'_>,
    number: u32,
    asked: &Asked,
    place: u32,
    one: &mut Judged,
    places: &mut Vec<u32>,
) -> Result<(), AllocError>
    requires live { is_live asking.now.dir.now.objects number ≡ true }
    requires asked { AreAsked asking.now.dir.now.schema (search_seen asking.now.search.now).attrs
        asked.now }
    requires one { IsJudgedOf asking.now.dir.now asking.now.token.now
        (search_seen asking.now.search.now) number one.old }
    ensures places { OnOk result (places.new.items ≡ places.old.items
        ++ place_if (is_given_at asking.now.dir.now asking.now.token.now number
        (search_seen asking.now.search.now) place) place) }
    ensures one { IsJudgedOf asking.now.dir.now asking.now.token.now
        (search_seen asking.now.search.now) number one.new }
{
    let so = is_given(asking, number, asked, place, one);
    push_place(places, so, place)
}

// The same of these.
fn push_each(
    asking: &Asking<'_>,
    number: u32,
    asked: &Asked,
    these: &[u32],
    one: &mut Judged,
    places: &mut Vec<u32>,
) -> Result<(), AllocError>
    requires live { is_live asking.now.dir.now.objects number ≡ true }
    requires asked { AreAsked asking.now.dir.now.schema (search_seen asking.now.search.now).attrs
        asked.now }
    requires one { IsJudgedOf asking.now.dir.now asking.now.token.now
        (search_seen asking.now.search.now) number one.old }
    ensures places { OnOk result (places.new.items ≡ places.old.items
        ++ filter (is_given_at asking.now.dir.now asking.now.token.now number
        (search_seen asking.now.search.now)) these.now) }
    ensures one { OnOk result (IsJudgedOf asking.now.dir.now asking.now.token.now
        (search_seen asking.now.search.now) number one.new) }
{
    'each: for place in these {
        push_given(asking, number, asked, *place, one, places)?;
    }
    Ok(())
}

// The same of those of which there are values.
fn push_held(
    asking: &Asking<'_>,
    number: u32,
    asked: &Asked,
    values: &[(AttrId, OneOrMany<Stored>)],
    one: &mut Judged,
    places: &mut Vec<u32>,
) -> Result<(), AllocError>
    requires live { is_live asking.now.dir.now.objects number ≡ true }
    requires asked { AreAsked asking.now.dir.now.schema (search_seen asking.now.search.now).attrs
        asked.now }
    requires one { IsJudgedOf asking.now.dir.now asking.now.token.now
        (search_seen asking.now.search.now) number one.old }
    ensures places { OnOk result (places.new.items ≡ places.old.items
        ++ filter (is_given_at asking.now.dir.now asking.now.token.now number
        (search_seen asking.now.search.now)) (map (λ held. held.attr) (map held_seen values.now))) }
    ensures one { OnOk result (IsJudgedOf asking.now.dir.now asking.now.token.now
        (search_seen asking.now.search.now) number one.new) }
{
    'each: for held in values {
        push_given(asking, number, asked, held.0.0, one, places)?;
    }
    Ok(())
}

// Of all attributes, by what the object stores and what it shows without storing it.
fn own_places(
    alloc: Global,
    asking: &Asking<'_>,
    number: u32,
    asked: &Asked,
    one: &mut Judged,
) -> Result<Vec<u32>, AllocError>
    requires live { is_live asking.now.dir.now.objects number ≡ true }
    requires asked { AreAsked asking.now.dir.now.schema (search_seen asking.now.search.now).attrs
        asked.now }
    requires one { IsJudgedOf asking.now.dir.now asking.now.token.now
        (search_seen asking.now.search.now) number one.old }
    ensures places { IfOk result (λ places. HasPlaces asking.now.dir.now asking.now.token.now number
        (search_seen asking.now.search.now) places.items) }
    ensures one { OnOk result (IsJudgedOf asking.now.dir.now asking.now.token.now
        (search_seen asking.now.search.now) number one.new) }
{
    let dir = asking.dir;
    dir.invariants();
    let object = live_object(dir, number);
    let naming = dir.schema().class_info(object.class).naming.0;
    let values = object.values.as_slice();
    let computed = asked.computed.as_slice();
    let mut places = Vec::new(alloc);
    push_held(asking, number, asked, values, one, &mut places)?;
    push_given(asking, number, asked, naming, one, &mut places)?;
    push_each(asking, number, asked, computed, one, &mut places)?;
    rise(&mut places);
    Ok(places)
}

// Of those that are asked for, which are few.
fn few_places(
    alloc: Global,
    asking: &Asking<'_>,
    number: u32,
    asked: &Asked,
    few: &[u32],
    one: &mut Judged,
) -> Result<Vec<u32>, AllocError>
    requires live { is_live asking.now.dir.now.objects number ≡ true }
    requires asked { AreAsked asking.now.dir.now.schema (search_seen asking.now.search.now).attrs
        asked.now }
    requires one { IsJudgedOf asking.now.dir.now asking.now.token.now
        (search_seen asking.now.search.now) number one.old }
    requires few { LeavesUnasked asking.now.dir.now.schema (search_seen asking.now.search.now).attrs
        few.now }
    ensures places { IfOk result (λ places. HasPlaces asking.now.dir.now asking.now.token.now number
        (search_seen asking.now.search.now) places.items) }
    ensures one { OnOk result (IsJudgedOf asking.now.dir.now asking.now.token.now
        (search_seen asking.now.search.now) number one.new) }
{
    let mut places = Vec::new(alloc);
    push_each(asking, number, asked, few, one, &mut places)?;
    rise(&mut places);
    Ok(places)
}

// Whether no more attributes are asked for by name than the object stores and shows without storing them.
fn are_few(dir: &Dir, number: u32, named: &[u32], computed: &[u32]) -> bool
    requires { is_live dir.now.objects number ≡ true }
    ensures { result ≡ nat_le (length named.now)
        (length (object_at dir.now.objects number).values + length computed.now) }
{
    named.len() <= live_object(dir, number).values.as_slice().len() + computed.len()
}

// Of those that are asked for by name, or of the object's own, whichever are fewer.
fn named_places(
    alloc: Global,
    asking: &Asking<'_>,
    number: u32,
    asked: &Asked,
    named: &[u32],
    one: &mut Judged,
) -> Result<Vec<u32>, AllocError>
    requires live { is_live asking.now.dir.now.objects number ≡ true }
    requires asked { AreAsked asking.now.dir.now.schema (search_seen asking.now.search.now).attrs
        asked.now }
    requires one { IsJudgedOf asking.now.dir.now asking.now.token.now
        (search_seen asking.now.search.now) number one.old }
    requires named { LeavesUnasked asking.now.dir.now.schema
        (search_seen asking.now.search.now).attrs named.now }
    ensures places { IfOk result (λ places. HasPlaces asking.now.dir.now asking.now.token.now number
        (search_seen asking.now.search.now) places.items) }
    ensures one { OnOk result (IsJudgedOf asking.now.dir.now asking.now.token.now
        (search_seen asking.now.search.now) number one.new) }
{
    if are_few(asking.dir, number, named, asked.computed.as_slice()) {
        return few_places(alloc, asking, number, asked, named, one);
    }
    own_places(alloc, asking, number, asked, one)
}

/// The places of the attributes that an entry has of a live object of the kind of which that is judged, rising: those
/// that are asked for and may be read, all but some of which the object shows nothing.
pub(crate) fn places_of(
    alloc: Global,
    asking: &Asking<'_>,
    number: u32,
    asked: &Asked,
    one: &mut Judged,
) -> Result<Vec<u32>, AllocError>
    requires live { is_live asking.now.dir.now.objects number ≡ true }
    requires asked { AreAsked asking.now.dir.now.schema (search_seen asking.now.search.now).attrs
        asked.now }
    requires one { IsJudgedOf asking.now.dir.now asking.now.token.now
        (search_seen asking.now.search.now) number one.old }
    ensures places { IfOk result (λ places. HasPlaces asking.now.dir.now asking.now.token.now number
        (search_seen asking.now.search.now) places.items) }
    ensures one { OnOk result (IsJudgedOf asking.now.dir.now asking.now.token.now
        (search_seen asking.now.search.now) number one.new) }
{
    match &asked.named {
        Some(named) => named_places(alloc, asking, number, asked, named.as_slice(), one),
        None => own_places(alloc, asking, number, asked, one),
    }
}
