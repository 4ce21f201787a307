//! What is judged in a search of the objects of each kind, once: which attributes may be read, those of them that an
//! object shows, and what tells what a token may change.

ghost use Rattle.std.specs.Prelude.{◌≡◌, ◌<◌, ℕ, true, length, slice_index_or, IfOk, IfSome, OnOk};
ghost use Rattle.std.specs.List.{AllByRecursion};
ghost use Rattle.ad_ids.specs.declared.token.Token.{Token};
ghost use Rattle.ad_ldap.specs.MessageValue.{SearchValue, search_seen};
ghost use Rattle.ad_dir_model.specs.Objects.{is_live};
ghost use Rattle.ad_dir_model.specs.Names.{rdns_of};
ghost use Rattle.ad_dir_model.specs.Directory.{Directory};
ghost use Rattle.ad_entries.specs.Seen.{parts_read, seen_of};
ghost use Rattle.ad_entries.specs.Entry.{descriptor_given, entry_of};
ghost use Rattle.ad_entries.specs.Given.{descriptor_seen, made_seen};
ghost use Rattle.ad_entries.specs.Asked.{AreApart};
ghost use Rattle.ad_entries.specs.Kinds.{IsOf};
ghost use Rattle.ad_entries.specs.Places.{HasPlaces};
ghost use Rattle.ad_entries.specs.Judged.{IsJudged, AreKinds};

use crate::asking::{Asked, Asking, RequestedExtras, asked_of};
use crate::changing::changing_attrs;
use crate::descriptor::{Descriptor, descriptor_given};
use crate::entry::{Made, entry_of};
use crate::kinds::{Kind, kind_of, same_kind};
use crate::places::places_of;
use ad_bytes::{Bytes, List};
use ad_dn::Dn;
use std::alloc::{AllocError, Global};

// The most kinds of objects of which something is kept, so that to look for one costs no more where each object has a
// descriptor of its own.
const MAX_KINDS: usize = 128;

/// What was judged of the objects of one kind.
#[derive(Drop)]
pub struct Judged {
    pub kind: Kind,
    /// Of each attribute by its place whether it may be read, where that was judged.
    pub verdicts: Vec<Option<bool>>,
    /// Those that tell what the token may change, with their values.
    pub changing: List<(Bytes, List<Bytes>)>,
}

/// What a search asks for, and what was judged in it so far.
#[derive(Drop)]
pub struct Kinds {
    pub asked: Asked,
    pub judged: Vec<Judged>,
}

/// Where nothing was judged yet.
///
/// # Errors
///
/// Out of memory.
pub fn no_kinds(alloc: Global, asking: &Asking<'_>) -> Result<Kinds, AllocError>
    ensures { IfOk result (AreKinds asking.now.dir.now asking.now.token.now
        (search_seen asking.now.search.now)) }
{
    let asked = asked_of(alloc, asking.dir.schema(), asking.search.attrs.as_slice())?;
    Ok(Kinds {
        asked,
        judged: Vec::new(alloc),
    })
}

// Where what was judged of a kind stands: of the last ones first.
fn place_of(judged: &[Judged], asking: &Asking<'_>, kind: Kind) -> Option<usize>
    requires judged { AllByRecursion (IsJudged asking.now.dir.now asking.now.token.now
        (search_seen asking.now.search.now)) judged.now }
    requires live { is_live asking.now.dir.now.objects kind.sample ≡ true }
    ensures within { IfSome result (λ place. place < length judged.now) }
    ensures of { IfSome result (λ place. (number : ℕ) (d : Judged)
        → IsOf asking.now.dir.now asking.now.token.now kind number
        → IsOf asking.now.dir.now asking.now.token.now (slice_index_or judged.now place d).kind
        number) }
{
    let mut place = judged.len();
    'each: while place > 0 {
        place -= 1;
        if same_kind(asking.dir, kind, judged[place].kind) {
            return Some(place);
        }
    }
    None
}

// A kind of which nothing was judged.
fn unjudged(
    alloc: Global,
    asking: &Asking<'_>,
    number: u32,
    apart: RequestedExtras,
    kind: Kind,
) -> Result<Judged, AllocError>
    requires apart { AreApart (search_seen asking.now.search.now).attrs apart }
    requires live { is_live asking.now.dir.now.objects number ≡ true }
    requires sample { is_live asking.now.dir.now.objects kind.sample ≡ true }
    requires kind { IsOf asking.now.dir.now asking.now.token.now kind number }
    ensures judged { IfOk result (IsJudged asking.now.dir.now asking.now.token.now
        (search_seen asking.now.search.now)) }
    ensures of { IfOk result (λ one. IsOf asking.now.dir.now asking.now.token.now one.kind number) }
{
    let verdicts = vec![in alloc; None; asking.dir.schema().attrs().len()]?;
    let changing = changing_attrs(alloc, asking, number, apart)?;
    Ok(Judged {
        kind,
        verdicts,
        changing,
    })
}

// Takes what was judged of an object's kind.
fn taken(
    alloc: Global,
    asking: &Asking<'_>,
    number: u32,
    apart: RequestedExtras,
    judged: &mut Vec<Judged>,
) -> Result<Judged, AllocError>
    requires apart { AreApart (search_seen asking.now.search.now).attrs apart }
    requires live { is_live asking.now.dir.now.objects number ≡ true }
    requires judged { AllByRecursion (IsJudged asking.now.dir.now asking.now.token.now
        (search_seen asking.now.search.now)) judged.old.items }
    ensures one { IfOk result (IsJudged asking.now.dir.now asking.now.token.now
        (search_seen asking.now.search.now)) }
    ensures of { IfOk result (λ one. IsOf asking.now.dir.now asking.now.token.now one.kind number) }
    ensures judged { OnOk result (AllByRecursion (IsJudged asking.now.dir.now
        asking.now.token.now (search_seen asking.now.search.now)) judged.new.items) }
{
    let kind = kind_of(asking.dir, asking.token, number);
    match place_of(judged.as_slice(), asking, kind) {
        Some(place) => Ok(judged.swap_remove(place)),
        None => unjudged(alloc, asking, number, apart, kind),
    }
}

// Puts it back, up to so many kinds.
fn put_back(one: Judged, judged: &mut Vec<Judged>) -> Result<(), AllocError>
    ensures { OnOk result ((dir : Directory) (token : Token) (search : SearchValue)
        → IsJudged dir token search one
        → AllByRecursion (IsJudged dir token search) judged.old.items
        → AllByRecursion (IsJudged dir token search) judged.new.items) }
{
    if judged.len() < MAX_KINDS {
        judged.push(one)?;
    }
    Ok(())
}

/// The places of the attributes that the entry has of a live object, rising: those that are asked for and may be read,
/// all but some of which the object shows nothing.
///
/// # Errors
///
/// Out of memory.
pub fn places_judged(
    alloc: Global,
    asking: &Asking<'_>,
    number: u32,
    kinds: &mut Kinds,
) -> Result<Vec<u32>, AllocError>
    requires live { is_live asking.now.dir.now.objects number ≡ true }
    requires kinds { AreKinds asking.now.dir.now asking.now.token.now
        (search_seen asking.now.search.now) kinds.old }
    ensures places { IfOk result (λ places. HasPlaces asking.now.dir.now asking.now.token.now number
        (search_seen asking.now.search.now) places.items) }
    ensures kinds { OnOk result (AreKinds asking.now.dir.now asking.now.token.now
        (search_seen asking.now.search.now) kinds.new) }
{
    let apart = kinds.asked.apart;
    let mut one = taken(alloc, asking, number, apart, &mut kinds.judged)?;
    let places = places_of(alloc, asking, number, &kinds.asked, &mut one)?;
    put_back(one, &mut kinds.judged)?;
    Ok(places)
}

/// The entry of an object of this name. What its descriptor says of the attributes is judged at the first object of
/// its kind that shows them.
///
/// # Errors
///
/// Out of memory.
pub fn entry_judged(
    alloc: Global,
    asking: &Asking<'_>,
    number: u32,
    name: &Dn,
    kinds: &mut Kinds,
) -> Result<Made, AllocError>
    requires live { is_live asking.now.dir.now.objects number ≡ true }
    requires name { name.now.rdns ≡ rdns_of asking.now.dir.now number }
    requires kinds { AreKinds asking.now.dir.now asking.now.token.now
        (search_seen asking.now.search.now) kinds.old }
    ensures made { IfOk result (λ made. made_seen made
        ≡ entry_of asking.now.dir.now.schema asking.now.id (search_seen asking.now.search.now)
        asking.now.flags (seen_of asking.now.dir.now asking.now.token.now number)) }
    ensures kinds { OnOk result (AreKinds asking.now.dir.now asking.now.token.now
        (search_seen asking.now.search.now) kinds.new) }
{
    let apart = kinds.asked.apart;
    let mut one = taken(alloc, asking, number, apart, &mut kinds.judged)?;
    let places = places_of(alloc, asking, number, &kinds.asked, &mut one)?;
    let made = entry_of(
        alloc,
        asking,
        number,
        name,
        places.as_slice(),
        one.changing.as_slice(),
        apart.descriptor,
    )?;
    put_back(one, &mut kinds.judged)?;
    Ok(made)
}

/// What the entry has of the descriptor of a live object.
///
/// # Errors
///
/// Out of memory.
pub fn descriptor_judged(
    alloc: Global,
    asking: &Asking<'_>,
    number: u32,
    kinds: &Kinds,
) -> Result<Descriptor, AllocError>
    requires live { is_live asking.now.dir.now.objects number ≡ true }
    requires kinds { AreKinds asking.now.dir.now asking.now.token.now
        (search_seen asking.now.search.now) kinds.now }
    ensures { IfOk result (λ d. descriptor_seen d
        ≡ descriptor_given (search_seen asking.now.search.now) asking.now.flags
        (parts_read asking.now.dir.now asking.now.token.now number)) }
{
    descriptor_given(alloc, asking, number, kinds.asked.apart.descriptor)
}
