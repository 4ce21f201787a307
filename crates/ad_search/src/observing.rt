//! What is kept of what a search tried.

ghost use Rattle.std.specs.Prelude.{◌≡◌, ◌==◌, ◌∷◌, ◌++◌, ◌<◌, [], not, true, Some, None, if◌then◌else◌, length, IfOk};
ghost use Rattle.std.specs.Prelude.{OnOk};
ghost use Rattle.ad_schema.specs.Attributes.{attrs_of};
ghost use Rattle.ad_ldap.specs.MessageValue.{search_seen};
ghost use Rattle.ad_dir_model.specs.Objects.{is_live};
ghost use Rattle.ad_dir_model.specs.Shown.{shown};
ghost use Rattle.ad_types.specs.Tried.{tried_value, tried_values};
ghost use Rattle.ad_entries.specs.Judged.{AreKinds};
ghost use Rattle.ad_entries.specs.Places.{HasPlaces};
ghost use Rattle.ad_search.specs.Reads.{read_on, part_reads, descriptor_reads, entry_reads};
ghost use Rattle.ad_search.specs.ReadSteps.{read_at, reads_at_each, kept, and_then};

use ad_acl::{ACCESS_SYSTEM_SECURITY, READ_CONTROL, READ_PROPERTY};
use ad_dir::{Dir, class_of};
use ad_entries::{Asking, Descriptor, Kinds, descriptor_judged, places_judged};
use ad_ldap::{DACL_PART, GROUP_PART, OWNER_PART, SACL_PART};
use ad_schema::AttrId;
use ad_types::{Path, Tried, path, succeeded};
use std::alloc::{AllocError, Global};

/// What a search tried so far, where that is kept: an answer drops it, and an audit keeps it.
#[derive(Drop)]
pub(crate) struct Trace {
    pub is_kept: bool,
    pub tried: Vec<Tried>,
}

/// Nothing is kept.
pub(crate) fn no_trace(alloc: Global) -> Trace
    ensures { kept result ≡ None }
{
    Trace {
        is_kept: false,
        tried: Vec::new(alloc),
    }
}

/// All is kept.
pub(crate) fn new_trace(alloc: Global) -> Trace
    ensures { kept result ≡ Some [] }
{
    Trace {
        is_kept: true,
        tried: Vec::new(alloc),
    }
}

// ---- one entry

// The right to read an attribute of a live object.
fn read_on(dir: &Dir, number: u32, attr: AttrId) -> Tried
    requires live { is_live dir.now.objects number ≡ true }
    requires attr { attr.0 < length (attrs_of dir.now.schema) }
    ensures { tried_value result ≡ read_on dir.now number attr.0 }
{
    succeeded(
        number,
        READ_PROPERTY,
        path(dir.schema(), class_of(dir, number), attr),
    )
}

fn has_value(alloc: Global, dir: &Dir, number: u32, attr: AttrId) -> Result<bool, AllocError>
    requires { is_live dir.now.objects number ≡ true }
    ensures { IfOk result (λ has. has ≡ not (length (shown dir.now number attr.0) == 0)) }
{
    let values = dir.shown(alloc, number, attr)?;
    Ok(!values.is_empty())
}

fn push_if(into: &mut Vec<Tried>, so: bool, tried: Tried) -> Result<(), AllocError>
    ensures { OnOk result (tried_values into.new.items ≡ tried_values into.old.items
        ++ (if so then tried_value tried ∷ [] else [])) }
{
    if so {
        into.push(tried)?;
    }
    Ok(())
}

// The right to read the attribute at a place, where the object shows a value of it.
#[tactic(auto, unfolding(crate::specs::ReadSteps::read_at))]
fn push_read(
    alloc: Global,
    dir: &Dir,
    number: u32,
    place: u32,
    into: &mut Vec<Tried>,
) -> Result<(), AllocError>
    requires { is_live dir.now.objects number ≡ true }
    ensures { OnOk result (tried_values into.new.items ≡ tried_values into.old.items
        ++ read_at dir.now number place) }
{
    if (place as usize) >= dir.schema().attrs().len() {
        return Ok(());
    }
    let attr = AttrId(place);
    let has = has_value(alloc, dir, number, attr)?;
    push_if(into, has, read_on(dir, number, attr))
}

fn push_reads(
    alloc: Global,
    dir: &Dir,
    number: u32,
    places: &[u32],
    into: &mut Vec<Tried>,
) -> Result<(), AllocError>
    requires { is_live dir.now.objects number ≡ true }
    ensures { OnOk result (tried_values into.new.items ≡ tried_values into.old.items
        ++ reads_at_each dir.now number places.now) }
{
    'each: for place in places {
        push_read(alloc, dir, number, *place, into)?;
    }
    Ok(())
}

// The rights for the parts of the descriptor that are asked for.
#[tactic(auto, unfolding(crate::specs::Reads::part_reads))]
fn push_parts(number: u32, flags: u8, into: &mut Vec<Tried>) -> Result<(), AllocError>
    ensures { OnOk result (tried_values into.new.items ≡ tried_values into.old.items
        ++ part_reads number flags) }
{
    let control = flags & OWNER_PART != 0 || (flags & GROUP_PART != 0 || flags & DACL_PART != 0);
    let security = flags & SACL_PART != 0;
    push_if(
        into,
        control,
        succeeded(number, READ_CONTROL, Path::empty()),
    )?;
    push_if(
        into,
        security,
        succeeded(number, ACCESS_SYSTEM_SECURITY, Path::empty()),
    )
}

// The same where the entry has the descriptor.
#[tactic(auto, unfolding(crate::specs::Reads::descriptor_reads))]
fn push_descriptor(
    alloc: Global,
    asking: &Asking<'_>,
    number: u32,
    kinds: &Kinds,
    into: &mut Vec<Tried>,
) -> Result<(), AllocError>
    requires live { is_live asking.now.dir.now.objects number ≡ true }
    requires kinds { AreKinds asking.now.dir.now asking.now.token.now
        (search_seen asking.now.search.now) kinds.now }
    ensures { OnOk result (tried_values into.new.items ≡ tried_values into.old.items
        ++ descriptor_reads asking.now.dir.now asking.now.token.now number
        (search_seen asking.now.search.now) asking.now.flags) }
{
    match descriptor_judged(alloc, asking, number, kinds)? {
        Descriptor::Written(_) => push_parts(number, asking.flags, into),
        Descriptor::Absent => Ok(()),
        Descriptor::TooLong => Ok(()),
    }
}

// What an entry tried that has the attributes at these places.
#[tactic(auto, unfolding(crate::specs::Reads::entry_reads))]
fn push_entry(
    alloc: Global,
    asking: &Asking<'_>,
    number: u32,
    kinds: &Kinds,
    places: &[u32],
    into: &mut Vec<Tried>,
) -> Result<(), AllocError>
    requires live { is_live asking.now.dir.now.objects number ≡ true }
    requires kinds { AreKinds asking.now.dir.now asking.now.token.now
        (search_seen asking.now.search.now) kinds.now }
    requires places { HasPlaces asking.now.dir.now asking.now.token.now number
        (search_seen asking.now.search.now) places.now }
    ensures { OnOk result (tried_values into.new.items ≡ tried_values into.old.items
        ++ entry_reads asking.now.dir.now asking.now.token.now (search_seen asking.now.search.now)
        asking.now.flags number) }
{
    push_reads(alloc, asking.dir, number, places, into)?;
    push_descriptor(alloc, asking, number, kinds, into)
}

// What the entry of an object tried, by what was judged of its kind.
fn push_judged(
    alloc: Global,
    asking: &Asking<'_>,
    number: u32,
    kinds: &mut Kinds,
    into: &mut Vec<Tried>,
) -> Result<(), AllocError>
    requires live { is_live asking.now.dir.now.objects number ≡ true }
    requires kinds { AreKinds asking.now.dir.now asking.now.token.now
        (search_seen asking.now.search.now) kinds.old }
    ensures kinds { OnOk result (AreKinds asking.now.dir.now asking.now.token.now
        (search_seen asking.now.search.now) kinds.new) }
    ensures tried { OnOk result (tried_values into.new.items ≡ tried_values into.old.items
        ++ entry_reads asking.now.dir.now asking.now.token.now (search_seen asking.now.search.now)
        asking.now.flags number) }
{
    let places = places_judged(alloc, asking, number, kinds)?;
    push_entry(alloc, asking, number, kinds, places.as_slice(), into)
}

/// Keeps what the entry of an object tried, where that is kept.
pub(crate) fn keep_reads(
    alloc: Global,
    asking: &Asking<'_>,
    number: u32,
    kinds: &mut Kinds,
    trace: &mut Trace,
) -> Result<(), AllocError>
    requires live { is_live asking.now.dir.now.objects number ≡ true }
    requires kinds { AreKinds asking.now.dir.now asking.now.token.now
        (search_seen asking.now.search.now) kinds.old }
    ensures kinds { OnOk result (AreKinds asking.now.dir.now asking.now.token.now
        (search_seen asking.now.search.now) kinds.new) }
    ensures kept { OnOk result (kept trace.new ≡ and_then (kept trace.old)
        (entry_reads asking.now.dir.now asking.now.token.now (search_seen asking.now.search.now)
        asking.now.flags number)) }
{
    if !trace.is_kept {
        return Ok(());
    }
    push_judged(alloc, asking, number, kinds, &mut trace.tried)
}
