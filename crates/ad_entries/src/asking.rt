//! Which attributes a search asks for. Each name that was sent is looked up once, however many there are: then a flag
//! for each attribute of the schema tells whether it is asked for.

ghost use Rattle.std.specs.Prelude.{◌≡◌, ◌<◌, ◌==◌, false, true, codes, length, replicate, slice_index_or, IfOk};
ghost use Rattle.std.specs.Prelude.{IfSome, OnOk};
ghost use Rattle.std.specs.Str.{bytes_eq};
ghost use Rattle.ad_schema.specs.Attributes.{attrs_of};
ghost use Rattle.ad_dir_model.specs.Attributes.{is_named};
ghost use Rattle.ad_entries.specs.Asked.{AreFlags, Flags, LeavesUnasked, PushesNamed, LeavesUncomputed};
ghost use Rattle.ad_entries.specs.Asked.{AreApart, AreAsked};

use crate::changing::{ATTRIBUTES, CHILDREN, PARTS, is_sent};
use crate::descriptor::is_descriptor_asked;
use ad_bytes::Bytes;
use ad_dir::Dir;
use ad_ids::Token;
use ad_ldap::Search;
use ad_schema::{Schema, names_are_distinct};
use std::alloc::{AllocError, Global};

/// What asks for all attributes (RFC 4511 4.5.1.8).
const EVERY: &[u8] = b"*";

/// A search of a directory, and the token that it is answered for.
#[derive(Drop)]
pub struct Asking<'a> {
    pub dir: &'a Dir,
    pub token: &'a Token,
    pub search: &'a Search,
    /// The number of the request's message.
    pub id: u32,
    /// The parts of a descriptor that are asked for: 1 the owner, 2 the group, 4 the DACL, 8 the SACL.
    pub flags: u8,
}

/// What a search asks for.
#[derive(Drop)]
pub struct Asked {
    /// Of each attribute by its place whether it is asked for.
    pub flags: Vec<bool>,
    /// The places of those that are asked for, each once, unless all are.
    pub named: Option<Vec<u32>>,
    /// The places of those that objects of each class show without storing them.
    pub computed: Vec<u32>,
    pub apart: RequestedExtras,
}

/// Which of those that are asked for by their names alone a search asks for.
#[derive(Clone, Copy)]
pub struct RequestedExtras {
    pub descriptor: bool,
    /// The attributes that the token may write.
    pub attributes: bool,
    /// The classes of which it may create a child.
    pub children: bool,
    /// The parts of the descriptor that it may write.
    pub parts: bool,
}

fn is_every(sent: &[u8]) -> bool
    ensures { result ≡ bytes_eq sent.now (codes "*") }
{
    sent == EVERY
}

// ---- flags

/// Whether the attribute at a place is flagged.
pub(crate) fn is_flagged(flags: &[bool], place: u32) -> bool
    ensures { result ≡ slice_index_or flags.now place false }
{
    match flags.get(place as usize) {
        Some(flag) => *flag,
        None => false,
    }
}

// Flags the attribute at a place, and puts the place at the end of those that are flagged, if it isn't there.
fn flag(place: u32, flags: &mut Vec<bool>, named: &mut Vec<u32>) -> Result<(), AllocError>
    requires { place < length flags.old.items }
    ensures { OnOk result (Flags (λ other. place == other) flags.old.items flags.new.items
        named.old.items named.new.items) }
{
    if is_flagged(flags.as_slice(), place) {
        return Ok(());
    }
    named.push(place)?;
    flags[place as usize] = true;
    Ok(())
}

// The same for the attribute that a name leads to, if it leads to one.
fn flag_named(
    schema: &Schema,
    name: &[u8],
    flags: &mut Vec<bool>,
    named: &mut Vec<u32>,
) -> Result<(), AllocError>
    requires { length flags.old.items ≡ length (attrs_of schema.now) }
    ensures { OnOk result (Flags (is_named schema.now name.now) flags.old.items flags.new.items
        named.old.items named.new.items) }
{
    match schema.attr(name) {
        Some(attr) => flag(attr.0, flags, named),
        None => Ok(()),
    }
}

// The flags, each set.
fn all_flags(alloc: Global, schema: &Schema) -> Result<Vec<bool>, AllocError>
    ensures { IfOk result (λ flags. flags.items ≡ replicate (length (attrs_of schema.now)) true) }
{
    let flags = vec![in alloc; true; schema.attrs().len()]?;
    Ok(flags)
}

// The flags of what is asked for, and the places that are flagged, unless all are.
fn flags_of(
    alloc: Global,
    schema: &Schema,
    sent: &[Bytes],
) -> Result<(Vec<bool>, Option<Vec<u32>>), AllocError>
    ensures flags { IfOk result (λ it. AreFlags schema.now sent.now it.0.items) }
    ensures named { IfOk result (λ it. IfSome it.1 (λ named. LeavesUnasked schema.now sent.now
        named.items)) }
{
    schema.make_schema();
    names_are_distinct();
    if sent.is_empty() {
        return Ok((all_flags(alloc, schema)?, None));
    }
    let mut flags = vec![in alloc; false; schema.attrs().len()]?;
    let mut named = Vec::new(alloc);
    for asked in sent {
        if is_every(asked.as_slice()) {
            return Ok((all_flags(alloc, schema)?, None));
        }
        flag_named(schema, asked.as_slice(), &mut flags, &mut named)?;
    }
    Ok((flags, Some(named)))
}

// ---- what objects show without storing it

// Puts the place of the attribute that a name leads to at the end, if it leads to one.
fn push_named(schema: &Schema, name: &[u8], places: &mut Vec<u32>) -> Result<(), AllocError>
    ensures { OnOk result (PushesNamed schema.now name.now places.old.items places.new.items) }
{
    if let Some(attr) = schema.attr(name) {
        places.push(attr.0)?;
    }
    Ok(())
}

// The places of the attributes that objects of each class show without storing them.
fn computed(alloc: Global, schema: &Schema) -> Result<Vec<u32>, AllocError>
    ensures { IfOk result (λ places. LeavesUncomputed schema.now places.items) }
{
    let mut places = Vec::new(alloc);
    push_named(schema, b"objectClass", &mut places)?;
    push_named(schema, b"distinguishedName", &mut places)?;
    push_named(schema, b"name", &mut places)?;
    Ok(places)
}

fn apart_of(sent: &[Bytes]) -> RequestedExtras
    ensures { AreApart sent.now result }
{
    RequestedExtras {
        descriptor: is_descriptor_asked(sent),
        attributes: is_sent(sent, ATTRIBUTES),
        children: is_sent(sent, CHILDREN),
        parts: is_sent(sent, PARTS),
    }
}

/// What a search asks for, and what objects show without storing it.
///
/// # Errors
///
/// Out of memory.
pub(crate) fn asked_of(alloc: Global, schema: &Schema, sent: &[Bytes]) -> Result<Asked, AllocError>
    ensures { IfOk result (λ asked. AreAsked schema.now sent.now asked) }
{
    let (flags, named) = flags_of(alloc, schema, sent)?;
    let computed = computed(alloc, schema)?;
    Ok(Asked {
        flags,
        named,
        computed,
        apart: apart_of(sent),
    })
}
