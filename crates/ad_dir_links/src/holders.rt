//! Objects and what is counted of them.

ghost use Rattle.std.specs.Prelude.{◌≡◌, IfOk, OnOk, [], ◌∷◌, ◌++◌};
ghost use Rattle.ad_dir_objects.specs.Seen.{object_seen, objects_of};
ghost use Rattle.ad_dir_links.specs.Counted.{AreCounted, Adds, Keeps, Forgets};
ghost use Rattle.ad_dir_links.specs.Changing.{object_ties};

use crate::counts::{Links, add_links, drop_one};
use crate::gather::{is_indexed, tie_of, ties_of};
use crate::marks::name_mark;
use ad_bytes::OneOrMany;
use ad_dir_objects::{Object, Stored};
use ad_schema::AttrId;
use ad_sd::NormalSd;
use std::alloc::{AllocError, Global};
use std::collections::BTreeMap;

// ---- a holder that goes

// Where there is no memory to tell what stands for the value, it stays counted.
fn forget_value(
    alloc: Global,
    links: &mut Links,
    holder: u32,
    counts: bool,
    attr: AttrId,
    value: &Stored,
)
    ensures { Forgets holder links.old.entries links.new.entries }
{
    if let Ok(Some(number)) = tie_of(alloc, counts, attr, value) {
        drop_one(links, holder, number);
    }
}

fn forget_values(
    alloc: Global,
    links: &mut Links,
    holder: u32,
    counts: bool,
    attr: AttrId,
    values: &[Stored],
)
    ensures { Forgets holder links.old.entries links.new.entries }
{
    'each: for value in values {
        forget_value(alloc, links, holder, counts, attr, value);
    }
}

fn forget_all(
    alloc: Global,
    links: &mut Links,
    holder: u32,
    indexed: &[bool],
    values: &[(AttrId, OneOrMany<Stored>)],
)
    ensures { Forgets holder links.old.entries links.new.entries }
{
    'each: for held in values {
        let counts = is_indexed(indexed, held.0);
        forget_values(alloc, links, holder, counts, held.0, held.1.as_slice());
    }
}

fn forget_name(alloc: Global, links: &mut Links, holder: u32, name: &[u8])
    ensures { Forgets holder links.old.entries links.new.entries }
{
    if let Ok(number) = name_mark(alloc, name) {
        drop_one(links, holder, number);
    }
}

/// Counts the links and the values of an object no more.
pub fn forget_holder(alloc: Global, links: &mut Links, indexed: &[bool], object: &Object)
    ensures { Forgets object.now.number links.old.entries links.new.entries }
{
    forget_name(alloc, links, object.number, object.name.as_slice());
    forget_all(
        alloc,
        links,
        object.number,
        indexed,
        object.values.as_slice(),
    );
}

// ---- all objects

// Counts what is to be counted of one more.
fn add_holder(
    alloc: Global,
    links: &mut Links,
    indexed: &[bool],
    object: &Object,
) -> Result<(), AllocError>
    ensures { OnOk result (Adds object.now.number (object_ties indexed.now object.now)
        links.old.entries links.new.entries) }
{
    let ties = ties_of(alloc, indexed, object)?;
    add_links(links, object.number, ties.as_slice())
}

/// What is counted of these objects.
///
/// # Errors
///
/// Out of memory.
pub fn links_of_all(
    alloc: Global,
    indexed: &[bool],
    objects: &[(Object, NormalSd)],
) -> Result<Links, AllocError>
    ensures { IfOk result (λ links. AreCounted indexed.now links.entries (objects_of objects.now)) }
{
    let mut links = BTreeMap::new(alloc);
    'each: for one in objects {
        add_holder(alloc, &mut links, indexed, &one.0)?;
    }
    Ok(links)
}
