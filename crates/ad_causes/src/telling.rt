//! All causes from one directory to another.

ghost use Rattle.std.specs.Prelude.{◌≡◌, ◌++◌, IfOk, OnOk};
ghost use Rattle.ad_causes.specs.Cause.{causes_text};
ghost use Rattle.ad_causes.specs.Causes.{causes};
ghost use Rattle.ad_causes.specs.Schema.{schema_causes};

use crate::alone::put_objects_alone;
use crate::members::put_memberships;
use crate::objects::put_objects;
use crate::schemas::put_schemas;
use ad_dir::Dir;
use std::alloc::{AllocError, Global};

// What differs between the schemas of two directories.
fn put_schemas_of(
    alloc: Global,
    into: &mut Vec<u8>,
    before: &Dir,
    after: &Dir,
) -> Result<(), AllocError>
    ensures { OnOk result (into.new.items ≡ into.old.items
        ++ causes_text (schema_causes before.now.schema after.now.schema)) }
{
    put_schemas(
        alloc,
        into,
        before.schema().records(),
        after.schema().records(),
    )
}

/// The line of each cause: objects that one directory alone has; of each that both have what differs; memberships; and
/// what differs in the schemas.
///
/// # Errors
///
/// Out of memory.
pub fn causes(alloc: Global, before: &Dir, after: &Dir) -> Result<Vec<u8>, AllocError>
    ensures { IfOk result (λ text. text.items ≡ causes_text (causes before.now after.now)) }
{
    let mut text = Vec::new(alloc);
    put_objects_alone(alloc, &mut text, true, after, before)?;
    put_objects_alone(alloc, &mut text, false, before, after)?;
    put_objects(alloc, &mut text, before, after)?;
    put_memberships(alloc, &mut text, true, after, before)?;
    put_memberships(alloc, &mut text, false, before, after)?;
    put_schemas_of(alloc, &mut text, before, after)?;
    Ok(text)
}
