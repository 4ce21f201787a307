//! Objects in memory of their own.

ghost use Rattle.std.specs.Prelude.{◌≡◌, IfOk};

use crate::object::{Object, Stored};
use ad_bytes::{List, OneOrMany};
use ad_schema::AttrId;
use std::alloc::{AllocError, Global};

fn copied(alloc: Global, stored: &Stored) -> Result<Stored, AllocError>
    ensures { IfOk result (λ copy. copy ≡ stored.now) }
{
    match stored {
        Stored::Plain(value) => Ok(Stored::Plain(value.copy(alloc)?)),
        Stored::Link(number) => Ok(Stored::Link(*number)),
    }
}

fn all_copied(alloc: Global, stored: &[Stored]) -> Result<OneOrMany<Stored>, AllocError>
    ensures { IfOk result (λ copy. copy ≡ stored.now) }
{
    let mut all = OneOrMany::new(alloc);
    for one in stored {
        all.push(copied(alloc, one)?)?;
    }
    Ok(all)
}

fn values_copied(
    alloc: Global,
    values: &[(AttrId, OneOrMany<Stored>)],
) -> Result<List<(AttrId, OneOrMany<Stored>)>, AllocError>
    ensures { IfOk result (λ copy. copy ≡ values.now) }
{
    let mut all = List::new(alloc);
    for (attr, stored) in values {
        all.push((*attr, all_copied(alloc, stored.as_slice())?))?;
    }
    Ok(all)
}

impl Object {
    /// An equal object in memory of its own.
    ///
    /// # Errors
    ///
    /// Out of memory.
    pub fn copy(&self, alloc: Global) -> Result<Object, AllocError>
        ensures { IfOk result (λ copy. copy ≡ self.now) }
    {
        Ok(Object {
            number: self.number,
            parent: self.parent,
            class: self.class,
            name: self.name.copy(alloc)?,
            values: values_copied(alloc, self.values.as_slice())?,
        })
    }
}
