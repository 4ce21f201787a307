//! A directory as it is loaded: its parts, over which there is no index yet.

ghost use Rattle.std.specs.Prelude.{◌≡◌, length, IfOk};
ghost use Rattle.ad_dir_model.specs.Soundness.{IsSound};
ghost use Rattle.ad_load.specs.Seen.{before_seen, parts_seen};

use crate::before_inheritance::Before;
use ad_dir::{Dir, Meta, Object};
use ad_schema::Schema;
use ad_sd::NormalSd;
use std::alloc::{AllocError, Global};
use std::marker::Model;

/// The parts of a directory that was loaded. A contract sees the directory.
#[derive(Drop)]
pub struct Parts {
    schema: Schema,
    objects: Vec<(Object, NormalSd)>,
    meta: Meta,
}

impl Model for Parts {
    ghost use Rattle.ad_dir_model.specs.Directory.{Directory};
    ghost use Rattle.ad_load.specs.Seen.{parts_seen};

    ghost Value = { Directory };

    ghost view = { λ parts. parts_seen parts.schema parts.objects.items parts.meta };
}

impl Parts {
    pub(crate) fn of(schema: Schema, before: Before) -> Parts
        ensures { result ≡ before_seen schema before }
    {
        Parts {
            schema,
            objects: before.objects,
            meta: before.meta,
        }
    }

    /// The number of objects.
    pub fn len(&self) -> usize
        ensures { result ≡ length self.now.objects }
    {
        self.objects.len()
    }

    /// The schema, the objects by rising number, each with its descriptor, and the counters. Nothing is pending.
    pub fn into_parts(self) -> (Schema, Vec<(Object, NormalSd)>, Meta)
        ensures { self ≡ parts_seen result.0 result.1.items result.2 }
    {
        (self.schema, self.objects, self.meta)
    }

    /// The directory.
    ///
    /// # Errors
    ///
    /// Out of memory.
    pub fn into_dir(self, alloc: Global) -> Result<Dir, AllocError>
        requires { IsSound self }
        ensures { IfOk result (λ dir. dir ≡ self) }
    {
        Dir::of(alloc, self.schema, self.objects, Vec::new(alloc), self.meta)
    }
}
