//! The objects by number with their descriptors in one pool.

ghost use Rattle.std.specs.Prelude.{◌≡◌, ◌↔◌, ◌<◌, ◌-◌, ◌^◌, true, is_some, [], length, OnOk, OnErr, IfOk, IsTrue};
ghost use Rattle.std.specs.Prelude.{option_map, List};
ghost use Rattle.std.specs.Option.{option_copied, option_and_then, IfSome};
ghost use Rattle.ad_schema.specs.declared.line.SchemaRecord.{SchemaRecord};
ghost use Rattle.ad_sd.specs.Seen.{seen};
ghost use Rattle.ad_sd.specs.SdIn.{sd_in};
ghost use Rattle.ad_sd.specs.Normal.{SpellsNormal};
ghost use Rattle.sd_pool.specs.Pool.{is_live as is_held};
ghost use Rattle.sd_pool.specs.Sharers.{bytes_at};
ghost use Rattle.ad_dir_model.specs.Identity.{sid_in};
ghost use Rattle.ad_dir_model.specs.Objects.{object_at, object_of, is_live, sd_at, numbers, put, removed};
ghost use Rattle.ad_dir_objects.specs.Seen.{object_seen};
ghost use Rattle.ad_dir_table.specs.Entry.{objects_in, HaveTheirSids};
ghost use Rattle.ad_dir_table.specs.Listing.{next_number, descriptor_count};
ghost use Rattle.ad_dir_table.specs.Pooled.{IsPoolOf};

use crate::parts::{self, Parts};
use crate::stored_object;
use ad_dir_objects::Object;
use ad_ids::Sid;
use ad_schema::Schema;
use ad_sd::SdView;
use sd_pool::{SdId, SdPool};
use std::alloc::{AllocError, Global};
use std::marker::Model;

/// The objects of a directory by number, with their descriptors in one pool.
#[derive(Drop)]
pub struct Objects {
    parts: Parts,
}

impl Model for Objects {
    ghost use Rattle.ad_dir_table.specs.Entry.{Holding};
    ghost use Rattle.ad_dir_table.specs.Fields.{holding, IsTable};

    ghost Value = { Holding };

    ghost view = { λ objects. holding objects.parts };

    ghost invariant = { λ objects. IsTable objects.parts };
}

impl Objects {
    /// No objects. It takes no memory.
    pub fn new(alloc: Global) -> Objects
        ensures { result.entries ≡ [] }
    {
        Objects {
            parts: parts::empty(alloc),
        }
    }

    /// How many there are.
    pub fn len(&self) -> usize
        ensures { result ≡ length self.now.entries }
    {
        self.parts.kept.len()
    }

    /// The object of a number, and none exactly where there is none of it. It takes no memory.
    pub fn object(&self, number: u32) -> Option<&Object>
        ensures { option_map (λ object.
            object_seen object.now (sd_at (objects_in self.now.entries) number)) result
            ≡ object_of (objects_in self.now.entries) number }
    {
        parts::object(&self.parts, number)
    }

    /// The identifier that the object of a number has. It takes no memory.
    pub fn sid(&self, number: u32) -> Option<&Sid>
        ensures { (schema : List SchemaRecord) → HaveTheirSids schema self.now.entries
            → option_copied result ≡ option_and_then (sid_in schema)
            (object_of (objects_in self.now.entries) number) }
    {
        parts::sid(&self.parts, number)
    }

    /// The descriptor of an object, and none exactly where there is none of the number. It takes no memory, and looks
    /// at no byte.
    pub fn sd(&self, number: u32) -> Option<SdView<'_>>
        ensures { option_map seen result ≡ option_map (λ object. object.sd)
            (object_of (objects_in self.now.entries) number) }
    {
        parts::sd(&self.parts, number)
    }

    /// The id of the descriptor of an object in the pool, and none exactly where there is none of the number. It
    /// takes no memory.
    pub fn sd_id(&self, number: u32) -> Option<SdId>
        ensures some { is_some result ≡ is_live (objects_in self.now.entries) number }
        ensures live { IfSome result (λ id. is_held self.now.pool.live id.0 ≡ true) }
        ensures bytes { IfSome result
            (λ id. SpellsNormal (sd_at (objects_in self.now.entries) number)
            (bytes_at self.now.pool.live id.0)) }
    {
        parts::id(&self.parts, number)
    }

    /// Whether two of the objects have one descriptor: their ids tell. It takes no memory.
    pub fn same_descriptor(&self, a: u32, b: u32) -> bool
        requires a { is_live (objects_in self.now.entries) a ≡ true }
        requires b { is_live (objects_in self.now.entries) b ≡ true }
        ensures { IsTrue result ↔ (sd_at (objects_in self.now.entries) a
            ≡ sd_at (objects_in self.now.entries) b) }
    {
        parts::is_same(&self.parts, a, b)
    }

    /// The pool of the descriptors: as many ids as there are different ones, each with as many sharers as objects
    /// have it.
    pub fn pool(&self) -> &SdPool
        ensures pool { result.now ≡ self.now.pool }
        ensures of { IsPoolOf (objects_in self.now.entries) self.now.pool }
    {
        parts::is_pooled(&self.parts);
        &self.parts.pool
    }

    /// The least number of an object above one. It takes no memory.
    pub fn next_number(&self, above: u32) -> Option<u32>
        ensures { result ≡ next_number (objects_in self.now.entries) above }
    {
        stored_object::next_number(&self.parts.kept, above)
    }

    /// The numbers of all objects, rising.
    ///
    /// # Errors
    ///
    /// Out of memory.
    pub fn numbers(&self, alloc: Global) -> Result<Vec<u32>, AllocError>
        ensures { IfOk result (λ all. all.items ≡ numbers (objects_in self.now.entries)) }
    {
        stored_object::numbers(alloc, &self.parts.kept)
    }

    /// Inserts an object with the normal bytes of its descriptor in the place of the one that has its number, or else
    /// where its number belongs. There are fewer than 2^32 - 1 objects. The new bytes are put before the old ones are
    /// given back.
    ///
    /// # Errors
    ///
    /// Out of memory. The objects and their descriptors stay as they were.
    pub fn put(&mut self, schema: &Schema, object: Object, bytes: &[u8]) -> Result<(), AllocError>
        requires few { length self.old.entries < 2 ^ 32 - 1 }
        requires normal { SpellsNormal (sd_in bytes.now) bytes.now }
        ensures ok { OnOk result (objects_in self.new.entries
            ≡ put (object_seen object (sd_in bytes.now)) (objects_in self.old.entries)) }
        ensures err { OnErr result (self.new.entries ≡ self.old.entries) }
        ensures sids { HaveTheirSids schema.now self.old.entries → HaveTheirSids schema.now
            self.new.entries }
    {
        parts::put(&mut self.parts, schema, object, bytes)
    }

    /// Gives the object of a number the descriptor of these normal bytes, and changes nothing else of it. There are
    /// fewer than 2^32 - 1 objects. The new bytes are put before the old ones are given back.
    ///
    /// # Errors
    ///
    /// Out of memory. The objects and their descriptors stay as they were.
    pub fn put_sd(&mut self, number: u32, bytes: &[u8]) -> Result<(), AllocError>
        requires live { is_live (objects_in self.old.entries) number ≡ true }
        requires few { length self.old.entries < 2 ^ 32 - 1 }
        requires normal { SpellsNormal (sd_in bytes.now) bytes.now }
        ensures ok { OnOk result (objects_in self.new.entries
            ≡ put (record (object_at (objects_in self.old.entries) number) { sd = sd_in bytes.now })
            (objects_in self.old.entries)) }
        ensures err { OnErr result (self.new.entries ≡ self.old.entries) }
        ensures sids { (schema : List SchemaRecord) → HaveTheirSids schema self.old.entries
            → HaveTheirSids schema self.new.entries }
    {
        parts::put_sd(&mut self.parts, number, bytes)
    }

    /// Removes the object of a number out. It takes no memory.
    pub fn remove(&mut self, number: u32)
        ensures removed { objects_in self.new.entries
            ≡ removed number (objects_in self.old.entries) }
        ensures sids { (schema : List SchemaRecord) → HaveTheirSids schema self.old.entries
            → HaveTheirSids schema self.new.entries }
    {
        parts::remove(&mut self.parts, number);
    }
}
