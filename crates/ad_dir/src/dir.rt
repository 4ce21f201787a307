//! The directory: its parts and what holds of them, its look-ups, and `apply`.

ghost use Rattle.std.specs.Prelude.{◌≡◌, ◌↔◌, true, [], IfOk, OnOk, OnErr, IsOk, IsTrue, option_map, length, IfSome};
ghost use Rattle.std.specs.Option.{option_copied};
ghost use Rattle.std.specs.Str.{IsUtf8};
ghost use Rattle.ad_dir_model.specs.Identity.{self_sid, with_sid};
ghost use Rattle.ad_dir_model.specs.Names.{child_named};
ghost use Rattle.ad_sd.specs.Seen.{seen};
ghost use Rattle.ad_dir_model.specs.Objects.{object_at, object_of, is_live, sd_at, children, next_child};
ghost use Rattle.ad_dir_model.specs.Objects.{numbers};
ghost use Rattle.ad_dir_model.specs.Directory.{edited, put_object};
ghost use Rattle.ad_dir_model.specs.Weight.{weight};
ghost use Rattle.prop_queue.specs.Pending.{AreDistinct};
ghost use Rattle.ad_dir_table.specs.Entry.{objects_in};
ghost use Rattle.ad_dir_table.specs.Pooled.{IsPoolOf};
ghost use Rattle.ad_dir_objects.specs.Seen.{object_seen, objects_of, meta_seen, edit_seen};
ghost use Rattle.ad_dir_table.specs.Exact.{AreNames, AreSids};
ghost use Rattle.ad_dir.specs.Holders.{IsNextHolder};
ghost use Rattle.ad_dir.specs.Values.{IsNextWith, IsNextNamed};
ghost use Rattle.ad_dir.specs.Standing.{AreStanding};
ghost use Rattle.ad_dir.specs.Listing.{next_number, descriptor_count};
ghost use Rattle.ad_dir.specs.Conditions.{MayApply, MayPut, with_sd};
ghost use Rattle.ad_dir_objects.specs.declared.edit.Edit.TheVariants as Edit;

use crate::weight::{if_put, weight_of_all, weight_with, weight_without};
use crate::{indexed_objects, linking, values};
use ad_dir_links::{Links, indexed_attrs, links_of_all, mark_of_name, next_holder};
use ad_dir_objects::{Edit, Meta, Object};
use ad_dir_table::{Index, NameKey, Objects, children_of, next_child, with_name, with_sid};
use ad_dn::Dn;
use ad_ids::Sid;
use ad_schema::{AttrId, Schema};
use ad_sd::{NormalSd, SdView};
use ad_value::Key;
use indexmap::IndexMap;
use prop_queue::{Pending, Queue};
use sd_pool::SdPool;
use std::alloc::{AllocError, Global};
use std::collections::BTreeMap;
use std::marker::Model;

/// A directory. Its objects lie with their descriptors in one pool; what they weigh together is kept where it is
/// known.
pub struct Dir {
    schema: Schema,
    objects: Objects,
    index: Index,
    indexed: Vec<bool>,
    links: Links,
    weight: Option<usize>,
    queue: Queue,
    meta: Meta,
}

// Written out, so that where it is dropped a proof has a single step.
impl Drop for Dir {
    fn drop(self) {
        let Dir {
            schema,
            objects,
            index,
            indexed,
            links,
            weight: _,
            queue,
            meta,
        } = self;
        drop((schema, objects, index, indexed));
        drop((links, queue, meta));
    }
}

impl Model for Dir {
    ghost use Rattle.ad_dir_model.specs.Directory.{Directory};
    ghost use Rattle.ad_dir.specs.Kept.{dir_seen, IsStoredDir};

    ghost Value = { Directory };

    ghost view = { λ dir. dir_seen dir.schema dir.objects.entries dir.queue dir.meta };

    ghost invariant = { λ dir. IsStoredDir dir.schema dir.objects.entries dir.index dir.indexed.items
        dir.links.entries dir.weight };
}

impl Dir {
    /// The directory without objects: nothing pending, next number 1, next identifier's last sub-authority 1,000.
    pub fn new(alloc: Global, schema: Schema, suffix: Dn) -> Result<Dir, AllocError>
        ensures { IfOk result (λ dir. dir ≡ record {
          schema = schema;
          objects = [];
          pending = [];
          meta = record { next_number = 1; next_rid = 1000; suffix = suffix.rdns };
        }) }
    {
        let indexed = indexed_attrs(alloc, &schema)?;
        Ok(Dir {
            schema,
            objects: Objects::new(alloc),
            index: Index::new(alloc),
            indexed,
            links: BTreeMap::new(alloc),
            weight: Some(0),
            queue: Queue::new(alloc),
            meta: Meta {
                next_number: 1,
                next_rid: 1000,
                suffix,
            },
        })
    }

    /// The directory of these objects, by rising number, with their descriptors, and of these distinct pending
    /// parents.
    ///
    /// # Errors
    ///
    /// Out of memory.
    pub fn of(
        alloc: Global,
        schema: Schema,
        objects: Vec<(Object, NormalSd)>,
        queue: Vec<Pending>,
        meta: Meta,
    ) -> Result<Dir, AllocError>
        requires standing { AreStanding schema (objects_of objects.items) }
        requires distinct { AreDistinct queue.items }
        ensures { IfOk result (λ dir. dir
            ≡ record {
              schema = schema;
              objects = objects_of objects.items;
              pending
                  = queue.items;
              meta = meta_seen meta;
            }) }
    {
        let weight = weight_of_all(&schema, objects.as_slice());
        let indexed = indexed_attrs(alloc, &schema)?;
        let links = links_of_all(alloc, indexed.as_slice(), objects.as_slice())?;
        let (objects, index) = indexed_objects::all_of(alloc, &schema, objects)?;
        Ok(Dir {
            schema,
            objects,
            index,
            indexed,
            links,
            weight,
            queue: Queue::of(queue),
            meta,
        })
    }

    /// What holds of the objects of every directory.
    pub fn invariants(&self)
        ensures { AreStanding self.now.schema self.now.objects }
    {
        let _ = &self.meta;
    }

    /// Whether an object of the number is live. It takes no memory.
    pub fn is_live(&self, number: u32) -> bool
        ensures { result ≡ is_live self.now.objects number }
    {
        self.objects.object(number).is_some()
    }

    /// How many objects are live.
    pub fn len(&self) -> usize
        ensures { result ≡ length self.now.objects }
    {
        self.objects.len()
    }

    /// The least number of a live object above a number. It takes no memory.
    pub fn next_number(&self, above: u32) -> Option<u32>
        ensures { result ≡ next_number self.now.objects above }
    {
        self.objects.next_number(above)
    }

    /// The numbers of all live objects, rising.
    ///
    /// # Errors
    ///
    /// Out of memory.
    pub fn numbers(&self, alloc: Global) -> Result<Vec<u32>, AllocError>
        ensures { IfOk result (λ all. all.items ≡ numbers self.now.objects) }
    {
        self.objects.numbers(alloc)
    }

    /// The object of a number, and none exactly where none is live. It takes no memory.
    pub fn object(&self, number: u32) -> Option<&Object>
        ensures { option_map (λ object. object_seen object.now (sd_at self.now.objects number))
            result ≡ object_of self.now.objects number }
    {
        self.objects.object(number)
    }

    /// The descriptor of an object, and none exactly where none of the number is live. It takes no memory.
    pub fn sd(&self, number: u32) -> Option<SdView<'_>>
        ensures { option_map seen result ≡ option_map (λ object. object.sd)
            (object_of self.now.objects number) }
    {
        self.objects.sd(number)
    }

    /// The identifier of a live object, the first value of its objectSid. None where there is none. It takes no
    /// memory.
    pub fn self_sid(&self, number: u32) -> Option<&Sid>
        ensures { option_copied result ≡ self_sid self.now number }
    {
        self.objects.sid(number)
    }

    /// The numbers of all live objects by their names, one entry each, from its parent, 0 for the root, and its
    /// folded naming value, in no fixed order. It takes no memory.
    pub fn names(&self) -> &IndexMap<NameKey, u32>
        ensures { AreNames self.now.objects result.now.entries }
    {
        let _known = self.index.names.len();
        &self.index.names
    }

    /// The numbers of the live objects with an identifier by these, one entry each, in no fixed order. It takes no
    /// memory.
    pub fn sids(&self) -> &IndexMap<Sid, u32>
        ensures { AreSids self.now.schema self.now.objects result.now.entries }
    {
        let _known = self.index.sids.len();
        &self.index.sids
    }

    /// The live children of a parent by rising number. It takes no memory.
    pub fn children(&self, parent: u32) -> &[u32]
        ensures { result.now ≡ children self.now.objects parent }
    {
        children_of(&self.index.children, parent)
    }

    /// The least child of a parent above a number. It takes no memory.
    pub fn next_child(&self, parent: u32, above: u32) -> Option<u32>
        ensures { result ≡ next_child self.now.objects parent above }
    {
        next_child(&self.index.children, parent, above)
    }

    /// The next object above a number that may hold a link to a target. It takes no memory.
    pub(crate) fn next_holder(&self, target: u32, above: u32) -> Option<u32>
        ensures { IsNextHolder self.now.objects target above result }
    {
        next_holder(&self.links, target, above)
    }

    /// The next object above a number that may store a value of an attribute with this key. Where the attribute is
    /// indexed the others aren't looked at, and else nothing is known of the next number. It takes no memory.
    pub fn next_with(&self, attr: AttrId, key: &Key, above: u32) -> Option<u32>
        ensures { IsNextWith self.now.objects attr.0 key.now above result }
    {
        let indexed = self.indexed.as_slice();
        values::next_with(&self.schema, indexed, &self.links, attr, key, above)
    }

    /// The next object above a number whose naming value may have this key, as a text. The others aren't looked at.
    /// It takes no memory.
    pub fn next_named(&self, key: &Key, above: u32) -> Option<u32>
        ensures { IsNextNamed self.now.objects key.now above result }
    {
        next_holder(&self.links, mark_of_name(key), above)
    }

    /// Whether what stores a value of an attribute is found without a look at the others.
    pub fn is_indexed(&self, attr: AttrId) -> bool {
        values::is_counted(&self.schema, self.indexed.as_slice(), attr)
    }

    /// The object of an identifier. It takes no memory.
    pub fn with_sid(&self, sid: &Sid) -> Option<u32>
        ensures { result ≡ with_sid self.now sid.now }
    {
        with_sid(&self.index.sids, sid)
    }

    /// The child of a parent with this naming value, in UTF-8, after case folding, whatever the type of its RDN.
    pub fn child(&self, _alloc: Global, parent: u32, name: &[u8]) -> Result<Option<u32>, AllocError>
        requires { IsUtf8 name.now }
        ensures child { IfOk result
            (λ child. child ≡ option_map (λ object. object.number)
            (child_named self.now.objects parent name.now)) }
        ensures succeeds { IsOk result }
    {
        Ok(self.child_named(parent, name))
    }

    /// The same without any memory.
    pub(crate) fn child_named(&self, parent: u32, name: &[u8]) -> Option<u32>
        requires { IsUtf8 name.now }
        ensures { result ≡ option_map (λ object. object.number)
            (child_named self.now.objects parent name.now) }
    {
        with_name(&self.index.names, parent, name)
    }

    /// The objects, as they are kept: with their pool.
    pub fn kept(&self) -> &Objects
        ensures { objects_in result.now.entries ≡ self.now.objects }
    {
        &self.objects
    }

    /// The pool of the descriptors: a live id for each different one, with as many sharers as objects have it.
    pub fn pool(&self) -> &SdPool
        ensures { IsPoolOf self.now.objects result.now }
    {
        self.objects.pool()
    }

    /// How many different descriptors the objects have. It takes no memory.
    pub fn descriptors(&self) -> u32
        ensures { result ≡ descriptor_count self.now.objects }
    {
        self.objects.pool().live()
    }

    /// Whether two live objects have one descriptor. It takes no memory.
    pub fn same_descriptor(&self, a: u32, b: u32) -> bool
        requires a { is_live self.now.objects a ≡ true }
        requires b { is_live self.now.objects b ≡ true }
        ensures { IsTrue result ↔ (sd_at self.now.objects a ≡ sd_at self.now.objects b) }
    {
        self.objects.same_descriptor(a, b)
    }

    /// How many bytes the objects weigh together, by the rule of the limits: none where that isn't kept, as where it
    /// is too much.
    pub fn weight(&self) -> Option<usize>
        ensures { IfSome result (λ bytes. bytes ≡ weight self.now) }
    {
        self.weight
    }

    /// The pending list.
    pub fn queue(&self) -> &Queue
        ensures { result.now ≡ self.now.pending }
    {
        &self.queue
    }

    /// The counters, and the name above the root.
    pub fn meta(&self) -> &Meta
        ensures { meta_seen result.now ≡ self.now.meta }
    {
        &self.meta
    }

    /// The schema.
    pub fn schema(&self) -> &Schema
        ensures { result.now ≡ self.now.schema }
    {
        &self.schema
    }

    /// Makes one change.
    ///
    /// # Errors
    ///
    /// Out of memory. The directory stays as it was.
    pub fn apply(&mut self, edit: Edit) -> Result<(), AllocError>
        requires { MayApply self.old edit }
        ensures ok { OnOk result (self.new ≡ edited (edit_seen edit) self.old) }
        ensures err { OnErr result (self.new ≡ self.old) }
    {
        match edit {
            Edit::PutObject(object, bytes) => self.put_object(object, bytes),
            Edit::RemoveObject(number) => {
                let weight = weight_without(&self.schema, &self.objects, self.weight, number);
                linking::remove(
                    &mut self.objects,
                    &mut self.index,
                    &mut self.links,
                    self.indexed.as_slice(),
                    number,
                );
                self.weight = weight;
                Ok(())
            }
            Edit::PutQueue(entries) => {
                self.queue = Queue::of(entries);
                Ok(())
            }
            Edit::PutMeta(meta) => {
                self.meta = meta;
                Ok(())
            }
        }
    }

    /// Gives a live object this descriptor: the edit that puts the object with it. Nothing else of the object is
    /// looked at.
    ///
    /// # Errors
    ///
    /// Out of memory. The directory stays as it was.
    pub fn put_sd(&mut self, number: u32, sd: &NormalSd) -> Result<(), AllocError>
        requires live { is_live self.old.objects number ≡ true }
        requires may { MayPut self.old (with_sd sd.now (object_at self.old.objects number)) }
        ensures ok { OnOk result (self.new
            ≡ edited (put_object (with_sd sd.now (object_at self.old.objects number))) self.old) }
        ensures err { OnErr result (self.new ≡ self.old) }
    {
        self.objects.put_sd(number, sd.as_bytes())
    }

    fn put_object(&mut self, object: Object, bytes: Vec<u8>) -> Result<(), AllocError>
        requires { MayApply self.old (Edit.PutObject object bytes) }
        ensures ok { OnOk result (self.new ≡ edited (edit_seen (Edit.PutObject object bytes))
            self.old) }
        ensures err { OnErr result (self.new ≡ self.old) }
    {
        let weight = weight_with(&self.schema, &self.objects, self.weight, &object);
        let put = linking::put(
            &mut self.objects,
            &mut self.index,
            &mut self.links,
            self.indexed.as_slice(),
            &self.schema,
            object,
            bytes.as_slice(),
        );
        self.weight = if_put(&put, weight, self.weight);
        put
    }
}
