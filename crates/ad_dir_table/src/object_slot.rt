//! An object behind a pointer, so that a node of the map is small.

ghost use Rattle.std.specs.Prelude.{◌≡◌, IfOk};
ghost use Rattle.ad_dir_table.specs.Fields.{with_id};

use crate::stored_object::StoredObject;
use sd_pool::SdId;
use std::alloc::{AllocError, Global};
use std::boxed::Box;
use std::marker::Model;

/// What is kept of an object, in memory of its own. A contract sees what is kept.
#[derive(Drop)]
pub(crate) struct ObjectSlot {
    kept: Box<StoredObject>,
}

impl Model for ObjectSlot {
    ghost use Rattle.ad_dir_table.specs.declared.stored_object.StoredObject.{StoredObject};

    ghost Value = { StoredObject };

    ghost view = { λ shelf. shelf.kept.value };
}

impl ObjectSlot {
    pub fn of(alloc: Global, kept: StoredObject) -> Result<ObjectSlot, AllocError>
        ensures { IfOk result (λ shelf. shelf ≡ kept) }
    {
        Ok(ObjectSlot {
            kept: Box::new(alloc, kept)?,
        })
    }

    pub fn kept(&self) -> &StoredObject
        ensures { result.now ≡ self.now }
    {
        &self.kept
    }

    /// Another id of the descriptor. Answers the one before.
    pub fn set_id(&mut self, id: SdId) -> SdId
        ensures new { self.new ≡ with_id id self.old }
        ensures was { result ≡ self.old.id }
    {
        let was = self.kept.id;
        self.kept.id = id;
        was
    }
}
