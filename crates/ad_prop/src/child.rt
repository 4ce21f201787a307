//! The descriptor that a child should have.

ghost use Rattle.std.specs.Prelude.{IfOk};
ghost use Rattle.ad_sd.specs.Normal.{SpellsNormal};
ghost use Rattle.ad_dir_model.specs.Objects.{object_at};
ghost use Rattle.ad_dir_model.specs.Inheritance.{whole_at};
ghost use Rattle.ad_prop.specs.Turn.{IsTurn};

use ad_dir::{Dir, guid_of, live_object, live_sd};
use ad_inherit::whole;
use ad_sd::normal;
use std::alloc::{AllocError, Global};

/// The normal bytes of the descriptor that the child whose turn it is should have.
pub(crate) fn whole_of(alloc: Global, dir: &Dir, child: u32) -> Result<Vec<u8>, AllocError>
    requires { IsTurn dir.now child }
    ensures { IfOk result (λ bytes.
        SpellsNormal (whole_at dir.now (object_at dir.now.objects child)) bytes.items) }
{
    let object = live_object(dir, child);
    let class = guid_of(dir.schema(), object.class);
    let sd = whole(
        alloc,
        live_sd(dir, object.parent),
        live_sd(dir, child),
        class,
    )?;
    normal(alloc, &sd)
}
