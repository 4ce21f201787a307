//! The names of what a token may change at an object.

ghost use Rattle.std.specs.Prelude.{◌≡◌, true, IfOk};
ghost use Rattle.ad_constructed.specs.Names.{all_items};
ghost use Rattle.ad_dir_model.specs.Objects.{is_live};
ghost use Rattle.ad_constructed_dir.specs.Changing.{changing_of};

use crate::object_rights::{ObjectRights, written_attrs};
use ad_constructed::{attributes, children};
use ad_dir::{Dir, class_of};
use ad_ids::Token;
use std::alloc::{AllocError, Global};

/// The names of the attributes that the token may write at an object, in the order of the schema. It takes one
/// sweep over the descriptor.
///
/// # Errors
///
/// Out of memory.
#[tactic(auto, unfolding(crate::specs::Changing::changing_of))]
pub fn attributes_written(
    alloc: Global,
    dir: &Dir,
    token: &Token,
    number: u32,
) -> Result<Vec<Vec<u8>>, AllocError>
    requires { is_live dir.now.objects number ≡ true }
    ensures { IfOk result (λ names. all_items names.items
        ≡ (changing_of dir.now token.now number).attributes) }
{
    let class = class_of(dir, number);
    let written = written_attrs(alloc, dir, token, number, class)?;
    let rights = ObjectRights {
        dir,
        token,
        number,
        written: written.as_slice(),
    };
    attributes(alloc, dir.schema(), class, &rights)
}

/// The names of the classes of which the token may create objects below this one, in the order of the schema.
///
/// # Errors
///
/// Out of memory.
#[tactic(auto, unfolding(crate::specs::Changing::changing_of))]
pub fn children_created(
    alloc: Global,
    dir: &Dir,
    token: &Token,
    number: u32,
) -> Result<Vec<Vec<u8>>, AllocError>
    requires { is_live dir.now.objects number ≡ true }
    ensures { IfOk result (λ names. all_items names.items
        ≡ (changing_of dir.now token.now number).children) }
{
    let rights = ObjectRights {
        dir,
        token,
        number,
        written: &[],
    };
    children(alloc, dir.schema(), class_of(dir, number), &rights)
}
