//! Objects of whose name the other directory has none.

ghost use Rattle.std.specs.Prelude.{◌≡◌, ◌++◌, true, All, OnOk};
ghost use Rattle.std.specs.List.{flat_map};
ghost use Rattle.ad_dir_model.specs.Objects.{is_live};
ghost use Rattle.ad_causes.specs.Cause.{causes_text};
ghost use Rattle.ad_causes.specs.Causes.{alone_causes, all_alone};
ghost use Rattle.ad_causes.specs.Steps.{alone_text};

use crate::pieces::{name_of, put_signed};
use ad_both::counterpart;
use ad_dir::Dir;
use std::alloc::{AllocError, Global};

fn put_alone(
    alloc: Global,
    into: &mut Vec<u8>,
    more: bool,
    dir: &Dir,
    other: &Dir,
    number: u32,
) -> Result<(), AllocError>
    requires { is_live dir.now.objects number ≡ true }
    ensures { OnOk result (into.new.items ≡ into.old.items
        ++ alone_text more dir.now other.now number) }
{
    if counterpart(alloc, dir, other, number)?.is_some() {
        return Ok(());
    }
    let name = name_of(alloc, dir, number)?;
    put_signed(into, b"object ", more, name.as_slice())
}

fn put_all_alone(
    alloc: Global,
    into: &mut Vec<u8>,
    more: bool,
    dir: &Dir,
    other: &Dir,
    numbers: &[u32],
) -> Result<(), AllocError>
    requires { All (λ number. is_live dir.now.objects number ≡ true) numbers.now }
    ensures { OnOk result (into.new.items ≡ into.old.items
        ++ flat_map (alone_text more dir.now other.now) numbers.now) }
{
    for number in numbers {
        put_alone(alloc, into, more, dir, other, *number)?;
    }
    Ok(())
}

/// The line of each object of a directory of whose name the other has none.
///
/// # Errors
///
/// Out of memory.
pub(crate) fn put_objects_alone(
    alloc: Global,
    into: &mut Vec<u8>,
    more: bool,
    dir: &Dir,
    other: &Dir,
) -> Result<(), AllocError>
    ensures { OnOk result (into.new.items ≡ into.old.items
        ++ causes_text (all_alone more dir.now other.now)) }
{
    let numbers = dir.numbers(alloc)?;
    put_all_alone(alloc, into, more, dir, other, numbers.as_slice())
}
