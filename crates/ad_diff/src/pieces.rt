//! Pieces of text. Where memory runs out a part may have been put: the one call that makes the text then drops it.

ghost use Rattle.std.specs.Prelude.{◌≡◌, ◌++◌, decimal, true, OnOk};
ghost use Rattle.ad_bytes.specs.Puts.{spaced, labelled};
ghost use Rattle.ad_dir_model.specs.Objects.{is_live};
ghost use Rattle.ad_dir_model.specs.Names.{name_text};
ghost use Rattle.ad_diff.specs.Text.{sid_of};

use ad_dir::Dir;
use ad_principals::{put, put_labelled, put_name, put_sid, put_spaced};
use std::alloc::{AllocError, Global};

/// A number and a blank.
pub(crate) fn put_number(into: &mut Vec<u8>, number: u32) -> Result<(), AllocError>
    ensures { OnOk result (into.new.items ≡ into.old.items ++ spaced (decimal number)) }
{
    put_spaced(into, itoa::Buffer::new().format(number).as_bytes())
}

/// A label, a number and a line end.
pub(crate) fn put_number_line(
    into: &mut Vec<u8>,
    label: &[u8],
    number: u32,
) -> Result<(), AllocError>
    ensures { OnOk result (into.new.items ≡ into.old.items ++ labelled label.now (decimal number)) }
{
    put_labelled(into, label, itoa::Buffer::new().format(number).as_bytes())
}

/// The identifier of an object, where it has one, and a blank.
pub(crate) fn put_sid_of(
    alloc: Global,
    into: &mut Vec<u8>,
    dir: &Dir,
    number: u32,
) -> Result<(), AllocError>
    ensures { OnOk result (into.new.items ≡ into.old.items ++ sid_of dir.now number) }
{
    match dir.self_sid(number) {
        Some(sid) => put_sid(alloc, into, sid),
        None => Ok(()),
    }
}

/// A label, and the name of a live object and a line end.
pub(crate) fn put_name_line(
    alloc: Global,
    into: &mut Vec<u8>,
    label: &[u8],
    dir: &Dir,
    number: u32,
) -> Result<(), AllocError>
    requires { is_live dir.now.objects number ≡ true }
    ensures { OnOk result (into.new.items ≡ into.old.items
        ++ labelled label.now (name_text dir.now number)) }
{
    put(into, label)?;
    put_name(alloc, into, dir, number)
}
