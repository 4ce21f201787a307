//! The pieces of lines in which objects and identifiers are told. Where memory runs out a part may have been put: the
//! one call that makes the text then drops it.

ghost use Rattle.std.specs.Prelude.{◌≡◌, ◌++◌, true, IfOk, OnOk};
ghost use Rattle.ad_bytes.specs.Puts.{spaced, ended, labelled};
ghost use Rattle.ad_ids.specs.SidText.{sid_text};
ghost use Rattle.ad_dir_model.specs.Objects.{is_live};
ghost use Rattle.ad_dir_model.specs.Names.{name_text};

use ad_dir::Dir;
use ad_ids::Sid;
use std::alloc::{AllocError, Global};

/// Puts bytes at the end.
///
/// # Errors
///
/// Out of memory.
pub fn put(into: &mut Vec<u8>, piece: &[u8]) -> Result<(), AllocError>
    ensures { OnOk result (into.new.items ≡ into.old.items ++ piece.now) }
{
    into.extend_from_slice(piece)?;
    Ok(())
}

/// Bytes and a blank.
///
/// # Errors
///
/// Out of memory.
pub fn put_spaced(into: &mut Vec<u8>, piece: &[u8]) -> Result<(), AllocError>
    ensures { OnOk result (into.new.items ≡ into.old.items ++ spaced piece.now) }
{
    put(into, piece)?;
    put(into, b" ")
}

/// Bytes and a line end.
///
/// # Errors
///
/// Out of memory.
pub fn put_ended(into: &mut Vec<u8>, piece: &[u8]) -> Result<(), AllocError>
    ensures { OnOk result (into.new.items ≡ into.old.items ++ ended piece.now) }
{
    put(into, piece)?;
    put(into, b"\n")
}

/// A label, bytes and a line end.
///
/// # Errors
///
/// Out of memory.
pub fn put_labelled(into: &mut Vec<u8>, label: &[u8], piece: &[u8]) -> Result<(), AllocError>
    ensures { OnOk result (into.new.items ≡ into.old.items ++ labelled label.now piece.now) }
{
    put(into, label)?;
    put_ended(into, piece)
}

/// An identifier's text and a blank.
///
/// # Errors
///
/// Out of memory.
pub fn put_sid(alloc: Global, into: &mut Vec<u8>, sid: &Sid) -> Result<(), AllocError>
    ensures { OnOk result (into.new.items ≡ into.old.items ++ spaced (sid_text sid.now)) }
{
    let text = sid.text(alloc)?;
    put_spaced(into, text.as_bytes())
}

// The text of the name of a live object.
fn name_of(alloc: Global, dir: &Dir, number: u32) -> Result<Vec<u8>, AllocError>
    requires { is_live dir.now.objects number ≡ true }
    ensures { IfOk result (λ text. text.items ≡ name_text dir.now number) }
{
    let dn = dir.dn(alloc, number)?;
    dn.text(alloc)
}

/// The name of a live object and a line end.
///
/// # Errors
///
/// Out of memory.
pub fn put_name(alloc: Global, into: &mut Vec<u8>, dir: &Dir, number: u32) -> Result<(), AllocError>
    requires { is_live dir.now.objects number ≡ true }
    ensures { OnOk result (into.new.items ≡ into.old.items ++ ended (name_text dir.now number)) }
{
    let text = name_of(alloc, dir, number)?;
    put_ended(into, text.as_slice())
}
