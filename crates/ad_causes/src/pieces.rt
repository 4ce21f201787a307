//! Pieces of lines. Where memory runs out a part may have been put: the one call that makes the text then drops it.

ghost use Rattle.std.specs.Prelude.{◌≡◌, ◌++◌, true, IfOk, OnOk};
ghost use Rattle.ad_bytes.specs.Puts.{labelled};
ghost use Rattle.ad_dn.specs.Text.{dn_text};
ghost use Rattle.ad_dir_model.specs.Objects.{is_live};
ghost use Rattle.ad_causes.specs.Cause.{sign, divided, name_at};

use ad_dir::Dir;
use std::alloc::{AllocError, Global};

/// Bytes.
pub(crate) fn put(into: &mut Vec<u8>, piece: &[u8]) -> Result<(), AllocError>
    ensures { OnOk result (into.new.items ≡ into.old.items ++ piece.now) }
{
    into.extend_from_slice(piece)?;
    Ok(())
}

/// A line: a label, a text and a line end.
pub(crate) fn put_line(into: &mut Vec<u8>, label: &[u8], text: &[u8]) -> Result<(), AllocError>
    ensures { OnOk result (into.new.items ≡ into.old.items ++ labelled label.now text.now) }
{
    put(into, label)?;
    put(into, text)?;
    put(into, b"\n")
}

/// What is more, or what is less.
pub(crate) fn sign(more: bool) -> &'static [u8]
    ensures { result.now ≡ sign more }
{
    if more {
        return b"+ ";
    }
    b"- "
}

/// A line: a label, a sign, a text and a line end.
pub(crate) fn put_signed(
    into: &mut Vec<u8>,
    label: &[u8],
    more: bool,
    text: &[u8],
) -> Result<(), AllocError>
    ensures { OnOk result (into.new.items
        ≡ into.old.items ++ labelled label.now (sign more ++ text.now)) }
{
    put(into, label)?;
    put(into, sign(more))?;
    put(into, text)?;
    put(into, b"\n")
}

/// Two texts with a horizontal tab between them.
pub(crate) fn divided(alloc: Global, first: &[u8], second: &[u8]) -> Result<Vec<u8>, AllocError>
    ensures { IfOk result (λ both. both.items ≡ divided first.now second.now) }
{
    let mut both = Vec::new(alloc);
    put(&mut both, first)?;
    put(&mut both, b"\t")?;
    put(&mut both, second)?;
    Ok(both)
}

/// The text of the name of a live object.
pub(crate) fn name_of(alloc: Global, dir: &Dir, number: u32) -> Result<Vec<u8>, AllocError>
    requires { is_live dir.now.objects number ≡ true }
    ensures { IfOk result (λ text. text.items ≡ dn_text (name_at dir.now number)) }
{
    let dn = dir.dn(alloc, number)?;
    dn.text(alloc)
}
