//! Pieces of text. Where memory runs out a part may have been put: the one call that makes the text then drops it.

ghost use Rattle.std.specs.Prelude.{OnOk, codes};
ghost use Rattle.ad_bytes.specs.Puts.{Puts, spaced};
ghost use Rattle.ad_dsacls.specs.Words.{labelled, or_dash};

use std::alloc::AllocError;

/// Puts bytes at the end.
pub(crate) fn put(out: &mut Vec<u8>, bytes: &[u8]) -> Result<(), AllocError>
    ensures { OnOk result (Puts out.old.items out.new.items bytes.now) }
{
    out.extend_from_slice(bytes)?;
    Ok(())
}

/// Puts bytes and a blank at the end.
pub(crate) fn put_spaced(out: &mut Vec<u8>, bytes: &[u8]) -> Result<(), AllocError>
    ensures { OnOk result (Puts out.old.items out.new.items (spaced bytes.now)) }
{
    put(out, bytes)?;
    put(out, b" ")
}

/// Puts a line of a label and a text at the end.
pub(crate) fn put_labelled(out: &mut Vec<u8>, label: &[u8], text: &[u8]) -> Result<(), AllocError>
    ensures { OnOk result (Puts out.old.items out.new.items (labelled label.now text.now)) }
{
    put(out, label)?;
    put(out, text)?;
    put(out, b"\n")
}

/// Puts a text, and `-` where it is empty, with a blank at the end.
pub(crate) fn put_or_dash(out: &mut Vec<u8>, text: &[u8]) -> Result<(), AllocError>
    ensures { OnOk result (Puts out.old.items out.new.items (spaced (or_dash text.now))) }
{
    match text {
        [] => put_spaced(out, b"-"),
        text => put_spaced(out, text),
    }
}
