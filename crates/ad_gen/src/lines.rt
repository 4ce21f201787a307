//! Lines of LDIF (RFC 2849). Where memory runs out a part may have been put: the one call that makes the text then
//! drops it.

ghost use Rattle.std.specs.Prelude.{OnOk};
ghost use Rattle.std.specs.String.{string_bytes};
ghost use Rattle.base64.specs.Engines.{standard};
ghost use Rattle.base64.specs.GeneralPurpose.{encode_of};
ghost use Rattle.ad_bytes.specs.Puts.{Puts};
ghost use Rattle.ad_gen.specs.Lines.{line, encoded_line};

use base64::engine::general_purpose::STANDARD;
use std::alloc::AllocError;

/// Puts a text at the end.
pub(crate) fn push_text(out: &mut String, text: &str) -> Result<(), AllocError>
    ensures { OnOk result (Puts (string_bytes out.old) (string_bytes out.new) text.now) }
{
    out.push_str(text)?;
    Ok(())
}

/// Puts a line of a name and a text at the end.
#[tactic(auto, unfolding(crate::specs::Lines::line))]
pub(crate) fn push_line(out: &mut String, name: &str, value: &str) -> Result<(), AllocError>
    ensures { OnOk result (Puts (string_bytes out.old) (string_bytes out.new)
        (line name.now value.now)) }
{
    push_text(out, name)?;
    push_text(out, ": ")?;
    push_text(out, value)?;
    push_text(out, "\n")?;
    Ok(())
}

// Puts bytes in base64 at the end.
fn push_base64(out: &mut String, bytes: &[u8]) -> Result<(), AllocError>
    ensures { OnOk result (Puts (string_bytes out.old) (string_bytes out.new)
        (encode_of standard bytes.now)) }
{
    STANDARD.encode_string(bytes, out)?;
    Ok(())
}

/// Puts a line of a name and bytes, in base64, at the end.
#[tactic(auto, unfolding(crate::specs::Lines::encoded_line))]
pub(crate) fn push_encoded(out: &mut String, name: &str, bytes: &[u8]) -> Result<(), AllocError>
    ensures { OnOk result (Puts (string_bytes out.old) (string_bytes out.new)
        (encoded_line name.now bytes.now)) }
{
    push_text(out, name)?;
    push_text(out, ":: ")?;
    push_base64(out, bytes)?;
    push_text(out, "\n")?;
    Ok(())
}
