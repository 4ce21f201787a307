//! The text of a security identifier is made.

ghost use Rattle.std.specs.Prelude.{◌≡◌, ◌++◌, OnOk, IfOk};
ghost use Rattle.std.specs.String.{string_bytes};
ghost use Rattle.ad_ids.specs.SidText.{hex_digits, authority_text, others_text, sid_text};

use super::Sid;
use ad_bytes::hex_char;
use itoa::Buffer;
use std::alloc::{AllocError, Global};

// Appends the last hexadecimal digits of the number.
#[tactic(auto, unfolding(crate::specs::SidText::hex_digits))]
fn push_hex(text: &mut String, count: u8, number: u64) -> Result<(), AllocError>
    ensures { OnOk result (string_bytes text.new ≡ string_bytes text.old ++ hex_digits count number) }
{
    if count == 0 {
        return Ok(());
    }
    push_hex(text, count - 1, number / 16)?;
    text.push(hex_char((number % 16) as u8))
}

fn push_authority(text: &mut String, authority: u64) -> Result<(), AllocError>
    ensures { OnOk result (string_bytes text.new ≡ string_bytes text.old ++ authority_text authority) }
{
    if authority < 1 << 32 {
        return text.push_str(Buffer::new().format(authority));
    }
    text.push_str("0x")?;
    push_hex(text, 12, authority)
}

fn push_others(text: &mut String, others: &[u32]) -> Result<(), AllocError>
    ensures { OnOk result (string_bytes text.new ≡ string_bytes text.old ++ others_text others.now) }
{
    for other in others {
        text.push_str("-")?;
        text.push_str(Buffer::new().format(*other))?;
    }
    Ok(())
}

impl Sid {
    /// Its text ([MS-DTYP] 2.4.2.1): `S-1-`, the authority in decimal below 2^32, else as `0x` and 12
    /// lower-case hexadecimal digits, and then a hyphen and the number in decimal for each sub-authority.
    pub fn text(&self, alloc: Global) -> Result<String, AllocError>
        ensures { IfOk result (λ text. string_bytes text ≡ sid_text self.now) }
    {
        let mut text = String::from_str(alloc, "S-1-")?;
        push_authority(&mut text, self.authority)?;
        push_others(&mut text, self.sub_authorities())?;
        Ok(text)
    }
}
