//! Identifiers, GUIDs and descriptors as texts.

ghost use Rattle.std.specs.Prelude.{◌≡◌};
ghost use Rattle.ad_bytes.specs.Reading.{GivesUnless, fault_as};
ghost use Rattle.ad_ids.specs.SidFront.{sid_of_text};
ghost use Rattle.ad_ids.specs.GuidText.{guid_of_text};
ghost use Rattle.ad_sd.specs.Writing.{written};
ghost use Rattle.adsd_c.specs.declared.refusal.Refusal.TheVariants as refusal;
ghost use Rattle.adsd_c.specs.Refusal.{is_memory, of_list};
ghost use Rattle.adsd_c.specs.Reading.{given_or};
ghost use Rattle.adsd_c.specs.Delivery.{Delivers};
ghost use Rattle.adsd_c.specs.Texts.{sid_from_text, sid_to_text, guid_from_text, guid_to_text};
ghost use Rattle.adsd_c.specs.Texts.{sd_from_sddl, sd_to_sddl};

use crate::delivery::deliver;
use crate::reading::{parts, sid_if, whole_guid, whole_sid};
use crate::refusal::Refusal;
use ad_ids::{Guid, Sid};
use ad_sd::{SdParts, write_parts};
use ad_sddl::print_parts;
use std::alloc::Global;

// The identifier that the text encodes.
fn sid_of_text(text: &[u8]) -> Result<Sid, Refusal>
    ensures { result ≡ given_or refusal.Sid (sid_of_text text.now) }
{
    match Sid::from_text(text) {
        Ok(sid) => Ok(sid),
        Err(_) => Err(Refusal::Sid),
    }
}

#[tactic(auto, unfolding(crate::specs::Texts::sid_from_text))]
fn sid_from_text(alloc: Global, text: &[u8]) -> Result<Vec<u8>, Refusal>
    ensures { GivesUnless is_memory (λ v. v.items) result (sid_from_text text.now) }
{
    let sid = sid_of_text(text)?;
    let mut bytes = Vec::new(alloc);
    sid.append(&mut bytes)?;
    Ok(bytes)
}

#[tactic(auto, unfolding(crate::specs::Texts::sid_to_text))]
fn sid_to_text(alloc: Global, bytes: &[u8]) -> Result<Vec<u8>, Refusal>
    ensures { GivesUnless is_memory (λ v. v.items) result (sid_to_text bytes.now) }
{
    let sid = whole_sid(bytes, Refusal::Sid)?;
    let text = sid.text(alloc)?;
    Ok(text.into_bytes())
}

#[tactic(auto, unfolding(crate::specs::Texts::guid_from_text))]
fn guid_from_text(alloc: Global, text: &[u8]) -> Result<Vec<u8>, Refusal>
    ensures { GivesUnless is_memory (λ v. v.items) result (guid_from_text text.now) }
{
    let Some(guid) = Guid::from_text(text) else {
        return Err(Refusal::Guid);
    };
    Ok(Vec::from_slice(alloc, &guid.bytes)?)
}

#[tactic(auto, unfolding(crate::specs::Texts::guid_to_text))]
fn guid_to_text(alloc: Global, bytes: &[u8]) -> Result<Vec<u8>, Refusal>
    ensures { GivesUnless is_memory (λ v. v.items) result (guid_to_text bytes.now) }
{
    let guid = whole_guid(bytes)?;
    let text = guid.text(alloc)?;
    Ok(text.into_bytes())
}

// The self-relative descriptor of the parts.
fn written_parts(alloc: Global, parts: &SdParts) -> Result<Vec<u8>, Refusal>
    ensures { GivesUnless is_memory (λ v. v.items) result (fault_as of_list (written parts.now)) }
{
    Ok(write_parts(alloc, parts)?)
}

#[tactic(auto, unfolding(crate::specs::Texts::sd_from_sddl))]
fn sd_from_sddl(alloc: Global, domain: &[u8], text: &[u8]) -> Result<Vec<u8>, Refusal>
    ensures { GivesUnless is_memory (λ v. v.items) result (sd_from_sddl domain.now text.now) }
{
    let domain = sid_if(domain, Refusal::Domain)?;
    let parts = ad_sddl::read(alloc, text, domain.as_ref())?;
    written_parts(alloc, &parts)
}

#[tactic(auto, unfolding(crate::specs::Texts::sd_to_sddl))]
fn sd_to_sddl(alloc: Global, bytes: &[u8]) -> Result<Vec<u8>, Refusal>
    ensures { GivesUnless is_memory (λ v. v.items) result (sd_to_sddl bytes.now) }
{
    let parts = parts(alloc, bytes, Refusal::Sd)?;
    let text = print_parts(alloc, &parts)?;
    Ok(text.into_bytes())
}

/// The bytes of the identifier of a text ([MS-DTYP] 2.4.2), 8 to 68.
///
/// # Errors
///
/// `ADSD_SID` where the text is no identifier's.
#[unsafe(no_mangle)]
pub extern "C" fn adsd_sid_from_text(
    alloc: Global,
    text: &[u8],
    out: &mut [u8],
    size: &mut usize,
) -> u32
    ensures { Delivers (sid_from_text text.now) result out.old out.new size.new }
{
    deliver(sid_from_text(alloc, text), out, size)
}

/// The text of an identifier ([MS-DTYP] 2.4.2.1), which is given in all of the bytes. No zero stands after it.
///
/// # Errors
///
/// `ADSD_SID` where the bytes are no identifier.
#[unsafe(no_mangle)]
pub extern "C" fn adsd_sid_to_text(
    alloc: Global,
    sid: &[u8],
    out: &mut [u8],
    size: &mut usize,
) -> u32
    ensures { Delivers (sid_to_text sid.now) result out.old out.new size.new }
{
    deliver(sid_to_text(alloc, sid), out, size)
}

/// The 16 bytes of the GUID of a text of 36 characters ([MS-DTYP] 2.3.4), in packet order.
///
/// # Errors
///
/// `ADSD_GUID` where the text is no GUID's.
#[unsafe(no_mangle)]
pub extern "C" fn adsd_guid_from_text(
    alloc: Global,
    text: &[u8],
    out: &mut [u8],
    size: &mut usize,
) -> u32
    ensures { Delivers (guid_from_text text.now) result out.old out.new size.new }
{
    deliver(guid_from_text(alloc, text), out, size)
}

/// The text of a GUID ([MS-DTYP] 2.3.4.3 without the braces), 36 characters with lower-case digits.
///
/// # Errors
///
/// `ADSD_GUID` where the bytes aren't 16.
#[unsafe(no_mangle)]
pub extern "C" fn adsd_guid_to_text(
    alloc: Global,
    guid: &[u8],
    out: &mut [u8],
    size: &mut usize,
) -> u32
    ensures { Delivers (guid_to_text guid.now) result out.old out.new size.new }
{
    deliver(guid_to_text(alloc, guid), out, size)
}

/// The self-relative descriptor ([MS-DTYP] 2.4.6) of a text in SDDL ([MS-DTYP] 2.5.1). Any part may be absent. The
/// aliases of a domain's principals may stand where the domain's identifier is given; no bytes say that it isn't.
///
/// # Errors
///
/// `ADSD_DOMAIN` where the bytes of the domain are neither an identifier nor absent; then the codes from
/// `ADSD_SDDL_PART` to `ADSD_SDDL_SHAPE` where the text goes wrong, with the number of bytes before that place in
/// `size`; then `ADSD_TOO_LONG` where a list takes more than 65,535 bytes.
#[unsafe(no_mangle)]
pub extern "C" fn adsd_sd_from_sddl(
    alloc: Global,
    text: &[u8],
    domain: &[u8],
    out: &mut [u8],
    size: &mut usize,
) -> u32
    ensures { Delivers (sd_from_sddl domain.now text.now) result out.old out.new size.new }
{
    deliver(sd_from_sddl(alloc, domain, text), out, size)
}

/// The one canonical text in SDDL of the parts that a self-relative descriptor has. No zero stands after it.
///
/// # Errors
///
/// `ADSD_SD` where the bytes are no self-relative descriptor.
#[unsafe(no_mangle)]
pub extern "C" fn adsd_sd_to_sddl(alloc: Global, sd: &[u8], out: &mut [u8], size: &mut usize) -> u32
    ensures { Delivers (sd_to_sddl sd.now) result out.old out.new size.new }
{
    deliver(sd_to_sddl(alloc, sd), out, size)
}
