//! An element is found at a place, or taken from an input: its tag, its length, its body.

ghost use Rattle.std.specs.Prelude.{◌≡◌, ◌+◌, ◌≤◌, ◌<◌, ◌^◌, ◌++◌, List, ℕ, length, drop, IfOk, OnOk, MatchOption};
ghost use Rattle.std.specs.Result.{IsOkAnd};
ghost use Rattle.byteorder.specs.Endian.{big_number};
ghost use Rattle.ad_bytes.specs.Reading.{Reads, TakesFront};
ghost use Rattle.ad_ber.specs.Element.{SpellsElement};
ghost use Rattle.ad_ber.specs.Reading.{tag_at, long_at, length_behind, length_at, element_at, element_of, FaultOf};
ghost use Rattle.ad_ber.specs.declared.finding.Tagged.{Tagged as ElementValue};

use crate::fault::BerFault;
use ad_bytes::Input;
use byteorder::{BigEndian, ByteOrder};

/// An element: its tag, with class and form in the high three bits, and its body.
#[derive(Drop)]
pub struct Tagged<'a> {
    pub tag: u8,
    pub body: Input<'a>,
}

/// An element that was found at a place: its tag, its body, and the place after it.
#[derive(Clone, Copy, Debug)]
pub struct Tlv<'a> {
    pub tag: u8,
    pub body: &'a [u8],
    pub next: usize,
}

#[tactic(auto, unfolding(crate::specs::Reading::tag_at))]
fn tag(input: &mut Input<'_>) -> Result<u8, BerFault>
    ensures read { Reads result input.new (tag_at input.old) }
    ensures left { OnOk result (length input.new < length input.old) }
{
    let tag = input.byte()?;
    if tag % 32 >= 31 {
        return Err(BerFault::Tag);
    }
    Ok(tag)
}

// The number in the bytes, the most significant first, where it is below 2^32.
fn small_number(digits: &[u8]) -> Option<u32>
    ensures { MatchOption result (2 ^ 32 ≤ big_number (length digits.now) digits.now)
        (λ n. n ≡ big_number (length digits.now) digits.now) }
{
    let mut number: u64 = 0;
    for digit in digits {
        number = number * 256 + u64::from(*digit);
        if number > u64::from(u32::MAX) {
            return None;
        }
    }
    Some(number as u32)
}

fn long(input: &mut Input<'_>, count: u8) -> Result<u32, BerFault>
    ensures read { Reads result input.new (long_at count input.old) }
    ensures left { OnOk result (length input.new ≤ length input.old) }
{
    let digits = input.part(usize::from(count))?;
    match small_number(digits.rest()) {
        Some(number) => Ok(number),
        None => Err(BerFault::Long),
    }
}

// What follows the first byte of a length.
#[tactic(auto, unfolding(crate::specs::Reading::length_behind))]
fn length_behind(input: &mut Input<'_>, first: u8) -> Result<u32, BerFault>
    ensures read { Reads result input.new (length_behind first input.old) }
    ensures left { OnOk result (length input.new ≤ length input.old) }
{
    if first == 128 {
        return Err(BerFault::Indefinite);
    }
    if first < 128 {
        return Ok(u32::from(first));
    }
    long(input, first - 128)
}

#[tactic(auto, unfolding(crate::specs::Reading::length_at))]
fn length(input: &mut Input<'_>) -> Result<u32, BerFault>
    ensures read { Reads result input.new (length_at input.old) }
    ensures left { OnOk result (length input.new < length input.old) }
{
    let first = input.byte()?;
    length_behind(input, first)
}

impl<'a> Tagged<'a> {
    /// Reads the element at the start of the input: a tag of one byte, a length of a definite form, and as many
    /// bytes. The length may have more bytes than it needs. After a fault the input stands somewhere within the
    /// element.
    ///
    /// # Errors
    ///
    /// As for [`element`].
    #[tactic(auto, unfolding(crate::specs::Reading::element_at))]
    pub fn read(input: &mut Input<'a>) -> Result<Tagged<'a>, BerFault>
        ensures read { Reads result input.new (element_at input.old) }
        ensures left { OnOk result (length input.new < length input.old) }
    {
        let tag = tag(input)?;
        let len = length(input)?;
        let body = input.part(len as usize)?;
        Ok(Tagged { tag, body })
    }
}

/// The element that begins at a place in the bytes (X.690 8.1, RFC 4511 5.1). Any bytes may stand after it. It takes
/// no memory.
///
/// The tag is one byte. The length is a byte below 128, or a byte 128 + k, for k from 1 to 127, and k bytes, the most
/// significant first; it may have more bytes than it needs.
///
/// # Errors
///
/// The fault that stands first: `Short` where the bytes end before the tag, the length or the body does, also where
/// the place is at their end or past it; `Tag` where the number of the tag is above 30, so that it would take
/// further bytes; `Indefinite` where the first byte of the length is 128; and `Long` where the length is above 2^32
/// - 1.
pub fn element(bytes: &[u8], at: usize) -> Result<Tlv<'_>, BerFault>
    // What is found is encoded so, from the place up to the next one.
    ensures found { IfOk result (λ t. TakesFront SpellsElement (drop at bytes.now) (element_of t)
        (drop t.next bytes.now)) }
    ensures next { IfOk result (λ t. (at < t.next) × (t.next ≤ length bytes.now)) }
    // Whatever is encoded so is found, whatever follows.
    ensures only { (e : ElementValue) (text rest : List ℕ) → SpellsElement e text
        → drop at bytes.now ≡ text ++ rest
        → IsOkAnd result (λ t. (element_of t ≡ e) × (t.next ≡ at + length text)) }
    // Which fault it is.
    ensures fault { FaultOf result (element_at (drop at bytes.now)) }
{
    if at > bytes.len() {
        return Err(BerFault::Short);
    }
    let mut input = Input::new(&bytes[at..]);
    let Tagged { tag, body } = Tagged::read(&mut input)?;
    Ok(Tlv {
        tag,
        body: body.rest(),
        next: bytes.len() - input.len(),
    })
}
