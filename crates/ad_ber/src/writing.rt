//! Elements are put at the end of a vector, with the fewest bytes.

ghost use Rattle.std.specs.Prelude.{◌≡◌, ◌≤◌, ◌++◌, ℕ, length, OnOk, OnErr, take};
ghost use Rattle.ad_ber.specs.Writing.{width, length_bytes, header, element_bytes, number_bytes, number_element};

use std::alloc::AllocError;

// How many bytes a number needs.
#[tactic(auto, unfolding(crate::specs::Writing::width))]
fn width(number: u64) -> usize
    ensures width { result ≡ width number }
    ensures within { (1 ≤ result) × (result ≤ 8) }
{
    if number < 1 << 8 {
        1
    } else if number < 1 << 16 {
        2
    } else if number < 1 << 24 {
        3
    } else if number < 1 << 32 {
        4
    } else if number < 1 << 40 {
        5
    } else if number < 1 << 48 {
        6
    } else if number < 1 << 56 {
        7
    } else {
        8
    }
}

/// The number of bytes before a body of that many bytes: the tag and the shortest length.
#[tactic(auto, unfolding(crate::specs::Writing::header, crate::specs::Writing::length_bytes))]
pub fn header_len(len: usize) -> usize
    ensures len { (tag : ℕ) → result ≡ length (header tag len) }
    ensures within { (2 ≤ result) × (result ≤ 10) }
{
    let len = len as u64;
    if len < 128 {
        return 2;
    }
    2 + width(len)
}

// Puts a length at the end. At an error a part of it may have been put.
#[tactic(auto, unfolding(crate::specs::Writing::length_bytes))]
fn put_length(into: &mut Vec<u8>, len: usize) -> Result<(), AllocError>
    ensures ok { OnOk result (into.new.items ≡ into.old.items ++ length_bytes len) }
    ensures err { OnErr result (take (length into.old.items) into.new.items ≡ into.old.items) }
{
    let len = len as u64;
    if len < 128 {
        into.push(len as u8)?;
        return Ok(());
    }
    let width = width(len);
    into.push(128 + width as u8)?;
    let bytes = len.to_be_bytes();
    into.extend_from_slice(&bytes[8 - width..])?;
    Ok(())
}

/// Puts the tag and the shortest length of a body of that many bytes at the end. At want of memory a part of them
/// may have been put.
#[tactic(auto, unfolding(crate::specs::Writing::header))]
pub fn put_header(into: &mut Vec<u8>, tag: u8, len: usize) -> Result<(), AllocError>
    ensures ok { OnOk result (into.new.items ≡ into.old.items ++ header tag len) }
    ensures err { OnErr result (take (length into.old.items) into.new.items ≡ into.old.items) }
{
    into.push(tag)?;
    put_length(into, len)
}

// Puts an element at the end. At an error a part of it may have been put.
#[tactic(auto, unfolding(crate::specs::Writing::element_bytes))]
fn put_element(into: &mut Vec<u8>, tag: u8, body: &[u8]) -> Result<(), AllocError>
    ensures ok { OnOk result (into.new.items ≡ into.old.items ++ element_bytes tag body.now) }
    ensures err { OnErr result (take (length into.old.items) into.new.items ≡ into.old.items) }
{
    put_header(into, tag, body.len())?;
    into.extend_from_slice(body)?;
    Ok(())
}

/// Puts the element with this tag and body at the end, with the shortest length. Want of memory leaves the bytes as
/// they were.
pub fn put(into: &mut Vec<u8>, tag: u8, body: &[u8]) -> Result<(), AllocError>
    ensures ok { OnOk result (into.new.items ≡ into.old.items ++ element_bytes tag body.now) }
    ensures err { OnErr result (into.new.items ≡ into.old.items) }
{
    let len = into.len();
    match put_element(into, tag, body) {
        Ok(()) => Ok(()),
        Err(error) => {
            into.truncate(len);
            Err(error)
        }
    }
}

/// The number of bytes of the element that [`put_number`] puts.
pub fn number_len(number: u32) -> usize
    ensures len { (tag : ℕ) → result ≡ length (number_element tag number) }
    ensures within { result ≤ 7 }
{
    2 + width(2 * u64::from(number))
}

/// Puts the number at the end as an element with this tag: an integer (X.690 8.3) in as few bytes as it needs. At
/// want of memory a part of it may have been put.
#[tactic(auto, unfolding(crate::specs::Writing::number_element, crate::specs::Writing::number_bytes))]
pub fn put_number(into: &mut Vec<u8>, tag: u8, number: u32) -> Result<(), AllocError>
    ensures { OnOk result (into.new.items ≡ into.old.items ++ number_element tag number) }
{
    let number = u64::from(number);
    let bytes = number.to_be_bytes();
    put_element(into, tag, &bytes[8 - width(2 * number)..])
}
