//! Writing the text of a name.

ghost use Rattle.std.specs.Prelude.{◌≡◌, ◌<◌, ◌++◌, ◌∷◌, ◌||◌, OnOk, IfOk, slice_index};
ghost use Rattle.std.specs.List.{flat_map};
ghost use Rattle.std.specs.Str.{IsUtf8};
ghost use Rattle.uuid.specs.Text.{hex_digit, upper};
ghost use Rattle.ad_dn.specs.Grammar.{SpellsDn, piece_text};
ghost use Rattle.ad_dn.specs.Text.{is_between, is_control, is_hidden_two, is_hidden_three, hidden_by, in_digits};
ghost use Rattle.ad_dn.specs.Text.{digits_of, piece_of, last_piece, piece_at, pieces_after, value_text, rdn_text};
ghost use Rattle.ad_dn.specs.Text.{others_text, rdns_text, dn_text};

use crate::rdn::{Dn, Rdn};
use crate::steps::is_reserved;
use std::alloc::{AllocError, Global};

// The byte at a place, and 0 where there is none.
fn at(bytes: &[u8], place: usize) -> u8
    ensures { result ≡ slice_index bytes.now place }
{
    match bytes.get(place) {
        Some(byte) => *byte,
        None => 0,
    }
}

fn is_control(byte: u8) -> bool
    ensures { result ≡ is_control byte }
{
    byte < 32 || byte == 127
}

fn is_hidden_two(first: u8, second: u8) -> bool
    ensures { result ≡ is_hidden_two first second }
{
    (first == 0xC2 && 0x80 <= second && second <= 0x9F) || (first == 0xD8 && second == 0x9C)
}

// Whether a third byte after E2 and 80 makes such a character.
fn is_hidden_last(third: u8) -> bool
    ensures { result ≡ (is_between 142 143 third || is_between 168 174 third) }
{
    (0x8E <= third && third <= 0x8F) || (0xA8 <= third && third <= 0xAE)
}

fn is_hidden_three(first: u8, second: u8, third: u8) -> bool
    ensures { result ≡ is_hidden_three first second third }
{
    (first == 0xE2 && second == 0x80 && is_hidden_last(third))
        || (first == 0xE2 && second == 0x81 && 0xA6 <= third && third <= 0xA9)
        || (first == 0xEF && second == 0xBB && third == 0xBF)
}

// The same of a byte that isn't of ASCII, and those after it.
fn hidden_after(byte: u8, later: &[u8]) -> usize
    ensures { result ≡ hidden_by byte (slice_index later.now 0) (slice_index later.now 1) }
{
    let second = at(later, 0);
    if is_control(byte) {
        1
    } else if is_hidden_two(byte, second) {
        2
    } else if is_hidden_three(byte, second, at(later, 1)) {
        3
    } else {
        0
    }
}

// How many bytes from this one on are written in digits, where so many were left of a character.
fn in_digits(due: usize, byte: u8, later: &[u8]) -> usize
    ensures { result ≡ in_digits due (byte ∷ later.now) }
{
    if due > 0 {
        due
    } else {
        hidden_after(byte, later)
    }
}

// The hexadecimal digit of a number below 16, in upper case.
fn upper_digit(number: u8) -> u8
    requires { number < 16 }
    ensures { result ≡ hex_digit upper number }
{
    if number < 10 {
        b'0' + number
    } else {
        b'A' + number - 10
    }
}

fn push_digits(text: &mut Vec<u8>, byte: u8) -> Result<(), AllocError>
    ensures { OnOk result (text.new.items ≡ text.old.items ++ piece_text (digits_of byte)) }
{
    text.extend_from_slice(&[b'\\', upper_digit(byte / 16), upper_digit(byte % 16)])
}

// A byte that is neither the first nor the last.
fn push_byte(text: &mut Vec<u8>, byte: u8) -> Result<(), AllocError>
    ensures { OnOk result (text.new.items ≡ text.old.items ++ piece_text (piece_of byte)) }
{
    if is_reserved(byte) {
        text.push(b'\\')?;
    }
    text.push(byte)?;
    Ok(())
}

fn push_last(text: &mut Vec<u8>, byte: u8) -> Result<(), AllocError>
    ensures { OnOk result (text.new.items ≡ text.old.items ++ piece_text (last_piece byte)) }
{
    if byte == b' ' {
        return text.extend_from_slice(b"\\ ");
    }
    push_byte(text, byte)
}

// A byte before these, in digits where so many bytes are to be.
fn push_at(text: &mut Vec<u8>, digits: usize, byte: u8, later: &[u8]) -> Result<(), AllocError>
    ensures { OnOk result (text.new.items ≡ text.old.items ++ piece_text (piece_at digits byte later.now)) }
{
    if digits > 0 {
        push_digits(text, byte)
    } else if later.is_empty() {
        push_last(text, byte)
    } else {
        push_byte(text, byte)
    }
}

fn push_bytes(text: &mut Vec<u8>, bytes: &[u8]) -> Result<(), AllocError>
    ensures { OnOk result (text.new.items ≡ text.old.items
        ++ flat_map piece_text (pieces_after 0 bytes.now)) }
{
    let mut due = 0;
    let mut rest = bytes;
    while let Some((byte, later)) = rest.split_first() {
        let digits = in_digits(due, *byte, later);
        push_at(text, digits, *byte, later)?;
        due = digits.saturating_sub(1);
        rest = later;
    }
    Ok(())
}

#[tactic(auto, unfolding(crate::specs::Text::value_text))]
fn push_value(text: &mut Vec<u8>, value: &[u8]) -> Result<(), AllocError>
    ensures { OnOk result (text.new.items ≡ text.old.items ++ value_text value.now) }
{
    match value {
        [] => Ok(()),
        [first, later @ ..] => {
            if *first == b' ' || *first == b'#' {
                text.extend_from_slice(&[b'\\', *first])?;
                push_bytes(text, later)
            } else {
                push_bytes(text, value)
            }
        }
    }
}

fn push_rdn(text: &mut Vec<u8>, rdn: &Rdn) -> Result<(), AllocError>
    ensures { OnOk result (text.new.items ≡ text.old.items ++ rdn_text rdn.now) }
{
    text.extend_from_slice(rdn.kind.as_slice())?;
    text.push(b'=')?;
    push_value(text, rdn.value.as_slice())
}

fn push_others(text: &mut Vec<u8>, rdns: &[Rdn]) -> Result<(), AllocError>
    ensures { OnOk result (text.new.items ≡ text.old.items ++ others_text rdns.now) }
{
    for rdn in rdns {
        text.push(b',')?;
        push_rdn(text, rdn)?;
    }
    Ok(())
}

#[tactic(auto, unfolding(crate::specs::Text::rdns_text))]
fn push_rdns(text: &mut Vec<u8>, rdns: &[Rdn]) -> Result<(), AllocError>
    ensures { OnOk result (text.new.items ≡ text.old.items ++ rdns_text rdns.now) }
{
    match rdns {
        [] => Ok(()),
        [first, others @ ..] => {
            push_rdn(text, first)?;
            push_others(text, others)
        }
    }
}

impl Dn {
    /// Its text (RFC 4514 2): the parts from the left, parted by commas, each its type in upper case, `=` and its
    /// value. In a value `\` stands before each of `"+,;<>\`, before a first blank, a first `#` and a last
    /// blank. Controls, separators of lines, marks of direction and the byte order mark are written a byte as `\`
    /// and two digits, as `\0A` and `\E2\80\AE`, so the text is one line. The name without parts has the empty text.
    pub fn text(&self, alloc: Global) -> Result<Vec<u8>, AllocError>
        ensures written { IfOk result (λ text. text.items ≡ dn_text self.now) }
        // It is one of the name's texts, so it reads back as the same name.
        ensures spelled { IfOk result (λ text. SpellsDn self.now text.items) }
        ensures utf8 { IfOk result (λ text. IsUtf8 text.items) }
    {
        let mut text = Vec::new(alloc);
        push_rdns(&mut text, self.rdns.as_slice())?;
        Ok(text)
    }
}
