//! Reading a part of a name at once whose value is encoded by its own bytes, as most are.

ghost use Rattle.std.specs.Prelude.{◌≡◌, ◌≤◌, ◌<◌, true, length, take, IfOk, IfSome, IsTrue, slice_index};
ghost use Rattle.std.specs.List.{list_all};
ghost use Rattle.ad_dn.specs.Parts.{is_ordinary, HasOrdinaryEnds, BeginsOrdinary, begins_part, IsReady, Passes};
ghost use Rattle.ad_dn.specs.Parts.{Advances};

use crate::attribute_type::{is_type, is_type_byte};
use crate::steps::{State, is_reserved};
use crate::utf8_state::MAX_VALUE_BYTES;
use std::alloc::{AllocError, Global};

// A type and a value in a text, and whether a comma follows.
#[derive(Clone, Copy)]
struct Part<'a> {
    kind: &'a [u8],
    value: &'a [u8],
    comma: bool,
}

// A byte of ASCII that stands by itself within a value.
fn is_ordinary(byte: u8) -> bool
    ensures { result ≡ is_ordinary byte }
{
    byte < 128 && byte != 0 && !is_reserved(byte)
}

fn ordinary_len(text: &[u8]) -> usize
    ensures within { result ≤ length text.now }
    ensures ordinary { list_all is_ordinary (take result text.now) ≡ true }
{
    for (place, byte) in text.iter().enumerate() {
        if !is_ordinary(*byte) {
            return place;
        }
    }
    text.len()
}

// How many bytes of a type the text begins with.
fn kind_len(text: &[u8]) -> usize
    ensures { result ≤ length text.now }
{
    for (place, byte) in text.iter().enumerate() {
        if !is_type_byte(*byte) {
            return place;
        }
    }
    text.len()
}

// Whether a value of such bytes may stand by itself: at its ends some bytes may not.
fn has_ordinary_ends(value: &[u8]) -> bool
    ensures { IsTrue result → HasOrdinaryEnds value.now }
{
    if value.is_empty() || value.len() > MAX_VALUE_BYTES {
        return false;
    }
    let first = value[0];
    let last = value[value.len() - 1];
    first != b' ' && first != b'#' && last != b' '
}

fn begins_with_comma(text: &[u8]) -> bool
    ensures { IsTrue result → slice_index text.now 0 ≡ 44 }
{
    !text.is_empty() && text[0] == b','
}

// The part that the text begins with, if its value is encoded by its own bytes.
fn ordinary_part(text: &[u8]) -> Option<Part<'_>>
    ensures { IfSome result (λ part. BeginsOrdinary part.kind.now part.value.now part.comma
        text.now) }
{
    let (kind, rest) = text.split_at(kind_len(text));
    let (equals, rest) = rest.split_first()?;
    if *equals != b'=' || !is_type(kind) {
        return None;
    }
    let (value, rest) = rest.split_at(ordinary_len(rest));
    if !has_ordinary_ends(value) {
        return None;
    }
    let comma = begins_with_comma(rest);
    Some(Part { kind, value, comma })
}

impl State {
    // Reads such a part where one may begin, with the comma after it, and answers how many bytes these are, or 0
    // where none does.
    fn part(&mut self, alloc: Global, text: &[u8]) -> Result<usize, AllocError>
        requires { IsReady self.old }
        ensures { IfOk result (λ n. Passes n self.old text.now self.new) }
    {
        if !self.begins_part() {
            return Ok(0);
        }
        let Some(part) = ordinary_part(text) else {
            return Ok(0);
        };
        if part.comma {
            self.put(alloc, part.kind, part.value)?;
            return Ok(part.kind.len() + 1 + part.value.len() + 1);
        }
        self.take(alloc, part.kind, part.value)?;
        Ok(part.kind.len() + 1 + part.value.len())
    }

    // Reads on: such a part at once, and otherwise a byte. It answers how many bytes were read, 0 where the first
    // one may not stand there.
    pub fn advance(&mut self, alloc: Global, text: &[u8]) -> Result<usize, AllocError>
        requires ready { IsReady self.old }
        requires some { 0 < length text.now }
        ensures { IfOk result (λ n. Advances n self.old text.now self.new) }
    {
        let passed = self.part(alloc, text)?;
        if passed != 0 {
            return Ok(passed);
        }
        if self.step(alloc, text[0])? {
            Ok(1)
        } else {
            Ok(0)
        }
    }
}
