//! Values as they are kept: the bytes that are shown and what they are compared by in one list.

ghost use Rattle.std.specs.Prelude.{◌≡◌, ◌↔◌, length, take, drop, IsTrue, IfOk};
ghost use Rattle.std.specs.Option.{option_copied};
ghost use Rattle.std.specs.Fmt.{signed_decimal};
ghost use Rattle.ad_value.specs.Value.{value, as_shown, same_key, key_order, number_in, bytes_in};
ghost use Rattle.ad_value.specs.Held.{key_text, key_by, key_seen};
ghost use Rattle.ad_value.specs.declared.value.Key.TheVariants as key;

use crate::held::KeyIn;
use crate::number::number;
use ad_bytes::Bytes;
use std::alloc::{AllocError, Global};
use std::cmp::Ordering;
use std::marker::Model;

/// What a value is compared by: values of one syntax are equal exactly where their keys are.
#[derive(Debug, Drop)]
pub enum Key {
    /// Bytes: of a text after case folding, of all others as they are.
    Bytes(Bytes),
    /// A number.
    Number(i64),
}

/// A value of an attribute, in the normal form of the attribute's syntax. A contract sees the bytes that a reader
/// of the directory is shown, `shown`, and what the value is compared by, `key`. A value whose key is the bytes
/// that it shows, or a number, has these alone.
#[derive(Debug, Drop)]
pub struct Value {
    // The bytes that are shown, and after them the text of the key where that is another.
    bytes: Bytes,
    // How many of the bytes are shown.
    end: u32,
    // Whether the text of the key stands after those that are shown.
    behind: bool,
    // Whether the key is the number that its text is written for.
    number: bool,
}

impl Model for Value {
    ghost use Rattle.ad_value.specs.Value.{Value as Seen};
    ghost use Rattle.ad_value.specs.Held.{held_value};

    ghost Value = { Seen };

    ghost view = { λ v. held_value v.bytes v.end v.behind v.number };
}

fn first_of(bytes: &[u8], n: usize) -> &[u8]
    ensures { result.now ≡ take n bytes.now }
{
    if n < bytes.len() { &bytes[..n] } else { bytes }
}

fn behind(bytes: &[u8], n: usize) -> &[u8]
    ensures { result.now ≡ drop n bytes.now }
{
    if n < bytes.len() { &bytes[n..] } else { &[] }
}

// The text of the key.
fn key_text(bytes: &[u8], end: u32, is_behind: bool) -> &[u8]
    ensures { result.now ≡ key_text is_behind end bytes.now }
{
    if is_behind {
        return behind(bytes, end as usize);
    }
    first_of(bytes, end as usize)
}

// The key that has this text.
fn key_of(text: &[u8], is_number: bool) -> KeyIn<'_>
    ensures { key_seen result ≡ key_by is_number text.now }
{
    if !is_number {
        return KeyIn::Bytes(text);
    }
    match number(text) {
        Some(number) => KeyIn::Number(number),
        None => KeyIn::Bytes(text),
    }
}

// The length of what is shown, which is counted in 32 bits: no value that is read is that long.
fn end_of(shown: &[u8]) -> Result<u32, AllocError>
    ensures { IfOk result (λ end. end ≡ length shown.now) }
{
    match u32::try_from(shown.len()) {
        Ok(end) => Ok(end),
        Err(_) => Err(AllocError),
    }
}

impl Value {
    /// The value that shows these bytes and is compared by them.
    pub fn as_shown(alloc: Global, bytes: &[u8]) -> Result<Value, AllocError>
        ensures { IfOk result (λ v. v ≡ as_shown bytes.now) }
    {
        Ok(Value {
            bytes: Bytes::from_slice(alloc, bytes)?,
            end: end_of(bytes)?,
            behind: false,
            number: false,
        })
    }

    /// The value that shows these bytes and is compared by others.
    pub(crate) fn with_key(
        alloc: Global,
        shown: &[u8],
        compared: &[u8],
    ) -> Result<Value, AllocError>
        ensures { IfOk result (λ v. v ≡ value shown.now (key.Bytes compared.now)) }
    {
        if shown == compared {
            return Value::as_shown(alloc, shown);
        }
        Ok(Value {
            bytes: Bytes::from_both(alloc, shown, compared)?,
            end: end_of(shown)?,
            behind: true,
            number: false,
        })
    }

    /// The value that shows a number as it is written, and is compared by it.
    pub(crate) fn of_number(alloc: Global, shown: &[u8], number: i64) -> Result<Value, AllocError>
        requires { shown.now ≡ signed_decimal number }
        ensures { IfOk result (λ v. v ≡ value shown.now (key.Number number)) }
    {
        Ok(Value {
            bytes: Bytes::from_slice(alloc, shown)?,
            end: end_of(shown)?,
            behind: false,
            number: true,
        })
    }

    /// The value that shows these bytes and has this one's key.
    pub fn with_shown(&self, alloc: Global, shown: &[u8]) -> Result<Value, AllocError>
        ensures { IfOk result (λ v. v ≡ value shown.now self.now.key) }
    {
        let text = key_text(self.bytes.as_slice(), self.end, self.behind);
        Ok(Value {
            bytes: Bytes::from_both(alloc, shown, text)?,
            end: end_of(shown)?,
            behind: true,
            number: self.number,
        })
    }

    /// An equal value in memory of its own.
    pub fn copy(&self, alloc: Global) -> Result<Value, AllocError>
        ensures { IfOk result (λ copy. copy ≡ self.now) }
    {
        Ok(Value {
            bytes: self.bytes.copy(alloc)?,
            end: self.end,
            behind: self.behind,
            number: self.number,
        })
    }

    /// The bytes that a reader of the directory is shown.
    pub fn shown(&self) -> &[u8]
        ensures { result.now ≡ self.now.shown }
    {
        first_of(self.bytes.as_slice(), self.end as usize)
    }

    /// The same, in the memory that they have.
    pub fn into_shown(self) -> Bytes
        ensures { result ≡ self.shown }
    {
        let mut bytes = self.bytes;
        bytes.truncate(self.end as usize);
        bytes
    }

    fn key_in(&self) -> KeyIn<'_>
        ensures { key_seen result ≡ self.now.key }
    {
        let text = key_text(self.bytes.as_slice(), self.end, self.behind);
        key_of(text, self.number)
    }

    /// What the value is compared by, in memory of its own.
    pub fn key(&self, alloc: Global) -> Result<Key, AllocError>
        ensures { IfOk result (λ key. key ≡ self.now.key) }
    {
        match self.key_in() {
            KeyIn::Bytes(bytes) => Ok(Key::Bytes(Bytes::from_slice(alloc, bytes)?)),
            KeyIn::Number(number) => Ok(Key::Number(number)),
        }
    }

    /// The number that the value is compared by; None where it is compared by bytes.
    pub fn number(&self) -> Option<i64>
        ensures { result ≡ number_in self.now.key }
    {
        match self.key_in() {
            KeyIn::Bytes(_) => None,
            KeyIn::Number(number) => Some(number),
        }
    }

    /// The bytes that the value is compared by; None where it is compared by a number.
    pub(crate) fn key_bytes(&self) -> Option<&[u8]>
        ensures { option_copied result ≡ bytes_in self.now.key }
    {
        match self.key_in() {
            KeyIn::Bytes(bytes) => Some(bytes),
            KeyIn::Number(_) => None,
        }
    }
}

fn same_key(a: &KeyIn<'_>, b: &KeyIn<'_>) -> bool
    ensures { result ≡ same_key (key_seen a.now) (key_seen b.now) }
{
    match (a, b) {
        (KeyIn::Bytes(a), KeyIn::Bytes(b)) => *a == *b,
        (KeyIn::Number(a), KeyIn::Number(b)) => *a == *b,
        _ => false,
    }
}

/// Whether two values of one syntax are equal: whether their keys are. It takes no memory.
pub fn equal(a: &Value, b: &Value) -> bool
    ensures by_key { result ≡ same_key a.now.key b.now.key }
    ensures same { IsTrue result ↔ (a.now.key ≡ b.now.key) }
{
    same_key(&a.key_in(), &b.key_in())
}

fn key_order(a: &KeyIn<'_>, b: &KeyIn<'_>) -> Ordering
    ensures { result ≡ key_order (key_seen a.now) (key_seen b.now) }
{
    match (a, b) {
        (KeyIn::Bytes(a), KeyIn::Bytes(b)) => a.cmp(b),
        (KeyIn::Number(a), KeyIn::Number(b)) => a.cmp(b),
        (KeyIn::Number(_), KeyIn::Bytes(_)) => Ordering::Less,
        (KeyIn::Bytes(_), KeyIn::Number(_)) => Ordering::Greater,
    }
}

/// The order of two values by their keys: numbers by their size, and bytes from the first on that
/// differs, where the end stands before every byte. A number stands before all bytes. It takes no memory.
///
/// Whether the values of a syntax have an order to be asked for is told by
/// [`Syntax::has_order`](crate::Syntax::has_order).
pub fn least_first(a: &Value, b: &Value) -> Ordering
    ensures { result ≡ key_order a.now.key b.now.key }
{
    key_order(&a.key_in(), &b.key_in())
}
