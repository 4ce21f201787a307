//! An input that is read from the left: bytes, parts, and numbers of a fixed width.

ghost use Rattle.std.specs.Prelude.{◌≡◌, ◌+◌, List, ℕ, length, ◌==◌, OnOk, OnErr, IfOk, ◌<◌, ◌≤◌, ◌^◌};
ghost use Rattle.byteorder.specs.Endian.{big_number};
ghost use Rattle.ad_bytes.specs.Reading.{Reads};
ghost use Rattle.ad_bytes.specs.Numbers.{byte_at, be_at, le_at, part_at};

use byteorder::{BigEndian, ByteOrder, LittleEndian};
use std::marker::Model;
use thiserror::Error;

/// The input ends before the value that is read.
#[derive(Clone, Copy, Debug, PartialEq, Eq, Error)]
#[error("the bytes end before the value does")]
pub struct Short;

/// Bytes that are read from the left. A contract sees the bytes that are still to be read. A call that
/// answers [`Short`] leaves them as they were.
#[derive(Drop)]
pub struct Input<'a> {
    rest: &'a [u8],
}

impl<'a> Model for Input<'a> {
    ghost Value = { List ℕ };

    ghost view = { λ input. input.rest.now };
}

impl<'a> Input<'a> {
    /// An input of all these bytes.
    pub fn new(bytes: &'a [u8]) -> Self
        ensures { result ≡ bytes.now }
    {
        Input { rest: bytes }
    }

    /// The number of bytes that are left.
    pub fn len(&self) -> usize
        ensures { result ≡ length self.now }
    {
        self.rest.len()
    }

    /// Whether all bytes were read.
    pub fn is_empty(&self) -> bool
        ensures { result ≡ (length self.now == 0) }
    {
        self.rest.is_empty()
    }

    /// The bytes that are left, without reading them.
    pub fn rest(&self) -> &'a [u8]
        ensures { result.now ≡ self.now }
    {
        self.rest
    }

    /// The next byte.
    #[tactic(auto, unfolding(crate::specs::Numbers::byte_at))]
    pub fn byte(&mut self) -> Result<u8, Short>
        ensures read { Reads result self.new (byte_at self.old) }
        ensures left { OnOk result (length self.new + 1 ≡ length self.old) }
        ensures err { OnErr result (self.new ≡ self.old) }
    {
        let Some((first, rest)) = self.rest.split_first() else {
            return Err(Short);
        };
        self.rest = rest;
        Ok(*first)
    }

    /// The next `len` bytes, as an input of their own.
    #[tactic(auto, unfolding(crate::specs::Numbers::part_at))]
    pub fn part(&mut self, len: usize) -> Result<Input<'a>, Short>
        ensures read { Reads result self.new (part_at len self.old) }
        ensures left { OnOk result (length self.new + len ≡ length self.old) }
        ensures err { OnErr result (self.new ≡ self.old) }
    {
        if self.rest.len() < len {
            return Err(Short);
        }
        let (part, rest) = self.rest.split_at(len);
        self.rest = rest;
        Ok(Input { rest: part })
    }

    /// The next two bytes as a number, the most significant first.
    #[tactic(auto, unfolding(crate::specs::Numbers::be_at))]
    pub fn be16(&mut self) -> Result<u16, Short>
        ensures read { Reads result self.new (be_at 2 self.old) }
        ensures left { OnOk result (length self.new + 2 ≡ length self.old) }
        ensures err { OnErr result (self.new ≡ self.old) }
    {
        if self.rest.len() < 2 {
            return Err(Short);
        }
        let number = BigEndian::read_u16(self.rest);
        self.rest = &self.rest[2..];
        Ok(number)
    }

    /// The next four bytes as a number, the most significant first.
    #[tactic(auto, unfolding(crate::specs::Numbers::be_at))]
    pub fn be32(&mut self) -> Result<u32, Short>
        ensures read { Reads result self.new (be_at 4 self.old) }
        ensures left { OnOk result (length self.new + 4 ≡ length self.old) }
        ensures err { OnErr result (self.new ≡ self.old) }
    {
        if self.rest.len() < 4 {
            return Err(Short);
        }
        let number = BigEndian::read_u32(self.rest);
        self.rest = &self.rest[4..];
        Ok(number)
    }

    /// The next six bytes as a number below 2^48, the most significant first.
    #[tactic(auto, unfolding(crate::specs::Numbers::be_at))]
    pub fn be48(&mut self) -> Result<u64, Short>
        ensures read { Reads result self.new (be_at 6 self.old) }
        ensures below { IfOk result (λ number. number < 2 ^ 48) }
        ensures left { OnOk result (length self.new + 6 ≡ length self.old) }
        ensures err { OnErr result (self.new ≡ self.old) }
    {
        if self.rest.len() < 6 {
            return Err(Short);
        }
        let number = first_48(self.rest);
        self.rest = &self.rest[6..];
        Ok(number)
    }

    /// The next eight bytes as a number, the most significant first.
    #[tactic(auto, unfolding(crate::specs::Numbers::be_at))]
    pub fn be64(&mut self) -> Result<u64, Short>
        ensures read { Reads result self.new (be_at 8 self.old) }
        ensures left { OnOk result (length self.new + 8 ≡ length self.old) }
        ensures err { OnErr result (self.new ≡ self.old) }
    {
        if self.rest.len() < 8 {
            return Err(Short);
        }
        let number = BigEndian::read_u64(self.rest);
        self.rest = &self.rest[8..];
        Ok(number)
    }

    /// The next two bytes as a number, the least significant first.
    #[tactic(auto, unfolding(crate::specs::Numbers::le_at))]
    pub fn le16(&mut self) -> Result<u16, Short>
        ensures read { Reads result self.new (le_at 2 self.old) }
        ensures left { OnOk result (length self.new + 2 ≡ length self.old) }
        ensures err { OnErr result (self.new ≡ self.old) }
    {
        if self.rest.len() < 2 {
            return Err(Short);
        }
        let number = LittleEndian::read_u16(self.rest);
        self.rest = &self.rest[2..];
        Ok(number)
    }

    /// The next four bytes as a number, the least significant first.
    #[tactic(auto, unfolding(crate::specs::Numbers::le_at))]
    pub fn le32(&mut self) -> Result<u32, Short>
        ensures read { Reads result self.new (le_at 4 self.old) }
        ensures left { OnOk result (length self.new + 4 ≡ length self.old) }
        ensures err { OnErr result (self.new ≡ self.old) }
    {
        if self.rest.len() < 4 {
            return Err(Short);
        }
        let number = LittleEndian::read_u32(self.rest);
        self.rest = &self.rest[4..];
        Ok(number)
    }
}

// A model hides that its bytes are below 256, so the bound of six bytes is shown here.
fn first_48(bytes: &[u8]) -> u64
    requires { 6 ≤ length bytes.now }
    ensures value { result ≡ big_number 6 bytes.now }
    ensures below { result < 2 ^ 48 }
{
    BigEndian::read_u48(bytes)
}
