//! A list of bytes: few stand in the list itself, more in memory of their own.

ghost use Rattle.std.specs.Prelude.{◌≡◌, ◌++◌, ◌==◌, ◌≤◌, ◌<◌, [], ◌∷◌, length, take, map, OnOk, OnErr, IfOk};
ghost use Rattle.std.specs.Char.{to_ascii_lowercase};
ghost use Rattle.ad_bytes.specs.Lists.{held_bytes};

use crate::inline::{Inline, MOST};
use std::alloc::{AllocError, Global};
use std::marker::Model;

// What a vector begins with as the bytes grow beyond that.
const NEXT: usize = 64;

#[derive(Debug, Drop)]
enum Held {
    Inline(Inline),
    Spilled(Vec<u8>),
}

/// A list of bytes of its own, which a contract sees as one: a text or a value that lies in a struct or a `Vec`. Up
/// to 30 bytes stand in the list itself, more in memory of their own.
#[derive(Debug)]
pub struct Bytes {
    alloc: Global,
    held: Held,
}

// Written out, so that what lies above drops a list in one step, wherever its bytes stand.
impl Drop for Bytes {
    fn drop(self) {
        let Bytes { alloc: _, held } = self;
        drop(held);
    }
}

impl Model for Bytes {
    ghost use Rattle.std.specs.Prelude.{ℕ, List};
    ghost use Rattle.ad_bytes.specs.Lists.{held_bytes};

    ghost Value = { List ℕ };

    ghost view = { λ bytes. held_bytes bytes.held };
}

impl PartialEq for Bytes {
    ghost use Rattle.std.specs.Cmp.{partial_equiv_from_equiv};
    ghost use Rattle.std.specs.Cmp.Lexicographic.{nat_list_eq_equiv};
    ghost use Rattle.std.specs.Str.{bytes_eq};

    ghost eq = { bytes_eq };

    ghost laws = { partial_equiv_from_equiv nat_list_eq_equiv };

    fn eq(&self, other: &Bytes) -> bool {
        self.as_slice() == other.as_slice()
    }
}

impl Eq for Bytes {
    ghost use Rattle.std.specs.Cmp.Lexicographic.{nat_list_eq_equiv};

    ghost laws = { nat_list_eq_equiv };
}

fn held_of(alloc: Global, bytes: &[u8]) -> Result<Held, AllocError>
    ensures { IfOk result (λ held. held_bytes held ≡ bytes.now) }
{
    if bytes.len() <= MOST {
        return Ok(Held::Inline(Inline::of(bytes)));
    }
    Ok(Held::Spilled(Vec::from_slice(alloc, bytes)?))
}

// Bytes in memory of their own, and others after them.
fn spilled_both(alloc: Global, first: &[u8], second: &[u8]) -> Result<Vec<u8>, AllocError>
    ensures { IfOk result (λ items. items.items ≡ first.now ++ second.now) }
{
    let mut items = Vec::with_capacity(alloc, first.len().saturating_add(second.len()))?;
    items.extend_from_slice(first)?;
    items.extend_from_slice(second)?;
    Ok(items)
}

fn held_of_both(alloc: Global, first: &[u8], second: &[u8]) -> Result<Held, AllocError>
    ensures { IfOk result (λ held. held_bytes held ≡ first.now ++ second.now) }
{
    if first.len().saturating_add(second.len()) <= MOST {
        return Ok(Held::Inline(Inline::of_both(first, second)));
    }
    Ok(Held::Spilled(spilled_both(alloc, first, second)?))
}

fn bytes_in(held: &Held) -> &[u8]
    ensures { result.now ≡ held_bytes held.now }
{
    match held {
        Held::Inline(few) => few.as_slice(),
        Held::Spilled(items) => items.as_slice(),
    }
}

// Bytes and one more, with room for others.
fn spilled(alloc: Global, bytes: &[u8], more: u8) -> Result<Vec<u8>, AllocError>
    ensures { IfOk result (λ items. items.items ≡ bytes.now ++ more ∷ []) }
{
    let mut items = Vec::with_capacity(alloc, NEXT)?;
    items.extend_from_slice(bytes)?;
    items.push(more)?;
    Ok(items)
}

impl Bytes {
    /// The empty list. It takes no memory.
    pub fn new(alloc: Global) -> Bytes
        ensures { result ≡ [] }
    {
        Bytes {
            alloc,
            held: Held::Inline(Inline::of(&[])),
        }
    }

    /// The list of these bytes. More than 30 stay in the memory that they have.
    pub fn from_vec(items: Vec<u8>) -> Bytes
        ensures { result ≡ items.items }
    {
        let alloc = *items.allocator();
        if items.len() <= MOST {
            return Bytes {
                alloc,
                held: Held::Inline(Inline::of(items.as_slice())),
            };
        }
        Bytes {
            alloc,
            held: Held::Spilled(items),
        }
    }

    /// A copy of the bytes of a slice.
    pub fn from_slice(alloc: Global, bytes: &[u8]) -> Result<Bytes, AllocError>
        ensures { IfOk result (λ copy. copy ≡ bytes.now) }
    {
        Ok(Bytes {
            alloc,
            held: held_of(alloc, bytes)?,
        })
    }

    /// A copy of the bytes of a slice, and after them one of those of another.
    pub fn from_both(alloc: Global, first: &[u8], second: &[u8]) -> Result<Bytes, AllocError>
        ensures { IfOk result (λ both. both ≡ first.now ++ second.now) }
    {
        Ok(Bytes {
            alloc,
            held: held_of_both(alloc, first, second)?,
        })
    }

    /// The bytes in order.
    pub fn as_slice(&self) -> &[u8]
        ensures { result.now ≡ self.now }
    {
        bytes_in(&self.held)
    }

    /// The number of bytes.
    pub fn len(&self) -> usize
        ensures { result ≡ length self.now }
    {
        self.as_slice().len()
    }

    /// Whether there is none.
    pub fn is_empty(&self) -> bool
        ensures { result ≡ (length self.now == 0) }
    {
        self.as_slice().is_empty()
    }

    /// An equal list.
    pub fn copy(&self, alloc: Global) -> Result<Bytes, AllocError>
        ensures { IfOk result (λ copy. copy ≡ self.now) }
    {
        Bytes::from_slice(alloc, self.as_slice())
    }

    /// Puts a byte at the end. Out of memory, the list stays as it was.
    pub fn push(&mut self, byte: u8) -> Result<(), AllocError>
        ensures ok { OnOk result (self.new ≡ self.old ++ byte ∷ []) }
        ensures err { OnErr result (self.new ≡ self.old) }
    {
        match &mut self.held {
            Held::Inline(few) => {
                if few.has_room() {
                    few.push(byte);
                    return Ok(());
                }
                let more = spilled(self.alloc, few.as_slice(), byte)?;
                self.held = Held::Spilled(more);
                Ok(())
            }
            Held::Spilled(items) => {
                items.push(byte)?;
                Ok(())
            }
        }
    }

    /// Keeps at most so many bytes, the first ones.
    pub fn truncate(&mut self, len: usize)
        ensures { self.new ≡ take len self.old }
    {
        match &mut self.held {
            Held::Inline(few) => few.truncate(len),
            Held::Spilled(items) => items.truncate(len),
        }
    }

    /// Makes the letters of ASCII among the bytes small ones.
    pub fn make_ascii_lowercase(&mut self)
        ensures { self.new ≡ map to_ascii_lowercase self.old }
    {
        match &mut self.held {
            Held::Inline(few) => few.make_ascii_lowercase(),
            Held::Spilled(items) => items.as_mut_slice().make_ascii_lowercase(),
        }
    }
}
