//! A list of security identifiers, with an index where it is long.

ghost use Rattle.std.specs.Prelude.{◌≡◌, ◌++◌, ◌==◌, [], ◌∷◌, List, length, OnOk, OnErr};
ghost use Rattle.ad_ids.specs.SidValue.{contains_sid};
ghost use Rattle.ad_ids.specs.SidBegun.{begins_with_one};

use crate::sid::Sid;
use crate::sid_index::SidIndex;
use std::alloc::{AllocError, Global};
use std::marker::Model;

/// A list of security identifiers, which a contract sees as one.
#[derive(Debug, Drop)]
pub struct Sids {
    items: Vec<Sid>,
    // Where each of them stands, by its hash: for long lists, and where there was memory for it.
    index: Option<SidIndex>,
}

impl Model for Sids {
    ghost use Rattle.std.specs.Prelude.{List};
    ghost use Rattle.ad_ids.specs.SidValue.{SidValue};
    ghost use Rattle.ad_ids.specs.SidIndex.{IsIndexIf};

    ghost Value = { List SidValue };

    ghost view = { λ sids. sids.items.items };

    ghost invariant = { λ sids. IsIndexIf sids.index sids.items.items };
}

impl PartialEq for Sids {
    ghost use Rattle.std.specs.Cmp.{partial_equiv_from_equiv};
    ghost use Rattle.std.specs.Cmp.Lexicographic.{pointwise, lists_equiv};
    ghost use Rattle.ad_ids.specs.SidValue.{same_sid, same_sid_laws};

    ghost eq = { pointwise same_sid };

    ghost laws = { partial_equiv_from_equiv (lists_equiv same_sid_laws) };

    fn eq(&self, other: &Sids) -> bool {
        self.items.as_slice() == other.items.as_slice()
    }
}

impl Eq for Sids {
    ghost use Rattle.std.specs.Cmp.Lexicographic.{lists_equiv};
    ghost use Rattle.ad_ids.specs.SidValue.{same_sid_laws};

    ghost laws = { lists_equiv same_sid_laws };
}

// Whether the bytes begin with one of the identifiers.
fn begun_in(items: &[Sid], bytes: &[u8]) -> bool
    ensures { result ≡ begins_with_one bytes.now items.now }
{
    for sid in items {
        if sid.begins(bytes) {
            return true;
        }
    }
    false
}

impl Sids {
    /// The empty list.
    pub fn new(alloc: Global) -> Sids
        ensures { result ≡ [] }
    {
        Sids {
            items: Vec::new(alloc),
            index: None,
        }
    }

    /// The list of these identifiers, in the memory that they have.
    pub fn from_vec(items: Vec<Sid>) -> Sids
        ensures { result ≡ items.items }
    {
        Sids { items, index: None }
    }

    /// The same list, with an index where it is long and there is memory for one.
    pub(crate) fn indexed(self) -> Sids
        ensures { result ≡ self }
    {
        let index = SidIndex::of(*self.items.allocator(), self.items.as_slice());
        Sids {
            items: self.items,
            index,
        }
    }

    /// The identifiers, in the memory that they have.
    pub fn into_vec(self) -> Vec<Sid>
        ensures { result.items ≡ self }
    {
        self.items
    }

    /// The identifiers in order.
    pub fn as_slice(&self) -> &[Sid]
        ensures { result.now ≡ self.now }
    {
        self.items.as_slice()
    }

    /// The number of identifiers.
    pub fn len(&self) -> usize
        ensures { result ≡ length self.now }
    {
        self.items.len()
    }

    /// Whether there is none.
    pub fn is_empty(&self) -> bool
        ensures { result ≡ (length self.now == 0) }
    {
        self.items.is_empty()
    }

    /// Whether the identifier is one of them. It takes no memory.
    pub fn contains(&self, sid: &Sid) -> bool
        ensures { result ≡ contains_sid self.now sid.now }
    {
        match &self.index {
            Some(index) => index.contains(self.items.as_slice(), sid),
            None => self.items.contains(sid),
        }
    }

    /// Whether the bytes begin with one of the identifiers, as [`Sid::begins`] says. It takes no memory.
    pub fn contains_begun(&self, bytes: &[u8]) -> bool
        ensures { result ≡ begins_with_one bytes.now self.now }
    {
        match &self.index {
            Some(index) => index.contains_begun(self.items.as_slice(), bytes),
            None => begun_in(self.items.as_slice(), bytes),
        }
    }

    /// Puts an identifier at the end. Out of memory, the list stays as it was.
    pub fn push(&mut self, sid: Sid) -> Result<(), AllocError>
        ensures ok { OnOk result (self.new ≡ self.old ++ sid ∷ []) }
        ensures err { OnErr result (self.new ≡ self.old) }
    {
        self.index = None;
        self.items.push(sid)?;
        Ok(())
    }
}
