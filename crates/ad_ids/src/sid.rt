//! A security identifier as a value, and its bytes.

ghost use Rattle.std.specs.Prelude.{◌≡◌, ◌<◌, ◌≤◌, ◌^◌, ◌+◌, ◌*◌, ◌++◌, length, take, drop, List, ℕ, OnOk, OnErr};
ghost use Rattle.std.specs.Prelude.{IfOk, IfErr, Ok, Err};
ghost use Rattle.std.specs.List.{flat_map, AllByRecursion};
ghost use Rattle.ad_bytes.specs.Reading.{Reads, TakesFront, many_at};
ghost use Rattle.ad_bytes.specs.Numbers.{le_at, be_bytes, le_bytes};
ghost use Rattle.ad_ids.specs.Sid.{IsSid, SpellsSid, sid_bytes};
ghost use Rattle.ad_ids.specs.SidValue.{SidValue};
ghost use Rattle.ad_ids.specs.SidReading.{header_at, sid_at};
ghost use Rattle.ad_ids.specs.SidPlaces.{ReadsPlaces};
ghost use Rattle.ad_ids.specs.declared.sid.SidFault.TheVariants.{Short as SidShort};

mod child;
mod front;
mod reading;
mod text;

use ad_bytes::{Input, Short};
use byteorder::{BigEndian, ByteOrder};
pub use reading::SidTextFault;
use std::alloc::AllocError;
use std::hash::{Hash, Hasher};
use std::marker::Model;
use thiserror::Error;

/// Why bytes are no security identifier: the fault that stands first.
#[derive(Clone, Copy, Debug, PartialEq, Eq, Error)]
pub enum SidFault {
    /// The bytes end before the identifier does.
    #[error("the security identifier is cut short")]
    Short,
    /// The revision is not 1.
    #[error("the security identifier has revision {0}")]
    Revision(u8),
    /// The number of sub-authorities is 0 or above 15.
    #[error("the security identifier has {0} sub-authorities")]
    Count(u8),
}

impl From<Short> for SidFault {
    ghost from_gives = { λ _ e. e ≡ SidShort };

    fn from(_: Short) -> SidFault {
        SidFault::Short
    }
}

/// The largest number of sub-authorities of an identifier.
const MAX_SUB_AUTHORITIES: usize = 15;

/// The largest number of bytes of an identifier.
pub const MAX_SID_BYTES: usize = 68;

/// A security identifier ([MS-DTYP] 2.4.2): an authority of 48 bits and 1 to 15 sub-authorities of
/// 32 bits. It takes no memory.
#[derive(Clone, Copy, Debug)]
pub struct Sid {
    authority: u64,
    count: u8,
    // The sub-authorities, and 0 after them.
    places: [u32; MAX_SUB_AUTHORITIES],
}

impl Model for Sid {
    ghost use Rattle.ad_ids.specs.SidValue.{SidValue};

    ghost Value = { SidValue };

    ghost use Rattle.ad_ids.specs.SidFields.{value_of, IsPadded, fields_of, fields_of-value_of};

    ghost view = { value_of };

    ghost invariant = { IsPadded };

    ghost inverse = { fields_of };

    ghost inverse_ok = { fields_of-value_of };
}

impl PartialEq for Sid {
    ghost use Rattle.std.specs.Cmp.{and_equiv, on_equiv, partial_equiv_from_equiv, nat_eq_equiv};
    ghost use Rattle.std.specs.Cmp.Lexicographic.{nat_list_eq_equiv};
    ghost use Rattle.ad_ids.specs.SidValue.{SidValue, same_sid, same_sid_laws};

    ghost eq = { same_sid };

    ghost laws = { partial_equiv_from_equiv same_sid_laws };

    fn eq(&self, other: &Sid) -> bool {
        // Identifiers of one domain differ at their ends, so these are compared first.
        if self.count != other.count {
            return false;
        }
        let last = usize::from(self.count) - 1;
        if self.places[last] != other.places[last] {
            return false;
        }
        self.authority == other.authority && self.places == other.places
    }
}

impl Eq for Sid {
    ghost use Rattle.ad_ids.specs.SidValue.{same_sid_laws};

    ghost laws = { same_sid_laws };
}

impl Hash for Sid {
    ghost use Rattle.std.specs.Prelude.{◌++◌};
    ghost use Rattle.std.specs.Hash as fed;
    ghost use Rattle.ad_ids.specs.SidValue.{same_sid_alike};

    ghost hash_input = { λ s. fed.u64 s.authority ++ fed.slice fed.u32 s.sub_authorities };

    ghost respects_eq = { same_sid_alike.fed };

    fn hash<H: Hasher>(&self, state: &mut H) {
        self.authority.hash(state);
        self.sub_authorities().hash(state);
    }
}

impl Sid {
    ghost use Rattle.std.specs.Prelude.{[], ◌∷◌, ◌^◌, ◌<◌};
    ghost use Rattle.ad_ids.specs.SidValue.{same_sid};
    ghost use Rattle.ad_ids.specs.WellKnown.{builtin, administrators, users};

    /// The identifier S-1-5-32 with this number, as those of the groups that each domain has are.
    pub fn builtin(number: u32) -> Sid
        ensures { result ≡ builtin number }
    {
        match Sid::well_known(5, 32).child(number) {
            Some(sid) => sid,
            None => unreachable!(),
        }
    }

    /// The group of administrators, S-1-5-32-544.
    pub fn administrators() -> Sid
        ensures { result ≡ administrators }
    {
        Sid::builtin(544)
    }

    /// The group of users, S-1-5-32-545.
    pub fn users() -> Sid
        ensures { result ≡ users }
    {
        Sid::builtin(545)
    }

    /// The identifier with the one sub-authority below the authority, as those of well-known principals
    /// are. The authority is below 2^48.
    pub fn well_known(authority: u64, sub_authority: u32) -> Sid
        requires { authority < 2 ^ 48 }
        ensures { result ≡ record { authority = authority; sub_authorities = sub_authority ∷ [] } }
    {
        let mut places = [0; MAX_SUB_AUTHORITIES];
        places[0] = sub_authority;
        Sid {
            authority,
            count: 1,
            places,
        }
    }

    /// Whether it is the identifier with the one sub-authority below the authority, which is below 2^48.
    pub fn is_well_known(&self, authority: u64, sub_authority: u32) -> bool
        requires { authority < 2 ^ 48 }
        ensures { result ≡ same_sid self.now
            (record { authority = authority; sub_authorities = sub_authority ∷ [] }) }
    {
        if self.count != 1 {
            return false;
        }
        self.authority == authority && self.places[0] == sub_authority
    }
}

#[tactic(auto, unfolding(crate::specs::SidReading::header_at))]
fn header(input: &mut Input<'_>) -> Result<u8, SidFault>
    ensures read { Reads result input.new (header_at input.old) }
    ensures count { IfOk result (λ count. (1 ≤ count) × (count ≤ 15)) }
{
    let revision = input.byte()?;
    if revision != 1 {
        return Err(SidFault::Revision(revision));
    }
    let count = input.byte()?;
    if count == 0 || count > 15 {
        return Err(SidFault::Count(count));
    }
    Ok(count)
}

// The sub-authorities, and zeros after them.
#[tactic(auto)]
fn sub_authorities(input: &mut Input<'_>, count: u8) -> Result<[u32; MAX_SUB_AUTHORITIES], Short>
    requires { count ≤ 15 }
    ensures read { ReadsPlaces count result input.new (many_at (le_at 4) count input.old) }
{
    let mut places = [0; MAX_SUB_AUTHORITIES];
    for place in 0..count {
        places[usize::from(place)] = input.le32()?;
    }
    Ok(places)
}

impl Sid {
    /// Reads an identifier at the start of the input ([MS-DTYP] 2.4.2.2).
    ///
    /// # Errors
    ///
    /// The fault that stands first from the left, as in [`Sid::from_bytes`]. The input stays as it was.
    pub fn read(input: &mut Input<'_>) -> Result<Sid, SidFault>
        ensures read { Reads result input.new (sid_at input.old) }
        ensures err { OnErr result (input.new ≡ input.old) }
    {
        let mut probe = Input::new(input.rest());
        let sid = Sid::read_through(&mut probe)?;
        *input = probe;
        Ok(sid)
    }

    // The same, but after a fault the input stands somewhere within the identifier.
    #[tactic(auto, unfolding(crate::specs::SidReading::sid_at))]
    fn read_through(input: &mut Input<'_>) -> Result<Sid, SidFault>
        ensures read { Reads result input.new (sid_at input.old) }
    {
        let count = header(input)?;
        let authority = input.be48()?;
        let places = sub_authorities(input, count)?;
        Ok(Sid {
            authority,
            count,
            places,
        })
    }

    /// Reads an identifier at the start of the bytes ([MS-DTYP] 2.4.2.2), and answers it with the number
    /// of bytes that it takes. Bytes may follow it.
    ///
    /// # Errors
    ///
    /// The fault that stands first from the left: `Revision` where the first byte isn't 1, `Count` where
    /// the second is 0 or above 15, and `Short` where the bytes end before the identifier does.
    pub fn from_bytes(bytes: &[u8]) -> Result<(Sid, usize), SidFault>
        // What is read is encoded so, and the rest stands after it.
        ensures found { IfOk result
            (λ found. TakesFront SpellsSid bytes.now found.0 (drop found.1 bytes.now)) }
        ensures within { IfOk result (λ found. found.1 ≤ length bytes.now) }
        // Whatever is encoded so is read.
        ensures only { (sid : SidValue) (text rest : List ℕ) → SpellsSid sid text → bytes.now ≡ text
            ++ rest → result ≡ Ok (sid, length text) }
        // Which fault it is.
        ensures fault { IfErr result (λ fault. sid_at bytes.now ≡ Err fault) }
    {
        let mut input = Input::new(bytes);
        let sid = Sid::read(&mut input)?;
        Ok((sid, bytes.len() - input.len()))
    }

    /// Writes the identifier at the start of the bytes, and answers how many it takes: 8 and 4 for each
    /// sub-authority. The bytes after it stay.
    pub fn write(&self, into: &mut [u8; MAX_SID_BYTES]) -> usize
        ensures written { into.new ≡ sid_bytes self.now ++ drop result into.old }
        ensures size { result ≡ length (sid_bytes self.now) }
        ensures few { result ≤ 68 }
        ensures spelled { SpellsSid self.now (take result into.new) }
    {
        put(into, 0, &[1, self.count]);
        put(into, 2, &authority_bytes(self.authority));
        put_words(into, 8, self.sub_authorities());
        8 + 4 * usize::from(self.count)
    }

    /// Puts the identifier's bytes after those of the vector ([MS-DTYP] 2.4.2.2): 8 and 4 for each sub-authority.
    ///
    /// # Errors
    ///
    /// Out of memory. The vector's bytes stay as they were.
    pub fn append(&self, into: &mut Vec<u8>) -> Result<(), AllocError>
        ensures ok { OnOk result (into.new.items ≡ into.old.items ++ sid_bytes self.now) }
        ensures err { OnErr result (into.new.items ≡ into.old.items) }
        ensures is { IsSid self.now }
    {
        let mut bytes = [0; MAX_SID_BYTES];
        let len = self.write(&mut bytes);
        into.extend_from_slice(&bytes[..len])?;
        Ok(())
    }

    /// The sub-authorities in order.
    pub fn sub_authorities(&self) -> &[u32]
        ensures { result.now ≡ self.now.sub_authorities }
    {
        &self.places[..usize::from(self.count)]
    }
}

// The authority's six bytes, the most significant first.
#[tactic(auto, unfolding(ad_bytes::specs::Numbers::be_bytes))]
fn authority_bytes(authority: u64) -> [u8; 6]
    requires { authority < 2 ^ 48 }
    ensures { result ≡ be_bytes 6 authority }
{
    let mut bytes = [0; 6];
    BigEndian::write_u48(&mut bytes, authority);
    bytes
}

// Puts the bytes after a text that was written at the start.
fn put(into: &mut [u8], at: usize, bytes: &[u8])
    requires { at + length bytes.now ≤ length into.old }
    ensures { (old text : List ℕ) → length text ≡ at → into.old ≡ text ++ drop at old → into.new
        ≡ (text ++ bytes.now) ++ drop (at + length bytes.now) old }
{
    into[at..at + bytes.len()].copy_from_slice(bytes);
}

// Puts each number in four bytes, the least significant first, after a text that was written at the start.
fn put_words(into: &mut [u8], at: usize, words: &[u32])
    requires { at + 4 * length words.now ≤ length into.old }
    ensures put { (old text : List ℕ) → length text ≡ at → into.old ≡ text ++ drop at old
        → into.new ≡ (text ++ flat_map (le_bytes 4) words.now) ++ drop (at + 4 * length words.now)
        old }
    ensures fit { AllByRecursion (λ n. n < 2 ^ 32) words.now }
{
    for (i, word) in words.iter().enumerate() {
        put(into, at + 4 * i, &word.to_le_bytes());
    }
}
