//! Identifiers that are looked for by their bytes. Nearly all are told apart by their ends, so the bytes are
//! decoded only where these are the same.

ghost use Rattle.std.specs.Prelude.{◌≡◌, ◌+◌, ◌≤◌, length, drop, true};
ghost use Rattle.byteorder.specs.Endian.{little_number};
ghost use Rattle.ad_ids.specs.SidValue.{SidValue};
ghost use Rattle.ad_ids.specs.SidBegun.{begins_with};

use crate::sid::Sid;
use ad_bytes::Input;
use byteorder::{ByteOrder, LittleEndian};

/// The number in the four bytes at the offset, the least significant first.
#[inline]
pub(crate) fn word_at(bytes: &[u8], at: usize) -> u32
    requires { at + 4 ≤ length bytes.now }
    ensures { result ≡ little_number 4 (drop at bytes.now) }
{
    LittleEndian::read_u32(&bytes[at..])
}

// Whether the number of sub-authorities and the last of them are those that the bytes say.
#[inline]
fn may_begin(words: &[u32], bytes: &[u8]) -> bool
    ensures { (sid : SidValue) → sid.sub_authorities ≡ words.now → begins_with bytes.now sid ≡ true
        → result ≡ true }
{
    let count = words.len();
    if count == 0 {
        return false;
    }
    if count > 15 {
        return false;
    }
    if bytes.len() < 8 + 4 * count {
        return false;
    }
    if usize::from(bytes[1]) != count {
        return false;
    }
    word_at(bytes, 4 + 4 * count) == words[count - 1]
}

// Decodes the bytes and compares.
#[tactic(auto, unfolding(crate::specs::SidBegun::begins_with))]
fn is_read(sid: &Sid, bytes: &[u8]) -> bool
    ensures { result ≡ begins_with bytes.now sid.now }
{
    let mut input = Input::new(bytes);
    match Sid::read(&mut input) {
        Ok(read) => *sid == read,
        Err(_) => false,
    }
}

impl Sid {
    ghost use Rattle.std.specs.Prelude.{ℕ, [], ◌∷◌, ◌^◌, ◌<◌};

    /// Whether the bytes begin with this identifier as it is written ([MS-DTYP] 2.4.2.2). Bytes may follow it.
    /// Where the bytes begin with no identifier, it isn't this one.
    #[inline]
    pub fn begins(&self, bytes: &[u8]) -> bool
        ensures { result ≡ begins_with bytes.now self.now }
    {
        if !may_begin(self.sub_authorities(), bytes) {
            return false;
        }
        is_read(self, bytes)
    }

    /// Whether the bytes may begin with an identifier of one sub-authority. Where they may not, they begin with none.
    #[inline]
    pub fn may_be_well_known(bytes: &[u8]) -> bool
        ensures { (authority sub_authority : ℕ) →
            begins_with bytes.now (record {
              authority = authority;
              sub_authorities = sub_authority
                  ∷ [];
            }) ≡ true →
            result ≡ true }
    {
        bytes.len() >= 8 && bytes[1] == 1
    }

    /// Whether the bytes begin with the identifier that has the one sub-authority below the authority, which is
    /// below 2^48.
    #[inline]
    pub fn well_known_begins(authority: u64, sub_authority: u32, bytes: &[u8]) -> bool
        requires { authority < 2 ^ 48 }
        ensures { result ≡ begins_with bytes.now
            (record { authority = authority; sub_authorities = sub_authority ∷ [] }) }
    {
        if !may_begin(&[sub_authority], bytes) {
            return false;
        }
        is_read(&Sid::well_known(authority, sub_authority), bytes)
    }
}
