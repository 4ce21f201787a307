//! Laws of the formats. Each is the contract of a function that does nothing.

ghost use Rattle.std.specs.Prelude.{◌≡◌, ◌+◌, ◌*◌, ◌++◌, ℕ, List, length};
ghost use Rattle.ad_bytes.specs.Reading.{IsReaderOf};
ghost use Rattle.ad_ids.specs.Guid.{SpellsGuid, guid_at};
ghost use Rattle.ad_ids.specs.Sid.{SpellsSid, sid_bytes};
ghost use Rattle.ad_ids.specs.SidReading.{sid_at};
ghost use Rattle.ad_ids.specs.SidValue.{SidValue};
ghost use Rattle.ad_ids.specs.Token.{SpellsFields, SpellsToken};
ghost use Rattle.ad_ids.specs.TokenReading.{fields_at};
ghost use Rattle.ad_ids.specs.declared.token.Token.{Token as TokenValue};

/// What is read of an identifier is encoded by the bytes taken, and each encoding is read, whatever follows.
pub fn a_sid_is_read_as_spelled()
    ensures { IsReaderOf SpellsSid sid_at }
{}

/// The same of a GUID.
pub fn a_guid_is_read_as_spelled()
    ensures { IsReaderOf SpellsGuid guid_at }
{}

/// The same of the fields of a token.
pub fn a_token_is_read_as_spelled()
    ensures { IsReaderOf SpellsFields fields_at }
{}

/// The number of bytes of an identifier.
pub fn a_sid_has_8_bytes_and_4_for_each()
    ensures { (sid : SidValue) → length (sid_bytes sid) ≡ 8 + 4 * length sid.sub_authorities }
{}

/// No encoding of a token begins another: bytes that begin with one are that token's, and end where it does.
pub fn no_token_begins_another()
    ensures { (a b : TokenValue) (x y r s : List ℕ) → SpellsToken a x → SpellsToken b y → x ++ r ≡ y
        ++ s → (a ≡ b) × (x ≡ y) }
{}
