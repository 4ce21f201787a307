//! The type of a relative distinguished name.

ghost use Rattle.std.specs.Prelude.{◌≡◌};
ghost use Rattle.std.specs.List.{list_all};
ghost use Rattle.ad_dn.specs.AttributeType.{is_letter, is_type_byte, is_type};

pub fn is_letter(byte: u8) -> bool
    ensures { result ≡ is_letter byte }
{
    byte.is_ascii_alphabetic()
}

// A letter, a digit or a hyphen.
pub fn is_type_byte(byte: u8) -> bool
    ensures { result ≡ is_type_byte byte }
{
    is_letter(byte) || byte.is_ascii_digit() || byte == b'-'
}

fn are_type_bytes(bytes: &[u8]) -> bool
    ensures { result ≡ list_all is_type_byte bytes.now }
{
    bytes.iter().all(|byte| is_type_byte(*byte))
}

/// Whether the bytes are a type of a relative distinguished name by its short name (RFC 4512 1.4,
/// `keystring`): a letter in either case, and then letters, digits and hyphens. It takes no memory.
pub fn is_type(bytes: &[u8]) -> bool
    ensures { result ≡ is_type bytes.now }
{
    match bytes {
        [] => false,
        [first, rest @ ..] => is_letter(*first) && are_type_bytes(rest),
    }
}
