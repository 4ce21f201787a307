//! The syntaxes of attributes.

ghost use Rattle.std.specs.Prelude.{◌≡◌};
ghost use Rattle.std.specs.Str.{bytes_eq};
ghost use Rattle.ad_value.specs.Syntax.{syntax_of, has_order, has_pieces};

/// How the values of an attribute are encoded and compared ([MS-ADTS] 3.1.1.2.2.2). Each syntax has an
/// object identifier of its own, but for `Other`.
#[derive(Clone, Copy, Debug, PartialEq, Eq)]
pub enum Syntax {
    /// 2.5.5.1: a distinguished name (RFC 4514).
    Name,
    /// 2.5.5.2: a text of ASCII, as of an object identifier.
    Ascii,
    /// 2.5.5.8: `TRUE` or `FALSE`.
    Boolean,
    /// 2.5.5.9: a signed number of 32 bits, in decimal.
    Integer,
    /// 2.5.5.16: a signed number of 64 bits, in decimal.
    Large,
    /// 2.5.5.10: bytes.
    Octets,
    /// 2.5.5.12: a text in UTF-8.
    Unicode,
    /// 2.5.5.17: a security identifier ([MS-DTYP] 2.4.2).
    Sid,
    /// Any other syntax: bytes.
    Other,
}

fn is(text: &[u8], oid: &[u8]) -> bool
    ensures { result ≡ bytes_eq text.now oid.now }
{
    text == oid
}

impl Syntax {
    /// The syntax of this object identifier in dotted decimal, as `2.5.5.12`; any other text is `Other`.
    pub fn from_oid(text: &[u8]) -> Syntax
        ensures { result ≡ syntax_of text.now }
    {
        if is(text, b"2.5.5.1") {
            return Syntax::Name;
        }
        if is(text, b"2.5.5.2") {
            return Syntax::Ascii;
        }
        if is(text, b"2.5.5.8") {
            return Syntax::Boolean;
        }
        if is(text, b"2.5.5.9") {
            return Syntax::Integer;
        }
        if is(text, b"2.5.5.10") {
            return Syntax::Octets;
        }
        if is(text, b"2.5.5.12") {
            return Syntax::Unicode;
        }
        if is(text, b"2.5.5.16") {
            return Syntax::Large;
        }
        if is(text, b"2.5.5.17") {
            return Syntax::Sid;
        }
        Syntax::Other
    }

    /// Whether values of the syntax have an order. Every syntax has equality.
    pub fn has_order(self) -> bool
        ensures { result ≡ has_order self }
    {
        match self {
            Syntax::Integer | Syntax::Large | Syntax::Octets | Syntax::Unicode => true,
            Syntax::Name | Syntax::Ascii | Syntax::Boolean | Syntax::Sid | Syntax::Other => false,
        }
    }

    /// Whether values of the syntax are searched for pieces.
    pub fn has_pieces(self) -> bool
        ensures { result ≡ has_pieces self }
    {
        match self {
            Syntax::Octets | Syntax::Unicode => true,
            Syntax::Name
            | Syntax::Ascii
            | Syntax::Boolean
            | Syntax::Integer
            | Syntax::Large
            | Syntax::Sid
            | Syntax::Other => false,
        }
    }
}
