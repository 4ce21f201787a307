//! Records and their lines, as they are read.

ghost use Rattle.std.specs.Prelude.{◌≡◌};
ghost use Rattle.ad_ldif.specs.Records.{bytes_of};

use crate::held::Held;
use ad_bytes::Bytes;

/// An attribute's line. `line` is the number of the physical line where it begins; `name` is
/// spelled as in the text; the value `held` has at most 1,048,576 bytes.
#[derive(Debug, PartialEq, Eq, Drop)]
pub struct LdifLine {
    pub line: u32,
    pub name: Bytes,
    pub held: Held,
}

impl LdifLine {
    /// The value.
    pub fn value(&self) -> &[u8]
        ensures { result.now ≡ bytes_of self.now.held }
    {
        self.held.as_slice()
    }
}

/// A record. `line` is the number of the physical line where its `dn` begins; `dn` is that line's
/// value, of at most 1,048,576 bytes; `lines` are the lines after `dn` and `changetype: add`, in
/// order.
#[derive(Debug, PartialEq, Eq, Drop)]
pub struct LdifRecord {
    pub line: u32,
    pub dn: Bytes,
    pub lines: Vec<LdifLine>,
}
