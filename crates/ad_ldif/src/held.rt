//! A line's value, which lines that follow one another may share.

ghost use Rattle.std.specs.Prelude.{◌≡◌};
ghost use Rattle.ad_ldif.specs.Records.{bytes_of};

use ad_bytes::Bytes;
use std::rc::Rc;

/// The bytes of a value, of one line alone or of several.
#[derive(Debug, Drop)]
pub enum Held {
    Own(Bytes),
    Shared(Rc<Bytes>),
}

impl Held {
    /// The bytes, whoever has them.
    pub fn as_slice(&self) -> &[u8]
        ensures { result.now ≡ bytes_of self.now }
    {
        match self {
            Held::Own(bytes) => bytes.as_slice(),
            Held::Shared(bytes) => bytes.as_ref().as_slice(),
        }
    }
}

impl PartialEq for Held {
    ghost use Rattle.std.specs.Cmp.{on_per, partial_equiv_from_equiv};
    ghost use Rattle.std.specs.Cmp.Lexicographic.{nat_list_eq_equiv};
    ghost use Rattle.std.specs.Str.{bytes_eq};
    ghost use Rattle.ad_ldif.specs.Records.{bytes_of};

    ghost eq = { λ a b. bytes_eq (bytes_of a) (bytes_of b) };

    ghost laws = { on_per bytes_of (partial_equiv_from_equiv nat_list_eq_equiv) };

    fn eq(&self, other: &Held) -> bool {
        self.as_slice() == other.as_slice()
    }
}

impl Eq for Held {
    ghost use Rattle.std.specs.Cmp.{on_equiv};
    ghost use Rattle.std.specs.Cmp.Lexicographic.{nat_list_eq_equiv};
    ghost use Rattle.ad_ldif.specs.Records.{bytes_of};

    ghost laws = { on_equiv bytes_of nat_list_eq_equiv };
}
