//! A few bytes that stand where they are kept.

ghost use Rattle.std.specs.Prelude.{◌≡◌, ◌+◌, ◌++◌, ◌≤◌, ◌<◌, [], ◌∷◌, length, take, IsTrue, ◌↔◌, map};
ghost use Rattle.std.specs.Char.{to_ascii_lowercase};

/// The largest number of such bytes: so many fit in where a vector would stand.
pub(crate) const MOST: usize = 30;

/// The first bytes count, and the others don't.
#[derive(Debug, Drop)]
pub(crate) struct Inline {
    len: u8,
    bytes: [u8; MOST],
    ghost within: { len ≤ 30 },
}

// Puts bytes over the first ones.
fn put_over(into: &mut [u8], bytes: &[u8])
    requires { length bytes.now ≤ length into.old }
    ensures { take (length bytes.now) into.new ≡ bytes.now }
{
    into[..bytes.len()].copy_from_slice(bytes);
}

// Puts bytes over the first ones, and others over those after them.
fn put_both(into: &mut [u8], first: &[u8], second: &[u8])
    requires { length first.now + length second.now ≤ length into.old }
    ensures { take (length first.now + length second.now) into.new ≡ first.now ++ second.now }
{
    let (before, behind) = into.split_at_mut(first.len());
    before.copy_from_slice(first);
    put_over(behind, second);
}

impl Inline {
    pub(crate) fn of(bytes: &[u8]) -> Inline
        requires { length bytes.now ≤ 30 }
        ensures { take result.len result.bytes ≡ bytes.now }
    {
        let mut kept = [0; MOST];
        put_over(&mut kept, bytes);
        Inline {
            len: bytes.len() as u8,
            bytes: kept,
        }
    }

    pub(crate) fn of_both(first: &[u8], second: &[u8]) -> Inline
        requires { length first.now + length second.now ≤ 30 }
        ensures { take result.len result.bytes ≡ first.now ++ second.now }
    {
        let mut kept = [0; MOST];
        put_both(&mut kept, first, second);
        Inline {
            len: (first.len() + second.len()) as u8,
            bytes: kept,
        }
    }

    /// Whether there is room for one more.
    pub(crate) fn has_room(&self) -> bool
        ensures { IsTrue result ↔ (self.now.len < 30) }
    {
        usize::from(self.len) < MOST
    }

    pub(crate) fn as_slice(&self) -> &[u8]
        ensures { result.now ≡ take self.now.len self.now.bytes }
    {
        &self.bytes[..usize::from(self.len)]
    }

    pub(crate) fn push(&mut self, byte: u8)
        requires { self.old.len < 30 }
        ensures { take self.new.len self.new.bytes ≡ take self.old.len self.old.bytes ++ byte ∷ [] }
    {
        self.bytes[usize::from(self.len)] = byte;
        self.len += 1;
    }

    pub(crate) fn truncate(&mut self, len: usize)
        ensures { take self.new.len self.new.bytes ≡ take len (take self.old.len self.old.bytes) }
    {
        if len < usize::from(self.len) {
            self.len = len as u8;
        }
    }

    pub(crate) fn make_ascii_lowercase(&mut self)
        ensures { take self.new.len self.new.bytes
            ≡ map to_ascii_lowercase (take self.old.len self.old.bytes) }
    {
        self.bytes.make_ascii_lowercase();
    }
}
