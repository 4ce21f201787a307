//! The entries of a list one after the other, seen in their bytes.

ghost use Rattle.std.specs.Prelude.{◌≡◌, true};
ghost use Rattle.ad_sd.specs.Entries.{are_read};

use ad_acl::AceIn;

/// The entries of a list in order, each seen in its bytes. It takes no memory.
#[derive(Clone, Copy)]
pub struct EntriesIn<'a> {
    // The entries that are still to come stand at the start of these bytes.
    rest: &'a [u8],
    count: u64,
    ghost readable: { are_read count rest.now ≡ true },
}

impl<'a> EntriesIn<'a> {
    ghost use Rattle.std.specs.Prelude.{◌≡◌, true};
    ghost use Rattle.ad_sd.specs.Entries.{are_read, entries_of};
    ghost use Rattle.ad_sd.specs.View.{to_come};

    // So many entries, which stand at the start of the bytes.
    #[inline]
    pub(crate) fn of(rest: &'a [u8], count: u64) -> EntriesIn<'a>
        requires { are_read count rest.now ≡ true }
        ensures { to_come result ≡ entries_of count rest.now }
    {
        EntriesIn { rest, count }
    }
}

impl<'a> Iterator for EntriesIn<'a> {
    ghost use Rattle.std.specs.Iterator.{item_count, YieldsFirstBy};
    ghost use Rattle.ad_acl.specs.EntrySeen.{entry_seen};
    ghost use Rattle.ad_sd.specs.View.{to_come};

    type Item = AceIn<'a>;

    ghost next_gives = { YieldsFirstBy entry_seen to_come };

    ghost remaining = { item_count to_come };

    #[inline]
    fn next(&mut self) -> Option<AceIn<'a>> {
        if self.count == 0 {
            return None;
        }
        let (ace, rest) = AceIn::split_first(self.rest);
        self.rest = rest;
        self.count -= 1;
        Some(ace)
    }
}
