//! The entries of a list one after the other, by value.

use crate::entries_in::EntriesIn;
use ad_acl::Ace;

/// The entries of a list in order, each by value. It takes no memory.
#[derive(Clone, Copy)]
pub struct Entries<'a> {
    entries: EntriesIn<'a>,
}

impl<'a> Entries<'a> {
    ghost use Rattle.std.specs.Prelude.{◌≡◌};
    ghost use Rattle.ad_sd.specs.View.{entries_left, to_come};

    // The same entries.
    #[inline]
    pub(crate) fn of(entries: EntriesIn<'a>) -> Entries<'a>
        ensures { entries_left result ≡ to_come entries.entry }
    {
        Entries { entries }
    }
}

impl<'a> Iterator for Entries<'a> {
    ghost use Rattle.std.specs.Iterator.{item_count, YieldsFirst};
    ghost use Rattle.ad_sd.specs.View.{entries_left};

    type Item = Ace;

    ghost next_gives = { YieldsFirst entries_left };

    ghost remaining = { item_count entries_left };

    fn next(&mut self) -> Option<Ace> {
        match self.entries.next() {
            Some(ace) => Some(ace.ace()),
            None => None,
        }
    }
}
