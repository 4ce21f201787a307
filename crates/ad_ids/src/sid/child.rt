//! An identifier below another one, as a domain's principals are below the domain.

ghost use Rattle.std.specs.Prelude.{◌≡◌, ◌<◌, ◌^◌};
ghost use Rattle.std.specs.List.{AllByRecursion};
ghost use Rattle.ad_ids.specs.SidChild.{child_of};
ghost use Rattle.ad_ids.specs.Sid.{IsSid};

use super::{MAX_SUB_AUTHORITIES, Sid};

impl Sid {
    /// The identifier with this sub-authority after its own, and none where it has 15 of them.
    pub fn child(&self, number: u32) -> Option<Sid>
        ensures { result ≡ child_of self.now number }
    {
        if usize::from(self.count) == MAX_SUB_AUTHORITIES {
            return None;
        }
        let mut places = self.places;
        places[usize::from(self.count)] = number;
        Some(Sid {
            authority: self.authority,
            count: self.count + 1,
            places,
        })
    }

    /// Does nothing. Its contract says that each identifier has the ranges of one.
    pub fn has_its_ranges(&self)
        ensures { IsSid self.now }
    {
        let _authority = self.authority;
        have_their_ranges(self.sub_authorities());
    }
}

fn have_their_ranges(words: &[u32])
    ensures { AllByRecursion (λ n. n < 2 ^ 32) words.now }
{}
