//! That values have their ranges, which a contract can't see from outside. Each of these functions does nothing.

ghost use Rattle.std.specs.Prelude.{◌<◌, ◌^◌};
ghost use Rattle.ad_acl.specs.Writing.{IsEntry, IsGuidIf};

use ad_acl::Ace;
use ad_bytes::is_bytes;
use ad_ids::Guid;

fn flags_fit(flags: u8)
    ensures { flags < 256 }
{}

fn mask_fits(mask: u32)
    ensures { mask < 2 ^ 32 }
{}

fn guid_has_its_ranges(guid: &Option<Guid>)
    ensures { IsGuidIf guid.now }
{
    if let Some(guid) = guid {
        is_bytes(&guid.bytes);
    }
}

pub(crate) fn entry_has_its_ranges(ace: &Ace)
    ensures { IsEntry ace.now }
{
    flags_fit(ace.flags);
    mask_fits(ace.mask);
    guid_has_its_ranges(&ace.object);
    guid_has_its_ranges(&ace.inherited);
    ace.sid.has_its_ranges();
}
