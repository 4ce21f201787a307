//! Which rights a token is granted on an object, on one path.

ghost use Rattle.ad_types.specs.Path.{guids_of};
ghost use Rattle.ad_access_dir.specs.Masks.{IsMask};
ghost use Rattle.ad_diff_rights.specs.Asked.{IsLiveAsked, grants_of};

use crate::own::own_sid;
use ad_access::granted;
use ad_dir::{Dir, live_sd};
use ad_ids::Token;
use ad_types::Path;

/// A token on an object: with the object's own identifier, or as if it had none.
#[derive(Drop)]
pub(crate) struct Asked<'a> {
    pub dir: &'a Dir,
    pub token: &'a Token,
    pub number: u32,
    pub own: bool,
}

/// The wanted rights that are granted on a path.
pub(crate) fn mask_on(asked: &Asked<'_>, path: &Path, want: u32) -> u32
    requires { IsLiveAsked asked.now }
    ensures { IsMask want (grants_of asked.now (guids_of path.now)) result }
{
    granted(
        live_sd(asked.dir, asked.number),
        asked.token,
        own_sid(asked.dir, asked.own, asked.number),
        path,
        want,
    )
}
