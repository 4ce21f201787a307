//! One right that was asked for, and whether it was granted.

ghost use Rattle.std.specs.Prelude.{◌≡◌};
ghost use Rattle.ad_types.specs.Path.{guids_of};
ghost use Rattle.ad_types.specs.Tried.{tried_value, success_on, failure_on};

use crate::type_path::Path;

/// One right that an access asked for at an object, and whether it was granted: what an audit entry is judged by.
///
/// `object` is the number of the object, `right` one bit of the access mask ([MS-ADTS] 5.1.3.2), `path` the GUIDs
/// that it was asked on, from the object's class down, and `success` whether it was granted.
#[derive(Clone, Copy, Debug, PartialEq, Eq)]
pub struct Tried {
    pub object: u32,
    pub right: u32,
    pub path: Path,
    pub success: bool,
}

/// A right, as a mask, that was granted.
pub fn succeeded(object: u32, right: u32, path: Path) -> Tried
    ensures { tried_value result ≡ success_on object right (guids_of path) }
{
    Tried {
        object,
        right,
        path,
        success: true,
    }
}

/// One that wasn't.
pub fn failed(object: u32, right: u32, path: Path) -> Tried
    ensures { tried_value result ≡ failure_on object right (guids_of path) }
{
    Tried {
        object,
        right,
        path,
        success: false,
    }
}
