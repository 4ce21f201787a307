//! What the checks of an operation say up to what it needs.

use crate::need::Need;
use ad_dir::Act;
use ad_dn::Dn;

/// What the checks of an operation say of it, up to what it needs.
#[derive(Drop)]
pub enum Verdict {
    /// All of them hold: what is asked for, resolved against the directory.
    Granted(Act),
    /// The first that fails gives this code of RFC 4511.
    Refused(u8),
    /// It is that the object isn't there or isn't visible, code 32; the nearest name above that is, or the empty one.
    Hidden(Dn),
    /// It is that none of the alternatives of a required right is granted, code 50.
    Missing(Need),
}
